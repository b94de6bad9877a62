//! The writer and its block slips.
#![tactic(auto, using(crate::proofs::Steps::steps))]

ghost use Rattle.std.specs.Prelude.{◌≡◌, ◌+◌, ◌≤◌};
ghost use Rattle.syntax.specs.Tokens.{value_of};
ghost use Rattle.writer.specs.Writes.{Adds, Closes, Finishes, New, Opens, Puts};

use crate::adding::Admitted;
use crate::counts::Counts;
use crate::state::State;
use refusal::Fault;
use stream::Sink;
use syntax::token::Token;

/// A block slip: the block's depth, from 1, and the number of its kind, two plain numbers as a call gives them. A slip
/// of depth 0 is spent, and only such a one may be let go.
pub struct Slip {
    pub(crate) depth: usize,
    pub(crate) kind: u8,
}

impl Drop for Slip {
    fn drop(self)
        requires { self.depth ≡ 0 }
    {
        let Slip { depth: _, kind: _ } = self;
    }
}

/// A writer over any sink. Its bytes are those that the sink holds beyond what it held at the start.
#[derive(Drop)]
pub struct Writer<S> {
    pub(crate) sink: S,
    pub(crate) state: State,
}

impl<S: Sink> Writer<S> {
    pub fn new(sink: S) -> Writer<S>
        ensures { New sink result }
    {
        Writer {
            sink,
            state: State::new(),
        }
    }

    /// Gives the sink back.
    pub fn into_sink(self) -> S
        ensures { result ≡ self.sink }
    {
        let Writer { sink, state: _ } = self;
        sink
    }

    /// Whether a finish was not refused.
    pub fn is_finished(&self) -> bool
        ensures { result ≡ self.now.state.finished }
    {
        self.state.finished
    }

    /// Writes the comment if due and the admitted token, over the state that admitted it.
    #[inline(always)]
    fn add(&mut self, admitted: Admitted<'_>) -> Result<(), Fault>
        ensures { Adds S.Sink.held S.Sink.takes (record { sink = self.old.sink; state = admitted.entry.state }) (value_of admitted.entry.token) admitted.entry.blocks result self.new }
    {
        match admitted.emit(&mut self.sink) {
            Ok(()) => {
                self.state = admitted.advanced();
                Ok(())
            }
            Err(fault) => {
                self.state = admitted.state.stopped(fault);
                Err(fault)
            }
        }
    }

    /// Writes a token. While a block is open, functions and brackets go by `open` and `close`.
    pub fn put(&mut self, token: Token<'_>) -> Result<(), Fault>
        ensures { Puts S.Sink.held S.Sink.takes self.old (value_of token.entry) result self.new }
    {
        let admitted = self.state.admit_put(token)?;
        self.add(admitted)
    }

    /// Writes a token that opens a block, and gives the slip that closes it.
    pub fn open(&mut self, token: Token<'_>) -> Result<Slip, Fault>
        ensures { Opens S.Sink.held S.Sink.takes self.old (value_of token.entry) result self.new }
    {
        let admitted = self.state.admit_open(token)?;
        self.add(admitted)?;
        Ok(Slip {
            depth: admitted.blocks.depth(),
            kind: token.kind.number(),
        })
    }

    /// Closes the innermost open block with its slip, which is spent even if this is refused.
    pub fn close(&mut self, mut slip: Slip) -> Result<(), Fault>
        ensures { Closes S.Sink.held S.Sink.takes self.old slip.depth slip.kind result self.new }
    {
        let admission = self.state.admit_close(&slip);
        slip.depth = 0;
        self.add(admission?)
    }

    /// Ends the writing: answers the numbers of accepted tokens and of comments.
    pub fn finish(&mut self) -> Result<Counts, Fault>
        ensures { Finishes S.Sink.held S.Sink.takes self.old result self.new }
    {
        let state = self.state;
        state.admit_finish()?;
        self.state = state.ended();
        Ok(Counts {
            tokens: state.accepted,
            comments: state.comments,
        })
    }
}
