//! A token that a state lets through, and how it goes out: with the comment before it, where one is due.
#![tactic(auto, using(crate::proofs::Steps::emitted))]

ghost use Rattle.stream.specs.Sinks.{Emits};
ghost use Rattle.syntax.specs.Neighbours.{apart, right_of};
ghost use Rattle.syntax.specs.Tokens.{value_of};
ghost use Rattle.std.specs.Prelude.{◌≡◌, ◌+◌, ◌≤◌};

use crate::blocks::Blocks;
use crate::state::State;
use refusal::Fault;
use rules::{is_apart, left_of, right_of, waiting_after};
use spelling::emit_token;
use stream::{Sink, emit};
use syntax::token::Token;

/// A token that `state` lets through, and the blocks that are open behind it.
#[derive(Clone, Copy)]
pub(crate) struct Admitted<'a> {
    pub(crate) state: State,
    pub(crate) token: Token<'a>,
    pub(crate) blocks: Blocks,
    ghost room: { state.accepted + 1 + blocks.depth ≤ 1000000 },
}

// Inlined, as all that a call of the writer goes through: state, token and blocks would be copied at each step.
impl Admitted<'_> {
    ghost use Rattle.writer.specs.States.{Advanced};
    ghost use Rattle.writer.specs.Writes.{bytes_added};

    /// Whether a comment is due before the token.
    #[inline(always)]
    fn owes_comment(&self) -> bool
        ensures { result ≡ apart self.now.state.left (right_of (value_of self.now.token)) }
    {
        is_apart(self.state.left, right_of(self.token))
    }

    /// Writes the comment if it is due, and then the token.
    #[inline(always)]
    pub(crate) fn emit<S: Sink>(&self, sink: &mut S) -> Result<(), Fault>
        ensures { Emits S.Sink.held S.Sink.takes sink.old (bytes_added self.now.state (value_of self.now.token)) result sink.new }
    {
        if self.owes_comment() {
            emit(sink, b"/**/")?;
        }
        emit_token(sink, self.state.waiting, self.token)
    }

    /// The state behind the token, which went out whole.
    #[inline(always)]
    pub(crate) fn advanced(self) -> State
        ensures { Advanced self.entry.state (value_of self.entry.token) self.entry.blocks result }
    {
        let Admitted {
            mut state,
            token,
            blocks,
        } = self;
        state.comments += usize::from(self.owes_comment());
        state.accepted += 1;
        state.blocks = blocks;
        state.left = left_of(token);
        state.waiting = waiting_after(state.waiting, token);
        state
    }
}
