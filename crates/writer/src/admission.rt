//! What a state admits, and how it ends: all by value.
ghost use Rattle.std.specs.Prelude.{◌≡◌, [], not, ◌&&◌, IfOk, nat_lt};
ghost use Rattle.refusal.specs.Faults.{place_of};
ghost use Rattle.syntax.specs.Kinds.{number_of};
ghost use Rattle.syntax.specs.Puts.{is_whitespace_left};
ghost use Rattle.syntax.specs.Tokens.{is_kind, value_of};
ghost use Rattle.syntax.specs.Turn.{is_in_turn};
ghost use Rattle.syntax.specs.declared.kind.Kind.TheVariants.{Whitespace};
ghost use Rattle.writer.specs.Admissions.{Admits};
ghost use Rattle.writer.specs.Blocks.{is_block_sign, mirror, opens_block};
ghost use Rattle.writer.specs.Refusals.{close_refusals, finish_refusals, first_of, is_free, open_refusals, put_refusals, refusals_of_all};
ghost use Rattle.writer.specs.States.{Closed, Ended, Fresh, Opened, Stopped};

use crate::adding::Admitted;
use crate::blocks::Blocks;
use crate::state::State;
use crate::writing::Slip;
use refusal::Fault;
use rules::{is_in_turn, is_lawful};
use syntax::kind::Kind;
use syntax::neighbour::Left;
use syntax::token::Token;
use syntax::waiting::Waiting;

/// Accepted tokens and open blocks together.
const ROOM: usize = 1_000_000;

// What each call asks is inlined: a state goes by value, and would be copied at each step.
impl State {
    pub(crate) fn new() -> State
        ensures { Fresh result }
    {
        State {
            accepted: 0,
            comments: 0,
            blocks: Blocks::new(),
            left: Left::Other,
            waiting: Waiting::Free,
            stuck: None,
            finished: false,
        }
    }

    /// A function or bracket while a block is open.
    #[inline(always)]
    fn is_in_block(self, kind: Kind) -> bool
        ensures { result ≡ (nat_lt 0 self.blocks.depth && is_block_sign kind) }
    {
        self.blocks.depth() > 0 && is_block_sign(kind)
    }

    #[inline(always)]
    fn is_out_of_turn(self, token: Token<'_>) -> bool
        ensures { result ≡ not (is_in_turn self.waiting (value_of token.entry)) }
    {
        !is_in_turn(self.waiting, token)
    }

    /// Nothing is awaited.
    fn is_free(self) -> bool
        ensures { result ≡ is_free self.waiting }
    {
        self.waiting == Waiting::Free
    }

    /// Whitespace directly after whitespace.
    #[inline(always)]
    fn repeats_whitespace(self, token: Token<'_>) -> bool
        ensures { result ≡ (is_whitespace_left self.left && is_kind Whitespace (value_of token.entry)) }
    {
        self.left == Left::Whitespace && token.kind == Kind::Whitespace
    }

    /// The refusals of every call, which stand first: after finish, and once the sink refused.
    #[inline(always)]
    fn admit_any(self) -> Result<(), Fault>
        ensures { result ≡ first_of (refusals_of_all self []) }
    {
        if self.finished {
            return Err(Fault::Finished(self.accepted));
        }
        if let Some(at) = self.stuck {
            return Err(Fault::NotTaken(at));
        }
        Ok(())
    }

    /// The refusals of put, in order.
    #[inline(always)]
    pub(crate) fn admit_put(self, token: Token<'_>) -> Result<Admitted<'_>, Fault>
        ensures { Admits self (put_refusals self (value_of token.entry)) (value_of token.entry) (λ b. b ≡ self.blocks) result }
    {
        self.admit_any()?;
        let place = self.accepted;
        if token.kind.is_bad() {
            return Err(Fault::BadToken(place));
        }
        if !is_lawful(token) {
            return Err(Fault::Unlawful(place));
        }
        if self.is_in_block(token.kind) {
            return Err(Fault::BlockOpen(place));
        }
        if self.is_out_of_turn(token) {
            return Err(Fault::OutOfTurn(place));
        }
        if self.repeats_whitespace(token) {
            return Err(Fault::RepeatedWhitespace(place));
        }
        if self.accepted + self.blocks.depth() >= ROOM {
            return Err(Fault::NoRoom(place));
        }
        Ok(Admitted {
            state: self,
            token,
            blocks: self.blocks,
        })
    }

    /// The refusals of open, in order.
    #[inline(always)]
    pub(crate) fn admit_open(self, token: Token<'_>) -> Result<Admitted<'_>, Fault>
        ensures { Admits self (open_refusals self (value_of token.entry)) (value_of token.entry) (Opened self.blocks token.entry.kind) result }
    {
        self.admit_any()?;
        let place = self.accepted;
        if !(opens_block(token.kind) && is_lawful(token)) {
            return Err(Fault::Unlawful(place));
        }
        if self.is_out_of_turn(token) {
            return Err(Fault::OutOfTurn(place));
        }
        if self.blocks.is_full() {
            return Err(Fault::TooDeep(place));
        }
        if self.accepted + self.blocks.depth() + 1 >= ROOM {
            return Err(Fault::NoRoom(place));
        }
        Ok(Admitted {
            state: self,
            token,
            blocks: self.blocks.opened(token.kind),
        })
    }

    /// The refusals of close, in order. The token is the one that closes the slip's block.
    #[inline(always)]
    pub(crate) fn admit_close(self, slip: &Slip) -> Result<Admitted<'static>, Fault>
        ensures { Admits self (close_refusals self slip.now.depth slip.now.kind) (mirror slip.now.kind) (Closed self.blocks) result }
    {
        self.admit_any()?;
        let place = self.accepted;
        let Some(kind) = self.blocks.innermost(slip) else {
            return Err(Fault::WrongSlip(place));
        };
        let token = mirror_of(kind);
        if self.is_out_of_turn(token) {
            return Err(Fault::OutOfTurn(place));
        }
        Ok(Admitted {
            state: self,
            token,
            blocks: self.blocks.closed(),
        })
    }

    /// The refusals of finish, in order.
    pub(crate) fn admit_finish(self) -> Result<(), Fault>
        ensures { result ≡ first_of (finish_refusals self) }
    {
        self.admit_any()?;
        let place = self.accepted;
        if !self.is_free() {
            return Err(Fault::OutOfTurn(place));
        }
        if self.blocks.depth() > 0 {
            return Err(Fault::Unclosed(place));
        }
        Ok(())
    }

    /// The state after the sink refused a byte.
    #[inline(always)]
    pub(crate) fn stopped(mut self, fault: Fault) -> State
        ensures { Stopped self (place_of fault) result }
    {
        self.stuck = Some(fault.place());
        self
    }

    /// The state after finish.
    pub(crate) fn ended(mut self) -> State
        ensures { Ended self result }
    {
        self.finished = true;
        self
    }
}

fn opens_block(kind: Kind) -> bool
    ensures { result ≡ opens_block kind }
{
    matches!(
        kind,
        Kind::Function | Kind::OpenSquare | Kind::OpenRound | Kind::OpenCurly
    )
}

fn is_block_sign(kind: Kind) -> bool
    ensures { result ≡ is_block_sign kind }
{
    matches!(
        kind,
        Kind::CloseSquare | Kind::CloseRound | Kind::CloseCurly
    ) || opens_block(kind)
}

/// The token that closes a block of this kind.
fn mirror_of(kind: Kind) -> Token<'static>
    ensures { value_of result ≡ mirror (number_of kind) }
{
    Token::bare(match kind {
        Kind::OpenSquare => Kind::CloseSquare,
        Kind::OpenCurly => Kind::CloseCurly,
        _ => Kind::CloseRound,
    })
}
