//! Blocks written from outside the writer: every slip is spent, and each one closes its own block.
#![tactic(auto)]

ghost use Rattle.slip_user.specs.Blocks.{Writes};
ghost use Rattle.syntax.specs.Tokens.{bare, value_of};
ghost use Rattle.syntax.specs.declared.kind.Kind.TheVariants.{CloseCurly, CloseSquare, OpenCurly, OpenSquare};
ghost use Rattle.writer.specs.Writes.{Closes};
ghost use Rattle.std.specs.Prelude.{[], ◌∷◌};

use refusal::Fault;
use stream::Sink;
use syntax::kind::Kind;
use syntax::token::Token;
use writer::{Slip, Writer};

/// Closes a block, which is the one way to let go of its slip.
pub fn close_block<S: Sink>(writer: &mut Writer<S>, slip: Slip) -> Result<(), Fault>
    ensures { Closes S.Sink.held S.Sink.takes writer.old slip.depth slip.kind result writer.new }
{
    writer.close(slip)
}

/// A token in a block. A refusal inside is answered only after the block is closed.
#[tactic(auto, using(crate::proofs::Running::blocks))]
pub fn write_block<S: Sink>(writer: &mut Writer<S>, token: Token<'_>) -> Result<(), Fault>
    ensures { Writes S.Sink.held S.Sink.takes writer.old (bare OpenCurly ∷ value_of token.entry ∷ bare CloseCurly ∷ []) result writer.new }
{
    let slip = writer.open(Token::bare(Kind::OpenCurly))?;
    let inside = writer.put(token);
    close_block(writer, slip)?;
    inside
}

/// Two empty blocks one after the other, each closed by its own slip.
#[tactic(auto, using(crate::proofs::Running::blocks))]
pub fn write_two_blocks<S: Sink>(writer: &mut Writer<S>) -> Result<(), Fault>
    ensures { Writes S.Sink.held S.Sink.takes writer.old (bare OpenCurly ∷ bare CloseCurly ∷ bare OpenSquare ∷ bare CloseSquare ∷ []) result writer.new }
{
    let mut first = Some(writer.open(Token::bare(Kind::OpenCurly))?);
    writer.close(first.take().unwrap())?;
    let mut second = Some(writer.open(Token::bare(Kind::OpenSquare))?);
    writer.close(second.take().unwrap())
}
