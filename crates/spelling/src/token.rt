//! Tokens spelled into any sink.
#![tactic(auto, using(crate::proofs::Emissions::parts), unfolding(codepoint::specs::Classes::is_scalar_value, codepoint::specs::Utf8::bytes_of, codepoint::specs::Utf8::scalar_bytes, codepoint::specs::Utf8::utf8, syntax::specs::Spelling::spelled))]

ghost use Rattle.codepoint.specs.Utf8.{bytes_of};
ghost use Rattle.stream.specs.Sinks.{Emits};
ghost use Rattle.syntax.specs.Places.{identifier, spelled_in, unit_behind};
ghost use Rattle.syntax.specs.Spelling.{blank, hash_place, spelled};
ghost use Rattle.syntax.specs.Tokens.{value_of};
ghost use Rattle.std.specs.Prelude.{◌≡◌, ◌++◌, codes};

use crate::place::{Identifier, Loose, QuotedString, Url};
use crate::text::{emit_points, emit_text, emit_unit};
use refusal::Fault;
use stream::{Sink, emit, emit_code_point};
use syntax::kind::Kind;
use syntax::token::Token;
use syntax::waiting::Waiting;

/// A token, where `waiting` is awaited. A bad token is spelled as nothing.
pub fn emit_token<S: Sink>(sink: &mut S, waiting: Waiting, token: Token<'_>) -> Result<(), Fault>
    ensures { Emits S.Sink.held S.Sink.takes sink.old (bytes_of (spelled waiting (value_of token.entry))) result sink.new }
{
    match token.kind {
        Kind::Ident => emit_text::<Identifier, S>(sink, token.text),
        Kind::Function => emit_function(sink, token.text),
        Kind::AtKeyword => emit_at_keyword(sink, token.text),
        Kind::Hash => emit_hash(sink, token.mark, token.text),
        Kind::QuotedString => emit_text::<QuotedString, S>(sink, token.text),
        Kind::Url => emit_text::<Url, S>(sink, token.text),
        Kind::BadString | Kind::BadUrl => Ok(()),
        Kind::Delim => emit_code_point(sink, token.mark),
        Kind::Number => emit_points(sink, token.text),
        Kind::Percentage => emit_percentage(sink, token.text),
        Kind::Dimension => emit_dimension(sink, token.text, token.unit),
        Kind::Whitespace => emit_code_point(sink, blank_of(waiting)),
        Kind::Cdo => emit(sink, b"<!--"),
        Kind::Cdc => emit(sink, b"-->"),
        Kind::Colon => emit(sink, b":"),
        Kind::Semicolon => emit(sink, b";"),
        Kind::Comma => emit(sink, b","),
        Kind::OpenSquare => emit(sink, b"["),
        Kind::CloseSquare => emit(sink, b"]"),
        Kind::OpenRound => emit(sink, b"("),
        Kind::CloseRound => emit(sink, b")"),
        Kind::OpenCurly => emit(sink, b"{"),
        Kind::CloseCurly => emit(sink, b"}"),
    }
}

/// Whitespace is one space, but a newline behind a delim `\`, where a space would make an escape.
fn blank_of(waiting: Waiting) -> u32
    ensures { result ≡ blank waiting }
{
    match waiting {
        Waiting::AfterBackslash => 0x0a,
        _ => 0x20,
    }
}

fn emit_function<S: Sink>(sink: &mut S, name: &[u32]) -> Result<(), Fault>
    ensures { Emits S.Sink.held S.Sink.takes sink.old (bytes_of (spelled_in identifier name.now ++ codes "(")) result sink.new }
{
    emit_text::<Identifier, S>(sink, name)?;
    emit(sink, b"(")
}

fn emit_at_keyword<S: Sink>(sink: &mut S, name: &[u32]) -> Result<(), Fault>
    ensures { Emits S.Sink.held S.Sink.takes sink.old (bytes_of (codes "@" ++ spelled_in identifier name.now)) result sink.new }
{
    emit(sink, b"@")?;
    emit_text::<Identifier, S>(sink, name)
}

/// A hash, by its mark, which is a number by the rule book.
fn emit_hash<S: Sink>(sink: &mut S, mark: u32, text: &[u32]) -> Result<(), Fault>
    ensures { Emits S.Sink.held S.Sink.takes sink.old (bytes_of (codes "#" ++ spelled_in (hash_place mark) text.now)) result sink.new }
{
    emit(sink, b"#")?;
    if mark == 1 {
        emit_text::<Identifier, S>(sink, text)
    } else {
        emit_text::<Loose, S>(sink, text)
    }
}

fn emit_percentage<S: Sink>(sink: &mut S, number: &[u32]) -> Result<(), Fault>
    ensures { Emits S.Sink.held S.Sink.takes sink.old (bytes_of (number.now ++ codes "%")) result sink.new }
{
    emit_points(sink, number)?;
    emit(sink, b"%")
}

fn emit_dimension<S: Sink>(sink: &mut S, number: &[u32], unit: &[u32]) -> Result<(), Fault>
    ensures { Emits S.Sink.held S.Sink.takes sink.old (bytes_of (number.now ++ spelled_in (unit_behind number.now) unit.now)) result sink.new }
{
    emit_points(sink, number)?;
    emit_unit(sink, number, unit)
}
