//! Texts spelled into any sink: one rule of escaping over all places.
ghost use Rattle.std.specs.Prelude.{◌≡◌, ◌<◌, not, ◌&&◌, drop};
ghost use Rattle.codepoint.specs.Utf8.{bytes_of};
ghost use Rattle.stream.specs.Sinks.{Emits};
ghost use Rattle.syntax.specs.Numbers.{has_exponent};
ghost use Rattle.syntax.specs.Places.{escaped, escaped_from, hex, hex_digit, hex_digits, is_control, looks_like_exponent, spelled_in, treatment, unit_behind};

use crate::place::{Identifier, SpellingPlace};
use codepoint::class::is_digit;
use refusal::Fault;
use rules::points::point_at;
use stream::{Sink, emit, emit_code_point};
use syntax::number::is_e;
use syntax::place::Treatment;

/// Code points as they are.
#[tactic(auto, using(crate::proofs::Points::point_more, crate::proofs::Points::point_refused, crate::proofs::Points::points_ended))]
pub(crate) fn emit_points<S: Sink>(sink: &mut S, points: &[u32]) -> Result<(), Fault>
    ensures { Emits S.Sink.held S.Sink.takes sink.old (bytes_of points.now) result sink.new }
{
    for c in points {
        emit_code_point(sink, *c)?;
    }
    Ok(())
}

#[tactic(auto, unfolding(syntax::specs::Places::hex_digit))]
fn hex_digit(value: u32) -> u32
    requires { value < 16 }
    ensures { result ≡ hex_digit value }
{
    u32::from(char::from_digit(value, 16).unwrap())
}

/// The hex digits of a number without leading zeros, at most so many of them.
#[tactic(auto, using(crate::proofs::Emissions::parts), unfolding(syntax::specs::Places::hex_digits))]
fn emit_hex_digits<S: Sink>(sink: &mut S, most: u32, value: u32) -> Result<(), Fault>
    ensures { Emits S.Sink.held S.Sink.takes sink.old (bytes_of (hex_digits most value)) result sink.new }
{
    if most == 0 {
        return Ok(());
    }
    if value < 16 {
        return emit_code_point(sink, hex_digit(value));
    }
    emit_hex_digits(sink, most - 1, value / 16)?;
    emit_code_point(sink, hex_digit(value % 16))
}

/// A hex escape: the backslash, the digits, and a space.
#[tactic(auto, using(crate::proofs::Emissions::parts), unfolding(codepoint::specs::Classes::is_scalar_value, codepoint::specs::Utf8::bytes_of, codepoint::specs::Utf8::scalar_bytes, codepoint::specs::Utf8::utf8, syntax::specs::Places::hex))]
fn emit_hex<S: Sink>(sink: &mut S, c: u32) -> Result<(), Fault>
    ensures { Emits S.Sink.held S.Sink.takes sink.old (bytes_of (hex c)) result sink.new }
{
    emit(sink, b"\\")?;
    emit_hex_digits(sink, 6, c)?;
    emit(sink, b" ")
}

/// One code point by its treatment.
#[tactic(auto, using(crate::proofs::Emissions::parts), unfolding(codepoint::specs::Classes::is_scalar_value, codepoint::specs::Utf8::bytes_of, codepoint::specs::Utf8::scalar_bytes, codepoint::specs::Utf8::utf8))]
fn emit_treated<S: Sink>(sink: &mut S, how: Treatment, c: u32) -> Result<(), Fault>
    ensures { Emits S.Sink.held S.Sink.takes sink.old (bytes_of (escaped how c)) result sink.new }
{
    match how {
        Treatment::Stay => emit_code_point(sink, c),
        Treatment::Backslash => {
            emit(sink, b"\\")?;
            emit_code_point(sink, c)
        }
        Treatment::Hex => emit_hex(sink, c),
    }
}

#[tactic(auto, unfolding(syntax::specs::Places::is_control))]
fn is_control(c: u32) -> bool
    ensures { result ≡ is_control c }
{
    matches!(c, 0x01..=0x1f | 0x7f)
}

/// In each place controls become hex; all else is the place's own affair.
#[tactic(auto, unfolding(syntax::specs::Places::treatment))]
fn treated<P: SpellingPlace>(text: &[u32], at: usize, c: u32) -> Treatment
    ensures { result ≡ treatment P.SpellingPlace.place text.now at c }
{
    if is_control(c) {
        Treatment::Hex
    } else {
        P::treat(text, at, c)
    }
}

/// The code points of a text from an index on, without what opens and closes the place.
fn emit_escaped<P: SpellingPlace, S: Sink>(
    sink: &mut S,
    text: &[u32],
    from: usize,
) -> Result<(), Fault>
    ensures { Emits S.Sink.held S.Sink.takes sink.old (bytes_of (escaped_from (treatment P.SpellingPlace.place text.now) from (drop from text.now))) result sink.new }
{
    for (at, c) in text.iter().enumerate().skip(from) {
        emit_treated(sink, treated::<P>(text, at, *c), *c)?;
    }
    Ok(())
}

/// A text in any place, into any sink.
#[tactic(auto, using(crate::proofs::Emissions::parts), unfolding(syntax::specs::Places::spelled_in))]
pub fn emit_text<P: SpellingPlace, S: Sink>(sink: &mut S, text: &[u32]) -> Result<(), Fault>
    ensures { Emits S.Sink.held S.Sink.takes sink.old (bytes_of (spelled_in P.SpellingPlace.place text.now)) result sink.new }
{
    emit(sink, P::opener())?;
    emit_escaped::<P, S>(sink, text, 0)?;
    emit(sink, P::closer())
}

/// Whether a unit would be read as the exponent of a number before it.
fn looks_like_exponent(unit: &[u32]) -> bool
    ensures { result ≡ looks_like_exponent unit.now }
{
    let second = point_at(unit, 1);
    is_e(point_at(unit, 0)) && (is_digit(second) || (second == 0x2d && is_digit(point_at(unit, 2))))
}

fn has_exponent(number: &[u32]) -> bool
    ensures { result ≡ has_exponent number.now }
{
    number.iter().any(|c| is_e(*c))
}

/// Whether the first code point of a unit behind a number has to become hex.
fn needs_hex(number: &[u32], unit: &[u32]) -> bool
    ensures { result ≡ (not (has_exponent number.now) && looks_like_exponent unit.now) }
{
    !has_exponent(number) && looks_like_exponent(unit)
}

/// A unit behind a number: an identifier, whose first `e` becomes hex where it would be read as an exponent.
#[tactic(auto, using(crate::proofs::Emissions::parts, crate::proofs::Units::hex_unit, crate::proofs::Units::plain_unit))]
pub(crate) fn emit_unit<S: Sink>(sink: &mut S, number: &[u32], unit: &[u32]) -> Result<(), Fault>
    ensures { Emits S.Sink.held S.Sink.takes sink.old (bytes_of (spelled_in (unit_behind number.now) unit.now)) result sink.new }
{
    if needs_hex(number, unit) {
        emit_hex(sink, point_at(unit, 0))?;
        return emit_escaped::<Identifier, S>(sink, unit, 1);
    }
    emit_escaped::<Identifier, S>(sink, unit, 0)
}
