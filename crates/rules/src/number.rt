//! Whether a text is the spelling of a number.
ghost use Rattle.syntax.specs.Lawful.{is_number};
ghost use Rattle.syntax.specs.Numbers.{number_at, part_if_any, past_digits};
ghost use Rattle.std.specs.Prelude.{◌≡◌, [], drop};

use crate::points::point_at;
use codepoint::class::is_digit;
use codepoint::starts::starts_number;
use syntax::number::{exponent_length, fraction_length, sign_length};

/// What is left behind the first code points.
fn beyond(text: &[u32], count: usize) -> &[u32]
    ensures { result.now ≡ drop count text.now }
{
    text.get(count..).unwrap_or(&[])
}

/// What is left behind the digits at the front.
fn past_digits(text: &[u32]) -> &[u32]
    ensures { result.now ≡ past_digits text.now }
{
    let digits = text.iter().take_while(|c| is_digit(**c)).count();
    &text[digits..]
}

/// What is left behind a part of a number: so many code points before its digits, or 0 where it is not there.
fn past_part(text: &[u32], before: usize) -> &[u32]
    ensures { result.now ≡ (part_if_any before [] text.now).1 }
{
    if before == 0 {
        text
    } else {
        past_digits(beyond(text, before))
    }
}

/// What is left behind the number at the front.
#[tactic(auto, using(crate::proofs::Digits::past_number))]
fn past_number(text: &[u32]) -> &[u32]
    ensures { result.now ≡ (number_at text.now).1 }
{
    let whole = past_digits(beyond(text, sign_length(point_at(text, 0))));
    let fraction = past_part(
        whole,
        fraction_length(point_at(whole, 0), point_at(whole, 1)),
    );
    past_part(
        fraction,
        exponent_length(
            point_at(fraction, 0),
            point_at(fraction, 1),
            point_at(fraction, 2),
        ),
    )
}

/// Whether a number starts the text, and takes the whole of it.
pub fn is_number(text: &[u32]) -> bool
    ensures { result ≡ is_number text.now }
{
    starts_number(point_at(text, 0), point_at(text, 1), point_at(text, 2))
        && past_number(text).is_empty()
}
