//! What two or three code points begin. The end of the input stands among them as `EOF`. They are passed one by one and in
//! no struct, since two tests ask others at an offset, and a text that is checked has no window.
ghost use Rattle.codepoint.specs.Classes.{is_digit, is_ident_start};
ghost use Rattle.codepoint.specs.Starts.{is_valid_escape, starts_ident, starts_number};
ghost use Rattle.std.specs.Prelude.{◌≡◌, ◌&&◌, ◌||◌, ◌==◌};

use crate::class::{is_digit, is_ident_start};

/// The end of the input where a code point is asked for. Preprocessing leaves no U+0000, so that number is free.
pub const EOF: u32 = 0;

/// `\` and whatever is no newline, the end of the input too.
#[tactic(auto, using(std::proofs::lemmas::Bool::Decides::nat_tests), unfolding(crate::specs::Starts::is_valid_escape))]
pub fn is_valid_escape(first: u32, second: u32) -> bool
    ensures { result ≡ is_valid_escape first second }
{
    first == 0x5c && second != 0x0a
}

/// Whether three code points start an identifier.
#[tactic(auto, using(std::proofs::lemmas::Bool::Decides::nat_tests), unfolding(crate::specs::Starts::starts_ident))]
pub fn starts_ident(first: u32, second: u32, third: u32) -> bool
    ensures { result ≡ starts_ident first second third }
{
    is_ident_start(first)
        || is_valid_escape(first, second)
        || (first == 0x2d && follows_hyphen(second, third))
}

/// Whether two code points behind a `-` make the three start an identifier.
fn follows_hyphen(second: u32, third: u32) -> bool
    ensures { result ≡ (is_ident_start second || second == 45 || is_valid_escape second third) }
{
    is_ident_start(second) || second == 0x2d || is_valid_escape(second, third)
}

/// Whether three code points start a number.
#[tactic(auto, using(std::proofs::lemmas::Bool::Decides::nat_tests), unfolding(crate::specs::Starts::starts_number, crate::specs::Classes::is_digit))]
pub fn starts_number(first: u32, second: u32, third: u32) -> bool
    ensures { result ≡ starts_number first second third }
{
    match first {
        0x2b | 0x2d => starts_unsigned(second, third),
        _ => starts_unsigned(first, second),
    }
}

/// Whether two code points are a digit, or `.` and a digit.
fn starts_unsigned(first: u32, second: u32) -> bool
    ensures { result ≡ (is_digit first || (first == 46 && is_digit second)) }
{
    is_digit(first) || (first == 0x2e && is_digit(second))
}
