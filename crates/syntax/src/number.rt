//! What stands before the digits of each part of a number, by the next code points, one by one since they come from a
//! window or from a text. Past the end stands `EOF`.
ghost use Rattle.syntax.specs.Numbers.{exponent_length, fraction_length, is_e, is_sign, sign_length};
ghost use Rattle.std.specs.Prelude.{◌≡◌};

use codepoint::class::is_digit;

/// `+` or `-`.
pub fn is_sign(c: u32) -> bool
    ensures { result ≡ is_sign c }
{
    c == 0x2b || c == 0x2d
}

/// `e` or `E`.
pub fn is_e(c: u32) -> bool
    ensures { result ≡ is_e c }
{
    c == 0x65 || c == 0x45
}

/// 1 for a sign, else 0.
#[tactic(auto, using(std::proofs::lemmas::Bool::Decides::nat_tests), unfolding(crate::specs::Numbers::sign_length))]
pub fn sign_length(first: u32) -> usize
    ensures { result ≡ sign_length first }
{
    usize::from(is_sign(first))
}

/// 1 for the `.` of a fraction, or 0 where no fraction comes.
#[tactic(auto, using(std::proofs::lemmas::Bool::Decides::nat_tests), unfolding(crate::specs::Numbers::fraction_length))]
pub fn fraction_length(first: u32, second: u32) -> usize
    ensures { result ≡ fraction_length first second }
{
    usize::from(first == 0x2e && is_digit(second))
}

/// 1 for the `e` of an exponent, 2 with a sign behind it, or 0 where no exponent comes.
#[tactic(auto, using(std::proofs::lemmas::Bool::Decides::nat_tests), unfolding(crate::specs::Numbers::exponent_length))]
pub fn exponent_length(first: u32, second: u32, third: u32) -> usize
    ensures { result ≡ exponent_length first second third }
{
    if !is_e(first) {
        return 0;
    }
    if is_digit(second) {
        return 1;
    }
    if is_sign(second) && is_digit(third) {
        2
    } else {
        0
    }
}
