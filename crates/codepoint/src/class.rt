//! The classes of code points, by one table.
ghost use Rattle.codepoint.specs.Classes.{ClassNumber, hex_value_if_any, is_digit, is_hex_digit, is_ident, is_ident_start, is_letter, is_newline, is_non_printable, is_whitespace};
ghost use Rattle.std.specs.Prelude.{◌≡◌};

// Classes are numbers, and no enum, by a rule of the project: one table of 256 of them, held to the rule by one
// computation. Of the signs with a token kind of their own, the class number is that kind's.
pub const NEWLINE: u8 = 1;

pub const BLANK: u8 = 2;

pub const HYPHEN: u8 = 3;

pub const DIGIT: u8 = 4;

pub const HEX_LETTER: u8 = 5;

pub const OTHER_LETTER: u8 = 6;

pub const OTHER_IDENT_START: u8 = 7;

pub const NON_PRINTABLE: u8 = 8;

#[rattlefmt::skip]
const CLASSES: [u8; 256] = [
    8, 8, 8, 8, 8, 8, 8, 8, 8, 2, 1, 8, 0, 0, 8, 8,
    8, 8, 8, 8, 8, 8, 8, 8, 8, 8, 8, 8, 8, 8, 8, 8,
    2, 0, 0, 0, 0, 0, 0, 0, 21, 22, 0, 0, 18, 3, 0, 0,
    4, 4, 4, 4, 4, 4, 4, 4, 4, 4, 16, 17, 0, 0, 0, 0,
    0, 5, 5, 5, 5, 5, 5, 6, 6, 6, 6, 6, 6, 6, 6, 6,
    6, 6, 6, 6, 6, 6, 6, 6, 6, 6, 6, 19, 0, 20, 0, 7,
    0, 5, 5, 5, 5, 5, 5, 6, 6, 6, 6, 6, 6, 6, 6, 6,
    6, 6, 6, 6, 6, 6, 6, 6, 6, 6, 6, 23, 0, 24, 0, 8,
    7, 7, 7, 7, 7, 7, 7, 7, 7, 7, 7, 7, 7, 7, 7, 7,
    7, 7, 7, 7, 7, 7, 7, 7, 7, 7, 7, 7, 7, 7, 7, 7,
    7, 7, 7, 7, 7, 7, 7, 7, 7, 7, 7, 7, 7, 7, 7, 7,
    7, 7, 7, 7, 7, 7, 7, 7, 7, 7, 7, 7, 7, 7, 7, 7,
    7, 7, 7, 7, 7, 7, 7, 7, 7, 7, 7, 7, 7, 7, 7, 7,
    7, 7, 7, 7, 7, 7, 7, 7, 7, 7, 7, 7, 7, 7, 7, 7,
    7, 7, 7, 7, 7, 7, 7, 7, 7, 7, 7, 7, 7, 7, 7, 7,
    7, 7, 7, 7, 7, 7, 7, 7, 7, 7, 7, 7, 7, 7, 7, 7,
];

/// The class number of any code point: past the table all are ident-start. The cast stays, since no `From` gives an index;
/// by `if` and not by `get`, so that each half has its own proof.
pub fn class_of(c: u32) -> u8
    ensures { ClassNumber c result }
{
    if c < 256 {
        CLASSES[c as usize]
    } else {
        OTHER_IDENT_START
    }
}

pub fn is_newline(c: u32) -> bool
    ensures { result ≡ is_newline c }
{
    class_of(c) == NEWLINE
}

pub fn is_whitespace(c: u32) -> bool
    ensures { result ≡ is_whitespace c }
{
    matches!(class_of(c), NEWLINE..=BLANK)
}

pub fn is_digit(c: u32) -> bool
    ensures { result ≡ is_digit c }
{
    class_of(c) == DIGIT
}

pub fn is_hex_digit(c: u32) -> bool
    ensures { result ≡ is_hex_digit c }
{
    matches!(class_of(c), DIGIT..=HEX_LETTER)
}

pub fn is_letter(c: u32) -> bool
    ensures { result ≡ is_letter c }
{
    matches!(class_of(c), HEX_LETTER..=OTHER_LETTER)
}

pub fn is_ident_start(c: u32) -> bool
    ensures { result ≡ is_ident_start c }
{
    matches!(class_of(c), HEX_LETTER..=OTHER_IDENT_START)
}

pub fn is_ident(c: u32) -> bool
    ensures { result ≡ is_ident c }
{
    matches!(class_of(c), HYPHEN..=OTHER_IDENT_START)
}

pub fn is_non_printable(c: u32) -> bool
    ensures { result ≡ is_non_printable c }
{
    class_of(c) == NON_PRINTABLE
}

/// The value of a hex digit.
#[tactic(auto, using(std::proofs::lemmas::Bool::Decides::nat_tests), unfolding(crate::specs::Classes::hex_value_if_any, crate::specs::Classes::hex_value, crate::specs::Classes::is_hex_digit))]
pub fn hex_value(c: u32) -> Option<u32>
    ensures { result ≡ hex_value_if_any c }
{
    char::from_u32(c)?.to_digit(16)
}
