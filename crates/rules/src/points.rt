//! Small questions on code points and texts, for the rules and for the spelling of tokens.
ghost use Rattle.syntax.specs.Points.{is_one_of};
ghost use Rattle.std.specs.Prelude.{◌≡◌, slice_index};

use codepoint::starts::EOF;

/// Whether the code point is one of some ASCII signs.
pub fn is_one_of(signs: &[u8], c: u32) -> bool
    ensures { result ≡ is_one_of signs.now c }
{
    signs.iter().any(|sign| c == u32::from(*sign))
}

/// The code point at an index; past the end stands EOF, which no text has.
pub fn point_at(text: &[u32], at: usize) -> u32
    ensures { result ≡ slice_index text.now at }
{
    text.get(at).copied().unwrap_or(EOF)
}
