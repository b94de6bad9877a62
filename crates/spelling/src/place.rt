//! The places where a text stands, each with what opens and closes it and how it treats a code point.
#![tactic(auto, unfolding(codepoint::specs::Classes::is_scalar_value, codepoint::specs::Utf8::bytes_of, codepoint::specs::Utf8::scalar_bytes, codepoint::specs::Utf8::utf8, syntax::specs::Places::identifier, syntax::specs::Places::loose, syntax::specs::Places::quoted_string, syntax::specs::Places::url))]

ghost use Rattle.std.specs.Prelude.{◌≡◌, ℕ, ◌&&◌, cond, length, ◌==◌};
ghost use Rattle.codepoint.specs.Utf8.{bytes_of};
ghost use Rattle.syntax.specs.Places.{Place, identifier, is_leading, loose, quoted_string, url};
ghost use Rattle.syntax.specs.Points.{is_one_of};
ghost use Rattle.syntax.specs.declared.place.Treatment.TheVariants.{Backslash, Stay};

use codepoint::class::{is_digit, is_ident};
use rules::points::{is_one_of, point_at};
use syntax::place::Treatment;

const HYPHEN: u32 = 0x2d;

/// A place where a text stands. Each place has constants of its own for what opens and closes it: a rule of the project,
/// so no getter stands in for them. The getters say what the constants are, which generic code cannot see.
// A ghost `OPEN` beside the constant would be a `Bor (List ℕ)`, with an address that no impl can name: the check has
// `ref_ptr = (c.result-1.given.0, 0)` for it, and "the facts known there allow values at which this goal is false".
pub trait SpellingPlace {
    const OPEN: &'static [u8];

    const CLOSE: &'static [u8];

    ghost place: { Place };

    fn opener() -> &'static [u8]
        ensures { result.now ≡ bytes_of place.opening };

    fn closer() -> &'static [u8]
        ensures { result.now ≡ bytes_of place.closing };

    /// How the code point `c` at an index of a text goes out, if it is no control. One by one, as the definition takes them.
    fn treat(text: &[u32], at: usize, c: u32) -> Treatment
        ensures { result ≡ place.treats text.now at c };
}

/// Idents, functions, at-keywords, units, and hashes that start an identifier.
pub struct Identifier;

impl SpellingPlace for Identifier {
    const OPEN: &'static [u8] = b"";

    const CLOSE: &'static [u8] = b"";

    ghost place = { identifier };

    fn opener() -> &'static [u8] {
        Self::OPEN
    }

    fn closer() -> &'static [u8] {
        Self::CLOSE
    }

    fn treat(text: &[u32], at: usize, c: u32) -> Treatment {
        if is_digit(c) && is_leading(text, at) {
            return Treatment::Hex;
        }
        if is_ident(c) && !is_lone_hyphen(text, c) {
            Treatment::Stay
        } else {
            Treatment::Backslash
        }
    }
}

/// Hashes that start no identifier.
pub struct Loose;

impl SpellingPlace for Loose {
    const OPEN: &'static [u8] = b"";

    const CLOSE: &'static [u8] = b"";

    ghost place = { loose };

    fn opener() -> &'static [u8] {
        Self::OPEN
    }

    fn closer() -> &'static [u8] {
        Self::CLOSE
    }

    fn treat(_text: &[u32], _at: usize, c: u32) -> Treatment {
        if is_ident(c) {
            Treatment::Stay
        } else {
            Treatment::Backslash
        }
    }
}

/// Strings.
pub struct QuotedString;

impl SpellingPlace for QuotedString {
    const OPEN: &'static [u8] = b"\"";

    const CLOSE: &'static [u8] = b"\"";

    ghost place = { quoted_string };

    fn opener() -> &'static [u8] {
        Self::OPEN
    }

    fn closer() -> &'static [u8] {
        Self::CLOSE
    }

    fn treat(_text: &[u32], _at: usize, c: u32) -> Treatment {
        escape_one_of(b"\"\\", c)
    }
}

/// Urls.
pub struct Url;

impl SpellingPlace for Url {
    const OPEN: &'static [u8] = b"url(";

    const CLOSE: &'static [u8] = b")";

    ghost place = { url };

    fn opener() -> &'static [u8] {
        Self::OPEN
    }

    fn closer() -> &'static [u8] {
        Self::CLOSE
    }

    fn treat(_text: &[u32], _at: usize, c: u32) -> Treatment {
        escape_one_of(b" \"'()\\", c)
    }
}

/// A backslash before one of these signs, and all else as it is.
fn escape_one_of(signs: &[u8], c: u32) -> Treatment
    ensures { result ≡ cond (is_one_of signs.now c) Backslash Stay }
{
    if is_one_of(signs, c) {
        Treatment::Backslash
    } else {
        Treatment::Stay
    }
}

/// Whether an index comes first, or second after `-`.
fn is_leading(text: &[u32], at: usize) -> bool
    ensures { result ≡ is_leading text.now at }
{
    at == 0 || (at == 1 && point_at(text, 0) == HYPHEN)
}

/// A text that is only `-`.
fn is_lone_hyphen(text: &[u32], c: u32) -> bool
    ensures { result ≡ (c == 45 && length text.now == 1) }
{
    c == HYPHEN && text.len() == 1
}
