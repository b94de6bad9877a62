//! What the next code points decide, beyond what they themselves tell.
ghost use Rattle.reader.specs.Reads.{is_comment_closing, is_comment_opening, opens_hash, opens_quote};
ghost use Rattle.syntax.specs.Bodies.{is_quote};
ghost use Rattle.std.specs.Prelude.{◌≡◌};

use codepoint::class::{is_ident, is_whitespace};
use codepoint::starts::is_valid_escape;
use lookahead::Peek;

pub fn is_quote(c: u32) -> bool
    ensures { result ≡ is_quote c }
{
    c == 0x22 || c == 0x27
}

/// A quote, or whitespace and a quote.
#[tactic(auto, unfolding(crate::specs::Reads::opens_quote))]
pub fn opens_quote(seen: Peek) -> bool
    ensures { result ≡ opens_quote seen.first seen.second }
{
    is_quote(seen.first) || (is_whitespace(seen.first) && is_quote(seen.second))
}

/// `#` before an ident code point or a valid escape.
#[tactic(auto, unfolding(crate::specs::Reads::opens_hash))]
pub fn opens_hash(seen: Peek) -> bool
    ensures { result ≡ opens_hash seen.first seen.second seen.third }
{
    seen.first == 0x23 && (is_ident(seen.second) || is_valid_escape(seen.second, seen.third))
}

/// `!--`
#[tactic(auto, unfolding(crate::specs::Reads::is_comment_opening))]
pub fn is_comment_opening(seen: Peek) -> bool
    ensures { result ≡ is_comment_opening seen.first seen.second seen.third }
{
    matches!((seen.first, seen.second, seen.third), (0x21, 0x2d, 0x2d))
}

/// `-->`
#[tactic(auto, unfolding(crate::specs::Reads::is_comment_closing))]
pub fn is_comment_closing(seen: Peek) -> bool
    ensures { result ≡ is_comment_closing seen.first seen.second seen.third }
{
    matches!((seen.first, seen.second, seen.third), (0x2d, 0x2d, 0x3e))
}
