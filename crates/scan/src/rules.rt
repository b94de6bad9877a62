//! The rules of the syntax, turn by turn.
ghost use Rattle.codepoint.specs.Classes.{is_digit, is_whitespace};
ghost use Rattle.std.specs.Prelude.{◌≡◌};
ghost use Rattle.syntax.specs.Bodies.{ends_url, in_comment, in_extra_whitespace, in_remnants, in_string, in_url, while};
ghost use Rattle.syntax.specs.Escapes.{in_ident};

use crate::rule::{Rule, Turn};
use codepoint::class::{is_digit, is_ident, is_non_printable, is_whitespace};
use codepoint::starts::EOF;
use lookahead::Peek;

/// An identifier: ident code points and escapes.
pub(crate) struct Name;

impl Rule for Name {
    ghost rule = { λ r. in_ident };

    #[tactic(auto, unfolding(syntax::specs::Escapes::in_ident))]
    fn turn(&self, seen: Peek) -> Turn {
        if is_ident(seen.first) {
            Turn::Take
        } else if seen.starts_escape() {
            Turn::Escape
        } else {
            Turn::Halt
        }
    }
}

/// A string's text, up to its quote or a newline.
#[derive(Drop)]
pub(crate) struct InString {
    pub quote: u32,
}

impl Rule for InString {
    ghost rule = { λ r. in_string r.quote };

    #[tactic(auto, unfolding(syntax::specs::Bodies::in_string))]
    fn turn(&self, seen: Peek) -> Turn {
        if seen.first == self.quote || seen.first == 0x0a {
            return Turn::Halt;
        }
        if seen.first != 0x5c {
            return Turn::Take;
        }
        match seen.second {
            EOF => Turn::Pass,
            0x0a => Turn::PassTwo,
            _ => Turn::Escape,
        }
    }
}

/// A url's text, up to whitespace, `)` or what makes it bad.
pub(crate) struct InUrl;

impl Rule for InUrl {
    ghost rule = { λ r. in_url };

    #[tactic(auto, unfolding(syntax::specs::Bodies::in_url))]
    fn turn(&self, seen: Peek) -> Turn {
        if seen.starts_escape() {
            Turn::Escape
        } else if ends_url(seen.first) {
            Turn::Halt
        } else {
            Turn::Take
        }
    }
}

/// Whitespace, `)` or what makes a url bad.
fn ends_url(c: u32) -> bool
    ensures { result ≡ ends_url c }
{
    is_whitespace(c) || matches!(c, 0x22 | 0x27..=0x29 | 0x5c) || is_non_printable(c)
}

// `Digits` and `Whitespace` stay two: a closure as the test doesn't do, since `while` takes a function to Bool and a
// closure's `F.post` is a relation; and a trait of tests beside `Rule`, with a type for each, would be longer.

/// Digits.
pub(crate) struct Digits;

impl Rule for Digits {
    ghost rule = { λ r. while is_digit };

    #[tactic(auto, using(crate::proofs::Whiles::while_takes, crate::proofs::Whiles::while_ends))]
    fn turn(&self, seen: Peek) -> Turn {
        if is_digit(seen.first) {
            Turn::Take
        } else {
            Turn::Halt
        }
    }
}

/// Whitespace.
pub(crate) struct Whitespace;

impl Rule for Whitespace {
    ghost rule = { λ r. while is_whitespace };

    #[tactic(auto, using(crate::proofs::Whiles::while_takes, crate::proofs::Whiles::while_ends))]
    fn turn(&self, seen: Peek) -> Turn {
        if is_whitespace(seen.first) {
            Turn::Take
        } else {
            Turn::Halt
        }
    }
}

/// Whitespace while two stand next.
pub(crate) struct ExtraWhitespace;

impl Rule for ExtraWhitespace {
    ghost rule = { λ r. in_extra_whitespace };

    #[tactic(auto, unfolding(syntax::specs::Bodies::in_extra_whitespace))]
    fn turn(&self, seen: Peek) -> Turn {
        if is_whitespace(seen.first) && is_whitespace(seen.second) {
            Turn::Pass
        } else {
            Turn::Halt
        }
    }
}

/// The remnants of a bad url, up to the next `)` that is not escaped.
pub(crate) struct InRemnants;

impl Rule for InRemnants {
    ghost rule = { λ r. in_remnants };

    #[tactic(auto, unfolding(syntax::specs::Bodies::in_remnants))]
    fn turn(&self, seen: Peek) -> Turn {
        if seen.starts_escape() {
            Turn::PassTwo
        } else if seen.first == 0x29 {
            Turn::Halt
        } else {
            Turn::Pass
        }
    }
}

/// The inside of a comment, up to its `*/`.
pub(crate) struct InComment;

impl Rule for InComment {
    ghost rule = { λ r. in_comment };

    #[tactic(auto, unfolding(syntax::specs::Bodies::in_comment))]
    fn turn(&self, seen: Peek) -> Turn {
        if seen.first == 0x2a && seen.second == 0x2f {
            Turn::Halt
        } else {
            Turn::Take
        }
    }
}
