//! A token as code holds it: text and unit are borrowed code points. Its fields are public and are matched on, so contracts
//! see it by `value_of` and by no model.
ghost use Rattle.syntax.specs.Tokens.{bare, delim, texted, value_of};
ghost use Rattle.std.specs.Prelude.{◌≡◌};

use crate::kind::Kind;

#[derive(Clone, Copy)]
pub struct Token<'a> {
    pub kind: Kind,
    /// By the rule book: of a delim its code point, of a hash 1 where it starts an identifier, else 0.
    pub mark: u32,
    pub text: &'a [u32],
    pub unit: &'a [u32],
}

impl Token<'static> {
    /// A token that is only its kind.
    pub fn bare(kind: Kind) -> Token<'static>
        ensures { value_of result ≡ bare kind }
    {
        Token {
            kind,
            mark: 0,
            text: &[],
            unit: &[],
        }
    }

    /// A delim of this mark.
    pub fn delim(mark: u32) -> Token<'static>
        ensures { value_of result ≡ delim mark }
    {
        Token {
            mark,
            ..Token::bare(Kind::Delim)
        }
    }
}

impl<'a> Token<'a> {
    /// A token that is its kind and its text.
    pub fn texted(kind: Kind, text: &'a [u32]) -> Token<'a>
        ensures { value_of result ≡ texted kind text.now }
    {
        Token {
            text,
            ..Token::bare(kind)
        }
    }
}
