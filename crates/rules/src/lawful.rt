//! Whether a token is lawful: whether some input yields it and it is not bad.
#![tactic(auto, unfolding(syntax::specs::Lawful::is_delim_mark, syntax::specs::Lawful::is_lawful, syntax::specs::Lawful::is_text_point))]

ghost use Rattle.syntax.specs.Lawful.{is_delim_mark, is_empty, is_hash, is_lawful, is_loose, is_name, is_text, is_text_point};
ghost use Rattle.syntax.specs.Tokens.{value_of};
ghost use Rattle.std.specs.Prelude.{◌≡◌, ◌&&◌, ◌==◌};

use crate::number::is_number;
use crate::points::is_one_of;
use codepoint::class::{is_digit, is_non_printable};
use codepoint::utf8::is_scalar_value;
use syntax::kind::Kind;
use syntax::token::Token;

/// What mark, text and unit a lawful token of each kind has.
pub fn is_lawful(token: Token<'_>) -> bool
    ensures { result ≡ is_lawful (value_of token.entry) }
{
    match token.kind {
        Kind::Ident | Kind::Function | Kind::AtKeyword => is_plain(token) && is_name(token.text),
        Kind::Hash => is_hash_text(token.mark, token.text) && token.unit.is_empty(),
        Kind::QuotedString | Kind::Url => is_plain(token) && is_text(token.text),
        Kind::BadString | Kind::BadUrl => false,
        Kind::Delim => is_delim_mark(token.mark) && token.text.is_empty() && token.unit.is_empty(),
        Kind::Number | Kind::Percentage => is_plain(token) && is_number(token.text),
        Kind::Dimension => token.mark == 0 && is_number(token.text) && is_name(token.unit),
        _ => is_plain(token) && token.text.is_empty(),
    }
}

/// A token without a mark or a unit.
fn is_plain(token: Token<'_>) -> bool
    ensures { result ≡ (token.entry.mark == 0 && is_empty token.entry.unit.now) }
{
    token.mark == 0 && token.unit.is_empty()
}

/// The code points that a text may have: scalar values but U+0000.
fn is_text_point(c: u32) -> bool
    ensures { result ≡ is_text_point c }
{
    is_scalar_value(c) && c != 0
}

fn is_text(text: &[u32]) -> bool
    ensures { result ≡ is_text text.now }
{
    text.iter().all(|c| is_text_point(*c))
}

fn is_name(text: &[u32]) -> bool
    ensures { result ≡ is_name text.now }
{
    is_text(text) && !text.is_empty()
}

/// The text of a hash that can start no identifier: a digit first, or `-` alone or before a digit.
fn is_loose(text: &[u32]) -> bool
    ensures { result ≡ is_loose text.now }
{
    match text {
        [0x2d] => true,
        [0x2d, second, ..] => is_digit(*second),
        [first, ..] => is_digit(*first),
        [] => false,
    }
}

/// By the mark, a number by the rule book: 1 where the hash starts an identifier, else 0.
fn is_hash_text(mark: u32, text: &[u32]) -> bool
    ensures { result ≡ is_hash mark text.now }
{
    match mark {
        0 => is_text(text) && is_loose(text),
        1 => is_name(text),
        _ => false,
    }
}

/// The code points that no rule of reading takes for anything else.
fn is_delim_mark(mark: u32) -> bool
    ensures { result ≡ is_delim_mark mark }
{
    (is_non_printable(mark) && mark != 0) || is_one_of(b"!#$%&*+-./<=>?@\\^`|~", mark)
}
