//! Between which neighbours a comment stands.
#![tactic(auto, unfolding(syntax::specs::Neighbours::apart, syntax::specs::Neighbours::left_of, syntax::specs::Neighbours::right_of))]

ghost use Rattle.std.specs.Prelude.{◌≡◌, ◌<◌};
ghost use Rattle.syntax.specs.Neighbours.{apart, column_of, is_dashes, left_of, right_of, row_of};
ghost use Rattle.syntax.specs.Tokens.{delim, value_of};

use syntax::kind::Kind;
use syntax::neighbour::{Left, Right};
use syntax::token::Token;

const X: bool = true;

const O: bool = false;

/// A row for each left neighbour; columns: name, numeric, `-`, `(`, `>`, `%`, `!`, `*`, any other.
#[rattlefmt::skip]
const MATRIX: [[bool; 9]; 10] = [
    [X, X, X, X, O, O, O, O, O],
    [X, X, X, X, X, O, O, O, O],
    [X, X, X, O, O, O, O, O, O],
    [X, X, O, O, O, X, O, O, O],
    [X, O, O, O, O, O, O, O, O],
    [O, X, O, O, O, O, O, O, O],
    [O, O, O, O, O, O, X, O, O],
    [O, O, O, O, O, O, O, X, O],
    [O, O, O, O, O, O, O, O, O],
    [O, O, O, O, O, O, O, O, O],
];

/// Whether a comment stands between two neighbours.
pub fn is_apart(left: Left, right: Right) -> bool
    ensures { result ≡ apart left right }
{
    let row = MATRIX[row_of(left)];
    row[column_of(right)]
}

// The variants stand in the order of the rows, and those of `Right` in that of the columns; no `From` gives an
// index.
fn row_of(left: Left) -> usize
    ensures number { result ≡ row_of left }
    ensures inside { result < 10 }
{
    left as usize
}

fn column_of(right: Right) -> usize
    ensures number { result ≡ column_of right }
    ensures inside { result < 9 }
{
    right as usize
}

/// A token as the left neighbour.
pub fn left_of(token: Token<'_>) -> Left
    ensures { result ≡ left_of (value_of token.entry) }
{
    match token.kind {
        Kind::Ident if is_dashes(token.text) => Left::Dashes,
        Kind::Ident => Left::Ident,
        Kind::AtKeyword | Kind::Hash | Kind::Dimension => Left::Name,
        Kind::Number => Left::Number,
        Kind::Whitespace => Left::Whitespace,
        Kind::Delim => left_of_delim(token.mark),
        _ => Left::Other,
    }
}

fn left_of_delim(mark: u32) -> Left
    ensures { result ≡ left_of (delim mark) }
{
    match mark {
        0x23 | 0x2d => Left::Name,
        0x40 => Left::At,
        0x2e | 0x2b => Left::DotOrPlus,
        0x3c => Left::Less,
        0x2f => Left::Slash,
        _ => Left::Other,
    }
}

/// A token as the right neighbour.
pub fn right_of(token: Token<'_>) -> Right
    ensures { result ≡ right_of (value_of token.entry) }
{
    match token.kind {
        Kind::Ident | Kind::Function | Kind::Url | Kind::Cdc => Right::Name,
        Kind::Number | Kind::Percentage | Kind::Dimension => Right::Numeric,
        Kind::OpenRound => Right::Paren,
        Kind::Delim => right_of_delim(token.mark),
        _ => Right::Other,
    }
}

fn right_of_delim(mark: u32) -> Right
    ensures { result ≡ right_of (delim mark) }
{
    match mark {
        0x2d => Right::Hyphen,
        0x3e => Right::Greater,
        0x25 => Right::Percent,
        0x21 => Right::Exclamation,
        0x2a => Right::Asterisk,
        _ => Right::Other,
    }
}

/// The text `--`.
fn is_dashes(text: &[u32]) -> bool
    ensures { result ≡ is_dashes text.now }
{
    matches!(text, [0x2d, 0x2d])
}
