//! A token as it stands in cells.
ghost use Rattle.reader.specs.Readings.{value_in};
ghost use Rattle.syntax.specs.Tokens.{value_of};
ghost use Rattle.std.specs.Prelude.{◌≡◌};

use crate::answer::Located;
use syntax::token::Token;

/// The token with its text and unit borrowed from the cells, as far as they go.
pub fn view<'a>(token: Located, cells: &'a [u32]) -> Token<'a>
    ensures { value_of result ≡ value_in token cells.now }
{
    let (text, behind) = cells.split_at(token.text.min(cells.len()));
    let (unit, _) = behind.split_at(token.unit.min(behind.len()));
    Token {
        kind: token.kind,
        mark: token.mark,
        text,
        unit,
    }
}
