//! Which token is in turn, by what the tokens so far make a writer wait for.
ghost use Rattle.syntax.specs.Tokens.{value_of};
ghost use Rattle.syntax.specs.Turn.{is_in_turn, waiting_after};
ghost use Rattle.std.specs.Prelude.{◌≡◌};

use syntax::kind::Kind;
use syntax::name::is_url;
use syntax::token::Token;
use syntax::waiting::Waiting;

/// Behind a delim `\` whitespace; behind a function named url a string, or one whitespace and then a string.
pub fn is_in_turn(waiting: Waiting, token: Token<'_>) -> bool
    ensures { result ≡ is_in_turn waiting (value_of token.entry) }
{
    matches!(
        (waiting, token.kind),
        (Waiting::Free, _)
            | (Waiting::AfterBackslash, Kind::Whitespace)
            | (Waiting::AfterUrl, Kind::Whitespace | Kind::QuotedString)
            | (Waiting::AfterUrlWhitespace, Kind::QuotedString)
    )
}

/// What is awaited behind a token.
pub fn waiting_after(waiting: Waiting, token: Token<'_>) -> Waiting
    ensures { result ≡ waiting_after waiting (value_of token.entry) }
{
    match (waiting, token.kind) {
        (Waiting::AfterUrl, Kind::Whitespace) => Waiting::AfterUrlWhitespace,
        (_, Kind::Delim) if token.mark == 0x5c => Waiting::AfterBackslash,
        (_, Kind::Function) if is_url(token.text) => Waiting::AfterUrl,
        (_, _) => Waiting::Free,
    }
}
