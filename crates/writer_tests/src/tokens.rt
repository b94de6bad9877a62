// Tokens and calls that the tests make.
use syntax::kind::Kind;
use syntax::token::Token;
use writer::Call;

pub(crate) fn ident(text: &[u32]) -> Token<'_> {
    Token::texted(Kind::Ident, text)
}

/// Close with a slip of this depth, for a block of this kind.
pub(crate) fn close(depth: usize, kind: Kind) -> Call<'static> {
    Call::Close(depth, kind.number())
}
