//! Calls as values.
use syntax::token::Token;

#[derive(Clone, Copy)]
pub enum Call<'a> {
    Put(Token<'a>),
    Open(Token<'a>),
    /// Close with a slip of this depth and kind: any two numbers, since the law speaks of any slip.
    Close(usize, u8),
    Finish,
}
