//! What a reader answers.
use syntax::kind::Kind;

/// A token whose text stands in the caller's cells from the first on, and its unit behind that: of both the lengths,
/// since slices would hold the cells, which are lent anew at each call. The place is that of its first code point.
#[derive(Clone, Copy, PartialEq, Eq, Debug)]
pub struct Located {
    pub kind: Kind,
    /// As the mark of a token.
    pub mark: u32,
    pub text: usize,
    pub unit: usize,
    pub place: usize,
}

/// A token, or the end. The end has a place, so it is neither an absence nor an error, and this is an enum of its own;
/// beside `Step` of `stream`, since the names say what they are.
#[derive(Clone, Copy, PartialEq, Eq, Debug)]
pub enum Next {
    Token(Located),
    End(usize),
}
