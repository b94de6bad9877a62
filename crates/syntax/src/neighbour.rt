//! The classes of tokens as neighbours: the rows and columns of the adjacency matrix.

#[derive(Clone, Copy, PartialEq, Eq, Debug)]
pub enum Left {
    Ident,
    /// the identifier `--`
    Dashes,
    /// at-keyword, hash, dimension, `#` and `-`: a name could go on
    Name,
    Number,
    At,
    DotOrPlus,
    Less,
    Slash,
    Whitespace,
    Other,
}

#[derive(Clone, Copy, PartialEq, Eq, Debug)]
pub enum Right {
    /// ident, function, url and CDC: they begin as a name does
    Name,
    /// number, percentage and dimension
    Numeric,
    Hyphen,
    Paren,
    Greater,
    Percent,
    Exclamation,
    Asterisk,
    Other,
}
