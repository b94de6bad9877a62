//! What was read of a token.
ghost use Rattle.reader.specs.Reads.{bare_read, sign_read, texted_read};
ghost use Rattle.std.specs.Prelude.{◌≡◌};

use syntax::kind::Kind;

/// A token, and how many cells its text fills, of cells that were empty: none, once something found no cell.
#[derive(Clone, Copy)]
pub struct Read {
    pub kind: Kind,
    /// As the mark of a token.
    pub mark: u32,
    pub text: Option<usize>,
}

impl Read {
    /// A token without a text.
    pub fn bare(kind: Kind, mark: u32) -> Read
        ensures { result ≡ bare_read kind mark }
    {
        Read {
            kind,
            mark,
            text: Some(0),
        }
    }

    /// A token with a text.
    pub fn texted(kind: Kind, text: Option<usize>) -> Read
        ensures { result ≡ texted_read kind text }
    {
        Read {
            kind,
            mark: 0,
            text,
        }
    }

    /// A sign, or the delim of any other code point.
    pub fn sign(c: u32) -> Read
        ensures { result ≡ sign_read c }
    {
        match c {
            0x3a => Read::bare(Kind::Colon, 0),
            0x3b => Read::bare(Kind::Semicolon, 0),
            0x2c => Read::bare(Kind::Comma, 0),
            0x5b => Read::bare(Kind::OpenSquare, 0),
            0x5d => Read::bare(Kind::CloseSquare, 0),
            0x28 => Read::bare(Kind::OpenRound, 0),
            0x29 => Read::bare(Kind::CloseRound, 0),
            0x7b => Read::bare(Kind::OpenCurly, 0),
            0x7d => Read::bare(Kind::CloseCurly, 0),
            _ => Read::bare(Kind::Delim, c),
        }
    }
}
