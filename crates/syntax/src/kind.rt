//! The kinds of tokens, with their numbers.
ghost use Rattle.std.specs.Prelude.{◌≡◌};
ghost use Rattle.syntax.specs.Kinds.{is_bad_kind, number_of};

#[derive(Clone, Copy, PartialEq, Eq, Debug)]
pub enum Kind {
    Ident = 1,
    Function = 2,
    AtKeyword = 3,
    Hash = 4,
    QuotedString = 5,
    BadString = 6,
    Url = 7,
    BadUrl = 8,
    Delim = 9,
    Number = 10,
    Percentage = 11,
    Dimension = 12,
    Whitespace = 13,
    Cdo = 14,
    Cdc = 15,
    Colon = 16,
    Semicolon = 17,
    Comma = 18,
    OpenSquare = 19,
    CloseSquare = 20,
    OpenRound = 21,
    CloseRound = 22,
    OpenCurly = 23,
    CloseCurly = 24,
}

impl Kind {
    /// The number that the rule book gives the kind. The cast stays, since no `From` gives it.
    pub fn number(self) -> u8
        ensures { result ≡ number_of self }
    {
        self as u8
    }

    /// A bad string or a bad url.
    pub fn is_bad(self) -> bool
        ensures { result ≡ is_bad_kind self }
    {
        matches!(self, Kind::BadString | Kind::BadUrl)
    }
}
