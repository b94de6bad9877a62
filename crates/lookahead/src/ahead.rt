//! Reading with the next three code points in sight.
ghost use Rattle.codepoint.specs.Starts.{is_valid_escape, starts_ident, starts_number};
ghost use Rattle.lookahead.specs.Ahead.{Ahead, EndsAtZero, ending_in_sight, past, peeked};
ghost use Rattle.std.specs.Prelude.{◌≡◌};

use codepoint::starts::{is_valid_escape, starts_ident, starts_number};
use refusal::Fault;

/// The next three code points, each `EOF` where the input has ended, and the place of the first.
#[derive(Clone, Copy)]
pub struct Peek {
    pub first: u32,
    pub second: u32,
    pub third: u32,
    pub place: usize,
}

impl Peek {
    /// Whether the first two are a valid escape.
    pub fn starts_escape(self) -> bool
        ensures { result ≡ is_valid_escape self.first self.second }
    {
        is_valid_escape(self.first, self.second)
    }

    /// Whether the three start an identifier.
    pub fn starts_ident(self) -> bool
        ensures { result ≡ starts_ident self.first self.second self.third }
    {
        starts_ident(self.first, self.second, self.third)
    }

    /// Whether the three start a number.
    pub fn starts_number(self) -> bool
        ensures { result ≡ starts_number self.first self.second self.third }
    {
        starts_number(self.first, self.second, self.third)
    }
}

/// Code points without U+0000, read one after another with three in sight.
pub trait Lookahead {
    ghost rest: { Self → Ahead };

    /// The next three code points; nothing leaves.
    fn peek(&mut self) -> Peek
        ensures same { rest self.new ≡ rest self.old }
        ensures seen { result ≡ peeked (rest self.old).list }
        ensures ends { EndsAtZero result (rest self.old).list };

    /// Past the next code point.
    fn bump(&mut self)
        ensures { rest self.new ≡ past 1 (rest self.old) };

    /// How the input ends, once fewer than three code points are left; before that, none.
    fn ending(&mut self) -> Option<Result<usize, Fault>>
        ensures same { rest self.new ≡ rest self.old }
        ensures told { result ≡ ending_in_sight (rest self.old) };
}
