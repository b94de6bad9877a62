//! Refusals. One enum serves every layer, and goes up through every call unaltered.
ghost use Rattle.std.specs.Prelude.{◌≡◌, Some};
ghost use Rattle.refusal.specs.Faults.{fault_shown, layer_name, layer_of, number_of, place_of};

use std::error::Error;
use std::fmt;

/// The layer that a refusal comes from.
#[derive(Clone, Copy, PartialEq, Eq, Debug)]
pub enum Layer {
    Source,
    Reader,
    Sink,
    Writer,
    Program,
}

/// A refusal, with its place. The comments say each case's number.
#[derive(Clone, Copy, PartialEq, Eq)]
pub enum Fault {
    /// 1: a number above U+10FFFF in an array of code points, at its index.
    OutOfRange(usize),
    /// 2: an ill-formed UTF-8 sequence, at the offset of its first byte.
    IllFormed(usize),
    /// 3: a token's text and unit outgrow the reader's buffer, at the place of its first code point.
    Outgrown(usize),
    /// 4: a byte that the sink does not take, at the number of bytes held.
    NotTaken(usize),
    /// 5: a token that no input yields. This and all up to 14 stand at the number of accepted tokens.
    Unlawful(usize),
    /// 6: a bad string or a bad url.
    BadToken(usize),
    /// 7: whitespace directly after whitespace.
    RepeatedWhitespace(usize),
    /// 8: a token out of turn, or an end while one is awaited.
    OutOfTurn(usize),
    /// 9: accepted tokens and open blocks have reached their limit.
    NoRoom(usize),
    /// 10: a function or bracket put while a block is open.
    BlockOpen(usize),
    /// 11: too many blocks are open.
    TooDeep(usize),
    /// 12: a slip that is not the innermost open block's.
    WrongSlip(usize),
    /// 13: an end while a block is open.
    Unclosed(usize),
    /// 14: a call after the end.
    Finished(usize),
    /// 15: the program's input is too long, at the longest length.
    TooLong(usize),
    /// A fault of an operator's own source: its number, which is the operator's to choose, and its place.
    Operator(u32, usize),
}

impl Fault {
    /// The number that the rule book gives the refusal, and that is shown.
    pub fn number(self) -> u32
        ensures { result ≡ number_of self }
    {
        match self {
            Fault::OutOfRange(_) => 1,
            Fault::IllFormed(_) => 2,
            Fault::Outgrown(_) => 3,
            Fault::NotTaken(_) => 4,
            Fault::Unlawful(_) => 5,
            Fault::BadToken(_) => 6,
            Fault::RepeatedWhitespace(_) => 7,
            Fault::OutOfTurn(_) => 8,
            Fault::NoRoom(_) => 9,
            Fault::BlockOpen(_) => 10,
            Fault::TooDeep(_) => 11,
            Fault::WrongSlip(_) => 12,
            Fault::Unclosed(_) => 13,
            Fault::Finished(_) => 14,
            Fault::TooLong(_) => 15,
            Fault::Operator(number, _) => number,
        }
    }

    pub fn layer(self) -> Layer
        ensures { result ≡ layer_of self }
    {
        match self {
            Fault::OutOfRange(_) | Fault::IllFormed(_) | Fault::Operator(..) => Layer::Source,
            Fault::Outgrown(_) => Layer::Reader,
            Fault::NotTaken(_) => Layer::Sink,
            Fault::TooLong(_) => Layer::Program,
            _ => Layer::Writer,
        }
    }

    pub fn place(self) -> usize
        ensures { result ≡ place_of self }
    {
        match self {
            Fault::OutOfRange(place)
            | Fault::IllFormed(place)
            | Fault::Outgrown(place)
            | Fault::NotTaken(place)
            | Fault::Unlawful(place)
            | Fault::BadToken(place)
            | Fault::RepeatedWhitespace(place)
            | Fault::OutOfTurn(place)
            | Fault::NoRoom(place)
            | Fault::BlockOpen(place)
            | Fault::TooDeep(place)
            | Fault::WrongSlip(place)
            | Fault::Unclosed(place)
            | Fault::Finished(place)
            | Fault::TooLong(place)
            | Fault::Operator(_, place) => place,
        }
    }
}

impl Layer {
    pub fn name(self) -> &'static str
        ensures { result.now ≡ layer_name self }
    {
        match self {
            Layer::Source => "source",
            Layer::Reader => "reader",
            Layer::Sink => "sink",
            Layer::Writer => "writer",
            Layer::Program => "program",
        }
    }
}

impl fmt::Display for Layer {
    ghost output = { λ l. Some (layer_name l) };

    fn fmt<W: fmt::Write>(&self, f: &mut fmt::Formatter<W>) -> fmt::Result {
        let name = self.name();
        write!(f, "{name}")
    }
}

impl fmt::Display for Fault {
    ghost output = { λ x. Some (fault_shown x) };

    fn fmt<W: fmt::Write>(&self, f: &mut fmt::Formatter<W>) -> fmt::Result {
        let number = self.number();
        let layer = self.layer();
        let place = self.place();
        write!(f, "fault {number} {layer} {place}")
    }
}

/// For logs, the same text: by hand, since the derive would leave number and layer out.
impl fmt::Debug for Fault {
    ghost debug_output = { λ x. Some (fault_shown x) };

    fn fmt<W: fmt::Write>(&self, f: &mut fmt::Formatter<W>) -> fmt::Result {
        write!(f, "{self}")
    }
}

impl Error for Fault {}
