//! The source that reads UTF-8.
ghost use Rattle.std.specs.Prelude.{◌≡◌, ◌≤◌, length, drop};
ghost use Rattle.codepoint.specs.Utf8.{points_from};
ghost use Rattle.stream.specs.Sources.{byte_ending};
ghost use Rattle.stream.specs.Within.{byte_from_source, byte_within};

use crate::source::{Source, Step};
use codepoint::utf8::{Decoded, decode};
use refusal::Fault;

/// A place is a byte offset. The first ill-formed sequence is the ending, fault 2 at its first byte.
#[derive(Drop)]
pub struct ByteSource<'a> {
    bytes: &'a [u8],
    at: usize,
    ghost inside: { at ≤ length bytes.now },
}

impl<'a> ByteSource<'a> {
    pub fn new(bytes: &'a [u8]) -> ByteSource<'a>
        ensures ahead { points_from 0 result.at (drop result.at result.bytes.now) ≡ points_from 0 0 bytes.now }
        ensures ending { byte_ending result.at (drop result.at result.bytes.now) ≡ byte_ending 0 bytes.now }
    {
        ByteSource { bytes, at: 0 }
    }

    /// The bytes that are left.
    fn rest(&self) -> &[u8]
        ensures { result.now ≡ drop self.now.at self.now.bytes.now }
    {
        &self.bytes[self.at..]
    }
}

impl Source for ByteSource<'_> {
    ghost ahead = { λ s. points_from 0 s.at (drop s.at s.bytes.now) };

    ghost ending = { λ s. byte_ending s.at (drop s.at s.bytes.now) };

    ghost within = { λ s. byte_within s.at (drop s.at s.bytes.now) };

    ghost sourced = { λ s. byte_from_source s.at (drop s.at s.bytes.now) };

    fn next(&mut self) -> Result<Step, Fault> {
        let place = self.at;
        match decode(self.rest()) {
            Decoded::Empty => Ok(Step::End(place)),
            Decoded::Point(c, len) => {
                self.at = place + len;
                Ok(Step::Point((c, place)))
            }
            Decoded::IllFormed => Err(Fault::IllFormed(place)),
        }
    }
}
