//! The source that reads code points from 32-bit numbers.
ghost use Rattle.stream.specs.Sources.{array_ending, array_points};
ghost use Rattle.stream.specs.Within.{array_from_source, array_within};
ghost use Rattle.std.specs.Prelude.{◌≡◌, drop, nat_le};

use crate::source::{Source, Step};
use refusal::Fault;

/// A place is an index. The first number above U+10FFFF is the ending, fault 1.
#[derive(Drop)]
pub struct ArraySource<'a> {
    numbers: &'a [u32],
    at: usize,
}

impl<'a> ArraySource<'a> {
    pub fn new(numbers: &'a [u32]) -> ArraySource<'a>
        ensures ahead { array_points result.at (drop result.at result.numbers.now) ≡ array_points 0 numbers.now }
        ensures ending { array_ending result.at (drop result.at result.numbers.now) ≡ array_ending 0 numbers.now }
    {
        ArraySource { numbers, at: 0 }
    }
}

impl Source for ArraySource<'_> {
    ghost ahead = { λ s. array_points s.at (drop s.at s.numbers.now) };

    ghost ending = { λ s. array_ending s.at (drop s.at s.numbers.now) };

    ghost within = { λ s. array_within s.at (drop s.at s.numbers.now) };

    ghost sourced = { λ s. array_from_source s.at (drop s.at s.numbers.now) };

    fn next(&mut self) -> Result<Step, Fault> {
        let place = self.at;
        match self.numbers.get(place).copied() {
            Some(c) if is_code_point(c) => {
                self.at = place + 1;
                Ok(Step::Point((c, place)))
            }
            Some(_) => Err(Fault::OutOfRange(place)),
            None => Ok(Step::End(place)),
        }
    }
}

fn is_code_point(c: u32) -> bool
    ensures { result ≡ nat_le c 0x10ffff }
{
    c <= 0x10ffff
}
