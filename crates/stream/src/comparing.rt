//! The sink that compares bytes with those expected.
ghost use Rattle.std.specs.Prelude.{◌≡◌, ◌≤◌, ◌&&◌, length, take as front, ◌==◌, nat_lt, slice_index};

use crate::sink::Sink;
use refusal::Fault;

/// Stands over expected bytes, and takes only the one that comes next there.
#[derive(Drop)]
pub struct ComparingSink<'a> {
    expected: &'a [u8],
    /// How many have come: the place that a refusal tells.
    at: usize,
    ghost inside: { at ≤ length expected.now },
}

impl<'a> ComparingSink<'a> {
    pub fn new(expected: &'a [u8]) -> ComparingSink<'a>
        ensures { (result.expected.now ≡ expected.now) × (result.at ≡ 0) }
    {
        ComparingSink { expected, at: 0 }
    }

    /// Whether all expected bytes have come.
    pub fn is_complete(&self) -> bool
        ensures { result ≡ (self.now.at == length self.now.expected.now) }
    {
        self.at == self.expected.len()
    }
}

impl Sink for ComparingSink<'_> {
    ghost held = { λ s. front s.at s.expected.now };

    ghost takes = { λ s b. nat_lt s.at (length s.expected.now) && b == slice_index s.expected.now s.at };

    fn take(&mut self, byte: u8) -> Result<(), Fault> {
        let at = self.at;
        match self.expected.get(at) {
            Some(next) if *next == byte => {
                self.at = at + 1;
                Ok(())
            }
            _ => Err(Fault::NotTaken(at)),
        }
    }
}
