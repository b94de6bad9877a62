//! Sinks of bytes.
ghost use Rattle.std.specs.Prelude.{ℕ, Bool, List};
ghost use Rattle.stream.specs.Sinks.{Takes};

use refusal::Fault;

/// A sink holds a list of bytes, and has at each moment the bytes that it would take next. Two members and no record:
/// a definition takes what it speaks of, one or both.
pub trait Sink {
    ghost held: { Self → List ℕ };

    ghost takes: { Self → ℕ → Bool };

    /// Adds a byte that it would take; what it takes after that is its own affair. Refuses any other byte with
    /// fault 4 at the number of bytes held, and then changes nothing.
    fn take(&mut self, byte: u8) -> Result<(), Fault>
        ensures { Takes held takes self.old byte result self.new };
}
