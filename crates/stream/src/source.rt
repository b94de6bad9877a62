//! Sources of code points.
ghost use Rattle.std.specs.Prelude.{ℕ, List};
ghost use Rattle.stream.specs.Preprocess.{AllWithin, Placed};
ghost use Rattle.stream.specs.Sources.{Ending, FromSource, Hands};

use refusal::Fault;

/// What a source hands over: a code point together with its place, or the end. No `Option`, since the end has a place too.
#[derive(Clone, Copy, PartialEq, Eq, Debug)]
pub enum Step {
    Point((u32, usize)),
    End(usize),
}

/// A source has a list of code points ahead, each with its place, and an ending: the end with its place, or a fault. Two
/// members and no record: a definition takes what it speaks of, one or both.
pub trait Source {
    ghost ahead: { Self → List Placed };

    ghost ending: { Self → Ending };

    /// Hands over the first code point with its place, and only that one leaves; with nothing ahead, tells the
    /// ending and changes nothing.
    fn next(&mut self) -> Result<Step, Fault>
        ensures { Hands (ahead self.old) (ending self.old) result (ahead self.new) (ending self.new) };

    // every code point is at most U+10FFFF
    ghost within: { (s : Self) → AllWithin (ahead s) };

    // a source ends with no other layer's fault
    ghost sourced: { (s : Self) → FromSource (ending s) };
}
