//! Code points in front of the preprocessing layer.
ghost use Rattle.lookahead.specs.declared.window.TheConstants.{SIZE};
ghost use Rattle.std.specs.List.{All};
ghost use Rattle.std.specs.Prelude.{◌<◌, ◌≤◌, take};

use stream::Preprocess;

mod chunk;

/// How many code points a window has room for. The reader allocates nothing, so they lie in an array.
const SIZE: usize = 32;

/// How many code points are in sight. The source is asked for no more: its writer sees how far it is read.
const SIGHT: usize = 3;

/// A source, preprocessed, with some code points in front of it: those of index `at` up to `end`, each with its place.
#[derive(Drop)]
pub struct Window<S> {
    source: Preprocess<S>,
    points: [(u32, usize); SIZE],
    at: usize,
    end: usize,
    ghost ordered: { at ≤ end },
    ghost inside: { end ≤ SIZE },
    ghost filled: { All (λ p. 0 < p.0) (take end points) },
}
