//! How the window is filled, shown and passed over.
ghost use Rattle.std.specs.List.{All};
ghost use Rattle.lookahead.specs.declared.window.TheConstants.{SIGHT, SIZE};
ghost use Rattle.std.specs.Prelude.{◌≡◌, ◌+◌, ◌<◌, ◌≤◌, ◌∷◌, [], length};
ghost use Rattle.stream.specs.Preprocess.{preprocessed};
ghost use Rattle.lookahead.specs.Ahead.{peeked};
ghost use Rattle.lookahead.specs.Windows.{InSightOrTold, ahead_of, chunk_of};

use super::{SIGHT, SIZE, Window};
use crate::ahead::{Lookahead, Peek};
use codepoint::starts::EOF;
use refusal::Fault;
use stream::{Preprocess, Source, Step};

/// What stands past the end.
const PAST: (u32, usize) = (EOF, 0);

// The clauses take `ahead_of` and no model: the methods speak of the fields, which a model would hide.
impl<S: Source> Window<S> {
    /// A window over a source, preprocessed.
    pub fn new(source: S) -> Window<S>
        ensures list { (ahead_of S.Source.ahead S.Source.ending result).list ≡ preprocessed (S.Source.ahead source) }
        ensures ending { (ahead_of S.Source.ahead S.Source.ending result).ending ≡ S.Source.ending source }
    {
        Window {
            source: Preprocess::new(source),
            points: [PAST; SIZE],
            at: 0,
            end: 0,
        }
    }

    /// Moves what is left to the front, where the window's end has no room for three in sight.
    #[inline(always)]
    fn make_room(&mut self)
        ensures same { ahead_of S.Source.ahead S.Source.ending self.new ≡ ahead_of S.Source.ahead S.Source.ending self.old }
        ensures room { self.new.at + SIGHT ≤ SIZE }
        ensures size { length self.new.points ≡ SIZE }
    {
        if self.at + SIGHT > SIZE {
            self.move_to_front();
        }
    }

    /// Moves what is left to the front, once in some thirty code points.
    #[cold]
    #[inline(never)]
    fn move_to_front(&mut self)
        ensures same { ahead_of S.Source.ahead S.Source.ending self.new ≡ ahead_of S.Source.ahead S.Source.ending self.old }
        ensures front { self.new.at ≡ 0 }
        ensures size { length self.new.points ≡ SIZE }
    {
        self.points.copy_within(self.at..self.end, 0);
        self.end -= self.at;
        self.at = 0;
    }

    /// Takes code points from the source until three are in sight or the source tells its ending, which it answers.
    fn refill(&mut self) -> Result<Option<usize>, Fault>
        ensures same { ahead_of S.Source.ahead S.Source.ending self.new ≡ ahead_of S.Source.ahead S.Source.ending self.old }
        ensures now_so { InSightOrTold S.Source.ahead S.Source.ending self.new result }
    {
        self.make_room();
        let Window {
            source,
            points,
            at,
            end,
        } = self;
        let sight = (*at + SIGHT).max(*end);
        for cell in &mut points[*end..sight] {
            match source.next()? {
                Step::Point(point) => *cell = point,
                Step::End(place) => return Ok(Some(place)),
            }
            // counted here and not behind the loop: the window is right wherever the source stops
            *end += 1;
        }
        Ok(None)
    }

    /// The code points in the window, of which none is U+0000.
    fn chunk(&self) -> &[(u32, usize)]
        ensures now { result.now ≡ chunk_of self.now }
        ensures no_zero { All (λ p. 0 < p.0) result.now }
    {
        &self.points[self.at..self.end]
    }
}

/// Three code points in sight, at the place of the first.
fn peek_of(a: (u32, usize), b: (u32, usize), c: (u32, usize)) -> Peek
    ensures { result ≡ peeked (a ∷ b ∷ c ∷ []) }
{
    Peek {
        first: a.0,
        second: b.0,
        third: c.0,
        place: a.1,
    }
}

impl<S: Source> Lookahead for Window<S> {
    ghost rest = { ahead_of S.Source.ahead S.Source.ending };

    fn peek(&mut self) -> Peek {
        if self.chunk().len() < SIGHT {
            let _ = self.refill();
        }
        match *self.chunk() {
            [a, b, c, ..] => peek_of(a, b, c),
            [a, b] => peek_of(a, b, PAST),
            [a] => peek_of(a, PAST, PAST),
            [] => peek_of(PAST, PAST, PAST),
        }
    }

    fn bump(&mut self) {
        if self.chunk().is_empty() {
            let _ = self.refill();
        }
        if !self.chunk().is_empty() {
            self.at += 1;
        }
    }

    fn ending(&mut self) -> Option<Result<usize, Fault>> {
        if self.chunk().len() >= 3 {
            return None;
        }
        let told = self.refill();
        if self.chunk().len() < 3 {
            told.transpose()
        } else {
            None
        }
    }
}
