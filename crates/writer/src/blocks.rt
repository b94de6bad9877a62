//! The open blocks.
ghost use Rattle.std.specs.Prelude.{◌≡◌, ◌<◌, ◌≤◌, IfSome, is_some, nat_le};
ghost use Rattle.syntax.specs.Kinds.{number_of};

use crate::writing::Slip;
use syntax::kind::Kind;

/// The most open blocks.
const DEPTH: usize = 32;

/// The open blocks, by their kinds. An array and its length: the writer's state is Copy and uses no heap.
#[derive(Clone, Copy)]
pub struct Blocks {
    depth: usize,
    /// Outermost first; past `depth` they mean nothing.
    kinds: [Kind; DEPTH],
    ghost shallow: { depth ≤ 32 },
}

impl Blocks {
    ghost use Rattle.writer.specs.Refusals.{is_innermost};
    ghost use Rattle.writer.specs.States.{Closed, Opened};

    pub(crate) fn new() -> Blocks
        ensures { result.depth ≡ 0 }
    {
        Blocks {
            depth: 0,
            kinds: [Kind::OpenCurly; DEPTH],
        }
    }

    #[inline(always)]
    pub(crate) fn depth(self) -> usize
        ensures { result ≡ self.depth }
    {
        self.depth
    }

    #[inline(always)]
    pub(crate) fn is_full(self) -> bool
        ensures { result ≡ nat_le 32 self.depth }
    {
        self.depth >= DEPTH
    }

    /// The kind of the innermost block, if the slip has its depth and the number of its kind.
    #[inline(always)]
    pub(crate) fn innermost(self, slip: &Slip) -> Option<Kind>
        ensures found { is_some result ≡ is_innermost self slip.now.depth slip.now.kind }
        ensures kind { IfSome result (λ k. slip.now.kind ≡ number_of k) }
    {
        if slip.depth != self.depth {
            return None;
        }
        let open = &self.kinds[..self.depth];
        open.last()
            .copied()
            .filter(|kind| kind.number() == slip.kind)
    }

    /// With one block more.
    #[inline(always)]
    pub(crate) fn opened(mut self, kind: Kind) -> Blocks
        requires { self.depth < 32 }
        ensures { Opened self kind result }
    {
        self.kinds[self.depth] = kind;
        self.depth += 1;
        self
    }

    /// Without the innermost block.
    #[inline(always)]
    pub(crate) fn closed(mut self) -> Blocks
        requires { 0 < self.depth }
        ensures { Closed self result }
    {
        self.depth -= 1;
        self
    }
}
