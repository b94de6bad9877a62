//! Cells that are filled one after another. How many are is an `Option<usize>`: none, once something found no cell.
ghost use Rattle.scan.specs.Fills.{Puts};
ghost use Rattle.std.specs.Prelude.{◌≡◌, ◌∷◌, [], Some};

/// Cells lent by a caller, filled from the first on.
#[derive(Drop)]
pub struct Cells<'a> {
    cells: &'a mut [u32],
    /// How many are: none, once something found no cell.
    filled: Option<usize>,
}

impl<'a> Cells<'a> {
    /// The caller's cells, none filled yet.
    pub fn new(cells: &'a mut [u32]) -> Cells<'a>
        ensures now { result.cells.now ≡ cells.old }
        ensures none { result.filled ≡ Some 0 }
        ensures same { result.cells.ghost_name ≡ cells.entry.ghost_name }
    {
        Cells::resume(cells, Some(0))
    }

    /// The caller's cells, so many filled already.
    pub fn resume(cells: &'a mut [u32], so_far: Option<usize>) -> Cells<'a>
        ensures now { result.cells.now ≡ cells.old }
        ensures fill { result.filled ≡ so_far }
        ensures same { result.cells.ghost_name ≡ cells.entry.ghost_name }
    {
        Cells {
            cells,
            filled: so_far,
        }
    }

    /// How many are filled: none, once something found no cell.
    pub fn filled(&self) -> Option<usize>
        ensures { result ≡ self.now.filled }
    {
        self.filled
    }

    /// One code point into the next cell, if there is one.
    #[tactic(auto, unfolding(crate::specs::Fills::laid, crate::specs::Fills::filled))]
    pub fn put(&mut self, c: u32)
        ensures { Puts self.old (c ∷ []) self.new }
    {
        let Cells { cells, filled } = self;
        *filled = match *filled {
            // By the index: of what a slice is after `get_mut`, std says nothing.
            Some(at) if at < cells.len() => {
                cells[at] = c;
                Some(at + 1)
            }
            _ => None,
        };
    }
}
