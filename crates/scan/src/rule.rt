//! The one loop: what a rule says turn by turn, done to the input and to the cells.
ghost use Rattle.lookahead.specs.Ahead.{codes};
ghost use Rattle.scan.specs.Fills.{Collects};
ghost use Rattle.scan.specs.Turns.{Says};
ghost use Rattle.std.specs.Prelude.{ℕ, List};
ghost use Rattle.syntax.specs.Rules.{Step, beyond, collect};

use crate::cells::Cells;
use crate::escapes::escape;
use codepoint::starts::EOF;
use lookahead::{Lookahead, Peek};

/// What a rule says of the next code points.
pub(crate) enum Turn {
    /// It ends here.
    Halt,
    /// One code point is collected.
    Take,
    /// One is passed over.
    Pass,
    /// Two are passed over.
    PassTwo,
    /// A backslash is passed over, and what its escape gives is collected.
    Escape,
}

/// A rule of the syntax that the next two code points decide turn by turn. Every rule ends at the end of the input.
pub(crate) trait Rule {
    ghost rule: { Self → List ℕ → Step ℕ };

    /// What it says where the first two of `seen` come next, `EOF` where nothing does.
    fn turn(&self, seen: Peek) -> Turn
        ensures { Says (rule self.now) seen.first seen.second result };
}

/// What a rule collects goes into the cells, and what it leaves is ahead. Input and cells stay two: skipping and escapes
/// take the input alone, and what the reader holds back goes into the cells alone.
pub(crate) fn collect<L: Lookahead, R: Rule>(input: &mut L, rule: &R, cells: &mut Cells<'_>)
    ensures { Collects cells.old (L.Lookahead.rest input.old) (collect (R.Rule.rule rule.now) (codes (L.Lookahead.rest input.old))) (beyond (R.Rule.rule rule.now) (codes (L.Lookahead.rest input.old))) cells.new (L.Lookahead.rest input.new) }
{
    loop {
        let seen = input.peek();
        if seen.first == EOF {
            return;
        }
        match rule.turn(seen) {
            Turn::Halt => return,
            Turn::Take => {
                input.bump();
                cells.put(seen.first);
            }
            Turn::Pass => input.bump(),
            Turn::PassTwo => {
                input.bump();
                input.bump();
            }
            Turn::Escape => {
                input.bump();
                let c = escape(input);
                cells.put(c);
            }
        }
    }
}
