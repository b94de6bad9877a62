//! Numbers, part by part.
ghost use Rattle.std.specs.Prelude.{◌≡◌, ◌≤◌, [], length};
ghost use Rattle.lookahead.specs.Ahead.{codes};
ghost use Rattle.scan.specs.Fills.{Collects};
ghost use Rattle.syntax.specs.Numbers.{number_at, part, part_if_any};

use crate::cells::Cells;
use crate::collecting::collect_digits;
use lookahead::Lookahead;
use syntax::number::{exponent_length, fraction_length, sign_length};

/// A number: a sign and digits, a fraction, an exponent.
#[tactic(auto, unfolding(syntax::specs::Numbers::sign_length, syntax::specs::Numbers::fraction_length, syntax::specs::Numbers::exponent_length, codepoint::specs::Classes::is_digit))]
pub fn collect_number<L: Lookahead>(input: &mut L, cells: &mut Cells<'_>)
    ensures { Collects cells.old (L.Lookahead.rest input.old) (number_at (codes (L.Lookahead.rest input.old))).0 (number_at (codes (L.Lookahead.rest input.old))).1 cells.new (L.Lookahead.rest input.new) }
{
    let front = input.peek();
    let sign = sign_length(front.first);
    collect_part(input, sign, cells);
    let seen = input.peek();
    let fraction = fraction_length(seen.first, seen.second);
    collect_part_if_any(input, fraction, cells);
    let then = input.peek();
    let exponent = exponent_length(then.first, then.second, then.third);
    collect_part_if_any(input, exponent, cells);
}

/// So many code points and the digits behind them, or nothing where `count` is 0.
#[tactic(auto, unfolding(crate::specs::Fills::laid, crate::specs::Fills::filled))]
fn collect_part_if_any<L: Lookahead>(input: &mut L, count: usize, cells: &mut Cells<'_>)
    requires { count ≤ length (codes (L.Lookahead.rest input.old)) }
    ensures { Collects cells.old (L.Lookahead.rest input.old) (part_if_any count [] (codes (L.Lookahead.rest input.old))).0 (part_if_any count [] (codes (L.Lookahead.rest input.old))).1 cells.new (L.Lookahead.rest input.new) }
{
    if count > 0 {
        collect_part(input, count, cells);
    }
}

/// So many code points and the digits behind them.
#[tactic(auto, unfolding(crate::specs::Fills::laid, crate::specs::Fills::filled))]
fn collect_part<L: Lookahead>(input: &mut L, count: usize, cells: &mut Cells<'_>)
    requires { count ≤ length (codes (L.Lookahead.rest input.old)) }
    ensures { Collects cells.old (L.Lookahead.rest input.old) (part count [] (codes (L.Lookahead.rest input.old))).0 (part count [] (codes (L.Lookahead.rest input.old))).1 cells.new (L.Lookahead.rest input.new) }
{
    for _ in 0..count {
        let seen = input.peek();
        input.bump();
        cells.put(seen.first);
    }
    collect_digits(input, cells);
}
