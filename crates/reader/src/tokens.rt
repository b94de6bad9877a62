//! One token, by what its first code points decide.
ghost use Rattle.reader.specs.Reads.{Reads, found_from, less_found};
ghost use Rattle.lookahead.specs.Ahead.{codes, past};
ghost use Rattle.std.specs.Prelude.{◌≡◌};
ghost use Rattle.scan.specs.declared.cells.Cells.{Cells};

use crate::first_three::{is_comment_closing, is_comment_opening, is_quote, opens_hash};
use crate::names::read_ident_like;
use crate::read::Read;
use crate::texts::{read_at, read_hash, read_number, read_string};
use codepoint::class::is_whitespace;
use lookahead::Lookahead;
use scan::{Cells, skip_whitespace};
use syntax::kind::Kind;

/// A token, from its first code point. What it collects goes into the cells from the first on.
pub fn read_token<L: Lookahead>(input: &mut L, cells: &mut Cells<'_>) -> Read
    ensures { Reads cells.old (L.Lookahead.rest input.old) (found_from (codes (L.Lookahead.rest input.old))) cells.new result (L.Lookahead.rest input.new) }
{
    let seen = input.peek();
    if is_whitespace(seen.first) {
        input.bump();
        skip_whitespace(input);
        return Read::bare(Kind::Whitespace, 0);
    }
    if is_quote(seen.first) {
        input.bump();
        return read_string(input, seen.first, cells);
    }
    if opens_hash(seen) {
        input.bump();
        return read_hash(input, cells);
    }
    if seen.first == 0x40 {
        input.bump();
        return read_at(input, cells);
    }
    if seen.starts_number() {
        return read_number(input, cells);
    }
    if is_comment_closing(seen) {
        skip_three(input);
        return Read::bare(Kind::Cdc, 0);
    }
    if seen.first == 0x3c {
        input.bump();
        return read_less(input);
    }
    if seen.starts_ident() {
        return read_ident_like(input, cells);
    }
    input.bump();
    Read::sign(seen.first)
}

/// From behind `<`: `<!--`, or the sign.
#[tactic(auto, unfolding(scan::specs::Fills::filled, scan::specs::Fills::laid))]
fn read_less<L: Lookahead>(input: &mut L) -> Read
    ensures { (cells : Cells) → Reads cells (L.Lookahead.rest input.old) (less_found (codes (L.Lookahead.rest input.old))) cells result (L.Lookahead.rest input.new) }
{
    let seen = input.peek();
    if is_comment_opening(seen) {
        skip_three(input);
        return Read::bare(Kind::Cdo, 0);
    }
    Read::bare(Kind::Delim, 0x3c)
}

fn skip_three<L: Lookahead>(input: &mut L)
    ensures { L.Lookahead.rest input.new ≡ past 3 (L.Lookahead.rest input.old) }
{
    input.bump();
    input.bump();
    input.bump();
}
