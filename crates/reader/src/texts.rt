//! Tokens with a text: strings, names, numbers and urls.
ghost use Rattle.reader.specs.Reads.{Reads, at_found, hash_found};
ghost use Rattle.lookahead.specs.Ahead.{codes};
ghost use Rattle.syntax.specs.Reading.{name_at, numeric_at, string_at, url_at};

use crate::read::Read;
use codepoint::starts::EOF;
use lookahead::Lookahead;
use scan::{
    Cells, collect_name, collect_number, collect_string, collect_url, skip_remnants,
    skip_whitespace,
};
use syntax::kind::Kind;

/// A string, from behind its quote.
#[tactic(auto, unfolding(syntax::specs::Reading::end_string, syntax::specs::Reading::string_at))]
pub fn read_string<L: Lookahead>(input: &mut L, quote: u32, cells: &mut Cells<'_>) -> Read
    ensures { Reads cells.old (L.Lookahead.rest input.old) (string_at quote (codes (L.Lookahead.rest input.old))) cells.new result (L.Lookahead.rest input.new) }
{
    collect_string(input, quote, cells);
    let seen = input.peek();
    if seen.first == 0x0a {
        return Read::texted(Kind::BadString, cells.filled());
    }
    input.bump();
    Read::texted(Kind::QuotedString, cells.filled())
}

/// A token whose text is an identifier.
pub fn read_name<L: Lookahead>(input: &mut L, kind: Kind, mark: u32, cells: &mut Cells<'_>) -> Read
    ensures { Reads cells.old (L.Lookahead.rest input.old) (name_at kind mark (codes (L.Lookahead.rest input.old))) cells.new result (L.Lookahead.rest input.new) }
{
    collect_name(input, cells);
    Read {
        kind,
        mark,
        text: cells.filled(),
    }
}

/// A hash, from behind its `#`.
pub fn read_hash<L: Lookahead>(input: &mut L, cells: &mut Cells<'_>) -> Read
    ensures { Reads cells.old (L.Lookahead.rest input.old) (hash_found (codes (L.Lookahead.rest input.old))) cells.new result (L.Lookahead.rest input.new) }
{
    let seen = input.peek();
    let mark = u32::from(seen.starts_ident());
    read_name(input, Kind::Hash, mark, cells)
}

/// From behind `@`: an at-keyword, or the sign.
#[tactic(auto, unfolding(scan::specs::Fills::filled, scan::specs::Fills::laid))]
pub fn read_at<L: Lookahead>(input: &mut L, cells: &mut Cells<'_>) -> Read
    ensures { Reads cells.old (L.Lookahead.rest input.old) (at_found (codes (L.Lookahead.rest input.old))) cells.new result (L.Lookahead.rest input.new) }
{
    let seen = input.peek();
    if seen.starts_ident() {
        return read_name(input, Kind::AtKeyword, 0, cells);
    }
    Read::bare(Kind::Delim, 0x40)
}

/// A number, a percentage or a dimension.
#[tactic(auto, unfolding(syntax::specs::Reading::end_number, syntax::specs::Reading::numeric_at))]
pub fn read_number<L: Lookahead>(input: &mut L, cells: &mut Cells<'_>) -> Read
    ensures { Reads cells.old (L.Lookahead.rest input.old) (numeric_at (codes (L.Lookahead.rest input.old))) cells.new result (L.Lookahead.rest input.new) }
{
    collect_number(input, cells);
    let text = cells.filled();
    let seen = input.peek();
    if seen.starts_ident() {
        collect_name(input, cells);
        return Read::texted(Kind::Dimension, text);
    }
    if seen.first == 0x25 {
        input.bump();
        return Read::texted(Kind::Percentage, text);
    }
    Read::texted(Kind::Number, text)
}

/// A url, from its first code point that is no whitespace.
pub fn read_url<L: Lookahead>(input: &mut L, cells: &mut Cells<'_>) -> Read
    ensures { Reads cells.old (L.Lookahead.rest input.old) (url_at (codes (L.Lookahead.rest input.old))) cells.new result (L.Lookahead.rest input.new) }
{
    collect_url(input, cells);
    skip_whitespace(input);
    let seen = input.peek();
    // The end closes a url as `)` does.
    if seen.first == 0x29 || seen.first == EOF {
        input.bump();
        return Read::texted(Kind::Url, cells.filled());
    }
    skip_remnants(input);
    input.bump();
    Read::texted(Kind::BadUrl, cells.filled())
}
