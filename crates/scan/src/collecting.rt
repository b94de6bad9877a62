//! What goes into the cells: names, strings, urls and digits.
ghost use Rattle.codepoint.specs.Classes.{is_digit};
ghost use Rattle.lookahead.specs.Ahead.{codes};
ghost use Rattle.scan.specs.Fills.{Collects};
ghost use Rattle.syntax.specs.Bodies.{in_string, in_url, while};
ghost use Rattle.syntax.specs.Escapes.{in_ident};
ghost use Rattle.syntax.specs.Rules.{beyond, collect};

use crate::cells::Cells;
use crate::rule::collect;
use crate::rules::{Digits, InString, InUrl, Name};
use lookahead::Lookahead;

/// An identifier.
pub fn collect_name<L: Lookahead>(input: &mut L, cells: &mut Cells<'_>)
    ensures { Collects cells.old (L.Lookahead.rest input.old) (collect in_ident (codes (L.Lookahead.rest input.old))) (beyond in_ident (codes (L.Lookahead.rest input.old))) cells.new (L.Lookahead.rest input.new) }
{
    collect(input, &Name, cells);
}

/// A string's text, up to its quote, a newline or the end.
pub fn collect_string<L: Lookahead>(input: &mut L, quote: u32, cells: &mut Cells<'_>)
    ensures { Collects cells.old (L.Lookahead.rest input.old) (collect (in_string quote) (codes (L.Lookahead.rest input.old))) (beyond (in_string quote) (codes (L.Lookahead.rest input.old))) cells.new (L.Lookahead.rest input.new) }
{
    collect(input, &InString { quote }, cells);
}

/// A url's text, up to whitespace, `)`, the end or what makes it bad.
pub fn collect_url<L: Lookahead>(input: &mut L, cells: &mut Cells<'_>)
    ensures { Collects cells.old (L.Lookahead.rest input.old) (collect in_url (codes (L.Lookahead.rest input.old))) (beyond in_url (codes (L.Lookahead.rest input.old))) cells.new (L.Lookahead.rest input.new) }
{
    collect(input, &InUrl, cells);
}

/// Digits.
pub fn collect_digits<L: Lookahead>(input: &mut L, cells: &mut Cells<'_>)
    ensures { Collects cells.old (L.Lookahead.rest input.old) (collect (while is_digit) (codes (L.Lookahead.rest input.old))) (beyond (while is_digit) (codes (L.Lookahead.rest input.old))) cells.new (L.Lookahead.rest input.new) }
{
    collect(input, &Digits, cells);
}
