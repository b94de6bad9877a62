//! Ident-like tokens: identifiers, functions, urls and bad urls.
ghost use Rattle.reader.specs.Holding.{Begun, Holding, held_text};
ghost use Rattle.reader.specs.Reads.{Reads};
ghost use Rattle.lookahead.specs.Ahead.{codes};
ghost use Rattle.syntax.specs.Bodies.{in_extra_whitespace};
ghost use Rattle.syntax.specs.Reading.{ident_like_at, url_or_function};
ghost use Rattle.syntax.specs.Rules.{beyond};

use crate::first_three::opens_quote;
use crate::held::{Held, opens_url, put_held};
use crate::read::Read;
use crate::texts::read_url;
use codepoint::class::is_ident;
use lookahead::Lookahead;
use scan::{Cells, collect_name, escape, skip_extra_whitespace, skip_whitespace};
use syntax::kind::Kind;

/// The name of a url or a bad url goes into no cell, so its first code points are held back, escapes resolved.
pub fn read_ident_like<L: Lookahead>(input: &mut L, cells: &mut Cells<'_>) -> Read
    ensures { Reads cells.old (L.Lookahead.rest input.old) (ident_like_at (codes (L.Lookahead.rest input.old))) cells.new result (L.Lookahead.rest input.new) }
{
    let held = hold(input);
    let seen = input.peek();
    if opens_url(seen.first, held) {
        input.bump();
        return read_url_or_function(input, held, cells);
    }
    put_held(cells, held);
    collect_name(input, cells);
    let then = input.peek();
    if then.first == 0x28 {
        input.bump();
        return Read::texted(Kind::Function, cells.filled());
    }
    Read::texted(Kind::Ident, cells.filled())
}

/// Behind the `(` of a function named url: the function where a quote comes, else a url.
#[tactic(auto, unfolding(syntax::specs::Reading::url_or_function, crate::specs::Reads::opens_quote))]
fn read_url_or_function<L: Lookahead>(input: &mut L, held: Held, cells: &mut Cells<'_>) -> Read
    ensures { Reads cells.old (L.Lookahead.rest input.old) (url_or_function (held_text held) (beyond in_extra_whitespace (codes (L.Lookahead.rest input.old)))) cells.new result (L.Lookahead.rest input.new) }
{
    skip_extra_whitespace(input);
    let seen = input.peek();
    if opens_quote(seen) {
        put_held(cells, held);
        return Read::texted(Kind::Function, cells.filled());
    }
    skip_whitespace(input);
    read_url(input, cells)
}

/// Up to three code points of an identifier.
fn hold<L: Lookahead>(input: &mut L) -> Held
    ensures { Holding (L.Lookahead.rest input.old) result (L.Lookahead.rest input.new) }
{
    Held {
        first: name_one(input),
        second: name_one(input),
        third: name_one(input),
    }
}

/// One code point of an identifier, if there is one.
#[tactic(auto, unfolding(syntax::specs::Escapes::in_ident))]
fn name_one<L: Lookahead>(input: &mut L) -> Option<u32>
    ensures { Begun (L.Lookahead.rest input.old) result (L.Lookahead.rest input.new) }
{
    let seen = input.peek();
    if is_ident(seen.first) {
        input.bump();
        return Some(seen.first);
    }
    if seen.starts_escape() {
        input.bump();
        return Some(escape(input));
    }
    None
}
