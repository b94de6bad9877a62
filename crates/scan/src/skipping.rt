//! What is passed over: whitespace, the remnants of a bad url, comments. Of it nothing goes into cells.
ghost use Rattle.std.specs.Prelude.{◌≡◌, ◌+◌, length};
ghost use Rattle.lookahead.specs.Ahead.{Left, codes, past};
ghost use Rattle.syntax.specs.Bodies.{in_comment, in_extra_whitespace, in_remnants, past_comments, past_whitespace};
ghost use Rattle.syntax.specs.Rules.{beyond, collect};

use crate::cells::Cells;
use crate::rule::{Rule, collect};
use crate::rules::{ExtraWhitespace, InComment, InRemnants, Whitespace};
use lookahead::Lookahead;

/// All whitespace that comes.
pub fn skip_whitespace<L: Lookahead>(input: &mut L)
    ensures { Left (L.Lookahead.rest input.old) (past_whitespace (codes (L.Lookahead.rest input.old))) (L.Lookahead.rest input.new) }
{
    skip(input, &Whitespace);
}

/// Whitespace while two stand next.
pub fn skip_extra_whitespace<L: Lookahead>(input: &mut L)
    ensures { Left (L.Lookahead.rest input.old) (beyond in_extra_whitespace (codes (L.Lookahead.rest input.old))) (L.Lookahead.rest input.new) }
{
    skip(input, &ExtraWhitespace);
}

/// The remnants of a bad url, up to the next `)` that is not escaped, or the end.
pub fn skip_remnants<L: Lookahead>(input: &mut L)
    ensures { Left (L.Lookahead.rest input.old) (beyond in_remnants (codes (L.Lookahead.rest input.old))) (L.Lookahead.rest input.new) }
{
    skip(input, &InRemnants);
}

/// Comment after comment.
pub fn skip_comments<L: Lookahead>(input: &mut L)
    ensures { Left (L.Lookahead.rest input.old) (past_comments (codes (L.Lookahead.rest input.old))) (L.Lookahead.rest input.new) }
{
    loop {
        let seen = input.peek();
        if seen.first != 0x2f || seen.second != 0x2a {
            return;
        }
        input.bump();
        input.bump();
        skip_comment(input);
    }
}

/// A comment from behind its `/*`, through its `*/` or to the end.
fn skip_comment<L: Lookahead>(input: &mut L)
    ensures { L.Lookahead.rest input.new ≡ past (2 + length (collect in_comment (codes (L.Lookahead.rest input.old)))) (L.Lookahead.rest input.old) }
{
    skip(input, &InComment);
    input.bump();
    input.bump();
}

/// Past what a rule takes.
fn skip<L: Lookahead, R: Rule>(input: &mut L, rule: &R)
    ensures { Left (L.Lookahead.rest input.old) (beyond (R.Rule.rule rule.now) (codes (L.Lookahead.rest input.old))) (L.Lookahead.rest input.new) }
{
    collect(input, rule, &mut Cells::new(&mut []));
}
