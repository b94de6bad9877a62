//! The answer of a reader that goes on.
ghost use Rattle.std.specs.Prelude.{◌≡◌, ℕ, ◌-◌, if◌then◌else◌, Some, None, Ok, Err};
ghost use Rattle.refusal.specs.declared.fault.Fault.TheVariants.{Outgrown};
ghost use Rattle.reader.specs.NextToken.{Answers};
ghost use Rattle.syntax.specs.Kinds.{is_bad_kind};

use crate::answer::{Located, Next};
use crate::read::Read;
use crate::tokens::read_token;
use codepoint::starts::EOF;
use lookahead::Lookahead;
use refusal::Fault;
use scan::{Cells, skip_comments};

/// The next token, the end or a refusal.
pub fn answer_next<L: Lookahead>(input: &mut L, cells: &mut [u32]) -> Result<Next, Fault>
    ensures { Answers (L.Lookahead.rest input.old) cells.old result cells.new (L.Lookahead.rest input.new) }
{
    skip_comments(input);
    let seen = input.peek();
    if seen.first == EOF {
        // With nothing left the ending is in sight.
        let end = input.ending().unwrap()?;
        return Ok(Next::End(end));
    }
    let mut cells = Cells::new(cells);
    let read = read_token(input, &mut cells);
    let token = locate(read, cells.filled(), seen.place)?;
    // A fault fewer than three code points ahead takes the token's place.
    input.ending().transpose()?;
    Ok(Next::Token(token))
}

/// A token as it is given, of a bad one no text; or the refusal of one that outgrew the cells.
fn locate(read: Read, all: Option<usize>, place: usize) -> Result<Located, Fault>
    ensures fits { (n m : ℕ) → read.text ≡ Some n → all ≡ Some m → result ≡ Ok (record { kind = read.kind; mark = read.mark; text = (if is_bad_kind read.kind then 0 else n); unit = m - n; place = place }) }
    ensures outgrown { all ≡ None → result ≡ Err (Outgrown place) }
{
    let (Some(text), Some(all)) = (read.text, all) else {
        return Err(Fault::Outgrown(place));
    };
    Ok(Located {
        kind: read.kind,
        mark: read.mark,
        text: if read.kind.is_bad() { 0 } else { text },
        unit: all.saturating_sub(text),
        place,
    })
}
