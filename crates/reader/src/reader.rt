//! The reader.
ghost use Rattle.reader.specs.NextToken.{NextToken, begun, model_of};
ghost use Rattle.std.specs.Prelude.{◌≡◌};

use crate::answer::Next;
use crate::answering::answer_next;
use lookahead::Window;
use refusal::Fault;
use stream::Source;

/// Reads the tokens of a source, one at a time. Once it has told the end or a refusal, it repeats that for ever.
// Clauses see it by `model_of` and by no `impl Model`, which would have to ask `S: Source` of the struct and of whoever
// names it.
#[derive(Drop)]
pub struct Reader<S> {
    window: Window<S>,
    told: Option<Result<usize, Fault>>,
}

impl<S: Source> Reader<S> {
    /// A reader over a source, which it preprocesses.
    pub fn new(source: S) -> Reader<S>
        ensures { model_of S.Source.ahead S.Source.ending result ≡ begun (S.Source.ahead source) (S.Source.ending source) }
    {
        Reader {
            window: Window::new(source),
            told: None,
        }
    }

    /// The next token, whose text and unit stand in the cells from the first on; or the end; or a refusal.
    pub fn next_token(&mut self, cells: &mut [u32]) -> Result<Next, Fault>
        ensures { NextToken (model_of S.Source.ahead S.Source.ending self.old) cells.old result cells.new (model_of S.Source.ahead S.Source.ending self.new) }
    {
        if let Some(told) = self.told {
            return Ok(Next::End(told?));
        }
        let answer = answer_next(&mut self.window, cells);
        self.told = match answer {
            Ok(Next::Token(_)) => None,
            Ok(Next::End(place)) => Some(Ok(place)),
            Err(fault) => Some(Err(fault)),
        };
        answer
    }
}
