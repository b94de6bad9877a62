//! From a source to a sink, in the normal form.
ghost use Rattle.normal.specs.Normalizing.{CanRefuse, Normalizes, Transfers};
ghost use Rattle.reader.specs.NextToken.{model_of};
ghost use Rattle.std.specs.Prelude.{◌≡◌, false, ◌&&◌, IfErr};
ghost use Rattle.syntax.specs.Kinds.{same_kind};
ghost use Rattle.syntax.specs.declared.kind.Kind.TheVariants.{Whitespace};

use reader::{Next, Reader, view};
use refusal::Fault;
use stream::{Sink, Source};
use syntax::kind::Kind;
use writer::{Counts, Writer};

/// What normalize answered, and the reader and the writer that it left.
#[derive(Drop)]
pub struct Normalized<P, S> {
    pub reader: Reader<P>,
    pub writer: Writer<S>,
    pub answer: Result<Counts, Fault>,
}

/// Reads the tokens of a source into cells, leaves out whitespace directly after whitespace, and puts all others into
/// a new writer over the sink. Answers the numbers of accepted tokens and of comments, or the first refusal.
pub fn normalize<P: Source, S: Sink>(source: P, sink: S, cells: &mut [u32]) -> Normalized<P, S>
    ensures normalizes { Normalizes S.Sink.held S.Sink.takes (P.Source.ahead source) (P.Source.ending source) sink cells.old result.answer (model_of P.Source.ahead P.Source.ending result.reader) cells.new result.writer }
    ensures refusals { IfErr result.answer (λ f. CanRefuse (P.Source.ending source) f) }
{
    let mut reader = Reader::new(source);
    let mut writer = Writer::new(sink);
    let answer = transfer(&mut reader, &mut writer, cells);
    Normalized {
        reader,
        writer,
        answer,
    }
}

/// From a reader to a writer, to the end or the first refusal.
#[tactic(auto, using(crate::proofs::Stepping::ends_here, crate::proofs::Stepping::less_ahead, crate::proofs::Stepping::put_stops, crate::proofs::Stepping::stops_here))]
fn transfer<P: Source, S: Sink>(
    reader: &mut Reader<P>,
    writer: &mut Writer<S>,
    cells: &mut [u32],
) -> Result<Counts, Fault>
    ensures { Transfers S.Sink.held S.Sink.takes false (model_of P.Source.ahead P.Source.ending reader.old) cells.old writer.old result (model_of P.Source.ahead P.Source.ending reader.new) cells.new writer.new }
{
    let mut after_whitespace = false;
    while let Next::Token(token) = reader.next_token(cells)? {
        if !is_repeated(after_whitespace, token.kind) {
            writer.put(view(token, cells))?;
        }
        after_whitespace = token.kind == Kind::Whitespace;
    }
    writer.finish()
}

/// Whitespace directly after whitespace.
fn is_repeated(after_whitespace: bool, kind: Kind) -> bool
    ensures { result ≡ (after_whitespace && same_kind kind Whitespace) }
{
    after_whitespace && kind == Kind::Whitespace
}
