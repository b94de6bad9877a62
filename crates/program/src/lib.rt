//! What the program `norm` does to a sheet, as functions on values.
//!
//! Proved here: for every input and every sink, a sheet that is too long is refused before anything else and without
//! touching the sink; any other sheet is normalized from its bytes into the sink.
#![tactic(auto)]

ghost use Rattle.program.specs.Forming.{Forms};

use normal::{Normalized, normalize};
use refusal::Fault;
use stream::{ByteSource, Sink};
use writer::Counts;

/// The most bytes that a sheet may have.
pub const INPUT_LIMIT: usize = 32768;

/// The cells for one token's text and unit.
pub const TEXT_CELLS: usize = 4096;

/// The cells of the output buffer.
pub const OUTPUT_CELLS: usize = 65536;

/// The sink after a sheet went into it, and the numbers of tokens and comments, or the refusal.
#[derive(Drop)]
pub struct Formed<S> {
    pub sink: S,
    pub answer: Result<Counts, Fault>,
}

/// Writes the normal form of a sheet into a sink, with cells for the texts of its tokens.
pub fn normal_form<S: Sink>(sheet: &[u8], sink: S, cells: &mut [u32]) -> Formed<S>
    ensures { Forms S.Sink.held S.Sink.takes sink sheet.now cells.old result.answer result.sink cells.new }
{
    if sheet.len() > INPUT_LIMIT {
        return Formed {
            sink,
            answer: Err(Fault::TooLong(INPUT_LIMIT)),
        };
    }
    let Normalized {
        reader: _,
        writer,
        answer,
    } = normalize(ByteSource::new(sheet), sink, cells);
    Formed {
        sink: writer.into_sink(),
        answer,
    }
}
