//! Bytes given to a sink one after another, up to the first that it refuses.
ghost use Rattle.codepoint.specs.Utf8.{utf8};
ghost use Rattle.stream.specs.Sinks.{Emits, Outcome};

use crate::sink::Sink;
use codepoint::utf8::encode;
use refusal::Fault;

/// Gives the bytes to the sink, and stops at the first refused one.
pub fn emit<S: Sink>(sink: &mut S, bytes: &[u8]) -> Result<(), Fault>
    ensures steps { Emits S.Sink.held S.Sink.takes sink.old bytes.now result sink.new }
    ensures outcome { Outcome S.Sink.held S.Sink.takes sink.old bytes.now result sink.new }
{
    for byte in bytes {
        sink.take(*byte)?;
    }
    Ok(())
}

/// Gives a code point's UTF-8 bytes to the sink, and stops at the first refused one.
pub fn emit_code_point<S: Sink>(sink: &mut S, c: u32) -> Result<(), Fault>
    ensures steps { Emits S.Sink.held S.Sink.takes sink.old (utf8 c) result sink.new }
    ensures outcome { Outcome S.Sink.held S.Sink.takes sink.old (utf8 c) result sink.new }
{
    // ASCII: the cast is proved to lose nothing
    if c < 0x80 {
        return sink.take(c as u8);
    }
    let encoded = encode(c);
    emit(sink, encoded.as_slice())
}
