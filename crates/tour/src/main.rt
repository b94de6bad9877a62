//! A sheet on its whole way: preprocessed, read into tokens, normalized, normalized again, written by other calls, and
//! refused where it is damaged.
#![tactic(auto)]

mod preprocessing;

use normal::{Compared, compare};
use preprocessing::show_preprocessing;
use program::{Formed, OUTPUT_CELLS, TEXT_CELLS, normal_form};
use reader::{Next, Reader, view};
use refusal::Fault;
use std::alloc::{AllocError, Global};
use stream::{ArraySource, BufferSink, ByteSource, ComparingSink, Sink};
use syntax::kind::Kind;
use syntax::token::Token;
use writer::{Call, Counts, Writer};

// A hotel's sheet from an old editor: a media query that rests on a comment, an escape, a url, and CR LF line ends.
const SHEET: &'static [u8] =
    b"@media screen and/**/(min-width:40em){\r\n  .caf\\e9 {background:url( 'a.png' )}\r\n}\r\n";

fn main(rt: HostRuntime) -> anyhow::Result<()> {
    tour(&rt)
}

fn tour(rt: &HostRuntime) -> anyhow::Result<()> {
    show_preprocessing(rt)?;
    let bytes = SHEET.len();
    println!(rt; "A hotel's sheet has {bytes} bytes. Its tokens:")?;
    show_tokens(rt)?;
    show_normal_form(rt)?;
    compare_calls(rt)?;
    write_block(rt)?;
    println!(rt; "Refused:")?;
    show_refusal(rt, "a bad url", b"a{b:url(i j)}")?;
    show_refusal(rt, "a byte that is no UTF-8", b"a;;;\xff")
}

/// Prints each token of the sheet with its place, its kind and its text.
fn show_tokens(rt: &HostRuntime) -> anyhow::Result<()> {
    let mut cells = [0u32; 16];
    let mut reader = Reader::new(ByteSource::new(SHEET));
    for _ in 0..=SHEET.len() {
        match reader.next_token(&mut cells) {
            Ok(Next::Token(found)) => {
                let place = found.place;
                let kind = found.kind;
                let words = in_words(rt.alloc(), view(found, &cells))?;
                println!(rt; "  at {place}: {kind:?}{words}")?;
            }
            Ok(Next::End(place)) => return Ok(println!(rt; "  at {place}: the end")?),
            Err(fault) => return Ok(println!(rt; "  {fault}")?),
        }
    }
    Ok(())
}

/// A token's mark, text and unit, each behind a space, as far as it has them.
fn in_words(heap: Global, token: Token<'_>) -> Result<String, AllocError> {
    let mut words = String::new(heap);
    if token.mark != 0 {
        push_text(&mut words, &[token.mark])?;
    }
    if !token.text.is_empty() {
        push_text(&mut words, token.text)?;
    }
    if !token.unit.is_empty() {
        push_text(&mut words, token.unit)?;
    }
    Ok(words)
}

fn push_text(words: &mut String, text: &[u32]) -> Result<(), AllocError> {
    words.push(' ')?;
    for c in text {
        words.push(char::from_u32(*c).unwrap_or('?'))?;
    }
    Ok(())
}

/// Normalizes the sheet, and its normal form once more against itself.
fn show_normal_form(rt: &HostRuntime) -> anyhow::Result<()> {
    let mut cells = [0u32; TEXT_CELLS];
    let output = BufferSink::new(rt.alloc(), OUTPUT_CELLS)?;
    let Formed { sink, answer } = normal_form(SHEET, output, &mut cells);
    match answer {
        Ok(Counts { tokens, comments }) => {
            println!(rt; "Normalized: {tokens} tokens, comments between them: {comments}.")?
        }
        Err(fault) => return Ok(println!(rt; "Normalizing was refused: {fault}.")?),
    }
    show_bytes(rt, sink.bytes())?;
    let again = normal_form(sink.bytes(), ComparingSink::new(sink.bytes()), &mut cells);
    let same = again.answer.is_ok() && again.sink.is_complete();
    println!(rt; "Normalized again, no byte changed: {same}.")?;
    Ok(())
}

fn show_bytes(rt: &HostRuntime, bytes: &[u8]) -> anyhow::Result<()> {
    let count = bytes.len();
    match std::str::from_utf8(bytes) {
        Ok(text) => println!(rt; "  {text} ({count} bytes)")?,
        Err(_) => println!(rt; "  {count} bytes")?,
    }
    Ok(())
}

// `and` and `x` as code points.
const AND: &'static [u32] = &[0x61, 0x6e, 0x64];

const X: &'static [u32] = &[0x78];

/// Two lists of calls that accept the same tokens, by other calls and with other refusals on the way.
fn compare_calls(rt: &HostRuntime) -> anyhow::Result<()> {
    let puts = [
        Call::Put(Token::texted(Kind::Ident, AND)),
        Call::Put(Token::bare(Kind::OpenRound)),
        Call::Put(Token::bare(Kind::Whitespace)),
        Call::Put(Token::bare(Kind::Whitespace)),
        Call::Put(Token::texted(Kind::Ident, X)),
        Call::Put(Token::bare(Kind::CloseRound)),
        Call::Finish,
    ];
    let blocks = [
        Call::Put(Token::texted(Kind::Ident, AND)),
        Call::Open(Token::bare(Kind::OpenRound)),
        Call::Put(Token::bare(Kind::Whitespace)),
        Call::Put(Token::texted(Kind::Ident, X)),
        Call::Finish,
        Call::Close(1, Kind::OpenRound.number()),
        Call::Finish,
    ];
    let left = BufferSink::new(rt.alloc(), 64)?;
    let right = BufferSink::new(rt.alloc(), 64)?;
    let Compared {
        left,
        right,
        finished,
    } = compare::<ByteSource<'_>, ArraySource<'_>, BufferSink, BufferSink>(
        left, &puts, right, &blocks,
    );
    println!(rt;
        "Two lists of calls that share their accepted tokens; both finished: {finished}."
    )?;
    let left = left.into_sink();
    let right = right.into_sink();
    show_bytes(rt, left.bytes())?;
    show_bytes(rt, right.bytes())
}

/// A block, opened and closed with its slip, and what the writer counted.
fn write_block(rt: &HostRuntime) -> anyhow::Result<()> {
    let mut writer = Writer::new(BufferSink::new(rt.alloc(), 64)?);
    match block(&mut writer) {
        Ok(Counts { tokens, comments }) => {
            println!(rt; "A block: {tokens} tokens, comments between them: {comments}.")?
        }
        Err(fault) => println!(rt; "The block was refused: {fault}.")?,
    }
    show_bytes(rt, writer.into_sink().bytes())
}

fn block<S: Sink>(writer: &mut Writer<S>) -> Result<Counts, Fault> {
    let slip = writer.open(Token::bare(Kind::OpenCurly))?;
    let first = writer.put(Token::texted(Kind::Ident, AND));
    let second = writer.put(Token::texted(Kind::Ident, X));
    writer.close(slip)?;
    first?;
    second?;
    writer.finish()
}

fn show_refusal(rt: &HostRuntime, what: &str, sheet: &[u8]) -> anyhow::Result<()> {
    let mut cells = [0u32; TEXT_CELLS];
    let output = BufferSink::new(rt.alloc(), OUTPUT_CELLS)?;
    match normal_form(sheet, output, &mut cells).answer {
        Ok(_) => println!(rt; "  {what}: not refused")?,
        Err(fault) => println!(rt; "  {what}: {fault}")?,
    }
    Ok(())
}
