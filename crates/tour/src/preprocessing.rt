//! What decoding and preprocessing make of an old editor's sheet, before any token is read.
use codepoint::utf8::{Decoded, decode};
use refusal::Fault;
use stream::{ByteSource, Preprocess, Source, Step};

// Three kinds of line ends, a NUL, and names that are not ASCII.
const OLD_SHEET: &'static [u8] =
    b".caf\xc3\xa9 {\r\n  width: 9px;\r}\x0c.\xe5\xaf\xbf\x00 {}\r\n\r\n";

/// Prints how many code points the sheet has before and after preprocessing, and what changed where.
pub(crate) fn show_preprocessing(rt: &HostRuntime) -> anyhow::Result<()> {
    let bytes = OLD_SHEET.len();
    println!(rt; "An old sheet has {bytes} bytes.")?;
    show_count(rt, "Decoded", count(ByteSource::new(OLD_SHEET), bytes))?;
    println!(rt; "Preprocessing changes:")?;
    show_changes(rt)?;
    show_count(
        rt,
        "Preprocessed",
        count(Preprocess::new(ByteSource::new(OLD_SHEET)), bytes),
    )
}

fn show_count(rt: &HostRuntime, what: &str, points: Result<usize, Fault>) -> anyhow::Result<()> {
    match points {
        Ok(points) => println!(rt; "{what}, it has {points} code points.")?,
        Err(fault) => println!(rt; "{what}, it is refused: {fault}.")?,
    }
    Ok(())
}

/// How many code points a source hands over before its end, of at most so many.
fn count<S: Source + Drop>(mut source: S, most: usize) -> Result<usize, Fault> {
    for points in 0..most {
        if let Step::End(_) = source.next()? {
            return Ok(points);
        }
    }
    Ok(most)
}

/// Prints each code point that preprocessing replaced, with its place.
fn show_changes(rt: &HostRuntime) -> anyhow::Result<()> {
    let mut source = Preprocess::new(ByteSource::new(OLD_SHEET));
    for _ in 0..OLD_SHEET.len() {
        let Ok(Step::Point((new, place))) = source.next() else {
            break;
        };
        let Some(rest) = OLD_SHEET.get(place..) else {
            break;
        };
        match decode(rest) {
            Decoded::Point(old, _) if old == new => {}
            Decoded::Point(old, _) => {
                let joined = if rest.starts_with(b"\r\n") {
                    " with its U+000A"
                } else {
                    ""
                };
                println!(rt; "  at {place}: U+{old:04X}{joined} became U+{new:04X}")?;
            }
            _ => {}
        }
    }
    Ok(())
}
