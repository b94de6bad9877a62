// Ill-formed bytes at the start, in the middle and at the end; the largest code point of an array.
use codepoint::class::hex_value;
use codepoint::starts::{EOF, is_valid_escape, starts_ident, starts_number};
use refusal::Fault;
use stream::{ArraySource, ByteSource, Source, Step};

// how a source ends, once at most ten code points are read
fn ending<S: Source + Drop>(mut source: S) -> Result<Step, Fault> {
    for _ in 0..10 {
        if let Step::End(place) = source.next()? {
            return Ok(Step::End(place));
        }
    }
    source.next()
}

fn bytes_end(bytes: &[u8]) -> Result<Step, Fault> {
    ending(ByteSource::new(bytes))
}

#[test]
fn ill_formed_at_the_start(rt: HostRuntime) {
    // a trailing byte alone, an overlong start, a byte past the last plane, a sequence cut short
    assert_eq!(rt; bytes_end(b"\x80ab"), Err(Fault::IllFormed(0)));
    assert_eq!(rt; bytes_end(b"\xc1\xbfab"), Err(Fault::IllFormed(0)));
    assert_eq!(rt; bytes_end(b"\xf5\x80\x80\x80"), Err(Fault::IllFormed(0)));
    assert_eq!(rt; bytes_end(b"\xe2\x82a"), Err(Fault::IllFormed(0)));
}

#[test]
fn ill_formed_in_the_middle(rt: HostRuntime) {
    // overlong three and four bytes, a surrogate, past U+10FFFF
    assert_eq!(rt; bytes_end(b"a\xe0\x9f\xbfb"), Err(Fault::IllFormed(1)));
    assert_eq!(rt; bytes_end(b"a\xf0\x8f\xbf\xbfb"), Err(Fault::IllFormed(1)));
    assert_eq!(rt;
        bytes_end(b"\xc3\xa9\xed\xa0\x80b"),
        Err(Fault::IllFormed(2))
    );
    assert_eq!(rt; bytes_end(b"ab\xf4\x90\x80\x80"), Err(Fault::IllFormed(2)));
}

#[test]
fn ill_formed_at_the_end(rt: HostRuntime) {
    assert_eq!(rt; bytes_end(b"ab\xc3"), Err(Fault::IllFormed(2)));
    assert_eq!(rt; bytes_end(b"ab\xe2\x82"), Err(Fault::IllFormed(2)));
    assert_eq!(rt; bytes_end(b"\xf0\x9f\x98"), Err(Fault::IllFormed(0)));
    assert_eq!(rt;
        bytes_end(b"\xf0\x9f\x98\x80\xff"),
        Err(Fault::IllFormed(4))
    );
}

#[test]
fn well_formed_to_the_end(rt: HostRuntime) {
    assert_eq!(rt; bytes_end(b""), Ok(Step::End(0)));
    assert_eq!(rt;
        bytes_end(b"\xf4\x8f\xbf\xbf\xed\x9f\xbf\xee\x80\x80"),
        Ok(Step::End(10))
    );
    let mut source = ByteSource::new(b"\xc3\xa9\xf0\x9f\x98\x80");
    assert_eq!(rt; source.next(), Ok(Step::Point((0xe9, 0))));
    assert_eq!(rt; source.next(), Ok(Step::Point((0x1f600, 2))));
    assert_eq!(rt; source.next(), Ok(Step::End(6)));
    assert_eq!(rt; source.next(), Ok(Step::End(6)));
}

#[test]
fn numbers_up_to_the_largest_code_point(rt: HostRuntime) {
    let mut source = ArraySource::new(&[0, 0x10ffff, 0x110000, 97]);
    assert_eq!(rt; source.next(), Ok(Step::Point((0, 0))));
    assert_eq!(rt; source.next(), Ok(Step::Point((0x10ffff, 1))));
    assert_eq!(rt; source.next(), Err(Fault::OutOfRange(2)));
    assert_eq!(rt; source.next(), Err(Fault::OutOfRange(2)));
    assert_eq!(rt; ending(ArraySource::new(&[97, 98])), Ok(Step::End(2)));
}

#[test]
fn what_code_points_begin(rt: HostRuntime) {
    assert!(rt; is_valid_escape(0x5c, EOF));
    assert!(rt; !is_valid_escape(0x5c, 0x0a));
    // `--` starts an identifier, `-` alone does not, `-\` and the end does
    assert!(rt; starts_ident(0x2d, 0x2d, EOF));
    assert!(rt; !starts_ident(0x2d, EOF, EOF));
    assert!(rt; starts_ident(0x2d, 0x5c, EOF));
    // `+.5` starts a number, `+.` and a letter does not
    assert!(rt; starts_number(0x2b, 0x2e, 0x35));
    assert!(rt; !starts_number(0x2b, 0x2e, 0x61));
    assert_eq!(rt; hex_value(0x46), Some(15));
    assert_eq!(rt; hex_value(0x67), None);
}
