// Carriage returns at the end, doubled and behind a newline; NUL and surrogates.
use refusal::Fault;
use stream::{ArraySource, ByteSource, Preprocess, Source, Step};

#[test]
fn carriage_return_at_the_end(rt: HostRuntime) {
    let mut source = Preprocess::new(ByteSource::new(b"a\r"));
    assert_eq!(rt; source.next(), Ok(Step::Point((97, 0))));
    assert_eq!(rt; source.next(), Ok(Step::Point((10, 1))));
    assert_eq!(rt; source.next(), Ok(Step::End(2)));
}

#[test]
fn two_carriage_returns_and_a_newline(rt: HostRuntime) {
    let mut source = Preprocess::new(ByteSource::new(b"\r\r\n"));
    assert_eq!(rt; source.next(), Ok(Step::Point((10, 0))));
    assert_eq!(rt; source.next(), Ok(Step::Point((10, 1))));
    assert_eq!(rt; source.next(), Ok(Step::End(3)));
}

#[test]
fn newline_and_carriage_return(rt: HostRuntime) {
    let mut source = Preprocess::new(ByteSource::new(b"\n\r\n\xff"));
    assert_eq!(rt; source.next(), Ok(Step::Point((10, 0))));
    assert_eq!(rt; source.next(), Ok(Step::Point((10, 1))));
    assert_eq!(rt; source.next(), Err(Fault::IllFormed(3)));
    assert_eq!(rt; source.next(), Err(Fault::IllFormed(3)));
}

#[test]
fn replaced_code_points(rt: HostRuntime) {
    let mut source = Preprocess::new(ArraySource::new(&[0, 0xd800, 0xdfff, 12, 0xe000]));
    assert_eq!(rt; source.next(), Ok(Step::Point((0xfffd, 0))));
    assert_eq!(rt; source.next(), Ok(Step::Point((0xfffd, 1))));
    assert_eq!(rt; source.next(), Ok(Step::Point((0xfffd, 2))));
    assert_eq!(rt; source.next(), Ok(Step::Point((10, 3))));
    assert_eq!(rt; source.next(), Ok(Step::Point((0xe000, 4))));
    assert_eq!(rt; source.next(), Ok(Step::End(5)));
}
