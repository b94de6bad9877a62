// How a reading ends: by the end, or by the source's fault three code points ahead.
use crate::tokens::token;
use reader::{Next, Reader};
use refusal::Fault;
use stream::{ArraySource, ByteSource};
use syntax::kind::Kind;

#[test]
fn the_end_repeats(rt: HostRuntime) {
    let mut cells = [7; 4];
    let mut reader = Reader::new(ByteSource::new(b"/**/ab;"));
    assert_eq!(rt;
        reader.next_token(&mut cells),
        Ok(Next::Token(token(Kind::Ident, 2, 0, 4)))
    );
    assert_eq!(rt;
        reader.next_token(&mut cells),
        Ok(Next::Token(token(Kind::Semicolon, 0, 0, 6)))
    );
    assert_eq!(rt; reader.next_token(&mut cells), Ok(Next::End(7)));
    assert_eq!(rt; reader.next_token(&mut cells), Ok(Next::End(7)));
    assert_eq!(rt; reader.next_token(&mut cells), Ok(Next::End(7)));
    assert_eq!(rt; &cells[..], &[97, 98, 7, 7][..]);
}

#[test]
fn a_fault_too_near_behind_a_token(rt: HostRuntime) {
    let mut cells = [0; 4];
    let mut reader = Reader::new(ByteSource::new(b"a;;;\xff"));
    assert_eq!(rt;
        reader.next_token(&mut cells),
        Ok(Next::Token(token(Kind::Ident, 1, 0, 0)))
    );
    assert_eq!(rt; reader.next_token(&mut cells), Err(Fault::IllFormed(4)));
    assert_eq!(rt; reader.next_token(&mut cells), Err(Fault::IllFormed(4)));
}

#[test]
fn a_comment_counts_as_following(rt: HostRuntime) {
    let mut cells = [0; 4];
    let mut reader = Reader::new(ArraySource::new(&[0x61, 0x2f, 0x2a, 0x62, 0x110000]));
    assert_eq!(rt;
        reader.next_token(&mut cells),
        Ok(Next::Token(token(Kind::Ident, 1, 0, 0)))
    );
    assert_eq!(rt; reader.next_token(&mut cells), Err(Fault::OutOfRange(4)));
}

#[test]
fn outgrown_comes_before_the_fault(rt: HostRuntime) {
    let mut cells = [0; 1];
    let mut reader = Reader::new(ByteSource::new(b" ab\xff"));
    assert_eq!(rt; reader.next_token(&mut cells), Err(Fault::IllFormed(3)));
    let mut reader = Reader::new(ByteSource::new(b"ab\xff"));
    assert_eq!(rt; reader.next_token(&mut cells), Err(Fault::Outgrown(0)));
    assert_eq!(rt; reader.next_token(&mut cells), Err(Fault::Outgrown(0)));
    assert_eq!(rt; &cells[..], &[97][..]);
}
