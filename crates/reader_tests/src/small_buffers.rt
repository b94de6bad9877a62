// Buffers of no, one, two and three cells: what is given, what is refused, and which cells are written.
use crate::tokens::token;
use reader::{Next, Reader, view};
use refusal::Fault;
use stream::ByteSource;
use syntax::kind::Kind;

// The name of a url goes into no cell, even where none would hold it.
#[test]
fn a_url_in_one_cell(rt: HostRuntime) {
    let mut cells = [7; 1];
    let mut reader = Reader::new(ByteSource::new(b"\\75 RL( x );"));
    assert_eq!(rt;
        reader.next_token(&mut cells),
        Ok(Next::Token(token(Kind::Url, 1, 0, 0)))
    );
    assert_eq!(rt; &cells[..], &[0x78][..]);
    let mut none = [0; 0];
    let mut reader = Reader::new(ByteSource::new(b"url()"));
    assert_eq!(rt;
        reader.next_token(&mut none),
        Ok(Next::Token(token(Kind::Url, 0, 0, 0)))
    );
    let mut reader = Reader::new(ByteSource::new(b"url(x)"));
    assert_eq!(rt; reader.next_token(&mut none), Err(Fault::Outgrown(0)));
}

#[test]
fn a_url_that_turns_bad(rt: HostRuntime) {
    let mut cells = [7; 3];
    let mut reader = Reader::new(ByteSource::new(b"url(i j)"));
    assert_eq!(rt;
        reader.next_token(&mut cells),
        Ok(Next::Token(token(Kind::BadUrl, 0, 0, 0)))
    );
    assert_eq!(rt; &cells[..], &[0x69, 7, 7][..]);
}

#[test]
fn a_function_named_url(rt: HostRuntime) {
    let mut two = [7; 2];
    let mut reader = Reader::new(ByteSource::new(b"url( 'a')"));
    assert_eq!(rt; reader.next_token(&mut two), Err(Fault::Outgrown(0)));
    assert_eq!(rt; &two[..], &[0x75, 0x72][..]);
    let mut three = [7; 3];
    let mut reader = Reader::new(ByteSource::new(b"url( 'a')"));
    assert_eq!(rt;
        reader.next_token(&mut three),
        Ok(Next::Token(token(Kind::Function, 3, 0, 0)))
    );
    assert_eq!(rt; &three[..], &[0x75, 0x72, 0x6c][..]);
}

#[test]
fn a_dimension(rt: HostRuntime) {
    let mut two = [7; 2];
    let mut reader = Reader::new(ByteSource::new(b"1em"));
    assert_eq!(rt; reader.next_token(&mut two), Err(Fault::Outgrown(0)));
    assert_eq!(rt; &two[..], &[0x31, 0x65][..]);
    let mut three = [7; 3];
    let mut reader = Reader::new(ByteSource::new(b"1em"));
    assert_eq!(rt;
        reader.next_token(&mut three),
        Ok(Next::Token(token(Kind::Dimension, 1, 2, 0)))
    );
    let dimension = view(token(Kind::Dimension, 1, 2, 0), &three);
    assert_eq!(rt; dimension.text, &[0x31][..]);
    assert_eq!(rt; dimension.unit, &[0x65, 0x6d][..]);
}

// Too long a text is refused even if the string would turn bad.
#[test]
fn a_bad_string(rt: HostRuntime) {
    let mut one = [7; 1];
    let mut reader = Reader::new(ByteSource::new(b"'ab\n"));
    assert_eq!(rt; reader.next_token(&mut one), Err(Fault::Outgrown(0)));
    assert_eq!(rt; &one[..], &[0x61][..]);
    let mut three = [7; 3];
    let mut reader = Reader::new(ByteSource::new(b"'ab\n"));
    assert_eq!(rt;
        reader.next_token(&mut three),
        Ok(Next::Token(token(Kind::BadString, 0, 0, 0)))
    );
    assert_eq!(rt; &three[..], &[0x61, 0x62, 7][..]);
}
