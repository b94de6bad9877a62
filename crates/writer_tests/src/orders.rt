// The order of each call's refusals: where two apply, the first is given.
use crate::tokens::{close, ident};
use refusal::Fault;
use std::test::Fail;
use stream::BufferSink;
use syntax::kind::Kind;
use syntax::token::Token;
use writer::{Call, Counts, Writer};

// `Url`, a name that is url in another case.
const URL: &'static [u32] = &[0x55, 0x72, 0x6c];

#[test]
fn put_after_finish(rt: HostRuntime) -> Result<(), Fail> {
    let mut writer = Writer::new(BufferSink::new(rt.alloc(), 1)?);
    assert_eq!(rt; writer.put(Token::bare(Kind::Comma)), Ok(()));
    assert_eq!(rt;
        writer.finish(),
        Ok(Counts {
            tokens: 1,
            comments: 0
        })
    );
    // not 6 for the bad string, nor 4 for the full sink
    assert_eq!(rt;
        writer.put(Token::bare(Kind::BadString)),
        Err(Fault::Finished(1))
    );
    assert_eq!(rt;
        writer.put(Token::bare(Kind::Comma)),
        Err(Fault::Finished(1))
    );
    assert_eq!(rt;
        writer.call(Call::Open(Token::bare(Kind::Comma))),
        Err(Fault::Finished(1))
    );
    assert_eq!(rt;
        writer.call(close(1, Kind::OpenCurly)),
        Err(Fault::Finished(1))
    );
    assert_eq!(rt; writer.finish(), Err(Fault::Finished(1)));
    Ok(())
}

#[test]
fn stuck_gives_the_same_fault(rt: HostRuntime) -> Result<(), Fail> {
    let mut writer = Writer::new(BufferSink::new(rt.alloc(), 1)?);
    assert_eq!(rt;
        writer.call(Call::Open(Token::bare(Kind::OpenCurly))),
        Ok(())
    );
    assert_eq!(rt; writer.put(Token::delim(0x5c)), Err(Fault::NotTaken(1)));
    // not 6, 5, 12 or 13
    assert_eq!(rt;
        writer.put(Token::bare(Kind::BadUrl)),
        Err(Fault::NotTaken(1))
    );
    assert_eq!(rt;
        writer.call(Call::Open(Token::bare(Kind::Comma))),
        Err(Fault::NotTaken(1))
    );
    assert_eq!(rt;
        writer.call(close(9, Kind::OpenCurly)),
        Err(Fault::NotTaken(1))
    );
    assert_eq!(rt; writer.finish(), Err(Fault::NotTaken(1)));
    Ok(())
}

#[test]
fn put_refusals(rt: HostRuntime) -> Result<(), Fail> {
    let mut writer = Writer::new(BufferSink::new(rt.alloc(), 16)?);
    let marked = Token {
        mark: 1,
        ..Token::bare(Kind::OpenSquare)
    };
    let bad = Token {
        mark: 1,
        ..Token::bare(Kind::BadString)
    };
    // 6 before 5
    assert_eq!(rt; writer.put(bad), Err(Fault::BadToken(0)));
    assert_eq!(rt;
        writer.call(Call::Open(Token::bare(Kind::OpenCurly))),
        Ok(())
    );
    // 5 before 10
    assert_eq!(rt; writer.put(marked), Err(Fault::Unlawful(1)));
    assert_eq!(rt; writer.put(Token::delim(0x5c)), Ok(()));
    // 10 before 8
    assert_eq!(rt;
        writer.put(Token::bare(Kind::OpenSquare)),
        Err(Fault::BlockOpen(2))
    );
    assert_eq!(rt;
        writer.put(Token::bare(Kind::Comma)),
        Err(Fault::OutOfTurn(2))
    );
    assert_eq!(rt; writer.put(Token::bare(Kind::Whitespace)), Ok(()));
    assert_eq!(rt;
        writer.put(Token::bare(Kind::Whitespace)),
        Err(Fault::RepeatedWhitespace(3))
    );
    assert_eq!(rt;
        writer.call(Call::Open(Token::texted(Kind::Function, URL))),
        Ok(())
    );
    assert_eq!(rt; writer.put(Token::bare(Kind::Whitespace)), Ok(()));
    // 8 before 7
    assert_eq!(rt;
        writer.put(Token::bare(Kind::Whitespace)),
        Err(Fault::OutOfTurn(5))
    );
    let sink = writer.into_sink();
    assert_eq!(rt; sink.bytes(), b"{\\\nUrl( ".as_slice());
    Ok(())
}

#[test]
fn open_close_and_finish_refusals(rt: HostRuntime) -> Result<(), Fail> {
    let mut writer = Writer::new(BufferSink::new(rt.alloc(), 2)?);
    assert_eq!(rt;
        writer.call(Call::Open(Token::bare(Kind::OpenCurly))),
        Ok(())
    );
    assert_eq!(rt; writer.finish(), Err(Fault::Unclosed(1)));
    assert_eq!(rt; writer.put(Token::delim(0x5c)), Ok(()));
    // 5 before 8
    assert_eq!(rt;
        writer.call(Call::Open(ident(&[0x61]))),
        Err(Fault::Unlawful(2))
    );
    // 8 before 4 from the full sink
    assert_eq!(rt;
        writer.call(Call::Open(Token::bare(Kind::OpenSquare))),
        Err(Fault::OutOfTurn(2))
    );
    // 12 before 8, by depth and by kind
    assert_eq!(rt;
        writer.call(close(2, Kind::OpenCurly)),
        Err(Fault::WrongSlip(2))
    );
    assert_eq!(rt;
        writer.call(close(1, Kind::OpenSquare)),
        Err(Fault::WrongSlip(2))
    );
    assert_eq!(rt;
        writer.call(close(1, Kind::OpenCurly)),
        Err(Fault::OutOfTurn(2))
    );
    // 8 before 13
    assert_eq!(rt; writer.finish(), Err(Fault::OutOfTurn(2)));
    assert_eq!(rt;
        writer.put(Token::bare(Kind::Whitespace)),
        Err(Fault::NotTaken(2))
    );
    // 4 before 8: whitespace is still awaited
    assert_eq!(rt; writer.finish(), Err(Fault::NotTaken(2)));
    Ok(())
}
