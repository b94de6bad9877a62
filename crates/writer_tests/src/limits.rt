// Blocks and tokens up to their limits.
use crate::tokens::close;
use refusal::Fault;
use std::test::Fail;
use stream::BufferSink;
use syntax::kind::Kind;
use syntax::token::Token;
use writer::{Call, Counts, Writer};

/// Opens as many blocks as there may be.
fn open_all(writer: &mut Writer<BufferSink>) -> Result<(), Fault> {
    for _ in 0..32 {
        writer.call(Call::Open(Token::bare(Kind::OpenSquare)))?;
    }
    Ok(())
}

fn put_commas(writer: &mut Writer<BufferSink>, count: usize) -> Result<(), Fault> {
    for _ in 0..count {
        writer.put(Token::bare(Kind::Comma))?;
    }
    Ok(())
}

#[test]
fn thirty_two_blocks(rt: HostRuntime) -> Result<(), Fail> {
    let mut writer = Writer::new(BufferSink::new(rt.alloc(), 66)?);
    assert_eq!(rt; open_all(&mut writer), Ok(()));
    assert_eq!(rt;
        writer.call(Call::Open(Token::bare(Kind::OpenSquare))),
        Err(Fault::TooDeep(32))
    );
    assert_eq!(rt; writer.put(Token::delim(0x5c)), Ok(()));
    // 8 before 11
    assert_eq!(rt;
        writer.call(Call::Open(Token::bare(Kind::OpenSquare))),
        Err(Fault::OutOfTurn(33))
    );
    assert_eq!(rt; writer.put(Token::bare(Kind::Whitespace)), Ok(()));
    for depth in (1..=32).rev() {
        assert_eq!(rt; writer.call(close(depth, Kind::OpenSquare)), Ok(()));
    }
    assert_eq!(rt;
        writer.finish(),
        Ok(Counts {
            tokens: 66,
            comments: 0
        })
    );
    Ok(())
}

#[test]
fn a_million_tokens(rt: HostRuntime) -> Result<(), Fail> {
    let mut writer = Writer::new(BufferSink::new(rt.alloc(), 1_000_000)?);
    assert_eq!(rt; put_commas(&mut writer, 999_998), Ok(()));
    assert_eq!(rt;
        writer.call(Call::Open(Token::bare(Kind::OpenSquare))),
        Ok(())
    );
    // an open block keeps room for its mirror
    assert_eq!(rt;
        writer.put(Token::bare(Kind::Comma)),
        Err(Fault::NoRoom(999_999))
    );
    assert_eq!(rt;
        writer.call(Call::Open(Token::bare(Kind::OpenSquare))),
        Err(Fault::NoRoom(999_999))
    );
    assert_eq!(rt; writer.call(close(1, Kind::OpenSquare)), Ok(()));
    // 9 before 4 from the full sink
    assert_eq!(rt;
        writer.put(Token::bare(Kind::Comma)),
        Err(Fault::NoRoom(1_000_000))
    );
    assert_eq!(rt;
        writer.finish(),
        Ok(Counts {
            tokens: 1_000_000,
            comments: 0
        })
    );
    Ok(())
}

#[test]
fn whitespace_at_the_limit(rt: HostRuntime) -> Result<(), Fail> {
    let mut writer = Writer::new(BufferSink::new(rt.alloc(), 1_000_000)?);
    assert_eq!(rt; put_commas(&mut writer, 999_999), Ok(()));
    assert_eq!(rt; writer.put(Token::bare(Kind::Whitespace)), Ok(()));
    // 7 before 9
    assert_eq!(rt;
        writer.put(Token::bare(Kind::Whitespace)),
        Err(Fault::RepeatedWhitespace(1_000_000))
    );
    assert_eq!(rt;
        writer.put(Token::bare(Kind::Comma)),
        Err(Fault::NoRoom(1_000_000))
    );
    Ok(())
}

#[test]
fn depth_before_room(rt: HostRuntime) -> Result<(), Fail> {
    let mut writer = Writer::new(BufferSink::new(rt.alloc(), 1_000_000)?);
    assert_eq!(rt; open_all(&mut writer), Ok(()));
    assert_eq!(rt; put_commas(&mut writer, 999_936), Ok(()));
    assert_eq!(rt;
        writer.put(Token::bare(Kind::Comma)),
        Err(Fault::NoRoom(999_968))
    );
    // 11 before 9
    assert_eq!(rt;
        writer.call(Call::Open(Token::bare(Kind::OpenSquare))),
        Err(Fault::TooDeep(999_968))
    );
    Ok(())
}

#[test]
fn room_before_the_sink(rt: HostRuntime) -> Result<(), Fail> {
    let mut writer = Writer::new(BufferSink::new(rt.alloc(), 999_999)?);
    assert_eq!(rt; put_commas(&mut writer, 999_999), Ok(()));
    // 9 before 4 from the full sink
    assert_eq!(rt;
        writer.call(Call::Open(Token::bare(Kind::OpenSquare))),
        Err(Fault::NoRoom(999_999))
    );
    assert_eq!(rt;
        writer.put(Token::bare(Kind::Comma)),
        Err(Fault::NotTaken(999_999))
    );
    Ok(())
}
