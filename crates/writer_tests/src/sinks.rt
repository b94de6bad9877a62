// Sinks that refuse at each byte of a comment and of an escape: what they took before stays.
use crate::tokens::ident;
use refusal::Fault;
use std::test::Fail;
use stream::BufferSink;
use writer::{Counts, Writer};

#[test]
fn comment_cut_at_each_byte(rt: HostRuntime) -> Result<(), Fail> {
    let heap = rt.alloc();
    let whole: &[u8] = b"a/**/b";
    for cells in 1..6 {
        let mut writer = Writer::new(BufferSink::new(heap, cells)?);
        assert_eq!(rt; writer.put(ident(&[0x61])), Ok(()));
        assert_eq!(rt; writer.put(ident(&[0x62])), Err(Fault::NotTaken(cells)));
        assert_eq!(rt; writer.put(ident(&[0x62])), Err(Fault::NotTaken(cells)));
        let sink = writer.into_sink();
        assert_eq!(rt; sink.bytes(), &whole[0..cells]);
    }
    Ok(())
}

#[test]
fn escape_cut_at_each_byte(rt: HostRuntime) -> Result<(), Fail> {
    let heap = rt.alloc();
    let whole: &[u8] = b"\\31 ";
    for cells in 0..4 {
        let mut writer = Writer::new(BufferSink::new(heap, cells)?);
        assert_eq!(rt; writer.put(ident(&[0x31])), Err(Fault::NotTaken(cells)));
        assert_eq!(rt; writer.finish(), Err(Fault::NotTaken(cells)));
        let sink = writer.into_sink();
        assert_eq!(rt; sink.bytes(), &whole[0..cells]);
    }
    Ok(())
}

#[test]
fn whole_comment_is_counted(rt: HostRuntime) -> Result<(), Fail> {
    let mut writer = Writer::new(BufferSink::new(rt.alloc(), 6)?);
    assert_eq!(rt; writer.put(ident(&[0x61])), Ok(()));
    assert_eq!(rt; writer.put(ident(&[0x62])), Ok(()));
    assert_eq!(rt;
        writer.finish(),
        Ok(Counts {
            tokens: 2,
            comments: 1
        })
    );
    let sink = writer.into_sink();
    assert_eq!(rt; sink.bytes(), b"a/**/b".as_slice());
    Ok(())
}
