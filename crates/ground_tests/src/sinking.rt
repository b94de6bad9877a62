// Sinks at their limits, and how refusals are shown.
use refusal::Fault;
use std::test::Fail;
use stream::{BufferSink, ComparingSink, Sink, emit, emit_code_point};

#[test]
fn full_buffer(rt: HostRuntime) -> Result<(), Fail> {
    let mut sink = BufferSink::new(rt.alloc(), 2)?;
    // U+00E9 has two bytes, so its second finds no cell
    assert_eq!(rt; sink.take(97), Ok(()));
    assert_eq!(rt; emit_code_point(&mut sink, 0xe9), Err(Fault::NotTaken(2)));
    assert_eq!(rt; sink.bytes(), b"a\xc3".as_slice());
    assert_eq!(rt; sink.take(98), Err(Fault::NotTaken(2)));
    Ok(())
}

#[test]
fn comparing_at_a_wrong_byte_and_past_the_end(rt: HostRuntime) {
    let mut sink = ComparingSink::new(b"abc");
    assert_eq!(rt; emit(&mut sink, b"ab"), Ok(()));
    assert_eq!(rt; sink.take(98), Err(Fault::NotTaken(2)));
    assert!(rt; !sink.is_complete());
    assert_eq!(rt; sink.take(99), Ok(()));
    assert!(rt; sink.is_complete());
    assert_eq!(rt; sink.take(99), Err(Fault::NotTaken(3)));
}

#[test]
fn faults_show_number_layer_and_place(rt: HostRuntime) -> Result<(), Fail> {
    let heap = rt.alloc();
    assert_eq!(rt;
        Fault::BadToken(4).to_string(heap)?.as_str(),
        "fault 6 writer 4"
    );
    assert_eq!(rt;
        Fault::Outgrown(7).to_string(heap)?.as_str(),
        "fault 3 reader 7"
    );
    assert_eq!(rt;
        Fault::Operator(77, 5).to_string(heap)?.as_str(),
        "fault 77 source 5"
    );
    Ok(())
}
