use super::{Failed, ListSink, ListSource, Sink, Source};
use facet_base::Many;
use std::alloc::{AllocError, Global};
use std::test::Fail;

// The list of one call.
fn only(alloc: Global, call: usize) -> Result<Many<usize>, AllocError> {
    let mut calls = Many::new(alloc);
    calls.push(call)?;
    Ok(calls)
}

#[test]
fn a_source_returns_its_bytes_and_fails_at_the_second_call(rt: HostRuntime) -> Result<(), Fail> {
    let alloc = rt.alloc();
    let bytes = b"abcde".to_vec(alloc)?;
    let mut source = ListSource::new(bytes, only(alloc, 2)?, 4);
    let mut buf = [0; 3];
    assert_eq!(rt; source.read(&mut buf), Ok(3));
    assert_eq!(rt; buf, *b"abc");
    assert_eq!(rt; source.read(&mut buf), Err(Failed));
    assert_eq!(rt; buf, *b"abc");
    assert_eq!(rt; source.read(&mut buf), Ok(2));
    assert_eq!(rt; buf, *b"dec");
    assert_eq!(rt; source.read(&mut buf), Ok(0));
    Ok(())
}

#[test]
fn a_sink_keeps_its_bytes_and_fails_at_the_second_call_and_when_full(
    rt: HostRuntime,
) -> Result<(), Fail> {
    let alloc = rt.alloc();
    let mut sink = ListSink::new(alloc, 5, only(alloc, 2)?, 4)?;
    assert_eq!(rt; sink.write(b"abcdef"), Ok(4));
    assert_eq!(rt; sink.write(b"ef"), Err(Failed));
    assert_eq!(rt; sink.write(b"ef"), Ok(1));
    assert_eq!(rt; sink.write(b"f"), Err(Failed));
    assert_eq!(rt; sink.write(b""), Ok(0));
    assert_eq!(rt; sink.bytes(), b"abcde".as_slice());
    Ok(())
}
