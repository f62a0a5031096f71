use st_io::{
    Failed, MemorySink, MemorySource, ReadError, Sink, SinkError, Source, StdSink, StdSource,
    SureSink, SureSource, read_all, write_all,
};
use std::test::Fail;

/// Two pieces and a half come in three reads, and a fourth finds the end: each of them fails in turn.
#[test]
fn each_read_fails_in_turn(rt: HostRuntime) -> Result<(), Fail> {
    let mut bytes = [0; 10_000];
    for k in 0..10_000 {
        bytes[k] = (k % 251) as u8;
    }
    let mut whole = MemorySource::new(rt.alloc(), &bytes, &[])?;
    let read = read_all(rt.alloc(), &mut whole, 10_000)?;
    assert_eq!(rt; read.as_slice(), bytes.as_slice());
    for place in 0..4u32 {
        let mut source = MemorySource::new(rt.alloc(), &bytes, &[place])?;
        let read = read_all(rt.alloc(), &mut source, 10_000);
        assert_eq!(rt; read.err(), Some(ReadError::Failed), "at {place}");
        // What came before the fault is lost, and nothing else.
        let rest = read_all(rt.alloc(), &mut source, 10_000)?;
        let came = (place as usize * 4_096).min(10_000);
        assert_eq!(rt; rest.as_slice(), &bytes[came..], "after {place}");
    }
    Ok(())
}

/// At the limit all is read; above it one byte more, and no further.
#[test]
fn one_byte_more_shows_that_there_are_too_many(rt: HostRuntime) -> Result<(), Fail> {
    let bytes = [7; 5_000];
    let mut source = SureSource::new(rt.alloc(), &bytes)?;
    let read = read_all(rt.alloc(), &mut source, 5_000)?;
    assert_eq!(rt; read.len(), 5_000);
    for limit in [0, 4_095, 4_096, 4_999] {
        let mut source = SureSource::new(rt.alloc(), &bytes)?;
        let read = read_all(rt.alloc(), &mut source, limit);
        assert_eq!(rt; read.err(), Some(ReadError::TooLong), "at {limit}");
        let rest = read_all(rt.alloc(), &mut source, 5_000)?;
        assert_eq!(rt; rest.len() + limit + 1, 5_000, "after {limit}");
    }
    Ok(())
}

/// Ten bytes go in four writes, of which each fails in turn: what was taken is a front of them.
#[test]
fn each_write_fails_in_turn(rt: HostRuntime) -> Result<(), Fail> {
    let bytes = b"0123456789";
    let mut whole = SureSink::new(rt.alloc(), 3)?;
    write_all(&mut whole, bytes)?;
    assert_eq!(rt; whole.taken(), bytes.as_slice());
    for place in 0..4u32 {
        let mut sink = MemorySink::new(rt.alloc(), 3, &[place])?;
        let wrote = write_all(&mut sink, bytes);
        assert_eq!(rt; wrote, Err(SinkError::Failed), "at {place}");
        let taken = (place as usize * 3).min(10);
        assert_eq!(rt; sink.taken(), &bytes[..taken], "after {place}");
    }
    Ok(())
}

/// One read and one write through the traits alone, planned to fail at the second.
#[test]
fn planned_calls_fail(rt: HostRuntime) -> Result<(), Fail> {
    let mut source = MemorySource::new(rt.alloc(), b"abc", &[1])?;
    let mut sink = MemorySink::new(rt.alloc(), 9, &[1])?;
    assert_eq!(rt; carry(&mut source, &mut sink), Some(2));
    assert_eq!(rt; carry(&mut source, &mut sink), None);
    assert_eq!(rt; sink.taken(), b"ab".as_slice());
    Ok(())
}

/// Two bytes at most from a source to a sink; None where an end fails.
fn carry<S: Source, K: Sink>(source: &mut S, sink: &mut K) -> Option<usize> {
    let mut piece = [0; 2];
    let count = source.read(&mut piece).ok()?;
    sink.write(&piece[..count]).ok()
}

/// The real ends: nothing is read into no room, and a line is written.
#[test]
fn the_real_ends_are_there(rt: HostRuntime) -> Result<(), Fail> {
    let mut source = StdSource::new(rt.stdin());
    let mut sink = StdSink::new(rt.stdout());
    assert_eq!(rt; source.read(&mut []), Ok(0));
    write_all(&mut sink, b"written\n")?;
    Ok(())
}
