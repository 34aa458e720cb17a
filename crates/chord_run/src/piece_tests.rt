//! The top call over a source that gives one byte a read and a sink that takes one byte a write, where each of their calls fails in turn.
use crate::sources::BUFFER;
use crate::tests::{Open, words_of};
use crate::{Refusal, Report, chord};
use chord_io::{MemSink, MemSource};
use std::alloc::{AllocError, Global};
use std::sync::Wait;
use std::test::Fail;
use std::thread::Threads;

/// A sink that takes a line of three bytes has as many calls.
const WRITES: u32 = 3;

/// A run over one byte a call, whose read and write of these numbers fail, and what the sink took.
fn answer<R: Threads + Wait + Sync>(
    rt: &R,
    alloc: Global,
    source: &str,
    failing_read: u32,
    failing_write: u32,
) -> Result<(Report, MemSink), AllocError> {
    let words = words_of(alloc, "run --one")?;
    let bytes = Vec::from_slice(alloc, source.as_bytes())?;
    let mut source = MemSource::new(bytes, 1, Vec::from_slice(alloc, &[failing_read])?);
    let mut sink = MemSink::new(alloc, 100, 1, Vec::from_slice(alloc, &[failing_write])?)?;
    let report = chord(rt, alloc, &words, &mut source, &mut sink, &Open);
    Ok((report, sink))
}

#[test]
fn each_write_fails_in_turn(rt: HostRuntime) -> Result<(), Fail> {
    let line = b"hi\n".as_slice();
    for failing in 1..WRITES + 1 {
        let (report, sink) = answer(&rt, rt.alloc(), BUFFER, 0, failing)?;
        let before = (failing - 1) as usize;
        assert_eq!(rt; report.status, 5, "write {failing}");
        assert!(rt; line.starts_with(sink.taken()), "write {failing}");
        assert_eq!(rt; sink.taken().len(), before, "write {failing}");
    }
    let (report, sink) = answer(&rt, rt.alloc(), BUFFER, 0, WRITES + 1)?;
    assert_eq!(rt; report.status, 0);
    assert_eq!(rt; sink.taken(), line);
    Ok(())
}

#[test]
fn each_read_fails_in_turn(rt: HostRuntime) -> Result<(), Fail> {
    // one read for each byte, and one that finds the end
    let reads = BUFFER.len() as u32 + 1;
    for failing in 1..reads + 1 {
        let (report, sink) = answer(&rt, rt.alloc(), BUFFER, failing, 0)?;
        assert_eq!(rt; report.status, 3, "read {failing}");
        assert!(rt; sink.taken().is_empty(), "read {failing}");
        assert!(rt; report.journal.is_none(), "read {failing}");
    }
    let (report, sink) = answer(&rt, rt.alloc(), BUFFER, reads + 1, 0)?;
    assert_eq!(rt; report.status, 0);
    assert_eq!(rt; sink.taken(), b"hi\n".as_slice());
    Ok(())
}

#[test]
fn no_text_and_a_sink_that_fails(rt: HostRuntime) -> Result<(), Fail> {
    let (report, sink) = answer(&rt, rt.alloc(), "", 0, 1)?;
    assert_eq!(rt; report.status, 5);
    assert!(rt; sink.taken().is_empty());
    assert_eq!(rt; report.refusal, Some(Refusal::Syntax(0)));
    assert!(rt; report.journal.is_none());
    Ok(())
}
