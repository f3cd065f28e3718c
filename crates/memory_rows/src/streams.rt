//! Sources that give their bytes up to a failure or the end, and sinks that take what they have room for.

use crate::values::assert_same;
use fc_base::{Failed, MemSink, MemSource, NoMemory, Sink, Source};
use std::alloc::Global;
use std::process::Abort;
use std::test::Fail;

/// What each read into three bytes answers, of a source that fails at 2 of 4 bytes and of one that never fails.
const READS: &[(Result<usize, Failed>, Result<usize, Failed>)] = &[
    (Ok(2), Ok(3)),
    (Err(Failed), Ok(1)),
    (Err(Failed), Ok(0)),
];

fn assert_read(
    rt: &impl Abort,
    source: &mut MemSource,
    buf: &mut [u8],
    answer: Result<usize, Failed>,
) {
    let room = buf.len();
    assert_same(rt, room, source.read(buf), answer);
}

fn assert_reads(rt: &impl Abort, failing: &mut MemSource, whole: &mut MemSource) {
    let mut buf = [0; 3];
    for &(of_failing, of_whole) in READS {
        assert_read(rt, failing, &mut buf, of_failing);
        assert_read(rt, whole, &mut buf, of_whole);
    }
    assert_read(rt, failing, &mut [], Ok(0));
    assert_same(rt, "faults", (failing.faults(), whole.faults()), (2, 0));
    assert_same(rt, "bytes", buf, *b"dbc");
}

#[test]
fn reads_to_the_failure_or_the_end(rt: HostRuntime) -> Result<(), Fail> {
    let mut failing = MemSource::failing(rt.alloc(), b"abcd", 2)?;
    let mut whole = MemSource::new(rt.alloc(), b"abcd")?;
    assert_reads(&rt, &mut failing, &mut whole);
    Ok(())
}

/// The room of a sink, and what stands in it after a piece and after the piece again.
const WRITTEN: &[(usize, &[u8], &[u8])] = &[
    (0, b"", b""),
    (1, b"a", b"a"),
    (2, b"ab", b"ab"),
    (3, b"abc", b"abc"),
    (4, b"abc", b"abca"),
];

/// Asserts whether a write of the piece fails, and what the sink then holds.
fn assert_write(rt: &impl Abort, sink: &mut MemSink, room: usize, fails: bool, bytes: &[u8]) {
    let failed = sink.write(b"abc").is_err();
    assert_same(rt, room, (failed, sink.bytes()), (fails, bytes));
}

fn assert_written(
    rt: &impl Abort,
    alloc: Global,
    &(room, once, twice): &(usize, &[u8], &[u8]),
) -> Result<(), NoMemory> {
    let mut sink = MemSink::sized(alloc, room)?;
    assert_write(rt, &mut sink, room, room < 3, once);
    assert_write(rt, &mut sink, room, room < 6, twice);
    Ok(())
}

#[test]
fn writes_up_to_the_room(rt: HostRuntime) -> Result<(), Fail> {
    for row in WRITTEN {
        assert_written(&rt, rt.alloc(), row)?;
    }
    Ok(())
}
