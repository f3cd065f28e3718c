//! A reader and a writer that are interrupted and that fail in mid-stream.

use crate::values::assert_same;
use fc_base::{Failed, Sink, Source};
use fort_files::{StdSink, StdSource};
use std::io;
use std::io::{Error, ErrorKind, Read, Write};
use std::process::Abort;

/// Is interrupted, gives one byte, fails, ends, and would give bytes again, as a terminal does behind its end.
#[derive(Drop)]
struct FitfulReader {
    calls: u8,
}

impl Read for FitfulReader {
    fn read(&mut self, buf: &mut [u8]) -> io::Result<usize> {
        self.calls = self.calls.saturating_add(1);
        match self.calls {
            1 => Err(Error::from(ErrorKind::Interrupted)),
            2 => {
                for byte in buf.iter_mut().take(1) {
                    *byte = b'x';
                }
                Ok(buf.len().min(1))
            }
            3 => Err(Error::from(ErrorKind::BrokenPipe)),
            4 => Ok(0),
            _ => Ok(buf.len()),
        }
    }
}

/// Takes two bytes of each piece, is interrupted at its second call, and takes nothing from the fifth on.
#[derive(Drop)]
struct FitfulWriter {
    calls: u8,
    taken: Vec<u8>,
}

impl Write for FitfulWriter {
    fn write(&mut self, buf: &[u8]) -> io::Result<usize> {
        self.calls = self.calls.saturating_add(1);
        match self.calls {
            2 => Err(Error::from(ErrorKind::Interrupted)),
            1 | 3 | 4 => {
                let count = buf.len().min(2);
                self.taken.extend_from_slice(&buf[..count])?;
                Ok(count)
            }
            _ => Ok(0),
        }
    }

    fn flush(&mut self) -> io::Result<()> {
        Ok(())
    }
}

/// Asserts what a read answers, and how many have failed.
fn assert_read<R: Read>(
    rt: &impl Abort,
    source: &mut StdSource<R>,
    buf: &mut [u8],
    answer: Result<usize, Failed>,
    faults: u64,
) {
    let room = buf.len();
    let found = source.read(buf);
    assert_same(rt, room, (found, source.faults()), (answer, faults));
}

#[test]
fn a_source_counts_its_faults(rt: HostRuntime) {
    let mut source = StdSource::new(FitfulReader { calls: 0 });
    let mut buf = [0u8; 4];
    assert_read(&rt, &mut source, &mut [], Ok(0), 0);
    assert_read(&rt, &mut source, &mut buf, Ok(1), 0);
    assert_same(&rt, "byte", buf[0], b'x');
    assert_read(&rt, &mut source, &mut buf, Err(Failed), 1);
    assert_read(&rt, &mut source, &mut buf, Ok(0), 1);
    assert_read(&rt, &mut source, &mut buf, Ok(0), 1);
}

/// Asserts what a write answers, and how many have failed.
fn assert_write<W: Write>(
    rt: &impl Abort,
    sink: &mut StdSink<W>,
    bytes: &[u8],
    answer: Result<(), Failed>,
    faults: u64,
) {
    let found = sink.write(bytes);
    assert_same(rt, bytes.len(), (found, sink.faults()), (answer, faults));
}

#[test]
fn a_sink_counts_its_faults(rt: HostRuntime) {
    let taken = Vec::new(rt.alloc());
    let mut sink = StdSink::new(FitfulWriter { calls: 0, taken });
    assert_write(&rt, &mut sink, b"", Ok(()), 0);
    assert_write(&rt, &mut sink, b"abcd", Ok(()), 0);
    assert_write(&rt, &mut sink, b"efg", Err(Failed), 1);
}
