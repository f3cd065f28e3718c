//! The standard streams as a source and as sinks.
//!
//! The types stand over any reader and writer of std. A sink tells what its writer tells, which is nothing at a
//! standard stream. A source tells nothing but that it has ended.

ghost use Rattle.std.specs.Prelude.{◌≡◌, [], false, None, Some, min, is_err, if◌then◌else◌};
ghost use Rattle.fc_base.specs.Outside.{last_count, one_more};

use crate::transfer::{read_some, write_whole};
use fc_base::{Failed, Sink, Source};
use std::io::{Read, Write};

/// Counts a failure, up to the last value of a count, and hands the result on.
fn counted<T>(answer: Result<T, Failed>, faults: &mut u64) -> Result<T, Failed>
    ensures answer { result ≡ answer }
    ensures counted { faults.new ≡ (if is_err result then one_more faults.old else faults.old) }
{
    if answer.is_err() {
        *faults = faults.saturating_add(1);
    }
    answer
}

/// A reader as a source, with the number of its failed reads. Once it has answered its end it is not asked again, as C's
/// streams keep their end-of-file indicator (C11 7.21.7.1): a terminal may have more lines behind its end.
#[derive(Drop)]
pub struct StdSource<R> {
    reader: R,
    ended: bool,
    faults: u64,
}

impl<R> StdSource<R> {
    pub fn new(reader: R) -> StdSource<R>
        ensures reader { result.reader ≡ reader }
        ensures ended { result.ended ≡ false }
        ensures faults { result.faults ≡ 0 }
    {
        StdSource {
            reader,
            ended: false,
            faults: 0,
        }
    }
}

impl<R: Read> Source for StdSource<R> {
    ghost left = { λ source. if source.ended then Some [] else None };

    ghost count = { λ source. min source.faults last_count };

    fn read(&mut self, buf: &mut [u8]) -> Result<usize, Failed> {
        if buf.is_empty() || self.ended {
            return Ok(0);
        }
        let answer = counted(read_some(&mut self.reader, buf), &mut self.faults);
        if let Ok(0) = answer {
            self.ended = true;
        }
        answer
    }

    fn faults(&self) -> u64 {
        self.faults
    }
}

/// A writer as a sink, with the number of its failed writes.
#[derive(Drop)]
pub struct StdSink<W> {
    writer: W,
    faults: u64,
}

impl<W> StdSink<W> {
    pub fn new(writer: W) -> StdSink<W>
        ensures writer { result.writer ≡ writer }
        ensures faults { result.faults ≡ 0 }
    {
        StdSink { writer, faults: 0 }
    }
}

impl<W: Write> Sink for StdSink<W> {
    ghost written = { λ sink. W.contents sink.writer };

    ghost count = { λ sink. min sink.faults last_count };

    fn write(&mut self, bytes: &[u8]) -> Result<(), Failed> {
        if bytes.is_empty() {
            return Ok(());
        }
        counted(write_whole(&mut self.writer, bytes), &mut self.faults)
    }

    fn faults(&self) -> u64 {
        self.faults
    }
}
