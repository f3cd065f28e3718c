//! The line of a size that was computed at run time.

ghost use Rattle.std.specs.Prelude.{◌≡◌, ◌++◌, decimal};
ghost use Rattle.run_meaning.specs.Objects.{stream};
ghost use Rattle.run_meaning.specs.Events.{mode_number, size_line};
ghost use Rattle.print_chk.specs.Written.{Wrote};

use crate::printing::put;
use fc_base::{Mode, Sink};
use itoa::Buffer;
use library_meaning::HostStop;

fn mode_number(mode: Mode) -> u64
    ensures { result ≡ mode_number mode }
{
    match mode {
        Mode::M0 => 0,
        Mode::M1 => 1,
        Mode::M2 => 2,
        Mode::M3 => 3,
    }
}

/// Writes a label and a number in decimal digits.
fn put_number<S: Sink>(sink: &mut S, label: &[u8], number: u64) -> Result<(), HostStop>
    ensures { Wrote (label.now ++ decimal number) result
        (stream (S.written sink.old) (S.count sink.old)) (stream (S.written sink.new) (S.count sink.new)) }
{
    match put(sink, label) {
        Ok(()) => {}
        Err(stop) => return Err(stop),
    }
    let mut buffer = Buffer::new();
    put(sink, buffer.format(number).as_bytes())
}

/// Writes `size LINE:COLUMN mode MODE = VALUE` and a newline. `SinkFault` where the sink failed.
pub fn print_size<S: Sink>(
    sink: &mut S,
    line: u64,
    column: u64,
    mode: Mode,
    value: u64,
) -> Result<(), HostStop>
    ensures { Wrote (size_line (record { line = line; col = column }) mode value) result
        (stream (S.written sink.old) (S.count sink.old)) (stream (S.written sink.new) (S.count sink.new)) }
{
    match put_number(sink, b"size ", line) {
        Ok(()) => {}
        Err(stop) => return Err(stop),
    }
    match put_number(sink, b":", column) {
        Ok(()) => {}
        Err(stop) => return Err(stop),
    }
    match put_number(sink, b" mode ", mode_number(mode)) {
        Ok(()) => {}
        Err(stop) => return Err(stop),
    }
    match put_number(sink, b" = ", value) {
        Ok(()) => {}
        Err(stop) => return Err(stop),
    }
    put(sink, b"\n")
}
