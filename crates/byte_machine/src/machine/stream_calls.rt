//! The library's calls that write on standard output or error, or take from standard input.

ghost use Rattle.std.specs.Prelude.{◌≡◌, ◌≢◌, ◌≤◌, ◌%◌, ℕ, List, ◌∷◌, [], length, true};
ghost use Rattle.run_meaning.specs.Objects.{Streams, StreamState, stream, streams};
ghost use Rattle.run_meaning.specs.declared.streams.Stream.{Stream};
ghost use Rattle.c_library.specs.declared.functions.LibFn.{LibFn};
ghost use Rattle.library_meaning.specs.Rows.{run};
ghost use Rattle.library_meaning.specs.Table as table;
ghost use Rattle.library_meaning.specs.Table.{int_of};
ghost use Rattle.library_meaning.specs.OnBytes.{on_bytes, quiet};
ghost use Rattle.library_meaning.specs.OnStreams.{Writes, TakesAs};
ghost use Rattle.byte_machine.specs.State.{slot_value, size_of, mode_at, note};
ghost use Rattle.byte_machine.specs.Machines.{fault_of};
ghost use Rattle.byte_machine.specs.Performing.{IsGoing, StandsAtCall, GoesOn, Names, HasWritten, Performs, uses_streams};

use super::{Machine, Step, Stop};
use c_library::LibFn;
use fc_base::{End, Mode, Sink, Source};
use fd_chk::{getchar_c, putchar_c, puts_c, read_c, write_c};
use library_meaning::HostStop;
use print_chk::print_size;
use run_meaning::Stream;

impl Machine {
    /// A call that moves bytes on the streams.
    pub(super) fn use_streams<I: Source, O: Sink, E: Sink>(
        &mut self,
        f: LibFn,
        checked: bool,
        to: u32,
        input: &mut I,
        out: &mut O,
        err: &mut E,
    ) -> Step
        requires running { IsGoing self.old }
        requires call { StandsAtCall self.old f checked to }
        requires uses { uses_streams f ≡ true }
        ensures program { self.new.program ≡ self.old.program }
        ensures performed { let before = streams (stream (I.left input.old) (I.count input.old))
            (stream (O.written out.old) (O.count out.old)) (stream (E.written err.old) (E.count err.old)) in
            let after = streams (stream (I.left input.new) (I.count input.new))
            (stream (O.written out.new) (O.count out.new)) (stream (E.written err.new) (E.count err.new)) in
            Performs self.old self.new result before after }
    {
        match f {
            LibFn::Puts => self.puts(checked, to, out),
            LibFn::Putchar => self.putchar(checked, to, out),
            LibFn::Write => self.write(checked, to, out, err),
            LibFn::Read => self.read(checked, to, input, err),
            LibFn::Getchar => self.getchar(checked, to, input),
            LibFn::Note => self.note(checked, to, err),
            _ => unreachable!(),
        }
    }

    /// C11's `puts`.
    fn puts<O: Sink>(&mut self, checked: bool, to: u32, out: &mut O) -> Step
        requires running { IsGoing self.old }
        requires call { StandsAtCall self.old LibFn.Puts checked to }
        ensures program { self.new.program ≡ self.old.program }
        ensures performed { (input err : StreamState) →
            Performs self.old self.new result (streams input (stream (O.written out.old) (O.count out.old)) err)
            (streams input (stream (O.written out.new) (O.count out.new)) err) }
    {
        let _checked = checked;
        let done = puts_c(&self.memory, out, self.slots[0]);
        self.wrote(to, done, Stream::Out)
    }

    /// C11's `putchar`.
    fn putchar<O: Sink>(&mut self, checked: bool, to: u32, out: &mut O) -> Step
        requires running { IsGoing self.old }
        requires call { StandsAtCall self.old LibFn.Putchar checked to }
        ensures program { self.new.program ≡ self.old.program }
        ensures performed { (input err : StreamState) →
            Performs self.old self.new result (streams input (stream (O.written out.old) (O.count out.old)) err)
            (streams input (stream (O.written out.new) (O.count out.new)) err) }
    {
        let _checked = checked;
        let done = putchar_c(out, self.slots[0]);
        self.wrote(to, done, Stream::Out)
    }

    /// POSIX's `write`.
    fn write<O: Sink, E: Sink>(&mut self, checked: bool, to: u32, out: &mut O, err: &mut E) -> Step
        requires running { IsGoing self.old }
        requires call { StandsAtCall self.old LibFn.Write checked to }
        ensures program { self.new.program ≡ self.old.program }
        ensures performed { (input : StreamState) →
            Performs self.old self.new result
            (streams input (stream (O.written out.old) (O.count out.old)) (stream (E.written err.old) (E.count err.old)))
            (streams input (stream (O.written out.new) (O.count out.new)) (stream (E.written err.new) (E.count err.new))) }
    {
        let _checked = checked;
        let (descriptor, from, count) = (int_of(self.slots[0]), self.slots[1], self.slots[2]);
        if descriptor == 1 {
            let on_out = write_c(&self.memory, out, from, count);
            return self.wrote(to, on_out, Stream::Out);
        }
        if descriptor == 2 {
            let on_err = write_c(&self.memory, err, from, count);
            return self.wrote(to, on_err, Stream::Err);
        }
        self.give(to, u64::MAX)
    }

    /// POSIX's `read`.
    fn read<I: Source, E: Sink>(
        &mut self,
        checked: bool,
        to: u32,
        input: &mut I,
        err: &mut E,
    ) -> Step
        requires running { IsGoing self.old }
        requires call { StandsAtCall self.old LibFn.Read checked to }
        ensures program { self.new.program ≡ self.old.program }
        ensures performed { (out : StreamState) →
            Performs self.old self.new result
            (streams (stream (I.left input.old) (I.count input.old)) out (stream (E.written err.old) (E.count err.old)))
            (streams (stream (I.left input.new) (I.count input.new)) out (stream (E.written err.new) (E.count err.new))) }
    {
        let size = self.size_of(LibFn::Read, checked);
        if int_of(self.slots[0]) != 0 {
            return self.read_nothing(checked, to, size, err);
        }
        match self.take_bytes(input, size) {
            Ok(count) => self.give(to, count),
            Err(stop) => match stop {
                HostStop::InputFault => self.stop(Stop::InputFault),
                _ => self.halt(stop, err),
            },
        }
    }

    /// A `read` from another descriptor than standard input.
    fn read_nothing<E: Sink>(&mut self, checked: bool, to: u32, size: u64, err: &mut E) -> Step
        requires running { IsGoing self.old }
        requires call { StandsAtCall self.old LibFn.Read checked to }
        requires size { size ≡ size_of LibFn.Read checked self.old.core }
        requires long { length self.old.core.slots ≡ 64 }
        requires elsewhere { int_of (slot_value self.old.core 0) ≢ 0 }
        ensures program { self.new.program ≡ self.old.program }
        ensures performed { (input out : StreamState) →
            Performs self.old self.new result (streams input out (stream (E.written err.old) (E.count err.old)))
            (streams input out (stream (E.written err.new) (E.count err.new))) }
    {
        let _checked = checked;
        if self.slot(2) > size {
            return self.halt(HostStop::Overflow, err);
        }
        self.give(to, u64::MAX)
    }

    /// Takes bytes from standard input to an address of memory, by the argument slots of `read`.
    fn take_bytes<I: Source>(&mut self, input: &mut I, size: u64) -> Result<u64, HostStop>
        ensures state { self.new ≡ record self.old { core = record self.old.core { memory = self.new.core.memory } } }
        ensures took { let args = 0 ∷ slot_value self.old.core 1 ∷ slot_value self.old.core 2 ∷ [] in
            TakesAs args (λ m. run (on_bytes args) (table.read size) m) (self.old.core.memory, self.new.core.memory) result
            (stream (I.left input.old) (I.count input.old)) (stream (I.left input.new) (I.count input.new)) }
        ensures grew { I.count input.old ≤ I.count input.new }
    {
        read_c(&mut self.memory, input, self.slots[1], self.slots[2], size)
    }

    /// C11's `getchar`.
    fn getchar<I: Source>(&mut self, checked: bool, to: u32, input: &mut I) -> Step
        requires running { IsGoing self.old }
        requires call { StandsAtCall self.old LibFn.Getchar checked to }
        ensures program { self.new.program ≡ self.old.program }
        ensures performed { (out err : StreamState) →
            Performs self.old self.new result (streams (stream (I.left input.old) (I.count input.old)) out err)
            (streams (stream (I.left input.new) (I.count input.new)) out err) }
    {
        let _checked = checked;
        match getchar_c(input) {
            Ok(byte) => self.give(to, byte),
            Err(_) => self.stop(Stop::InputFault),
        }
    }

    /// The line of a size, whose parts are the argument slots.
    fn note<E: Sink>(&mut self, checked: bool, to: u32, err: &mut E) -> Step
        requires running { IsGoing self.old }
        requires call { StandsAtCall self.old LibFn.Note checked to }
        ensures program { self.new.program ≡ self.old.program }
        ensures performed { (input out : StreamState) →
            Performs self.old self.new result (streams input out (stream (E.written err.old) (E.count err.old)))
            (streams input out (stream (E.written err.new) (E.count err.new))) }
    {
        let _checked = checked;
        let (line, column, mode, value) = (
            self.slots[0],
            self.slots[1],
            self.slots[2],
            self.slots[3],
        );
        let done = put_size(err, line, column, mode, value);
        self.wrote(to, done, Stream::Err)
    }

    /// Goes on behind a call that has written on a sink, or stops where it stopped.
    pub(super) fn wrote(&mut self, to: u32, done: Result<u64, HostStop>, which: Stream) -> Step
        requires running { IsGoing self.old }
        requires written { (before : Streams) × ((after : Streams) × HasWritten self.old to which done before after) }
        ensures program { self.new.program ≡ self.old.program }
        ensures performed { (before after : Streams) → HasWritten self.old to which done before after
            → Performs self.old self.new result before after }
    {
        match done {
            Ok(number) => self.give(to, number),
            Err(stop) => match stop {
                HostStop::SinkFault => self.stop(fault_of(which)),
                HostStop::BadAddress => self.stop(Stop::Ended(End::BadAddress)),
                HostStop::BadFormat => self.stop(Stop::Ended(End::BadFormat)),
                HostStop::Overflow => unreachable!(),
                HostStop::InputFault => unreachable!(),
            },
        }
    }
}

/// Descriptors are ints.
pub(super) fn int_of(number: u64) -> u64
    ensures { result ≡ int_of number }
{
    number % (1 << 32)
}

/// Writes the line of a size, in the mode of the third number's two low bits.
fn put_size<E: Sink>(
    err: &mut E,
    line: u64,
    column: u64,
    mode: u64,
    value: u64,
) -> Result<u64, HostStop>
    ensures row { (memory : List ℕ) → let args = line ∷ column ∷ mode ∷ value ∷ [] in
        Writes args (run (on_bytes args) note memory quiet) result
        (stream (E.written err.old) (E.count err.old)) (stream (E.written err.new) (E.count err.new)) }
    ensures grew { E.count err.old ≤ E.count err.new }
{
    match print_size(err, line, column, mode_at(mode), value) {
        Ok(()) => Ok(0),
        Err(stop) => Err(stop),
    }
}

/// The mode that the two low bits of a number name.
fn mode_at(number: u64) -> Mode
    ensures { result ≡ mode_at (number % 4) }
{
    match number % 4 {
        0 => Mode::M0,
        1 => Mode::M1,
        2 => Mode::M2,
        _ => Mode::M3,
    }
}

/// The stop at a fault of the stream.
fn fault_of(which: Stream) -> Stop
    ensures { result ≡ fault_of which }
{
    match which {
        Stream::Input => Stop::InputFault,
        Stream::Out => Stop::OutFault,
        Stream::Err => Stop::ErrFault,
    }
}
