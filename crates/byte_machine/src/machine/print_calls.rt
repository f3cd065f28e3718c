//! The library's prints.

ghost use Rattle.std.specs.Prelude.{◌≡◌, ◌<◌, ◌≤◌, ◌+◌, ℕ, ◌∷◌, length, slice_index, slice_range, cond, true, false};
ghost use Rattle.run_meaning.specs.Objects.{StreamState, stream, streams};
ghost use Rattle.c_library.specs.declared.functions.LibFn.{LibFn};
ghost use Rattle.c_library.specs.Library.{row_of};
ghost use Rattle.library_meaning.specs.Rows.{run};
ghost use Rattle.library_meaning.specs.Prints as prints;
ghost use Rattle.library_meaning.specs.OnBytes.{on_bytes, quiet};
ghost use Rattle.library_meaning.specs.OnStreams.{Writes};
ghost use Rattle.library_meaning.specs.Memory.{memory_size};
ghost use Rattle.byte_machine.specs.State.{print_size};
ghost use Rattle.byte_machine.specs.Performing.{IsGoing, StandsAtPrint, StoresBounded, StoresWhole, Performs};

use super::stream_calls::int_of;
use super::{Machine, Step};
use c_library::LibFn;
use fc_base::Sink;
use library_meaning::HostStop;
use print_chk::{print_mem, print_out};
use run_meaning::Stream;

impl Machine {
    /// A print, which is passed so many argument slots.
    pub(super) fn print<O: Sink, E: Sink>(
        &mut self,
        f: LibFn,
        checked: bool,
        to: u32,
        count: u32,
        out: &mut O,
        err: &mut E,
    ) -> Step
        requires running { IsGoing self.old }
        requires call { StandsAtPrint self.old f checked count to }
        requires prints { (row_of f).variadic ≡ true }
        ensures program { self.new.program ≡ self.old.program }
        ensures performed { (input : StreamState) →
            Performs self.old self.new result
            (streams input (stream (O.written out.old) (O.count out.old)) (stream (E.written err.old) (E.count err.old)))
            (streams input (stream (O.written out.new) (O.count out.new)) (stream (E.written err.new) (E.count err.new))) }
    {
        match f {
            LibFn::Printf => self.printf(checked, to, count, out),
            LibFn::Dprintf => self.dprintf(checked, to, count, out, err),
            LibFn::Sprintf => self.sprintf(checked, to, count, err),
            LibFn::Snprintf => self.snprintf(checked, to, count, err),
            _ => unreachable!(),
        }
    }

    /// C11's `printf`.
    fn printf<O: Sink>(&mut self, checked: bool, to: u32, count: u32, out: &mut O) -> Step
        requires running { IsGoing self.old }
        requires call { StandsAtPrint self.old LibFn.Printf checked count to }
        ensures program { self.new.program ≡ self.old.program }
        ensures performed { (input err : StreamState) →
            Performs self.old self.new result (streams input (stream (O.written out.old) (O.count out.old)) err)
            (streams input (stream (O.written out.new) (O.count out.new)) err) }
    {
        let _checked = checked;
        let done = print_slots(&self.memory, out, &self.slots, 0, count as usize);
        self.wrote(to, done, Stream::Out)
    }

    /// POSIX's `dprintf`.
    fn dprintf<O: Sink, E: Sink>(
        &mut self,
        checked: bool,
        to: u32,
        count: u32,
        out: &mut O,
        err: &mut E,
    ) -> Step
        requires running { IsGoing self.old }
        requires call { StandsAtPrint self.old LibFn.Dprintf checked count to }
        ensures program { self.new.program ≡ self.old.program }
        ensures performed { (input : StreamState) →
            Performs self.old self.new result
            (streams input (stream (O.written out.old) (O.count out.old)) (stream (E.written err.old) (E.count err.old)))
            (streams input (stream (O.written out.new) (O.count out.new)) (stream (E.written err.new) (E.count err.new))) }
    {
        let _checked = checked;
        let descriptor = int_of(self.slots[0]);
        if descriptor == 1 {
            let on_out = print_slots(&self.memory, out, &self.slots, 1, count as usize);
            return self.wrote(to, on_out, Stream::Out);
        }
        if descriptor == 2 {
            let on_err = print_slots(&self.memory, err, &self.slots, 1, count as usize);
            return self.wrote(to, on_err, Stream::Err);
        }
        self.give(to, u64::MAX)
    }

    /// C11's `sprintf`.
    fn sprintf<E: Sink>(&mut self, checked: bool, to: u32, count: u32, err: &mut E) -> Step
        requires running { IsGoing self.old }
        requires call { StandsAtPrint self.old LibFn.Sprintf checked count to }
        ensures program { self.new.program ≡ self.old.program }
        ensures performed { (input out : StreamState) →
            Performs self.old self.new result (streams input out (stream (E.written err.old) (E.count err.old)))
            (streams input out (stream (E.written err.new) (E.count err.new))) }
    {
        let size = self.print_size(1, checked);
        let done = self.store_print(false, size, format_slot(1, checked), count as usize);
        self.stored(to, done, err)
    }

    /// C11's `snprintf`.
    fn snprintf<E: Sink>(&mut self, checked: bool, to: u32, count: u32, err: &mut E) -> Step
        requires running { IsGoing self.old }
        requires call { StandsAtPrint self.old LibFn.Snprintf checked count to }
        ensures program { self.new.program ≡ self.old.program }
        ensures performed { (input out : StreamState) →
            Performs self.old self.new result (streams input out (stream (E.written err.old) (E.count err.old)))
            (streams input out (stream (E.written err.new) (E.count err.new))) }
    {
        let size = self.print_size(2, checked);
        let done = self.store_print(true, size, format_slot(2, checked), count as usize);
        self.stored(to, done, err)
    }

    /// The size of a print's destination, in slot k of a checked form, without a limit where the call is not checked.
    fn print_size(&self, k: usize, checked: bool) -> u64
        requires { k < 64 }
        ensures { result ≡ print_size k checked self.now.core }
    {
        if checked { self.slot(k) } else { u64::MAX }
    }

    /// Stores at the address in the first slot what the format in a slot prints of the slots behind it, up to the count; where it is
    /// bounded, at most as many bytes as the second slot says.
    fn store_print(
        &mut self,
        bounded: bool,
        size: u64,
        format: usize,
        count: usize,
    ) -> Result<u64, HostStop>
        requires some { format < count }
        requires few { count ≤ 64 }
        ensures state { self.new ≡ record self.old { core = record self.old.core { memory = self.new.core.memory } } }
        ensures slots { length self.old.core.slots ≡ 64 }
        ensures snprintf { bounded ≡ true → let core = self.old.core in
            StoresBounded size format count result core.slots core.memory self.new.core.memory }
        ensures sprintf { bounded ≡ false → let core = self.old.core in
            StoresWhole size format count result core.slots core.memory self.new.core.memory }
    {
        store_slots(&mut self.memory, &self.slots, bounded, size, format, count)
    }
}

/// The slot of a print's format, which stands behind the size of a checked form in slot k.
fn format_slot(k: usize, checked: bool) -> usize
    requires { k < 64 }
    ensures { result ≡ k + cond checked 1 0 }
{
    if checked { k + 1 } else { k }
}

/// Stores what the format in an argument slot prints of the slots behind it, up to the count.
fn store_slots(
    memory: &mut [u8],
    slots: &[u64; 64],
    bounded: bool,
    size: u64,
    format: usize,
    count: usize,
) -> Result<u64, HostStop>
    requires memory { length memory.old ≡ memory_size }
    requires some { format < count }
    requires few { count ≤ 64 }
    ensures snprintf { bounded ≡ true → StoresBounded size format count result slots.now memory.old memory.new }
    ensures sprintf { bounded ≡ false → StoresWhole size format count result slots.now memory.old memory.new }
{
    print_mem(
        memory,
        slots[0],
        slots[1],
        size,
        slots[format],
        &slots[format + 1..count],
        bounded,
    )
}

/// Writes on a sink what the format in an argument slot prints of the slots behind it, up to the count.
fn print_slots<S: Sink>(
    memory: &[u8],
    sink: &mut S,
    slots: &[u64; 64],
    format: usize,
    count: usize,
) -> Result<u64, HostStop>
    requires memory { length memory.now ≡ memory_size }
    requires some { format < count }
    requires few { count ≤ 64 }
    ensures printf { let args = slice_range slots.now (format + 1) count in
        let operands = slice_index slots.now format ∷ args in
        Writes operands (run (on_bytes operands) (prints.printf (length args)) memory.now quiet) result
        (stream (S.written sink.old) (S.count sink.old)) (stream (S.written sink.new) (S.count sink.new)) }
    ensures dprintf { (first descriptor : ℕ) → let args = slice_range slots.now (format + 1) count in
        let operands = first ∷ slice_index slots.now format ∷ args in
        Writes operands (run (on_bytes operands) (prints.print_on descriptor (length args) 1) memory.now quiet) result
        (stream (S.written sink.old) (S.count sink.old)) (stream (S.written sink.new) (S.count sink.new)) }
    ensures grew { S.count sink.old ≤ S.count sink.new }
{
    print_out(memory, sink, slots[format], &slots[format + 1..count])
}
