//! The machine while it runs.

ghost use Rattle.std.specs.Prelude.{◌≡◌, ◌≢◌, ℕ, ◌+◌, ◌≤◌, ◌<◌, None, Some, IfSome, IfOk, true, false, length, replicate};
ghost use Rattle.std.specs.Option.{option_map};
ghost use Rattle.fc_base.specs.declared.levels.End.{End};
ghost use Rattle.run_meaning.specs.Objects.{Streams, StreamState, stream, streams, Failed, NoneFell};
ghost use Rattle.run_meaning.specs.declared.streams.Stream.{Stream};
ghost use Rattle.bm_image.specs.Images.{plain_image, IsImage, function_at, bounds_of, host_takes, fits};
ghost use Rattle.c_library.specs.declared.functions.LibFn.{LibFn};
ghost use Rattle.byte_machine.specs.State.{after, register, slot_value, giving, going_on, going_to, is_full, frame_of, entering, result_register, size_of, arguments};
ghost use Rattle.library_meaning.specs.declared.stops.HostStop.{HostStop};
ghost use Rattle.byte_machine.specs.Calls.{waits};
ghost use Rattle.library_meaning.specs.Memory.{are_valid, put, bytes_at};
ghost use Rattle.byte_machine.specs.Opening.{program_of, first_core, first_end};
ghost use Rattle.run_meaning.specs.Worlds.{ArgumentsFit, World};
ghost use Rattle.byte_machine.specs.Machines.{Loaded, fault_of, Advances, FailsAfter};
ghost use Rattle.byte_machine.specs.Performing.{IsGoing, StandsAt, StandsAtCall, Names, GoesOn, Lands, stopped_with, Performs, Enters, resuming, Did, Halts, HasStored, memory_row, is_plain, acts};
ghost use Rattle.byte_machine.specs.Straight.{leaves_call};

mod heap_calls;
mod print_calls;
mod stream_calls;

use crate::opening::{open_memory, open_stop, open_windows};
use crate::rows::{acts, is_plain, on_memory};
use crate::stack::{STACK_FRAMES, STACK_START, STACK_WEIGHTS, least_weight};
use crate::straight::{Functions, Next};
use crate::windows::Windows;
use bm_heap::Heap;
use bm_image::{FnRec, Image};
use bm_isa::Instr;
use c_library::{LibFn, host_call};
use fc_base::{End, NoMemory, Sink, Source, Words};
use host_bytes::{copy, fill};
use library_meaning::HostStop;
use std::alloc::Global;
use std::marker::Model;

/// Why a machine stopped: at an end of the run, after the instructions it was given, or at a fault of an object.
#[derive(Clone, Copy)]
pub enum Stop {
    Ended(End),
    OutOfSteps,
    InputFault,
    OutFault,
    ErrFault,
}

/// Whether a machine goes on behind an instruction.
#[derive(Clone, Copy)]
pub enum Step {
    Going,
    Stopped(Stop),
}

/// glibc's text of a checked call that overflows.
const OVERFLOW_LINE: &[u8; 45] = b"*** buffer overflow detected ***: terminated\n";

/// Where the data section begins.
pub const DATA_START: u64 = 1_048_576;

/// A machine that was opened on an image. It takes no memory.
#[derive(Drop)]
pub struct Machine {
    functions: Vec<FnRec>,
    code: Vec<Instr>,
    memory: Vec<u8>,
    windows: Windows,
    /// What the weights of the live calls sum to, and the least weight of a function.
    weights: u32,
    least: u32,
    slots: [u64; 64],
    heap: Heap,
    stopped: Option<Stop>,
}

impl Model for Machine {
    ghost use Rattle.byte_machine.specs.Machines.{Loaded};

    ghost Value = { Loaded };

    ghost use Rattle.byte_machine.specs.View.{loaded_of, IsRunnable};

    ghost view = { loaded_of };

    ghost invariant = { IsRunnable };
}

impl Machine {
    /// Opens a machine on the image. All memory of a run is taken here.
    pub fn open(alloc: Global, image: &Image, args: &Words) -> Result<Machine, NoMemory>
        requires image { IsImage (plain_image image.now) }
        requires arguments { ArgumentsFit args.now }
        ensures program { IfOk result (λ machine. machine.program ≡ program_of (plain_image image.now)) }
        ensures core { IfOk result (λ machine. machine.core ≡ first_core (plain_image image.now) args.now) }
        ensures stop { IfOk result (λ machine. machine.stop
            ≡ option_map (λ end. Stop.Ended end) (first_end (function_at (plain_image image.now).functions image.now.entry))) }
    {
        let entry = image.functions[image.entry as usize];
        let functions = Vec::from_slice(alloc, &image.functions)?;
        let code = Vec::from_slice(alloc, &image.code)?;
        let heap = Heap::new(alloc)?;
        let memory = open_memory(alloc, image, args)?;
        let least = least_weight(&image.functions);
        let windows = open_windows(alloc, image, args, least)?;
        Ok(Machine {
            functions,
            code,
            memory,
            windows,
            weights: entry.weight,
            least,
            slots: [0; 64],
            heap,
            stopped: open_stop(&entry),
        })
    }

    /// One instruction. A stopped machine answers its stop again and touches nothing.
    pub fn step<I: Source, O: Sink, E: Sink>(
        &mut self,
        input: &mut I,
        out: &mut O,
        err: &mut E,
    ) -> Step
        ensures again { IfSome self.old.stop (λ stop. (result ≡ Step.Stopped stop) × (self.new ≡ self.old)
            × (input.new ≡ input.old) × (out.new ≡ out.old) × (err.new ≡ err.old)) }
        ensures program { self.new.program ≡ self.old.program }
        ensures going { let before = streams (stream (I.left input.old) (I.count input.old))
            (stream (O.written out.old) (O.count out.old)) (stream (E.written err.old) (E.count err.old)) in
            let after = streams (stream (I.left input.new) (I.count input.new))
            (stream (O.written out.new) (O.count out.new)) (stream (E.written err.new) (E.count err.new)) in
            self.old.stop ≡ None → result ≡ Step.Going → (self.new.core.stopped ≡ None) × (self.new.stop ≡ None)
            × Advances 1 self.old.program self.old.core self.new.core before after }
        ensures ended { let before = streams (stream (I.left input.old) (I.count input.old))
            (stream (O.written out.old) (O.count out.old)) (stream (E.written err.old) (E.count err.old)) in
            let after = streams (stream (I.left input.new) (I.count input.new))
            (stream (O.written out.new) (O.count out.new)) (stream (E.written err.new) (E.count err.new)) in
            (end : End) → self.old.stop ≡ None → result ≡ Step.Stopped (Stop.Ended end) →
            (self.new.core.stopped ≡ Some end) × (self.new.stop ≡ Some (Stop.Ended end))
            × Advances 1 self.old.program self.old.core self.new.core before after }
        ensures no_bound { self.old.stop ≡ None → result ≢ Step.Stopped Stop.OutOfSteps }
        ensures failed { let before = streams (stream (I.left input.old) (I.count input.old))
            (stream (O.written out.old) (O.count out.old)) (stream (E.written err.old) (E.count err.old)) in
            let after = streams (stream (I.left input.new) (I.count input.new))
            (stream (O.written out.new) (O.count out.new)) (stream (E.written err.new) (E.count err.new)) in
            (which : Stream) → self.old.stop ≡ None → result ≡ Step.Stopped (fault_of which) →
            (self.new.stop ≡ Some (fault_of which)) × Failed which before after
            × FailsAfter which 0 self.old.program self.old.core before after }
        ensures counts { let before = streams (stream (I.left input.old) (I.count input.old))
            (stream (O.written out.old) (O.count out.old)) (stream (E.written err.old) (E.count err.old)) in
            let after = streams (stream (I.left input.new) (I.count input.new))
            (stream (O.written out.new) (O.count out.new)) (stream (E.written err.new) (E.count err.new)) in
            NoneFell before after }
    {
        match self.stopped {
            Some(stop) => Step::Stopped(stop),
            None => self.advance(input, out, err),
        }
    }

    /// At most `budget` instructions, up to a stop.
    pub fn run<I: Source, O: Sink, E: Sink>(
        &mut self,
        input: &mut I,
        out: &mut O,
        err: &mut E,
        budget: u64,
    ) -> Stop
        ensures again { IfSome self.old.stop (λ stop. (result ≡ stop) × (self.new ≡ self.old)
            × (input.new ≡ input.old) × (out.new ≡ out.old) × (err.new ≡ err.old)) }
        ensures program { self.new.program ≡ self.old.program }
        ensures ended { let before = streams (stream (I.left input.old) (I.count input.old))
            (stream (O.written out.old) (O.count out.old)) (stream (E.written err.old) (E.count err.old)) in
            let after = streams (stream (I.left input.new) (I.count input.new))
            (stream (O.written out.new) (O.count out.new)) (stream (E.written err.new) (E.count err.new)) in
            (end : End) → self.old.stop ≡ None → result ≡ Stop.Ended end →
            (self.new.core.stopped ≡ Some end) × (self.new.stop ≡ Some (Stop.Ended end))
            × ((m : ℕ) × (m ≤ budget) × Advances m self.old.program self.old.core self.new.core before after) }
        ensures out_of_steps { let before = streams (stream (I.left input.old) (I.count input.old))
            (stream (O.written out.old) (O.count out.old)) (stream (E.written err.old) (E.count err.old)) in
            let after = streams (stream (I.left input.new) (I.count input.new))
            (stream (O.written out.new) (O.count out.new)) (stream (E.written err.new) (E.count err.new)) in
            self.old.stop ≡ None → result ≡ Stop.OutOfSteps → (self.new.core.stopped ≡ None) × (self.new.stop ≡ None)
            × Advances budget self.old.program self.old.core self.new.core before after }
        ensures failed { let before = streams (stream (I.left input.old) (I.count input.old))
            (stream (O.written out.old) (O.count out.old)) (stream (E.written err.old) (E.count err.old)) in
            let after = streams (stream (I.left input.new) (I.count input.new))
            (stream (O.written out.new) (O.count out.new)) (stream (E.written err.new) (E.count err.new)) in
            (which : Stream) → self.old.stop ≡ None → result ≡ fault_of which →
            (self.new.stop ≡ Some (fault_of which)) × Failed which before after
            × ((m : ℕ) × (m < budget) × FailsAfter which m self.old.program self.old.core before after) }
        ensures counts { let before = streams (stream (I.left input.old) (I.count input.old))
            (stream (O.written out.old) (O.count out.old)) (stream (E.written err.old) (E.count err.old)) in
            let after = streams (stream (I.left input.new) (I.count input.new))
            (stream (O.written out.new) (O.count out.new)) (stream (E.written err.new) (E.count err.new)) in
            NoneFell before after }
    {
        if let Some(stop) = self.stopped {
            return stop;
        }
        let mut done = 0;
        while done < budget {
            done += self.go_straight(budget - done);
            if done == budget {
                return Stop::OutOfSteps;
            }
            match self.advance(input, out, err) {
                Step::Going => done += 1,
                Step::Stopped(stop) => return stop,
            }
        }
        Stop::OutOfSteps
    }
}

impl Machine {
    /// Carries out the instruction that the machine stands at.
    fn advance<I: Source, O: Sink, E: Sink>(
        &mut self,
        input: &mut I,
        out: &mut O,
        err: &mut E,
    ) -> Step
        requires { IsGoing self.old }
        ensures program { self.new.program ≡ self.old.program }
        ensures performed { let before = streams (stream (I.left input.old) (I.count input.old))
            (stream (O.written out.old) (O.count out.old)) (stream (E.written err.old) (E.count err.old)) in
            let after = streams (stream (I.left input.new) (I.count input.new))
            (stream (O.written out.new) (O.count out.new)) (stream (E.written err.new) (E.count err.new)) in
            Performs self.old self.new result before after }
    {
        let i = self.instruction();
        match i {
            Instr::Call { to, function } => self.call(to, function),
            Instr::Return { from } => self.leave(from),
            Instr::Host { to, call, count } => self.host(to, call, count, input, out, err),
            _ => self.stay(i),
        }
    }

    /// Carries out an instruction that stays in the running call.
    fn stay(&mut self, i: Instr) -> Step
        requires running { IsGoing self.old }
        requires instruction { StandsAt self.old i }
        requires stays { leaves_call i ≡ false }
        ensures program { self.new.program ≡ self.old.program }
        ensures performed { (all : Streams) → Performs self.old self.new result all all }
    {
        match self.windows.perform(i, &mut self.memory, &mut self.slots) {
            Next::Behind => self.goes_on(),
            Next::To(target) => self.goes_to(target),
            Next::Ends(end) => self.stop(Stop::Ended(end)),
            Next::Other => unreachable!(),
        }
    }

    /// At most `budget` instructions of the running call, up to one that leaves it or ends the run. The answer is how many.
    fn go_straight(&mut self, budget: u64) -> u64
        requires { IsGoing self.old }
        ensures program { self.new.program ≡ self.old.program }
        ensures done { result ≤ budget }
        ensures going { IsGoing self.new }
        ensures stays { (world : World) → after self.old.program result (record { core = self.old.core; world = world })
            ≡ record { core = self.new.core; world = world } }
    {
        let functions = Functions {
            records: &self.functions,
            code: &self.code,
        };
        self.windows
            .go_straight(functions, &mut self.memory, &mut self.slots, budget)
    }

    /// Calls a function, or ends the run where the stack is full.
    fn call(&mut self, to: u32, function: u32) -> Step
        requires running { IsGoing self.old }
        requires instruction { StandsAt self.old (Instr.Call to function) }
        requires callee { function < length self.old.program.functions }
        ensures program { self.new.program ≡ self.old.program }
        ensures performed { (all : Streams) → Performs self.old self.new result all all }
    {
        let _to = to;
        if self.is_full(function) {
            return self.stop(Stop::Ended(End::StackFull));
        }
        self.enter(function)
    }

    /// Whether a call of the function would pass the stack's frames or weights.
    fn is_full(&self, function: u32) -> bool
        requires { function < length self.now.program.functions }
        ensures { result ≡ is_full self.now.program (function_at self.now.program.functions function) self.now.core }
    {
        let callee = self.functions[function as usize];
        let end = self.frame_end() + callee.frame;
        end > STACK_START + STACK_FRAMES || self.weights + callee.weight > STACK_WEIGHTS
    }

    /// The address behind the running call's frame.
    fn frame_end(&self) -> u32
        ensures { result ≡ self.now.core.running.base + frame_of self.now.program self.now.core.running }
    {
        self.windows.base() + self.functions[self.windows.function() as usize].frame
    }

    /// The running call waits for one of the function.
    fn enter(&mut self, function: u32) -> Step
        requires { Enters self.old function }
        ensures state { self.new ≡ record self.old {
          core = entering self.old.program function (function_at self.old.program.functions function) self.old.core;
        } }
        ensures step { result ≡ Step.Going }
    {
        let callee = self.functions[function as usize];
        let base = self.frame_end();
        let given = &self.slots[..callee.params as usize];
        self.windows
            .enter(function, callee.first, base, given, callee.regs);
        self.weights += callee.weight;
        Step::Going
    }

    /// Ends the running call. The end of the first one is the run's.
    fn leave(&mut self, from: u32) -> Step
        requires running { IsGoing self.old }
        requires instruction { StandsAt self.old (Instr.Return from) }
        ensures program { self.new.program ≡ self.old.program }
        ensures performed { (all : Streams) → Performs self.old self.new result all all }
    {
        let value = self.register(from);
        if self.resume(value) {
            Step::Going
        } else {
            self.stop(Stop::Ended(End::Exit((value % 256) as u8)))
        }
    }

    /// The caller goes on with the number that its call gives. Nothing where the running call is the first one.
    fn resume(&mut self, value: u64) -> bool
        ensures state { self.new ≡ record self.old { core = resuming self.old.program value self.old.core.callers self.old.core } }
        ensures waited { result ≡ waits self.old.core.callers }
    {
        let weight = self.functions[self.windows.function() as usize].weight;
        if !self.windows.leave() {
            return false;
        }
        self.weights -= weight;
        let at = self.windows.at();
        let to = result_register(&self.code[at as usize]);
        self.windows.set(to, value);
        self.windows.stand_at(at + 1);
        true
    }

    /// Carries out a library call.
    fn host<I: Source, O: Sink, E: Sink>(
        &mut self,
        to: u32,
        call: u32,
        count: u32,
        input: &mut I,
        out: &mut O,
        err: &mut E,
    ) -> Step
        requires running { IsGoing self.old }
        requires instruction { StandsAt self.old (Instr.Host to call count) }
        requires takes { host_takes call count ≡ true }
        ensures program { self.new.program ≡ self.old.program }
        ensures performed { let before = streams (stream (I.left input.old) (I.count input.old))
            (stream (O.written out.old) (O.count out.old)) (stream (E.written err.old) (E.count err.old)) in
            let after = streams (stream (I.left input.new) (I.count input.new))
            (stream (O.written out.new) (O.count out.new)) (stream (E.written err.new) (E.count err.new)) in
            Performs self.old self.new result before after }
    {
        match host_call(call) {
            Some((f, checked)) => {
                if is_plain(f) {
                    self.move_bytes(f, checked, to, err)
                } else if acts(f) {
                    self.act(f, checked, to)
                } else if f.is_variadic() {
                    self.print(f, checked, to, count, out, err)
                } else {
                    self.use_streams(f, checked, to, input, out, err)
                }
            }
            None => unreachable!(),
        }
    }

    /// A call that ends the run or acts on the heap.
    fn act(&mut self, f: LibFn, checked: bool, to: u32) -> Step
        requires running { IsGoing self.old }
        requires call { StandsAtCall self.old f checked to }
        requires acts { acts f ≡ true }
        ensures program { self.new.program ≡ self.old.program }
        ensures performed { (all : Streams) → Performs self.old self.new result all all }
    {
        match f {
            LibFn::Exit => self.exit(checked, to),
            LibFn::Abort => self.abort(checked, to),
            LibFn::Malloc => self.malloc(checked, to),
            LibFn::Calloc => self.calloc(checked, to),
            LibFn::Realloc => self.realloc(checked, to),
            LibFn::Free => self.free(checked, to),
            _ => unreachable!(),
        }
    }

    /// C11's `exit`: the run ends with the low byte of the status.
    fn exit(&mut self, checked: bool, to: u32) -> Step
        requires running { IsGoing self.old }
        requires call { StandsAtCall self.old LibFn.Exit checked to }
        ensures program { self.new.program ≡ self.old.program }
        ensures performed { (all : Streams) → Performs self.old self.new result all all }
    {
        let _to = to;
        let status = (self.slot(0) % 256) as u8;
        self.stop(Stop::Ended(End::Exit(status)))
    }

    /// C11's `abort`.
    fn abort(&mut self, checked: bool, to: u32) -> Step
        requires running { IsGoing self.old }
        requires call { StandsAtCall self.old LibFn.Abort checked to }
        ensures program { self.new.program ≡ self.old.program }
        ensures performed { (all : Streams) → Performs self.old self.new result all all }
    {
        let _to = to;
        self.stop(Stop::Ended(End::Abort))
    }

    /// A call that moves bytes in memory, by its row.
    fn move_bytes<E: Sink>(&mut self, f: LibFn, checked: bool, to: u32, err: &mut E) -> Step
        requires running { IsGoing self.old }
        requires call { StandsAtCall self.old f checked to }
        requires plain { is_plain f ≡ true }
        ensures program { self.new.program ≡ self.old.program }
        ensures performed { (input out : StreamState) →
            let before = streams input out (stream (E.written err.old) (E.count err.old)) in
            let after = streams input out (stream (E.written err.new) (E.count err.new)) in
            Performs self.old self.new result before after }
    {
        let size = self.size_of(f, checked);
        let done = self.on_memory(f, size);
        self.stored(to, done, err)
    }

    /// Goes on behind a call that has stored bytes, or stops where it stopped.
    fn stored<E: Sink>(&mut self, to: u32, done: Result<u64, HostStop>, err: &mut E) -> Step
        requires { (before : Loaded) × HasStored before to done self.old }
        ensures program { self.new.program ≡ self.old.program }
        ensures performed { (before : Loaded) (input out : StreamState) → HasStored before to done self.old
            → Performs before self.new result (streams input out (stream (E.written err.old) (E.count err.old)))
            (streams input out (stream (E.written err.new) (E.count err.new))) }
    {
        match done {
            Ok(number) => self.give(to, number),
            Err(stop) => self.halt(stop, err),
        }
    }

    /// The size of a call's destination, without a limit where the call is not checked.
    fn size_of(&self, f: LibFn, checked: bool) -> u64
        ensures { result ≡ size_of f checked self.now.core }
    {
        if checked {
            self.slot(f.parameters().len())
        } else {
            u64::MAX
        }
    }

    /// Carries out a call on the bytes of memory.
    fn on_memory(&mut self, f: LibFn, size: u64) -> Result<u64, HostStop>
        requires { is_plain f ≡ true }
        ensures state { self.new ≡ record self.old { core = record self.old.core { memory = self.new.core.memory } } }
        ensures did { Did (memory_row f size) (arguments f self.old.core) self.old.core.memory self.new.core.memory result }
    {
        on_memory(f, &mut self.memory, &self.slots, size)
    }

    /// A call stops the machine. One that exceeds writes glibc's line.
    fn halt<E: Sink>(&mut self, stop: HostStop, err: &mut E) -> Step
        requires running { IsGoing self.old }
        requires halts { Halts self.old stop }
        ensures program { self.new.program ≡ self.old.program }
        ensures performed { (input out : StreamState) →
            let before = streams input out (stream (E.written err.old) (E.count err.old)) in
            let after = streams input out (stream (E.written err.new) (E.count err.new)) in
            Performs self.old self.new result before after }
    {
        match stop {
            HostStop::Overflow => match err.write(OVERFLOW_LINE) {
                Ok(()) => self.stop(Stop::Ended(End::Overflow)),
                Err(_) => self.stop(Stop::ErrFault),
            },
            HostStop::BadAddress => self.stop(Stop::Ended(End::BadAddress)),
            HostStop::BadFormat => self.stop(Stop::Ended(End::BadFormat)),
            HostStop::InputFault => Step::Going,
            HostStop::SinkFault => Step::Going,
        }
    }

    /// The instruction that the machine stands at.
    fn instruction(&self) -> Instr
        ensures stands { StandsAt self.now result }
        ensures fits { fits (bounds_of self.now.program.functions (length self.now.program.code) self.now.core.running.function) result ≡ true }
    {
        self.code[self.windows.at() as usize]
    }

    /// A register of the running call.
    fn register(&self, r: u32) -> u64
        requires { Names self.now r }
        ensures { result ≡ register self.now.core r }
    {
        self.windows.register(r)
    }

    /// An argument slot.
    fn slot(&self, k: usize) -> u64
        requires { k < 64 }
        ensures { result ≡ slot_value self.now.core k }
    {
        self.slots[k]
    }

    /// Copies that many bytes from the one address to the other.
    fn copy_bytes(&mut self, to: u64, from: u64, count: u64)
        requires to { are_valid to count ≡ true }
        requires from { are_valid from count ≡ true }
        ensures { self.new ≡ record self.old {
          core = record self.old.core {
            memory = put to (bytes_at self.old.core.memory from count) self.old.core.memory;
          };
        } }
    {
        copy(&mut self.memory, to, from, count);
    }

    /// Stores the byte that many times from the address on.
    fn fill(&mut self, address: u64, byte: u8, count: u64)
        requires { are_valid address count ≡ true }
        ensures { self.new ≡ record self.old { core = record self.old.core { memory = put address (replicate count byte) self.old.core.memory } } }
    {
        fill(&mut self.memory, address, byte, count);
    }

    /// Ends the run, or stops it at a fault.
    fn stop(&mut self, stop: Stop) -> Step
        ensures stopped { self.new ≡ stopped_with stop self.old }
        ensures step { result ≡ Step.Stopped stop }
    {
        self.stopped = Some(stop);
        Step::Stopped(stop)
    }

    /// Goes on behind the instruction.
    fn goes_on(&mut self) -> Step
        requires { GoesOn self.old }
        ensures state { self.new ≡ record self.old { core = going_on self.old.core } }
        ensures step { result ≡ Step.Going }
    {
        self.windows.stand_at(self.windows.at() + 1);
        Step::Going
    }

    /// Goes on at another instruction of the function.
    fn goes_to(&mut self, target: u32) -> Step
        requires { Lands self.old target }
        ensures state { self.new ≡ record self.old { core = going_to target self.old.core } }
        ensures step { result ≡ Step.Going }
    {
        self.windows.stand_at(target);
        Step::Going
    }

    /// Goes on behind the instruction, with a number in a register.
    fn give(&mut self, to: u32, number: u64) -> Step
        requires on { GoesOn self.old }
        requires register { Names self.old to }
        ensures state { self.new ≡ record self.old { core = giving to number self.old.core } }
        ensures step { result ≡ Step.Going }
    {
        self.windows.set(to, number);
        self.goes_on()
    }
}

/// The register that takes the result of a call, off the instruction that made it.
fn result_register(instruction: &Instr) -> u32
    ensures { result ≡ result_register (Some instruction.now) }
{
    match *instruction {
        Instr::Call { to, .. } => to,
        _ => 0,
    }
}
