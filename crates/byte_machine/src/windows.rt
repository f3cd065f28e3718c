//! The registers of the calls.

ghost use Rattle.std.specs.Prelude.{◌≡◌, ℕ, ◌+◌, ◌<◌, ◌≤◌, ◌∷◌, [], length, IfOk, slice_index, true};
ghost use Rattle.byte_machine.specs.State.{Window, stack_weights};
ghost use Rattle.byte_machine.specs.Calls.{Stack, registers_in, registers_from, entered, left, has_set, stands_at, waits};
ghost use Rattle.bm_image.specs.declared.images.Bounds.{Bounds};
ghost use Rattle.bm_image.specs.Images.{fits, IsCode};
ghost use Rattle.library_meaning.specs.Memory.{memory_size};
ghost use Rattle.byte_machine.specs.State.{after};
ghost use Rattle.byte_machine.specs.View.{IsCall};
ghost use Rattle.byte_machine.specs.Straight.{Around, running_at, Stays, LeadsTo};

use crate::straight::{Functions, Next, perform, straight};
use bm_isa::Instr;
use fc_base::NoMemory;
use std::alloc::Global;
use std::marker::Model;

/// Where a call stands: its function, its instruction, the address of its frame, and where its registers begin among all.
#[derive(Clone, Copy)]
pub struct Mark {
    pub function: u32,
    pub at: u32,
    pub base: u32,
    pub start: u32,
}

/// The running call and those that wait for it, the oldest first. The registers of all calls stand in one list in their order,
/// so those of the running call are the last ones. Both lists grow in room that was taken before.
#[derive(Drop)]
pub struct Windows {
    registers: Vec<u64>,
    callers: Vec<Mark>,
    running: Mark,
}

impl Model for Windows {
    ghost use Rattle.byte_machine.specs.Calls.{Stack};
    ghost use Rattle.byte_machine.specs.Stack.{stack_of, IsStack};

    ghost Value = { Stack };

    ghost view = { stack_of };

    ghost invariant = { IsStack };
}

impl Windows {
    /// A first call with so many registers, the first of which are given, and room for so many callers. All memory is taken here.
    pub fn open(
        alloc: Global,
        first: Mark,
        given: &[u64],
        count: u32,
        room: usize,
    ) -> Result<Windows, NoMemory>
        requires start { first.start ≡ 0 }
        requires given { length given.now ≤ count }
        requires count { count ≤ stack_weights }
        ensures { IfOk result (λ windows. windows ≡ record {
          running = record { function = first.function; at = first.at; base = first.base; registers = registers_from given.now count };
          callers = [];
          room = room;
        }) }
    {
        let callers = Vec::with_capacity(alloc, room)?;
        let mut registers = Vec::with_capacity(alloc, most_registers())?;
        registers.extend_from_slice(given)?;
        registers.resize(count as usize, 0)?;
        Ok(Windows {
            registers,
            callers,
            running: first,
        })
    }

    /// The number of the running call's function.
    pub fn function(&self) -> u32
        ensures { result ≡ self.now.running.function }
    {
        self.running.function
    }

    /// The instruction that the running call stands at.
    pub fn at(&self) -> u32
        ensures { result ≡ self.now.running.at }
    {
        self.running.at
    }

    /// The address of the running call's frame.
    pub fn base(&self) -> u32
        ensures { result ≡ self.now.running.base }
    {
        self.running.base
    }

    /// A register of the running call.
    pub fn register(&self, r: u32) -> u64
        requires { r < length self.now.running.registers }
        ensures { result ≡ slice_index self.now.running.registers r }
    {
        self.registers[self.running.start as usize + r as usize]
    }

    /// A register of the running call becomes the number.
    pub fn set(&mut self, r: u32, number: u64)
        requires { r < length self.old.running.registers }
        ensures { self.new ≡ has_set r number self.old }
    {
        self.registers[self.running.start as usize + r as usize] = number;
    }

    /// Carries out an instruction of the running call, where it stays in it.
    pub fn perform(&mut self, i: Instr, memory: &mut [u8], slots: &mut [u64; 64]) -> Next
        requires fits { (b : Bounds) × (fits (record b { registers = length self.old.running.registers }) i ≡ true) }
        requires some { 0 < length self.old.running.registers }
        requires size { length memory.old ≡ memory_size }
        ensures stays { (b : Bounds) → fits (record b { registers = length self.old.running.registers }) i ≡ true → Stays b i result }
        ensures leads { LeadsTo i self.old.running.base self.old.running.registers memory.old slots.old result
            self.new.running.registers memory.new slots.new }
        ensures rest { self.new ≡ record self.old { running = record self.old.running { registers = self.new.running.registers } } }
        ensures count { length self.new.running.registers ≡ length self.old.running.registers }
    {
        let start = self.running.start as usize;
        let base = self.running.base;
        perform(i, base, &mut self.registers[start..], memory, slots)
    }

    /// At most `budget` instructions of the running call, up to one that leaves it or ends the run. The answer is how many.
    pub fn go_straight(
        &mut self,
        functions: Functions<'_>,
        memory: &mut [u8],
        slots: &mut [u64; 64],
        budget: u64,
    ) -> u64
        requires code { IsCode functions.records.now functions.code.now }
        requires short { length functions.code.now ≤ 4194304 }
        requires call { IsCall (record { functions = functions.records.now; code = functions.code.now }) self.old.running }
        requires size { length memory.old ≡ memory_size }
        ensures done { result ≤ budget }
        ensures call { IsCall (record { functions = functions.entry.records.now; code = functions.entry.code.now }) self.new.running }
        ensures rest { self.new ≡ record self.old {
          running = record self.old.running { at = self.new.running.at; registers = self.new.running.registers };
        } }
        ensures stays { (a : Around) → after (record { functions = functions.entry.records.now; code = functions.entry.code.now }) result
            (running_at a self.old.running.base self.old.running.at self.old.running.registers memory.old slots.old)
            ≡ running_at a self.old.running.base self.new.running.at self.new.running.registers memory.new slots.new }
    {
        let mark = self.running;
        let start = mark.start as usize;
        let stretch = straight(
            functions,
            mark,
            &mut self.registers[start..],
            memory,
            slots,
            budget,
        );
        self.running.at = stretch.at as u32;
        stretch.done
    }

    /// The running call goes on at another instruction.
    pub fn stand_at(&mut self, at: u32)
        ensures { self.new ≡ stands_at at self.old }
    {
        self.running.at = at;
    }

    /// The running call waits for a call of a function at an instruction, with a frame at the address and so many registers, the
    /// first of which are given.
    pub fn enter(&mut self, function: u32, at: u32, base: u32, given: &[u64], count: u32)
        requires room { length self.old.callers < self.old.room }
        requires registers { registers_in (self.old.running ∷ self.old.callers) + count ≤ stack_weights }
        requires given { length given.now ≤ count }
        ensures { self.new ≡ entered (record { function = function; at = at; base = base; registers = registers_from given.now count }) self.old }
    {
        let start = self.registers.len();
        self.callers.push_reserved(self.running);
        if self.registers.extend_from_slice(given).is_err() {
            unreachable!();
        }
        if self.registers.resize(start + count as usize, 0).is_err() {
            unreachable!();
        }
        self.running = Mark {
            function,
            at,
            base,
            start: start as u32,
        };
    }

    /// The running call is over, and its caller goes on where it stands. The first call has no caller, and stays.
    pub fn leave(&mut self) -> bool
        ensures state { self.new ≡ left self.old.callers self.old }
        ensures waited { result ≡ waits self.old.callers }
    {
        match self.callers.pop() {
            Some(caller) => {
                self.registers.truncate(self.running.start as usize);
                self.running = caller;
                true
            }
            None => false,
        }
    }
}

/// For how many registers there is room: as many as the weights of all calls may sum to.
fn most_registers() -> usize
    ensures { result ≡ stack_weights }
{
    16_777_216
}
