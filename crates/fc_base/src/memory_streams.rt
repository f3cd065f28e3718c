//! A source and a sink in memory, which fail where they are told to.

ghost use Rattle.std.specs.Prelude.{◌≡◌, ◌<◌, ◌≤◌, ◌↔◌, ◌++◌, [], length, take, drop, min, None, Some, Ok, Err, IfOk, IsErr, OnOk, OnErr};
ghost use Rattle.fc_base.specs.Outside.{Takes, IsAtEnd, Appends, AppendsFront, Counts, Rose};
ghost use Rattle.fc_base.specs.MemoryStreams.{available_in, after_taking, after_fault, after_write};

use crate::faults::{Failed, NoMemory};
use crate::outside::{Sink, Source};
use std::alloc::Global;
use std::marker::Model;

/// A source that gives the bytes of a list, and may fail at a place of it.
#[derive(Debug, Drop)]
pub struct MemSource {
    bytes: Vec<u8>,
    taken: usize,
    fails_at: Option<usize>,
    faults: u64,
}

impl Model for MemSource {
    ghost use Rattle.std.specs.Prelude.{ℕ, ◌-◌, ◌≤◌, drop, vec_len};
    ghost use Rattle.std.specs.Option.{option_map, ForSome};
    ghost use Rattle.fc_base.specs.MemoryStreams.{SourceState};

    ghost Value = { SourceState };

    ghost view = { λ source. record {
      left = drop source.taken source.bytes.items;
      fails_after = option_map (λ at. at - source.taken) source.fails_at;
      faults = source.faults;
    } };

    ghost invariant = { λ source. (source.taken ≤ vec_len source.bytes)
        × ForSome source.fails_at (λ at. (source.taken ≤ at) × (at ≤ vec_len source.bytes)) };
}

impl MemSource {
    /// Gives the bytes and never fails.
    pub fn new(alloc: Global, bytes: &[u8]) -> Result<MemSource, NoMemory>
        ensures { IfOk result (λ source. source ≡ record { left = bytes.now; fails_after = None; faults = 0 }) }
    {
        Ok(MemSource {
            bytes: Vec::from_slice(alloc, bytes)?,
            taken: 0,
            fails_at: None,
            faults: 0,
        })
    }

    /// Gives the first `at` bytes, and fails each read after them into a buffer that is not empty.
    pub fn failing(alloc: Global, bytes: &[u8], at: u64) -> Result<MemSource, NoMemory>
        requires { at ≤ length bytes.now }
        ensures { IfOk result (λ source. source ≡ record { left = bytes.now; fails_after = Some at; faults = 0 }) }
    {
        Ok(MemSource {
            bytes: Vec::from_slice(alloc, bytes)?,
            taken: 0,
            fails_at: Some(at as usize),
            faults: 0,
        })
    }

    /// How many bytes a read into a long buffer gives.
    fn available(&self) -> usize
        ensures value { result ≡ available_in self.now }
        ensures within { result ≤ length self.now.left }
    {
        match self.fails_at {
            Some(at) => at - self.taken,
            None => self.bytes.len() - self.taken,
        }
    }
}

impl Source for MemSource {
    ghost left = { λ source. Some source.left };

    ghost count = { λ source. source.faults };

    fn read(&mut self, buf: &mut [u8]) -> Result<usize, Failed>
        ensures bound { IfOk result (λ n. n ≤ length buf.new) }
        ensures taken { IfOk result (λ n. Takes (take n buf.new) (Some self.old.left) (Some self.new.left)) }
        ensures end { IfOk result (λ n. n ≡ 0 → 0 < length buf.old → Some self.new.left ≡ Some []) }
        ensures untold { Some self.old.left ≡ None → IsAtEnd (Some self.new.left) }
        ensures none_taken { OnErr result (Some self.new.left ≡ Some self.old.left) }
        ensures failed { OnErr result (Rose self.old.faults self.new.faults) }
        ensures counts { Counts self.old.faults self.new.faults }
        ensures empty { length buf.old ≡ 0 → (result ≡ Ok 0) × (self.new ≡ self.old) }

        // It fails exactly where the buffer is not empty and the bytes up to its failure are taken.
        ensures fails { IsErr result ↔ ((0 < length buf.old) × (self.old.fails_after ≡ Some 0)) }
        ensures fault { OnErr result ((self.new ≡ after_fault self.old) × (buf.new ≡ buf.old)) }
        ensures number { IfOk result (λ n. n ≡ min (length buf.old) (available_in self.old)) }
        ensures left { IfOk result (λ n. self.new ≡ after_taking self.old n) }
        ensures stored { IfOk result (λ n. buf.new ≡ take n self.old.left ++ drop n buf.old) }
    {
        let available = self.available();
        if available == 0 && self.fails_at.is_some() && !buf.is_empty() {
            self.faults = self.faults.saturating_add(1);
            return Err(Failed);
        }
        let n = buf.len().min(available);
        let rest = &self.bytes[self.taken..];
        buf[..n].copy_from_slice(&rest[..n]);
        self.taken += n;
        Ok(n)
    }

    fn faults(&self) -> u64 {
        self.faults
    }
}

/// A sink that keeps what is written, and has room for a number of bytes.
#[derive(Debug, Drop)]
pub struct MemSink {
    bytes: Vec<u8>,
    room: usize,
    faults: u64,
}

impl Model for MemSink {
    ghost use Rattle.std.specs.Prelude.{◌-◌, ◌≤◌, vec_len, vec_capacity};
    ghost use Rattle.fc_base.specs.MemoryStreams.{SinkState};

    ghost Value = { SinkState };

    ghost view = { λ sink. record {
      written = sink.bytes.items;
      room_left = sink.room - vec_len sink.bytes;
      faults = sink.faults;
    } };

    ghost invariant = { λ sink. (vec_len sink.bytes ≤ sink.room) × (sink.room ≤ vec_capacity sink.bytes) };
}

impl MemSink {
    /// Takes the memory for as many bytes as there is to be room for.
    pub fn sized(alloc: Global, room: usize) -> Result<MemSink, NoMemory>
        ensures { IfOk result (λ sink. sink ≡ record { written = []; room_left = room; faults = 0 }) }
    {
        Ok(MemSink {
            bytes: Vec::with_capacity(alloc, room)?,
            room,
            faults: 0,
        })
    }

    /// What was written.
    pub fn bytes(&self) -> &[u8]
        ensures { result.now ≡ self.now.written }
    {
        self.bytes.as_slice()
    }
}

impl Sink for MemSink {
    ghost written = { λ sink. Some sink.written };

    ghost count = { λ sink. sink.faults };

    fn write(&mut self, bytes: &[u8]) -> Result<(), Failed>
        ensures appended { OnOk result (Appends bytes.now (Some self.old.written) (Some self.new.written)) }
        ensures front_appended { OnErr result
            (AppendsFront bytes.now (Some self.old.written) (Some self.new.written)) }
        ensures failed { OnErr result (Rose self.old.faults self.new.faults) }
        ensures counts { Counts self.old.faults self.new.faults }
        ensures empty { bytes.now ≡ [] → (result ≡ Ok tt) × (self.new ≡ self.old) }

        // It fails exactly where the piece passes the room, and appends what there is room for.
        ensures fails { IsErr result ↔ (self.old.room_left < length bytes.now) }
        ensures sink { self.new ≡ after_write self.old bytes.now }
    {
        let room_left = self.room - self.bytes.len();
        let front = &bytes[..bytes.len().min(room_left)];
        self.bytes.extend_from_slice(front).unwrap();
        if bytes.len() > room_left {
            self.faults = self.faults.saturating_add(1);
            return Err(Failed);
        }
        Ok(())
    }

    fn faults(&self) -> u64 {
        self.faults
    }
}
