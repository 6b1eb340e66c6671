//! Sources and sinks in memory, with limits on a call and failures at listed calls.

ghost use Rattle.std.specs.Prelude.{ℕ, ◌<◌, ◌≤◌, ◌≡◌, ◌==◌, true, [], ◌++◌, length, take, drop, min, not, is_ok, IfOk, Some};
ghost use Rattle.std.specs.Io.KnownBytes.{ReadConsumes, WriteAppends};
ghost use Rattle.std.specs.Io.{ReadsAtMost, WritesAtMost};
ghost use Rattle.std.specs.List.{list_any};
ghost use Rattle.wire_io.specs.Causes.{HasCause, IsCalm, counted};
ghost use Rattle.wire_io.specs.Moves.{KeepsRoom, TakesSome};
ghost use Rattle.wire_io.specs.Memory.{after_read, after_write, holding, is_listed, is_steady, no_limit, promised_room, read_count, read_fails, supply, write_count, write_fails};

use crate::outside::{Failed, Sink, Source};
use std::alloc::{AllocError, Global};
use std::marker::Model;

/// A source over bytes in memory.
#[derive(Drop)]
pub struct MemorySource {
    bytes: Vec<u8>,
    at: usize,
    most: usize,
    failing: Vec<u64>,
    calls: u64,
    faults: u64,
}

impl Model for MemorySource {
    ghost use Rattle.std.specs.Prelude.{◌≤◌, ◌<◌, drop, length};
    ghost use Rattle.wire_io.specs.Memory.{Supply};

    ghost Value = { Supply };

    ghost view = { λ s. record { left = drop s.at s.bytes.items; most = s.most; failing = s.failing.items; calls = s.calls; faults = s.faults } };

    ghost invariant = { λ s. (s.at ≤ length s.bytes.items) × (0 < s.most) };
}

impl MemorySource {
    /// A source whose reads give all that the buffer holds, and never fail.
    pub fn steady(bytes: Vec<u8>) -> MemorySource
        ensures { result ≡ supply bytes.items no_limit [] }
    {
        let failing = Vec::new(*bytes.allocator());
        MemorySource::new(bytes, usize::MAX, failing)
    }

    /// A source whose reads move `most` bytes at most. Those whose numbers, counted from 0, stand in `failing` fail.
    pub fn new(bytes: Vec<u8>, most: usize, failing: Vec<u64>) -> MemorySource
        requires { 0 < most }
        ensures { result ≡ supply bytes.items most failing.items }
    {
        MemorySource {
            bytes,
            at: 0,
            most,
            failing,
            calls: 0,
            faults: 0,
        }
    }
}

impl Source for MemorySource {
    ghost left = { λ s. Some s.left };

    ghost faults = { λ s. s.faults };

    ghost steady = { λ s. is_steady s.failing };

    fn read(&mut self, buf: &mut [u8]) -> Result<usize, Failed>
        ensures bound { ReadsAtMost result buf.new }
        ensures bytes { ReadConsumes (Some self.old.left) (Some self.new.left) result buf.new }
        ensures cause { HasCause self.old.faults self.new.faults result }
        ensures calm { is_steady self.old.failing ≡ true → IsCalm self.old.faults self.new.faults result }
        ensures steady { is_steady self.old.failing ≡ true → is_steady self.new.failing ≡ true }

        // Exactly what a call does.
        ensures fails { is_ok result ≡ not (read_fails self.old) }
        ensures count { IfOk result (λ count. count ≡ read_count self.old (length buf.old)) }
        ensures after { self.new ≡ after_read self.old (length buf.old) }
    {
        let fails = holds(&self.failing, self.calls);
        self.calls = self.calls.saturating_add(1);
        if fails {
            self.faults = self.faults.saturating_add(1);
            return Err(Failed);
        }
        let count = copy_front(&self.bytes[self.at..], buf, self.most);
        self.at += count;
        Ok(count)
    }
}

/// A sink into memory, with room that was taken when it was made.
#[derive(Drop)]
pub struct MemorySink {
    bytes: Vec<u8>,
    room: usize,
    most: usize,
    failing: Vec<u64>,
    calls: u64,
    faults: u64,
}

impl Model for MemorySink {
    ghost use Rattle.std.specs.Prelude.{◌≤◌, ◌<◌, ◌-◌, length, vec_capacity};
    ghost use Rattle.wire_io.specs.Memory.{Holding};

    ghost Value = { Holding };

    ghost view = { λ s. record { held = s.bytes.items; room = s.room - length s.bytes.items; most = s.most; failing = s.failing.items; calls = s.calls; faults = s.faults } };

    ghost invariant = { λ s. (length s.bytes.items ≤ s.room) × (s.room ≤ vec_capacity s.bytes) × (0 < s.most) };
}

impl MemorySink {
    /// An empty sink that takes whatever its room holds, and fails only where none is left.
    pub fn steady(alloc: Global, room: usize) -> Result<MemorySink, AllocError>
        ensures { IfOk result (λ sink. sink ≡ holding room no_limit []) }
    {
        MemorySink::new(alloc, room, usize::MAX, Vec::new(alloc))
    }

    /// An empty sink whose writes take `most` bytes at most. Those whose numbers, counted from 0, stand in `failing` fail too.
    pub fn new(
        alloc: Global,
        room: usize,
        most: usize,
        failing: Vec<u64>,
    ) -> Result<MemorySink, AllocError>
        requires { 0 < most }
        ensures { IfOk result (λ sink. sink ≡ holding room most failing.items) }
    {
        let bytes = Vec::with_capacity(alloc, room)?;
        Ok(MemorySink {
            bytes,
            room,
            most,
            failing,
            calls: 0,
            faults: 0,
        })
    }

    /// The bytes that it holds.
    pub fn bytes(&self) -> &[u8]
        ensures { result.now ≡ self.now.held }
    {
        self.bytes.as_slice()
    }
}

impl Sink for MemorySink {
    ghost held = { λ s. Some s.held };

    ghost faults = { λ s. s.faults };

    ghost room = { promised_room };

    fn write(&mut self, piece: &[u8]) -> Result<usize, Failed>
        ensures bound { WritesAtMost result piece.now }
        ensures some { TakesSome result piece.now }
        ensures bytes { WriteAppends (Some self.old.held) (Some self.new.held) result piece.now }
        ensures cause { HasCause self.old.faults self.new.faults result }
        ensures calm { 0 < promised_room self.old → IsCalm self.old.faults self.new.faults result }
        ensures room { KeepsRoom (promised_room self.old) (promised_room self.new) result }

        // Exactly what a call does.
        ensures fails { is_ok result ≡ not (write_fails self.old piece.now) }
        ensures count { IfOk result (λ count. count ≡ write_count self.old piece.now) }
        ensures after { self.new ≡ after_write self.old piece.now }
    {
        let left = self.room - self.bytes.len();
        let fails = holds(&self.failing, self.calls) || (!piece.is_empty() && left == 0);
        self.calls = self.calls.saturating_add(1);
        if fails {
            self.faults = self.faults.saturating_add(1);
            return Err(Failed);
        }
        let count = self.most.min(piece.len()).min(left);
        match self.bytes.extend_from_slice(&piece[..count]) {
            Ok(()) => Ok(count),
            Err(_) => unreachable!(),
        }
    }
}

fn holds(listed: &[u64], number: u64) -> bool
    ensures { result ≡ is_listed number listed.now }
{
    listed.iter().any(|other| *other == number)
}

/// Copies as much as both hold and `most` allows, and gives how many bytes that is.
fn copy_front(from: &[u8], to: &mut [u8], most: usize) -> usize
    ensures count { result ≡ min (min most (length to.old)) (length from.now) }
    ensures same { from.now ≡ take result to.new ++ drop result from.now }
{
    let count = most.min(to.len()).min(from.len());
    to[..count].copy_from_slice(&from[..count]);
    count
}
