//! A source and a sink in memory, which fail at the calls that are named to them.
ghost use Rattle.std.specs.Prelude.{◌≡◌, ◌≤◌, if◌then◌else◌, ◌<◌, ◌^◌, ◌==◌, ◌||◌, ◌++◌, [], false, true, length, take, drop, min};
ghost use Rattle.std.specs.Prelude.{is_err, IfOk, OnOk, OnErr, Some, nat_lt, ◌&&◌, ◌-◌};
ghost use Rattle.std.specs.Io.{ReadsAtMost, WritesAtMost};
ghost use Rattle.std.specs.Io.KnownBytes.{ReadConsumes, WriteAppends};
ghost use Rattle.eden_io.specs.Causes.{HasCause};
ghost use Rattle.eden_io.specs.Memory.{next_count, fails};
ghost use Rattle.eden_io.specs.Taken.{meets_end};

use crate::{Failed, Sink, Source};
use std::alloc::{AllocError, Global};
use std::marker::Model;

/// Want of memory.
pub type OutOfMemory = AllocError;

/// A source over bytes in memory. It tells what is left.
#[derive(Drop)]
pub struct MemSource {
    bytes: Vec<u8>,
    at: usize,
    ended: bool,
    calls: u64,
    failing: Vec<u32>,
    faults: u64,
}

impl Model for MemSource {
    ghost use Rattle.std.specs.Prelude.{◌≤◌, length, drop};
    ghost use Rattle.eden_io.specs.Memory.{SourceState};

    ghost Value = { SourceState };

    ghost view = { λ s. record {
      left = drop s.at s.bytes.items;
      ended = s.ended;
      calls = s.calls;
      failing = s.failing.items;
      faults = s.faults;
    } };

    ghost invariant = { λ s. s.at ≤ length s.bytes.items };
}

// The count that follows. It stands still at the end of its type.
fn raised(count: u64) -> u64
    ensures { result ≡ next_count count }
{
    count.saturating_add(1)
}

// Whether the call of this number is one of those that fail.
fn is_named(failing: &[u32], call: u64) -> bool
    ensures { result ≡ fails failing.now call }
{
    failing.iter().any(|n| u64::from(*n) == call)
}

// Copies what fits from the front of `from` to the front of `to`, and says how much.
fn copy_front(from: &[u8], to: &mut [u8]) -> usize
    ensures count { result ≡ min (length from.now) (length to.old) }
    ensures copied { take result to.new ≡ take result from.now }
{
    let count = from.len().min(to.len());
    let front = &mut to[..count];
    front.copy_from_slice(&from[..count]);
    count
}

impl MemSource {
    /// A source of these bytes. The calls of `read` with these numbers, from 1, fail, and no others.
    pub fn new(bytes: Vec<u8>, failing: Vec<u32>) -> MemSource
        ensures { result ≡ record { left = bytes.items; ended = false; calls = 0; failing = failing.items; faults = 0 } }
    {
        MemSource {
            bytes,
            at: 0,
            ended: false,
            calls: 0,
            failing,
            faults: 0,
        }
    }
}

impl Source for MemSource {
    ghost left = { λ s. Some s.left };

    ghost ended = { λ s. s.ended };

    ghost faults = { λ s. s.faults };

    fn faults(&self) -> u64 {
        self.faults
    }

    fn read(&mut self, out: &mut [u8]) -> Result<usize, Failed>
        ensures bound { ReadsAtMost result out.new }
        ensures bytes { ReadConsumes (Some self.old.left) (Some self.new.left) result out.new }
        ensures end { self.new.ended ≡ (self.old.ended || meets_end result out.new) }
        ensures cause { HasCause self.old.faults self.new.faults result }
        // It fails exactly at the calls that were named, and else gives as much as fits.
        ensures named { is_err result ≡ fails self.old.failing (next_count self.old.calls) }
        ensures fits { IfOk result (λ n. n ≡ min (length self.old.left) (length out.old)) }
        ensures counted { self.new.calls ≡ next_count self.old.calls }
        ensures faulted { self.new.faults ≡ (if is_err result then next_count self.old.faults else self.old.faults) }
        ensures same { self.new.failing ≡ self.old.failing }
    {
        self.calls = raised(self.calls);
        if is_named(&self.failing, self.calls) {
            self.faults = raised(self.faults);
            return Err(Failed);
        }
        let count = copy_front(&self.bytes[self.at..], out);
        self.at += count;
        if count == 0 && out.len() > 0 {
            self.ended = true;
        }
        Ok(count)
    }
}

/// A sink in memory, which keeps what is written and tells it.
#[derive(Drop)]
pub struct MemSink {
    step: u32,
    room: u32,
    bytes: Vec<u8>,
    calls: u64,
    failing: Vec<u32>,
    faults: u64,
}

impl Model for MemSink {
    ghost use Rattle.std.specs.Prelude.{◌≤◌, ◌<◌, length, vec_capacity};
    ghost use Rattle.eden_io.specs.Memory.{SinkState};

    ghost Value = { SinkState };

    ghost view = { λ s. record {
      step = s.step;
      room = s.room;
      written = s.bytes.items;
      calls = s.calls;
      failing = s.failing.items;
      faults = s.faults;
    } };

    ghost invariant = { λ s. (0 < s.step) × (length s.bytes.items ≤ s.room) × (s.room ≤ vec_capacity s.bytes) };
}

impl MemSink {
    /// A sink that takes at most `step` bytes in a call and `room` bytes in all.
    ///
    /// The calls of `write` with these numbers, from 1, fail, and so do those of a piece that is
    /// not empty where the room is spent. No other call fails. All memory is taken here.
    pub fn new(
        alloc: Global,
        step: u32,
        room: u32,
        failing: Vec<u32>,
    ) -> Result<MemSink, OutOfMemory>
        requires { 0 < step }
        ensures { IfOk result
            (λ sink. sink ≡ record { step = step; room = room; written = []; calls = 0; failing = failing.items; faults = 0 }) }
    {
        let bytes = Vec::with_capacity(alloc, room as usize)?;
        Ok(MemSink {
            step,
            room,
            bytes,
            calls: 0,
            failing,
            faults: 0,
        })
    }

    /// What was written.
    pub fn written(&self) -> &[u8]
        ensures { result.now ≡ self.now.written }
    {
        &self.bytes
    }
}

impl Sink for MemSink {
    ghost written = { λ s. Some s.written };

    ghost faults = { λ s. s.faults };

    fn faults(&self) -> u64 {
        self.faults
    }

    fn write(&mut self, bytes: &[u8]) -> Result<usize, Failed>
        ensures bound { WritesAtMost result bytes.now }
        ensures takes { IfOk result (λ n. 0 < length bytes.now → 0 < n) }
        ensures bytes { WriteAppends (Some self.old.written) (Some self.new.written) result bytes.now }
        ensures cause { HasCause self.old.faults self.new.faults result }
        // It fails exactly at the calls that were named, and where the room is spent.
        ensures named { is_err result ≡ (fails self.old.failing (next_count self.old.calls)
            || (nat_lt 0 (length bytes.now) && self.old.room == length self.old.written)) }
        ensures fits { IfOk result (λ n. n ≡ min (length bytes.now) (min self.old.step (self.old.room - length self.old.written))) }
        ensures counted { self.new.calls ≡ next_count self.old.calls }
        ensures faulted { self.new.faults ≡ (if is_err result then next_count self.old.faults else self.old.faults) }
        ensures same { self.new ≡ record self.old { calls = self.new.calls; written = self.new.written; faults = self.new.faults } }
    {
        self.calls = raised(self.calls);
        let left = self.room as usize - self.bytes.len();
        if is_named(&self.failing, self.calls) || (bytes.len() > 0 && left == 0) {
            self.faults = raised(self.faults);
            return Err(Failed);
        }
        let count = bytes.len().min(left.min(self.step as usize));
        match self.bytes.extend_from_slice(&bytes[..count]) {
            Ok(()) => Ok(count),
            Err(_) => unreachable!(),
        }
    }
}
