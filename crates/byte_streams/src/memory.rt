//! Sources and sinks over memory, with failures where they are asked for.
ghost use Rattle.std.specs.Prelude.{◌≡◌, ◌≤◌, ◌<◌, ◌-◌, ◌++◌, [], length, take, drop, min, Some, IfOk, OnErr, is_err};
ghost use Rattle.std.specs.Prelude.{vec_len, vec_capacity};
ghost use Rattle.std.specs.Io.{ReadsAtMost};
ghost use Rattle.std.specs.Io.KnownBytes.{WriteAppends};
ghost use Rattle.byte_streams.specs.Causes.{HasCause};
ghost use Rattle.byte_streams.specs.Memory.{told_memory, read_fails, read_failed, read_gave, write_fails, write_failed};
ghost use Rattle.byte_streams.specs.Memory.{write_took, is_listed};
ghost use Rattle.byte_streams.specs.Told.{Reads};

use crate::stream::{Failed, Sink, Source};
use std::alloc::{AllocError, Global};
use std::marker::Model;

// Copies as long a prefix of `from` as `to` and `most` let it.
pub(crate) fn copy_front(to: &mut [u8], from: &[u8], most: usize) -> usize
    ensures count { result ≡ min (min (length from.now) most) (length to.old) }
    ensures bytes { to.new ≡ take result from.now ++ drop result to.old }
{
    let count = from.len().min(most).min(to.len());
    to[..count].copy_from_slice(&from[..count]);
    count
}

fn is_listed(numbers: &[u64], n: u64) -> bool
    ensures { result ≡ is_listed numbers.now n }
{
    numbers.contains(&n)
}

/// A source over bytes in memory. It gives at most `cut` bytes a call. Its calls are numbered from 1, and a
/// call fails exactly where its number stands in `fails`. The number of a call and the count of failures stay at
/// their type's last value.
#[derive(Drop)]
pub struct MemSource {
    bytes: Vec<u8>,
    at: usize,
    cut: usize,
    fails: Vec<u64>,
    calls: u64,
    faults: u64,
}

impl Model for MemSource {
    ghost use Rattle.std.specs.Prelude.{◌≤◌, drop, length, take};
    ghost use Rattle.byte_streams.specs.Memory.{MemoryIn};

    ghost Value = { MemoryIn };

    ghost view = { λ s. record {
      given = take s.at s.bytes.items;
      left = drop s.at s.bytes.items;
      cut = s.cut;
      fails = s.fails.items;
      calls = s.calls;
      faults = s.faults;
    } };

    ghost invariant = { λ s. (s.at ≤ length s.bytes.items) × (1 ≤ s.cut) };
}

impl MemSource {
    /// A source of these bytes, of which no call was made yet.
    pub fn make(bytes: Vec<u8>, cut: usize, fails: Vec<u64>) -> MemSource
        requires { 1 ≤ cut }
        ensures { result ≡ record {
          given = [];
          left = bytes.items;
          cut = cut;
          fails = fails.items;
          calls = 0;
          faults = 0;
        } }
    {
        MemSource {
            bytes,
            at: 0,
            cut,
            fails,
            calls: 0,
            faults: 0,
        }
    }
}

impl Source for MemSource {
    ghost told = { told_memory };

    fn read(&mut self, buf: &mut [u8]) -> Result<usize, Failed>
        ensures bound { ReadsAtMost result buf.new }
        ensures reads { Reads (told_memory self.old) (told_memory self.new) result buf.new }
        // It fails exactly where the call's number is listed.
        ensures fails { is_err result ≡ read_fails self.old }
        ensures failed { OnErr result (self.new ≡ read_failed self.old) }
        ensures gave { IfOk result (λ n. self.new ≡ read_gave self.old n) }
        ensures count { IfOk result (λ n. n ≡ min (min (length self.old.left) self.old.cut) (length buf.old)) }
    {
        self.calls = self.calls.saturating_add(1);
        if is_listed(&self.fails, self.calls) {
            self.faults = self.faults.saturating_add(1);
            return Err(Failed);
        }
        let count = copy_front(buf, &self.bytes[self.at..], self.cut);
        self.at += count;
        Ok(count)
    }
}

/// A sink into memory whose room, in bytes, is taken when it is made. It takes at most `cut` bytes a call. Its calls
/// are numbered from 1, and a call fails exactly where its number stands in `fails`, or where there are bytes and
/// no room is left. The number of a call and the count of failures stay at their type's last value.
#[derive(Drop)]
pub struct MemSink {
    bytes: Vec<u8>,
    room: usize,
    cut: usize,
    fails: Vec<u64>,
    calls: u64,
    faults: u64,
}

impl Model for MemSink {
    ghost use Rattle.std.specs.Prelude.{◌≤◌, length, vec_capacity};
    ghost use Rattle.byte_streams.specs.Memory.{MemoryOut};

    ghost Value = { MemoryOut };

    ghost view = { λ s. record {
      written = s.bytes.items;
      room = s.room;
      cut = s.cut;
      fails = s.fails.items;
      calls = s.calls;
      faults = s.faults;
    } };

    ghost invariant = { λ s. (s.room ≤ vec_capacity s.bytes) × (length s.bytes.items ≤ s.room) × (1 ≤ s.cut) };
}

impl MemSink {
    /// An empty sink with this room, of which no call was made yet.
    pub fn make(
        alloc: Global,
        room: usize,
        cut: usize,
        fails: Vec<u64>,
    ) -> Result<MemSink, AllocError>
        requires { 1 ≤ cut }
        ensures { IfOk result (λ sink. sink
            ≡ record { written = []; room = room; cut = cut; fails = fails.items; calls = 0; faults = 0 }) }
    {
        Ok(MemSink {
            bytes: Vec::with_capacity(alloc, room)?,
            room,
            cut,
            fails,
            calls: 0,
            faults: 0,
        })
    }

    /// What was written.
    pub fn written(&self) -> &[u8]
        ensures { result.now ≡ self.now.written }
    {
        &self.bytes
    }
}

impl Sink for MemSink {
    ghost written = { λ s. Some s.written };

    ghost faults = { λ s. s.faults };

    fn write(&mut self, bytes: &[u8]) -> Result<usize, Failed>
        ensures bound { IfOk result (λ n. n ≤ length bytes.now) }
        ensures progress { IfOk result (λ n. 0 < length bytes.now → 0 < n) }
        ensures bytes { WriteAppends (Some self.old.written) (Some self.new.written) result bytes.now }
        ensures cause { HasCause self.old.faults self.new.faults result }
        // It fails exactly where the call's number is listed, or where there are bytes and no room.
        ensures fails { is_err result ≡ write_fails self.old bytes.now }
        ensures failed { OnErr result (self.new ≡ write_failed self.old) }
        ensures took { IfOk result (λ n. self.new ≡ write_took self.old bytes.now n) }
        ensures count { IfOk result
            (λ n. n ≡ min (min (length bytes.now) self.old.cut) (self.old.room - length self.old.written)) }
    {
        self.calls = self.calls.saturating_add(1);
        let left = self.room - self.bytes.len();
        if is_listed(&self.fails, self.calls) || (left == 0 && !bytes.is_empty()) {
            self.faults = self.faults.saturating_add(1);
            return Err(Failed);
        }
        let count = bytes.len().min(self.cut).min(left);
        self.bytes.extend_from_slice(&bytes[..count]).unwrap();
        Ok(count)
    }
}
