//! A source and a sink over memory that never fail.
ghost use Rattle.std.specs.Prelude.{◌≡◌, ◌≤◌, ◌<◌, ◌++◌, [], Ok, length, take, drop, min, Some, None, IfOk};
ghost use Rattle.std.specs.Io.{ReadsAtMost};
ghost use Rattle.std.specs.Io.KnownBytes.{WriteAppends};
ghost use Rattle.byte_streams.specs.Causes.{HasCause};
ghost use Rattle.byte_streams.specs.Memory.{sure_gave, sure_took, told_sure};
ghost use Rattle.byte_streams.specs.Told.{Reads};

use crate::memory::copy_front;
use crate::stream::{Failed, Sink, Source};
use std::alloc::{AllocError, Global};
use std::marker::Model;

/// A source over bytes in memory that never fails. It gives as many bytes as a call has room for.
#[derive(Drop)]
pub struct SureSource {
    bytes: Vec<u8>,
    at: usize,
}

impl Model for SureSource {
    ghost use Rattle.std.specs.Prelude.{◌≤◌, drop, length, take};
    ghost use Rattle.byte_streams.specs.Memory.{SureIn};

    ghost Value = { SureIn };

    ghost view = { λ s. record { given = take s.at s.bytes.items; left = drop s.at s.bytes.items } };

    ghost invariant = { λ s. s.at ≤ length s.bytes.items };
}

impl SureSource {
    /// A source of these bytes.
    pub fn make(bytes: Vec<u8>) -> SureSource
        ensures { result ≡ record { given = []; left = bytes.items } }
    {
        SureSource { bytes, at: 0 }
    }
}

impl Source for SureSource {
    ghost told = { told_sure };

    fn read(&mut self, buf: &mut [u8]) -> Result<usize, Failed>
        ensures bound { ReadsAtMost result buf.new }
        ensures reads { Reads (told_sure self.old) (told_sure self.new) result buf.new }
        // It gives all that it has, or fills the buffer.
        ensures count { result ≡ Ok (min (length self.old.left) (length buf.old)) }
        ensures gave { self.new ≡ sure_gave self.old (length buf.old) }
    {
        let left = &self.bytes[self.at..];
        let count = copy_front(buf, left, left.len());
        self.at += count;
        Ok(count)
    }
}

/// A sink into memory that never fails and keeps the first bytes that it has room for. It takes all, and doesn't expose
/// what was written.
#[derive(Drop)]
pub struct SureSink {
    bytes: Vec<u8>,
    room: usize,
}

impl Model for SureSink {
    ghost use Rattle.std.specs.Prelude.{◌≤◌, length, vec_capacity};
    ghost use Rattle.byte_streams.specs.Memory.{SureOut};

    ghost Value = { SureOut };

    ghost view = { λ s. record { kept = s.bytes.items; room = s.room } };

    ghost invariant = { λ s. (s.room ≤ vec_capacity s.bytes) × (length s.bytes.items ≤ s.room) };
}

impl SureSink {
    /// An empty sink that keeps this many bytes.
    pub fn make(alloc: Global, room: usize) -> Result<SureSink, AllocError>
        ensures { IfOk result (λ sink. sink ≡ record { kept = []; room = room }) }
    {
        Ok(SureSink {
            bytes: Vec::with_capacity(alloc, room)?,
            room,
        })
    }

    /// The first bytes that were written.
    pub fn kept(&self) -> &[u8]
        ensures { result.now ≡ self.now.kept }
    {
        &self.bytes
    }
}

impl Sink for SureSink {
    ghost written = { λ _. None };

    ghost faults = { λ _. 0 };

    fn write(&mut self, bytes: &[u8]) -> Result<usize, Failed>
        ensures bound { IfOk result (λ n. n ≤ length bytes.now) }
        ensures progress { IfOk result (λ n. 0 < length bytes.now → 0 < n) }
        ensures bytes { WriteAppends None None result bytes.now }
        ensures cause { HasCause 0 0 result }
        // It takes all, and keeps what it has room for.
        ensures count { result ≡ Ok (length bytes.now) }
        ensures kept { self.new ≡ sure_took self.old bytes.now }
    {
        let count = bytes.len().min(self.room - self.bytes.len());
        self.bytes.extend_from_slice(&bytes[..count]).unwrap();
        Ok(bytes.len())
    }
}
