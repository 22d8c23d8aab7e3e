//! The two ends of a call: a source over the caller's bytes, and a sink that keeps all that is written.
ghost use Rattle.std.specs.Prelude.{◌≡◌, ◌≤◌, ◌<◌, ◌++◌, [], length, take, drop, min, Some, IfOk, OnOk};
ghost use Rattle.std.specs.Io.{ReadsAtMost};
ghost use Rattle.std.specs.Io.KnownBytes.{WriteAppends};
ghost use Rattle.byte_streams.specs.Causes.{HasCause};
ghost use Rattle.byte_streams.specs.Memory.{told_sure};
ghost use Rattle.byte_streams.specs.Told.{Reads};

use byte_streams::{Failed, Sink, Source};
use std::alloc::{AllocError, Global};
use std::marker::Model;

/// A source over borrowed bytes. It never fails.
#[derive(Drop)]
pub struct SliceSource<'a> {
    bytes: &'a [u8],
    at: usize,
}

impl<'a> Model for SliceSource<'a> {
    ghost use Rattle.std.specs.Prelude.{◌≤◌, drop, length, take};
    ghost use Rattle.byte_streams.specs.Memory.{SureIn};

    ghost Value = { SureIn };

    ghost view = { λ s. record { given = take s.at s.bytes.now; left = drop s.at s.bytes.now } };

    ghost invariant = { λ s. s.at ≤ length s.bytes.now };
}

impl<'a> SliceSource<'a> {
    /// A source of these bytes.
    pub fn make(bytes: &'a [u8]) -> SliceSource<'a>
        ensures { result ≡ record { given = []; left = bytes.now } }
    {
        SliceSource { bytes, at: 0 }
    }
}

impl<'a> Source for SliceSource<'a> {
    ghost told = { told_sure };

    fn read(&mut self, buf: &mut [u8]) -> Result<usize, Failed>
        ensures bound { ReadsAtMost result buf.new }
        ensures reads { Reads (told_sure self.old) (told_sure self.new) result buf.new }
    {
        let left = &self.bytes[self.at..];
        let count = left.len().min(buf.len());
        buf[..count].copy_from_slice(&left[..count]);
        self.at += count;
        Ok(count)
    }
}

/// A sink that keeps all that is written, and fails only where memory does.
#[derive(Drop)]
pub struct WholeSink {
    bytes: Vec<u8>,
    faults: u64,
}

impl Model for WholeSink {
    ghost use Rattle.hemtoghai.specs.Answers.{WholeOut};

    ghost Value = { WholeOut };

    ghost view = { λ s. record { written = s.bytes.items; faults = s.faults } };
}

impl WholeSink {
    /// An empty sink.
    pub fn make(alloc: Global) -> WholeSink
        ensures { result ≡ record { written = []; faults = 0 } }
    {
        WholeSink {
            bytes: Vec::new(alloc),
            faults: 0,
        }
    }

    /// All that was written, or out of memory where a write failed.
    pub fn whole(self) -> Result<Vec<u8>, AllocError>
        ensures ok { IfOk result (λ bytes. bytes.items ≡ self.written) }
        ensures quiet { OnOk result (self.faults ≡ 0) }
    {
        if self.faults > 0 {
            return Err(AllocError);
        }
        Ok(self.bytes)
    }
}

impl Sink for WholeSink {
    ghost written = { λ s. Some s.written };

    ghost faults = { λ s. s.faults };

    fn write(&mut self, bytes: &[u8]) -> Result<usize, Failed>
        ensures bound { IfOk result (λ n. n ≤ length bytes.now) }
        ensures progress { IfOk result (λ n. 0 < length bytes.now → 0 < n) }
        ensures bytes { WriteAppends (Some self.old.written) (Some self.new.written) result bytes.now }
        ensures cause { HasCause self.old.faults self.new.faults result }
    {
        match self.bytes.extend_from_slice(bytes) {
            Ok(()) => Ok(bytes.len()),
            Err(_) => {
                self.faults = self.faults.saturating_add(1);
                Err(Failed)
            }
        }
    }
}
