//! The trusted edge: std's readers and writers as sources and sinks.
ghost use Rattle.std.specs.Prelude.{◌≡◌, ◌≤◌, ◌<◌, length, [], false, Some, IfOk, OnOk, OnErr};
ghost use Rattle.std.specs.Io.{ReadsAtMost};
ghost use Rattle.std.specs.Io.KnownBytes.{WriteAppends};
ghost use Rattle.byte_streams.specs.Causes.{HasCause, counted};
ghost use Rattle.byte_streams.specs.Memory.{told_std};
ghost use Rattle.byte_streams.specs.Told.{Reads};

use crate::log::{Log, logged};
use crate::stream::{Failed, Sink, Source};
use std::io::{Read, Write};
use std::marker::Model;

/// Any reader of std, with a count of its faults that stays at its type's last value. It exposes the bytes that the
/// reader gave; those still to come only where the reader exposes them, which standard input doesn't. It has met its
/// end where the last read gave no byte for a non-empty buffer; a later read may give more, as at a terminal.
#[derive(Drop)]
pub struct StdSource<R: Read + Drop> {
    reader: R,
    log: Log,
    ended: bool,
    faults: u64,
}

impl<R: Read + Drop> Model for StdSource<R> {
    ghost use Rattle.byte_streams.specs.Memory.{StdIn};

    ghost Value = { StdIn };

    ghost view = { λ s.
        record { given = s.log.bytes; ended = s.ended; remaining = R.remaining s.reader; faults = s.faults } };
}

impl<R: Read + Drop> StdSource<R> {
    /// A source over this reader, with no fault counted.
    pub fn make(reader: R) -> StdSource<R>
        ensures { result ≡ record { given = []; ended = false; remaining = R.remaining reader; faults = 0 } }
    {
        StdSource {
            reader,
            log: Log::new(),
            ended: false,
            faults: 0,
        }
    }
}

impl<R: Read + Drop> Source for StdSource<R> {
    ghost told = { told_std };

    fn read(&mut self, buf: &mut [u8]) -> Result<usize, Failed>
        ensures bound { ReadsAtMost result buf.new }
        ensures reads { Reads (told_std self.old) (told_std self.new) result buf.new }
        // Each failure is counted, and nothing else is.
        ensures fine { OnOk result (self.new.faults ≡ self.old.faults) }
        ensures failed { OnErr result (self.new.faults ≡ counted self.old.faults) }
    {
        match self.reader.read(buf) {
            Ok(count) => {
                self.log = logged(&self.log, &buf[..count]);
                self.ended = count == 0 && !buf.is_empty();
                Ok(count)
            }
            Err(_) => {
                self.ended = false;
                self.faults = self.faults.saturating_add(1);
                Err(Failed)
            }
        }
    }
}

/// Any writer of std, with a count of its faults that stays at its type's last value. A write that takes nothing of
/// a non-empty piece is a fault. It exposes the bytes that the writer took.
#[derive(Drop)]
pub struct StdSink<W: Write + Drop> {
    writer: W,
    log: Log,
    faults: u64,
}

impl<W: Write + Drop> Model for StdSink<W> {
    ghost use Rattle.byte_streams.specs.Memory.{StdOut};

    ghost Value = { StdOut };

    ghost view = { λ s. record { written = s.log.bytes; contents = W.contents s.writer; faults = s.faults } };
}

impl<W: Write + Drop> StdSink<W> {
    /// A sink over this writer, with no fault counted.
    pub fn make(writer: W) -> StdSink<W>
        ensures { result ≡ record { written = []; contents = W.contents writer; faults = 0 } }
    {
        StdSink {
            writer,
            log: Log::new(),
            faults: 0,
        }
    }
}

impl<W: Write + Drop> Sink for StdSink<W> {
    ghost written = { λ s. Some s.written };

    ghost faults = { λ s. s.faults };

    fn write(&mut self, bytes: &[u8]) -> Result<usize, Failed>
        ensures bound { IfOk result (λ n. n ≤ length bytes.now) }
        ensures progress { IfOk result (λ n. 0 < length bytes.now → 0 < n) }
        ensures bytes { WriteAppends (Some self.old.written) (Some self.new.written) result bytes.now }
        ensures held { WriteAppends self.old.contents self.new.contents result bytes.now }
        ensures cause { HasCause self.old.faults self.new.faults result }
        // Each failure is counted, and nothing else is.
        ensures fine { OnOk result (self.new.faults ≡ self.old.faults) }
        ensures failed { OnErr result (self.new.faults ≡ counted self.old.faults) }
    {
        match self.writer.write(bytes) {
            Ok(count) if count > 0 || bytes.is_empty() => {
                self.log = logged(&self.log, &bytes[..count]);
                Ok(count)
            }
            _ => {
                self.faults = self.faults.saturating_add(1);
                Err(Failed)
            }
        }
    }
}
