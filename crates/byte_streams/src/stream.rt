//! Where bytes come from and where they go.
ghost use Rattle.std.specs.Prelude.{◌≡◌, ℕ, ◌<◌, ◌≤◌, List, length, Option, IfOk, OnOk, OnErr};
ghost use Rattle.std.specs.Io.{ReadsAtMost};
ghost use Rattle.std.specs.Io.KnownBytes.{WriteAppends, Appends};
ghost use Rattle.byte_streams.specs.Causes.{HasCause};
ghost use Rattle.byte_streams.specs.Taken.{AppendsFront};
ghost use Rattle.byte_streams.specs.Told.{Reads, Told};

/// A read or a write failed, and the count of faults of what it was asked of rose.
#[derive(Clone, Copy, PartialEq, Eq)]
pub struct Failed;

/// Bytes that come in.
pub trait Source {
    /// What it exposes of itself: the bytes that its reads gave, whether the last one met the end, how many failed,
    /// and, where it knows them, the bytes still to come.
    ghost told: { Self → Told };

    /// Writes the next bytes to the first places of `buf`, and returns how many. No byte for a non-empty `buf` is the
    /// end.
    fn read(&mut self, buf: &mut [u8]) -> Result<usize, Failed>
        ensures bound { ReadsAtMost result buf.new }
        ensures reads { Reads (told self.old) (told self.new) result buf.new };
}

/// Bytes that go out.
pub trait Sink {
    /// The bytes that its writes took, where the sink exposes them.
    ghost written: { Self → Option (List ℕ) };

    /// How often it has failed. The count never falls.
    ghost faults: { Self → ℕ };

    /// Takes a prefix of the bytes, of non-empty bytes at least one.
    fn write(&mut self, bytes: &[u8]) -> Result<usize, Failed>
        ensures bound { IfOk result (λ n. n ≤ length bytes.now) }
        ensures progress { IfOk result (λ n. 0 < length bytes.now → 0 < n) }
        ensures bytes { WriteAppends (written self.old) (written self.new) result bytes.now }
        ensures cause { HasCause (faults self.old) (faults self.new) result };
}

/// Writes all of the bytes. At `Failed` a prefix of them went out.
pub fn write_whole<K: Sink>(sink: &mut K, bytes: &[u8]) -> Result<(), Failed>
    ensures ok { OnOk result (Appends (K.written sink.old) (K.written sink.new) bytes.now) }
    ensures front { OnErr result (AppendsFront (K.written sink.old) (K.written sink.new) bytes.now) }
    ensures cause { HasCause (K.faults sink.old) (K.faults sink.new) result }
{
    let mut rest = bytes;
    while !rest.is_empty() {
        let taken = sink.write(rest)?;
        rest = &rest[taken..];
    }
    Ok(())
}
