//! The chunks in which a list of bytes is written to a drone's memory: 24 bytes each, the last one
//! perhaps shorter. The chunks, one after the other, are the bytes (`cover_law`). docs/RADIO.md,
//! "Chunks", states the rule.

ghost use Rattle.std.specs.Prelude.{◌≡◌, ℕ, ◌*◌, ◌<◌, ◌≤◌, List};
ghost use Rattle.crtp_packets.specs.Chunks.{chunk_count_of, chunk_start, chunk_end, Covers};

use crate::packet::WRITE_BYTES;

/// The bytes of a drone's trajectory memory: docs/RADIO.md, "A drone".
pub const MEMORY_BYTES: usize = 4096;

/// How many chunks `len` bytes make: the least number whose chunks hold them all.
pub fn chunk_count(len: usize) -> usize
    requires { len ≤ MEMORY_BYTES }
    ensures value { result ≡ chunk_count_of len }
    ensures holds_all { len ≤ WRITE_BYTES * result }
    ensures least { (n : ℕ) → len ≤ WRITE_BYTES * n → result ≤ n }
{
    len.div_ceil(WRITE_BYTES)
}

/// Where chunk `k` of `len` bytes begins, and where it ends: its bytes are those from the first
/// place up to, but not including, the second. Chunks count from 0.
pub fn chunk(len: usize, k: usize) -> (usize, usize)
    requires in_memory { len ≤ MEMORY_BYTES }
    requires in_range { k < chunk_count_of len }
    ensures start { result.0 ≡ chunk_start k }
    ensures end { result.1 ≡ chunk_end len k }
    ensures not_empty { result.0 < result.1 }
    ensures within { result.1 ≤ len }
{
    let start = WRITE_BYTES * k;
    (start, (start + WRITE_BYTES).min(len))
}

/// The law of chunks, for every list of bytes: the chunks, one after the other, are the bytes, and
/// each has 1 to 24 of them. It does nothing when it runs.
pub fn cover_law()
    ensures { (bytes : List ℕ) → Covers bytes }
{}
