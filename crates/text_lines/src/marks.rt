//! Sixteen bytes at a time, as bits.

ghost use Rattle.std.specs.Prelude.{◌≡◌, ◌≢◌, ◌↔◌, ℕ, ◌+◌, ◌<◌, ◌≤◌, length, slice_index};
ghost use Rattle.std.specs.Int.{bit_at};

use std::simd::prelude::*;

// Bit k is set where byte k of the sixteen from a place on is at most a space.
#[inline(always)]
pub(crate) fn low_bytes(bytes: &[u8], at: usize) -> u64
    requires { at + 16 ≤ length bytes.now }
    ensures { (k : ℕ) → (bit_at result k ≡ 1) ↔ ((k < 16) × (slice_index bytes.now (at + k) ≤ 32)) }
{
    u8x16::from_slice(&bytes[at..])
        .simd_le(u8x16::splat(b' '))
        .to_bitmask()
}

// The place of the lowest bit that is set.
#[inline(always)]
pub(crate) fn lowest(bits: u64) -> usize
    requires { bits ≢ 0 }
    ensures bound { result < 64 }
    ensures set { bit_at bits result ≡ 1 }
    ensures below { (k : ℕ) → k < result → bit_at bits k ≡ 0 }
{
    bits.trailing_zeros() as usize
}

// The bits but for one that is set.
#[inline(always)]
pub(crate) fn without(bits: u64, bit: usize) -> u64
    requires bound { bit < 64 }
    requires set { bit_at bits bit ≡ 1 }
    ensures smaller { result < bits }
    ensures cleared { bit_at result bit ≡ 0 }
    ensures kept { (k : ℕ) → k < 64 → k ≢ bit → bit_at result k ≡ bit_at bits k }
    ensures no_more { (k : ℕ) → bit_at result k ≡ 1 → bit_at bits k ≡ 1 }
{
    bits & !(1 << bit)
}
