//! Which directions a point leaves, as bits: the ends of parts are weighed once, and neighbours share them.

ghost use Rattle.std.specs.Prelude.{◌≡◌, ◌≢◌, ℕ, ◌≤◌, ◌<◌, ◌<ℤ◌, slice_index, IsTrue};
ghost use Rattle.std.specs.Int.{bit_at};
ghost use Rattle.pair_search.specs.Lanes.{AreSmallLanes, IsSmallPoint};
ghost use Rattle.pair_search.specs.Opposites.{AreSmallHighs};
ghost use Rattle.pair_search.specs.Marks.{IsBefore, IsMarked, IsMarkedIn, MarkTells};
ghost use Rattle.pair_search.specs.declared.lanes.Point.{Point};
ghost use Rattle.pair_search.specs.declared.opposites.Opposites.{Opposites};

use crate::lanes::{Point, lane_at};
use crate::opposites::Opposites;
use std::simd::prelude::*;

/// A bit for each direction of the first half of a table, and one for its opposite. A bit is clear only where a point
/// is too low along the direction.
#[derive(Clone, Copy)]
pub struct Marks {
    pub front: u64,
    pub back: u64,
}

/// The marks of a point.
pub fn marks_of(opposites: &Opposites, p: &Point) -> Marks
    requires lanes { AreSmallLanes opposites.now.lanes }
    requires high { AreSmallHighs opposites.now.high }
    requires p { IsSmallPoint p.now }
    ensures { IsMarked opposites.now p.now result }
{
    marks_from(opposites, p, 0)
}

/// Those of the first 16 directions and their opposites. The other bits are clear.
pub fn early_marks(opposites: &Opposites, p: &Point) -> Marks
    requires lanes { AreSmallLanes opposites.now.lanes }
    requires high { AreSmallHighs opposites.now.high }
    requires p { IsSmallPoint p.now }
    ensures { IsMarkedIn 0 16 opposites.now p.now result }
{
    let mut front = [0; 16];
    let mut back = [0; 16];
    for i in 0..16 {
        let value = lane_at(&opposites.lanes, p, i);
        front[i] = is_low(value, opposites.lanes.low[i]);
        back[i] = is_low(opposites.high[i], value);
    }
    Marks {
        front: clear_of_sixteen(&front),
        back: clear_of_sixteen(&back),
    }
}

/// Those of the other directions and their opposites. The first 16 bits are clear.
#[inline(never)]
pub fn late_marks(opposites: &Opposites, p: &Point) -> Marks
    requires lanes { AreSmallLanes opposites.now.lanes }
    requires high { AreSmallHighs opposites.now.high }
    requires p { IsSmallPoint p.now }
    ensures { IsMarkedIn 16 49 opposites.now p.now result }
{
    marks_from(opposites, p, 16)
}

// The marks of a point in the lanes from one on. The bits before are clear.
#[inline(always)]
fn marks_from(opposites: &Opposites, p: &Point, begin: usize) -> Marks
    requires begin { begin ≤ 49 }
    requires lanes { AreSmallLanes opposites.now.lanes }
    requires high { AreSmallHighs opposites.now.high }
    requires p { IsSmallPoint p.now }
    ensures { IsMarkedIn begin 49 opposites.now p.now result }
{
    let mut front = [255; 64];
    let mut back = [255; 64];
    for i in begin..49 {
        let value = lane_at(&opposites.lanes, p, i);
        front[i] = is_low(value, opposites.lanes.low[i]);
        back[i] = is_low(opposites.high[i], value);
    }
    Marks {
        front: clear_bytes(&front),
        back: clear_bytes(&back),
    }
}

/// The marks of a point in the first 16 lanes with those in the others.
pub fn both(early: Marks, late: Marks) -> Marks
    ensures { (s : Opposites) (p : Point) → IsMarkedIn 0 16 s p early → IsMarkedIn 16 49 s p late → IsMarked s p result }
{
    Marks {
        front: early.front | late.front,
        back: early.back | late.back,
    }
}

// 255 where a number is below another, else 0: all bits of a byte are alike, as a comparison of lanes makes them.
fn is_low(value: i32, low: i32) -> u8
    ensures { result ≢ 0 → value <ℤ low }
{
    if value < low { 255 } else { 0 }
}

// Bit k is set where byte k is 0.
#[inline(always)]
pub(crate) fn clear_bytes(bytes: &[u8; 64]) -> u64
    ensures { (k : ℕ) → k < 64 → bit_at result k ≡ 0 → slice_index bytes.now k ≢ 0 }
{
    u8x64::from_slice(bytes)
        .simd_le(u8x64::splat(0))
        .to_bitmask()
}

// The same of 16 bytes.
#[inline(always)]
fn clear_of_sixteen(bytes: &[u8; 16]) -> u64
    ensures { (k : ℕ) → k < 16 → bit_at result k ≡ 0 → slice_index bytes.now k ≢ 0 }
{
    u8x16::from_slice(bytes)
        .simd_le(u8x16::splat(0))
        .to_bitmask()
}

/// What both of two marks leave.
pub fn common(a: Marks, b: Marks) -> Marks
    ensures front { MarkTells a.front b.front result.front }
    ensures back { MarkTells a.back b.back result.back }
{
    Marks {
        front: a.front & b.front,
        back: a.back & b.back,
    }
}

/// Whether marks leave nothing.
pub fn are_none(near: Marks) -> bool
    ensures { IsTrue result → (near.front ≡ 0) × (near.back ≡ 0) }
{
    if near.front != 0 {
        return false;
    }
    near.back == 0
}

/// Whether marks leave a direction of a table of `count`.
pub fn leaves(near: Marks, dir: usize, count: usize) -> bool {
    if dir < 49 {
        return (near.front >> dir) & 1 == 1;
    }
    if dir < count && count - 1 - dir < 49 {
        return (near.back >> (count - 1 - dir)) & 1 == 1;
    }
    false
}

// The place of the lowest bit that is set.
#[inline(always)]
pub(crate) fn lowest(bits: u64) -> usize
    requires { bits ≢ 0 }
    ensures bound { result < 64 }
    ensures set { bit_at bits result ≡ 1 }
    ensures below { (k : ℕ) → k < result → bit_at bits k ≡ 0 }
{
    bits.trailing_zeros() as usize
}

// The place of the highest bit that is set.
#[inline(always)]
fn highest(bits: u64) -> usize
    requires { bits ≢ 0 }
    ensures bound { result < 64 }
    ensures set { bit_at bits result ≡ 1 }
    ensures above { (k : ℕ) → result < k → bit_at bits k ≡ 0 }
{
    63 - bits.leading_zeros() as usize
}

// The bit whose direction stands first in a table: the lowest one, or the highest one where bits stand for opposites.
#[inline(always)]
pub(crate) fn first_bit(bits: u64, back: bool) -> usize
    requires { bits ≢ 0 }
    ensures bound { result < 64 }
    ensures set { bit_at bits result ≡ 1 }
    ensures before { (k : ℕ) → IsBefore back k result → bit_at bits k ≡ 0 }
{
    if back { highest(bits) } else { lowest(bits) }
}

// The bits but for one that is set.
#[inline(always)]
pub(crate) fn without(bits: u64, bit: usize) -> u64
    requires bound { bit < 64 }
    requires set { bit_at bits bit ≡ 1 }
    ensures smaller { result < bits }
    ensures kept { (k : ℕ) → k < 64 → k ≢ bit → bit_at result k ≡ bit_at bits k }
{
    bits & !(1 << bit)
}
