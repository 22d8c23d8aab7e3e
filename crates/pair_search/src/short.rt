//! Directions side by side in numbers of 16 bits: a processor weighs eight of them at a time, in place of four.

ghost use Rattle.std.specs.Prelude.{◌≡◌, ◌≢◌, ℕ, ◌+◌, ◌*◌, ◌^◌, ◌≤◌, ◌<◌, ℤ, pos, neg_ℤ, ◌+ℤ◌, ◌-ℤ◌, ◌*ℤ◌, ◌≤ℤ◌, ◌<ℤ◌};
ghost use Rattle.std.specs.Prelude.{FitsSigned, unsigned_abs, IfSome, IsTrue};
ghost use Rattle.std.specs.Int.{w16};
ghost use Rattle.whole_numbers.specs.Bernstein.{at};
ghost use Rattle.whole_numbers.specs.Numbers.{IsBelow};
ghost use Rattle.bezier_core.specs.Steps.{IsWithin};
ghost use Rattle.sep_parts.specs.Levels.{IsLevel, root};
ghost use Rattle.pair_search.specs.Lanes.{AreSmallLanes, IsFloor, slack_on};
ghost use Rattle.pair_search.specs.Opposites.{AreSmallHighs, CancelAt};
ghost use Rattle.pair_search.specs.Short.{AreShort, AreShortMarks, FitsShort, HasSmallWeights, IsRough, IsShortPoint};
ghost use Rattle.pair_search.specs.Short.{MarksOf, TellsShort, short_lane_at, short_low, short_steps_of};

use crate::lanes::{Lanes, floor_by, floor_short, level_law, point_at, whole_point_at};
use crate::marking::{Marks, clear_bytes, marks_of};
use crate::opposites::{Opposites, are_opposite, front_of};
use fleet_curves::Difference;
use sep_parts::Level;
use whole_numbers::Depth;

/// The directions of the first half of a table side by side: the weights of the three axes, times a number that each
/// direction has, below what a point is too low along the direction, and above what along the opposite one.
#[derive(Drop)]
pub struct ShortLanes {
    pub x: [i16; 56],
    pub y: [i16; 56],
    pub z: [i16; 56],
    pub low: [i16; 56],
    pub high: [i16; 56],
}

/// One of these directions.
#[derive(Clone, Copy)]
pub struct ShortLane {
    pub x: i16,
    pub y: i16,
    pub z: i16,
    pub low: i16,
    pub high: i16,
}

/// A point in short steps, eight of which are a whole one, each rounded down.
#[derive(Clone, Copy)]
pub struct ShortPoint {
    pub x: i16,
    pub y: i16,
    pub z: i16,
}

/// The lanes of a table of `count` in numbers of 16 bits. Each point is too low in those that stand for no direction.
pub fn short_of(lanes: &Lanes, count: usize) -> ShortLanes
    requires count { count ≤ 98 }
    requires lanes { AreSmallLanes lanes.now }
    ensures { AreShort lanes.now count result }
{
    let mut short = ShortLanes {
        x: [0; 56],
        y: [0; 56],
        z: [0; 56],
        low: [1; 56],
        high: [-1; 56],
    };
    for i in 0..front_of(count) {
        let lane = short_lane(lanes, i, count - 1 - i);
        short.x[i] = lane.x;
        short.y[i] = lane.y;
        short.z[i] = lane.z;
        short.low[i] = lane.low;
        short.high[i] = lane.high;
    }
    short
}

// The lane i, with what a point is too low above in the lane j.
fn short_lane(lanes: &Lanes, i: usize, j: usize) -> ShortLane
    requires i { i < 112 }
    requires j { j < 112 }
    requires lanes { AreSmallLanes lanes.now }
    ensures { TellsShort lanes.now i j result }
{
    let times = times_of(lanes, i);
    ShortLane {
        x: weight_times(lanes.x[i], times),
        y: weight_times(lanes.y[i], times),
        z: weight_times(lanes.z[i], times),
        low: rough_low(short_low(lanes, i), times),
        high: rough_high_of(lanes, i, j, times),
    }
}

// The greatest number by which the weights of a lane stay within 21,840: then the sum of three products by 2^16 has 16
// bits.
fn times_of(lanes: &Lanes, i: usize) -> i32
    requires i { i < 112 }
    requires lanes { AreSmallLanes lanes.now }
    ensures few { (pos 0 ≤ℤ result) × (result ≤ℤ pos 21840) }
    ensures x { IsWithin (pos 21840) (at lanes.now.x i *ℤ result) }
    ensures y { IsWithin (pos 21840) (at lanes.now.y i *ℤ result) }
    ensures z { IsWithin (pos 21840) (at lanes.now.z i *ℤ result) }
{
    let x = lanes.x[i].unsigned_abs();
    let y = lanes.y[i].unsigned_abs();
    let z = lanes.z[i].unsigned_abs();
    times_for(larger(larger(x, y), larger(z, 1)))
}

fn larger(a: u32, b: u32) -> u32
    ensures first { a ≤ result }
    ensures second { b ≤ result }
{
    if a < b { b } else { a }
}

fn times_for(most: u32) -> i32
    requires { 1 ≤ most }
    ensures few { (pos 0 ≤ℤ result) × (result ≤ℤ pos 21840) }
    ensures each { (w : ℤ) → unsigned_abs w ≤ most → IsWithin (pos 21840) (w *ℤ result) }
{
    (21840 / most) as i32
}

fn weight_times(weight: i32, times: i32) -> i16
    requires { IsWithin (pos 21840) (weight *ℤ times) }
    ensures { result ≡ weight *ℤ times }
{
    (weight * times) as i16
}

// What a point in short steps has to reach in a lane.
fn short_low(lanes: &Lanes, i: usize) -> i64
    requires i { i < 112 }
    requires lanes { AreSmallLanes lanes.now }
    ensures exact { result ≡ short_low lanes.now i }
    ensures small { IsBelow (2 ^ 33) result }
{
    let slacks = slack(lanes.x[i]) + slack(lanes.y[i]) + slack(lanes.z[i]);
    8 * i64::from(lanes.low[i]) + 7 * slacks
}

// By how much a coordinate that is rounded down may be too little, times its weight.
fn slack(weight: i32) -> i64
    requires { IsBelow 4001 weight }
    ensures exact { result ≡ slack_on weight }
    ensures small { (pos 0 ≤ℤ result) × (result <ℤ pos 4001) }
{
    if weight < 0 { 0 } else { i64::from(weight) }
}

// What a rough value has to reach so that the exact one reaches `low`. It may be three too little.
fn rough_low(low: i64, times: i32) -> i16
    requires low { IsBelow (2 ^ 33) low }
    requires times { (pos 0 ≤ℤ times) × (times ≤ℤ pos 21840) }
    ensures { (v : ℤ) → FitsSigned w16 v → v <ℤ result → (pos 65536 *ℤ (v +ℤ pos 3)) ≤ℤ (low *ℤ times) }
{
    clamped((low * i64::from(times) >> 16) - 2)
}

// Above what a rough value in the lane i says that the point is too low in the lane j. Where the two aren't opposite
// none says so.
fn rough_high_of(lanes: &Lanes, i: usize, j: usize, times: i32) -> i16
    requires i { i < 112 }
    requires j { j < 112 }
    requires lanes { AreSmallLanes lanes.now }
    requires times { (pos 0 ≤ℤ times) × (times ≤ℤ pos 21840) }
    ensures { (v : ℤ) → FitsSigned w16 v → result <ℤ v
        → CancelAt lanes.now i j × ((neg_ℤ (short_low lanes.now j) *ℤ times) <ℤ (pos 65536 *ℤ v)) }
{
    if are_opposite(lanes, i, j) {
        rough_high(-short_low(lanes, j), times)
    } else {
        32767
    }
}

// Above what a rough value has to be so that the exact one is above `high`.
fn rough_high(high: i64, times: i32) -> i16
    requires high { IsBelow (2 ^ 33) high }
    requires times { (pos 0 ≤ℤ times) × (times ≤ℤ pos 21840) }
    ensures { (v : ℤ) → FitsSigned w16 v → result <ℤ v → (high *ℤ times) <ℤ (pos 65536 *ℤ v) }
{
    clamped(high * i64::from(times) >> 16)
}

// The number of 16 bits that comes nearest to a number.
fn clamped(value: i64) -> i16
    ensures low { (v : ℤ) → FitsSigned w16 v → v <ℤ result → v <ℤ value }
    ensures high { (v : ℤ) → FitsSigned w16 v → result <ℤ v → value <ℤ v }
{
    if value < -32768 {
        return -32768;
    }
    if value > 32767 {
        return 32767;
    }
    value as i16
}

/// The marks of the control values at one place, 0 to 7, of a part of the differences `diff` of raised curves.
pub fn marks_at(opposites: &Opposites, diff: &Difference, level: &Level, k: usize) -> Marks
    requires lanes { AreSmallLanes opposites.now.lanes }
    requires high { AreSmallHighs opposites.now.high }
    requires place { k < 8 }
    requires level { IsLevel diff.now level.now }
    ensures { MarksOf opposites.now level.now k result }
{
    match short_point_at(diff, level, k) {
        Some(p) => short_marks(&opposites.short, p.x, p.y, p.z),
        None => long_marks_at(opposites, diff, level, k),
    }
}

// The same of a point that is too far away for 16 bits.
#[inline(never)]
fn long_marks_at(opposites: &Opposites, diff: &Difference, level: &Level, k: usize) -> Marks
    requires lanes { AreSmallLanes opposites.now.lanes }
    requires high { AreSmallHighs opposites.now.high }
    requires place { k < 8 }
    requires level { IsLevel diff.now level.now }
    ensures { MarksOf opposites.now level.now k result }
{
    marks_of(opposites, &point_at(diff, level, k))
}

/// The marks of the control values at one place of a whole cue.
pub fn whole_marks_at(opposites: &Opposites, diff: &Difference, k: usize) -> Marks
    requires lanes { AreSmallLanes opposites.now.lanes }
    requires high { AreSmallHighs opposites.now.high }
    requires place { k < 8 }
    ensures { MarksOf opposites.now (record { place = root; part = diff.now }) k result }
{
    match whole_short_point_at(diff, k) {
        Some(p) => short_marks(&opposites.short, p.x, p.y, p.z),
        None => long_whole_marks_at(opposites, diff, k),
    }
}

// The same of a point that is too far away for 16 bits.
#[inline(never)]
fn long_whole_marks_at(opposites: &Opposites, diff: &Difference, k: usize) -> Marks
    requires lanes { AreSmallLanes opposites.now.lanes }
    requires high { AreSmallHighs opposites.now.high }
    requires place { k < 8 }
    ensures { MarksOf opposites.now (record { place = root; part = diff.now }) k result }
{
    marks_of(opposites, &whole_point_at(diff, k))
}

// The control values at one place of a part, in short steps, where they have 16 bits.
fn short_point_at(diff: &Difference, level: &Level, k: usize) -> Option<ShortPoint>
    requires place { k < 8 }
    requires level { IsLevel diff.now level.now }
    ensures { IfSome result (IsShortPoint level.now k) }
{
    level_law(diff, level);
    let depth = Depth::make(level.place.depth);
    if depth.levels() <= 4 {
        short_point(
            shallow_stepped(level.part.value(0, k), depth),
            shallow_stepped(level.part.value(1, k), depth),
            shallow_stepped(level.part.value(2, k), depth),
        )
    } else {
        short_point(
            deep_stepped(level.part.value(0, k), depth),
            deep_stepped(level.part.value(1, k), depth),
            deep_stepped(level.part.value(2, k), depth),
        )
    }
}

// A control value of a part in short steps, rounded down. To depth 4 it is a number of 64 bits.
fn shallow_stepped(value: i128, depth: Depth) -> i64
    requires shallow { depth ≤ 4 }
    requires value { IsBelow (2 ^ (7 * depth) * 2 ^ 30) value }
    ensures { IsFloor (short_steps_of depth) value result }
{
    floor_short(value as i64, short_steps_of(depth))
}

// The same at any depth.
fn deep_stepped(value: i128, depth: Depth) -> i64
    requires { IsBelow (2 ^ (7 * depth) * 2 ^ 30) value }
    ensures { IsFloor (short_steps_of depth) value result }
{
    floor_by(value, short_steps_of(depth)) as i64
}

// The same of the whole cue.
fn whole_short_point_at(diff: &Difference, k: usize) -> Option<ShortPoint>
    requires place { k < 8 }
    ensures { IfSome result (IsShortPoint (record { place = root; part = diff.now }) k) }
{
    diff.raised_law();
    let rows = diff.rows();
    short_point(
        whole_short_stepped(rows[0][k]),
        whole_short_stepped(rows[1][k]),
        whole_short_stepped(rows[2][k]),
    )
}

// A control value of a whole cue in short steps, rounded down.
fn whole_short_stepped(value: i32) -> i64
    requires { IsBelow (2 ^ 30) value }
    ensures { IsFloor 11 value result }
{
    floor_short(i64::from(value), 11)
}

// A short step has 2 to this power.
fn short_steps_of(depth: Depth) -> u32
    ensures { result ≡ short_steps_of depth }
{
    11 + 7 * u32::from(depth.levels())
}

// A point, where its coordinates have 16 bits.
fn short_point(x: i64, y: i64, z: i64) -> Option<ShortPoint>
    ensures { IfSome result (λ p. FitsShort p × (p.x ≡ x) × (p.y ≡ y) × (p.z ≡ z)) }
{
    if !is_short(x) {
        return None;
    }
    if !is_short(y) {
        return None;
    }
    if !is_short(z) {
        return None;
    }
    Some(ShortPoint {
        x: x as i16,
        y: y as i16,
        z: z as i16,
    })
}

fn is_short(x: i64) -> bool
    ensures { IsTrue result → FitsSigned w16 x }
{
    -32768 <= x && x <= 32767
}

// The marks of a point by rough values. It is a function of its own so that the compiler knows of no more than that
// coordinates have 16 bits: only then it weighs eight lanes at a time.
#[inline(never)]
fn short_marks(short: &ShortLanes, x: i16, y: i16, z: i16) -> Marks
    ensures { AreShortMarks short.now (record { x = x; y = y; z = z }) result }
{
    let mut front = [255; 64];
    let mut back = [255; 64];
    for i in 0..56 {
        let value = rough_at(short, x, y, z, i);
        front[i] = is_less(value, short.low[i]);
        back[i] = is_less(short.high[i], value);
    }
    Marks {
        front: clear_bytes(&front),
        back: clear_bytes(&back),
    }
}

// A point along the direction of a lane, by 2^16, roughly: each of three products is rounded down.
fn rough_at(short: &ShortLanes, x: i16, y: i16, z: i16, i: usize) -> i16
    requires { i < 56 }
    ensures { HasSmallWeights (short_lane_at short.now i)
        → IsRough (short_lane_at short.now i) (record { x = x; y = y; z = z }) result }
{
    let sum = high_product(short.x[i], x).wrapping_add(high_product(short.y[i], y));
    sum.wrapping_add(high_product(short.z[i], z))
}

// A product by 2^16, rounded down.
fn high_product(a: i16, b: i16) -> i16
    ensures { IsFloor 16 (a *ℤ b) result }
{
    (i32::from(a) * i32::from(b) >> 16) as i16
}

// 255 where a number is less than another, else 0.
fn is_less(value: i16, low: i16) -> u8
    ensures { result ≢ 0 → value <ℤ low }
{
    if value < low { 255 } else { 0 }
}
