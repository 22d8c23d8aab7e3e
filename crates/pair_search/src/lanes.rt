//! Directions side by side, which tell by whole steps of a few millimetres that most of them don't separate a part.

ghost use Rattle.std.specs.Prelude.{◌≡◌, ◌⊎◌, ℕ, ◌+◌, ◌*◌, ◌^◌, ◌≤◌, ◌<◌, ℤ, pos, ◌+ℤ◌, ◌-ℤ◌, ◌*ℤ◌, ◌≤ℤ◌, ◌<ℤ◌, All};
ghost use Rattle.std.specs.Prelude.{IfSome, length};
ghost use Rattle.whole_numbers.specs.Bernstein.{at};
ghost use Rattle.whole_numbers.specs.Numbers.{IsBelow};
ghost use Rattle.bezier_core.specs.Along.{controls};
ghost use Rattle.bezier_core.specs.Steps.{IsWithin};
ghost use Rattle.sep_parts.specs.Directions.{direction_of, threshold, weights};
ghost use Rattle.sep_parts.specs.Levels.{IsLevel, root};
ghost use Rattle.pair_search.specs.Lanes.{AreLanes, AreSmallLanes, IsFloor, IsPoint, IsSmallPoint, lane_value};
ghost use Rattle.pair_search.specs.Lanes.{slack_of, slack_on, steps_of};

use fleet_curves::Difference;
use sep_parts::{Level, Ruler};
use whole_numbers::Depth;

/// At most 98 directions side by side: the weights of the three axes, and what a point has to reach.
#[derive(Drop)]
pub struct Lanes {
    pub x: [i32; 112],
    pub y: [i32; 112],
    pub z: [i32; 112],
    pub low: [i32; 112],
}

/// A point in whole steps, each rounded down.
#[derive(Clone, Copy)]
pub struct Point {
    pub x: i32,
    pub y: i32,
    pub z: i32,
}

/// The lanes of a ruler.
pub fn lanes_of<const M: usize>(ruler: &Ruler<M>) -> Lanes
    ensures { AreLanes ruler.now result }
{
    let mut lanes = Lanes {
        x: [0; 112],
        y: [0; 112],
        z: [0; 112],
        low: [1; 112],
    };
    for i in 0..ruler.count() {
        let w = ruler.weights_along(i);
        lanes.x[i] = lane_weight(w[0]);
        lanes.y[i] = lane_weight(w[1]);
        lanes.z[i] = lane_weight(w[2]);
        lanes.low[i] = low_of(ruler.threshold_along(i), w);
    }
    lanes
}

// A weight in 32 bits.
fn lane_weight(weight: i64) -> i32
    requires { IsBelow 4001 weight }
    ensures { result ≡ weight }
{
    weight as i32
}

// What a point in whole steps has to reach along a direction: a point below it is below the threshold.
fn low_of(threshold: i128, w: [i64; 3]) -> i32
    requires positive { pos 0 ≤ℤ threshold }
    requires small { threshold <ℤ pos (2 ^ 30) }
    requires weights { All (IsBelow 4001) w }
    ensures reach { (pos 16384 *ℤ (result +ℤ slack_of w)) ≤ℤ (pos 5040 *ℤ threshold) }
    ensures small { IsBelow (2 ^ 29) result }
{
    let reach = whole_steps(threshold);
    (reach - slack(w[0]) - slack(w[1]) - slack(w[2])) as i32
}

// A threshold in whole steps, rounded down.
fn whole_steps(threshold: i128) -> i64
    requires positive { pos 0 ≤ℤ threshold }
    requires small { threshold <ℤ pos (2 ^ 30) }
    ensures reach { (pos 16384 *ℤ result) ≤ℤ (pos 5040 *ℤ threshold) }
    ensures positive { pos 0 ≤ℤ result }
    ensures small { result <ℤ pos (2 ^ 29) }
{
    (5040 * threshold / 16384) as i64
}

// By how much a coordinate that is rounded down may be too little, times its weight.
fn slack(weight: i64) -> i64
    requires { IsBelow 4001 weight }
    ensures exact { result ≡ slack_on weight }
    ensures small { (pos 0 ≤ℤ result) × (result <ℤ pos 4001) }
{
    if weight < 0 { 0 } else { weight }
}

/// The control values at one place, 0 to 7, of a part of the differences `diff` of raised curves, in whole steps.
pub fn point_at(diff: &Difference, level: &Level, k: usize) -> Point
    requires place { k < 8 }
    requires level { IsLevel diff.now level.now }
    ensures small { IsSmallPoint result }
    ensures point { IsPoint level.now k result }
{
    level_law(diff, level);
    let depth = Depth::make(level.place.depth);
    Point {
        x: stepped(level.part.value(0, k), depth),
        y: stepped(level.part.value(1, k), depth),
        z: stepped(level.part.value(2, k), depth),
    }
}

/// The same of the whole cue.
pub fn whole_point_at(diff: &Difference, k: usize) -> Point
    requires place { k < 8 }
    ensures small { IsSmallPoint result }
    ensures point { IsPoint (record { place = root; part = diff.now }) k result }
{
    diff.raised_law();
    let rows = diff.rows();
    Point {
        x: whole_stepped(rows[0][k]),
        y: whole_stepped(rows[1][k]),
        z: whole_stepped(rows[2][k]),
    }
}

// A law: a level has three curves of eight control values each, whose size its depth bounds.
pub(crate) fn level_law(diff: &Difference, level: &Level)
    requires level { IsLevel diff.now level.now }
    ensures depth { level.now.place.depth ≤ 8 }
    ensures axes { length level.now.part ≡ 3 }
    ensures sizes { All (λ curve. length curve.b ≡ 8) level.now.part }
    ensures values { All (λ curve. All (IsBelow (2 ^ (7 * level.now.place.depth) * 2 ^ 30)) curve.b) level.now.part }
{
    diff.raised_law();
}

// A control value of a whole cue in whole steps, rounded down.
fn whole_stepped(value: i32) -> i32
    requires value { IsBelow (2 ^ 30) value }
    ensures floor { IsFloor 14 value result }
    ensures small { IsWithin (pos 65536) result }
{
    value >> 14
}

// A control value of a part of a depth in whole steps, rounded down. To depth 4 it is a number of 64 bits.
fn stepped(value: i128, depth: Depth) -> i32
    requires value { IsBelow (2 ^ (7 * depth) * 2 ^ 30) value }
    ensures floor { IsFloor (steps_of depth) value result }
    ensures small { IsWithin (pos 65536) result }
{
    let times = steps_of(depth);
    if depth.levels() <= 4 {
        floor_short(value as i64, times) as i32
    } else {
        floor_by(value, times) as i32
    }
}

// A step has 2 to this power.
fn steps_of(depth: Depth) -> u32
    ensures { result ≡ steps_of depth }
{
    14 + 7 * u32::from(depth.levels())
}

// A value by a power of 2, rounded down.
pub(crate) fn floor_by(value: i128, times: u32) -> i128
    requires { times ≤ 70 }
    ensures { IsFloor times value result }
{
    value >> times
}

// The same of a value of 64 bits.
pub(crate) fn floor_short(value: i64, times: u32) -> i64
    requires { times ≤ 42 }
    ensures { IsFloor times value result }
{
    value >> times
}

/// The greater of two numbers.
pub(crate) fn greater(a: i32, b: i32) -> i32
    ensures either { (result ≡ a) ⊎ (result ≡ b) }
    ensures first { a ≤ℤ result }
    ensures second { b ≤ℤ result }
{
    if a < b { b } else { a }
}

// A point along the direction of a lane.
pub(crate) fn lane_at(lanes: &Lanes, p: &Point, i: usize) -> i32
    requires place { i < 112 }
    requires lanes { AreSmallLanes lanes.now }
    requires point { IsSmallPoint p.now }
    ensures exact { result ≡ lane_value lanes.now p.now i }
    ensures small { IsBelow 800000000 result }
{
    lane_times(lanes.x[i], p.x) + lane_times(lanes.y[i], p.y) + lane_times(lanes.z[i], p.z)
}

fn lane_times(weight: i32, value: i32) -> i32
    requires weight { IsBelow 4001 weight }
    requires value { IsWithin (pos 65536) value }
    ensures exact { result ≡ weight *ℤ value }
    ensures small { IsWithin (pos 262144000) result }
{
    weight * value
}
