//! Where drones are at an instant.

ghost use Rattle.std.specs.Prelude.{◌≡◌, ℕ, ◌+◌, ◌*◌, ◌^◌, ◌≤◌, ◌<◌, ◌∷◌, [], ℤ, pos, ◌*ℤ◌, ◌≤ℤ◌, ◌-◌, All, length};
ghost use Rattle.whole_numbers.specs.Bernstein.{bern};
ghost use Rattle.bezier_core.specs.Curves.{IsLength};
ghost use Rattle.whole_numbers.specs.Sums.{power};
ghost use Rattle.bezier_core.specs.Steps.{IsWithin};
ghost use Rattle.traj_codec.specs.Spelling.{IsNumber};
ghost use Rattle.traj_codec.specs.Positions.{element_on, value_after};
ghost use Rattle.whole_numbers.specs.Limits.{most_drones, most_fine};
ghost use Rattle.touch_witness.specs.Steps.{ArePlaces, AreStarts, HasCue, IsNear, IsPlace, IsShort, IsStart, position};
ghost use Rattle.touch_witness.specs.Steps.{reach};

use bezier_core::Bez;
use fleet_curves::{row_of_four, value_after};
use traj_codec::{Element, Segment, Traj};
use whole_numbers::{Fine, MOST_DRONES};

// What stands in the places of drones that are not there.
const NO_START: Start = Start { x: 0, y: 0, z: 0 };

const NO_POINT: Point = Point { x: 0, y: 0, z: 0 };

/// Where a drone begins a cue, in millimetres.
#[derive(Clone, Copy)]
pub struct Start {
    pub x: i16,
    pub y: i16,
    pub z: i16,
}

/// Where a drone is at an instant: numerators over the seventh power of the instant's denominator, in millimetres.
#[derive(Clone, Copy)]
pub struct Point {
    pub x: i128,
    pub y: i128,
    pub z: i128,
}

/// Where each drone begins the first cue.
pub fn starts(trajs: &[Traj]) -> [Start; MOST_DRONES]
    requires { length trajs.now ≤ most_drones }
    ensures { AreStarts trajs.now 0 result }
{
    let mut all = [NO_START; MOST_DRONES];
    for k in 0..trajs.len() {
        all[k] = first_start(&trajs[k]);
    }
    all
}

/// Where each drone begins the next cue.
pub fn next_starts(
    trajs: &[Traj],
    starts: &[Start; MOST_DRONES],
    cue: usize,
) -> [Start; MOST_DRONES]
    requires few { length trajs.now ≤ most_drones }
    requires cue { All (HasCue cue) trajs.now }
    requires starts { AreStarts trajs.now cue starts.now }
    ensures { AreStarts trajs.now (cue + 1) result }
{
    let mut all = [NO_START; MOST_DRONES];
    for k in 0..trajs.len() {
        all[k] = next_start(&trajs[k], starts[k], cue);
    }
    all
}

/// Where each drone is at a fraction of a cue.
pub fn places(
    trajs: &[Traj],
    starts: &[Start; MOST_DRONES],
    cue: usize,
    at: u8,
    fine: Fine,
) -> [Point; MOST_DRONES]
    requires few { length trajs.now ≤ most_drones }
    requires cue { All (HasCue cue) trajs.now }
    requires starts { AreStarts trajs.now cue starts.now }
    requires at { at ≤ 2 ^ fine }
    ensures places { ArePlaces trajs.now fine cue at result }
    ensures short { All IsShort result }
    ensures near { All (IsNear fine) result }
{
    let mut all = [NO_POINT; MOST_DRONES];
    for k in 0..trajs.len() {
        all[k] = place_of(&trajs[k], starts[k], cue, at, fine);
    }
    all
}

fn first_start(t: &Traj) -> Start
    ensures { IsStart t.now 0 result }
{
    Start {
        x: t.start[0],
        y: t.start[1],
        z: t.start[2],
    }
}

fn next_start(t: &Traj, start: Start, cue: usize) -> Start
    requires cue { HasCue cue t.now }
    requires start { IsStart t.now cue start }
    ensures { IsStart t.now (cue + 1) result }
{
    let s = &t.segments.as_slice()[cue];
    Start {
        x: value_after(start.x, s.elements[0]),
        y: value_after(start.y, s.elements[1]),
        z: value_after(start.z, s.elements[2]),
    }
}

fn place_of(t: &Traj, start: Start, cue: usize, at: u8, fine: Fine) -> Point
    requires cue { HasCue cue t.now }
    requires start { IsStart t.now cue start }
    requires at { at ≤ 2 ^ fine }
    ensures place { IsPlace t.now fine cue at result }
    ensures short { IsShort result }
    ensures near { IsNear fine result }
{
    place(start, &t.segments.as_slice()[cue], at, fine)
}

fn place(start: Start, s: &Segment, at: u8, fine: Fine) -> Point
    requires at { at ≤ 2 ^ fine }
    ensures x { result.x ≡ position start.x (element_on s.now 0) (pos at) (pos (2 ^ fine)) }
    ensures y { result.y ≡ position start.y (element_on s.now 1) (pos at) (pos (2 ^ fine)) }
    ensures z { result.z ≡ position start.z (element_on s.now 2) (pos at) (pos (2 ^ fine)) }
    ensures short { IsShort result }
    ensures near { IsNear fine result }
{
    Point {
        x: position(start.x, s.elements[0], at, fine),
        y: position(start.y, s.elements[1], at, fine),
        z: position(start.z, s.elements[2], at, fine),
    }
}

fn position(first: i16, element: Element, at: u8, fine: Fine) -> i128
    requires at { at ≤ 2 ^ fine }
    ensures exact { result ≡ position first element (pos at) (pos (2 ^ fine)) }
    ensures small { IsWithin (pos (2 ^ 50)) result }
    ensures near { IsWithin (reach fine) result }
{
    match element {
        Element::Constant => value(&Bez::<1> { b: [wide(first)] }, at, fine, 7),
        Element::Linear { v } => value(
            &Bez::<2> {
                b: [wide(first), wide(v)],
            },
            at,
            fine,
            6,
        ),
        Element::Cubic { v } => value(&cubic(first, v), at, fine, 4),
        Element::Seven { v } => value(&seven(first, v), at, fine, 0),
    }
}

// The value of a curve at a fraction, times more powers of the fraction's denominator.
fn value<const N: usize>(curve: &Bez<N>, at: u8, fine: Fine, more: u32) -> i128
    requires length { IsLength N }
    requires size { length curve.now.b ≡ N }
    requires values { All IsNumber curve.now.b }
    requires degree { N + more ≡ 8 }
    requires at { at ≤ 2 ^ fine }
    ensures exact { result ≡ power (pos (2 ^ fine)) (8 - length curve.now.b)
        *ℤ bern curve.now.b (pos at) (pos (2 ^ fine)) }
    ensures small { IsWithin (pos (2 ^ 50)) result }
    ensures near { IsWithin (reach fine) result }
{
    let whole = part_power(fine, 1);
    part_power(fine, more) * curve.value(at as i128, whole)
}

/// A power of 2^fine.
pub fn part_power(fine: Fine, times: u32) -> i128
    requires times { times ≤ 14 }
    ensures fine { fine ≤ most_fine }
    ensures exact { result ≡ power (pos (2 ^ fine)) times }
    ensures positive { pos 1 ≤ℤ result }
    ensures small { result ≤ℤ pos (32 ^ times) }
{
    (fine.parts() as u128).pow(times) as i128
}

fn cubic(first: i16, v: [i16; 3]) -> Bez<4>
    ensures exact { result.b ≡ first ∷ v }
    ensures size { length result.b ≡ 4 }
    ensures short { All IsNumber result.b }
{
    Bez {
        b: row_of_four(first, v),
    }
}

fn seven(first: i16, v: [i16; 7]) -> Bez<8>
    ensures exact { result.b ≡ first ∷ v }
    ensures size { length result.b ≡ 8 }
    ensures short { All IsNumber result.b }
{
    Bez {
        b: [
            wide(first),
            wide(v[0]),
            wide(v[1]),
            wide(v[2]),
            wide(v[3]),
            wide(v[4]),
            wide(v[5]),
            wide(v[6]),
        ],
    }
}

// A value with room for products.
fn wide(x: i16) -> i128
    ensures exact { result ≡ x }
    ensures short { IsNumber result }
{
    x as i128
}
