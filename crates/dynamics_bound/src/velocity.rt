//! Velocities at the two ends of a segment.

ghost use Rattle.std.specs.Prelude.{◌≡◌, ◌*◌, ◌^◌, ◌≤◌, ◌<◌, ◌∷◌, pos, ◌-ℤ◌, ◌*ℤ◌, unsigned_abs};
ghost use Rattle.std.specs.Int.{div_ceil};
ghost use Rattle.whole_numbers.specs.Numbers.{IsBelow};
ghost use Rattle.bezier_core.specs.Steps.{IsWithin};
ghost use Rattle.traj_codec.specs.Spelling.{stored};
ghost use Rattle.dynamics_bound.specs.Edges.{first_step, jump_between, last_step};

use traj_codec::Element;

/// A velocity on an axis: `step` millimetres in `ms` milliseconds.
#[derive(Clone, Copy)]
pub struct Velocity {
    pub step: i32,
    pub ms: u16,
}

/// The velocity with which an element begins that begins with this value, in millimetres, and lasts so long.
pub fn first_velocity(value: i16, element: Element, ms: u16) -> Velocity
    ensures { result ≡ record { step = first_step (value ∷ stored element); ms = ms } }
{
    Velocity {
        step: first_step(value, element),
        ms,
    }
}

/// The velocity with which it ends.
pub fn last_velocity(value: i16, element: Element, ms: u16) -> Velocity
    ensures { result ≡ record { step = last_step (value ∷ stored element); ms = ms } }
{
    Velocity {
        step: last_step(value, element),
        ms,
    }
}

// The degree times the first step.
fn first_step(value: i16, element: Element) -> i32
    ensures { result ≡ first_step (value ∷ stored element) }
{
    match element {
        Element::Constant => 0,
        Element::Linear { v } => way(value, v),
        Element::Cubic { v } => 3 * way(value, v[0]),
        Element::Seven { v } => 7 * way(value, v[0]),
    }
}

// The degree times the last step.
fn last_step(value: i16, element: Element) -> i32
    ensures { result ≡ last_step (value ∷ stored element) }
{
    match element {
        Element::Constant => 0,
        Element::Linear { v } => way(value, v),
        Element::Cubic { v } => 3 * way(v[1], v[2]),
        Element::Seven { v } => 7 * way(v[5], v[6]),
    }
}

fn way(from: i16, to: i16) -> i32
    ensures exact { result ≡ to -ℤ from }
    ensures small { IsBelow 65536 result }
{
    i32::from(to) - i32::from(from)
}

/// How much two velocities differ, in micrometres per second, rounded up.
pub fn jump_between(v: Velocity, w: Velocity) -> u64
    requires v { 1 ≤ v.ms }
    requires w { 1 ≤ w.ms }
    ensures exact { result ≡ jump_between v w }
    ensures small { result < 2 ^ 53 }
{
    let change = apart(product(w.step, v.ms), product(v.step, w.ms));
    per_second(change, v.ms, w.ms)
}

fn product(step: i32, ms: u16) -> i64
    ensures exact { result ≡ step *ℤ pos ms }
    ensures small { IsWithin (pos (2 ^ 31 * ms)) result }
{
    i64::from(step) * i64::from(ms)
}

fn apart(a: i64, b: i64) -> u64
    requires a { IsBelow (2 ^ 60) a }
    requires b { IsBelow (2 ^ 60) b }
    ensures { result ≡ unsigned_abs (a -ℤ b) }
{
    (a - b).unsigned_abs()
}

// The difference of two fractions over both their denominators, in micrometres per second, rounded up.
fn per_second(change: u64, v_ms: u16, w_ms: u16) -> u64
    requires v { 1 ≤ v_ms }
    requires w { 1 ≤ w_ms }
    requires change { change ≤ 2 ^ 32 * (v_ms * w_ms) }
    ensures exact { result ≡ div_ceil (1000000 * change) (v_ms * w_ms) }
    ensures small { result < 2 ^ 53 }
{
    let way = 1_000_000 * change as u128;
    let time = v_ms as u128 * w_ms as u128;
    way.div_ceil(time) as u64
}
