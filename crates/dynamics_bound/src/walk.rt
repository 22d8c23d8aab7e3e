//! A walk over the segments of a trajectory.

ghost use Rattle.std.specs.Prelude.{◌≡◌, ◌+◌, ◌^◌, ◌≤◌, ◌<◌, ◌∷◌, All, length, max};
ghost use Rattle.traj_codec.specs.Spelling.{HasDuration, stored};
ghost use Rattle.traj_codec.specs.Positions.{value_after};
ghost use Rattle.dynamics_bound.specs.Accelerations.{acceleration_in};
ghost use Rattle.dynamics_bound.specs.Edges.{first_step, jump, jump_between, last_step, rest};
ghost use Rattle.dynamics_bound.specs.Steps.{three, walk_at};

use crate::velocity::{Velocity, first_velocity, jump_between, last_velocity};
use fleet_curves::value_after;
use speed_bound::element_rate;
use traj_codec::{Element, Traj};
use whole_numbers::Depth;

/// Where a walk is on an axis, in millimetres, and the velocity with which it arrives there.
#[derive(Clone, Copy)]
pub struct Reached {
    pub value: i16,
    pub arrival: Velocity,
}

/// A walk at an edge: the beginning of a segment, or the end of the last one.
#[derive(Clone, Copy)]
pub struct Walk {
    pub x: Reached,
    pub y: Reached,
    pub z: Reached,
}

impl Walk {
    /// The walk at the beginning of a trajectory, where it rests.
    pub fn start(t: &Traj) -> Walk
        ensures { result ≡ walk_at t.now 0 }
    {
        Walk {
            x: resting(t.start[0]),
            y: resting(t.start[1]),
            z: resting(t.start[2]),
        }
    }

    /// The walk at the end of the segment with this number.
    pub fn next(&self, t: &Traj, k: usize) -> Walk
        requires here { self.now ≡ walk_at t.now k }
        requires inside { k < length t.now.segments }
        ensures { result ≡ walk_at t.now (k + 1) }
    {
        let s = &t.segments.as_slice()[k];
        Walk {
            x: self.x.after(s.elements[0], s.ms),
            y: self.y.after(s.elements[1], s.ms),
            z: self.z.after(s.elements[2], s.ms),
        }
    }

    /// The jumps on x, y and z at this edge, in micrometres per second.
    pub fn jumps(&self, t: &Traj, k: usize) -> [u64; 3]
        requires here { self.now ≡ walk_at t.now k }
        requires inside { k ≤ length t.now.segments }
        requires durations { All HasDuration t.now.segments }
        ensures exact { result ≡ three (λ axis. jump t.now axis k) }
        ensures small { All (λ v. v < 2 ^ 53) result }
    {
        let segments = t.segments.as_slice();
        if k == segments.len() {
            return [self.x.stop(), self.y.stop(), self.z.stop()];
        }
        let s = &segments[k];
        [
            self.x.jump(s.elements[0], s.ms),
            self.y.jump(s.elements[1], s.ms),
            self.z.jump(s.elements[2], s.ms),
        ]
    }

    /// The bounds on the acceleration in the segment with this number, by its parts of a depth, in micrometres per
    /// second squared; on each axis no less than `most`.
    pub fn accelerations(&self, t: &Traj, k: usize, depth: Depth, most: u64) -> [u64; 3]
        requires here { self.now ≡ walk_at t.now k }
        requires inside { k < length t.now.segments }
        requires durations { All HasDuration t.now.segments }
        requires most { most < 2 ^ 53 }
        ensures exact { result ≡ three (λ axis. max most (acceleration_in depth t.now axis k)) }
        ensures small { All (λ v. v < 2 ^ 53) result }
    {
        let s = &t.segments.as_slice()[k];
        [
            element_rate::<2>(self.x.value, s.elements[0], s.ms, depth, most),
            element_rate::<2>(self.y.value, s.elements[1], s.ms, depth, most),
            element_rate::<2>(self.z.value, s.elements[2], s.ms, depth, most),
        ]
    }
}

fn resting(value: i16) -> Reached
    ensures { result ≡ record { value = value; arrival = rest } }
{
    Reached {
        value,
        arrival: Velocity { step: 0, ms: 1 },
    }
}

impl Reached {
    // The end of an element that begins here and lasts so long.
    fn after(&self, element: Element, ms: u16) -> Reached
        ensures { result ≡ record {
          value = value_after self.now.value element;
          arrival = record { step = last_step (self.now.value ∷ stored element); ms = ms };
        } }
    {
        Reached {
            value: value_after(self.value, element),
            arrival: last_velocity(self.value, element, ms),
        }
    }

    // The jump where this element begins.
    fn jump(&self, element: Element, ms: u16) -> u64
        requires arrived { 1 ≤ self.now.arrival.ms }
        requires duration { 1 ≤ ms }
        ensures exact { result ≡ jump_between self.now.arrival
            (record { step = first_step (self.now.value ∷ stored element); ms = ms }) }
        ensures small { result < 2 ^ 53 }
    {
        jump_between(self.arrival, first_velocity(self.value, element, ms))
    }

    fn stop(&self) -> u64
        requires arrived { 1 ≤ self.now.arrival.ms }
        ensures exact { result ≡ jump_between self.now.arrival rest }
        ensures small { result < 2 ^ 53 }
    {
        jump_between(self.arrival, Velocity { step: 0, ms: 1 })
    }
}
