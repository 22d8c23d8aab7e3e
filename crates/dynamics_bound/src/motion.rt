//! What is found of a trajectory: how fast its speed changes at most, and where it jumps, by the cues of a show.
ghost use Rattle.std.specs.Prelude.{◌≡◌, ◌≤◌, length, sum, unsigned_abs, All};
ghost use Rattle.whole_numbers.specs.Limits.{most_segments, most_cues};
ghost use Rattle.traj_codec.specs.Positions.{durations};
ghost use Rattle.traj_codec.specs.Spelling.{HasDuration};
ghost use Rattle.dynamics_bound.specs.Excesses.{IsWithinLimits};
ghost use Rattle.dynamics_bound.specs.Motions.{KeepsMotion, cue_from, cue_of, greater, greater_axes, motion, nothing};

use crate::acceleration::bound;
use crate::excess::Limits;
use crate::jumping::{jumps, rests};
use traj_codec::{Segment, Traj};
use whole_numbers::Depth;

/// Three numbers, on x, y and z.
#[derive(Clone, Copy)]
pub struct Axes {
    pub x: u64,
    pub y: u64,
    pub z: u64,
}

/// The greatest accelerations, in micrometres per second squared, and the greatest jumps of velocity, in micrometres
/// per second.
#[derive(Clone, Copy)]
pub struct Extremes {
    pub accelerations: Axes,
    pub jumps: Axes,
}

/// What is found of a drone: its extremes, the cues, from 1, at whose beginnings its greatest jumps are, and whether it
/// is at rest at its first and at its last instant.
#[derive(Clone, Copy)]
pub struct Motion {
    pub most: Extremes,
    pub cues: Axes,
    pub begins_at_rest: bool,
    pub ends_at_rest: bool,
}

impl Axes {
    fn greater(self, other: Axes) -> Axes
        ensures { result ≡ greater_axes self other }
    {
        Axes {
            x: self.x.max(other.x),
            y: self.y.max(other.y),
            z: self.z.max(other.z),
        }
    }
}

impl Extremes {
    /// The extremes of no drone.
    pub fn nothing() -> Extremes
        ensures { result ≡ nothing }
    {
        let none = Axes { x: 0, y: 0, z: 0 };
        Extremes {
            accelerations: none,
            jumps: none,
        }
    }

    /// On each axis the greater of two drones.
    pub fn greater(self, other: Extremes) -> Extremes
        ensures { result ≡ greater self other }
    {
        Extremes {
            accelerations: self.accelerations.greater(other.accelerations),
            jumps: self.jumps.greater(other.jumps),
        }
    }
}

// How long segments last together, in milliseconds.
fn milliseconds_of(segments: &[Segment]) -> u32
    requires { length segments.now ≤ most_segments }
    ensures { result ≡ sum (durations segments.now) }
{
    let mut total = 0;
    for segment in segments {
        total += u32::from(segment.ms);
    }
    total
}

// How many of these segments, one a cue, begin before an instant, in milliseconds.
fn cue_from(cues: &[Segment], instant: u32) -> u16
    requires { length cues.now ≤ most_cues }
    ensures value { result ≡ cue_from instant (durations cues.now) }
    ensures few { result ≤ most_cues }
{
    let mut left = instant;
    let mut begun = 0;
    for cue in cues {
        if left == 0 {
            return begun;
        }
        left = left.saturating_sub(u32::from(cue.ms));
        begun += 1;
    }
    begun
}

/// The cue, from 0, that begins with a segment of what a drone is sent, where `cues` has a segment for each cue. At the
/// last instant it is the number of cues. Takes no memory.
pub fn cue_of(cues: &[Segment], t: &Traj, segment: usize) -> u16
    requires cues { length cues.now ≤ most_cues }
    requires segments { length t.now.segments ≤ most_segments }
    requires inside { segment ≤ length t.now.segments }
    ensures value { result ≡ cue_of (durations cues.now) t.now segment }
    ensures few { result ≤ most_cues }
{
    cue_from(cues, milliseconds_of(&t.segments.as_slice()[..segment]))
}

// Three numbers that are none below 0.
fn axes_of(x: i64, y: i64, z: i64) -> Axes
    ensures { result ≡ record { x = unsigned_abs x; y = unsigned_abs y; z = unsigned_abs z } }
{
    Axes {
        x: x.unsigned_abs(),
        y: y.unsigned_abs(),
        z: z.unsigned_abs(),
    }
}

/// What is found of what a drone is sent, by its parts of a depth, where `cues` has a segment for each cue. Takes no
/// memory.
pub fn motion_of(t: &Traj, cues: &[Segment], depth: Depth) -> Motion
    requires segments { length t.now.segments ≤ most_segments }
    requires durations { All HasDuration t.now.segments }
    requires cues { length cues.now ≤ most_cues }
    ensures motion { result ≡ motion depth (durations cues.now) t.now }
    ensures keeps { (limits : Limits) → IsWithinLimits limits depth t.now → KeepsMotion limits depth t.now }
{
    let [x, y, z] = bound(t, depth);
    let [on_x, on_y, on_z] = jumps(t);
    let (begins_at_rest, ends_at_rest) = rests(t);
    Motion {
        most: Extremes {
            accelerations: axes_of(x, y, z),
            jumps: axes_of(on_x.speed, on_y.speed, on_z.speed),
        },
        cues: Axes {
            x: u64::from(cue_of(cues, t, on_x.segment)) + 1,
            y: u64::from(cue_of(cues, t, on_y.segment)) + 1,
            z: u64::from(cue_of(cues, t, on_z.segment)) + 1,
        },
        begins_at_rest,
        ends_at_rest,
    }
}
