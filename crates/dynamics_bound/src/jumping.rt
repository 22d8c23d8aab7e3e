//! The greatest jumps of a trajectory's velocity.

ghost use Rattle.std.specs.Prelude.{◌≡◌, ℕ, suc, ◌^◌, ◌≤◌, ◌<◌, ◌∷◌, [], ◌&&◌, nat_eq, All, length};
ghost use Rattle.traj_codec.specs.Spelling.{HasDuration};
ghost use Rattle.dynamics_bound.specs.Edges.{AreSame, HasVelocities, IsGreatestJump, arrival, departure, greatest_jump};
ghost use Rattle.dynamics_bound.specs.Edges.{greatest_of, is_rest_at, jump};
ghost use Rattle.dynamics_bound.specs.Steps.{greatest_before, three};
ghost use Rattle.traj_codec.specs.declared.traj.Traj.{Traj};

use crate::walk::Walk;
use fleet_curves::formed_law;
use traj_codec::Traj;

/// The greatest jump of a velocity on an axis.
#[derive(Clone, Copy)]
pub struct Jump {
    /// How much the velocity changes, in micrometres per second, rounded up.
    pub speed: i64,
    /// The first segment at whose beginning it does, from 0. As many as there are segments: it does at the last
    /// instant.
    pub segment: usize,
}

/// On x, y and z the greatest jump of the velocity between segments, from rest at the first instant and to rest at the
/// last one. It is exact but for being rounded up, and 0 just where both velocities are the same.
///
/// That these are the velocities is what `velocities` says: near each of its ends a segment departs from the line with
/// that velocity by at most half its bound on acceleration times the square of the time. Takes no memory.
pub fn jumps(t: &Traj) -> [Jump; 3]
    requires durations { All HasDuration t.now.segments }
    ensures exact { result ≡ greatest_jump t.now 0 ∷ greatest_jump t.now 1 ∷ greatest_jump t.now 2 ∷ [] }
    ensures greatest { (axis : ℕ) → IsGreatestJump t.now axis (greatest_jump t.now axis) }
    ensures velocities { (axis : ℕ) → axis ≤ 2 → HasVelocities t.now axis }
    ensures none { (axis edge : ℕ) → edge ≤ length t.now.segments → jump t.now axis edge ≡ 0
        → AreSame (arrival t.now axis edge) (departure t.now axis edge) }
    ensures same { (axis edge : ℕ) → edge ≤ length t.now.segments
        → AreSame (arrival t.now axis edge) (departure t.now axis edge)
        → jump t.now axis edge ≡ 0 }
{
    formed_law(t);
    let segments = t.segments.as_slice().len();
    let mut walk = Walk::start(t);
    let mut most = none();
    for k in 0..segments {
        most = greater(most, walk.jumps(t, k), k);
        walk = walk.next(t, k);
    }
    most = greater(most, walk.jumps(t, segments), segments);
    [most.x, most.y, most.z]
}

/// Whether a trajectory begins at rest on x, y and z, and whether it ends at rest.
pub fn rests(t: &Traj) -> (bool, bool)
    requires durations { All HasDuration t.now.segments }
    ensures first { result.0 ≡ is_rest_at t.now 0 }
    ensures last { result.1 ≡ is_rest_at t.now (length t.now.segments) }
{
    let segments = t.segments.as_slice().len();
    let mut walk = Walk::start(t);
    let first = walk.jumps(t, 0);
    for k in 0..segments {
        walk = walk.next(t, k);
    }
    (are_none(first), are_none(walk.jumps(t, segments)))
}

// The greatest jumps so far.
#[derive(Clone, Copy)]
struct Greatest {
    x: Jump,
    y: Jump,
    z: Jump,
}

// Before the first edge there is none.
fn none() -> Greatest
    ensures { (t : Traj) → result ≡ greatest_before t 0 }
{
    let still = Jump {
        speed: 0,
        segment: 0,
    };
    Greatest {
        x: still,
        y: still,
        z: still,
    }
}

// The greatest jumps, after those at one edge more.
fn greater(most: Greatest, speeds: [u64; 3], edge: usize) -> Greatest
    requires small { All (λ v. v < 2 ^ 53) speeds }
    ensures { (t : Traj) → most ≡ greatest_before t edge → speeds ≡ three (λ axis. jump t axis edge)
        → result ≡ greatest_before t (suc edge) }
{
    Greatest {
        x: or_greater(most.x, speeds[0], edge),
        y: or_greater(most.y, speeds[1], edge),
        z: or_greater(most.z, speeds[2], edge),
    }
}

// The greater of two jumps, and the first where they are the same.
fn or_greater(most: Jump, speed: u64, edge: usize) -> Jump
    requires small { speed < 2 ^ 53 }
    ensures { (f : ℕ → ℕ) → most ≡ greatest_of edge f → speed ≡ f edge → result ≡ greatest_of (suc edge) f }
{
    let speed = speed as i64;
    if most.speed < speed {
        return Jump {
            speed,
            segment: edge,
        };
    }
    most
}

fn are_none(speeds: [u64; 3]) -> bool
    ensures { (f : ℕ → ℕ) → speeds ≡ three f → result ≡ (nat_eq (f 0) 0 && nat_eq (f 1) 0 && nat_eq (f 2) 0) }
{
    speeds[0] == 0 && speeds[1] == 0 && speeds[2] == 0
}
