//! The bounds of a trajectory.

ghost use Rattle.std.specs.Prelude.{◌≡◌, ℕ, ◌^◌, ◌≤◌, ◌<◌, ◌∷◌, [], pos, All, length};
ghost use Rattle.traj_codec.specs.Spelling.{HasDuration};
ghost use Rattle.speed_bound.specs.Speed.{KeepsSpeed, speed};

use crate::rates::greatest_rate;
use fleet_curves::formed_law;
use traj_codec::Traj;
use whole_numbers::Depth;

/// How fast a trajectory is at most on x, y and z, in micrometres per second: on each axis the greatest over its
/// segments and their 2^`depth` parts of the least whole number that is not below 7 * 10^6 * 2^depth * m / (5040 * 2^(7
/// depth) * ms). Here ms is how long the segment lasts, and m the widest step between neighbouring control values of
/// the part.
///
/// Between any two instants p / q and r / s of the trajectory, for all whole numbers, the decoded position on each axis
/// moves by at most that speed times the time between them. Takes no memory.
pub fn bound(t: &Traj, depth: Depth) -> [i64; 3]
    requires some { 1 ≤ length t.now.segments }
    requires durations { All HasDuration t.now.segments }
    ensures exact { result ≡ pos (speed depth t.now 0) ∷ pos (speed depth t.now 1) ∷ pos (speed depth t.now 2) ∷ [] }
    ensures keeps { (axis : ℕ) → axis ≤ 2 → KeepsSpeed t.now axis (speed depth t.now axis) }
    ensures small { (axis : ℕ) → axis ≤ 2 → speed depth t.now axis < 2 ^ 50 }
{
    formed_law(t);
    [
        greatest_rate::<1>(t, 0, depth, 0) as i64,
        greatest_rate::<1>(t, 1, depth, 0) as i64,
        greatest_rate::<1>(t, 2, depth, 0) as i64,
    ]
}
