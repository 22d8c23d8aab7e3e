//! The bounds of a trajectory on its acceleration.

ghost use Rattle.std.specs.Prelude.{◌≡◌, ℕ, ◌^◌, ◌≤◌, ◌<◌, ◌∷◌, [], pos, All};
ghost use Rattle.traj_codec.specs.Spelling.{HasDuration};
ghost use Rattle.dynamics_bound.specs.Accelerations.{KeepsAcceleration, acceleration};

use fleet_curves::formed_law;
use speed_bound::greatest_rate;
use traj_codec::Traj;
use whole_numbers::Depth;

/// How fast the velocity of a trajectory changes at most within its segments on x, y and z, in micrometres per second
/// squared: on each axis the greatest over its segments and their 2^`depth` parts of the least whole number that is not
/// below 42 * 10^9 * 4^depth * m / (5040 * 2^(7 depth) * ms^2). Here ms is how long the segment lasts, and m the widest
/// second difference of the part's control values.
///
/// Between any three instants of a segment, whatever fractions they are, the mean velocity changes by at most that
/// number times half the time between the first and the last. Takes no memory.
pub fn bound(t: &Traj, depth: Depth) -> [i64; 3]
    requires durations { All HasDuration t.now.segments }
    ensures exact { result ≡ pos (acceleration depth t.now 0) ∷ pos (acceleration depth t.now 1)
        ∷ pos (acceleration depth t.now 2) ∷ [] }
    ensures keeps { (axis : ℕ) → axis ≤ 2 → KeepsAcceleration t.now axis (acceleration depth t.now axis) }
    ensures small { (axis : ℕ) → axis ≤ 2 → acceleration depth t.now axis < 2 ^ 53 }
{
    formed_law(t);
    [
        greatest_rate::<2>(t, 0, depth, 0) as i64,
        greatest_rate::<2>(t, 1, depth, 0) as i64,
        greatest_rate::<2>(t, 2, depth, 0) as i64,
    ]
}
