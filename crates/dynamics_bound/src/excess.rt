//! The first acceleration or jump above a limit.

ghost use Rattle.std.specs.Prelude.{◌≡◌, ℕ, ◌^◌, ◌≤◌, ◌<◌, Some, All, IfNone, IfSome, length};
ghost use Rattle.traj_codec.specs.Spelling.{HasDuration};
ghost use Rattle.dynamics_bound.specs.Excesses.{IsWithinLimits, above, first_excess, jumps_at, sharp_at};
ghost use Rattle.dynamics_bound.specs.Steps.{three, walk_at};

use crate::walk::Walk;
use traj_codec::Traj;
use whole_numbers::Depth;

/// No acceleration is above this.
const MOST: u64 = 9_007_199_254_740_991;

/// What must not be exceeded. Where there is no limit, nothing exceeds it.
#[derive(Clone, Copy)]
pub struct Limits {
    /// The bound on the acceleration in a segment, in micrometres per second squared.
    pub acceleration: Option<u64>,
    /// A jump of the velocity at an edge, in micrometres per second.
    pub jump: Option<u64>,
}

/// Which limit is exceeded.
#[derive(Clone, Copy)]
pub enum Kind {
    Acceleration,
    Jump,
}

/// What exceeds a limit.
#[derive(Clone, Copy)]
pub struct Excess {
    pub kind: Kind,
    /// The segment in which the acceleration is, or at whose beginning the jump is, from 0. As many as there are
    /// segments: it is at the last instant.
    pub segment: usize,
    /// 0 to 2 for x, y and z.
    pub axis: u8,
    /// In micrometres per second squared, or of a jump in micrometres per second.
    pub value: i64,
}

/// The first acceleration or jump above its limit, in the order of segments: in each the bound on its acceleration by
/// parts of a depth, and then the jump at its beginning; of both x before y before z. Takes no memory.
pub fn first_above(t: &Traj, limits: Limits, depth: Depth) -> Option<Excess>
    requires durations { All HasDuration t.now.segments }
    ensures exact { result ≡ first_excess limits depth t.now }
    ensures none { IfNone result (IsWithinLimits limits depth t.now) }
    ensures named { IfSome result (λ e. (e.axis ≤ 2) × (e.segment ≤ length t.now.segments)) }
{
    let segments = t.segments.as_slice().len();
    let mut walk = Walk::start(t);
    for k in 0..segments {
        if let Some(excess) = sharp_at(&walk, t, k, limits.acceleration, depth) {
            return Some(excess);
        }
        if let Some(excess) = jumps_at(&walk, t, k, limits.jump) {
            return Some(excess);
        }
        walk = walk.next(t, k);
    }
    jumps_at(&walk, t, segments, limits.jump)
}

// The first acceleration in a segment that is above the limit. Parts that are not above it aren't halved.
fn sharp_at(walk: &Walk, t: &Traj, k: usize, limit: Option<u64>, depth: Depth) -> Option<Excess>
    requires here { walk.now ≡ walk_at t.now k }
    requires inside { k < length t.now.segments }
    requires durations { All HasDuration t.now.segments }
    ensures { result ≡ sharp_at limit depth t.now k }
{
    let most = limit?;
    let values = walk.accelerations(t, k, depth, most.min(MOST));
    above(Kind::Acceleration, most, k, values)
}

// The first jump at an edge that is above the limit.
fn jumps_at(walk: &Walk, t: &Traj, k: usize, limit: Option<u64>) -> Option<Excess>
    requires here { walk.now ≡ walk_at t.now k }
    requires inside { k ≤ length t.now.segments }
    requires durations { All HasDuration t.now.segments }
    ensures { result ≡ jumps_at limit t.now k }
{
    let most = limit?;
    above(Kind::Jump, most, k, walk.jumps(t, k))
}

// The first of three numbers that is above the limit.
fn above(kind: Kind, most: u64, segment: usize, values: [u64; 3]) -> Option<Excess>
    requires small { All (λ v. v < 2 ^ 53) values }
    ensures { (f : ℕ → ℕ) → values ≡ three f → result ≡ above kind (Some most) segment f }
{
    for axis in 0..3u8 {
        let value = values[axis as usize];
        if most < value {
            return Some(Excess {
                kind,
                segment,
                axis,
                value: value as i64,
            });
        }
    }
    None
}
