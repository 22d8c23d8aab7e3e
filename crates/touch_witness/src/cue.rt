//! Where two drones are closest in one cue.

ghost use Rattle.std.specs.Prelude.{◌≡◌, ◌+◌, ◌^◌, ◌≤◌, ◌<◌, length, All};
ghost use Rattle.whole_numbers.specs.Limits.{most_cues, most_drones};
ghost use Rattle.fleet_curves.specs.Raised.{IsOneShow, cues_in};
ghost use Rattle.sep_parts.specs.Slots.{IsSlot};
ghost use Rattle.touch_witness.specs.Sites.{IsClosestIn};
ghost use Rattle.touch_witness.specs.Steps.{AreStarts, HasCue, IsLeastOf, IsLeftAt};

use crate::axes::Axes;
use crate::distance::{left_side, right_side};
use crate::nearest::level;
use crate::places::{Start, next_starts, places, starts};
use crate::site::Closest;
use sep_parts::Slot;
use traj_codec::Traj;
use whole_numbers::{Fine, MOST_DRONES};

// A fraction of a cue, and the left side of the test there.
#[derive(Clone, Copy)]
struct Fraction {
    at: u8,
    left: i128,
}

/// The listed instant of a slot's cue at which the left side of the test is least for its pair, for ellipsoids of these
/// half axes: of equals the first. The trajectories are those of one show, each with a segment a cue. Takes no memory.
pub fn closest_in(trajs: &[Traj], slot: Slot, axes: Axes, fine: Fine) -> Closest
    requires show { IsOneShow trajs.now }
    requires slot { IsSlot (length trajs.now) (cues_in trajs.now) slot }
    ensures { IsClosestIn trajs.now axes.r axes.h fine slot result }
{
    let here = starts_in(trajs, slot.cue);
    let best = least_of(trajs, &here, slot, axes, fine);
    let right = right_side(axes, fine);
    Closest {
        cue: slot.cue,
        at: best.at,
        a: slot.a,
        b: slot.b,
        level: level(best.left as u128, right as u128),
    }
}

fn starts_in(trajs: &[Traj], cue: u16) -> [Start; MOST_DRONES]
    requires show { IsOneShow trajs.now }
    requires cue { cue < cues_in trajs.now }
    ensures { AreStarts trajs.now cue result }
{
    let mut here = starts(trajs);
    for k in 0..cue as usize {
        here = next_starts(trajs, &here, k);
    }
    here
}

// The closest of the fractions of a slot's cue.
fn least_of(
    trajs: &[Traj],
    starts: &[Start; MOST_DRONES],
    slot: Slot,
    axes: Axes,
    fine: Fine,
) -> Fraction
    requires few { length trajs.now ≤ most_drones }
    requires pair { slot.a < slot.b }
    requires drone { slot.b < length trajs.now }
    requires cue { All (HasCue slot.cue) trajs.now }
    requires starts { AreStarts trajs.now slot.cue starts.now }
    ensures { IsLeastOf trajs.now axes.r axes.h fine slot (2 ^ fine + 1) result.at result.left }
{
    let mut best = Fraction {
        at: 0,
        left: left_at(trajs, starts, slot, 0, axes, fine),
    };
    for at in 1..fine.parts() + 1 {
        let left = left_at(trajs, starts, slot, at, axes, fine);
        if left < best.left {
            best = Fraction { at, left };
        }
    }
    best
}

// The left side of the test for a slot's pair at a fraction of its cue.
fn left_at(
    trajs: &[Traj],
    starts: &[Start; MOST_DRONES],
    slot: Slot,
    at: u8,
    axes: Axes,
    fine: Fine,
) -> i128
    requires few { length trajs.now ≤ most_drones }
    requires pair { slot.a < slot.b }
    requires drone { slot.b < length trajs.now }
    requires cue { All (HasCue slot.cue) trajs.now }
    requires starts { AreStarts trajs.now slot.cue starts.now }
    requires at { at ≤ 2 ^ fine }
    ensures { IsLeftAt trajs.now axes.r axes.h fine slot at result }
{
    let points = places(trajs, starts, slot.cue as usize, at, fine);
    left_side(&points[slot.a as usize], &points[slot.b as usize], axes)
}
