//! The first touch.

ghost use Rattle.std.specs.Prelude.{◌≡◌, ℕ, ◌+◌, ◌*◌, ◌^◌, ◌≤◌, ◌<◌, None, length, All, MatchOption};
ghost use Rattle.whole_numbers.specs.Limits.{most_cues, most_drones};
ghost use Rattle.sep_parts.specs.Apart.{FlyApartExactly};
ghost use Rattle.fleet_curves.specs.Raised.{IsOneShow};
ghost use Rattle.touch_witness.specs.Sites.{IsFirstTouch, NoTouch};
ghost use Rattle.touch_witness.specs.Steps.{AllDisjoint, AllDisjointFrom, DisjointInCue, AreStarts, HasCue};
ghost use Rattle.touch_witness.specs.Steps.{IsFirstInCue, IsFirstPair, IsFirstSite, IsFirstWith, IsShort, NoneTouch};

use crate::axes::Axes;
use crate::distance::is_touching;
use crate::formed::formed_law;
use crate::places::{Point, Start, next_starts, places, starts};
use crate::site::Touch;
use traj_codec::Traj;
use whole_numbers::{Fine, MOST_DRONES};

/// The first of the listed instants and pairs at which two drones touch, for ellipsoids of these half axes: that of the
/// first cue, in it of the first of the fractions 0 / 2^`fine` to 2^`fine` / 2^`fine`, then of the first drone, then of
/// the second. At it the two closed ellipsoids share a point. None exactly where at each of these instants the closed
/// ellipsoids of any two drones share no point, and so always where drones are apart throughout the show. The
/// trajectories are those of one show, each with a segment a cue. Takes no memory.
pub fn first_touch(trajs: &Vec<Traj>, axes: Axes, fine: Fine) -> Option<Touch>
    requires show { IsOneShow trajs.now.items }
    ensures exact { MatchOption result (NoTouch trajs.now.items axes.r axes.h fine)
        (IsFirstTouch trajs.now.items axes.r axes.h fine) }
    ensures none { NoTouch trajs.now.items axes.r axes.h fine → result ≡ None }
    ensures clear { FlyApartExactly axes.r axes.h trajs.now.items → result ≡ None }
{
    first_touch_of(trajs.as_slice(), axes, fine)
}

/// The first touch of trajectories that are lent as a slice. Conditions and result as [`first_touch`].
pub fn first_touch_of(trajs: &[Traj], axes: Axes, fine: Fine) -> Option<Touch>
    requires show { IsOneShow trajs.now }
    ensures exact { MatchOption result (NoTouch trajs.now axes.r axes.h fine)
        (IsFirstTouch trajs.now axes.r axes.h fine) }
    ensures none { NoTouch trajs.now axes.r axes.h fine → result ≡ None }
    ensures clear { FlyApartExactly axes.r axes.h trajs.now → result ≡ None }
{
    formed_law(trajs);
    first_site(trajs, axes, fine)
}

// The first listed instant and pair at which the left side of the test is not above the right one.
fn first_site(trajs: &[Traj], axes: Axes, fine: Fine) -> Option<Touch>
    requires show { IsOneShow trajs.now }
    ensures { MatchOption result (NoneTouch trajs.now axes.r axes.h fine) (IsFirstSite trajs.now axes.r axes.h fine) }
{
    let mut here = starts(trajs);
    for cue in 0..trajs[0].segments.as_slice().len() {
        if let Some(touch) = touch_in_cue(trajs, &here, cue, axes, fine) {
            return Some(touch);
        }
        here = next_starts(trajs, &here, cue);
    }
    None
}

fn touch_in_cue(
    trajs: &[Traj],
    starts: &[Start; MOST_DRONES],
    cue: usize,
    axes: Axes,
    fine: Fine,
) -> Option<Touch>
    requires few { length trajs.now ≤ most_drones }
    requires cue { All (HasCue cue) trajs.now }
    requires number { cue < most_cues }
    requires starts { AreStarts trajs.now cue starts.now }
    ensures { MatchOption result (DisjointInCue trajs.now axes.r axes.h fine cue (2 ^ fine + 1))
        (IsFirstInCue trajs.now axes.r axes.h fine cue) }
{
    for at in 0..fine.parts() + 1 {
        let points = places(trajs, starts, cue, at, fine);
        if let Some((a, b)) = first_pair(&points, trajs.len(), axes, fine) {
            return Some(Touch {
                cue: cue as u16,
                at,
                a: a as u8,
                b: b as u8,
            });
        }
    }
    None
}

// The first two of the first drones that touch.
fn first_pair(
    points: &[Point; MOST_DRONES],
    drones: usize,
    axes: Axes,
    fine: Fine,
) -> Option<(usize, usize)>
    requires few { drones ≤ most_drones }
    requires short { All IsShort points.now }
    ensures { MatchOption result (AllDisjoint points.now axes.r axes.h fine drones drones)
        (λ pair. IsFirstPair points.now axes.r axes.h fine drones pair.0 pair.1) }
{
    for a in 0..drones {
        if let Some(b) = first_with(points, a, drones, axes, fine) {
            return Some((a, b));
        }
    }
    None
}

// The first drone after this one that it touches.
fn first_with(
    points: &[Point; MOST_DRONES],
    a: usize,
    drones: usize,
    axes: Axes,
    fine: Fine,
) -> Option<usize>
    requires few { drones ≤ most_drones }
    requires drone { a < drones }
    requires short { All IsShort points.now }
    ensures { MatchOption result (AllDisjointFrom points.now axes.r axes.h fine a drones)
        (IsFirstWith points.now axes.r axes.h fine a drones) }
{
    for b in a + 1..drones {
        if is_touching(&points[a], &points[b], axes, fine) {
            return Some(b);
        }
    }
    None
}
