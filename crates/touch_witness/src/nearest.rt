//! The closest of the listed instants.

ghost use Rattle.std.specs.Prelude.{◌≡◌, ℕ, ◌+◌, ◌*◌, ◌^◌, ◌≤◌, ◌<◌, length, All, MatchOption};
ghost use Rattle.whole_numbers.specs.Limits.{most_cues, most_drones};
ghost use Rattle.fleet_curves.specs.Raised.{IsOneShow, cues_in};
ghost use Rattle.touch_witness.specs.Sites.{IsClosest};
ghost use Rattle.touch_witness.specs.Steps.{AreStarts, HasCue, IsBest, IsLeastPair, IsNearestAt, IsShort, most_ratio};

use crate::axes::Axes;
use crate::distance::{left_side, right_side};
use crate::places::{Point, Start, next_starts, places, starts};
use crate::site::{Closest, Touch};
use traj_codec::Traj;
use whole_numbers::{Fine, MOST_DRONES};

// A pair of drones, and the left side of the test for it.
#[derive(Clone, Copy)]
struct Pair {
    a: usize,
    b: usize,
    left: i128,
}

// An instant and a pair, and the left side of the test there.
#[derive(Clone, Copy)]
struct Best {
    site: Touch,
    left: i128,
}

/// The listed instant and the pair with the least left side of the test, h^2 (dX^2 + dY^2) + r^2 dZ^2, for ellipsoids
/// of these half axes. Of equals it is the first, by the cue, then by the fraction 0 / 2^`fine` to 2^`fine` / 2^`fine`
/// of it, then by the first drone, then by the second. None exactly for one trajectory. The trajectories are those of
/// one show, each with a segment a cue. Takes no memory.
pub fn closest(trajs: &Vec<Traj>, axes: Axes, fine: Fine) -> Option<Closest>
    requires show { IsOneShow trajs.now.items }
    ensures { MatchOption result (length trajs.now.items ≡ 1) (IsClosest trajs.now.items axes.r axes.h fine) }
{
    closest_of(trajs.as_slice(), axes, fine)
}

/// The closest of trajectories that are lent as a slice. Conditions and result as [`closest`].
pub fn closest_of(trajs: &[Traj], axes: Axes, fine: Fine) -> Option<Closest>
    requires show { IsOneShow trajs.now }
    ensures { MatchOption result (length trajs.now ≡ 1) (IsClosest trajs.now axes.r axes.h fine) }
{
    if trajs.len() < 2 {
        return None;
    }
    let mut here = starts(trajs);
    let mut best = nearest_at(trajs, &here, 0, 0, axes, fine);
    for cue in 0..trajs[0].segments.as_slice().len() {
        best = nearest_in_cue(trajs, &here, cue, axes, fine, best);
        here = next_starts(trajs, &here, cue);
    }
    let right = right_side(axes, fine);
    Some(Closest {
        cue: best.site.cue,
        at: best.site.at,
        a: best.site.a,
        b: best.site.b,
        level: level(best.left as u128, right as u128),
    })
}

/// The floor of 1,000 times a quotient.
pub fn level(left: u128, right: u128) -> u64
    requires right { 1 ≤ right }
    requires small { right ≤ 2 ^ 116 }
    requires ratio { left ≤ most_ratio * right }
    ensures low { result * right ≤ 1000 * left }
    ensures high { 1000 * left < (result + 1) * right }
{
    (1000 * (left / right) + 1000 * (left % right) / right) as u64
}

// The closest so far, after a cue.
fn nearest_in_cue(
    trajs: &[Traj],
    starts: &[Start; MOST_DRONES],
    cue: usize,
    axes: Axes,
    fine: Fine,
    so_far: Best,
) -> Best
    requires two { 2 ≤ length trajs.now }
    requires few { length trajs.now ≤ most_drones }
    requires cue { All (HasCue cue) trajs.now }
    requires show { cue < cues_in trajs.now }
    requires number { cue < most_cues }
    requires starts { AreStarts trajs.now cue starts.now }
    requires so_far { IsBest trajs.now axes.r axes.h fine cue 0 so_far }
    ensures { IsBest trajs.now axes.r axes.h fine (cue + 1) 0 result }
{
    let mut best = so_far;
    for at in 0..fine.parts() + 1 {
        let here = nearest_at(trajs, starts, cue, at, axes, fine);
        if here.left < best.left {
            best = here;
        }
    }
    best
}

fn nearest_at(
    trajs: &[Traj],
    starts: &[Start; MOST_DRONES],
    cue: usize,
    at: u8,
    axes: Axes,
    fine: Fine,
) -> Best
    requires two { 2 ≤ length trajs.now }
    requires few { length trajs.now ≤ most_drones }
    requires cue { All (HasCue cue) trajs.now }
    requires number { cue < most_cues }
    requires starts { AreStarts trajs.now cue starts.now }
    requires at { at ≤ 2 ^ fine }
    ensures { IsNearestAt trajs.now axes.r axes.h fine cue at result }
{
    let points = places(trajs, starts, cue, at, fine);
    let pair = least_pair(&points, trajs.len(), axes);
    Best {
        site: Touch {
            cue: cue as u16,
            at,
            a: pair.a as u8,
            b: pair.b as u8,
        },
        left: pair.left,
    }
}

fn least_pair(points: &[Point; MOST_DRONES], drones: usize, axes: Axes) -> Pair
    requires two { 2 ≤ drones }
    requires few { drones ≤ most_drones }
    requires short { All IsShort points.now }
    ensures { IsLeastPair points.now axes.r axes.h drones drones 0 result }
{
    let mut best = Pair {
        a: 0,
        b: 1,
        left: left_side(&points[0], &points[1], axes),
    };
    for a in 0..drones {
        best = least_with(points, a, drones, axes, best);
    }
    best
}

// The closest pair so far, after those of a drone with the drones after it.
fn least_with(
    points: &[Point; MOST_DRONES],
    a: usize,
    drones: usize,
    axes: Axes,
    so_far: Pair,
) -> Pair
    requires few { drones ≤ most_drones }
    requires drone { a < drones }
    requires short { All IsShort points.now }
    requires so_far { IsLeastPair points.now axes.r axes.h drones a 0 so_far }
    ensures { IsLeastPair points.now axes.r axes.h drones (a + 1) 0 result }
{
    let mut best = so_far;
    for b in a + 1..drones {
        let left = left_side(&points[a], &points[b], axes);
        if left < best.left {
            best = Pair { a, b, left };
        }
    }
    best
}
