//! Touches that were computed elsewhere, by whole numbers without a bound, for ellipsoids of half axes 120, 120 and 300
//! mm.

ghost use Rattle.std.specs.Prelude.{◌≡◌, ◌≤ℤ◌, ◌∷◌, [], pos, IfOk};
ghost use Rattle.traj_codec.specs.Positions.{durations};
ghost use Rattle.fleet_curves.specs.Raised.{AreOneShow, IsOneShow};

use crate::flights::{three_legs, two_legs};
use std::alloc::{AllocError, Global};
use touch_witness::{Axes, Closest, Touch, closest, first_touch};
use traj_codec::Traj;
use whole_numbers::Fine;

// A touch as its cue, its fraction and its pair.
fn touch_of(touch: Option<Touch>) -> Option<(u16, u8, u8, u8)> {
    let Touch { cue, at, a, b } = touch?;
    Some((cue, at, a, b))
}

// The closest as its cue, its fraction, its pair and its level.
fn closest_of(found: Option<Closest>) -> Option<(u16, u8, u8, u8, u64)> {
    let Closest {
        cue,
        at,
        a,
        b,
        level,
    } = found?;
    Some((cue, at, a, b, level))
}

// What is wanted of trajectories: the half axis upwards and the fineness; the first touch and the closest.
type Wanted = (
    u16,
    u8,
    Option<(u16, u8, u8, u8)>,
    Option<(u16, u8, u8, u8, u64)>,
);

fn are_met(trajs: &Vec<Traj>, wanted: &Wanted) -> bool
    requires { IsOneShow trajs.now.items }
{
    let (h, fine, touch, near) = *wanted;
    let h = h.max(1).min(2000);
    let axes = Axes { r: 120, h };
    let fine = Fine::make(fine.min(5));
    touch_of(first_touch(trajs, axes, fine)) == touch
        && closest_of(closest(trajs, axes, fine)) == near
}

// The ways of two drones.
fn fleet(
    alloc: Global,
    first: [[i16; 3]; 3],
    second: [[i16; 3]; 3],
) -> Result<Vec<Traj>, AllocError>
    ensures { IfOk result (λ trajs. AreOneShow (3000 ∷ 3000 ∷ []) trajs.items) }
{
    let a = two_legs(alloc, first)?;
    let b = two_legs(alloc, second)?;
    Ok(vec![in alloc; a, b]?)
}

// The second drone waits and then exchanges places with the first at one height; rises by a metre before, and goes the
// other way above it; stays beside the first, just apart; and then comes nearer.
const EXCHANGED: [[i16; 3]; 3] = [[1000, 0, 1000], [1000, 0, 1000], [0, 0, 1000]];

const ABOVE: [[i16; 3]; 3] = [[1000, 0, 1000], [1000, 0, 2000], [0, 0, 2000]];

const CROSSES: [[i16; 3]; 3] = [[0, 0, 1000], [0, 0, 1000], [1000, 0, 1000]];

const STAYS: [[i16; 3]; 3] = [[0, 0, 1000]; 3];

const BESIDE: [[i16; 3]; 3] = [[236, 56, 1000]; 3];

const NEARER: [[i16; 3]; 3] = [[236, 56, 1000], [236, 56, 1000], [240, 0, 1000]];

// The ways of two drones, and what is wanted of them.
type Row = ([[i16; 3]; 3], [[i16; 3]; 3], Wanted);

const OF_TWO: &[Row] = &[
    (
        CROSSES,
        EXCHANGED,
        (300, 5, Some((1, 15, 0, 1)), Some((1, 16, 0, 1, 0))),
    ),
    (
        CROSSES,
        EXCHANGED,
        (300, 1, Some((1, 1, 0, 1)), Some((1, 1, 0, 1, 0))),
    ),
    (
        CROSSES,
        EXCHANGED,
        (300, 0, None, Some((0, 0, 0, 1, 17361))),
    ),
    (CROSSES, ABOVE, (300, 5, None, Some((1, 16, 0, 1, 2777)))),
    (
        CROSSES,
        ABOVE,
        (500, 5, Some((1, 16, 0, 1)), Some((1, 16, 0, 1, 1000))),
    ),
    (STAYS, BESIDE, (300, 5, None, Some((0, 0, 0, 1, 1021)))),
    (
        STAYS,
        NEARER,
        (300, 5, Some((1, 15, 0, 1)), Some((1, 19, 0, 1, 994))),
    ),
];

fn of_two(alloc: Global, row: &Row) -> Result<bool, AllocError> {
    let trajs = fleet(alloc, row.0, row.1)?;
    Ok(are_met(&trajs, &row.2))
}

#[test]
fn of_two_drones(rt: HostRuntime) {
    for (k, row) in OF_TWO.iter().enumerate() {
        assert!(rt; matches!(of_two(rt.alloc(), row), Ok(true)), "row {k}");
    }
}

// One drone has no pair.
fn alone(alloc: Global) -> Result<bool, AllocError> {
    let trajs = vec![in alloc; two_legs(alloc, CROSSES)?]?;
    Ok(closest(&trajs, Axes { r: 120, h: 300 }, Fine::make(5)).is_none())
}

// Two drones pass each other, one of them a metre above the other, and come down again.
const PASSES: [[i16; 3]; 4] = [[0, 0, 1000], [0, 0, 1000], [1000, 0, 1000], [1000, 0, 1000]];

const PASSES_ABOVE: [[i16; 3]; 4] = [[1000, 0, 1000], [1000, 0, 2000], [0, 0, 2000], [0, 0, 1000]];

fn up_past_and_down(alloc: Global) -> Result<bool, AllocError> {
    let a = three_legs(alloc, PASSES)?;
    let b = three_legs(alloc, PASSES_ABOVE)?;
    let trajs = vec![in alloc; a, b]?;
    Ok(are_met(&trajs, &(300, 5, None, Some((1, 16, 0, 1, 2777)))))
}

#[test]
fn one_drone_and_three_cues(rt: HostRuntime) {
    assert!(rt; matches!(alone(rt.alloc()), Ok(true)));
    assert!(rt; matches!(up_past_and_down(rt.alloc()), Ok(true)));
}

// Two drones come near a third one from both sides.
fn three(alloc: Global, last: i16, wanted: &Wanted) -> Result<bool, AllocError>
    requires high { last ≤ℤ pos 1000 }
    requires low { pos 0 ≤ℤ last }
{
    let a = two_legs(alloc, [[0, 0, 1000]; 3])?;
    let b = two_legs(alloc, [[600, 0, 1000], [600, 0, 1000], [last, 0, 1000]])?;
    let c = two_legs(alloc, [[-600, 0, 1000], [-600, 0, 1000], [-last, 0, 1000]])?;
    let trajs = vec![in alloc; a, b, c]?;
    Ok(are_met(&trajs, wanted))
}

// Of pairs at one instant the first is named.
#[test]
fn two_pairs_at_once(rt: HostRuntime) {
    let near = three(
        rt.alloc(),
        200,
        &(300, 5, Some((1, 24, 0, 1)), Some((1, 32, 0, 1, 694))),
    );
    assert!(rt; matches!(near, Ok(true)), "up to 200");
    let apart = three(rt.alloc(), 300, &(300, 2, None, Some((1, 4, 0, 1, 1562))));
    assert!(rt; matches!(apart, Ok(true)), "up to 300");
}
