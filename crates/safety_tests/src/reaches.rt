//! How far trajectories move while one drone is late against another, by hand: the greatest of their speeds times the
//! lateness, in millimetres, rounded up.

ghost use Rattle.std.specs.Prelude.{IfOk};
ghost use Rattle.speed_bound.specs.Reach.{IsMoving};

use crate::speeds::{METRE, Points, STAYS, flight, segment};
use speed_bound::reach;
use std::alloc::{AllocError, Global};
use traj_codec::{Traj, segment_law, start_law};
use whole_numbers::Depth;

// A flight from a start: its duration, and its control points on x, y and z.
type Flight = ([i16; 4], u16, [Points; 3]);

// A flight, and then a rest of a second.
fn flown(alloc: Global, plan: Flight) -> Result<Traj, AllocError>
    ensures { IfOk result IsMoving }
{
    let first = segment(plan.1, plan.2);
    let rest = segment(1000, [STAYS; 3]);
    start_law(plan.0);
    segment_law(first);
    segment_law(rest);
    flight(alloc, plan.0, first, rest)
}

// The reach of two flights, at a lateness of at most a second and a depth of at most 8.
fn reach_of(alloc: Global, row: &Row) -> Result<[u32; 3], AllocError> {
    let first = flown(alloc, row.0)?;
    let second = flown(alloc, row.1)?;
    Ok(reach(&[first, second], row.2.min(1000), Depth::make(row.3.min(8))))
}

const RESTS: Flight = ([0, 0, 1000, 0], 1, [STAYS; 3]);

// A metre along x in a second, straight; the same along y, back; half as fast along x; and twice as fast down along z.
const EAST: Flight = ([0; 4], 1000, [&[1000], STAYS, STAYS]);

const SOUTH: Flight = ([0; 4], 1000, [STAYS, &[-1000], STAYS]);

const SLOWLY_EAST: Flight = ([0; 4], 2000, [&[1000], STAYS, STAYS]);

const DOWN: Flight = ([0, 0, 2000, 0], 1000, [STAYS, STAYS, &[0]]);

// A metre along x in two seconds from rest to rest: at most 1.09375 m/s by parts of the depth 6, and 3.5 m/s by the
// whole.
const MOVE: Flight = ([0, 0, 1000, 0], 2000, [METRE, STAYS, STAYS]);

// A millimetre down in 3 ms: at most 333,334 micrometres per second.
const STEP: Flight = ([0; 4], 3, [STAYS, STAYS, &[-1]]);

// All the way along x in a millisecond. No drone is farther away than 65,536 mm.
const JUMP: Flight = ([-32768, 0, 0, 0], 1, [&[32767], STAYS, STAYS]);

// Two flights, the lateness in milliseconds and the depth, and the reach on x, y and z.
type Row = (Flight, Flight, u16, u8, [u32; 3]);

const REACHES: &[Row] = &[
    (RESTS, RESTS, 1000, 6, [0, 0, 0]),
    (EAST, RESTS, 0, 6, [0, 0, 0]),
    (EAST, RESTS, 1, 6, [1, 0, 0]),
    (EAST, RESTS, 20, 6, [20, 0, 0]),
    (RESTS, EAST, 1000, 6, [1000, 0, 0]),
    (EAST, SOUTH, 20, 6, [20, 20, 0]),
    (SOUTH, DOWN, 20, 6, [0, 20, 40]),
    (SLOWLY_EAST, EAST, 20, 6, [20, 0, 0]),
    (EAST, SLOWLY_EAST, 20, 6, [20, 0, 0]),
    (SLOWLY_EAST, SLOWLY_EAST, 3, 6, [2, 0, 0]),
    (MOVE, EAST, 20, 6, [22, 0, 0]),
    (EAST, MOVE, 20, 6, [22, 0, 0]),
    (EAST, MOVE, 20, 0, [70, 0, 0]),
    (MOVE, STEP, 1, 6, [2, 0, 1]),
    (MOVE, STEP, 64, 6, [70, 0, 22]),
    (MOVE, STEP, 65, 6, [72, 0, 22]),
    (MOVE, STEP, 1000, 6, [1094, 0, 334]),
    (JUMP, SOUTH, 1, 6, [65_535, 1, 0]),
    (JUMP, SOUTH, 2, 6, [65_536, 2, 0]),
    (SOUTH, JUMP, 1000, 6, [65_536, 1000, 0]),
];

#[test]
fn reaches_of_two_flights(rt: HostRuntime) {
    for (k, row) in REACHES.iter().enumerate() {
        assert!(rt;
            matches!(reach_of(rt.alloc(), row), Ok(found) if found == row.4),
            "row {k}"
        );
    }
}
