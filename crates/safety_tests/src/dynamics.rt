//! Bounds on acceleration and jumps of velocity that were computed elsewhere, by fractions, from the powers of
//! polynomials.

use crate::speeds::{METRE, Points, STAYS, flight, segment};
use dynamics_bound::{Kind, Limits, bound, first_above, jumps, rests};
use std::alloc::Global;
use whole_numbers::Depth;

// A start, two segments by their durations and control points on x, y and z, and the depth; the bounds in micrometres
// per second squared; on each axis the greatest jump in micrometres per second, and the segment at whose beginning it
// is; and whether it begins and ends at rest.
type Row = (
    [i16; 4],
    (u16, [Points; 3]),
    (u16, [Points; 3]),
    u8,
    [i64; 3],
    [(i64, usize); 3],
    [bool; 2],
);

const ROWS: &[Row] = &[
    // A metre from rest to rest in two seconds, with a metre backwards on z in half the time.
    (
        [0, 0, 1000, 0],
        (2000, [METRE, STAYS, STAYS]),
        (1000, [STAYS, STAYS, &[1000, 1000, 1000, 0, 0, 0, 0]]),
        0,
        [10500000, 0, 42000000],
        [(0, 0), (0, 0), (0, 0)],
        [true, true],
    ),
    // The same at depth 4.
    (
        [0, 0, 1000, 0],
        (2000, [METRE, STAYS, STAYS]),
        (1000, [STAYS, STAYS, &[1000, 1000, 1000, 0, 0, 0, 0]]),
        4,
        [1889283, 0, 7557129],
        [(0, 0), (0, 0), (0, 0)],
        [true, true],
    ),
    // The same at depth 8.
    (
        [0, 0, 1000, 0],
        (2000, [METRE, STAYS, STAYS]),
        (1000, [STAYS, STAYS, &[1000, 1000, 1000, 0, 0, 0, 0]]),
        8,
        [1878325, 0, 7513298],
        [(0, 0), (0, 0), (0, 0)],
        [true, true],
    ),
    // A quarter of a circle after a hold, and at full speed to the end.
    (
        [1000, 0, 1000, 0],
        (1500, [STAYS, STAYS, STAYS]),
        (1500, [&[1000, 552, 0], &[552, 1000, 1000], STAYS]),
        0,
        [1194667, 1194667, 0],
        [(1104000, 2), (1104000, 1), (0, 0)],
        [true, false],
    ),
    // The same at depth 8.
    (
        [1000, 0, 1000, 0],
        (1500, [STAYS, STAYS, STAYS]),
        (1500, [&[1000, 552, 0], &[552, 1000, 1000], STAYS]),
        8,
        [1194667, 1194667, 0],
        [(1104000, 2), (1104000, 1), (0, 0)],
        [true, false],
    ),
    // Straight lines from rest, and a hold.
    (
        [0, 0, 1000, 0],
        (1000, [&[1000], STAYS, &[700]]),
        (700, [STAYS, STAYS, STAYS]),
        4,
        [0, 0, 0],
        [(1000000, 0), (0, 0), (300000, 0)],
        [false, true],
    ),
    // A cubic, whose second derivative is greatest at an end.
    (
        [0, 0, 1000, 0],
        (1000, [&[0, 300, 900], STAYS, STAYS]),
        (900, [STAYS, &[-1, 0, 10], STAYS]),
        0,
        [1800000, 66667, 0],
        [(1800000, 1), (33334, 2), (0, 0)],
        [true, false],
    ),
    // The same at depth 5.
    (
        [0, 0, 1000, 0],
        (1000, [&[0, 300, 900], STAYS, STAYS]),
        (900, [STAYS, &[-1, 0, 10], STAYS]),
        5,
        [1800000, 66667, 0],
        [(1800000, 1), (33334, 2), (0, 0)],
        [true, false],
    ),
    // Two holds.
    (
        [5, 6, 7, 0],
        (65535, [STAYS, STAYS, STAYS]),
        (1, [STAYS, STAYS, STAYS]),
        8,
        [0, 0, 0],
        [(0, 0), (0, 0), (0, 0)],
        [true, true],
    ),
    // Two curves that join without a stop: the end steps are as the durations.
    (
        [0, 0, 0, 0],
        (1000, [&[0, 0, 0, 1000, 2000, 3000, 4000], STAYS, STAYS]),
        (
            500,
            [&[4500, 5000, 5500, 5500, 5500, 5500, 5500], STAYS, STAYS],
        ),
        6,
        [29034826, 0, 0],
        [(0, 0), (0, 0), (0, 0)],
        [true, true],
    ),
    // The widest numbers in a millisecond.
    (
        [32767, -32768, 5, 0],
        (
            1,
            [
                &[-32768, 32767, -32768, 32767, -32768, 32767, -32768],
                &[32767],
                &[5, 6, 7],
            ],
        ),
        (
            65535,
            [STAYS, &[12, -7, 30000], &[-8, 900, -32768, 32767, 4, 5, 6]],
        ),
        0,
        [5504940000000000, 45734, 6000000000],
        [(458745000000, 0), (65536499428, 1), (3001603, 1)],
        [false, false],
    ),
    // The same at depth 8.
    (
        [32767, -32768, 5, 0],
        (
            1,
            [
                &[-32768, 32767, -32768, 32767, -32768, 32767, -32768],
                &[32767],
                &[5, 6, 7],
            ],
        ),
        (
            65535,
            [STAYS, &[12, -7, 30000], &[-8, 900, -32768, 32767, 4, 5, 6]],
        ),
        8,
        [5504940000000000, 45734, 6000000000],
        [(458745000000, 0), (65536499428, 1), (3001603, 1)],
        [false, false],
    ),
    // Jumps that are rounded up, the same jump twice, and one at the last instant.
    (
        [0, 0, 0, 0],
        (1000, [&[300], &[100], STAYS]),
        (3, [&[301], &[-100], &[-20]]),
        8,
        [0, 0, 0],
        [(333334, 2), (66766667, 1), (6666667, 1)],
        [false, false],
    ),
    // The same jump at each edge: the first is told.
    (
        [0, 0, 0, 0],
        (7, [&[10], STAYS, STAYS]),
        (7, [&[10], STAYS, STAYS]),
        0,
        [0, 0, 0],
        [(1428572, 0), (0, 0), (0, 0)],
        [false, true],
    ),
];

// Whether a trajectory of two segments has these bounds, jumps and rests.
fn is_measured(alloc: Global, row: &Row) -> bool {
    let (start, first, second, depth, bounds, greatest, at_rest) = *row;
    let first = segment(first.0, first.1);
    let second = segment(second.0, second.1);
    let Ok(t) = flight(alloc, start, first, second) else {
        return false;
    };
    let [x, y, z] = jumps(&t);
    let found = [
        (x.speed, x.segment),
        (y.speed, y.segment),
        (z.speed, z.segment),
    ];
    let (begins, ends) = rests(&t);
    let is_bound = bound(&t, Depth::make(depth.min(8))) == bounds;
    is_bound && found == greatest && [begins, ends] == at_rest
}

#[test]
fn accelerations_and_jumps_of_two_segments(rt: HostRuntime) {
    for (k, row) in ROWS.iter().enumerate() {
        assert!(rt; is_measured(rt.alloc(), row), "row {k}");
    }
}

// Limits on acceleration and on jumps; whether a jump is the first above them, its segment, its axis and its value.
type Limited = (Option<u64>, Option<u64>, Option<(bool, usize, u8, i64)>);

const LIMITS: &[Limited] = &[
    (None, None, None),
    (Some(1878325), None, Some((false, 1, 0, 6761968))),
    (Some(1878324), None, Some((false, 0, 0, 1878325))),
    (Some(6761967), None, Some((false, 1, 0, 6761968))),
    (Some(7513297), None, Some((false, 1, 2, 7513298))),
    (Some(7513298), None, None),
    (None, Some(0), Some((true, 1, 1, 50000))),
    (None, Some(49999), Some((true, 1, 1, 50000))),
    (None, Some(50000), None),
    (Some(7000000), Some(0), Some((false, 1, 2, 7513298))),
    (Some(7513298), Some(49999), Some((true, 1, 1, 50000))),
];

const SLOWER: [Points; 3] = [METRE, STAYS, STAYS];

const FASTER: [Points; 3] = [&[1000, 1000, 1000, 1900, 1900, 1900, 1900], &[50], METRE];

// Whether this is the first excess of two seconds of the one and a second of the other.
fn is_above(alloc: Global, row: &Limited) -> bool {
    let (acceleration, jump, wanted) = *row;
    let first = segment(2000, SLOWER);
    let second = segment(1000, FASTER);
    let Ok(t) = flight(alloc, [0; 4], first, second) else {
        return false;
    };
    match first_above(&t, Limits { acceleration, jump }, Depth::make(8)) {
        Some(e) => wanted == Some((matches!(e.kind, Kind::Jump), e.segment, e.axis, e.value)),
        None => wanted.is_none(),
    }
}

#[test]
fn what_is_above_a_limit_first(rt: HostRuntime) {
    for (k, row) in LIMITS.iter().enumerate() {
        assert!(rt; is_above(rt.alloc(), row), "row {k}");
    }
}
