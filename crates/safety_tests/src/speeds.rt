//! Bounds that were computed elsewhere, by the double sum over whole numbers without a bound.

ghost use Rattle.std.specs.Prelude.{◌≡◌, ◌≤◌, ◌∷◌, [], IfOk};

use speed_bound::bound;
use std::alloc::{AllocError, Global};
use traj_codec::{Element, Listed, Segment, Traj};
use whole_numbers::Depth;

// How a drone moves on an axis, by the control points of an element after the first one: none, one, three or seven.
pub(crate) type Points = &'static [i16];

pub(crate) const STAYS: Points = &[];

fn element(points: Points) -> Element {
    match *points {
        [v] => Element::Linear { v },
        [a, b, c] => Element::Cubic { v: [a, b, c] },
        [a, b, c, d, e, f, g] => Element::Seven {
            v: [a, b, c, d, e, f, g],
        },
        _ => Element::Constant,
    }
}

// A trajectory of two segments.
pub(crate) fn flight(
    alloc: Global,
    start: [i16; 4],
    first: Segment,
    second: Segment,
) -> Result<Traj, AllocError>
    ensures start { IfOk result (λ t. t.start ≡ start) }
    ensures segments { IfOk result (λ t. t.segments ≡ first ∷ second ∷ []) }
{
    let mut segments = Vec::new(alloc);
    segments.push(first)?;
    segments.push(second)?;
    Ok(Traj {
        start,
        segments: Listed::from_vec(segments),
    })
}

// A segment with these control points, of at least a millisecond.
pub(crate) fn segment(ms: u16, on: [Points; 3]) -> Segment
    ensures { 1 ≤ result.ms }
{
    let [x, y, z] = on;
    Segment {
        ms: ms.max(1),
        elements: [element(x), element(y), element(z), Element::Constant],
    }
}

// A metre from rest to rest.
pub(crate) const METRE: Points = &[0, 0, 0, 1000, 1000, 1000, 1000];

const WAVES: Points = &[32767, -32768, 32767, -32768, 32767, -32768, 32767];

const LONG_WAVES: Points = &[-8, 900, -32768, 32767, 4, 5, 6];

const SHORT_WAVES: Points = &[40, 60, -90, 100, 0, 0, 10];

// Ways that are fastest near their end, near their beginning, and in between.
const FAST_AT_LAST: Points = &[0, 0, 0, 0, 600, 900, 1000];

const FAST_AT_FIRST: Points = &[1000, 0, 0, 0, 0, 0, 0];

const BACK: Points = &[1000, 1000, 1000, 300, -200, 0, 0];

const FAST_IN_BETWEEN: Points = &[0, 0, 0, 0, 1000, 1000, 1000];

const DECIMETRE: Points = &[1000, 1000, 1000, 1100, 1100, 1100, 1100];

// A start, two segments by their durations and control points on x, y and z, and the depth; the bounds in micrometres
// per second: from rest to rest; a quarter arc; a quotient that is rounded up; the widest numbers; two segments that
// differ; and parts that are fastest in either half, in either segment.
type Row = (
    [i16; 4],
    (u16, [Points; 3]),
    (u16, [Points; 3]),
    u8,
    [i64; 3],
);

const BOUNDS: &[Row] = &[
    (
        [0, 0, 1000, 0],
        (2000, [METRE, STAYS, STAYS]),
        (1, [STAYS; 3]),
        6,
        [1093750, 0, 0],
    ),
    (
        [0, 0, 1000, 0],
        (2000, [METRE, STAYS, STAYS]),
        (1, [STAYS; 3]),
        0,
        [3500000, 0, 0],
    ),
    (
        [1000, 0, 1000, 0],
        (1, [STAYS; 3]),
        (1000, [&[1000, 552, 0], &[552, 1000, 1000], STAYS]),
        6,
        [1656000, 1656000, 0],
    ),
    (
        [0, 0, 1000, 0],
        (3, [&[-1], STAYS, STAYS]),
        (1, [STAYS; 3]),
        6,
        [333334, 0, 0],
    ),
    (
        [-32768, 32767, 5, 0],
        (1, [WAVES, &[-32768], &[5, 6, 7]]),
        (65535, [STAYS, &[12, -7, 30000], LONG_WAVES]),
        0,
        [458745000000, 65535000000, 7000000],
    ),
    (
        [-32768, 32767, 5, 0],
        (1, [WAVES, &[-32768], &[5, 6, 7]]),
        (65535, [STAYS, &[12, -7, 30000], LONG_WAVES]),
        8,
        [458745000000, 65535000000, 3000000],
    ),
    (
        [-32768, 32767, 5, 0],
        (1, [WAVES, &[-32768], &[5, 6, 7]]),
        (65535, [STAYS, &[12, -7, 30000], LONG_WAVES]),
        1,
        [458745000000, 65535000000, 3000000],
    ),
    (
        [100, -50, 1000, 0],
        (700, [&[250], &[-50, -60, -70], STAYS]),
        (1300, [STAYS, SHORT_WAVES, &[1200]]),
        0,
        [214286, 1023077, 153847],
    ),
    (
        [100, -50, 1000, 0],
        (700, [&[250], &[-50, -60, -70], STAYS]),
        (1300, [STAYS, SHORT_WAVES, &[1200]]),
        3,
        [214286, 592308, 153847],
    ),
    (
        [0; 4],
        (1000, [FAST_AT_LAST, FAST_IN_BETWEEN, METRE]),
        (1100, [BACK, FAST_AT_FIRST, DECIMETRE]),
        0,
        [4454546, 7000000, 7000000],
    ),
    (
        [0; 4],
        (1000, [FAST_AT_LAST, FAST_IN_BETWEEN, METRE]),
        (1100, [BACK, FAST_AT_FIRST, DECIMETRE]),
        1,
        [2450000, 3181819, 2187500],
    ),
    (
        [0; 4],
        (1000, [FAST_AT_LAST, FAST_IN_BETWEEN, METRE]),
        (1100, [BACK, FAST_AT_FIRST, DECIMETRE]),
        8,
        [2119148, 2557441, 2187500],
    ),
];

// Whether the bounds of a trajectory of two segments are these.
fn is_bounded(alloc: Global, row: &Row) -> bool {
    let (start, first, second, depth, wanted) = *row;
    let first = segment(first.0, first.1);
    let second = segment(second.0, second.1);
    match flight(alloc, start, first, second) {
        Ok(t) => bound(&t, Depth::make(depth.min(8))) == wanted,
        Err(_) => false,
    }
}

#[test]
fn bounds_of_two_segments(rt: HostRuntime) {
    for (k, row) in BOUNDS.iter().enumerate() {
        assert!(rt; is_bounded(rt.alloc(), row), "row {k}");
    }
}
