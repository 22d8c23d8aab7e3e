//! Pairs of drones with ellipsoids of half axes 120, 120 and 300 mm. Directions, parts and counts were computed from
//! the definitions by exact sums, apart from the program.

ghost use Rattle.std.specs.Prelude.{◌≡◌, ◌∷◌, [], ◌^◌, ◌≤◌, All, IfOk};
ghost use Rattle.whole_numbers.specs.Numbers.{IsBelow};
ghost use Rattle.traj_codec.specs.Positions.{durations};

use crate::flights::{clearance, still, two_legs};
use bezier_core::Bez;
use fleet_curves::{Curves, Difference};
use pair_search::{Found, SearchFault, count_all, search, search_all, search_with};
use sep_parts::{DIRECTIONS, Forest, Node, Ruler, Slot, WIDE, table_law};
use std::alloc::{AllocError, Global};
use traj_codec::{Element, Listed, Segment, Traj};
use whole_numbers::Depth;

// A raised curve of control values in millimetres.
pub fn raised(mm: [i16; 8]) -> Bez<8>
    ensures { All (IsBelow (2 ^ 30)) result.b }
{
    Bez {
        b: [
            scaled(mm[0]),
            scaled(mm[1]),
            scaled(mm[2]),
            scaled(mm[3]),
            scaled(mm[4]),
            scaled(mm[5]),
            scaled(mm[6]),
            scaled(mm[7]),
        ],
    }
}

// Millimetres at the scale of raised curves.
fn scaled(millimetres: i16) -> i128
    ensures { IsBelow (2 ^ 30) result }
{
    millimetres as i128 * 5040
}

const LEVEL: [i16; 8] = [0; 8];

const RISES: [i16; 8] = [0, 0, 0, 0, 1000, 1000, 1000, 1000];

const SINKS: [i16; 8] = [1000, 1000, 1000, 1000, 0, 0, 0, 0];

const ACROSS: [i16; 8] = [1000, 1000, 1000, 1000, -1000, -1000, -1000, -1000];

const ASIDE: [i16; 8] = [100, 241, 300, 300, 400, 400, 0, 0];

const ABOVE: [i16; 8] = [620, 300, 620, 0, 0, 0, 300, 620];

// Where the second drone is from the first, on x, y and z; the depth; what is found, and the nodes. One drone waits 1 m
// beside the other and rises; they cross with 1 m between them; it sinks; they meet; and they pass part by part.
type Search = ([i16; 8], [i16; 8], [i16; 8], u8, Found, &'static [Node]);

const SEARCHES: &[Search] = &[
    (
        [1000; 8],
        LEVEL,
        RISES,
        6,
        Found::Clear,
        &[Node::Leaf { dir: 17 }],
    ),
    (
        ACROSS,
        LEVEL,
        [1000; 8],
        6,
        Found::Clear,
        &[Node::Leaf { dir: 11 }],
    ),
    (
        [-1000; 8],
        LEVEL,
        SINKS,
        0,
        Found::Clear,
        &[Node::Leaf { dir: 0 }],
    ),
    (ACROSS, LEVEL, LEVEL, 6, Found::Blocked { index: 28 }, &[]),
    (ACROSS, LEVEL, LEVEL, 0, Found::Blocked { index: 0 }, &[]),
    (
        ACROSS,
        ASIDE,
        ABOVE,
        3,
        Found::Clear,
        &[
            Node::Split,
            Node::Leaf { dir: 16 },
            Node::Split,
            Node::Split,
            Node::Leaf { dir: 15 },
            Node::Leaf { dir: 3 },
            Node::Leaf { dir: 0 },
        ],
    ),
    (ACROSS, ASIDE, ABOVE, 2, Found::Blocked { index: 2 }, &[]),
];

// Whether a search finds so, and so does one with a ruler made before.
fn finds(alloc: Global, row: &Search) -> Result<bool, AllocError> {
    table_law();
    let (x, y, z, depth, wanted, tree) = *row;
    let depth = Depth::make(depth.min(8));
    let diff = Difference::make([raised(x), raised(y), raised(z)]);
    let mut nodes = Vec::new(alloc);
    let found = search(&diff, &DIRECTIONS, still(), depth, &mut nodes)?;
    let first = found == wanted && nodes.as_slice() == tree;
    let ruler = Ruler::make(&DIRECTIONS, still());
    let mut again = Vec::new(alloc);
    let found = search_with(&diff, &ruler, depth, &mut again)?;
    Ok(first && found == wanted && again.as_slice() == tree)
}

#[test]
fn trees_of_pairs(rt: HostRuntime) {
    for (k, row) in SEARCHES.iter().enumerate() {
        assert!(rt; matches!(finds(rt.alloc(), row), Ok(true)), "row {k}");
    }
}

// Two drones that stay at two places, through two cues.
pub(crate) fn staying(
    alloc: Global,
    first: [i16; 3],
    second: [i16; 3],
) -> Result<Curves, AllocError> {
    let first = two_legs(alloc, [first; 3])?;
    let second = two_legs(alloc, [second; 3])?;
    Curves::of_slice(alloc, &[first, second])
}

// Whether a pair has so many nodes by both searches, or this part of the first cue is blocked in both.
pub(crate) fn have_nodes(
    alloc: Global,
    curves: &Curves,
    ruler: &Ruler<98>,
    depth: Depth,
    wanted: Result<u64, u16>,
) -> bool {
    let is_counted = match count_all(alloc, curves, ruler, depth) {
        Ok(count) => wanted == Ok(u64::from(count)),
        Err(SearchFault::Blocked { index, .. }) => wanted == Err(index),
        Err(SearchFault::Memory) => false,
    };
    let is_found = match search_all(alloc, curves, ruler, depth) {
        Ok(trees) => wanted == Ok(all_nodes(&trees)),
        Err(SearchFault::Blocked { index, .. }) => wanted == Err(index),
        Err(SearchFault::Memory) => false,
    };
    is_counted && is_found
}

// How many nodes trees have.
fn all_nodes(trees: &Forest) -> u64 {
    let mut count: u64 = 0;
    for k in 0..trees.len() {
        count = count.saturating_add(trees.tree(k).len() as u64);
    }
    count
}

// The place of the second drone, a stray, the reach on x, y and z, and how many nodes two cues have, or none where they
// are blocked. Drones on one axis are apart exactly where they are farther than two half axes, two strays and the reach
// of that axis.
type Beside = ([i16; 3], u16, [u32; 3], Result<u64, u16>);

const ON_ONE_AXIS: &[Beside] = &[
    ([241, 0, 0], 0, [0, 0, 0], Ok(2)),
    ([240, 0, 0], 0, [0, 0, 0], Err(0)),
    ([-241, 0, 0], 0, [0, 0, 0], Ok(2)),
    ([-240, 0, 0], 0, [0, 0, 0], Err(0)),
    ([0, 341, 0], 50, [0, 0, 0], Ok(2)),
    ([0, 340, 0], 50, [0, 0, 0], Err(0)),
    ([248, 0, 0], 0, [7, 0, 0], Ok(2)),
    ([247, 0, 0], 0, [7, 0, 0], Err(0)),
    // the reach on another axis takes nothing away
    ([0, -241, 0], 0, [65_536, 0, 65_536], Ok(2)),
    ([0, -240, 0], 0, [65_536, 0, 65_536], Err(0)),
    ([0, 0, 708], 50, [0, 0, 7], Ok(2)),
    ([0, 0, 707], 50, [0, 0, 7], Err(0)),
    ([0, 0, -601], 0, [9, 9, 0], Ok(2)),
    ([0, 0, -600], 0, [9, 9, 0], Err(0)),
];

// Whether the second drone, which stays at that place beside the first, has so many.
fn have_beside(alloc: Global, row: &Beside) -> Result<bool, AllocError> {
    table_law();
    let (place, stray, reach, wanted) = *row;
    let curves = staying(alloc, [0, 0, 0], place)?;
    let ruler = Ruler::make(&WIDE, clearance(120, 300, stray, reach));
    Ok(have_nodes(alloc, &curves, &ruler, Depth::make(0), wanted))
}

#[test]
fn drones_on_one_axis(rt: HostRuntime) {
    for (k, row) in ON_ONE_AXIS.iter().enumerate() {
        assert!(rt; matches!(have_beside(rt.alloc(), row), Ok(true)), "row {k}");
    }
}

// One leg of three seconds.
fn one_leg(alloc: Global, start: [i16; 4], elements: [Element; 4]) -> Result<Traj, AllocError>
    ensures { IfOk result (λ t. durations t.segments ≡ 3000 ∷ []) }
{
    let leg = Segment { ms: 3000, elements };
    Ok(Traj {
        start,
        segments: Listed::from_vec(vec![in alloc; leg]?),
    })
}

// The first drone stays; the second passes it as in the last of the searches above.
fn passing(alloc: Global) -> Result<Curves, AllocError> {
    let passes = [
        Element::Seven {
            v: [1000, 1000, 1000, -1000, -1000, -1000, -1000],
        },
        Element::Seven {
            v: [241, 300, 300, 400, 400, 0, 0],
        },
        Element::Seven {
            v: [1300, 1620, 1000, 1000, 1000, 1300, 1620],
        },
        Element::Constant,
    ];
    let first = one_leg(alloc, [0, 0, 1000, 0], [Element::Constant; 4])?;
    let second = one_leg(alloc, [1000, 100, 1620, 0], passes)?;
    Curves::of_slice(alloc, &[first, second])
}

// A stray, the reach on x, y and z, and the depth; how many nodes there are, or the first part that is blocked.
type Passing = (u16, [u32; 3], u8, Result<u64, u16>);

const PASSING: &[Passing] = &[
    (0, [0, 0, 0], 0, Err(0)),
    (0, [0, 0, 0], 1, Ok(3)),
    (5, [0, 0, 0], 8, Ok(3)),
    (10, [3, 0, 2], 1, Ok(3)),
    (20, [0, 0, 0], 3, Ok(3)),
    (30, [10, 10, 10], 1, Err(0)),
    (30, [10, 10, 10], 2, Err(1)),
    (30, [10, 10, 10], 3, Err(4)),
    (30, [10, 10, 10], 4, Ok(13)),
    (30, [10, 10, 10], 8, Ok(13)),
];

// Whether drones that pass have so many.
fn have_passing(alloc: Global, row: &Passing) -> Result<bool, AllocError> {
    table_law();
    let (stray, reach, depth, wanted) = *row;
    let curves = passing(alloc)?;
    let ruler = Ruler::make(&WIDE, clearance(120, 300, stray, reach));
    Ok(have_nodes(alloc, &curves, &ruler, Depth::make(depth.min(8)), wanted))
}

#[test]
fn drones_that_pass(rt: HostRuntime) {
    for (k, row) in PASSING.iter().enumerate() {
        assert!(rt;
            matches!(have_passing(rt.alloc(), row), Ok(true)),
            "row {k}"
        );
    }
}
