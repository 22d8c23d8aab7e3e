//! Drones that stay, with ellipsoids of half axes 120, 120 and 300 mm, as near as they are still told apart. Which of
//! the 98 directions is the first was computed from the definitions by exact sums, apart from the program.

use crate::flights::still;
use crate::searches::{have_nodes, raised, staying};
use fleet_curves::Difference;
use pair_search::{Found, search_with};
use sep_parts::{Node, Ruler, WIDE, table_law};
use std::alloc::{AllocError, Global};
use whole_numbers::Depth;

// Where the second drone is from the first, in millimetres on x, y and z; the first direction; and a place a millimetre
// nearer, where no direction tells the two apart. At each place its first direction is the only one. Lanes are weighed
// 16 at a time, and 28 at a time with their opposites, so the directions are the first and the last ones of these
// groups.
const PLACES: &[([i16; 3], u8, [i16; 3])] = &[
    ([-158, -164, -196], 0, [-157, -163, -195]),
    ([-157, -167, 188], 1, [-156, -166, 187]),
    ([-159, 163, -199], 14, [-158, 162, -198]),
    ([-159, 162, 205], 15, [-158, 161, 204]),
    ([-67, -167, -400], 16, [-66, -166, -399]),
    ([-98, -196, -245], 17, [-97, -195, -244]),
    ([-172, 0, -422], 27, [-171, 0, -421]),
    ([-98, 98, -490], 31, [-97, 97, -489]),
    ([-139, 139, -347], 32, [-138, 138, -346]),
    ([0, -112, 532], 47, [0, -111, 531]),
    ([0, 0, -601], 48, [0, 0, -600]),
    ([139, -139, -347], 63, [138, -138, -346]),
    ([170, -170, 0], 64, [169, -169, 0]),
    ([107, 215, 0], 79, [106, 214, 0]),
    ([98, 196, 245], 80, [97, 195, 244]),
    ([163, 77, 400], 95, [162, 76, 399]),
    ([167, 154, -202], 96, [166, 153, -201]),
    ([157, 163, 211], 97, [156, 162, 210]),
];

// Whether a search among the 98 directions finds this and these nodes, where the second drone stays so far from the
// first.
fn finds(alloc: Global, place: [i16; 3], wanted: Found, tree: &[Node]) -> Result<bool, AllocError> {
    table_law();
    let [x, y, z] = place;
    let diff = Difference::make([raised([x; 8]), raised([y; 8]), raised([z; 8])]);
    let ruler = Ruler::make(&WIDE, still());
    let mut nodes = Vec::new(alloc);
    let found = search_with(&diff, &ruler, Depth::make(0), &mut nodes)?;
    Ok(found == wanted && nodes.as_slice() == tree)
}

fn is_first(alloc: Global, place: [i16; 3], dir: u8) -> Result<bool, AllocError> {
    finds(alloc, place, Found::Clear, &[Node::Leaf { dir }])
}

fn is_within(alloc: Global, nearer: [i16; 3]) -> Result<bool, AllocError> {
    finds(alloc, nearer, Found::Blocked { index: 0 }, &[])
}

#[test]
fn the_first_direction_at_the_edge(rt: HostRuntime) {
    for &(place, dir, nearer) in PLACES {
        assert!(rt;
            matches!(is_first(rt.alloc(), place, dir), Ok(true)),
            "direction {dir}"
        );
        assert!(rt;
            matches!(is_within(rt.alloc(), nearer), Ok(true)),
            "within direction {dir}"
        );
    }
}

// Whether two drones that stay at two places have so many nodes in two cues, or are blocked.
fn counts(
    alloc: Global,
    first: [i16; 3],
    second: [i16; 3],
    wanted: Result<u64, u16>,
) -> Result<bool, AllocError> {
    table_law();
    let curves = staying(alloc, first, second)?;
    let ruler = Ruler::make(&WIDE, still());
    Ok(have_nodes(alloc, &curves, &ruler, Depth::make(0), wanted))
}

// Where it is only asked whether there is a direction, the opposite one is looked at with each: so either drone is the
// first.
#[test]
fn counted_at_the_edge(rt: HostRuntime) {
    let here = [0, 0, 0];
    for &(place, dir, nearer) in PLACES {
        assert!(rt;
            matches!(counts(rt.alloc(), here, place, Ok(2)), Ok(true)),
            "direction {dir}"
        );
        assert!(rt;
            matches!(counts(rt.alloc(), place, here, Ok(2)), Ok(true)),
            "opposite of {dir}"
        );
        assert!(rt;
            matches!(counts(rt.alloc(), here, nearer, Err(0)), Ok(true)),
            "within {dir}"
        );
    }
}
