//! Memories with a path at their end, with bytes that were written out by hand.
use firmware_memory::{Def, Drone, MEMORY_BYTES, curve_of, make};
use std::alloc::{AllocError, Global};
use traj_codec::{Element, Segment, Traj};

// A metre along x from rest to rest in two seconds, at one metre's height, and the ending.
const PATH: [u8; 28] = [
    0, 0, 0, 0, 0xE8, 3, 0, 0, 3, 0xD0, 7, 0, 0, 0, 0, 0, 0, 0xE8, 3, 0xE8, 3, 0xE8, 3, 0xE8, 3, 0,
    0, 0,
];

// A blank drone with the path as its last bytes, and this entry under id 9.
fn drone_with(offset: u32, pieces: u8) -> Drone {
    let mut memory = [0xFF; MEMORY_BYTES];
    memory[4068..].copy_from_slice(&PATH);
    let mut drone = make(2, memory);
    drone.defs[9] = Some(Def { offset, pieces });
    drone
}

// The segment of the path.
const METRE: Segment = Segment {
    ms: 2000,
    elements: [
        Element::Seven {
            v: [0, 0, 0, 1000, 1000, 1000, 1000],
        },
        Element::Constant,
        Element::Constant,
        Element::Constant,
    ],
};

// The segment that blank bytes are.
const BLANK: Segment = Segment {
    ms: 65_535,
    elements: [Element::Seven { v: [-1; 7] }; 4],
};

// Where a trajectory begins, and its one segment; none where it has no segments.
type Curve = ([i16; 4], Option<Segment>);

// Offset and pieces of an entry, and what the memory decodes to under it.
const DECODED: [(u32, u8, Option<Curve>); 9] = [
    // a path at the end
    (4068, 1, Some(([0, 0, 1000, 0], Some(METRE)))),
    // blank bytes are a trajectory
    (0, 1, Some(([-1; 4], Some(BLANK)))),
    // no segments are a start
    (4088, 0, Some(([-6141, -6141, 3, 0], None))),
    // the ending is a second segment that lasts no time
    (4068, 2, None),
    // a segment isn't whole
    (4077, 1, None),
    // a start isn't
    (4089, 0, None),
    // places past the end
    (4096, 0, None),
    (8164, 1, None),
    (4_294_967_295, 255, None),
];

fn is_curve(t: &Traj, wanted: Curve) -> bool {
    let (start, segment) = wanted;
    let segments = t.segments.as_slice();
    t.start == start && segments.len() <= 1 && segments.first().copied() == segment
}

// Whether a drone's memory decodes to this under id 9, and to nothing under the others.
fn decodes_to(alloc: Global, drone: &Drone, wanted: Option<Curve>) -> Result<bool, AllocError> {
    for id in 0..9 {
        if curve_of(alloc, drone, id)?.is_some() {
            return Ok(false);
        }
    }
    match (curve_of(alloc, drone, 9)?, wanted) {
        (Some(t), Some(wanted)) => Ok(is_curve(&t, wanted)),
        (found, wanted) => Ok(found.is_none() && wanted.is_none()),
    }
}

// The number of the first row that decodes to something else; none where there is no such row.
fn wrong_curve(alloc: Global) -> Result<Option<usize>, AllocError> {
    for (k, (offset, pieces, wanted)) in DECODED.iter().enumerate() {
        if !decodes_to(alloc, &drone_with(*offset, *pieces), *wanted)? {
            return Ok(Some(k));
        }
    }
    Ok(None)
}

#[test]
fn memories_are_decoded(rt: HostRuntime) {
    assert_eq!(rt; wrong_curve(rt.alloc()).unwrap_or(Some(0)), None);
}
