//! Flights that several tests are made of, and what is kept clear around their drones.

ghost use Rattle.std.specs.Prelude.{◌≡◌, ◌∷◌, [], IfOk};
ghost use Rattle.traj_codec.specs.Positions.{durations};
ghost use Rattle.sep_parts.specs.Directions.{IsClearance};

use sep_parts::Clearance;
use std::alloc::{AllocError, Global};
use traj_codec::{Element, Listed, Segment, Traj};

// From rest to rest.
fn moved(from: i16, to: i16) -> Element {
    if from == to {
        Element::Constant
    } else {
        Element::Seven {
            v: [from, from, from, to, to, to, to],
        }
    }
}

// Three seconds from one place to another.
fn leg(from: [i16; 3], to: [i16; 3]) -> Segment
    ensures { result.ms ≡ 3000 }
{
    Segment {
        ms: 3000,
        elements: [
            moved(from[0], to[0]),
            moved(from[1], to[1]),
            moved(from[2], to[2]),
            Element::Constant,
        ],
    }
}

// Two legs through three places.
pub(crate) fn two_legs(alloc: Global, places: [[i16; 3]; 3]) -> Result<Traj, AllocError>
    ensures { IfOk result (λ t. durations t.segments ≡ 3000 ∷ 3000 ∷ []) }
{
    let [x, y, z] = places[0];
    let legs = vec![in alloc; leg(places[0], places[1]), leg(places[1], places[2])]?;
    Ok(Traj {
        start: [x, y, z, 0],
        segments: Listed::from_vec(legs),
    })
}

// Three legs through four places.
pub(crate) fn three_legs(alloc: Global, places: [[i16; 3]; 4]) -> Result<Traj, AllocError>
    ensures { IfOk result (λ t. durations t.segments ≡ 3000 ∷ 3000 ∷ 3000 ∷ []) }
{
    let [x, y, z] = places[0];
    let legs = vec![in alloc;
        leg(places[0], places[1]),
        leg(places[1], places[2]),
        leg(places[2], places[3]),
    ]?;
    Ok(Traj {
        start: [x, y, z, 0],
        segments: Listed::from_vec(legs),
    })
}

// A clearance with these numbers, brought into the ranges of shows.
pub(crate) fn clearance(r: u16, h: u16, stray: u16, reach: [u32; 3]) -> Clearance
    ensures { IsClearance result }
{
    Clearance {
        r: r.max(1).min(2000),
        h: h.max(1).min(2000),
        stray: stray.min(1000),
        late: 0,
        reach: [
            reach[0].min(65_536),
            reach[1].min(65_536),
            reach[2].min(65_536),
        ],
    }
}

// Ellipsoids of half axes 120, 120 and 300 mm, with nobody who strays or is late.
pub(crate) fn still() -> Clearance
    ensures { IsClearance result }
{
    clearance(120, 300, 0, [0, 0, 0])
}
