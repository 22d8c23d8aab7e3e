//! The legs of a way.

ghost use Rattle.std.specs.Prelude.{◌≡◌, map, IfOk};
ghost use Rattle.flight_model.specs.Legs.{after_segment, legs_of as word_legs, way_ends as word_ends};

use flight_model::Leg;
use listed::Listed;
use std::alloc::{AllocError, Global};
use traj_codec::{Segment, Traj, last_values};

/// Where a segment ends that begins here.
pub fn after(here: &[i16; 4], s: &Segment) -> [i16; 4]
    ensures { result ≡ after_segment here.now s.now }
{
    last_values(here, s)
}

/// Where a way ends.
pub fn way_ends(t: &Traj) -> [i16; 4]
    ensures { result ≡ word_ends t.now }
{
    let mut here = t.start;
    for s in t.segments.as_slice() {
        here = after(&here, s);
    }
    here
}

fn legs_of(alloc: Global, t: &Traj) -> Result<Listed<Leg>, AllocError>
    ensures { IfOk result (λ legs. legs ≡ word_legs t.now) }
{
    let mut legs = Vec::new(alloc);
    let mut here = t.start;
    for s in t.segments.as_slice() {
        let there = after(&here, s);
        legs.push(Leg {
            from: here,
            to: there,
            ms: s.ms as u32,
        })?;
        here = there;
    }
    Ok(Listed::from_vec(legs))
}

/// The legs of each drone.
pub fn all_legs(alloc: Global, ways: &[Traj]) -> Result<Vec<Listed<Leg>>, AllocError>
    ensures { IfOk result (λ all. all.items ≡ map word_legs ways.now) }
{
    let mut all = Vec::new(alloc);
    for t in ways {
        let legs = legs_of(alloc, t)?;
        all.push(legs)?;
    }
    Ok(all)
}
