//! What the types of trajectories say of their elements.

ghost use Rattle.std.specs.Prelude.{◌≤◌, length, All};
ghost use Rattle.traj_codec.specs.Spelling.{stored};
ghost use Rattle.fleet_curves.specs.Steps.{IsFormed};

use traj_codec::{Element, Segment, Traj};

/// A law: each element of a trajectory on x, y and z has at most seven numbers.
pub fn formed_law(t: &Traj)
    ensures { All IsFormed t.now.segments }
{
    for s in t.segments.as_slice() {
        segment_law(s);
    }
}

// A law: the elements of a segment on x, y and z have at most seven numbers.
fn segment_law(s: &Segment)
    ensures { IsFormed s.now }
{
    element_law(s.elements[0]);
    element_law(s.elements[1]);
    element_law(s.elements[2]);
}

// A law: an element has at most seven numbers.
fn element_law(element: Element)
    ensures { length (stored element) ≤ 7 }
{
    match element {
        Element::Constant => {}
        Element::Linear { v: _ } => {}
        Element::Cubic { v: _ } => {}
        Element::Seven { v: _ } => {}
    }
}
