//! Where an element and a segment end.

ghost use Rattle.std.specs.Prelude.{◌≡◌, ℕ, ◌≤◌, ◌<◌};
ghost use Rattle.whole_numbers.specs.Bernstein.{at};
ghost use Rattle.whole_numbers.specs.Decoded.{last_value};
ghost use Rattle.traj_codec.specs.Positions.{element_on, value_after};

use crate::traj::{Element, Segment};

/// The value with which an element ends that begins with the first one, in millimetres or, of yaw, in tenths of a
/// degree.
pub fn value_after(first: i16, element: Element) -> i16
    ensures { result ≡ value_after first element }
{
    match element {
        Element::Constant => first,
        Element::Linear { v } => v,
        Element::Cubic { v } => last_of(first, &v),
        Element::Seven { v } => last_of(first, &v),
    }
}

/// The values with which a segment ends that begins with these: x, y and z in millimetres, and yaw in tenths of a
/// degree (docs/TRAJECTORY.md).
pub fn last_values(first: &[i16; 4], s: &Segment) -> [i16; 4]
    ensures { (axis : ℕ) → axis < 4 → at result axis ≡ value_after (at first.now axis) (element_on s.now axis) }
{
    let [x, y, z, yaw] = s.elements;
    [
        value_after(first[0], x),
        value_after(first[1], y),
        value_after(first[2], z),
        value_after(first[3], yaw),
    ]
}

// The last of one or more numbers, whatever stood before them.
fn last_of<const N: usize>(first: i16, v: &[i16; N]) -> i16
    requires { 1 ≤ N }
    ensures { result ≡ last_value first v.now }
{
    v[N - 1]
}
