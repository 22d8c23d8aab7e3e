//! What holds of all spellings.

ghost use Rattle.traj_codec.specs.Spelling.{AreNumbers, IsElement, IsSegment, SpellingLaw};

use crate::{Element, Segment};

/// Each trajectory has one spelling, which is no other's, and no spelling of as many segments is a front of another.
pub fn spelling_law()
    ensures { SpellingLaw }
{}

/// A law. Each value of the type is a segment: its duration and its numbers fit two bytes, and an element has as many
/// numbers as its kind says.
pub fn segment_law(s: Segment)
    ensures { IsSegment s }
{
    element_law(s.elements[0]);
    element_law(s.elements[1]);
    element_law(s.elements[2]);
    element_law(s.elements[3]);
}

/// A law. The numbers of each start fit two bytes.
pub fn start_law(start: [i16; 4])
    ensures { AreNumbers 4 start }
{
    let [_x, _y, _z, _yaw] = start;
}

// The numbers of an element fit two bytes, and they are as many as its kind says.
fn element_law(e: Element)
    ensures { IsElement e }
{
    match e {
        Element::Constant => {}
        Element::Linear { v } => {
            let _v = v;
        }
        Element::Cubic { v } => three_law(v),
        Element::Seven { v } => seven_law(v),
    }
}

fn three_law(v: [i16; 3])
    ensures { AreNumbers 3 v }
{
    let [_a, _b, _c] = v;
}

fn seven_law(v: [i16; 7])
    ensures { AreNumbers 7 v }
{
    let [_a, _b, _c, _d, _e, _f, _g] = v;
}
