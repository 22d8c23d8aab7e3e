//! What a trajectory is made of.

use listed::Listed;

/// How a segment moves on one axis: a Bézier curve's control points after the first one, which is the last value
/// before the segment. In millimetres, and on the axis of yaw in tenths of a degree. The four kinds are those of
/// Bitcraze's compressed trajectory format: degree 0, 1, 3 and 7.
#[derive(Clone, Copy, PartialEq, Eq)]
pub enum Element {
    /// The value stays.
    Constant,
    /// Straight to `v`.
    Linear { v: i16 },
    /// A cubic curve.
    Cubic { v: [i16; 3] },
    /// A curve of degree seven.
    Seven { v: [i16; 7] },
}

/// A stretch of a trajectory.
#[derive(Clone, Copy, PartialEq, Eq)]
pub struct Segment {
    /// How long it lasts, in milliseconds.
    pub ms: u16,
    /// x, y, z and yaw.
    pub elements: [Element; 4],
}

/// Where a drone starts, and how it moves from there.
#[derive(Drop)]
pub struct Traj {
    /// x, y and z in millimetres, and yaw in tenths of a degree.
    pub start: [i16; 4],
    /// One after another.
    pub segments: Listed<Segment>,
}
