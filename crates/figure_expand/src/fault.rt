//! What can be wrong with the numbers of a grid.

/// A value that has to fit a trajectory: the line that it comes from, its axis, 0 to 3 for x, y, z and yaw, and the
/// value, in micrometres, or on yaw in tenths of a degree.
#[derive(Clone, Copy, PartialEq, Eq)]
pub struct AxisValue {
    pub line: u32,
    pub axis: u8,
    pub value: i64,
}
