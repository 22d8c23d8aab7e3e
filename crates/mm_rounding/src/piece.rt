//! A piece of a drone's way in micrometres.

/// The control values of one axis over one cue, the first one included: one value that stays, or the values of a curve
/// of degree one, three or seven. Micrometres on x, y and z, tenths of a degree on yaw.
#[derive(Clone, Copy, PartialEq, Eq)]
pub enum Axis {
    One { v: i64 },
    Two { v: [i64; 2] },
    Four { v: [i64; 4] },
    Eight { v: [i64; 8] },
}

/// What one drone does in one cue of `ms` milliseconds: x, y and z in micrometres, yaw in tenths of a degree.
#[derive(Clone, Copy, PartialEq, Eq)]
pub struct MicroPiece {
    pub ms: u16,
    pub axes: [Axis; 4],
}
