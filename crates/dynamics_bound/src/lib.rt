//! How a trajectory accelerates at most, and how much its velocity jumps.
//!
//! [`bound`] gives a number for each of the axes x, y and z, in micrometres per second squared. Between any three
//! instants of a segment the mean velocity changes by at most that number times half the time between the first and the
//! last.
//!
//! [`jumps`] gives the greatest jump of the velocity between two segments, in micrometres per second, and
//! [`first_above`] the first of these numbers that is above a limit. Nothing is sampled: the numbers are computed from
//! control values. Takes no memory.
//!
//! [`motion_of`] names all of that by the cues of a show, and [`put_motion`] and [`put_extremes`] write the lines that
//! say it.
//!
//! The crate stands on `speed_bound` for the greatest rates of the second order, and on `byte_streams` for lines.
#![tactic(auto)]

mod acceleration;
mod excess;
mod jumping;
mod lines;
mod motion;
mod velocity;
mod walk;

pub use acceleration::bound;
pub use excess::{Excess, Kind, Limits, first_above};
pub use jumping::{Jump, jumps, rests};
pub use lines::{put_extremes, put_motion};
pub use motion::{Axes, Extremes, Motion, cue_of, motion_of};
pub use velocity::Velocity;
