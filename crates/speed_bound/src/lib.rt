//! How fast a trajectory is at most.
//!
//! [`bound`] gives a number for each of the axes x, y and z, in micrometres per second: between any two instants the
//! decoded position moves by at most that speed times the time between them. Nothing is sampled: the number is computed
//! from the control values of the parts of each segment, since a curve of degree seven moves by at most seven times the
//! widest step between two neighbouring control values. Takes no memory. [`put_speeds`] writes the line with the three
//! numbers.
//!
//! [`greatest_rate`] gives such a bound of the first or of the second order, of speeds or of accelerations; of the
//! latter `dynamics_bound` says what they promise.
//!
//! The crate stands on `halving` for the parts, and on `fleet_curves` for the raised curves of a segment.
#![tactic(auto)]

mod lines;
mod parts;
mod rates;
mod reaching;
mod trajectory;

pub use lines::put_speeds;
pub use rates::{element_rate, greatest_rate};
pub use reaching::{reach, reach_law, still_law};
pub use trajectory::bound;
