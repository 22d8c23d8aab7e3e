//! The raised curves of a fleet: of each drone in each cue the curves on x, y and z, all of degree seven over one
//! denominator, so that those of two drones can be taken from each other.
//!
//! `Curves` keeps those of a whole show; `raised_segment` gives those of one segment. `specs/Raised.antt` says which
//! trajectories curves stand for. It stands on `bezier_core` for curves and on `traj_codec` for trajectories.
#![tactic(auto)]

mod curves;
mod difference;
mod formed;
mod widths;

pub use curves::{Curves, raised, raised_segment, row_of_four};
pub use difference::Difference;
pub use formed::formed_law;
pub use traj_codec::value_after;
