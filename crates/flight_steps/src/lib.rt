//! The steps of a flight, from three fitted shows: the way up, the show and the way down.
//!
//! [`steps_of`] gives the steps that the flight director flies, or the first reason why the three are no flight, in the
//! order of `flight_fault` (specs/Faults.antt). What a flight is and what its steps are is defined by `flight_model`
//! (`IsFlight`, `steps_of`). [`room_of`] gives the room of its curves. It stands on `flight_model`, and on `traj_codec`
//! for trajectories.
#![tactic(auto)]

mod faults;
mod judging;
mod law;
mod legs;
mod moves;
mod parts;
mod room;
mod steps;
mod ways;

pub use faults::{FlightFault, Seam, StepsError, Way};
pub use law::{sizes_law, ways_law};
pub use room::room_of;
pub use steps::steps_of;
pub use ways::{Crew, Crews, Ellipsoid, Name, Ways};
