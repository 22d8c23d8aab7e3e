//! Where two drones of a show touch, among instants that are listed.
//!
//! The listed instants are the fractions m / 2^fine of each cue, from its beginning to its end. [`first_touch`] names
//! the first of them at which the closed ellipsoids around two drones share a point. None means that there is no such
//! instant among them; it says nothing of the instants between. [`closest`] names the listed instant and the pair with
//! the least left side of the test, and how far above the right side it is: docs/SEPARATION.md has the test.
//! [`closest_in`] does so for one pair in one cue. None of them takes memory. [`put_closest`], [`put_touch`] and the
//! others write the lines that say so.
//!
//! The crate stands on `sep_parts` for how far two drones are from one another, on `traj_codec` and `bezier_core` for
//! positions, and on `byte_streams` for lines.
#![tactic(auto)]

mod axes;
mod cue;
mod distance;
mod formed;
mod lines;
mod nearest;
mod places;
mod site;
mod touch;

pub use axes::Axes;
pub use cue::closest_in;
pub use lines::{
    put_blocked, put_blocked_closest, put_closest, put_more_blocked, put_no_touch, put_separated,
    put_touch,
};
pub use nearest::{closest, closest_of};
pub use site::{Closest, Part, Touch};
pub use touch::{first_touch, first_touch_of};
