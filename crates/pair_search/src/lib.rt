//! The search for a certificate: of one pair of drones in one cue, and of all pairs in all cues of a fleet.
//!
//! [`search`] finds the tree with the largest possible leaves, each with the first direction of the table that
//! separates its part of the cue, exactly where each part of the greatest depth has such a direction; else it names the
//! first part that has none. The halves of a separated part are separated, so nothing is lost by stopping at the first
//! leaf on a way down.
//!
//! [`search_all`] does so for each pair of a fleet in each cue, and [`count_all`] only counts the nodes of the trees.
//!
//! It stands on `sep_parts`, which has the directions, the parts and the trees; `sep_certificate` beside it accepts
//! what is found.
#![tactic(auto)]

mod ends;
mod extents;
mod first;
mod fleet;
mod lanes;
mod marking;
mod opposites;
mod shape;
mod short;
mod some;
mod walk;

pub use fleet::{SearchFault, count_all, search_all};
pub use walk::{Found, search, search_law, search_with};
