//! What certificates of separation are made of: the directions with their thresholds, the parts of a cue and the trees
//! that name them, and the order in which pairs and cues come.
//!
//! Drones are told apart along directions: where along one of them every control value of a part of the difference of
//! two curves is at least that direction's threshold, the ellipsoids around the two drones share no point anywhere in
//! that part. `sep_certificate`, which judges certificates and passes its public calls on, and `pair_search`, which
//! finds their trees, stand on it.
#![tactic(auto)]

mod apart;
mod clearance;
mod directions;
mod forest;
mod node;
mod part;
mod rows;
mod ruler;
mod rules;
mod short;
mod slot;
mod stack;
mod values;
mod waiting;

pub use apart::apart_law;
pub use clearance::Clearance;
pub use directions::{DIRECTIONS, Dirs, WIDE, table_law, threshold_law, thresholds};
pub use forest::Forest;
pub use node::{Node, tree_law};
pub use part::{above, first_below, halves, low_control, projected, separates, size_law};
pub use ruler::Ruler;
pub use rules::Rules;
pub use slot::Slot;
pub use stack::{Level, parts_below};
pub use values::Controls;
pub use waiting::Waiting;
