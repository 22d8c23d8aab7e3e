//! The commands that study a show: whether its drones keep to regions (`boxes`), how fast they are at most (`speed`),
//! where two of them come close (`explain`), and how fast their speeds change at most and where they jump (`dynamics`).
//! The run of each is one fact, `Behaves`.
#![tactic(auto)]

mod accelerating;
mod blocking;
mod explaining;
mod findings;
mod keeping;
mod speeding;
mod study;

pub use accelerating::{DynamicsVerb, dynamics};
pub use blocking::blocked_law;
pub use explaining::explain;
pub use keeping::{boxes, boxes_law};
pub use speeding::{SpeedVerb, speed};
pub use study::Study;
