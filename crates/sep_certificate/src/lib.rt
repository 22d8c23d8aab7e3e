//! Certificates that a show keeps its drones apart: what a valid one is, what it promises, and its text.
//!
//! A certificate has a tree for each pair of drones and each cue. A tree cuts the cue into parts, and names for each
//! part a direction that separates the two drones there. A valid certificate keeps each pair apart at every instant,
//! whoever made it: [`certificate_law`] says so. `certificate_checker` judges the text of one. The argument is in
//! docs/SEPARATION.md.
//!
//! It stands on `sep_parts`, which has the directions, the curves and the parts, and passes its public calls on.
#![tactic(auto)]

mod certificate;
mod judge;
mod text;

pub use certificate::{CertFault, Certificate};
pub use fleet_curves::Curves;
pub use judge::{certificate_law, node_fault};
pub use sep_parts::{DIRECTIONS, Dirs, Node, WIDE, above, separates, thresholds};
pub use text::{CERTIFICATE_LIMIT, depth_of, text_law, write_certificate};
