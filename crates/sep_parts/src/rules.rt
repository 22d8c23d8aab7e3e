//! By what parts of a cue are judged.

use crate::clearance::Clearance;

/// By what parts of a cue are judged: what is kept clear around drones, and how far a cue may be cut.
#[derive(Clone, Copy)]
pub struct Rules {
    pub clearance: Clearance,
    /// The greatest depth of a part.
    pub depth: u8,
}
