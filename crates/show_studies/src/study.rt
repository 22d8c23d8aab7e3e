//! How a show is studied.

use whole_numbers::{Depth, Fine};

/// How a show is studied: at this depth, over the instants that cut each cue into 2^`fine` parts, and whether each pair
/// and cue that is blocked is named.
#[derive(Clone, Copy)]
pub struct Study {
    pub depth: Depth,
    pub fine: Fine,
    pub all: bool,
}
