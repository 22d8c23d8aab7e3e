//! Boxes that drones have to stay out of, and volumes that they have to stay in.
//!
//! [`read_regions`] reads a text of regions, one a line. [`judge`] says whether each drone keeps to each of them
//! throughout the show, its ellipsoid counted, or names the first part of a cue that is not kept. Like the judgement of
//! separation it cuts each cue into parts and looks at their control values, so a yes holds at every instant and not
//! only at sampled ones. [`kept_line`] is the line that says that they do.
//!
//! The crate stands on `text_lines` for words and numbers, on `halving` for the parts, and on `sep_parts` for the
//! raised curves.
#![tactic(auto)]

mod flight;
mod judging;
mod lines;
mod part;
mod reading;
mod region;
mod sent;
mod walk;

pub use judging::{Judged, judge};
pub use lines::kept_line;
pub use reading::{RegionFault, read_regions};
pub use region::Region;
pub use sent::sent_law;
