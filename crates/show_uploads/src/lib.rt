//! The commands that concern an upload: what it leaves in drones after a schedule (`rehearse`), and the upload itself,
//! through link frames (`upload`). Each has its laws and one fact of its run, `Behaves`.
#![tactic(auto)]

mod rehearsing;
mod uploading;

pub use rehearsing::{Rehearsal, rehearse, rehearse_law};
pub use uploading::{Ready, upload, uploading_law};
