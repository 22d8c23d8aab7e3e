//! The plan of a show: from what a show says to the text that says the bytes of its trajectories.
//!
//! `fit` returns the trajectories of a show and their bytes, or the first reason why the show has no plan. What it
//! returns is pinned by `specs/Fitting.antt`: the trajectories are the rounded ones (`specs/Trajectories.antt`), the
//! bytes are their spelling by `traj_codec` (docs/TRAJECTORY.md). At every instant, also between whole milliseconds,
//! what a trajectory decodes to is within half a millimetre of what the show says, and the yaw is equal
//! (`specs/Flight.antt`).
//!
//! `certificate` returns what keeps the drones of a show that fits apart, or the first part of a cue in which no
//! direction separates two of them (`specs/Separation.antt`); `separation_law` says what that first part is
//! (`specs/Laws.antt`).
//!
//! `plan_text` returns the text with each drone's bytes and the packets that bring them, byte by byte that of
//! `specs/Texts.antt`; by `plan_law` no other drones or trajectories have that text.
//! `session` is what is uploaded, `landing_law` says what it leaves in the drones' memories (`specs/Landing.antt`), and
//! `uploads_law` what holds of each upload of it (`specs/Uploading.antt`).
//!
//! It stands on `choreo_reader` for what a show says, on `cue_grid` for its cues, on `figure_expand` and `mm_rounding`
//! for its pieces and where they round to, on `traj_codec` for trajectories, on `sep_parts`, `pair_search` and
//! `sep_certificate` for their separation, on `crtp_packets` for packets, on `upload_core`, `upload_model` and
//! `firmware_memory` for uploads, and on `byte_streams` for texts.
#![tactic(auto)]

mod fitted;
mod fitting;
mod packets;
mod separation;
mod text;
mod upload;

pub use fitted::{FitError, Fitted, PlanFault};
pub use fitting::fit;
pub use separation::{
    BlockedPart, SeparationFault, certificate, clearance_of, count_nodes, ruler_of, separation_law,
};
pub use text::{plan_law, plan_text};
pub use upload::{landing_law, session, uploadable_law, uploads_law};
