//! One drone as this project models it, and what its memory decodes to: a memory of 4,096 bytes, a
//! table of ten trajectories, and the one that was started (docs/RADIO.md, "A drone").
//!
//! `handle` takes one packet as the definition `handled` of `upload_model` says, and answers it. It
//! is no statement about which checks the firmware makes. A drone's memory decodes to a trajectory
//! under an id where its table has an entry of this id, and the bytes from the entry's offset on
//! begin with the spelling of the trajectory (`DecodesTo`). [`curve_of`] is that trajectory; by
//! [`curve_law`] it is the only one, and what was loaded decodes to what was sent, with the ending
//! after it (`Carries`).
//!
//! The crate stands on `upload_model` and `crtp_packets` for the drone, and on `traj_codec` for
//! trajectories and their bytes (docs/TRAJECTORY.md). Of its calls `curve_of` alone takes memory.
#![tactic(auto)]

mod curve;
mod drone;
mod law;

pub use curve::curve_of;
pub use drone::{Drone, make};
pub use law::curve_law;
pub use upload_model::{ACCEPTED, Def, MEMORY_BYTES, NO_ROOM, TABLE_ENTRIES, UNFIT};
