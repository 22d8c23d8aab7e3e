//! An upload as mathematics: one drone, the packets of a session in phases, the host as a function of
//! all that happened to it, the world of host, link and drones, and the laws that every list of events
//! keeps, with read-back or without.
//!
//! Code is in the crates above: `firmware_memory` is one drone, `upload_core` the host, `fleet_world`
//! the world. They share the plain types of this crate, and their contracts cite its definitions.
//! It stands on the bytes of packets, chunks and commands, of `crtp_packets`.
#![tactic(auto)]

mod events;
mod law;
mod limits;
mod loads;

pub use crtp_packets::MEMORY_BYTES;
pub use events::{Event, Phase, Progress, Reply, Sent, WorldEvent};
pub use law::{limits_law, readback_law, taking_law, upload_law};
pub use limits::{ACCEPTED, NO_ROOM, PACKETS_IN_FLIGHT, TABLE_ENTRIES, TICKS_TO_GIVE_UP, UNFIT};
pub use listed::Listed;
pub use loads::{Def, Load};
