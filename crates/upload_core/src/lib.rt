//! The host of an upload: it sends packets, hears answers and ticks, and sends again what is in flight
//! until each packet is acknowledged, a packet was in flight too long, a drone refuses one, or a byte
//! that was read back isn't the load's.
//!
//! A [`Session`] is what is to be uploaded, and gives its packets; a [`Host`] stands for the list of all
//! that happened to it (`HostStandsFor`), and tells after each event how far the upload is and what is
//! to be sent. Of each drone it keeps its packets in flight with their counts, and the first one that
//! never was: since a good answer counts only for what is in flight, all before are acknowledged. An
//! answer finds its packet by its address. All memory is taken by the two `make`s. The definitions are
//! those of `upload_model`, packets, chunks and commands those of `crtp_packets`.
#![tactic(auto)]

mod answers;
mod host;
mod row;
mod rows;
mod session;

ghost use Rattle.std.specs.Prelude.{◌≡◌};

pub use host::Host;
pub use rows::{MOST_SENT, Out};
pub use session::{MOST_PACKETS, Session, Settings};
pub use upload_model::{Event, Listed, Load, Progress, Sent};

/// A law. The most packets of a drone, and the most that one event sends (docs/RADIO.md, "The upload").
pub fn limits_law()
    ensures packets { MOST_PACKETS ≡ 378 }
    ensures sent { MOST_SENT ≡ 128 }
{}
