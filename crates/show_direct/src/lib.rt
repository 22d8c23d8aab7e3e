//! The command `direct`: it reads a way up, a show and a way down, each a text that a marker line ends, makes a flight
//! of them, and flies it with the flight director through the frames that follow.
//!
//! A text is read and judged, and what its show leads to goes on behind its marker line: that is one `Exchange`
//! (`specs/Exchanges.antt`), and the three texts are one in another. `flight_steps` makes the steps of the flight,
//! `flight_link` carries it.
#![tactic(auto)]

mod fault_frame;
mod flying;
mod making;
mod reading;

pub use fault_frame::{NO_FLIGHT, fault_frame_law};
pub use flying::{direct, direct_law};
