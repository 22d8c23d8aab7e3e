//! A rehearsal: a schedule runs over a host and drones that are blank at the start, and what the
//! drones hold then is written (docs/COMMANDS.md, `rehearse`).
//!
//! [`rehearse`] gives the world after the schedule (`specs/Rehearsed.antt`), and [`memory_text`] the
//! text that says what its drones hold (`specs/Texts.antt`). The crate stands on `fleet_world` for the
//! world, on `firmware_memory` and `integer_player` for what a memory decodes to and how that ends, and
//! on `byte_streams` for the text.
#![tactic(auto)]

mod blank;
mod text;

pub use blank::rehearse;
pub use text::memory_text;
