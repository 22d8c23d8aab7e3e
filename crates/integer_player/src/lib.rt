//! Plays trajectories in whole numbers: where a drone is at each millisecond, rounded down, and the
//! rows that say it (docs/COMMANDS.md, `play`).
//!
//! [`at`] is the floor of the exact position (`specs/Played.antt`, over the decoded position of
//! `traj_codec`). [`play_row`] gives one row, and [`play`] writes those of a whole show. No call takes
//! memory. In `play` each drone has a `Player`, which moves on through its trajectory, and drones in
//! the same part of a segment share an `Instant`, so that a row costs no search and hardly a division.
//!
//! A curve's value is the sum of its control values with the weights of the instant, as a numerator
//! over a power of the segment's duration. Where the highest bits of the weights tell the floor
//! (`quick.rt`), it takes no division; else quotient and remainder are taken apart (`floor.rt`), since
//! a thousand times a position may need more than 128 bits.
//!
//! The crate stands on `whole_numbers` for moments and Bernstein sums, on `bezier_core` for laws of
//! powers, on `traj_codec` for trajectories, on `byte_streams` for the sink, and on `itoa` and
//! `arrayvec` for rows.
#![tactic(auto)]

mod curve;
mod floor;
mod instant;
mod player;
mod quick;
mod row;
mod show;
mod weights;

pub use player::at;
pub use row::{ROW_BYTES, Row, play_row};
pub use show::{Name, play};
pub use traj_codec::last_values;
