//! The drill: a show of as many drones as are asked for, for trying the program on large input.
//!
//! [`drill_text`] is the text of the show of n drones, and [`drill_line`] the line of numbers that the command `drill`
//! writes. `specs/Drill.antt` says byte by byte what they are.
//!
//! It stands on `byte_streams` for lines, and on `whole_numbers` for the number of drones.
#![tactic(auto)]

mod line;
mod show;

pub use line::drill_line;
pub use show::drill_text;
