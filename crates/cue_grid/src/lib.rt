//! The cues of a show: what each drone does in each of them, with repeats written out and figures played by drones.
//!
//! `unroll` returns exactly the cues of the show, or the first fault of its names and cues with its line. What it
//! returns is a valid grid: 1 to 32 drones, 1 to 1,000 cues, one job for each drone in each cue, each number in its
//! range. The names of its drones are names of the language. The frame functions say where a frame puts a point. The
//! language is that of `docs/LANGUAGE.md`, the shows are choreo_reader's.
#![tactic(auto)]

mod acted;
mod count;
mod cues;
mod faults;
mod frame;
mod grid;
mod lookup;
mod names;
mod unrolling;

pub use frame::{apply, mirror, quarter_turn, shift};
pub use grid::{Cue, Grid, GridFault, Job, UnrollError};
pub use unrolling::unroll;
