//! Figures written out: what each drone does in each cue, as control values in micrometres.
//!
//! `step` returns the piece of a drone in a cue. On each axis and at each fraction of the cue the piece is exactly at
//! the position that the show's text says (`expansion_law`, `specs/Written.antt`). `range_fault` names the first value
//! that no trajectory can hold. The acts and their control values are those of docs/LANGUAGE.md. It stands on
//! `cue_grid` for the cues, and on `mm_rounding` for the pieces.
#![tactic(auto)]

mod acts;
mod expansion;
mod fault;
mod law;
mod range;
mod shapes;

pub use expansion::step;
pub use fault::AxisValue;
pub use law::expansion_law;
pub use range::range_fault;
