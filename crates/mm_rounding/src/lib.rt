//! Pieces in micrometres rounded to the segments of a trajectory, in millimetres.
//!
//! `to_mm` rounds a number, `round_piece` a piece, and `short` keeps a number as it is; each returns nothing where a
//! number doesn't fit two bytes. At every instant of the piece the rounded position is within half a millimetre of the
//! exact one on each axis, and the yaw is equal (`rounding_law`, `specs/Near.antt`). It stands on `traj_codec` for
//! segments and on `whole_numbers` for Bernstein sums.
#![tactic(auto)]

mod law;
mod piece;
mod rounding;

pub use law::rounding_law;
pub use piece::{Axis, MicroPiece};
pub use rounding::{round_piece, short, to_mm};
