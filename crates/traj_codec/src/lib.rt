//! Trajectories in the compressed format (docs/TRAJECTORY.md): a start, then segments of elements of four kinds.
//!
//! What `encode` returns is the one spelling of the trajectory by `specs/Spelling.antt`, and then three zero bytes;
//! `size_of` is its length. `decode` returns the one trajectory of this many segments whose spelling bytes begin with,
//! or the first field that is faulty, by `specs/Reading.antt`. Where the trajectory puts a drone at an instant is said
//! by `specs/Positions.antt`; `value_after` is the value with which an element ends. `join_holds` joins whole holds
//! that follow each other; by `join_law` the curve is the same.
#![tactic(auto)]

mod ends;
mod joining;
mod law;
mod reading;
mod traj;
mod writing;

pub use ends::{last_values, value_after};
pub use joining::{join_holds, join_law};
pub use law::{segment_law, spelling_law, start_law};
pub use listed::Listed;
pub use reading::{CodecFault, decode};
pub use traj::{Element, Segment, Traj};
pub use writing::{encode, size_of};
