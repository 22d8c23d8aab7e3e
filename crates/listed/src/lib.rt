//! A list that contracts see as a list, wherever it stands: as a field of a type that a clause compares, or inside
//! another list.
//!
//! A [`Listed`] is made of a vector and gives it back; neither takes memory. It stands on nothing.
#![tactic(auto)]

mod list;

pub use list::Listed;
