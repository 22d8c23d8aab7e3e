//! Tests of the whole program over ends that fail: each read and each write of every command in turn. Runs that end
//! well are cases of `.ci/program`, over the proved program.
//!
//! They stand above the crates that they test, since a crate with tests is proved twice.
#![tactic(auto)]

#[cfg(test)]
mod ends;
#[cfg(test)]
mod turns;
