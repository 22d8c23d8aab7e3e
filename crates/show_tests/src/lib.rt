//! Tests of the show crates by their public calls: the words of a command, the lines of refusals, plans and
//! certificates whose bytes, trees or blocked parts are known from outside, reports and drills.
//!
//! They stand above the crates that they test, since a crate with tests is proved twice.
#![tactic(auto)]

#[cfg(test)]
mod commands;
#[cfg(test)]
mod drills;
#[cfg(test)]
mod plan;
#[cfg(test)]
mod plan_separation;
#[cfg(test)]
mod refusals_lines;
#[cfg(test)]
mod reports;
