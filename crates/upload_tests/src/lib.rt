//! Tests of uploads: hosts answer by answer, with read-back and without, drones whose memories somebody alters, an
//! upload over frames, and what a rehearsal writes.
//!
//! They stand above the crates that they test, since a crate with tests is proved twice. Expected bytes are those of
//! docs/RADIO.md, or were written out by hand from it.
#![tactic(auto)]

#[cfg(test)]
mod host;
#[cfg(test)]
mod hosts;
#[cfg(test)]
mod link;
#[cfg(test)]
mod readback;
#[cfg(test)]
mod readback_world;
#[cfg(test)]
mod rehearsing;
#[cfg(test)]
mod sessions;
#[cfg(test)]
mod states;
