//! Tests of the radio crates below an upload: packets, chunks and commands byte by byte, a drone's memory and what it
//! decodes to, link frames, and the world of a host and its drones.
//!
//! They stand above the crates that they test, since a crate with tests is proved twice. Expected bytes are those of
//! docs/RADIO.md, or were written out by hand from it.
#![tactic(auto)]

#[cfg(test)]
mod chunks;
#[cfg(test)]
mod commands;
#[cfg(test)]
mod curves;
#[cfg(test)]
mod drone;
#[cfg(test)]
mod frames;
#[cfg(test)]
mod packets;
#[cfg(test)]
mod sessions;
#[cfg(test)]
mod world;
