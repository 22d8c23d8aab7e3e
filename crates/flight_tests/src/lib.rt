//! Tests of the flight crates by their public calls: whole flights by the director and through frames, each frame byte
//! by byte, and the steps of a flight.
//!
//! They stand above the crates that they test, since a crate with tests is proved twice. Expected bytes are those of
//! docs/PROMISES.md, "Its frames", or were written out by hand from it.
#![tactic(auto)]

#[cfg(test)]
mod directing;
#[cfg(test)]
mod flights;
#[cfg(test)]
mod frames;
#[cfg(test)]
mod links;
#[cfg(test)]
mod steps;
