//! Tests of the crates of the ground layer: `listed`, `text_lines` and `byte_streams`. They stand in a crate of their own
//! so that those crates are proved once. Each call is the public one that the layers above make.
#![tactic(auto)]

#[cfg(test)]
mod ends;
#[cfg(test)]
mod lines;
#[cfg(test)]
mod lists;
#[cfg(test)]
mod parts;
#[cfg(test)]
mod readers;
#[cfg(test)]
mod reading;
#[cfg(test)]
mod texts;
