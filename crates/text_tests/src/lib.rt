//! Tests of the crates of the text layer: `quantities`, `choreo_lines`, `choreo_reader`, `cue_grid`, `mm_rounding` and
//! `figure_expand`. They stand in a crate of their own so that those crates are proved once. Each call is the public
//! one that the layers above make.
#![tactic(auto)]

#[cfg(test)]
mod cues;
#[cfg(test)]
mod figures;
#[cfg(test)]
mod lines;
#[cfg(test)]
mod rounding;
#[cfg(test)]
mod shows;
#[cfg(test)]
mod units;
