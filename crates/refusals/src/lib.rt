//! Why the program refuses: a value with the status that the program ends with, and the line that it writes.
//!
//! `Refusal` has one variant a cause, with what it is about: drones by their names, cues, parts and packets by their
//! numbers. `status` and `line` are exactly those of `specs/Refusals.antt`, whose lines stand byte by byte in
//! `specs/Lines.antt`, with the word of each kind in `specs/KindWords.antt`. A line is a `ShortLine`, which takes no
//! memory, so that being out of memory can't keep a refusal from being written.
//!
//! It stands on `byte_streams` for lines, on `choreo_lines` and `cue_grid` for what can be wrong with a show, on `halving`
//! for the parts of a cue, and on `sep_parts` for the versions of certificates.
#![tactic(auto)]

mod kinds;
mod lines;
mod refusal;
mod words;

pub use refusal::{Pair, Refusal};
