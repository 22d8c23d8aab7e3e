//! Bytes in and out, for every layer that reads or writes a text.
//!
//! A `Source` gives bytes and a `Sink` takes them; each exposes which, and counts its faults, and a call fails only
//! where that count rose, so that a failed read is never taken for the end of the input. `Parts` cuts an input into the
//! parts that marker lines divide, whole by `text` or in pieces by `part_bytes`; `byte` takes the bytes after them.
//! `write_whole` writes all or says that it failed. `Lines` and `ShortLine` build lines of templates and words. Over
//! memory every call is exact (`MemSource`, `MemSink`; `SureSource` and `SureSink` never fail). `StdSource` and
//! `StdSink` stand over any reader and writer of std, standard input and output among them. In proofs they keep a log
//! of the bytes that the reader gave and the writer took; what is still to come is known only where the reader exposes
//! it.
//!
//! It stands on `text_lines` for what a line and a marker line are, on `arrayvec` for the short line's bytes, and
//! on `itoa` for digits.
#![tactic(auto)]

mod lines;
mod log;
mod memory;
mod parts;
mod short_line;
mod standard;
pub mod status;
mod stream;
mod sure;
mod words;

pub use lines::{Lines, hex_digit};
pub use memory::{MemSink, MemSource};
pub use parts::{Ask, BUFFER_BYTES, IoFault, Part, Parts, limits_law, marker_law, part_law};
pub use short_line::ShortLine;
pub use standard::{StdSink, StdSource};
pub use stream::{Failed, Sink, Source, write_whole};
pub use sure::{SureSink, SureSource};
pub use words::Word;
