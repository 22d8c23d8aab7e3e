//! The lines of the choreography language, one by one: what the words of a line say where it stands, or what is wrong
//! with them.
//!
//! [`entry_of`] reads one line, in either [`Form`] of the language, and [`quantity_in`] one number with a unit. It stands
//! on `text_lines`, which cuts a text into lines and words, and on `choreo_show`, which has what a line can say;
//! `choreo_reader` stands on it, and puts the lines together to a show.
#![tactic(auto)]

mod act;
mod entry;
mod field;
mod line;
mod quantity;
mod table;
mod unit;
mod word;

pub use entry::entry_of;
pub use field::number;
pub use line::{Entry, Keyword, LineError, LineKind, Place};
pub use quantity::{quantity_in, quantity_law};
pub use table::Form;
pub use unit::Counts;
pub use word::{is_name, keyword};
