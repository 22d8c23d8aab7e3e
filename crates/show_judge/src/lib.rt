//! From a text to a show that nothing refuses, and from that to the end of a run: what all commands share.
#![tactic(auto)]

mod any;
mod driver;
mod ends;
mod input;
mod judging;
mod refusing;
mod two;
mod ways;

pub use any::{AnyText, run_any};
pub use driver::{OneText, run_one};
pub use ends::{Answer, Failure, Output, fail, finish, refuse, respond};
pub use input::{Input, Text, next_text, read_show_text, read_two};
pub use judging::{Accepted, Judged, Planned, accept, fit_text};
pub use refusing::{marker_number, name_at, pair_at, unseparated};
pub use two::{TwoTexts, run_two};
pub use ways::Ways;
