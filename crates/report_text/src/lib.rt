//! The report on a show, as JSON.
//!
//! [`report_text`] is the text: an object with the members `bytes`, `cues`, `drones`, `duration_ms`, `nodes` and
//! `packets` in this order, without spaces, and a line feed. `specs/Report.antt` says what it is.
//!
//! It stands on `serde_json` for the text of a JSON value, and on `arrayvec` for names.
#![tactic(auto)]

mod report;

pub use report::report_text;
