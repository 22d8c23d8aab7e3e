//! What the program answers, over any source and any sink.
//!
//! `run` has the program's contract: each command is a value of `Verb` (`specs/Verbs.antt` has a line a command), and
//! what a run of it gives, reads and writes is `Behaves` of `show_judge`. The commands stand in `show_looks`,
//! `show_uploads`, `show_verify` and `show_studies`. `show_cli` hands it standard input and output.
#![tactic(auto)]

mod top;

pub use top::{run, run_surely};
