//! `verify`: whether a certificate is valid for a show. Its laws are `VerifyLaw`, and its run is one fact, `Behaves`.
#![tactic(auto)]

mod faults;
mod lines;
mod verifying;

pub use verifying::{Taken, verify, verify_law};
