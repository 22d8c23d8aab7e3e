//! Certificates judged as their texts are read, byte by byte, without holding them.
//!
//! A [`Checker`] takes a certificate's text in pieces. At the end it returns the text's first faulty line; or the first
//! fault of the certificate; or that the certificate is valid, and then the drones are apart at every instant. The
//! clause `gives` of [`Checker::end`] says this by the definitions of `sep_certificate`. What a checker keeps doesn't
//! grow with the text, and it allocates nothing.
//!
//! It stands on `sep_certificate` for these definitions, and on `sep_parts` for the parts of curves that wait to be
//! judged.
#![tactic(auto)]

mod checker;
mod judging;
mod reader;
mod tables;
mod text;
mod verdict;

pub use checker::Checker;
pub use verdict::Verdict;
