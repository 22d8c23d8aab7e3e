//! The words of the command line, and what they ask for.
//!
//! [`command_of`] reads a list of words as a command: a name, for `drill` a number, and then the options that the
//! command takes, each at most once and in any order. `specs/Commands.antt` says which words are which command, and
//! [`words_law`] that a list of words is read as options exactly where it is these options, one after the other.
//! [`help_text`] is the forms of all commands.
//!
//! It stands on `text_lines` for the numbers that words are, and on `whole_numbers` for the number of drones.
#![tactic(auto)]

ghost use Rattle.command_words.specs.Commands.{WordsLaw};

mod command;
mod flight;
mod options;

pub use command::{Command, command_of, help_text};
pub use flight::FlightOptions;

/// A law. Words are read as options exactly where they are these options, one after the other
/// (`specs/Commands.antt`).
#[tactic(auto, using(crate::proofs::OptionLemmas::words_law))]
pub fn words_law()
    ensures { WordsLaw }
{}
