//! The director: it flies a flight, as `flight_model` defines it.
//!
//! [`Director::event`] hears one event and gives the frames that go out; it takes no memory. What it does is
//! `happens` and `says` of `flight_model`, so the laws of every list of events hold of it.
#![tactic(auto)]

mod answers;
mod covered;
mod curve;
mod director;
mod distance;
mod down;
mod fit;
mod holds;
mod notes;
mod risen;
mod room;
mod state;
mod tracks;

pub use director::Director;
pub use flight_model::{
    Condition, Event, Fault, Flight, Frame, Note, Order, Orders, Phase, Position, Sample, Signal,
    Step, Track, Window,
};
pub use notes::{MOST_NOTES, Notes};
pub use state::{MOST_OUT, Out, State};
