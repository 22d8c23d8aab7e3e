//! A flight as mathematics: its steps from the pads to the pads, the flight director as a function of all that happened
//! to it, and the laws that hold of every list of events (docs/PROMISES.md, "The flight director").
//!
//! `steps_of` of specs/Legs.antt makes the steps of three ways, `happens` and `says` of specs/Directors.antt are the
//! director, specs/Law.antt and specs/Kept.antt have the laws. The code is `flight_director`, whose contracts cite
//! them. Small values of the definitions are rows of `definition_tests`.
#![tactic(auto)]

mod events;
mod flights;
mod law;
mod states;

pub use events::{Event, Fault, Frame, Note, Order, Sample, Signal};
pub use flights::{
    Condition, Course, Flight, Hold, Leg, Orders, Position, Room, Span, Step, Stretch, Window,
};
pub use law::{director_law, mutant_law, plan_law, room_law};
pub use states::{Choice, Phase, Track};
