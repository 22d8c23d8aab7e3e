//! The phases of a flight, what is known of a drone, and what the director may choose.

use crate::events::Sample;

/// The phase of a flight.
#[derive(Clone, Copy, PartialEq, Eq)]
pub enum Phase {
    /// On the way, from the pads to the pads.
    Steps,
    /// All that had risen were told to land.
    Landing,
    /// All were told to disarm.
    Off,
    /// All motors were stopped.
    Halted,
    /// The end went out.
    Ended,
}

/// A drone's last sample, with its age by now; for how long its samples have been off where it is told to be, if they
/// are; for how long they have been unsure; and whether the last one was outside of the room. All three count from the
/// last step on.
#[derive(Clone, Copy, Default, PartialEq, Eq)]
pub struct Track {
    pub seen: Option<Sample>,
    pub off: Option<u32>,
    pub unsure: Option<u32>,
    pub outside: bool,
}

/// What the director does at an event.
#[derive(Clone, Copy, PartialEq, Eq)]
pub enum Choice {
    /// Nothing.
    Rest,
    /// The next step begins.
    Begin,
    /// All that have risen land.
    Descend,
    /// From now on all that have risen are to land, as soon as a window covers that.
    Wait,
    /// All motors stop.
    Cut,
    /// All disarm.
    Quit,
    /// The end.
    Finish,
}
