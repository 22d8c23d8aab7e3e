//! A flight: its steps, and its show.

use crate::events::Order;
use listed::Listed;
use traj_codec::Traj;

/// A position in space, in millimetres.
#[derive(Clone, Copy, PartialEq, Eq)]
pub struct Position {
    pub x: i16,
    pub y: i16,
    pub z: i16,
}

/// A leg of one drone: where it begins and ends, on x, y, z and yaw, and how long it lasts.
#[derive(Clone, Copy, PartialEq, Eq)]
pub struct Leg {
    pub from: [i16; 4],
    pub to: [i16; 4],
    pub ms: u32,
}

/// The condition of a drone under which a step may begin.
#[derive(Clone, Copy, PartialEq, Eq)]
pub struct Condition {
    pub position: Position,
    /// How far from the position it may be in a straight line, in millimetres.
    pub bound: u16,
    /// Whether it has to be ready, and armed.
    pub ready: bool,
    pub armed: bool,
    /// Whether it has to stand at the position's height, and may not say that it flies.
    pub down: bool,
}

/// The orders of a step: to each drone its own or none, by number; or one to all at once.
#[derive(Drop)]
pub enum Orders {
    Each { orders: Listed<Option<Order>> },
    All { order: Order },
}

/// A stretch of a flight, each the text of a show.
#[derive(Clone, Copy, PartialEq, Eq)]
pub enum Stretch {
    /// The way up.
    Up,
    Show,
    /// The way down.
    Down,
}

/// Where drones are told to be from a step on: on the curves of a stretch from an instant of it on, for so long, and
/// from then on where that ends. Times in milliseconds.
#[derive(Clone, Copy, PartialEq, Eq)]
pub struct Hold {
    pub stretch: Stretch,
    pub from: u32,
    pub ms: u32,
}

/// The curves of the way up or down, how long it lasts, and how far drones may be from their curves, and how late.
/// Lengths in millimetres, times in milliseconds.
#[derive(Drop)]
pub struct Course {
    pub curves: Listed<Traj>,
    pub ms: u32,
    pub stray: u16,
    pub late: u16,
}

/// From one value on an axis to another, both included, in millimetres.
#[derive(Clone, Copy, PartialEq, Eq)]
pub struct Span {
    pub low: i16,
    pub high: i16,
}

/// A box in space, and how far outside of it on each axis drones may be, in millimetres.
#[derive(Clone, Copy, PartialEq, Eq)]
pub struct Room {
    pub x: Span,
    pub y: Span,
    pub z: Span,
    pub margin: u32,
}

/// When a landing is covered: a show was accepted in which all that have risen land where they are, from an instant of
/// this window on. Its ends are included, in milliseconds after the last step.
#[derive(Clone, Copy, PartialEq, Eq)]
pub struct Window {
    /// How many steps have begun.
    pub step: u32,
    pub from: u32,
    pub to: u32,
    /// A drone that doesn't hear of the landing, and flies on in that show.
    pub deaf: Option<u8>,
}

/// A step of a flight: when it begins, the condition of each drone for that, and its orders. Times in milliseconds.
#[derive(Drop)]
pub struct Step {
    /// It begins only with the operator's go.
    pub asked: bool,
    /// How long the step before lasts.
    pub after: u32,
    /// For how long the drones have to have met their conditions.
    pub settle: u32,
    /// Each drone has to have answered with 0 since the step before began.
    pub answered: bool,
    pub conditions: Listed<Condition>,
    pub orders: Orders,
    /// Where drones are watched from it on, until the next step; none are after the last one.
    pub holds: Option<Hold>,
}

/// A flight. Lengths in millimetres, times in milliseconds.
#[derive(Drop)]
pub struct Flight {
    /// From the pads to the pads.
    pub steps: Listed<Step>,
    /// Each drone's curve in the show, and how long the show lasts.
    pub curves: Listed<Traj>,
    pub show_ms: u32,
    /// How far drones may be from their curves, and how late they may be.
    pub stray: u16,
    pub late: u16,
    /// The ways up and down.
    pub up: Course,
    pub down: Course,
    /// Where drones in the air have to be.
    pub room: Room,
    /// A drone whose last sample is older is silent.
    pub silence: u32,
    /// The show goes on where a drone is lost or astray.
    pub flies_on: bool,
    /// Where all land that have risen: to this height, in this time.
    pub floor: i16,
    pub descent: u32,
    /// When they may: in these windows alone; or at any time, where no windows are listed.
    pub windows: Option<Listed<Window>>,
}
