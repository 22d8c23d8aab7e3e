//! What is made into a flight.

use arrayvec::ArrayVec;
use traj_codec::Traj;

/// The name of a drone, 1 to 16 bytes.
pub type Name = ArrayVec<u8, 16>;

/// The ellipsoid around each drone of a show: its half axes in millimetres, across and upwards.
#[derive(Clone, Copy, PartialEq, Eq)]
pub struct Ellipsoid {
    pub r: u16,
    pub h: u16,
}

/// The drones of a show: their names, in order, and the ellipsoid around each.
#[derive(Clone, Copy)]
pub struct Crew<'a> {
    pub names: &'a [Name],
    pub ellipsoid: Ellipsoid,
}

/// The drones of three shows.
#[derive(Clone, Copy)]
pub struct Crews<'a> {
    pub up: Crew<'a>,
    pub show: Crew<'a>,
    pub down: Crew<'a>,
}

/// The trajectories of the drones of three shows, one segment a cue, and what their flight is allowed. Lengths in
/// millimetres, times in milliseconds.
#[derive(Clone, Copy)]
pub struct Ways<'a> {
    pub up: &'a [Traj],
    pub show: &'a [Traj],
    pub down: &'a [Traj],
    /// How long the show lasts.
    pub show_ms: u32,
    /// How far drones may stray from their way up.
    pub stray: u16,
    /// How near a drone has to be to its pad, and to its position in the air.
    pub near: u16,
    pub at_place: u16,
}
