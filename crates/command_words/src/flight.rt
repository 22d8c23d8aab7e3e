//! What a flight is allowed.

use whole_numbers::Depth;

/// What a flight is allowed, and how deep its shows are searched. Lengths in millimetres, times in milliseconds.
#[derive(Clone, Copy, PartialEq, Eq)]
pub struct FlightOptions {
    /// How near a drone has to be to its pad, and to its position in the air.
    pub near: u16,
    pub at_place: u16,
    /// A drone whose last sample is older is silent. Longer than 999,999,999 is as long as that.
    pub silence: u32,
    /// Where all land that have risen: at this height, in this time.
    pub floor: i16,
    pub descent: u32,
    /// In the show all land where a drone is lost or astray; else the show goes on.
    pub then_land: bool,
    /// The greatest depth of a part in which two drones are kept apart.
    pub depth: Depth,
}
