//! The numbers of the drone's model and of the upload protocol (docs/RADIO.md, "A drone" and "The
//! upload").

/// The entries of a drone's table of trajectories.
pub const TABLE_ENTRIES: usize = 10;

/// The status of a packet that a drone has carried out.
pub const ACCEPTED: u8 = 0;

/// The status of a packet for another memory, another form or an unknown trajectory.
pub const UNFIT: u8 = 2;

/// The status of a packet whose bytes do not lie in the memory.
pub const NO_ROOM: u8 = 5;

/// The most writes that are in flight to one drone.
pub const PACKETS_IN_FLIGHT: usize = 4;

/// At this many ticks in flight of one packet the host gives up.
pub const TICKS_TO_GIVE_UP: u8 = 20;
