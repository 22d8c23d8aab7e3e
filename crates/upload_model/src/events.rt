//! What happens to a host and in a world, and how far an upload is. Drones, packets and answers
//! count from 0.

use crtp_packets::Packet;

/// A packet of a session, by its drone and its number among the packets of that drone.
#[derive(Clone, Copy, Default, PartialEq, Eq)]
pub struct Sent {
    pub drone: u8,
    pub packet: u16,
}

/// What happens to the host: time passes, or a packet comes up from a drone.
#[derive(Drop)]
pub enum Event {
    Tick,
    Up { drone: u8, packet: Packet },
}

/// A phase of an upload. It begins for all drones when the one before is complete for all.
#[derive(Clone, Copy, PartialEq, Eq)]
pub enum Phase {
    /// Writes, and the define of each drone.
    Loading,
    /// Reads, where the memories are read back.
    Reading,
    /// Starts, where the drones are started.
    Starting,
}

/// How far an upload is: still going, done, given up for a packet that was in flight too long, ended
/// by a drone that refused a packet with a status other than 0, or by a read that brought another byte
/// than the load's.
#[derive(Clone, Copy, PartialEq, Eq)]
pub enum Progress {
    Going,
    Done,
    GaveUp {
        drone: u8,
        packet: u16,
    },
    Refused {
        drone: u8,
        packet: u16,
        status: u8,
    },
    Differs {
        drone: u8,
        address: u32,
        wanted: u8,
        got: u8,
    },
}

/// What an answer says of a packet: nothing, that the drone did what was wanted, or how it ends the
/// upload.
#[derive(Clone, Copy, PartialEq, Eq)]
pub enum Reply {
    Silent,
    Good,
    Ends { progress: Progress },
}

/// What happens in the world: a tick of the host; a drone takes packet `n` of all that were ever
/// sent to it; the host hears answer `n` of all that the drone ever gave; somebody else alters one byte
/// of a drone's memory.
#[derive(Clone, Copy, PartialEq, Eq)]
pub enum WorldEvent {
    Tick,
    Take { drone: u8, n: u32 },
    Hear { drone: u8, n: u32 },
    Alter { drone: u8, address: u16, value: u8 },
}
