//! The frames of a stream, byte by byte.

ghost use Rattle.std.specs.Prelude.{◌≡◌, ◌<◌, ◌==◌, [], ◌∷◌, ◌++◌, length};
ghost use Rattle.link_frames.specs.Frames.{IsBegun, fed, fed_packet, next_begun};

use crate::frame::{FRAME_BYTES, Fed, Frame, FrameFault, PACKET_BYTE, TICK_BYTE};
use arrayvec::ArrayVec;
use crtp_packets::{PACKET_BYTES, Packet, from_bytes};
use std::marker::Model;
use whole_numbers::MOST_DRONES;

/// Reads frames from bytes, one byte at a time. Contracts see the bytes since the last whole frame.
#[derive(Drop)]
pub struct Frames {
    begun: ArrayVec<u8, FRAME_BYTES>,
}

impl Model for Frames {
    ghost use Rattle.std.specs.Prelude.{ℕ, List};

    ghost Value = { List ℕ };

    ghost view = { λ f. f.begun.items };
}

impl Frames {
    /// A reader to which no byte has come.
    pub fn make() -> Frames
        ensures { result ≡ [] }
    {
        Frames {
            begun: ArrayVec::new(),
        }
    }

    /// What the next byte gives after those before it. After `Bad` the reader takes no more bytes: no frame begins with
    /// those that it has.
    pub fn feed(&mut self, byte: u8) -> Fed
        requires { IsBegun self.old }
        ensures value { result ≡ fed self.old byte }
        ensures begun { self.new ≡ next_begun (fed self.old byte) self.old byte }
    {
        let fed = fed_by(self.begun.as_slice(), byte);
        match &fed {
            Fed::Frame { .. } => self.begun.clear(),
            Fed::More | Fed::Bad { .. } => self.begun.push(byte),
        }
        fed
    }

    /// No frame is begun: each byte so far belongs to a whole frame.
    pub fn between(&self) -> bool
        ensures { result ≡ (length self.now == 0) }
    {
        self.begun.is_empty()
    }
}

// The packet that this byte ends.
fn packet_of(front: &[u8], last: u8) -> Packet
    requires { length front.now < PACKET_BYTES }
    ensures { result ≡ front.now ++ last ∷ [] }
{
    let mut bytes: ArrayVec<u8, PACKET_BYTES> = ArrayVec::new();
    let _ = bytes.try_extend_from_slice(front);
    bytes.push(last);
    from_bytes(bytes.as_slice()).unwrap()
}

// What a byte of a packet gives after those before it.
fn fed_packet(drone: u8, len: u8, front: &[u8], byte: u8) -> Fed
    requires { length front.now < PACKET_BYTES }
    ensures { result ≡ fed_packet drone len front.now byte }
{
    if front.len() + 1 < usize::from(len) {
        return Fed::More;
    }
    Fed::Frame {
        f: Frame::Packet {
            drone,
            packet: packet_of(front, byte),
        },
    }
}

// What a byte gives after those since the last whole frame.
fn fed_by(begun: &[u8], byte: u8) -> Fed
    requires { IsBegun begun.now }
    ensures { result ≡ fed begun.now byte }
{
    match begun.len() {
        0 => match byte {
            TICK_BYTE => Fed::Frame { f: Frame::Tick },
            PACKET_BYTE => Fed::More,
            _ => Fed::Bad {
                why: FrameFault::Kind,
            },
        },
        1 if byte >= 1 && byte <= MOST_DRONES as u8 => Fed::More,
        1 => Fed::Bad {
            why: FrameFault::Drone,
        },
        2 if byte >= 1 && usize::from(byte) <= PACKET_BYTES => Fed::More,
        2 => Fed::Bad {
            why: FrameFault::Length,
        },
        _ => fed_packet(begun[1], begun[2], &begun[3..], byte),
    }
}
