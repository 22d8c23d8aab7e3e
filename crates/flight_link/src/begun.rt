//! The event that is begun, byte by byte.

ghost use Rattle.std.specs.Prelude.{◌≡◌, ◌≤◌, ◌-◌, ◌++◌, [], ◌∷◌, length, take, replicate};
ghost use Rattle.flight_link.specs.Sends.{IsBegun};
ghost use Rattle.flight_link.specs.Steps.{FedGives};

use crate::events::{event_length, read_event};
use crate::law::frame_law;
use flight_model::Event;
use std::marker::Model;

// The most bytes of an event: a sample.
const EVENT_BYTES: usize = 11;

/// What a byte gives after those of an event that is begun: more are wanted, the event is whole, or it is none.
#[derive(Clone, Copy, PartialEq, Eq)]
pub enum Fed {
    More,
    Whole { e: Event },
    Bad,
}

// The bytes since the last whole event. Those to come count as 0 until then: 0 has a place wherever a byte of an event
// is still to come, so the bytes begin an event exactly where they are one with zeros after them.
#[derive(Drop)]
pub struct Begun {
    bytes: [u8; EVENT_BYTES],
    count: usize,
}

impl Model for Begun {
    ghost use Rattle.std.specs.Prelude.{◌≡◌, ◌≤◌, ◌-◌, ◌++◌, ℕ, List, take, replicate};

    ghost Value = { List ℕ };

    ghost view = { λ b. take b.count b.bytes };

    ghost invariant = { λ b. (b.count ≤ 11) × (b.bytes ≡ take b.count b.bytes ++ replicate (11 - b.count) 0) };
}

// What the first of these bytes give, where they are an event's or one byte more, and zeros stand after them.
fn judged(bytes: &[u8], count: usize, drones: usize) -> Fed
    requires whole { length bytes.now ≡ EVENT_BYTES }
    requires some { 1 ≤ count }
    requires few { count ≤ EVENT_BYTES }
    requires zeros { bytes.now ≡ take count bytes.now ++ replicate (EVENT_BYTES - count) 0 }
    requires begun { IsBegun drones (take (count - 1) bytes.now) }
    ensures { FedGives drones result (take count bytes.now) }
{
    frame_law();
    let size = match event_length(bytes[0]) {
        None => return Fed::Bad,
        Some(size) => size,
    };
    match read_event(&bytes[..size], drones) {
        Err(_) => Fed::Bad,
        Ok(_) if count < size => Fed::More,
        Ok(e) => Fed::Whole { e },
    }
}

impl Begun {
    pub fn make() -> Begun
        ensures { result ≡ [] }
    {
        Begun {
            bytes: [0; EVENT_BYTES],
            count: 0,
        }
    }

    // What the next byte gives after those before it, in a flight of this many drones.
    pub fn feed(&mut self, byte: u8, drones: usize) -> Fed
        requires { IsBegun drones self.old }
        ensures gives { FedGives drones result self.new }
        ensures bytes { self.new ≡ self.old ++ byte ∷ [] }
    {
        self.bytes[self.count] = byte;
        self.count += 1;
        judged(&self.bytes, self.count, drones)
    }
}
