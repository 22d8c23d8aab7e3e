//! The answers of one drone, in a few bytes each.

ghost use Rattle.std.specs.Prelude.{◌≡◌, ℕ, ◌+◌, ◌<◌, ◌≤◌, List, [], ◌∷◌, ◌++◌, length, slice_get, slice_range, OnOk};
ghost use Rattle.std.specs.Prelude.{OnErr};
ghost use Rattle.upload_model.specs.Drones.{handled};
ghost use Rattle.upload_model.specs.Worlds.{option_list};
ghost use Rattle.firmware_memory.specs.Shown.{shown};
ghost use Rattle.fleet_world.specs.Steps.{begin_of};

use crtp_packets::{PACKET_BYTES, Packet, from_bytes};
use firmware_memory::Drone;
use std::alloc::{AllocError, Global};
use std::marker::Model;

/// All answers that a drone ever gave, in order: their bytes one after the other, and where each ends.
#[derive(Drop)]
pub struct Answers {
    bytes: Vec<u8>,
    ends: Vec<usize>,
}

impl Model for Answers {
    ghost use Rattle.std.specs.Prelude.{ℕ, List, length};
    ghost use Rattle.fleet_world.specs.Steps.{cut, AreEnds};

    ghost Value = { List (List ℕ) };

    ghost view = { λ a. cut 0 a.bytes.items a.ends.items };

    ghost invariant = { λ a. AreEnds 0 a.ends.items (length a.bytes.items) };
}

fn begin(ends: &[usize], n: usize) -> usize
    requires { n < length ends.now }
    ensures { result ≡ begin_of 0 ends.now n }
{
    if n == 0 { 0 } else { ends[n - 1] }
}

fn packet_of(bytes: &[u8], start: usize, end: usize) -> Packet
    requires some { start < end }
    requires few { end ≤ start + PACKET_BYTES }
    requires inside { end ≤ length bytes.now }
    ensures { result ≡ slice_range bytes.now start end }
{
    match from_bytes(&bytes[start..end]) {
        Ok(packet) => packet,
        Err(_) => unreachable!(),
    }
}

impl Answers {
    /// No answer.
    pub fn new(alloc: Global) -> Answers
        ensures { result ≡ [] }
    {
        Answers {
            bytes: Vec::new(alloc),
            ends: Vec::new(alloc),
        }
    }

    /// Answer `n`, if there are as many.
    pub fn get(&self, n: usize) -> Option<Packet>
        ensures { result ≡ slice_get self.now n }
    {
        let ends = self.ends.as_slice();
        if n >= ends.len() {
            return None;
        }
        let start = begin(ends, n);
        Some(packet_of(self.bytes.as_slice(), start, ends[n]))
    }

    /// The drone takes a packet, and its answer, if it gives one, joins the others. Out of memory, nothing changes.
    pub fn take(&mut self, drone: &mut Drone, packet: &Packet) -> Result<(), AllocError>
        ensures ok { OnOk result ((shown drone.new ≡ (handled (shown drone.old) packet.now).drone)
            × (self.new ≡ self.old ++ option_list (handled (shown drone.old) packet.now).answer)) }
        ensures err { OnErr result ((drone.new ≡ drone.old) × (self.new ≡ self.old)) }
    {
        self.bytes.reserve(PACKET_BYTES)?;
        self.ends.reserve(1)?;
        if let Some(answer) = drone.handle(packet) {
            match self.bytes.extend_from_slice(answer.bytes()) {
                Ok(()) => {}
                Err(_) => unreachable!(),
            }
            self.ends.push_reserved(self.bytes.len());
        }
        Ok(())
    }
}
