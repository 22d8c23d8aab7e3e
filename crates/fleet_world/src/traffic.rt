//! What went to each drone and what came back, in order, so that any of it is found at once.

ghost use Rattle.std.specs.Prelude.{◌≡◌, ◌≢◌, ℕ, ◌+◌, ◌<◌, ◌≤◌, List, [], ◌∷◌, ◌++◌, length, replicate, slice_get};
ghost use Rattle.std.specs.Prelude.{IfOk, OnOk};
ghost use Rattle.fleet_world.specs.Traffics.{sent_of, given_of, row_of, HasRoom};

use crate::answers::Answers;
use crtp_packets::Packet;
use std::alloc::{AllocError, Global};

/// The packets ever sent to a drone, by their numbers, since the session gives the packets, and the answers that
/// it ever gave, by their bytes.
#[derive(Drop)]
pub struct Traffic {
    pub sent: Vec<u16>,
    pub given: Answers,
}

/// No packet and no answer, for each of this many drones.
pub fn no_traffic(alloc: Global, drones: usize) -> Result<Vec<Traffic>, AllocError>
    ensures len { IfOk result (λ traffic. length traffic.items ≡ drones) }
    ensures sent { IfOk result (λ traffic. sent_of traffic.items ≡ replicate drones []) }
    ensures given { IfOk result (λ traffic. given_of traffic.items ≡ replicate drones []) }
{
    let mut traffic = Vec::new(alloc);
    for _ in 0..drones {
        traffic.push(Traffic {
            sent: Vec::new(alloc),
            given: Answers::new(alloc),
        })?;
    }
    Ok(traffic)
}

/// Room for this many more packets to each drone.
pub fn make_room(traffic: &mut [Traffic], packets: usize) -> Result<(), AllocError>
    ensures sent { sent_of traffic.new ≡ sent_of traffic.old }
    ensures given { given_of traffic.new ≡ given_of traffic.old }
    ensures len { length traffic.new ≡ length traffic.old }
    ensures room { OnOk result (HasRoom traffic.new packets) }
{
    for drone in 0..traffic.len() {
        traffic[drone].sent.reserve(packets)?;
    }
    Ok(())
}

/// The number of packet `n` of all that were sent to a drone.
pub fn sent_number(traffic: &[Traffic], drone: usize, n: u32) -> Option<u16>
    requires { drone < length traffic.now }
    ensures { result ≡ slice_get (row_of (sent_of traffic.now) drone) n }
{
    traffic[drone].sent.get(n as usize).copied()
}

/// Answer `n` of a drone.
pub fn given_answer(traffic: &[Traffic], drone: usize, n: u32) -> Option<Packet>
    requires { drone < length traffic.now }
    ensures { result ≡ slice_get (row_of (given_of traffic.now) drone) n }
{
    traffic[drone].given.get(n as usize)
}

/// One packet more to a drone, by its number, for which there is room.
pub fn put(traffic: &mut [Traffic], drone: usize, packet: u16)
    requires known { drone < length traffic.old }
    requires room { HasRoom traffic.old 1 }
    ensures len { length traffic.new ≡ length traffic.old }
    ensures given { given_of traffic.new ≡ given_of traffic.old }
    ensures here { row_of (sent_of traffic.new) drone ≡ row_of (sent_of traffic.old) drone ++ packet ∷ [] }
    ensures others { (d : ℕ) → d ≢ drone → row_of (sent_of traffic.new) d ≡ row_of (sent_of traffic.old) d }
    ensures room { (n : ℕ) → HasRoom traffic.old (n + 1) → HasRoom traffic.new n }
{
    traffic[drone].sent.push_reserved(packet);
}
