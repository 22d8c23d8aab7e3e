//! The world, one event at a time.

ghost use Rattle.std.specs.Prelude.{◌≡◌, ℕ, ◌+◌, ◌<◌, ◌≤◌, List, [], ◌∷◌, ◌++◌, length, IfOk, OnOk, OnErr, slice_get};
ghost use Rattle.std.specs.Prelude.{Some, All};
ghost use Rattle.upload_model.specs.declared.events.WorldEvent.{WorldEvent};
ghost use Rattle.upload_model.specs.Sessions.{Upload, drone_count};
ghost use Rattle.upload_model.specs.Hosts.{progress as progress_of};
ghost use Rattle.upload_model.specs.Drones.{handled};
ghost use Rattle.upload_model.specs.Worlds as Worlds;
ghost use Rattle.upload_model.specs.Worlds.{world, host_event, happens, took, packets_for, changed, altered};
ghost use Rattle.firmware_memory.specs.declared.drone.Drone.{Drone};
ghost use Rattle.upload_core.specs.HostState.{IsPacketOf};
ghost use Rattle.fleet_world.specs.Traffics.{sent_of, given_of, row_of, packets_at, numbers_for, HasRoom};
ghost use Rattle.fleet_world.specs.WorldState.{WorldState, WorldStandsFor, WorldStandsAt, state_at};

use crate::traffic::{Traffic, given_answer, make_room, no_traffic, put, sent_number};
use crtp_packets::Packet;
use firmware_memory::{Drone, MEMORY_BYTES};
use std::alloc::{AllocError, Global};
use std::marker::Model;
use upload_core::{Event, Host, MOST_SENT, Out, Progress, Sent, Session};
use upload_model::WorldEvent;

// These packets after those of their drones, for which there is room.
fn put_all(out: &[Sent], traffic: &mut [Traffic])
    requires known { All (λ x. x.drone < length traffic.old) out.now }
    requires room { HasRoom traffic.old (length out.now) }
    ensures len { length traffic.new ≡ length traffic.old }
    ensures given { given_of traffic.new ≡ given_of traffic.old }
    ensures sent { (d : ℕ) → row_of (sent_of traffic.new) d ≡ row_of (sent_of traffic.old) d ++ numbers_for out.now d }
{
    for x in out {
        put(traffic, x.drone as usize, x.packet);
    }
}

/// A host, a link, and drones whose memories somebody else may alter. It stands for the list of all that
/// happened in it (`WorldStandsFor`).
#[derive(Drop)]
pub struct World {
    host: Host,
    drones: Vec<Drone>,
    traffic: Vec<Traffic>,
    progress: Progress,
}

impl Model for World {
    ghost use Rattle.std.specs.Prelude.{◌≡◌, length};
    ghost use Rattle.upload_model.specs.Sessions.{drone_count};
    ghost use Rattle.fleet_world.specs.Traffics.{sent_of, given_of, AreNumbersOf};
    ghost use Rattle.fleet_world.specs.WorldState.{WorldState};

    ghost Value = { WorldState };

    ghost view = { λ w. record {
      host = w.host;
      drones = w.drones.items;
      sent = sent_of w.traffic.items;
      given = given_of w.traffic.items;
      progress = w.progress;
    } };

    ghost invariant = { λ w. (length w.drones.items ≡ drone_count w.host.session)
        × (length w.traffic.items ≡ drone_count w.host.session)
        × AreNumbersOf w.host.session (sent_of w.traffic.items) };
}

impl World {
    /// A world before any event: what is in flight was sent. Session and drones are dropped where the
    /// program is out of memory.
    pub fn make(alloc: Global, session: Session, drones: Vec<Drone>) -> Result<World, AllocError>
        requires { length drones.items ≡ drone_count session }
        ensures { IfOk result (λ w. WorldStandsFor w session drones.items []) }
    {
        let host = Host::make(alloc, session)?;
        let mut traffic = no_traffic(alloc, host.session().drones())?;
        make_room(traffic.as_mut_slice(), MOST_SENT)?;
        let mut out = Out::new();
        host.first(&mut out);
        put_all(out.as_slice(), traffic.as_mut_slice());
        Ok(World {
            host,
            drones,
            traffic,
            progress: Progress::Going,
        })
    }

    /// One event, and how far the upload is after it. An event that names no packet, no answer, no drone
    /// of the session or no byte of a memory changes nothing. Drones still take packets after the upload
    /// has ended. Out of memory, the world is unchanged.
    pub fn step(&mut self, e: WorldEvent) -> Result<Progress, AllocError>
        ensures stands { OnOk result ((s : Upload) (start : List Drone) (events : List WorldEvent) →
            WorldStandsFor self.old s start events →
            WorldStandsFor self.new s start (events ++ e ∷ [])) }
        ensures answer { IfOk result (λ p. (s : Upload) (start : List Drone) (events : List WorldEvent) →
            WorldStandsFor self.old s start events →
            p ≡ progress_of s (world s (state_at start) (events ++ e ∷ [])).heard) }
        ensures count { length self.new.drones ≡ length self.old.drones }
        ensures err { OnErr result (self.new ≡ self.old) }
    {
        self.act(e)
    }

    fn act(&mut self, e: WorldEvent) -> Result<Progress, AllocError>
        ensures stands { OnOk result ((s : Upload) (w : Worlds.World) → WorldStandsAt self.old s w →
            WorldStandsAt self.new s (happens s w e)) }
        ensures answer { IfOk result (λ p. p ≡ self.new.progress) }
        ensures count { length self.new.drones ≡ length self.old.drones }
        ensures err { OnErr result (self.new ≡ self.old) }
    {
        match e {
            WorldEvent::Tick => self.happen(Event::Tick),
            WorldEvent::Hear { drone, n } => {
                if drone as usize >= self.host.session().drones() {
                    return Ok(self.progress);
                }
                match given_answer(self.traffic.as_slice(), drone as usize, n) {
                    Some(packet) => self.happen(Event::Up { drone, packet }),
                    None => Ok(self.progress),
                }
            }
            WorldEvent::Take { drone, n } => {
                if drone as usize >= self.host.session().drones() {
                    return Ok(self.progress);
                }
                let packet = match self.sent_packet(drone, n) {
                    Some(packet) => packet,
                    None => return Ok(self.progress),
                };
                self.take(drone, &packet)?;
                Ok(self.progress)
            }
            WorldEvent::Alter {
                drone,
                address,
                value,
            } => {
                if drone as usize >= self.host.session().drones()
                    || address as usize >= MEMORY_BYTES
                {
                    return Ok(self.progress);
                }
                self.alter(drone, address, value);
                Ok(self.progress)
            }
        }
    }

    fn alter(&mut self, drone: u8, address: u16, value: u8)
        requires known { drone < drone_count self.old.host.session }
        requires inside { address < MEMORY_BYTES }
        ensures stands { (s : Upload) (w : Worlds.World) → WorldStandsAt self.old s w →
            WorldStandsAt self.new s
            (record w { drones = changed w.drones drone (altered (w.drones drone) address value) }) }
        ensures progress { self.new.progress ≡ self.old.progress }
        ensures count { length self.new.drones ≡ length self.old.drones }
    {
        let taker = &mut self.drones[drone as usize];
        taker.memory[address as usize] = value;
    }

    // Packet `n` of all that were ever sent to a drone.
    fn sent_packet(&self, drone: u8, n: u32) -> Option<Packet>
        requires { drone < drone_count self.now.host.session }
        ensures { result ≡ slice_get (packets_at self.now.host.session drone (row_of self.now.sent drone)) n }
    {
        let drone = drone as usize;
        match sent_number(self.traffic.as_slice(), drone, n) {
            Some(k) => Some(self.host.session().packet(drone, k as usize)),
            None => None,
        }
    }

    fn take(&mut self, drone: u8, packet: &Packet) -> Result<(), AllocError>
        requires known { drone < drone_count self.old.host.session }
        ensures stands { OnOk result ((s : Upload) (w : Worlds.World) → WorldStandsAt self.old s w →
            WorldStandsAt self.new s (took w drone (handled (w.drones drone) packet.now))) }
        ensures progress { self.new.progress ≡ self.old.progress }
        ensures count { length self.new.drones ≡ length self.old.drones }
        ensures err { OnErr result (self.new ≡ self.old) }
    {
        let drone = drone as usize;
        self.traffic[drone]
            .given
            .take(&mut self.drones[drone], packet)
    }

    fn happen(&mut self, e: Event) -> Result<Progress, AllocError>
        ensures stands { OnOk result ((s : Upload) (w : Worlds.World) → WorldStandsAt self.old s w →
            WorldStandsAt self.new s (host_event s w e)) }
        ensures answer { IfOk result (λ p. p ≡ self.new.progress) }
        ensures count { length self.new.drones ≡ length self.old.drones }
        ensures err { OnErr result (self.new ≡ self.old) }
    {
        make_room(self.traffic.as_mut_slice(), MOST_SENT)?;
        let mut out = Out::new();
        let progress = self.host.event(e, &mut out);
        put_all(out.as_slice(), self.traffic.as_mut_slice());
        self.progress = progress;
        Ok(progress)
    }

    /// How far the upload is: the host's last answer, or going where nothing has happened to it.
    pub fn progress(&self) -> Progress
        ensures { result ≡ self.now.progress }
    {
        self.progress
    }

    /// Drone `k`, counted from 0.
    pub fn drone(&self, k: usize) -> &Drone
        requires { k < length self.now.drones }
        ensures { slice_get self.now.drones k ≡ Some result.now }
    {
        &self.drones[k]
    }
}
