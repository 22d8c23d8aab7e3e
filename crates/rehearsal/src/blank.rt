//! A schedule over blank drones.

ghost use Rattle.std.specs.Prelude.{◌≡◌, All, length, IfOk};
ghost use Rattle.upload_model.specs.Sessions.{drone_count};
ghost use Rattle.firmware_memory.specs.declared.drone.Drone.{Drone};
ghost use Rattle.firmware_memory.specs.Shown.{shown};
ghost use Rattle.fleet_world.specs.WorldState.{WorldStandsAt};
ghost use Rattle.rehearsal.specs.Rehearsed.{blank_drone, rehearsed};

use firmware_memory::{Drone, MEMORY_BYTES, make};
use fleet_world::{World, WorldEvent};
use std::alloc::{AllocError, Global};
use upload_core::Session;

// What each byte of a drone's memory is before a rehearsal.
const BLANK: u8 = 0xFF;

fn blank_drones(alloc: Global, session: &Session) -> Result<Vec<Drone>, AllocError>
    ensures many { IfOk result (λ drones. length drones.items ≡ drone_count session.now) }
    ensures blank { IfOk result (λ drones. All (λ (d : Drone). shown d ≡ blank_drone session.now) drones.items) }
{
    let memory_id = session.settings().memory_id;
    let mut drones = Vec::new(alloc);
    for _ in 0..session.drones() {
        drones.push(make(memory_id, [BLANK; MEMORY_BYTES]))?;
    }
    Ok(drones)
}

/// The world of a session after these events, where each drone begins blank: with the session's memory
/// id, 4,096 bytes `FF`, no entry in its table, and nothing started (docs/RADIO.md, "Schedules").
pub fn rehearse(alloc: Global, session: Session, events: &[WorldEvent]) -> Result<World, AllocError>
    ensures { IfOk result (λ w. WorldStandsAt w session (rehearsed session events.now)) }
{
    let drones = blank_drones(alloc, &session)?;
    let mut world = World::make(alloc, session, drones)?;
    for e in events {
        world.step(*e)?;
    }
    Ok(world)
}
