//! Sessions, worlds and names of drones, from rows.

ghost use Rattle.std.specs.Prelude.{◌≡◌, ◌≤◌, All, length, IfOk};
ghost use Rattle.upload_model.specs.Sessions.{IsLoad, drone_count};

use firmware_memory::{MEMORY_BYTES, make};
use fleet_world::{Name, World};
use std::alloc::{AllocError, Global};
use upload_core::{Listed, Load, Session, Settings};

// What goes to a drone: some bytes that a memory has room for, and how many segments they are.
pub(crate) type Bytes<'a> = (&'a [u8], u8);

fn load_of(alloc: Global, row: &Bytes) -> Result<Load, AllocError>
    ensures { IfOk result (IsLoad 0) }
{
    let (bytes, pieces) = *row;
    if bytes.is_empty() || bytes.len() > MEMORY_BYTES || pieces == 0 {
        return Err(AllocError);
    }
    Ok(Load {
        bytes: Listed::from_vec(bytes.to_vec(alloc)?),
        pieces,
    })
}

fn loads_of(alloc: Global, rows: &[Bytes]) -> Result<Vec<Load>, AllocError>
    ensures many { IfOk result (λ loads. length loads.items ≡ length rows.now) }
    ensures fit { IfOk result (λ loads. All (IsLoad 0) loads.items) }
{
    let mut loads = Vec::new(alloc);
    for row in rows {
        let load = load_of(alloc, row)?;
        loads.push(load)?;
    }
    Ok(loads)
}

// An upload of these, without read-back.
fn session_of(alloc: Global, rows: &[Bytes], start: bool) -> Result<Session, AllocError>
    requires some { 1 ≤ length rows.now }
    requires few { length rows.now ≤ 32 }
    ensures { IfOk result (λ s. drone_count s ≡ length rows.now) }
{
    let loads = loads_of(alloc, rows)?;
    let settings = Settings {
        memory_id: 2,
        offset: 0,
        trajectory_id: 0,
    };
    Session::make(alloc, settings, &loads, false, start)
}

// The same on its way to drones whose memories are blank.
pub(crate) fn world_of(alloc: Global, rows: &[Bytes], start: bool) -> Result<World, AllocError>
    requires some { 1 ≤ length rows.now }
    requires few { length rows.now ≤ 32 }
    ensures { IfOk result (λ w. length w.drones ≡ length rows.now) }
{
    let session = session_of(alloc, rows, start)?;
    let mut drones = Vec::new(alloc);
    for _ in 0..rows.len() {
        drones.push(make(2, [0xFF; MEMORY_BYTES]))?;
    }
    World::make(alloc, session, drones)
}

// Names of at most 16 bytes.
pub(crate) fn names_of(alloc: Global, rows: &[&[u8]]) -> Result<Vec<Name>, AllocError> {
    let mut names = Vec::new(alloc);
    for row in rows {
        let mut name = Name::new();
        let _ = name.try_extend_from_slice(row);
        names.push(name)?;
    }
    Ok(names)
}
