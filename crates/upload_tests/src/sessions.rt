//! Uploads and names of drones, from rows.

ghost use Rattle.std.specs.Prelude.{◌≡◌, ◌≤◌, All, length, IfOk};
ghost use Rattle.upload_model.specs.Sessions.{IsLoad, drone_count};

use std::alloc::{AllocError, Global};
use upload_core::{Listed, Load, Session, Settings};

// What goes to a drone: some bytes, and how many segments they are.
pub(crate) type Bytes<'a> = (&'a [u8], u8);

// Where an upload goes, what goes to each drone, whether memories are read back, and whether drones are started.
#[derive(Clone, Copy)]
pub(crate) struct Upload<'a> {
    pub(crate) settings: Settings,
    pub(crate) loads: &'a [Bytes<'a>],
    pub(crate) readback: bool,
    pub(crate) start: bool,
}

// The place to which most uploads go.
pub(crate) const PLAIN: Settings = Settings {
    memory_id: 2,
    offset: 0,
    trajectory_id: 0,
};

// A trajectory of 28 bytes, so of two writes and two reads, with one segment: a metre along x from rest to rest in two
// seconds, at one metre's height, and the ending.
pub(crate) const PATH: &[u8] = &[
    0, 0, 0, 0, 0xE8, 3, 0, 0, 3, 0xD0, 7, 0, 0, 0, 0, 0, 0, 0xE8, 3, 0xE8, 3, 0xE8, 3, 0xE8, 3, 0,
    0, 0,
];

fn load_of(alloc: Global, row: &Bytes, offset: u16) -> Result<Load, AllocError>
    ensures { IfOk result (IsLoad offset) }
{
    let (bytes, pieces) = *row;
    let offset = usize::from(offset);
    if bytes.is_empty() || offset > 4095 || bytes.len() > 4096 - offset || pieces == 0 {
        return Err(AllocError);
    }
    Ok(Load {
        bytes: Listed::from_vec(bytes.to_vec(alloc)?),
        pieces,
    })
}

fn loads_of(alloc: Global, rows: &[Bytes], offset: u16) -> Result<Vec<Load>, AllocError>
    ensures many { IfOk result (λ loads. length loads.items ≡ length rows.now) }
    ensures fit { IfOk result (λ loads. All (IsLoad offset) loads.items) }
{
    let mut loads = Vec::new(alloc);
    for row in rows {
        let load = load_of(alloc, row, offset)?;
        loads.push(load)?;
    }
    Ok(loads)
}

// A session of an upload that has copies of the loads.
pub(crate) fn session_of(alloc: Global, upload: &Upload) -> Result<Session, AllocError>
    requires some { 1 ≤ length upload.now.loads.now }
    requires few { length upload.now.loads.now ≤ 32 }
    ensures { IfOk result (λ s. drone_count s ≡ length upload.now.loads.now) }
{
    let Upload {
        settings,
        loads,
        readback,
        start,
    } = *upload;
    if settings.offset > 4095 || settings.trajectory_id > 9 {
        return Err(AllocError);
    }
    let loads = loads_of(alloc, loads, settings.offset)?;
    Session::make(alloc, settings, &loads, readback, start)
}

// The same that owns the loads.
pub(crate) fn owner_of(alloc: Global, upload: &Upload) -> Result<Session, AllocError>
    requires some { 1 ≤ length upload.now.loads.now }
    requires few { length upload.now.loads.now ≤ 32 }
    ensures { IfOk result (λ s. drone_count s ≡ length upload.now.loads.now) }
{
    let Upload {
        settings,
        loads,
        readback,
        start,
    } = *upload;
    if settings.offset > 4095 || settings.trajectory_id > 9 {
        return Err(AllocError);
    }
    let loads = loads_of(alloc, loads, settings.offset)?;
    Ok(Session::of_loads(settings, loads, readback, start))
}
