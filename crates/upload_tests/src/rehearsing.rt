//! A path of two writes, rehearsed, with the text of docs/COMMANDS.md, or put together by hand from it.
ghost use Rattle.std.specs.Prelude.{◌≡◌, ◌≤◌, length, IfOk};
ghost use Rattle.byte_streams.specs.Words.{IsWord};

use crate::sessions::{PATH, Upload, owner_of};
use crate::states::is_so;
use byte_streams::Lines;
use firmware_memory::curve_of;
use fleet_world::{Name, World, WorldEvent};
use rehearsal::{memory_text, rehearse};
use std::alloc::{AllocError, Global};
use upload_core::{Progress, Settings};

const PLACE: Settings = Settings {
    memory_id: 7,
    offset: 0,
    trajectory_id: 0,
};

// The path for one drone, which is started.
const SOLO: Upload = Upload {
    settings: PLACE,
    loads: &[(PATH, 1)],
    readback: false,
    start: true,
};

// The path for one drone, with read-back and without a start.
const SOLO_READBACK: Upload = Upload {
    settings: PLACE,
    loads: &[(PATH, 1)],
    readback: true,
    start: false,
};

// A rehearsal for one drone.
fn rehearsed(alloc: Global, upload: &Upload, events: &[WorldEvent]) -> Result<World, AllocError>
    ensures { IfOk result (λ w. length w.drones ≡ 1) }
{
    if upload.loads.len() != 1 {
        return Err(AllocError);
    }
    rehearse(alloc, owner_of(alloc, upload)?, events)
}

fn solo_name() -> Name
    ensures { IsWord result.items }
{
    let mut name = Name::new();
    let _ = name.try_extend_from_slice(b"solo");
    name
}

// The text of the drone.
fn text_of(alloc: Global, world: &World) -> Result<Lines, AllocError>
    requires { length world.now.drones ≡ 1 }
{
    memory_text(alloc, world, &[solo_name()], 0)
}

// The writes the other way round, then the define and the start.
const TURNED: &[WorldEvent] = &[
    WorldEvent::Take { drone: 0, n: 1 },
    WorldEvent::Take { drone: 0, n: 0 },
    WorldEvent::Hear { drone: 0, n: 0 },
    WorldEvent::Hear { drone: 0, n: 1 },
    WorldEvent::Take { drone: 0, n: 2 },
    WorldEvent::Hear { drone: 0, n: 2 },
    WorldEvent::Take { drone: 0, n: 3 },
    WorldEvent::Hear { drone: 0, n: 3 },
];

// The first lines of the text, up to the first row of the memory.
const HEAD: &[u8] = b"rehearsal done\nmemory solo\n\
0000 00 00 00 00 E8 03 00 00 03 D0 07 00 00 00 00 00 00 E8 03 E8 03 E8 03 E8 03 00 00 00 FF FF FF FF\n";

// A row of blank bytes after its address.
const BLANK_ROW: &[u8] =
    b" FF FF FF FF FF FF FF FF FF FF FF FF FF FF FF FF FF FF FF FF FF FF FF FF FF FF FF FF FF FF FF FF\n";

// The last lines, from the address of the last row on.
const TAIL: &[u8] =
    b"0FE0 FF FF FF FF FF FF FF FF FF FF FF FF FF FF FF FF FF FF FF FF FF FF FF FF FF FF FF FF FF FF FF FF\n\
trajectory 0 offset 0 pieces 1\nstarted 0\nends 1000 0 1000 0\n";

// Whether each row of the memory but the first and the last is blank.
fn has_blank_rows(bytes: &[u8]) -> bool {
    if bytes.len() != 13_015 {
        return false;
    }
    for k in 1..128 {
        let from = 31 + 101 * k;
        if &bytes[from..from + 97] != BLANK_ROW {
            return false;
        }
    }
    true
}

// Whether the rehearsal is done, its memory decodes to a trajectory, and this is its text.
fn is_whole(alloc: Global) -> Result<bool, AllocError> {
    let world = rehearsed(alloc, &SOLO, TURNED)?;
    if world.progress() != Progress::Done || curve_of(alloc, world.drone(0), 0)?.is_none() {
        return Ok(false);
    }
    let text = text_of(alloc, &world)?;
    let bytes = text.bytes();
    Ok(bytes.starts_with(HEAD) && bytes.ends_with(TAIL) && has_blank_rows(bytes))
}

#[test]
fn a_whole_rehearsal(rt: HostRuntime) {
    assert!(rt; matches!(is_whole(rt.alloc()), Ok(true)));
}

// Whether nothing has happened to the drone, and its memory decodes to nothing.
fn is_new(alloc: Global) -> Result<bool, AllocError> {
    let world = rehearsed(alloc, &SOLO, &[])?;
    let drone = world.drone(0);
    let is_blank = drone.memory_id == 7 && is_so(drone, &(0, &[], None, None));
    let decodes = curve_of(alloc, drone, 0)?.is_some();
    Ok(world.progress() == Progress::Going && is_blank && !decodes)
}

#[test]
fn before_any_event(rt: HostRuntime) {
    assert!(rt; matches!(is_new(rt.alloc()), Ok(true)));
}

// With read-back, up to the answers to all reads.
const READ_BACK: &[WorldEvent] = &[
    WorldEvent::Take { drone: 0, n: 0 },
    WorldEvent::Take { drone: 0, n: 1 },
    WorldEvent::Hear { drone: 0, n: 0 },
    WorldEvent::Hear { drone: 0, n: 1 },
    WorldEvent::Take { drone: 0, n: 2 },
    WorldEvent::Hear { drone: 0, n: 2 },
    WorldEvent::Take { drone: 0, n: 3 },
    WorldEvent::Take { drone: 0, n: 4 },
    WorldEvent::Hear { drone: 0, n: 3 },
    WorldEvent::Hear { drone: 0, n: 4 },
];

macro_rules! alter {
    ($address:expr, $value:expr) => {
        WorldEvent::Alter {
            drone: 0,
            address: $address,
            value: $value,
        }
    };
}

// Two events that follow the answers to all reads, and how the text then ends.
const ALTERED: &[(&[WorldEvent], &[u8])] = &[
    // A byte that is set to what it is.
    (
        &[alter!(4095, 0xFF), WorldEvent::Tick],
        b"started none\nends 1000 0 1000 0\n",
    ),
    // The second byte of the start on y.
    (
        &[alter!(3, 7), WorldEvent::Tick],
        b"started none\nends 1000 1792 1000 0\n",
    ),
    // A segment of no milliseconds.
    (&[alter!(9, 0), alter!(10, 0)], b"started none\nends none\n"),
];

// Whether a rehearsal with read-back is done, in which these follow the answers to all reads, and its text ends so.
fn ends_with(alloc: Global, last: &[WorldEvent], end: &[u8]) -> Result<bool, AllocError> {
    let mut events = Vec::from_slice(alloc, READ_BACK)?;
    events.extend_from_slice(last)?;
    let world = rehearsed(alloc, &SOLO_READBACK, events.as_slice())?;
    let text = text_of(alloc, &world)?;
    Ok(world.progress() == Progress::Done && text.bytes().ends_with(end))
}

// The number of the first row that ends otherwise; none where there is no such row.
fn wrong_end(alloc: Global) -> Option<usize> {
    for (k, (last, end)) in ALTERED.iter().enumerate() {
        if !matches!(ends_with(alloc, last, end), Ok(true)) {
            return Some(k);
        }
    }
    None
}

#[test]
fn memories_are_altered_after_the_reads(rt: HostRuntime) {
    assert_eq!(rt; wrong_end(rt.alloc()), None);
}
