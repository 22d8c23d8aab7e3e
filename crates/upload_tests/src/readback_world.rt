//! Worlds with read-back from schedules as text. What is expected was written out by hand from docs/RADIO.md.

ghost use Rattle.std.specs.Prelude.{◌≡◌, ◌+◌, ◌<◌, ◌≤◌, length, IfOk};

use crate::sessions::{PATH, PLAIN, Upload, session_of};
use crate::states::{State, is_so};
use firmware_memory::{Def, MEMORY_BYTES, make};
use fleet_world::{Name, ScheduleFault, World, WorldEvent, read_schedule};
use std::alloc::{AllocError, Global};
use upload_core::{Progress, Settings};

// ---- schedules that are read

// A name of at most 16 bytes.
fn name_of(bytes: &[u8]) -> Name {
    let mut name = Name::new();
    let _ = name.try_extend_from_slice(bytes);
    name
}

// A schedule, and its events; or the first faulty line, which is 0 where there is none.
type Reading<'a> = (&'a [u8], &'a [WorldEvent], u32);

fn is_read(alloc: Global, names: &[Name], row: &Reading) -> bool {
    let (text, wanted, faulty) = *row;
    if text.len() > 4000 || names.len() > 32 {
        return false;
    }
    match read_schedule(alloc, true, text, names) {
        Ok(events) => faulty == 0 && events.as_slice() == wanted,
        Err(fault) => fault == ScheduleFault::Line { line: faulty },
    }
}

const ALTERATIONS: &[Reading] = &[
    (
        b"tick\nalter duo 4095 255\nhear solo 9\n\ntake duo 01\r\nalter solo 0000 000",
        &[
            WorldEvent::Tick,
            WorldEvent::Alter {
                drone: 1,
                address: 4095,
                value: 255,
            },
            WorldEvent::Hear { drone: 0, n: 8 },
            WorldEvent::Take { drone: 1, n: 0 },
            WorldEvent::Alter {
                drone: 0,
                address: 0,
                value: 0,
            },
        ],
        0,
    ),
    // The first faulty line is named.
    (b"alter", &[], 1),
    (b"alter solo 3", &[], 1),
    (b"tick\nalter solo 3 7 7", &[], 2),
    (b"alter trio 3 7", &[], 1),
    (b"alter solo 4096 7", &[], 1),
    (b"alter solo 00003 7", &[], 1),
    (b"\nalter solo 3 256", &[], 2),
    (b"alter solo 3 0007", &[], 1),
    (b"alter solo 3 -7", &[], 1),
    (b"change solo 3 7", &[], 1),
];

// The number of the first row that is read as something else; none where there is no such row.
fn wrong_reading(alloc: Global) -> Option<usize> {
    let names = [name_of(b"solo"), name_of(b"duo")];
    for (k, row) in ALTERATIONS.iter().enumerate() {
        if !is_read(alloc, &names, row) {
            return Some(k);
        }
    }
    None
}

#[test]
fn alterations_are_read_or_named(rt: HostRuntime) {
    assert_eq!(rt; wrong_reading(rt.alloc()), None);
    assert!(rt; is_read(rt.alloc(), &[], &(b"alter a 0 0", &[], 1)));
}

// ---- worlds

// The bytes on their way to drones whose memories are blank.
fn world_of(alloc: Global, upload: &Upload) -> Result<World, AllocError>
    requires some { 1 ≤ length upload.now.loads.now }
    requires few { length upload.now.loads.now ≤ 32 }
    ensures { IfOk result (λ w. length w.drones ≡ length upload.now.loads.now) }
{
    let session = session_of(alloc, upload)?;
    let mut blank = Vec::new(alloc);
    for _ in 0..upload.loads.len() {
        blank.push(make(2, [0xFF; MEMORY_BYTES]))?;
    }
    World::make(alloc, session, blank)
}

// What a schedule of two drones leads the world to.
fn run(alloc: Global, world: &mut World, text: &[u8]) -> Result<Progress, AllocError>
    ensures { length world.new.drones ≡ length world.old.drones }
{
    let names = [name_of(b"solo"), name_of(b"duo")];
    if text.len() > 4000 {
        return Err(AllocError);
    }
    let Ok(events) = read_schedule(alloc, true, text, &names) else {
        return Err(AllocError);
    };
    for e in events.as_slice() {
        world.step(*e)?;
    }
    Ok(world.progress())
}

// Whether the drones are so, one after the other.
fn are_so(world: &World, states: &[State]) -> bool
    requires { length states.now ≤ length world.now.drones }
{
    for k in 0..states.len() {
        if !is_so(world.drone(k), &states[k]) {
            return false;
        }
    }
    true
}

// A schedule, how far the upload is after it, and how each drone is then.
type Step<'a> = (&'a [u8], Progress, &'a [State<'a>]);

// The number of the first step after which a world isn't as it says; none where there is none.
fn first_step(alloc: Global, upload: &Upload, steps: &[Step]) -> Result<Option<usize>, AllocError> {
    let count = upload.loads.len();
    if count == 0 || count > 32 {
        return Ok(Some(0));
    }
    let mut world = world_of(alloc, upload)?;
    for (k, step) in steps.iter().enumerate() {
        let (text, progress, states) = *step;
        let is_far = run(alloc, &mut world, text)? == progress;
        if !is_far || states.len() != count || !are_so(&world, states) {
            return Ok(Some(k));
        }
    }
    Ok(None)
}

fn wrong_step(alloc: Global, upload: &Upload, steps: &[Step]) -> Option<usize> {
    first_step(alloc, upload, steps).unwrap_or(Some(0))
}

const ONE: Upload = Upload {
    settings: PLAIN,
    loads: &[(PATH, 1)],
    readback: true,
    start: false,
};

// A drone with these bytes, an entry, and nothing started.
macro_rules! has {
    ($bytes:expr) => {
        &[(
            0,
            $bytes,
            Some(Def {
                offset: 0,
                pieces: 1,
            }),
            None,
        )]
    };
}

// The writes and the define are taken and heard.
const LOADED: &[u8] =
    b"take solo 1\ntake solo 2\nhear solo 1\nhear solo 2\ntake solo 3\nhear solo 3\n";

// Both reads are taken, and then heard.
const READ: &[u8] = b"take solo 4\ntake solo 5\nhear solo 4\nhear solo 5\n";

// Byte 3 of the first drone is read as 7.
const DIFFERS: Progress = Progress::Differs {
    drone: 0,
    address: 3,
    wanted: 0,
    got: 7,
};

// The path with 7 as its byte 3.
const ALTERED: &[u8] = &[
    0, 0, 0, 7, 0xE8, 3, 0, 0, 3, 0xD0, 7, 0, 0, 0, 0, 0, 0, 0xE8, 3, 0xE8, 3, 0xE8, 3, 0xE8, 3, 0,
    0, 0,
];

// All is loaded.
const LOADS: Step = (LOADED, Progress::Going, has!(PATH));

const WORLDS: &[&[Step]] = &[
    // Nobody alters a byte.
    &[
        LOADS,
        (b"", Progress::Going, has!(PATH)),
        (READ, Progress::Done, has!(PATH)),
    ],
    // Before the read is taken, between the read and its answer, and after the answer.
    &[
        LOADS,
        (b"alter solo 3 7\n", Progress::Going, has!(ALTERED)),
        (READ, DIFFERS, has!(ALTERED)),
    ],
    &[
        LOADS,
        (
            b"take solo 4\nalter solo 3 7\ntake solo 5\nhear solo 4\n",
            Progress::Going,
            has!(ALTERED),
        ),
        (b"hear solo 5\n", Progress::Done, has!(ALTERED)),
    ],
    &[
        LOADS,
        (READ, Progress::Done, has!(PATH)),
        (b"alter solo 3 7\n", Progress::Done, has!(ALTERED)),
    ],
    // The byte is as it was when it is read.
    &[
        LOADS,
        (
            b"alter solo 0003 007\nalter solo 3 0\n",
            Progress::Going,
            has!(PATH),
        ),
        (READ, Progress::Done, has!(PATH)),
    ],
    // A drone that the session has not.
    &[
        LOADS,
        (b"alter duo 3 7\n", Progress::Going, has!(PATH)),
        (READ, Progress::Done, has!(PATH)),
    ],
];

// The number of the first of these worlds that isn't as it says; none where there is none.
fn wrong_world(alloc: Global) -> Option<usize> {
    for (k, steps) in WORLDS.iter().enumerate() {
        if wrong_step(alloc, &ONE, steps).is_some() {
            return Some(k);
        }
    }
    None
}

#[test]
fn a_byte_is_altered(rt: HostRuntime) {
    assert_eq!(rt; wrong_world(rt.alloc()), None);
}

const AT_100: Upload = Upload {
    settings: Settings {
        memory_id: 2,
        offset: 100,
        trajectory_id: 0,
    },
    loads: &[(PATH, 1)],
    readback: true,
    start: false,
};

// A drone with these bytes from place 100 on.
macro_rules! has_at_100 {
    ($bytes:expr) => {
        &[(
            100,
            $bytes,
            Some(Def {
                offset: 100,
                pieces: 1,
            }),
            None,
        )]
    };
}

// The path with 0 as its byte 20, which is 3, and 1 as its byte 21.
const ALTERED_LATE: &[u8] = &[
    0, 0, 0, 0, 0xE8, 3, 0, 0, 3, 0xD0, 7, 0, 0, 0, 0, 0, 0, 0xE8, 3, 0xE8, 0, 1, 3, 0xE8, 3, 0, 0,
    0,
];

// Byte 20 is the first of the second read.
const DIFFERS_LATE: Progress = Progress::Differs {
    drone: 0,
    address: 120,
    wanted: 3,
    got: 0,
};

const ADDRESSES: &[Step] = &[
    (LOADED, Progress::Going, has_at_100!(PATH)),
    (
        b"alter solo 120 0\nalter solo 121 1\n",
        Progress::Going,
        has_at_100!(ALTERED_LATE),
    ),
    (READ, DIFFERS_LATE, has_at_100!(ALTERED_LATE)),
    // After the end each event is quiet.
    (
        b"hear solo 5\ntick\n",
        DIFFERS_LATE,
        has_at_100!(ALTERED_LATE),
    ),
    // Drones still take packets, as the first write.
    (b"take solo 1\n", DIFFERS_LATE, has_at_100!(TAKEN_AGAIN)),
];

// The first write brings the first 24 bytes once more.
const TAKEN_AGAIN: &[u8] = PATH;

#[test]
fn addresses_count_from_the_memory(rt: HostRuntime) {
    assert_eq!(rt; wrong_step(rt.alloc(), &AT_100, ADDRESSES), None);
}

// Drones and addresses of a session of one drone, at which a byte becomes 7.
const PLACES: &[(u8, u16)] = &[(0, 4095), (0, 4096), (0, 65535), (1, 0), (255, 0)];

// Whether the byte at place 4,095 is all that changes.
fn alters_one(alloc: Global) -> Result<bool, AllocError> {
    let mut world = world_of(alloc, &ONE)?;
    for (drone, address) in PLACES {
        let event = WorldEvent::Alter {
            drone: *drone,
            address: *address,
            value: 7,
        };
        if world.step(event)? != Progress::Going {
            return Ok(false);
        }
    }
    Ok(is_so(world.drone(0), &(4095, &[7], None, None)))
}

#[test]
fn an_address_is_in_a_memory(rt: HostRuntime) {
    assert!(rt; matches!(alters_one(rt.alloc()), Ok(true)));
}

const TWO: Upload = Upload {
    settings: PLAIN,
    loads: &[(&[9], 1), (&[9], 1)],
    readback: true,
    start: true,
};

// A drone with its one byte, and what it has started.
macro_rules! nine {
    ($started:expr) => {
        (
            0,
            &[9],
            Some(Def {
                offset: 0,
                pieces: 1,
            }),
            $started,
        )
    };
}

// Packet 1 is the write, 2 the define, 3 the read, 4 the start.
const WAITS: &[Step] = &[
    (
        b"take solo 1\nhear solo 1\ntake duo 1\nhear duo 1\ntake solo 2\nhear solo 2\n",
        Progress::Going,
        &[nine!(None), (0, &[9], None, None)],
    ),
    (
        b"take duo 2\nhear duo 2\ntake solo 3\nhear solo 3\ntake solo 4\n",
        Progress::Going,
        &[nine!(None), nine!(None)],
    ),
    (
        b"take duo 3\nhear duo 3\ntake solo 4\n",
        Progress::Going,
        &[nine!(Some(0)), nine!(None)],
    ),
    (
        b"hear solo 4\n",
        Progress::Going,
        &[nine!(Some(0)), nine!(None)],
    ),
    (
        b"take duo 4\nhear duo 4\n",
        Progress::Done,
        &[nine!(Some(0)), nine!(Some(0))],
    ),
];

#[test]
fn starts_wait_for_all_reads(rt: HostRuntime) {
    assert_eq!(rt; wrong_step(rt.alloc(), &TWO, WAITS), None);
}

// Each packet from `first` on is taken and its answer heard at once, drone by drone.
fn fly(world: &mut World, drones: u8, first: u32, packets: u32) -> Result<(), AllocError>
    requires { first + packets < 65536 }
    ensures { length world.new.drones ≡ length world.old.drones }
{
    for n in first..first + packets {
        for drone in 0..drones {
            world.step(WorldEvent::Take { drone, n })?;
            world.step(WorldEvent::Hear { drone, n })?;
        }
    }
    Ok(())
}

// The largest upload but for its starts: it takes 171 writes, a define and 205 reads for each drone.
fn largest(alloc: Global) -> Result<World, AllocError>
    ensures { IfOk result (λ w. length w.drones ≡ 32) }
{
    let bytes = [0xA5; MEMORY_BYTES];
    let upload = Upload {
        settings: PLAIN,
        loads: &[(bytes.as_slice(), 1); 32],
        readback: true,
        start: true,
    };
    let mut world = world_of(alloc, &upload)?;
    fly(&mut world, 32, 0, 377)?;
    Ok(world)
}

fn all_started(world: &World) -> bool
    requires { length world.now.drones ≡ 32 }
{
    let bytes = [0xA5; MEMORY_BYTES];
    let entry = Def {
        offset: 0,
        pieces: 1,
    };
    for d in 0..32 {
        if !is_so(world.drone(d), &(0, &bytes, Some(entry), Some(0))) {
            return false;
        }
    }
    true
}

fn ends_largest(alloc: Global) -> Result<bool, AllocError> {
    let mut world = largest(alloc)?;
    if world.progress() != Progress::Going || world.drone(31).started.is_some() {
        return Ok(false);
    }
    fly(&mut world, 32, 377, 1)?;
    Ok(world.progress() == Progress::Done && all_started(&world))
}

#[test]
fn the_largest_upload(rt: HostRuntime) {
    assert!(rt; matches!(ends_largest(rt.alloc()), Ok(true)));
}
