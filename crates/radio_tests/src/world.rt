//! Schedules that lose, turn round and repeat packets, read and run, with the memory that they leave.

ghost use Rattle.std.specs.Prelude.{◌≡◌, ◌≤◌, length};

use crate::sessions::{Bytes, names_of, world_of};
use firmware_memory::{Def, Drone};
use fleet_world::{Name, ScheduleFault, World, WorldEvent, read_schedule};
use std::alloc::{AllocError, Global};
use upload_core::Progress;

// ---- schedules that are read

// The names of drones, a schedule, and its events; or the first faulty line, which is 0 where there is none.
type Reading<'a> = (&'a [&'a [u8]], &'a [u8], &'a [WorldEvent], u32);

fn is_read(alloc: Global, row: &Reading) -> Result<bool, AllocError> {
    let (names, text, wanted, faulty) = *row;
    let names = names_of(alloc, names)?;
    if text.len() > 4000 || names.len() > 32 {
        return Ok(false);
    }
    match read_schedule(alloc, false, text, names.as_slice()) {
        Ok(events) => Ok(faulty == 0 && events.as_slice() == wanted),
        Err(fault) => Ok(fault == ScheduleFault::Line { line: faulty }),
    }
}

// The number of the first row that is read as something else; none where there is no such row.
fn wrong_reading(alloc: Global, rows: &[Reading]) -> Option<usize> {
    for (k, row) in rows.iter().enumerate() {
        if !matches!(is_read(alloc, row), Ok(true)) {
            return Some(k);
        }
    }
    None
}

const TO_SECOND: &[u8] = b"take b 1\nhear b 12";

macro_rules! first_to {
    ($drone:expr) => {
        &[
            WorldEvent::Take {
                drone: $drone,
                n: 0,
            },
            WorldEvent::Hear {
                drone: $drone,
                n: 11,
            },
        ]
    };
}

const PLACES: &[Reading] = &[
    (&[b"b", b"a"], TO_SECOND, first_to!(0), 0),
    (&[b"a", b"b"], TO_SECOND, first_to!(1), 0),
    // A show has no equal names; of such the first counts.
    (&[b"b", b"b"], TO_SECOND, first_to!(0), 0),
    (
        &[b"a", b"b", b"c"],
        b"take c 1\n\ntick\nhear b 07\n",
        &[
            WorldEvent::Take { drone: 2, n: 0 },
            WorldEvent::Tick,
            WorldEvent::Hear { drone: 1, n: 6 },
        ],
        0,
    ),
    (&[], b"take a 1", &[], 1),
];

#[test]
fn names_are_places(rt: HostRuntime) {
    assert_eq!(rt; wrong_reading(rt.alloc(), PLACES), None);
}

const SOLO: &[&[u8]] = &[b"solo"];

const LINES: &[Reading] = &[
    // Numbers of nine digits.
    (
        SOLO,
        b"\n tick\nhear solo 000000001\ntake solo 999999999\r\n",
        &[
            WorldEvent::Tick,
            WorldEvent::Hear { drone: 0, n: 0 },
            WorldEvent::Take {
                drone: 0,
                n: 999_999_998,
            },
        ],
        0,
    ),
    // The first faulty line is named.
    (SOLO, b"tock", &[], 1),
    // Only a schedule with read-back has this line.
    (SOLO, b"alter solo 3 7", &[], 1),
    (SOLO, b"take solo 0", &[], 1),
    (SOLO, b"take solo", &[], 1),
    (SOLO, b"tick\n\ntick now\n", &[], 3),
    (SOLO, b"take solo 1 1", &[], 1),
    (SOLO, b"take duo 1", &[], 1),
    (SOLO, b"hear solo 0000000001", &[], 1),
    (SOLO, b"hear solo -1", &[], 1),
    (SOLO, b"hear solo 1 # late", &[], 1),
    (SOLO, b"tick\x01", &[], 1),
    (SOLO, b"\r\n#\n", &[], 2),
    (SOLO, b"tick\nhear solo 1\ngive solo 1", &[], 3),
];

#[test]
fn lines_are_read_or_named(rt: HostRuntime) {
    assert_eq!(rt; wrong_reading(rt.alloc(), LINES), None);
}

// ---- worlds

// A drone: the first bytes of its memory, the first entry of its table, and what it has started. All else is blank.
type State<'a> = (&'a [u8], Option<Def>, Option<u8>);

const BLANK: State = (&[], None, None);

fn are_blank(bytes: &[u8]) -> bool {
    for byte in bytes {
        if *byte != 0xFF {
            return false;
        }
    }
    true
}

fn is_so(drone: &Drone, state: &State) -> bool {
    let (bytes, entry, started) = *state;
    let memory = drone.memory.as_slice();
    memory.starts_with(bytes)
        && are_blank(&memory[bytes.len()..])
        && drone.defs[0] == entry
        && &drone.defs[1..] == [None; 9].as_slice()
        && drone.started == started
}

// Whether the drones are so, one after the other.
fn are_so(world: &World, states: &[State]) -> bool
    requires { length states.now ≤ length world.now.drones }
{
    for k in 0..states.len() {
        if !is_so(world.drone(k), &states[k]) {
            return false;
        }
    }
    true
}

// What a schedule leads the world to.
fn run(
    alloc: Global,
    world: &mut World,
    names: &[Name],
    text: &[u8],
) -> Result<Progress, AllocError>
    ensures { length world.new.drones ≡ length world.old.drones }
{
    if text.len() > 4000 || names.len() > 32 {
        return Err(AllocError);
    }
    let Ok(events) = read_schedule(alloc, false, text, names) else {
        return Err(AllocError);
    };
    for e in events.as_slice() {
        world.step(*e)?;
    }
    Ok(world.progress())
}

// The lines for each of these names in turn, which stand in them as `?`.
fn text_of(alloc: Global, names: &[u8], lines: &[u8]) -> Result<Vec<u8>, AllocError> {
    let mut text = Vec::new(alloc);
    for name in names {
        for byte in lines {
            text.push(if *byte == b'?' { *name } else { *byte })?;
        }
    }
    Ok(text)
}

// The lines of a schedule, how far the upload is after it, and how each drone is then.
type Step<'a> = (&'a [u8], Progress, &'a [State<'a>]);

// Drones by their names, with what goes to each.
type Fleet<'a> = (&'a [&'a [u8]], &'a [Bytes<'a>]);

// The letters that `?` is in lines; the lines stand once where it is in none.
const ONCE: &[u8] = b"?";

const EACH: &[u8] = b"abcd";

fn wrong_step(
    alloc: Global,
    fleet: &Fleet,
    start: bool,
    each: &[u8],
    steps: &[Step],
) -> Result<Option<usize>, AllocError> {
    let (drones, loads) = *fleet;
    if loads.is_empty() || loads.len() > 32 {
        return Ok(Some(0));
    }
    let names = names_of(alloc, drones)?;
    let mut world = world_of(alloc, loads, start)?;
    for (k, step) in steps.iter().enumerate() {
        let (lines, progress, states) = *step;
        let text = text_of(alloc, each, lines)?;
        let is_far = run(alloc, &mut world, names.as_slice(), text.as_slice())? == progress;
        if !is_far || states.len() != loads.len() || !are_so(&world, states) {
            return Ok(Some(k));
        }
    }
    Ok(None)
}

// The number of the first step after which a world isn't as it says; none where there is none.
fn first_wrong(
    alloc: Global,
    fleet: &Fleet,
    start: bool,
    each: &[u8],
    steps: &[Step],
) -> Option<usize> {
    wrong_step(alloc, fleet, start, each, steps).unwrap_or(Some(0))
}

// A trajectory of 28 bytes, so of two writes, with one segment.
const PATH: &[u8] = &[
    0, 0, 0, 0, 0xE8, 3, 0, 0, 3, 0xD0, 7, 0, 0, 0, 0, 0, 0, 0xE8, 3, 0xE8, 3, 0xE8, 3, 0xE8, 3, 0,
    0, 0,
];

// A load of one write.
const FOUR_BYTES: &[u8] = &[9, 8, 7, 6];

// A drone with these bytes and an entry of this many segments.
macro_rules! loaded {
    ($bytes:expr, $pieces:expr, $started:expr) => {
        (
            $bytes,
            Some(Def {
                offset: 0,
                pieces: $pieces,
            }),
            $started,
        )
    };
}

const ONE: Fleet = (SOLO, &[(PATH, 1)]);

const TURNED: &[u8] =
    b"take solo 2\ntake solo 1\n\ntake solo 1\nhear solo 1\n hear solo 1\r\nhear solo 2\ntake\tsolo 3\n\
    hear solo 000000004";

const WITHOUT_START: &[Step] = &[(TURNED, Progress::Done, &[loaded!(PATH, 1, None)])];

const WITH_START: &[Step] = &[
    (TURNED, Progress::Going, &[loaded!(PATH, 1, None)]),
    // What names no packet, no answer or no later packet changes nothing.
    (
        b"take solo 9\nhear solo 6\n",
        Progress::Going,
        &[loaded!(PATH, 1, None)],
    ),
    (
        b"take solo 4\nhear solo 5\n",
        Progress::Done,
        &[loaded!(PATH, 1, Some(0))],
    ),
];

#[test]
fn packets_come_turned_round_and_twice(rt: HostRuntime) {
    assert_eq!(rt;
        first_wrong(rt.alloc(), &ONE, false, ONCE, WITHOUT_START),
        None
    );
    assert_eq!(rt; first_wrong(rt.alloc(), &ONE, true, ONCE, WITH_START), None);
}

const TWO: Fleet = (&[b"a", b"b"], &[(PATH, 1), (FOUR_BYTES, 2)]);

const OF_TWO: &[Step] = &[
    (
        b"take b 1\nhear b 1\ntake b 2\nhear b 2\n",
        Progress::Going,
        &[BLANK, loaded!(FOUR_BYTES, 2, None)],
    ),
    // No start is sent while a drone is without its load.
    (
        b"take b 3\nhear b 3\n",
        Progress::Going,
        &[BLANK, loaded!(FOUR_BYTES, 2, None)],
    ),
    (
        b"take a 1\nhear a 1\ntake a 2\nhear a 2\ntake a 3\nhear a 3\n",
        Progress::Going,
        &[loaded!(PATH, 1, None), loaded!(FOUR_BYTES, 2, None)],
    ),
    (
        b"take b 3\nhear b 3\n",
        Progress::Going,
        &[loaded!(PATH, 1, None), loaded!(FOUR_BYTES, 2, Some(0))],
    ),
    (
        b"take a 4\nhear a 4\n",
        Progress::Done,
        &[loaded!(PATH, 1, Some(0)), loaded!(FOUR_BYTES, 2, Some(0))],
    ),
];

#[test]
fn packets_go_to_their_drones(rt: HostRuntime) {
    assert_eq!(rt; first_wrong(rt.alloc(), &TWO, true, ONCE, OF_TWO), None);
}

const GAVE_UP: Progress = Progress::GaveUp {
    drone: 0,
    packet: 0,
};

const SILENCE: &[Step] = &[
    // Nineteen ticks.
    (
        b"tick\ntick\ntick\ntick\ntick\ntick\ntick\ntick\ntick\ntick\ntick\ntick\ntick\ntick\ntick\ntick\ntick\ntick\n\
        tick\n",
        Progress::Going,
        &[BLANK],
    ),
    (b"tick", GAVE_UP, &[BLANK]),
    (b"", GAVE_UP, &[BLANK]),
];

#[test]
fn silence_ends_at_twenty_ticks(rt: HostRuntime) {
    assert_eq!(rt; first_wrong(rt.alloc(), &ONE, false, ONCE, SILENCE), None);
}

// Loads of 130 bytes, so of six writes. Four writes bring the first 96 bytes.
const FOUR: Fleet = (
    &[b"a", b"b", b"c", b"d"],
    &[
        (&[1; 130], 1),
        (&[2; 130], 2),
        (&[3; 130], 3),
        (&[4; 130], 4),
    ],
);

// A window is taken, each packet twice, and then its answers are heard, the last one first.
const WINDOWS: &[Step] = &[
    (b"", Progress::Going, &[BLANK; 4]),
    // Writes 1 to 4.
    (
        b"take ? 1\ntake ? 1\ntake ? 2\ntake ? 2\ntake ? 3\ntake ? 3\ntake ? 4\ntake ? 4\nhear ? 8\nhear ? 7\n\
        hear ? 6\nhear ? 5\nhear ? 4\nhear ? 3\nhear ? 2\nhear ? 1\n",
        Progress::Going,
        &[
            (&[1; 96], None, None),
            (&[2; 96], None, None),
            (&[3; 96], None, None),
            (&[4; 96], None, None),
        ],
    ),
    // Writes 6 and 5, which were sent when the fourth and the third were acknowledged.
    (
        b"take ? 5\ntake ? 5\ntake ? 6\ntake ? 6\nhear ? 12\nhear ? 11\nhear ? 10\nhear ? 9\n",
        Progress::Going,
        &[
            (&[1; 130], None, None),
            (&[2; 130], None, None),
            (&[3; 130], None, None),
            (&[4; 130], None, None),
        ],
    ),
    // The define.
    (
        b"take ? 7\ntake ? 7\nhear ? 14\nhear ? 13\n",
        Progress::Going,
        &[
            loaded!(&[1; 130], 1, None),
            loaded!(&[2; 130], 2, None),
            loaded!(&[3; 130], 3, None),
            loaded!(&[4; 130], 4, None),
        ],
    ),
    // The start.
    (
        b"take ? 8\ntake ? 8\nhear ? 16\nhear ? 15\n",
        Progress::Done,
        &[
            loaded!(&[1; 130], 1, Some(0)),
            loaded!(&[2; 130], 2, Some(0)),
            loaded!(&[3; 130], 3, Some(0)),
            loaded!(&[4; 130], 4, Some(0)),
        ],
    ),
];

#[test]
fn windows_of_four_drones_come_in_reverse(rt: HostRuntime) {
    assert_eq!(rt; first_wrong(rt.alloc(), &FOUR, true, EACH, WINDOWS), None);
}
