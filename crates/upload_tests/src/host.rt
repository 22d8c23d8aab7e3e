//! A host from its first packets to its end, answer by answer. The bytes are those of docs/RADIO.md, or
//! were written out by hand from it.

use crate::hosts::{Happens, Row, happen, host_of, wrong_owner_row, wrong_row};
use crate::sessions::{PATH, PLAIN, Upload, owner_of, session_of};
use std::alloc::{AllocError, Global};
use upload_core::{Host, Out, Progress, Sent, Session, Settings};

// The path for two drones, and the same with a start.
const TWO: Upload = Upload {
    settings: PLAIN,
    loads: &[(PATH, 1), (PATH, 1)],
    readback: false,
    start: false,
};

const TWO_STARTED: Upload = Upload {
    settings: PLAIN,
    loads: &[(PATH, 1), (PATH, 1)],
    readback: false,
    start: true,
};

// One byte with 255 segments and the path with two, for the last places of two drones.
const LAST_PLACES: Upload = Upload {
    settings: Settings {
        memory_id: 3,
        offset: 4068,
        trajectory_id: 9,
    },
    loads: &[(&[7], 255), (PATH, 2)],
    readback: false,
    start: true,
};

macro_rules! sent {
    ($drone:expr, $packet:expr) => {
        Sent {
            drone: $drone,
            packet: $packet,
        }
    };
}

// Bytes come up from a drone, as a packet.
macro_rules! up {
    ($drone:expr, $bytes:expr) => {
        Happens::Up($drone, $bytes)
    };
}

// Bytes come up from a drone, as they are.
macro_rules! heard {
    ($drone:expr, $bytes:expr) => {
        Happens::Heard($drone, $bytes)
    };
}

// ---- packets

// Whether these are all packets of a drone, in order.
fn has_packets(session: &Session, drone: usize, wanted: &[&[u8]]) -> bool {
    if drone >= session.drones() || session.count(drone) != wanted.len() {
        return false;
    }
    for k in 0..session.count(drone) {
        if session.packet(drone, k).bytes() != wanted[k] {
            return false;
        }
    }
    true
}

// The packets that bring the path to place 0, and start it.
const WRITE_FIRST: &[u8] = &[
    0x4E, 2, 0, 0, 0, 0, 0, 0, 0, 0, 0xE8, 3, 0, 0, 3, 0xD0, 7, 0, 0, 0, 0, 0, 0, 0xE8, 3, 0xE8, 3,
    0xE8, 3, 0xE8,
];

const WRITE_SECOND: &[u8] = &[0x4E, 2, 0x18, 0, 0, 0, 3, 0, 0, 0];

const DEFINE: &[u8] = &[0x8C, 6, 0, 1, 1, 0, 0, 0, 0, 1];

const START: &[u8] = &[0x8C, 5, 0, 0, 0, 0, 0, 0, 0x80, 0x3F];

// The packets that bring one byte to place 4068.
const LAST_BYTE: &[&[u8]] = &[
    &[0x4E, 3, 0xE4, 0x0F, 0, 0, 7],
    &[0x8C, 6, 9, 1, 1, 0xE4, 0x0F, 0, 0, 255],
    &[0x8C, 5, 0, 0, 0, 9, 0, 0, 0x80, 0x3F],
];

// The packets that bring the path to place 4068.
const LAST_PATH: &[&[u8]] = &[
    &[
        0x4E, 3, 0xE4, 0x0F, 0, 0, 0, 0, 0, 0, 0xE8, 3, 0, 0, 3, 0xD0, 7, 0, 0, 0, 0, 0, 0, 0xE8,
        3, 0xE8, 3, 0xE8, 3, 0xE8,
    ],
    &[0x4E, 3, 0xFC, 0x0F, 0, 0, 3, 0, 0, 0],
    &[0x8C, 6, 9, 1, 1, 0xE4, 0x0F, 0, 0, 2],
    &[0x8C, 5, 0, 0, 0, 9, 0, 0, 0x80, 0x3F],
];

// Whether a session has these settings, two loads of 1 and 28 bytes, and these bytes at three places of the second.
fn has_last_places(session: &Session) -> bool {
    if session.drones() != 2 {
        return false;
    }
    let settings = session.settings();
    let lengths = session.load_len(0) == 1 && session.load_len(1) == 28;
    for (i, byte) in [(0, 0), (9, 0xD0), (27, 0)] {
        if i >= session.load_len(1) || session.load_byte(1, i) != byte {
            return false;
        }
    }
    lengths && settings.memory_id == 3 && settings.offset == 4068 && settings.trajectory_id == 9
}

// An upload, one of its drones, and the packets of that.
type Packets<'a> = (Upload<'a>, usize, &'a [&'a [u8]]);

const PACKETS: &[Packets] = &[
    (TWO_STARTED, 0, &[WRITE_FIRST, WRITE_SECOND, DEFINE, START]),
    (TWO_STARTED, 1, &[WRITE_FIRST, WRITE_SECOND, DEFINE, START]),
    (TWO, 1, &[WRITE_FIRST, WRITE_SECOND, DEFINE]),
];

fn are_packets(alloc: Global, row: &Packets) -> Result<bool, AllocError> {
    let (upload, drone, wanted) = *row;
    if upload.loads.is_empty() || upload.loads.len() > 32 {
        return Ok(false);
    }
    Ok(has_packets(&session_of(alloc, &upload)?, drone, wanted))
}

fn are_last(alloc: Global) -> Result<bool, AllocError> {
    let session = owner_of(alloc, &LAST_PLACES)?;
    let packets = has_packets(&session, 0, LAST_BYTE) && has_packets(&session, 1, LAST_PATH);
    Ok(packets && has_last_places(&session))
}

// The number of the first row with other packets; none where there is no such row.
fn wrong_packets(alloc: Global) -> Option<usize> {
    for (k, row) in PACKETS.iter().enumerate() {
        if !matches!(are_packets(alloc, row), Ok(true)) {
            return Some(k);
        }
    }
    None
}

#[test]
fn packets_are_those_of_the_format(rt: HostRuntime) {
    assert_eq!(rt; wrong_packets(rt.alloc()), None);
    assert!(rt; matches!(are_last(rt.alloc()), Ok(true)));
}

// ---- cursors

// Whether a drone's first open packet is this one, and these bits are those of its first 64 packets.
fn is_at(host: &Host, drone: usize, cursor: usize, word: u64) -> bool {
    drone < host.session().drones()
        && host.session().count(drone) > 0
        && host.cursor(drone) == cursor
        && host.word(drone, 0) == word
}

// What comes up from the first drone; its first open packet then, and the bits of its first 64.
const CURSORS: &[(&[u8], usize, u64)] = &[
    // An answer to the define or the start before it is sent doesn't count.
    (&[0x8C, 6, 0, 1, 0], 0, 0b0000),
    (&[0x4E, 2, 0, 0, 0, 0, 0], 1, 0b0001),
    (&[0x8C, 5, 0, 0, 0], 1, 0b0001),
    (&[0x4E, 2, 24, 0, 0, 0, 0], 2, 0b0011),
    (&[0x8C, 6, 0, 1, 0], 3, 0b0111),
    (&[0x8C, 5, 0, 0, 0], 3, 0b0111),
];

// Whether the first drone is so far after each of these answers, and the second where it was; and a tick then sends
// the writes of the second.
fn is_at_each(alloc: Global, rows: &[(&[u8], usize, u64)]) -> Result<bool, AllocError> {
    let mut host = host_of(alloc, &TWO_STARTED)?;
    let mut out = Out::new();
    if !is_at(&host, 0, 0, 0) {
        return Ok(false);
    }
    for (bytes, cursor, word) in rows {
        let progress = happen(&mut host, up!(0, bytes), &mut out);
        let at = is_at(&host, 0, *cursor, *word) && is_at(&host, 1, 0, 0);
        if progress != Some(Progress::Going) || !at {
            return Ok(false);
        }
    }
    let progress = happen(&mut host, Happens::Tick, &mut out);
    Ok(progress == Some(Progress::Going) && out.as_slice() == WRITES_OF_SECOND)
}

const WRITES_OF_SECOND: &[Sent] = &[sent!(1, 0), sent!(1, 1)];

#[test]
fn cursors_and_words(rt: HostRuntime) {
    assert!(rt; matches!(is_at_each(rt.alloc(), CURSORS), Ok(true)));
}

// ---- answers

// Answers of two drones to the packets of their path.
const FIRST: &[u8] = &[0x4E, 2, 0, 0, 0, 0, 0];

const SECOND: &[u8] = &[0x4E, 2, 24, 0, 0, 0, 0];

const DEFINED: &[u8] = &[0x8C, 6, 0, 1, 0];

const STARTED: &[u8] = &[0x8C, 5, 0, 0, 0];

// What is in flight before any event.
const AT_FIRST: &[Sent] = &[sent!(0, 0), sent!(0, 1), sent!(1, 0), sent!(1, 1)];

const STARTS: &[Row] = &[
    (up!(0, SECOND), &[], Progress::Going),
    (up!(0, SECOND), &[], Progress::Going),
    (up!(0, FIRST), &[sent!(0, 2)], Progress::Going),
    (up!(0, DEFINED), &[], Progress::Going),
    (up!(1, FIRST), &[], Progress::Going),
    (up!(1, SECOND), &[sent!(1, 2)], Progress::Going),
    (
        up!(1, DEFINED),
        &[sent!(0, 3), sent!(1, 3)],
        Progress::Going,
    ),
    (up!(1, STARTED), &[], Progress::Going),
    (up!(1, STARTED), &[], Progress::Going),
    (up!(0, STARTED), &[], Progress::Done),
];

#[test]
fn starts_come_last(rt: HostRuntime) {
    assert_eq!(rt;
        wrong_row(rt.alloc(), &TWO_STARTED, AT_FIRST, &[STARTS]),
        None
    );
}

// Of the session at the last places, whose trajectory is 9 and whose memory is 3.
const DEFINED_LAST: &[u8] = &[0x8C, 6, 9, 1, 0];

const LAST_AT_FIRST: &[Sent] = &[sent!(0, 0), sent!(1, 0), sent!(1, 1)];

const PLACES: &[Row] = &[
    // Another place, another memory and another trajectory.
    (up!(1, &[0x4E, 3, 24, 0, 0, 0, 0]), &[], Progress::Going),
    (
        up!(0, &[0x4E, 2, 0xE4, 0x0F, 0, 0, 0]),
        &[],
        Progress::Going,
    ),
    (up!(0, &[0x8C, 6, 0, 1, 0]), &[], Progress::Going),
    (
        up!(1, &[0x4E, 3, 0xE4, 0x0F, 0, 0, 0]),
        &[],
        Progress::Going,
    ),
    (
        up!(1, &[0x4E, 3, 0xFC, 0x0F, 0, 0, 0]),
        &[sent!(1, 2)],
        Progress::Going,
    ),
    (up!(1, DEFINED_LAST), &[], Progress::Going),
    (
        up!(0, &[0x4E, 3, 0xE4, 0x0F, 0, 0, 0]),
        &[sent!(0, 1)],
        Progress::Going,
    ),
    (
        up!(0, DEFINED_LAST),
        &[sent!(0, 2), sent!(1, 3)],
        Progress::Going,
    ),
    (up!(0, STARTED), &[], Progress::Going),
    (up!(1, STARTED), &[], Progress::Done),
];

#[test]
fn answers_match_by_place_and_id(rt: HostRuntime) {
    assert_eq!(rt;
        wrong_owner_row(rt.alloc(), &LAST_PLACES, LAST_AT_FIRST, &[PLACES]),
        None
    );
}

const REFUSAL: &[u8] = &[0x4E, 2, 0, 0, 0, 0, 5];

const FIRST_REFUSED: Progress = Progress::Refused {
    drone: 1,
    packet: 0,
    status: 5,
};

const REFUSALS: &[Row] = &[
    // From a drone that isn't there, and of another port.
    (up!(2, REFUSAL), &[], Progress::Going),
    (up!(0, &[0, 0x48, 0x69]), &[], Progress::Going),
    (up!(1, REFUSAL), &[], FIRST_REFUSED),
    (up!(1, REFUSAL), &[], FIRST_REFUSED),
    (Happens::Tick, &[], FIRST_REFUSED),
];

#[test]
fn a_packet_is_refused(rt: HostRuntime) {
    assert_eq!(rt; wrong_row(rt.alloc(), &TWO, AT_FIRST, &[REFUSALS]), None);
}

const NINETEEN_TICKS: &[Row] = &[(Happens::Tick, AT_FIRST, Progress::Going); 19];

const SILENCE: &[Row] = &[(
    Happens::Tick,
    &[],
    Progress::GaveUp {
        drone: 0,
        packet: 0,
    },
)];

#[test]
fn silence_ends_at_twenty_ticks(rt: HostRuntime) {
    assert_eq!(rt;
        wrong_row(rt.alloc(), &TWO, AT_FIRST, &[NINETEEN_TICKS, SILENCE]),
        None
    );
}

const REFUSED: Progress = Progress::Refused {
    drone: 1,
    packet: 1,
    status: 2,
};

const BYTES: &[Row] = &[
    // One byte too few, another port, a drone that isn't there, and another memory.
    (heard!(0, &[0x4E, 2, 0, 0, 0, 0]), &[], Progress::Going),
    (heard!(0, &[0x00, 0x48, 0x69]), &[], Progress::Going),
    (heard!(2, &[0x4E, 2, 0, 0, 0, 0, 0]), &[], Progress::Going),
    (heard!(0, &[0x4E, 3, 0, 0, 0, 0, 0]), &[], Progress::Going),
    (heard!(0, &[0x4E, 2, 24, 0, 0, 0, 0]), &[], Progress::Going),
    // What follows the status is of no account.
    (
        heard!(0, &[0x4E, 2, 0, 0, 0, 0, 0, 9, 9]),
        &[sent!(0, 2)],
        Progress::Going,
    ),
    (heard!(1, &[0x4E, 2, 24, 0, 0, 0, 2]), &[], REFUSED),
    (heard!(1, &[0x4E, 2, 24, 0, 0, 0, 0]), &[], REFUSED),
];

#[test]
fn bytes_of_answers_are_heard(rt: HostRuntime) {
    assert_eq!(rt; wrong_row(rt.alloc(), &TWO, AT_FIRST, &[BYTES]), None);
}
