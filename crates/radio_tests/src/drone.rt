//! Packets that one drone takes, and its answers, with bytes that were written out by hand.

use crtp_packets::from_bytes;
use firmware_memory::{Def, Drone, MEMORY_BYTES, TABLE_ENTRIES, make};

// The last bytes of a fresh drone's memory.
const LAST: [u8; 20] = [
    1, 2, 3, 4, 5, 6, 7, 8, 9, 10, 11, 12, 13, 14, 15, 16, 17, 18, 19, 20,
];

// A drone to which nothing has happened. Its memory has the id 2.
fn fresh() -> Drone {
    let mut memory = [255; MEMORY_BYTES];
    memory[4076..].copy_from_slice(&LAST);
    make(2, memory)
}

// What a packet changes: the byte at this place, which becomes 7, or this entry of the table.
#[derive(Clone, Copy)]
enum Change {
    Byte(usize),
    Entry(usize, Def),
}

// A packet, its answer (none where it is empty), and what it changes where it is carried out.
const ANSWERS: &[(&[u8], &[u8], Option<Change>)] = &[
    (
        &[0x4E, 2, 0, 0, 0, 0, 7],
        &[0x4E, 2, 0, 0, 0, 0, 0],
        Some(Change::Byte(0)),
    ),
    (
        &[0x42, 2, 0xFF, 0x0F, 0, 0, 7],
        &[0x4E, 2, 0xFF, 0x0F, 0, 0, 0],
        Some(Change::Byte(4095)),
    ),
    (&[0x4E, 3, 0, 0, 0, 0, 7], &[0x4E, 3, 0, 0, 0, 0, 2], None),
    (
        &[0x4E, 2, 0, 0x10, 0, 0, 7],
        &[0x4E, 2, 0, 0x10, 0, 0, 5],
        None,
    ),
    (
        &[0x4E, 2, 255, 255, 255, 255, 7],
        &[0x4E, 2, 255, 255, 255, 255, 5],
        None,
    ),
    (
        &[0x4E, 2, 0xFF, 0x0F, 0, 0, 7, 8],
        &[0x4E, 2, 0xFF, 0x0F, 0, 0, 5],
        None,
    ),
    (
        &[0x4E, 3, 255, 255, 255, 255, 7],
        &[0x4E, 3, 255, 255, 255, 255, 2],
        None,
    ),
    (
        &[0x4D, 2, 0xEC, 0x0F, 0, 0, 20],
        &[
            0x4D, 2, 0xEC, 0x0F, 0, 0, 0, 1, 2, 3, 4, 5, 6, 7, 8, 9, 10, 11, 12, 13, 14, 15, 16,
            17, 18, 19, 20,
        ],
        None,
    ),
    (&[0x4D, 2, 0, 0, 0, 0, 0], &[0x4D, 2, 0, 0, 0, 0, 5], None),
    (&[0x4D, 2, 0, 0, 0, 0, 21], &[0x4D, 2, 0, 0, 0, 0, 5], None),
    (
        &[0x4D, 2, 0xED, 0x0F, 0, 0, 20],
        &[0x4D, 2, 0xED, 0x0F, 0, 0, 5],
        None,
    ),
    (
        &[0x4D, 2, 255, 255, 255, 255, 1],
        &[0x4D, 2, 255, 255, 255, 255, 5],
        None,
    ),
    (&[0x4D, 3, 0, 0, 0, 0, 0], &[0x4D, 3, 0, 0, 0, 0, 2], None),
    (
        &[0x8C, 6, 9, 1, 1, 0xFF, 0x0F, 0, 0, 200],
        &[0x8C, 6, 9, 1, 0],
        Some(Change::Entry(
            9,
            Def {
                offset: 4095,
                pieces: 200,
            },
        )),
    ),
    (
        &[0x8C, 6, 10, 1, 1, 0, 0, 0, 0, 1],
        &[0x8C, 6, 10, 1, 2],
        None,
    ),
    (
        &[0x8C, 6, 0, 0, 1, 0, 0, 0, 0, 1],
        &[0x8C, 6, 0, 0, 2],
        None,
    ),
    (
        &[0x8C, 6, 0, 1, 0, 0, 0, 0, 0, 1],
        &[0x8C, 6, 0, 1, 2],
        None,
    ),
    (
        &[0x8C, 6, 9, 1, 1, 0, 0x10, 0, 0, 1],
        &[0x8C, 6, 9, 1, 5],
        None,
    ),
    (
        &[0x8C, 6, 10, 1, 1, 0, 0x10, 0, 0, 1],
        &[0x8C, 6, 10, 1, 2],
        None,
    ),
    (
        &[0x8C, 5, 0, 0, 0, 3, 0, 0, 0x80, 0x3F],
        &[0x8C, 5, 0, 0, 2],
        None,
    ),
    (
        &[0x8C, 5, 0, 0, 0, 10, 0, 0, 0x80, 0x3F],
        &[0x8C, 5, 0, 0, 2],
        None,
    ),
    (&[0x4E, 2, 0, 0, 0, 0], &[], None),
    (&[0x8C], &[], None),
    (&[0x8C, 6, 0, 1, 1, 0, 0, 0, 0], &[], None),
    (&[0x8C, 7, 0, 0, 0, 0, 0, 0, 0, 0], &[], None),
    (&[0x4C, 2, 0, 0, 0, 0, 7], &[], None),
    (&[0x00, 0x48, 0x69], &[], None),
];

// Whether a drone gives this answer to a packet.
fn gives(drone: &mut Drone, bytes: &[u8], answer: &[u8]) -> bool {
    let Ok(packet) = from_bytes(bytes) else {
        return false;
    };
    match drone.handle(&packet) {
        Some(given) => given.bytes() == answer,
        None => answer.is_empty(),
    }
}

// Changes a drone so; false where it has no such place or entry.
fn make_change(drone: &mut Drone, it: &Option<Change>) -> bool {
    match it {
        Some(Change::Byte(place)) => {
            if *place >= MEMORY_BYTES {
                return false;
            }
            drone.memory[*place] = 7;
        }
        Some(Change::Entry(id, def)) => {
            if *id >= TABLE_ENTRIES {
                return false;
            }
            drone.defs[*id] = Some(*def);
        }
        None => {}
    }
    true
}

// Whether a drone is this one, and has started nothing.
fn is_at_rest(drone: &Drone, wanted: &Drone) -> bool {
    drone.memory_id == 2
        && drone.memory.as_slice() == wanted.memory.as_slice()
        && drone.defs.as_slice() == wanted.defs.as_slice()
        && drone.started == None
}

// Whether a fresh drone gives this answer to a packet, and changes so.
fn answers(bytes: &[u8], answer: &[u8], change: &Option<Change>) -> bool {
    let mut drone = fresh();
    let mut wanted = fresh();
    gives(&mut drone, bytes, answer)
        && make_change(&mut wanted, change)
        && is_at_rest(&drone, &wanted)
}

// The number of the first row that is wrong; none where there is no such row.
fn wrong_answer() -> Option<usize> {
    for (k, (bytes, answer, change)) in ANSWERS.iter().enumerate() {
        if !answers(bytes, answer, change) {
            return Some(k);
        }
    }
    None
}

#[test]
fn answers_one_packet(rt: HostRuntime) {
    assert_eq!(rt; wrong_answer(), None);
}

// Packets that a drone takes one after the other, with the statuses of its answers. Nothing is started before the last.
const STARTS: &[(&[u8], u8)] = &[
    (&[0x4E, 2, 0xFC, 0x0F, 0, 0, 3, 0, 0, 0], 0),
    (&[0x8C, 6, 4, 1, 1, 0xE4, 0x0F, 0, 0, 1], 0),
    (&[0x8C, 5, 0, 0, 0, 3, 0, 0, 0x80, 0x3F], 2),
    (&[0x8C, 5, 1, 0, 0, 4, 0, 0, 0x80, 0x3F], 2),
    (&[0x8C, 5, 0, 1, 0, 4, 0, 0, 0x80, 0x3F], 2),
    (&[0x8C, 5, 0, 0, 1, 4, 0, 0, 0x80, 0x3F], 2),
    (&[0x8C, 5, 0, 0, 0, 4, 0, 0, 0, 0x40], 2),
    (&[0x8C, 5, 0, 0, 0, 4, 0, 0, 0x80, 0x3F], 0),
];

// Whether a drone's answer to a packet has this status.
fn has_status(drone: &mut Drone, bytes: &[u8], status: u8) -> bool {
    let Ok(packet) = from_bytes(bytes) else {
        return false;
    };
    match drone.handle(&packet) {
        Some(given) => given.bytes().last() == Some(&status),
        None => false,
    }
}

// The number of the first row with another status, or before which something is started.
fn wrong_status(drone: &mut Drone) -> Option<usize> {
    for (k, (bytes, status)) in STARTS.iter().enumerate() {
        if drone.started.is_some() || !has_status(drone, bytes, *status) {
            return Some(k);
        }
    }
    None
}

#[test]
fn starts_what_it_was_given(rt: HostRuntime) {
    let mut drone = make(2, [255; MEMORY_BYTES]);
    assert_eq!(rt; wrong_status(&mut drone), None);
    let entry = Def {
        offset: 4068,
        pieces: 1,
    };
    let memory = drone.memory[4091..].starts_with(&[255, 3, 0, 0, 0]);
    assert!(rt; memory && drone.defs[4] == Some(entry) && drone.defs[3].is_none());
    assert!(rt; drone.started == Some(4));
}
