//! A host with read-back from its first packets to its end, answer by answer. The bytes were written out by
//! hand from docs/RADIO.md.

use crate::hosts::{Happens, Row, wrong_row};
use crate::sessions::{PATH, PLAIN, Upload};
use upload_core::{Progress, Sent};

// The path for one drone with read-back, and the same with a start.
const ONE: Upload = Upload {
    settings: PLAIN,
    loads: &[(PATH, 1)],
    readback: true,
    start: false,
};

const ONE_STARTED: Upload = Upload {
    settings: PLAIN,
    loads: &[(PATH, 1)],
    readback: true,
    start: true,
};

macro_rules! sent {
    ($packet:expr) => {
        Sent {
            drone: 0,
            packet: $packet,
        }
    };
}

// Bytes come up from the drone.
macro_rules! up {
    ($bytes:expr) => {
        Happens::Up(0, $bytes)
    };
}

// Answers to the two writes and the define.
const WROTE_FIRST: &[u8] = &[0x4E, 2, 0, 0, 0, 0, 0];

const WROTE_SECOND: &[u8] = &[0x4E, 2, 24, 0, 0, 0, 0];

const DEFINED: &[u8] = &[0x8C, 6, 0, 1, 0];

const FIRST_READ: &[u8] = &[
    0x4D, 2, 0, 0, 0, 0, 0, 0, 0, 0, 0, 0xE8, 3, 0, 0, 3, 0xD0, 7, 0, 0, 0, 0, 0, 0, 0xE8, 3, 0xE8,
];

const SECOND_READ: &[u8] = &[0x4D, 2, 20, 0, 0, 0, 0, 3, 0xE8, 3, 0xE8, 3, 0, 0, 0];

const STARTED: &[u8] = &[0x8C, 5, 0, 0, 0];

// SECOND_READ with another byte at its second place.
const ALTERED: &[u8] = &[0x4D, 2, 20, 0, 0, 0, 0, 3, 7, 3, 0xE8, 3, 0, 0, 0];

// The same with another byte at its fourth place too.
const ALTERED_TWICE: &[u8] = &[0x4D, 2, 20, 0, 0, 0, 0, 3, 7, 3, 9, 3, 0, 0, 0];

// Both writes are in flight before any event.
const AT_FIRST: &[Sent] = &[sent!(0), sent!(1)];

// All is loaded.
const LOADS: &[Row] = &[
    (up!(WROTE_FIRST), &[], Progress::Going),
    (up!(WROTE_SECOND), &[sent!(2)], Progress::Going),
    (up!(DEFINED), &[sent!(3), sent!(4)], Progress::Going),
];

const READS: &[Row] = &[
    (up!(SECOND_READ), &[], Progress::Going),
    // Too few bytes, and bytes of another place.
    (
        up!(&[
            0x4D, 2, 0, 0, 0, 0, 0, 0, 0, 0, 0, 0xE8, 3, 0, 0, 3, 0xD0, 7, 0, 0, 0, 0, 0, 0, 0xE8,
            3,
        ]),
        &[],
        Progress::Going,
    ),
    (up!(&[0x4D, 2, 10, 0, 0, 0, 0, 1]), &[], Progress::Going),
    (up!(FIRST_READ), &[sent!(5)], Progress::Going),
    (up!(FIRST_READ), &[], Progress::Going),
    (up!(STARTED), &[], Progress::Done),
];

#[test]
fn starts_come_after_the_reads(rt: HostRuntime) {
    assert_eq!(rt;
        wrong_row(rt.alloc(), &ONE_STARTED, AT_FIRST, &[LOADS, READS]),
        None
    );
}

// Before all is loaded no answer to a read counts, neither a good one nor one with another byte.
const EARLY: &[Row] = &[
    (up!(WROTE_FIRST), &[], Progress::Going),
    (up!(FIRST_READ), &[], Progress::Going),
    (up!(ALTERED), &[], Progress::Going),
    (up!(WROTE_SECOND), &[sent!(2)], Progress::Going),
    (up!(DEFINED), &[sent!(3), sent!(4)], Progress::Going),
    (up!(SECOND_READ), &[], Progress::Going),
    (up!(FIRST_READ), &[], Progress::Done),
];

#[test]
fn answers_to_reads_wait_for_the_define(rt: HostRuntime) {
    assert_eq!(rt; wrong_row(rt.alloc(), &ONE, AT_FIRST, &[EARLY]), None);
}

const DIFFERS: Progress = Progress::Differs {
    drone: 0,
    address: 21,
    wanted: 0xE8,
    got: 7,
};

const OTHER: &[Row] = &[
    (up!(ALTERED_TWICE), &[], DIFFERS),
    (up!(ALTERED_TWICE), &[], DIFFERS),
    (up!(SECOND_READ), &[], DIFFERS),
];

#[test]
fn another_byte_differs(rt: HostRuntime) {
    assert_eq!(rt;
        wrong_row(rt.alloc(), &ONE, AT_FIRST, &[LOADS, OTHER]),
        None
    );
}

// Both reads are sent again at each of 19 ticks.
const BOTH_READS: &[Sent] = &[sent!(3), sent!(4)];

const NINETEEN_TICKS: &[Row] = &[(Happens::Tick, BOTH_READS, Progress::Going); 19];

// The twentieth tick ends the upload.
const SILENCE: &[Row] = &[(
    Happens::Tick,
    &[],
    Progress::GaveUp {
        drone: 0,
        packet: 3,
    },
)];

const REFUSED: &[Row] = &[(
    up!(&[0x4D, 2, 20, 0, 0, 0, 5]),
    &[],
    Progress::Refused {
        drone: 0,
        packet: 4,
        status: 5,
    },
)];

#[test]
fn a_read_is_silent_or_refused(rt: HostRuntime) {
    let silent = &[LOADS, NINETEEN_TICKS, SILENCE];
    assert_eq!(rt; wrong_row(rt.alloc(), &ONE_STARTED, AT_FIRST, silent), None);
    assert_eq!(rt;
        wrong_row(rt.alloc(), &ONE_STARTED, AT_FIRST, &[LOADS, REFUSED]),
        None
    );
}
