//! Flights through frames, over memory. The bytes were written out by hand from the tables of docs/PROMISES.md, "Its
//! frames"; what is said at each event is in flight_model's example.

use crate::flights::flight;
use byte_streams::{MemSink, MemSource, Parts, Source};
use flight_link::direct;
use std::alloc::{AllocError, Global};

// ---- what comes in

// Flags: ready, down and sure; armed besides; ready, armed, flying and sure.
const ON_PAD: u8 = 41;

const ARMED: u8 = 43;

const FLYING: u8 = 51;

// Half a second later both drones are heard, the second two metres aside: the bytes of y and z, and the flags.
macro_rules! half {
    ($y:expr, $later_y:expr, $z:expr, $later_z:expr, $flags:expr) => {
        &[
            1, 0xF4, 0x01, 2, 0, 0, 0, 0x00, 0x00, $y, $later_y, $z, $later_z, $flags, 2, 1, 0, 0,
            0xD0, 0x07, $y, $later_y, $z, $later_z, $flags,
        ]
    };
}

// Both are heard on their pads.
macro_rules! on_pads {
    ($flags:expr) => {
        &[
            2, 0, 0, 0, 0, 0, 0, 0, 0, 0, $flags, 2, 1, 0, 0, 0xD0, 0x07, 0, 0, 0, 0, $flags,
        ]
    };
}

// Pieces of what comes in, or of what goes out, one after the other.
type Pieces<'a> = &'a [&'a [u8]];

// Both drones have answered with 0.
const JOINED: &[u8] = b"\x03\x00\x00\x03\x01\x00";

const GO: &[u8] = b"\x04\x00";

const LAND: &[u8] = b"\x04\x01";

const STOP: &[u8] = b"\x04\x02";

// Five seconds.
const LATER: &[u8] = b"\x01\x88\x13";

const SEEN_DOWN: &[u8] = on_pads!(ON_PAD);

const SEEN_ARMED: &[u8] = on_pads!(ARMED);

// On the way up and down, half a second after the other: 1,000 mm, and 71, 500, 929, 967, 710, 290 and 33 mm.
const AT_TOP: &[u8] = half!(0, 0, 0xE8, 0x03, FLYING);

const LANDED: &[u8] = half!(0, 0, 0, 0, ARMED);

// From the pads to the first places.
const UP: Pieces = &[
    SEEN_DOWN,
    JOINED,
    GO,
    SEEN_ARMED,
    half!(0, 0, 0x47, 0x00, FLYING),
    half!(0, 0, 0xF4, 0x01, FLYING),
    half!(0, 0, 0xA1, 0x03, FLYING),
    AT_TOP,
    AT_TOP,
    AT_TOP,
    AT_TOP,
];

// From there on the show, and down to the pads. 225 mm aside is one of the show's places.
const BACK: Pieces = &[
    SEEN_DOWN,
    JOINED,
    GO,
    SEEN_ARMED,
    half!(0, 0, 0x47, 0x00, FLYING),
    half!(0, 0, 0xF4, 0x01, FLYING),
    half!(0, 0, 0xA1, 0x03, FLYING),
    AT_TOP,
    AT_TOP,
    AT_TOP,
    AT_TOP,
    GO,
    half!(0xE1, 0x00, 0xE8, 0x03, FLYING),
    AT_TOP,
    AT_TOP,
    AT_TOP,
    half!(0, 0, 0xC7, 0x03, FLYING),
    half!(0, 0, 0xC6, 0x02, FLYING),
    half!(0, 0, 0x22, 0x01, FLYING),
    half!(0, 0, 0x21, 0x00, FLYING),
    LANDED,
    LANDED,
    LANDED,
    SEEN_DOWN,
];

// ---- what goes out

// Both drones are told to be in group 1.
const GROUP: &[u8] = b"\x01\x00\x07\x01\x01\x01\x07\x01";

// Then to arm, and to rise to 1,000 mm in 2,000 ms.
const RISE: &[u8] =
    b"\x01\x00\x00\x01\x01\x00\x01\x00\x01\xE8\x03\xD0\x07\x00\x00\x01\x01\x01\xE8\x03\xD0\x07\x00\x00";

// All of group 1 start; both land in 2,500 ms; all disarm; flown and kept.
const FLOWN: &[u8] =
    b"\x02\x04\x01\x01\x00\x03\x00\x00\xC4\x09\x00\x00\x01\x01\x03\x00\x00\xC4\x09\x00\x00\x02\x06\x04\x03";

// Both land in 4,000 ms; all disarm; not flown.
const LANDED_EARLY: &[u8] =
    b"\x01\x00\x03\x00\x00\xA0\x0F\x00\x00\x01\x01\x03\x00\x00\xA0\x0F\x00\x00\x02\x06\x04\x00";

// All halt; not flown.
const HALTED: &[u8] = b"\x02\x05\x04\x00";

const ARM: &[u8] = b"\x01\x00\x00\x01\x01\x00";

const STOPPED: &[u8] = b"\x02\x05";

// The end frames, by their statuses.
const DONE: &[u8] = b"\x45\x00";

const NOT_READ: &[u8] = b"\x45\x06";

const EARLY: &[u8] = b"\x45\x08";

const NO_PLACE: &[u8] = b"\x45\x0B";

const TOO_MANY: &[u8] = b"\x45\x0D";

const NOT_FLOWN: &[u8] = b"\x45\x14";

// ---- runs

// How often a go comes first; the most bytes of a read, each in a run of its own; the read and the write that fail.
#[derive(Clone, Copy)]
struct Manner<'a> {
    goes: u32,
    cuts: &'a [usize],
    read: u64,
    write: u64,
}

// What comes in, in two lists; the manner; the status, what goes out, and whether the read after the last one fails.
type Row<'a> = (Pieces<'a>, Pieces<'a>, Manner<'a>, u8, Pieces<'a>, bool);

fn joined(alloc: Global, goes: u32, first: Pieces, then: Pieces) -> Result<Vec<u8>, AllocError> {
    let mut all = Vec::new(alloc);
    for _ in 0..goes {
        all.extend_from_slice(GO)?;
    }
    for piece in first {
        all.extend_from_slice(piece)?;
    }
    for piece in then {
        all.extend_from_slice(piece)?;
    }
    Ok(all)
}

fn source_of(
    alloc: Global,
    bytes: Vec<u8>,
    cut: usize,
    fails: u64,
) -> Result<MemSource, AllocError> {
    Ok(MemSource::make(bytes, cut.max(1), Vec::from_slice(alloc, &[fails])?))
}

fn sink_of(alloc: Global, fails: u64) -> Result<MemSink, AllocError> {
    MemSink::make(alloc, 4000, 4000, Vec::from_slice(alloc, &[fails])?)
}

// Whether these pieces are all the bytes, in order.
fn are_all(bytes: &[u8], pieces: Pieces) -> bool {
    let mut rest = bytes;
    for piece in pieces {
        if !rest.starts_with(piece) {
            return false;
        }
        rest = &rest[piece.len()..];
    }
    rest.is_empty()
}

fn runs_so(alloc: Global, row: &Row, cut: usize) -> Result<bool, AllocError> {
    let (first, then, manner, status, output, next_fails) = *row;
    let bytes = joined(alloc, manner.goes, first, then)?;
    let mut source = source_of(alloc, bytes, cut, manner.read)?;
    let mut sink = sink_of(alloc, manner.write)?;
    let mut parts = Parts::make();
    let met = direct(&mut parts, &mut source, flight(alloc)?, &mut sink);
    let fails = source.read(&mut [0; 1]).is_err();
    Ok(met == status && fails == next_fails && are_all(sink.written(), output))
}

fn all_run(alloc: Global, rows: &[Row]) -> bool {
    for row in rows {
        for cut in row.2.cuts {
            if !matches!(runs_so(alloc, row, *cut), Ok(true)) {
                return false;
            }
        }
    }
    true
}

// ---- ends

const FINE: Manner = Manner {
    goes: 0,
    cuts: &[1, 2, 7, 1000],
    read: 0,
    write: 0,
};

const ENDS: &[Row] = &[
    // A whole flight; after its end no byte is judged.
    (BACK, &[], FINE, 0, &[GROUP, RISE, FLOWN, DONE], false),
    (
        BACK,
        &[b"\x09"],
        FINE,
        0,
        &[GROUP, RISE, FLOWN, DONE],
        false,
    ),
    (
        UP,
        &[LAND, SEEN_ARMED, SEEN_DOWN],
        FINE,
        20,
        &[GROUP, RISE, LANDED_EARLY, NOT_FLOWN],
        false,
    ),
    (
        &[],
        &[STOP, LATER, b"\x09"],
        FINE,
        20,
        &[HALTED, NOT_FLOWN],
        false,
    ),
    // A millisecond less, and the flight isn't over.
    (
        &[],
        &[STOP, b"\x01\x87\x13"],
        FINE,
        8,
        &[STOPPED, EARLY],
        false,
    ),
    // Inputs that end early. A go of which no drone was heard arms nobody.
    (&[], &[], FINE, 8, &[EARLY], false),
    (&[], &[GO], FINE, 8, &[GROUP, EARLY], false),
    (UP, &[], FINE, 8, &[GROUP, RISE, EARLY], false),
    (
        UP,
        &[b"\x02\x00"],
        FINE,
        11,
        &[GROUP, RISE, NO_PLACE],
        false,
    ),
    // Nobody is armed before both have answered that they are in the group.
    (
        &[],
        &[SEEN_DOWN, JOINED, GO],
        FINE,
        8,
        &[GROUP, ARM, EARLY],
        false,
    ),
    (
        &[],
        &[SEEN_DOWN, b"\x03\x00\x00\x03\x00\x00", GO],
        FINE,
        8,
        &[GROUP, EARLY],
        false,
    ),
    (
        &[],
        &[b"\x03\x01\x00", SEEN_DOWN, b"\x03\x00\x00", GO],
        FINE,
        8,
        &[GROUP, EARLY],
        false,
    ),
    // The input ends in an event.
    (&[], &[STOP, b"\x01"], FINE, 11, &[STOPPED, NO_PLACE], false),
    (
        &[],
        &[STOP, b"\x01\x88"],
        FINE,
        11,
        &[STOPPED, NO_PLACE],
        false,
    ),
    (
        &[],
        &[STOP, b"\x02\x01"],
        FINE,
        11,
        &[STOPPED, NO_PLACE],
        false,
    ),
    (
        &[],
        &[STOP, b"\x03\x01"],
        FINE,
        11,
        &[STOPPED, NO_PLACE],
        false,
    ),
    (&[], &[STOP, b"\x04"], FINE, 11, &[STOPPED, NO_PLACE], false),
];

// Bytes that begin no event, amid others. The last of each is the one that has no place.
macro_rules! faulty {
    ($bytes:expr) => {
        (
            &[STOP],
            &[$bytes, LATER],
            FINE,
            11,
            &[STOPPED, NO_PLACE],
            false,
        )
    };
}

const FAULTY: &[Row] = &[
    faulty!(b"\x00"),
    faulty!(b"\x05"),
    faulty!(b"\x25"),
    // A drone past the last one, in a sample and in an answer.
    faulty!(b"\x02\x02"),
    faulty!(b"\x03\x02"),
    faulty!(b"\x03\xFF"),
    // No such signal; a flag too many.
    faulty!(b"\x04\x03"),
    faulty!(b"\x02\x01\x00\x00\xD0\x07\x00\x00\x00\x00\x40"),
];

#[test]
fn each_end(rt: HostRuntime) {
    assert!(rt; all_run(rt.alloc(), ENDS) && all_run(rt.alloc(), FAULTY));
}

// At most so many bytes of a read, and the read and the write that fail.
macro_rules! fails {
    ($cut:expr, $read:expr, $write:expr) => {
        Manner {
            goes: 0,
            cuts: &[$cut],
            read: $read,
            write: $write,
        }
    };
}

// The same bytes alone, one a read; the read after them would fail.
macro_rules! last {
    ($bytes:expr, $read:expr) => {
        (&[$bytes], &[], fails!(1, $read, 0), 11, &[NO_PLACE], true)
    };
}

// A byte without a place and the end of the flight are judged before the next read.
const LAST_READS: &[Row] = &[
    last!(b"\x00", 2),
    last!(b"\x05", 2),
    last!(b"\x25", 2),
    last!(b"\x02\x02", 3),
    last!(b"\x03\x02", 3),
    last!(b"\x03\xFF", 3),
    last!(b"\x04\x03", 3),
    last!(b"\x02\x01\x00\x00\xD0\x07\x00\x00\x00\x00\x40", 12),
    (
        &[],
        &[STOP, LATER],
        fails!(1, 6, 0),
        20,
        &[HALTED, NOT_FLOWN],
        true,
    ),
];

#[test]
fn no_read_after_the_end(rt: HostRuntime) {
    assert!(rt; all_run(rt.alloc(), LAST_READS));
}

// Reads and writes fail in turn.
const FAILING_ENDS: &[Row] = &[
    (&[], &[STOP, LATER], fails!(1, 1, 0), 6, &[NOT_READ], false),
    (&[], &[STOP, LATER], fails!(1, 2, 0), 6, &[NOT_READ], false),
    (
        &[],
        &[STOP, LATER],
        fails!(1, 3, 0),
        6,
        &[STOPPED, NOT_READ],
        false,
    ),
    (
        &[],
        &[STOP, LATER],
        fails!(1, 4, 0),
        6,
        &[STOPPED, NOT_READ],
        false,
    ),
    (
        &[],
        &[STOP, LATER],
        fails!(1, 5, 0),
        6,
        &[STOPPED, NOT_READ],
        false,
    ),
    (
        &[],
        &[STOP, LATER],
        fails!(1, 6, 0),
        20,
        &[HALTED, NOT_FLOWN],
        true,
    ),
    (&[], &[STOP, LATER], fails!(100, 0, 1), 7, &[], false),
    (&[], &[STOP, LATER], fails!(100, 0, 2), 7, &[STOPPED], false),
    (&[], &[STOP, LATER], fails!(100, 0, 3), 7, &[HALTED], false),
];

#[test]
fn failing_ends(rt: HostRuntime) {
    assert!(rt; all_run(rt.alloc(), FAILING_ENDS));
}

// Goes of which no drone was heard, which arm nobody.
macro_rules! goes {
    ($goes:expr) => {
        Manner {
            goes: $goes,
            cuts: &[4096],
            read: 0,
            write: 0,
        }
    };
}

const EVENTS: &[Row] = &[
    (
        &[],
        &[STOP],
        goes!(4_000_000),
        13,
        &[GROUP, TOO_MANY],
        false,
    ),
    (
        &[],
        &[STOP],
        goes!(3_999_999),
        13,
        &[GROUP, STOPPED, TOO_MANY],
        false,
    ),
    (
        &[],
        &[STOP],
        goes!(3_999_998),
        8,
        &[GROUP, STOPPED, EARLY],
        false,
    ),
];

#[test]
fn four_million_events(rt: HostRuntime) {
    assert!(rt; all_run(rt.alloc(), EVENTS));
}
