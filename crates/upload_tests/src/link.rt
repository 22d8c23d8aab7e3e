//! Uploads of the smallest path over memory. The bytes were written out by hand from docs/RADIO.md.

ghost use Rattle.std.specs.Prelude.{None};

use crate::hosts::host_of;
use crate::sessions::{PATH, PLAIN, Upload};
use byte_streams::{Failed, MemSink, MemSource, Parts, Sink, Source, StdSource};
use link_upload::upload;
use std::alloc::{AllocError, Global};
use std::cell::Cell;
use std::io::{self, Read};

// ---- frames

// The frames of the two writes.
const FIRST: &[u8] =
    b"\x50\x01\x1E\x4E\x02\x00\x00\x00\x00\x00\x00\x00\x00\xE8\x03\x00\x00\x03\xD0\x07\x00\x00\x00\x00\x00\x00\xE8\x03\
    \xE8\x03\xE8\x03\xE8\x50\x01\x0A\x4E\x02\x18\x00\x00\x00\x03\x00\x00\x00";
// The frame of the define.
const DEFINE: &[u8] = b"\x50\x01\x0A\x8C\x06\x00\x01\x01\x00\x00\x00\x00\x01";
// The frame of the start.
const START: &[u8] = b"\x50\x01\x0A\x8C\x05\x00\x00\x00\x00\x00\x00\x80\x3F";

// Frames that come in: the answers to the writes, the define and the start.
const WROTE_FIRST: &[u8] = b"\x50\x01\x07\x4E\x02\x00\x00\x00\x00\x00";

const WROTE_SECOND: &[u8] = b"\x50\x01\x07\x4E\x02\x18\x00\x00\x00\x00";

const DEFINED: &[u8] = b"\x50\x01\x05\x8C\x06\x00\x01\x00";

const STARTED: &[u8] = b"\x50\x01\x05\x8C\x05\x00\x00\x00";

const FIRST_REFUSED: &[u8] = b"\x50\x01\x07\x4E\x02\x00\x00\x00\x00\x05";

// A packet of another port, which acknowledges nothing.
const OTHER: &[u8] = b"\x50\x01\x03\x00\x48\x69";

// Frames of the greatest length: the answer to the first write with 24 bytes after its status, which are of no account,
// and the same of a refusal.
const LONG_WROTE: &[u8] =
    b"\x50\x01\x1F\x4E\x02\x00\x00\x00\x00\x00\x54\x54\x54\x54\x54\x54\x54\x54\x54\x54\x54\x54\x54\x54\x54\x54\x54\x54\
    \x54\x54\x54\x54\x54\x54";

const LONG_REFUSED: &[u8] =
    b"\x50\x01\x1F\x4E\x02\x00\x00\x00\x00\x05\x50\x50\x50\x50\x50\x50\x50\x50\x50\x50\x50\x50\x50\x50\x50\x50\x50\x50\
    \x50\x50\x50\x50\x50\x50";

// The first of them without its last byte.
const LONG_CUT: &[u8] =
    b"\x50\x01\x1F\x4E\x02\x00\x00\x00\x00\x00\x54\x54\x54\x54\x54\x54\x54\x54\x54\x54\x54\x54\x54\x54\x54\x54\x54\x54\
    \x54\x54\x54\x54\x54";

// The frames of the two reads.
const READS: &[u8] =
    b"\x50\x01\x07\x4D\x02\x00\x00\x00\x00\x14\x50\x01\x07\x4D\x02\x14\x00\x00\x00\x08";

// Frames that come in: the answers to the reads, and to the second one with another byte at its third place.
const READ_FIRST: &[u8] =
    b"\x50\x01\x1B\x4D\x02\x00\x00\x00\x00\x00\x00\x00\x00\x00\xE8\x03\x00\x00\x03\xD0\x07\x00\x00\x00\x00\x00\x00\xE8\
    \x03\xE8";

const READ_SECOND: &[u8] =
    b"\x50\x01\x0F\x4D\x02\x14\x00\x00\x00\x00\x03\xE8\x03\xE8\x03\x00\x00\x00";

const READ_OTHER: &[u8] =
    b"\x50\x01\x0F\x4D\x02\x14\x00\x00\x00\x00\x03\xE8\x04\xE8\x03\x00\x00\x00";

// The frame of the second write, once more.
const AGAIN: &[u8] = b"\x50\x01\x0A\x4E\x02\x18\x00\x00\x00\x03\x00\x00\x00";

// Of a drone that isn't there.
const STRANGER: &[u8] = b"\x50\x20\x07\x4E\x02\x00\x00\x00\x00\x05";

// The end frames, by their statuses.
const DONE: &[u8] = b"\x45\x00";

const NOT_READ: &[u8] = b"\x45\x06";

const EARLY: &[u8] = b"\x45\x08";

const SILENT: &[u8] = b"\x45\x09";

const REFUSED: &[u8] = b"\x45\x0A";

const NO_PLACE: &[u8] = b"\x45\x0B";

const TOO_MANY: &[u8] = b"\x45\x0D";

const OTHER_BYTE: &[u8] = b"\x45\x0E";

const NONE: &[u8] = b"";

// ---- runs

macro_rules! asked {
    ($readback:expr, $start:expr) => {
        Upload {
            settings: PLAIN,
            loads: &[(PATH, 1)],
            readback: $readback,
            start: $start,
        }
    };
}

// Whether memories are read back, and drones started.
const LOAD: Upload = asked!(false, false);

const FLY: Upload = asked!(false, true);

const READ_BACK: Upload = asked!(true, false);

const FLY_READ: Upload = asked!(true, true);

// How many packets of another port come first; the most bytes of a read, each in a run of its own; the read and the
// write that fail.
#[derive(Clone, Copy)]
struct Manner<'a> {
    others: u32,
    cuts: &'a [usize],
    read: u64,
    write: u64,
}

// Pieces of what comes in, or of what goes out, one after the other.
type Pieces<'a> = &'a [&'a [u8]];

// What is asked for, what comes in, the manner, the status, what goes out, and the end frame.
type Row<'a> = (Upload<'a>, Pieces<'a>, Manner<'a>, u8, Pieces<'a>, &'a [u8]);

fn joined(alloc: Global, others: u32, pieces: Pieces) -> Result<Vec<u8>, AllocError> {
    let mut all = Vec::new(alloc);
    for _ in 0..others {
        all.extend_from_slice(OTHER)?;
    }
    for piece in pieces {
        all.extend_from_slice(piece)?;
    }
    Ok(all)
}

// Whether these pieces and the last one are all the bytes, in order.
fn are_all(bytes: &[u8], pieces: Pieces, last: &[u8]) -> bool {
    let mut rest = bytes;
    for piece in pieces {
        if !rest.starts_with(piece) {
            return false;
        }
        rest = &rest[piece.len()..];
    }
    rest == last
}

// An upload of the path to one drone.
#[derive(Drop)]
struct Ran {
    status: u8,
    source: MemSource,
    sink: MemSink,
}

fn source_of(
    alloc: Global,
    bytes: Vec<u8>,
    cut: usize,
    fails: u64,
) -> Result<MemSource, AllocError> {
    Ok(MemSource::make(bytes, cut.max(1), Vec::from_slice(alloc, &[fails])?))
}

fn sink_of(alloc: Global, fails: u64) -> Result<MemSink, AllocError> {
    MemSink::make(alloc, 4000, 4000, Vec::from_slice(alloc, &[fails])?)
}

// An upload of this row, whose source gives at most `cut` bytes a call.
fn run(alloc: Global, row: &Row, cut: usize) -> Result<Ran, AllocError> {
    let (asked, input, manner, _, _, _) = *row;
    let bytes = joined(alloc, manner.others, input)?;
    let mut source = source_of(alloc, bytes, cut, manner.read)?;
    let mut sink = sink_of(alloc, manner.write)?;
    let mut parts = Parts::make();
    let status = upload(&mut parts, &mut source, host_of(alloc, &asked)?, &mut sink);
    Ok(Ran {
        status,
        source,
        sink,
    })
}

// Whether an upload of a row ends as it says, and whether the next read fails.
fn ends_so(alloc: Global, row: &Row, cut: usize, next_fails: bool) -> Result<bool, AllocError> {
    let mut ran = run(alloc, row, cut)?;
    let fails = ran.source.read(&mut [0; 1]).is_err();
    let output = are_all(ran.sink.written(), row.4, row.5);
    Ok(ran.status == row.3 && fails == next_fails && output)
}

// The number of the first row whose upload doesn't end so; none where all do.
fn first_wrong(alloc: Global, rows: &[Row], next_fails: bool) -> Option<usize> {
    for (k, row) in rows.iter().enumerate() {
        for cut in row.2.cuts {
            if !matches!(ends_so(alloc, row, *cut, next_fails), Ok(true)) {
                return Some(k);
            }
        }
    }
    None
}

// ---- ends

const FINE: Manner = Manner {
    others: 0,
    cuts: &[1, 2, 7, 1000],
    read: 0,
    write: 0,
};

const ENDS: &[Row] = &[
    // Uploads that are done.
    (
        LOAD,
        &[WROTE_FIRST, WROTE_SECOND, DEFINED],
        FINE,
        0,
        &[FIRST, DEFINE],
        DONE,
    ),
    (
        FLY,
        &[WROTE_FIRST, WROTE_SECOND, DEFINED, STARTED],
        FINE,
        0,
        &[FIRST, DEFINE, START],
        DONE,
    ),
    // An answer to what isn't in flight doesn't count.
    (
        FLY,
        &[STARTED, WROTE_FIRST, WROTE_SECOND, DEFINED, STARTED],
        FINE,
        0,
        &[FIRST, DEFINE, START],
        DONE,
    ),
    (
        LOAD,
        &[DEFINED, WROTE_FIRST, WROTE_SECOND, DEFINED],
        FINE,
        0,
        &[FIRST, DEFINE],
        DONE,
    ),
    // The example of docs/RADIO.md, "Link frames".
    (
        LOAD,
        &[WROTE_FIRST, b"T", WROTE_SECOND, DEFINED],
        FINE,
        0,
        &[FIRST, AGAIN, DEFINE],
        DONE,
    ),
    // After the end no byte is judged.
    (
        LOAD,
        &[WROTE_FIRST, WROTE_SECOND, DEFINED, b"\x51"],
        FINE,
        0,
        &[FIRST, DEFINE],
        DONE,
    ),
    // Uploads that are refused. The answer to a start that wasn't sent is one.
    (
        FLY,
        &[b"\x50\x01\x05\x8C\x05\x00\x00\x05"],
        FINE,
        10,
        &[FIRST],
        REFUSED,
    ),
    (
        LOAD,
        &[b"\x50\x01\x05\x8C\x05\x00\x00\x05"],
        FINE,
        8,
        &[FIRST],
        EARLY,
    ),
    (LOAD, &[FIRST_REFUSED, b"\x51"], FINE, 10, &[FIRST], REFUSED),
    // Bits of the link are of no account.
    (
        LOAD,
        &[b"\x50\x01\x07\x42\x02\x00\x00\x00\x00\x05"],
        FINE,
        10,
        &[FIRST],
        REFUSED,
    ),
    // The longest frame comes first of all, whole in one read or in pieces.
    (LOAD, &[LONG_WROTE], FINE, 8, &[FIRST], EARLY),
    (
        LOAD,
        &[LONG_WROTE, WROTE_SECOND, DEFINED],
        FINE,
        0,
        &[FIRST, DEFINE],
        DONE,
    ),
    (LOAD, &[LONG_REFUSED], FINE, 10, &[FIRST], REFUSED),
    (LOAD, &[LONG_CUT], FINE, 11, &[FIRST], NO_PLACE),
    // Inputs that end early.
    (LOAD, &[], FINE, 8, &[FIRST], EARLY),
    // The answers to the start and to the define come before these are sent.
    (
        FLY,
        &[STARTED, WROTE_FIRST, WROTE_SECOND, DEFINED],
        FINE,
        8,
        &[FIRST, DEFINE, START],
        EARLY,
    ),
    (
        LOAD,
        &[DEFINED, WROTE_FIRST, WROTE_SECOND],
        FINE,
        8,
        &[FIRST, DEFINE],
        EARLY,
    ),
    // The same answer twice acknowledges once.
    (LOAD, &[WROTE_FIRST, WROTE_FIRST], FINE, 8, &[FIRST], EARLY),
    (LOAD, &[STRANGER], FINE, 8, &[FIRST], EARLY),
    // A tick sends what is in flight.
    (
        LOAD,
        &[b"T", WROTE_FIRST, b"T"],
        FINE,
        8,
        &[FIRST, FIRST, AGAIN],
        EARLY,
    ),
    // The input ends in a frame.
    (LOAD, &[b"\x50"], FINE, 11, &[FIRST], NO_PLACE),
    (LOAD, &[b"\x50\x01"], FINE, 11, &[FIRST], NO_PLACE),
    (LOAD, &[b"\x50\x01\x07"], FINE, 11, &[FIRST], NO_PLACE),
    (
        LOAD,
        &[b"\x50\x01\x07\x4E\x02\x00\x00\x00\x00"],
        FINE,
        11,
        &[FIRST],
        NO_PLACE,
    ),
    // A byte has no place.
    (LOAD, &[WROTE_FIRST, b"%%\n"], FINE, 11, &[FIRST], NO_PLACE),
    (
        LOAD,
        &[WROTE_FIRST, WROTE_SECOND, b"TT\x50\x01\x20", DEFINED],
        FINE,
        11,
        &[FIRST, DEFINE, DEFINE, DEFINE],
        NO_PLACE,
    ),
    // Memories are read back.
    (
        READ_BACK,
        &[WROTE_FIRST, WROTE_SECOND, DEFINED, READ_SECOND, READ_FIRST],
        FINE,
        0,
        &[FIRST, DEFINE, READS],
        DONE,
    ),
    (
        FLY_READ,
        &[
            WROTE_FIRST,
            WROTE_SECOND,
            DEFINED,
            READ_SECOND,
            READ_FIRST,
            STARTED,
        ],
        FINE,
        0,
        &[FIRST, DEFINE, READS, START],
        DONE,
    ),
    (
        FLY_READ,
        &[WROTE_FIRST, WROTE_SECOND, DEFINED, READ_OTHER],
        FINE,
        14,
        &[FIRST, DEFINE, READS],
        OTHER_BYTE,
    ),
    (
        FLY_READ,
        &[WROTE_FIRST, WROTE_SECOND, DEFINED],
        FINE,
        8,
        &[FIRST, DEFINE, READS],
        EARLY,
    ),
];

#[test]
fn each_end(rt: HostRuntime) {
    assert!(rt; LONG_WROTE.len() == 34 && LONG_REFUSED.len() == 34);
    assert_eq!(rt; first_wrong(rt.alloc(), ENDS, false), None);
}

// At most so many bytes of a read, and the read and the write that fail.
macro_rules! fails {
    ($cut:expr, $read:expr, $write:expr) => {
        Manner {
            others: 0,
            cuts: &[$cut],
            read: $read,
            write: $write,
        }
    };
}

const TICK: &[u8] = b"T";

const TICKS: &[Row] = &[
    (LOAD, &[TICK; 21], fails!(1, 0, 0), 9, &[FIRST; 20], SILENT),
    (LOAD, &[TICK; 19], fails!(1, 0, 0), 8, &[FIRST; 20], EARLY),
];

#[test]
fn the_twentieth_tick_gives_up(rt: HostRuntime) {
    assert_eq!(rt; first_wrong(rt.alloc(), TICKS, false), None);
}

const ALL: Pieces = &[WROTE_FIRST, WROTE_SECOND, DEFINED];

// A byte without a place and the last answer are judged before the next read: the read that fails is still the next
// one.
const NO_READ_AFTER_THE_END: &[Row] = &[
    (
        LOAD,
        &[b"\x50\x00"],
        fails!(1, 3, 0),
        11,
        &[FIRST],
        NO_PLACE,
    ),
    (
        LOAD,
        &[b"\x50\x21"],
        fails!(1, 3, 0),
        11,
        &[FIRST],
        NO_PLACE,
    ),
    (
        LOAD,
        &[b"\x50\x01\x00"],
        fails!(1, 4, 0),
        11,
        &[FIRST],
        NO_PLACE,
    ),
    (
        LOAD,
        &[b"\x50\x01\x20"],
        fails!(1, 4, 0),
        11,
        &[FIRST],
        NO_PLACE,
    ),
    (LOAD, &[b"\x51"], fails!(1, 2, 0), 11, &[FIRST], NO_PLACE),
    (
        LOAD,
        &[FIRST_REFUSED],
        fails!(1, 11, 0),
        10,
        &[FIRST],
        REFUSED,
    ),
    // A whole upload.
    (LOAD, ALL, fails!(1, 29, 0), 0, &[FIRST, DEFINE], DONE),
    // No read is made after a failed write.
    (LOAD, &[WROTE_FIRST], fails!(100, 1, 1), 7, &[], NONE),
];

#[test]
fn no_read_after_the_end(rt: HostRuntime) {
    assert_eq!(rt; first_wrong(rt.alloc(), NO_READ_AFTER_THE_END, true), None);
}

// Each read and each write fails in turn, and both in the same upload.
const FAILURES: &[Row] = &[
    (LOAD, ALL, fails!(1, 1, 0), 6, &[FIRST], NOT_READ),
    (LOAD, ALL, fails!(1, 11, 0), 6, &[FIRST], NOT_READ),
    (LOAD, ALL, fails!(1, 21, 0), 6, &[FIRST, DEFINE], NOT_READ),
    (LOAD, ALL, fails!(100, 0, 1), 7, &[], NONE),
    (LOAD, ALL, fails!(100, 0, 2), 7, &[FIRST], NONE),
    (LOAD, ALL, fails!(100, 0, 3), 7, &[FIRST, DEFINE], NONE),
    // After a failed read the end frame may fail too.
    (LOAD, &[WROTE_FIRST], fails!(100, 1, 2), 7, &[FIRST], NONE),
    (LOAD, &[WROTE_FIRST], fails!(100, 2, 2), 7, &[FIRST], NONE),
];

#[test]
fn failing_ends(rt: HostRuntime) {
    assert_eq!(rt; first_wrong(rt.alloc(), FAILURES, false), None);
}

// So many packets of another port come first.
macro_rules! others {
    ($count:expr) => {
        Manner {
            others: $count,
            cuts: &[4096],
            read: 0,
            write: 0,
        }
    };
}

const FOUR_MILLION_FRAMES: &[Row] = &[
    (LOAD, &[b"\x51"], others!(4_000_000), 13, &[FIRST], TOO_MANY),
    (LOAD, &[b"\x51"], others!(3_999_999), 11, &[FIRST], NO_PLACE),
    (
        LOAD,
        &[WROTE_FIRST, WROTE_SECOND, DEFINED, b"\x51"],
        others!(3_999_997),
        0,
        &[FIRST, DEFINE],
        DONE,
    ),
];

#[test]
fn four_million_frames(rt: HostRuntime) {
    assert_eq!(rt; first_wrong(rt.alloc(), FOUR_MILLION_FRAMES, false), None);
}

const THOUSAND: Row = (
    LOAD,
    &[],
    Manner {
        others: 1000,
        cuts: &[],
        read: 0,
        write: 1,
    },
    7,
    &[],
    NONE,
);

// How many bytes a source has still to give, in at most 60 reads.
fn left_in(source: &mut MemSource) -> usize {
    let mut left: usize = 0;
    for _ in 0..60 {
        let mut buf = [0; 100];
        if let Ok(count) = source.read(&mut buf) {
            left = left.saturating_add(count);
        }
    }
    left
}

fn waits(alloc: Global) -> Result<bool, AllocError> {
    let mut ran = run(alloc, &THOUSAND, 100)?;
    Ok(ran.status == 7 && ran.sink.written().is_empty() && left_in(&mut ran.source) >= 1904)
}

// Where the first write fails no more is taken than waits.
#[test]
fn frames_wait_for_answers(rt: HostRuntime) {
    assert!(rt; matches!(waits(rt.alloc()), Ok(true)));
}

// ---- a source that waits for a sink

// Bytes that a source gives, and how many bytes have to be sent before it gives them.
const STEPS: [(u64, &[u8]); 4] = [
    (46, WROTE_FIRST),
    (46, b"T"),
    (59, WROTE_SECOND),
    (72, DEFINED),
];

// A source that shares a count with a sink: it gives a frame only where the count shows that those before it were
// answered, and else the end. After 1,000 reads it gives the end in any case. It tells no content.
#[derive(Drop)]
struct Waiting<'a> {
    sent: &'a Cell<u64>,
    given: &'a Cell<usize>,
    reads: u32,
}

impl<'a> Read for Waiting<'a> {
    fn read(&mut self, buf: &mut [u8]) -> io::Result<usize> {
        self.reads = self.reads.saturating_add(1);
        let given = self.given.get();
        if self.reads > 1000 || given >= STEPS.len() {
            return Ok(0);
        }
        let (before, frame) = STEPS[given];
        if self.sent.get() < before {
            return Ok(0);
        }
        self.given.set(given + 1);
        let count = frame.len().min(buf.len());
        buf[..count].copy_from_slice(&frame[..count]);
        Ok(count)
    }
}

// The sink, which counts the bytes that it took. It tells no content.
#[derive(Drop)]
struct Counting<'a> {
    sent: &'a Cell<u64>,
}

impl<'a> Sink for Counting<'a> {
    ghost written = { λ _. None };

    ghost faults = { λ _. 0 };

    fn write(&mut self, bytes: &[u8]) -> Result<usize, Failed> {
        self.sent
            .set(self.sent.get().saturating_add(bytes.len() as u64));
        Ok(bytes.len())
    }
}

// The status of an upload between these two, where it has memory.
fn shared(alloc: Global, sent: &Cell<u64>, given: &Cell<usize>) -> Result<u8, AllocError> {
    let mut source = StdSource::make(Waiting {
        sent,
        given,
        reads: 0,
    });
    let mut sink = Counting { sent };
    let mut parts = Parts::make();
    Ok(upload(&mut parts, &mut source, host_of(alloc, &LOAD)?, &mut sink))
}

// No answer waits for the next read.
#[test]
fn ends_share_a_count(rt: HostRuntime) {
    let sent = Cell::new(0);
    let given = Cell::new(0);
    assert!(rt; matches!(shared(rt.alloc(), &sent, &given), Ok(0)));
    assert!(rt; given.get() == 4);
    assert!(rt; sent.get() == 74);
}
