//! Each failure once: the row of each command over ends that cut to 16 bytes, with each read failing in turn, and with
//! each write. What is written then is the line of a failed read, or a prefix of the row's output by arithmetic.
use crate::ends::{ANSWERS, APART, DEFINE_AND_END, FIRST, Manner, PLAN, SHOW, run_over};
use std::alloc::{AllocError, Global};

const CUT: usize = 16;

const START: &[u8] = b"choreo 1\ndrone solo 0 0 1000000 0\n";

// Two drones that change places at one height.
const CROSSING: &[u8] =
    b"choreo 1\nellipsoid 120 300\ndrone a 0 0 1000000 0\ndrone b 1000000 0 1000000 0\n\
cue 3000\na move 1000000 0 1000000 0\nb move 0 0 1000000 0\nend\n";

const HELP: &[u8] = b"help\ncheck [--depth D]\ncompile [--depth D]\ncertify [--depth D]\n\
play [--depth D] [--step MS]\nreport [--depth D]\nverify\nrehearse [--depth D] [--start] [--readback]\n\
upload [--depth D] [--start] [--readback]\n\
direct [--depth D] [--near MM] [--at MM] [--silence MS] [--floor MM] [--descent MS] [--then land|fly]\n\
drill N [--depth D]\n\
boxes [--depth D]\nspeed [--depth D] [--limit V]\nexplain [--depth D] [--fine E] [--all]\n\
dynamics [--depth D] [--accel A] [--jump J]\nversion\n";

const VERSION: &[u8] = b"hemtoghai 0.2.0\n";

// A drone that moves a metre along x in two seconds: its first, middle and last instants.
const ROWS: &[u8] =
    b"0 solo 0 0 1000000 0\n1000 solo 500000 0 1000000 0\n2000 solo 1000000 0 1000000 0\n";

// Words, the input in two halves, the status, and what is written, piece by piece as it goes out.
type Row<'a> = (&'a [&'a str], &'a [u8], &'a [u8], u8, &'a [&'a [u8]]);

const CERTIFICATE: &[u8] = b"%%\ncertificate 6\nr\nl\na\n";

// The rows of the commands that read their input to its end.
const TO_THE_END: &[Row] = &[
    (
        &["check"],
        APART,
        b"",
        0,
        &[b"ok drones 2 cues 3 duration_ms 9000\n"],
    ),
    (&["compile"], SHOW, b"", 0, &[PLAN]),
    (
        &["compile"],
        CROSSING,
        b"",
        5,
        &[b"error 5 pair a b cue 1 part 28 of 64\n"],
    ),
    (
        &["certify"],
        APART,
        b"",
        0,
        &[b"version 2\ncertificate 6\n58\n46\n00\n"],
    ),
    (&["play", "--step", "1000"], SHOW, b"", 0, &[ROWS]),
    (
        &["report"],
        SHOW,
        b"",
        0,
        &[
            b"{\"bytes\":[28],\"cues\":1,\"drones\":[\"solo\"],\"duration_ms\":2000,\"nodes\":0,\"packets\":[3]}\n",
        ],
    ),
    (
        &["verify"],
        APART,
        CERTIFICATE,
        0,
        &[b"valid depth 6 trees 3\n"],
    ),
    (
        &["rehearse"],
        SHOW,
        b"%%\ntake solo 1\n",
        8,
        &[b"error 8 ended\n"],
    ),
    (
        &["boxes"],
        SHOW,
        b"%%\nkeepout 400 200 0 600 400 2000\n",
        0,
        &[b"kept regions 1\n"],
    ),
    (&["speed"], SHOW, b"", 0, &[b"speed solo 1093750 0 0\n"]),
    (&["explain"], SHOW, b"", 0, &[b"separated\n"]),
    (
        &["dynamics"],
        SHOW,
        b"",
        0,
        &[
            b"dynamics solo acceleration 1878895 0 0 jump 0 cue 1 0 cue 1 0 cue 1 begins rest ends rest\n\
greatest acceleration 1878895 0 0 jump 0 0 0\n",
        ],
    ),
    // The second text of a show that is refused is read to its end too.
    (&["verify"], START, CERTIFICATE, 3, &[NO_CUE]),
    (&["rehearse"], START, b"%%\ntake solo 1\n", 3, &[NO_CUE]),
    (
        &["boxes"],
        START,
        b"%%\nkeepout 400 200 0 600 400 2000\n",
        3,
        &[NO_CUE],
    ),
];

const NO_CUE: &[u8] = b"error 3 line 1 no-cue\n";

// The rows of the commands that read nothing.
const OTHERS: &[Row] = &[
    (&["help"], b"", b"", 0, &[HELP]),
    (&["drill", "2"], b"", b"", 0, &[DRILL]),
    (&["version"], b"", b"", 0, &[VERSION]),
];

// The upload reads until it is done.
const UPLOAD: Row = (&["upload"], SHOW, ANSWERS, 0, &[FIRST, DEFINE, END]);

// The frame of the define, and the end frame of an upload that is done.
const DEFINE: &[u8] = b"\x50\x01\x0A\x8C\x06\x00\x01\x01\x00\x00\x00\x00\x01";

const END: &[u8] = b"\x45\x00";

const DRILL: &[u8] = b"drones 2 cues 40 pairs 1 bytes 1102 packets 49 nodes 40\n";

fn failing(call: u64) -> Manner {
    Manner {
        cut: CUT,
        fails: call,
    }
}

// Whether a run over ends that cut to 16 bytes, of which this read and this write fail, ends so.
fn is_met(
    alloc: Global,
    row: &Row,
    read: u64,
    write: u64,
    status: u8,
    written: &[u8],
) -> Result<bool, AllocError> {
    let (words, front, rest, _, _) = row;
    let (met, sink) = run_over(alloc, words, front, rest, failing(read), failing(write))?;
    Ok(met == status && sink.written() == written)
}

// Whether write after write fails as it must: those before it went out, and no byte of it or after it.
fn fails_at_each_write(alloc: Global, row: &Row) -> Result<bool, AllocError> {
    let (_, _, _, status, pieces) = row;
    let mut so_far = Vec::new(alloc);
    let mut call = 1u64;
    for piece in pieces.iter() {
        for chunk in piece.chunks(CUT) {
            if !is_met(alloc, row, 0, call, 7, so_far.as_slice())? {
                return Ok(false);
            }
            so_far.extend_from_slice(chunk)?;
            call = call.saturating_add(1);
        }
    }
    is_met(alloc, row, 0, call, *status, so_far.as_slice())
}

// Whether read after read fails as it must, up to the one that meets the input's end; a failure after it isn't met.
fn fails_at_each_read(alloc: Global, row: &Row) -> Result<bool, AllocError> {
    let (_, front, rest, status, pieces) = row;
    let bytes = front.len().saturating_add(rest.len());
    let reads = (bytes.div_ceil(CUT) as u64).saturating_add(1);
    for call in 1..=reads {
        if !is_met(alloc, row, call, 0, 6, b"error 6 read\n")? {
            return Ok(false);
        }
    }
    match pieces.first() {
        Some(whole) => is_met(alloc, row, reads.saturating_add(1), 0, *status, whole),
        None => Ok(false),
    }
}

#[test]
fn each_write_fails(rt: HostRuntime) {
    for (k, row) in TO_THE_END.iter().enumerate() {
        assert!(rt;
            matches!(fails_at_each_write(rt.alloc(), row), Ok(true)),
            "row {k}"
        );
    }
    for (k, row) in OTHERS.iter().enumerate() {
        assert!(rt;
            matches!(fails_at_each_write(rt.alloc(), row), Ok(true)),
            "other {k}"
        );
    }
    assert!(rt; matches!(fails_at_each_write(rt.alloc(), &UPLOAD), Ok(true)));
}

// Whether all is written where the first read would fail.
fn reads_nothing(alloc: Global, row: &Row) -> Result<bool, AllocError> {
    match row.4.first() {
        Some(whole) => is_met(alloc, row, 1, 0, row.3, whole),
        None => Ok(false),
    }
}

#[test]
fn each_read_fails(rt: HostRuntime) {
    for (k, row) in TO_THE_END.iter().enumerate() {
        assert!(rt;
            matches!(fails_at_each_read(rt.alloc(), row), Ok(true)),
            "row {k}"
        );
    }
    for (k, row) in OTHERS.iter().enumerate() {
        assert!(rt;
            matches!(reads_nothing(rt.alloc(), row), Ok(true)),
            "other {k}"
        );
    }
}

// Five reads bring the show and the marker line, two the three answers, and after them the upload is done: the read
// that fails, the status, and what is written, in two halves.
const READS_OF_AN_UPLOAD: &[(u64, u8, &[u8], &[u8])] = &[
    (1, 6, b"", NOT_READ),
    (2, 6, b"", NOT_READ),
    (3, 6, b"", NOT_READ),
    (4, 6, b"", NOT_READ),
    (5, 6, b"", NOT_READ),
    (6, 6, FIRST, NOT_READ),
    (7, 6, FIRST, NOT_READ),
    (8, 0, FIRST, DEFINE_AND_END),
];

const NOT_READ: &[u8] = b"\x45\x06";

// Whether the upload ends so where this read fails.
fn uploads_so(
    alloc: Global,
    read: u64,
    status: u8,
    begun: &[u8],
    end: &[u8],
) -> Result<bool, AllocError> {
    let mut wanted = Vec::from_slice(alloc, begun)?;
    wanted.extend_from_slice(end)?;
    is_met(alloc, &UPLOAD, read, 0, status, wanted.as_slice())
}

#[test]
fn each_read_of_an_upload_fails(rt: HostRuntime) {
    for &(read, status, begun, end) in READS_OF_AN_UPLOAD {
        assert!(rt;
            matches!(uploads_so(rt.alloc(), read, status, begun, end), Ok(true)),
            "read {read}"
        );
    }
}

// Second texts that a marker line ends, which may not be there.
const MARKED: &[Row] = &[
    (
        &["verify"],
        APART,
        b"%%\ncertificate 6\nr\nl\na\n%%\n",
        11,
        &[b"error 11 line 5\n"],
    ),
    (
        &["rehearse"],
        SHOW,
        b"%%\ntake solo 1\n%%\n",
        11,
        &[b"error 11 line 2\n"],
    ),
    (
        &["boxes"],
        SHOW,
        b"%%\nkeepout 400 200 0 600 400 2000\n%%\n",
        11,
        &[b"error 11 line 2\n"],
    ),
];

// Whether the read that brings the end of the second marker line is met, and none after it, where more bytes come.
fn stops_after(alloc: Global, row: &Row) -> Result<bool, AllocError> {
    let (words, front, rest, status, pieces) = row;
    let reads = front.len().saturating_add(rest.len()).div_ceil(CUT) as u64;
    let mut more = Vec::from_slice(alloc, rest)?;
    more.extend_from_slice(SHOW)?;
    let longer: Row = (words, front, more.as_slice(), *status, pieces);
    if !is_met(alloc, &longer, reads, 0, 6, b"error 6 read\n")? {
        return Ok(false);
    }
    match pieces.first() {
        Some(whole) => is_met(alloc, &longer, reads.saturating_add(1), 0, *status, whole),
        None => Ok(false),
    }
}

#[test]
fn no_read_after_a_second_marker_line(rt: HostRuntime) {
    for (k, row) in MARKED.iter().enumerate() {
        assert!(rt; matches!(stops_after(rt.alloc(), row), Ok(true)), "row {k}");
    }
}
