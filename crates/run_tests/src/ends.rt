//! Runs of the whole program over memory whose reads or writes fail, and over ends that never fail. What is written
//! then is known from outside: the line of a failed read, or a prefix of the output by arithmetic.
use byte_streams::{MemSink, MemSource, SureSink, SureSource};
use show_run::{run, run_surely};
use std::alloc::{AllocError, Global};

pub const SHOW: &[u8] =
    b"choreo 1\ndrone solo 0 0 1000000 0\ncue 2000\nsolo move 1000000 0 1000000 0\nend\n";

pub const PLAN: &[u8] = b"plan 1\ndrone solo bytes 28 pieces 1\n\
data 00 00 00 00 E8 03 00 00 03 D0 07 00 00 00 00 00 00 E8 03 E8 03 E8 03 E8 03 00 00 00\n\
write 4E 02 00 00 00 00 00 00 00 00 E8 03 00 00 03 D0 07 00 00 00 00 00 00 E8 03 E8 03 E8 03 E8\n\
write 4E 02 18 00 00 00 03 00 00 00\ndefine 8C 06 00 01 01 00 00 00 00 01\nstart 8C 05 00 00 00 00 00 00 80 3F\nend\n";

// Two drones that change places, one of them a metre higher than the other.
pub const APART: &[u8] =
    b"choreo 1\nellipsoid 120 300\ndrone a 0 0 1000000 0\ndrone b 1000000 0 1000000 0\n\
cue 3000\nb move 1000000 0 2000000 0\nend\ncue 3000\na move 1000000 0 1000000 0\nb move 0 0 2000000 0\nend\n\
cue 3000\nb move 0 0 1000000 0\nend\n";

// How a source or a sink behaves: the most bytes of a call, and the number of the call that fails.
#[derive(Clone, Copy)]
pub struct Manner {
    pub cut: usize,
    pub fails: u64,
}

pub const FINE: Manner = Manner {
    cut: 1000,
    fails: 0,
};

fn source_of(
    alloc: Global,
    front: &[u8],
    rest: &[u8],
    manner: Manner,
) -> Result<MemSource, AllocError> {
    let mut bytes = Vec::from_slice(alloc, front)?;
    bytes.extend_from_slice(rest)?;
    let fails = Vec::from_slice(alloc, &[manner.fails])?;
    Ok(MemSource::make(bytes, manner.cut.max(1), fails))
}

// The status of a run on an input in two halves, and the sink with what was written.
pub fn run_over(
    alloc: Global,
    words: &[&str],
    front: &[u8],
    rest: &[u8],
    reads: Manner,
    writes: Manner,
) -> Result<(u8, MemSink), AllocError> {
    let mut list = Vec::new(alloc);
    for word in words {
        list.push(String::from_str(alloc, word)?)?;
    }
    let mut source = source_of(alloc, front, rest, reads)?;
    let fails = Vec::from_slice(alloc, &[writes.fails])?;
    let mut sink = MemSink::make(alloc, 20_000, writes.cut.max(1), fails)?;
    let status = run(alloc, &list, &mut source, &mut sink);
    Ok((status, sink))
}

// The frames of the two writes of `SHOW`.
pub const FIRST: &[u8] =
    b"\x50\x01\x1E\x4E\x02\x00\x00\x00\x00\x00\x00\x00\x00\xE8\x03\x00\x00\x03\xD0\x07\x00\x00\x00\x00\x00\x00\xE8\x03\
    \xE8\x03\xE8\x03\xE8\x50\x01\x0A\x4E\x02\x18\x00\x00\x00\x03\x00\x00\x00";

// The frame of the define and the end frame of an upload that is done.
pub const DEFINE_AND_END: &[u8] = b"\x50\x01\x0A\x8C\x06\x00\x01\x01\x00\x00\x00\x00\x01\x45\x00";

// A marker line, and after it the answers to the writes and the define.
pub const ANSWERS: &[u8] =
    b"%%\n\x50\x01\x07\x4E\x02\x00\x00\x00\x00\x00\x50\x01\x07\x4E\x02\x18\x00\x00\x00\x00\x50\x01\x05\x8C\x06\x00\x01\
    \x00";

// The second text of a valid certificate for drones that keep apart, after its marker line
const PROOF: &[u8] = b"%%\ncertificate 6\nr\nl\na\n";

const READ: &[u8] = b"error 6 read\n";

// What a sink of 16 bytes a write has got of a plan, and of a verdict, where its second write fails.
const PLAN_START: &[u8] = b"plan 1\ndrone sol";

const VALID_START: &[u8] = b"valid depth 6 tr";

macro_rules! manner {
    ($cut:expr, $fails:expr) => {
        Manner {
            cut: $cut,
            fails: $fails,
        }
    };
}

const WHOLE: Manner = manner!(1000, 1);

const SECOND: Manner = manner!(1000, 2);

const TENS: Manner = manner!(10, 2);

const FIVES: Manner = manner!(5, 2);

const NARROW: Manner = manner!(16, 2);

// The word, the input in two halves, how the source and the sink behave, the status, and what is written, in two
// halves.
type Failure<'a> = (
    &'a str,
    &'a [u8],
    &'a [u8],
    Manner,
    Manner,
    u8,
    &'a [u8],
    &'a [u8],
);

const FAILURES: &[Failure] = &[
    ("compile", SHOW, b"", manner!(30, 1), FINE, 6, READ, b""),
    ("compile", SHOW, b"", manner!(30, 2), FINE, 6, READ, b""),
    ("compile", SHOW, b"", manner!(40, 3), FINE, 6, READ, b""),
    ("compile", SHOW, b"", FINE, NARROW, 7, PLAN_START, b""),
    (
        "compile",
        SHOW,
        b"",
        manner!(30, 1),
        manner!(30, 1),
        7,
        b"",
        b"",
    ),
    ("verify", APART, PROOF, manner!(112, 3), FINE, 6, READ, b""),
    ("verify", APART, PROOF, FINE, NARROW, 7, VALID_START, b""),
    ("play", SHOW, b"", FINE, manner!(30, 1), 7, b"", b""),
    ("boxes", SHOW, b"", TENS, FINE, 6, READ, b""),
    ("speed", SHOW, b"", TENS, FINE, 6, READ, b""),
    ("explain", SHOW, b"", TENS, FINE, 6, READ, b""),
    ("dynamics", SHOW, b"", TENS, FINE, 6, READ, b""),
    ("boxes", SHOW, b"", FINE, FIVES, 7, b"kept ", b""),
    ("speed", SHOW, b"", FINE, FIVES, 7, b"speed", b""),
    ("explain", SHOW, b"", FINE, FIVES, 7, b"separ", b""),
    ("dynamics", SHOW, b"", FINE, FIVES, 7, b"dynam", b""),
    // A read that fails comes before a fault of the show.
    (
        "rehearse",
        b"choreo 3\n",
        b"%%\ntock\n",
        SECOND,
        FINE,
        6,
        READ,
        b"",
    ),
    ("upload", SHOW, b"%%\n", WHOLE, FINE, 6, b"", b"\x45\x06"),
    // The marker line may still go on.
    ("upload", SHOW, b"%%", SECOND, FINE, 6, b"", b"\x45\x06"),
    (
        "upload",
        SHOW,
        b"%%\n\x50\x01\x07\x4E\x02\x00\x00\x00\x00\x00",
        SECOND,
        FINE,
        6,
        FIRST,
        b"\x45\x06",
    ),
    // After the upload is done nothing is read.
    (
        "upload",
        SHOW,
        ANSWERS,
        SECOND,
        FINE,
        0,
        FIRST,
        DEFINE_AND_END,
    ),
    ("upload", SHOW, ANSWERS, FINE, WHOLE, 7, b"", b""),
    ("upload", SHOW, ANSWERS, FINE, SECOND, 7, FIRST, b""),
];

// Whether a run ends so.
fn fails_so(alloc: Global, row: &Failure) -> Result<bool, AllocError> {
    let (word, front, rest, reads, writes, status, begun, end) = row;
    let (met, sink) = run_over(alloc, &[*word], front, rest, *reads, *writes)?;
    let written = sink.written();
    Ok(
        met == *status
            && written.starts_with(begun)
            && written.ends_with(end)
            && written.len() == begun.len().saturating_add(end.len()),
    )
}

#[test]
fn failures(rt: HostRuntime) {
    for (k, row) in FAILURES.iter().enumerate() {
        assert!(rt; matches!(fails_so(rt.alloc(), row), Ok(true)), "row {k}");
    }
}

// A word, the status, and what is written, over ends that never fail.
const SURE: &[(&str, u8, &[u8])] = &[
    ("check", 0, b"ok drones 1 cues 1 duration_ms 2000\n"),
    ("compile", 0, PLAN),
    ("upload", 8, b"P\x01\x1eN\x02\x00"),
];

// Whether a run over them ends so, with room for no more than that.
fn ends_so(alloc: Global, word: &str, status: u8, written: &[u8]) -> Result<bool, AllocError> {
    let mut words = Vec::new(alloc);
    words.push(String::from_str(alloc, word)?)?;
    let mut source = SureSource::make(Vec::from_slice(alloc, SHOW)?);
    let mut sink = SureSink::make(alloc, written.len())?;
    let met = run_surely(alloc, &words, &mut source, &mut sink);
    Ok(met == status && sink.kept() == written)
}

#[test]
fn ends_that_never_fail(rt: HostRuntime) {
    for &(word, status, written) in SURE {
        assert!(rt;
            matches!(ends_so(rt.alloc(), word, status, written), Ok(true)),
            "{word}"
        );
    }
}
