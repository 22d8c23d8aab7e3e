//! Readers of std as pipes, terminals and broken files are, under `StdSource`: what the source hands on, and what
//! `Parts` says.
use byte_streams::{IoFault, Parts, StdSource};
use std::alloc::Global;
use std::cell::Cell;
use std::io::{self, ErrorKind, Read};

// What one read of a reader does.
#[derive(Clone, Copy)]
enum Step<'a> {
    Gives(&'a [u8]),
    Ends,
    Fails,
}

// A reader that takes one step a read, and ends after the last.
#[derive(Drop)]
struct Scripted<'a> {
    steps: &'a [Step<'a>],
    reads: &'a Cell<usize>,
}

impl<'a> Read for Scripted<'a> {
    fn read(&mut self, buf: &mut [u8]) -> io::Result<usize> {
        let read = self.reads.get();
        self.reads.set(read.saturating_add(1));
        match self.steps.get(read) {
            Some(Step::Gives(bytes)) => {
                let count = bytes.len().min(buf.len());
                buf[..count].copy_from_slice(&bytes[..count]);
                Ok(count)
            }
            Some(Step::Fails) => Err(io::Error::from(ErrorKind::WouldBlock)),
            Some(Step::Ends) | None => Ok(0),
        }
    }
}

// What a reader of parts says of two texts in turn, and whether it met the end.
#[derive(Drop)]
struct Said {
    first: Result<Vec<u8>, IoFault>,
    second: Result<Vec<u8>, IoFault>,
    ended: bool,
    reads: usize,
}

// Two texts of a reader that takes these steps. After a fault none is asked for.
fn two_texts(alloc: Global, steps: &[Step<'_>]) -> Said {
    let reads = Cell::new(0);
    let mut source = StdSource::make(Scripted {
        steps,
        reads: &reads,
    });
    let mut parts = Parts::make();
    let first = match parts.text(alloc, &mut source, 100) {
        Ok(part) => Ok(part.bytes),
        Err(fault) => Err(fault),
    };
    let second = if first.is_ok() {
        match parts.text(alloc, &mut source, 100) {
            Ok(part) => Ok(part.bytes),
            Err(fault) => Err(fault),
        }
    } else {
        Err(IoFault::Read)
    };
    Said {
        first,
        second,
        ended: parts.ended(),
        reads: reads.get(),
    }
}

// Whether the first steps of a reader give these bytes.
fn are_handed(steps: &[Step<'_>], reads: usize, log: &[u8]) -> bool {
    let mut rest = log;
    for step in &steps[..reads.min(steps.len())] {
        if let Step::Gives(piece) = step {
            if !rest.starts_with(piece) {
                return false;
            }
            rest = &rest[piece.len()..];
        }
    }
    rest.is_empty()
}

// What a reader does; then how often it was read, what it gave by then, which is what the source's log has, the two
// texts, and whether the end was met.
#[derive(Clone, Copy)]
struct Row<'a> {
    steps: &'a [Step<'a>],
    reads: usize,
    log: &'a [u8],
    first: Result<&'a [u8], IoFault>,
    second: Result<&'a [u8], IoFault>,
    ended: bool,
}

fn is_text(text: &Result<Vec<u8>, IoFault>, wanted: Result<&[u8], IoFault>) -> bool {
    match (text, wanted) {
        (Ok(bytes), Ok(other)) => bytes.as_slice() == other,
        (Err(fault), Err(other)) => *fault == other,
        _ => false,
    }
}

// A text that a failed read cut off.
const FAILED: Result<&[u8], IoFault> = Err(IoFault::Read);

const ROWS: &[Row<'static>] = &[
    // A byte at a time: the second text ends at the end.
    Row {
        steps: &[
            Step::Gives(b"a"),
            Step::Gives(b"\n"),
            Step::Gives(b"%"),
            Step::Gives(b"%"),
            Step::Gives(b"\n"),
            Step::Gives(b"b"),
        ],
        reads: 7,
        log: b"a\n%%\nb",
        first: Ok(b"a\n"),
        second: Ok(b"b"),
        ended: true,
    },
    // It fails in mid-stream: no text, and nothing more is read.
    Row {
        steps: &[Step::Gives(b"a\nb"), Step::Fails, Step::Gives(b"\n%%\n")],
        reads: 2,
        log: b"a\nb",
        first: FAILED,
        second: FAILED,
        ended: false,
    },
    // It fails after the first text: that one stands.
    Row {
        steps: &[Step::Gives(b"a\n%%\nb"), Step::Fails],
        reads: 2,
        log: b"a\n%%\nb",
        first: Ok(b"a\n"),
        second: FAILED,
        ended: false,
    },
    // It fails at once, and would give bytes afterwards: a failed read isn't tried again.
    Row {
        steps: &[Step::Fails, Step::Gives(b"a\n%%\nb")],
        reads: 1,
        log: b"",
        first: FAILED,
        second: FAILED,
        ended: false,
    },
    // It ends twice: it is read to its first end alone, and the second text has no bytes.
    Row {
        steps: &[Step::Gives(b"ab"), Step::Ends, Step::Ends],
        reads: 2,
        log: b"ab",
        first: Ok(b"ab"),
        second: Ok(b""),
        ended: true,
    },
    // It goes on after its end, as a terminal does: what it would give then belongs to no text.
    Row {
        steps: &[Step::Gives(b"a\n"), Step::Ends, Step::Gives(b"%%\nb")],
        reads: 2,
        log: b"a\n",
        first: Ok(b"a\n"),
        second: Ok(b""),
        ended: true,
    },
    // It ends at once.
    Row {
        steps: &[Step::Ends, Step::Gives(b"a")],
        reads: 1,
        log: b"",
        first: Ok(b""),
        second: Ok(b""),
        ended: true,
    },
];

fn is_met(alloc: Global, row: &Row<'_>) -> bool {
    let said = two_texts(alloc, row.steps);
    said.reads == row.reads
        && said.ended == row.ended
        && is_text(&said.first, row.first)
        && is_text(&said.second, row.second)
        && are_handed(row.steps, said.reads, row.log)
}

#[test]
fn readers_of_every_kind(rt: HostRuntime) {
    for (k, row) in ROWS.iter().enumerate() {
        assert!(rt; is_met(rt.alloc(), row), "row {k}");
    }
}
