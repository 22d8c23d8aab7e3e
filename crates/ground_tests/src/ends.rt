//! The two ends: over memory, and over readers and writers of std.
use crate::reading::{all_of, two_parts};
use byte_streams::{
    Failed, MemSink, Sink, Source, StdSink, StdSource, SureSink, SureSource, write_whole,
};
use std::alloc::{AllocError, Global};
use std::io::Cursor;

// This many bytes, of which none is equal to one that stands less than 251 places away.
fn counting(alloc: Global, len: u32) -> Result<Vec<u8>, AllocError> {
    let mut bytes = Vec::new(alloc);
    for i in 0..len {
        bytes.push((i % 251) as u8)?;
    }
    Ok(bytes)
}

// A source over a reader of std loses no byte and gives none twice, in reads of more than 4,096 bytes too.
fn a_reader_gives_all(alloc: Global, bytes: &[u8]) -> bool {
    let mut source = StdSource::make(bytes);
    match all_of(alloc, &mut source) {
        Ok(given) => given.as_slice() == bytes,
        Err(_) => false,
    }
}

// Whether the first two parts of a source are these.
fn are_parts<S: Source>(alloc: Global, source: &mut S, first: &[u8], second: &[u8]) -> bool {
    match two_parts(alloc, source) {
        Ok((one, other)) => one.bytes.as_slice() == first && other.bytes.as_slice() == second,
        Err(_) => false,
    }
}

// A part of more than two buffers of 4,096 bytes, and what stands after it.
fn a_reader_gives_parts(alloc: Global) -> Result<bool, AllocError> {
    let mut wanted = counting(alloc, 9_000)?;
    wanted.push(b'\n')?;
    let mut input = wanted.clone()?;
    input.extend_from_slice(b"%%\nrest")?;
    let mut source = StdSource::make(Cursor::new(input));
    Ok(are_parts(alloc, &mut source, wanted.as_slice(), b"rest"))
}

fn a_source_that_never_fails(alloc: Global) -> bool {
    match Vec::from_slice(alloc, b"a\n%%\nb") {
        Ok(bytes) => are_parts(alloc, &mut SureSource::make(bytes), b"a\n", b"b"),
        Err(_) => false,
    }
}

#[test]
fn sources(rt: HostRuntime) {
    let Ok(bytes) = counting(rt.alloc(), 10_000) else {
        panic!(rt; "out of memory");
    };
    assert!(rt; a_reader_gives_all(rt.alloc(), bytes.as_slice()));
    assert!(rt; matches!(a_reader_gives_parts(rt.alloc()), Ok(true)));
    assert!(rt; a_source_that_never_fails(rt.alloc()));
}

// Whether bytes are written by a sink, at once and then in two parts.
fn are_written<K: Sink>(sink: &mut K, bytes: &[u8]) -> Result<(), Failed> {
    let (front, rest) = bytes.split_at(bytes.len() / 2);
    write_whole(sink, bytes)?;
    write_whole(sink, front)?;
    write_whole(sink, rest)
}

// A sink over a writer of std hands on each byte once, in writes of more than 4,096 bytes too.
fn a_writer_takes_all(alloc: Global, bytes: &[u8]) -> bool {
    let mut written = Vec::new(alloc);
    are_written(&mut StdSink::make(&mut written), bytes).is_ok() && is_twice(&written, bytes)
}

// Whether a text is these bytes, and then the same once more.
fn is_twice(text: &[u8], bytes: &[u8]) -> bool {
    match text.strip_prefix(bytes) {
        Some(rest) => rest == bytes,
        None => false,
    }
}

fn a_sink_that_never_fails(alloc: Global) -> bool {
    match SureSink::make(alloc, 5) {
        Ok(mut sink) => {
            write_whole(&mut sink, b"for").is_ok()
                && write_whole(&mut sink, b"wards").is_ok()
                && matches!(sink.write(b"!"), Ok(1))
                && sink.kept() == b"forwa".as_slice()
        }
        Err(_) => false,
    }
}

// The room, the number of the write that fails, whether all went out, and what did.
const WRITES: &[(usize, u64, bool, &[u8])] = &[
    (9, 0, true, b"forwards"),
    (9, 2, false, b"for"),
    (7, 0, false, b"forward"),
];

// A sink with this room, three bytes a write, whose write with this number fails.
fn sink_of(alloc: Global, room: usize, fails: u64) -> Result<MemSink, AllocError> {
    MemSink::make(alloc, room, 3, Vec::from_slice(alloc, &[fails])?)
}

fn writes(alloc: Global, row: &(usize, u64, bool, &[u8])) -> bool {
    match sink_of(alloc, row.0, row.1) {
        Ok(mut sink) => {
            write_whole(&mut sink, b"forwards").is_ok() == row.2 && sink.written() == row.3
        }
        Err(_) => false,
    }
}

#[test]
fn sinks(rt: HostRuntime) {
    let Ok(bytes) = counting(rt.alloc(), 10_000) else {
        panic!(rt; "out of memory");
    };
    assert!(rt; a_writer_takes_all(rt.alloc(), bytes.as_slice()));
    assert!(rt; a_sink_that_never_fails(rt.alloc()));
    for (k, row) in WRITES.iter().enumerate() {
        assert!(rt; writes(rt.alloc(), row), "row {k}");
    }
}

// A full writer takes nothing, and that is a failure.
#[test]
fn a_full_writer_fails(rt: HostRuntime) {
    let mut buffer = [0u8; 3];
    let mut sink = StdSink::make(&mut buffer[..]);
    let first = sink.write(b"abcd") == Ok(3);
    let second = sink.write(b"d") == Err(Failed);
    assert!(rt; first && second);
}
