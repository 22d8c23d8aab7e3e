//! Parts of an input, whole and byte by byte, under reads of any size and with reads that fail.
use crate::reading::two_parts;
use byte_streams::{Ask, Failed, IoFault, MemSource, Parts, Source};
use std::alloc::{AllocError, Global};

// The most bytes of a part that is read.
const LIMIT: usize = 100;

// A source of these bytes, the given number of bytes a call, whose call with this number fails.
fn source_of(alloc: Global, input: &[u8], cut: usize, fails: u64) -> Result<MemSource, AllocError> {
    let bytes = Vec::from_slice(alloc, input)?;
    Ok(MemSource::make(bytes, cut.max(1), Vec::from_slice(alloc, &[fails])?))
}

// An input; its first part, whether a marker line ends that, and its second part.
const PARTS_UNDER_ANY_CUT: &[(&[u8], &[u8], bool, &[u8])] = &[
    (b"", b"", false, b""),
    (b"a\nb", b"a\nb", false, b""),
    (b"a\n%%\nb\n", b"a\n", true, b"b\n"),
    (b"a\n%%\r\n\nb", b"a\n", true, b"\nb"),
    (b"a\n%%", b"a\n", true, b""),
    (b"%%\r", b"", true, b""),
    (
        b" %%\n%% \n%%#\n%%\r\r\n%\n",
        b" %%\n%% \n%%#\n%%\r\r\n%\n",
        false,
        b"",
    ),
    (b"%%\n%%\n", b"", true, b""),
];

fn are_parts(
    alloc: Global,
    input: &[u8],
    cut: usize,
    wanted: &[u8],
    marker: bool,
    rest: &[u8],
) -> bool {
    let Ok(mut source) = source_of(alloc, input, cut, 0) else {
        return false;
    };
    match two_parts(alloc, &mut source) {
        Ok((first, second)) => {
            first.marker == marker
                && first.bytes.as_slice() == wanted
                && second.bytes.as_slice() == rest
        }
        Err(_) => false,
    }
}

const CUTS: &[usize] = &[1, 2, 3, 5, 100];

#[test]
fn parts_under_any_cut(rt: HostRuntime) {
    for &(input, wanted, marker, rest) in PARTS_UNDER_ANY_CUT {
        for &cut in CUTS {
            let found = are_parts(rt.alloc(), input, cut, wanted, marker, rest);
            assert!(rt; found, "{input:?} by {cut}");
        }
    }
}

// The input, its limit, the number of the read that fails, and the fault or the part.
const REFUSALS: &[(&[u8], usize, u64, Result<&[u8], IoFault>)] = &[
    (b"abc\n%%\n", 3, 0, Err(IoFault::TooLong)),
    (b"abcd", 3, 0, Err(IoFault::TooLong)),
    (b"abc\n%%\n", 9, 2, Err(IoFault::Read)),
    (b"abc", 9, 3, Err(IoFault::Read)),
    (b"abc\n%%\n", 4, 0, Ok(b"abc\n")),
];

// Whether this is the first part of an input, of which a read with this number fails. The reader is sound after a part.
fn is_first(
    alloc: Global,
    input: &[u8],
    limit: usize,
    fails: u64,
    wanted: Result<&[u8], IoFault>,
) -> bool {
    let Ok(mut source) = source_of(alloc, input, 2, fails) else {
        return false;
    };
    let mut parts = Parts::make();
    let found = match parts.text(alloc, &mut source, limit.min(LIMIT)) {
        Ok(part) => matches!(wanted, Ok(bytes) if part.bytes.as_slice() == bytes),
        Err(fault) => matches!(wanted, Err(other) if fault == other),
    };
    found && parts.sound() == wanted.is_ok()
}

#[test]
fn refusals(rt: HostRuntime) {
    for &(input, limit, fails, wanted) in REFUSALS {
        let found = is_first(rt.alloc(), input, limit, fails, wanted);
        assert!(rt; found, "{input:?} within {limit}");
    }
}

// The next byte, from a reader that may still be asked.
fn next_byte<S: Source>(parts: &mut Parts, source: &mut S) -> Result<Option<u8>, Failed> {
    if !parts.sound() || parts.ended() {
        return Ok(None);
    }
    parts.byte(source)
}

// Bytes after a part, one by one.
const AFTER: &[Option<u8>] = &[Some(b'b'), Some(b'\n'), Some(b'%'), Some(b'%'), None];

// Whether they come one by one, and the end is met once.
fn are_next<S: Source>(parts: &mut Parts, source: &mut S) -> bool {
    for byte in AFTER {
        if parts.ended() || next_byte(parts, source) != Ok(*byte) {
            return false;
        }
    }
    !parts.lines() && parts.ended() && parts.sound()
}

fn come_after_a_part(alloc: Global, cut: usize) -> bool {
    let Ok(mut source) = source_of(alloc, b"a\n%%\nb\n%%", cut, 0) else {
        return false;
    };
    let mut parts = Parts::make();
    let is_part = match parts.text(alloc, &mut source, 10) {
        Ok(part) => part.bytes.as_slice() == b"a\n".as_slice(),
        Err(_) => false,
    };
    is_part && parts.lines() && are_next(&mut parts, &mut source)
}

// A failed read ends the calls.
fn fails_between_bytes(alloc: Global) -> bool {
    let Ok(mut source) = source_of(alloc, b"ab", 1, 2) else {
        return false;
    };
    let mut parts = Parts::make();
    matches!(next_byte(&mut parts, &mut source), Ok(Some(b'a')))
        && matches!(next_byte(&mut parts, &mut source), Err(Failed))
        && !parts.sound()
}

const CUTS_AFTER: &[usize] = &[1, 2, 3, 100];

#[test]
fn bytes_after_a_part(rt: HostRuntime) {
    for &cut in CUTS_AFTER {
        assert!(rt; come_after_a_part(rt.alloc(), cut), "by {cut}");
    }
    assert!(rt; fails_between_bytes(rt.alloc()));
}

// What `part_bytes` gives of an input to its end: its bytes, and `^` for each marker line.
fn asked(alloc: Global, input: &[u8], cut: usize, fails: u64) -> Result<Vec<u8>, IoFault> {
    let mut source = source_of(alloc, input, cut, fails)?;
    let mut parts = Parts::make();
    let mut given = Vec::new(alloc);
    'asks: for _ in 0..5000 {
        match parts.part_bytes(&mut source) {
            Ok(Ask::Bytes { count }) => {
                given.extend_from_slice(&parts.waiting()[..count])?;
                parts.consume(count);
            }
            Ok(Ask::Marker) => given.push(b'^')?,
            Ok(Ask::End) => return Ok(given),
            Err(Failed) => return Err(IoFault::Read),
        }
    }
    Ok(given)
}

const PARTS_BYTE_BY_BYTE: &[(&[u8], &[u8])] = &[
    (b"", b""),
    (b"%", b"%"),
    (b"%%", b"^"),
    (b"\n%%\r", b"\n^"),
    (b"%%\r\r\n", b"%%\r\r\n"),
    (b" %%\n%% \n%%#\n", b" %%\n%% \n%%#\n"),
    (b"%%\n%%\n", b"^^"),
    (b"a\n%%\nb%%\n%%\r\n%%a\n%%", b"a\n^b%%\n^%%a\n^"),
    (b"%%%\n%\n%%\n", b"%%%\n%\n^"),
];

fn gives(alloc: Global, input: &[u8], cut: usize, wanted: &[u8]) -> bool {
    match asked(alloc, input, cut, 0) {
        Ok(given) => given.as_slice() == wanted,
        Err(_) => false,
    }
}

#[test]
fn parts_byte_by_byte(rt: HostRuntime) {
    for &(input, wanted) in PARTS_BYTE_BY_BYTE {
        for &cut in CUTS {
            assert!(rt; gives(rt.alloc(), input, cut, wanted), "{input:?} by {cut}");
        }
    }
    assert!(rt; matches!(asked(rt.alloc(), b"%%\n", 1, 3), Err(IoFault::Read)));
}

// A marker line that stands across the end of the reader's 4,096 bytes.
fn stands_across(alloc: Global, size: usize) -> Result<bool, AllocError> {
    let mut input = Vec::from_elem(alloc, b'x', size)?;
    let mut wanted = Vec::from_elem(alloc, b'x', size)?;
    input.extend_from_slice(b"\n%%\r\ny")?;
    wanted.extend_from_slice(b"\n^y")?;
    Ok(gives(alloc, &input, 5000, &wanted))
}

#[test]
fn marker_line_across_the_buffer(rt: HostRuntime) {
    for size in 4092..4097 {
        assert!(rt;
            matches!(stands_across(rt.alloc(), size), Ok(true)),
            "after {size} bytes"
        );
    }
}

// The first bytes of the input, the fault, and the bytes that are left: one read of 4,096 bytes.
const READS_LITTLE: &[(&[u8], Option<IoFault>, usize)] = &[
    (b"a\n%%\n", None, 15909),
    (b"aaaaaaaaaaa", Some(IoFault::TooLong), 15915),
    (b"aaaaaaaaaa\n%%\n", Some(IoFault::TooLong), 15918),
];

// How many bytes of 20,000 a reader takes for a part of at most 10 bytes.
fn reads_so(alloc: Global, front: &[u8], wanted: Option<IoFault>, left: usize) -> bool {
    let Ok(mut bytes) = Vec::from_slice(alloc, front) else {
        return false;
    };
    if bytes.extend_from_slice(&[b'x'; 20000]).is_err() {
        return false;
    }
    let mut source = MemSource::make(bytes, 20100, Vec::new(alloc));
    let fault = Parts::make().text(alloc, &mut source, 10).err();
    fault == wanted && source.read(&mut [0u8; 20100]) == Ok(left)
}

#[test]
fn reads_little(rt: HostRuntime) {
    for &(front, wanted, left) in READS_LITTLE {
        assert!(rt; reads_so(rt.alloc(), front, wanted, left), "{front:?}");
    }
}
