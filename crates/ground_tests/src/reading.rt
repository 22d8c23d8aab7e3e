//! What the tests read of a source.
use byte_streams::{Failed, IoFault, Part, Parts, Source};
use std::alloc::Global;

// The most bytes of a part that is read.
const LIMIT: usize = 10_000;

/// The first two parts of a source.
pub fn two_parts<S: Source>(alloc: Global, source: &mut S) -> Result<(Part, Part), IoFault> {
    let mut parts = Parts::make();
    let first = parts.text(alloc, source, LIMIT)?;
    let second = parts.text(alloc, source, LIMIT)?;
    Ok((first, second))
}

/// What a source gives up to its end, in at most three reads of 6,000 bytes.
pub fn all_of<S: Source>(alloc: Global, source: &mut S) -> Result<Vec<u8>, IoFault> {
    let mut buffer = [0u8; 6000];
    let mut given = Vec::new(alloc);
    for _ in 0..3 {
        match source.read(&mut buffer) {
            Ok(0) => return Ok(given),
            Ok(count) => given.extend_from_slice(&buffer[..count])?,
            Err(Failed) => return Err(IoFault::Read),
        }
    }
    Err(IoFault::TooLong)
}
