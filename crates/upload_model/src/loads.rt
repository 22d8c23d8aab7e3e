//! What is uploaded to a drone, and what the drone's table says of it.

use listed::Listed;

/// What is to be uploaded to one drone: a trajectory's bytes, and how many segments it has.
#[derive(Drop)]
pub struct Load {
    pub bytes: Listed<u8>,
    pub pieces: u8,
}

/// An entry of a drone's table: where in its memory a trajectory begins, and how many segments it
/// has.
#[derive(Clone, Copy, PartialEq, Eq)]
pub struct Def {
    pub offset: u32,
    pub pieces: u8,
}
