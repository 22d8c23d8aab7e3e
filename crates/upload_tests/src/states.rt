//! How a drone is.

use firmware_memory::{Def, Drone};

// A drone: where some bytes of its memory are, and which; the first entry of its table, and what it has started. All
// else is blank.
pub(crate) type State<'a> = (usize, &'a [u8], Option<Def>, Option<u8>);

fn are_blank(bytes: &[u8]) -> bool {
    for byte in bytes {
        if *byte != 0xFF {
            return false;
        }
    }
    true
}

fn has_bytes(memory: &[u8], at: usize, bytes: &[u8]) -> bool {
    if at > memory.len() {
        return false;
    }
    let rest = &memory[at..];
    are_blank(&memory[..at]) && rest.starts_with(bytes) && are_blank(&rest[bytes.len()..])
}

pub(crate) fn is_so(drone: &Drone, state: &State) -> bool {
    let (at, bytes, entry, started) = *state;
    has_bytes(drone.memory.as_slice(), at, bytes)
        && drone.defs[0] == entry
        && &drone.defs[1..] == [None; 9].as_slice()
        && drone.started == started
}
