//! Counts and places of chunks that were computed by hand.
use crtp_packets::{MEMORY_BYTES, chunk, chunk_count};

// Lengths, and how many chunks they have.
const COUNTS: &[(usize, usize)] = &[
    (0, 0),
    (1, 1),
    (24, 1),
    (25, 2),
    (28, 2),
    (4095, 171),
    (4096, 171),
];

// The first length that has another count.
fn wrong_count() -> Option<usize> {
    for (len, count) in COUNTS {
        if *len > MEMORY_BYTES || chunk_count(*len) != *count {
            return Some(*len);
        }
    }
    None
}

#[test]
fn counts_chunks(rt: HostRuntime) {
    assert_eq!(rt; wrong_count(), None);
}

// Lengths and chunks of them, with where each begins and ends.
const PLACES: &[(usize, usize, (usize, usize))] = &[
    (1, 0, (0, 1)),
    (24, 0, (0, 24)),
    (25, 1, (24, 25)),
    (28, 0, (0, 24)),
    (28, 1, (24, 28)),
    (4096, 0, (0, 24)),
    (4096, 169, (4056, 4080)),
    (4096, 170, (4080, 4096)),
];

// The first row that has another place.
fn wrong_place() -> Option<usize> {
    for (row, (len, k, place)) in PLACES.iter().enumerate() {
        if *len > MEMORY_BYTES || *k >= chunk_count(*len) || chunk(*len, *k) != *place {
            return Some(row);
        }
    }
    None
}

#[test]
fn places_chunks(rt: HostRuntime) {
    assert_eq!(rt; wrong_place(), None);
}
