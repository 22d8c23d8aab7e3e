//! Certificates of shows. Trees and blocked parts were computed from the definitions by exact sums.

use crate::plan::fitted_of;
use sep_certificate::write_certificate;
use sep_parts::Slot;
use show_plan::{BlockedPart, SeparationFault, certificate, count_nodes};
use std::alloc::Global;
use whole_numbers::Depth;

// Whether a show has a certificate with this text, and so many nodes at depth 6.
fn is_certified(alloc: Global, show: &[u8], depth: u8, wanted: &[u8], nodes: u32) -> bool {
    let Ok(fitted) = fitted_of(alloc, show) else {
        return false;
    };
    let Ok(cert) = certificate(alloc, &fitted, Depth::make(depth.min(8))) else {
        return false;
    };
    let is_counted = matches!(count_nodes(alloc, &fitted, Depth::make(6)), Ok(n) if n == nodes);
    match write_certificate(alloc, &cert) {
        Ok(text) => is_counted && text.as_slice() == wanted,
        Err(_) => false,
    }
}

// Whether this is the first blocked part of the drones a and b, and of all.
fn is_blocked(alloc: Global, show: &[u8], depth: u8, cue: u16, index: u16) -> bool {
    let Ok(fitted) = fitted_of(alloc, show) else {
        return false;
    };
    let slot = Slot { a: 0, b: 1, cue };
    let part = BlockedPart { slot, index };
    match certificate(alloc, &fitted, Depth::make(depth.min(8))) {
        Ok(_) => false,
        Err(fault) => fault == SeparationFault::Blocked { part },
    }
}

// One drone steps aside and passes under the other.
const ASIDE: &[u8] =
    b"choreo 1\nellipsoid 120 300\ndrone a 0 0 1000000 0\ndrone b 1000000 0 1000000 0\ncue 3000\n\
    b move 1000000 0 2000000 0\nend\ncue 3000\na move 1000000 0 1000000 0\nb move 0 0 2000000 0\nend\ncue 3000\n\
    b move 0 0 1000000 0\nend\n";

const ALONE: &[u8] = b"choreo 1\ndrone a 0 0 1000000 0\ncue 1000\nend\n";

// Only a direction with an entry 2 separates them: (2, 1, 0).
const STEEP: &[u8] =
    b"choreo 1\nellipsoid 120 300\ndrone a 0 0 1000000 0\ndrone b 223000 112000 1000000 0\ncue 1000\nend\n";

// Two drones that meet halfway.
const ACROSS: &[u8] =
    b"choreo 1\nellipsoid 120 300\ndrone a 0 0 1000000 0\ndrone b 1000000 0 1000000 0\ncue 3000\n\
    a move 1000000 0 1000000 0\nb move 0 0 1000000 0\nend\n";

// Apart, but along none of the 98 directions.
const NEAR: &[u8] =
    b"choreo 1\nellipsoid 120 300\ndrone a 0 0 1000000 0\ndrone b 236000 56000 1000000 0\ncue 1000\nend\n";

// b meets c in the first cue, and a meets b in the second.
const TWICE: &[u8] =
    b"choreo 1\ndrone a 0 0 1000000 0\ndrone b 5000000 0 1000000 0\ndrone c 9000000 0 1000000 0\ncue 3000\n\
    b move 9000000 0 1000000 0\nend\ncue 3000\nb move 0 0 1000000 0\nend\n";

// A show, a depth, the text of its certificate, and how many nodes are counted.
const APART: &[(&[u8], u8, &[u8], u32)] = &[
    (ASIDE, 6, b"version 2\ncertificate 6\n58\n46\n00\n", 3),
    (ALONE, 8, b"version 2\ncertificate 8\n", 0),
    (STEEP, 6, b"version 2\ncertificate 6\n93\n", 1),
];

#[test]
fn drones_that_keep_apart(rt: HostRuntime) {
    for &(show, depth, wanted, nodes) in APART {
        assert!(rt;
            is_certified(rt.alloc(), show, depth, wanted, nodes),
            "{show:?}"
        );
    }
}

// A show, a depth, and the first blocked part by pair and then by cue, of the pair a and b: the cue and the index.
const BLOCKED: &[(&[u8], u8, u16, u16)] = &[
    (ACROSS, 6, 0, 28),
    (ACROSS, 0, 0, 0),
    (NEAR, 6, 0, 0),
    (TWICE, 0, 1, 0),
];

fn has_no_count(alloc: Global, show: &[u8]) -> bool {
    match fitted_of(alloc, show) {
        Ok(fitted) => count_nodes(alloc, &fitted, Depth::make(6)).is_err(),
        Err(_) => false,
    }
}

#[test]
fn drones_that_come_too_near(rt: HostRuntime) {
    for &(show, depth, cue, index) in BLOCKED {
        assert!(rt;
            is_blocked(rt.alloc(), show, depth, cue, index),
            "cue {cue}, part {index}"
        );
    }
    assert!(rt; has_no_count(rt.alloc(), ACROSS));
}
