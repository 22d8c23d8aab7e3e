//! The drill's show by its description, and lines of its numbers.
use drill_show::{drill_line, drill_text};
use std::alloc::{AllocError, Global};

const ONE: &[u8] = b"choreo 1\n\
    drone d1 0 0 1000000 0\n\
    repeat 10\n\
    cue 3000\n\
    d1 move 0 0 1000000 0\n\
    end\n\
    cue 3000\n\
    d1 move 500000 0 1000000 0\n\
    end\n\
    cue 3000\n\
    d1 move 500000 0 1000000 0\n\
    end\n\
    cue 3000\n\
    d1 move 0 0 1000000 0\n\
    end\n\
    end\n";

const TWO: &[u8] = b"choreo 1\n\
    drone d1 0 0 1000000 0\n\
    drone d2 1000000 0 1000000 0\n\
    repeat 10\n\
    cue 3000\n\
    d1 move 0 0 1000000 0\n\
    d2 move 1000000 0 2000000 0\n\
    end\n\
    cue 3000\n\
    d1 move 500000 0 1000000 0\n\
    d2 move 1500000 0 2000000 0\n\
    end\n\
    cue 3000\n\
    d1 move 500000 0 1000000 0\n\
    d2 move 1500000 0 1000000 0\n\
    end\n\
    cue 3000\n\
    d1 move 0 0 1000000 0\n\
    d2 move 1000000 0 1000000 0\n\
    end\n\
    end\n";

fn is_drill(alloc: Global, drones: u8, wanted: &[u8]) -> Result<bool, AllocError> {
    let text = drill_text(alloc, drones.max(1).min(32))?;
    Ok(text.as_slice() == wanted)
}

#[test]
fn small_drills(rt: HostRuntime) {
    assert!(rt; matches!(is_drill(rt.alloc(), 1, ONE), Ok(true)));
    assert!(rt; matches!(is_drill(rt.alloc(), 2, TWO), Ok(true)));
}

// Some of the 171 lines, by their numbers from 0.
const LINES: &[(usize, &str)] = &[
    (0, "choreo 1"),
    (1, "drone d1 0 0 1000000 0"),
    (6, "drone d6 5000000 0 1000000 0"),
    (7, "drone d7 0 1000000 1000000 0"),
    (32, "drone d32 1000000 5000000 1000000 0"),
    (33, "repeat 10"),
    (34, "cue 3000"),
    (35, "d1 move 0 0 1000000 0"),
    (36, "d2 move 1000000 0 2000000 0"),
    (66, "d32 move 1000000 5000000 2000000 0"),
    (67, "end"),
    (68, "cue 3000"),
    (69, "d1 move 500000 0 1000000 0"),
    (70, "d2 move 1500000 0 2000000 0"),
    (99, "d31 move 500000 5000000 1000000 0"),
    (100, "d32 move 1500000 5000000 2000000 0"),
    (102, "cue 3000"),
    (104, "d2 move 1500000 0 1000000 0"),
    (137, "d1 move 0 0 1000000 0"),
    (138, "d2 move 1000000 0 1000000 0"),
    (169, "end"),
    (170, "end"),
];

// Whether the largest drill has this line, and as many bytes and lines as it must.
fn has_line(alloc: Global, number: usize, wanted: &str) -> Result<bool, AllocError> {
    let bytes = drill_text(alloc, 32)?;
    let Ok(text) = str::from_utf8(&bytes) else {
        return Ok(false);
    };
    let is_whole = text.len() == 5362 && text.split('\n').count() == 172;
    Ok(is_whole && text.split('\n').nth(number) == Some(wanted))
}

#[test]
fn the_largest_drill(rt: HostRuntime) {
    for &(number, wanted) in LINES {
        assert!(rt;
            matches!(has_line(rt.alloc(), number, wanted), Ok(true)),
            "{wanted}"
        );
    }
}

// Numbers, and the line of them.
const NUMBERS: &[(u8, u16, u16, u32, u32, u32, &[u8])] = &[
    (
        16,
        40,
        120,
        8816,
        392,
        4800,
        b"drones 16 cues 40 pairs 120 bytes 8816 packets 392 nodes 4800\n",
    ),
    (
        1,
        40,
        0,
        411,
        19,
        0,
        b"drones 1 cues 40 pairs 0 bytes 411 packets 19 nodes 0\n",
    ),
    (
        255,
        65_535,
        65_535,
        4_294_967_295,
        4_294_967_295,
        4_294_967_295,
        b"drones 255 cues 65535 pairs 65535 bytes 4294967295 packets 4294967295 nodes 4294967295\n",
    ),
];

#[test]
fn lines_of_numbers(rt: HostRuntime) {
    for &(drones, cues, pairs, bytes, packets, nodes, wanted) in NUMBERS {
        let line = drill_line(drones, cues, pairs, bytes, packets, nodes);
        assert!(rt; line.bytes() == wanted, "{drones} drones");
    }
}
