//! Trajectories whose bytes are known from outside: the two worked examples of docs/TRAJECTORY.md, and one of all
//! kinds; bytes with a fault; and each header.
ghost use Rattle.std.specs.Prelude.{◌≡◌, ◌<◌, ◌≤◌, IfOk, [], ◌∷◌};

use std::alloc::{AllocError, Global};
use std::test::Fail;
use traj_codec::{CodecFault, Element, Listed, Segment, Traj, decode, encode, join_holds, size_of};

// A trajectory of one segment.
fn traj(alloc: Global, start: [i16; 4], segment: Segment) -> Result<Traj, AllocError>
    ensures { IfOk result (λ t. t.segments ≡ segment ∷ []) }
{
    let mut segments = Vec::new(alloc);
    segments.push(segment)?;
    Ok(Traj {
        start,
        segments: Listed::from_vec(segments),
    })
}

// Whether bytes are read as a trajectory of this segment, which takes this many of them.
fn reads(alloc: Global, bytes: &[u8], start: [i16; 4], segment: Segment, length: usize) -> bool {
    match decode(alloc, bytes, 1) {
        Ok((t, used)) => {
            used == length && t.start == start && t.segments.as_slice() == [segment].as_slice()
        }
        Err(_) => false,
    }
}

#[test]
fn a_move_from_rest_to_rest(rt: HostRuntime) -> Result<(), Fail> {
    let v = [0, 0, 0, 1000, 1000, 1000, 1000];
    let segment = Segment {
        ms: 2000,
        elements: [
            Element::Seven { v },
            Element::Constant,
            Element::Constant,
            Element::Constant,
        ],
    };
    let t = traj(rt.alloc(), [0, 0, 1000, 0], segment)?;
    let bytes = encode(rt.alloc(), &t)?;
    let wanted = [
        0, 0, 0, 0, 0xE8, 3, 0, 0, 3, 0xD0, 7, 0, 0, 0, 0, 0, 0, 0xE8, 3, 0xE8, 3, 0xE8, 3, 0xE8,
        3, 0, 0, 0,
    ];
    assert!(rt; bytes.as_slice() == wanted.as_slice());
    assert!(rt; size_of(&t) == 28);
    let segments = t.segments.into_vec();
    assert!(rt; segments.as_slice() == [segment].as_slice());
    assert!(rt; reads(rt.alloc(), &wanted, [0, 0, 1000, 0], segment, 25));
    assert!(rt; reads(rt.alloc(), &wanted[..25], [0, 0, 1000, 0], segment, 25));
    Ok(())
}

#[test]
fn a_quarter_arc(rt: HostRuntime) -> Result<(), Fail> {
    let segment = Segment {
        ms: 1000,
        elements: [
            Element::Cubic { v: [1000, 552, 0] },
            Element::Cubic {
                v: [552, 1000, 1000],
            },
            Element::Constant,
            Element::Constant,
        ],
    };
    let t = traj(rt.alloc(), [1000, 0, 1000, 0], segment)?;
    let bytes = encode(rt.alloc(), &t)?;
    let wanted = [
        0xE8, 3, 0, 0, 0xE8, 3, 0, 0, 0x0A, 0xE8, 3, 0xE8, 3, 0x28, 2, 0, 0, 0x28, 2, 0xE8, 3,
        0xE8, 3, 0, 0, 0,
    ];
    assert!(rt; bytes.as_slice() == wanted.as_slice());
    assert!(rt; size_of(&t) == 26);
    assert!(rt; reads(rt.alloc(), &wanted, [1000, 0, 1000, 0], segment, 23));
    assert!(rt; reads(rt.alloc(), &wanted[..23], [1000, 0, 1000, 0], segment, 23));
    let fault = fault_in(rt.alloc(), &wanted, 2);
    assert!(rt; fault == Some(CodecFault::ZeroDuration { at: 24 }));
    let fault = fault_in(rt.alloc(), &wanted[..23], 2);
    assert!(rt; fault == Some(CodecFault::Short { at: 23 }));
    Ok(())
}

#[test]
fn all_four_kinds(rt: HostRuntime) -> Result<(), Fail> {
    let segment = Segment {
        ms: 65_535,
        elements: [
            Element::Constant,
            Element::Linear { v: -1 },
            Element::Cubic { v: [1, -2, 300] },
            Element::Seven {
                v: [-32_768, 32_767, 0, 1, 2, 3, 258],
            },
        ],
    };
    let t = traj(rt.alloc(), [-32_768, 32_767, 256, -256], segment)?;
    let bytes = encode(rt.alloc(), &t)?;
    let wanted = [
        0, 0x80, 0xFF, 0x7F, 0, 1, 0, 0xFF, 0xE4, 0xFF, 0xFF, 0xFF, 0xFF, 1, 0, 0xFE, 0xFF, 0x2C,
        1, 0, 0x80, 0xFF, 0x7F, 0, 0, 1, 0, 2, 0, 3, 0, 2, 1, 0, 0, 0,
    ];
    assert!(rt; bytes.as_slice() == wanted.as_slice());
    assert!(rt; size_of(&t) == 36);
    let start = [-32_768, 32_767, 256, -256];
    assert!(rt; reads(rt.alloc(), &wanted, start, segment, 33));
    Ok(())
}

// The start 0, 0, 0, 0, and then bytes.
fn after_start(alloc: Global, bytes: &[u8]) -> Result<Vec<u8>, AllocError> {
    let mut all = Vec::new(alloc);
    all.extend_from_slice(&[0; 8])?;
    all.extend_from_slice(bytes)?;
    Ok(all)
}

fn fault_in(alloc: Global, bytes: &[u8], pieces: u8) -> Option<CodecFault> {
    match decode(alloc, bytes, pieces) {
        Ok(_) => None,
        Err(fault) => Some(fault),
    }
}

// Bytes after the start, how many segments are read, and the first fault.
const FAULTS: &[(&[u8], u8, Option<CodecFault>)] = &[
    (&[], 0, None),
    (&[], 1, Some(CodecFault::Short { at: 8 })),
    (&[3], 1, Some(CodecFault::Short { at: 9 })),
    (&[3, 0xE8], 1, Some(CodecFault::Short { at: 9 })),
    (&[0, 0, 0], 1, Some(CodecFault::ZeroDuration { at: 9 })),
    (&[3, 0, 0, 1], 1, Some(CodecFault::ZeroDuration { at: 9 })),
    (&[0, 0, 0, 0], 2, Some(CodecFault::ZeroDuration { at: 9 })),
    (&[0, 1, 0, 0], 2, Some(CodecFault::Short { at: 12 })),
    (
        &[2, 0xE8, 3, 1, 0, 2, 0, 3],
        1,
        Some(CodecFault::Short { at: 15 }),
    ),
];

// The number of the first row with another fault; none where there is no such row.
fn wrong_fault(alloc: Global) -> Result<Option<usize>, AllocError> {
    for (k, (bytes, pieces, fault)) in FAULTS.iter().enumerate() {
        let all = after_start(alloc, bytes)?;
        if fault_in(alloc, &all, *pieces) != *fault {
            return Ok(Some(k));
        }
    }
    Ok(None)
}

#[test]
fn first_faults(rt: HostRuntime) {
    assert_eq!(rt; wrong_fault(rt.alloc()).unwrap_or(Some(0)), None);
    assert!(rt; fault_in(rt.alloc(), &[], 1) == Some(CodecFault::Short { at: 0 }));
    assert!(rt; fault_in(rt.alloc(), &[0; 7], 1) == Some(CodecFault::Short { at: 6 }));
}

// How many numbers an element of this kind has.
fn numbers_of(kind: u8) -> u8
    ensures { result ≤ 7 }
{
    match kind {
        0 => 0,
        1 => 1,
        2 => 3,
        _ => 7,
    }
}

// Whether bytes with this header are read, and are written the same again.
fn is_kept(alloc: Global, header: u8) -> Result<bool, AllocError> {
    let count = numbers_of(header % 4)
        + numbers_of(header / 4 % 4)
        + numbers_of(header / 16 % 4)
        + numbers_of(header / 64);
    let mut bytes = after_start(alloc, &[header, 0xE8, 3])?;
    for n in 0..count {
        bytes.push(n + 1)?;
        bytes.push(0)?;
    }
    bytes.extend_from_slice(&[0; 3])?;
    match decode(alloc, &bytes, 1) {
        Ok((t, used)) => {
            let back = encode(alloc, &t)?;
            Ok(used == 11 + 2 * usize::from(count) && back.as_slice() == bytes.as_slice())
        }
        Err(_) => Ok(false),
    }
}

// The first header that isn't kept.
fn wrong_header(alloc: Global) -> Option<u8> {
    for header in 0..=255 {
        if !matches!(is_kept(alloc, header), Ok(true)) {
            return Some(header);
        }
    }
    None
}

#[test]
fn each_header(rt: HostRuntime) {
    assert_eq!(rt; wrong_header(rt.alloc()), None);
}

// The hold of this many milliseconds.
fn hold(ms: u16) -> Segment
    ensures { result.ms ≡ ms }
{
    Segment {
        ms,
        elements: [Element::Constant; 4],
    }
}

// A trajectory of three segments.
fn three(alloc: Global, a: Segment, b: Segment, c: Segment) -> Result<Traj, AllocError>
    ensures { IfOk result (λ t. t.segments ≡ a ∷ b ∷ c ∷ []) }
{
    let mut segments = Vec::new(alloc);
    segments.push(a)?;
    segments.push(b)?;
    segments.push(c)?;
    Ok(Traj {
        start: [0, 0, 0, 0],
        segments: Listed::from_vec(segments),
    })
}

// A turn on the spot.
const TURN: Segment = Segment {
    ms: 1000,
    elements: [
        Element::Constant,
        Element::Constant,
        Element::Constant,
        Element::Linear { v: 900 },
    ],
};

// Holds are joined from the left, up to the longest duration, and a turn is no hold.
#[test]
fn holds_are_joined(rt: HostRuntime) -> Result<(), Fail> {
    let cases: [([Segment; 3], &[Segment]); 3] = [
        (
            [hold(40_000), hold(30_000), hold(30_000)],
            &[hold(40_000), hold(60_000)],
        ),
        (
            [hold(32_767), hold(32_768), hold(1)],
            &[hold(65_535), hold(1)],
        ),
        (
            [hold(1000), TURN, hold(1000)],
            &[hold(1000), TURN, hold(1000)],
        ),
    ];
    for ([a, b, c], wanted) in cases {
        let joined = join_holds(rt.alloc(), &three(rt.alloc(), a, b, c)?)?;
        assert!(rt; joined.segments.as_slice() == wanted);
    }
    Ok(())
}
