//! Certificates judged by their texts, with ellipsoids of half axes 120, 120 and 300 mm. Of two drones in three cues of
//! three seconds one waits, goes 1 m along x, and waits; the other rises by 1 m, goes the other way above it, and
//! sinks. Of three drones all stay.

ghost use Rattle.std.specs.Prelude.{◌≤◌, length};
ghost use Rattle.sep_parts.specs.Directions.{IsClearance};
ghost use Rattle.certificate_checker.specs.Bytes.{most_bytes};
ghost use Rattle.certificate_checker.specs.Verdicts.{VerdictGives};

use crate::flights::{clearance, still, three_legs};
use certificate_checker::{Checker, Verdict};
use fleet_curves::Curves;
use sep_certificate::CertFault;
use sep_parts::Clearance;
use std::alloc::{AllocError, Global};

fn two(alloc: Global) -> Result<Curves, AllocError> {
    let first = three_legs(
        alloc,
        [[0, 0, 1000], [0, 0, 1000], [1000, 0, 1000], [1000, 0, 1000]],
    )?;
    let second = three_legs(
        alloc,
        [[1000, 0, 1000], [1000, 0, 2000], [0, 0, 2000], [0, 0, 1000]],
    )?;
    Curves::of_slice(alloc, &[first, second])
}

// The second 1 m along x from the first and the third 1 m along y. So (1, 0, 0), `v`, separates the first two, (0, 1,
// 0), `p`, the first and the third, and (-1, 0, 0), `e`, the last two; none of them does for another pair.
fn three(alloc: Global) -> Result<Curves, AllocError> {
    let first = three_legs(alloc, [[0, 0, 1000]; 4])?;
    let second = three_legs(alloc, [[1000, 0, 1000]; 4])?;
    let third = three_legs(alloc, [[0, 1000, 1000]; 4])?;
    Curves::of_slice(alloc, &[first, second, third])
}

// A text judged.
fn judged(curves: &Curves, clearance: Clearance, text: &[u8]) -> Verdict
    requires clearance { IsClearance clearance }
    requires short { length text.now ≤ most_bytes }
    ensures { VerdictGives curves.now clearance text.now result }
{
    let mut checker = Checker::make(clearance);
    checker.feed(curves, text);
    checker.end(curves)
}

// What a verdict says.
#[derive(Clone, Copy, PartialEq, Eq)]
enum Says {
    Valid,
    Line,
    Missing,
    Extra,
    TooDeep,
    Fails,
}

// A text, what is said of it, and the numbers of that: the depth and how many trees there are; the line; or the drones,
// the cue, the place, the direction and the control value of the fault, in its order.
type Row = (&'static [u8], Says, &'static [u32]);

fn is_said(verdict: Verdict, wanted: Says, numbers: &[u32]) -> bool {
    match verdict {
        Verdict::Valid { depth, trees } => {
            wanted == Says::Valid && numbers == [u32::from(depth), trees].as_slice()
        }
        Verdict::Line { line } => wanted == Says::Line && numbers == [line].as_slice(),
        Verdict::Refused { fault, .. } => names(fault, wanted, numbers),
    }
}

fn names(fault: CertFault, wanted: Says, numbers: &[u32]) -> bool {
    match fault {
        CertFault::Missing { a, b, cue } => {
            wanted == Says::Missing && are_at(a, b, cue, numbers)
        }
        CertFault::Extra { tree } => wanted == Says::Extra && numbers == [tree].as_slice(),
        CertFault::TooDeep { a, b, cue } => {
            wanted == Says::TooDeep && are_at(a, b, cue, numbers)
        }
        CertFault::Fails {
            a,
            b,
            cue,
            place,
            dir,
            control,
        } => {
            let all = [
                u32::from(a),
                u32::from(b),
                u32::from(cue),
                u32::from(place.depth),
                u32::from(place.index),
                u32::from(dir),
                u32::from(control),
            ];
            wanted == Says::Fails && numbers == all.as_slice()
        }
    }
}

fn are_at(a: u8, b: u8, cue: u16, numbers: &[u32]) -> bool {
    numbers == [u32::from(a), u32::from(b), u32::from(cue)].as_slice()
}

// Whether this is said of a text by the curves of two drones.
fn says_of_two(
    alloc: Global,
    text: &[u8],
    wanted: Says,
    numbers: &[u32],
) -> Result<bool, AllocError> {
    let curves = two(alloc)?;
    Ok(text.len() <= 1_000_000 && is_said(judged(&curves, still(), text), wanted, numbers))
}

const FOR_TWO: &[Row] = &[
    (b"certificate 6\nr\nl\na\n", Says::Valid, &[6, 3]),
    (b"certificate 6\r\nr\r\nl\r\na", Says::Valid, &[6, 3]),
    (b"certificate 1\n.rr\n.ll\n.aa\n", Says::Valid, &[1, 3]),
    (b"certificate 6\nr\nl\n", Says::Missing, &[0, 1, 2]),
    (b"certificate 6", Says::Missing, &[0, 1, 0]),
    (
        b"certificate 6\nr\na\n",
        Says::Fails,
        &[0, 1, 1, 0, 0, 0, 0],
    ),
    // a cue that is split at once, after a leaf of a whole cue and after another split one
    (b"certificate 1\nr\n.ll\na\n", Says::Valid, &[1, 3]),
    (
        b"certificate 1\nr\n.la\na\n",
        Says::Fails,
        &[0, 1, 1, 1, 1, 0, 0],
    ),
    (
        b"certificate 1\n.rr\n.al\na\n",
        Says::Fails,
        &[0, 1, 1, 1, 0, 0, 0],
    ),
    (b"certificate 6\nr\nl\na\nr\n", Says::Extra, &[3]),
    (b"certificate 0\n.rr\nl\na\n", Says::TooDeep, &[0, 1, 0]),
    // a faulty line after a fault
    (b"certificate 0\n.rr\nl\n.a\n", Says::Line, &[4]),
    // version 2
    (
        b"version 2\ncertificate 6\n58\n46\n00\n",
        Says::Valid,
        &[6, 3],
    ),
    (
        b"version 2\r\ncertificate 6\r\n.5858\r\n46\r\n00",
        Says::Valid,
        &[6, 3],
    ),
    (
        b"version 2\ncertificate 6\n58\n46\n",
        Says::Missing,
        &[0, 1, 2],
    ),
    (
        b"version 2\ncertificate 6\n58\n45\n00\n",
        Says::Fails,
        &[0, 1, 1, 0, 0, 45, 0],
    ),
    (
        b"version 2\ncertificate 6\n58\n.4645\n00\n",
        Says::Fails,
        &[0, 1, 1, 1, 1, 45, 0],
    ),
    (
        b"version 2\ncertificate 6\n58\n46\n00\n58\n",
        Says::Extra,
        &[3],
    ),
];

#[test]
fn certificates_of_two_drones(rt: HostRuntime) {
    for &(text, wanted, numbers) in FOR_TWO {
        assert!(rt;
            matches!(says_of_two(rt.alloc(), text, wanted, numbers), Ok(true)),
            "{text:?}"
        );
    }
}

const FOR_THREE: &[Row] = &[
    // the pairs (1, 2), (1, 3) and (2, 3), each with its three cues
    (
        b"certificate 0\nv\nv\nv\np\np\np\ne\ne\ne\n",
        Says::Valid,
        &[0, 9],
    ),
    // (2, 3) before (1, 3)
    (
        b"certificate 0\nv\nv\nv\ne\ne\ne\np\np\np\n",
        Says::Fails,
        &[0, 2, 0, 0, 0, 4, 0],
    ),
    // by cue and then by pair
    (
        b"certificate 0\nv\np\ne\nv\np\ne\nv\np\ne\n",
        Says::Fails,
        &[0, 1, 1, 0, 0, 15, 0],
    ),
    (
        b"certificate 0\nv\nv\nv\np\np\np\ne\ne\n",
        Says::Missing,
        &[1, 2, 2],
    ),
    (
        b"certificate 0\nv\nv\nv\np\np\np\ne\ne\ne\ne\n",
        Says::Extra,
        &[9],
    ),
];

fn says_of_three(alloc: Global, row: &Row) -> Result<bool, AllocError> {
    let curves = three(alloc)?;
    let (text, wanted, numbers) = *row;
    Ok(text.len() <= 1_000_000 && is_said(judged(&curves, still(), text), wanted, numbers))
}

#[test]
fn certificates_of_three_drones(rt: HostRuntime) {
    for (k, row) in FOR_THREE.iter().enumerate() {
        assert!(rt;
            matches!(says_of_three(rt.alloc(), row), Ok(true)),
            "row {k}"
        );
    }
}

// The first faulty line of each.
const FAULTY: &[(&[u8], u32)] = &[
    (b"", 1),
    (b"\n", 1),
    (b"certificate 9\n", 1),
    (b"certificate 06\n", 1),
    (b"certificate 6\r", 1),
    (b"certificate 6certificate 6\n", 1),
    (b"version 2\r", 1),
    (b"version 2version 2\n", 1),
    (b"version 02\ncertificate 6\n", 1),
    (b"certificate 6\naa", 2),
    (b"certificate 6\n..aa\n", 2),
    (b"certificate 6\nA\n", 2),
    (b"certificate 6\n\nr\n", 2),
    (b"certificate 6\nr\r", 2),
    (b"version 2", 2),
    (b"version 2\n58\n", 2),
    (b"version 2\ncertificate 6\n98\n", 3),
    (b"version 2\ncertificate 6\n5", 3),
    (b"version 2\ncertificate 6\n5.8\n", 3),
    (b"version 2\ncertificate 6\nr\n", 3),
];

#[test]
fn faulty_lines(rt: HostRuntime) {
    for &(text, line) in FAULTY {
        assert!(rt;
            matches!(says_of_two(rt.alloc(), text, Says::Line, &[line]), Ok(true)),
            "{text:?}"
        );
    }
}

// A text, and what becomes of its first bytes.
const WHOLE: &[u8] = b"version 2\r\ncertificate 6\r\n.5858\r\n46\r\n00";

fn wanted(bytes: usize) -> (Says, &'static [u32]) {
    match bytes {
        // within the first line, and with its carriage return alone
        0..=8 | 10 => (Says::Line, &[1]),
        // within the second, from the end of the first on
        9 | 11..=23 | 25 => (Says::Line, &[2]),
        // a carriage return alone at the end of the second
        24 | 26 => (Says::Missing, &[0, 1, 0]),
        27..=30 | 32 => (Says::Line, &[3]),
        31 | 33 => (Says::Missing, &[0, 1, 1]),
        34 | 36 => (Says::Line, &[4]),
        35 | 37 => (Says::Missing, &[0, 1, 2]),
        38 => (Says::Line, &[5]),
        _ => (Says::Valid, &[6, 3]),
    }
}

fn ends_at(alloc: Global, bytes: usize) -> Result<bool, AllocError> {
    let (wanted, numbers) = wanted(bytes);
    match WHOLE.get(..bytes) {
        Some(text) => says_of_two(alloc, text, wanted, numbers),
        None => Ok(false),
    }
}

#[test]
fn texts_that_end_anywhere(rt: HostRuntime) {
    for bytes in 0..40 {
        assert!(rt;
            matches!(ends_at(rt.alloc(), bytes), Ok(true)),
            "{bytes} bytes"
        );
    }
}

// A tree far deeper than the certificate, with this at its end.
fn deep(alloc: Global, end: &[u8]) -> Result<Vec<u8>, AllocError> {
    let mut text = Vec::from_slice(alloc, b"certificate 6\n")?;
    for _ in 0..1000 {
        text.extend_from_slice(&[b'.'; 100])?;
    }
    for _ in 0..1000 {
        text.extend_from_slice(&[b'a'; 100])?;
    }
    text.extend_from_slice(end)?;
    Ok(text)
}

// Its last leaf, and one more line that is none.
const DEEP: &[Row] = &[
    (b"a", Says::TooDeep, &[0, 1, 0]),
    (b"a\n.a", Says::Line, &[3]),
];

fn says_of_deep(alloc: Global, row: &Row) -> Result<bool, AllocError> {
    let (end, wanted, numbers) = *row;
    let text = deep(alloc, end)?;
    says_of_two(alloc, text.as_slice(), wanted, numbers)
}

#[test]
fn a_hundred_thousand_splits(rt: HostRuntime) {
    for (k, row) in DEEP.iter().enumerate() {
        assert!(rt;
            matches!(says_of_deep(rt.alloc(), row), Ok(true)),
            "row {k}"
        );
    }
}

// Half axes and a text, and the version of its fault. Drones that are 1 m apart, with ellipsoids as wide as that, are
// the last.
const VERSIONS: &[(u16, u16, &[u8], u8)] = &[
    (120, 300, b"certificate 6\nr", 1),
    (120, 300, b"version 2\ncertificate 6\n58", 2),
    (500, 500, b"certificate 6\nr\nl\na\n", 1),
];

fn has_version(alloc: Global, r: u16, h: u16, text: &[u8], wanted: u8) -> Result<bool, AllocError>
    requires { length text.now ≤ most_bytes }
{
    let curves = two(alloc)?;
    let verdict = judged(&curves, clearance(r, h, 0, [0, 0, 0]), text);
    Ok(matches!(verdict, Verdict::Refused { version, .. } if version == wanted))
}

#[test]
fn the_version_of_a_fault(rt: HostRuntime) {
    for &(r, h, text, wanted) in VERSIONS {
        let is_short = text.len() <= 100;
        assert!(rt;
            is_short && matches!(has_version(rt.alloc(), r, h, text, wanted), Ok(true)),
            "{text:?}"
        );
    }
}

// In the first cue the second drone is 1,000 mm along x from the first. Along (1, 0, 0) that is 300,000, where the
// ellipsoids ask for 72,001, 379 mm of stray for 227,400 and 1 mm of reach on x for 300.
const BY_CLEARANCE: &[(u16, [u32; 3], bool)] = &[
    (0, [0, 0, 0], true),
    (379, [0, 65_536, 65_536], true),
    (380, [0, 0, 0], false),
    (379, [1, 0, 0], true),
    (379, [2, 0, 0], false),
    (0, [759, 0, 0], true),
    (0, [760, 0, 0], false),
];

// One tree is there, and the next one is missing, unless the first fails.
fn is_missing(alloc: Global, stray: u16, reach: [u32; 3]) -> Result<bool, AllocError> {
    let curves = two(alloc)?;
    let verdict = judged(
        &curves,
        clearance(120, 300, stray, reach),
        b"certificate 0\nv",
    );
    Ok(matches!(
        verdict,
        Verdict::Refused {
            fault: CertFault::Missing { cue: 1, .. },
            ..
        }
    ))
}

#[test]
fn strays_and_late_drones(rt: HostRuntime) {
    for &(stray, reach, wanted) in BY_CLEARANCE {
        assert!(rt;
            matches!(is_missing(rt.alloc(), stray, reach), Ok(found) if found == wanted),
            "stray {stray}"
        );
    }
}
