//! Lines by the tables of docs/LANGUAGE.md: what they say where they stand, or what is wrong with them.

use choreo_lines::{Entry, Form, LineError, LineKind, Place, entry_of};
use choreo_show::{Act, Ease, Frame, Mirror, Point};
use std::alloc::Global;
use text_lines::{Comments, tokens};

/// What is read of one line: the numbers and fixed words of what it says, or what is wrong with it.
#[derive(Clone, Copy, PartialEq, Eq)]
enum Outcome {
    Memory(u8, u16),
    Trajectory(u8),
    Ellipsoid(u16, u16),
    Stray(u16),
    Late(u16),
    Drone(Point),
    Formation,
    At(Point),
    Figure(usize),
    Cue(u16),
    Repeat(u32),
    Perform(Frame, usize),
    Form(bool),
    One(Act),
    End,
    Fault(LineKind),
    Other,
}

fn outcome_of(alloc: Global, form: Form, place: Place, line: &[u8]) -> Outcome {
    if line.len() > 1000 {
        return Outcome::Other;
    }
    let Ok(words) = tokens(alloc, line, Comments::FromHash) else {
        return Outcome::Other;
    };
    if words.is_empty() {
        return Outcome::Other;
    }
    match entry_of(alloc, form, place, line, words.as_slice()) {
        Ok(entry) => said(&entry),
        Err(LineError::Kind(kind)) => Outcome::Fault(kind),
        Err(LineError::Memory) => Outcome::Other,
    }
}

fn said(entry: &Entry) -> Outcome {
    match entry {
        Entry::Memory { id, offset } => Outcome::Memory(*id, *offset),
        Entry::Trajectory { id } => Outcome::Trajectory(*id),
        Entry::Ellipsoid { r, h } => Outcome::Ellipsoid(*r, *h),
        Entry::Stray { mm } => Outcome::Stray(*mm),
        Entry::Late { ms } => Outcome::Late(*ms),
        Entry::Drone { at, .. } => Outcome::Drone(*at),
        Entry::Formation { .. } => Outcome::Formation,
        Entry::At { at, .. } => Outcome::At(*at),
        Entry::Figure { roles, .. } => Outcome::Figure(roles.as_slice().len()),
        Entry::Cue { ms } => Outcome::Cue(*ms),
        Entry::Repeat { times } => Outcome::Repeat(*times),
        Entry::Perform { frame, drones, .. } => Outcome::Perform(*frame, drones.as_slice().len()),
        Entry::Form { smooth, .. } => Outcome::Form(*smooth),
        Entry::One { act, .. } => Outcome::One(*act),
        Entry::End => Outcome::End,
    }
}

const POINT: Point = Point {
    x: 1,
    y: -2,
    z: 3,
    yaw: -4,
};

const FRAME: Frame = Frame {
    mirror: Mirror::Y,
    turns: 3,
    dx: 1,
    dy: -2,
    dz: 3,
};

const BLOCK_LINES: &[(Place, &[u8], Outcome)] = &[
    (Place::Top, b"memory 255 4095", Outcome::Memory(255, 4095)),
    (Place::Top, b"stray 0", Outcome::Stray(0)),
    (Place::Top, b"stray 1000", Outcome::Stray(1000)),
    (Place::Top, b"late 0020", Outcome::Late(20)),
    (Place::Top, b"late 1000", Outcome::Late(1000)),
    (Place::Top, b"trajectory 009 # last", Outcome::Trajectory(9)),
    (Place::Top, b"ellipsoid 1 2000", Outcome::Ellipsoid(1, 2000)),
    (Place::Top, b"ellipsoid 2000 1", Outcome::Ellipsoid(2000, 1)),
    (Place::Top, b"drone cue 1 -2 3 -4", Outcome::Drone(POINT)),
    (Place::Top, b"formation f", Outcome::Formation),
    (Place::InFormation, b"at a 1 -2 3 -4", Outcome::At(POINT)),
    (Place::Top, b"figure g p q", Outcome::Figure(2)),
    (Place::InFigure, b"cue 65535", Outcome::Cue(65_535)),
    (
        Place::InRepeat,
        b"repeat 1000000000",
        Outcome::Repeat(1_000_000_000),
    ),
    (
        Place::InRepeat,
        b"perform g y 3 1 -2 3 a b",
        Outcome::Perform(FRAME, 2),
    ),
    (Place::InFigure, b"end", Outcome::End),
    (Place::InFigureCue, b" \tend\r", Outcome::End),
];

#[test]
fn lines_of_blocks_are_read(rt: HostRuntime) {
    for &(place, line, wanted) in BLOCK_LINES {
        assert!(rt; outcome_of(rt.alloc(), Form::Whole, place, line) == wanted);
    }
}

const ACT_LINES: &[(&[u8], Outcome)] = &[
    (b"form f line", Outcome::Form(false)),
    (b"form f move", Outcome::Form(true)),
    (b"a hold", Outcome::One(Act::Hold)),
    (b"a line 1 -2 3 -4", Outcome::One(Act::Line { to: POINT })),
    (b"a move 1 -2 3 -4", Outcome::One(Act::Move { to: POINT })),
    (b"a turn -32768", Outcome::One(Act::Turn { yaw: -32_768 })),
    (
        b"a arc ccw 5 6 7",
        Outcome::One(Act::Arc {
            ccw: true,
            cx: 5,
            cy: 6,
            yaw: 7,
        }),
    ),
    (
        b"a arc cw 5 6 7",
        Outcome::One(Act::Arc {
            ccw: false,
            cx: 5,
            cy: 6,
            yaw: 7,
        }),
    ),
    (
        b"a swing cw 5 -6 7",
        Outcome::One(Act::Eased {
            ease: Ease::InOut,
            ccw: false,
            cx: 5,
            cy: -6,
            yaw: 7,
        }),
    ),
    (
        b"a arc_in ccw 5 6 7",
        Outcome::One(Act::Eased {
            ease: Ease::In,
            ccw: true,
            cx: 5,
            cy: 6,
            yaw: 7,
        }),
    ),
    (
        b"arc_out arc_out cw -5 6 32767",
        Outcome::One(Act::Eased {
            ease: Ease::Out,
            ccw: false,
            cx: -5,
            cy: 6,
            yaw: 32767,
        }),
    ),
    (
        b"a curve 5 6 7 8 9 10 1 -2 3 -4",
        Outcome::One(Act::Curve {
            p1: [5, 6, 7],
            p2: [8, 9, 10],
            to: POINT,
        }),
    ),
];

#[test]
fn lines_of_a_cue_are_read(rt: HostRuntime) {
    for &(line, wanted) in ACT_LINES {
        assert!(rt; outcome_of(rt.alloc(), Form::Whole, Place::InCue, line) == wanted);
    }
}

const REFUSALS: &[(Place, &[u8], LineKind)] = &[
    // the first word, then how many there are, then the others from the left
    (Place::Top, b"at a 0 0 0 0", LineKind::BadWord),
    (Place::InFigure, b"perform g x 0 0 0 0 a", LineKind::BadWord),
    (Place::Top, b"drone Solo 0 0 0", LineKind::BadCount),
    (Place::Top, b"drone Solo 0 0 0 x", LineKind::BadName),
    (Place::Top, b"drone form 0 0 0 0", LineKind::BadName),
    (Place::Top, b"cue 1.5", LineKind::BadNumber),
    (Place::Top, b"cue 65536", LineKind::Range),
    (Place::Top, b"stray 1001", LineKind::Range),
    (Place::Top, b"stray -1", LineKind::Range),
    (Place::Top, b"stray x", LineKind::BadNumber),
    (Place::Top, b"stray", LineKind::BadCount),
    (Place::Top, b"late 1001", LineKind::Range),
    (Place::Top, b"late -1", LineKind::Range),
    (Place::Top, b"late 0.5", LineKind::BadNumber),
    (Place::Top, b"late 1 2", LineKind::BadCount),
    (Place::InFormation, b"stray 1", LineKind::BadWord),
    (Place::InFigure, b"late 1", LineKind::BadWord),
    (Place::InRepeat, b"late 1", LineKind::BadWord),
    (Place::InCue, b"stray 1", LineKind::BadWord),
    // in a cue the name and the act come before the number of words
    (Place::InCue, b"Solo jump", LineKind::BadName),
    (Place::InCue, b"solo jump 0", LineKind::BadWord),
    (Place::InCue, b"solo", LineKind::BadCount),
    (Place::InCue, b"solo arcin cw 0 0 0", LineKind::BadWord),
    (Place::InCue, b"solo arc_out up 0 0", LineKind::BadCount),
    (Place::InCue, b"solo arc_in up x 0 0", LineKind::BadWord),
    (Place::InCue, b"solo swing cw 0 0 32768", LineKind::Range),
    (Place::Top, b"swing cw 0 0 0", LineKind::BadWord),
    (Place::InCue, b"form f curve", LineKind::BadWord),
    (Place::InFigureCue, b"form f line", LineKind::BadName),
];

#[test]
fn faulty_lines_are_refused(rt: HostRuntime) {
    for &(place, line, kind) in REFUSALS {
        assert!(rt; outcome_of(rt.alloc(), Form::Whole, place, line) == Outcome::Fault(kind));
    }
}

// Lines in which lengths, times and angles have units.
const UNIT_LINES: &[(Place, &[u8], Outcome)] = &[
    (Place::Top, b"memory 255 4095", Outcome::Memory(255, 4095)),
    (
        Place::Top,
        b"ellipsoid 0.1cm 2.000m",
        Outcome::Ellipsoid(1, 2000),
    ),
    (Place::Top, b"stray 1000000um", Outcome::Stray(1000)),
    (Place::Top, b"stray -0", Outcome::Stray(0)),
    (Place::Top, b"late 0.020s", Outcome::Late(20)),
    (
        Place::Top,
        b"drone cue 0.001mm -2um 0.0003cm -0.4deg",
        Outcome::Drone(POINT),
    ),
    (Place::InFigure, b"cue 65.535s", Outcome::Cue(65_535)),
    (
        Place::InRepeat,
        b"repeat 1000000000",
        Outcome::Repeat(1_000_000_000),
    ),
    (
        Place::InRepeat,
        b"perform g y 3 1um -0.000002m 3.0um a b",
        Outcome::Perform(FRAME, 2),
    ),
    (
        Place::InCue,
        b"a turn -3276.8deg",
        Outcome::One(Act::Turn { yaw: -32_768 }),
    ),
    (Place::InCue, b"form f line", Outcome::Form(false)),
];

#[test]
fn lines_with_units_are_read(rt: HostRuntime) {
    for &(place, line, wanted) in UNIT_LINES {
        assert!(rt; outcome_of(rt.alloc(), Form::Units, place, line) == wanted);
    }
}

const UNIT_REFUSALS: &[(Place, &[u8], LineKind)] = &[
    // a unit is missing, or of another kind
    (Place::Top, b"cue 1500", LineKind::BadNumber),
    (Place::Top, b"late 1m", LineKind::BadNumber),
    (Place::Top, b"stray 1ms", LineKind::BadNumber),
    (Place::InCue, b"a turn 900", LineKind::BadNumber),
    (Place::InCue, b"a turn 0m", LineKind::BadNumber),
    (Place::Top, b"drone a 0.0 0 0 0", LineKind::BadNumber),
    (Place::Top, b"drone a 1km 0 0 0", LineKind::BadNumber),
    // one stands where a number is only counted
    (Place::Top, b"memory 2 16ms", LineKind::BadNumber),
    (Place::InRepeat, b"repeat 2s", LineKind::BadNumber),
    (
        Place::InRepeat,
        b"perform g y 1deg 0 0 0 a",
        LineKind::BadNumber,
    ),
    // no digit before the point or after it, and parts of what the place counts
    (Place::Top, b"drone a .5m 0 0 0", LineKind::BadNumber),
    (Place::Top, b"drone a 1.m 0 0 0", LineKind::BadNumber),
    (Place::Top, b"stray 1.5mm", LineKind::BadNumber),
    (Place::Top, b"cue 0.5ms", LineKind::BadNumber),
    // ranges
    (Place::Top, b"cue 65.536s", LineKind::Range),
    (Place::Top, b"cue 0s", LineKind::Range),
    (Place::Top, b"ellipsoid 1mm 2001mm", LineKind::Range),
];

#[test]
fn faulty_lines_with_units_are_refused(rt: HostRuntime) {
    for &(place, line, kind) in UNIT_REFUSALS {
        assert!(rt; outcome_of(rt.alloc(), Form::Units, place, line) == Outcome::Fault(kind));
    }
}

#[test]
fn a_unit_among_whole_numbers_is_refused(rt: HostRuntime) {
    let found = outcome_of(rt.alloc(), Form::Whole, Place::Top, b"cue 2s");
    assert!(rt; found == Outcome::Fault(LineKind::BadNumber));
}

// Whether a line opens the figure `g` with the roles `p` and `q_2`, in this order.
fn is_figure(entry: &Entry) -> bool {
    match entry {
        Entry::Figure { name, roles } => match roles.as_slice() {
            [p, q] => {
                name.as_slice() == b"g".as_slice()
                    && p.as_slice() == b"p".as_slice()
                    && q.as_slice() == b"q_2".as_slice()
            }
            _ => false,
        },
        _ => false,
    }
}

#[test]
fn names_are_kept_in_order(rt: HostRuntime) {
    let line = b"figure g p q_2".as_slice();
    let Ok(words) = tokens(rt.alloc(), line, Comments::FromHash) else {
        panic!(rt; "no words");
    };
    let kept = !words.is_empty()
        && match entry_of(rt.alloc(), Form::Whole, Place::Top, line, words.as_slice()) {
            Ok(entry) => is_figure(&entry),
            Err(_) => false,
        };
    assert!(rt; kept);
}
