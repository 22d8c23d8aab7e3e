//! Shows by their texts: how many cues they have, or what is wrong with their names and cues; and where frames put a
//! point.

ghost use Rattle.std.specs.Prelude.{◌≡◌};
ghost use Rattle.choreo_show.specs.Plain.{plain};
ghost use Rattle.choreo_show.specs.Valid.{IsValid};

use choreo_reader::{Frame, LineKind, Mirror, Point, Show, ShowFault, read_show};
use cue_grid::{GridFault, UnrollError, apply, mirror, quarter_turn, shift, unroll};
use std::alloc::Global;

/// What becomes of a text: this many cues, a faulty line, or a fault of names or cues.
#[derive(Clone, Copy, PartialEq, Eq)]
enum Outcome {
    Cues(usize),
    Line(u32, LineKind),
    Fault(GridFault),
    TooLarge,
    Memory,
}

fn outcome_of_show(alloc: Global, show: &Show) -> Outcome
    requires { IsValid (plain show.now) }
{
    match unroll(alloc, show) {
        Ok(grid) => Outcome::Cues(grid.cues.as_slice().len()),
        Err(UnrollError::Fault { fault }) => Outcome::Fault(fault),
        Err(UnrollError::Memory) => Outcome::Memory,
    }
}

fn outcome_of(alloc: Global, text: &[u8]) -> Outcome {
    if text.len() > 1_048_576 {
        return Outcome::TooLarge;
    }
    match read_show(alloc, text) {
        Ok(show) => outcome_of_show(alloc, &show),
        Err(ShowFault::Line { line, kind }) => Outcome::Line(line, kind),
        Err(ShowFault::Memory) => Outcome::Memory,
    }
}

// The lines that are faulty for a name, a count of words or an open block.
const FAULTY_LINES: &[(&[u8], Outcome)] = &[
    // nothing at all
    (b"", Outcome::Line(1, LineKind::Header)),
    // another version
    (
        b"choreo 3\ndrone solo 0 0 1000000 0\ncue 2000\nsolo move 1000000 0 1000000 0\nend\n",
        Outcome::Line(1, LineKind::Header),
    ),
    // an upper-case name
    (
        b"choreo 1\ndrone Solo 0 0 1000000 0\ncue 2000\nsolo move 1000000 0 1000000 0\nend\n",
        Outcome::Line(2, LineKind::BadName),
    ),
    // an act line of one word
    (
        b"choreo 1\ndrone solo 0 0 1000000 0\ncue 2000\nsolo\nend\n",
        Outcome::Line(4, LineKind::BadCount),
    ),
    // no such act
    (
        b"choreo 1\ndrone solo 0 0 1000000 0\ncue 2000\nsolo jump 0\nend\n",
        Outcome::Line(4, LineKind::BadWord),
    ),
    // a repeat without a line
    (
        b"choreo 1\ndrone solo 0 0 1000000 0\ncue 2000\nsolo move 1000000 0 1000000 0\nend\nrepeat 2\nend\n",
        Outcome::Line(7, LineKind::EmptyBlock),
    ),
    // a cue that is not closed
    (
        b"choreo 1\ndrone solo 0 0 1000000 0\ncue 2000\nsolo move 1000000 0 1000000 0\n",
        Outcome::Line(3, LineKind::NoEnd),
    ),
    // a ninth repeat
    (
        b"choreo 1\ndrone solo 0 0 1000000 0\nrepeat 1000000000\nrepeat 1000000000\nrepeat 1000000000\n\
        repeat 1000000000\nrepeat 1000000000\nrepeat 1000000000\nrepeat 1000000000\nrepeat 1000000000\n\
        repeat 1000000000\ncue 1000\nend\nend\nend\nend\nend\nend\nend\nend\nend\nend\n",
        Outcome::Line(11, LineKind::Nesting),
    ),
];

#[test]
fn faulty_lines(rt: HostRuntime) {
    for &(text, wanted) in FAULTY_LINES {
        assert!(rt; outcome_of(rt.alloc(), text) == wanted);
    }
}

// What is wrong with names, and where.
const FAULTS_OF_NAMES: &[(&[u8], Outcome)] = &[
    // no drone comes before no cue
    (
        b"choreo 1\n",
        Outcome::Fault(GridFault::NoDrone { line: 1 }),
    ),
    // a 33rd drone comes before a name that stands twice
    (
        b"choreo 1\ndrone a 0 0 0 0\ndrone a 0 0 0 0\ndrone a 0 0 0 0\ndrone a 0 0 0 0\ndrone a 0 0 0 0\n\
        drone a 0 0 0 0\ndrone a 0 0 0 0\ndrone a 0 0 0 0\ndrone a 0 0 0 0\ndrone a 0 0 0 0\ndrone a 0 0 0 0\n\
        drone a 0 0 0 0\ndrone a 0 0 0 0\ndrone a 0 0 0 0\ndrone a 0 0 0 0\ndrone a 0 0 0 0\ndrone a 0 0 0 0\n\
        drone a 0 0 0 0\ndrone a 0 0 0 0\ndrone a 0 0 0 0\ndrone a 0 0 0 0\ndrone a 0 0 0 0\ndrone a 0 0 0 0\n\
        drone a 0 0 0 0\ndrone a 0 0 0 0\ndrone a 0 0 0 0\ndrone a 0 0 0 0\ndrone a 0 0 0 0\ndrone a 0 0 0 0\n\
        drone a 0 0 0 0\ndrone a 0 0 0 0\ndrone a 0 0 0 0\ndrone a 0 0 0 0\n",
        Outcome::Fault(GridFault::TooManyDrones { line: 34 }),
    ),
    // a drone twice
    (
        b"choreo 1\ndrone solo 0 0 1000000 0\ndrone solo 0 0 1000000 0\ncue 2000\nsolo move 1000000 0 1000000 0\nend\n",
        Outcome::Fault(GridFault::DoubleName { line: 3 }),
    ),
    // an act twice
    (
        b"choreo 1\ndrone solo 0 0 1000000 0\ncue 2000\nsolo move 1000000 0 1000000 0\nsolo move 1000000 0 1000000 0\n\
        end\n",
        Outcome::Fault(GridFault::DoubleAct { line: 5 }),
    ),
    // an act of nobody
    (
        b"choreo 1\ndrone solo 0 0 1000000 0\ncue 2000\nother hold\nend\n",
        Outcome::Fault(GridFault::UnknownName { line: 4 }),
    ),
    // a figure for nobody
    (
        b"choreo 1\ndrone solo 0 0 1000000 0\nfigure go p\ncue 1000\np line 1000000 0 1000000 0\nend\nend\n\
        perform go y 1 0 0 500000 other\n",
        Outcome::Fault(GridFault::UnknownName { line: 8 }),
    ),
    // a figure for too many
    (
        b"choreo 1\ndrone solo 0 0 1000000 0\nfigure go p\ncue 1000\np line 1000000 0 1000000 0\nend\nend\n\
        perform go y 1 0 0 500000 solo solo\n",
        Outcome::Fault(GridFault::RoleCount { line: 8 }),
    ),
    // no such figure
    (
        b"choreo 1\ndrone solo 0 0 1000000 0\nfigure go p\ncue 1000\np line 1000000 0 1000000 0\nend\nend\n\
        perform come y 1 0 0 500000 solo\n",
        Outcome::Fault(GridFault::UnknownName { line: 8 }),
    ),
    // two roles of one name
    (
        b"choreo 1\ndrone a 0 0 0 0\nfigure go p p\ncue 1\nend\nend\n",
        Outcome::Fault(GridFault::DoubleName { line: 3 }),
    ),
    // one drone for two roles
    (
        b"choreo 1\ndrone a 0 0 0 0\nfigure go p q\ncue 1\nend\nend\nperform go none 0 0 0 0 a a\n",
        Outcome::Fault(GridFault::DoubleAct { line: 7 }),
    ),
    // a figure twice
    (
        b"choreo 1\ndrone solo 0 0 1000000 0\nfigure go p\ncue 1000\np line 1000000 0 1000000 0\nend\nend\n\
        figure go p\ncue 1000\np line 1000000 0 1000000 0\nend\nend\n",
        Outcome::Fault(GridFault::DoubleName { line: 8 }),
    ),
    // a formation twice
    (
        b"choreo 1\ndrone a 0 0 0 0\nformation f\nat a 0 0 0 0\nend\nformation f\nat a 0 0 0 0\nend\n",
        Outcome::Fault(GridFault::DoubleName { line: 6 }),
    ),
    // a place of nobody
    (
        b"choreo 1\ndrone a 0 0 0 0\nformation f\nat b 0 0 0 0\nend\n",
        Outcome::Fault(GridFault::UnknownName { line: 4 }),
    ),
    // a place twice
    (
        b"choreo 1\ndrone a 0 0 0 0\nformation f\nat a 0 0 0 0\nat a 1 0 0 0\nend\n",
        Outcome::Fault(GridFault::DoubleAct { line: 5 }),
    ),
    // an act after a form
    (
        b"choreo 1\ndrone a 0 0 0 0\ncue 1\nform f line\na hold\nend\nformation f\nat a 0 0 0 0\nend\n",
        Outcome::Fault(GridFault::DoubleAct { line: 5 }),
    ),
    // two formations place a name that is no drone's
    (
        b"choreo 1\ndrone a 0 0 0 0\ncue 1\nform f line\nform g line\nend\nformation f\nat z 0 0 0 0\nend\n\
        formation g\nat z 0 0 0 0\nend\n",
        Outcome::Fault(GridFault::DoubleAct { line: 5 }),
    ),
    // a form after an act
    (
        b"choreo 1\ndrone a 0 0 0 0\ndrone b 0 0 0 0\ncue 1\nb hold\nform f line\nend\nformation f\nat a 0 0 0 0\n\
        at b 0 0 0 0\nend\n",
        Outcome::Fault(GridFault::DoubleAct { line: 6 }),
    ),
    // an act of a role twice
    (
        b"choreo 1\ndrone a 0 0 0 0\nfigure go p\ncue 1\np hold\np hold\nend\nend\nperform go none 0 0 0 0 a\n",
        Outcome::Fault(GridFault::DoubleAct { line: 6 }),
    ),
    // no such formation
    (
        b"choreo 1\ndrone a 0 0 0 0\ncue 1\nform f line\nend\n",
        Outcome::Fault(GridFault::UnknownName { line: 4 }),
    ),
];

#[test]
fn faults_of_names(rt: HostRuntime) {
    for &(text, wanted) in FAULTS_OF_NAMES {
        assert!(rt; outcome_of(rt.alloc(), text) == wanted);
    }
}

// How many cues there are.
const NUMBERS_OF_CUES: &[(&[u8], Outcome)] = &[
    // one cue
    (
        b"choreo 1\ndrone solo 0 0 1000000 0\ncue 2000\nsolo move 1000000 0 1000000 0\nend\n",
        Outcome::Cues(1),
    ),
    // no cue
    (
        b"choreo 1\ndrone solo 0 0 1000000 0\n",
        Outcome::Fault(GridFault::NoCue { line: 1 }),
    ),
    // 1,000 cues
    (
        b"choreo 1\ndrone solo 0 0 1000000 0\nrepeat 1000\ncue 1000\nend\nend\n",
        Outcome::Cues(1000),
    ),
    // 1,001 cues
    (
        b"choreo 1\ndrone solo 0 0 1000000 0\nrepeat 1001\ncue 1000\nend\nend\n",
        Outcome::Fault(GridFault::TooManyCues { line: 3 }),
    ),
    // eight repeats of a thousand million
    (
        b"choreo 1\ndrone solo 0 0 1000000 0\nrepeat 1000000000\nrepeat 1000000000\nrepeat 1000000000\n\
        repeat 1000000000\nrepeat 1000000000\nrepeat 1000000000\nrepeat 1000000000\nrepeat 1000000000\ncue 1000\nend\n\
        end\nend\nend\nend\nend\nend\nend\nend\n",
        Outcome::Fault(GridFault::TooManyCues { line: 3 }),
    ),
    // one cue after 1,000
    (
        b"choreo 1\ndrone solo 0 0 1000000 0\nrepeat 1000\ncue 1000\nend\nend\ncue 1\nend\n",
        Outcome::Fault(GridFault::TooManyCues { line: 7 }),
    ),
    // repeats in repeats
    (
        b"choreo 1\ndrone solo 0 0 1000000 0\nrepeat 2\nrepeat 3\ncue 1\nend\nend\ncue 2\nend\nend\n",
        Outcome::Cues(8),
    ),
    // two cues, each of a form and an act
    (
        b"choreo 1\ndrone a 0 0 0 0\ndrone b 0 0 0 0\ncue 1\nform f line\nb hold\nend\ncue 1\na hold\nform g line\n\
        end\nformation f\nat a 0 0 0 0\nend\nformation g\nat b 0 0 0 0\nend\n",
        Outcome::Cues(2),
    ),
    // a figure of two cues in a repeat
    (
        b"choreo 1\ndrone a 0 0 0 0\nrepeat 3\nperform go x 0 0 0 0 a\nend\nfigure go p\nrepeat 2\ncue 1\nend\nend\n\
        end\n",
        Outcome::Cues(6),
    ),
];

#[test]
fn numbers_of_cues(rt: HostRuntime) {
    for &(text, wanted) in NUMBERS_OF_CUES {
        assert!(rt; outcome_of(rt.alloc(), text) == wanted);
    }
}

fn point(x: i64, y: i64, z: i64, yaw: i64) -> Point
    ensures { result ≡ record { x = x; y = y; z = z; yaw = yaw } }
{
    Point { x, y, z, yaw }
}

// The figure's place (1000000, 0, 1000000) with yaw 0, mirrored at y, turned once and lifted by half a metre, and the
// steps at a point with four different numbers.
#[test]
fn frames(rt: HostRuntime) {
    let lifted = Frame {
        mirror: Mirror::Y,
        turns: 1,
        dx: 0,
        dy: 0,
        dz: 500_000,
    };
    let place = point(1_000_000, 0, 1_000_000, 0);
    let put = apply(&lifted, place) == point(0, 1_000_000, 1_500_000, 900);
    let frame = Frame {
        mirror: Mirror::X,
        turns: 3,
        dx: 10,
        dy: 20,
        dz: 30,
    };
    let p = point(1, 2, 3, 4);
    let mirrored = mirror(&frame, p) == point(-1, 2, 3, 1796);
    let turned = quarter_turn(&frame, p) == point(2, -1, 3, 2704);
    let shifted = shift(&frame, p) == point(11, 22, 33, 4);
    assert!(rt; put && mirrored && turned && shifted);
}
