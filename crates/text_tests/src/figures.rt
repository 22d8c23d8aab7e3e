//! Shows by their texts: the control values of their figures, or the first value that no trajectory can hold.
ghost use Rattle.choreo_show.specs.Plain.{plain};
ghost use Rattle.choreo_show.specs.Valid.{IsValid};
ghost use Rattle.cue_grid.specs.Grids.{IsGrid};

use choreo_reader::{Show, read_show};
use cue_grid::{Grid, unroll};
use figure_expand::{AxisValue, range_fault, step};
use mm_rounding::{Axis, MicroPiece};
use std::alloc::Global;

/// What becomes of a text: the last piece of its first drone, a value out of range, or something else.
#[derive(Clone, Copy, PartialEq, Eq)]
enum Outcome {
    Piece(MicroPiece),
    OutOfRange(AxisValue),
    Other,
}

// What the first drone does in the last of one or two cues.
fn last_piece(grid: &Grid) -> Outcome
    requires { IsGrid grid.now }
{
    let cues = grid.cues.as_slice();
    let mut point = grid.starts.as_slice()[0].at;
    let first = step(&mut point, 0, &cues[0]);
    if cues.len() > 1 {
        return Outcome::Piece(step(&mut point, 0, &cues[1]));
    }
    Outcome::Piece(first)
}

fn outcome_of_grid(alloc: Global, grid: &Grid) -> Outcome
    requires { IsGrid grid.now }
{
    match range_fault(alloc, grid) {
        Ok(None) => last_piece(grid),
        Ok(Some(value)) => Outcome::OutOfRange(value),
        Err(_) => Outcome::Other,
    }
}

fn outcome_of_show(alloc: Global, show: &Show) -> Outcome
    requires { IsValid (plain show.now) }
{
    match unroll(alloc, show) {
        Ok(grid) => outcome_of_grid(alloc, &grid),
        Err(_) => Outcome::Other,
    }
}

fn outcome_of(alloc: Global, text: &[u8]) -> Outcome {
    if text.len() > 1_048_576 {
        return Outcome::Other;
    }
    match read_show(alloc, text) {
        Ok(show) => outcome_of_show(alloc, &show),
        Err(_) => Outcome::Other,
    }
}

fn piece(axes: [Axis; 4]) -> Outcome {
    Outcome::Piece(MicroPiece { ms: 1000, axes })
}

// Control values that are known from outside.
const FIGURES: &[(&[u8], [Axis; 4])] = &[
    // a quarter circle
    (
        b"choreo 1\ndrone solo 1000000 0 1000000 0\ncue 1000\nsolo arc ccw 0 0 0\nend\n",
        [
            Axis::Four {
                v: [1_000_000, 1_000_000, 552_285, 0],
            },
            Axis::Four {
                v: [0, 552_285, 1_000_000, 1_000_000],
            },
            Axis::One { v: 1_000_000 },
            Axis::Two { v: [0, 0] },
        ],
    ),
    // the same in a mirror goes round the other way
    (
        b"choreo 1\ndrone solo 1000000 0 1000000 0\nfigure go p\ncue 1000\np arc ccw 0 0 0\nend\nend\n\
        perform go y 0 0 0 0 solo\n",
        [
            Axis::Four {
                v: [1_000_000, 1_000_000, 552_285, 0],
            },
            Axis::Four {
                v: [0, -552_285, -1_000_000, -1_000_000],
            },
            Axis::One { v: 1_000_000 },
            Axis::Two { v: [0, 0] },
        ],
    ),
    // a figure mirrored, turned and shifted
    (
        b"choreo 1\ndrone solo 0 0 1000000 0\nfigure go p\ncue 1000\np line 1000000 0 1000000 0\nend\nend\n\
        perform go y 1 0 0 500000 solo\n",
        [
            Axis::Two { v: [0, 0] },
            Axis::Two { v: [0, 1_000_000] },
            Axis::Two {
                v: [1_000_000, 1_500_000],
            },
            Axis::Two { v: [0, 900] },
        ],
    ),
    // from rest to rest
    (
        b"choreo 1\ndrone solo 1000000 0 1000000 0\ncue 1000\nsolo swing ccw 0 0 0\nend\n",
        [
            Axis::Eight {
                v: [1_000_000, 1_000_000, 1_000_000, 1_063_179, 696_647, 0, 0, 0],
            },
            Axis::Eight {
                v: [0, 0, 0, 696_647, 1_063_179, 1_000_000, 1_000_000, 1_000_000],
            },
            Axis::One { v: 1_000_000 },
            Axis::Eight {
                v: [0, 0, 0, 0, 0, 0, 0, 0],
            },
        ],
    ),
    // clockwise around a centre aside, from negative places
    (
        b"choreo 1\ndrone solo -1234567 765433 1000000 1800\ncue 1000\nsolo swing cw -1000001 -999 -1801\nend\n",
        [
            Axis::Eight {
                v: [
                    -1_234_567, -1_234_567, -1_234_567, -715_454, -348_557, -233_569, -233_569,
                    -233_569,
                ],
            },
            Axis::Eight {
                v: [
                    765_433, 765_433, 765_433, 977_265, 782_320, 233_567, 233_567, 233_567,
                ],
            },
            Axis::One { v: 1_000_000 },
            Axis::Eight {
                v: [1800, 1800, 1800, 1800, -1801, -1801, -1801, -1801],
            },
        ],
    ),
    // from rest into an arc
    (
        b"choreo 1\ndrone solo 1000003 -2 1000000 0\ncue 1000\nsolo arc_in ccw 0 0 900\nend\n",
        [
            Axis::Eight {
                v: [
                    1_000_003, 1_000_003, 1_000_147, 993_510, 974_939, 785_076, 473_390, 2,
                ],
            },
            Axis::Eight {
                v: [
                    -2, -2, 114_404, 186_896, 507_934, 741_519, 1_000_002, 1_000_003,
                ],
            },
            Axis::One { v: 1_000_000 },
            Axis::Eight {
                v: [0, 0, 43, 129, 257, 429, 643, 900],
            },
        ],
    ),
    // from an arc to rest
    (
        b"choreo 1\ndrone solo -7 12 1000000 -1\ncue 1000\nsolo arc_out cw 3 -5 10\nend\n",
        [
            Axis::Eight {
                v: [-7, 1, 9, 15, 18, 19, 20, 20],
            },
            Axis::Eight {
                v: [12, 17, 16, 14, 8, 7, 5, 5],
            },
            Axis::One { v: 1_000_000 },
            Axis::Eight {
                v: [-1, 2, 5, 7, 8, 9, 10, 10],
            },
        ],
    ),
    // in the mirror y, around the other way
    (
        b"choreo 1\ndrone solo 1000000 0 1000000 0\nfigure go p\ncue 1000\np arc_in ccw 0 0 90\nend\nend\n\
        perform go y 0 0 0 0 solo\n",
        [
            Axis::Eight {
                v: [
                    1_000_000, 1_000_000, 1_000_144, 993_507, 974_935, 785_073, 473_387, 0,
                ],
            },
            Axis::Eight {
                v: [
                    0, 0, -114_406, -186_897, -507_934, -741_519, -1_000_000, -1_000_000,
                ],
            },
            Axis::One { v: 1_000_000 },
            Axis::Eight {
                v: [0, 0, -4, -13, -26, -43, -64, -90],
            },
        ],
    ),
    // in a frame with all three steps
    (
        b"choreo 1\ndrone solo 1000000 0 1000000 0\nfigure go p\ncue 1000\np arc_out ccw -500000 250000 100\nend\n\
        end\nperform go x 1 1 -2 0 solo\n",
        [
            Axis::Eight {
                v: [
                    1_000_000, 763_307, 284_364, -102_548, -513_130, -607_062, -749_997, -749_997,
                ],
            },
            Axis::Eight {
                v: [
                    0, -591_733, -852_100, -972_636, -835_333, -807_384, -750_001, -750_001,
                ],
            },
            Axis::One { v: 1_000_000 },
            Axis::Eight {
                v: [0, 743, 1362, 1857, 2229, 2476, 2600, 2600],
            },
        ],
    ),
    // a turn, after a movement
    (
        b"choreo 1\ndrone solo 0 0 1000000 0\ncue 2000\nsolo move 5 6 7 8\nend\ncue 1000\nsolo turn 900\nend\n",
        [
            Axis::One { v: 5 },
            Axis::One { v: 6 },
            Axis::One { v: 7 },
            Axis::Eight {
                v: [8, 8, 8, 8, 900, 900, 900, 900],
            },
        ],
    ),
    // a curve
    (
        b"choreo 1\ndrone solo 0 0 1000000 0\ncue 1000\nsolo curve 1 2 3 4 5 6 7 8 9 10\nend\n",
        [
            Axis::Four { v: [0, 1, 4, 7] },
            Axis::Four { v: [0, 2, 5, 8] },
            Axis::Four {
                v: [1_000_000, 3, 6, 9],
            },
            Axis::Two { v: [0, 10] },
        ],
    ),
];

#[test]
fn figures(rt: HostRuntime) {
    for &(text, axes) in FIGURES {
        assert!(rt; outcome_of(rt.alloc(), text) == piece(axes));
    }
}

// The first value that no trajectory can hold.
const RANGES: &[(&[u8], AxisValue)] = &[
    (
        b"choreo 1\ndrone solo 32767500 0 1000000 0\ncue 2000\nsolo move 1000000 0 1000000 0\nend\n",
        AxisValue {
            line: 2,
            axis: 0,
            value: 32_767_500,
        },
    ),
    (
        b"choreo 1\ndrone solo -32768501 0 1000000 0\ncue 2000\nsolo move 1000000 0 1000000 0\nend\n",
        AxisValue {
            line: 2,
            axis: 0,
            value: -32_768_501,
        },
    ),
    // a control point of a quarter circle from rest to rest, whose ends fit
    (
        b"choreo 1\ndrone solo 32000000 0 1000000 0\ncue 1000\nsolo swing ccw 0 0 0\nend\n",
        AxisValue {
            line: 4,
            axis: 0,
            value: 34_021_728,
        },
    ),
    // the end of a movement
    (
        b"choreo 1\ndrone solo -32768500 32767499 1000000 0\ncue 2000\nsolo move 0 40000000 1000000 0\nend\n",
        AxisValue {
            line: 4,
            axis: 1,
            value: 40_000_000,
        },
    ),
];

#[test]
fn ranges(rt: HostRuntime) {
    for &(text, wanted) in RANGES {
        assert!(rt; outcome_of(rt.alloc(), text) == Outcome::OutOfRange(wanted));
    }
}
