//! Shows whose plans or bytes are known from outside.
ghost use Rattle.std.specs.Prelude.{IfOk};
ghost use Rattle.show_plan.specs.Fitting.{IsValidFitted};

use choreo_reader::read_show;
use cue_grid::GridFault;
use figure_expand::AxisValue;
use show_plan::{FitError, Fitted, PlanFault, fit, plan_text};
use std::alloc::Global;
use traj_codec::encode;
use whole_numbers::MOST_TEXT;

// The error is `None` where the text isn't a show, and where memory ran out.
pub fn fitted_of(alloc: Global, text: &[u8]) -> Result<Fitted, Option<PlanFault>>
    ensures { IfOk result (λ f. IsValidFitted f) }
{
    if text.len() > MOST_TEXT {
        return Err(None);
    }
    match read_show(alloc, text) {
        Ok(show) => match fit(alloc, &show) {
            Ok(fitted) => Ok(fitted),
            Err(FitError::Fault { fault }) => Err(Some(fault)),
            Err(FitError::Memory) => Err(None),
        },
        Err(_) => Err(None),
    }
}

// The bytes that the first drone is sent, where there is memory for them.
fn first_bytes(alloc: Global, fitted: &Fitted) -> Option<Vec<u8>>
    requires { IsValidFitted fitted.now }
{
    let sent = fitted.sent.as_slice();
    if sent.is_empty() {
        return None;
    }
    encode(alloc, &sent[0]).ok()
}

// A show; the first bytes of the first drone, or all where as many are given as there are; how many cues it has, its
// milliseconds, and how many bytes its first drone has.
type Row = (&'static [u8], &'static [u8], u16, u32, usize);

fn fits(alloc: Global, row: &Row) -> bool {
    let (text, wanted, cues, duration, count) = *row;
    let Ok(fitted) = fitted_of(alloc, text) else {
        return false;
    };
    let Some(bytes) = first_bytes(alloc, &fitted) else {
        return false;
    };
    fitted.cues == cues
        && fitted.duration == duration
        && bytes.len() == count
        && bytes.starts_with(wanted)
}

const BYTES_OF_SHOWS: &[Row] = &[
    // one move
    (
        b"choreo 1\ndrone solo 0 0 1000000 0\ncue 2000\nsolo move 1000000 0 1000000 0\nend\n",
        b"\x00\x00\x00\x00\xE8\x03\x00\x00\x03\xD0\x07\x00\x00\x00\x00\x00\x00\xE8\x03\xE8\x03\xE8\x03\xE8\x03\x00\x00\
        \x00",
        1,
        2000,
        28,
    ),
    // the greatest start
    (
        b"choreo 1\ndrone solo 32767499 0 1000000 0\ncue 2000\nsolo move 1000000 0 1000000 0\nend\n",
        b"\xFF\x7F\x00\x00\xE8\x03\x00\x00",
        1,
        2000,
        28,
    ),
    // the least start
    (
        b"choreo 1\ndrone solo -32768500 0 1000000 0\ncue 2000\nsolo move 1000000 0 1000000 0\nend\n",
        b"\x00\x80",
        1,
        2000,
        28,
    ),
    // as much room as the bytes take
    (
        b"choreo 1\nmemory 2 4068\ndrone solo 0 0 1000000 0\ncue 2000\nsolo move 1000000 0 1000000 0\nend\n",
        b"\x00\x00\x00\x00\xE8\x03\x00\x00\x03\xD0\x07",
        1,
        2000,
        28,
    ),
    // 255 holds of a second: three segments of 65 seconds, and one of 60
    (
        b"choreo 1\ndrone solo 0 0 1000000 0\nrepeat 255\ncue 1000\nend\nend\n",
        b"\x00\x00\x00\x00\xE8\x03\x00\x00\x00\xE8\xFD\x00\xE8\xFD\x00\xE8\xFD\x00\x60\xEA\x00\x00\x00",
        255,
        255_000,
        23,
    ),
    // 1,000 cues
    (
        b"choreo 1\ndrone solo 0 0 1000000 0\nrepeat 1000\ncue 1000\nend\nend\n",
        b"\x00\x00\x00\x00\xE8\x03\x00\x00\x00\xE8\xFD\x00\xE8\xFD",
        1000,
        1_000_000,
        59,
    ),
    // 127 times there and back
    (
        b"choreo 1\ndrone solo 0 0 1000000 0\nrepeat 127\ncue 1000\nsolo line 100000 0 1000000 0\nend\ncue 1000\n\
        solo line 0 0 1000000 0\nend\nend\n",
        b"\x00\x00\x00\x00\xE8\x03\x00\x00\x01\xE8\x03\x64\x00",
        254,
        254_000,
        1281,
    ),
    // holds of 40,000, 30,000 and 30,000 ms are joined from the left
    (
        b"choreo 1\ndrone solo 0 0 1000000 0\ncue 40000\nend\ncue 30000\nend\ncue 30000\nend\n",
        b"\x00\x00\x00\x00\xE8\x03\x00\x00\x00\x40\x9C\x00\x60\xEA\x00\x00\x00",
        3,
        100_000,
        17,
    ),
    // a turn is no hold
    (
        b"choreo 1\ndrone solo 0 0 1000000 0\ncue 1000\nend\ncue 1000\nsolo turn 900\nend\ncue 1000\nend\n",
        b"\x00\x00\x00\x00\xE8\x03\x00\x00\x00\xE8\x03",
        3,
        3000,
        34,
    ),
    // what rounds to a hold is one
    (
        b"choreo 1\ndrone solo 0 0 1000000 0\ncue 1000\nend\ncue 1000\nsolo move 400 0 1000000 0\nend\ncue 1000\nend\n",
        b"\x00\x00\x00\x00\xE8\x03\x00\x00\x00\xB8\x0B\x00\x00\x00",
        3,
        3000,
        14,
    ),
    // a quarter arc
    (
        b"choreo 1\ndrone solo 1000000 0 1000000 0\ncue 1000\nsolo arc ccw 0 0 0\nend\n",
        b"\xE8\x03\x00\x00\xE8\x03\x00\x00\x0A\xE8\x03\xE8\x03\x28\x02\x00\x00\x28\x02\xE8\x03\xE8\x03\x00\x00\x00",
        1,
        1000,
        26,
    ),
    // a quarter circle from rest to rest
    (
        b"choreo 1\ndrone solo 1000000 0 1000000 0\ncue 1000\nsolo swing ccw 0 0 0\nend\n",
        b"\xE8\x03\x00\x00\xE8\x03\x00\x00\x0F\xE8\x03\xE8\x03\xE8\x03\x27\x04\xB9\x02\x00\x00\x00\x00\x00\x00\x00\x00\
        \x00\x00\xB9\x02\x27\x04\xE8\x03\xE8\x03\xE8\x03\x00\x00\x00",
        1,
        1000,
        42,
    ),
    // a quarter circle from an arc to rest, with yaw
    (
        b"choreo 1\ndrone solo 1000000 0 1000000 0\ncue 2000\nsolo arc_out ccw 0 0 900\nend\n",
        b"\xE8\x03\x00\x00\xE8\x03\x00\x00\xCF\xD0\x07\xE8\x03\xE6\x02\xFC\x01\xBB\x00\x72\x00\x00\x00\x00\x00\xD9\x01\
        \x11\x03\xCF\x03\xE2\x03\xE8\x03\xE8\x03\xE8\x03\x01\x01\xD7\x01\x83\x02\x03\x03\x59\x03\x84\x03\x84\x03\x00\
        \x00\x00",
        1,
        2000,
        56,
    ),
    // a figure in a frame
    (
        b"choreo 1\ndrone solo 0 0 1000000 0\nfigure go p\ncue 1000\np line 1000000 0 1000000 0\nend\nend\n\
        perform go y 1 0 0 500000 solo\n",
        b"\x00\x00\x00\x00\xE8\x03\x00\x00\x54\xE8\x03\xE8\x03\xDC\x05\x84\x03\x00\x00\x00",
        1,
        1000,
        20,
    ),
];

#[test]
fn bytes_of_shows(rt: HostRuntime) {
    for (k, row) in BYTES_OF_SHOWS.iter().enumerate() {
        assert!(rt; fits(rt.alloc(), row), "row {k}");
    }
}

// The first reason why a show has no plan.
const REFUSALS: &[(&[u8], PlanFault)] = &[
    // a number out of range
    (
        b"choreo 1\ndrone solo 32767500 0 1000000 0\ncue 2000\nsolo move 1000000 0 1000000 0\nend\n",
        PlanFault::OutOfRange {
            value: AxisValue {
                line: 2,
                axis: 0,
                value: 32_767_500,
            },
        },
    ),
    // a fault of names comes before a number out of range
    (
        b"choreo 1\ndrone solo 32767500 0 1000000 0\ncue 2000\nother hold\nend\n",
        PlanFault::Grid {
            fault: GridFault::UnknownName { line: 4 },
        },
    ),
    // a number out of range comes before want of room
    (
        b"choreo 1\nmemory 2 4095\ndrone solo -32768501 0 1000000 0\ncue 2000\nend\n",
        PlanFault::OutOfRange {
            value: AxisValue {
                line: 3,
                axis: 0,
                value: -32_768_501,
            },
        },
    ),
    // one byte too many
    (
        b"choreo 1\nmemory 2 4069\ndrone solo 0 0 1000000 0\ncue 2000\nsolo move 1000000 0 1000000 0\nend\n",
        PlanFault::TooLong {
            drone: 0,
            bytes: 28,
            room: 27,
        },
    ),
    // the second drone alone
    (
        b"choreo 1\nmemory 2 4076\ndrone a 0 0 1000000 0\ndrone b 0 0 1000000 0\ncue 2000\n\
        b move 1000000 0 1000000 0\nend\n",
        PlanFault::TooLong {
            drone: 1,
            bytes: 28,
            room: 20,
        },
    ),
    // both drones
    (
        b"choreo 1\nmemory 2 4090\ndrone a 0 0 1000000 0\ndrone b 0 0 1000000 0\ncue 2000\n\
        b move 1000000 0 1000000 0\nend\n",
        PlanFault::TooLong {
            drone: 0,
            bytes: 14,
            room: 6,
        },
    ),
    // one segment too many, judged before its bytes
    (
        b"choreo 1\nmemory 2 4090\ndrone solo 0 0 1000000 0\nrepeat 128\ncue 1000\nsolo line 100000 0 1000000 0\nend\n\
        cue 1000\nsolo line 0 0 1000000 0\nend\nend\n",
        PlanFault::TooManySegments {
            drone: 0,
            segments: 256,
        },
    ),
    // too many cues
    (
        b"choreo 1\ndrone solo 0 0 1000000 0\nrepeat 1001\ncue 1000\nend\nend\n",
        PlanFault::Grid {
            fault: GridFault::TooManyCues { line: 3 },
        },
    ),
];

fn is_refused(alloc: Global, text: &[u8], wanted: PlanFault) -> bool {
    match fitted_of(alloc, text) {
        Err(Some(fault)) => fault == wanted,
        _ => false,
    }
}

#[test]
fn refusals(rt: HostRuntime) {
    for &(text, fault) in REFUSALS {
        assert!(rt; is_refused(rt.alloc(), text, fault), "{text:?}");
    }
}

// Shows and the whole texts of their plans.
const PLANS: &[(&[u8], &[u8])] = &[
    // one drone
    (
        b"choreo 1\ndrone solo 0 0 1000000 0\ncue 2000\nsolo move 1000000 0 1000000 0\nend\n",
        b"plan 1\ndrone solo bytes 28 pieces 1\ndata 00 00 00 00 E8 03 00 00 03 D0 07 00 00 00 00 00 00 E8 03 E8 03 \
        E8 03 E8 03 00 00 00\nwrite 4E 02 00 00 00 00 00 00 00 00 E8 03 00 00 03 D0 07 00 00 00 00 00 00 E8 03 E8 03 \
        E8 03 E8\nwrite 4E 02 18 00 00 00 03 00 00 00\ndefine 8C 06 00 01 01 00 00 00 00 01\n\
        start 8C 05 00 00 00 00 00 00 80 3F\nend\n",
    ),
    // two drones with different bytes
    (
        b"choreo 1\ndrone a 0 0 1000000 0\ndrone b 1000000 0 1000000 0\ncue 3000\nb move 1000000 0 2000000 0\nend\n",
        b"plan 1\ndrone a bytes 14 pieces 1\ndata 00 00 00 00 E8 03 00 00 00 B8 0B 00 00 00\n\
        write 4E 02 00 00 00 00 00 00 00 00 E8 03 00 00 00 B8 0B 00 00 00\ndefine 8C 06 00 01 01 00 00 00 00 01\n\
        start 8C 05 00 00 00 00 00 00 80 3F\ndrone b bytes 28 pieces 1\n\
        data E8 03 00 00 E8 03 00 00 30 B8 0B E8 03 E8 03 E8 03 D0 07 D0 07 D0 07 D0 07 00 00 00\n\
        write 4E 02 00 00 00 00 E8 03 00 00 E8 03 00 00 30 B8 0B E8 03 E8 03 E8 03 D0 07 D0 07 D0 07 D0\n\
        write 4E 02 18 00 00 00 07 00 00 00\ndefine 8C 06 00 01 01 00 00 00 00 01\n\
        start 8C 05 00 00 00 00 00 00 80 3F\nend\n",
    ),
    // two holds in one piece
    (
        b"choreo 1\ndrone solo 0 0 1000000 0\ncue 1000\nend\ncue 2000\nend\n",
        b"plan 1\ndrone solo bytes 14 pieces 1\ndata 00 00 00 00 E8 03 00 00 00 B8 0B 00 00 00\n\
        write 4E 02 00 00 00 00 00 00 00 00 E8 03 00 00 00 B8 0B 00 00 00\ndefine 8C 06 00 01 01 00 00 00 00 01\n\
        start 8C 05 00 00 00 00 00 00 80 3F\nend\n",
    ),
    // a formation that names its drones in another order, and a figure of two roles that are played in another order
    (
        b"choreo 1\ndrone a 0 0 1000000 0\ndrone b 2000000 0 1000000 0\nformation f\nat b 2000000 1000000 1000000 0\n\
        at a 0 1000000 1000000 0\nend\nfigure g p q\ncue 1000\np line 0 0 1000000 0\nq line 1000000 0 1000000 0\nend\n\
        end\ncue 1000\nform f line\nend\nperform g none 1 0 2000000 0 b a\n",
        b"plan 1\ndrone a bytes 23 pieces 2\ndata 00 00 00 00 E8 03 00 00 04 E8 03 E8 03 44 E8 03 B8 0B 84 03 00 00 \
        00\nwrite 4E 02 00 00 00 00 00 00 00 00 E8 03 00 00 04 E8 03 E8 03 44 E8 03 B8 0B 84 03 00 00 00\n\
        define 8C 06 00 01 01 00 00 00 00 02\nstart 8C 05 00 00 00 00 00 00 80 3F\ndrone b bytes 25 pieces 2\n\
        data D0 07 00 00 E8 03 00 00 04 E8 03 E8 03 45 E8 03 00 00 D0 07 84 03 00 00 00\n\
        write 4E 02 00 00 00 00 D0 07 00 00 E8 03 00 00 04 E8 03 E8 03 45 E8 03 00 00 D0 07 84 03 00 00\n\
        write 4E 02 18 00 00 00 00\ndefine 8C 06 00 01 01 00 00 00 00 02\nstart 8C 05 00 00 00 00 00 00 80 3F\nend\n",
    ),
    // a repeat of a cue and a figure, in which one drone holds
    (
        b"choreo 1\ndrone a 0 0 1000000 0\ndrone b 1000000 0 1000000 0\nfigure back p\ncue 2000\n\
        p line 0 0 1000000 0\nend\nend\nrepeat 2\ncue 1000\na line 0 1000000 1000000 0\nend\n\
        perform back none 0 0 0 0 a\nend\n",
        b"plan 1\ndrone a bytes 31 pieces 4\ndata 00 00 00 00 E8 03 00 00 04 E8 03 E8 03 04 D0 07 00 00 04 E8 03 E8 \
        03 04 D0 07 00 00 00 00 00\nwrite 4E 02 00 00 00 00 00 00 00 00 E8 03 00 00 04 E8 03 E8 03 04 D0 07 00 00 04 \
        E8 03 E8 03 04\nwrite 4E 02 18 00 00 00 D0 07 00 00 00 00 00\ndefine 8C 06 00 01 01 00 00 00 00 04\n\
        start 8C 05 00 00 00 00 00 00 80 3F\ndrone b bytes 14 pieces 1\n\
        data E8 03 00 00 E8 03 00 00 00 70 17 00 00 00\nwrite 4E 02 00 00 00 00 E8 03 00 00 E8 03 00 00 00 70 17 00 \
        00 00\ndefine 8C 06 00 01 01 00 00 00 00 01\nstart 8C 05 00 00 00 00 00 00 80 3F\nend\n",
    ),
];

fn is_plan(alloc: Global, text: &[u8], wanted: &[u8]) -> bool {
    let Ok(fitted) = fitted_of(alloc, text) else {
        return false;
    };
    match plan_text(alloc, &fitted) {
        Ok(plan) => plan.bytes() == wanted,
        Err(_) => false,
    }
}

#[test]
fn plans(rt: HostRuntime) {
    for &(text, wanted) in PLANS {
        assert!(rt; is_plan(rt.alloc(), text, wanted), "{text:?}");
    }
}
