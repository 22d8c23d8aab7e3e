//! Rounded numbers and segments that are known from outside.
use mm_rounding::{Axis, MicroPiece, round_piece, to_mm};
use traj_codec::{Element, Segment};

// Ties go up, below zero too, and the ends of two bytes.
#[test]
fn numbers(rt: HostRuntime) {
    let rows = [
        (-500, Some(0)),
        (-501, Some(-1)),
        (500, Some(1)),
        (499, Some(0)),
        (32_767_499, Some(32767)),
        (32_767_500, None),
        (-32_768_500, Some(-32768)),
        (-32_768_501, None),
    ];
    for (v, mm) in rows {
        assert!(rt; to_mm(v) == mm);
    }
}

fn quarter(ms: u16, yaw: i64) -> MicroPiece {
    MicroPiece {
        ms,
        axes: [
            Axis::Four {
                v: [1_000_000, 1_000_000, 552_285, 0],
            },
            Axis::Four {
                v: [0, 552_285, 1_000_000, 1_000_000],
            },
            Axis::Two {
                v: [1_000_400, 999_600],
            },
            Axis::One { v: yaw },
        ],
    }
}

// A quarter circle: its curves stay cubic, and what differs by less than a millimetre is constant.
#[test]
fn quarter_circle(rt: HostRuntime) {
    let segment = Segment {
        ms: 1000,
        elements: [
            Element::Cubic { v: [1000, 552, 0] },
            Element::Cubic {
                v: [552, 1000, 1000],
            },
            Element::Constant,
            Element::Constant,
        ],
    };
    let rows = [
        (1000, 32767, Some(segment)),
        (0, 32767, None),
        (1000, 32768, None),
    ];
    for (ms, yaw, wanted) in rows {
        assert!(rt; round_piece(&quarter(ms, yaw)) == wanted);
    }
}
