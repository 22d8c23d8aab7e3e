//! Positions that an independent program computed with fractions, and rows of docs/COMMANDS.md.
ghost use Rattle.std.specs.Prelude.{◌≡◌, ◌≤◌, IfOk};
ghost use Rattle.integer_player.specs.Played.{IsPlayable, duration_of};

use integer_player::{at, play_row};
use std::alloc::{AllocError, Global};
use std::test::Fail;
use traj_codec::{Element, Listed, Segment, Traj};

// A trajectory of these segments.
pub(crate) fn traj(alloc: Global, start: [i16; 4], segments: &[Segment]) -> Result<Traj, AllocError>
    ensures { IfOk result (λ t. t.segments ≡ segments.now) }
{
    let segments = Listed::from_vec(Vec::from_slice(alloc, segments)?);
    Ok(Traj { start, segments })
}

// Whether `at` gives these rows.
fn plays(t: &Traj, end: u32, rows: &[(u32, [i64; 4])]) -> bool
    requires playable { IsPlayable t.now }
    requires inside { end ≤ duration_of t.now }
{
    for (ms, row) in rows {
        if at(t, (*ms).min(end)) != *row {
            return false;
        }
    }
    true
}

#[test]
fn from_rest_to_rest(rt: HostRuntime) -> Result<(), Fail> {
    let segment = Segment {
        ms: 2000,
        elements: [
            Element::Seven {
                v: [0, 0, 0, 1000, 1000, 1000, 1000],
            },
            Element::Constant,
            Element::Constant,
            Element::Constant,
        ],
    };
    let t = traj(rt.alloc(), [0, 0, 1000, 0], &[segment])?;
    let rows = [
        (0, [0, 0, 1_000_000, 0]),
        (500, [70_556, 0, 1_000_000, 0]),
        (1000, [500_000, 0, 1_000_000, 0]),
        (1500, [929_443, 0, 1_000_000, 0]),
        (2000, [1_000_000, 0, 1_000_000, 0]),
    ];
    assert!(rt; plays(&t, 2000, &rows));
    Ok(())
}

#[test]
fn rounds_down_below_zero(rt: HostRuntime) -> Result<(), Fail> {
    let segment = Segment {
        ms: 3,
        elements: [
            Element::Linear { v: -1 },
            Element::Constant,
            Element::Constant,
            Element::Linear { v: 1 },
        ],
    };
    let t = traj(rt.alloc(), [0, 0, 1000, 0], &[segment])?;
    let rows = [
        (0, [0, 0, 1_000_000, 0]),
        (1, [-334, 0, 1_000_000, 3]),
        (2, [-667, 0, 1_000_000, 6]),
        (3, [-1000, 0, 1_000_000, 10]),
    ];
    assert!(rt; plays(&t, 3, &rows));
    Ok(())
}

#[test]
fn greatest_numbers(rt: HostRuntime) -> Result<(), Fail> {
    let segment = Segment {
        ms: 65_535,
        elements: [
            Element::Seven {
                v: [32_767, -32_768, 32_767, -32_768, 32_767, -32_768, 32_767],
            },
            Element::Seven { v: [-32_768; 7] },
            Element::Cubic {
                v: [-32_768, 32_767, -32_768],
            },
            Element::Seven {
                v: [32_767, -32_767, 1, -1, 899, -901, 32_765],
            },
        ],
    };
    let t = traj(rt.alloc(), [-32_768, 32_767, 32_767, -32_767], &[segment])?;
    let rows = [
        (0, [-32_768_000, 32_767_000, 32_767_000, -327_670]),
        (1, [-32_761_001, 32_760_000, 32_764_000, -327_601]),
        (2, [-32_754_003, 32_753_001, 32_761_000, -327_531]),
        (21_845, [-15_483, -28_932_390, 1_213_111, -52_301]),
        (32_767, [-501, -32_255_954, -500, -34_859]),
        (32_768, [-500, -32_256_063, -501, -34_856]),
        (43_691, [14_492, -32_738_044, -1_214_445, 9_459]),
        (65_533, [32_753_002, -32_768_000, -32_762_001, 327_578]),
        (65_534, [32_760_000, -32_768_000, -32_765_001, 327_614]),
        (65_535, [32_767_000, -32_768_000, -32_768_000, 327_650]),
    ];
    assert!(rt; plays(&t, 65_535, &rows));
    Ok(())
}

#[test]
fn greatest_numbers_the_other_way(rt: HostRuntime) -> Result<(), Fail> {
    let segment = Segment {
        ms: 65_535,
        elements: [
            Element::Linear { v: -32_768 },
            Element::Seven { v: [32_767; 7] },
            Element::Cubic {
                v: [32_767, -32_768, 32_767],
            },
            Element::Cubic {
                v: [-32_767, 32_765, -32_767],
            },
        ],
    };
    let t = traj(rt.alloc(), [32_767, -32_768, -32_768, 32_767], &[segment])?;
    let rows = [
        (0, [32_767_000, -32_768_000, -32_768_000, 327_670]),
        (1, [32_766_000, -32_761_001, -32_765_001, 327_640]),
        (2, [32_765_000, -32_754_002, -32_762_001, 327_610]),
        (21_845, [10_922_000, 28_931_389, -1_214_112, 12_131]),
        (32_767, [0, 32_254_953, -501, -8]),
        (32_768, [-1_000, 32_255_062, -500, -8]),
        (43_691, [-10_924_000, 32_737_043, 1_213_444, -12_149]),
        (65_533, [-32_766_000, 32_766_999, 32_761_000, -327_611]),
        (65_534, [-32_767_000, 32_766_999, 32_764_000, -327_641]),
        (65_535, [-32_768_000, 32_767_000, 32_767_000, -327_670]),
    ];
    assert!(rt; plays(&t, 65_535, &rows));
    Ok(())
}

// rows at the edges of three segments: the millisecond, then x, y and z in micrometres and the yaw
const EDGES: &[(u32, [i64; 4])] = &[
    (0, [0, 1_000_000, -5000, 9000]),
    (1, [1000, 1_000_000, -4998, 8982]),
    (999, [999_000, 1_000_000, 1_493_498, -8982]),
    (1000, [1_000_000, 1_000_000, 1_495_000, -9000]),
    (1001, [1_000_000, 973_574, 1_479_836, -9004]),
    (1003, [1_000_000, 780_221, 976_858, -9004]),
    (1006, [1_000_000, 229_201, 17_098, -8995]),
    (1007, [1_000_000, 0, 2000, -8990]),
    (1008, [999_000, 0, 2000, -8990]),
];

#[test]
fn edges_between_segments(rt: HostRuntime) -> Result<(), Fail> {
    let segments = [
        Segment {
            ms: 1000,
            elements: [
                Element::Linear { v: 1000 },
                Element::Constant,
                Element::Cubic { v: [-5, 995, 1495] },
                Element::Linear { v: -900 },
            ],
        },
        Segment {
            ms: 7,
            elements: [
                Element::Constant,
                Element::Cubic { v: [1000, 552, 0] },
                Element::Seven {
                    v: [1495, 1495, 1495, 1, 2, 2, 2],
                },
                Element::Cubic {
                    v: [-901, -900, -899],
                },
            ],
        },
        Segment {
            ms: 1,
            elements: [
                Element::Linear { v: 999 },
                Element::Constant,
                Element::Constant,
                Element::Constant,
            ],
        },
    ];
    let t = traj(rt.alloc(), [0, 1000, -5, 900], &segments)?;
    assert!(rt; plays(&t, 1008, EDGES));
    Ok(())
}

#[test]
fn rows_are_lines(rt: HostRuntime) {
    let row = play_row(500, b"solo", [70_556, 0, 1_000_000, 0]);
    assert!(rt; row.as_slice() == b"500 solo 70556 0 1000000 0\n".as_slice());
    let row = play_row(0, b"a", [-334, -1, 0, -900]);
    assert!(rt; row.as_slice() == b"0 a -334 -1 0 -900\n".as_slice());
    let row = play_row(
        4_294_967_295,
        b"abcdefghijklmnop",
        [i64::MIN, i64::MIN, i64::MIN, i64::MAX],
    );
    assert!(rt; row.as_slice().len() == 111);
}
