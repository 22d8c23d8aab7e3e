//! Raised curves of one segment, by exact fractions from outside.
use fleet_curves::{raised_segment, value_after};
use traj_codec::{Element, Segment};

#[test]
fn a_segment(rt: HostRuntime) {
    let s = Segment {
        ms: 1000,
        elements: [
            Element::Linear { v: 1000 },
            Element::Constant,
            Element::Cubic { v: [995, 1495, 0] },
            Element::Constant,
        ],
    };
    let curves = raised_segment(0, 500, -5, &s);
    let x = [
        0, 720_000, 1_440_000, 2_160_000, 2_880_000, 3_600_000, 4_320_000, 5_040_000,
    ];
    let z = [
        -25_200, 2_134_800, 3_934_800, 5_159_520, 5_593_680, 5_022_000, 3_229_200, 0,
    ];
    let found = [curves[0].b, curves[1].b, curves[2].b];
    assert!(rt; found == [x, [2_520_000; 8], z]);
    assert!(rt; value_after(-5, s.elements[2]) == 0);
}
