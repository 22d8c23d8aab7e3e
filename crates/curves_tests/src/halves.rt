//! Halves of curves that were computed elsewhere, by the double sum over whole numbers without a bound.

use bezier_core::{Bez, Place, halve};
use std::test::Fail;

// A curve, its first half and its second half: a step, waves, and the first half of the waves.
const HALVES: &[([i128; 8], [i128; 8], [i128; 8])] = &[
    (
        [0, 0, 0, 0, 1, 1, 1, 1],
        [0, 0, 0, 0, 8, 24, 44, 64],
        [64, 84, 104, 120, 128, 128, 128, 128],
    ),
    (
        [700, -12, 31, -400, 55, 6000, 7, -80000],
        [89600, 44032, 22624, 5712, -5656, 12900, 59850, 35241],
        [
            35241, 10632, -85536, -353216, -990784, -2367552, -5119552, -10240000,
        ],
    ),
    (
        [89600, 44032, 22624, 5712, -5656, 12900, 59850, 35241],
        [
            11468800, 8552448, 6409216, 4724480, 3349312, 2310960, 1719604, 1599979,
        ],
        [
            1599979, 1480354, 1832460, 2681032, 3965360, 5370912, 6085824, 4510848,
        ],
    ),
];

#[test]
fn halves(rt: HostRuntime) -> Result<(), Fail> {
    for &(whole, first, second) in HALVES {
        let (left, right) = halve(&Bez { b: whole });
        assert!(rt; left.b == first && right.b == second);
    }
    Ok(())
}

#[test]
fn names_halves(rt: HostRuntime) -> Result<(), Fail> {
    let place = Place {
        depth: 7,
        index: 100,
    };
    let (left, right) = (place.left(), place.right());
    assert!(rt; [left.depth, right.depth] == [8, 8]);
    assert!(rt; [left.index, right.index] == [200, 201]);
    Ok(())
}
