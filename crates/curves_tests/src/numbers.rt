//! Floors, roots and differences that were computed elsewhere, by whole numbers without a bound.

ghost use Rattle.std.specs.Prelude.{◌≡◌, ◌^◌, true};
ghost use Rattle.whole_numbers.specs.Numbers.{IsBelow};

use whole_numbers::{abs_diff, floor_div, least_root_above};

// Two numbers, and the floor of their quotient.
const FLOORS: &[(i128, i128, i128)] = &[
    (7, 2, 3),
    (-7, 2, -4),
    (-8, 2, -4),
    (-1, 1000, -1),
    (0, 5, 0),
    (999, 1000, 0),
    (-1000, 1000, -1),
    (-1001, 1000, -2),
    (i128::MAX, 1, i128::MAX),
    (i128::MIN, 1, i128::MIN),
    (i128::MIN, i128::MAX, -2),
    (i128::MAX, i128::MAX, 1),
    (i128::MIN, 3, -56713727820156410577229101238628035243),
];

// The number of the first row with another floor; none where there is no such row.
fn wrong_floor() -> Option<usize> {
    for (k, (a, b, floor)) in FLOORS.iter().enumerate() {
        if *b <= 0 || floor_div(*a, *b) != *floor {
            return Some(k);
        }
    }
    None
}

#[test]
fn floors_quotients(rt: HostRuntime) {
    assert_eq!(rt; wrong_floor(), None);
}

// Numbers, and the least roots above them.
const ROOTS: &[(i128, i128)] = &[
    (0, 1),
    (1, 2),
    (3, 2),
    (4, 3),
    (8, 3),
    (9, 4),
    (5184000000, 72001),
    (10368000000, 101824),
    (15552000000, 124708),
    (999999999999999999999999, 1000000000000),
    (1000000000000000000000000, 1000000000001),
    ((1 << 100) - 1, 1 << 50),
];

fn wrong_root() -> Option<usize> {
    for (k, (v, root)) in ROOTS.iter().enumerate() {
        if *v < 0 || *v >= 1 << 100 || least_root_above(*v) != *root {
            return Some(k);
        }
    }
    None
}

#[test]
fn finds_roots(rt: HostRuntime) {
    assert_eq!(rt; wrong_root(), None);
}

// Two numbers, and how far they are apart.
const DIFFERENCES: &[(i128, i128, i128)] = &[
    (0, 0, 0),
    (3, -4, 7),
    (-4, 3, 7),
    (-9, -2, 7),
    (
        85070591730234615865843651857942052863,
        -85070591730234615865843651857942052863,
        170141183460469231731687303715884105726,
    ),
];

// Whether a difference with it fits.
fn fits(v: i128) -> bool
    ensures { result ≡ true → IsBelow (2 ^ 126) v }
{
    -(1 << 126) < v && v < 1 << 126
}

fn wrong_difference() -> Option<usize> {
    for (k, (a, b, apart)) in DIFFERENCES.iter().enumerate() {
        if !fits(*a) || !fits(*b) || abs_diff(*a, *b) != *apart {
            return Some(k);
        }
    }
    None
}

#[test]
fn tells_differences(rt: HostRuntime) {
    assert_eq!(rt; wrong_difference(), None);
}
