//! Thresholds by exact square roots, apart from the program. With half axes 120 and 300 mm the ellipsoids ask for
//! 72,001 along (1, 0, 0) and (0, 0, 1), the least numbers whose squares are above 4 r^2 h^2, and for 124,708 along (1,
//! 1, 1), where that is three times as much.

use crate::flights::clearance;
use sep_parts::{DIRECTIONS, table_law, thresholds};

// A stray and a reach on each axis, and the thresholds along (1, 0, 0), (0, 0, 1) and (1, 1, 1). The strays of two
// drones take away 600, 240 and 881.8 a millimetre, rounded up, and each millimetre of reach 300, 120 and 720.
const BY_STRAY_AND_REACH: &[(u16, u32, [i128; 3])] = &[
    (0, 0, [72001, 72001, 124708]),
    (0, 1, [72301, 72121, 125428]),
    (0, 65536, [19732801, 7936321, 47310628]),
    (1, 0, [72601, 72241, 125590]),
    (1, 1, [72901, 72361, 126310]),
    (1, 65536, [19733401, 7936561, 47311510]),
    (50, 0, [102001, 84001, 168799]),
    (50, 1, [102301, 84121, 169519]),
    (50, 65536, [19762801, 7948321, 47354719]),
    (1000, 0, [672001, 312001, 1006525]),
    (1000, 1, [672301, 312121, 1007245]),
    (1000, 65536, [20332801, 8176321, 48192445]),
];

// The thresholds along these three.
fn along_three(r: u16, h: u16, stray: u16, reach: u32) -> [i128; 3] {
    table_law();
    let t = thresholds(&DIRECTIONS, clearance(r, h, stray, [reach; 3]));
    [t[21], t[13], t[25]]
}

#[test]
fn by_stray_and_reach(rt: HostRuntime) {
    for (stray, reach, wanted) in BY_STRAY_AND_REACH {
        assert!(rt;
            along_three(120, 300, *stray, *reach) == *wanted,
            "stray {stray}, reach {reach}"
        );
    }
}

// Directions with one, two and three entries that aren't 0, drones that stay, and then a stray and a reach that differs
// on each axis: 15 mm on x and 20 mm on z. Directions that have this threshold.
const BY_ENTRIES: &[(u16, [u32; 3], i128, &[usize])] = &[
    (0, [0, 0, 0], 72001, &[4, 10, 12, 15]),
    (0, [0, 0, 0], 101824, &[1, 3, 11, 24]),
    (0, [0, 0, 0], 124708, &[0, 2, 6, 25]),
    (50, [15, 0, 20], 106501, &[4, 21]),
    (50, [15, 0, 20], 86401, &[12, 13]),
    (50, [15, 0, 20], 175699, &[0, 25]),
];

// Whether each of these directions has this threshold.
fn all_have(stray: u16, reach: [u32; 3], wanted: i128, dirs: &[usize]) -> bool {
    table_law();
    let t = thresholds(&DIRECTIONS, clearance(120, 300, stray, reach));
    for dir in dirs {
        if t.get(*dir) != Some(&wanted) {
            return false;
        }
    }
    true
}

#[test]
fn by_entries(rt: HostRuntime) {
    for (stray, reach, wanted, dirs) in BY_ENTRIES {
        assert!(rt;
            all_have(*stray, *reach, *wanted, dirs),
            "threshold {wanted}"
        );
    }
}

// The widest ellipsoids that a show may have, 2,000 mm to the side or up and down, alone and with the greatest stray
// and reach: half axes, stray, reach, and the thresholds along (1, 0, 0), (0, 0, 1) and (1, 1, 1).
const AT_THE_WIDEST: &[(u16, u16, u16, u32, [i128; 3])] = &[
    (2000, 2000, 0, 0, [8000001, 8000001, 13856407]),
    (2000, 2000, 1000, 65536, [143072001, 143072001, 414000611]),
    (2000, 1, 0, 0, [4001, 4001, 6929]),
    (2000, 1, 1000, 65536, [71537, 135076001, 135210002]),
    (1, 2000, 0, 0, [4001, 4001, 6929]),
    (1, 2000, 1000, 65536, [135076001, 71537, 267873320]),
];

#[test]
fn at_the_widest(rt: HostRuntime) {
    for (r, h, stray, reach, wanted) in AT_THE_WIDEST {
        assert!(rt;
            along_three(*r, *h, *stray, *reach) == *wanted,
            "ellipsoid {r} {h}"
        );
    }
}
