//! Control values and values of curves that were computed elsewhere, by whole numbers without a bound.

use bezier_core::{Bez, along};
use std::test::Fail;

#[test]
fn raises_each_degree(rt: HostRuntime) -> Result<(), Fail> {
    let cubic = Bez {
        b: [5, -3, 100, -7],
    };
    let waves = Bez {
        b: [1, -2, 3, -4, 5, -6, 7, -8],
    };
    for (raised, wanted) in [
        (Bez { b: [3] }.to_eight(), [15120; 8]),
        (
            Bez { b: [0, 7] }.to_eight(),
            [0, 5040, 10080, 15120, 20160, 25200, 30240, 35280],
        ),
        (
            Bez { b: [0, 1, 0, 0] }.to_eight(),
            [0, 2160, 2880, 2592, 1728, 720, 0, 0],
        ),
        (
            cubic.to_eight(),
            [25200, 7920, 70560, 166896, 250704, 275760, 195840, -35280],
        ),
        (
            waves.to_eight(),
            [5040, -10080, 15120, -20160, 25200, -30240, 35280, -40320],
        ),
    ] {
        assert!(rt; raised.b == wanted);
    }
    Ok(())
}

#[test]
fn tells_values(rt: HostRuntime) -> Result<(), Fail> {
    let rising = Bez {
        b: [10, 20, 30, 40],
    };
    let waves = Bez {
        b: [1, -2, 3, -4, 5, -6, 7, -8],
    };
    let largest = Bez::<8> { b: [32767; 8] };
    let least = Bez::<8> { b: [-32768; 8] };
    for (value, wanted) in [
        (Bez { b: [5] }.value(2, 9), 5),
        (Bez { b: [2, -3] }.value(1, 4), 3),
        (Bez { b: [0, 1, 0, 0] }.value(1, 3), 12),
        (rising.value(0, 65535), 2814620920053750),
        (rising.value(65535, 65535), 11258483680215000),
        (waves.value(3, 7), -20),
        (
            largest.value(65535, 65535),
            170117819511052126331370918009732890625,
        ),
        (
            least.value(1, 65535),
            -170123011253338910355734801518080000000,
        ),
    ] {
        assert!(rt; value == wanted);
    }
    Ok(())
}

#[test]
fn subtracts_and_projects(rt: HostRuntime) -> Result<(), Fail> {
    let x = Bez {
        b: [1, 2, 3, 4, 5, 6, 7, 8],
    };
    let y = Bez {
        b: [0, 1, 0, 1, 0, 1, 0, 1],
    };
    let z = Bez {
        b: [-3, 0, 0, 0, 0, 0, 0, 9],
    };
    for (curve, wanted) in [
        (x.minus(&y), [1, 1, 3, 3, 5, 5, 7, 7]),
        (
            along(&[x, y, z], [300, -300, 120]),
            [-60, 300, 900, 900, 1500, 1500, 2100, 3180],
        ),
    ] {
        assert!(rt; curve.b == wanted);
    }
    Ok(())
}
