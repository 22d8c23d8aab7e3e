//! Parts that were judged elsewhere, by whole numbers without a bound, for a drone that goes one metre along x in two
//! seconds, with ellipsoids of half axes 120, 120 and 300 mm.

ghost use Rattle.std.specs.Prelude.{◌≡◌, ◌≤◌, ◌≤ℤ◌, ◌∷◌, [], pos, neg_ℤ, length, IfOk};
ghost use Rattle.traj_codec.specs.Positions.{durations};
ghost use Rattle.fleet_curves.specs.Raised.{AreOneShow};
ghost use Rattle.keepout_boxes.specs.Kept.{AreEnds, IsNear};

use fleet_curves::Curves;
use keepout_boxes::{Judged, Region, RegionFault, judge, read_regions};
use std::alloc::{AllocError, Global};
use traj_codec::{Element, Listed, Segment, Traj};
use whole_numbers::Depth;

// The drone's trajectory.
fn solo(alloc: Global) -> Result<Vec<Traj>, AllocError>
    ensures { IfOk result (λ trajs. AreOneShow (2000 ∷ []) trajs.items) }
{
    let v = [0, 0, 0, 1000, 1000, 1000, 1000];
    let leg = Segment {
        ms: 2000,
        elements: [
            Element::Seven { v },
            Element::Constant,
            Element::Constant,
            Element::Constant,
        ],
    };
    let t = Traj {
        start: [0, 0, 1000, 0],
        segments: Listed::from_vec(vec![in alloc; leg]?),
    };
    Ok(vec![in alloc; t]?)
}

// A coordinate that a region may have.
fn near(value: i32) -> i32
    ensures { (neg_ℤ (pos 40000) ≤ℤ result) × (result ≤ℤ pos 40000) }
{
    value.max(-40_000).min(40_000)
}

fn ends(at: [i32; 3]) -> [i32; 3]
    ensures { AreEnds result }
{
    [near(at[0]), near(at[1]), near(at[2])]
}

fn keepout(low: [i32; 3], high: [i32; 3]) -> Region
    ensures { IsNear result }
{
    Region::Keepout {
        low: ends(low),
        high: ends(high),
    }
}

fn volume(low: [i32; 3], high: [i32; 3]) -> Region
    ensures { IsNear result }
{
    Region::Volume {
        low: ends(low),
        high: ends(high),
    }
}

// Whether this is judged of one region, for a drone that strays so far: the extents are those of the ellipsoid and the
// stray together.
fn is_judged(
    alloc: Global,
    region: Region,
    stray: u16,
    depth: u8,
    wanted: Judged,
) -> Result<bool, AllocError>
    requires region { IsNear region }
{
    let trajs = solo(alloc)?;
    let curves = Curves::make(alloc, &trajs)?;
    let regions = vec![in alloc; region]?;
    let stray = stray.min(1000);
    let depth = Depth::make(depth.min(8));
    Ok(judge(&curves, 120 + stray, 300 + stray, depth, &regions) == wanted)
}

macro_rules! part {
    ($index:expr) => {
        Judged::Enters {
            region: 0,
            drone: 0,
            cue: 0,
            index: $index,
        }
    };
}

// The corners of a region, the stray and the depth; what is judged.
type Row = ([i32; 3], [i32; 3], u16, u8, Judged);

const KEEPOUTS: &[Row] = &[
    // A box beside the way, one nearer, and at the very limit, where one millimetre decides.
    ([400, 200, 0], [600, 400, 2000], 0, 6, Judged::Kept),
    ([400, 100, 0], [600, 300, 2000], 0, 6, part!(25)),
    ([1121, 0, 0], [1200, 10, 2000], 0, 6, Judged::Kept),
    ([1120, 0, 0], [1200, 10, 2000], 0, 6, part!(63)),
    ([1120, 0, 0], [1200, 10, 2000], 0, 8, part!(255)),
    // Where the way ends 120 mm before a keepout, any stray makes the drone enter, at the end of its way.
    ([1121, 0, 0], [3000, 10, 2000], 0, 6, Judged::Kept),
    ([1121, 0, 0], [3000, 10, 2000], 1, 6, part!(63)),
    ([1171, 0, 0], [3000, 10, 2000], 50, 6, Judged::Kept),
    ([1170, 0, 0], [3000, 10, 2000], 50, 6, part!(63)),
    ([2121, 0, 0], [3000, 10, 2000], 1000, 6, Judged::Kept),
    ([2120, 0, 0], [3000, 10, 2000], 1000, 6, part!(63)),
];

// The same of volumes around the way.
const VOLUMES: &[Row] = &[
    ([-200, -200, 500], [1200, 200, 1500], 0, 6, Judged::Kept),
    ([0, -200, 500], [1200, 200, 1500], 0, 6, part!(0)),
    ([-120, -120, 700], [1120, 120, 1300], 0, 6, Judged::Kept),
    ([-120, -120, 700], [1119, 120, 1300], 0, 6, part!(59)),
    ([-120, -120, 700], [1119, 120, 1300], 0, 0, part!(0)),
];

fn is_kept_from(alloc: Global, row: &Row) -> Result<bool, AllocError> {
    let (low, high, stray, depth, wanted) = *row;
    is_judged(alloc, keepout(low, high), stray, depth, wanted)
}

fn is_kept_in(alloc: Global, row: &Row) -> Result<bool, AllocError> {
    let (low, high, stray, depth, wanted) = *row;
    is_judged(alloc, volume(low, high), stray, depth, wanted)
}

#[test]
fn regions_of_one_drone(rt: HostRuntime) {
    for (k, row) in KEEPOUTS.iter().enumerate() {
        assert!(rt;
            matches!(is_kept_from(rt.alloc(), row), Ok(true)),
            "keepout {k}"
        );
    }
    for (k, row) in VOLUMES.iter().enumerate() {
        assert!(rt;
            matches!(is_kept_in(rt.alloc(), row), Ok(true)),
            "volume {k}"
        );
    }
}

// How often a line stands, the line, and what comes after it; the number of regions that are read, or the faulty line.
const TEXTS: &[(usize, &[u8], &[u8], Result<usize, u32>)] = &[
    (0, b"", b"", Ok(0)),
    (1, b"", b"\n \t\r\n", Ok(0)),
    (1, b"", b"keepout 400 200 0 600 400 2000", Ok(1)),
    (
        1,
        b"",
        b"volume -040000 0 0 40000 0 0\r\n\nkeepout 1 1 1 1 1 1\n",
        Ok(2),
    ),
    (1, b"", b"keepout 1 0 0 0 0 0", Err(1)),
    (1, b"", b"volume 0 0 0 0 0 0\nvolume 0 0 7 0 0 6\n", Err(2)),
    (1, b"", b"\n\nkeepout 0 0 0 0 0 40001\n", Err(3)),
    (1, b"", b"keepout 0 0 0 0 0\n", Err(1)),
    (1, b"", b"keepout 0 0 0 0 0 0 0\n", Err(1)),
    (1, b"", b"keep 0 0 0 0 0 0 # out\n", Err(1)),
    // At most 64.
    (64, b"volume 0 0 0 1 1 1\n", b"", Ok(64)),
    (
        64,
        b"volume 0 0 0 1 1 1\n",
        b" \nkeepout 5 5 5 6 6 6\n",
        Err(66),
    ),
];

fn is_read(
    alloc: Global,
    times: usize,
    line: &[u8],
    end: &[u8],
    wanted: Result<usize, u32>,
) -> Result<bool, AllocError> {
    let mut text = Vec::new(alloc);
    for _ in 0..times {
        text.extend_from_slice(line)?;
    }
    text.extend_from_slice(end)?;
    Ok(text.len() <= 1_048_576 && are_read(alloc, &text, wanted))
}

fn are_read(alloc: Global, text: &[u8], wanted: Result<usize, u32>) -> bool
    requires { length text.now ≤ 1048576 }
{
    match read_regions(alloc, text) {
        Ok(regions) => wanted == Ok(regions.len()),
        Err(RegionFault::Line { line }) => wanted == Err(line),
        Err(RegionFault::Memory) => false,
    }
}

#[test]
fn texts(rt: HostRuntime) {
    for &(times, line, end, wanted) in TEXTS {
        assert!(rt;
            matches!(is_read(rt.alloc(), times, line, end, wanted), Ok(true)),
            "{times} lines and {end:?}"
        );
    }
}

const THREE: &[u8] =
    b"volume -200 -200 500 1200 200 1500\nkeepout 400 100 0 600 300 2000\nkeepout 0 0 0 1 1 1001\n";

// What is judged of the regions of a text; none where it has no regions.
fn judged_by(alloc: Global, text: &[u8]) -> Result<Option<Judged>, AllocError>
    requires { length text.now ≤ 1048576 }
{
    let trajs = solo(alloc)?;
    let curves = Curves::make(alloc, &trajs)?;
    match read_regions(alloc, text) {
        Ok(regions) => Ok(Some(judge(&curves, 120, 300, Depth::make(6), &regions))),
        Err(_) => Ok(None),
    }
}

#[test]
fn the_first_region(rt: HostRuntime) {
    let entry = Judged::Enters {
        region: 1,
        drone: 0,
        cue: 0,
        index: 25,
    };
    assert!(rt; matches!(judged_by(rt.alloc(), THREE), Ok(Some(found)) if found == entry));
}

// A second from one place to another along one axis, from rest to rest.
fn leg(on_x: Element, on_z: Element) -> Segment
    ensures { result.ms ≡ 1000 }
{
    Segment {
        ms: 1000,
        elements: [on_x, Element::Constant, on_z, Element::Constant],
    }
}

const STAY: Element = Element::Constant;

const RISE: Element = Element::Seven {
    v: [1000, 1000, 1000, 2000, 2000, 2000, 2000],
};

const BACK: Element = Element::Seven {
    v: [1000, 1000, 1000, 0, 0, 0, 0],
};

// Two legs from a place on x.
fn legs(alloc: Global, x: i16, first: Segment, second: Segment) -> Result<Traj, AllocError>
    requires first { first.ms ≡ 1000 }
    requires second { second.ms ≡ 1000 }
    ensures { IfOk result (λ t. durations t.segments ≡ 1000 ∷ 1000 ∷ []) }
{
    Ok(Traj {
        start: [x, 0, 1000, 0],
        segments: Listed::from_vec(vec![in alloc; first, second]?),
    })
}

// The first drone stays; the second one rises by 1 m and then flies 1 m back along x.
fn pair(alloc: Global) -> Result<Vec<Traj>, AllocError>
    ensures { IfOk result (λ trajs. AreOneShow (1000 ∷ 1000 ∷ []) trajs.items) }
{
    let first = legs(alloc, 0, leg(STAY, STAY), leg(STAY, STAY))?;
    let second = legs(alloc, 1000, leg(STAY, RISE), leg(BACK, STAY))?;
    Ok(vec![in alloc; first, second]?)
}

fn is_judged_of_pair(
    alloc: Global,
    low: [i32; 3],
    high: [i32; 3],
    wanted: Judged,
) -> Result<bool, AllocError> {
    let trajs = pair(alloc)?;
    let curves = Curves::make(alloc, &trajs)?;
    let regions = vec![in alloc; keepout(low, high)]?;
    Ok(judge(&curves, 120, 300, Depth::make(6), &regions) == wanted)
}

const OF_PAIR: &[([i32; 3], [i32; 3], Judged)] = &[
    ([300, -50, 1200], [400, 50, 1690], Judged::Kept),
    (
        [300, -50, 1310],
        [400, 50, 1710],
        Judged::Enters {
            region: 0,
            drone: 1,
            cue: 1,
            index: 31,
        },
    ),
];

#[test]
fn the_second_drone_in_the_second_cue(rt: HostRuntime) {
    for &(low, high, wanted) in OF_PAIR {
        assert!(rt;
            matches!(is_judged_of_pair(rt.alloc(), low, high, wanted), Ok(true)),
            "to {high:?}"
        );
    }
}
