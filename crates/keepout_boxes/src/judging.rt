//! The judge.

ghost use Rattle.std.specs.Prelude.{◌≡◌, ℕ, ◌*◌, ◌^◌, ◌≤◌, ◌<◌, pos, length, All, MatchOption};
ghost use Rattle.keepout_boxes.specs.Kept.{IsExtent, IsNear, JudgeGives, StaysClear, most_regions};
ghost use Rattle.keepout_boxes.specs.Steps.{CoverAll, Covers, CueKept, DroneKept, IsFirstOfCue, IsFirstOfDrone};
ghost use Rattle.keepout_boxes.specs.Steps.{IsFirstOfRegion, RegionKept};

use crate::flight::{Boxes, boxes_of};
use crate::part::is_kept;
use crate::region::Region;
use crate::walk::first_entering;
use bezier_core::Bez;
use fleet_curves::Curves;
use whole_numbers::Depth;

/// What is judged.
#[derive(Clone, Copy, PartialEq, Eq)]
pub enum Judged {
    /// Each part is kept from each keepout and in each volume.
    Kept,
    /// The first part that isn't: of the region, the drone and the cue, all counted from 0, the part `index` of the
    /// 2^depth.
    Enters {
        region: u8,
        drone: u8,
        cue: u16,
        index: u16,
    },
}

/// Whether each drone keeps out of each keepout and stays in each volume throughout the show, with ellipsoids of half
/// axes `r`, `r` and `h` in millimetres around them.
///
/// `Enters` exactly where some part of the depth isn't kept: the first, in the order region, drone, cue and part. Where
/// it is `Kept`, for each list of trajectories that the curves stand for, each drone's decoded position lies outside of
/// each closed keepout, widened by the ellipsoid's extents, and inside of each volume, narrowed by them, at each
/// instant p / q of the show, for all whole numbers p and q. Takes no memory.
pub fn judge(curves: &Curves, r: u16, h: u16, depth: Depth, regions: &Vec<Region>) -> Judged
    requires r { IsExtent r }
    requires h { IsExtent h }
    requires few { length regions.now.items ≤ most_regions }
    requires near { All IsNear regions.now.items }
    ensures exact { JudgeGives curves.now r h depth regions.now.items result }
    ensures clear { result ≡ Judged.Kept → StaysClear curves.now r h regions.now.items }
{
    let regions = regions.as_slice();
    let boxes = boxes_of(curves);
    for k in 0..regions.len() {
        if let Some((drone, cue, index)) = entry_of_region(
            curves,
            &boxes,
            &regions[k],
            r,
            h,
            depth,
        ) {
            return Judged::Enters {
                region: k as u8,
                drone,
                cue,
                index,
            };
        }
    }
    Judged::Kept
}

// The first part of a region's first drone that isn't kept: the drone, the cue and the index.
fn entry_of_region(
    curves: &Curves,
    boxes: &Boxes,
    region: &Region,
    r: u16,
    h: u16,
    depth: Depth,
) -> Option<(u8, u16, u16)>
    requires boxes { CoverAll curves.now boxes.now curves.now.drones }
    requires near { IsNear region.now }
    requires r { IsExtent r }
    requires h { IsExtent h }
    ensures { MatchOption result (RegionKept curves.now r h depth region.now curves.now.drones)
        (λ entry. IsFirstOfRegion curves.now r h depth region.now entry.0 entry.1 entry.2) }
{
    for drone in 0..curves.drones() {
        if let Some((cue, index)) = entry_of_drone(
            curves,
            drone,
            &boxes[drone],
            region,
            r,
            h,
            depth,
        ) {
            return Some((drone as u8, cue, index));
        }
    }
    None
}

// The first part of a drone that isn't kept: the cue and the index. Where the box of its flight is kept, so is each
// part, and no cue is looked at.
fn entry_of_drone(
    curves: &Curves,
    drone: usize,
    flight: &[Bez<8>; 3],
    region: &Region,
    r: u16,
    h: u16,
    depth: Depth,
) -> Option<(u16, u16)>
    requires drone { drone < curves.now.drones }
    requires flight { Covers curves.now drone flight.now curves.now.cues }
    requires near { IsNear region.now }
    requires r { IsExtent r }
    requires h { IsExtent h }
    ensures { MatchOption result (DroneKept curves.now r h depth region.now drone curves.now.cues)
        (λ entry. IsFirstOfDrone curves.now r h depth region.now drone entry.0 entry.1) }
{
    if is_kept(flight, region, r, h, 5040) {
        return None;
    }
    for cue in 0..curves.cues() {
        if let Some(index) = first_part(curves, drone, cue, region, r, h, depth) {
            return Some((cue as u16, index));
        }
    }
    None
}

// The first part of a drone's cue that isn't kept.
fn first_part(
    curves: &Curves,
    drone: usize,
    cue: usize,
    region: &Region,
    r: u16,
    h: u16,
    depth: Depth,
) -> Option<u16>
    requires drone { drone < curves.now.drones }
    requires cue { cue < curves.now.cues }
    requires near { IsNear region.now }
    requires r { IsExtent r }
    requires h { IsExtent h }
    ensures { MatchOption result (CueKept curves.now r h depth region.now drone cue)
        (IsFirstOfCue curves.now r h depth region.now drone cue) }
{
    // a depth is at most 8
    let _levels = depth.levels();
    first_entering(&curves.one(drone, cue), region, r, h, 5040, depth)
}
