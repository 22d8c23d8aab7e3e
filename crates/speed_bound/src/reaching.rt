//! How far trajectories move while one drone is late against another.

ghost use Rattle.std.specs.Prelude.{◌≡◌, ◌*◌, ◌^◌, ◌≤◌, ◌<◌, ◌∷◌, [], min, pos, unsigned_abs, All, length};
ghost use Rattle.std.specs.Int.{div_ceil};
ghost use Rattle.speed_bound.specs.Reach.{IsMoving, ReachLaw, StillLaw, farthest, reach_of};

use crate::rates::greatest_rate;
use traj_codec::Traj;
use whole_numbers::Depth;

/// No two positions are farther apart on an axis, in millimetres.
const FARTHEST: u64 = 65_536;

/// How far trajectories move at most on x, y and z in `late` milliseconds, in millimetres: on each axis the greatest
/// over all of them of the bound on the speed by parts of the depth, times the time, rounded up. Takes no memory.
pub fn reach(trajs: &[Traj], late: u16, depth: Depth) -> [u32; 3]
    requires moving { All IsMoving trajs.now }
    requires late { late ≤ 1000 }
    ensures exact { result ≡ reach_of depth late trajs.now 0 ∷ reach_of depth late trajs.now 1
        ∷ reach_of depth late trajs.now 2 ∷ [] }
{
    if late == 0 {
        return [0, 0, 0];
    }
    [
        reach_on(trajs, 0, late, depth),
        reach_on(trajs, 1, late, depth),
        reach_on(trajs, 2, late, depth),
    ]
}

// The same on one axis.
fn reach_on(trajs: &[Traj], axis: usize, late: u16, depth: Depth) -> u32
    requires axis { axis ≤ 2 }
    requires moving { All IsMoving trajs.now }
    requires late { late ≤ 1000 }
    ensures { result ≡ reach_of depth late trajs.now axis }
{
    let mut fastest = 0;
    for t in trajs {
        fastest = greatest_rate::<1>(t, axis, depth, fastest);
    }
    way_in(fastest, late)
}

// How many millimetres are moved at most at this speed in so many milliseconds.
fn way_in(speed: u64, late: u16) -> u32
    requires speed { speed < 2 ^ 50 }
    requires late { late ≤ 1000 }
    ensures { result ≡ min farthest (div_ceil (late * speed) 1000000) }
{
    let way = late as u64 * speed;
    way.div_ceil(1_000_000).min(FARTHEST) as u32
}

/// A law: trajectories move within their reach, between any two instants that are at most so far apart.
pub fn reach_law()
    ensures { ReachLaw }
{}

/// A law: where nobody strays or is late, trajectories that fly apart exactly fly apart. So a show without these
/// settings promises no more and no less than that its drones fly apart exactly.
pub fn still_law()
    ensures { StillLaw }
{}
