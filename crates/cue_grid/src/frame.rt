//! Where a frame puts a point: its mirror, then its quarter turns, then its shift.

ghost use Rattle.std.specs.Prelude.{◌≡◌, ◌≤◌, ◌^◌, ◌+ℤ◌};
ghost use Rattle.cue_grid.specs.Frames.{shifted, mirrored, turned_once, turned, applied, IsPointUpTo, IsShiftUpTo};
ghost use Rattle.cue_grid.specs.Frames.{IsUpTo};

use choreo_show::{Frame, Mirror, Point};

/// Where the frame puts a point: its mirror, then its quarter turns, then its shift. The point is in micrometres, its
/// yaw in tenths of a degree.
pub fn apply(f: &Frame, p: Point) -> Point
    requires frame { IsShiftUpTo (2 ^ 40) f.now }
    requires few { f.now.turns ≤ 3 }
    requires small { IsPointUpTo (2 ^ 40) p }
    ensures { result ≡ applied f.now p }
{
    shift_step(f, turn_step(f.turns, mirror_step(f.mirror, p)))
}

/// The frame's mirror step. The mirror `x` gives -x and 1800 less the yaw, the mirror `y` gives -y and the yaw negated.
pub fn mirror(f: &Frame, p: Point) -> Point
    requires { IsPointUpTo (2 ^ 40) p }
    ensures { result ≡ mirrored f.now.mirror p }
{
    mirror_step(f.mirror, p)
}

/// As many quarter turns as the frame has. Each gives -y for x, x for y, and 900 more for the yaw.
pub fn quarter_turn(f: &Frame, p: Point) -> Point
    requires few { f.now.turns ≤ 3 }
    requires small { IsPointUpTo (2 ^ 40) p }
    ensures { result ≡ turned f.now.turns p }
{
    turn_step(f.turns, p)
}

/// The frame's shift, which leaves the yaw.
pub fn shift(f: &Frame, p: Point) -> Point
    requires frame { IsShiftUpTo (2 ^ 40) f.now }
    requires small { IsPointUpTo (2 ^ 40) p }
    ensures { result ≡ shifted f.now p }
{
    shift_step(f, p)
}

// The mirror step. Each step says how far its numbers may grow, for the next.
fn mirror_step(mirror: Mirror, p: Point) -> Point
    requires { IsPointUpTo (2 ^ 40) p }
    ensures value { result ≡ mirrored mirror p }
    ensures small { IsPointUpTo (2 ^ 41) result }
{
    match mirror {
        Mirror::None => p,
        Mirror::X => Point {
            x: -p.x,
            y: p.y,
            z: p.z,
            yaw: 1800 - p.yaw,
        },
        Mirror::Y => Point {
            x: p.x,
            y: -p.y,
            z: p.z,
            yaw: -p.yaw,
        },
    }
}

fn one_turn(p: Point) -> Point
    requires { IsPointUpTo (2 ^ 44) p }
    ensures { result ≡ turned_once p }
{
    Point {
        x: -p.y,
        y: p.x,
        z: p.z,
        yaw: p.yaw + 900,
    }
}

fn turn_step(turns: u8, p: Point) -> Point
    requires few { turns ≤ 3 }
    requires small { IsPointUpTo (2 ^ 41) p }
    ensures value { result ≡ turned turns p }
    ensures small { IsPointUpTo (2 ^ 42) result }
{
    match turns {
        0 => p,
        1 => one_turn(p),
        2 => one_turn(one_turn(p)),
        _ => one_turn(one_turn(one_turn(p))),
    }
}

fn shifted_number(v: i64, by: i64) -> i64
    requires number { IsUpTo (2 ^ 42) v }
    requires shift { IsUpTo (2 ^ 40) by }
    ensures { result ≡ v +ℤ by }
{
    v + by
}

fn shift_step(f: &Frame, p: Point) -> Point
    requires frame { IsShiftUpTo (2 ^ 40) f.now }
    requires small { IsPointUpTo (2 ^ 42) p }
    ensures { result ≡ shifted f.now p }
{
    Point {
        x: shifted_number(p.x, f.dx),
        y: shifted_number(p.y, f.dy),
        z: shifted_number(p.z, f.dz),
        yaw: p.yaw,
    }
}
