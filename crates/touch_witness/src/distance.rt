//! How far two drones are apart, against how far they must be.

ghost use Rattle.std.specs.Prelude.{◌≡◌, ◌+◌, ◌*◌, ◌^◌, ◌≤◌, ◌↔◌, ℤ, pos, ◌-ℤ◌, ◌*ℤ◌, ◌≤ℤ◌, IsTrue};
ghost use Rattle.whole_numbers.specs.Numbers.{IsIn};
ghost use Rattle.bezier_core.specs.Steps.{IsWithin};
ghost use Rattle.sep_parts.specs.Directions.{IsAxis};
ghost use Rattle.touch_witness.specs.Steps.{IsShort, left_side, right_side};

use crate::axes::Axes;
use crate::places::{Point, part_power};
use whole_numbers::Fine;

/// Whether the closed ellipsoids around two points share a point: h^2 (dX^2 + dY^2) + r^2 dZ^2 is at most 4 r^2 h^2
/// c^14.
pub fn is_touching(p: &Point, q: &Point, axes: Axes, fine: Fine) -> bool
    requires first { IsShort p.now }
    requires second { IsShort q.now }
    ensures { IsTrue result ↔ (left_side axes.r axes.h p.now q.now ≤ℤ right_side axes.r axes.h fine) }
{
    left_side(p, q, axes) <= right_side(axes, fine)
}

/// h^2 (dX^2 + dY^2) + r^2 dZ^2
pub fn left_side(p: &Point, q: &Point, axes: Axes) -> i128
    requires first { IsShort p.now }
    requires second { IsShort q.now }
    ensures exact { result ≡ left_side axes.r axes.h p.now q.now }
    ensures small { IsIn (pos 0) (pos (2 ^ 126)) result }
{
    let level = distance_squared(p.x, q.x) + distance_squared(p.y, q.y);
    let upright = distance_squared(p.z, q.z);
    weighted(axes.h, level) + weighted(axes.r, upright)
}

// The square of a difference, which fits eight bytes: one multiplication of such numbers is enough.
fn distance_squared(a: i128, b: i128) -> i128
    requires a { IsWithin (pos (2 ^ 50)) a }
    requires b { IsWithin (pos (2 ^ 50)) b }
    ensures exact { result ≡ (b -ℤ a) *ℤ (b -ℤ a) }
    ensures small { IsIn (pos 0) (pos (2 ^ 102)) result }
{
    let d = (b - a) as i64;
    d as i128 * d as i128
}

// A number times the square of a half axis.
fn weighted(axis: u16, x: i128) -> i128
    requires axis { IsAxis axis }
    requires small { IsIn (pos 0) (pos (2 ^ 103)) x }
    ensures exact { result ≡ pos (axis * axis) *ℤ x }
    ensures small { IsIn (pos 0) (pos (2 ^ 125)) result }
{
    square(axis) as i128 * x
}

fn square(axis: u16) -> u64
    requires { IsAxis axis }
    ensures exact { result ≡ axis * axis }
    ensures small { result ≤ 4000000 }
{
    axis as u64 * axis as u64
}

/// 4 r^2 h^2 c^14, where c is 2^fine.
pub fn right_side(axes: Axes, fine: Fine) -> i128
    ensures exact { result ≡ right_side axes.r axes.h fine }
    ensures small { IsIn (pos 1) (pos (2 ^ 116)) result }
{
    let area = 4 * square(axes.r) * square(axes.h);
    area as i128 * part_power(fine, 14)
}
