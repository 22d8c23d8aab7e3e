//! One part of a drone's way against one region.

ghost use Rattle.std.specs.Prelude.{◌≡◌, ◌⊎◌, ◌↔◌, ℕ, ◌+◌, ◌*◌, ◌^◌, ◌≤◌, ◌<◌, ℤ, pos, ◌+ℤ◌, ◌-ℤ◌, ◌*ℤ◌, ◌≤ℤ◌, ◌<ℤ◌};
ghost use Rattle.std.specs.Prelude.{IsTrue, All};
ghost use Rattle.whole_numbers.specs.Numbers.{IsBelow, IsIn};
ghost use Rattle.whole_numbers.specs.Bernstein.{at};
ghost use Rattle.keepout_boxes.specs.Kept.{AllAbove, AllBelow, AllBetween, AreEnds, IsExtent, IsKept, IsNear};
ghost use Rattle.keepout_boxes.specs.Steps.{values_of};

use crate::region::Region;
use bezier_core::Bez;

/// Whether a part is kept from or in a region, for ellipsoids of half axes `r`, `r` and `h`, at the scale of its
/// control values.
pub fn is_kept(part: &[Bez<8>; 3], region: &Region, r: u16, h: u16, scale: i128) -> bool
    requires near { IsNear region.now }
    requires r { IsExtent r }
    requires h { IsExtent h }
    requires scale { IsIn (pos 0) (pos (2 ^ 70)) scale }
    ensures { IsTrue result ↔ IsKept r h region.now (values_of part.now) scale }
{
    match *region {
        Region::Keepout { low, high } => is_out(part, low, high, r, h, scale),
        Region::Volume { low, high } => is_in(part, low, high, r, h, scale),
    }
}

// Whether a part is kept from a box.
fn is_out(part: &[Bez<8>; 3], low: [i32; 3], high: [i32; 3], r: u16, h: u16, scale: i128) -> bool
    requires low { AreEnds low }
    requires high { AreEnds high }
    requires r { IsExtent r }
    requires h { IsExtent h }
    requires scale { IsIn (pos 0) (pos (2 ^ 70)) scale }
    ensures { IsTrue result ↔ IsKept r h (Region.Keepout low high) (values_of part.now) scale }
{
    if is_clear(&part[0], low[0], high[0], r, scale) {
        return true;
    }
    if is_clear(&part[1], low[1], high[1], r, scale) {
        return true;
    }
    is_clear(&part[2], low[2], high[2], h, scale)
}

// Whether a part is kept in a box.
fn is_in(part: &[Bez<8>; 3], low: [i32; 3], high: [i32; 3], r: u16, h: u16, scale: i128) -> bool
    requires low { AreEnds low }
    requires high { AreEnds high }
    requires r { IsExtent r }
    requires h { IsExtent h }
    requires scale { IsIn (pos 0) (pos (2 ^ 70)) scale }
    ensures { IsTrue result ↔ IsKept r h (Region.Volume low high) (values_of part.now) scale }
{
    if !is_between(&part[0], low[0], high[0], r, scale) {
        return false;
    }
    if !is_between(&part[1], low[1], high[1], r, scale) {
        return false;
    }
    is_between(&part[2], low[2], high[2], h, scale)
}

// Whether a curve stays below an interval that is widened by so much, or above it.
fn is_clear(curve: &Bez<8>, low: i32, high: i32, wider: u16, scale: i128) -> bool
    requires low { IsBelow 40001 low }
    requires high { IsBelow 40001 high }
    requires wider { IsExtent wider }
    requires scale { IsIn (pos 0) (pos (2 ^ 70)) scale }
    ensures { IsTrue result ↔ (AllBelow (at curve.now.b) ((low -ℤ pos wider) *ℤ scale)
        ⊎ AllAbove (at curve.now.b) ((high +ℤ pos wider) *ℤ scale)) }
{
    if all_below(curve, less(low, wider, scale)) {
        return true;
    }
    all_above(curve, more(high, wider, scale))
}

// Whether a curve stays in an interval that is narrowed by so much.
fn is_between(curve: &Bez<8>, low: i32, high: i32, narrower: u16, scale: i128) -> bool
    requires low { IsBelow 40001 low }
    requires high { IsBelow 40001 high }
    requires narrower { IsExtent narrower }
    requires scale { IsIn (pos 0) (pos (2 ^ 70)) scale }
    ensures { IsTrue result ↔ AllBetween (at curve.now.b)
        ((low +ℤ pos narrower) *ℤ scale) ((high -ℤ pos narrower) *ℤ scale) }
{
    all_between(
        curve,
        more(low, narrower, scale),
        less(high, narrower, scale),
    )
}

// A border and so much more, at a scale.
fn more(border: i32, by: u16, scale: i128) -> i128
    requires near { IsBelow 40001 border }
    requires by { IsExtent by }
    requires scale { IsIn (pos 0) (pos (2 ^ 70)) scale }
    ensures { result ≡ (border +ℤ pos by) *ℤ scale }
{
    scaled(border + by as i32, scale)
}

// A border and so much less, at a scale.
fn less(border: i32, by: u16, scale: i128) -> i128
    requires near { IsBelow 40001 border }
    requires by { IsExtent by }
    requires scale { IsIn (pos 0) (pos (2 ^ 70)) scale }
    ensures { result ≡ (border -ℤ pos by) *ℤ scale }
{
    scaled(border - by as i32, scale)
}

fn scaled(limit: i32, scale: i128) -> i128
    requires limit { IsBelow 43001 limit }
    requires scale { IsIn (pos 0) (pos (2 ^ 70)) scale }
    ensures { result ≡ limit *ℤ scale }
{
    limit as i128 * scale
}

fn all_below(curve: &Bez<8>, limit: i128) -> bool
    ensures { IsTrue result ↔ AllBelow (at curve.now.b) limit }
{
    for k in 0..8 {
        if curve.b[k] >= limit {
            return false;
        }
    }
    true
}

fn all_above(curve: &Bez<8>, limit: i128) -> bool
    ensures { IsTrue result ↔ AllAbove (at curve.now.b) limit }
{
    for k in 0..8 {
        if curve.b[k] <= limit {
            return false;
        }
    }
    true
}

fn all_between(curve: &Bez<8>, low: i128, high: i128) -> bool
    ensures { IsTrue result ↔ AllBetween (at curve.now.b) low high }
{
    for k in 0..8 {
        if curve.b[k] < low || curve.b[k] > high {
            return false;
        }
    }
    true
}
