//! The walk over the parts of a cue.

ghost use Rattle.std.specs.Prelude.{◌≡◌, ◌-◌, ◌*◌, ◌^◌, ◌≤◌, ◌+◌, pos, All, MatchOption};
ghost use Rattle.std.specs.Option.{option_map};
ghost use Rattle.whole_numbers.specs.Numbers.{IsIn};
ghost use Rattle.bezier_core.specs.Steps.{IsWithin};
ghost use Rattle.keepout_boxes.specs.Kept.{IsExtent, IsNear};
ghost use Rattle.keepout_boxes.specs.Steps.{AllKeptIn, IsFirstIn, IsIndex};

use crate::part::is_kept;
use crate::region::Region;
use bezier_core::Bez;
use sep_parts::halves;
use whole_numbers::Depth;

/// The first of the 2^`depth` parts of three curves that isn't kept. Where a part is kept, so are its halves, and they
/// aren't looked at.
pub fn first_entering(
    part: &[Bez<8>; 3],
    region: &Region,
    r: u16,
    h: u16,
    scale: i128,
    depth: Depth,
) -> Option<u16>
    requires near { IsNear region.now }
    requires r { IsExtent r }
    requires h { IsExtent h }
    requires scale { IsIn (pos 0) (pos (2 ^ (70 - 7 * depth))) scale }
    requires values { All (λ curve. All (IsWithin (pos (2 ^ (84 - 7 * depth)))) curve.b) part.now }
    ensures { MatchOption result (AllKeptIn r h region.now part.now scale depth)
        (IsFirstIn r h region.now part.now scale depth) }
{
    if is_kept(part, region, r, h, scale) {
        return None;
    }
    let levels = depth.levels();
    if levels == 0 {
        return Some(0);
    }
    let below = Depth::make(levels - 1);
    let (left, right) = halves(part);
    let next = 128 * scale;
    let first = first_entering(&left, region, r, h, next, below);
    if first.is_some() {
        return first;
    }
    let second = first_entering(&right, region, r, h, next, below);
    in_second_half(second, 2u16.pow(levels as u32 - 1))
}

// An index, counted from the beginning of the other half.
fn in_second_half(index: Option<u16>, parts: u16) -> Option<u16>
    requires parts { parts ≤ 128 }
    requires index { IsIndex index parts }
    ensures { result ≡ option_map (λ i. parts + i) index }
{
    match index {
        Some(i) => Some(parts + i),
        None => None,
    }
}
