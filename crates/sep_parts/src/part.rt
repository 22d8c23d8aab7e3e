//! One part of three curves against one direction, and its halves.

ghost use Rattle.std.specs.Prelude.{◌≡◌, ℕ, ◌+◌, ◌*◌, ◌^◌, ◌≤◌, ◌<◌, ℤ, pos, ◌+ℤ◌, ◌*ℤ◌, ◌≤ℤ◌, ◌<ℤ◌, int_lt, position};
ghost use Rattle.std.specs.Prelude.{All, IsTrue, true, false, ◌↔◌, length};
ghost use Rattle.whole_numbers.specs.Numbers.{IsBelow};
ghost use Rattle.whole_numbers.specs.Bernstein.{at};
ghost use Rattle.bezier_core.specs.Along.{along_value, controls};
ghost use Rattle.bezier_core.specs.Raised.{eight};
ghost use Rattle.bezier_core.specs.Part.{part_value};
ghost use Rattle.sep_parts.specs.Directions.{AreSmall, IsAxis, weights};
ghost use Rattle.sep_parts.specs.Separates.{IsAbove, first_low, least_value};
ghost use Rattle.sep_parts.specs.Sizes.{SizeLaw};

use crate::short::weights;
use bezier_core::{Bez, along, along_at, halve};
use whole_numbers::Depth;

/// Whether the direction `n` separates a part of the given depth: whether each control value of n_x h dx + n_y h dy +
/// n_z r dz is at least the threshold, at the scale of raised curves and of the depth. `diff` has the part's control
/// values on x, y and z.
pub fn separates(
    diff: &[Bez<8>; 3],
    n: [i8; 3],
    r: u16,
    h: u16,
    threshold: i128,
    depth: Depth,
) -> bool
    requires values { All (λ curve. All (IsBelow (2 ^ 86)) curve.b) diff.now }
    requires entries { AreSmall n }
    requires r { IsAxis r }
    requires h { IsAxis h }
    requires positive { pos 0 ≤ℤ threshold }
    requires small { threshold <ℤ pos (2 ^ 30) }
    ensures { IsTrue result ↔ IsAbove threshold depth (along_value diff.now (weights n r h)) }
{
    let w = long_weights(n, r, h);
    let least = scaled(threshold, depth);
    all_places(|k| reaches(diff, w, least, k))
}

// Whether a question is answered with yes at each of the eight places. The ends of the curves come first: where a
// direction fails, it mostly fails there. The question is called in one place, so that the compiler writes it in there.
#[inline(always)]
pub(crate) fn all_places<F: Fn(usize) -> bool>(passes: F) -> bool
    requires { (k : ℕ) → k < 8 → F.pre passes k }
    ensures all { IsTrue result → (k : ℕ) → k ≤ 7 → F.post passes k true }
    ensures one { result ≡ false → (k : ℕ) × (k ≤ 7) × F.post passes k false }
{
    for turn in 0..8 {
        if !passes((8 - turn) % 8) {
            return false;
        }
    }
    true
}

// Whether one weighted sum is at least so much.
fn reaches(diff: &[Bez<8>; 3], w: [i128; 3], least: i128, k: usize) -> bool
    requires place { k < 8 }
    requires values { All (λ curve. All (IsBelow (2 ^ 86)) curve.b) diff.now }
    requires weights { All (IsBelow 4001) w }
    ensures { IsTrue result ↔ (least ≤ℤ along_value diff.now w k) }
{
    least <= along_at(diff, w, k)
}

/// The place, 0 to 7, of the first control value along the direction that is below the threshold; none where the
/// direction separates the part. Conditions as [`separates`].
#[tactic(auto, unfolding(crate::specs::Separates::first_low))]
pub fn low_control(
    diff: &[Bez<8>; 3],
    n: [i8; 3],
    r: u16,
    h: u16,
    threshold: i128,
    depth: Depth,
) -> Option<usize>
    requires values { All (λ curve. All (IsBelow (2 ^ 86)) curve.b) diff.now }
    requires entries { AreSmall n }
    requires r { IsAxis r }
    requires h { IsAxis h }
    requires positive { pos 0 ≤ℤ threshold }
    requires small { threshold <ℤ pos (2 ^ 30) }
    ensures { result ≡ first_low (along_value diff.now (weights n r h)) (least_value threshold depth) }
{
    first_below(&projected(diff, n, r, h), threshold, depth)
}

/// Three curves along a direction: the weighted sums n_x h dx + n_y h dy + n_z r dz of their control values. None
/// reaches 2^104.
pub fn projected(diff: &[Bez<8>; 3], n: [i8; 3], r: u16, h: u16) -> Bez<8>
    requires values { All (λ curve. All (IsBelow (2 ^ 86)) curve.b) diff.now }
    requires entries { AreSmall n }
    requires r { IsAxis r }
    requires h { IsAxis h }
    ensures exact { result.b ≡ eight (along_value diff.now (weights n r h)) }
    ensures small { All (IsBelow (2 ^ 104)) result.b }
{
    along(diff, long_weights(n, r, h))
}

/// The place, 0 to 7, of the first control value below the threshold, at the scale of raised curves and of the depth.
pub fn first_below(curve: &Bez<8>, threshold: i128, depth: Depth) -> Option<usize>
    requires positive { pos 0 ≤ℤ threshold }
    requires small { threshold <ℤ pos (2 ^ 30) }
    ensures { result ≡ position (λ v. int_lt v (least_value threshold depth)) curve.now.b }
{
    let least = scaled(threshold, depth);
    curve.b.iter().position(|v| *v < least)
}

/// Whether each of the eight control values is at least the threshold, at the scale of raised curves and of the depth.
/// Of three curves along a direction, as [`projected`] gives them, it says whether the direction separates their part.
pub fn above(p: &Bez<8>, threshold: i128, depth: Depth) -> bool
    requires positive { pos 0 ≤ℤ threshold }
    requires small { threshold <ℤ pos (2 ^ 30) }
    ensures { IsTrue result ↔ IsAbove threshold depth (at p.now.b) }
{
    let least = scaled(threshold, depth);
    p.b.iter().all(|v| least <= *v)
}

// The weights of the three curves along a direction, in 128 bits.
pub(crate) fn long_weights(n: [i8; 3], r: u16, h: u16) -> [i128; 3]
    requires entries { AreSmall n }
    requires r { IsAxis r }
    requires h { IsAxis h }
    ensures exact { result ≡ weights n r h }
    ensures small { All (IsBelow 4001) result }
{
    let w = weights(n, r, h);
    [i128::from(w[0]), i128::from(w[1]), i128::from(w[2])]
}

// The threshold at the scale of a depth.
pub(crate) fn scaled(threshold: i128, depth: Depth) -> i128
    requires positive { pos 0 ≤ℤ threshold }
    requires small { threshold <ℤ pos (2 ^ 30) }
    ensures { result ≡ least_value threshold depth }
{
    threshold * scale(depth)
}

// 5,040 times 2 to the 7 times the depth.
fn scale(depth: Depth) -> i128
    ensures exact { result ≡ pos (5040 * 2 ^ (7 * depth)) }
    ensures positive { pos 0 ≤ℤ result }
    ensures small { result ≤ℤ pos (2 ^ 70) }
{
    match depth.levels() {
        0 => 5040,
        1 => 5040 << 7,
        2 => 5040 << 14,
        3 => 5040 << 21,
        4 => 5040 << 28,
        5 => 5040 << 35,
        6 => 5040 << 42,
        7 => 5040 << 49,
        _ => 5040 << 56,
    }
}

/// The left and the right halves of three curves, each times 2 to the 7.
pub fn halves(part: &[Bez<8>; 3]) -> ([Bez<8>; 3], [Bez<8>; 3])
    requires { All (λ curve. All (IsBelow (2 ^ 118)) curve.b) part.now }
    ensures sizes { (length result.0 ≡ 3) × (length result.1 ≡ 3) }
    ensures left { (axis : ℕ) → axis ≤ 2
        → controls result.0 axis ≡ eight (part_value 1 0 (at (controls part.now axis))) }
    ensures right { (axis : ℕ) → axis ≤ 2
        → controls result.1 axis ≡ eight (part_value 1 1 (at (controls part.now axis))) }
{
    let (x_left, x_right) = halve(&part[0]);
    let (y_left, y_right) = halve(&part[1]);
    let (z_left, z_right) = halve(&part[2]);
    ([x_left, y_left, z_left], [x_right, y_right, z_right])
}

/// A law: no number of a search gives 2^104. Of differences of raised curves, which are below 2^30, neither the control
/// values of a part nor their weighted sums along a direction do, nor does what each sum must be at least.
pub fn size_law()
    ensures { SizeLaw }
{}
