//! Parts of the first halvings, in 64 bits: *short* numbers.

ghost use Rattle.std.specs.Prelude.{◌≡◌, ℕ, ◌^◌, ◌≤◌, ◌<◌, ℤ, pos, ◌+ℤ◌, ◌*ℤ◌, ◌≤ℤ◌, ◌<ℤ◌, All, IsTrue, ◌↔◌};
ghost use Rattle.whole_numbers.specs.Bernstein.{at};
ghost use Rattle.whole_numbers.specs.Numbers.{IsBelow};
ghost use Rattle.bezier_core.specs.Along.{along_value};
ghost use Rattle.fleet_curves.specs.Raised.{curves_of};
ghost use Rattle.sep_parts.specs.Directions.{AreSmall, IsAxis, weights};
ghost use Rattle.sep_parts.specs.Separates.{least_value};

use crate::part::{all_places, scaled};
use whole_numbers::Depth;

/// The greatest depth of a part whose weighted sums have 64 bits.
pub(crate) const SHORT_SUMS_DEPTH: u8 = 2;

/// The greatest depth of a part whose control values have 64 bits.
pub(crate) const SHORT_VALUES_DEPTH: u8 = 4;

/// What `separates` returns, of a part that is halved at most twice. Its control values are below 2^46, so that 64 bits
/// hold each weighted sum.
#[inline(always)]
pub(crate) fn separates_by_short_sums(
    rows: &[[i64; 8]; 3],
    n: [i8; 3],
    r: u16,
    h: u16,
    threshold: i128,
    depth: Depth,
) -> bool
    requires values { All (λ curve. All (IsBelow (2 ^ 46)) curve.b) (curves_of rows.now) }
    requires entries { AreSmall n }
    requires r { IsAxis r }
    requires h { IsAxis h }
    requires positive { pos 0 ≤ℤ threshold }
    requires small { threshold <ℤ pos (2 ^ 30) }
    requires depth { depth ≤ SHORT_SUMS_DEPTH }
    ensures { IsTrue result
        ↔ ((k : ℕ) → k ≤ 7 → least_value threshold depth ≤ℤ along_value (curves_of rows.now) (weights n r h) k) }
{
    let w = weights(n, r, h);
    let least = scaled(threshold, depth) as i64;
    all_places(|k| reaches_by_short_sum(rows, w, least, k))
}

/// The weights of the three curves along a direction.
pub(crate) fn weights(n: [i8; 3], r: u16, h: u16) -> [i64; 3]
    requires entries { AreSmall n }
    requires r { IsAxis r }
    requires h { IsAxis h }
    ensures exact { result ≡ weights n r h }
    ensures small { All (IsBelow 4001) result }
{
    [weight(n[0], h), weight(n[1], h), weight(n[2], r)]
}

fn weight(entry: i8, axis: u16) -> i64
    requires entry { IsBelow 3 entry }
    requires axis { IsAxis axis }
    ensures exact { result ≡ entry *ℤ pos axis }
    ensures small { IsBelow 4001 result }
{
    i64::from(entry) * i64::from(axis)
}

// Whether one weighted sum is at least so much.
fn reaches_by_short_sum(rows: &[[i64; 8]; 3], w: [i64; 3], least: i64, k: usize) -> bool
    requires place { k < 8 }
    requires values { All (λ curve. All (IsBelow (2 ^ 46)) curve.b) (curves_of rows.now) }
    requires weights { All (IsBelow 4001) w }
    ensures { IsTrue result ↔ (least ≤ℤ along_value (curves_of rows.now) w k) }
{
    sum_reaches(w, rows[0][k], rows[1][k], rows[2][k], least)
}

// Whether the weighted sum of three numbers is at least so much.
fn sum_reaches(w: [i64; 3], x: i64, y: i64, z: i64, least: i64) -> bool
    requires weights { All (IsBelow 4001) w }
    requires x { IsBelow (2 ^ 46) x }
    requires y { IsBelow (2 ^ 46) y }
    requires z { IsBelow (2 ^ 46) z }
    ensures { IsTrue result ↔ (least ≤ℤ (at w 0 *ℤ x +ℤ at w 1 *ℤ y +ℤ at w 2 *ℤ z)) }
{
    let a = short_product(w[0], x);
    let b = short_product(w[1], y);
    let c = short_product(w[2], z);
    least <= a + b + c
}

fn short_product(weight: i64, value: i64) -> i64
    requires weight { IsBelow 4001 weight }
    requires value { IsBelow (2 ^ 46) value }
    ensures product { result ≡ weight *ℤ value }
    ensures small { IsBelow (2 ^ 58) result }
{
    weight * value
}

/// What `separates` returns, of a part whose control values have 64 bits: a weighted sum is that of three products of
/// numbers of 64 bits.
#[inline(always)]
pub(crate) fn separates_by_long_sums(
    rows: &[[i64; 8]; 3],
    n: [i8; 3],
    r: u16,
    h: u16,
    threshold: i128,
    depth: Depth,
) -> bool
    requires entries { AreSmall n }
    requires r { IsAxis r }
    requires h { IsAxis h }
    requires positive { pos 0 ≤ℤ threshold }
    requires small { threshold <ℤ pos (2 ^ 30) }
    ensures { IsTrue result
        ↔ ((k : ℕ) → k ≤ 7 → least_value threshold depth ≤ℤ along_value (curves_of rows.now) (weights n r h) k) }
{
    let w = weights(n, r, h);
    let least = scaled(threshold, depth);
    all_places(|k| reaches_by_long_sum(rows, w, least, k))
}

// Whether one weighted sum is at least so much.
fn reaches_by_long_sum(rows: &[[i64; 8]; 3], w: [i64; 3], least: i128, k: usize) -> bool
    requires place { k < 8 }
    requires weights { All (IsBelow 4001) w }
    ensures { IsTrue result ↔ (least ≤ℤ along_value (curves_of rows.now) w k) }
{
    let x = long_product(w[0], rows[0][k]);
    let y = long_product(w[1], rows[1][k]);
    let z = long_product(w[2], rows[2][k]);
    least <= x + y + z
}

// A value times a weight, both in 64 bits.
fn long_product(weight: i64, value: i64) -> i128
    requires weight { IsBelow 4001 weight }
    ensures product { result ≡ weight *ℤ value }
    ensures small { IsBelow (2 ^ 76) result }
{
    i128::from(weight) * i128::from(value)
}

/// What `separates` returns of three whole curves, whose control values are these rows.
#[inline(always)]
pub(crate) fn separates_rows(
    rows: &[[i32; 8]; 3],
    n: [i8; 3],
    r: u16,
    h: u16,
    threshold: i128,
) -> bool
    requires entries { AreSmall n }
    requires r { IsAxis r }
    requires h { IsAxis h }
    requires positive { pos 0 ≤ℤ threshold }
    requires small { threshold <ℤ pos (2 ^ 30) }
    ensures { IsTrue result
        ↔ ((k : ℕ) → k ≤ 7 → least_value threshold 0 ≤ℤ along_value (curves_of rows.now) (weights n r h) k) }
{
    let w = weights(n, r, h);
    let least = whole_least(threshold);
    all_places(|k| reaches_rows(rows, w, least, k))
}

// What each weighted sum of a whole cue is to be at least.
fn whole_least(threshold: i128) -> i64
    requires positive { pos 0 ≤ℤ threshold }
    requires small { threshold <ℤ pos (2 ^ 30) }
    ensures { result ≡ least_value threshold 0 }
{
    threshold as i64 * 5040
}

// Whether one weighted sum is at least so much.
fn reaches_rows(rows: &[[i32; 8]; 3], w: [i64; 3], least: i64, k: usize) -> bool
    requires place { k < 8 }
    requires weights { All (IsBelow 4001) w }
    ensures { IsTrue result ↔ (least ≤ℤ along_value (curves_of rows.now) w k) }
{
    sum_reaches(
        w,
        i64::from(rows[0][k]),
        i64::from(rows[1][k]),
        i64::from(rows[2][k]),
        least,
    )
}
