//! The directions along which drones are told apart, and how far apart they must be along each.

ghost use Rattle.std.specs.Prelude.{◌≡◌, ℕ, ◌+◌, ◌*◌, ◌^◌, ◌≤◌, ◌<◌, ℤ, pos, neg_ℤ, ◌+ℤ◌, ◌-ℤ◌, ◌*ℤ◌, ◌≤ℤ◌, ◌<ℤ◌, All};
ghost use Rattle.std.specs.Prelude.{map, IsTrue, unsigned_abs};
ghost use Rattle.whole_numbers.specs.Numbers.{IsBelow};
ghost use Rattle.sep_parts.specs.Directions.{AreSmall, IsAxis, IsClearance, IsSquare, IsTableSize, ThresholdLaw};
ghost use Rattle.sep_parts.specs.Directions.{directions, for_ellipsoids, for_reach, for_strays, is_closed, is_rising};
ghost use Rattle.sep_parts.specs.Directions.{length_squared, limit_along, root_reaching, stray_limit, threshold};
ghost use Rattle.sep_parts.specs.Directions.{wide_directions};

use crate::clearance::Clearance;
use crate::part::long_weights;
use whole_numbers::least_root_above;

/// A table of directions, of 26 or of 98.
#[derive(Clone, Copy)]
pub struct Dirs<const M: usize> {
    /// Each direction by its entries along x, y and z.
    pub n: [[i8; 3]; M],
}

/// The directions with entries -1, 0 and 1 that aren't all 0, in lexicographic order. In certificates they have the
/// letters `a` to `z`.
pub const DIRECTIONS: Dirs<26> = Dirs {
    n: [
        [-1, -1, -1],
        [-1, -1, 0],
        [-1, -1, 1],
        [-1, 0, -1],
        [-1, 0, 0],
        [-1, 0, 1],
        [-1, 1, -1],
        [-1, 1, 0],
        [-1, 1, 1],
        [0, -1, -1],
        [0, -1, 0],
        [0, -1, 1],
        [0, 0, -1],
        [0, 0, 1],
        [0, 1, -1],
        [0, 1, 0],
        [0, 1, 1],
        [1, -1, -1],
        [1, -1, 0],
        [1, -1, 1],
        [1, 0, -1],
        [1, 0, 0],
        [1, 0, 1],
        [1, 1, -1],
        [1, 1, 0],
        [1, 1, 1],
    ],
};

/// The directions with entries from -2 to 2 whose greatest common divisor is 1, in lexicographic order.
pub const WIDE: Dirs<98> = Dirs {
    n: [
        [-2, -2, -1],
        [-2, -2, 1],
        [-2, -1, -2],
        [-2, -1, -1],
        [-2, -1, 0],
        [-2, -1, 1],
        [-2, -1, 2],
        [-2, 0, -1],
        [-2, 0, 1],
        [-2, 1, -2],
        [-2, 1, -1],
        [-2, 1, 0],
        [-2, 1, 1],
        [-2, 1, 2],
        [-2, 2, -1],
        [-2, 2, 1],
        [-1, -2, -2],
        [-1, -2, -1],
        [-1, -2, 0],
        [-1, -2, 1],
        [-1, -2, 2],
        [-1, -1, -2],
        [-1, -1, -1],
        [-1, -1, 0],
        [-1, -1, 1],
        [-1, -1, 2],
        [-1, 0, -2],
        [-1, 0, -1],
        [-1, 0, 0],
        [-1, 0, 1],
        [-1, 0, 2],
        [-1, 1, -2],
        [-1, 1, -1],
        [-1, 1, 0],
        [-1, 1, 1],
        [-1, 1, 2],
        [-1, 2, -2],
        [-1, 2, -1],
        [-1, 2, 0],
        [-1, 2, 1],
        [-1, 2, 2],
        [0, -2, -1],
        [0, -2, 1],
        [0, -1, -2],
        [0, -1, -1],
        [0, -1, 0],
        [0, -1, 1],
        [0, -1, 2],
        [0, 0, -1],
        [0, 0, 1],
        [0, 1, -2],
        [0, 1, -1],
        [0, 1, 0],
        [0, 1, 1],
        [0, 1, 2],
        [0, 2, -1],
        [0, 2, 1],
        [1, -2, -2],
        [1, -2, -1],
        [1, -2, 0],
        [1, -2, 1],
        [1, -2, 2],
        [1, -1, -2],
        [1, -1, -1],
        [1, -1, 0],
        [1, -1, 1],
        [1, -1, 2],
        [1, 0, -2],
        [1, 0, -1],
        [1, 0, 0],
        [1, 0, 1],
        [1, 0, 2],
        [1, 1, -2],
        [1, 1, -1],
        [1, 1, 0],
        [1, 1, 1],
        [1, 1, 2],
        [1, 2, -2],
        [1, 2, -1],
        [1, 2, 0],
        [1, 2, 1],
        [1, 2, 2],
        [2, -2, -1],
        [2, -2, 1],
        [2, -1, -2],
        [2, -1, -1],
        [2, -1, 0],
        [2, -1, 1],
        [2, -1, 2],
        [2, 0, -1],
        [2, 0, 1],
        [2, 1, -2],
        [2, 1, -1],
        [2, 1, 0],
        [2, 1, 1],
        [2, 1, 2],
        [2, 2, -1],
        [2, 2, 1],
    ],
};

/// A law: `DIRECTIONS` has each direction with entries -1, 0 and 1 that aren't all 0, and `WIDE` each with entries from
/// -2 to 2 whose greatest common divisor is 1; in both each stands before the next one in lexicographic order, so that
/// no two are the same, and with each the opposite one is there.
pub fn table_law()
    ensures whole { DIRECTIONS.n ≡ directions }
    ensures rising { IsTrue (is_rising DIRECTIONS.n) }
    ensures closed { IsTrue (is_closed DIRECTIONS.n) }
    ensures small { All AreSmall DIRECTIONS.n }
    ensures wide { WIDE.n ≡ wide_directions }
    ensures wide_rising { IsTrue (is_rising WIDE.n) }
    ensures wide_closed { IsTrue (is_closed WIDE.n) }
    ensures wide_small { All AreSmall WIDE.n }
{}

/// A law: what a threshold asks for the ellipsoids and for the strays are the least numbers that are enough, and where
/// nobody strays or is late it asks for the ellipsoids alone.
pub fn threshold_law()
    ensures { ThresholdLaw }
{}

/// The threshold of each direction for a clearance: what the ellipsoids ask for, the least number that is not negative
/// and whose square is above 4 r^2 h^2 (n . n); what the strays of two drones take away; and what the way of a late one
/// does. None gives 2^30.
pub fn thresholds<const M: usize>(dirs: &Dirs<M>, clearance: Clearance) -> [i128; M]
    requires size { IsTableSize M }
    requires entries { All AreSmall dirs.now.n }
    requires clearance { IsClearance clearance }
    ensures exact { result ≡ map (threshold clearance) dirs.now.n }
    ensures small { All (λ t. (pos 0 ≤ℤ t) × (t <ℤ pos (2 ^ 30))) result }
{
    let mut values = [0; M];
    for k in 0..M {
        values[k] = threshold_along(dirs.n[k], clearance);
    }
    values
}

fn threshold_along(n: [i8; 3], clearance: Clearance) -> i128
    requires entries { AreSmall n }
    requires clearance { IsClearance clearance }
    ensures exact { result ≡ threshold clearance n }
{
    for_ellipsoids(n, clearance) + for_strays(n, clearance) + for_reach(n, clearance)
}

fn for_ellipsoids(n: [i8; 3], clearance: Clearance) -> i128
    requires entries { AreSmall n }
    requires clearance { IsClearance clearance }
    ensures exact { result ≡ for_ellipsoids clearance n }
    ensures positive { pos 0 ≤ℤ result }
    ensures small { result ≤ℤ pos (2 ^ 25) }
{
    least_root_above(limit(n, clearance.r, clearance.h))
}

// What the strays of two drones take away along a direction.
fn for_strays(n: [i8; 3], clearance: Clearance) -> i128
    requires entries { AreSmall n }
    requires clearance { IsClearance clearance }
    ensures exact { result ≡ for_strays clearance n }
    ensures positive { pos 0 ≤ℤ result }
    ensures small { result ≤ℤ pos (2 ^ 24) }
{
    root_reaching(stray_limit(n, clearance))
}

// The least number that is not negative and whose square is at least so much.
fn root_reaching(v: i128) -> i128
    requires positive { pos 0 ≤ℤ v }
    requires small { v <ℤ pos (2 ^ 100) }
    ensures { result ≡ pos (root_reaching v) }
{
    if v == 0 { 0 } else { least_root_above(v - 1) }
}

// 4 stray^2 (w . w), where w are the weights along the direction.
fn stray_limit(n: [i8; 3], clearance: Clearance) -> i128
    requires entries { AreSmall n }
    requires clearance { IsClearance clearance }
    ensures exact { result ≡ stray_limit clearance n }
    ensures positive { pos 0 ≤ℤ result }
    ensures small { result <ℤ pos (2 ^ 100) }
{
    product(
        stray_area(clearance.stray),
        squared_weights(long_weights(n, clearance.r, clearance.h)),
    )
}

// 4 stray^2
fn stray_area(stray: u16) -> u64
    requires { stray ≤ 1000 }
    ensures exact { result ≡ 4 * (stray * stray) }
    ensures small { result ≤ 2 ^ 50 }
{
    4 * (stray as u64 * stray as u64)
}

// w . w
fn squared_weights(w: [i128; 3]) -> i128
    requires { All (IsBelow 4001) w }
    ensures exact { result ≡ length_squared w }
    ensures positive { pos 0 ≤ℤ result }
    ensures small { result ≤ℤ pos (2 ^ 26) }
{
    sum(squared(w[0]), squared(w[1]), squared(w[2]))
}

fn squared(weight: i128) -> i128
    requires { IsBelow 4001 weight }
    ensures exact { result ≡ weight *ℤ weight }
    ensures small { IsSquare result }
{
    weight * weight
}

// What the way of a drone that is late takes away along a direction.
fn for_reach(n: [i8; 3], clearance: Clearance) -> i128
    requires entries { AreSmall n }
    requires clearance { IsClearance clearance }
    ensures exact { result ≡ for_reach clearance n }
    ensures positive { pos 0 ≤ℤ result }
    ensures small { result ≤ℤ pos 786432000 }
{
    let w = long_weights(n, clearance.r, clearance.h);
    let on_x = way(w[0], clearance.reach[0]);
    let on_y = way(w[1], clearance.reach[1]);
    let on_z = way(w[2], clearance.reach[2]);
    (on_x + on_y + on_z) as i128
}

// What a way on one axis takes away at most, where it has this weight.
fn way(weight: i128, reach: u32) -> u64
    requires weight { IsBelow 4001 weight }
    requires reach { reach ≤ 65536 }
    ensures exact { result ≡ unsigned_abs weight * reach }
    ensures small { result ≤ 262144000 }
{
    weight.unsigned_abs() as u64 * reach as u64
}

// 4 r^2 h^2 (n . n)
fn limit(n: [i8; 3], r: u16, h: u16) -> i128
    requires entries { AreSmall n }
    requires r { IsAxis r }
    requires h { IsAxis h }
    ensures exact { result ≡ limit_along r h n }
    ensures positive { pos 0 ≤ℤ result }
    ensures small { result <ℤ pos (2 ^ 100) }
{
    product(area(r, h), squared_length(n))
}

// 4 r^2 h^2
fn area(r: u16, h: u16) -> u64
    requires r { IsAxis r }
    requires h { IsAxis h }
    ensures exact { result ≡ 4 * (r * r) * (h * h) }
    ensures small { result ≤ 2 ^ 50 }
{
    4 * square(r) * square(h)
}

fn square(r: u16) -> u64
    requires { IsAxis r }
    ensures exact { result ≡ r * r }
    ensures small { result ≤ 4000000 }
{
    r as u64 * r as u64
}

fn product(factor: u64, x: i128) -> i128
    requires factor { factor ≤ 2 ^ 50 }
    requires positive { pos 0 ≤ℤ x }
    requires small { x ≤ℤ pos (2 ^ 26) }
    ensures exact { result ≡ pos factor *ℤ x }
    ensures positive { pos 0 ≤ℤ result }
    ensures small { result <ℤ pos (2 ^ 100) }
{
    factor as i128 * x
}

// n . n
fn squared_length(n: [i8; 3]) -> i128
    requires { AreSmall n }
    ensures exact { result ≡ length_squared n }
    ensures positive { pos 0 ≤ℤ result }
    ensures small { result ≤ℤ pos (2 ^ 26) }
{
    sum(
        squared_entry(n[0]),
        squared_entry(n[1]),
        squared_entry(n[2]),
    )
}

fn sum(x: i128, y: i128, z: i128) -> i128
    requires x { IsSquare x }
    requires y { IsSquare y }
    requires z { IsSquare z }
    ensures exact { result ≡ x +ℤ y +ℤ z }
    ensures positive { pos 0 ≤ℤ result }
    ensures small { result ≤ℤ pos (2 ^ 26) }
{
    x + y + z
}

fn squared_entry(entry: i8) -> i128
    requires low { neg_ℤ (pos 2) ≤ℤ entry }
    requires high { entry ≤ℤ pos 2 }
    ensures exact { result ≡ entry *ℤ entry }
    ensures small { IsSquare result }
{
    match entry {
        0 => 0,
        -1 | 1 => 1,
        _ => 4,
    }
}
