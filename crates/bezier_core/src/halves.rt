//! Halves of curves of degree seven, by de Casteljau's rule, and the dyadic parts that they reach.

ghost use Rattle.std.specs.Prelude.{◌≡◌, ℕ, ◌+◌, ◌-◌, ◌*◌, ◌^◌, ◌<◌, ◌≤◌, ◌≤ℤ◌, ℤ, pos, ◌+ℤ◌, ◌*ℤ◌, All};
ghost use Rattle.whole_numbers.specs.Numbers.{IsBelow};
ghost use Rattle.whole_numbers.specs.Bernstein.{at, bernstein};
ghost use Rattle.bezier_core.specs.Raised.{eight};
ghost use Rattle.bezier_core.specs.Steps.{IsWithin};
ghost use Rattle.bezier_core.specs.Part.{part_value, halved_along};
ghost use Rattle.bezier_core.specs.Places.{IsPlace};
ghost use Rattle.bezier_core.specs.HalvingSteps.{HasRows, IsWord};

use crate::Bez;

/// The part of a curve from the fraction `index / 2^depth` to `(index + 1) / 2^depth`, of a depth from 0 to 8.
#[derive(Clone, Copy)]
pub struct Place {
    pub depth: u8,
    pub index: u16,
}

impl Place {
    ghost use Rattle.bezier_core.specs.Places.{IsPlace};

    /// The first half of the part.
    pub fn left(&self) -> Place
        requires valid { IsPlace self.now.depth self.now.index }
        requires room { self.now.depth < 8 }
        ensures { result ≡ record { depth = self.now.depth + 1; index = 2 * self.now.index } }
    {
        Place {
            depth: self.depth + 1,
            index: 2 * self.index,
        }
    }

    /// The second half of the part.
    pub fn right(&self) -> Place
        requires valid { IsPlace self.now.depth self.now.index }
        requires room { self.now.depth < 8 }
        ensures { result ≡ record { depth = self.now.depth + 1; index = 2 * self.now.index + 1 } }
    {
        Place {
            depth: self.depth + 1,
            index: 2 * self.index + 1,
        }
    }
}

/// The left and the right half of a curve, each with control values times 2 to the 7, by de Casteljau's rule.
pub fn halve(b: &Bez<8>) -> (Bez<8>, Bez<8>)
    requires { All (IsBelow (2 ^ 118)) b.now.b }
    ensures left { result.0.b ≡ eight (part_value 1 0 (at b.now.b)) }
    ensures right { result.1.b ≡ eight (part_value 1 1 (at b.now.b)) }
    ensures left_small { (n : ℕ) → 1 ≤ n → All (IsBelow n) b.now.b → All (IsBelow (2 ^ 7 * n)) result.0.b }
    ensures right_small { (n : ℕ) → 1 ≤ n → All (IsBelow n) b.now.b → All (IsBelow (2 ^ 7 * n)) result.1.b }
{
    halve_by::<128>(b)
}

/// As [`halve`], in numbers of 64 bits.
#[inline(always)]
pub fn halve_short(b: &Bez<8>) -> (Bez<8>, Bez<8>)
    requires { All (IsBelow (2 ^ 54)) b.now.b }
    ensures left { result.0.b ≡ eight (part_value 1 0 (at b.now.b)) }
    ensures right { result.1.b ≡ eight (part_value 1 1 (at b.now.b)) }
{
    halve_by::<64>(b)
}

// The same in numbers of so many bits, 64 or 128.
fn halve_by<const BITS: usize>(b: &Bez<8>) -> (Bez<8>, Bez<8>)
    requires word { IsWord BITS }
    requires values { All (IsBelow (2 ^ (BITS - 10))) b.now.b }
    ensures left { result.0.b ≡ eight (part_value 1 0 (at b.now.b)) }
    ensures right { result.1.b ≡ eight (part_value 1 1 (at b.now.b)) }
    ensures left_small { (n : ℕ) → 1 ≤ n → All (IsBelow n) b.now.b → All (IsBelow (2 ^ 7 * n)) result.0.b }
    ensures right_small { (n : ℕ) → 1 ≤ n → All (IsBelow n) b.now.b → All (IsBelow (2 ^ 7 * n)) result.1.b }
{
    let mut row = b.b;
    let mut left = [0; 8];
    let mut right = [0; 8];
    next_row::<0, BITS>(b, &mut row, &mut left, &mut right);
    next_row::<1, BITS>(b, &mut row, &mut left, &mut right);
    next_row::<2, BITS>(b, &mut row, &mut left, &mut right);
    next_row::<3, BITS>(b, &mut row, &mut left, &mut right);
    next_row::<4, BITS>(b, &mut row, &mut left, &mut right);
    next_row::<5, BITS>(b, &mut row, &mut left, &mut right);
    next_row::<6, BITS>(b, &mut row, &mut left, &mut right);
    next_row::<7, BITS>(b, &mut row, &mut left, &mut right);
    (Bez { b: left }, Bez { b: right })
}

// One row of the triangle: its ends go into the halves, and the row after it is made. The number of the row is a
// constant of the type, so that the compiler writes out each row and keeps it in registers.
fn next_row<const K: usize, const BITS: usize>(
    b: &Bez<8>,
    row: &mut [i128; 8],
    left: &mut [i128; 8],
    right: &mut [i128; 8],
)
    requires place { K ≤ 7 }
    requires word { IsWord BITS }
    requires values { All (IsBelow (2 ^ (BITS - 10))) b.now.b }
    requires before { HasRows K b.now.b row.old left.old right.old }
    ensures { HasRows (K + 1) b.now.b row.new left.new right.new }
{
    left[K] = doubled::<BITS>(row[0], 7 - K);
    right[7 - K] = doubled::<BITS>(row[7 - K], 7 - K);
    sums::<BITS>(row, 7 - K);
}

// The sums of neighbours: the row after this one in the triangle, doubled.
fn sums<const BITS: usize>(row: &mut [i128; 8], last: usize)
    requires last { last ≤ 7 }
    requires word { IsWord BITS }
    requires values { (k : ℕ) → k ≤ last → IsWithin (pos (2 ^ (BITS - 3))) (at row.old k) }
    ensures { (i : ℕ) → i < last → at row.new i ≡ at row.old i +ℤ at row.old (i + 1) }
{
    for i in 0..last {
        row[i] = sum::<BITS>(row[i], row[i + 1]);
    }
}

fn sum<const BITS: usize>(x: i128, y: i128) -> i128
    requires word { IsWord BITS }
    requires x { IsWithin (pos (2 ^ (BITS - 3))) x }
    requires y { IsWithin (pos (2 ^ (BITS - 3))) y }
    ensures { result ≡ x +ℤ y }
{
    if BITS == 64 {
        i128::from(x as i64 + y as i64)
    } else {
        x + y
    }
}

// A value, doubled some times: 0 to 7.
fn doubled<const BITS: usize>(x: i128, times: usize) -> i128
    requires few { times ≤ 7 }
    requires word { IsWord BITS }
    requires value { IsWithin (pos (2 ^ (BITS - 3))) x }
    requires room { IsWithin (pos (2 ^ (BITS - 2))) (pos (2 ^ times) *ℤ x) }
    ensures { result ≡ pos (2 ^ times) *ℤ x }
{
    let scale = power_of_two(times);
    if BITS == 64 {
        i128::from(scale * (x as i64))
    } else {
        i128::from(scale) * x
    }
}

fn power_of_two(times: usize) -> i64
    requires { times ≤ 7 }
    ensures { result ≡ pos (2 ^ times) }
{
    match times {
        0 => 1,
        1 => 2,
        2 => 4,
        3 => 8,
        4 => 16,
        5 => 32,
        6 => 64,
        _ => 128,
    }
}

/// A law. The left half at `a / c` is the whole at `a / (2 c)`, and the right half the whole at `(a + c) / (2 c)`, all
/// in scaled numbers. `everywhere` says it of all whole numbers, whether or not a type holds them.
pub fn half_law(b: &Bez<8>, a: i128, c: i128)
    requires values { All (IsBelow (2 ^ 118)) b.now.b }
    requires positive { pos 0 ≤ℤ a }
    requires within { a ≤ℤ c }
    requires some { pos 1 ≤ℤ c }
    ensures left { bernstein 7 (part_value 1 0 (at b.now.b)) a c ≡ bernstein 7 (at b.now.b) a (pos 2 *ℤ c) }
    ensures right { bernstein 7 (part_value 1 1 (at b.now.b)) a c ≡ bernstein 7 (at b.now.b) (a +ℤ c) (pos 2 *ℤ c) }
    ensures left_everywhere { (f : ℕ → ℤ) (a c : ℤ)
        → bernstein 7 (part_value 1 0 f) a c ≡ bernstein 7 f a (pos 2 *ℤ c) }
    ensures right_everywhere { (f : ℕ → ℤ) (a c : ℤ)
        → bernstein 7 (part_value 1 1 f) a c ≡ bernstein 7 f (a +ℤ c) (pos 2 *ℤ c) }
{}

/// A law. Halving along the path to a place gives the control values of its part, times 2 to the 7 times the depth.
/// `everywhere` says it of all whole numbers, whether or not a type holds them, and of each depth.
pub fn chain_law(b: &Bez<8>, p: Place)
    requires valid { IsPlace p.depth p.index }
    requires values { All (IsBelow (2 ^ 60)) b.now.b }
    ensures here { (k : ℕ) → k ≤ 7
        → halved_along p.depth p.index (at b.now.b) k ≡ part_value p.depth p.index (at b.now.b) k }
    ensures everywhere { (f : ℕ → ℤ) (depth index k : ℕ) → index < 2 ^ depth → k ≤ 7
        → halved_along depth index f k ≡ part_value depth index f k }
{}
