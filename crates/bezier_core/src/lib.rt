//! Bézier curves of the degrees 0, 1, 3 and 7 in whole numbers.
//!
//! A curve is its control values, and what is said of it is its Bernstein sum: `value` is that sum, `to_eight` writes
//! the curve with eight control values, `minus` and `along` subtract curves and look at them along a direction, all
//! exactly. Three laws say what that means for the curve's values. The definitions of the sums are `whole_numbers`'s.
//!
//! `halve` gives both halves of a curve, and halving again and again reaches each dyadic part of it; a `Place` names
//! such a part. Two laws say that halving gives the control values that the polar form has for the part.
#![tactic(auto)]

ghost use Rattle.std.specs.Prelude.{◌≡◌, ℕ, ◌+◌, ◌-◌, ◌*◌, ◌^◌, ◌<◌, ◌≤◌, ℤ, pos, neg_ℤ, ◌+ℤ◌, ◌-ℤ◌, ◌*ℤ◌, ◌≤ℤ◌, All};
ghost use Rattle.whole_numbers.specs.Numbers.{IsBelow, IsIn};
ghost use Rattle.whole_numbers.specs.Sums.{power};
ghost use Rattle.whole_numbers.specs.Bernstein.{at, bern, bernstein};
ghost use Rattle.bezier_core.specs.Curves.{IsLength};
ghost use Rattle.bezier_core.specs.Raised.{eight, fact, raised, raised_value};
ghost use Rattle.bezier_core.specs.Along.{along_value, controls};
ghost use Rattle.bezier_core.specs.Steps.{IsWithin, HasRoom, FitsTimes};

mod halves;

pub use halves::{Place, chain_law, half_law, halve, halve_short};

/// The control values of a curve of degree `N - 1`, of any unit. `N` is 1, 2, 4 or 8.
#[derive(Clone, Copy)]
pub struct Bez<const N: usize> {
    pub b: [i128; N],
}

impl<const N: usize> Bez<N> {
    /// The Bernstein sum at `a` and `c`: the curve's value at `a / c`, times `c` to the power of the degree, by de
    /// Casteljau's rule.
    ///
    /// For control values of 16 bits; its distance from 0 is below 2^127 then.
    pub fn value(&self, a: i128, c: i128) -> i128
        requires length { IsLength N }
        requires positive { pos 0 ≤ℤ a }
        requires within { a ≤ℤ c }
        requires some { pos 1 ≤ℤ c }
        requires short { c ≤ℤ pos 65535 }
        requires values { All (IsIn (neg_ℤ (pos 32768)) (pos 32767)) self.now.b }
        ensures exact { result ≡ bern self.now.b a c }
        ensures below { IsBelow (2 ^ 127) result }
    {
        let mut row = self.b;
        for last in (1..N).rev() {
            lower(&mut row, last, a, c);
        }
        row[0]
    }

    /// The control values of degree seven of 5,040 times the curve, raised by one degree at a time.
    pub fn to_eight(&self) -> Bez<8>
        requires length { IsLength N }
        requires values { All (IsBelow (2 ^ 100)) self.now.b }
        ensures exact { result.b ≡ raised self.now.b }
        ensures small { (n : ℕ) → 1 ≤ n → All (IsBelow n) self.now.b → All (IsBelow (5040 * n)) result.b }
    {
        if N == 1 {
            return Bez {
                b: level(self.b[0]),
            };
        }
        let mut row = scaled(&self.b);
        for degree in N - 1..7 {
            raise(&mut row, degree);
        }
        Bez { b: row }
    }
}

// The eight rows of a result are written out, so that all of its numbers stay in registers.
macro_rules! differences {
    ($a:expr, $b:expr; $($k:literal)*) => {
        [$($a[$k] - $b[$k]),*]
    };
}

macro_rules! weighted_sums {
    ($xyz:expr, $w:expr; $($k:literal)*) => {
        [$(along_at($xyz, $w, $k)),*]
    };
}

impl Bez<8> {
    /// The control values of the difference: this curve less the other one.
    pub fn minus(&self, other: &Bez<8>) -> Bez<8>
        requires own { All (IsBelow (2 ^ 125)) self.now.b }
        requires others { All (IsBelow (2 ^ 125)) other.now.b }
        ensures exact { result.b ≡ eight (λ k. at self.now.b k -ℤ at other.now.b k) }
        ensures small { (n : ℕ) → 1 ≤ n → All (IsBelow n) self.now.b → All (IsBelow n) other.now.b
            → All (IsBelow (2 * n)) result.b }
    {
        Bez {
            b: differences!(self.b, other.b; 0 1 2 3 4 5 6 7),
        }
    }
}

/// The control values of the weighted sum of three curves, as of the coordinates x, y and z along a direction. Each
/// weight is from -4,000 to 4,000.
pub fn along(xyz: &[Bez<8>; 3], w: [i128; 3]) -> Bez<8>
    requires values { All (λ curve. All (IsBelow (2 ^ 100)) curve.b) xyz.now }
    requires weights { All (IsBelow 4001) w }
    ensures exact { result.b ≡ eight (along_value xyz.now w) }
    ensures small { (n : ℕ) → 1 ≤ n → All (λ curve. All (IsBelow n) curve.b) xyz.now
        → All (IsBelow (12000 * n)) result.b }
{
    Bez {
        b: weighted_sums!(xyz, w; 0 1 2 3 4 5 6 7),
    }
}

// The control values of degree seven of 5,040 times a curve that stays at one value.
fn level(value: i128) -> [i128; 8]
    requires { IsBelow (2 ^ 100) value }
    ensures { result ≡ eight (λ k. pos 5040 *ℤ value) }
{
    [5040 * value; 8]
}

// The control values of degree `n`, times the product of 1 to `n`, in front of zeros.
fn scaled<const N: usize>(b: &[i128; N]) -> [i128; 8]
    requires length { IsLength N }
    requires values { All (IsBelow (2 ^ 100)) b.now }
    ensures { (k : ℕ) → k < N → at result k ≡ pos (fact (N - 1)) *ℤ at b.now k }
{
    let scale = match N {
        4 => 6,
        8 => 5040,
        _ => 1,
    };
    let mut row = [0; 8];
    for k in 0..N {
        row[k] = combine(scale, 0, b[k], 0);
    }
    row
}

// The control values of one degree more, times that degree.
fn raise(row: &mut [i128; 8], degree: usize)
    requires degree { degree < 7 }
    requires values { (k : ℕ) → k ≤ degree → IsWithin (pos (2 ^ 113)) (at row.old k) }
    ensures { (k : ℕ) → k ≤ degree + 1 →
        at row.new k ≡ pos k *ℤ at row.old (k - 1) +ℤ pos (degree + 1 - k) *ℤ at row.old k }
{
    row[degree + 1] = combine(degree + 1, 0, row[degree], 0);
    for k in (1..degree + 1).rev() {
        row[k] = combine(k, degree + 1 - k, row[k - 1], row[k]);
    }
    row[0] = combine(0, degree + 1, row[0], row[0]);
}

fn combine(i: usize, j: usize, x: i128, y: i128) -> i128
    requires few { i + j ≤ 5040 }
    requires first { IsWithin (pos (2 ^ 113)) x }
    requires second { IsWithin (pos (2 ^ 113)) y }
    ensures { result ≡ pos i *ℤ x +ℤ pos j *ℤ y }
{
    i as i128 * x + j as i128 * y
}

/// The weighted sum of the control values of three curves at one place, 0 to 7: one of the eight that [`along`]
/// returns, under the same conditions.
pub fn along_at(xyz: &[Bez<8>; 3], w: [i128; 3], k: usize) -> i128
    requires place { k < 8 }
    requires values { All (λ curve. All (IsBelow (2 ^ 100)) curve.b) xyz.now }
    requires weights { All (IsBelow 4001) w }
    ensures exact { result ≡ along_value xyz.now w k }
    ensures small { (n : ℕ) → 1 ≤ n → All (λ curve. All (IsBelow n) curve.b) xyz.now → IsBelow (12000 * n) result }
{
    let x = weighted(w[0], xyz[0].b[k]);
    let y = weighted(w[1], xyz[1].b[k]);
    let z = weighted(w[2], xyz[2].b[k]);
    x + y + z
}

fn weighted(weight: i128, value: i128) -> i128
    requires weight { IsBelow 4001 weight }
    requires value { IsBelow (2 ^ 100) value }
    ensures product { result ≡ weight *ℤ value }
    ensures small { IsBelow (2 ^ 112) result }
{
    weight * value
}

// One step of de Casteljau's rule, in numbers scaled by `c`.
fn lower<const N: usize>(row: &mut [i128; N], last: usize, a: i128, c: i128)
    requires place { last < N }
    requires positive { pos 0 ≤ℤ a }
    requires within { a ≤ℤ c }
    requires room { HasRoom row.old last c }
    ensures { (i : ℕ) → i < last → at row.new i ≡ (c -ℤ a) *ℤ at row.old i +ℤ a *ℤ at row.old (i + 1) }
{
    for i in 0..last {
        row[i] = blend(row[i], row[i + 1], a, c);
    }
}

// `c - a` times the one value plus `a` times the other.
fn blend(x: i128, y: i128, a: i128, c: i128) -> i128
    requires positive { pos 0 ≤ℤ a }
    requires within { a ≤ℤ c }
    requires room { FitsTimes c x y }
    ensures { result ≡ (c -ℤ a) *ℤ x +ℤ a *ℤ y }
{
    (c - a) * x + a * y
}

/// A law. Where each control value is at least `low`, so is the curve, at each fraction `a / c` from 0 to 1: the hull
/// property. `everywhere` says it of all whole numbers, whether or not a type holds them.
pub fn hull_law(b: &Bez<8>, low: i128, a: i128, c: i128)
    requires positive { pos 0 ≤ℤ a }
    requires within { a ≤ℤ c }
    requires some { pos 1 ≤ℤ c }
    requires above { All (λ v. low ≤ℤ v) b.now.b }
    ensures here { (low *ℤ power c 7) ≤ℤ bern b.now.b a c }
    ensures everywhere { (f : ℕ → ℤ) (low a c : ℤ) → pos 0 ≤ℤ a → a ≤ℤ c
        → ((k : ℕ) → k ≤ 7 → low ≤ℤ f k) → (low *ℤ power c 7) ≤ℤ bernstein 7 f a c }
{}

/// A law. The value of the weighted curve is the weighted sum of the values. `everywhere` says it of all whole numbers,
/// whether or not a type holds them.
pub fn linear_law(xyz: &[Bez<8>; 3], w: [i128; 3], a: i128, c: i128)
    requires values { All (λ curve. All (IsBelow (2 ^ 100)) curve.b) xyz.now }
    requires weights { All (IsBelow 4001) w }
    requires positive { pos 0 ≤ℤ a }
    requires within { a ≤ℤ c }
    requires some { pos 1 ≤ℤ c }
    ensures here { bernstein 7 (along_value xyz.now w) a c
        ≡ at w 0 *ℤ bernstein 7 (at (controls xyz.now 0)) a c
        +ℤ at w 1 *ℤ bernstein 7 (at (controls xyz.now 1)) a c
        +ℤ at w 2 *ℤ bernstein 7 (at (controls xyz.now 2)) a c }
    ensures everywhere { (f g h : ℕ → ℤ) (u v w a c : ℤ)
        → bernstein 7 (λ k. u *ℤ f k +ℤ v *ℤ g k +ℤ w *ℤ h k) a c
        ≡ u *ℤ bernstein 7 f a c +ℤ v *ℤ bernstein 7 g a c +ℤ w *ℤ bernstein 7 h a c }
{}

/// A law. The value of the raised curve is 5,040 times that of the curve, scaled to degree seven. `everywhere` says it
/// of all whole numbers, whether or not a type holds them, and of each degree up to seven.
pub fn raise_law<const N: usize>(b: &Bez<N>, a: i128, c: i128)
    requires length { IsLength N }
    requires positive { pos 0 ≤ℤ a }
    requires within { a ≤ℤ c }
    requires some { pos 1 ≤ℤ c }
    ensures here { bern (raised b.now.b) a c ≡ pos 5040 *ℤ (power c (8 - N) *ℤ bern b.now.b a c) }
    ensures everywhere { (n : ℕ) (f : ℕ → ℤ) (a c : ℤ) → n ≤ 7
        → bernstein 7 (raised_value n f) a c ≡ pos 5040 *ℤ (power c (7 - n) *ℤ bernstein n f a c) }
{}
