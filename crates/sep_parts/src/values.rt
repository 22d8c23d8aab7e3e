//! Three curves whose control values have 64 bits where these hold them.

ghost use Rattle.std.specs.Prelude.{◌≡◌, ℕ, ◌^◌, ◌≤◌, ◌<◌, ◌≤ℤ◌, ◌<ℤ◌, pos, All, IsTrue, ◌↔◌, length, true};
ghost use Rattle.whole_numbers.specs.Bernstein.{at};
ghost use Rattle.whole_numbers.specs.Numbers.{IsBelow};
ghost use Rattle.bezier_core.specs.Along.{along_value, controls};
ghost use Rattle.bezier_core.specs.Raised.{eight};
ghost use Rattle.fleet_curves.specs.Raised.{curves_of};
ghost use Rattle.bezier_core.specs.Part.{part_value};
ghost use Rattle.sep_parts.specs.Directions.{AreSmall, IsAxis, weights};
ghost use Rattle.sep_parts.specs.Separates.{least_value};
ghost use Rattle.sep_parts.specs.declared.short.TheConstants.{SHORT_SUMS_DEPTH};

use crate::part::{halves, separates};
use crate::rows::{halve_rows, long_curves, widened_rows};
use crate::short::{SHORT_SUMS_DEPTH, separates_by_long_sums, separates_by_short_sums};
use bezier_core::Bez;
use std::marker::Model;
use whole_numbers::Depth;

/// Three curves, on x, y and z. Their control values are kept in 64 bits, or in 128. A contract sees the curves.
#[derive(Drop)]
pub struct Controls {
    is_long: bool,
    short: [[i64; 8]; 3],
    long: [Bez<8>; 3],
}

impl Model for Controls {
    ghost use Rattle.std.specs.Prelude.{List};
    ghost use Rattle.bezier_core.specs.declared.Bez.{Bez};
    ghost use Rattle.sep_parts.specs.Kept.{kept_curves};

    ghost Value = { List (Bez 8) };

    ghost view = { λ c. kept_curves c.is_long c.short c.long };
}

impl Controls {
    /// Three curves of zeros.
    pub fn zero() -> Controls {
        Controls {
            is_long: false,
            short: [[0; 8]; 3],
            long: [Bez { b: [0; 8] }; 3],
        }
    }

    /// The same curves.
    pub fn copied(&self) -> Controls
        ensures { result ≡ self.now }
    {
        Controls {
            is_long: self.is_long,
            short: self.short,
            long: self.long,
        }
    }

    /// One control value of a curve: of x, y or z, and at a place from 0 to 7.
    #[inline(always)]
    pub fn value(&self, axis: usize, k: usize) -> i128
        requires axis { axis < 3 }
        requires place { k < 8 }
        ensures { result ≡ at (controls self.now axis) k }
    {
        if self.is_long {
            self.long[axis].b[k]
        } else {
            i128::from(self.short[axis][k])
        }
    }

    /// The curves, in 128 bits.
    pub fn curves(&self) -> [Bez<8>; 3]
        ensures { result ≡ self.now }
    {
        if self.is_long {
            self.long
        } else {
            long_curves(&self.short)
        }
    }

    /// These rows of 32 bits take the place of the curves.
    pub(crate) fn keep_rows(&mut self, rows: &[[i32; 8]; 3])
        ensures { self.new ≡ curves_of rows.now }
    {
        self.is_long = false;
        self.short = widened_rows(rows);
    }

    /// The curves become their right halves, and others the left ones, each times 2 to the 7. Narrow curves are halved
    /// in 64 bits.
    #[inline(always)]
    pub(crate) fn halve(&mut self, left: &mut Controls, narrow: bool)
        requires values { All (λ curve. All (IsBelow (2 ^ 118)) curve.b) self.old }
        requires narrow { IsTrue narrow → All (λ curve. All (IsBelow (2 ^ 54)) curve.b) self.old }
        ensures sizes { (length left.new ≡ 3) × (length self.new ≡ 3) }
        ensures left { (axis : ℕ) → axis ≤ 2
            → controls left.new axis ≡ eight (part_value 1 0 (at (controls self.old axis))) }
        ensures right { (axis : ℕ) → axis ≤ 2
            → controls self.new axis ≡ eight (part_value 1 1 (at (controls self.old axis))) }
    {
        if narrow && !self.is_long {
            halve_rows(&mut self.short, &mut left.short);
            left.is_long = false;
        } else {
            self.halve_long(left);
        }
    }

    // The same in 128 bits.
    #[inline(never)]
    fn halve_long(&mut self, left: &mut Controls)
        requires { All (λ curve. All (IsBelow (2 ^ 118)) curve.b) self.old }
        ensures sizes { (length left.new ≡ 3) × (length self.new ≡ 3) }
        ensures left { (axis : ℕ) → axis ≤ 2
            → controls left.new axis ≡ eight (part_value 1 0 (at (controls self.old axis))) }
        ensures right { (axis : ℕ) → axis ≤ 2
            → controls self.new axis ≡ eight (part_value 1 1 (at (controls self.old axis))) }
    {
        let (first, second) = halves(&self.curves());
        left.long = first;
        left.is_long = true;
        self.long = second;
        self.is_long = true;
    }

    /// Whether the direction `n` separates these curves, which are a part of the given depth: what `separates` says.
    #[inline(always)]
    pub(crate) fn are_apart(
        &self,
        n: [i8; 3],
        r: u16,
        h: u16,
        threshold: i128,
        depth: Depth,
    ) -> bool
        requires values { All (λ curve. All (IsBelow (2 ^ 86)) curve.b) self.now }
        requires narrow { depth ≤ SHORT_SUMS_DEPTH → All (λ curve. All (IsBelow (2 ^ 46)) curve.b) self.now }
        requires entries { AreSmall n }
        requires r { IsAxis r }
        requires h { IsAxis h }
        requires positive { pos 0 ≤ℤ threshold }
        requires small { threshold <ℤ pos (2 ^ 30) }
        ensures { IsTrue result
            ↔ ((k : ℕ) → k ≤ 7 → least_value threshold depth ≤ℤ along_value self.now (weights n r h) k) }
    {
        if self.is_long {
            return separates(&self.long, n, r, h, threshold, depth);
        }
        if depth.levels() <= SHORT_SUMS_DEPTH {
            return separates_by_short_sums(&self.short, n, r, h, threshold, depth);
        }
        separates_by_long_sums(&self.short, n, r, h, threshold, depth)
    }
}
