//! A table of directions with the threshold of each.

ghost use Rattle.std.specs.Prelude.{◌≡◌, ◌^◌, ◌<◌, ◌≤◌, pos, ◌≤ℤ◌, ◌<ℤ◌, length, All, IsTrue, is_none};
ghost use Rattle.whole_numbers.specs.Numbers.{IsBelow};
ghost use Rattle.sep_parts.specs.Directions.{AreSmall, IsClearance, IsTableSize, Stands, direction_of, threshold};
ghost use Rattle.sep_parts.specs.Directions.{weights};
ghost use Rattle.sep_parts.specs.Levels.{IsLevel, root};
ghost use Rattle.sep_parts.specs.Separates.{low_value};

use crate::clearance::Clearance;
use crate::directions::{Dirs, thresholds};
use crate::part::low_control;
use crate::short::{separates_rows, weights};
use crate::stack::Level;
use fleet_curves::Difference;
use std::marker::Model;
use whole_numbers::Depth;

/// A table of directions with the threshold of each for a clearance. Contracts see the directions and the clearance,
/// which determine the thresholds.
#[derive(Drop)]
pub struct Ruler<const M: usize> {
    directions: Dirs<M>,
    thresholds: [i128; M],
    clearance: Clearance,
}

impl<const M: usize> Model for Ruler<M> {
    ghost use Rattle.sep_parts.specs.Rulers.{Measure, IsRuler};

    ghost Value = { Measure };

    ghost view = { λ s. record { directions = s.directions.n; clearance = s.clearance } };

    ghost invariant = { λ s. IsRuler s.directions.n s.thresholds s.clearance };
}

impl<const M: usize> Ruler<M> {
    /// The ruler of a table for a clearance. Working the thresholds out takes longer than most searches, so it is made
    /// once for all pairs and cues.
    pub fn make(directions: &Dirs<M>, clearance: Clearance) -> Ruler<M>
        requires size { IsTableSize M }
        requires entries { All AreSmall directions.now.n }
        requires clearance { IsClearance clearance }
        ensures { result ≡ record { directions = directions.now.n; clearance = clearance } }
    {
        Ruler {
            directions: *directions,
            thresholds: thresholds(directions, clearance),
            clearance,
        }
    }

    /// The clearance.
    pub fn clearance(&self) -> Clearance
        ensures exact { result ≡ self.now.clearance }
        ensures clear { IsClearance result }
    {
        self.clearance
    }

    /// The weights of the three curves along the direction with the number `dir`.
    pub fn weights_along(&self, dir: usize) -> [i64; 3]
        requires dir { dir < length self.now.directions }
        ensures exact { result ≡ weights (direction_of self.now.directions dir) self.now.clearance.r
            self.now.clearance.h }
        ensures small { All (IsBelow 4001) result }
    {
        let directions = self.directions.n.as_slice();
        weights(directions[dir], self.clearance.r, self.clearance.h)
    }

    /// The threshold of the direction with the number `dir`.
    pub fn threshold_along(&self, dir: usize) -> i128
        requires dir { dir < length self.now.directions }
        ensures exact { result ≡ threshold self.now.clearance (direction_of self.now.directions dir) }
        ensures positive { pos 0 ≤ℤ result }
        ensures small { result <ℤ pos (2 ^ 30) }
    {
        let thresholds = self.thresholds.as_slice();
        thresholds[dir]
    }

    /// Whether a direction stands in the table.
    pub fn has(&self, n: [i8; 3]) -> bool
        ensures { IsTrue result → Stands self.now.directions n }
    {
        let directions = self.directions.n.as_slice();
        for dir in 0..directions.len() {
            if directions[dir].as_slice() == n.as_slice() {
                return true;
            }
        }
        false
    }

    /// How many directions the table has.
    pub fn count(&self) -> usize
        ensures exact { result ≡ length self.now.directions }
        ensures few { result ≤ 98 }
    {
        self.directions.n.as_slice().len()
    }

    /// Whether the direction with the number `dir` separates a part of the differences `diff` of raised curves: whether
    /// along it no control value of the part is below the threshold.
    #[inline(always)]
    pub fn separates(&self, diff: &Difference, level: &Level, dir: usize) -> bool
        requires level { IsLevel diff.now level.now }
        requires dir { dir < length self.now.directions }
        ensures { result ≡ is_none
            (low_value self.now.clearance diff.now level.now.place (direction_of self.now.directions dir)) }
    {
        diff.raised_law();
        let directions = self.directions.n.as_slice();
        let thresholds = self.thresholds.as_slice();
        let Clearance { r, h, .. } = self.clearance;
        level.part.are_apart(
            directions[dir],
            r,
            h,
            thresholds[dir],
            Depth::make(level.place.depth),
        )
    }

    /// Whether the direction with the number `dir` separates the whole cue: what [`Ruler::separates`] returns of it.
    #[inline(always)]
    pub fn separates_whole(&self, diff: &Difference, dir: usize) -> bool
        requires dir { dir < length self.now.directions }
        ensures { result ≡ is_none (low_value self.now.clearance diff.now root (direction_of self.now.directions dir)) }
    {
        diff.raised_law();
        let directions = self.directions.n.as_slice();
        let thresholds = self.thresholds.as_slice();
        let Clearance { r, h, .. } = self.clearance;
        separates_rows(diff.rows(), directions[dir], r, h, thresholds[dir])
    }

    /// The place, 0 to 7, of the first control value of a part that is below the threshold along the direction with the
    /// number `dir`; none where the direction separates the part. `diff` are the differences of raised curves whose
    /// part it is.
    pub fn low_control(&self, diff: &Difference, level: &Level, dir: usize) -> Option<usize>
        requires level { IsLevel diff.now level.now }
        requires dir { dir < length self.now.directions }
        ensures { result ≡ low_value self.now.clearance diff.now level.now.place
            (direction_of self.now.directions dir) }
    {
        diff.raised_law();
        let directions = self.directions.n.as_slice();
        let thresholds = self.thresholds.as_slice();
        low_control(
            &level.part.curves(),
            directions[dir],
            self.clearance.r,
            self.clearance.h,
            thresholds[dir],
            Depth::make(level.place.depth),
        )
    }
}
