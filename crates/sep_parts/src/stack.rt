//! A place with the parts of the curves there, and the parts of its halves.

ghost use Rattle.std.specs.Prelude.{◌≡◌, ◌<◌, ◌^◌, All};
ghost use Rattle.whole_numbers.specs.Numbers.{IsBelow};
ghost use Rattle.sep_parts.specs.Levels.{IsLevel, left_half, right_half, root};

use crate::part::halves;
use crate::short::SHORT_VALUES_DEPTH;
use crate::values::Controls;
use bezier_core::{Bez, Place};
use fleet_curves::Difference;

/// A place, and the parts of three curves there.
#[derive(Drop)]
pub struct Level {
    /// The place.
    pub place: Place,
    /// The control values on x, y and z, times 2 to the 7 times the depth.
    pub part: Controls,
}

/// The parts of the two halves of a level, without their places, of the differences `diff` of raised curves. No control
/// value of a part reaches 2^86.
pub fn parts_below(diff: &Difference, level: &Level) -> ([Bez<8>; 3], [Bez<8>; 3])
    requires level { IsLevel diff.now level.now }
    requires shallow { level.now.place.depth < 8 }
    ensures left { IsLevel diff.now (record { place = left_half level.now.place; part = result.0 }) }
    ensures right { IsLevel diff.now (record { place = right_half level.now.place; part = result.1 }) }
    ensures left_small { All (λ curve. All (IsBelow (2 ^ 86)) curve.b) result.0 }
    ensures right_small { All (λ curve. All (IsBelow (2 ^ 86)) curve.b) result.1 }
{
    diff.raised_law();
    halves(&level.part.curves())
}

impl Level {
    // The whole of three curves of zeros.
    pub(crate) fn zero() -> Level {
        Level {
            place: Place { depth: 0, index: 0 },
            part: Controls::zero(),
        }
    }

    // The same level.
    pub(crate) fn copied(&self) -> Level
        ensures { result ≡ self.now }
    {
        Level {
            place: self.place,
            part: self.part.copied(),
        }
    }

    // The level becomes the whole of three curves.
    pub(crate) fn begin(&mut self, diff: &Difference)
        ensures { self.new ≡ record { place = root; part = diff.now } }
    {
        self.place = Place { depth: 0, index: 0 };
        self.part.keep_rows(diff.rows());
    }

    // The level becomes its second half, and another one its first half. `diff` are the differences of raised curves
    // whose part it is.
    #[inline(always)]
    pub(crate) fn halve(&mut self, diff: &Difference, first: &mut Level)
        requires level { IsLevel diff.now self.old }
        requires shallow { self.old.place.depth < 8 }
        ensures left_place { first.new.place ≡ left_half self.old.place }
        ensures right_place { self.new.place ≡ right_half self.old.place }
        ensures left { IsLevel diff.now first.new }
        ensures right { IsLevel diff.now self.new }
    {
        diff.raised_law();
        let place = self.place;
        self.part
            .halve(&mut first.part, place.depth < SHORT_VALUES_DEPTH);
        first.place = place.left();
        self.place = place.right();
    }
}
