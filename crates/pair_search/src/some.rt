//! Some direction that separates a part, whichever.

ghost use Rattle.std.specs.Prelude.{◌≡◌, ◌<◌};
ghost use Rattle.std.specs.Option.{is_some};
ghost use Rattle.sep_parts.specs.Levels.{IsLevel};
ghost use Rattle.pair_search.specs.Marks.{AreLeft, FindsBit, FindsMarked, dir_of};
ghost use Rattle.pair_search.specs.Search.{first_by};

use crate::marking::{Marks, lowest, without};
use fleet_curves::Difference;
use sep_parts::{Level, Ruler};

/// The number of a direction of a ruler that separates a part of the differences `diff`, if one does. `near` are marks
/// that leave each direction that separates it.
pub fn some_direction<const M: usize>(
    diff: &Difference,
    level: &Level,
    ruler: &Ruler<M>,
    near: Marks,
) -> Option<u8>
    requires level { IsLevel diff.now level.now }
    requires near { AreLeft ruler.now diff.now level.now.place near }
    ensures { is_some result ≡ is_some (first_by ruler.now diff.now level.now.place) }
{
    // a ruler has at most 98 directions
    let _count = ruler.count();
    match some_marked(diff, level, ruler, near.front, false) {
        Some(dir) => Some(dir),
        None => some_marked(diff, level, ruler, near.back, true),
    }
}

// The same among the directions with a bit, or among their opposites.
fn some_marked<const M: usize>(
    diff: &Difference,
    level: &Level,
    ruler: &Ruler<M>,
    bits: u64,
    back: bool,
) -> Option<u8>
    requires level { IsLevel diff.now level.now }
    ensures { FindsMarked ruler.now diff.now level.now.place bits back result }
{
    let mut rest = bits;
    while rest != 0 {
        let bit = lowest(rest);
        match some_of(diff, level, ruler, bit, back) {
            Some(dir) => return Some(dir),
            None => {}
        }
        rest = without(rest, bit);
    }
    None
}

// The direction of a bit, where it separates the part.
#[inline(always)]
fn some_of<const M: usize>(
    diff: &Difference,
    level: &Level,
    ruler: &Ruler<M>,
    bit: usize,
    back: bool,
) -> Option<u8>
    requires level { IsLevel diff.now level.now }
    ensures { FindsBit ruler.now diff.now level.now.place back bit result }
{
    let count = ruler.count();
    if bit >= count {
        return None;
    }
    let dir = dir_of(count, back, bit);
    if ruler.separates(diff, level, dir) {
        return Some(dir as u8);
    }
    None
}

// The direction of a bit: the one with its number, or the one as far from the end of the table.
pub(crate) fn dir_of(count: usize, back: bool, bit: usize) -> usize
    requires { bit < count }
    ensures exact { result ≡ dir_of count back bit }
    ensures inside { result < count }
{
    if back { count - 1 - bit } else { bit }
}
