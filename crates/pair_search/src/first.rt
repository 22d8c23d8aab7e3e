//! The first direction that separates a part.

ghost use Rattle.std.specs.Prelude.{◌≡◌, ◌⊎◌, ℕ, ◌+◌, ◌≤◌, ◌<◌, true, false, length};
ghost use Rattle.sep_parts.specs.Levels.{IsLevel, root};
ghost use Rattle.pair_search.specs.Marks.{AnswersBit, AreEarly, AreLeft, FindsEarliest, FindsEarly, IsOut};
ghost use Rattle.pair_search.specs.Search.{first_by};
ghost use Rattle.pair_search.specs.Steps.{FindsFirst, does_separate};

use crate::marking::{Marks, first_bit, without};
use crate::some::dir_of;
use fleet_curves::Difference;
use sep_parts::{Level, Ruler};

/// The number of the first direction of a ruler that separates a part of the differences `diff`. `near` are marks that
/// leave each direction that separates it.
#[inline(never)]
pub fn first_direction<const M: usize>(
    diff: &Difference,
    level: &Level,
    ruler: &Ruler<M>,
    near: Marks,
) -> Option<u8>
    requires level { IsLevel diff.now level.now }
    requires near { AreLeft ruler.now diff.now level.now.place near }
    ensures { result ≡ first_by ruler.now diff.now level.now.place }
{
    first_left(
        ruler.count(),
        near,
        &|dir: usize| -> bool
            requires level { IsLevel diff.now level.now }
            requires dir { dir < length ruler.now.directions }
            ensures { result ≡ does_separate ruler.entry.now diff.entry.now level.entry.now.place dir }
        { ruler.separates(diff, level, dir) },
    )
}

/// The number of the first direction of a ruler that separates the whole cue. `near` are marks that leave each
/// direction that separates it.
#[inline(never)]
pub fn first_of_whole<const M: usize>(
    diff: &Difference,
    ruler: &Ruler<M>,
    near: Marks,
) -> Option<u8>
    requires near { AreLeft ruler.now diff.now root near }
    ensures { result ≡ first_by ruler.now diff.now root }
{
    first_left(
        ruler.count(),
        near,
        &|dir: usize| -> bool
            requires { dir < length ruler.now.directions }
            ensures { result ≡ does_separate ruler.entry.now diff.entry.now root dir }
        { ruler.separates_whole(diff, dir) },
    )
}

/// The number of the first direction of a ruler that separates the whole cue, if it is one of the first 16: mostly it
/// is. `near` has a bit for each of these that is left.
#[inline(never)]
pub fn first_early<const M: usize>(diff: &Difference, ruler: &Ruler<M>, near: u64) -> Option<u8>
    requires near { AreEarly ruler.now diff.now near }
    ensures { FindsEarly ruler.now diff.now result }
{
    first_marked(
        early_of(ruler.count()),
        near,
        false,
        &|dir: usize| -> bool
            requires { dir < length ruler.now.directions }
            ensures { result ≡ does_separate ruler.entry.now diff.entry.now root dir }
        { ruler.separates_whole(diff, dir) },
    )
}

// How many directions a table has, at most 32: its first 16 and their opposites.
fn early_of(count: usize) -> usize
    ensures few { (result ≤ count) × (result ≤ 32) }
    ensures enough { (i : ℕ) → i < 16 → i + i < count → i + i < result }
{
    if count < 32 { count } else { 32 }
}

// The first of `count` directions that marks leave and that `asks` answers with yes.
#[inline(always)]
fn first_left<F: Fn(usize) -> bool>(count: usize, near: Marks, asks: &F) -> Option<u8>
    requires count { count ≤ 98 }
    requires asks { (dir : ℕ) → dir < count → F.pre asks.now dir }
    ensures { FindsFirst (λ dir. IsOut count near dir ⊎ F.post asks.now dir false)
        (λ dir. F.post asks.now dir true) count result }
{
    match first_marked(count, near.front, false, asks) {
        Some(dir) => Some(dir),
        None => first_marked(count, near.back, true, asks),
    }
}

// The same among the directions with a bit, the lowest bit first; or among their opposites, the highest bit first.
#[inline(always)]
fn first_marked<F: Fn(usize) -> bool>(count: usize, bits: u64, back: bool, asks: &F) -> Option<u8>
    requires count { count ≤ 98 }
    requires asks { (dir : ℕ) → dir < count → F.pre asks.now dir }
    ensures { FindsEarliest (λ dir. F.post asks.now dir false) (λ dir. F.post asks.now dir true) count bits back result }
{
    let mut rest = bits;
    while rest != 0 {
        let bit = first_bit(rest, back);
        match answer_of(count, bit, back, asks) {
            Some(dir) => return Some(dir),
            None => {}
        }
        rest = without(rest, bit);
    }
    None
}

// The direction of a bit, where the answer is yes. Bits of the second half of a table stand for none.
#[inline(always)]
fn answer_of<F: Fn(usize) -> bool>(count: usize, bit: usize, back: bool, asks: &F) -> Option<u8>
    requires count { count ≤ 98 }
    requires bit { bit < 64 }
    requires asks { (dir : ℕ) → dir < count → F.pre asks.now dir }
    ensures { AnswersBit (λ dir. F.post asks.now dir false) (λ dir. F.post asks.now dir true) count back bit result }
{
    if bit + bit >= count {
        return None;
    }
    let dir = dir_of(count, back, bit);
    if asks(dir) {
        return Some(dir as u8);
    }
    None
}
