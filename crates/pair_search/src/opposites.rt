//! Directions with their opposites side by side, for who asks only whether a direction is there.

ghost use Rattle.std.specs.Prelude.{◌≡◌, ℕ, ◌+◌, ◌-◌, ◌^◌, ◌≤◌, ◌<◌, ℤ, pos, neg_ℤ, ◌+ℤ◌, IsTrue};
ghost use Rattle.whole_numbers.specs.Bernstein.{at};
ghost use Rattle.whole_numbers.specs.Numbers.{IsBelow};
ghost use Rattle.pair_search.specs.Lanes.{AreSmallLanes};
ghost use Rattle.pair_search.specs.Opposites.{AreOpposites, AreSmallHighs, CancelAt, IsHigh, IsSmallHigh};

use crate::lanes::{Lanes, lanes_of};
use crate::short::{ShortLanes, short_of};
use sep_parts::Ruler;

/// The lanes of a ruler. For each direction of the first half of its table, `high` says above what a point is too low
/// along the opposite direction, which stands as far from the end of the table.
#[derive(Drop)]
pub struct Opposites {
    pub lanes: Lanes,
    pub high: [i32; 56],
    pub short: ShortLanes,
}

/// The lanes of a ruler with the opposite directions.
pub fn opposites_of<const M: usize>(ruler: &Ruler<M>) -> Opposites
    ensures { AreOpposites ruler.now result }
{
    let lanes = lanes_of(ruler);
    let high = highs_of(&lanes, ruler.count());
    let short = short_of(&lanes, ruler.count());
    Opposites { lanes, high, short }
}

// How many directions the first half of a table has, the middle one included.
pub(crate) fn front_of(count: usize) -> usize
    requires { count ≤ 98 }
    ensures enough { count ≤ result + result }
    ensures few { result + result ≤ count + 1 }
{
    count - count / 2
}

// Above what a point is too low along the opposite of each direction of the first half of a table. Each point reaches
// the other ones, which are so never asked for.
fn highs_of(lanes: &Lanes, count: usize) -> [i32; 56]
    requires count { count ≤ 98 }
    requires lanes { AreSmallLanes lanes.now }
    ensures small { AreSmallHighs result }
    ensures each { (i : ℕ) → i + i < count → IsHigh lanes.now i (count - (i + 1)) (at result i) }
{
    let mut high = [-1000000000; 56];
    for i in 0..front_of(count) {
        high[i] = high_of(lanes, i, count - 1 - i);
    }
    high
}

// Above what a point in the lane `i` is too low in the lane `j`. Where the two aren't opposite no point reaches it.
fn high_of(lanes: &Lanes, i: usize, j: usize) -> i32
    requires i { i < 112 }
    requires j { j < 112 }
    requires lanes { AreSmallLanes lanes.now }
    ensures high { IsHigh lanes.now i j result }
    ensures small { IsSmallHigh result }
{
    if are_opposite(lanes, i, j) {
        negated(lanes.low[j])
    } else {
        1000000000
    }
}

pub(crate) fn are_opposite(lanes: &Lanes, i: usize, j: usize) -> bool
    requires i { i < 112 }
    requires j { j < 112 }
    requires lanes { AreSmallLanes lanes.now }
    ensures { IsTrue result → CancelAt lanes.now i j }
{
    if !cancel(lanes.x[i], lanes.x[j]) {
        return false;
    }
    if !cancel(lanes.y[i], lanes.y[j]) {
        return false;
    }
    cancel(lanes.z[i], lanes.z[j])
}

// Whether two weights add up to nothing.
fn cancel(a: i32, b: i32) -> bool
    requires a { IsBelow 4001 a }
    requires b { IsBelow 4001 b }
    ensures { IsTrue result → a +ℤ b ≡ pos 0 }
{
    a + b == 0
}

fn negated(low: i32) -> i32
    requires { IsBelow (2 ^ 29) low }
    ensures exact { result ≡ neg_ℤ low }
    ensures small { IsSmallHigh result }
{
    -low
}
