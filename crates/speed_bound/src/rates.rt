//! The greatest speed or acceleration of a segment and of a trajectory, by the widest differences of its parts.

ghost use Rattle.std.specs.Prelude.{◌≡◌, ℕ, ◌+◌, ◌-◌, ◌*◌, ◌/◌, ◌^◌, ◌≤◌, ◌<◌, ◌∷◌, max, All, length};
ghost use Rattle.whole_numbers.specs.Numbers.{IsBelow};
ghost use Rattle.whole_numbers.specs.Bernstein.{at};
ghost use Rattle.whole_numbers.specs.Limits.{most_depth};
ghost use Rattle.bezier_core.specs.Raised.{raised};
ghost use Rattle.traj_codec.specs.Spelling.{HasDuration, stored};
ghost use Rattle.speed_bound.specs.Differences.{limit, rate, rate_of, segment_rate, time, units, widest_in};

use crate::parts::{fall, widest, widest_part};
use bezier_core::Bez;
use fleet_curves::{raised, value_after};
use traj_codec::{Element, Traj};
use whole_numbers::Depth;

/// The greatest speed (K is 1), in micrometres per second, or acceleration (K is 2), in micrometres per second squared,
/// of a trajectory on an axis by its parts of a depth, or `least` where that is no less. What can't be above it isn't
/// looked at more closely. Takes no memory.
pub fn greatest_rate<const K: usize>(t: &Traj, axis: usize, depth: Depth, least: u64) -> u64
    requires order { (1 ≤ K) × (K ≤ 2) }
    requires axis { axis ≤ 2 }
    requires durations { All HasDuration t.now.segments }
    requires least { least < limit K }
    ensures exact { result ≡ max least (rate K depth t.now axis) }
    ensures small { result < limit K }
{
    let mut value = t.start[axis];
    let mut most = least;
    for s in t.segments.as_slice() {
        let element = s.elements[axis];
        most = element_rate::<K>(value, element, s.ms, depth, most);
        value = value_after(value, element);
    }
    most
}

/// The same of an element that begins with this value, in millimetres, and lasts so long. One that stays at it isn't
/// raised.
pub fn element_rate<const K: usize>(
    first: i16,
    element: Element,
    ms: u16,
    depth: Depth,
    least: u64,
) -> u64
    requires order { (1 ≤ K) × (K ≤ 2) }
    requires duration { 1 ≤ ms }
    requires least { least < limit K }
    ensures exact { result ≡ max least (segment_rate K depth ms (at (raised (first ∷ stored element)))) }
    ensures small { result < limit K }
{
    match element {
        Element::Constant => least,
        _ => curve_rate::<K>(&raised(first, element), ms, depth, least),
    }
}

// The same of a curve. The rate of the whole curve, as its own part, bounds those of all parts.
fn curve_rate<const K: usize>(curve: &Bez<8>, ms: u16, depth: Depth, least: u64) -> u64
    requires order { (1 ≤ K) × (K ≤ 2) }
    requires values { All (IsBelow (2 ^ 28)) curve.now.b }
    requires duration { 1 ≤ ms }
    requires least { least < limit K }
    ensures exact { result ≡ max least (segment_rate K depth ms (at curve.now.b)) }
    ensures small { result < limit K }
{
    let whole = widest::<K, 64>(curve);
    if units::<K>() * whole <= time::<K>(ms) * least as u128 {
        return least;
    }
    let slow = slow::<K>(least, ms, depth);
    let found = widest_part(curve, K, whole, depth, slow);
    if found <= slow {
        return least;
    }
    rate::<K>(found, ms, depth).max(least)
}

// The widest difference of a part of this depth that has no greater rate.
fn slow<const K: usize>(least: u64, ms: u16, depth: Depth) -> u128
    requires order { (1 ≤ K) × (K ≤ 2) }
    requires least { least < limit K }
    ensures exact { result ≡ 2 ^ ((7 - K) * depth) * time K ms * least / units K }
    ensures shallow { depth ≤ most_depth }
{
    (1 << fall(K, depth)) * time::<K>(ms) * least as u128 / units::<K>()
}

// The rate of parts of this depth with this widest difference.
#[tactic(auto, unfolding(crate::specs::Differences::rate_of))]
fn rate<const K: usize>(widest: u128, ms: u16, depth: Depth) -> u64
    requires order { (1 ≤ K) × (K ≤ 2) }
    requires widest { widest ≤ 2 ^ ((7 - K) * depth) * 2 ^ (28 + K) }
    requires duration { 1 ≤ ms }
    ensures exact { result ≡ rate_of K depth ms widest }
    ensures small { result < limit K }
{
    let levels = depth.levels() as u32;
    let all = units::<K>() * 2u128.pow(K as u32 * levels) * widest;
    all.div_ceil(time::<K>(ms) * 2u128.pow(7 * levels)) as u64
}

#[tactic(auto, unfolding(crate::specs::Differences::units), using(crate::proofs::RateLemmas::not_one))]
fn units<const K: usize>() -> u128
    ensures { result ≡ units K }
{
    if K == 1 { 7_000_000 } else { 25_000_000 }
}

#[tactic(auto, unfolding(crate::specs::Differences::time), using(crate::proofs::RateLemmas::not_one))]
fn time<const K: usize>(ms: u16) -> u128
    ensures { result ≡ time K ms }
{
    if K == 1 {
        5_040 * ms as u128
    } else {
        3 * (ms as u128 * ms as u128)
    }
}
