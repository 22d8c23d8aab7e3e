//! How far the curves of a drone in a cue reach, which tells two drones that are far apart.

ghost use Rattle.std.specs.Prelude.{◌≡◌, ℕ, ◌+◌, ◌*◌, ◌^◌, ◌≤◌, ◌<◌, ℤ, pos, ◌-ℤ◌, ◌≤ℤ◌, ◌⊎◌, All, IfOk, OnOk, IsTrue};
ghost use Rattle.std.specs.Prelude.{length};
ghost use Rattle.whole_numbers.specs.Bernstein.{at};
ghost use Rattle.whole_numbers.specs.Numbers.{IsBelow};
ghost use Rattle.fleet_curves.specs.Raised.{curves_at, curves_of};
ghost use Rattle.sep_parts.specs.Directions.{IsAxis, IsClearance, reach_on};
ghost use Rattle.pair_search.specs.Extents.{AreExtents, AreFlights, HasAxes, HasExtents, IsBetween, IsExtent, IsFar};
ghost use Rattle.pair_search.specs.Extents.{IsFarOn, IsFlight, IsWider, least_distance, room_on};

use crate::lanes::greater;
use fleet_curves::Curves;
use sep_parts::{Clearance, Ruler};
use std::alloc::{AllocError, Global};
use whole_numbers::MOST_DRONES;

/// The least and the greatest of the control values of three curves, or numbers beyond these: on x, y and z.
#[derive(Clone, Copy)]
pub struct Extent {
    pub low: [i32; 3],
    pub high: [i32; 3],
}

/// The extents of a fleet, by drone and then by cue.
pub fn extents_of(alloc: Global, curves: &Curves) -> Result<Vec<Extent>, AllocError>
    ensures { IfOk result (λ all. AreExtents curves.now all.items) }
{
    let mut all = Vec::new(alloc);
    for drone in 0..curves.drones() {
        add_extents(&mut all, curves, drone)?;
    }
    Ok(all)
}

// The extents of one drone, after those of the drones before it.
fn add_extents(all: &mut Vec<Extent>, curves: &Curves, drone: usize) -> Result<(), AllocError>
    requires drone { drone < curves.now.drones }
    requires before { HasExtents curves.now (drone * curves.now.cues) all.old.items }
    ensures { OnOk result (HasExtents curves.now ((drone + 1) * curves.now.cues) all.new.items) }
{
    for cue in 0..curves.cues() {
        all.push(extent_of(curves.rows(drone, cue)))?;
    }
    Ok(())
}

// The extent of three curves, whose control values are these rows.
fn extent_of(rows: &[[i32; 8]; 3]) -> Extent
    requires values { All (λ curve. All (IsBelow (2 ^ 28)) curve.b) (curves_of rows.now) }
    ensures { IsExtent (curves_of rows.now) result }
{
    Extent {
        low: [least(&rows[0]), least(&rows[1]), least(&rows[2])],
        high: [greatest(&rows[0]), greatest(&rows[1]), greatest(&rows[2])],
    }
}

fn least(row: &[i32; 8]) -> i32
    requires { All (IsBelow (2 ^ 28)) row.now }
    ensures below { (k : ℕ) → k ≤ 7 → result ≤ℤ at row.now k }
    ensures small { IsBelow (2 ^ 28) result }
{
    let mut least = row[0];
    for k in 0..8 {
        least = lesser(least, row[k]);
    }
    least
}

fn greatest(row: &[i32; 8]) -> i32
    requires { All (IsBelow (2 ^ 28)) row.now }
    ensures above { (k : ℕ) → k ≤ 7 → at row.now k ≤ℤ result }
    ensures small { IsBelow (2 ^ 28) result }
{
    let mut greatest = row[0];
    for k in 0..8 {
        greatest = greater(greatest, row[k]);
    }
    greatest
}

fn lesser(a: i32, b: i32) -> i32
    ensures either { (result ≡ a) ⊎ (result ≡ b) }
    ensures first { result ≤ℤ a }
    ensures second { result ≤ℤ b }
{
    if a < b { a } else { b }
}

/// The extents of whole flights, by drone: of each all cues.
pub fn flights_of(curves: &Curves, all: &[Extent]) -> [Extent; MOST_DRONES]
    requires extents { AreExtents curves.now all.now }
    ensures { AreFlights curves.now result }
{
    let mut flights = [Extent {
        low: [0; 3],
        high: [0; 3],
    }; MOST_DRONES];
    for drone in 0..curves.drones() {
        flights[drone] = flight_of(curves, all, drone);
    }
    flights
}

// The extent of a drone's flight.
fn flight_of(curves: &Curves, all: &[Extent], drone: usize) -> Extent
    requires extents { AreExtents curves.now all.now }
    requires drone { drone < curves.now.drones }
    ensures { IsFlight curves.now drone result }
{
    let cues = curves.cues();
    let mut flight = extent_at(curves, all, drone, 0);
    for cue in 0..cues {
        flight = wider(&flight, &extent_at(curves, all, drone, cue));
    }
    flight
}

// An extent that has two others in it.
fn wider(first: &Extent, second: &Extent) -> Extent
    ensures { IsWider first.now second.now result }
{
    Extent {
        low: [
            lesser(first.low[0], second.low[0]),
            lesser(first.low[1], second.low[1]),
            lesser(first.low[2], second.low[2]),
        ],
        high: [
            greater(first.high[0], second.high[0]),
            greater(first.high[1], second.high[1]),
            greater(first.high[2], second.high[2]),
        ],
    }
}

/// Whether a table has the directions of the three axes, both ways.
pub fn has_axes<const M: usize>(ruler: &Ruler<M>) -> bool
    ensures { IsTrue result → HasAxes ruler.now.directions }
{
    if !ruler.has([1, 0, 0]) {
        return false;
    }
    if !ruler.has([-1, 0, 0]) {
        return false;
    }
    if !ruler.has([0, 1, 0]) {
        return false;
    }
    if !ruler.has([0, -1, 0]) {
        return false;
    }
    if !ruler.has([0, 0, 1]) {
        return false;
    }
    if !ruler.has([0, 0, -1]) {
        return false;
    }
    true
}

/// The extent of a drone in a cue.
pub fn extent_at(curves: &Curves, all: &[Extent], drone: usize, cue: usize) -> Extent
    requires extents { AreExtents curves.now all.now }
    requires drone { drone < curves.now.drones }
    requires cue { cue < curves.now.cues }
    ensures { IsExtent (curves_at curves.now drone cue) result }
{
    all[curves.place(drone, cue)]
}

/// Whether two extents are so far apart on an axis that its direction separates the drones in the whole cue.
pub fn are_far(first: &Extent, second: &Extent, clearance: &Clearance) -> bool
    requires clearance { IsClearance clearance.now }
    requires first { (axis : ℕ) → axis ≤ 2
        → IsBelow (2 ^ 28) (at first.now.low axis) × IsBelow (2 ^ 28) (at first.now.high axis) }
    requires second { (axis : ℕ) → axis ≤ 2
        → IsBelow (2 ^ 28) (at second.now.low axis) × IsBelow (2 ^ 28) (at second.now.high axis) }
    ensures { IsTrue result → IsFar clearance.now first.now second.now }
{
    if are_far_on(first, second, 0, room_on(clearance, clearance.r, 0)) {
        return true;
    }
    if are_far_on(first, second, 1, room_on(clearance, clearance.r, 1)) {
        return true;
    }
    are_far_on(first, second, 2, room_on(clearance, clearance.h, 2))
}

// What is kept clear on an axis whose half axis has this length, in millimetres.
fn room_on(clearance: &Clearance, half: u16, axis: usize) -> u32
    requires clearance { IsClearance clearance.now }
    requires half { IsAxis half }
    requires axis { axis ≤ 2 }
    ensures exact { result ≡ room_on clearance.now half axis }
    ensures few { result ≤ 71536 }
{
    2 * u32::from(half) + 2 * u32::from(clearance.stray) + clearance.reach[axis]
}

// Whether they are so on one axis, with so much room between them.
fn are_far_on(first: &Extent, second: &Extent, axis: usize, room: u32) -> bool
    requires axis { axis ≤ 2 }
    requires room { room ≤ 71536 }
    requires first { (axis : ℕ) → axis ≤ 2
        → IsBelow (2 ^ 28) (at first.now.low axis) × IsBelow (2 ^ 28) (at first.now.high axis) }
    requires second { (axis : ℕ) → axis ≤ 2
        → IsBelow (2 ^ 28) (at second.now.low axis) × IsBelow (2 ^ 28) (at second.now.high axis) }
    ensures { IsTrue result → IsFarOn room axis first.now second.now }
{
    let distance = least_distance(room);
    if is_between(first.high[axis], second.low[axis], distance) {
        return true;
    }
    is_between(second.high[axis], first.low[axis], distance)
}

// Whether a distance fits between two numbers.
fn is_between(high: i32, low: i32, distance: i32) -> bool
    requires high { IsBelow (2 ^ 28) high }
    requires low { IsBelow (2 ^ 28) low }
    ensures { IsTrue result → IsBetween high low distance }
{
    distance <= low - high
}

// How far apart control values must be for so much room: more than the room, in raised millimetres.
fn least_distance(room: u32) -> i32
    requires { room ≤ 71536 }
    ensures { result ≡ least_distance room }
{
    (5040 * (room + 1)) as i32
}
