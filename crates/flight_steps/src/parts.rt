//! What each drone has to meet before a step, and what it is ordered.

ghost use Rattle.std.specs.Prelude.{◌≡◌, map, IfOk, Some};
ghost use Rattle.flight_model.specs.declared.events.Order.TheVariants as order_word;
ghost use Rattle.flight_model.specs.Legs.{down_bound as word_down_bound, go_to as word_go, position_of};
ghost use Rattle.flight_model.specs.Legs.{start_condition as word_start, last_condition as word_last};
ghost use Rattle.flight_model.specs.Legs.{up_bound as word_up_bound};
ghost use Rattle.flight_steps.specs.Steps.{condition_at as word_at, condition_in, order_in};
ghost use Rattle.flight_steps.specs.Ways.{routes};

use crate::legs::way_ends;
use crate::moves::{has_moved, has_moved_in, is_move, leg, will_move, will_move_after};
use crate::ways::Ways;
use flight_model::{Condition, Leg, Order, Position};
use listed::Listed;
use std::alloc::{AllocError, Global};

/// A part of a flight that goes leg by leg.
#[derive(Clone, Copy)]
pub enum Part {
    /// Before a leg of the way up those are armed that rise in it.
    Arm,
    Up,
    Down,
}

fn condition_at(place: &[i16; 4], bound: u16, ready: bool, armed: bool, down: bool) -> Condition
    ensures { result ≡ word_at place.now bound ready armed down }
{
    Condition {
        position: Position {
            x: place[0],
            y: place[1],
            z: place[2],
        },
        bound,
        ready,
        armed,
        down,
    }
}

// How near to where leg k begins a drone has to be on its way up.
fn up_bound(w: &Ways, legs: &[Leg], k: usize) -> u16
    ensures { result ≡ word_up_bound (routes w.now) legs.now k }
{
    if has_moved(legs, k.saturating_sub(1)) {
        w.at_place
    } else {
        w.near
    }
}

// The same on its way down.
fn down_bound(w: &Ways, legs: &[Leg], k: usize) -> u16
    ensures { result ≡ word_down_bound (routes w.now) legs.now k }
{
    if will_move(legs, k) {
        w.at_place
    } else {
        w.near
    }
}

fn condition(w: &Ways, part: Part, k: usize, legs: &[Leg]) -> Condition
    ensures { result ≡ condition_in part (routes w.now) k legs.now }
{
    let from = leg(legs, k).from;
    match part {
        Part::Arm => {
            let moved = has_moved(legs, k);
            condition_at(&from, up_bound(w, legs, k), !moved, moved, false)
        }
        Part::Up => {
            let moved = has_moved_in(legs, k);
            condition_at(&from, up_bound(w, legs, k), false, moved, false)
        }
        Part::Down => {
            let moves = will_move(legs, k);
            condition_at(&from, down_bound(w, legs, k), false, moves, false)
        }
    }
}

fn go_to(l: &Leg) -> Order
    ensures { result ≡ word_go l.now }
{
    Order::Go {
        x: l.to[0],
        y: l.to[1],
        z: l.to[2],
        yaw: l.to[3],
        ms: l.ms,
    }
}

fn order(part: Part, k: usize, legs: &[Leg]) -> Option<Order>
    ensures { result ≡ order_in part k legs.now }
{
    let l = leg(legs, k);
    let (z, ms) = (l.to[2], l.ms);
    match part {
        Part::Arm if !has_moved(legs, k) && is_move(&l) => Some(Order::Arm),
        Part::Up if has_moved(legs, k) => Some(go_to(&l)),
        Part::Up if is_move(&l) => Some(Order::Rise { z, ms }),
        Part::Down if will_move_after(legs, k) => Some(go_to(&l)),
        Part::Down if is_move(&l) => Some(Order::Land { z, ms }),
        _ => None,
    }
}

/// What each drone has to meet before leg k.
pub fn conditions(
    alloc: Global,
    w: &Ways,
    part: Part,
    k: usize,
    all: &[Listed<Leg>],
) -> Result<Vec<Condition>, AllocError>
    ensures { IfOk result (λ out. out.items ≡ map (condition_in part (routes w.now) k) all.now) }
{
    all.iter()
        .map(|legs| condition(w, part, k, legs.as_slice()))
        .collect(alloc)
}

/// What each drone is ordered in leg k.
pub fn orders(
    alloc: Global,
    part: Part,
    k: usize,
    all: &[Listed<Leg>],
) -> Result<Vec<Option<Order>>, AllocError>
    ensures { IfOk result (λ out. out.items ≡ map (order_in part k) all.now) }
{
    all.iter()
        .map(|legs| order(part, k, legs.as_slice()))
        .collect(alloc)
}

/// Each drone is put into the flight's group.
pub fn group_orders(alloc: Global, all: &[Listed<Leg>]) -> Result<Vec<Option<Order>>, AllocError>
    ensures { IfOk result (λ out. out.items ≡ map (λ legs. Some order_word.Group) all.now) }
{
    all.iter().map(|_| Some(Order::Group)).collect(alloc)
}

/// Before the show.
pub fn start_conditions(alloc: Global, w: &Ways) -> Result<Vec<Condition>, AllocError>
    ensures { IfOk result (λ out. out.items ≡ map (word_start (routes w.now) w.now.at_place) w.now.show.now) }
{
    let bound = w.at_place;
    w.show
        .iter()
        .map(|t| condition_at(&t.start, bound, false, true, false))
        .collect(alloc)
}

/// Before the end.
pub fn last_conditions(alloc: Global, w: &Ways) -> Result<Vec<Condition>, AllocError>
    ensures { IfOk result (λ out. out.items ≡ map (word_last (routes w.now)) w.now.down.now) }
{
    let bound = w.near;
    w.down
        .iter()
        .map(|t| condition_at(&way_ends(t), bound, false, false, true))
        .collect(alloc)
}
