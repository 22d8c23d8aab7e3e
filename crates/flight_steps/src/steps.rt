//! The steps of a flight.

ghost use Rattle.std.specs.Prelude.{◌≡◌, ◌++◌, ◌<◌, ◌∷◌, [], List, map, OnOk, IfOk};
ghost use Rattle.std.specs.List.{flat_map, range_with_len};
ghost use Rattle.flight_model.specs.declared.flights.Step.{Step as StepWord};
ghost use Rattle.flight_model.specs.Legs.{arm_step as word_arm, up_step as word_up, start_step as word_start};
ghost use Rattle.flight_model.specs.Legs.{group_step as word_group};
ghost use Rattle.flight_model.specs.Legs.{down_step as word_down, last_step as word_last, leg_count as word_count};
ghost use Rattle.flight_model.specs.Legs.{leg_ms as word_ms, ms_before as word_before, lasts, legs_of as word_legs};
ghost use Rattle.flight_model.specs.Legs.{hold_in as word_hold, ms_until as word_until};
ghost use Rattle.flight_model.specs.Legs.{steps_between, steps_of as word_steps};
ghost use Rattle.flight_model.specs.Directors.{later as word_later};
ghost use Rattle.flight_steps.specs.Faults.{StepsGive};
ghost use Rattle.flight_steps.specs.Ways.{routes, AreFitted};

use crate::faults::StepsError;
use crate::judging::flight_fault;
use crate::legs::all_legs;
use crate::moves::leg;
use crate::parts::{Part, conditions, group_orders, last_conditions, orders, start_conditions};
use crate::ways::{Crews, Ways};
use flight_model::{Hold, Leg, Order, Orders, Step, Stretch};
use listed::Listed;
use std::alloc::{AllocError, Global};

// How long drones have to be at their places before a step that isn't the first.
const SETTLE_MS: u32 = 1000;

// Times are counted up to twelve days.
const MOST_MS: u64 = 1_000_000_000;

fn leg_count(all: &[Listed<Leg>]) -> usize
    ensures { result ≡ word_count all.now }
{
    match all.first() {
        None => 0,
        Some(legs) => legs.as_slice().len(),
    }
}

fn leg_ms(all: &[Listed<Leg>], k: usize) -> u32
    ensures { result ≡ word_ms all.now k }
{
    match all.first() {
        None => 0,
        Some(legs) => leg(legs.as_slice(), k).ms,
    }
}

// How long what comes before leg k lasts.
fn ms_before(first: u32, all: &[Listed<Leg>], k: usize) -> u32
    ensures { result ≡ word_before first all.now k }
{
    if k == 0 { first } else { leg_ms(all, k - 1) }
}

// A time, and more of it.
fn later(ms: u32, more: u32) -> u32
    ensures { result ≡ word_later ms more }
{
    (ms as u64 + more as u64).min(MOST_MS) as u32
}

// How long the legs before leg k last.
fn ms_until(all: &[Listed<Leg>], k: usize) -> u32
    ensures { result ≡ word_until all.now k }
{
    let mut ms = 0;
    for i in 0..k {
        ms = later(ms, leg_ms(all, i));
    }
    ms
}

fn hold_in(stretch: Stretch, from: u32, ms: u32) -> Option<Hold>
    ensures { result ≡ word_hold stretch from ms }
{
    Some(Hold { stretch, from, ms })
}

// The first step: each drone is put into the flight's group.
fn group_step(alloc: Global, all: &[Listed<Leg>]) -> Result<Step, AllocError>
    ensures { IfOk result (λ step. step ≡ word_group all.now) }
{
    let orders = Listed::from_vec(group_orders(alloc, all)?);
    Ok(Step {
        asked: false,
        after: 0,
        settle: 0,
        answered: false,
        conditions: Listed::from_vec(Vec::new(alloc)),
        orders: Orders::Each { orders },
        holds: None,
    })
}

// The step that arms those that rise in leg k.
fn arm_step(alloc: Global, w: &Ways, all: &[Listed<Leg>], k: usize) -> Result<Step, AllocError>
    ensures { IfOk result (λ step. step ≡ word_arm (routes w.now) all.now k) }
{
    let conditions = Listed::from_vec(conditions(alloc, w, Part::Arm, k, all)?);
    let orders = Listed::from_vec(orders(alloc, Part::Arm, k, all)?);
    Ok(Step {
        asked: k == 0,
        after: ms_before(0, all, k),
        settle: if k == 0 { 0 } else { SETTLE_MS },
        answered: k == 0,
        conditions,
        orders: Orders::Each { orders },
        holds: hold_in(Stretch::Up, ms_until(all, k), 0),
    })
}

// Leg k of the way up.
fn up_step(alloc: Global, w: &Ways, all: &[Listed<Leg>], k: usize) -> Result<Step, AllocError>
    ensures { IfOk result (λ step. step ≡ word_up (routes w.now) all.now k) }
{
    let conditions = Listed::from_vec(conditions(alloc, w, Part::Up, k, all)?);
    let orders = Listed::from_vec(orders(alloc, Part::Up, k, all)?);
    Ok(Step {
        asked: false,
        after: 0,
        settle: 0,
        answered: false,
        conditions,
        orders: Orders::Each { orders },
        holds: hold_in(Stretch::Up, ms_until(all, k), leg_ms(all, k)),
    })
}

fn start_step(alloc: Global, w: &Ways, ups: &[Listed<Leg>]) -> Result<Step, AllocError>
    ensures { IfOk result (λ step. step ≡ word_start (routes w.now) w.now.show_ms ups.now) }
{
    let conditions = Listed::from_vec(start_conditions(alloc, w)?);
    Ok(Step {
        asked: true,
        after: ms_before(0, ups, leg_count(ups)),
        settle: SETTLE_MS,
        answered: false,
        conditions,
        orders: Orders::All {
            order: Order::Start,
        },
        holds: hold_in(Stretch::Show, 0, w.show_ms),
    })
}

// Leg k of the way down.
fn down_step(alloc: Global, w: &Ways, all: &[Listed<Leg>], k: usize) -> Result<Step, AllocError>
    ensures { IfOk result (λ step. step ≡ word_down (routes w.now) w.now.show_ms all.now k) }
{
    let conditions = Listed::from_vec(conditions(alloc, w, Part::Down, k, all)?);
    let orders = Listed::from_vec(orders(alloc, Part::Down, k, all)?);
    Ok(Step {
        asked: false,
        after: ms_before(w.show_ms, all, k),
        settle: SETTLE_MS,
        answered: false,
        conditions,
        orders: Orders::Each { orders },
        holds: hold_in(Stretch::Down, ms_until(all, k), leg_ms(all, k)),
    })
}

fn last_step(alloc: Global, w: &Ways, downs: &[Listed<Leg>]) -> Result<Step, AllocError>
    ensures { IfOk result (λ step. step ≡ word_last (routes w.now) downs.now) }
{
    let conditions = Listed::from_vec(last_conditions(alloc, w)?);
    Ok(Step {
        asked: false,
        after: ms_before(0, downs, leg_count(downs)),
        settle: SETTLE_MS,
        answered: false,
        conditions,
        orders: Orders::All {
            order: Order::Disarm,
        },
        holds: None,
    })
}

// Puts the steps of the way up after the others.
fn put_ups(
    alloc: Global,
    w: &Ways,
    all: &[Listed<Leg>],
    steps: &mut Vec<Step>,
) -> Result<(), AllocError>
    ensures { OnOk result (steps.new.items ≡ steps.old.items
        ++ flat_map (λ k. word_arm (routes w.now) all.now k ∷ word_up (routes w.now) all.now k ∷ [])
        (range_with_len 0 (word_count all.now))) }
{
    for k in 0..leg_count(all) {
        let arm = arm_step(alloc, w, all, k)?;
        steps.push(arm)?;
        let up = up_step(alloc, w, all, k)?;
        steps.push(up)?;
    }
    Ok(())
}

// Puts the steps of the way down after the others.
fn put_downs(
    alloc: Global,
    w: &Ways,
    all: &[Listed<Leg>],
    steps: &mut Vec<Step>,
) -> Result<(), AllocError>
    ensures { OnOk result (steps.new.items ≡ steps.old.items
        ++ map (word_down (routes w.now) w.now.show_ms all.now) (range_with_len 0 (word_count all.now))) }
{
    for k in 0..leg_count(all) {
        let down = down_step(alloc, w, all, k)?;
        steps.push(down)?;
    }
    Ok(())
}

fn all_steps(
    alloc: Global,
    w: &Ways,
    ups: &[Listed<Leg>],
    downs: &[Listed<Leg>],
) -> Result<Listed<Step>, AllocError>
    requires { lasts w.now.show.now ≡ w.now.show_ms }
    ensures { IfOk result (λ steps. steps ≡ steps_between (routes w.now) ups.now downs.now) }
{
    let mut steps = Vec::new(alloc);
    let group = group_step(alloc, ups)?;
    steps.push(group)?;
    put_ups(alloc, w, ups, &mut steps)?;
    let start = start_step(alloc, w, ups)?;
    steps.push(start)?;
    put_downs(alloc, w, downs, &mut steps)?;
    let last = last_step(alloc, w, downs)?;
    steps.push(last)?;
    Ok(Listed::from_vec(steps))
}

/// The steps of a flight; or why the three shows are no flight, the first cause in the order of `flight_fault`.
pub fn steps_of(alloc: Global, crews: &Crews, w: &Ways) -> Result<Listed<Step>, StepsError>
    requires { AreFitted crews.now w.now }
    ensures { StepsGive crews.now (routes w.now) result }
{
    let ups = all_legs(alloc, w.up)?;
    let downs = all_legs(alloc, w.down)?;
    match flight_fault(crews, w, ups.as_slice(), downs.as_slice()) {
        Some(fault) => Err(StepsError::Fault { fault }),
        None => {
            let steps = all_steps(alloc, w, ups.as_slice(), downs.as_slice())?;
            Ok(steps)
        }
    }
}
