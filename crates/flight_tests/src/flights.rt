//! A flight of two drones: one leg up, a show of one cue, one leg down.

ghost use Rattle.std.specs.Prelude.{◌≡◌, ◌≤◌, length, IfOk, All};
ghost use Rattle.traj_codec.specs.declared.traj.Traj.{Traj as TrajWord};
ghost use Rattle.integer_player.specs.Played.{IsPlayable, duration_of};
ghost use Rattle.flight_model.specs.declared.flights.Step.{Step as StepWord};
ghost use Rattle.flight_director.specs.Held.{AreFew, IsCourse, IsHeld};

use flight_model::{
    Condition, Course, Flight, Hold, Order, Orders, Position, Room, Span, Step, Stretch, Window,
};
use listed::Listed;
use std::alloc::{AllocError, Global};
use traj_codec::{Element, Segment, Traj};

// Where a drone hovers at the beginning and the end of the show.
pub const TOP: i16 = 1000;

fn condition(x: i16, z: i16, bound: u16, ready: bool, armed: bool, down: bool) -> Condition {
    Condition {
        position: Position { x, y: 0, z },
        bound,
        ready,
        armed,
        down,
    }
}

// Both of two drones, the second two metres aside.
fn both(
    alloc: Global,
    z: i16,
    bound: u16,
    ready: bool,
    armed: bool,
    down: bool,
) -> Result<Listed<Condition>, AllocError>
    ensures { IfOk result (λ ws. length ws ≡ 2) }
{
    let mut conditions = Vec::new(alloc);
    conditions.push(condition(0, z, bound, ready, armed, down))?;
    conditions.push(condition(2000, z, bound, ready, armed, down))?;
    Ok(Listed::from_vec(conditions))
}

fn each(alloc: Global, order: Order) -> Result<Orders, AllocError>
    ensures { IfOk result (λ d. AreFew d) }
{
    let mut orders = Vec::new(alloc);
    orders.push(Some(order))?;
    orders.push(Some(order))?;
    Ok(Orders::Each {
        orders: Listed::from_vec(orders),
    })
}

fn step(
    asked: bool,
    after: u32,
    settle: u32,
    answered: bool,
    conditions: Listed<Condition>,
    orders: Orders,
    holds: Option<Hold>,
) -> Step
    ensures conditions { result.conditions ≡ conditions }
    ensures orders { result.orders ≡ orders }
{
    Step {
        asked,
        after,
        settle,
        answered,
        conditions,
        orders,
        holds,
    }
}

// Both are put into the flight's group.
fn joining(alloc: Global) -> Result<Step, AllocError>
    ensures conditions { IfOk result (λ s. length s.conditions ≤ 32) }
    ensures orders { IfOk result (λ s. AreFew s.orders) }
{
    let none = Listed::from_vec(Vec::new(alloc));
    let group = each(alloc, Order::Group)?;
    Ok(step(false, 0, 0, false, none, group, None))
}

fn hold(stretch: Stretch, ms: u32) -> Option<Hold> {
    Some(Hold {
        stretch,
        from: 0,
        ms,
    })
}

// Straight from one height to another, from rest to rest.
fn column(alloc: Global, x: i16, from: i16, to: i16, ms: u16) -> Result<Traj, AllocError>
    requires { 1 ≤ ms }
    ensures playable { IfOk result (λ t. IsPlayable t) }
    ensures lasts { IfOk result (λ t. ms ≤ duration_of t) }
{
    let mut segments = Vec::new(alloc);
    segments.push(Segment {
        ms,
        elements: [
            Element::Constant,
            Element::Constant,
            Element::Seven {
                v: [from, from, from, to, to, to, to],
            },
            Element::Constant,
        ],
    })?;
    Ok(Traj {
        start: [x, 0, from, 0],
        segments: Listed::from_vec(segments),
    })
}

// Both columns: 100 mm aside and a fifth of a second late.
fn course(alloc: Global, from: i16, to: i16, ms: u16) -> Result<Course, AllocError>
    requires { 1 ≤ ms }
    ensures { IfOk result IsCourse }
{
    let first = column(alloc, 0, from, to, ms)?;
    let second = column(alloc, 2000, from, to, ms)?;
    Ok(Course {
        curves: Listed::from_vec(Vec::from_array(alloc, [first, second])?),
        ms: ms as u32,
        stray: 100,
        late: 200,
    })
}

// Aside by 300 mm control points, and back again.
fn curve(alloc: Global, x: i16) -> Result<Traj, AllocError>
    ensures playable { IfOk result (λ t. IsPlayable t) }
    ensures lasts { IfOk result (λ t. 1000 ≤ duration_of t) }
{
    let mut segments = Vec::new(alloc);
    segments.push(Segment {
        ms: 1000,
        elements: [
            Element::Constant,
            Element::Cubic { v: [300, 300, 0] },
            Element::Constant,
            Element::Constant,
        ],
    })?;
    Ok(Traj {
        start: [x, 0, TOP, 0],
        segments: Listed::from_vec(segments),
    })
}

fn to_all(order: Order) -> Orders
    ensures { AreFew result }
{
    Orders::All { order }
}

fn steps(alloc: Global) -> Result<Listed<Step>, AllocError>
    ensures orders { IfOk result (λ ss. All (λ (s : StepWord). AreFew s.orders) ss) }
    ensures conditions { IfOk result (λ ss. All (λ (s : StepWord). length s.conditions ≤ 32) ss) }
{
    let on_pads = both(alloc, 0, 100, true, false, false)?;
    let armed = both(alloc, 0, 100, false, true, false)?;
    let at_start = both(alloc, TOP, 50, false, true, false)?;
    let at_end = both(alloc, TOP, 50, false, true, false)?;
    let back = both(alloc, 0, 100, false, false, true)?;
    let arm = each(alloc, Order::Arm)?;
    let rise = each(alloc, Order::Rise { z: TOP, ms: 2000 })?;
    let land = each(alloc, Order::Land { z: 0, ms: 2500 })?;
    let joining = joining(alloc)?;
    let arming = step(true, 0, 0, true, on_pads, arm, hold(Stretch::Up, 0));
    let rising = step(false, 0, 0, false, armed, rise, hold(Stretch::Up, 2000));
    let show = hold(Stretch::Show, 1000);
    let start = to_all(Order::Start);
    let starting = step(true, 2000, 1000, false, at_start, start, show);
    let sinking = hold(Stretch::Down, 2500);
    let landing = step(false, 1000, 1000, false, at_end, land, sinking);
    let disarm = to_all(Order::Disarm);
    let ending = step(false, 2500, 1000, false, back, disarm, None);
    let all = [joining, arming, rising, starting, landing, ending];
    Ok(Listed::from_vec(Vec::from_array(alloc, all)?))
}

fn curves(alloc: Global) -> Result<Listed<Traj>, AllocError>
    ensures few { IfOk result (λ ts. length ts ≤ 32) }
    ensures playable { IfOk result (λ ts. All IsPlayable ts) }
    ensures lasts { IfOk result (λ ts. All (λ (t : TrajWord). 1000 ≤ duration_of t) ts) }
{
    let first = curve(alloc, 0)?;
    let second = curve(alloc, 2000)?;
    Ok(Listed::from_vec(Vec::from_array(alloc, [first, second])?))
}

// Around the control points of all curves; 100 mm is the largest stray.
fn room() -> Room {
    Room {
        x: Span { low: 0, high: 2000 },
        y: Span { low: 0, high: 300 },
        z: Span { low: 0, high: TOP },
        margin: 300,
    }
}

// Its drones may land at any time.
pub fn flight(alloc: Global) -> Result<Flight, AllocError>
    ensures { IfOk result (λ f. IsHeld f) }
{
    flight_with(alloc, None)
}

// They may land in these windows alone, if any are listed.
pub fn flight_with(alloc: Global, windows: Option<Listed<Window>>) -> Result<Flight, AllocError>
    ensures { IfOk result (λ f. IsHeld f) }
{
    let steps = steps(alloc)?;
    let curves = curves(alloc)?;
    let up = course(alloc, 0, TOP, 2000)?;
    let down = course(alloc, TOP, 0, 2500)?;
    Ok(Flight {
        steps,
        curves,
        show_ms: 1000,
        stray: 30,
        late: 2,
        up,
        down,
        room: room(),
        silence: 500,
        flies_on: true,
        floor: 0,
        descent: 4000,
        windows,
    })
}
