//! Crews that aren't the same, or of another size, and the steps of a flight of two drones. All values were computed by
//! hand; those of ways that are no flight are in flight_steps's specs/Rejected.antt.

ghost use Rattle.std.specs.Prelude.{◌≡◌, ◌∷◌, [], drop, length, IfOk};
ghost use Rattle.traj_codec.specs.Positions.{durations};
ghost use Rattle.flight_model.specs.Legs.{lasts};

use arrayvec::ArrayVec;
use flight_model::{Condition, Order, Orders, Position, Room, Span, Step};
use flight_steps::{
    Crew, Crews, Ellipsoid, FlightFault, Name, StepsError, Way, Ways, room_of, steps_of,
};
use listed::Listed;
use std::alloc::{AllocError, Global};
use std::test::Fail;
use traj_codec::{Element, Segment, Traj};

// A leg of two seconds and a half, from rest to rest: the x, and from where to where on z.
type Move = (i16, i16, i16);

const UP: &[Move] = &[(0, 0, 1000)];

const DOWN: &[Move] = &[(0, 1000, 0)];

fn element(from: i16, to: i16) -> Element {
    if from == to {
        Element::Constant
    } else {
        Element::Seven {
            v: [from, from, from, to, to, to, to],
        }
    }
}

fn segment(m: &Move) -> Segment
    ensures { result.ms ≡ 2500 }
{
    let (_, z, to) = *m;
    Segment {
        ms: 2500,
        elements: [
            Element::Constant,
            Element::Constant,
            element(z, to),
            Element::Constant,
        ],
    }
}

// A drone's way of these legs.
fn way(alloc: Global, moves: &[Move]) -> Result<Traj, AllocError> {
    let (x, z) = match moves.first() {
        None => (0, 0),
        Some(m) => (m.0, m.1),
    };
    let mut segments = Vec::new(alloc);
    for m in moves {
        segments.push(segment(m))?;
    }
    Ok(Traj {
        start: [x, 0, z, 0],
        segments: Listed::from_vec(segments),
    })
}

// The ways of two drones, of which the second flies by these legs.
fn two(alloc: Global, first: &[Move], second: &[Move]) -> Result<Vec<Traj>, AllocError>
    ensures { IfOk result (λ ts. length ts.items ≡ 2) }
{
    let mut ways = Vec::new(alloc);
    ways.push(way(alloc, first)?)?;
    ways.push(way(alloc, second)?)?;
    Ok(ways)
}

// A show of two seconds and a half, at one place.
fn hover(alloc: Global, x: i16, z: i16) -> Result<Traj, AllocError>
    ensures { IfOk result (λ t. durations t.segments ≡ 2500 ∷ []) }
{
    let mut segments = Vec::new(alloc);
    segments.push(segment(&(x, z, z)))?;
    Ok(Traj {
        start: [x, 0, z, 0],
        segments: Listed::from_vec(segments),
    })
}

// The show of two drones, of which the second is at this place.
fn hovers(alloc: Global, x: i16, z: i16) -> Result<Vec<Traj>, AllocError>
    ensures two { IfOk result (λ ts. length ts.items ≡ 2) }
    ensures both { IfOk result (λ ts. lasts ts.items ≡ 2500) }
    ensures second { IfOk result (λ ts. lasts (drop 1 ts.items) ≡ 2500) }
{
    let mut shows = Vec::new(alloc);
    shows.push(hover(alloc, 0, 1000)?)?;
    shows.push(hover(alloc, x, z)?)?;
    Ok(shows)
}

fn name(letter: u8) -> Name {
    let mut name = ArrayVec::new();
    name.push(letter);
    name
}

fn crew<'a>(names: &'a [Name], ellipsoid: Ellipsoid) -> Crew<'a>
    ensures { result.names.now ≡ names.now }
{
    Crew { names, ellipsoid }
}

// What is said of these drones, which may stray by 100 mm from their way up.
fn said(
    alloc: Global,
    crews: &Crews,
    near: u16,
    ups: &[Traj],
    shows: &[Traj],
    downs: &[Traj],
) -> Result<Listed<Step>, StepsError>
    requires ups { length ups.now ≡ length crews.now.up.names.now }
    requires shows { length shows.now ≡ length crews.now.show.names.now }
    requires downs { length downs.now ≡ length crews.now.down.names.now }
    requires lasting { lasts shows.now ≡ 2500 }
{
    let ways = Ways {
        up: ups,
        show: shows,
        down: downs,
        show_ms: 2500,
        stray: 100,
        near,
        at_place: 50,
    };
    steps_of(alloc, crews, &ways)
}

// The letters of two drones and the half axes, for the way up, the show and the way down; and what is refused.
type Row = ([[u8; 2]; 3], [[u16; 2]; 3], Option<StepsError>);

fn body(axes: [u16; 2]) -> Ellipsoid {
    Ellipsoid {
        r: axes[0],
        h: axes[1],
    }
}

fn is_refused(alloc: Global, ups: &[Traj], shows: &[Traj], downs: &[Traj], row: &Row) -> bool
    requires ups { length ups.now ≡ 2 }
    requires shows { length shows.now ≡ 2 }
    requires downs { length downs.now ≡ 2 }
    requires lasting { lasts shows.now ≡ 2500 }
{
    let ([up, show, down], bodies, wanted) = *row;
    let up = [name(up[0]), name(up[1])];
    let show = [name(show[0]), name(show[1])];
    let down = [name(down[0]), name(down[1])];
    let crews = Crews {
        up: crew(&up, body(bodies[0])),
        show: crew(&show, body(bodies[1])),
        down: crew(&down, body(bodies[2])),
    };
    said(alloc, &crews, 100, ups, shows, downs).err() == wanted
}

fn are_refused(alloc: Global, rows: &[Row]) -> Result<bool, AllocError> {
    let ups = two(alloc, UP, UP)?;
    let shows = hovers(alloc, 0, 1000)?;
    let downs = two(alloc, DOWN, DOWN)?;
    for row in rows {
        if !is_refused(
            alloc,
            ups.as_slice(),
            shows.as_slice(),
            downs.as_slice(),
            row,
        ) {
            return Ok(false);
        }
    }
    Ok(true)
}

const SAME: [[u16; 2]; 3] = [[120, 300]; 3];

macro_rules! other_drone {
    ($way:expr, $drone:expr) => {
        Some(StepsError::Fault {
            fault: FlightFault::OtherDrone {
                way: $way,
                drone: $drone,
            },
        })
    };
}

const CREWS: &[Row] = &[
    ([*b"ab", *b"ab", *b"ab"], SAME, None),
    ([*b"cb", *b"ab", *b"cb"], SAME, other_drone!(Way::Up, 0)),
    ([*b"ac", *b"ab", *b"cb"], SAME, other_drone!(Way::Up, 1)),
    ([*b"ab", *b"ab", *b"ba"], SAME, other_drone!(Way::Down, 0)),
    ([*b"ab", *b"ab", *b"aa"], SAME, other_drone!(Way::Down, 1)),
];

#[test]
fn first_faults_of_names(rt: HostRuntime) {
    assert!(rt; matches!(are_refused(rt.alloc(), CREWS), Ok(true)));
}

const NAMES: [[u8; 2]; 3] = [*b"ab"; 3];

macro_rules! other_body {
    ($way:expr) => {
        Some(StepsError::Fault {
            fault: FlightFault::OtherEllipsoid { way: $way },
        })
    };
}

const BODIES: &[Row] = &[
    (NAMES, SAME, None),
    (
        NAMES,
        [[119, 300], [120, 300], [119, 300]],
        other_body!(Way::Up),
    ),
    (
        NAMES,
        [[120, 301], [120, 300], [120, 300]],
        other_body!(Way::Up),
    ),
    (
        NAMES,
        [[120, 300], [120, 300], [121, 300]],
        other_body!(Way::Down),
    ),
    (
        NAMES,
        [[120, 300], [120, 300], [120, 299]],
        other_body!(Way::Down),
    ),
    (
        NAMES,
        [[120, 300], [300, 120], [120, 300]],
        other_body!(Way::Up),
    ),
];

#[test]
fn first_faults_of_ellipsoids(rt: HostRuntime) {
    assert!(rt; matches!(are_refused(rt.alloc(), BODIES), Ok(true)));
}

const ARM: Option<Order> = Some(Order::Arm);

const RISE: Option<Order> = Some(Order::Rise { z: 1000, ms: 2500 });

const STAY: Option<Order> = Some(Order::Go {
    x: 0,
    y: 0,
    z: 1000,
    yaw: 0,
    ms: 2500,
});

const LAND: Option<Order> = Some(Order::Land { z: 0, ms: 2500 });

// Two drones that rise one after the other, and land so.
const RISES: [&[Move]; 2] = [
    &[(0, 0, 1000), (0, 1000, 1000)],
    &[(500, 0, 0), (500, 0, 1000)],
];

const LANDS: [&[Move]; 2] = [
    &[(0, 1000, 1000), (0, 1000, 0)],
    &[(500, 1000, 0), (500, 0, 0)],
];

// When a step begins; the second drone's height then, its bound, and whether it is ready and armed; and the orders to
// both, or the one to all.
type Wanted = (
    bool,
    u32,
    u32,
    (i16, u16, bool, bool),
    [Option<Order>; 2],
    Option<Order>,
);

const STEPS: [Wanted; 8] = [
    (true, 0, 0, (0, 100, true, false), [ARM, None], None),
    (false, 0, 0, (0, 100, false, false), [RISE, None], None),
    (false, 2500, 1000, (0, 100, true, false), [None, ARM], None),
    (false, 0, 0, (0, 100, false, true), [STAY, RISE], None),
    (
        true,
        2500,
        1000,
        (1000, 50, false, true),
        [None, None],
        Some(Order::Start),
    ),
    (
        false,
        2500,
        1000,
        (1000, 50, false, true),
        [STAY, LAND],
        None,
    ),
    (
        false,
        2500,
        1000,
        (0, 100, false, false),
        [LAND, None],
        None,
    ),
    (
        false,
        2500,
        1000,
        (0, 100, false, false),
        [None, None],
        Some(Order::Disarm),
    ),
];

fn is_step(s: &Step, wanted: &Wanted) -> bool {
    let (asked, after, settle, (z, bound, ready, armed), each, all) = *wanted;
    let second = Condition {
        position: Position { x: 500, y: 0, z },
        bound,
        ready,
        armed,
        down: all == Some(Order::Disarm),
    };
    let ordered = match &s.orders {
        Orders::All { order } => all == Some(*order),
        Orders::Each { orders } => all.is_none() && orders.as_slice() == each.as_slice(),
    };
    s.asked == asked
        && s.after == after
        && s.settle == settle
        && s.answered == (asked && ready)
        && s.conditions.as_slice().get(1) == Some(&second)
        && ordered
}

// Both are put into the group at once.
fn is_group(s: &Step) -> bool {
    let orders = match &s.orders {
        Orders::All { .. } => false,
        Orders::Each { orders } => {
            orders.as_slice() == [Some(Order::Group), Some(Order::Group)].as_slice()
        }
    };
    !s.asked
        && s.after == 0
        && s.settle == 0
        && !s.answered
        && s.conditions.as_slice().is_empty()
        && orders
}

fn are_steps(steps: &[Step]) -> bool {
    let Some(first) = steps.first() else {
        return false;
    };
    if !is_group(first) || steps.len() != STEPS.len() + 1 {
        return false;
    }
    for (s, wanted) in steps[1..].iter().zip(STEPS.iter()) {
        if !is_step(s, wanted) {
            return false;
        }
    }
    true
}

fn steps_of_two(alloc: Global) -> Result<bool, AllocError> {
    let names = [name(97), name(98)];
    let crews = Crews {
        up: crew(&names, body([120, 300])),
        show: crew(&names, body([120, 300])),
        down: crew(&names, body([120, 300])),
    };
    let ups = two(alloc, RISES[0], RISES[1])?;
    let shows = hovers(alloc, 500, 1000)?;
    let downs = two(alloc, LANDS[0], LANDS[1])?;
    match said(
        alloc,
        &crews,
        100,
        ups.as_slice(),
        shows.as_slice(),
        downs.as_slice(),
    ) {
        Ok(steps) => Ok(are_steps(steps.as_slice())),
        Err(_) => Ok(false),
    }
}

#[test]
fn steps_of_two_drones(rt: HostRuntime) {
    assert!(rt; matches!(steps_of_two(rt.alloc()), Ok(true)));
}

// Each way alone makes the room larger: the one up by its low end, the show by x, and the one down by its high end.
#[test]
fn room_of_three_ways(rt: HostRuntime) -> Result<(), Fail> {
    let alloc = rt.alloc();
    let up = [way(alloc, &[(0, -40, 1000)])?];
    let show = [
        way(alloc, &[(-700, 1000, 1000)])?,
        way(alloc, &[(500, 1000, 1100)])?,
    ];
    let down = [way(alloc, &[(0, 1000, 2000), (0, 2000, 0)])?];
    let wanted = Room {
        x: Span {
            low: -700,
            high: 500,
        },
        y: Span { low: 0, high: 0 },
        z: Span {
            low: -40,
            high: 2000,
        },
        margin: 280,
    };
    assert!(rt; room_of(280, &up, &show, &down) == wanted);
    assert!(rt;
        room_of(280, &[], &show, &[]).z
            == Span {
                low: 1000,
                high: 1100
            }
    );
    Ok(())
}
