//! Whole flights by the director. The values are those that `flight_model`'s rows compute from the definitions.

use crate::flights::{TOP, flight, flight_with};
use arrayvec::ArrayVec;
use flight_director::{Director, Event, Fault, Frame, Note, Order, Out, Sample, Signal, Window};
use listed::Listed;
use std::alloc::{AllocError, Global};
use std::test::Fail;

// ---- what happens

// A drone is heard: its number, its position, and whether it is armed, is down, flies and is sure.
macro_rules! seen {
    ($drone:expr, [$x:expr, $y:expr, $z:expr], $armed:expr, $down:expr, $flying:expr, $sure:expr) => {
        Event::Seen {
            drone: $drone,
            sample: Sample {
                age: 0,
                x: $x,
                y: $y,
                z: $z,
                ready: true,
                armed: $armed,
                lost: false,
                down: $down,
                flying: $flying,
                sure: $sure,
            },
        }
    };
}

// The first drone is heard in the air, and standing.
macro_rules! flies {
    ($x:expr, $y:expr, $z:expr) => {
        &[seen!(0, [$x, $y, $z], true, false, true, true)]
    };
}

macro_rules! stands {
    ($x:expr, $y:expr, $z:expr) => {
        &[seen!(0, [$x, $y, $z], false, true, false, true)]
    };
}

macro_rules! later {
    ($ms:expr) => {
        &[Event::Clock { ms: $ms }]
    };
}

// Half a second later both are heard in the air, the second two metres aside.
macro_rules! half {
    ($y:expr, $z:expr) => {
        &[
            Event::Clock { ms: 500 },
            seen!(0, [0, $y, $z], true, false, true, true),
            seen!(1, [2000, $y, $z], true, false, true, true),
        ]
    };
}

macro_rules! answered {
    ($drone:expr) => {
        &[Event::Answered {
            drone: $drone,
            status: 0,
        }]
    };
}

macro_rules! signal {
    ($signal:expr) => {
        &[Event::Said { signal: $signal }]
    };
}

// Lists of events, one after the other.
type Heard<'a> = &'a [&'a [Event]];

const GO: &[Event] = signal!(Signal::Go);

const LAND: &[Event] = signal!(Signal::Land);

const STOP: &[Event] = signal!(Signal::Stop);

// Both stand on their pads, disarmed and armed.
const ON_PADS: &[Event] = &[
    seen!(0, [0, 0, 0], false, true, false, true),
    seen!(1, [2000, 0, 0], false, true, false, true),
];

const ARMED: &[Event] = &[
    seen!(0, [0, 0, 0], true, true, false, true),
    seen!(1, [2000, 0, 0], true, true, false, true),
];

const AT_TOP: &[Event] = half!(0, TOP);

// Half a second later both stand on their pads, armed.
const LANDED: &[Event] = &[
    Event::Clock { ms: 500 },
    seen!(0, [0, 0, 0], true, true, false, true),
    seen!(1, [2000, 0, 0], true, true, false, true),
];

// Both are on their pads, and in the flight's group; and then told to rise.
const JOINED: Heard = &[ON_PADS, answered!(0), answered!(1)];

const RISING: Heard = &[ON_PADS, answered!(0), answered!(1), GO, ARMED];

// From the pads to the first places.
const UP: Heard = &[
    ON_PADS,
    answered!(0),
    answered!(1),
    GO,
    ARMED,
    half!(0, 71),
    half!(0, 500),
    half!(0, 929),
    AT_TOP,
    AT_TOP,
    AT_TOP,
    AT_TOP,
];

// The show, and down to the pads.
const SHOW_AND_DOWN: Heard = &[
    GO,
    half!(225, TOP),
    AT_TOP,
    AT_TOP,
    AT_TOP,
    half!(0, 967),
    half!(0, 710),
    half!(0, 290),
    half!(0, 33),
    LANDED,
    LANDED,
    LANDED,
    ON_PADS,
];

// ---- what goes out

macro_rules! to {
    ($drone:expr, $order:expr) => {
        Frame::To {
            drone: $drone,
            order: $order,
        }
    };
}

macro_rules! to_all {
    ($order:expr) => {
        Frame::ToAll { order: $order }
    };
}

macro_rules! noted {
    ($drone:expr, $fault:expr) => {
        Frame::Noted {
            note: Note {
                drone: $drone,
                fault: $fault,
            },
        }
    };
}

const RISE: Order = Order::Rise { z: TOP, ms: 2000 };

// At the end of the way down, and where all land early.
const DOWN: Order = Order::Land { z: 0, ms: 2500 };

const EARLY: Order = Order::Land { z: 0, ms: 4000 };

// What the first events lead to, the events after those and before the last ones, the last ones, and what goes out at
// these.
type Row<'a> = (Heard<'a>, Heard<'a>, Heard<'a>, &'a [Frame]);

// What goes out at these events.
fn hear(d: &mut Director, events: Heard) -> ArrayVec<Frame, 40> {
    let mut all = ArrayVec::new();
    let mut out = Out::new();
    for some in events {
        for e in some.iter() {
            d.event(e, &mut out);
            let _ = all.try_extend_from_slice(out.as_slice());
        }
    }
    all
}

fn says(alloc: Global, row: &Row) -> bool {
    let (start, before, last, wanted) = *row;
    let Ok(flight) = flight(alloc) else {
        return false;
    };
    let mut d = Director::make(flight);
    hear(&mut d, start);
    hear(&mut d, before);
    hear(&mut d, last).as_slice() == wanted
}

fn all_say(alloc: Global, rows: &[Row]) -> bool {
    for row in rows {
        if !says(alloc, row) {
            return false;
        }
    }
    true
}

const WHOLE: &[Row] = &[
    (
        &[],
        &[],
        UP,
        &[
            to!(0, Order::Group),
            to!(1, Order::Group),
            to!(0, Order::Arm),
            to!(1, Order::Arm),
            to!(0, RISE),
            to!(1, RISE),
        ],
    ),
    (
        UP,
        &[],
        SHOW_AND_DOWN,
        &[
            to_all!(Order::Start),
            to!(0, DOWN),
            to!(1, DOWN),
            to_all!(Order::Disarm),
            Frame::Over {
                flown: true,
                kept: true,
            },
        ],
    ),
];

#[test]
fn flies_a_whole_flight(rt: HostRuntime) {
    assert!(rt; all_say(rt.alloc(), WHOLE));
}

const ARM_BOTH: &[Frame] = &[to!(0, Order::Arm), to!(1, Order::Arm)];

// Nobody is armed before each drone has answered that it is in the group. The first event is before that order.
const ANSWERS: &[Row] = &[
    (&[], &[ON_PADS, answered!(0), answered!(1)], &[GO], ARM_BOTH),
    (&[], &[ON_PADS, answered!(1), answered!(0)], &[GO], ARM_BOTH),
    (&[], &[ON_PADS], &[GO], &[]),
    (&[], &[ON_PADS, answered!(0)], &[GO], &[]),
    (&[], &[ON_PADS, answered!(1), answered!(1)], &[GO], &[]),
    (
        &[],
        &[
            ON_PADS,
            answered!(0),
            answered!(2),
            answered!(31),
            answered!(32),
            answered!(255),
        ],
        &[GO],
        &[],
    ),
    (&[answered!(0)], &[ON_PADS, answered!(1)], &[GO], &[]),
    (
        &[answered!(0)],
        &[ON_PADS, answered!(0), answered!(1)],
        &[GO],
        ARM_BOTH,
    ),
];

#[test]
fn waits_for_each_answer(rt: HostRuntime) {
    assert!(rt; all_say(rt.alloc(), ANSWERS));
}

// The first drone stands so far aside of its pad, of which 100 mm are allowed.
const ASIDE_OF_PADS: &[Row] = &[
    (JOINED, &[stands!(0, -100, 0)], &[GO], ARM_BOTH),
    (JOINED, &[stands!(60, 80, 0)], &[GO], ARM_BOTH),
    (JOINED, &[stands!(-48, 64, -60)], &[GO], ARM_BOTH),
    (JOINED, &[stands!(57, -57, 57)], &[GO], ARM_BOTH),
    (JOINED, &[stands!(1, -100, 0)], &[GO], &[]),
    (JOINED, &[stands!(60, 81, 0)], &[GO], &[]),
    (JOINED, &[stands!(-48, 64, -61)], &[GO], &[]),
    (JOINED, &[stands!(58, -58, 58)], &[GO], &[]),
    (JOINED, &[stands!(100, 100, 100)], &[GO], &[]),
];

#[test]
fn measures_in_a_straight_line(rt: HostRuntime) {
    assert!(rt; all_say(rt.alloc(), ASIDE_OF_PADS));
}

const SIGNALS: &[Row] = &[(
    UP,
    &[],
    &[LAND, GO, STOP, LAND, GO],
    &[to!(0, EARLY), to!(1, EARLY), to_all!(Order::Halt)],
)];

#[test]
fn lands_and_halts_at_the_word(rt: HostRuntime) {
    assert!(rt; all_say(rt.alloc(), SIGNALS));
}

const SILENT: &[Row] = &[(
    UP,
    &[GO],
    &[later!(400), flies!(0, 216, TOP), later!(200), later!(100)],
    &[noted!(1, Fault::Silent)],
)];

#[test]
fn flies_on_past_a_silent_drone(rt: HostRuntime) {
    assert!(rt; all_say(rt.alloc(), SILENT));
}

// Both are heard so high, armed and standing, whether or not they say that they fly; half a second passes.
macro_rules! down {
    ($z:expr, $flying:expr) => {
        &[
            seen!(0, [0, 0, $z], true, true, $flying, true),
            seen!(1, [0, 0, $z], true, true, $flying, true),
            Event::Clock { ms: 500 },
        ]
    };
}

const FLYING: &[Event] = down!(0, true);

const DISARMED: &[Frame] = &[to_all!(Order::Disarm)];

// Motors stop up to 120 mm above or below the floor; where a drone says that it flies, 5 s after all stood.
const STANDING: &[Row] = &[
    (UP, &[LAND], &[down!(120, false)], DISARMED),
    (UP, &[LAND], &[down!(121, false)], &[]),
    (UP, &[LAND], &[down!(-120, false)], DISARMED),
    (UP, &[LAND], &[down!(-121, false)], &[]),
    (UP, &[LAND], &[FLYING; 9], &[]),
    (UP, &[LAND], &[FLYING; 10], DISARMED),
];

#[test]
fn disarms_who_is_down(rt: HostRuntime) {
    assert!(rt; all_say(rt.alloc(), STANDING));
}

// One drone hovers before the show and isn't sure.
const UNSURE: &[Event] = &[seen!(0, [0, 0, TOP], true, false, true, false)];

// It doesn't start, and after 300 ms a note goes out, and all land.
const NOT_SURE: &[Row] = &[
    (UP, &[], &[UNSURE, GO, later!(0), UNSURE], &[]),
    (UP, &[], &[UNSURE, GO, later!(299), UNSURE], &[]),
    (
        UP,
        &[],
        &[UNSURE, GO, later!(300), UNSURE],
        &[noted!(0, Fault::Unsure), to!(0, EARLY), to!(1, EARLY)],
    ),
];

#[test]
fn waits_for_who_is_sure(rt: HostRuntime) {
    assert!(rt; all_say(rt.alloc(), NOT_SURE));
}

const HALFWAY: Heard = &[half!(0, 71), half!(0, 500)];

const ASTRAY: &[Event] = flies!(101, 0, 500);

const AT_THE_BOUND: &[Event] = flies!(100, 0, 500);

// The first drone stays so far aside of its way up, 100 mm of which are allowed: after 300 ms a note goes out, and both
// land.
const WAY_UP: &[Row] = &[
    (RISING, HALFWAY, &[ASTRAY, later!(299), ASTRAY], &[]),
    (
        RISING,
        HALFWAY,
        &[ASTRAY, later!(300), ASTRAY],
        &[noted!(0, Fault::Astray), to!(0, EARLY), to!(1, EARLY)],
    ),
    (
        RISING,
        HALFWAY,
        &[AT_THE_BOUND, later!(300), AT_THE_BOUND],
        &[],
    ),
];

#[test]
fn watches_the_way_up(rt: HostRuntime) {
    assert!(rt; all_say(rt.alloc(), WAY_UP));
}

const OUTSIDE: &[Frame] = &[noted!(0, Fault::Outside), to!(0, EARLY), to!(1, EARLY)];

// The first drone is heard there, 20 ms after both were told to rise. In the room nothing goes out. A millimetre
// outside a note does, and both land, in that event.
const ROOM: &[Row] = &[
    (RISING, &[], &[later!(20), flies!(2300, 0, 0)], &[]),
    (RISING, &[], &[later!(20), flies!(0, -300, 1300)], &[]),
    (RISING, &[], &[later!(20), flies!(-300, 600, -300)], &[]),
    (RISING, &[], &[later!(20), flies!(2301, 0, 0)], OUTSIDE),
    (RISING, &[], &[later!(20), flies!(-301, 0, 0)], OUTSIDE),
    (RISING, &[], &[later!(20), flies!(0, -301, 0)], OUTSIDE),
    (RISING, &[], &[later!(20), flies!(0, 601, 0)], OUTSIDE),
    (RISING, &[], &[later!(20), flies!(0, 0, 1301)], OUTSIDE),
    (RISING, &[], &[later!(20), flies!(0, 0, -301)], OUTSIDE),
];

#[test]
fn lands_who_is_outside(rt: HostRuntime) {
    assert!(rt; all_say(rt.alloc(), ROOM));
}

// A drone was heard so long ago, armed, so far aside, where its show begins.
fn heard_ago(drone: u8, x: i16, age: u32) -> Event {
    Event::Seen {
        drone,
        sample: Sample {
            age,
            x,
            y: 0,
            z: TOP,
            ready: true,
            armed: true,
            lost: false,
            down: false,
            flying: true,
            sure: true,
        },
    }
}

// How much goes out at the operator's land, and a millisecond later, 3.5 s after both were told to rise. The windows
// have these deaf, and so long ago the two were heard.
fn said_in(
    alloc: Global,
    from: u32,
    to: u32,
    all_deaf: [Option<u8>; 3],
    ages: (u32, u32),
) -> Result<(usize, usize), AllocError> {
    let mut windows = Vec::new(alloc);
    for deaf in all_deaf {
        windows.push(Window {
            step: 3,
            from,
            to,
            deaf,
        })?;
    }
    let mut d = Director::make(flight_with(alloc, Some(Listed::from_vec(windows)))?);
    hear(&mut d, UP);
    hear(
        &mut d,
        &[&[heard_ago(0, 0, ages.0), heard_ago(1, 2000, ages.1)]],
    );
    let now = hear(&mut d, &[LAND]).len();
    Ok((now, hear(&mut d, &[later!(1)]).len()))
}

// Both land in the window, which a note says is waited for. Who was heard more than 300 ms ago may be deaf.
#[test]
fn lands_in_a_window(rt: HostRuntime) -> Result<(), Fail> {
    for (from, to, deaf, age, wanted) in [
        (3500, 3500, None, 0, (2, 0)),
        (3501, 9000, None, 0, (1, 2)),
        (3502, 9000, None, 0, (1, 0)),
        (0, 3499, None, 0, (1, 0)),
        (0, 9000, None, 300, (2, 0)),
        (0, 9000, None, 301, (1, 0)),
        (0, 9000, Some(1), 301, (2, 0)),
        (0, 9000, Some(0), 301, (1, 0)),
    ] {
        assert!(rt; said_in(rt.alloc(), from, to, [None, deaf, deaf], (0, age))? == wanted);
    }
    Ok(())
}

// Where both may be deaf, each has to have its window, and so has the landing of both.
#[test]
fn lands_while_two_may_be_deaf(rt: HostRuntime) -> Result<(), Fail> {
    for (all_deaf, ages, wanted) in [
        ([None, Some(0), Some(1)], (301, 301), (2, 0)),
        ([Some(1), None, Some(0)], (301, 301), (2, 0)),
        ([None, Some(0), None], (301, 301), (1, 0)),
        ([None, Some(1), None], (301, 301), (1, 0)),
        ([Some(0), Some(1), Some(0)], (301, 301), (1, 0)),
        ([None, Some(0), None], (301, 300), (2, 0)),
        ([None, Some(1), None], (301, 300), (1, 0)),
    ] {
        assert!(rt; said_in(rt.alloc(), 0, 9000, all_deaf, ages)? == wanted);
    }
    Ok(())
}
