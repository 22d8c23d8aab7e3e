//! Each frame, with its bytes by hand from the table of docs/PROMISES.md, "Its frames".

use flight_link::{FrameFault, event_length, frame_bytes, read_event};
use flight_model::{Event, Fault, Frame, Note, Order, Sample, Signal};

const SEEN: Sample = Sample {
    age: 300,
    x: 2000,
    y: -1,
    z: -32768,
    ready: true,
    armed: false,
    lost: false,
    down: true,
    flying: true,
    sure: true,
};

const ANSWERED: Event = Event::Answered {
    drone: 0,
    status: 5,
};

// Frames that come in where there are two drones, and what is read.
const READ: &[(&[u8], Result<Event, FrameFault>)] = &[
    (&[1, 0xF4, 0x01], Ok(Event::Clock { ms: 500 })),
    (
        &[2, 1, 0x2C, 0x01, 0xD0, 0x07, 0xFF, 0xFF, 0x00, 0x80, 57],
        Ok(Event::Seen {
            drone: 1,
            sample: SEEN,
        }),
    ),
    (&[3, 0, 5], Ok(ANSWERED)),
    (&[4, 0], Ok(Event::Said { signal: Signal::Go })),
    (
        &[4, 1],
        Ok(Event::Said {
            signal: Signal::Land,
        }),
    ),
    (
        &[4, 2],
        Ok(Event::Said {
            signal: Signal::Stop,
        }),
    ),
    (&[], Err(FrameFault::Kind)),
    (&[0, 0], Err(FrameFault::Kind)),
    (&[5, 0], Err(FrameFault::Kind)),
    (&[1, 0], Err(FrameFault::Length)),
    (&[4, 0, 0], Err(FrameFault::Length)),
    (&[3, 2, 0], Err(FrameFault::Drone)),
    (&[2, 2, 0, 0, 0, 0, 0, 0, 0, 0, 0], Err(FrameFault::Drone)),
    (&[2, 1, 0, 0, 0, 0, 0, 0, 0, 0, 64], Err(FrameFault::Flags)),
    (&[4, 3], Err(FrameFault::Signal)),
];

#[test]
fn reads_each_frame(rt: HostRuntime) {
    for (bytes, wanted) in READ {
        assert!(rt; read_event(bytes, 2) == *wanted);
    }
}

const LENGTHS: &[(u8, Option<usize>)] = &[
    (1, Some(3)),
    (2, Some(11)),
    (3, Some(3)),
    (4, Some(2)),
    (0, None),
    (5, None),
];

#[test]
fn knows_each_length(rt: HostRuntime) {
    for (kind, wanted) in LENGTHS {
        assert!(rt; event_length(*kind) == *wanted);
    }
}

const RISE: Order = Order::Rise { z: 1000, ms: 2000 };

const GO: Order = Order::Go {
    x: 2000,
    y: -1,
    z: 1000,
    yaw: -900,
    ms: 70000,
};

const LAND: Order = Order::Land { z: -5, ms: 4000 };

macro_rules! to_one {
    ($drone:expr, $order:expr) => {
        Frame::To {
            drone: $drone,
            order: $order,
        }
    };
}

macro_rules! to_all {
    ($order:expr) => {
        Frame::ToAll { order: $order }
    };
}

macro_rules! noted {
    ($fault:expr) => {
        Frame::Noted {
            note: Note {
                drone: 7,
                fault: $fault,
            },
        }
    };
}

macro_rules! over {
    ($flown:expr, $kept:expr) => {
        Frame::Over {
            flown: $flown,
            kept: $kept,
        }
    };
}

const WRITTEN: &[(Frame, &[u8])] = &[
    (to_one!(3, RISE), &[1, 3, 1, 0xE8, 0x03, 0xD0, 0x07, 0, 0]),
    (
        to_one!(31, GO),
        &[
            1, 31, 2, 0xD0, 0x07, 0xFF, 0xFF, 0xE8, 0x03, 0x7C, 0xFC, 0x70, 0x11, 0x01, 0x00,
        ],
    ),
    (to_one!(0, LAND), &[1, 0, 3, 0xFB, 0xFF, 0xA0, 0x0F, 0, 0]),
    (to_all!(Order::Arm), &[2, 0]),
    (to_all!(Order::Start), &[2, 4, 1]),
    (to_all!(Order::Halt), &[2, 5]),
    (to_all!(Order::Disarm), &[2, 6]),
    (to_one!(31, Order::Group), &[1, 31, 7, 1]),
    (noted!(Fault::Silent), &[3, 7, 0]),
    (noted!(Fault::Astray), &[3, 7, 1]),
    (noted!(Fault::Lost), &[3, 7, 2]),
    (noted!(Fault::Refused), &[3, 7, 3]),
    (noted!(Fault::Late), &[3, 7, 4]),
    (noted!(Fault::Unsure), &[3, 7, 5]),
    (noted!(Fault::Outside), &[3, 7, 6]),
    (noted!(Fault::Uncovered), &[3, 7, 7]),
    (over!(false, false), &[4, 0]),
    (over!(true, false), &[4, 1]),
    (over!(true, true), &[4, 3]),
];

#[test]
fn writes_each_frame(rt: HostRuntime) {
    for (frame, wanted) in WRITTEN {
        assert!(rt; frame_bytes(frame).as_slice() == *wanted);
    }
}
