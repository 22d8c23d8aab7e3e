//! A flight is made of three shows.

ghost use Rattle.std.specs.Int.{w16};
ghost use Rattle.std.specs.Prelude.{◌≡◌, ◌+◌, length, max, min, All, FitsSigned, IfOk};
ghost use Rattle.choreo_show.specs.Plain.{PlainShow};
ghost use Rattle.flight_director.specs.Held.{IsCourse, IsHeld};
ghost use Rattle.flight_steps.specs.Sizes.{IsStepOf};
ghost use Rattle.show_plan.specs.Fitting.{IsFitted, IsValidFitted};
ghost use Rattle.show_direct.specs.Flights.{course_of as word_course, ellipsoid_in, most_silence, order_ms};
ghost use Rattle.show_direct.specs.Flights.{room_in as word_room, room_mm};
ghost use Rattle.show_direct.specs.Steps.{FlightMade, StepsMade};

use command_words::FlightOptions;
use flight_model::{Course, Flight, Room, Step};
use flight_steps::{Crew, Crews, Ellipsoid, StepsError, Ways, room_of, steps_of};
use listed::Listed;
use show_plan::{Fitted, uploadable_law};
use std::alloc::Global;
use traj_codec::join_law;

// The drones of a show.
fn crew_of<'a>(show: &'a Fitted) -> Crew<'a>
    ensures names { result.names.now ≡ show.now.names }
    ensures ellipsoid { result.ellipsoid ≡ ellipsoid_in show.now.settings }
{
    Crew {
        names: show.names.as_slice(),
        ellipsoid: Ellipsoid {
            r: show.settings.r,
            h: show.settings.h,
        },
    }
}

// The steps of a flight of three shows, or the first cause why they are none.
fn make_steps(
    alloc: Global,
    options: &FlightOptions,
    up: &Fitted,
    show: &Fitted,
    down: &Fitted,
) -> Result<Listed<Step>, StepsError>
    requires up { IsValidFitted up.now }
    requires show { IsValidFitted show.now }
    requires down { IsValidFitted down.now }
    ensures made { (rise middle return : PlainShow) → IsFitted up.now rise → IsFitted show.now middle
        → IsFitted down.now return → StepsMade options.now rise middle return result }
    ensures sizes { IfOk result (λ steps. All (IsStepOf (length show.now.trajs)) steps) }
{
    let crews = Crews {
        up: crew_of(up),
        show: crew_of(show),
        down: crew_of(down),
    };
    let ways = Ways {
        up: up.trajs.as_slice(),
        show: show.trajs.as_slice(),
        down: down.trajs.as_slice(),
        show_ms: show.duration,
        stray: up.settings.stray,
        near: options.near,
        at_place: options.at_place,
    };
    steps_of(alloc, &crews, &ways)
}

fn floor_of(options: &FlightOptions) -> i16
    ensures value { result ≡ options.now.floor }
    ensures fits { FitsSigned w16 result }
{
    options.floor
}

// The longest silence that the director would find, which counts times up to 1,000,000,000 ms.
const MOST_SILENCE: u32 = 999_999_999;

fn silence_of(options: &FlightOptions) -> u32
    ensures { result ≡ min options.now.silence most_silence }
{
    options.silence.min(MOST_SILENCE)
}

// How late an order may reach its drone, in milliseconds, where the way's text says less.
const ORDER_MS: u16 = 300;

fn late_of(way: &Fitted) -> u16
    ensures { result ≡ max way.now.settings.late order_ms }
{
    way.settings.late.max(ORDER_MS)
}

// The curves of a way, as it is watched.
fn course_of(way: Fitted) -> Course
    requires { IsValidFitted way }
    ensures value { (s : PlainShow) → IsFitted way s → result ≡ word_course s }
    ensures held { IsCourse result }
{
    join_law();
    uploadable_law(&way);
    let late = late_of(&way);
    Course {
        curves: way.sent,
        ms: way.duration,
        stray: way.settings.stray,
        late,
    }
}

// How far outside of the control points of its curves a drone in the air may be, beside what its text has it stray, in
// millimetres.
const ROOM_MM: u32 = 200;

fn margin_of(up: u16, show: u16, down: u16) -> u32
    ensures { result ≡ max (max up show) down + room_mm }
{
    up.max(show).max(down) as u32 + ROOM_MM
}

// The room of a flight.
fn room_in(up: &Fitted, show: &Fitted, down: &Fitted) -> Room
    ensures { (rise middle return : PlainShow) → IsFitted up.now rise → IsFitted show.now middle
        → IsFitted down.now return → result ≡ word_room rise middle return }
{
    let margin = margin_of(up.settings.stray, show.settings.stray, down.settings.stray);
    room_of(
        margin,
        up.sent.as_slice(),
        show.sent.as_slice(),
        down.sent.as_slice(),
    )
}

/// The flight of a way up, a show and a way down, or the first cause why they are none.
pub fn make_flight(
    alloc: Global,
    options: &FlightOptions,
    up: Fitted,
    show: Fitted,
    down: Fitted,
) -> Result<Flight, StepsError>
    requires up { IsValidFitted up }
    requires show { IsValidFitted show }
    requires down { IsValidFitted down }
    ensures made { (rise middle return : PlainShow) → IsFitted up rise → IsFitted show middle
        → IsFitted down return → FlightMade options.now rise middle return result }
    ensures held { IfOk result IsHeld }
{
    join_law();
    uploadable_law(&show);
    let steps = make_steps(alloc, options, &up, &show, &down)?;
    let room = room_in(&up, &show, &down);
    let up = course_of(up);
    let down = course_of(down);
    Ok(Flight {
        steps,
        curves: show.sent,
        show_ms: show.duration,
        stray: show.settings.stray,
        late: show.settings.late,
        up,
        down,
        room,
        silence: silence_of(options),
        flies_on: !options.then_land,
        floor: floor_of(options),
        descent: options.descent,
        windows: None,
    })
}
