//! Why a show is refused, from the faults of the crates below.
ghost use Rattle.std.specs.Prelude.{◌≡◌, ◌<◌, ◌≤◌, length, Some, None, IfOk, IfSome};
ghost use Rattle.std.specs.Option.{option_or};
ghost use Rattle.std.specs.List.{All};
ghost use Rattle.byte_streams.specs.Held.{text_limit};
ghost use Rattle.byte_streams.specs.Words.{IsWord};
ghost use Rattle.choreo_show.specs.Plain.{PlainShow, plain};
ghost use Rattle.choreo_show.specs.Valid.{IsValid};
ghost use Rattle.refusals.specs.Refusals.{AreNamed};
ghost use Rattle.show_plan.specs.Fitting.{IsFitted, IsValidFitted, StandsAsWord, plan_fault};
ghost use Rattle.show_plan.specs.Separation.{FailsBy, blocked_part};
ghost use Rattle.show_judge.specs.Input.{IsShowText};
ghost use Rattle.show_judge.specs.Refused.{IsOfInput, blocked_by, marker_refusal, pair_at, show_refusal};
ghost use Rattle.whole_numbers.specs.Limits.{most_text};
ghost use Rattle.show_judge.specs.Shows.{Cut, marker_number, name_at, names_of};

use crate::input::Text;
use crate::ways::Ways;
use byte_streams::Part;
use choreo_reader::{Name, Show};
use choreo_show::copy_of;
use refusals::{Pair, Refusal};
use show_plan::{Fitted, PlanFault, SeparationFault};
use std::alloc::AllocError;
use whole_numbers::Depth;

/// The name of a drone, which counts from 0.
pub fn name_at(names: &[Name], drone: u8) -> Name
    requires drone { drone < length names.now }
    requires words { All StandsAsWord names.now }
    ensures name { result ≡ name_at names.now drone }
    ensures word { IsWord result.items }
{
    copy_of(&names[usize::from(drone)])
}

/// Two drones in a cue, by their names.
pub fn pair_at(names: &[Name], a: u8, b: u8, cue: u16) -> Pair
    requires a { a < length names.now }
    requires b { b < length names.now }
    requires words { All StandsAsWord names.now }
    ensures pair { result ≡ pair_at names.now a b cue }
    ensures named { AreNamed result }
{
    Pair {
        first: name_at(names, a),
        second: name_at(names, b),
        cue,
    }
}

/// The number of the marker line after a text, from 1: each line of the text ends with a line feed.
pub fn marker_number(text: &[u8]) -> u32
    requires { length text.now ≤ text_limit }
    ensures { result ≡ marker_number text.now }
{
    let mut number: u32 = 1;
    for byte in text {
        if *byte == b'\n' {
            number += 1;
        }
    }
    number
}

/// A marker line after the show's text, which each command refuses that wants no bytes after it.
pub fn marker_refusal(ways: &Ways, part: &Part) -> Option<Refusal>
    requires { length part.now.bytes.items ≤ most_text }
    ensures gives { (cut : Cut) → IsShowText (Text.Whole part.now) cut → result ≡ marker_refusal ways.now cut }
    ensures said { IfSome result IsOfInput }
{
    if ways.has_second {
        return None;
    }
    if part.marker {
        let line = marker_number(&part.bytes);
        Some(Refusal::SecondLine { line })
    } else {
        None
    }
}

fn drone_name(show: &Show, drone: u8) -> Name
    requires valid { IsValid (plain show.now) }
    requires drone { drone < length show.now.drones }
    ensures name { result ≡ name_at (names_of (plain show.now)) drone }
    ensures word { IsWord result.items }
{
    copy_of(&show.drones.as_slice()[usize::from(drone)].name)
}

// A refusal that comes after that of a marker line.
fn after_marker(ways: &Ways, part: &Part, later: Refusal) -> Refusal
    requires within { length part.now.bytes.items ≤ most_text }
    requires said { IsOfInput later }
    ensures gives { (cut : Cut) → IsShowText (Text.Whole part.now) cut
        → option_or (marker_refusal ways.now cut) (Some later) ≡ Some result }
    ensures said { IsOfInput result }
{
    match marker_refusal(ways, part) {
        Some(refusal) => refusal,
        None => later,
    }
}

/// Why a show doesn't fit, or the marker line that is refused before.
pub fn unfit(ways: &Ways, show: &Show, part: &Part, fault: PlanFault) -> Refusal
    requires valid { IsValid (plain show.now) }
    requires within { length part.now.bytes.items ≤ most_text }
    requires fault { plan_fault (plain show.now) ≡ Some fault }
    ensures gives { (cut : Cut) → IsShowText (Text.Whole part.now) cut
        → show_refusal ways.now cut (plain show.now) ≡ Some result }
    ensures said { IsOfInput result }
{
    match fault {
        PlanFault::Grid { fault } => Refusal::Grid { fault },
        PlanFault::OutOfRange { value: found } => Refusal::Range {
            line: found.line,
            axis: found.axis,
            value: found.value,
        },
        PlanFault::TooManySegments { drone, segments } => {
            let drone = drone_name(show, drone);
            after_marker(ways, part, Refusal::Segments { drone, segments })
        }
        PlanFault::TooLong { drone, bytes, room } => {
            let drone = drone_name(show, drone);
            after_marker(ways, part, Refusal::Room { drone, bytes, room })
        }
    }
}

/// Why a show that fits has no certificate of a depth.
pub fn unseparated(
    fitted: &Fitted,
    depth: Depth,
    fault: SeparationFault,
) -> Result<Refusal, AllocError>
    requires valid { IsValidFitted fitted.now }
    requires fault { FailsBy (blocked_part fitted.now.settings depth fitted.now.trajs) fault }
    ensures gives { (s : PlainShow) → IsFitted fitted.now s → IfOk result (λ r. blocked_by (Some depth) s ≡ Some r) }
    ensures said { IfOk result IsOfInput }
{
    match fault {
        SeparationFault::Blocked { part } => Ok(Refusal::Blocked {
            pair: pair_at(
                fitted.names.as_slice(),
                part.slot.a,
                part.slot.b,
                part.slot.cue,
            ),
            index: part.index,
            depth,
        }),
        SeparationFault::Memory => Err(AllocError),
    }
}
