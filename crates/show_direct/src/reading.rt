//! A text is read, and the show that it stands for is judged.

ghost use Rattle.std.specs.Prelude.{◌≡◌, ◌+◌, ◌≤◌, ℕ, List, length, IsTrue, IfOk};
ghost use Rattle.byte_streams.specs.Held.{buffer_bytes};
ghost use Rattle.byte_streams.specs.Told.{MayGive, Went};
ghost use Rattle.whole_numbers.specs.Limits.{most_text};
ghost use Rattle.show_plan.specs.Fitting.{IsValidFitted};
ghost use Rattle.link_frames.specs.Frames.{end_frame};
ghost use Rattle.show_judge.specs.Answers.{Wrote};
ghost use Rattle.show_judge.specs.Input.{IsShowText, IsWithin};
ghost use Rattle.show_judge.specs.Shows.{Cut};
ghost use Rattle.show_direct.specs.Steps.{EndsBy, JudgeGives, ReadGives};

use crate::fault_frame::{NO_FLIGHT, no_flight_bytes};
use byte_streams::status::{NO_MEMORY, READ_FAILED};
use byte_streams::{IoFault, Parts, Sink, Source};
use flight_steps::{FlightFault, StepsError};
use link_frames::END_BYTE;
use refusals::Refusal;
use show_judge::{Accepted, Judged, Text, Ways, accept, finish};
use std::alloc::{AllocError, Global};
use whole_numbers::{Depth, MOST_TEXT};

/// Why nothing is flown.
#[derive(Drop)]
pub enum Unflown {
    /// A text is refused.
    Refused { refusal: Refusal },
    /// A read failed.
    Read,
    /// The three shows are no flight.
    NoFlight { fault: FlightFault },
    /// Out of memory.
    Memory,
}

impl From<AllocError> for Unflown {
    ghost use Rattle.std.specs.Prelude.{◌≡◌};
    ghost use Rattle.show_direct.specs.declared.reading.Unflown.TheVariants.{Memory};

    ghost from_gives = { λ _ e. e ≡ Memory };

    fn from(_: AllocError) -> Self {
        Unflown::Memory
    }
}

impl From<StepsError> for Unflown {
    ghost use Rattle.std.specs.Prelude.{◌≡◌};
    ghost use Rattle.show_direct.specs.Steps.{unflown_by};

    ghost from_gives = { λ e why. why ≡ unflown_by e };

    fn from(error: StepsError) -> Self {
        match error {
            StepsError::Fault { fault } => Unflown::NoFlight { fault },
            StepsError::Memory => Unflown::Memory,
        }
    }
}

// The show that a text stands for, where nothing refuses it.
fn judge(alloc: Global, depth: Depth, text: &Text) -> Result<Accepted, Unflown>
    requires short { IsWithin most_text text.now }
    ensures gives { (cut : Cut) → IsShowText text.now cut → JudgeGives depth cut result }
    ensures valid { IfOk result (λ a. IsValidFitted a.fitted) }
{
    let ways = Ways {
        reads: true,
        has_second: true,
        by_frames: true,
        depth: Some(depth),
    };
    match accept(alloc, &ways, depth, text)? {
        Judged::Accepted { accepted } => Ok(accepted),
        Judged::Refused { refusal } => Err(Unflown::Refused { refusal }),
    }
}

/// Reads the next text, and judges the show that it stands for.
pub fn read_show<S: Source>(
    alloc: Global,
    depth: Depth,
    parts: &mut Parts,
    source: &mut S,
) -> Result<Accepted, Unflown>
    requires sound { IsTrue parts.old.sound }
    requires lines { IsTrue parts.old.lines }
    requires at_end { IsTrue parts.old.ended → IsTrue (S.told source.old).ended }
    requires holds { length parts.old.waiting ≤ buffer_bytes }
    ensures gives { (all : List ℕ) → MayGive parts.new.ended (S.told source.new) all
        → ReadGives depth parts.old parts.new (S.told source.old) (S.told source.new) all result }
    ensures valid { IfOk result (λ a. IsValidFitted a.fitted) }
    ensures sound { IfOk result (λ _. IsTrue parts.new.sound) }
    ensures lines { parts.new.lines ≡ parts.old.lines }
    ensures most { length parts.new.waiting ≤ buffer_bytes }
    ensures few { length (S.told source.new).given ≤ length (S.told source.old).given + (most_text + 4 + buffer_bytes) }
    ensures went { Went parts.old.ended parts.new.ended (S.told source.old) (S.told source.new) }
{
    match parts.text(alloc, source, MOST_TEXT) {
        Ok(part) => judge(alloc, depth, &Text::Whole { part }),
        Err(IoFault::TooLong) => Err(Unflown::Refused {
            refusal: Refusal::TooLarge,
        }),
        Err(IoFault::Read) => Err(Unflown::Read),
        Err(IoFault::Memory) => Err(Unflown::Memory),
    }
}

// Writes the end frame with this status, and returns it, or 7 where the sink failed.
fn write_end<K: Sink>(sink: &mut K, status: u8) -> u8
    ensures { Wrote status (end_frame status) (K.written sink.old) (K.written sink.new) (K.faults sink.old)
        (K.faults sink.new) result }
{
    finish(sink, &[END_BYTE, status], status)
}

/// Ends where nothing is flown: with the end frame of a refusal's status or of a failed read's, with the first cause
/// why the three are no flight and the end frame of 19, or with nothing written for want of memory. Returns the status,
/// or 7 where the sink failed.
pub fn end_unflown<K: Sink>(sink: &mut K, why: &Unflown) -> u8
    ensures { EndsBy why.now (K.written sink.old) (K.written sink.new) (K.faults sink.old) (K.faults sink.new) result }
{
    match why {
        Unflown::Refused { refusal } => write_end(sink, refusal.status()),
        Unflown::Read => write_end(sink, READ_FAILED),
        Unflown::NoFlight { fault } => finish(sink, &no_flight_bytes(fault), NO_FLIGHT),
        Unflown::Memory => NO_MEMORY,
    }
}
