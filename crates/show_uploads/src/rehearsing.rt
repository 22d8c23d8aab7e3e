//! `rehearse`: what an upload leaves in drones after a schedule.
ghost use Rattle.std.specs.Prelude.{◌≡◌, ◌≤◌, length, IfOk};
ghost use Rattle.choreo_show.specs.Plain.{PlainShow};
ghost use Rattle.cue_grid.specs.declared.grid.Grid.{Grid};
ghost use Rattle.show_plan.specs.Fitting.{IsFitted, IsValidFitted};
ghost use Rattle.show_plan.specs.Landing.{Lands};
ghost use Rattle.show_judge.specs.Answers.{IsSaid, outcome_of};
ghost use Rattle.show_judge.specs.Input.{IsText, IsUnmarked, IsWithin};
ghost use Rattle.show_uploads.specs.Rehearse.{RehearseGives, Rehearses, rehearse_verb};
ghost use Rattle.show_judge.specs.Runs.{Does};
ghost use Rattle.show_judge.specs.Shows.{Cut};
ghost use Rattle.show_judge.specs.Verb.{during};
ghost use Rattle.show_judge.specs.Outcome.{IsVerb};
ghost use Rattle.show_uploads.specs.Rehearse.{RehearseLaw};
ghost use Rattle.whole_numbers.specs.Limits.{most_text};

use byte_streams::{Sink, Source};
use firmware_memory::curve_law;
use fleet_world::{ScheduleFault, WorldEvent, read_schedule, schedule_law};
use refusals::Refusal;
use rehearsal::memory_text;
use show_judge::{Answer, Output, Text, TwoTexts, marker_number, name_at, run_two};
use show_plan::{Fitted, session};
use std::alloc::{AllocError, Global};
use upload_model::Progress;
use whole_numbers::{Depth, MOST_TEXT};

// What an upload gives, after these events, over drones that are blank at the start.
fn rehearse_events(
    alloc: Global,
    fitted: &Fitted,
    readback: bool,
    start: bool,
    events: &[WorldEvent],
) -> Result<Answer, AllocError>
    requires valid { IsValidFitted fitted.now }
    requires lands { (g : Grid) × Lands g fitted.now.settings fitted.now.sent }
    ensures gives { (s : PlainShow) → IsFitted fitted.now s
        → IfOk result (λ a. Rehearses s readback start events.now (outcome_of a)) }
    ensures said { IfOk result IsSaid }
{
    let session = session(alloc, fitted, readback, start)?;
    let world = rehearsal::rehearse(alloc, session, events)?;
    let names = fitted.names.as_slice();
    let refusal = match world.progress() {
        Progress::Going => Refusal::Ended,
        Progress::GaveUp { drone, packet } => Refusal::GaveUp {
            drone: name_at(names, drone),
            packet,
        },
        Progress::Refused {
            drone,
            packet,
            status,
        } => Refusal::Refused {
            drone: name_at(names, drone),
            packet,
            status,
        },
        Progress::Differs {
            drone,
            address,
            wanted,
            got,
        } => Refusal::Differs {
            drone: name_at(names, drone),
            address,
            wanted,
            got,
        },
        Progress::Done => {
            let lines = memory_text(alloc, &world, names, fitted.settings.trajectory_id)?;
            return Ok(Answer::Done {
                output: Output::Text { lines },
            });
        }
    };
    Ok(Answer::Refused { refusal })
}

/// `rehearse` at a depth, with starts or without, with read-back or without.
#[derive(Clone, Copy)]
pub struct Rehearsal {
    pub depth: Depth,
    pub start: bool,
    pub readback: bool,
}

impl TwoTexts for Rehearsal {
    ghost verb = { λ c. rehearse_verb c.depth c.start c.readback };

    ghost most = { λ c. most_text };

    ghost searched = { λ c. c.depth };

    fn depth(&self) -> Depth {
        self.depth
    }

    fn limit(&self) -> usize {
        MOST_TEXT
    }

    fn answer_second(
        &self,
        alloc: Global,
        fitted: &Fitted,
        second: &Text,
    ) -> Result<Answer, AllocError> {
        let Text::Whole { part } = second else {
            return Ok(Answer::Refused {
                refusal: Refusal::SecondTooLarge,
            });
        };
        let names = fitted.names.as_slice();
        let events = match read_schedule(alloc, self.readback, &part.bytes, names) {
            Ok(events) => events,
            Err(ScheduleFault::Line { line }) => {
                return Ok(Answer::Refused {
                    refusal: Refusal::SecondLine { line },
                });
            }
            Err(ScheduleFault::Memory) => return Err(AllocError),
        };
        if part.marker {
            let line = marker_number(&part.bytes);
            return Ok(Answer::Refused {
                refusal: Refusal::SecondLine { line },
            });
        }
        rehearse_events(alloc, fitted, self.readback, self.start, &events)
    }
}

/// A law. A rehearsal of a show and a schedule gives one outcome, and some; and where nothing is lacking, that has
/// status 0.
pub fn rehearse_law()
    ensures { RehearseLaw }
{
    curve_law();
    schedule_law();
}

/// Runs `rehearse` (docs/COMMANDS.md, `rehearse`) at a depth of 0 to 8, with starts or without, with read-back or
/// without: what the drones hold after the events of a schedule, where the upload is done then. Else the first thing
/// that is wrong with the show, with the schedule or with how the upload ended. Returns the status.
pub fn rehearse<S: Source, K: Sink>(
    alloc: Global,
    depth: Depth,
    start: bool,
    readback: bool,
    source: &mut S,
    sink: &mut K,
) -> u8
    ensures { Does (rehearse_verb depth start readback)
        (during S.told K.written K.faults source.old source.new sink.old sink.new) result }
{
    rehearse_law();
    run_two(
        alloc,
        &Rehearsal {
            depth,
            start,
            readback,
        },
        source,
        sink,
    )
}
