//! `drill`: the numbers of the drill's show.
ghost use Rattle.std.specs.Prelude.{◌≡◌, ◌≤◌, ◌*◌, ◌-◌, ◌/◌, ℕ, length, IfOk};
ghost use Rattle.choreo_show.specs.Plain.{PlainShow};
ghost use Rattle.drill_show.specs.Drill.{drill_text};
ghost use Rattle.show_plan.specs.Fitting.{IsFitted, IsValidFitted};
ghost use Rattle.show_judge.specs.Answers.{AnswersText, IsSaid, outcome_of};
ghost use Rattle.show_judge.specs.Input.{IsWithin};
ghost use Rattle.show_judge.specs.Outcome.{IsOutcomeOf, IsSafe};
ghost use Rattle.show_judge.specs.Verb.{during, outcome};
ghost use Rattle.whole_numbers.specs.Limits.{most_drones, most_text};
ghost use Rattle.show_looks.specs.Drilled.{drill_of, drill_verb};
ghost use Rattle.show_judge.specs.Shows.{cut_of, nodes_of};
ghost use Rattle.show_looks.specs.Reports.{report_of};
ghost use Rattle.show_judge.specs.Runs.{Does};

use crate::numbers::{packets, sizes, total};
use byte_streams::status::NO_MEMORY;
use byte_streams::{Sink, Source, SureSource};
use choreo_reader::{Name, show_law};
use drill_show::{drill_line, drill_text};
use show_judge::{
    Accepted, Answer, Failure, Judged, Output, Text, Ways, accept, read_show_text, respond,
};
use std::alloc::{AllocError, Global};
use whole_numbers::Depth;

fn drones_in(names: &[Name]) -> u8
    requires { length names.now ≤ most_drones }
    ensures { result ≡ length names.now }
{
    names.len() as u8
}

fn pairs_of(drones: u8) -> u16
    requires some { 1 ≤ drones }
    requires few { drones ≤ most_drones }
    ensures { result ≡ drones * (drones - 1) / 2 }
{
    let drones = u16::from(drones);
    drones * (drones - 1) / 2
}

fn answer_accepted(alloc: Global, accepted: &Accepted) -> Result<Answer, AllocError>
    requires { IsValidFitted accepted.now.fitted }
    ensures said { IfOk result IsSaid }
    ensures line { (s : PlainShow) (depth : ℕ) → IsFitted accepted.now.fitted s → accepted.now.nodes ≡ nodes_of s depth
        → IfOk result (λ a. outcome_of a ≡ outcome 0 (drill_of (report_of s depth))) }
{
    let fitted = &accepted.fitted;
    let drones = drones_in(fitted.names.as_slice());
    let bytes = sizes(alloc, fitted.sent.as_slice())?;
    let packets = packets(alloc, bytes.as_slice())?;
    let line = drill_line(
        drones,
        fitted.cues,
        pairs_of(drones),
        total(bytes.as_slice()),
        total(packets.as_slice()),
        accepted.nodes,
    );
    Ok(Answer::Done {
        output: Output::Line { line },
    })
}

fn answer_text(alloc: Global, drones: u8, depth: Depth, text: &Text) -> Result<Answer, AllocError>
    requires within { IsWithin most_text text.now }
    ensures { AnswersText (drill_verb drones depth) text.now result }
{
    let ways = Ways {
        reads: false,
        has_second: false,
        by_frames: false,
        depth: Some(depth),
    };
    match accept(alloc, &ways, depth, text)? {
        Judged::Accepted { accepted } => answer_accepted(alloc, &accepted),
        Judged::Refused { refusal } => Ok(Answer::Refused { refusal }),
    }
}

// What `drill` ends with for the show of this many drones, which is read from memory as any other.
fn answer_drill(alloc: Global, drones: u8, depth: Depth) -> Result<Answer, Failure>
    requires some { 1 ≤ drones }
    requires few { drones ≤ most_drones }
    ensures gives { IfOk result
        (λ a. IsOutcomeOf (drill_verb drones depth) (cut_of (drill_text drones)) (outcome_of a)) }
    ensures safe { IfOk result (λ a. (outcome_of a).status ≡ 0
        → IsSafe (drill_verb drones depth) (cut_of (drill_text drones)) (outcome_of a)) }
    ensures said { IfOk result IsSaid }
    ensures read { result ≡ Err Failure.Read → ⊥ }
{
    let mut source = SureSource::make(drill_text(alloc, drones)?);
    let text = read_show_text(alloc, &mut source)?;
    Ok(answer_text(alloc, drones, depth, &text)?)
}

/// Runs `drill` (docs/COMMANDS.md): the numbers of the show of this many drones, 1 to 32, or the first reason why it is
/// refused. It reads nothing.
pub fn drill<S: Source, K: Sink>(
    alloc: Global,
    drones: u8,
    depth: Depth,
    source: &mut S,
    sink: &mut K,
) -> u8
    requires some { 1 ≤ drones }
    requires few { drones ≤ most_drones }
    ensures { Does (drill_verb drones depth) (during S.told K.written K.faults source.old source.new sink.old sink.new)
        result }
{
    show_law();
    let _ = &source;
    let answer = answer_drill(alloc, drones, depth);
    respond(sink, &answer)
}
