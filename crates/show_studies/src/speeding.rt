//! `speed`: how fast the drones of a show are at most.
ghost use Rattle.std.specs.Prelude.{◌≡◌, ◌≤◌, ◌++◌, ℕ, pos, length, None, All, IfOk, IfSome};
ghost use Rattle.choreo_show.specs.Plain.{PlainShow};
ghost use Rattle.byte_streams.specs.Words.{IsWord};
ghost use Rattle.show_plan.specs.Fitting.{IsFitted, IsSendable, IsValidFitted, StandsAsWord};
ghost use Rattle.speed_bound.specs.Speed.{KeepsSpeed, speed};
ghost use Rattle.traj_codec.specs.Spelling.{HasDuration};
ghost use Rattle.traj_codec.specs.declared.traj.Traj.{Traj};
ghost use Rattle.cue_grid.specs.Cues.{grid_of};
ghost use Rattle.show_plan.specs.Separation.{FlyApart};
ghost use Rattle.show_plan.specs.Uploading.{Uploads};
ghost use Rattle.show_judge.specs.Answers.{IsSaid, outcome_of};
ghost use Rattle.show_judge.specs.Outcome.{ShowGives};
ghost use Rattle.show_studies.specs.Speeds.{KeepsBounds, above, first_too_fast, speed_of_drone, speed_text, speed_verb};
ghost use Rattle.show_studies.specs.Speeds.{refused_or, too_fast_by, too_fast_of};
ghost use Rattle.show_judge.specs.Refused.{IsOfInput, blocked_by};
ghost use Rattle.show_judge.specs.Runs.{Does};
ghost use Rattle.show_judge.specs.Shows.{Cut, sent_of};
ghost use Rattle.show_judge.specs.Verb.{during};

use byte_streams::{Lines, Sink, Source};
use choreo_reader::Name;
use choreo_show::copy_of;
use refusals::Refusal;
use show_judge::{Answer, AnyText, Output, Ways, run_any};
use show_plan::{Fitted, uploadable_law};
use speed_bound::{bound, put_speeds};
use std::alloc::{AllocError, Global};
use traj_codec::Traj;
use whole_numbers::Depth;

fn above(limit: Option<u32>, name: &Name, axis: u8, speed: i64) -> Option<Refusal>
    requires name { IsWord name.now.items }
    requires axis { axis ≤ 2 }
    ensures above { (v : ℕ) → speed ≡ pos v → result ≡ above limit name.now axis v }
    ensures said { IfSome result IsOfInput }
{
    let most = limit?;
    if speed <= i64::from(most) {
        return None;
    }
    Some(Refusal::TooFast {
        drone: copy_of(name),
        axis,
        speed,
    })
}

fn too_fast_of(limit: Option<u32>, name: &Name, x: i64, y: i64, z: i64) -> Option<Refusal>
    requires name { IsWord name.now.items }
    ensures first { (a b c : ℕ) → x ≡ pos a → y ≡ pos b → z ≡ pos c → result ≡ too_fast_of limit name.now a b c }
    ensures said { IfSome result IsOfInput }
{
    if let Some(refusal) = above(limit, name, 0, x) {
        return Some(refusal);
    }
    if let Some(refusal) = above(limit, name, 1, y) {
        return Some(refusal);
    }
    above(limit, name, 2, z)
}

// Adds the line of a drone, or says why its bounds are refused.
fn put_bounds(
    text: &mut Lines,
    name: &Name,
    t: &Traj,
    depth: Depth,
    limit: Option<u32>,
) -> Result<Option<Refusal>, AllocError>
    requires name { IsWord name.now.items }
    requires some { 1 ≤ length t.now.segments }
    requires last { All HasDuration t.now.segments }
    ensures refusal { IfOk result (λ r. r ≡ too_fast_by limit depth t.now name.now) }
    ensures line { IfOk result (λ r. r ≡ None → text.new ≡ text.old ++ speed_of_drone depth t.now name.now) }
    ensures keeps { (axis : ℕ) → axis ≤ 2 → KeepsSpeed t.now axis (speed depth t.now axis) }
    ensures said { IfOk result (λ r. IfSome r IsOfInput) }
{
    let [x, y, z] = bound(t, depth);
    if let Some(refusal) = too_fast_of(limit, name, x, y, z) {
        return Ok(Some(refusal));
    }
    put_speeds(text, name.as_slice(), x, y, z)?;
    Ok(None)
}

// The lines of all drones, or the first bound that is above the limit.
fn answer_drones(
    alloc: Global,
    names: &[Name],
    sent: &[Traj],
    depth: Depth,
    limit: Option<u32>,
) -> Result<Answer, AllocError>
    requires counted { length sent.now ≡ length names.now }
    requires words { All StandsAsWord names.now }
    requires some { All (λ (t : Traj). 1 ≤ length t.segments) sent.now }
    requires sendable { All IsSendable sent.now }
    ensures gives { IfOk result (λ a. outcome_of a
        ≡ refused_or (first_too_fast limit depth sent.now names.now) (speed_text depth sent.now names.now)) }
    ensures keeps { IfOk result (λ a. (outcome_of a).status ≡ 0 → All (KeepsBounds limit depth) sent.now) }
    ensures said { IfOk result IsSaid }
{
    let mut text = Lines::make(alloc);
    for d in 0..sent.len() {
        match put_bounds(&mut text, &names[d], &sent[d], depth, limit)? {
            None => {}
            Some(refusal) => return Ok(Answer::Refused { refusal }),
        }
    }
    Ok(Answer::Done {
        output: Output::Text { lines: text },
    })
}

/// `speed` at a depth, with a limit or without.
#[derive(Clone, Copy)]
pub struct SpeedVerb {
    pub depth: Depth,
    pub limit: Option<u32>,
}

impl AnyText for SpeedVerb {
    ghost verb = { λ c. speed_verb c.depth c.limit };

    fn ways(&self) -> Ways {
        Ways {
            reads: true,
            has_second: false,
            by_frames: false,
            depth: None,
        }
    }

    fn answer_fitted(&self, alloc: Global, fitted: &Fitted) -> Result<Answer, AllocError> {
        uploadable_law(fitted);
        answer_drones(
            alloc,
            fitted.names.as_slice(),
            fitted.sent.as_slice(),
            self.depth,
            self.limit,
        )
    }
}

/// Runs `speed` (docs/COMMANDS.md): how fast each drone is at most on x, y and z, in micrometres per second; or the
/// first reason why the show is refused, or the first drone and axis whose bound is above the limit.
pub fn speed<S: Source, K: Sink>(
    alloc: Global,
    depth: Depth,
    limit: Option<u32>,
    source: &mut S,
    sink: &mut K,
) -> u8
    ensures { Does (speed_verb depth limit) (during S.told K.written K.faults source.old source.new sink.old sink.new)
        result }
{
    run_any(alloc, &SpeedVerb { depth, limit }, source, sink)
}
