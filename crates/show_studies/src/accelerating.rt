//! `dynamics`: how fast the speeds of a show's drones change at most, and where they jump.
ghost use Rattle.std.specs.Prelude.{◌≡◌, ◌≤◌, length, None, All, IfNone, IfOk, IfSome};
ghost use Rattle.choreo_show.specs.Plain.{PlainShow};
ghost use Rattle.dynamics_bound.specs.Excesses.{IsWithinLimits};
ghost use Rattle.dynamics_bound.specs.Motions.{KeepsMotion};
ghost use Rattle.byte_streams.specs.Words.{IsWord};
ghost use Rattle.whole_numbers.specs.Limits.{most_cues};
ghost use Rattle.show_plan.specs.Fitting.{IsFitted, IsSendable, IsValidFitted, StandsAsWord};
ghost use Rattle.traj_codec.specs.Positions.{durations};
ghost use Rattle.show_judge.specs.Answers.{IsSaid, outcome_of};
ghost use Rattle.show_judge.specs.Refused.{IsOfInput};
ghost use Rattle.show_judge.specs.Runs.{Does};
ghost use Rattle.show_judge.specs.Shows.{Cut};
ghost use Rattle.show_judge.specs.Verb.{during};
ghost use Rattle.show_studies.specs.Dynamics.{dynamics_text, dynamics_verb, excess_by, first_excess_of, in_micrometres};
ghost use Rattle.show_studies.specs.Dynamics.{limits_of, refusal_as, times_of};
ghost use Rattle.show_studies.specs.Speeds.{refused_or};

use byte_streams::{Lines, Sink, Source};
use choreo_reader::Name;
use choreo_show::copy_of;
use dynamics_bound::{
    Extremes, Kind, Limits, cue_of, first_above, motion_of, put_extremes, put_motion,
};
use refusals::Refusal;
use show_judge::{Answer, AnyText, Output, Ways, run_any};
use show_plan::{Fitted, uploadable_law};
use std::alloc::{AllocError, Global};
use traj_codec::{Segment, Traj};
use whole_numbers::Depth;

fn refusal_as(kind: Kind, drone: Name, cue: u16, axis: u8, value: i64) -> Refusal
    requires name { IsWord drone.items }
    requires axis { axis ≤ 2 }
    ensures refusal { result ≡ refusal_as kind drone cue axis value }
    ensures said { IsOfInput result }
{
    match kind {
        Kind::Acceleration => Refusal::Accelerates {
            drone,
            cue,
            axis,
            acceleration: value,
        },
        Kind::Jump => Refusal::Jumps {
            drone,
            cue,
            axis,
            speed: value,
        },
    }
}

fn excess_by(
    t: &Traj,
    name: &Name,
    cues: &[Segment],
    depth: Depth,
    limits: Limits,
) -> Option<Refusal>
    requires sendable { IsSendable t.now }
    requires name { IsWord name.now.items }
    requires cues { length cues.now ≤ most_cues }
    ensures excess { result ≡ excess_by limits depth (durations cues.now) t.now name.now }
    ensures within { IfNone result (IsWithinLimits limits depth t.now) }
    ensures said { IfSome result IsOfInput }
{
    let excess = first_above(t, limits, depth)?;
    let cue = cue_of(cues, t, excess.segment);
    Some(refusal_as(excess.kind, copy_of(name), cue, excess.axis, excess.value))
}

// The lines of all drones and the last one, or the first number that is above its limit.
fn answer_drones(
    alloc: Global,
    names: &[Name],
    sent: &[Traj],
    cues: &[Segment],
    depth: Depth,
    limits: Limits,
) -> Result<Answer, AllocError>
    requires counted { length sent.now ≡ length names.now }
    requires words { All StandsAsWord names.now }
    requires sendable { All IsSendable sent.now }
    requires cues { length cues.now ≤ most_cues }
    ensures gives { IfOk result (λ a. outcome_of a ≡
        refused_or (first_excess_of limits depth (durations cues.now) sent.now names.now)
        (dynamics_text depth (durations cues.now) sent.now names.now)) }
    ensures keeps { IfOk result (λ a. (outcome_of a).status ≡ 0 → All (KeepsMotion limits depth) sent.now) }
    ensures said { IfOk result IsSaid }
{
    let mut text = Lines::make(alloc);
    let mut most = Extremes::nothing();
    for d in 0..sent.len() {
        let t = &sent[d];
        if let Some(refusal) = excess_by(t, &names[d], cues, depth, limits) {
            return Ok(Answer::Refused { refusal });
        }
        let motion = motion_of(t, cues, depth);
        put_motion(&mut text, names[d].as_slice(), motion)?;
        most = most.greater(motion.most);
    }
    put_extremes(&mut text, most)?;
    Ok(Answer::Done {
        output: Output::Text { lines: text },
    })
}

fn in_micrometres(limit: Option<u32>) -> Option<u64>
    ensures { result ≡ in_micrometres limit }
{
    let millimetres = limit?;
    Some(u64::from(millimetres) * 1000)
}

// The limits, in micrometres, of those that the words name in millimetres.
fn limits_of(accel: Option<u32>, jump: Option<u32>) -> Limits
    ensures { result ≡ limits_of accel jump }
{
    Limits {
        acceleration: in_micrometres(accel),
        jump: in_micrometres(jump),
    }
}

// The segments of a drone of a show, one a cue, which last as long as the cues.
fn cues_of(fitted: &Fitted) -> &[Segment]
    requires { IsValidFitted fitted.now }
    ensures few { length result.now ≤ most_cues }
    ensures times { (s : PlainShow) → IsFitted fitted.now s → durations result.now ≡ times_of s }
{
    fitted.trajs.as_slice()[0].segments.as_slice()
}

/// `dynamics` at a depth, with limits or without.
#[derive(Clone, Copy)]
pub struct DynamicsVerb {
    pub depth: Depth,
    pub accel: Option<u32>,
    pub jump: Option<u32>,
}

impl AnyText for DynamicsVerb {
    ghost verb = { λ c. dynamics_verb c.depth c.accel c.jump };

    fn ways(&self) -> Ways {
        Ways {
            reads: true,
            has_second: false,
            by_frames: false,
            depth: None,
        }
    }

    fn answer_fitted(&self, alloc: Global, fitted: &Fitted) -> Result<Answer, AllocError> {
        uploadable_law(fitted);
        answer_drones(
            alloc,
            fitted.names.as_slice(),
            fitted.sent.as_slice(),
            cues_of(fitted),
            self.depth,
            limits_of(self.accel, self.jump),
        )
    }
}

/// Runs `dynamics` (docs/COMMANDS.md): how fast each drone's speed changes at most on x, y and z, in micrometres per
/// second squared, and how much it jumps at most, in micrometres per second, with the cues; or the first reason why the
/// show is refused, or the first of these that is above its limit, which are in millimetres.
pub fn dynamics<S: Source, K: Sink>(
    alloc: Global,
    depth: Depth,
    accel: Option<u32>,
    jump: Option<u32>,
    source: &mut S,
    sink: &mut K,
) -> u8
    ensures { Does (dynamics_verb depth accel jump)
        (during S.told K.written K.faults source.old source.new sink.old sink.new) result }
{
    run_any(alloc, &DynamicsVerb { depth, accel, jump }, source, sink)
}
