//! `play`: the positions of a show in whole numbers.
ghost use Rattle.std.specs.Prelude.{◌≤◌, ℕ, List, map, IfOk};
ghost use Rattle.choreo_show.specs.Name.{Name};
ghost use Rattle.byte_streams.specs.Told.{Gives, IsInput};
ghost use Rattle.integer_player.specs.Played.{play_text};
ghost use Rattle.show_plan.specs.Fitting.{IsValidFitted};
ghost use Rattle.show_judge.specs.Answers.{IsSoundJudged, JudgesInput, Wrote};
ghost use Rattle.show_judge.specs.Runs.{Does, Runs, StopsAtMarker, TakesLittle};
ghost use Rattle.show_judge.specs.Verb.{during, run_on, show_ways};
ghost use Rattle.show_looks.specs.Play.{play_verb};
ghost use Rattle.show_judge.specs.TextsRead.{OneTextRead};

use byte_streams::status::{DONE, WRITE_FAILED};
use byte_streams::{Failed, Sink, Source};
use choreo_reader::show_law;
use show_judge::{Failure, Judged, Ways, accept, fail, read_show_text, refuse};
use show_plan::{Fitted, uploadable_law};
use std::alloc::Global;
use traj_codec::join_law;
use whole_numbers::Depth;

fn judge_input<S: Source>(alloc: Global, depth: Depth, source: &mut S) -> Result<Judged, Failure>
    ensures reads { OneTextRead (λ left left_after. JudgesInput (show_ways depth) depth left left_after result)
        (S.told source.old) (S.told source.new) result }
    ensures sound { IfOk result IsSoundJudged }
{
    let text = read_show_text(alloc, source)?;
    let ways = Ways {
        reads: true,
        has_second: false,
        by_frames: false,
        depth: Some(depth),
    };
    Ok(accept(alloc, &ways, depth, &text)?)
}

fn write_rows<K: Sink>(fitted: &Fitted, step: u16, sink: &mut K) -> u8
    requires valid { IsValidFitted fitted.now }
    requires step { 1 ≤ step }
    ensures { Wrote 0 (play_text fitted.now.duration step (map (λ (name : Name). name.items) fitted.now.names)
        fitted.now.sent)
        (K.written sink.old) (K.written sink.new) (K.faults sink.old) (K.faults sink.new) result }
{
    join_law();
    uploadable_law(fitted);
    let names = fitted.names.as_slice();
    let sent = fitted.sent.as_slice();
    match integer_player::play(names, sent, fitted.duration, step, sink) {
        Ok(()) => DONE,
        Err(Failed) => WRITE_FAILED,
    }
}

fn carry<S: Source, K: Sink>(
    alloc: Global,
    depth: Depth,
    step: u16,
    source: &mut S,
    sink: &mut K,
) -> u8
    requires step { 1 ≤ step }
    ensures gives { Gives (S.told source.old) (S.told source.new) }
    ensures runs { (all : List ℕ) → IsInput (S.told source.new) all
        → Runs (play_verb depth step)
        (run_on (during S.told K.written K.faults source.old source.new sink.old sink.new) all) result }
    ensures few { (all : List ℕ) → IsInput (S.told source.new) all
        → TakesLittle (play_verb depth step)
        (run_on (during S.told K.written K.faults source.old source.new sink.old sink.new) all) }
    ensures marker { (all : List ℕ) → IsInput (S.told source.new) all
        → StopsAtMarker (play_verb depth step)
        (run_on (during S.told K.written K.faults source.old source.new sink.old sink.new) all) result }
{
    show_law();
    match judge_input(alloc, depth, source) {
        Ok(Judged::Accepted { accepted }) => write_rows(&accepted.fitted, step, sink),
        Ok(Judged::Refused { refusal }) => refuse(sink, &refusal),
        Err(failure) => fail(sink, failure),
    }
}

/// Runs `play` (docs/COMMANDS.md): the rows of the show's instants, every `step` milliseconds, 1 to 60,000; or the
/// first reason why the show is refused. All memory is taken before the first row.
pub fn play<S: Source, K: Sink>(
    alloc: Global,
    depth: Depth,
    step: u16,
    source: &mut S,
    sink: &mut K,
) -> u8
    requires step { 1 ≤ step }
    ensures { Does (play_verb depth step) (during S.told K.written K.faults source.old source.new sink.old sink.new)
        result }
{
    show_law();
    carry(alloc, depth, step, source, sink)
}
