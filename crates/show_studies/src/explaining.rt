//! `explain`: why a show is refused, and where its drones come close.
ghost use Rattle.std.specs.Prelude.{◌≡◌, length, None, IfOk, MatchOption};
ghost use Rattle.choreo_show.specs.Plain.{PlainShow};
ghost use Rattle.show_plan.specs.Fitting.{IsFitted, IsValidFitted};
ghost use Rattle.show_plan.specs.Separation.{FlyApart, blocked_part};
ghost use Rattle.cue_grid.specs.Cues.{grid_of};
ghost use Rattle.show_plan.specs.Uploading.{Uploads};
ghost use Rattle.show_judge.specs.Answers.{IsSaid, outcome_of};
ghost use Rattle.show_judge.specs.Outcome.{ShowGives};
ghost use Rattle.show_judge.specs.Refused.{blocked_by};
ghost use Rattle.show_judge.specs.Runs.{Does};
ghost use Rattle.show_judge.specs.Shows.{Cut, sent_of};
ghost use Rattle.show_judge.specs.Verb.{during};
ghost use Rattle.show_studies.specs.Explained.{explain_verb};
ghost use Rattle.touch_witness.specs.Sites.{IsFirstTouch, NoTouch};
ghost use Rattle.show_studies.specs.Steps.{IsBlockedAmong, IsClosestAmong, IsFound, IsTouchAmong};

use crate::findings::{Findings, findings_text};
use crate::study::Study;
use byte_streams::{Sink, Source};
use show_judge::{Answer, AnyText, Output, Ways, run_any};
use show_plan::{BlockedPart, Fitted, SeparationFault, count_nodes};
use std::alloc::{AllocError, Global};
use touch_witness::{Axes, Touch, closest_of, first_touch_of};
use whole_numbers::{Depth, Fine};

fn blocked_of(
    alloc: Global,
    fitted: &Fitted,
    depth: Depth,
) -> Result<Option<BlockedPart>, AllocError>
    requires valid { IsValidFitted fitted.now }
    ensures is { IfOk result (λ blocked. blocked ≡ blocked_part fitted.now.settings depth fitted.now.trajs) }
    ensures apart { IfOk result (λ blocked. blocked ≡ None → FlyApart fitted.now.settings fitted.now.sent) }
    ensures by_cue { IfOk result (λ blocked. blocked ≡ None → FlyApart fitted.now.settings fitted.now.trajs) }
    ensures among { IfOk result (λ blocked. IsBlockedAmong (length fitted.now.names) blocked) }
{
    match count_nodes(alloc, fitted, depth) {
        Ok(_) => Ok(None),
        Err(SeparationFault::Blocked { part }) => Ok(Some(part)),
        Err(SeparationFault::Memory) => Err(AllocError),
    }
}

// Where two drones touch first. It is looked for where a part is blocked alone: else none do.
fn touch_of(fitted: &Fitted, blocked: Option<BlockedPart>, fine: Fine) -> Option<Touch>
    requires valid { IsValidFitted fitted.now }
    requires apart { blocked ≡ None → FlyApart fitted.now.settings fitted.now.trajs }
    ensures { MatchOption result (NoTouch fitted.now.trajs fitted.now.settings.r fitted.now.settings.h fine)
        (IsFirstTouch fitted.now.trajs fitted.now.settings.r fitted.now.settings.h fine) }
{
    match blocked {
        None => None,
        Some(_) => first_touch_of(
            fitted.trajs.as_slice(),
            Axes {
                r: fitted.settings.r,
                h: fitted.settings.h,
            },
            fine,
        ),
    }
}

fn find(alloc: Global, fitted: &Fitted, depth: Depth, fine: Fine) -> Result<Findings, AllocError>
    requires valid { IsValidFitted fitted.now }
    ensures found { IfOk result (IsFound depth fine fitted.now) }
    ensures blocked { IfOk result (λ found. IsBlockedAmong (length fitted.now.names) found.blocked) }
    ensures closest { IfOk result (λ found. IsClosestAmong (length fitted.now.names) found.closest) }
    ensures touch { IfOk result (λ found. IsTouchAmong (length fitted.now.names) found.touch) }
{
    let blocked = blocked_of(alloc, fitted, depth)?;
    let closest = closest_of(
        fitted.trajs.as_slice(),
        Axes {
            r: fitted.settings.r,
            h: fitted.settings.h,
        },
        fine,
    );
    let touch = touch_of(fitted, blocked, fine);
    Ok(Findings {
        blocked,
        closest,
        touch,
    })
}

impl AnyText for Study {
    ghost verb = { λ c. explain_verb c.depth c.fine c.all };

    fn ways(&self) -> Ways {
        Ways {
            reads: true,
            has_second: false,
            by_frames: false,
            depth: None,
        }
    }

    fn answer_fitted(&self, alloc: Global, fitted: &Fitted) -> Result<Answer, AllocError> {
        let found = find(alloc, fitted, self.depth, self.fine)?;
        let lines = findings_text(alloc, fitted, *self, &found)?;
        Ok(Answer::Done {
            output: Output::Text { lines },
        })
    }
}

/// Runs `explain` (docs/COMMANDS.md): the first part of a cue in which no direction separates two drones, where two
/// drones come closest and where they touch first, among the instants that cut each cue into 2^`fine` parts; or the
/// first other reason why the show is refused. With `all` it names each pair and cue that is blocked, up to 200.
pub fn explain<S: Source, K: Sink>(alloc: Global, study: Study, source: &mut S, sink: &mut K) -> u8
    ensures { Does (explain_verb study.depth study.fine study.all)
        (during S.told K.written K.faults source.old source.new sink.old sink.new) result }
{
    run_any(alloc, &study, source, sink)
}
