//! `boxes`: whether the drones of a show keep out of boxes and in volumes.
ghost use Rattle.std.specs.Prelude.{◌≡◌, ◌<◌, ◌≤◌, length, All, IfOk};
ghost use Rattle.choreo_show.specs.Plain.{PlainShow};
ghost use Rattle.whole_numbers.specs.Limits.{most_text};
ghost use Rattle.show_judge.specs.Shows.{Cut};
ghost use Rattle.keepout_boxes.specs.Kept.{IsNear, KeepClear, most_regions};
ghost use Rattle.keepout_boxes.specs.Regions.{regions_of};
ghost use Rattle.show_plan.specs.Fitting.{IsFitted, IsValidFitted};
ghost use Rattle.show_judge.specs.Answers.{AnswersInput, AnswersTwo, IsSaid, outcome_of};
ghost use Rattle.show_judge.specs.Input.{IsReadBoth, IsText, IsUnmarked, IsWithin};
ghost use Rattle.show_studies.specs.Boxes.{BoxesLaw, KeepsRegions, RegionsGive, aside_of, boxes_verb, upwards_of};
ghost use Rattle.show_judge.specs.Refused.{faulty_line, second_refusal};
ghost use Rattle.show_judge.specs.Runs.{Does};
ghost use Rattle.show_judge.specs.Verb.{during};
ghost use Rattle.show_studies.specs.Steps.{EndsRegions};
ghost use Rattle.show_judge.specs.TextsRead.{TwoTextsRead};

use byte_streams::{Sink, Source};
use choreo_reader::show_law;
use fleet_curves::Curves;
use keepout_boxes::{Judged, Region, RegionFault, judge, kept_line, read_regions, sent_law};
use refusals::Refusal;
use show_judge::{
    Answer, Failure, Input, Output, Planned, Text, Ways, fit_text, marker_number, name_at,
    read_two, respond,
};
use show_plan::Fitted;
use std::alloc::{AllocError, Global};
use traj_codec::join_law;
use whole_numbers::{Depth, MOST_TEXT};

fn judge_regions(
    alloc: Global,
    fitted: &Fitted,
    depth: Depth,
    regions: &Vec<Region>,
) -> Result<Answer, AllocError>
    requires valid { IsValidFitted fitted.now }
    requires few { length regions.now.items ≤ most_regions }
    requires near { All IsNear regions.now.items }
    ensures gives { (s : PlainShow) → IsFitted fitted.now s
        → IfOk result (λ a. EndsRegions s depth regions.now.items (outcome_of a)) }
    ensures clear { IfOk result (λ a. (outcome_of a).status ≡ 0
        → KeepClear (aside_of fitted.now.settings) (upwards_of fitted.now.settings) regions.now.items fitted.now.sent) }
    ensures said { IfOk result IsSaid }
{
    sent_law();
    let settings = fitted.settings;
    let curves = Curves::of_slice(alloc, fitted.trajs.as_slice())?;
    match judge(
        &curves,
        settings.r + settings.stray,
        settings.h + settings.stray,
        depth,
        regions,
    ) {
        Judged::Kept => Ok(Answer::Done {
            output: Output::Line {
                line: kept_line(regions.len() as u8),
            },
        }),
        Judged::Enters {
            region,
            drone,
            cue,
            index,
        } => Ok(Answer::Refused {
            refusal: Refusal::Enters {
                region,
                drone: name_at(fitted.names.as_slice(), drone),
                cue,
                index,
                depth,
            },
        }),
    }
}

fn judge_second(
    alloc: Global,
    fitted: &Fitted,
    depth: Depth,
    second: &Text,
) -> Result<Answer, AllocError>
    requires valid { IsValidFitted fitted.now }
    requires within { IsWithin most_text second.now }
    ensures gives { (s : PlainShow) (cut : Cut) → IsFitted fitted.now s
        → IsText most_text second.now cut.second cut.is_second_marked
        → IfOk result (λ a. RegionsGive (second_refusal most_text (faulty_line (regions_of cut.second)) cut) s depth cut
        (outcome_of a)) }
    ensures promised { (s : PlainShow) (cut : Cut) → IsFitted fitted.now s
        → IsText most_text second.now cut.second cut.is_second_marked
        → IfOk result (λ a. (outcome_of a).status ≡ 0 → KeepsRegions s cut) }
    ensures whole { IfOk result (λ a. (outcome_of a).status ≡ 0 → IsUnmarked second.now) }
    ensures said { IfOk result IsSaid }
{
    let Text::Whole { part } = second else {
        return Ok(Answer::Refused {
            refusal: Refusal::SecondTooLarge,
        });
    };
    let regions = match read_regions(alloc, &part.bytes) {
        Ok(regions) => regions,
        Err(RegionFault::Line { line }) => {
            return Ok(Answer::Refused {
                refusal: Refusal::SecondLine { line },
            });
        }
        Err(RegionFault::Memory) => return Err(AllocError),
    };
    if part.marker {
        let line = marker_number(&part.bytes);
        return Ok(Answer::Refused {
            refusal: Refusal::SecondLine { line },
        });
    }
    judge_regions(alloc, fitted, depth, &regions)
}

fn answer_two(alloc: Global, depth: Depth, input: &Input) -> Result<Answer, AllocError>
    requires show { IsWithin most_text input.now.show }
    requires second { IsWithin most_text input.now.second }
    ensures { AnswersTwo (boxes_verb depth) most_text input.now result }
{
    let ways = Ways {
        reads: true,
        has_second: true,
        by_frames: false,
        depth: None,
    };
    match fit_text(alloc, &ways, &input.show)? {
        Planned::Fits { fitted } => judge_second(alloc, &fitted, depth, &input.second),
        Planned::Refused { refusal } => Ok(Answer::Refused { refusal }),
    }
}

fn answer_input<S: Source>(alloc: Global, depth: Depth, source: &mut S) -> Result<Answer, Failure>
    ensures reads { TwoTextsRead (λ left left_after. AnswersInput (boxes_verb depth) left left_after result)
        (λ _ left left_after. IsReadBoth most_text left left_after) (S.told source.old) (S.told source.new) result }
    ensures said { IfOk result IsSaid }
{
    let input = read_two(alloc, source, MOST_TEXT)?;
    Ok(answer_two(alloc, depth, &input)?)
}

/// A law. A text of regions gives one outcome for a show, and some; and where nothing is lacking, that has status 0.
#[tactic(auto, using(crate::proofs::BoxesLemmas::boxes_laws))]
pub fn boxes_law()
    ensures { BoxesLaw }
{}

/// Runs `boxes` (docs/COMMANDS.md): the number of regions, where each drone keeps to each of them throughout the show;
/// or the first thing that is wrong with either text, or the first part of a cue in which a drone isn't kept.
pub fn boxes<S: Source, K: Sink>(alloc: Global, depth: Depth, source: &mut S, sink: &mut K) -> u8
    ensures { Does (boxes_verb depth) (during S.told K.written K.faults source.old source.new sink.old sink.new)
        result }
{
    show_law();
    boxes_law();
    let answer = answer_input(alloc, depth, source);
    respond(sink, &answer)
}
