//! A command that reads a show's text and a second one, and answers.
ghost use Rattle.std.specs.Prelude.{◌≡◌, ◌≤◌, ℕ, IfOk, ◌<◌, false, true, Some};
ghost use Rattle.choreo_show.specs.Plain.{PlainShow};
ghost use Rattle.byte_streams.specs.Held.{text_limit};
ghost use Rattle.cue_grid.specs.declared.grid.Grid.{Grid};
ghost use Rattle.show_plan.specs.Fitting.{IsFitted, IsValidFitted};
ghost use Rattle.show_plan.specs.Landing.{Lands};
ghost use Rattle.show_judge.specs.Answers.{AnswersInput, AnswersTwo, IsSaid, outcome_of};
ghost use Rattle.show_judge.specs.Input.{IsReadBoth, IsText, IsUnmarked, IsWithin};
ghost use Rattle.show_judge.specs.Runs.{Does};
ghost use Rattle.whole_numbers.specs.Limits.{most_text};
ghost use Rattle.show_judge.specs.Shows.{Cut};
ghost use Rattle.show_judge.specs.Verb.{IsTwo, Verb, during};
ghost use Rattle.show_judge.specs.Outcome.{IsVerb};
ghost use Rattle.show_judge.specs.TextsRead.{TwoTextsRead};

use crate::ends::{Answer, Failure, respond};
use crate::input::{Input, Text, read_two};
use crate::judging::{Accepted, Judged, accept};
use crate::ways::Ways;
use byte_streams::{Sink, Source};
use choreo_reader::show_law;
use refusals::Refusal;
use show_plan::Fitted;
use std::alloc::{AllocError, Global};
use whole_numbers::Depth;

/// A command that reads a show's text and a second one, and answers.
pub trait TwoTexts {
    /// The command.
    ghost verb: { Self → Verb };

    /// The most bytes of the second text.
    ghost most: { Self → ℕ };

    /// The depth at which it searches.
    ghost searched: { Self → ℕ };

    /// The depth.
    fn depth(&self) -> Depth
        ensures value { result ≡ searched self.now };

    /// The most bytes of the second text.
    fn limit(&self) -> usize
        ensures value { result ≡ most self.now }
        ensures most { result ≤ text_limit };

    /// What it gives for a show that is accepted, and a second text.
    fn answer_second(
        &self,
        alloc: Global,
        fitted: &Fitted,
        second: &Text,
    ) -> Result<Answer, AllocError>
        requires valid { IsValidFitted fitted.now }
        requires lands { (g : Grid) × Lands g fitted.now.settings fitted.now.sent }
        requires within { IsWithin (most self.now) second.now }
        ensures gives { (s : PlainShow) (cut : Cut) → IsFitted fitted.now s
            → IsText (most self.now) second.now cut.second cut.is_second_marked
            → IfOk result (λ a. (verb self.now).gives s cut (outcome_of a)) }
        ensures whole { IfOk result (λ a. (outcome_of a).status ≡ 0 → IsUnmarked second.now) }
        ensures said { IfOk result IsSaid };
}

fn answer_two<V: TwoTexts>(alloc: Global, verb: &V, input: &Input) -> Result<Answer, AllocError>
    requires verb { IsVerb (V.verb verb.now) }
    requires two { IsTwo (Some (V.searched verb.now)) (V.most verb.now) (V.verb verb.now) }
    requires show { IsWithin most_text input.now.show }
    requires second { IsWithin (V.most verb.now) input.now.second }
    ensures { AnswersTwo (V.verb verb.now) (V.most verb.now) input.now result }
{
    let depth = verb.depth();
    let ways = Ways {
        reads: true,
        has_second: true,
        by_frames: false,
        depth: Some(depth),
    };
    match accept(alloc, &ways, depth, &input.show)? {
        Judged::Accepted { accepted } => verb.answer_second(alloc, &accepted.fitted, &input.second),
        Judged::Refused { refusal } => Ok(Answer::Refused { refusal }),
    }
}

fn answer_input<V: TwoTexts, S: Source>(
    alloc: Global,
    verb: &V,
    source: &mut S,
) -> Result<Answer, Failure>
    requires verb { IsVerb (V.verb verb.now) }
    requires two { IsTwo (Some (V.searched verb.now)) (V.most verb.now) (V.verb verb.now) }
    ensures reads { TwoTextsRead (λ left left_after. AnswersInput (V.verb verb.now) left left_after result)
        (λ _ left left_after. IsReadBoth (V.most verb.now) left left_after) (S.told source.old) (S.told source.new)
        result }
    ensures said { IfOk result IsSaid }
{
    let limit = verb.limit();
    let input = read_two(alloc, source, limit)?;
    Ok(answer_two(alloc, verb, &input)?)
}

/// Runs a command of two texts, or says the first reason why the show is refused.
pub fn run_two<V: TwoTexts, S: Source, K: Sink>(
    alloc: Global,
    verb: &V,
    source: &mut S,
    sink: &mut K,
) -> u8
    requires verb { IsVerb (V.verb verb.now) }
    requires two { IsTwo (Some (V.searched verb.now)) (V.most verb.now) (V.verb verb.now) }
    ensures { Does (V.verb verb.now) (during S.told K.written K.faults source.old source.new sink.old sink.new) result }
{
    show_law();
    let answer = answer_input(alloc, verb, source);
    respond(sink, &answer)
}
