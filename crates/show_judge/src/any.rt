//! A command that reads a show's text and answers for what fits.
ghost use Rattle.std.specs.Prelude.{◌≡◌, IfOk};
ghost use Rattle.choreo_show.specs.Plain.{PlainShow};
ghost use Rattle.cue_grid.specs.Cues.{grid_of};
ghost use Rattle.show_plan.specs.Fitting.{IsFitted, IsValidFitted};
ghost use Rattle.show_plan.specs.Separation.{FlyApart};
ghost use Rattle.show_plan.specs.Uploading.{Uploads};
ghost use Rattle.show_judge.specs.Answers.{AnswersInput, AnswersText, IsSaid, outcome_of};
ghost use Rattle.show_judge.specs.Input.{IsWithin};
ghost use Rattle.show_judge.specs.Outcome.{IsVerb, ShowGives};
ghost use Rattle.show_judge.specs.Refused.{blocked_by};
ghost use Rattle.show_judge.specs.Runs.{Does};
ghost use Rattle.whole_numbers.specs.Limits.{most_text};
ghost use Rattle.show_judge.specs.Shows.{Cut, sent_of};
ghost use Rattle.show_judge.specs.Verb.{IsAny, Verb, during};
ghost use Rattle.show_judge.specs.TextsRead.{OneTextRead};

use crate::ends::{Answer, Failure, respond};
use crate::input::{Text, read_show_text};
use crate::judging::{Planned, fit_text};
use crate::ways::Ways;
use byte_streams::{Sink, Source};
use choreo_reader::show_law;
use show_plan::Fitted;
use std::alloc::{AllocError, Global};

/// A command that reads a show's text and answers for what fits, whether or not it searches it itself.
pub trait AnyText {
    /// The command.
    ghost verb: { Self → Verb };

    /// What it reads.
    fn ways(&self) -> Ways
        ensures { result ≡ (verb self.now).ways };

    /// What it gives for a show that fits.
    fn answer_fitted(&self, alloc: Global, fitted: &Fitted) -> Result<Answer, AllocError>
        requires valid { IsValidFitted fitted.now }
        ensures gives { (s : PlainShow) (cut : Cut) → IsFitted fitted.now s
            → IfOk result
            (λ a. ShowGives (verb self.now) (blocked_by (verb self.now).ways.depth s) s cut (outcome_of a)) }
        ensures promised { (s : PlainShow) (cut : Cut) → IsFitted fitted.now s
            → (FlyApart s.settings (sent_of s) → Uploads (grid_of s) s.settings (sent_of s))
            → IfOk result (λ a. (outcome_of a).status ≡ 0 → (verb self.now).promises s cut) }
        ensures said { IfOk result IsSaid };
}

fn answer_text<V: AnyText>(alloc: Global, verb: &V, text: &Text) -> Result<Answer, AllocError>
    requires any { IsAny (V.verb verb.now) }
    requires within { IsWithin most_text text.now }
    ensures { AnswersText (V.verb verb.now) text.now result }
{
    let ways = verb.ways();
    match fit_text(alloc, &ways, text)? {
        Planned::Fits { fitted } => verb.answer_fitted(alloc, &fitted),
        Planned::Refused { refusal } => Ok(Answer::Refused { refusal }),
    }
}

fn answer_input<V: AnyText, S: Source>(
    alloc: Global,
    verb: &V,
    source: &mut S,
) -> Result<Answer, Failure>
    requires any { IsAny (V.verb verb.now) }
    ensures reads { OneTextRead (λ left left_after. AnswersInput (V.verb verb.now) left left_after result)
        (S.told source.old) (S.told source.new) result }
    ensures said { IfOk result IsSaid }
{
    let text = read_show_text(alloc, source)?;
    Ok(answer_text(alloc, verb, &text)?)
}

/// Runs a command that answers for what fits, or says the first reason why the show is refused.
pub fn run_any<V: AnyText, S: Source, K: Sink>(
    alloc: Global,
    verb: &V,
    source: &mut S,
    sink: &mut K,
) -> u8
    requires verb { IsVerb (V.verb verb.now) }
    requires any { IsAny (V.verb verb.now) }
    ensures { Does (V.verb verb.now) (during S.told K.written K.faults source.old source.new sink.old sink.new) result }
{
    show_law();
    let answer = answer_input(alloc, verb, source);
    respond(sink, &answer)
}
