//! A command that reads a show's text and writes one text of it.
ghost use Rattle.std.specs.Prelude.{◌≡◌, ℕ, List, IfOk};
ghost use Rattle.choreo_show.specs.Plain.{PlainShow};
ghost use Rattle.show_plan.specs.Fitting.{IsFitted, IsValidFitted};
ghost use Rattle.show_judge.specs.Answers.{AnswersInput, AnswersText, IsSaid, outcome_of};
ghost use Rattle.show_judge.specs.Input.{IsWithin};
ghost use Rattle.show_judge.specs.Runs.{Does};
ghost use Rattle.whole_numbers.specs.Limits.{most_text};
ghost use Rattle.show_judge.specs.Shows.{nodes_of};
ghost use Rattle.show_judge.specs.Verb.{during, of_show, outcome};
ghost use Rattle.show_judge.specs.TextsRead.{OneTextRead};

use crate::ends::{Answer, Failure, respond};
use crate::input::{Text, read_show_text};
use crate::judging::{Accepted, Judged, accept};
use crate::ways::Ways;
use byte_streams::{Sink, Source};
use choreo_reader::show_law;
use std::alloc::{AllocError, Global};
use whole_numbers::Depth;

/// A command that reads a show's text and writes one text of it.
pub trait OneText {
    /// The depth at which it searches.
    ghost searched: { Self → ℕ };

    /// What it writes of a show.
    ghost text: { Self → PlainShow → List ℕ };

    /// The depth.
    fn depth(&self) -> Depth
        ensures value { result ≡ searched self.now };

    /// What it writes of a show that is accepted.
    fn answer_accepted(&self, alloc: Global, accepted: &Accepted) -> Result<Answer, AllocError>
        requires valid { IsValidFitted accepted.now.fitted }
        ensures said { IfOk result IsSaid }
        ensures text { (s : PlainShow) → IsFitted accepted.now.fitted s
            → accepted.now.nodes ≡ nodes_of s (searched self.now)
            → IfOk result (λ a. outcome_of a ≡ outcome 0 (text self.now s)) };
}

fn answer_text<V: OneText>(alloc: Global, verb: &V, text: &Text) -> Result<Answer, AllocError>
    requires within { IsWithin most_text text.now }
    ensures { AnswersText (of_show (V.searched verb.now) (V.text verb.now)) text.now result }
{
    let depth = verb.depth();
    let ways = Ways {
        reads: true,
        has_second: false,
        by_frames: false,
        depth: Some(depth),
    };
    match accept(alloc, &ways, depth, text)? {
        Judged::Accepted { accepted } => verb.answer_accepted(alloc, &accepted),
        Judged::Refused { refusal } => Ok(Answer::Refused { refusal }),
    }
}

fn answer_input<V: OneText, S: Source>(
    alloc: Global,
    verb: &V,
    source: &mut S,
) -> Result<Answer, Failure>
    ensures reads { OneTextRead (λ left left_after. AnswersInput (of_show (V.searched verb.now) (V.text verb.now)) left
        left_after result) (S.told source.old) (S.told source.new) result }
    ensures said { IfOk result IsSaid }
{
    let text = read_show_text(alloc, source)?;
    Ok(answer_text(alloc, verb, &text)?)
}

/// Runs a command of one text, or says the first reason why the show is refused.
pub fn run_one<V: OneText, S: Source, K: Sink>(
    alloc: Global,
    verb: &V,
    source: &mut S,
    sink: &mut K,
) -> u8
    ensures { Does (of_show (V.searched verb.now) (V.text verb.now))
        (during S.told K.written K.faults source.old source.new sink.old sink.new) result }
{
    show_law();
    let answer = answer_input(alloc, verb, source);
    respond(sink, &answer)
}
