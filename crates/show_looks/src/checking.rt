//! `check`: whether a show fits and its drones keep apart.
ghost use Rattle.std.specs.Prelude.{◌≡◌, ◌≤◌, IfOk};
ghost use Rattle.choreo_show.specs.Plain.{PlainShow};
ghost use Rattle.show_plan.specs.Fitting.{IsFitted, IsValidFitted};
ghost use Rattle.show_judge.specs.Answers.{IsSaid, outcome_of};
ghost use Rattle.show_judge.specs.Runs.{Does};
ghost use Rattle.show_judge.specs.Shows.{nodes_of};
ghost use Rattle.show_judge.specs.Verb.{during, outcome};
ghost use Rattle.show_looks.specs.Check.{check_text, check_verb};

use crate::lines::ok_line;
use byte_streams::{Sink, Source};
use show_judge::{Accepted, Answer, OneText, Output, run_one};
use std::alloc::{AllocError, Global};
use whole_numbers::Depth;

/// `check` at a depth.
#[derive(Clone, Copy)]
pub struct CheckVerb {
    pub depth: Depth,
}

impl OneText for CheckVerb {
    ghost searched = { λ c. c.depth };

    ghost text = { λ c. check_text };

    fn depth(&self) -> Depth {
        self.depth
    }

    fn answer_accepted(&self, _alloc: Global, accepted: &Accepted) -> Result<Answer, AllocError> {
        let fitted = &accepted.fitted;
        let drones = fitted.names.as_slice().len() as u8;
        Ok(Answer::Done {
            output: Output::Line {
                line: ok_line(drones, fitted.cues, fitted.duration),
            },
        })
    }
}

/// Runs `check` (docs/COMMANDS.md): the numbers of its drones and cues and its milliseconds, or the first reason why it
/// is refused.
pub fn check<S: Source, K: Sink>(alloc: Global, depth: Depth, source: &mut S, sink: &mut K) -> u8
    ensures { Does (check_verb depth) (during S.told K.written K.faults source.old source.new sink.old sink.new)
        result }
{
    run_one(alloc, &CheckVerb { depth }, source, sink)
}
