//! `compile`: the plan of a show.
ghost use Rattle.std.specs.Prelude.{◌≡◌, ◌≤◌, IfOk};
ghost use Rattle.choreo_show.specs.Plain.{PlainShow};
ghost use Rattle.show_plan.specs.Fitting.{IsFitted, IsValidFitted};
ghost use Rattle.show_judge.specs.Answers.{IsSaid, outcome_of};
ghost use Rattle.show_judge.specs.Runs.{Does};
ghost use Rattle.show_judge.specs.Shows.{nodes_of};
ghost use Rattle.show_judge.specs.Verb.{during, outcome};
ghost use Rattle.show_looks.specs.Compile.{compile_verb, plan_of};

use byte_streams::{Sink, Source};
use show_judge::{Accepted, Answer, OneText, Output, run_one};
use show_plan::plan_text;
use std::alloc::{AllocError, Global};
use whole_numbers::Depth;

/// `compile` at a depth.
#[derive(Clone, Copy)]
pub struct CompileVerb {
    pub depth: Depth,
}

impl OneText for CompileVerb {
    ghost searched = { λ c. c.depth };

    ghost text = { λ c. plan_of };

    fn depth(&self) -> Depth {
        self.depth
    }

    fn answer_accepted(&self, alloc: Global, accepted: &Accepted) -> Result<Answer, AllocError> {
        let lines = plan_text(alloc, &accepted.fitted)?;
        Ok(Answer::Done {
            output: Output::Text { lines },
        })
    }
}

/// Runs `compile` (docs/COMMANDS.md): its plan, or the first reason why it is refused.
pub fn compile<S: Source, K: Sink>(alloc: Global, depth: Depth, source: &mut S, sink: &mut K) -> u8
    ensures { Does (compile_verb depth) (during S.told K.written K.faults source.old source.new sink.old sink.new)
        result }
{
    run_one(alloc, &CompileVerb { depth }, source, sink)
}
