//! `report`: the numbers of a show as JSON.
ghost use Rattle.std.specs.Prelude.{◌≡◌, ◌≤◌, ℕ, IfOk};
ghost use Rattle.choreo_show.specs.Plain.{PlainShow};
ghost use Rattle.report_text.specs.Report.{report_text};
ghost use Rattle.show_plan.specs.Fitting.{IsFitted, IsValidFitted};
ghost use Rattle.show_judge.specs.Answers.{IsSaid, outcome_of};
ghost use Rattle.show_judge.specs.Runs.{Does};
ghost use Rattle.show_judge.specs.Shows.{nodes_of};
ghost use Rattle.show_judge.specs.Verb.{during, outcome};
ghost use Rattle.show_looks.specs.Report.{report_verb};
ghost use Rattle.show_looks.specs.Reports.{report_of};

use crate::numbers::{packets, sizes};
use byte_streams::{Sink, Source};
use report_text::report_text;
use show_judge::{Accepted, Answer, OneText, Output, run_one};
use std::alloc::{AllocError, Global};
use whole_numbers::Depth;

/// `report` at a depth.
#[derive(Clone, Copy)]
pub struct ReportVerb {
    pub depth: Depth,
}

impl OneText for ReportVerb {
    ghost searched = { λ c. c.depth };

    ghost text = { λ c s. report_text (report_of s c.depth) };

    fn depth(&self) -> Depth {
        self.depth
    }

    fn answer_accepted(&self, alloc: Global, accepted: &Accepted) -> Result<Answer, AllocError> {
        let fitted = &accepted.fitted;
        let bytes = sizes(alloc, fitted.sent.as_slice())?;
        let packets = packets(alloc, bytes.as_slice())?;
        let bytes = report_text(
            alloc,
            bytes.as_slice(),
            u32::from(fitted.cues),
            fitted.names.as_slice(),
            fitted.duration,
            accepted.nodes,
            packets.as_slice(),
        )?;
        Ok(Answer::Done {
            output: Output::Bytes { bytes },
        })
    }
}

/// Runs `report` (docs/COMMANDS.md): the numbers of a show as compact JSON, or the first reason why it is refused.
pub fn report<S: Source, K: Sink>(alloc: Global, depth: Depth, source: &mut S, sink: &mut K) -> u8
    ensures { Does (report_verb depth) (during S.told K.written K.faults source.old source.new sink.old sink.new)
        result }
{
    run_one(alloc, &ReportVerb { depth }, source, sink)
}
