//! `certify`: the certificate of a show.
ghost use Rattle.std.specs.Prelude.{◌≡◌, ◌≤◌, Some, IfOk};
ghost use Rattle.choreo_show.specs.Plain.{PlainShow};
ghost use Rattle.cue_grid.specs.Cues.{grid_of};
ghost use Rattle.show_plan.specs.Fitting.{IsFitted, IsValidFitted};
ghost use Rattle.show_plan.specs.Separation.{FlyApart};
ghost use Rattle.show_plan.specs.Uploading.{Uploads};
ghost use Rattle.show_judge.specs.Answers.{IsSaid, outcome_of};
ghost use Rattle.show_judge.specs.Outcome.{ShowGives};
ghost use Rattle.show_judge.specs.Refused.{blocked_by};
ghost use Rattle.show_judge.specs.Runs.{Does};
ghost use Rattle.show_judge.specs.Shows.{Cut, sent_of};
ghost use Rattle.show_judge.specs.Verb.{during};
ghost use Rattle.show_looks.specs.Certify.{certify_verb};

use byte_streams::{Sink, Source};
use sep_certificate::write_certificate;
use show_judge::{Answer, AnyText, Output, Ways, run_any, unseparated};
use show_plan::{Fitted, certificate};
use std::alloc::{AllocError, Global};
use whole_numbers::Depth;

/// `certify` at a depth.
#[derive(Clone, Copy)]
pub struct CertifyVerb {
    pub depth: Depth,
}

impl AnyText for CertifyVerb {
    ghost verb = { λ c. certify_verb c.depth };

    fn ways(&self) -> Ways {
        Ways {
            reads: true,
            has_second: false,
            by_frames: false,
            depth: Some(self.depth),
        }
    }

    fn answer_fitted(&self, alloc: Global, fitted: &Fitted) -> Result<Answer, AllocError> {
        match certificate(alloc, fitted, self.depth) {
            Ok(found) => {
                let bytes = write_certificate(alloc, &found)?;
                Ok(Answer::Done {
                    output: Output::Bytes { bytes },
                })
            }
            Err(fault) => {
                let refusal = unseparated(fitted, self.depth, fault)?;
                Ok(Answer::Refused { refusal })
            }
        }
    }
}

/// Runs `certify` (docs/COMMANDS.md): the certificate of a show, or the first reason why it is refused.
pub fn certify<S: Source, K: Sink>(alloc: Global, depth: Depth, source: &mut S, sink: &mut K) -> u8
    ensures { Does (certify_verb depth) (during S.told K.written K.faults source.old source.new sink.old sink.new)
        result }
{
    run_any(alloc, &CertifyVerb { depth }, source, sink)
}
