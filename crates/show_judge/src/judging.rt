//! From a show's text to a show that fits, and to one that nothing refuses.
ghost use Rattle.std.specs.Prelude.{◌≡◌, ◌≤◌, length, Some, IfOk};
ghost use Rattle.choreo_show.specs.Plain.{plain};
ghost use Rattle.choreo_show.specs.Valid.{IsValid};
ghost use Rattle.show_plan.specs.Fitting.{IsValidFitted};
ghost use Rattle.show_judge.specs.Answers.{EndsJudged, EndsWell, IsSoundJudged, IsSoundPlan, JudgedGives, PlanGives};
ghost use Rattle.show_judge.specs.Input.{IsShowText, IsWithin};
ghost use Rattle.whole_numbers.specs.Limits.{most_text};
ghost use Rattle.show_judge.specs.Shows.{Cut};
ghost use Rattle.show_judge.specs.Steps.{Separated, ShowPlanned};

use crate::input::Text;
use crate::refusing::{marker_refusal, unfit, unseparated};
use crate::ways::Ways;
use byte_streams::Part;
use choreo_reader::{Show, ShowFault, read_show};
use refusals::Refusal;
use show_plan::{FitError, Fitted, count_nodes, fit, uploadable_law, uploads_law};
use std::alloc::{AllocError, Global};
use whole_numbers::Depth;

/// A show that fits, or why a command refuses it.
#[derive(Drop)]
pub enum Planned {
    Fits { fitted: Fitted },
    Refused { refusal: Refusal },
}

/// A show that nothing refuses, with the number of nodes of its certificate.
#[derive(Drop)]
pub struct Accepted {
    pub fitted: Fitted,
    pub nodes: u32,
}

/// A show that nothing refuses, or why a command refuses it.
#[derive(Drop)]
pub enum Judged {
    Accepted { accepted: Accepted },
    Refused { refusal: Refusal },
}

fn fit_show(alloc: Global, ways: &Ways, show: &Show, part: &Part) -> Result<Planned, AllocError>
    requires valid { IsValid (plain show.now) }
    requires within { length part.now.bytes.items ≤ most_text }
    ensures gives { (cut : Cut) → IsShowText (Text.Whole part.now) cut
        → IfOk result (ShowPlanned ways.now cut (plain show.now)) }
    ensures sound { IfOk result IsSoundPlan }
    ensures whole { IfOk result (EndsWell ways.now (Text.Whole part.now)) }
{
    let fitted = match fit(alloc, show) {
        Ok(fitted) => fitted,
        Err(FitError::Fault { fault }) => {
            return Ok(Planned::Refused {
                refusal: unfit(ways, show, part, fault),
            });
        }
        Err(FitError::Memory) => return Err(AllocError),
    };
    uploads_law();
    uploadable_law(&fitted);
    match marker_refusal(ways, part) {
        Some(refusal) => Ok(Planned::Refused { refusal }),
        None => Ok(Planned::Fits { fitted }),
    }
}

/// The show that a text stands for, where it fits and no marker line stands where the command allows none; else the
/// first reason why the command refuses it. Separation isn't judged.
pub fn fit_text(alloc: Global, ways: &Ways, text: &Text) -> Result<Planned, AllocError>
    requires within { IsWithin most_text text.now }
    ensures gives { (cut : Cut) → IsShowText text.now cut → IfOk result (PlanGives ways.now cut) }
    ensures sound { IfOk result IsSoundPlan }
    ensures whole { IfOk result (EndsWell ways.now text.now) }
{
    let Text::Whole { part } = text else {
        return Ok(Planned::Refused {
            refusal: Refusal::TooLarge,
        });
    };
    match read_show(alloc, &part.bytes) {
        Ok(show) => fit_show(alloc, ways, &show, part),
        Err(ShowFault::Line { line, kind }) => Ok(Planned::Refused {
            refusal: Refusal::Line { line, kind },
        }),
        Err(ShowFault::Memory) => Err(AllocError),
    }
}

fn separate(alloc: Global, fitted: Fitted, depth: Depth) -> Result<Judged, AllocError>
    requires valid { IsValidFitted fitted }
    ensures gives { IfOk result (Separated depth fitted) }
    ensures sound { IfOk result IsSoundJudged }
{
    match count_nodes(alloc, &fitted, depth) {
        Ok(nodes) => Ok(Judged::Accepted {
            accepted: Accepted { fitted, nodes },
        }),
        Err(fault) => {
            let refusal = unseparated(&fitted, depth, fault)?;
            Ok(Judged::Refused { refusal })
        }
    }
}

/// The show that a text stands for, where nothing refuses it: it is well-formed, it fits, no marker line stands where
/// the command allows none, and at this depth any two of its drones are apart at every instant. Else the first reason
/// why the command refuses it.
pub fn accept(alloc: Global, ways: &Ways, depth: Depth, text: &Text) -> Result<Judged, AllocError>
    requires depth { ways.now.depth ≡ Some depth }
    requires within { IsWithin most_text text.now }
    ensures gives { (cut : Cut) → IsShowText text.now cut → IfOk result (JudgedGives ways.now depth cut) }
    ensures sound { IfOk result IsSoundJudged }
    ensures whole { IfOk result (EndsJudged ways.now text.now) }
{
    match fit_text(alloc, ways, text)? {
        Planned::Fits { fitted } => separate(alloc, fitted, depth),
        Planned::Refused { refusal } => Ok(Judged::Refused { refusal }),
    }
}
