//! Lines on where two drones come close.
ghost use Rattle.std.specs.Prelude.{◌≡◌, ℕ, ◌++◌, List, length, All, IfOk, OnOk};
ghost use Rattle.show_plan.specs.Fitting.{IsValidFitted, StandsAsWord};
ghost use Rattle.show_plan.specs.Separation.{blocked_part};
ghost use Rattle.show_studies.specs.Steps.{IsBlockedAmong, IsClosestAmong, IsTouchAmong};
ghost use Rattle.show_studies.specs.Explained.{SeparationSays, contact_if, contact_line, explain_text, nearest_line};
ghost use Rattle.show_studies.specs.Explained.{separation_line};

use crate::blocking::put_blocked_parts;
use crate::study::Study;
use byte_streams::Lines;
use choreo_reader::Name;
use show_judge::name_at;
use show_plan::{BlockedPart, Fitted};
use std::alloc::{AllocError, Global};
use touch_witness::{
    Closest, Touch, put_blocked, put_closest, put_no_touch, put_separated, put_touch,
};
use whole_numbers::{Depth, Fine};

/// What is found of a show: the first part that is blocked, where two drones are closest, and where two touch first.
#[derive(Clone, Copy)]
pub struct Findings {
    pub blocked: Option<BlockedPart>,
    pub closest: Option<Closest>,
    pub touch: Option<Touch>,
}

fn put_first(
    text: &mut Lines,
    names: &[Name],
    depth: Depth,
    blocked: Option<BlockedPart>,
) -> Result<(), AllocError>
    requires words { All StandsAsWord names.now }
    requires among { IsBlockedAmong (length names.now) blocked }
    ensures { OnOk result (text.new ≡ text.old ++ separation_line names.now depth blocked) }
{
    match blocked {
        None => put_separated(text),
        Some(part) => put_blocked(
            text,
            name_at(names, part.slot.a).as_slice(),
            name_at(names, part.slot.b).as_slice(),
            part.slot.cue,
            part.index,
            depth,
        ),
    }
}

// The first line, or the lines of all pairs and cues that are blocked.
fn put_separation(
    alloc: Global,
    text: &mut Lines,
    fitted: &Fitted,
    study: Study,
    blocked: Option<BlockedPart>,
) -> Result<(), AllocError>
    requires valid { IsValidFitted fitted.now }
    requires among { IsBlockedAmong (length fitted.now.names) blocked }
    ensures { OnOk result ((lines : List ℕ) × SeparationSays study.all fitted.now.names fitted.now.settings
        fitted.now.trajs study.depth study.fine blocked lines × (text.new ≡ text.old ++ lines)) }
{
    if !study.all {
        return put_first(text, fitted.names.as_slice(), study.depth, blocked);
    }
    match blocked {
        None => put_separated(text),
        Some(_) => put_blocked_parts(alloc, text, fitted, study),
    }
}

// The line of the two that are closest, unless there is one drone alone.
fn put_nearest(
    text: &mut Lines,
    names: &[Name],
    fine: Fine,
    closest: Option<Closest>,
) -> Result<(), AllocError>
    requires words { All StandsAsWord names.now }
    requires among { IsClosestAmong (length names.now) closest }
    ensures { OnOk result (text.new ≡ text.old ++ nearest_line names.now fine closest) }
{
    match closest {
        None => Ok(()),
        Some(closest) => put_closest(
            text,
            name_at(names, closest.a).as_slice(),
            name_at(names, closest.b).as_slice(),
            fine,
            closest,
        ),
    }
}

// Where two drones touch first, or that none do.
fn put_contact(
    text: &mut Lines,
    names: &[Name],
    cues: u16,
    fine: Fine,
    touch: Option<Touch>,
) -> Result<(), AllocError>
    requires words { All StandsAsWord names.now }
    requires among { IsTouchAmong (length names.now) touch }
    ensures { OnOk result (text.new ≡ text.old ++ contact_line names.now cues fine touch) }
{
    match touch {
        None => put_no_touch(text, cues, fine),
        Some(touch) => put_touch(
            text,
            name_at(names, touch.a).as_slice(),
            name_at(names, touch.b).as_slice(),
            fine,
            touch,
        ),
    }
}

// The last line, where a part is blocked.
fn put_last(
    text: &mut Lines,
    names: &[Name],
    cues: u16,
    fine: Fine,
    found: &Findings,
) -> Result<(), AllocError>
    requires words { All StandsAsWord names.now }
    requires among { IsTouchAmong (length names.now) found.now.touch }
    ensures { OnOk result
        (text.new ≡ text.old ++ contact_if found.now.blocked (contact_line names.now cues fine found.now.touch)) }
{
    match found.blocked {
        None => Ok(()),
        Some(_) => put_contact(text, names, cues, fine, found.touch),
    }
}

/// The lines that say what was found of a show that fits.
pub fn findings_text(
    alloc: Global,
    fitted: &Fitted,
    study: Study,
    found: &Findings,
) -> Result<Lines, AllocError>
    requires valid { IsValidFitted fitted.now }
    requires blocked { IsBlockedAmong (length fitted.now.names) found.now.blocked }
    requires closest { IsClosestAmong (length fitted.now.names) found.now.closest }
    requires touch { IsTouchAmong (length fitted.now.names) found.now.touch }
    ensures { IfOk result (λ text. (lines : List ℕ) × SeparationSays study.all fitted.now.names fitted.now.settings
        fitted.now.trajs study.depth study.fine found.now.blocked lines × (text ≡
        explain_text fitted.now.names fitted.now.cues study.fine found.now.blocked found.now.closest found.now.touch
        lines)) }
{
    let fine = study.fine;
    let names = fitted.names.as_slice();
    let mut text = Lines::make(alloc);
    put_separation(alloc, &mut text, fitted, study, found.blocked)?;
    put_nearest(&mut text, names, fine, found.closest)?;
    put_last(&mut text, names, fitted.cues, fine, found)?;
    Ok(text)
}
