//! Each pair of drones and each cue in which no direction separates them.
ghost use Rattle.std.specs.Prelude.{◌≡◌, ℕ, ◌≤◌, [], ◌++◌, List, length, IfOk, IfSome, OnOk};
ghost use Rattle.fleet_curves.specs.Raised.{cues_in, raised_of};
ghost use Rattle.sep_parts.specs.Slots.{IsSlot};
ghost use Rattle.show_plan.specs.Fitting.{IsValidFitted};
ghost use Rattle.show_plan.specs.Separation.{clearance_of, measure_of};
ghost use Rattle.show_studies.specs.Explained.{BlockedLaw, blocked_parts, most_blocked};
ghost use Rattle.show_studies.specs.Steps.{Ends, IsPartOf, NextGives, SaysOf, part_in};

use crate::study::Study;
use byte_streams::Lines;
use fleet_curves::Curves;
use pair_search::{Found, search_with};
use sep_parts::{Node, Ruler, Slot};
use show_judge::name_at;
use show_plan::{BlockedPart, Fitted, clearance_of, ruler_of};
use std::alloc::{AllocError, Global};
use touch_witness::{Axes, Part, closest_in, put_blocked_closest, put_more_blocked};
use whole_numbers::{Depth, Fine};

// How many pairs and cues have a line at most.
const MOST_BLOCKED: u16 = 200;

/// A law. The blocked parts of a show are what their name says: one for each pair and cue that has one, the first in
/// it.
#[tactic(auto, using(crate::proofs::BlockedLemmas::law))]
pub fn blocked_law()
    ensures { BlockedLaw }
{}

// The first part of a slot's cue that no direction separates.
fn part_in(
    alloc: Global,
    curves: &Curves,
    ruler: &Ruler<98>,
    depth: Depth,
    slot: Slot,
) -> Result<Option<BlockedPart>, AllocError>
    requires slot { IsSlot curves.now.drones curves.now.cues slot }
    ensures part { IfOk result (λ part. part ≡ part_in ruler.now depth curves.now slot) }
    ensures slot { IfOk result (λ part. IfSome part (λ p. p.slot ≡ slot)) }
{
    let diff = curves.diff(slot.a as usize, slot.b as usize, slot.cue as usize);
    let mut nodes: Vec<Node> = Vec::new(alloc);
    match search_with(&diff, ruler, depth, &mut nodes)? {
        Found::Clear => Ok(None),
        Found::Blocked { index } => Ok(Some(BlockedPart { slot, index })),
    }
}

fn put_part(
    text: &mut Lines,
    fitted: &Fitted,
    part: BlockedPart,
    depth: Depth,
    fine: Fine,
) -> Result<(), AllocError>
    requires valid { IsValidFitted fitted.now }
    requires part { IsPartOf fitted.now part }
    ensures { OnOk result
        ((line : List ℕ) × SaysOf fitted.now depth fine part line × (text.new ≡ text.old ++ line)) }
{
    let names = fitted.names.as_slice();
    let slot = part.slot;
    let axes = Axes {
        r: fitted.settings.r,
        h: fitted.settings.h,
    };
    put_blocked_closest(
        text,
        name_at(names, slot.a).as_slice(),
        name_at(names, slot.b).as_slice(),
        Part {
            index: part.index,
            depth,
        },
        fine,
        closest_in(fitted.trajs.as_slice(), slot, axes, fine),
    )
}

// The line of a part, where there is one, or the line that says that there are more than have a line. How many may have
// one after that; None where no line comes after it.
fn put_next(
    text: &mut Lines,
    fitted: &Fitted,
    part: Option<BlockedPart>,
    left: u16,
    depth: Depth,
    fine: Fine,
) -> Result<Option<u16>, AllocError>
    requires valid { IsValidFitted fitted.now }
    requires part { IfSome part (IsPartOf fitted.now) }
    ensures { IfOk result (λ more. NextGives (SaysOf fitted.now depth fine) left part text.old text.new more) }
{
    let Some(part) = part else {
        return Ok(Some(left));
    };
    if left == 0 {
        put_more_blocked(text)?;
        return Ok(None);
    }
    put_part(text, fitted, part, depth, fine)?;
    Ok(Some(left - 1))
}

// The lines of all slots, by the curves of the show and the ruler of its clearance.
fn put_slots(
    alloc: Global,
    text: &mut Lines,
    fitted: &Fitted,
    curves: &Curves,
    ruler: &Ruler<98>,
    study: Study,
) -> Result<(), AllocError>
    requires valid { IsValidFitted fitted.now }
    requires curves { curves.now ≡ raised_of fitted.now.trajs }
    requires ruler { ruler.now ≡ measure_of (clearance_of fitted.now.settings fitted.now.trajs) }
    ensures { OnOk result (Ends (SaysOf fitted.now study.depth study.fine) most_blocked
        (blocked_parts fitted.now.settings study.depth fitted.now.trajs) text.old text.new) }
{
    let drones = curves.drones();
    let cues = curves.cues();
    let mut left = MOST_BLOCKED;
    let mut slot = Slot::first();
    while usize::from(slot.b) < drones {
        let part = part_in(alloc, curves, ruler, study.depth, slot)?;
        let Some(more) = put_next(text, fitted, part, left, study.depth, study.fine)? else {
            return Ok(());
        };
        left = more;
        slot = slot.next(drones, cues);
    }
    Ok(())
}

/// Adds a line for each pair and cue that is blocked, up to 200 of them, and then one that says that there are more.
pub fn put_blocked_parts(
    alloc: Global,
    text: &mut Lines,
    fitted: &Fitted,
    study: Study,
) -> Result<(), AllocError>
    requires valid { IsValidFitted fitted.now }
    ensures { OnOk result (Ends (SaysOf fitted.now study.depth study.fine) most_blocked
        (blocked_parts fitted.now.settings study.depth fitted.now.trajs) text.old text.new) }
{
    let ruler = ruler_of(clearance_of(fitted));
    let curves = Curves::of_slice(alloc, fitted.trajs.as_slice())?;
    put_slots(alloc, text, fitted, &curves, &ruler, study)
}
