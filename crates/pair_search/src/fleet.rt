//! The search of a fleet: each pair of drones in each cue.

ghost use Rattle.std.specs.Prelude.{◌≡◌, ◌^◌, ◌≤◌, [], ◌∷◌, ◌++◌, All, IsTrue, OnOk};
ghost use Rattle.sep_parts.specs.Slots.{IsSlot};
ghost use Rattle.sep_parts.specs.Levels.{root};
ghost use Rattle.fleet_curves.specs.Raised.{difference};
ghost use Rattle.pair_search.specs.Extents.{AreExtents, AreFlights, HasAxes};
ghost use Rattle.pair_search.specs.Fleets.{GivesCount, GivesTrees};
ghost use Rattle.pair_search.specs.Marks.{AreWeighed};
ghost use Rattle.pair_search.specs.Opposites.{AreOpposites};
ghost use Rattle.pair_search.specs.Search.{HasDirection};
ghost use Rattle.pair_search.specs.Steps.{FindsCount, FindsTree, IsPairFar};

use crate::ends::{Kept, kept_at_zero};
use crate::extents::{Extent, are_far, extent_at, extents_of, flights_of, has_axes};
use crate::opposites::{Opposites, opposites_of};
use crate::shape::count_with;
use crate::walk::{Found, search_by};
use fleet_curves::{Curves, Difference};
use sep_parts::{Forest, Node, Ruler, Slot, Waiting};
use std::alloc::{AllocError, Global};
use whole_numbers::{Depth, MOST_DRONES};

/// Why a search of a fleet finds no trees.
#[derive(Clone, Copy, PartialEq, Eq)]
pub enum SearchFault {
    /// The first part of a cue in which no direction separates two drones, in the order pair, cue, part: part `index`
    /// of as many equal parts as the depth gives. Parts count from 0.
    Blocked { slot: Slot, index: u16 },
    /// Out of memory.
    Memory,
}

impl From<AllocError> for SearchFault {
    ghost use Rattle.std.specs.Prelude.{◌≡◌};
    ghost use Rattle.pair_search.specs.declared.fleet.SearchFault.TheVariants.{Memory};

    ghost from_gives = { λ _ e. e ≡ Memory };

    fn from(_: AllocError) -> Self {
        SearchFault::Memory
    }
}

// The curves of the second drone of a slot less those of the first, in its cue.
fn difference_of(curves: &Curves, slot: Slot) -> Difference
    requires { IsSlot curves.now.drones curves.now.cues slot }
    ensures { result ≡ difference curves.now slot.a slot.b slot.cue }
{
    curves.diff(slot.a as usize, slot.b as usize, slot.cue as usize)
}

// The nodes of a slot's tree, put into `nodes`, which is empty before; or the first part of its cue that no direction
// separates. What `waiting` has before is dropped; `kept` is as of `weigh_ends`.
fn tree_of<const M: usize>(
    curves: &Curves,
    ruler: &Ruler<M>,
    opposites: &Opposites,
    depth: Depth,
    slot: Slot,
    nodes: &mut Vec<Node>,
    waiting: &mut Waiting,
    kept: &mut Kept,
) -> Result<(), SearchFault>
    requires slot { IsSlot curves.now.drones curves.now.cues slot }
    requires empty { nodes.old.items ≡ [] }
    requires opposites { AreOpposites ruler.now opposites.now }
    requires kept { AreWeighed opposites.now kept.old }
    ensures finds { FindsTree ruler.now depth curves.now slot nodes.new.items result }
    ensures kept { OnOk result (AreWeighed opposites.now kept.new) }
{
    let diff = difference_of(curves, slot);
    match search_by(&diff, ruler, opposites, depth, nodes, waiting, kept)? {
        Found::Clear => Ok(()),
        Found::Blocked { index } => Err(SearchFault::Blocked { slot, index }),
    }
}

/// The trees of a fleet, one for each pair of drones and each cue, in the order of slots: the nodes, in preorder, of
/// the tree with the largest possible leaves, each with the first direction of the ruler that separates its part.
/// `depth` is the greatest depth of a part, 0 to 8.
///
/// `Blocked` exactly where some part of that depth has no separating direction, for some pair and cue: the first, in
/// the order pair, cue, part. `Memory` is out of memory, and the only other refusal.
pub fn search_all<const M: usize>(
    alloc: Global,
    curves: &Curves,
    ruler: &Ruler<M>,
    depth: Depth,
) -> Result<Forest, SearchFault>
    ensures { GivesTrees ruler.now depth curves.now result }
{
    let drones = curves.drones();
    let cues = curves.cues();
    let opposites = opposites_of(ruler);
    let mut trees = Forest::none(alloc);
    let mut nodes = Vec::new(alloc);
    let mut waiting = Waiting::none();
    let mut kept = kept_at_zero(&opposites);
    let mut slot = Slot::first();
    while usize::from(slot.b) < drones {
        nodes.clear();
        tree_of(
            curves,
            ruler,
            &opposites,
            depth,
            slot,
            &mut nodes,
            &mut waiting,
            &mut kept,
        )?;
        trees.push(nodes.as_slice())?;
        slot = slot.next(drones, cues);
    }
    Ok(trees)
}

// Whether the drones of a slot are so far apart on an axis that its direction separates the whole cue.
fn is_far<const M: usize>(curves: &Curves, extents: &[Extent], ruler: &Ruler<M>, slot: Slot) -> bool
    requires slot { IsSlot curves.now.drones curves.now.cues slot }
    requires extents { AreExtents curves.now extents.now }
    requires axes { HasAxes ruler.now.directions }
    ensures { IsTrue result
        → HasDirection ruler.now.clearance (difference curves.now slot.a slot.b slot.cue) ruler.now.directions root }
{
    let first = extent_at(curves, extents, slot.a as usize, slot.cue as usize);
    let second = extent_at(curves, extents, slot.b as usize, slot.cue as usize);
    let clearance = ruler.clearance();
    are_far(&first, &second, &clearance)
}

// Whether all cues of a slot's pair are to come, and the whole flights of the two are so far apart on an axis that its
// direction separates each of these cues. `axes` says that the ruler has the directions of the axes.
fn is_pair_far<const M: usize>(
    curves: &Curves,
    flights: &[Extent; MOST_DRONES],
    axes: bool,
    ruler: &Ruler<M>,
    slot: Slot,
) -> bool
    requires slot { IsSlot curves.now.drones curves.now.cues slot }
    requires flights { AreFlights curves.now flights.now }
    requires axes { IsTrue axes → HasAxes ruler.now.directions }
    ensures { IsTrue result → IsPairFar ruler.now curves.now slot }
{
    if slot.cue != 0 {
        return false;
    }
    if !axes {
        return false;
    }
    // there are at most MOST_DRONES drones, and some cue
    let _drones = curves.drones();
    let _cues = curves.cues();
    let clearance = ruler.clearance();
    are_far(
        &flights[slot.a as usize],
        &flights[slot.b as usize],
        &clearance,
    )
}

// How many nodes a slot's tree has, or the first part of its cue that no direction separates. `axes` says that the
// ruler has the directions of the axes, and `hint` and `waiting` are as of `count_with`.
fn count_of<const M: usize>(
    curves: &Curves,
    extents: &[Extent],
    axes: bool,
    ruler: &Ruler<M>,
    opposites: &Opposites,
    depth: Depth,
    slot: Slot,
    hint: &mut usize,
    waiting: &mut Waiting,
) -> Result<u32, SearchFault>
    requires slot { IsSlot curves.now.drones curves.now.cues slot }
    requires extents { AreExtents curves.now extents.now }
    requires axes { IsTrue axes → HasAxes ruler.now.directions }
    requires opposites { AreOpposites ruler.now opposites.now }
    requires empty { waiting.old ≡ [] }
    ensures finds { FindsCount ruler.now depth curves.now slot result }
    ensures empty { OnOk result (waiting.new ≡ []) }
{
    if axes && is_far(curves, extents, ruler, slot) {
        return Ok(1);
    }
    let diff = difference_of(curves, slot);
    match count_with(&diff, ruler, opposites, depth, hint, waiting) {
        Ok(count) => Ok(count),
        Err(index) => Err(SearchFault::Blocked { slot, index }),
    }
}

/// How many nodes the trees of a fleet have: what [`search_all`] returns, counted. No tree is kept, and no direction is
/// looked for where another one separates the part. Condition and refusals as [`search_all`].
pub fn count_all<const M: usize>(
    alloc: Global,
    curves: &Curves,
    ruler: &Ruler<M>,
    depth: Depth,
) -> Result<u32, SearchFault>
    ensures { GivesCount ruler.now depth curves.now result }
{
    // a depth is at most 8
    let _levels = depth.levels();
    let drones = curves.drones();
    let cues = curves.cues();
    let extents = extents_of(alloc, curves)?;
    let flights = flights_of(curves, extents.as_slice());
    let axes = has_axes(ruler);
    let opposites = opposites_of(ruler);
    let mut waiting = Waiting::none();
    let mut hint = 0;
    let mut count = 0;
    let mut slot = Slot::first();
    while usize::from(slot.b) < drones {
        if is_pair_far(curves, &flights, axes, ruler, slot) {
            count += cues as u32;
            slot = slot.next_pair(drones);
            continue;
        }
        count += count_of(
            curves,
            extents.as_slice(),
            axes,
            ruler,
            &opposites,
            depth,
            slot,
            &mut hint,
            &mut waiting,
        )?;
        slot = slot.next(drones, cues);
    }
    Ok(count)
}
