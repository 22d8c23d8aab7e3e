//! The walk over the parts of a cue, the first half of a part before the second.

ghost use Rattle.std.specs.Prelude.{◌≡◌, ℕ, ◌+◌, ◌^◌, ◌≤◌, ◌<◌, ◌∷◌, ◌++◌, [], List, length, All, IfOk, OnOk, ◌↔◌};
ghost use Rattle.sep_parts.specs.Directions.{AreSmall, IsClearance, IsTableSize};
ghost use Rattle.sep_parts.specs.Levels.{IsLevel, IsStack, places_of, root};
ghost use Rattle.sep_parts.specs.Rulers.{Measure};
ghost use Rattle.sep_parts.specs.Trees.{places_below, IsShallow};
ghost use Rattle.sep_parts.specs.declared.stack.Level.{Level};
ghost use Rattle.pair_search.specs.Search.{IsClear, SearchGives, first_by, first_direction};
ghost use Rattle.pair_search.specs.Lanes.{AreSmallLanes};
ghost use Rattle.pair_search.specs.Laws.{SearchLaw};
ghost use Rattle.pair_search.specs.Marks.{AreEnds, AreLeft, FindsEarly, AreWeighed, TellAll, TellsEnds};
ghost use Rattle.pair_search.specs.Opposites.{AreOpposites, AreSmallHighs};
ghost use Rattle.pair_search.specs.Steps.{WalkGives, node_for};

use crate::ends::{
    Ends, Kept, WaitingEnds, kept_at_zero, late_ends, left_late, pass, weigh_ends, whole_ends,
};
use crate::first::{first_direction, first_early, first_of_whole};
use crate::marking::{Marks, common};
use crate::opposites::{Opposites, opposites_of};
use fleet_curves::Difference;
use sep_parts::{Clearance, Dirs, Level, Node, Ruler, Waiting};
use std::alloc::AllocError;
use whole_numbers::Depth;

/// What a search found.
#[derive(Clone, Copy, PartialEq, Eq)]
pub enum Found {
    /// Each part of the greatest depth has a separating direction.
    Clear,
    /// The part `index` of the 2^depth parts of the greatest depth has no separating direction, and each part before it
    /// has one. Parts count from 0.
    Blocked { index: u16 },
}

/// Searches the tree of a pair of drones in a cue, for a clearance. `diff` has the raised curves of the second drone
/// less those of the first, `dirs` the table of directions, and `nodes` is empty.
///
/// `Clear` exactly where each of the 2^`depth` parts of the cue has a separating direction. Then `nodes` is, in
/// preorder, the tree with the largest possible leaves, each with the first direction in the order of the table that
/// separates its part. `Blocked` exactly where some part of that depth has no separating direction: the first such
/// part; `nodes` is empty then. Out of memory is the only refusal, and leaves `nodes` empty.
pub fn search<const M: usize>(
    diff: &Difference,
    dirs: &Dirs<M>,
    clearance: Clearance,
    depth: Depth,
    nodes: &mut Vec<Node>,
) -> Result<Found, AllocError>
    requires clearance { IsClearance clearance }
    requires empty { nodes.old.items ≡ [] }
    requires size { IsTableSize M }
    requires entries { All AreSmall dirs.now.n }
    ensures exact { SearchGives (first_direction clearance diff.now dirs.now.n) depth result nodes.new.items }
    ensures clear { IfOk result (λ found. (found ≡ Found.Clear) ↔ IsClear clearance diff.now dirs.now.n depth) }
{
    search_with(diff, &Ruler::make(dirs, clearance), depth, nodes)
}

/// As [`search`], with a ruler made before: for who searches many pairs and cues, since working the thresholds out
/// takes longer than most searches.
pub fn search_with<const M: usize>(
    diff: &Difference,
    ruler: &Ruler<M>,
    depth: Depth,
    nodes: &mut Vec<Node>,
) -> Result<Found, AllocError>
    requires empty { nodes.old.items ≡ [] }
    ensures exact { SearchGives (first_by ruler.now diff.now) depth result nodes.new.items }
    ensures clear { IfOk result (λ found.
        (found ≡ Found.Clear) ↔ IsClear ruler.now.clearance diff.now ruler.now.directions depth) }
{
    let opposites = opposites_of(ruler);
    let mut kept = kept_at_zero(&opposites);
    let mut waiting = Waiting::none();
    search_by(
        diff,
        ruler,
        &opposites,
        depth,
        nodes,
        &mut waiting,
        &mut kept,
    )
}

/// As [`search_with`], with the lanes of the ruler made before, and a list for waiting parts. What it has before is
/// dropped: it takes longer to make one than to search most cues. The ends of the cue are kept, weighed.
pub fn search_by<const M: usize>(
    diff: &Difference,
    ruler: &Ruler<M>,
    opposites: &Opposites,
    depth: Depth,
    nodes: &mut Vec<Node>,
    waiting: &mut Waiting,
    kept: &mut Kept,
) -> Result<Found, AllocError>
    requires empty { nodes.old.items ≡ [] }
    requires opposites { AreOpposites ruler.now opposites.now }
    requires kept { AreWeighed opposites.now kept.old }
    ensures exact { SearchGives (first_by ruler.now diff.now) depth result nodes.new.items }
    ensures clear { IfOk result (λ found.
        (found ≡ Found.Clear) ↔ IsClear ruler.now.clearance diff.now ruler.now.directions depth) }
    ensures kept { AreWeighed opposites.now kept.new }
{
    let answer = walk(diff, ruler, opposites, depth, nodes, waiting, kept);
    if !matches!(answer, Ok(Found::Clear)) {
        nodes.clear();
    }
    answer
}

// The nodes of the parts in preorder, up to the first part that is blocked. Most cues are told by one direction: in
// them no part waits.
fn walk<const M: usize>(
    diff: &Difference,
    ruler: &Ruler<M>,
    opposites: &Opposites,
    depth: Depth,
    nodes: &mut Vec<Node>,
    waiting: &mut Waiting,
    kept: &mut Kept,
) -> Result<Found, AllocError>
    requires empty { nodes.old.items ≡ [] }
    requires opposites { AreOpposites ruler.now opposites.now }
    requires kept { AreWeighed opposites.now kept.old }
    ensures gives { WalkGives (first_by ruler.now diff.now) depth result nodes.new.items }
    ensures kept { AreWeighed opposites.now kept.new }
{
    diff.raised_law();
    weigh_ends(diff, opposites, kept);
    let near = kept.first.early.front & kept.last.early.front;
    match first_early(diff, ruler, near) {
        Some(dir) => {
            nodes.push(Node::Leaf { dir })?;
            Ok(Found::Clear)
        }
        None => walk_late(diff, ruler, opposites, depth, nodes, waiting, kept),
    }
}

// The same of a whole cue that none of the first 16 directions separates, with its ends. They are weighed along the
// others.
fn walk_late<const M: usize>(
    diff: &Difference,
    ruler: &Ruler<M>,
    opposites: &Opposites,
    depth: Depth,
    nodes: &mut Vec<Node>,
    waiting: &mut Waiting,
    kept: &mut Kept,
) -> Result<Found, AllocError>
    requires empty { nodes.old.items ≡ [] }
    requires opposites { AreOpposites ruler.now opposites.now }
    requires ends { AreEnds opposites.now diff.now kept.old }
    requires early { FindsEarly ruler.now diff.now None }
    ensures gives { WalkGives (first_by ruler.now diff.now) depth result nodes.new.items }
    ensures kept { AreWeighed opposites.now kept.new }
{
    // a ruler has at most 98 directions
    let _count = ruler.count();
    diff.raised_law();
    let late = late_ends(opposites, kept);
    let ends = whole_ends(kept, late);
    let near = left_late(late, ends);
    match node_of_whole(diff, ruler, near, depth) {
        Some(Node::Leaf { dir }) => {
            nodes.push(Node::Leaf { dir })?;
            Ok(Found::Clear)
        }
        Some(Node::Split) => walk_halves(diff, ruler, opposites, ends, depth, nodes, waiting),
        None => Ok(Found::Blocked { index: 0 }),
    }
}

// The node of a whole cue: a leaf where a direction separates it, else a split where the depth allows one. `near` are
// marks that leave each direction that separates it.
fn node_of_whole<const M: usize>(
    diff: &Difference,
    ruler: &Ruler<M>,
    near: Marks,
    depth: Depth,
) -> Option<Node>
    requires near { AreLeft ruler.now diff.now root near }
    ensures { result ≡ node_for (first_by ruler.now diff.now) depth root }
{
    match first_of_whole(diff, ruler, near) {
        Some(dir) => Some(Node::Leaf { dir }),
        None if depth.levels() > 0 => Some(Node::Split),
        None => None,
    }
}

// The same of a whole cue that is split, with the marks at its ends.
fn walk_halves<const M: usize>(
    diff: &Difference,
    ruler: &Ruler<M>,
    opposites: &Opposites,
    whole: Ends,
    depth: Depth,
    nodes: &mut Vec<Node>,
    waiting: &mut Waiting,
) -> Result<Found, AllocError>
    requires empty { nodes.old.items ≡ [] }
    requires split { node_for (first_by ruler.now diff.now) depth root ≡ Some Node.Split }
    requires opposites { AreOpposites ruler.now opposites.now }
    requires whole { TellsEnds ruler.now diff.now root whole }
    ensures { WalkGives (first_by ruler.now diff.now) depth result nodes.new.items }
{
    // a depth is at most 8, and a ruler has at most 98 directions
    let _levels = depth.levels();
    let _count = ruler.count();
    diff.raised_law();
    nodes.push(Node::Split)?;
    waiting.clear();
    waiting.begin(diff);
    let mut ends = WaitingEnds::of(whole);
    pass(diff, opposites, waiting, &mut ends, Node::Split);
    while let Some(level) = waiting.next() {
        match node_for(diff, level, ruler, ends.first(), depth) {
            Some(node) => put(diff, opposites, waiting, &mut ends, nodes, node)?,
            None => {
                return Ok(Found::Blocked {
                    index: level.place.index,
                });
            }
        }
    }
    Ok(Found::Clear)
}

// The node of a part: a leaf where a direction separates it, else a split above the greatest depth.
fn node_for<const M: usize>(
    diff: &Difference,
    level: &Level,
    ruler: &Ruler<M>,
    ends: Ends,
    depth: Depth,
) -> Option<Node>
    requires level { IsLevel diff.now level.now }
    requires ends { TellsEnds ruler.now diff.now level.now.place ends }
    ensures { result ≡ node_for (first_by ruler.now diff.now) depth level.now.place }
{
    match first_direction(diff, level, ruler, common(ends.first, ends.last)) {
        Some(dir) => Some(Node::Leaf { dir }),
        None if level.place.depth < depth.levels() => Some(Node::Split),
        None => None,
    }
}

// A node after the others, which is that of the next part. The part and its ends are passed.
fn put(
    diff: &Difference,
    opposites: &Opposites,
    waiting: &mut Waiting,
    ends: &mut WaitingEnds,
    nodes: &mut Vec<Node>,
    node: Node,
) -> Result<(), AllocError>
    requires some { 1 ≤ length waiting.old }
    requires stack { IsStack diff.now waiting.old }
    requires shallow { (level : Level) (rest : List Level) → waiting.old ≡ level ∷ rest → IsShallow level.place node }
    requires as_many { length ends.old ≡ length waiting.old }
    requires lanes { AreSmallLanes opposites.now.lanes }
    requires high { AreSmallHighs opposites.now.high }
    ensures stack { OnOk result (IsStack diff.now waiting.new) }
    ensures places { OnOk result ((level : Level) (rest : List Level) → waiting.old ≡ level ∷ rest
        → places_of waiting.new ≡ places_below level.place node ++ places_of rest) }
    ensures as_many { OnOk result (length ends.new ≡ length waiting.new) }
    ensures told { OnOk result ((m : Measure) → length m.directions ≤ 98 → AreOpposites m opposites.now
        → TellAll m diff.now (places_of waiting.old) ends.old → TellAll m diff.now (places_of waiting.new) ends.new) }
    ensures nodes { OnOk result (nodes.new.items ≡ nodes.old.items ++ node ∷ []) }
{
    nodes.push(node)?;
    pass(diff, opposites, waiting, ends, node);
    Ok(())
}

/// A law. The definitions that the contract of [`search`] cites are what their names say: the first direction of a
/// place separates it, and none before it in the table does; no part is blocked exactly where each has a separating
/// direction, and a blocked part is the first that has none. There is a best tree exactly where each part of the depth
/// has a separating direction; it is valid at that depth, and its leaves are the largest parts with a direction, each
/// with its first.
pub fn search_law()
    ensures { SearchLaw }
{}
