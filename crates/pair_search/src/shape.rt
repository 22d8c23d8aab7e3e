//! How many nodes the tree of a pair in a cue has, with no direction named.

ghost use Rattle.std.specs.Prelude.{◌≡◌, [], OnOk};
ghost use Rattle.std.specs.Option.{is_some};
ghost use Rattle.sep_parts.specs.Levels.{IsLevel};
ghost use Rattle.pair_search.specs.Marks.{TellsEnds};
ghost use Rattle.pair_search.specs.Opposites.{AreOpposites};
ghost use Rattle.pair_search.specs.Search.{first_by};
ghost use Rattle.pair_search.specs.Steps.{CountGives, marked, node_for};

use crate::ends::{Ends, WaitingEnds, ends_of_whole, pass};
use crate::marking::{are_none, common, leaves};
use crate::opposites::Opposites;
use crate::some::some_direction;
use fleet_curves::Difference;
use sep_parts::{Level, Node, Ruler, Waiting};
use whole_numbers::Depth;

/// How many nodes the best tree of a cue has, or the first part that no direction separates. `hint` is the number of a
/// direction that is tried first, and becomes that of the last one that separated a part; it changes nothing of what is
/// found. `waiting` is empty, and so it is left where there is a tree.
pub fn count_with<const M: usize>(
    diff: &Difference,
    ruler: &Ruler<M>,
    opposites: &Opposites,
    depth: Depth,
    hint: &mut usize,
    waiting: &mut Waiting,
) -> Result<u32, u16>
    requires empty { waiting.old ≡ [] }
    requires opposites { AreOpposites ruler.now opposites.now }
    ensures gives { CountGives (first_by ruler.now diff.now) depth result }
    ensures empty { OnOk result (waiting.new ≡ []) }
{
    // a depth is at most 8
    let _levels = depth.levels();
    diff.raised_law();
    let last = *hint;
    if last < ruler.count() && ruler.separates_whole(diff, last) {
        return Ok(1);
    }
    let mut count = 0;
    let mut ends = WaitingEnds::of(ends_of_whole(diff, opposites));
    waiting.begin(diff);
    while let Some(level) = waiting.next() {
        match shape_for(diff, level, ruler, ends.first(), depth, hint) {
            Some(node) => {
                pass(diff, opposites, waiting, &mut ends, node);
                count += 1;
            }
            None => return Err(level.place.index),
        }
    }
    Ok(count)
}

// The node of a part, with no direction named: a leaf where some direction separates it, else a split above the
// greatest depth.
fn shape_for<const M: usize>(
    diff: &Difference,
    level: &Level,
    ruler: &Ruler<M>,
    ends: Ends,
    depth: Depth,
    hint: &mut usize,
) -> Option<Node>
    requires level { IsLevel diff.now level.now }
    requires ends { TellsEnds ruler.now diff.now level.now.place ends }
    ensures { result ≡ node_for (marked (first_by ruler.now diff.now)) depth level.now.place }
{
    if has_direction(diff, level, ruler, ends, hint) {
        Some(Node::Leaf { dir: 0 })
    } else if level.place.depth < depth.levels() {
        Some(Node::Split)
    } else {
        None
    }
}

// Whether a direction of a ruler separates a part. The one that did so last is tried first.
fn has_direction<const M: usize>(
    diff: &Difference,
    level: &Level,
    ruler: &Ruler<M>,
    ends: Ends,
    hint: &mut usize,
) -> bool
    requires level { IsLevel diff.now level.now }
    requires ends { TellsEnds ruler.now diff.now level.now.place ends }
    ensures { result ≡ is_some (first_by ruler.now diff.now level.now.place) }
{
    let count = ruler.count();
    let near = common(ends.first, ends.last);
    if are_none(near) {
        return false;
    }
    let last = *hint;
    if last < count && leaves(near, last, count) && ruler.separates(diff, level, last) {
        return true;
    }
    let Some(dir) = some_direction(diff, level, ruler, near) else {
        return false;
    };
    *hint = usize::from(dir);
    true
}
