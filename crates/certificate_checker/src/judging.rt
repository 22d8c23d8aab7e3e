//! The trees of a certificate, judged node by node.

ghost use Rattle.std.specs.Prelude.{◌≡◌, ◌+◌, ◌^◌, ◌≤◌, ◌<◌, IsTrue, false};
ghost use Rattle.sep_parts.specs.Levels.{IsStack, places_of};
ghost use Rattle.sep_parts.specs.Slots.{slot_at};
ghost use Rattle.sep_parts.specs.Trees.{IsKnown};
ghost use Rattle.sep_parts.specs.Versions.{IsVersion, known_in, table_of};
ghost use Rattle.certificate_checker.specs.Bytes.{most_bytes};
ghost use Rattle.certificate_checker.specs.Checking.{before_tree, judged_verdict, with_node, with_tree};
ghost use Rattle.certificate_checker.specs.Judgments.{AreParts, HasAtMost, IsDifference, IsNext, IsPassed};
ghost use Rattle.certificate_checker.specs.Judgments.{IsSlotOrPast, places_left};

use crate::tables::Tables;
use crate::verdict::Verdict;
use bezier_core::Bez;
use fleet_curves::{Curves, Difference};
use sep_certificate::CertFault;
use sep_parts::{Node, Slot, Waiting};
use std::marker::Model;
use whole_numbers::Depth;

/// The pair and cue whose tree comes next, the places of that tree that are still to be judged, with the parts of the
/// curves there, and the number of whole trees; or the first fault. Contracts see what is judged, and the difference of
/// the pair's curves.
#[derive(Drop)]
pub struct Judging {
    slot: Slot,
    trees: u32,
    fault: Option<CertFault>,
    diff: Difference,
    waiting: Waiting,
    // No node of the tree is judged yet. Then no part waits, not even the whole cue.
    whole: bool,
}

impl Model for Judging {
    ghost use Rattle.std.specs.Prelude.{◌≡◌};
    ghost use Rattle.certificate_checker.specs.Judgments.{AreParts, Judgment, judged_by, places_left};

    ghost Value = { Judgment };

    ghost view = { λ j.
        record { judged = judged_by j.slot (places_left j.whole j.waiting) j.trees j.fault; diff = j.diff } };

    ghost invariant = { λ j. AreParts j.diff j.whole j.waiting };
}

// Zeros, where no pair and cue comes next. Nobody reads them.
fn nothing() -> Difference {
    Difference::make([Bez { b: [0; 8] }; 3])
}

fn difference(curves: &Curves, slot: Slot) -> Difference
    requires { IsSlotOrPast curves.now slot }
    ensures { IsDifference curves.now slot result }
{
    if usize::from(slot.b) < curves.drones() {
        curves.diff(slot.a as usize, slot.b as usize, slot.cue as usize)
    } else {
        nothing()
    }
}

// Whether the node is the first of its tree and a leaf that separates the whole cue. Most trees are such a leaf, and it
// is judged on the rows of 32 bits as they are kept. At any other first node the whole cue waits, its curves widened.
fn passes_whole(
    whole: bool,
    waiting: &mut Waiting,
    diff: &Difference,
    tables: &Tables,
    version: u8,
    node: Node,
) -> bool
    requires parts { AreParts diff.now whole waiting.old }
    requires version { IsVersion version }
    requires known { IsKnown (known_in version) node }
    ensures passed { IsTrue result
        → IsPassed tables.now (table_of version) diff.now (places_left whole waiting.old) node (places_of waiting.new) }
    ensures waits { result ≡ false → places_of waiting.new ≡ places_left whole waiting.old }
    ensures stack { IsStack diff.now waiting.new }
{
    if !whole {
        return false;
    }
    if let Node::Leaf { dir } = node {
        if tables.separates_whole(version, diff, dir) {
            return true;
        }
    }
    diff.raised_law();
    waiting.begin(diff);
    false
}

impl Judging {
    // Before the tree of a pair and cue with this difference, after `trees` trees.
    fn over(diff: Difference, slot: Slot, trees: u32) -> Judging
        ensures judged { result.judged ≡ before_tree slot trees }
        ensures diff { result.diff ≡ diff }
    {
        Judging {
            slot,
            trees,
            fault: None,
            diff,
            waiting: Waiting::none(),
            whole: true,
        }
    }

    // Before anything is judged.
    pub fn idle() -> Judging
        ensures { result.judged ≡ before_tree (slot_at 0 1 0) 0 }
    {
        Judging::over(nothing(), Slot::first(), 0)
    }

    // Before the first tree.
    pub fn first_tree(curves: &Curves) -> Judging
        ensures judged { result.judged ≡ before_tree (slot_at 0 1 0) 0 }
        ensures next { IsNext curves.now result.judged result.diff }
    {
        // there is at least one cue
        let _cues = curves.cues();
        Judging::before_tree(curves, Slot::first(), 0)
    }

    // Before the tree of a pair and cue.
    pub fn before_tree(curves: &Curves, slot: Slot, trees: u32) -> Judging
        requires { IsSlotOrPast curves.now slot }
        ensures judged { result.judged ≡ before_tree slot trees }
        ensures next { IsNext curves.now result.judged result.diff }
    {
        Judging::over(difference(curves, slot), slot, trees)
    }

    fn go_before(&mut self, curves: &Curves, slot: Slot, trees: u32)
        requires { IsSlotOrPast curves.now slot }
        ensures judged { self.new.judged ≡ before_tree slot trees }
        ensures next { IsNext curves.now self.new.judged self.new.diff }
    {
        self.diff = difference(curves, slot);
        self.waiting.clear();
        self.whole = true;
        self.slot = slot;
        self.trees = trees;
        self.fault = None;
    }

    // Judges a node of the tree that comes next, of a certificate of this version and depth. After the first fault, and
    // in a tree too many, no node is judged.
    pub fn node(&mut self, curves: &Curves, tables: &Tables, version: u8, depth: Depth, node: Node)
        requires next { IsNext curves.now self.old.judged self.old.diff }
        requires version { IsVersion version }
        requires known { IsKnown (known_in version) node }
        ensures judged { self.new.judged ≡ with_node (record { clearance = tables.now; depth = depth })
            (table_of version) curves.now self.old.judged node }
        ensures next { IsNext curves.now self.new.judged self.new.diff }
    {
        if self.fault.is_some() || usize::from(self.slot.b) >= curves.drones() {
            return;
        }
        let whole = self.whole;
        self.whole = false;
        if passes_whole(whole, &mut self.waiting, &self.diff, tables, version, node) {
            return;
        }
        let Some(level) = self.waiting.next() else {
            return;
        };
        self.fault = tables.fault(version, depth, &self.diff, level, self.slot, node);
        if self.fault.is_none() {
            self.waiting.pass(&self.diff, node);
        }
    }

    pub fn end_tree(&mut self, curves: &Curves)
        requires next { IsNext curves.now self.old.judged self.old.diff }
        requires few { HasAtMost most_bytes self.old.judged }
        ensures judged { self.new.judged ≡ with_tree curves.now self.old.judged }
        ensures next { IsNext curves.now self.new.judged self.new.diff }
    {
        if self.fault.is_some() {
            return;
        }
        if usize::from(self.slot.b) >= curves.drones() {
            self.fault = Some(CertFault::Extra { tree: self.trees });
            return;
        }
        let slot = self.slot.next(curves.drones(), curves.cues());
        self.go_before(curves, slot, self.trees + 1);
    }

    // The verdict where the text ends here.
    pub fn verdict(&self, curves: &Curves, version: u8, depth: Depth) -> Verdict
        ensures { result ≡ judged_verdict curves.now version depth self.now.judged }
    {
        if let Some(fault) = self.fault {
            return Verdict::Refused { version, fault };
        }
        if usize::from(self.slot.b) < curves.drones() {
            return Verdict::Refused {
                version,
                fault: CertFault::Missing {
                    a: self.slot.a,
                    b: self.slot.b,
                    cue: self.slot.cue,
                },
            };
        }
        Verdict::Valid {
            depth: depth.levels(),
            trees: self.trees,
        }
    }
}
