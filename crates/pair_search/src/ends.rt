//! The marks at the ends of the parts that wait, beside the parts.

ghost use Rattle.std.specs.Prelude.{◌≡◌, ℕ, ◌+◌, ◌≤◌, ◌<◌, [], ◌∷◌, ◌++◌, List, length, drop, IsTrue};
ghost use Rattle.sep_parts.specs.Levels.{IsStack, places_of, root};
ghost use Rattle.sep_parts.specs.Rulers.{Measure};
ghost use Rattle.sep_parts.specs.Trees.{IsShallow, places_below};
ghost use Rattle.sep_parts.specs.declared.stack.Level.{Level};
ghost use Rattle.pair_search.specs.declared.ends.Ends.{Ends};
ghost use Rattle.pair_search.specs.declared.opposites.Opposites.{Opposites};
ghost use Rattle.pair_search.specs.Lanes.{AreSmallLanes, IsSmallPoint};
ghost use Rattle.pair_search.specs.Marks.{AreEnds, AreWeighed, IsMarked, IsMarkedIn, IsWeighed, MarkTells};
ghost use Rattle.pair_search.specs.Marks.{TellAll};
ghost use Rattle.pair_search.specs.Opposites.{AreOpposites, AreSmallHighs};
ghost use Rattle.pair_search.specs.Short.{MarksOf};

use crate::lanes::{Point, whole_point_at};
use crate::marking::{Marks, both, early_marks, late_marks};
use crate::opposites::Opposites;
use crate::short::{marks_at, whole_marks_at};
use fleet_curves::Difference;
use sep_parts::{Level, Node, Waiting};
use std::marker::Model;

/// The marks at both ends of a part.
#[derive(Clone, Copy)]
pub struct Ends {
    pub first: Marks,
    pub last: Marks,
}

/// A point with its early marks, and its late ones where they are made.
#[derive(Clone, Copy)]
pub struct Weighed {
    pub point: Point,
    pub early: Marks,
    pub late: Option<Marks>,
}

/// Two points that were weighed last: the ends of a whole cue. The next cue of the same two drones mostly begins where
/// this one ends.
#[derive(Clone, Copy)]
pub struct Kept {
    pub first: Weighed,
    pub last: Weighed,
}

/// The ends of at most nine parts, the next one first. It takes no memory.
#[derive(Drop)]
pub struct WaitingEnds {
    ends: [Ends; 9],
    top: usize,
}

impl Model for WaitingEnds {
    ghost use Rattle.std.specs.Prelude.{◌≡◌, List, drop, length, ◌≤◌};
    ghost use Rattle.pair_search.specs.declared.ends.Ends.{Ends};

    ghost Value = { List Ends };

    ghost view = { λ s. drop s.top s.ends };

    ghost invariant = { λ s. (s.top ≤ 9) × (length s.ends ≡ 9) };
}

impl WaitingEnds {
    /// Those of one part alone.
    pub fn of(ends: Ends) -> WaitingEnds
        ensures { result ≡ ends ∷ [] }
    {
        WaitingEnds {
            ends: [ends; 9],
            top: 8,
        }
    }

    /// Those of the next part. There must be one.
    pub fn first(&self) -> Ends
        requires { 1 ≤ length self.now }
        ensures { self.now ≡ result ∷ drop 1 self.now }
    {
        self.ends[self.top]
    }

    /// Past the next part.
    pub fn drop_next(&mut self)
        requires { 1 ≤ length self.old }
        ensures { self.new ≡ drop 1 self.old }
    {
        self.top += 1;
    }

    /// The halves of the next part take its place, with these marks between them.
    pub fn split(&mut self, middle: Marks)
        requires some { 1 ≤ length self.old }
        requires room { length self.old < 9 }
        ensures { (ends : Ends) (rest : List Ends) → self.old ≡ ends ∷ rest
            → self.new ≡ record { first = ends.first; last = middle } ∷ record { first = middle; last = ends.last } ∷ rest }
    {
        let ends = self.first();
        self.drop_next();
        self.push(Ends {
            first: middle,
            last: ends.last,
        });
        self.push(Ends {
            first: ends.first,
            last: middle,
        });
    }

    // Those of a part before the others. There must be room for them.
    fn push(&mut self, ends: Ends)
        requires { length self.old < 9 }
        ensures { self.new ≡ ends ∷ self.old }
    {
        self.top -= 1;
        self.ends[self.top] = ends;
    }
}

/// The marks at both ends of a whole cue.
pub fn ends_of_whole(diff: &Difference, opposites: &Opposites) -> Ends
    requires lanes { AreSmallLanes opposites.now.lanes }
    requires high { AreSmallHighs opposites.now.high }
    ensures first { MarksOf opposites.now (record { place = root; part = diff.now }) 0 result.first }
    ensures last { MarksOf opposites.now (record { place = root; part = diff.now }) 7 result.last }
{
    Ends {
        first: whole_marks_at(opposites, diff, 0),
        last: whole_marks_at(opposites, diff, 7),
    }
}

/// The ends of a whole cue take the place of those that were weighed last. Only early marks are made.
pub fn weigh_ends(diff: &Difference, opposites: &Opposites, kept: &mut Kept)
    requires lanes { AreSmallLanes opposites.now.lanes }
    requires high { AreSmallHighs opposites.now.high }
    requires kept { AreWeighed opposites.now kept.old }
    ensures { AreEnds opposites.now diff.now kept.new }
{
    weigh(
        opposites,
        whole_point_at(diff, 0),
        &mut kept.first,
        &kept.last,
    );
    weigh(
        opposites,
        whole_point_at(diff, 7),
        &mut kept.last,
        &kept.first,
    );
}

/// Twice the point 0.
pub fn kept_at_zero(opposites: &Opposites) -> Kept
    requires lanes { AreSmallLanes opposites.now.lanes }
    requires high { AreSmallHighs opposites.now.high }
    ensures { AreWeighed opposites.now result }
{
    let zero = newly_weighed(opposites, Point { x: 0, y: 0, z: 0 });
    Kept {
        first: zero,
        last: zero,
    }
}

// A point takes the place of one that was weighed, if it is another: two drones that keep their distance have one
// difference in all cues.
#[inline(always)]
fn weigh(opposites: &Opposites, point: Point, here: &mut Weighed, other: &Weighed)
    requires lanes { AreSmallLanes opposites.now.lanes }
    requires high { AreSmallHighs opposites.now.high }
    requires point { IsSmallPoint point }
    requires here { IsWeighed opposites.now here.old }
    requires other { IsWeighed opposites.now other.now }
    ensures point { here.new.point ≡ point }
    ensures weighed { IsWeighed opposites.now here.new }
{
    if !are_same(&point, &here.point) {
        replace(opposites, point, here, other);
    }
}

// A point takes the place of one that was weighed. It isn't weighed anew where it is the other one: two drones that fly
// alike have one difference at both ends.
#[inline(never)]
fn replace(opposites: &Opposites, point: Point, here: &mut Weighed, other: &Weighed)
    requires lanes { AreSmallLanes opposites.now.lanes }
    requires high { AreSmallHighs opposites.now.high }
    requires point { IsSmallPoint point }
    requires other { IsWeighed opposites.now other.now }
    ensures point { here.new.point ≡ point }
    ensures weighed { IsWeighed opposites.now here.new }
{
    if are_same(&point, &other.point) {
        *here = *other;
    } else {
        *here = newly_weighed(opposites, point);
    }
}

fn newly_weighed(opposites: &Opposites, point: Point) -> Weighed
    requires lanes { AreSmallLanes opposites.now.lanes }
    requires high { AreSmallHighs opposites.now.high }
    requires point { IsSmallPoint point }
    ensures point { result.point ≡ point }
    ensures weighed { IsWeighed opposites.now result }
{
    Weighed {
        point,
        early: early_marks(opposites, &point),
        late: None,
    }
}

/// The late marks of both ends of a whole cue, which are kept with them.
pub fn late_ends(opposites: &Opposites, kept: &mut Kept) -> Ends
    requires lanes { AreSmallLanes opposites.now.lanes }
    requires high { AreSmallHighs opposites.now.high }
    requires kept { AreWeighed opposites.now kept.old }
    ensures kept { AreWeighed opposites.now kept.new }
    ensures first_point { kept.new.first.point ≡ kept.old.first.point }
    ensures last_point { kept.new.last.point ≡ kept.old.last.point }
    ensures first { IsMarkedIn 16 49 opposites.now kept.new.first.point result.first }
    ensures last { IsMarkedIn 16 49 opposites.now kept.new.last.point result.last }
{
    let first = late_of(opposites, &mut kept.first);
    let last = late_from(opposites, &mut kept.last, &kept.first, first);
    Ends { first, last }
}

// The late marks of a point, which aren't made anew where it is another one.
fn late_from(opposites: &Opposites, w: &mut Weighed, other: &Weighed, late: Marks) -> Marks
    requires lanes { AreSmallLanes opposites.now.lanes }
    requires high { AreSmallHighs opposites.now.high }
    requires weighed { IsWeighed opposites.now w.old }
    requires late { IsMarkedIn 16 49 opposites.now other.now.point late }
    ensures weighed { IsWeighed opposites.now w.new }
    ensures point { w.new.point ≡ w.old.point }
    ensures late { IsMarkedIn 16 49 opposites.now w.new.point result }
{
    if are_same(&w.point, &other.point) {
        w.late = Some(late);
        return late;
    }
    late_of(opposites, w)
}

// The late marks of a point, which aren't made anew where they are made.
fn late_of(opposites: &Opposites, w: &mut Weighed) -> Marks
    requires lanes { AreSmallLanes opposites.now.lanes }
    requires high { AreSmallHighs opposites.now.high }
    requires weighed { IsWeighed opposites.now w.old }
    ensures weighed { IsWeighed opposites.now w.new }
    ensures point { w.new.point ≡ w.old.point }
    ensures late { IsMarkedIn 16 49 opposites.now w.new.point result }
{
    if let Some(late) = w.late {
        return late;
    }
    let late = late_marks(opposites, &w.point);
    w.late = Some(late);
    late
}

/// The marks of both ends of a whole cue, whose late marks these are.
pub fn whole_ends(kept: &Kept, late: Ends) -> Ends
    ensures first { (s : Opposites) → IsWeighed s kept.now.first → IsMarkedIn 16 49 s kept.now.first.point late.first
        → IsMarked s kept.now.first.point result.first }
    ensures last { (s : Opposites) → IsWeighed s kept.now.last → IsMarkedIn 16 49 s kept.now.last.point late.last
        → IsMarked s kept.now.last.point result.last }
{
    Ends {
        first: both(kept.first.early, late.first),
        last: both(kept.last.early, late.last),
    }
}

/// What both ends of a whole cue leave of all directions but the first 16, whose bits are clear.
pub fn left_late(late: Ends, ends: Ends) -> Marks
    ensures front { MarkTells late.first.front late.last.front result.front }
    ensures back { MarkTells ends.first.back ends.last.back result.back }
{
    Marks {
        front: late.first.front & late.last.front,
        back: ends.first.back & ends.last.back,
    }
}

fn are_same(p: &Point, q: &Point) -> bool
    ensures { IsTrue result → q.now ≡ p.now }
{
    if p.x != q.x {
        return false;
    }
    if p.y != q.y {
        return false;
    }
    p.z == q.z
}

/// Past the next part, whose node this is, and past its ends. Each caller has its own copy of this function.
#[inline(always)]
pub fn pass(
    diff: &Difference,
    opposites: &Opposites,
    waiting: &mut Waiting,
    ends: &mut WaitingEnds,
    node: Node,
)
    requires some { 1 ≤ length waiting.old }
    requires stack { IsStack diff.now waiting.old }
    requires shallow { (level : Level) (rest : List Level) → waiting.old ≡ level ∷ rest → IsShallow level.place node }
    requires as_many { length ends.old ≡ length waiting.old }
    requires lanes { AreSmallLanes opposites.now.lanes }
    requires high { AreSmallHighs opposites.now.high }
    ensures stack { IsStack diff.now waiting.new }
    ensures places { (level : Level) (rest : List Level) → waiting.old ≡ level ∷ rest
        → places_of waiting.new ≡ places_below level.place node ++ places_of rest }
    ensures as_many { length ends.new ≡ length waiting.new }
    ensures told { (m : Measure) → length m.directions ≤ 98 → AreOpposites m opposites.now
        → TellAll m diff.now (places_of waiting.old) ends.old → TellAll m diff.now (places_of waiting.new) ends.new }
{
    waiting.pass(diff, node);
    match node {
        Node::Leaf { .. } => ends.drop_next(),
        Node::Split => {
            let middle = marks_between(diff, opposites, waiting);
            ends.split(middle)
        }
    }
}

// The marks between the two halves that wait first. Each caller has its own copy of this function.
#[inline(always)]
fn marks_between(diff: &Difference, opposites: &Opposites, waiting: &Waiting) -> Marks
    requires stack { IsStack diff.now waiting.now }
    requires lanes { AreSmallLanes opposites.now.lanes }
    requires high { AreSmallHighs opposites.now.high }
    ensures { (level : Level) (rest : List Level) → waiting.now ≡ level ∷ rest → MarksOf opposites.now level 7 result }
{
    match waiting.next() {
        Some(level) => marks_at(opposites, diff, level, 7),
        None => Marks { front: 0, back: 0 },
    }
}
