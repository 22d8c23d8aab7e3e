//! The parts of a cue that are still to be looked at, each halved where it stands.

ghost use Rattle.std.specs.Prelude.{◌≡◌, ◌<◌, ◌≤◌, ◌^◌, [], ◌∷◌, ◌++◌, List, length, drop, All, MatchOption};
ghost use Rattle.sep_parts.specs.Levels.{IsLevel, IsStack, left_half, places_of, right_half, root};
ghost use Rattle.sep_parts.specs.Trees.{IsShallow, places_below};
ghost use Rattle.sep_parts.specs.declared.stack.Level.{Level};

use crate::node::Node;
use crate::stack::Level;
use fleet_curves::Difference;
use std::marker::Model;

/// At most nine parts, the next one first: one for each depth from 0 to 8. It takes no memory.
#[derive(Drop)]
pub struct Waiting {
    levels: [Level; 9],
    top: usize,
}

impl Model for Waiting {
    ghost use Rattle.std.specs.Prelude.{◌≡◌, List, drop, length, ◌≤◌};
    ghost use Rattle.sep_parts.specs.declared.stack.Level.{Level};

    ghost Value = { List Level };

    ghost view = { λ s. drop s.top s.levels };

    ghost invariant = { λ s. (s.top ≤ 9) × (length s.levels ≡ 9) };
}

impl Waiting {
    /// No part.
    pub fn none() -> Waiting
        ensures { result ≡ [] }
    {
        Waiting {
            levels: [
                Level::zero(),
                Level::zero(),
                Level::zero(),
                Level::zero(),
                Level::zero(),
                Level::zero(),
                Level::zero(),
                Level::zero(),
                Level::zero(),
            ],
            top: 9,
        }
    }

    /// Nothing waits any more.
    pub fn clear(&mut self)
        ensures { self.new ≡ [] }
    {
        self.top = 9;
    }

    /// One part alone.
    pub fn of(level: &Level) -> Waiting
        ensures { result ≡ level.now ∷ [] }
    {
        Waiting {
            levels: [
                Level::zero(),
                Level::zero(),
                Level::zero(),
                Level::zero(),
                Level::zero(),
                Level::zero(),
                Level::zero(),
                Level::zero(),
                level.copied(),
            ],
            top: 8,
        }
    }

    /// The whole cue, where no part waits.
    pub fn begin(&mut self, diff: &Difference)
        requires { self.old ≡ [] }
        ensures { self.new ≡ record { place = root; part = diff.now } ∷ [] }
    {
        self.top = 8;
        let (_, from) = self.levels.split_at_mut(8);
        from[0].begin(diff);
    }

    /// The next part; none where none waits.
    pub fn next(&self) -> Option<&Level>
        ensures { MatchOption result (self.now ≡ []) (λ level. self.now ≡ level.now ∷ drop 1 self.now) }
    {
        if self.top == 9 {
            None
        } else {
            Some(self.first())
        }
    }

    // The next part. There must be one.
    fn first(&self) -> &Level
        requires { 1 ≤ length self.now }
        ensures { self.now ≡ result.now ∷ drop 1 self.now }
    {
        &self.levels[self.top]
    }

    /// Past the next part, whose node this is: where it is a split its halves take its place, the first half first.
    pub fn pass(&mut self, diff: &Difference, node: Node)
        requires some { 1 ≤ length self.old }
        requires stack { IsStack diff.now self.old }
        requires shallow { (level : Level) (rest : List Level) → self.old ≡ level ∷ rest → IsShallow level.place node }
        ensures stack { IsStack diff.now self.new }
        ensures places { (level : Level) (rest : List Level) → self.old ≡ level ∷ rest
            → places_of self.new ≡ places_below level.place node ++ places_of rest }
    {
        match node {
            Node::Leaf { .. } => self.drop_next(),
            Node::Split => self.split(diff),
        }
    }

    // The halves of the next part take its place, the first half first.
    fn split(&mut self, diff: &Difference)
        requires some { 1 ≤ length self.old }
        requires stack { IsStack diff.now self.old }
        requires shallow { (level : Level) (rest : List Level) → self.old ≡ level ∷ rest → level.place.depth < 8 }
        ensures stack { IsStack diff.now self.new }
        ensures places { (level : Level) (rest : List Level) → self.old ≡ level ∷ rest
            → places_of self.new ≡ left_half level.place ∷ right_half level.place ∷ places_of rest }
    {
        let top = self.top;
        let (before, from) = self.levels.split_at_mut(top);
        let level = &mut from[0];
        level.halve(diff, &mut before[top - 1]);
        self.top = top - 1;
    }

    fn drop_next(&mut self)
        requires { 1 ≤ length self.old }
        ensures { self.new ≡ drop 1 self.old }
    {
        self.top += 1;
    }
}
