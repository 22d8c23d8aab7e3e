//! Which pair of drones and which cue a tree is for.

ghost use Rattle.std.specs.Prelude.{◌≡◌, ◌+◌, ◌-◌, ◌<◌, ◌≤◌, [], ◌∷◌, ◌++◌};

/// A pair of drones and a cue, each counted from 0. Past the last pair of a show, `b` is none of its drones.
#[derive(Clone, Copy, PartialEq, Eq)]
pub struct Slot {
    /// The first drone of the pair.
    pub a: u8,
    /// The second drone, above the first.
    pub b: u8,
    /// The cue.
    pub cue: u16,
}

impl Slot {
    ghost use Rattle.whole_numbers.specs.Limits.{most_cues, most_drones};
    ghost use Rattle.sep_parts.specs.Slots.{IsSlot, following, following_pair};

    /// The first pair and cue.
    pub fn first() -> Slot
        ensures { result ≡ record { a = 0; b = 1; cue = 0 } }
    {
        Slot { a: 0, b: 1, cue: 0 }
    }

    /// The pair and cue after this one: the next cue of the pair, else the first cue of the next pair.
    pub fn next(&self, drones: usize, cues: usize) -> Slot
        requires drones { drones ≤ most_drones }
        requires cues { cues ≤ most_cues }
        requires slot { IsSlot drones cues self.now }
        ensures { result ≡ following drones cues self.now }
    {
        if (self.cue as usize + 1) < cues {
            Slot {
                a: self.a,
                b: self.b,
                cue: self.cue + 1,
            }
        } else {
            self.next_pair(drones)
        }
    }

    /// The first cue of the next pair: with the next second drone, else with the next first drone.
    pub fn next_pair(&self, drones: usize) -> Slot
        requires drones { drones ≤ most_drones }
        requires first { self.now.a < self.now.b }
        requires second { self.now.b < drones }
        ensures { result ≡ following_pair drones self.now }
    {
        if (self.b as usize + 1) < drones {
            Slot {
                a: self.a,
                b: self.b + 1,
                cue: 0,
            }
        } else {
            Slot {
                a: self.a + 1,
                b: self.a + 2,
                cue: 0,
            }
        }
    }
}
