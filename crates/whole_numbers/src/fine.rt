//! How finely the instants of a cue are listed.

ghost use Rattle.std.specs.Prelude.{◌≡◌, ◌≤◌, ◌^◌};
ghost use Rattle.whole_numbers.specs.Limits.{most_fine};

use std::marker::Model;

/// How often a cue is halved to list its instants, 0 to 5: a contract sees it as this number.
#[derive(Clone, Copy, PartialEq, Eq)]
pub struct Fine {
    halvings: u8,
}

impl Model for Fine {
    ghost use Rattle.std.specs.Prelude.{ℕ, ◌≤◌};
    ghost use Rattle.whole_numbers.specs.Limits.{most_fine};

    ghost Value = { ℕ };

    ghost view = { λ f. f.halvings };

    ghost inverse = { λ n. record { halvings = n } };

    ghost invariant = { λ f. f.halvings ≤ most_fine };
}

impl Fine {
    /// As fine as this.
    pub fn make(halvings: u8) -> Fine
        requires { halvings ≤ most_fine }
        ensures { result ≡ halvings }
    {
        Fine { halvings }
    }

    /// The number of equal parts that a cue is cut into, 1 to 32.
    pub fn parts(self) -> u8
        ensures exact { result ≡ 2 ^ self }
        ensures few { result ≤ 32 }
        ensures fine { self ≤ most_fine }
    {
        1 << self.halvings
    }
}
