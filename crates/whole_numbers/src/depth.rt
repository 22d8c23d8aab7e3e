//! How often a segment is halved.

ghost use Rattle.std.specs.Prelude.{◌≡◌, ◌≤◌};
ghost use Rattle.whole_numbers.specs.Limits.{most_depth};

use std::marker::Model;

/// How often a segment is halved at most, 0 to 8: a contract sees it as this number.
#[derive(Clone, Copy, PartialEq, Eq)]
pub struct Depth {
    levels: u8,
}

impl Model for Depth {
    ghost use Rattle.std.specs.Prelude.{ℕ, ◌≤◌};
    ghost use Rattle.whole_numbers.specs.Limits.{most_depth};

    ghost Value = { ℕ };

    ghost view = { λ d. d.levels };

    ghost inverse = { λ n. record { levels = n } };

    ghost invariant = { λ d. d.levels ≤ most_depth };
}

impl Depth {
    /// This depth.
    pub fn make(levels: u8) -> Depth
        requires { levels ≤ most_depth }
        ensures { result ≡ levels }
    {
        Depth { levels }
    }

    /// The number, 0 to 8.
    pub fn levels(self) -> u8
        ensures same { result ≡ self }
        ensures most { result ≤ most_depth }
    {
        self.levels
    }
}
