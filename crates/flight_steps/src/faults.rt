//! Why three shows are no flight.

use std::alloc::AllocError;

/// One of the two ways beside the show.
#[derive(Clone, Copy, PartialEq, Eq)]
pub enum Way {
    Up,
    Down,
}

/// Where one of the three shows ends and the next one begins.
#[derive(Clone, Copy, PartialEq, Eq)]
pub enum Seam {
    /// The end of the way up, and the beginning of the show.
    UpToShow,
    /// The end of the show, and the beginning of the way down.
    ShowToDown,
    /// The end of the way down, and the beginning of the way up.
    DownToUp,
}

/// Why three shows are no flight. Drones and cues are numbered from 0.
#[derive(Clone, Copy, PartialEq, Eq)]
pub enum FlightFault {
    /// The way has no drone of this number, has one that the show doesn't have, or names it otherwise.
    OtherDrone { way: Way, drone: usize },
    /// The drone doesn't begin where it ended.
    Gap { seam: Seam, drone: usize },
    /// In this cue of its way the drone neither holds nor moves from rest to rest.
    Restless { way: Way, drone: usize, cue: usize },
    /// The drone doesn't move on its way.
    Still { way: Way, drone: usize },
    /// Its first move on the way up doesn't go straight up, or its last move on the way down not straight down.
    Slanted { way: Way, drone: usize },
    /// Drones may stand farther from their pads than they may stray from their way up.
    Narrow { near: u16, stray: u16 },
    /// The ellipsoid of the way isn't that of the show.
    OtherEllipsoid { way: Way },
}

/// Why there are no steps.
#[derive(Clone, Copy, PartialEq, Eq)]
pub enum StepsError {
    /// The three shows are no flight.
    Fault { fault: FlightFault },
    /// Out of memory.
    Memory,
}

impl From<AllocError> for StepsError {
    ghost use Rattle.std.specs.Prelude.{◌≡◌};
    ghost use Rattle.flight_steps.specs.declared.faults.StepsError.TheVariants.{Memory};

    ghost from_gives = { λ _ e. e ≡ Memory };

    fn from(_: AllocError) -> Self {
        StepsError::Memory
    }
}
