//! Cues written out, and what can be wrong with the names and cues of a show.

use choreo_show::{Act, DroneLine, Frame, Listed};
use std::alloc::AllocError;

/// What one drone does in a cue.
#[derive(Clone, Copy, PartialEq, Eq)]
pub struct Job {
    /// The act line or `form` line that gives the act; for a drone that holds without one, the line of the cue.
    pub line: u32,
    /// The frame of the perform that the cue is of, or the one that changes nothing.
    pub frame: Frame,
    /// The act as it is written, in the frame: micrometres, and tenths of a degree for a yaw.
    pub act: Act,
}

/// A cue, with one job for each drone of the show, in the order of the drones.
#[derive(Drop)]
pub struct Cue {
    /// How long it lasts, in milliseconds: 1 to 65,535.
    pub ms: u16,
    /// The job of each drone.
    pub jobs: Listed<Job>,
}

/// The starts of the drones, and the cues in order.
#[derive(Drop)]
pub struct Grid {
    /// The lines of the drones: 1 to 32.
    pub starts: Listed<DroneLine>,
    /// The cues, repeats written out: 1 to 1,000.
    pub cues: Listed<Cue>,
}

/// What is wrong with the names or the cues of a show, and in which line.
#[derive(Clone, Copy, PartialEq, Eq)]
pub enum GridFault {
    /// There is no drone; named is line 1.
    NoDrone { line: u32 },
    /// There are more than 32 drones; named is the line of the 33rd.
    TooManyDrones { line: u32 },
    /// An earlier drone, formation or figure has the name, or two roles of the figure have one name.
    DoubleName { line: u32 },
    /// There is no drone, role, formation or figure of this name.
    UnknownName { line: u32 },
    /// A drone has two acts in a cue, two places in a formation, or two roles in a perform.
    DoubleAct { line: u32 },
    /// A perform names more or fewer drones than its figure has roles.
    RoleCount { line: u32 },
    /// There is no cue, repeat or perform outside the figures; named is line 1.
    NoCue { line: u32 },
    /// There are more than 1,000 cues; named is the first block with which there are.
    TooManyCues { line: u32 },
}

/// Why a show isn't unrolled.
#[derive(Clone, Copy)]
pub enum UnrollError {
    /// What is wrong with its names or cues.
    Fault { fault: GridFault },
    /// Out of memory.
    Memory,
}

impl From<AllocError> for UnrollError {
    ghost use Rattle.std.specs.Prelude.{◌≡◌};
    ghost use Rattle.cue_grid.specs.declared.grid.UnrollError.TheVariants.{Memory};

    ghost from_gives = { λ _ e. e ≡ Memory };

    fn from(_: AllocError) -> Self {
        UnrollError::Memory
    }
}
