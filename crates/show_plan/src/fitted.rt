//! A show that fits, and why a show doesn't.

use choreo_show::{Listed, Name, Settings};
use cue_grid::GridFault;
use figure_expand::AxisValue;
use std::alloc::AllocError;
use traj_codec::Traj;

/// A show with the trajectories of its drones. Names and trajectories have the order of the drones.
#[derive(Drop)]
pub struct Fitted {
    /// The settings of the show.
    pub settings: Settings,
    /// The names of its drones.
    pub names: Listed<Name>,
    /// How many cues it has, repeats written out: 1 to 1,000.
    pub cues: u16,
    /// How long it lasts, in milliseconds.
    pub duration: u32,
    /// The trajectory of each drone, one segment for each cue.
    pub trajs: Listed<Traj>,
    /// What each drone is sent: its trajectory with whole holds that follow each other joined.
    pub sent: Listed<Traj>,
}

/// What keeps a show from having a plan.
#[derive(Clone, Copy, PartialEq, Eq)]
pub enum PlanFault {
    /// A fault of its names or cues.
    Grid { fault: GridFault },
    /// A number that no trajectory can hold.
    OutOfRange { value: AxisValue },
    /// The first drone, from 0, whose trajectory has more segments than a drone's memory can hold, its holds joined.
    TooManySegments { drone: u8, segments: u32 },
    /// The first drone, from 0, whose trajectory has more bytes than a drone's memory has room for after the offset.
    TooLong { drone: u8, bytes: u32, room: u32 },
}

/// Why a show isn't fitted.
#[derive(Clone, Copy, PartialEq, Eq)]
pub enum FitError {
    /// What keeps it from having a plan.
    Fault { fault: PlanFault },
    /// Out of memory.
    Memory,
}

impl From<AllocError> for FitError {
    ghost use Rattle.std.specs.Prelude.{◌≡◌};
    ghost use Rattle.show_plan.specs.declared.fitted.FitError.TheVariants.{Memory};

    ghost from_gives = { λ _ e. e ≡ Memory };

    fn from(_: AllocError) -> Self {
        FitError::Memory
    }
}
