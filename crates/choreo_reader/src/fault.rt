//! Why a text has no show.

use choreo_lines::LineKind;
use std::alloc::{AllocError, AllocFailed};

/// Why a text has no show.
#[derive(Clone, Copy, PartialEq, Eq)]
pub enum ShowFault {
    /// The first faulty line, from 1, and what is wrong with it.
    Line { line: u32, kind: LineKind },
    /// Out of memory.
    Memory,
}

impl From<AllocError> for ShowFault {
    ghost use Rattle.std.specs.Prelude.{◌≡◌};
    ghost use Rattle.choreo_reader.specs.declared.fault.ShowFault.TheVariants.{Memory};

    ghost from_gives = { λ _ e. e ≡ Memory };

    fn from(_: AllocError) -> Self {
        ShowFault::Memory
    }
}

impl<T: Drop> From<AllocFailed<T>> for ShowFault {
    ghost use Rattle.std.specs.Prelude.{◌≡◌};
    ghost use Rattle.choreo_reader.specs.declared.fault.ShowFault.TheVariants.{Memory};

    ghost from_gives = { λ _ e. e ≡ Memory };

    fn from(_: AllocFailed<T>) -> Self {
        ShowFault::Memory
    }
}
