//! What one line of a text says.

use choreo_show::{Act, Frame, Listed, Name, Point};
use std::alloc::{AllocError, AllocFailed};

/// What is wrong with a line, in the order in which the kinds are judged.
#[derive(Clone, Copy, PartialEq, Eq)]
pub enum LineKind {
    /// A byte that may not stand outside a comment.
    BadByte,
    /// The first line with words isn't `choreo 1` or `choreo 2`.
    Header,
    /// The first word has no place here, or an act or a fixed word is unknown.
    BadWord,
    /// A word in the place of a name isn't one.
    BadName,
    /// The number of words isn't that of the line.
    BadCount,
    /// A word in the place of a number isn't one, or not as the form of the text writes it.
    BadNumber,
    /// A number is out of its range.
    Range,
    /// A setting of this kind stands on an earlier line.
    DoubleSetting,
    /// A `repeat` inside eight others.
    Nesting,
    /// An `end` of a formation, a figure or a repeat without a line in it.
    EmptyBlock,
    /// The text ends inside a block, which this line opens.
    NoEnd,
}

/// Why a line wasn't read.
#[derive(Clone, Copy)]
pub enum LineError {
    Kind(LineKind),
    Memory,
}

/// The first word of a line.
#[derive(Clone, Copy)]
pub enum Keyword {
    Memory,
    Trajectory,
    Ellipsoid,
    Stray,
    Late,
    Drone,
    Formation,
    At,
    Figure,
    Cue,
    Repeat,
    Perform,
    Form,
    End,
    Other,
}

/// Where a line stands: by the innermost open block, and whether a figure is open.
#[derive(Clone, Copy)]
pub enum Place {
    Top,
    InFormation,
    /// In a figure, or in a repeat of a figure.
    InFigure,
    /// In a repeat that isn't inside a figure.
    InRepeat,
    /// In a cue that isn't inside a figure.
    InCue,
    InFigureCue,
}

/// What a line says.
#[derive(Drop)]
pub enum Entry {
    Memory {
        id: u8,
        offset: u16,
    },
    Trajectory {
        id: u8,
    },
    Ellipsoid {
        r: u16,
        h: u16,
    },
    Stray {
        mm: u16,
    },
    Late {
        ms: u16,
    },
    Drone {
        name: Name,
        at: Point,
    },
    Formation {
        name: Name,
    },
    At {
        name: Name,
        at: Point,
    },
    Figure {
        name: Name,
        roles: Listed<Name>,
    },
    Cue {
        ms: u16,
    },
    Repeat {
        times: u32,
    },
    Perform {
        figure: Name,
        frame: Frame,
        drones: Listed<Name>,
    },
    Form {
        formation: Name,
        smooth: bool,
    },
    One {
        name: Name,
        act: Act,
    },
    End,
}

impl From<LineKind> for LineError {
    ghost use Rattle.std.specs.Prelude.{◌≡◌};
    ghost use Rattle.choreo_lines.specs.declared.line.LineError.TheVariants.{Kind, Memory};

    ghost from_gives = { λ k e. e ≡ Kind k };

    fn from(kind: LineKind) -> Self {
        LineError::Kind(kind)
    }
}

impl From<AllocError> for LineError {
    ghost use Rattle.std.specs.Prelude.{◌≡◌};
    ghost use Rattle.choreo_lines.specs.declared.line.LineError.TheVariants.{Kind, Memory};

    ghost from_gives = { λ _ e. e ≡ Memory };

    fn from(_: AllocError) -> Self {
        LineError::Memory
    }
}

impl<T: Drop> From<AllocFailed<T>> for LineError {
    ghost use Rattle.std.specs.Prelude.{◌≡◌};
    ghost use Rattle.choreo_lines.specs.declared.line.LineError.TheVariants.{Kind, Memory};

    ghost from_gives = { λ _ e. e ≡ Memory };

    fn from(_: AllocFailed<T>) -> Self {
        LineError::Memory
    }
}
