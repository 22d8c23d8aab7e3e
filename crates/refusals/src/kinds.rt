//! The words that name what is wrong.

ghost use Rattle.std.specs.Prelude.{◌≡◌, ◌≤◌, length};
ghost use Rattle.cue_grid.specs.Faults.{line_of};
ghost use Rattle.refusals.specs.KindWords.{kind_word, grid_word, axis_word};

use choreo_lines::LineKind;
use cue_grid::GridFault;

pub(crate) fn kind_word(kind: LineKind) -> &'static [u8]
    ensures word { result.now ≡ kind_word kind }
    ensures short { length result.now ≤ 15 }
{
    match kind {
        LineKind::BadByte => b"bad-byte",
        LineKind::Header => b"header",
        LineKind::BadWord => b"bad-word",
        LineKind::BadName => b"bad-name",
        LineKind::BadCount => b"bad-count",
        LineKind::BadNumber => b"bad-number",
        LineKind::Range => b"range",
        LineKind::DoubleSetting => b"double-setting",
        LineKind::Nesting => b"nesting",
        LineKind::EmptyBlock => b"empty-block",
        LineKind::NoEnd => b"no-end",
    }
}

// The line that a fault of names or cues names, and the word of its kind.
pub(crate) fn line_and_word(fault: GridFault) -> (u32, &'static [u8])
    ensures line { result.0 ≡ line_of fault }
    ensures word { result.1.now ≡ grid_word fault }
    ensures short { length result.1.now ≤ 15 }
{
    match fault {
        GridFault::NoDrone { line } => (line, b"no-drone"),
        GridFault::TooManyDrones { line } => (line, b"too-many-drones"),
        GridFault::DoubleName { line } => (line, b"double-name"),
        GridFault::UnknownName { line } => (line, b"unknown-name"),
        GridFault::DoubleAct { line } => (line, b"double-act"),
        GridFault::RoleCount { line } => (line, b"role-count"),
        GridFault::NoCue { line } => (line, b"no-cue"),
        GridFault::TooManyCues { line } => (line, b"too-many-cues"),
    }
}

// The word of an axis: 0 to 3 for x, y, z and yaw.
pub(crate) fn axis_word(axis: u8) -> &'static [u8]
    requires { axis ≤ 3 }
    ensures word { result.now ≡ axis_word axis }
    ensures short { length result.now ≤ 3 }
{
    match axis {
        0 => b"x",
        1 => b"y",
        2 => b"z",
        _ => b"yaw",
    }
}
