//! Lines on where two drones come close (docs/COMMANDS.md, `explain`). Drones are named by words; a cue counts from 1
//! in its line, and a fraction of a cue or a part of it from 0.

ghost use Rattle.std.specs.Prelude.{◌≡◌, ◌+◌, ◌*◌, ◌^◌, ◌++◌, OnOk};
ghost use Rattle.touch_witness.specs.Lines.{blocked_closest_line, blocked_pair_line, closest_line, more_blocked_line};
ghost use Rattle.touch_witness.specs.Lines.{no_touch_line, separated_line, touch_line};

use crate::site::{Closest, Part, Touch};
use byte_streams::Lines;
use byte_streams::Word::{Bytes, Large, Number};
use std::alloc::AllocError;
use whole_numbers::{Depth, Fine};

// The number of a cue, which counts from 1 in a line.
fn number(cue: u16) -> u32
    ensures { result ≡ cue + 1 }
{
    u32::from(cue) + 1
}

// The number of equal parts that a cue has at a depth.
fn parts(depth: Depth) -> u32
    ensures { result ≡ 2 ^ depth }
{
    1 << u32::from(depth.levels())
}

/// Adds the line that says that no part of a cue is blocked.
pub fn put_separated(text: &mut Lines) -> Result<(), AllocError>
    ensures { OnOk result (text.new ≡ text.old ++ separated_line) }
{
    text.line(b"separated", &[])
}

/// Adds the line of two drones and the part of a cue, one of 2^`depth`, in which no direction separates them.
pub fn put_blocked<'a>(
    text: &mut Lines,
    first: &'a [u8],
    second: &'a [u8],
    cue: u16,
    index: u16,
    depth: Depth,
) -> Result<(), AllocError>
    ensures { OnOk result (text.new ≡ text.old ++ blocked_pair_line first.now second.now cue index depth) }
{
    text.line(
        b"blocked pair ? ? cue ? part ? of ?",
        &[
            Bytes(first),
            Bytes(second),
            Number(number(cue)),
            Number(u32::from(index)),
            Number(parts(depth)),
        ],
    )
}

/// Adds the line of two drones and the part of a cue in which no direction separates them, and where the two are
/// closest in that cue.
pub fn put_blocked_closest<'a>(
    text: &mut Lines,
    first: &'a [u8],
    second: &'a [u8],
    part: Part,
    fine: Fine,
    closest: Closest,
) -> Result<(), AllocError>
    ensures { OnOk result
        (text.new ≡ text.old ++ blocked_closest_line first.now second.now part.index part.depth fine closest) }
{
    text.line(
        b"blocked pair ? ? cue ? part ? of ? closest at ? of ? level ?",
        &[
            Bytes(first),
            Bytes(second),
            Number(number(closest.cue)),
            Number(u32::from(part.index)),
            Number(parts(part.depth)),
            Number(u32::from(closest.at)),
            Number(u32::from(fine.parts())),
            Large(closest.level),
        ],
    )
}

/// Adds the line that says that more pairs and cues are blocked than there are lines of.
pub fn put_more_blocked(text: &mut Lines) -> Result<(), AllocError>
    ensures { OnOk result (text.new ≡ text.old ++ more_blocked_line) }
{
    text.line(b"blocked more than 200", &[])
}

/// Adds the line of the two drones that are closest, their listed instant and their level.
pub fn put_closest<'a>(
    text: &mut Lines,
    first: &'a [u8],
    second: &'a [u8],
    fine: Fine,
    closest: Closest,
) -> Result<(), AllocError>
    ensures { OnOk result (text.new ≡ text.old ++ closest_line first.now second.now fine closest) }
{
    text.line(
        b"closest pair ? ? cue ? at ? of ? level ?",
        &[
            Bytes(first),
            Bytes(second),
            Number(number(closest.cue)),
            Number(u32::from(closest.at)),
            Number(u32::from(fine.parts())),
            Large(closest.level),
        ],
    )
}

/// Adds the line of the two drones that touch first, and their listed instant.
pub fn put_touch<'a>(
    text: &mut Lines,
    first: &'a [u8],
    second: &'a [u8],
    fine: Fine,
    touch: Touch,
) -> Result<(), AllocError>
    ensures { OnOk result (text.new ≡ text.old ++ touch_line first.now second.now fine touch) }
{
    text.line(
        b"touch pair ? ? cue ? at ? of ?",
        &[
            Bytes(first),
            Bytes(second),
            Number(number(touch.cue)),
            Number(u32::from(touch.at)),
            Number(u32::from(fine.parts())),
        ],
    )
}

fn listed_instants(cues: u16, fine: Fine) -> u32
    ensures { result ≡ cues * (2 ^ fine + 1) }
{
    u32::from(cues) * (u32::from(fine.parts()) + 1)
}

/// Adds the line that says that no two drones touch at a listed instant, and how many instants that are.
pub fn put_no_touch(text: &mut Lines, cues: u16, fine: Fine) -> Result<(), AllocError>
    ensures { OnOk result (text.new ≡ text.old ++ no_touch_line cues fine) }
{
    text.line(
        b"no-touch instants ?",
        &[Number(listed_instants(cues, fine))],
    )
}
