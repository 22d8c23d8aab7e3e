//! Lines on how fast a drone's speed changes at most, and where it jumps (docs/COMMANDS.md, `dynamics`).
ghost use Rattle.std.specs.Prelude.{◌≡◌, ◌++◌, OnOk};
ghost use Rattle.dynamics_bound.specs.Lines.{extremes_line, motion_line, rest_word};

use crate::motion::{Extremes, Motion};
use byte_streams::Lines;
use byte_streams::Word::{Bytes, Large};
use std::alloc::AllocError;

fn rest_word(is_at_rest: bool) -> &'static [u8]
    ensures { result.now ≡ rest_word is_at_rest }
{
    if is_at_rest { b"rest" } else { b"moving" }
}

/// Adds the line of the drone with this name to a text.
pub fn put_motion(text: &mut Lines, name: &[u8], motion: Motion) -> Result<(), AllocError>
    ensures { OnOk result (text.new ≡ text.old ++ motion_line name.now motion) }
{
    let most = motion.most;
    text.line(
        b"dynamics ? acceleration ? ? ? jump ? cue ? ? cue ? ? cue ? begins ? ends ?",
        &[
            Bytes(name),
            Large(most.accelerations.x),
            Large(most.accelerations.y),
            Large(most.accelerations.z),
            Large(most.jumps.x),
            Large(motion.cues.x),
            Large(most.jumps.y),
            Large(motion.cues.y),
            Large(most.jumps.z),
            Large(motion.cues.z),
            Bytes(rest_word(motion.begins_at_rest)),
            Bytes(rest_word(motion.ends_at_rest)),
        ],
    )
}

/// Adds the last line: on each axis the greatest of all drones.
pub fn put_extremes(text: &mut Lines, most: Extremes) -> Result<(), AllocError>
    ensures { OnOk result (text.new ≡ text.old ++ extremes_line most) }
{
    text.line(
        b"greatest acceleration ? ? ? jump ? ? ?",
        &[
            Large(most.accelerations.x),
            Large(most.accelerations.y),
            Large(most.accelerations.z),
            Large(most.jumps.x),
            Large(most.jumps.y),
            Large(most.jumps.z),
        ],
    )
}
