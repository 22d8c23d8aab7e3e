//! The line that says how fast a drone is at most.
ghost use Rattle.std.specs.Prelude.{◌≡◌, ◌++◌, ℕ, pos, OnOk};
ghost use Rattle.speed_bound.specs.Lines.{speed_line};

use byte_streams::Lines;
use byte_streams::Word::{Bytes, Decimal};
use std::alloc::AllocError;

/// Adds the line of a drone to a text: its name, and its bounds on x, y and z as [`bound`](crate::bound) gives them, in
/// micrometres per second (docs/COMMANDS.md, `speed`).
pub fn put_speeds(text: &mut Lines, name: &[u8], x: i64, y: i64, z: i64) -> Result<(), AllocError>
    ensures { (a b c : ℕ) → x ≡ pos a → y ≡ pos b → z ≡ pos c
        → OnOk result (text.new ≡ text.old ++ speed_line name.now a b c) }
{
    text.line(
        b"speed ? ? ? ?",
        &[Bytes(name), Decimal(x), Decimal(y), Decimal(z)],
    )
}
