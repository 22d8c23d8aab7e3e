//! The trajectory to which a memory decodes.

ghost use Rattle.std.specs.Prelude.{◌≡◌, ℕ, ◌<◌, drop, IfOk, IfSome, IfNone};
ghost use Rattle.traj_codec.specs.declared.traj.Traj.{Traj};
ghost use Rattle.traj_codec.specs.Reading.{BeginsWith};
ghost use Rattle.firmware_memory.specs.Shown.{shown};
ghost use Rattle.firmware_memory.specs.Decoded.{DecodesTo};

use crate::drone::Drone;
use std::alloc::{AllocError, Global};
use traj_codec::{CodecFault, Traj, decode};
use upload_model::MEMORY_BYTES;

// The bytes of a memory from an offset on; past its end there are none.
fn bytes_from(memory: &[u8; MEMORY_BYTES], offset: u32) -> &[u8]
    ensures { result.now ≡ drop offset memory.now }
{
    let from = (offset as usize).min(MEMORY_BYTES);
    &memory[from..]
}

// The trajectory of `pieces` segments that the bytes begin with, if they begin with one.
fn front_of(alloc: Global, bytes: &[u8], pieces: u8) -> Result<Option<Traj>, AllocError>
    ensures some { IfOk result (λ found. IfSome found (λ t. (used : ℕ) × BeginsWith bytes.now pieces t used)) }
    ensures none { IfOk result (λ found. IfNone found
        ((t : Traj) (used : ℕ) → BeginsWith bytes.now pieces t used → ⊥)) }
{
    match decode(alloc, bytes, pieces) {
        Ok((t, _)) => Ok(Some(t)),
        Err(CodecFault::Memory) => Err(AllocError),
        Err(CodecFault::Short { .. }) => Ok(None),
        Err(CodecFault::ZeroDuration { .. }) => Ok(None),
    }
}

/// The trajectory to which the drone's memory decodes under this id, 0 to 9, in millimetres and tenths
/// of a degree; `None` where it decodes to none: the table has no entry of this id, or the bytes from
/// the entry's offset on don't begin with a trajectory of as many segments as the entry says
/// (docs/TRAJECTORY.md).
pub fn curve_of(alloc: Global, drone: &Drone, id: u8) -> Result<Option<Traj>, AllocError>
    requires { id < 10 }
    ensures some { IfOk result (λ found. IfSome found (λ t. DecodesTo (shown drone.now) id t)) }
    ensures none { IfOk result (λ found. IfNone found ((t : Traj) → DecodesTo (shown drone.now) id t → ⊥)) }
{
    match drone.defs[id as usize] {
        Some(entry) => front_of(alloc, bytes_from(&drone.memory, entry.offset), entry.pieces),
        None => Ok(None),
    }
}
