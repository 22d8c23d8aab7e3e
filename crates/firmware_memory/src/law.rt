//! What holds of all memories.

ghost use Rattle.firmware_memory.specs.Decoded.{CurveLaw};

use traj_codec::spelling_law;

/// A law. A memory decodes to one trajectory alone, and a drone that has the load and the entry of a
/// trajectory carries it: its memory decodes to it, and the ending stands after it.
pub fn curve_law()
    ensures { CurveLaw }
{
    spelling_law();
}
