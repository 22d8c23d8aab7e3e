//! The numbers of packets, of chunks and of commands.

ghost use Rattle.std.specs.Prelude.{◌≡◌};

use crate::chunks::MEMORY_BYTES;
use crate::commands::{COMMAND_BYTES, COMPRESSED, DEFINE, IN_MEMORY, START};
use crate::packet::*;
use crate::reading::{MEMORY_LEAST, PAYLOAD_BYTES};

/// A law. The numbers of packets, chunks and commands, which the definitions cite by their names
/// (docs/RADIO.md, "Messages", "A drone" and "Commands").
pub fn limits_law()
    ensures packet { PACKET_BYTES ≡ 31 }
    ensures payload { PAYLOAD_BYTES ≡ 30 }
    ensures write { WRITE_BYTES ≡ 24 }
    ensures read { READ_BYTES ≡ 20 }
    ensures memory_port { MEMORY_PORT ≡ 4 }
    ensures read_channel { READ_CHANNEL ≡ 1 }
    ensures write_channel { WRITE_CHANNEL ≡ 2 }
    ensures commander_port { COMMANDER_PORT ≡ 8 }
    ensures command_channel { COMMAND_CHANNEL ≡ 0 }
    ensures link_bits { LINK_BITS ≡ 3 }
    ensures least { MEMORY_LEAST ≡ 6 }
    ensures memory { MEMORY_BYTES ≡ 4096 }
    ensures define { DEFINE ≡ 6 }
    ensures start { START ≡ 5 }
    ensures location { IN_MEMORY ≡ 1 }
    ensures form { COMPRESSED ≡ 1 }
    ensures command { COMMAND_BYTES ≡ 9 }
{}
