//! The two commands of the high-level commander that an upload uses, define and start, written and
//! read, and the answer to a command. Each is one definition of `specs/Commands.antt`, which the
//! makers and the reader both cite. docs/RADIO.md, "Commands", has the table.

ghost use Rattle.std.specs.Prelude.{◌≡◌, ℕ, ◌<◌, ◌≤◌, ◌⊎◌, ◌↔◌, length, IfOk};
ghost use Rattle.crtp_packets.specs.Commands.{define_of, start_of, answer_of, command_of, IsShort, IsUnknown};
ghost use Rattle.crtp_packets.specs.Commands.{SpellsCommand};

use crate::packet::{COMMAND_HEADER, PACKET_BYTES, Packet, from_bytes};
use byteorder::{ByteOrder, LittleEndian};

/// The first byte of a define's payload (Bitcraze's high-level commander).
pub const DEFINE: u8 = 6;

/// The first byte of a start's payload (Bitcraze's high-level commander).
pub const START: u8 = 5;

/// The location of a trajectory that lies in the drone's memory (Bitcraze's high-level commander).
pub const IN_MEMORY: u8 = 1;

/// The type of a trajectory in the compressed format (Bitcraze's high-level commander).
pub const COMPRESSED: u8 = 1;

/// The bytes of a define's and of a start's payload.
pub const COMMAND_BYTES: usize = 9;

/// The time scale 1.0, as the four bytes that it has. No other is sent, and no number is made of it.
pub const PLAIN_SCALE: [u8; 4] = [0, 0, 0x80, 0x3F];

/// A command that a drone is given.
#[derive(Clone, Copy, PartialEq, Eq)]
pub enum Command {
    /// The trajectory `id` has this many pieces and lies from `offset` on, at a location and in a form.
    Define {
        id: u8,
        location: u8,
        form: u8,
        offset: u32,
        pieces: u8,
    },
    /// Fly the trajectory `id`, with a group mask, two flags and a time scale.
    Start {
        mask: u8,
        relative: u8,
        reversed: u8,
        id: u8,
        scale: [u8; 4],
    },
}

/// Why a payload is no command.
#[derive(Clone, Copy, PartialEq, Eq)]
pub enum CommandFault {
    /// There is no byte, or fewer than 9 of a define or a start.
    Short,
    /// The first byte is neither a define's nor a start's.
    Unknown,
}

// The packet of 1 to 31 bytes.
fn packet_of(bytes: &[u8]) -> Packet
    requires not_empty { 1 ≤ length bytes.now }
    requires fits { length bytes.now ≤ PACKET_BYTES }
    ensures { result ≡ bytes.now }
{
    match from_bytes(bytes) {
        Ok(packet) => packet,
        Err(_) => unreachable!(),
    }
}

/// Tells the drone that its memory has a compressed trajectory of this many pieces from `offset` on,
/// which is to be the entry `id` of its table.
pub fn define(id: u8, offset: u32, pieces: u8) -> Packet
    ensures { result ≡ define_of id offset pieces }
{
    let mut bytes = [
        COMMAND_HEADER,
        DEFINE,
        id,
        IN_MEMORY,
        COMPRESSED,
        0,
        0,
        0,
        0,
        pieces,
    ];
    LittleEndian::write_u32(&mut bytes[5..9], offset);
    packet_of(&bytes)
}

/// Tells every drone that gets it to fly its trajectory `id` at its own pace, from the written start.
pub fn start(id: u8) -> Packet
    ensures { result ≡ start_of id }
{
    let [a, b, c, d] = PLAIN_SCALE;
    packet_of(&[COMMAND_HEADER, START, 0, 0, 0, id, a, b, c, d])
}

/// Answers a command: the first three bytes of its payload, and a status. Status 0 says that it was
/// done.
pub fn command_answer(request: &Packet, status: u8) -> Packet
    requires { 4 ≤ length request.now }
    ensures { result ≡ answer_of request.now status }
{
    let bytes = request.bytes();
    packet_of(&[COMMAND_HEADER, bytes[1], bytes[2], bytes[3], status])
}

// The command of a payload as a function of its bytes.
fn command_in(payload: &[u8]) -> Result<Command, CommandFault>
    ensures { result ≡ command_of payload.now }
{
    if payload.is_empty() {
        return Err(CommandFault::Short);
    }
    let kind = payload[0];
    if kind != DEFINE && kind != START {
        return Err(CommandFault::Unknown);
    }
    if payload.len() < COMMAND_BYTES {
        return Err(CommandFault::Short);
    }
    if kind == DEFINE {
        return Ok(Command::Define {
            id: payload[1],
            location: payload[2],
            form: payload[3],
            offset: LittleEndian::read_u32(&payload[4..]),
            pieces: payload[8],
        });
    }
    Ok(Command::Start {
        mask: payload[1],
        relative: payload[2],
        reversed: payload[3],
        id: payload[4],
        scale: [payload[5], payload[6], payload[7], payload[8]],
    })
}

/// The command that a payload is. Bytes past the ninth are ignored.
pub fn parse_command(payload: &[u8]) -> Result<Command, CommandFault>
    ensures value { result ≡ command_of payload.now }
    ensures spells { IfOk result (SpellsCommand payload.now) }
    ensures spelled { (command : Command) → SpellsCommand payload.now command → result ≡ Ok command }
    ensures short { (result ≡ Err CommandFault.Short) ↔ IsShort payload.now }
    ensures unknown { (result ≡ Err CommandFault.Unknown) ↔ IsUnknown payload.now }
{
    command_in(payload)
}
