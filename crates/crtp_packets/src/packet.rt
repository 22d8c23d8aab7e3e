//! A packet, 1 to 31 bytes, and the four messages of memory access as packets.

ghost use Rattle.std.specs.Prelude.{◌≡◌, ◌≢◌, ℕ, ◌+◌, ◌<◌, ◌≤◌, ◌↔◌, List, length, IfOk};
ghost use Rattle.crtp_packets.specs.Packets.{memory_message, write_request_of, write_answer_of, read_request_of};
ghost use Rattle.crtp_packets.specs.Packets.{read_answer_of};

use crate::reading::{PacketFault, Piece};
use arrayvec::ArrayVec;
use byteorder::{ByteOrder, LittleEndian};
use std::marker::Model;

/// The most bytes of a packet: a header and 30 bytes of payload (Bitcraze's CRTP).
pub const PACKET_BYTES: usize = 31;

/// The most data bytes of a write that this project sends: docs/RADIO.md, "Messages".
pub const WRITE_BYTES: usize = 24;

/// The most bytes that one read asks for: docs/RADIO.md, "Messages".
pub const READ_BYTES: usize = 20;

/// The port of memory access (Bitcraze's CRTP, table of ports).
pub const MEMORY_PORT: u8 = 4;

/// The channel of port 4 on which memory is read (Bitcraze's memory access).
pub const READ_CHANNEL: u8 = 1;

/// The channel of port 4 on which memory is written (Bitcraze's memory access).
pub const WRITE_CHANNEL: u8 = 2;

/// The port of the high-level commander (Bitcraze's CRTP, table of ports).
pub const COMMANDER_PORT: u8 = 8;

/// The channel of port 8 on which commands are given (Bitcraze's high-level commander).
pub const COMMAND_CHANNEL: u8 = 0;

/// The two reserved bits between port and channel, as this project writes them. They are ignored
/// when a packet is read.
pub const LINK_BITS: u8 = 3;

// The header of a read request and of its answer, as written.
const READ_HEADER: u8 = 0x4D;

// The header of a write request and of its answer, as written.
const WRITE_HEADER: u8 = 0x4E;

/// The header of a command and of its answer, as written.
pub const COMMAND_HEADER: u8 = 0x8C;

/// A packet: 1 to 31 bytes, the header first. Contracts see it as the list of its bytes.
#[derive(Drop)]
pub struct Packet {
    bytes: ArrayVec<u8, PACKET_BYTES>,
}

impl Model for Packet {
    ghost use Rattle.std.specs.Prelude.{ℕ, ◌≤◌, List, length};
    ghost use Rattle.crtp_packets.specs.declared.packet.TheConstants.{PACKET_BYTES};

    ghost Value = { List ℕ };

    ghost view = { λ p. p.bytes.items };

    ghost invariant = { λ p. (1 ≤ length p.bytes.items) × (length p.bytes.items ≤ PACKET_BYTES) };
}

impl Packet {
    /// The bytes of the packet, the header first.
    pub fn bytes(&self) -> &[u8]
        ensures value { result.now ≡ self.now }
        ensures not_empty { 1 ≤ length result.now }
        ensures fits { length result.now ≤ PACKET_BYTES }
    {
        self.bytes.as_slice()
    }
}

/// The packet of these bytes. `Empty` where there are none, `TooLong` where there are more than 31.
pub fn from_bytes(bytes: &[u8]) -> Result<Packet, PacketFault>
    ensures ok { IfOk result (λ p. p ≡ bytes.now) }
    ensures empty { (result ≡ Err PacketFault.Empty) ↔ (length bytes.now ≡ 0) }
    ensures too_long { (result ≡ Err PacketFault.TooLong) ↔ (PACKET_BYTES < length bytes.now) }
    ensures no_unknown { result ≢ Err PacketFault.Unknown }
    ensures no_short { result ≢ Err PacketFault.Short }
{
    if bytes.is_empty() {
        return Err(PacketFault::Empty);
    }
    if bytes.len() > PACKET_BYTES {
        return Err(PacketFault::TooLong);
    }
    let mut copy = ArrayVec::new();
    let _ = copy.try_extend_from_slice(bytes);
    Ok(Packet { bytes: copy })
}

// A message of memory access: a header, a memory id, an address of four bytes, the lowest first,
// and what follows.
fn message(header: u8, id: u8, address: u32, rest: &[u8]) -> Packet
    requires { length rest.now + 6 ≤ PACKET_BYTES }
    ensures { result ≡ memory_message header id address rest.now }
{
    let mut number = [0u8; 4];
    LittleEndian::write_u32(&mut number, address);
    let mut bytes = ArrayVec::new();
    bytes.push(header);
    bytes.push(id);
    let _ = bytes.try_extend_from_slice(&number);
    let _ = bytes.try_extend_from_slice(rest);
    Packet { bytes }
}

/// Asks the drone to write these 1 to 24 bytes to the memory `id` from `address` on.
pub fn write_request(id: u8, address: u32, piece: &[u8]) -> Packet
    requires not_empty { 1 ≤ length piece.now }
    requires fits { length piece.now ≤ WRITE_BYTES }
    ensures { result ≡ write_request_of id address piece.now }
{
    message(WRITE_HEADER, id, address, piece)
}

/// Answers a write to the memory `id` from `address` on. Status 0 says that it was done.
pub fn write_answer(id: u8, address: u32, status: u8) -> Packet
    ensures { result ≡ write_answer_of id address status }
{
    message(WRITE_HEADER, id, address, &[status])
}

/// Asks for `len` bytes of the memory `id` from `address` on.
pub fn read_request(id: u8, address: u32, len: u8) -> Packet
    ensures { result ≡ read_request_of id address len }
{
    message(READ_HEADER, id, address, &[len])
}

/// Answers a read of the memory `id` from `address` on, with at most 20 bytes. Status 0 says that
/// they are the memory's.
pub fn read_answer(id: u8, address: u32, status: u8, piece: &[u8]) -> Packet
    requires { length piece.now ≤ READ_BYTES }
    ensures { result ≡ read_answer_of id address status piece.now }
{
    let mut rest: Piece = ArrayVec::new();
    rest.push(status);
    let _ = rest.try_extend_from_slice(piece);
    message(READ_HEADER, id, address, rest.as_slice())
}
