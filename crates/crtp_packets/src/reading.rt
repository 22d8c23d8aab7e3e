//! What a packet is read as. The direction must be known to the caller, since a write of one byte
//! and a write answer have the same form.

ghost use Rattle.std.specs.Prelude.{◌≡◌, ◌≢◌, ℕ, ◌<◌, ◌≤◌, ◌↔◌, [], ◌∷◌, length, drop, slice_index, IfOk, IsSomeAnd};
ghost use Rattle.std.specs.Prelude.{None};
ghost use Rattle.byteorder.specs.Endian.{little_number};
ghost use Rattle.crtp_packets.specs.Packets.{header_in, payload_in, port, channel};
ghost use Rattle.crtp_packets.specs.Reading.{if_long, least_down, least_up, down_of, up_of, SpellsDown, SpellsUp};

use crate::packet::{
    COMMAND_CHANNEL, COMMANDER_PORT, MEMORY_PORT, PACKET_BYTES, Packet, READ_CHANNEL, WRITE_CHANNEL,
};
use arrayvec::ArrayVec;
use byteorder::{ByteOrder, LittleEndian};

/// The most bytes of a payload (Bitcraze's CRTP).
pub const PAYLOAD_BYTES: usize = 30;

/// The fewest bytes of a payload of memory access: an id, an address and one byte.
pub const MEMORY_LEAST: usize = 6;

/// The bytes that a packet carries.
pub type Piece = ArrayVec<u8, PAYLOAD_BYTES>;

/// Why bytes are no packet, or a packet is no message of the table.
#[derive(Clone, Copy, PartialEq, Eq)]
pub enum PacketFault {
    /// There are no bytes.
    Empty,
    /// There are more than 31 bytes.
    TooLong,
    /// The table has no message of this port and channel.
    Unknown,
    /// The payload is shorter than the message's least length.
    Short,
}

/// What a drone is told.
#[derive(Drop, PartialEq, Eq)]
pub enum Down {
    /// Write these 1 to 25 bytes to the memory `id` from `address` on.
    Write { id: u8, address: u32, piece: Piece },
    /// Read `len` bytes of the memory `id` from `address` on.
    Read { id: u8, address: u32, len: u8 },
    /// A command of the high-level commander.
    Command { payload: Piece },
}

/// What the host is told.
#[derive(Drop, PartialEq, Eq)]
pub enum Up {
    /// The answer to a write to the memory `id` from `address` on.
    WriteAnswer {
        id: u8,
        address: u32,
        status: u8,
    },
    /// The answer to a read of the memory `id` from `address` on.
    ReadAnswer {
        id: u8,
        address: u32,
        status: u8,
        piece: Piece,
    },
    /// The answer to the command whose payload began with these three bytes.
    CommandAnswer {
        first: [u8; 3],
        status: u8,
    },
}

// A piece of at most 30 bytes.
fn piece_of(bytes: &[u8]) -> Piece
    requires { length bytes.now ≤ PAYLOAD_BYTES }
    ensures { result.items ≡ bytes.now }
{
    let mut piece = ArrayVec::new();
    let _ = piece.try_extend_from_slice(bytes);
    piece
}

// The port and the channel in a header. The link bits between them are ignored.
fn port_and_channel(header: u8) -> (u8, u8)
    ensures { result ≡ (port header, channel header) }
{
    (header / 16, header % 4)
}

// The memory id and the address with which each payload of memory access begins.
fn place_in(payload: &[u8]) -> Result<(u8, u32), PacketFault>
    ensures { result ≡ if_long payload.now MEMORY_LEAST
        (slice_index payload.now 0, little_number 4 (drop 1 payload.now)) }
{
    if payload.len() < MEMORY_LEAST {
        return Err(PacketFault::Short);
    }
    Ok((payload[0], LittleEndian::read_u32(&payload[1..])))
}

// What the bytes of a packet tell a drone.
fn down_in(bytes: &[u8]) -> Result<Down, PacketFault>
    requires not_empty { 1 ≤ length bytes.now }
    requires fits { length bytes.now ≤ PACKET_BYTES }
    ensures { result ≡ down_of bytes.now }
{
    let payload = &bytes[1..];
    match port_and_channel(bytes[0]) {
        (MEMORY_PORT, WRITE_CHANNEL) => {
            let (id, address) = place_in(payload)?;
            let piece = piece_of(&payload[5..]);
            Ok(Down::Write { id, address, piece })
        }
        (MEMORY_PORT, READ_CHANNEL) => {
            let (id, address) = place_in(payload)?;
            let len = payload[5];
            Ok(Down::Read { id, address, len })
        }
        (COMMANDER_PORT, COMMAND_CHANNEL) => {
            if payload.is_empty() {
                return Err(PacketFault::Short);
            }
            let payload = piece_of(payload);
            Ok(Down::Command { payload })
        }
        _ => Err(PacketFault::Unknown),
    }
}

// The message towards a drone that the bytes of a packet are.
fn down_message(bytes: &[u8]) -> Result<Down, PacketFault>
    requires not_empty { 1 ≤ length bytes.now }
    requires fits { length bytes.now ≤ PACKET_BYTES }
    ensures value { result ≡ down_of bytes.now }
    ensures spells { IfOk result (SpellsDown bytes.now) }
{
    down_in(bytes)
}

/// What the packet tells a drone. `Unknown` where the table has no message of its port and channel,
/// `Short` where it has one and the payload is shorter than that message's least length.
pub fn parse_down(p: &Packet) -> Result<Down, PacketFault>
    ensures value { result ≡ down_of p.now }
    ensures spells { IfOk result (SpellsDown p.now) }
    ensures spelled { (down : Down) → SpellsDown p.now down → result ≡ Ok down }
    ensures unknown { (result ≡ Err PacketFault.Unknown) ↔ (least_down (header_in p.now) ≡ None) }
    ensures short { (result ≡ Err PacketFault.Short)
        ↔ IsSomeAnd (least_down (header_in p.now)) (λ least. length (payload_in p.now) < least) }
    ensures no_empty { result ≢ Err PacketFault.Empty }
    ensures no_too_long { result ≢ Err PacketFault.TooLong }
{
    down_message(p.bytes())
}

// What the bytes of a packet tell the host.
fn up_in(bytes: &[u8]) -> Result<Up, PacketFault>
    requires not_empty { 1 ≤ length bytes.now }
    requires fits { length bytes.now ≤ PACKET_BYTES }
    ensures { result ≡ up_of bytes.now }
{
    let payload = &bytes[1..];
    match port_and_channel(bytes[0]) {
        (MEMORY_PORT, WRITE_CHANNEL) => {
            let (id, address) = place_in(payload)?;
            let status = payload[5];
            Ok(Up::WriteAnswer {
                id,
                address,
                status,
            })
        }
        (MEMORY_PORT, READ_CHANNEL) => {
            let (id, address) = place_in(payload)?;
            let status = payload[5];
            let piece = piece_of(&payload[6..]);
            Ok(Up::ReadAnswer {
                id,
                address,
                status,
                piece,
            })
        }
        (COMMANDER_PORT, COMMAND_CHANNEL) => {
            if payload.len() < 4 {
                return Err(PacketFault::Short);
            }
            let first = [payload[0], payload[1], payload[2]];
            let status = payload[3];
            Ok(Up::CommandAnswer { first, status })
        }
        _ => Err(PacketFault::Unknown),
    }
}

// The message towards the host that the bytes of a packet are.
fn up_message(bytes: &[u8]) -> Result<Up, PacketFault>
    requires not_empty { 1 ≤ length bytes.now }
    requires fits { length bytes.now ≤ PACKET_BYTES }
    ensures value { result ≡ up_of bytes.now }
    ensures spells { IfOk result (SpellsUp bytes.now) }
{
    up_in(bytes)
}

/// What a packet of these 1 to 31 bytes tells the host, without a copy of them: see `parse_up`.
pub fn parse_up_bytes(bytes: &[u8]) -> Result<Up, PacketFault>
    requires not_empty { 1 ≤ length bytes.now }
    requires fits { length bytes.now ≤ PACKET_BYTES }
    ensures value { result ≡ up_of bytes.now }
    ensures spells { IfOk result (SpellsUp bytes.now) }
    ensures spelled { (up : Up) → SpellsUp bytes.now up → result ≡ Ok up }
    ensures unknown { (result ≡ Err PacketFault.Unknown) ↔ (least_up (header_in bytes.now) ≡ None) }
    ensures short { (result ≡ Err PacketFault.Short)
        ↔ IsSomeAnd (least_up (header_in bytes.now)) (λ least. length (payload_in bytes.now) < least) }
    ensures no_empty { result ≢ Err PacketFault.Empty }
    ensures no_too_long { result ≢ Err PacketFault.TooLong }
{
    up_message(bytes)
}

/// What the packet tells the host. `Unknown` where the table has no message of its port and channel,
/// `Short` where it has one and the payload is shorter than that message's least length.
pub fn parse_up(p: &Packet) -> Result<Up, PacketFault>
    ensures value { result ≡ up_of p.now }
    ensures spells { IfOk result (SpellsUp p.now) }
    ensures spelled { (up : Up) → SpellsUp p.now up → result ≡ Ok up }
    ensures unknown { (result ≡ Err PacketFault.Unknown) ↔ (least_up (header_in p.now) ≡ None) }
    ensures short { (result ≡ Err PacketFault.Short)
        ↔ IsSomeAnd (least_up (header_in p.now)) (λ least. length (payload_in p.now) < least) }
    ensures no_empty { result ≢ Err PacketFault.Empty }
    ensures no_too_long { result ≢ Err PacketFault.TooLong }
{
    parse_up_bytes(p.bytes())
}
