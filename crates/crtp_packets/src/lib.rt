//! What goes between a host and its drones, as bytes: the packets of the format's table, written and
//! read; the chunks in which bytes are written to a drone's memory; the two commands of an upload.
//!
//! Each message is one definition of `specs/Packets.antt` or `specs/Commands.antt`, which the makers
//! and the readers both cite, and each refusal of a reader has a clause of its own. The chunks of a
//! list of bytes, one after the other, are the bytes (`cover_law`). The crate stands on `arrayvec`
//! and `byteorder`; none of its calls takes memory. docs/RADIO.md, "Messages", "Chunks" and
//! "Commands", has the tables.
#![tactic(auto)]

mod chunks;
mod commands;
mod law;
mod packet;
mod reading;

pub use chunks::{MEMORY_BYTES, chunk, chunk_count, cover_law};
pub use commands::{
    COMMAND_BYTES, COMPRESSED, Command, CommandFault, DEFINE, IN_MEMORY, PLAIN_SCALE, START,
    command_answer, define, parse_command, start,
};
pub use law::limits_law;
pub use packet::{
    COMMAND_CHANNEL, COMMAND_HEADER, COMMANDER_PORT, LINK_BITS, MEMORY_PORT, PACKET_BYTES, Packet,
    READ_BYTES, READ_CHANNEL, WRITE_BYTES, WRITE_CHANNEL, from_bytes, read_answer, read_request,
    write_answer, write_request,
};
pub use reading::{
    Down, MEMORY_LEAST, PAYLOAD_BYTES, PacketFault, Piece, Up, parse_down, parse_up, parse_up_bytes,
};
