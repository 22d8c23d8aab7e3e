//! Packets of the format's table, with bytes that were written out by hand from it.

use crtp_packets::{
    Down, PACKET_BYTES, Packet, PacketFault, Piece, READ_BYTES, Up, WRITE_BYTES, from_bytes,
    parse_down, parse_up, parse_up_bytes, read_answer, read_request, write_answer, write_request,
};

// The first 24 bytes, and the others, of a path of one metre along x at one metre's height in two seconds.
const FRONT: &[u8] = &[
    0, 0, 0, 0, 0xE8, 3, 0, 0, 3, 0xD0, 7, 0, 0, 0, 0, 0, 0, 0xE8, 3, 0xE8, 3, 0xE8, 3, 0xE8,
];

const TAIL: &[u8] = &[3, 0, 0, 0];

// A message, by the memory id and the address of a write, of its answer with a status, of a read of a length, and of
// its answer with a status; and the bytes that are written or were read.
#[derive(Clone, Copy)]
enum Message<'a> {
    Write(u8, u32, &'a [u8]),
    Wrote(u8, u32, u8),
    Read(u8, u32, u8),
    WasRead(u8, u32, u8, &'a [u8]),
}

const MADE: &[(Message, &[u8])] = &[
    (
        Message::Write(2, 0, FRONT),
        &[
            0x4E, 2, 0, 0, 0, 0, 0, 0, 0, 0, 0xE8, 3, 0, 0, 3, 0xD0, 7, 0, 0, 0, 0, 0, 0, 0xE8, 3,
            0xE8, 3, 0xE8, 3, 0xE8,
        ],
    ),
    (
        Message::Write(2, 24, TAIL),
        &[0x4E, 2, 0x18, 0, 0, 0, 3, 0, 0, 0],
    ),
    (
        Message::Write(2, 4092, TAIL),
        &[0x4E, 2, 0xFC, 0x0F, 0, 0, 3, 0, 0, 0],
    ),
    (
        Message::WasRead(2, 4068, 0, &[0xE8, 3, 0]),
        &[0x4D, 2, 0xE4, 0x0F, 0, 0, 0, 0xE8, 3, 0],
    ),
    (
        Message::Write(2, 4068, &[0]),
        &[0x4E, 2, 0xE4, 0x0F, 0, 0, 0],
    ),
    (Message::Wrote(2, 0, 5), &[0x4E, 2, 0, 0, 0, 0, 5]),
    (
        Message::Wrote(255, 0xFFFF_FFFF, 2),
        &[0x4E, 255, 255, 255, 255, 255, 2],
    ),
    (
        Message::Read(2, 0x0403_0201, 20),
        &[0x4D, 2, 1, 2, 3, 4, 20],
    ),
    (
        Message::WasRead(3, 4096, 5, &[]),
        &[0x4D, 3, 0, 0x10, 0, 0, 5],
    ),
];

// The packet of a message, where it has no more bytes than one may have.
fn packet_of(it: Message) -> Option<Packet> {
    match it {
        Message::Write(id, address, piece) => {
            if piece.is_empty() || piece.len() > WRITE_BYTES {
                return None;
            }
            Some(write_request(id, address, piece))
        }
        Message::Wrote(id, address, status) => Some(write_answer(id, address, status)),
        Message::Read(id, address, len) => Some(read_request(id, address, len)),
        Message::WasRead(id, address, status, piece) => {
            if piece.len() > READ_BYTES {
                return None;
            }
            Some(read_answer(id, address, status, piece))
        }
    }
}

fn has_bytes(packet: &Option<Packet>, bytes: &[u8]) -> bool {
    match packet {
        Some(packet) => packet.bytes() == bytes,
        None => false,
    }
}

// The number of the first row of which something else is made; none where there is no such row.
fn wrong_message() -> Option<usize> {
    for (k, (it, bytes)) in MADE.iter().enumerate() {
        if !has_bytes(&packet_of(*it), bytes) {
            return Some(k);
        }
    }
    None
}

#[test]
fn makes_messages(rt: HostRuntime) {
    assert_eq!(rt; wrong_message(), None);
}

const SEVENS: [u8; 40] = [7; 40];

// How many bytes there are, and why they are no packet.
const LENGTHS: &[(usize, Option<PacketFault>)] = &[
    (0, Some(PacketFault::Empty)),
    (1, None),
    (30, None),
    (31, None),
    (32, Some(PacketFault::TooLong)),
    (40, Some(PacketFault::TooLong)),
];

// Whether bytes are a packet with these bytes, or none for this fault.
fn is_taken(bytes: &[u8], fault: Option<PacketFault>) -> bool {
    match from_bytes(bytes) {
        Ok(packet) => fault.is_none() && packet.bytes() == bytes,
        Err(e) => Some(e) == fault,
    }
}

// The first length that is wrong.
fn wrong_length() -> Option<usize> {
    for (len, fault) in LENGTHS {
        if *len > 40 || !is_taken(&SEVENS[..*len], *fault) {
            return Some(*len);
        }
    }
    None
}

#[test]
fn packets_have_1_to_31_bytes(rt: HostRuntime) {
    assert_eq!(rt; wrong_length(), None);
}

// The bytes as a piece.
fn piece_of(bytes: &[u8]) -> Piece {
    let mut piece = Piece::new();
    let _ = piece.try_extend_from_slice(bytes);
    piece
}

// What a drone is told: to write bytes to a memory from an address on, to read so many, a command's payload; or
// nothing.
#[derive(Clone, Copy)]
enum Told<'a> {
    Write(u8, u32, &'a [u8]),
    Read(u8, u32, u8),
    Command(&'a [u8]),
    Nothing(PacketFault),
}

fn down_of(told: Told) -> Result<Down, PacketFault> {
    match told {
        Told::Write(id, address, data) => {
            let piece = piece_of(data);
            Ok(Down::Write { id, address, piece })
        }
        Told::Read(id, address, len) => Ok(Down::Read { id, address, len }),
        Told::Command(data) => Ok(Down::Command {
            payload: piece_of(data),
        }),
        Told::Nothing(fault) => Err(fault),
    }
}

const DOWN: &[(&[u8], Told)] = &[
    (
        &[0x4E, 2, 0x18, 0, 0, 0, 3, 0, 0, 0],
        Told::Write(2, 24, &[3, 0, 0, 0]),
    ),
    (&[0x42, 2, 0x18, 0, 0, 0, 3], Told::Write(2, 24, &[3])),
    (
        &[0x46, 2, 255, 255, 255, 255, 9],
        Told::Write(2, 0xFFFF_FFFF, &[9]),
    ),
    (
        &[
            0x4E, 2, 0, 0, 0, 0, 1, 2, 3, 4, 5, 6, 7, 8, 9, 10, 11, 12, 13, 14, 15, 16, 17, 18, 19,
            20, 21, 22, 23, 24, 25,
        ],
        Told::Write(
            2,
            0,
            &[
                1, 2, 3, 4, 5, 6, 7, 8, 9, 10, 11, 12, 13, 14, 15, 16, 17, 18, 19, 20, 21, 22, 23,
                24, 25,
            ],
        ),
    ),
    (&[0x4D, 2, 1, 2, 3, 4, 20], Told::Read(2, 0x0403_0201, 20)),
    (&[0x41, 2, 0, 0x10, 0, 0, 0, 7, 7], Told::Read(2, 4096, 0)),
    (&[0x8C, 5], Told::Command(&[5])),
    (&[0x80, 9, 8, 7], Told::Command(&[9, 8, 7])),
    (&[0x4E, 2, 0, 0, 0, 0], Told::Nothing(PacketFault::Short)),
    (&[0x4D, 2, 0, 0, 0, 0], Told::Nothing(PacketFault::Short)),
    (&[0x8C], Told::Nothing(PacketFault::Short)),
    (
        &[0x4C, 2, 0, 0, 0, 0, 0],
        Told::Nothing(PacketFault::Unknown),
    ),
    (&[0x8D, 5, 0], Told::Nothing(PacketFault::Unknown)),
    (&[0x00, 0x48, 0x69], Told::Nothing(PacketFault::Unknown)),
];

fn tells_a_drone(bytes: &[u8], told: Told) -> bool {
    match from_bytes(bytes) {
        Ok(packet) => parse_down(&packet) == down_of(told),
        Err(_) => false,
    }
}

fn wrong_down() -> Option<usize> {
    for (k, (bytes, told)) in DOWN.iter().enumerate() {
        if !tells_a_drone(bytes, *told) {
            return Some(k);
        }
    }
    None
}

#[test]
fn reads_what_a_drone_is_told(rt: HostRuntime) {
    assert_eq!(rt; wrong_down(), None);
}

// What the host is told: the answer to a write to a memory at an address, with its status; the same of a read, with
// its bytes; the first bytes of a command and its status; or nothing.
#[derive(Clone, Copy)]
enum Heard<'a> {
    Wrote(u8, u32, u8),
    WasRead(u8, u32, u8, &'a [u8]),
    Command([u8; 3], u8),
    Nothing(PacketFault),
}

fn up_of(heard: Heard) -> Result<Up, PacketFault> {
    match heard {
        Heard::Wrote(id, address, status) => Ok(Up::WriteAnswer {
            id,
            address,
            status,
        }),
        Heard::WasRead(id, address, status, data) => {
            let piece = piece_of(data);
            Ok(Up::ReadAnswer {
                id,
                address,
                status,
                piece,
            })
        }
        Heard::Command(first, status) => Ok(Up::CommandAnswer { first, status }),
        Heard::Nothing(fault) => Err(fault),
    }
}

const UP: &[(&[u8], Heard)] = &[
    (&[0x4E, 2, 0, 0, 0, 0, 0], Heard::Wrote(2, 0, 0)),
    (&[0x4E, 2, 0, 0, 0, 0, 5], Heard::Wrote(2, 0, 5)),
    (&[0x4E, 3, 0, 0, 0, 0, 0], Heard::Wrote(3, 0, 0)),
    (&[0x4E, 2, 1, 0, 0, 0, 0], Heard::Wrote(2, 1, 0)),
    (&[0x42, 2, 0x18, 0, 0, 0, 0, 9, 9], Heard::Wrote(2, 24, 0)),
    (&[0x4D, 2, 0, 0, 0, 0, 5], Heard::WasRead(2, 0, 5, &[])),
    (
        &[0x45, 2, 1, 2, 3, 4, 0, 7, 8],
        Heard::WasRead(2, 0x0403_0201, 0, &[7, 8]),
    ),
    (&[0x8C, 6, 0, 1, 2], Heard::Command([6, 0, 1], 2)),
    (&[0x88, 5, 0, 0, 0, 9], Heard::Command([5, 0, 0], 0)),
    (&[0x4E, 2, 0, 0, 0, 0], Heard::Nothing(PacketFault::Short)),
    (&[0x4D, 2, 0, 0, 0, 0], Heard::Nothing(PacketFault::Short)),
    (&[0x8C, 6, 0, 1], Heard::Nothing(PacketFault::Short)),
    (
        &[0x4F, 2, 0, 0, 0, 0, 0],
        Heard::Nothing(PacketFault::Unknown),
    ),
    (&[0x9C, 6, 0, 1, 0], Heard::Nothing(PacketFault::Unknown)),
    (&[0x00, 0x48, 0x69], Heard::Nothing(PacketFault::Unknown)),
];

fn tells_the_host(bytes: &[u8], heard: Heard) -> bool {
    match from_bytes(bytes) {
        Ok(packet) => parse_up(&packet) == up_of(heard),
        Err(_) => false,
    }
}

fn wrong_up() -> Option<usize> {
    for (k, (bytes, heard)) in UP.iter().enumerate() {
        if !tells_the_host(bytes, *heard) {
            return Some(k);
        }
    }
    None
}

#[test]
fn reads_what_the_host_is_told(rt: HostRuntime) {
    assert_eq!(rt; wrong_up(), None);
}

const UP_BYTES: &[(&[u8], Heard)] = &[
    // The answer to a write as a packet of the greatest length: what follows the status is of no account.
    (
        &[
            0x4E, 2, 0x18, 0, 0, 0, 5, 1, 2, 3, 4, 5, 6, 7, 8, 9, 10, 11, 12, 13, 14, 15, 16, 17,
            18, 19, 20, 21, 22, 23, 24,
        ],
        Heard::Wrote(2, 24, 5),
    ),
    (
        &[0x41, 2, 1, 2, 3, 4, 0, 7, 8],
        Heard::WasRead(2, 0x0403_0201, 0, &[7, 8]),
    ),
    (&[0x8C, 5, 0, 0, 2], Heard::Command([5, 0, 0], 2)),
    (
        &[0x4E, 2, 0x18, 0, 0, 0],
        Heard::Nothing(PacketFault::Short),
    ),
    (&[0x8C], Heard::Nothing(PacketFault::Short)),
    (
        &[0x4C, 2, 0x18, 0, 0, 0, 0],
        Heard::Nothing(PacketFault::Unknown),
    ),
    (&[0x00, 0x48, 0x69], Heard::Nothing(PacketFault::Unknown)),
];

fn bytes_tell(bytes: &[u8], heard: Heard) -> bool {
    !bytes.is_empty() && bytes.len() <= PACKET_BYTES && parse_up_bytes(bytes) == up_of(heard)
}

fn wrong_up_bytes() -> Option<usize> {
    for (k, (bytes, heard)) in UP_BYTES.iter().enumerate() {
        if !bytes_tell(bytes, *heard) {
            return Some(k);
        }
    }
    None
}

#[test]
fn reads_the_bytes_of_an_answer(rt: HostRuntime) {
    assert_eq!(rt; wrong_up_bytes(), None);
}
