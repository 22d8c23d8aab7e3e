//! Commands of the format's table, with bytes that were written out by hand from it.

use crtp_packets::{
    Command, CommandFault, PLAIN_SCALE, Packet, command_answer, define, parse_command, start,
};

// A command that the host makes: a define of an id, an offset and a number of segments, or a start of an id.
#[derive(Clone, Copy)]
enum Made {
    Define(u8, u32, u8),
    Start(u8),
}

fn packet_of(it: Made) -> Packet {
    match it {
        Made::Define(id, offset, pieces) => define(id, offset, pieces),
        Made::Start(id) => start(id),
    }
}

const MADE: &[(Made, &[u8])] = &[
    (Made::Define(0, 0, 1), &[0x8C, 6, 0, 1, 1, 0, 0, 0, 0, 1]),
    (
        Made::Define(0, 4068, 1),
        &[0x8C, 6, 0, 1, 1, 0xE4, 0x0F, 0, 0, 1],
    ),
    (
        Made::Define(9, 0x0403_0201, 255),
        &[0x8C, 6, 9, 1, 1, 1, 2, 3, 4, 255],
    ),
    (Made::Start(0), &[0x8C, 5, 0, 0, 0, 0, 0, 0, 0x80, 0x3F]),
    (Made::Start(9), &[0x8C, 5, 0, 0, 0, 9, 0, 0, 0x80, 0x3F]),
];

fn is_made(it: Made, bytes: &[u8]) -> bool {
    packet_of(it).bytes() == bytes
}

// The first row of which something else is made; none where there is no such row.
fn wrong_command() -> Option<usize> {
    for (k, (it, bytes)) in MADE.iter().enumerate() {
        if !is_made(*it, bytes) {
            return Some(k);
        }
    }
    None
}

#[test]
fn makes_commands(rt: HostRuntime) {
    assert_eq!(rt; wrong_command(), None);
}

// Commands, with a status and the answer that has it.
const ANSWERS: &[(Made, u8, &[u8])] = &[
    (Made::Define(0, 0, 1), 2, &[0x8C, 6, 0, 1, 2]),
    (Made::Define(7, 4096, 3), 5, &[0x8C, 6, 7, 1, 5]),
    (Made::Start(4), 0, &[0x8C, 5, 0, 0, 0]),
];

fn is_answered(it: Made, status: u8, wanted: &[u8]) -> bool {
    let packet = packet_of(it);
    packet.bytes().len() >= 4 && command_answer(&packet, status).bytes() == wanted
}

fn wrong_answer() -> Option<usize> {
    for (k, (it, status, wanted)) in ANSWERS.iter().enumerate() {
        if !is_answered(*it, *status, wanted) {
            return Some(k);
        }
    }
    None
}

#[test]
fn makes_answers(rt: HostRuntime) {
    assert_eq!(rt; wrong_answer(), None);
}

const DEFINED: Command = Command::Define {
    id: 3,
    location: 1,
    form: 1,
    offset: 4068,
    pieces: 2,
};

const OTHER: Command = Command::Define {
    id: 10,
    location: 0,
    form: 2,
    offset: 0xFFFF_FFFF,
    pieces: 0,
};

const STARTED: Command = Command::Start {
    mask: 1,
    relative: 2,
    reversed: 3,
    id: 4,
    scale: PLAIN_SCALE,
};

const READ: &[(&[u8], Result<Command, CommandFault>)] = &[
    (&[6, 3, 1, 1, 0xE4, 0x0F, 0, 0, 2], Ok(DEFINED)),
    (&[6, 3, 1, 1, 0xE4, 0x0F, 0, 0, 2, 7, 7], Ok(DEFINED)),
    (&[6, 10, 0, 2, 255, 255, 255, 255, 0], Ok(OTHER)),
    (&[5, 1, 2, 3, 4, 0, 0, 0x80, 0x3F], Ok(STARTED)),
    (&[5, 1, 2, 3, 4, 0, 0, 0x80, 0x3F, 9], Ok(STARTED)),
    (&[], Err(CommandFault::Short)),
    (&[6, 3, 1, 1, 0xE4, 0x0F, 0, 0], Err(CommandFault::Short)),
    (&[5, 1, 2, 3, 4, 0, 0, 0x80], Err(CommandFault::Short)),
    (&[5], Err(CommandFault::Short)),
    (&[7], Err(CommandFault::Unknown)),
    (&[0, 0, 0, 0, 0, 0, 0, 0, 0], Err(CommandFault::Unknown)),
];

fn is_read(payload: &[u8], command: &Result<Command, CommandFault>) -> bool {
    parse_command(payload) == *command
}

fn wrong_reading() -> Option<usize> {
    for (k, (payload, command)) in READ.iter().enumerate() {
        if !is_read(payload, command) {
            return Some(k);
        }
    }
    None
}

#[test]
fn reads_commands(rt: HostRuntime) {
    assert_eq!(rt; wrong_reading(), None);
}
