//! One drone, which takes packets and answers them.

ghost use Rattle.std.specs.Prelude.{◌≡◌, ℕ, ◌+◌, ◌<◌, ◌≤◌, ◌↔◌, length, replicate, Ok, Some, None, IsNone};
ghost use Rattle.upload_model.specs.Drones.{stored, write_taken, read_taken, command_taken, handled};
ghost use Rattle.crtp_packets.specs.Commands.{command_of};
ghost use Rattle.firmware_memory.specs.Shown.{shown, IsOther};

use crtp_packets::{
    COMPRESSED, Command, Down, IN_MEMORY, PAYLOAD_BYTES, PLAIN_SCALE, Packet, READ_BYTES,
    command_answer, parse_command, parse_down, read_answer, write_answer,
};
use upload_model::{ACCEPTED, Def, MEMORY_BYTES, NO_ROOM, TABLE_ENTRIES, UNFIT};

/// A drone.
#[derive(Drop)]
pub struct Drone {
    /// The id of the trajectory memory.
    pub memory_id: u8,
    /// The bytes of that memory.
    pub memory: [u8; MEMORY_BYTES],
    /// The table of trajectories, by their ids.
    pub defs: [Option<Def>; TABLE_ENTRIES],
    /// The id that was started last.
    pub started: Option<u8>,
}

/// A drone with this memory, no entry, and nothing started.
pub fn make(memory_id: u8, memory: [u8; MEMORY_BYTES]) -> Drone
    ensures { shown result
        ≡ record { memory_id = memory_id; memory = memory; table = replicate TABLE_ENTRIES None; started = None } }
{
    Drone {
        memory_id,
        memory,
        defs: [None; TABLE_ENTRIES],
        started: None,
    }
}

// Writes the bytes from a place on.
fn store(memory: &mut [u8], at: usize, bytes: &[u8])
    requires room { at + length bytes.now ≤ length memory.old }
    ensures { memory.new ≡ stored memory.old at bytes.now }
{
    for (i, byte) in bytes.iter().enumerate() {
        memory[at + i] = *byte;
    }
}

impl Drone {
    /// Takes a packet, and gives its answer. A packet that is neither a write, a read, a define nor a
    /// start has none and changes nothing.
    pub fn handle(&mut self, packet: &Packet) -> Option<Packet>
        ensures state { shown self.new ≡ (handled (shown self.old) packet.now).drone }
        ensures answer { result ≡ (handled (shown self.old) packet.now).answer }
        ensures unanswered { IsNone result ↔ IsOther packet.now }
        ensures unchanged { IsOther packet.now → shown self.new ≡ shown self.old }
    {
        self.step(packet)
    }

    #[tactic(auto, unfolding(upload_model::specs::Drones::handled))]
    fn step(&mut self, packet: &Packet) -> Option<Packet>
        ensures state { shown self.new ≡ (handled (shown self.old) packet.now).drone }
        ensures answer { result ≡ (handled (shown self.old) packet.now).answer }
    {
        match parse_down(packet) {
            Ok(Down::Write { id, address, piece }) => Some(self.write(
                id,
                address,
                piece.as_slice(),
            )),
            Ok(Down::Read { id, address, len }) => Some(self.read(id, address, len)),
            Ok(Down::Command { payload }) => self.command(packet, payload.as_slice()),
            Err(_) => None,
        }
    }

    fn write(&mut self, id: u8, address: u32, bytes: &[u8]) -> Packet
        requires few { length bytes.now ≤ PAYLOAD_BYTES }
        ensures state { shown self.new ≡ (write_taken (shown self.old) id address bytes.now).drone }
        ensures answer { Some result ≡ (write_taken (shown self.old) id address bytes.now).answer }
    {
        if id != self.memory_id {
            return write_answer(id, address, UNFIT);
        }
        let at = address as usize;
        if at + bytes.len() > MEMORY_BYTES {
            return write_answer(id, address, NO_ROOM);
        }
        store(&mut self.memory, at, bytes);
        write_answer(id, address, ACCEPTED)
    }

    fn read(&self, id: u8, address: u32, len: u8) -> Packet
        ensures state { shown self.now ≡ (read_taken (shown self.now) id address len).drone }
        ensures answer { Some result ≡ (read_taken (shown self.now) id address len).answer }
    {
        if id != self.memory_id {
            return read_answer(id, address, UNFIT, &[]);
        }
        let at = address as usize;
        let len = len as usize;
        if len == 0 || len > READ_BYTES || at + len > MEMORY_BYTES {
            return read_answer(id, address, NO_ROOM, &[]);
        }
        read_answer(id, address, ACCEPTED, &self.memory[at..at + len])
    }

    fn command(&mut self, packet: &Packet, payload: &[u8]) -> Option<Packet>
        requires long { length packet.now ≡ length payload.now + 1 }
        ensures state { shown self.new ≡ (command_taken (shown self.old) packet.now (command_of payload.now)).drone }
        ensures answer { result ≡ (command_taken (shown self.old) packet.now (command_of payload.now)).answer }
    {
        match parse_command(payload) {
            Ok(
                Command::Define {
                    id,
                    location,
                    form,
                    offset,
                    pieces,
                },
            ) => {
                if id as usize >= TABLE_ENTRIES || location != IN_MEMORY || form != COMPRESSED {
                    return Some(command_answer(packet, UNFIT));
                }
                if offset as usize >= MEMORY_BYTES {
                    return Some(command_answer(packet, NO_ROOM));
                }
                self.defs[id as usize] = Some(Def { offset, pieces });
                Some(command_answer(packet, ACCEPTED))
            }
            Ok(
                Command::Start {
                    mask,
                    relative,
                    reversed,
                    id,
                    scale,
                },
            ) => {
                if mask != 0
                    || relative != 0
                    || reversed != 0
                    || scale != PLAIN_SCALE
                    || id as usize >= TABLE_ENTRIES
                {
                    return Some(command_answer(packet, UNFIT));
                }
                if self.defs[id as usize].is_none() {
                    return Some(command_answer(packet, UNFIT));
                }
                self.started = Some(id);
                Some(command_answer(packet, ACCEPTED))
            }
            Err(_) => None,
        }
    }
}
