//! What is to be uploaded, and the packets that do it.

ghost use Rattle.std.specs.Prelude.{◌≡◌, ℕ, ◌+◌, ◌*◌, ◌<◌, ◌≤◌, List, [], ◌∷◌, ◌++◌, length, take, map, IfOk, Bool};
ghost use Rattle.std.specs.Prelude.{slice_index, slice_index_or};
ghost use Rattle.whole_numbers.specs.Limits.{most_drones};
ghost use Rattle.upload_model.specs.Sessions.{IsSession, drone_count, load_of, write_count, load_count, read_count};
ghost use Rattle.upload_model.specs.Sessions.{start_number, packet_count, packet_at, read_start, wanted, first_of};
ghost use Rattle.upload_model.specs.Sessions.{count_of};
ghost use Rattle.upload_core.specs.Uploads.{upload_of};

use crtp_packets::{
    Packet, READ_BYTES, chunk, chunk_count, define, read_request, start, write_request,
};
use std::alloc::{AllocError, Global};
use std::marker::Model;
use upload_model::{Listed, Load, MEMORY_BYTES, Phase};

// The most writes of a drone, one for each piece of a whole memory.
const MOST_WRITES: usize = 171;

// The most reads of a drone, of a whole memory.
const MOST_READS: usize = (MEMORY_BYTES + READ_BYTES - 1) / READ_BYTES;

/// The most packets of a drone: its writes, its define, its reads and its start.
pub const MOST_PACKETS: usize = MOST_WRITES + 1 + MOST_READS + 1;

/// Where the bytes of all loads go: the id of the drones' trajectory memory, the place of the first
/// byte in it, 0 to 4,095, and the trajectory's id in the table, 0 to 9.
#[derive(Clone, Copy)]
pub struct Settings {
    pub memory_id: u8,
    pub offset: u16,
    pub trajectory_id: u8,
}

/// An upload: where it goes, what goes to each drone, whether the memories are read back, and whether
/// the drones are started.
#[derive(Drop)]
pub struct Session {
    settings: Settings,
    loads: Vec<Load>,
    readback: bool,
    start: bool,
}

impl Model for Session {
    ghost use Rattle.upload_model.specs.Sessions.{Upload, IsSession};
    ghost use Rattle.upload_core.specs.Uploads.{upload_of};

    ghost Value = { Upload };

    ghost view = { λ s. upload_of s.settings s.loads.items s.readback s.start };

    ghost invariant = { λ s. IsSession (upload_of s.settings s.loads.items s.readback s.start) };
}

impl Session {
    /// A session with its own copy of the loads, one for each drone. `readback` tells whether each
    /// memory is read back when all are written, `start` whether the drones are started when all of
    /// them have their loads.
    pub fn make(
        alloc: Global,
        settings: Settings,
        loads: &Vec<Load>,
        readback: bool,
        start: bool,
    ) -> Result<Session, AllocError>
        requires { IsSession (upload_of settings loads.now.items readback start) }
        ensures { IfOk result (λ s. s ≡ upload_of settings loads.now.items readback start) }
    {
        let mut copies = Vec::new(alloc);
        for load in loads {
            copies.push(Load {
                bytes: Listed::from_vec(load.bytes.as_slice().to_vec(alloc)?),
                pieces: load.pieces,
            })?;
        }
        Ok(Session::of_loads(settings, copies, readback, start))
    }

    /// A session of these loads, one for each drone, as `make` makes it. It takes no memory.
    pub fn of_loads(settings: Settings, loads: Vec<Load>, readback: bool, start: bool) -> Session
        requires { IsSession (upload_of settings loads.items readback start) }
        ensures { result ≡ upload_of settings loads.items readback start }
    {
        Session {
            settings,
            loads,
            readback,
            start,
        }
    }

    /// How many drones there are.
    pub fn drones(&self) -> usize
        ensures value { result ≡ drone_count self.now }
        ensures some { 1 ≤ result }
        ensures few { result ≤ most_drones }
        ensures valid { IsSession self.now }
    {
        self.loads.len()
    }

    /// Where the bytes go, and under which id.
    pub fn settings(&self) -> Settings
        ensures memory_id { result.memory_id ≡ self.now.memory_id }
        ensures offset { result.offset ≡ self.now.offset }
        ensures trajectory_id { result.trajectory_id ≡ self.now.trajectory_id }
    {
        self.settings
    }

    /// How many bytes the load of a drone has.
    pub fn load_len(&self, drone: usize) -> usize
        requires { drone < drone_count self.now }
        ensures value { result ≡ length (load_of self.now drone).bytes }
        ensures some { 1 ≤ result }
        ensures fits { self.now.offset + result ≤ MEMORY_BYTES }
        ensures valid { IsSession self.now }
    {
        self.loads[drone].bytes.as_slice().len()
    }

    /// Byte `i` of the load of a drone, counted from 0.
    pub fn load_byte(&self, drone: usize, i: usize) -> u8
        requires known { drone < drone_count self.now }
        requires in_range { i < length (load_of self.now drone).bytes }
        ensures { result ≡ slice_index (load_of self.now drone).bytes i }
    {
        self.loads[drone].bytes.as_slice()[i]
    }

    /// Whether the memories are read back.
    pub fn reads_back(&self) -> bool
        ensures { result ≡ self.now.readback }
    {
        self.readback
    }

    /// Whether the drones are started.
    pub fn starts(&self) -> bool
        ensures { result ≡ self.now.start }
    {
        self.start
    }

    /// How many of the packets of a drone are writes.
    #[tactic(auto, unfolding(upload_model::specs::Sessions::write_count))]
    pub fn writes(&self, drone: usize) -> usize
        requires { drone < drone_count self.now }
        ensures value { result ≡ write_count self.now drone }
        ensures some { 1 ≤ result }
        ensures few { result ≤ MOST_WRITES }
        ensures valid { IsSession self.now }
    {
        let load = &self.loads[drone];
        chunk_count(load.bytes.as_slice().len())
    }

    /// How many of the packets of a drone are reads: none without read-back.
    #[tactic(auto, unfolding(upload_model::specs::Sessions::read_count, upload_model::specs::Sessions::part_count))]
    pub fn reads(&self, drone: usize) -> usize
        requires { drone < drone_count self.now }
        ensures value { result ≡ read_count self.now drone }
        ensures few { result ≤ MOST_READS }
    {
        let len = self.load_len(drone);
        if !self.readback {
            return 0;
        }
        (len + READ_BYTES - 1) / READ_BYTES
    }

    /// The number of a drone's first packet in a phase.
    pub fn first_of(&self, phase: Phase, drone: usize) -> usize
        requires { drone < drone_count self.now }
        ensures value { result ≡ first_of self.now phase drone }
        ensures few { result < MOST_PACKETS }
    {
        match phase {
            Phase::Loading => 0,
            Phase::Reading => self.writes(drone) + 1,
            Phase::Starting => self.writes(drone) + 1 + self.reads(drone),
        }
    }

    /// The number after a drone's last packet in a phase.
    pub fn end_of(&self, phase: Phase, drone: usize) -> usize
        requires { drone < drone_count self.now }
        ensures value { result ≡ first_of self.now phase drone + count_of self.now phase drone }
        ensures few { result ≤ MOST_PACKETS }
    {
        let reads = self.reads(drone);
        let loads = self.writes(drone) + 1;
        match phase {
            Phase::Loading => loads,
            Phase::Reading => loads + reads,
            Phase::Starting => {
                if self.start {
                    loads + reads + 1
                } else {
                    loads + reads
                }
            }
        }
    }

    /// How many packets a drone has.
    #[tactic(auto, unfolding(upload_model::specs::Sessions::packet_count))]
    pub fn count(&self, drone: usize) -> usize
        requires { drone < drone_count self.now }
        ensures value { result ≡ packet_count self.now drone }
        ensures few { result ≤ MOST_PACKETS }
        ensures more { load_count self.now drone ≤ result }
    {
        self.end_of(Phase::Starting, drone)
    }

    /// How many bytes read `k` of a drone asks for.
    #[tactic(auto, unfolding(upload_model::specs::Sessions::read_count, upload_model::specs::Sessions::part_count))]
    pub fn read_len(&self, drone: usize, k: usize) -> usize
        requires known { drone < drone_count self.now }
        requires in_range { k < read_count self.now drone }
        ensures value { result ≡ length (wanted self.now drone k) }
        ensures some { 1 ≤ result }
        ensures few { result ≤ READ_BYTES }
        ensures inside { read_start k + result ≤ length (load_of self.now drone).bytes }
        ensures room { self.now.offset + read_start k + result ≤ MEMORY_BYTES }
    {
        let _reads = self.reads(drone);
        (self.load_len(drone) - READ_BYTES * k).min(READ_BYTES)
    }

    /// Byte `i` of those that read `k` of a drone is to bring.
    #[tactic(auto, unfolding(upload_model::specs::Sessions::read_count, upload_model::specs::Sessions::part_count))]
    pub fn wanted_byte(&self, drone: usize, k: usize, i: usize) -> u8
        requires known { drone < drone_count self.now }
        requires in_range { k < read_count self.now drone }
        requires inside { i < length (wanted self.now drone k) }
        ensures { result ≡ slice_index (wanted self.now drone k) i }
    {
        let _len = self.read_len(drone, k);
        self.load_byte(drone, READ_BYTES * k + i)
    }

    /// Packet `k` of a drone: its writes, then its define, then its reads, then its start.
    #[tactic(auto, unfolding(upload_model::specs::Sessions::packet_at, upload_model::specs::Sessions::write_count, upload_model::specs::Sessions::packet_count))]
    pub fn packet(&self, drone: usize, k: usize) -> Packet
        requires known { drone < drone_count self.now }
        requires in_range { k < packet_count self.now drone }
        ensures { result ≡ packet_at self.now drone k }
    {
        let writes = self.writes(drone);
        let offset = self.settings.offset as u32;
        if k < writes {
            let bytes = self.loads[drone].bytes.as_slice();
            let (from, to) = chunk(bytes.len(), k);
            return write_request(
                self.settings.memory_id,
                offset + from as u32,
                &bytes[from..to],
            );
        }
        if k == writes {
            return define(
                self.settings.trajectory_id,
                offset,
                self.loads[drone].pieces,
            );
        }
        let read = k - writes - 1;
        if read < self.reads(drone) {
            let len = self.read_len(drone, read);
            return read_request(
                self.settings.memory_id,
                offset + (READ_BYTES * read) as u32,
                len as u8,
            );
        }
        start(self.settings.trajectory_id)
    }
}
