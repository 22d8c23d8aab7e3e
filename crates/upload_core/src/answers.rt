//! An answer that the host hears.

ghost use Rattle.std.specs.Prelude.{◌≡◌, ◌≢◌, ℕ, ◌+◌, ◌*◌, ◌<◌, ◌≤◌, ◌==◌, ◌&&◌, ◌||◌, not, if◌then◌else◌, Bool, true};
ghost use Rattle.std.specs.Prelude.{false, List, [], ◌∷◌, ◌++◌, length, filter, All, IfSome, IfNone, Ok, Some, None};
ghost use Rattle.std.specs.List.{range_with_len, list_all, list_any};
ghost use Rattle.upload_model.specs.declared.events.Event.{Event};
ghost use Rattle.upload_model.specs.declared.events.Sent.{Sent};
ghost use Rattle.upload_model.specs.Sessions.{drone_count, write_count, load_count, read_count, packet_count, is_read};
ghost use Rattle.upload_model.specs.Sessions.{read_address, wanted};
ghost use Rattle.crtp_packets.specs.Chunks.{chunk_start};
ghost use Rattle.upload_model.specs.Replies as replies;
ghost use Rattle.upload_model.specs.Replies.{ReadBack, status_in, read_in, read_reply, reply_in};
ghost use Rattle.upload_model.specs.Hosts.{Packets, phase_of, flight_after, sent_to, all_packets, counts as counts_for};
ghost use Rattle.upload_model.specs.Hosts.{includes as includes_sent, if_going};
ghost use Rattle.upload_core.specs.Rows.{among, window_at, is_marked, row_at, marked, counted};
ghost use Rattle.upload_core.specs.Steps.{RowsStand, IsFor, IsLow, Hears};

use crate::row::Row;
use crate::rows::{Out, advance, is_settled, put_flight, put_news};
use crate::session::Session;
use crtp_packets::{
    DEFINE, PACKET_BYTES, Piece, READ_BYTES, START, Up, WRITE_BYTES, parse_up_bytes,
};
use upload_model::{ACCEPTED, Phase, Progress, Reply};

fn write_named(session: &Session, drone: usize, id: u8, address: u32) -> Option<usize>
    requires known { drone < drone_count session.now }
    ensures some { IfSome result (λ k. (k < write_count session.now drone) × (id ≡ session.now.memory_id)
        × (address ≡ session.now.offset + chunk_start k)) }
    ensures none { IfNone result ((k : ℕ) → k < write_count session.now drone → id ≡ session.now.memory_id
        → address ≢ session.now.offset + chunk_start k) }
{
    let settings = session.settings();
    let offset = settings.offset as usize;
    let at = address as usize;
    if id != settings.memory_id || at < offset {
        return None;
    }
    let k = (at - offset) / WRITE_BYTES;
    if (at - offset) % WRITE_BYTES != 0 || k >= session.writes(drone) {
        return None;
    }
    Some(k)
}

fn read_named(session: &Session, drone: usize, id: u8, address: u32) -> Option<usize>
    requires known { drone < drone_count session.now }
    ensures some { IfSome result (λ k. (k < read_count session.now drone) × (id ≡ session.now.memory_id)
        × (address ≡ read_address session.now k)) }
    ensures none { IfNone result ((k : ℕ) → k < read_count session.now drone → id ≡ session.now.memory_id
        → address ≢ read_address session.now k) }
{
    let settings = session.settings();
    let offset = settings.offset as usize;
    let at = address as usize;
    if id != settings.memory_id || at < offset {
        return None;
    }
    let k = (at - offset) / READ_BYTES;
    if (at - offset) % READ_BYTES != 0 || k >= session.reads(drone) {
        return None;
    }
    Some(k)
}

fn write_for(session: &Session, drone: usize, id: u8, address: u32, status: u8) -> Option<u16>
    requires known { drone < drone_count session.now }
    ensures { IsFor session.now drone (Ok (Up.WriteAnswer id address status)) result }
{
    let _status = status;
    let _count = session.count(drone);
    let _writes = session.writes(drone);
    match write_named(session, drone, id, address) {
        Some(k) => Some(k as u16),
        None => None,
    }
}

fn read_for(
    session: &Session,
    drone: usize,
    id: u8,
    address: u32,
    status: u8,
    piece: &Piece,
) -> Option<u16>
    requires known { drone < drone_count session.now }
    ensures { IsFor session.now drone (Ok (Up.ReadAnswer id address status piece.now)) result }
{
    let _status = status;
    let _len = piece.len();
    let _count = session.count(drone);
    let _reads = session.reads(drone);
    match read_named(session, drone, id, address) {
        Some(k) => Some((session.first_of(Phase::Reading, drone) + k) as u16),
        None => None,
    }
}

// The define or the start of a drone, whichever a command answer may answer.
fn command_for(session: &Session, drone: usize, first: &[u8; 3], status: u8) -> Option<u16>
    requires known { drone < drone_count session.now }
    ensures { IsFor session.now drone (Ok (Up.CommandAnswer first.now status)) result }
{
    let _status = status;
    let _count = session.count(drone);
    if first[0] == DEFINE {
        return Some(session.writes(drone) as u16);
    }
    if first[0] != START {
        return None;
    }
    if !session.starts() {
        return None;
    }
    Some(session.first_of(Phase::Starting, drone) as u16)
}

// The one packet of a drone that a message may answer: a write or a read by its address, the define or
// the start by the command.
fn candidate(session: &Session, drone: usize, message: &Up) -> Option<u16>
    requires known { drone < drone_count session.now }
    ensures { IsFor session.now drone (Ok message.now) result }
{
    match message {
        Up::WriteAnswer {
            id,
            address,
            status,
        } => write_for(session, drone, *id, *address, *status),
        Up::ReadAnswer {
            id,
            address,
            status,
            piece,
        } => read_for(session, drone, *id, *address, *status, piece),
        Up::CommandAnswer { first, status } => command_for(session, drone, first, *status),
    }
}

// The status that a message carries for packet `k`, which is no read, if it matches it.
#[tactic(auto, unfolding(upload_model::specs::Sessions::packet_at))]
fn status_of(session: &Session, drone: usize, k: usize, message: &Up) -> Option<u8>
    requires known { drone < drone_count session.now }
    requires in_range { k < packet_count session.now drone }
    requires plain { is_read session.now drone k ≡ false }
    ensures { result ≡ status_in session.now drone k (Ok message.now) }
{
    let writes = session.writes(drone);
    let settings = session.settings();
    match message {
        Up::WriteAnswer {
            id,
            address,
            status,
        } => {
            if k < writes
                && *id == settings.memory_id
                && *address as usize == settings.offset as usize + WRITE_BYTES * k
            {
                return Some(*status);
            }
            None
        }
        Up::CommandAnswer { first, status } => {
            if k < writes {
                return None;
            }
            let packet = session.packet(drone, k);
            let bytes = packet.bytes();
            if first[0] == bytes[1] && first[1] == bytes[2] && first[2] == bytes[3] {
                return Some(*status);
            }
            None
        }
        Up::ReadAnswer { .. } => None,
    }
}

// The first place at which a read brought another byte than the load's.
fn first_other(session: &Session, drone: usize, k: usize, bytes: &[u8]) -> Option<usize>
    requires known { drone < drone_count session.now }
    requires in_range { k < read_count session.now drone }
    requires same_len { length bytes.now ≡ length (wanted session.now drone k) }
    ensures value { result ≡ replies.first_other (wanted session.now drone k) bytes.now }
    ensures inside { IfSome result (λ i. i < length bytes.now) }
{
    let len = session.read_len(drone, k);
    for i in 0..len {
        if session.wanted_byte(drone, k, i) != bytes[i] {
            return Some(i);
        }
    }
    None
}

// What the bytes that a read brought say of it, which is packet `n` of its drone.
fn compared(session: &Session, drone: u8, k: usize, bytes: &[u8]) -> Reply
    requires known { drone < drone_count session.now }
    requires in_range { k < read_count session.now drone }
    requires same_len { length bytes.now ≡ length (wanted session.now drone k) }
    ensures { result ≡ replies.compared drone (read_address session.now k) (wanted session.now drone k) bytes.now
        (replies.first_other (wanted session.now drone k) bytes.now) }
{
    let from = drone as usize;
    match first_other(session, from, k, bytes) {
        None => Reply::Good,
        Some(i) => {
            let _len = session.read_len(from, k);
            let address = session.settings().offset as usize + READ_BYTES * k + i;
            Reply::Ends {
                progress: Progress::Differs {
                    drone,
                    address: address as u32,
                    wanted: session.wanted_byte(from, k, i),
                    got: bytes[i],
                },
            }
        }
    }
}

// What a message says of read `k` of a drone, which is its packet `n`.
fn read_said(session: &Session, drone: u8, n: u16, k: usize, message: &Up) -> Reply
    requires known { drone < drone_count session.now }
    requires in_range { k < read_count session.now drone }
    ensures { result ≡ read_reply session.now drone n k (read_in session.now drone k (Ok message.now)) }
{
    let settings = session.settings();
    let from = drone as usize;
    let len = session.read_len(from, k);
    match message {
        Up::ReadAnswer {
            id,
            address,
            status,
            piece,
        } => {
            if *id != settings.memory_id
                || *address as usize != settings.offset as usize + READ_BYTES * k
            {
                return Reply::Silent;
            }
            if *status != ACCEPTED {
                return Reply::Ends {
                    progress: Progress::Refused {
                        drone,
                        packet: n,
                        status: *status,
                    },
                };
            }
            if piece.len() != len {
                return Reply::Silent;
            }
            compared(session, drone, k, piece.as_slice())
        }
        _ => Reply::Silent,
    }
}

// What a message says of packet `k` of a drone.
#[tactic(auto, unfolding(upload_model::specs::Replies::reply_in))]
fn reply(session: &Session, drone: u8, k: u16, message: &Up) -> Reply
    requires known { drone < drone_count session.now }
    requires in_range { k < packet_count session.now drone }
    ensures { result ≡ reply_in session.now drone k (Ok message.now) }
{
    let from = drone as usize;
    let n = k as usize;
    let first = session.first_of(Phase::Reading, from);
    if n >= first && n < session.first_of(Phase::Starting, from) {
        return read_said(session, drone, k, n - first, message);
    }
    match status_of(session, from, n, message) {
        None => Reply::Silent,
        Some(ACCEPTED) => Reply::Good,
        Some(status) => Reply::Ends {
            progress: Progress::Refused {
                drone,
                packet: k,
                status,
            },
        },
    }
}

// Whether an answer may end the upload for packet `k` of a drone in this phase. With read-back answers
// to reads and starts count once the first phase is complete.
fn counts(session: &Session, phase: Phase, drone: usize, k: usize) -> bool
    requires { drone < drone_count session.now }
    ensures { (done : Packets) → phase ≡ phase_of session.now done → result ≡ counts_for session.now done drone k }
{
    if k < session.first_of(Phase::Reading, drone) || !session.reads_back() {
        return true;
    }
    !matches!(phase, Phase::Loading)
}

// Takes packet `k` of a drone out of flight, and puts into `out` what comes in.
fn settle(session: &Session, rows: &mut [Row], phase: Phase, drone: usize, k: u16, out: &mut Out)
    requires rows { RowsStand session.now phase rows.old }
    requires known { drone < drone_count session.now }
    requires in_flight { among (window_at rows.old drone) k ≡ true }
    ensures rows { RowsStand session.now phase rows.new }
    ensures marks { (d j : ℕ) → marked rows.new d j ≡ (marked rows.old d j || (drone == d && k == j)) }
    ensures others { (d : ℕ) → d ≢ drone → row_at rows.new d ≡ row_at rows.old d }
    ensures counts { (j : ℕ) → j ≢ k → counted rows.new drone j ≡ counted rows.old drone j }
    ensures low { IsLow rows.old → IsLow rows.new }
    ensures len { length rows.new ≡ length rows.old }
    ensures sent { out.new.items ≡ sent_to drone
        (filter (λ j. not (among (window_at rows.old drone) j)) (window_at rows.new drone)) }
{
    let _drones = session.drones();
    let before = rows[drone].next;
    rows[drone].settle(k, session.end_of(phase, drone) as u16);
    put_news(out, drone, before, rows[drone].next);
}

// A good answer to packet `k` of a drone, which is in flight.
fn acknowledge(
    session: &Session,
    rows: &mut [Row],
    phase: &mut Phase,
    drone: usize,
    k: u16,
    out: &mut Out,
) -> Progress
    requires rows { RowsStand session.now phase.old rows.old }
    requires phase { phase.old ≡ phase_of session.now (marked rows.old) }
    requires known { drone < drone_count session.now }
    requires in_flight { among (window_at rows.old drone) k ≡ true }
    ensures rows { RowsStand session.now phase.new rows.new }
    ensures phase { phase.new ≡ phase_of session.now (marked rows.new) }
    ensures marks { (d j : ℕ) → marked rows.new d j ≡ (marked rows.old d j || (drone == d && k == j)) }
    ensures counts { (x : Sent) → includes_sent (flight_after session.now (marked rows.new)) x ≡ true →
        counted rows.new x.drone x.packet
        ≡ (if includes_sent (flight_after session.now (marked rows.old)) x then counted rows.old x.drone x.packet
        else 0) }
    ensures low { IsLow rows.old → IsLow rows.new }
    ensures len { length rows.new ≡ length rows.old }
    ensures answer { result ≡ (if list_all (λ x. marked rows.new x.drone x.packet) (all_packets session.now)
        then Progress.Done else Progress.Going) }
    ensures sent { out.new.items ≡ if_going result
        (filter (λ x. not (includes_sent (flight_after session.now (marked rows.old)) x))
        (flight_after session.now (marked rows.new))) }
{
    settle(session, rows, *phase, drone, k, out);
    if !is_settled(rows) {
        return Progress::Going;
    }
    out.clear();
    *phase = advance(session, rows, *phase);
    if is_settled(rows) {
        return Progress::Done;
    }
    let _drones = session.drones();
    put_flight(rows, out);
    Progress::Going
}

/// An answer of these bytes to an upload that is going.
pub fn hear(
    session: &Session,
    rows: &mut [Row],
    phase: &mut Phase,
    drone: u8,
    packet: &[u8],
    out: &mut Out,
) -> Progress
    requires not_empty { 1 ≤ length packet.now }
    requires fits { length packet.now ≤ PACKET_BYTES }
    requires rows { RowsStand session.now phase.old rows.old }
    requires phase { phase.old ≡ phase_of session.now (marked rows.old) }
    requires going { list_all (λ x. marked rows.old x.drone x.packet) (all_packets session.now) ≡ false }
    ensures { Hears session.now (Event.Up drone packet.now) rows.old phase.new rows.new result out.new.items }
{
    out.clear();
    let from = drone as usize;
    if from >= session.drones() {
        return Progress::Going;
    }
    let message = match parse_up_bytes(packet) {
        Ok(message) => message,
        Err(_) => return Progress::Going,
    };
    let k = match candidate(session, from, &message) {
        Some(k) => k,
        None => return Progress::Going,
    };
    match reply(session, drone, k, &message) {
        Reply::Silent => Progress::Going,
        Reply::Good => {
            if !rows[from].has(k) {
                return Progress::Going;
            }
            acknowledge(session, rows, phase, from, k, out)
        }
        Reply::Ends { progress } => {
            if rows[from].is_past(k) || !counts(session, *phase, from, k as usize) {
                return Progress::Going;
            }
            progress
        }
    }
}
