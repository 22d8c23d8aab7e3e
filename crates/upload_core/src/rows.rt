//! The rows of all drones: what is in flight, and the phase that they are in.

ghost use Rattle.std.specs.Prelude.{◌≡◌, ◌≢◌, ℕ, ◌+◌, ◌-◌, ◌*◌, ◌<◌, ◌≤◌, ◌==◌, ◌||◌, if◌then◌else◌, true, false, List};
ghost use Rattle.std.specs.Prelude.{[], ◌∷◌, ◌++◌, length, map, find, All, IfOk};
ghost use Rattle.std.specs.List.{range_with_len, list_all};
ghost use Rattle.upload_model.specs.Sessions.{drone_count, first_of, count_of};
ghost use Rattle.upload_model.specs.Hosts.{phase_of, flight, sent_to, gave_up, if_going};
ghost use Rattle.upload_core.specs.Rows.{packets_in, is_marked, row_at, marked, window_at, counted};
ghost use Rattle.upload_core.specs.Steps.{older_row, IsRow, RowsStand, IsBegun, IsStarting, in_windows};

use crate::row::{InFlight, Row};
use crate::session::Session;
use arrayvec::ArrayVec;
use std::alloc::{AllocError, Global};
use upload_model::{PACKETS_IN_FLIGHT, Phase, Progress, Sent, TICKS_TO_GIVE_UP};
use whole_numbers::MOST_DRONES;

/// The most packets that one event sends.
pub const MOST_SENT: usize = MOST_DRONES * PACKETS_IN_FLIGHT;

/// The packets that are to be sent, by drone and number.
pub type Out = ArrayVec<Sent, MOST_SENT>;

// The row of a drone to which nothing has happened.
fn first_row(session: &Session, drone: usize) -> Row
    requires { drone < drone_count session.now }
    ensures { IsStarting session.now drone result }
{
    Row::make(session.writes(drone) as u16)
}

/// The rows of drones to which nothing has happened.
pub fn first_rows(alloc: Global, session: &Session) -> Result<Vec<Row>, AllocError>
    ensures len { IfOk result (λ rows. length rows.items ≡ drone_count session.now) }
    ensures each { IfOk result
        (λ rows. (d : ℕ) → d < drone_count session.now → IsStarting session.now d (row_at rows.items d)) }
{
    let drones = session.drones();
    let mut rows = Vec::with_capacity(alloc, drones)?;
    for drone in 0..drones {
        rows.push(first_row(session, drone))?;
    }
    Ok(rows)
}

// Puts one drone's packets after the others.
fn put_window(out: &mut Out, drone: usize, entries: &[InFlight])
    requires known { drone < MOST_DRONES }
    requires room { length out.old.items + length entries.now ≤ MOST_SENT }
    ensures { out.new.items ≡ out.old.items ++ sent_to drone (packets_in entries.now) }
{
    for entry in entries {
        out.push(Sent {
            drone: drone as u8,
            packet: entry.packet,
        });
    }
}

/// Puts a drone's packets from one number up to another.
pub fn put_news(out: &mut Out, drone: usize, from: u16, to: u16)
    requires known { drone < MOST_DRONES }
    requires few { to - from ≤ PACKETS_IN_FLIGHT }
    ensures { out.new.items ≡ sent_to drone (range_with_len from (to - from)) }
{
    out.clear();
    for packet in from..to {
        out.push(Sent {
            drone: drone as u8,
            packet,
        });
    }
}

/// All that is in flight, by drone and number.
pub fn put_flight(rows: &[Row], out: &mut Out)
    requires few { length rows.now ≤ MOST_DRONES }
    requires windows { (d : ℕ) → d < length rows.now → length (row_at rows.now d).window.items ≤ PACKETS_IN_FLIGHT }
    ensures { out.new.items ≡ in_windows rows.now (length rows.now) }
{
    out.clear();
    for drone in 0..rows.len() {
        put_window(out, drone, rows[drone].window.as_slice());
    }
}

/// What is in flight before any event: of each drone what its first row has.
pub fn first_flight(session: &Session, out: &mut Out)
    ensures { out.new.items ≡ flight session.now [] }
{
    out.clear();
    for drone in 0..session.drones() {
        let row = first_row(session, drone);
        put_window(out, drone, row.window.as_slice());
    }
}

/// Whether nothing is in flight.
pub fn is_settled(rows: &[Row]) -> bool
    ensures { result ≡ list_all (λ (row : Row). length row.window.items == 0) rows.now }
{
    for row in rows {
        if !row.window.is_empty() {
            return false;
        }
    }
    true
}

// Counts one tick for all that is in flight.
fn age(rows: &mut [Row])
    requires { All (λ (row : Row). All (λ e. e.ticks < TICKS_TO_GIVE_UP) row.window.items) rows.old }
    ensures { rows.new ≡ map older_row rows.old }
{
    for i in 0..rows.len() {
        rows[i].age();
    }
}

// The first packet for which the host gives up.
fn first_tired(rows: &[Row]) -> Option<Sent>
    requires few { length rows.now ≤ MOST_DRONES }
    requires rows { (d : ℕ) → d < length rows.now → IsRow 0 (row_at rows.now d) }
    ensures { result ≡ find (λ x. counted rows.now x.drone x.packet == TICKS_TO_GIVE_UP)
        (in_windows rows.now (length rows.now)) }
{
    for drone in 0..rows.len() {
        match rows[drone].tired() {
            Some(packet) => {
                return Some(Sent {
                    drone: drone as u8,
                    packet,
                });
            }
            None => {}
        }
    }
    None
}

/// A tick of an upload that is going: what is in flight is counted, and sent again.
pub fn tick(rows: &mut [Row], out: &mut Out) -> Progress
    requires few { length rows.old ≤ MOST_DRONES }
    requires rows { (d : ℕ) → d < length rows.old → IsRow 0 (row_at rows.old d) }
    requires low { All (λ (row : Row). All (λ e. e.ticks < TICKS_TO_GIVE_UP) row.window.items) rows.old }
    ensures rows { rows.new ≡ map older_row rows.old }
    ensures answer { result ≡ gave_up (find (λ x. counted rows.new x.drone x.packet == TICKS_TO_GIVE_UP)
        (in_windows rows.old (length rows.old))) }
    ensures sent { out.new.items ≡ if_going result (in_windows rows.old (length rows.old)) }
{
    put_flight(rows, out);
    age(rows);
    match first_tired(rows) {
        Some(x) => {
            out.clear();
            Progress::GaveUp {
                drone: x.drone,
                packet: x.packet,
            }
        }
        None => Progress::Going,
    }
}

// Lets a phase's packets into flight, where all of the phase before are acknowledged.
fn begin(session: &Session, rows: &mut [Row], before: Phase, phase: Phase)
    requires rows { RowsStand session.now before rows.old }
    requires settled { (d : ℕ) → d < drone_count session.now → (row_at rows.old d).window.items ≡ [] }
    requires next { (d : ℕ) → first_of session.now phase d
        ≡ first_of session.now before d + count_of session.now before d }
    requires not_first { phase ≢ Phase.Loading }
    ensures rows { RowsStand session.now phase rows.new }
    ensures marks { (d k : ℕ) → marked rows.new d k ≡ marked rows.old d k }
    ensures counts { (d k : ℕ) → counted rows.new d k ≡ 0 }
    ensures len { length rows.new ≡ length rows.old }
{
    for drone in 0..rows.len() {
        rows[drone].admit(session.end_of(phase, drone) as u16);
    }
}

/// The phase that the upload is in now, where it was in this one: where all of it is acknowledged, the
/// next one's packets are let into flight.
pub fn advance(session: &Session, rows: &mut [Row], phase: Phase) -> Phase
    requires rows { RowsStand session.now phase rows.old }
    requires begun { IsBegun session.now (marked rows.old) phase }
    ensures rows { RowsStand session.now result rows.new }
    ensures phase { result ≡ phase_of session.now (marked rows.new) }
    ensures marks { (d k : ℕ) → marked rows.new d k ≡ marked rows.old d k }
    ensures stays { list_all (λ (row : Row). length row.window.items == 0) rows.old ≡ false → rows.new ≡ rows.old }
    ensures counts { list_all (λ (row : Row). length row.window.items == 0) rows.old ≡ true → (d k : ℕ)
        → counted rows.new d k ≡ 0 }
    ensures len { length rows.new ≡ length rows.old }
{
    if !is_settled(rows) {
        return phase;
    }
    match phase {
        Phase::Loading => begin(session, rows, Phase::Loading, Phase::Reading),
        Phase::Reading => {
            begin(session, rows, Phase::Reading, Phase::Starting);
            return Phase::Starting;
        }
        Phase::Starting => return Phase::Starting,
    }
    if !is_settled(rows) {
        return Phase::Reading;
    }
    begin(session, rows, Phase::Reading, Phase::Starting);
    Phase::Starting
}
