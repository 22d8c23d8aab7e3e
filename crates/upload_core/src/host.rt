//! The host: it keeps its phase, of each drone the packets in flight, and its last answer.

ghost use Rattle.std.specs.Prelude.{◌≡◌, ℕ, ◌+◌, ◌*◌, ◌<◌, ◌≤◌, ◌⊎◌, ◌&&◌, nat_lt, Bool, List, [], ◌∷◌, ◌++◌, length};
ghost use Rattle.std.specs.Prelude.{take, map, IfOk, All};
ghost use Rattle.upload_model.specs.declared.events.Event.{Event};
ghost use Rattle.upload_model.specs.declared.events.Progress.{Progress};
ghost use Rattle.upload_model.specs.Sessions.{drone_count, write_count, packet_count};
ghost use Rattle.upload_model.specs.Hosts.{acked, progress, flight, out as out_of};
ghost use Rattle.upload_core.specs.HostState.{HostState, IsPacketOf, view_of};
ghost use Rattle.upload_core.specs.HostStandsFor.{HostStandsFor};
ghost use Rattle.upload_core.specs.Rows.{bit, is_marked, IsWord, cursor_of};

use crate::answers::hear;
use crate::row::Row;
use crate::rows::{Out, first_flight, first_rows, tick};
use crate::session::{MOST_PACKETS, Session};
use crtp_packets::PACKET_BYTES;
use std::alloc::{AllocError, Global};
use std::marker::Model;
use upload_model::{Event, Phase, Progress};

const WORD_BITS: usize = u64::BITS as usize;

/// The host of one upload. A contract sees it by `view_of`, and `HostStandsFor` says which lists of
/// events it stands for.
#[derive(Drop)]
pub struct Host {
    session: Session,
    rows: Vec<Row>,
    phase: Phase,
    progress: Progress,
}

impl Model for Host {
    ghost use Rattle.std.specs.Prelude.{◌≡◌};
    ghost use Rattle.upload_model.specs.Sessions.{IsSession};
    ghost use Rattle.upload_core.specs.HostState.{HostState};
    ghost use Rattle.upload_model.specs.Hosts.{phase_of};
    ghost use Rattle.upload_core.specs.Rows.{marked};
    ghost use Rattle.upload_core.specs.Steps.{RowsStand, IsReady};
    ghost use Rattle.upload_model.specs.declared.events.Progress.TheVariants.{Going};

    ghost Value = { HostState };

    ghost view = { λ h. record {
      session = h.session;
      rows = h.rows.items;
      phase = h.phase;
      progress = h.progress;
    } };

    ghost invariant = { λ h. RowsStand h.session h.phase h.rows.items
        × IsSession h.session
        × (h.phase ≡ phase_of h.session (marked h.rows.items))
        × (h.progress ≡ Going → IsReady h.session h.rows.items) };
}

// Word `w` of the first `count` packets of a drone.
fn word_of(row: &Row, count: usize, w: usize) -> u64
    requires few { count ≤ MOST_PACKETS }
    requires in_range { 64 * w < count }
    ensures { (k : ℕ) → k < 64 → bit result k ≡ (nat_lt (64 * w + k) count && is_marked row.now (64 * w + k)) }
{
    let mut word = 0;
    for k in 0..WORD_BITS {
        let packet = WORD_BITS * w + k;
        if packet < count && row.is_past(packet as u16) {
            word |= 1 << k;
        }
    }
    word
}

impl Host {
    /// A host to which nothing has happened. It takes all memory that the upload needs; out of memory,
    /// the session is dropped.
    pub fn make(alloc: Global, session: Session) -> Result<Host, AllocError>
        ensures session { IfOk result (λ host. host.session ≡ session) }
        ensures stands { IfOk result (λ host. HostStandsFor (view_of host) []) }
    {
        let rows = first_rows(alloc, &session)?;
        Ok(Host {
            session,
            rows,
            phase: Phase::Loading,
            progress: Progress::Going,
        })
    }

    /// What is being uploaded.
    pub fn session(&self) -> &Session
        ensures { result.now ≡ self.now.session }
    {
        &self.session
    }

    /// Puts into `out` what is in flight before any event, whatever has happened since.
    pub fn first(&self, out: &mut Out)
        ensures sent { out.new.items ≡ flight self.now.session [] }
        ensures known { All (IsPacketOf self.now.session) out.new.items }
    {
        first_flight(&self.session, out);
    }

    /// What the upload has come to with this event. `out` is replaced by what is to be sent now. After
    /// the end of an upload each event gives the same answer again, changes nothing and sends nothing.
    pub fn event(&mut self, e: Event, out: &mut Out) -> Progress
        ensures session { self.new.session ≡ self.old.session }
        ensures stands { (h : List Event) → HostStandsFor (view_of self.old) h →
            HostStandsFor (view_of self.new) (h ++ e ∷ []) }
        ensures sent { (h : List Event) → HostStandsFor (view_of self.old) h →
            out.new.items ≡ out_of self.old.session h e }
        ensures known { All (IsPacketOf self.old.session) out.new.items }
        ensures answer { (h : List Event) → HostStandsFor (view_of self.old) h →
            result ≡ progress self.old.session (h ++ e ∷ []) }
    {
        match e {
            Event::Tick => self.hear_tick(out),
            Event::Up { drone, packet } => self.hear(drone, packet.bytes(), out),
        }
    }

    /// What the upload has come to with an answer of these 1 to 31 bytes that came up from a drone, without a copy of
    /// them: see `event`.
    pub fn hear(&mut self, drone: u8, packet: &[u8], out: &mut Out) -> Progress
        requires not_empty { 1 ≤ length packet.now }
        requires fits { length packet.now ≤ PACKET_BYTES }
        ensures session { self.new.session ≡ self.old.session }
        ensures stands { (h : List Event) → HostStandsFor (view_of self.old) h →
            HostStandsFor (view_of self.new) (h ++ Event.Up drone packet.now ∷ []) }
        ensures sent { (h : List Event) → HostStandsFor (view_of self.old) h →
            out.new.items ≡ out_of self.old.session h (Event.Up drone packet.now) }
        ensures known { All (IsPacketOf self.old.session) out.new.items }
        ensures answer { (h : List Event) → HostStandsFor (view_of self.old) h →
            result ≡ progress self.old.session (h ++ Event.Up drone packet.now ∷ []) }
    {
        out.clear();
        match self.progress {
            Progress::Going => self.on_answer(drone, packet, out),
            ended => ended,
        }
    }

    fn hear_tick(&mut self, out: &mut Out) -> Progress
        ensures session { self.new.session ≡ self.old.session }
        ensures stands { (h : List Event) → HostStandsFor (view_of self.old) h →
            HostStandsFor (view_of self.new) (h ++ Event.Tick ∷ []) }
        ensures sent { (h : List Event) → HostStandsFor (view_of self.old) h →
            out.new.items ≡ out_of self.old.session h Event.Tick }
        ensures known { All (IsPacketOf self.old.session) out.new.items }
        ensures answer { (h : List Event) → HostStandsFor (view_of self.old) h →
            result ≡ progress self.old.session (h ++ Event.Tick ∷ []) }
    {
        out.clear();
        match self.progress {
            Progress::Going => self.on_tick(out),
            ended => ended,
        }
    }

    /// The first packet of a drone that isn't acknowledged, or how many packets the drone has where all
    /// are. After giving up and after a refusal it is the value from before.
    pub fn cursor(&self, drone: usize) -> usize
        requires { drone < drone_count self.now.session }
        ensures { (h : List Event) → HostStandsFor (view_of self.now) h →
            (progress self.now.session h ≡ Progress.Going) ⊎ (progress self.now.session h ≡ Progress.Done) →
            result ≡ cursor_of self.now.session (acked self.now.session h) drone }
    {
        let count = self.session.count(drone);
        count.min(self.rows[drone].cursor())
    }

    /// Word `w` of the packets of a drone: bit k is 1 exactly where the drone has a packet 64 w + k and
    /// it is acknowledged. After giving up and after a refusal it is the value from before.
    pub fn word(&self, drone: usize, w: usize) -> u64
        requires known { drone < drone_count self.now.session }
        requires in_range { 64 * w < packet_count self.now.session drone }
        ensures { (h : List Event) → HostStandsFor (view_of self.now) h →
            (progress self.now.session h ≡ Progress.Going) ⊎ (progress self.now.session h ≡ Progress.Done) →
            IsWord self.now.session (acked self.now.session h) drone w result }
    {
        word_of(&self.rows[drone], self.session.count(drone), w)
    }

    fn on_tick(&mut self, out: &mut Out) -> Progress
        requires going { self.old.progress ≡ Progress.Going }
        ensures session { self.new.session ≡ self.old.session }
        ensures stands { (h : List Event) → HostStandsFor (view_of self.old) h →
            HostStandsFor (view_of self.new) (h ++ Event.Tick ∷ []) }
        ensures sent { (h : List Event) → HostStandsFor (view_of self.old) h →
            out.new.items ≡ out_of self.old.session h Event.Tick }
        ensures known { All (IsPacketOf self.old.session) out.new.items }
        ensures answer { (h : List Event) → HostStandsFor (view_of self.old) h →
            result ≡ progress self.old.session (h ++ Event.Tick ∷ []) }
    {
        let answer = tick(self.rows.as_mut_slice(), out);
        self.progress = answer;
        answer
    }

    fn on_answer(&mut self, drone: u8, packet: &[u8], out: &mut Out) -> Progress
        requires going { self.old.progress ≡ Progress.Going }
        requires not_empty { 1 ≤ length packet.now }
        requires fits { length packet.now ≤ PACKET_BYTES }
        ensures session { self.new.session ≡ self.old.session }
        ensures stands { (h : List Event) → HostStandsFor (view_of self.old) h →
            HostStandsFor (view_of self.new) (h ++ Event.Up drone packet.now ∷ []) }
        ensures sent { (h : List Event) → HostStandsFor (view_of self.old) h →
            out.new.items ≡ out_of self.old.session h (Event.Up drone packet.now) }
        ensures known { All (IsPacketOf self.old.session) out.new.items }
        ensures answer { (h : List Event) → HostStandsFor (view_of self.old) h →
            result ≡ progress self.old.session (h ++ Event.Up drone packet.now ∷ []) }
    {
        let answer = hear(
            &self.session,
            self.rows.as_mut_slice(),
            &mut self.phase,
            drone,
            packet,
            out,
        );
        self.progress = answer;
        answer
    }
}
