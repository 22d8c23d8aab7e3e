//! What the host keeps of one drone: its packets in flight with their counts, and the first packet that
//! never was in flight.

ghost use Rattle.std.specs.Prelude.{◌≡◌, ◌≢◌, ◌⊎◌, ℕ, ◌+◌, ◌-◌, ◌*◌, ◌<◌, ◌≤◌, ◌==◌, ◌||◌, not, if◌then◌else◌, true};
ghost use Rattle.std.specs.Prelude.{false, List, [], ◌∷◌, ◌++◌, length, map, filter, All};
ghost use Rattle.std.specs.List.{range_with_len, list_all, list_any};
ghost use Rattle.upload_model.specs.declared.events.Phase.{Phase};
ghost use Rattle.upload_model.specs.Sessions.{Upload, first_of, count_of};
ghost use Rattle.upload_core.specs.Rows.{packets_in, among, is_marked, count_in};
ghost use Rattle.upload_core.specs.Steps.{fresh, older, tired_in, IsRow, RowStands};

use arrayvec::ArrayVec;
use upload_model::{PACKETS_IN_FLIGHT, TICKS_TO_GIVE_UP};

/// A packet in flight, by its number, and at how many ticks it was so.
#[derive(Clone, Copy, Default)]
pub struct InFlight {
    pub packet: u16,
    pub ticks: u8,
}

/// What is in flight of a drone, by number.
pub type Window = ArrayVec<InFlight, PACKETS_IN_FLIGHT>;

/// What the host keeps of one drone.
#[derive(Drop)]
pub struct Row {
    /// What is in flight.
    pub window: Window,
    /// The first packet that never was in flight.
    pub next: u16,
    /// The first packet that may not be in flight yet.
    pub until: u16,
}

fn without(entries: &[InFlight], k: u16) -> Window
    requires { length entries.now ≤ PACKETS_IN_FLIGHT }
    ensures { result.items ≡ filter (λ e. not (e.packet == k)) entries.now }
{
    let mut left = Window::new();
    for entry in entries {
        if entry.packet != k {
            left.push(*entry);
        }
    }
    left
}

// Brings packets from `next` on into flight, as many as there is room for. Returns the first one that
// is left.
fn fill(window: &mut Window, next: u16, until: u16) -> u16
    requires past { next ≤ until }
    requires few { length window.old.items ≤ 4 }
    ensures grown { window.new.items ≡ window.old.items ++ map fresh (range_with_len next (result - next)) }
    ensures from { next ≤ result }
    ensures past { result ≤ until }
    ensures few { length window.new.items ≤ 4 }
    ensures full { (length window.new.items ≡ 4) ⊎ (result ≡ until) }
{
    for k in next..until {
        if window.is_full() {
            return k;
        }
        window.push(InFlight {
            packet: k,
            ticks: 0,
        });
    }
    until
}

// Counts one tick for each of these packets.
fn age(entries: &mut [InFlight])
    requires { All (λ e. e.ticks < TICKS_TO_GIVE_UP) entries.old }
    ensures { entries.new ≡ map older entries.old }
{
    for i in 0..entries.len() {
        entries[i].ticks += 1;
    }
}

// The first packet for which the host gives up.
fn tired(entries: &[InFlight]) -> Option<u16>
    ensures { result ≡ tired_in entries.now }
{
    for entry in entries {
        if entry.ticks == TICKS_TO_GIVE_UP {
            return Some(entry.packet);
        }
    }
    None
}

impl Row {
    /// The row of a drone to which nothing has happened, and of which the packets below `until` may be
    /// in flight.
    pub fn make(until: u16) -> Row
        ensures row { IsRow 0 result }
        ensures blank { (k : ℕ) → is_marked result k ≡ false }
        ensures counts { (k : ℕ) → count_in result.window.items k ≡ 0 }
        ensures until { result.until ≡ until }
    {
        let mut window = Window::new();
        let next = fill(&mut window, 0, until);
        Row {
            window,
            next,
            until,
        }
    }

    /// Lets packets below `until` into flight, of a drone of which none is.
    pub fn admit(&mut self, until: u16)
        requires row { IsRow 0 self.old }
        requires empty { self.old.window.items ≡ [] }
        requires more { self.old.next ≤ until }
        ensures row { IsRow self.old.next self.new }
        ensures marks { (k : ℕ) → is_marked self.new k ≡ is_marked self.old k }
        ensures counts { (k : ℕ) → count_in self.new.window.items k ≡ 0 }
        ensures until { self.new.until ≡ until }
    {
        let next = fill(&mut self.window, self.next, until);
        self.next = next;
        self.until = until;
    }

    /// Takes packet `k` out of flight, and lets the next ones in; where none is in flight any more, those
    /// below `end`, too.
    pub fn settle(&mut self, k: u16, end: u16)
        requires row { IsRow 0 self.old }
        requires in_flight { among (packets_in self.old.window.items) k ≡ true }
        requires more { self.old.until ≤ end }
        ensures stands { (s : Upload) (p : Phase) (d : ℕ) → RowStands s p d self.old →
            end ≡ first_of s p d + count_of s p d → RowStands s p d self.new }
        ensures marks { (j : ℕ) → is_marked self.new j ≡ (is_marked self.old j || j == k) }
        ensures counts { (j : ℕ) → j ≢ k → count_in self.new.window.items j ≡ count_in self.old.window.items j }
        ensures low { All (λ e. e.ticks < TICKS_TO_GIVE_UP) self.old.window.items
            → All (λ e. e.ticks < TICKS_TO_GIVE_UP) self.new.window.items }
        ensures later { self.old.next ≤ self.new.next }
        ensures news { filter (λ j. not (among (packets_in self.old.window.items) j)) (packets_in self.new.window.items)
            ≡ range_with_len self.old.next (self.new.next - self.old.next) }
    {
        let mut window = without(self.window.as_slice(), k);
        let next = fill(&mut window, self.next, self.until);
        if !window.is_empty() {
            self.window = window;
            self.next = next;
            return;
        }
        self.next = fill(&mut window, next, end);
        self.window = window;
        self.until = end;
    }

    /// Whether packet `k` is in flight.
    pub fn has(&self, k: u16) -> bool
        ensures { result ≡ among (packets_in self.now.window.items) k }
    {
        for entry in self.window.as_slice() {
            if entry.packet == k {
                return true;
            }
        }
        false
    }

    /// Whether packet `k` is acknowledged.
    pub fn is_past(&self, k: u16) -> bool
        ensures { result ≡ is_marked self.now k }
    {
        k < self.next && !self.has(k)
    }

    /// The first packet that isn't acknowledged.
    pub fn cursor(&self) -> usize
        requires { IsRow 0 self.now }
        ensures past { (k : ℕ) → k < result → is_marked self.now k ≡ true }
        ensures here { is_marked self.now result ≡ false }
    {
        match self.window.first() {
            Some(entry) => entry.packet as usize,
            None => self.next as usize,
        }
    }

    /// Counts one tick for what is in flight.
    pub fn age(&mut self)
        requires { All (λ e. e.ticks < TICKS_TO_GIVE_UP) self.old.window.items }
        ensures window { self.new.window.items ≡ map older self.old.window.items }
        ensures next { self.new.next ≡ self.old.next }
        ensures until { self.new.until ≡ self.old.until }
    {
        age(self.window.as_mut_slice());
    }

    /// The first packet for which the host gives up.
    pub fn tired(&self) -> Option<u16>
        ensures { result ≡ tired_in self.now.window.items }
    {
        tired(self.window.as_slice())
    }
}
