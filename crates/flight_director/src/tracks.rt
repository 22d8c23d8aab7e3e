//! What is known of each drone.

ghost use Rattle.std.specs.Prelude.{◌≡◌, ◌≤◌, map, length, not};
ghost use Rattle.std.specs.List.{list_any};
ghost use Rattle.flight_model.specs.declared.states.Track.{Track};
ghost use Rattle.flight_model.specs.Directors.{later as word_later, older as word_older, aged, off_with as word_off};
ghost use Rattle.flight_model.specs.Directors.{is_silent as word_silent, is_lost as word_lost};
ghost use Rattle.flight_model.specs.Directors.{is_astray as word_astray, all_seen};
ghost use Rattle.flight_model.specs.Directors.{is_disarmed as word_disarmed, renewed as word_renewed};

use flight_model::{Sample, Track};

/// Times are counted up to twelve days.
const MOST_MS: u64 = 1_000_000_000;

/// A time, and more of it.
pub fn later(ms: u32, more: u32) -> u32
    ensures { result ≡ word_later ms more }
{
    (ms as u64 + more as u64).min(MOST_MS) as u32
}

/// A sample, as old as it is after some time.
pub fn older(ms: u32, seen: &Option<Sample>) -> Option<Sample>
    ensures { result ≡ word_older ms seen.now }
{
    match seen {
        None => None,
        Some(x) => Some(Sample {
            age: later(x.age, ms),
            ..*x
        }),
    }
}

fn aged_by(ms: u32, t: &Track) -> Track
    ensures { result ≡ aged ms t.now }
{
    Track {
        seen: older(ms, &t.seen),
        ..*t
    }
}

/// Time passes.
pub fn age(tracks: &mut [Track], ms: u32)
    ensures { tracks.new ≡ map (aged ms) tracks.old }
{
    for d in 0..tracks.len() {
        tracks[d] = aged_by(ms, &tracks[d]);
    }
}

fn renewed(t: &Track) -> Track
    ensures { result ≡ word_renewed t.now }
{
    Track {
        off: None,
        unsure: None,
        outside: false,
        ..*t
    }
}

/// A step begins: what is off, unsure or outside is counted anew.
pub fn renew(tracks: &mut [Track])
    ensures { tracks.new ≡ map word_renewed tracks.old }
{
    for d in 0..tracks.len() {
        tracks[d] = renewed(&tracks[d]);
    }
}

/// For how long samples have been off, or unsure, with this one after the last.
pub fn off_with(off: &Option<u32>, last: &Option<Sample>, x: &Sample) -> u32
    ensures { result ≡ word_off off.now last.now x.now }
{
    match off {
        None => 0,
        Some(ms) => match last {
            None => 0,
            Some(last) => later(*ms, last.age.saturating_sub(x.age)),
        },
    }
}

/// Whether a drone is silent.
pub fn is_silent(silence: u32, seen: &Option<Sample>) -> bool
    ensures { result ≡ word_silent silence seen.now }
{
    match seen {
        None => false,
        Some(x) => silence < x.age,
    }
}

pub fn is_lost(seen: &Option<Sample>) -> bool
    ensures { result ≡ word_lost seen.now }
{
    match seen {
        None => false,
        Some(x) => x.lost,
    }
}

/// Whether samples have been off, or unsure, for 300 ms.
pub fn is_astray(off: &Option<u32>) -> bool
    ensures { result ≡ word_astray off.now }
{
    match off {
        None => false,
        Some(ms) => 300 <= *ms,
    }
}

fn is_disarmed(seen: &Option<Sample>) -> bool
    ensures { result ≡ word_disarmed seen.now }
{
    match seen {
        None => false,
        Some(x) => !x.armed,
    }
}

/// Whether each drone has been seen disarmed.
pub fn all_disarmed(silence: u32, tracks: &[Track]) -> bool
    ensures { result ≡ all_seen silence word_disarmed tracks.now }
{
    for t in tracks {
        if !is_disarmed(&t.seen) || is_silent(silence, &t.seen) {
            return false;
        }
    }
    true
}

/// Whether a drone will be silent after some time.
pub fn any_silent(silence: u32, ms: u32, tracks: &[Track]) -> bool
    ensures { result ≡ list_any (λ (t : Track). word_silent silence (word_older ms t.seen)) tracks.now }
{
    for t in tracks {
        if is_silent(silence, &older(ms, &t.seen)) {
            return true;
        }
    }
    false
}
