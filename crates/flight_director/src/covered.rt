//! Who may be deaf to a landing, and whether it is covered all the same.

ghost use Rattle.std.specs.Prelude.{◌≡◌, ◌≤◌, ◌<◌, ◌+◌, ◌++◌, ◌&&◌, [], length, ℕ, Some};
ghost use Rattle.std.specs.List.{list_all};
ghost use Rattle.flight_model.specs.Directors.{may_be_deaf as word_deaf, one_if, deaf_from, is_same as word_same};
ghost use Rattle.flight_model.specs.Directors.{is_window as word_window, has_window as word_has};
ghost use Rattle.flight_model.specs.Directors.{is_covered as word_covered, has_risen as word_risen};
ghost use Rattle.flight_model.specs.Directors.{are_listed as word_listed};

use crate::risen::has_risen;
use arrayvec::ArrayVec;
use flight_model::{Flight, Sample, Track, Window};
use whole_numbers::MOST_DRONES;

// A drone may be deaf whose last sample is older, in milliseconds.
const DEAF_MS: u32 = 300;

/// The drones that may be deaf.
pub type Deaf = ArrayVec<usize, MOST_DRONES>;

/// Whether a flight lists windows.
pub fn are_listed(f: &Flight) -> bool
    ensures { result ≡ word_listed f.now.windows }
{
    match &f.windows {
        None => false,
        Some(_) => true,
    }
}

fn may_be_deaf(seen: &Option<Sample>) -> bool
    ensures { result ≡ word_deaf seen.now }
{
    match seen {
        None => true,
        Some(x) => DEAF_MS < x.age,
    }
}

// Whether a drone was told to rise in the first n steps, and may be deaf.
fn may_miss(f: &Flight, n: usize, d: usize, seen: &Option<Sample>) -> bool
    ensures { result ≡ (word_risen f.now n d && word_deaf seen.now) }
{
    has_risen(f, n, d) && may_be_deaf(seen)
}

fn put_if(out: &mut Deaf, deaf: bool, d: usize)
    requires room { length out.old.items < MOST_DRONES }
    ensures put { out.new.items ≡ out.old.items ++ one_if deaf d }
    ensures few { length out.new.items ≤ length out.old.items + 1 }
{
    if deaf {
        out.push(d);
    }
}

/// Puts the drones that were told to rise in the first n steps and may be deaf.
pub fn put_deaf(out: &mut Deaf, f: &Flight, n: usize, tracks: &[Track])
    requires few { length tracks.now ≤ MOST_DRONES }
    requires empty { out.old.items ≡ [] }
    ensures { out.new.items ≡ deaf_from f.now n 0 tracks.now }
{
    for d in 0..tracks.len() {
        put_if(out, may_miss(f, n, d, &tracks[d].seen), d);
    }
}

fn is_same(deaf: &Option<u8>, drone: &Option<usize>) -> bool
    ensures { result ≡ word_same deaf.now drone.now }
{
    match (deaf, drone) {
        (None, None) => true,
        (Some(deaf), Some(drone)) => *deaf as usize == *drone,
        (None, Some(_)) => false,
        (Some(_), None) => false,
    }
}

fn is_window(n: usize, ms: u32, deaf: &Option<usize>, w: &Window) -> bool
    ensures { result ≡ word_window n ms deaf.now w.now }
{
    w.step as usize == n && w.from <= ms && ms <= w.to && is_same(&w.deaf, deaf)
}

fn has_window(windows: &[Window], n: usize, ms: u32, deaf: &Option<usize>) -> bool
    ensures { result ≡ word_has windows.now n ms deaf.now }
{
    for w in windows {
        if is_window(n, ms, deaf, w) {
            return true;
        }
    }
    false
}

// Whether each of these drones has a window in which it is deaf.
fn each_has_window(windows: &[Window], n: usize, ms: u32, deaf: &[usize]) -> bool
    ensures { result ≡ list_all (λ (d : ℕ). word_has windows.now n ms (Some d)) deaf.now }
{
    deaf.iter().all(|d| has_window(windows, n, ms, &Some(*d)))
}

/// Whether windows cover a landing `ms` after step n, where these drones may be deaf.
pub fn is_covered(windows: &[Window], n: usize, ms: u32, deaf: &[usize]) -> bool
    ensures { result ≡ word_covered windows.now n ms deaf.now }
{
    has_window(windows, n, ms, &None) && each_has_window(windows, n, ms, deaf)
}
