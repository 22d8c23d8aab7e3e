//! Whether drones meet the conditions of a step.

ghost use Rattle.std.specs.Prelude.{◌≡◌, ℕ, ◌+◌, ◌≤◌, length, not, ◌||◌, ◌&&◌};
ghost use Rattle.flight_model.specs.Samples.{is_at as word_at, is_fit_by, is_fit as word_fit};
ghost use Rattle.flight_model.specs.Samples.{stands_at as word_stands};
ghost use Rattle.flight_model.specs.Directors.{all_fit as word_all, first_unfit as word_first};

use crate::distance::is_short;
use crate::down::stands_at;
use flight_model::{Condition, Position, Sample, Track};

fn is_at(bound: u16, p: &Position, x: &Sample) -> bool
    ensures { result ≡ word_at bound p.now x.now }
{
    is_short(
        bound as u32,
        x.x as i64 - p.x as i64,
        x.y as i64 - p.y as i64,
        x.z as i64 - p.z as i64,
    )
}

// Whether something is so, if that is asked.
fn is_as_asked(asked: bool, is: bool) -> bool
    ensures { result ≡ (not asked || is) }
{
    !asked || is
}

fn is_down_at(height: i16, x: &Sample) -> bool
    ensures { result ≡ (word_stands height x.now && not x.now.flying) }
{
    stands_at(height, x) && !x.flying
}

#[tactic(auto, unfolding(flight_model::specs::Samples::is_fit_by))]
fn is_fit_sample(silence: u32, w: &Condition, x: &Sample) -> bool
    ensures { result ≡ is_fit_by silence w.now x.now }
{
    x.age <= silence
        && is_at(w.bound, &w.position, x)
        && x.sure
        && !x.lost
        && is_as_asked(w.ready, x.ready)
        && is_as_asked(w.armed, x.armed)
        && is_as_asked(w.down, is_down_at(w.position.z, x))
}

/// Whether a drone's last sample meets its condition.
pub fn is_fit(silence: u32, w: &Condition, seen: &Option<Sample>) -> bool
    ensures { result ≡ word_fit silence w.now seen.now }
{
    match seen {
        None => false,
        Some(x) => is_fit_sample(silence, w, x),
    }
}

/// Whether each drone meets its condition.
pub fn all_fit(silence: u32, conditions: &[Condition], tracks: &[Track]) -> bool
    ensures { result ≡ word_all silence conditions.now tracks.now }
{
    for d in 0..conditions.len() {
        if d >= tracks.len() {
            return false;
        }
        if !is_fit(silence, &conditions[d], &tracks[d].seen) {
            return false;
        }
    }
    true
}

/// The first drone that doesn't meet its condition, or how many there are.
pub fn first_unfit(silence: u32, conditions: &[Condition], tracks: &[Track]) -> usize
    ensures value { result ≡ word_first silence 0 conditions.now tracks.now }
    ensures few { result ≤ length conditions.now }
{
    for d in 0..conditions.len() {
        if d >= tracks.len() {
            return d;
        }
        if !is_fit(silence, &conditions[d], &tracks[d].seen) {
            return d;
        }
    }
    conditions.len()
}
