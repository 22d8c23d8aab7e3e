//! Whether a sample is at its drone's curve, in the show and on the ways.

ghost use Rattle.std.specs.Prelude.{◌≡◌, ℕ, ◌^◌, ◌<◌, ◌≤◌, ◌*◌, ◌*ℤ◌, ◌-ℤ◌, pos, slice_get, All};
ghost use Rattle.std.specs.List.{list_any};
ghost use Rattle.whole_numbers.specs.Numbers.{IsBelow};
ghost use Rattle.integer_player.specs.Played.{IsPlayable, duration_of, played};
ghost use Rattle.flight_model.specs.Samples.{is_within as word_within, is_kept as word_kept, instants_near};
ghost use Rattle.flight_model.specs.Samples.{instants_until, is_in_stretch as word_in, is_on_course as word_on};
ghost use Rattle.flight_director.specs.Held.{IsCourse, IsHeld};

use crate::distance::is_short;
use flight_model::{Course, Flight, Sample, Stretch};
use integer_player::at;
use traj_codec::Traj;

// Micrometres in a millimetre.
const MICROMETRES: u32 = 1000;

// How far a sample is from a place on an axis, in micrometres.
fn aside(x: i16, p: i64) -> i64
    requires { IsBelow (10 ^ 9) p }
    ensures value { result ≡ pos 1000 *ℤ x -ℤ p }
    ensures small { IsBelow 1040000000 result }
{
    MICROMETRES as i64 * x as i64 - p
}

// Whether a sample is within `stray` of a place in micrometres.
fn is_within(stray: u16, p: &[i64; 4], x: &Sample) -> bool
    requires { All (IsBelow (10 ^ 9)) p.now }
    ensures { result ≡ word_within stray p.now x.now }
{
    is_short(
        MICROMETRES * stray as u32,
        aside(x.x, p[0]),
        aside(x.y, p[1]),
        aside(x.z, p[2]),
    )
}

// Whether a sample is within `stray` of a curve at one instant.
fn is_within_at(stray: u16, t: &Traj, i: u32, x: &Sample) -> bool
    requires playable { IsPlayable t.now }
    requires inside { i ≤ duration_of t.now }
    ensures { result ≡ word_within stray (played t.now i) x.now }
{
    is_within(stray, &at(t, i), x)
}

// Whether a sample is within `stray` of a curve at an instant within half of `late` from `ms`.
fn is_near(f: &Flight, t: &Traj, ms: u32, x: &Sample) -> bool
    requires playable { IsPlayable t.now }
    requires lasts { f.now.show_ms ≤ duration_of t.now }
    requires short { f.now.show_ms ≤ 1000000000 }
    requires inside { ms ≤ f.now.show_ms }
    ensures { result ≡ list_any (λ i. word_within f.now.stray (played t.now i) x.now)
        (instants_near f.now.late f.now.show_ms ms) }
{
    let half = f.late as u32 / 2;
    let first = ms - ms.min(half);
    let past = (ms + half).min(f.show_ms) + 1;
    for i in first..past {
        if is_within_at(f.stray, t, i, x) {
            return true;
        }
    }
    false
}

/// Whether a sample of a drone, taken at the instant `ms` of the show, is at its curve.
#[tactic(auto, unfolding(flight_model::specs::Samples::is_kept))]
pub fn is_kept(f: &Flight, d: usize, ms: u32, x: &Sample) -> bool
    requires held { IsHeld f.now }
    requires inside { ms ≤ f.now.show_ms }
    ensures { result ≡ word_kept f.now d ms x.now }
{
    match f.curves.as_slice().get(d) {
        None => false,
        Some(t) => is_near(f, t, ms, x),
    }
}

// Whether a sample is near a curve of a way at an instant of at most `late` before `ms`.
fn is_near_until(c: &Course, t: &Traj, ms: u32, x: &Sample) -> bool
    requires playable { IsPlayable t.now }
    requires lasts { c.now.ms ≤ duration_of t.now }
    requires short { c.now.ms ≤ 1000000000 }
    ensures { result ≡ list_any (λ i. word_within c.now.stray (played t.now i) x.now)
        (instants_until c.now.late c.now.ms ms) }
{
    let last = ms.min(c.ms);
    let first = last - last.min(c.late as u32);
    let past = last + 1;
    for i in first..past {
        if is_within_at(c.stray, t, i, x) {
            return true;
        }
    }
    false
}

// Whether a sample of a drone, taken at the instant `ms` of a way, is where the drone's curve was shortly before.
#[tactic(auto, unfolding(flight_model::specs::Samples::is_on_course))]
fn is_on_course(c: &Course, d: usize, ms: u32, x: &Sample) -> bool
    requires { IsCourse c.now }
    ensures { result ≡ word_on c.now d ms x.now }
{
    match c.curves.as_slice().get(d) {
        None => false,
        Some(t) => is_near_until(c, t, ms, x),
    }
}

/// Whether a sample of a drone, taken at the instant `ms` of a stretch, is where the drone may be then.
pub fn is_in_stretch(f: &Flight, d: usize, stretch: Stretch, ms: u32, x: &Sample) -> bool
    requires { IsHeld f.now }
    ensures { result ≡ word_in f.now d stretch ms x.now }
{
    match stretch {
        Stretch::Up => is_on_course(&f.up, d, ms, x),
        Stretch::Show => is_kept(f, d, ms.min(f.show_ms), x),
        Stretch::Down => is_on_course(&f.down, d, ms, x),
    }
}
