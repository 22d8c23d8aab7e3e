//! Whether drones are down.

ghost use Rattle.std.specs.Prelude.{◌≡◌, Some};
ghost use Rattle.flight_model.specs.Samples.{is_level as word_level, stands_at as word_stands};
ghost use Rattle.flight_model.specs.Directors.{is_down as word_down, all_down as word_all, are_down as word_are};
ghost use Rattle.flight_model.specs.Directors.{end_step};

use flight_model::{Condition, Flight, Sample, Track};

// How far above or below a height a drone may be that is at it, in millimetres.
const LEVEL_MM: i32 = 120;

fn is_level(height: i16, z: i16) -> bool
    ensures { result ≡ word_level height z }
{
    let (height, z) = (height as i32, z as i32);
    z <= height + LEVEL_MM && height <= z + LEVEL_MM
}

/// Whether a sample says that its drone stands, and is at this height.
pub fn stands_at(height: i16, x: &Sample) -> bool
    ensures { result ≡ word_stands height x.now }
{
    x.down && is_level(height, x.z)
}

fn is_down_sample(f: &Flight, still: bool, pad: &Condition, x: &Sample) -> bool
    ensures { result ≡ word_down f.now still pad.now (Some x.now) }
{
    x.age <= f.silence
        && (stands_at(f.floor, x) || stands_at(pad.position.z, x))
        && (!still || !x.flying)
}

fn is_down(f: &Flight, still: bool, pad: &Condition, seen: &Option<Sample>) -> bool
    ensures { result ≡ word_down f.now still pad.now seen.now }
{
    match seen {
        None => false,
        Some(x) => is_down_sample(f, still, pad, x),
    }
}

fn all_down(f: &Flight, still: bool, pads: &[Condition], tracks: &[Track]) -> bool
    ensures { result ≡ word_all f.now still pads.now tracks.now }
{
    for d in 0..tracks.len() {
        if d >= pads.len() {
            return false;
        }
        if !is_down(f, still, &pads[d], &tracks[d].seen) {
            return false;
        }
    }
    true
}

/// Whether each drone is down, on the floor or at its pad, where the last step has it; and, if they have to be still,
/// none says that it flies.
pub fn are_down(f: &Flight, still: bool, tracks: &[Track]) -> bool
    ensures { result ≡ word_are f.now still (end_step f.now) tracks.now }
{
    let steps = f.steps.as_slice();
    match steps.get(steps.len().saturating_sub(1)) {
        None => false,
        Some(step) => all_down(f, still, step.conditions.as_slice(), tracks),
    }
}
