//! What people are told at an event.

ghost use Rattle.std.specs.Prelude.{◌≡◌, ◌≤◌, ◌+◌, ◌++◌, ◌<◌, length};
ghost use Rattle.std.specs.List.{list_any};
ghost use Rattle.flight_model.specs.declared.events.Note.{Note};
ghost use Rattle.flight_model.specs.Directors.{note_if as word_note, falls_silent as word_falls, silent_from};
ghost use Rattle.flight_model.specs.Directors.{sample_notes};

use crate::tracks::{is_astray, is_lost, is_silent, older};
use arrayvec::ArrayVec;
use flight_model::{Fault, Note, Sample, Track};
use whole_numbers::MOST_DRONES;

/// The most notes of one event.
pub const MOST_NOTES: usize = MOST_DRONES + 1;

/// The notes of an event.
pub type Notes = ArrayVec<Note, MOST_NOTES>;

/// Puts one note after the others, if there is one.
pub fn note_if(out: &mut Notes, noted: bool, drone: usize, fault: Fault)
    requires known { drone < 256 }
    requires room { length out.old.items < MOST_NOTES }
    ensures noted { out.new.items ≡ out.old.items ++ word_note noted drone fault }
    ensures few { length out.new.items ≤ length out.old.items + 1 }
{
    if noted {
        out.push(Note {
            drone: drone as u8,
            fault,
        });
    }
}

fn falls_silent(silence: u32, ms: u32, seen: &Option<Sample>) -> bool
    ensures { result ≡ word_falls silence ms seen.now }
{
    !is_silent(silence, seen) && is_silent(silence, &older(ms, seen))
}

/// The drones that fall silent while this time passes.
pub fn note_silent(out: &mut Notes, silence: u32, ms: u32, tracks: &[Track])
    requires few { length tracks.now ≤ MOST_DRONES }
    requires room { length out.old.items + length tracks.now ≤ MOST_DRONES }
    ensures noted { out.new.items ≡ out.old.items ++ silent_from silence ms 0 tracks.now }
    ensures few { length out.new.items ≤ length out.old.items + length tracks.now }
{
    for d in 0..tracks.len() {
        note_if(
            out,
            falls_silent(silence, ms, &tracks[d].seen),
            d,
            Fault::Silent,
        );
    }
}

/// What becomes known of a drone with a sample: its track before and after it.
pub fn note_sample(out: &mut Notes, d: usize, before: &Track, after: &Track)
    requires known { d < 256 }
    requires room { length out.old.items + 3 < MOST_NOTES }
    ensures noted { out.new.items ≡ out.old.items ++ sample_notes d before.now after.now }
    ensures few { length out.new.items ≤ length out.old.items + 4 }
{
    note_if(
        out,
        !is_lost(&before.seen) && is_lost(&after.seen),
        d,
        Fault::Lost,
    );
    note_if(
        out,
        !is_astray(&before.off) && is_astray(&after.off),
        d,
        Fault::Astray,
    );
    note_if(
        out,
        !is_astray(&before.unsure) && is_astray(&after.unsure),
        d,
        Fault::Unsure,
    );
    note_if(out, !before.outside && after.outside, d, Fault::Outside);
}
