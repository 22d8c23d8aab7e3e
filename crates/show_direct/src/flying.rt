//! `direct`: three texts are read, and the flight of their shows is flown.

ghost use Rattle.std.specs.Prelude.{◌≡◌, ◌⊎◌, ◌<◌, ◌≤◌, ◌+◌, ◌++◌, ℕ, List, length, IsTrue, IfOk};
ghost use Rattle.byte_streams.specs.Held.{Held, buffer_bytes};
ghost use Rattle.whole_numbers.specs.Limits.{most_text};
ghost use Rattle.text_lines.specs.Marker.{part_of};
ghost use Rattle.byte_streams.specs.Told.{MayGive, Told, Went};
ghost use Rattle.flight_director.specs.Held.{IsHeld};
ghost use Rattle.show_judge.specs.Runs.{Does};
ghost use Rattle.show_judge.specs.Verb.{during};
ghost use Rattle.command_words.specs.declared.flight.FlightOptions.{FlightOptions as Allowed};
ghost use Rattle.show_direct.specs.Direct.{DirectLaw, FlyAsOne, HasBegun, direct_verb, up_exchange};
ghost use Rattle.show_direct.specs.Steps.{Carries, FlightRead, TookLittle, coming, left_of, since};

use crate::making::make_flight;
use crate::reading::{Unflown, end_unflown, read_show};
use byte_streams::{Parts, Sink, Source, marker_law};
use choreo_reader::show_law;
use command_words::FlightOptions;
use flight_link::flight_link_law;
use flight_model::{Flight, director_law};
use std::alloc::Global;

// Reads a way up, a show and a way down, and makes the flight of the three.
fn read_flight<S: Source>(
    alloc: Global,
    options: &FlightOptions,
    parts: &mut Parts,
    source: &mut S,
) -> Result<Flight, Unflown>
    requires sound { IsTrue parts.old.sound }
    requires lines { IsTrue parts.old.lines }
    requires at_end { IsTrue parts.old.ended → IsTrue (S.told source.old).ended }
    requires holds { length parts.old.waiting ≤ buffer_bytes }
    ensures read { (all : List ℕ) → MayGive parts.new.ended (S.told source.new) all
        → FlightRead options.now all (up_exchange options.now) parts.old (S.told source.old) parts.new
        (S.told source.new) result }
    ensures little { (all : List ℕ) → MayGive parts.new.ended (S.told source.new) all
        → most_text < length (part_of (coming parts.old all (S.told source.old)))
        → TookLittle (S.told source.old) (S.told source.new) result }
    ensures held { IfOk result IsHeld }
    ensures sound { IfOk result (λ _. IsTrue parts.new.sound) }
    ensures most { length parts.new.waiting ≤ buffer_bytes }
    ensures went { Went parts.old.ended parts.new.ended (S.told source.old) (S.told source.new) }
{
    marker_law();
    show_law();
    let up = read_show(alloc, options.depth, parts, source)?;
    let show = read_show(alloc, options.depth, parts, source)?;
    let down = read_show(alloc, options.depth, parts, source)?;
    let flight = make_flight(alloc, options, up.fitted, show.fitted, down.fitted)?;
    Ok(flight)
}

// Flies a flight through frames, or ends where there is none.
fn fly<S: Source, K: Sink>(
    read: Result<Flight, Unflown>,
    parts: &mut Parts,
    source: &mut S,
    sink: &mut K,
) -> u8
    requires sound { IfOk read (λ _. IsTrue parts.old.sound) }
    requires at_end { IsTrue parts.old.ended → IsTrue (S.told source.old).ended }
    requires holds { length parts.old.waiting ≤ buffer_bytes }
    requires held { IfOk read IsHeld }
    ensures carries { (o : Allowed) (all : List ℕ) (x : Held) (t : Told) → MayGive parts.new.ended (S.told source.new) all
        → FlightRead o all (up_exchange o) x t parts.old (S.told source.old) read
        → Carries (up_exchange o) (coming x all t) (left_of all (S.told source.new)) x.ended
        (since t (during S.told K.written K.faults source.old source.new sink.old sink.new)) result }
    ensures little { (t : Told) → TookLittle t (S.told source.old) read
        → length (S.told source.new).given ≤ length t.given + (most_text + 4 + buffer_bytes) }
    ensures went { Went parts.old.ended parts.new.ended (S.told source.old) (S.told source.new) }
{
    match read {
        Ok(flight) => flight_link::direct(parts, source, flight, sink),
        Err(why) => end_unflown(sink, &why),
    }
}

/// The laws. A text that is read in a flight, with all after it, gives one outcome, and some; where nothing is lacking,
/// that has status 0; and status 0 says what `FliesWhole` says.
pub fn direct_law()
    ensures { DirectLaw }
{
    show_law();
    flight_link_law();
    director_law();
}

/// Runs `direct` (docs/COMMANDS.md): reads a way up, a show and a way down, each a text that a marker line ends, and
/// flies the flight of the three through frames (docs/PROMISES.md, "Its frames"), to an end frame. Or it writes the end
/// frame alone, with the status of the first reason why a show is refused. Where the three are no flight it writes the
/// first cause (`fault_frame` of specs/Frames.antt), and the end frame of 19. Where the flight began, or ended with 0,
/// the three shows are a flight, and fly apart.
pub fn direct<S: Source, K: Sink>(
    alloc: Global,
    options: &FlightOptions,
    source: &mut S,
    sink: &mut K,
) -> u8
    ensures behaves { Does (direct_verb options.now)
        (during S.told K.written K.faults source.old source.new sink.old sink.new) result }
    ensures begun { (given : List ℕ) → (S.told source.new).given ≡ (S.told source.old).given ++ given
        → HasBegun (K.written sink.old) (K.written sink.new) ⊎ (result ≡ 0) → FlyAsOne options.now given }
{
    show_law();
    direct_law();
    let mut parts = Parts::make();
    let read = read_flight(alloc, options, &mut parts, source);
    fly(read, &mut parts, source, sink)
}
