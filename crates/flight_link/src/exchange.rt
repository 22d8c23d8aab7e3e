//! A flight between a source and a sink, from the first event to the end frame.

ghost use Rattle.std.specs.Prelude.{◌≡◌, ◌≤◌, ◌++◌, [], ◌∷◌, ℕ, List, length, None, IsTrue, Contains};
ghost use Rattle.std.specs.Io.KnownBytes.{Appends};
ghost use Rattle.byte_streams.specs.Held.{buffer_bytes, stream};
ghost use Rattle.byte_streams.specs.Told.{MayGive, Went, to_come};
ghost use Rattle.flight_model.specs.declared.events.Event.{Event};
ghost use Rattle.flight_model.specs.declared.flights.Flight.{Flight};
ghost use Rattle.flight_model.specs.Directors.{drones};
ghost use Rattle.flight_director.specs.Held.{IsHeld};
ghost use Rattle.flight_link.specs.Frames.{IsEvent, event_bytes};
ghost use Rattle.flight_link.specs.Sends.{end_in, end_of, ended};
ghost use Rattle.link_dialogue.specs.Dialogues.{RunGives};
ghost use Rattle.link_dialogue.specs.Machines.{TakesItem};
ghost use Rattle.flight_link.specs.Flights.{dialogue_of};
ghost use Rattle.flight_link.specs.Steps.{Stands};

use crate::begun::{Begun, Fed as EventFed};
use crate::law::frame_law;
use crate::output::{Bytes, put_all};
use byte_streams::status::DONE;
use byte_streams::{Parts, Sink, Source};
use flight_director::{Director, Out};
use flight_model::{Event, Flight, Frame};
use link_dialogue::{Fed, Machine, Taken, run};

/// The flight is over, and it wasn't flown to its last step, or a drone left its curve in the show or was silent.
pub const NOT_FLOWN: u8 = 20;

fn end_of(frame: &Frame) -> Option<u8>
    ensures { result ≡ end_of frame.now }
{
    match frame {
        Frame::Over {
            flown: true,
            kept: true,
        } => Some(DONE),
        Frame::Over { .. } => Some(NOT_FLOWN),
        _ => None,
    }
}

// The status of the first end that frames say, if they say one.
fn end_in(said: &[Frame]) -> Option<u8>
    ensures { result ≡ end_in said.now }
{
    for frame in said {
        if let Some(status) = end_of(frame) {
            return Some(status);
        }
    }
    None
}

fn drone_count(flight: &Flight) -> usize
    ensures { result ≡ drones flight.now }
{
    flight.curves.as_slice().len()
}

// The director of a flight, the event that is begun, and what was said last.
#[derive(Drop)]
struct Linked {
    director: Director,
    drones: usize,
    begun: Begun,
    said: Out,
    bytes: Bytes,
}

impl Linked {
    // Hands an event to the director of a flight that is going, with no other one begun.
    fn hear(&mut self, event: &Event) -> Option<u8>
        ensures { (f : Flight) (events : List Event)
            → Stands f self.old.director self.old.drones self.old.begun events [] → ended f events ≡ None
            → IsEvent (drones f) event.now
            → TakesItem (dialogue_of f) (λ now. Stands f self.new.director self.new.drones self.new.begun now [])
            (λ whole. whole ≡ event_bytes event.now) events result self.new.bytes.items }
    {
        self.director.event(event, &mut self.said);
        put_all(self.said.as_slice(), &mut self.bytes);
        end_in(self.said.as_slice())
    }
}

impl Machine for Linked {
    ghost dialogue = { λ m. dialogue_of m.director.flight };

    ghost stands = { λ start now events begun. Stands start.director.flight now.director now.drones now.begun events begun };

    ghost sends = { λ m. m.bytes.items };

    fn feed(&mut self, byte: u8) -> Fed {
        match self.begun.feed(byte, self.drones) {
            EventFed::More => Fed::More,
            EventFed::Whole { e } => {
                self.begun = Begun::make();
                Fed::Whole {
                    status: self.hear(&e),
                }
            }
            EventFed::Bad => Fed::Bad,
        }
    }

    fn take(&mut self, _bytes: &[u8]) -> Option<Taken> {
        None
    }

    fn answer(&self) -> &[u8] {
        self.bytes.as_slice()
    }
}

/// Flies a flight through frames (docs/PROMISES.md, "Its frames"). The director hears each event that the source gives,
/// and what it says goes into the sink, until the flight is over: flown and kept (0), or not so (20). Before that it
/// ends where 4,000,000 events were taken (13), where a byte has no place or the last event isn't finished (11), where
/// the source ends (8), and where a read fails (6). The end frame with that status goes out last. It returns the
/// status, or 7 where a write failed. It takes no memory.
pub fn direct<S: Source, K: Sink>(
    parts: &mut Parts,
    source: &mut S,
    flight: Flight,
    sink: &mut K,
) -> u8
    requires sound { IsTrue parts.old.sound }
    requires at_end { IsTrue parts.old.ended → IsTrue (S.told source.old).ended }
    requires holds { length parts.old.waiting ≤ buffer_bytes }
    requires held { IsHeld flight }
    ensures gives { (all : List ℕ) → MayGive parts.new.ended (S.told source.new) all
        → RunGives (dialogue_of flight) (stream parts.old (to_come all (S.told source.old)))
        (to_come all (S.told source.new)) parts.old.ended (S.told source.old).faults (S.told source.new).faults
        (K.faults sink.old) (K.faults sink.new) (K.written sink.old) (K.written sink.new) result }
    // Whether or not the source tells its bytes: what the sink holds only grows.
    ensures grown { (sent : List ℕ) × Appends (K.written sink.old) (K.written sink.new) sent }
    ensures known { Contains (0 ∷ 6 ∷ 7 ∷ 8 ∷ 11 ∷ 13 ∷ 20 ∷ []) result }
    ensures went { Went parts.old.ended parts.new.ended (S.told source.old) (S.told source.new) }
    ensures sink_later { K.faults sink.old ≤ K.faults sink.new }
{
    frame_law();
    let drones = drone_count(&flight);
    let mut machine = Linked {
        director: Director::make(flight),
        drones,
        begun: Begun::make(),
        said: Out::new(),
        bytes: Bytes::new(),
    };
    run(&mut machine, parts, source, sink)
}
