//! Events, from their frames.

ghost use Rattle.std.specs.Prelude.{◌≡◌, ℕ, ◌<◌, ◌≤◌, ◌+◌, Ok, IfOk, drop, length};
ghost use Rattle.byteorder.specs.Endian.{little_number};
ghost use Rattle.flight_model.specs.declared.events.Event.{Event as EventWord};
ghost use Rattle.flight_link.specs.Frames.{IsEvent, answer_in, bit_at, clock_in, event_bytes, event_in, length_of};
ghost use Rattle.flight_link.specs.Frames.{sample_from as word_from, sample_in, said_in, seen_of};
ghost use Rattle.flight_link.specs.Frames.{signed_at as word_signed};

use byteorder::{ByteOrder, LittleEndian};
use flight_model::{Event, Sample, Signal};

/// Why bytes are no event's frame.
#[derive(Clone, Copy, PartialEq, Eq)]
pub enum FrameFault {
    /// No frame begins with the first byte, or there is none.
    Kind,
    /// A frame that begins so has another length.
    Length,
    /// The flight has no such drone.
    Drone,
    /// A sample's flags are more than 63.
    Flags,
    /// The operator has no such signal.
    Signal,
}

/// How many bytes the frame has that begins with this byte, if one does.
pub fn event_length(kind: u8) -> Option<usize>
    ensures { result ≡ length_of kind }
{
    match kind {
        1 => Some(3),
        2 => Some(11),
        3 => Some(3),
        4 => Some(2),
        _ => None,
    }
}

// Whether the bit of this weight is set in the flags.
fn bit(flags: u8, weight: u8) -> bool
    requires { 0 < weight }
    ensures { result ≡ bit_at weight flags }
{
    flags / weight % 2 == 1
}

fn sample_from(age: u32, x: i16, y: i16, z: i16, flags: u8) -> Sample
    ensures { result ≡ word_from age x y z flags }
{
    Sample {
        age,
        x,
        y,
        z,
        ready: bit(flags, 1),
        armed: bit(flags, 2),
        lost: bit(flags, 4),
        down: bit(flags, 8),
        flying: bit(flags, 16),
        sure: bit(flags, 32),
    }
}

fn age_in(bytes: &[u8]) -> u32
    requires { length bytes.now ≡ 10 }
    ensures { result ≡ little_number 2 (drop 1 bytes.now) }
{
    LittleEndian::read_u16(&bytes[1..]) as u32
}

// The signed number of two bytes from a place on.
fn signed_at(bytes: &[u8], place: usize) -> i16
    requires { place + 2 ≤ length bytes.now }
    ensures { result ≡ word_signed place bytes.now }
{
    LittleEndian::read_i16(&bytes[place..])
}

// The sample of ten bytes, of which the first is the drone.
fn sample(bytes: &[u8]) -> Sample
    requires { length bytes.now ≡ 10 }
    ensures { result ≡ seen_of bytes.now }
{
    sample_from(
        age_in(bytes),
        signed_at(bytes, 3),
        signed_at(bytes, 5),
        signed_at(bytes, 7),
        bytes[9],
    )
}

fn clock(bytes: &[u8]) -> Result<Event, FrameFault>
    ensures { result ≡ clock_in bytes.now }
{
    if bytes.len() != 2 {
        return Err(FrameFault::Length);
    }
    Ok(Event::Clock {
        ms: LittleEndian::read_u16(bytes) as u32,
    })
}

fn seen(bytes: &[u8], drones: usize) -> Result<Event, FrameFault>
    ensures { result ≡ sample_in drones bytes.now }
{
    if bytes.len() != 10 {
        return Err(FrameFault::Length);
    }
    let drone = bytes[0];
    if drone as usize >= drones {
        return Err(FrameFault::Drone);
    }
    if bytes[9] > 63 {
        return Err(FrameFault::Flags);
    }
    Ok(Event::Seen {
        drone,
        sample: sample(bytes),
    })
}

fn answered(bytes: &[u8], drones: usize) -> Result<Event, FrameFault>
    ensures { result ≡ answer_in drones bytes.now }
{
    if bytes.len() != 2 {
        return Err(FrameFault::Length);
    }
    let drone = bytes[0];
    if drone as usize >= drones {
        return Err(FrameFault::Drone);
    }
    Ok(Event::Answered {
        drone,
        status: bytes[1],
    })
}

fn said(bytes: &[u8]) -> Result<Event, FrameFault>
    ensures { result ≡ said_in bytes.now }
{
    if bytes.len() != 1 {
        return Err(FrameFault::Length);
    }
    let signal = match bytes[0] {
        0 => Signal::Go,
        1 => Signal::Land,
        2 => Signal::Stop,
        _ => return Err(FrameFault::Signal),
    };
    Ok(Event::Said { signal })
}

// The event of a frame, as a function of its bytes.
fn event(bytes: &[u8], drones: usize) -> Result<Event, FrameFault>
    ensures { result ≡ event_in drones bytes.now }
{
    if bytes.is_empty() {
        return Err(FrameFault::Kind);
    }
    let rest = &bytes[1..];
    match bytes[0] {
        1 => clock(rest),
        2 => seen(rest, drones),
        3 => answered(rest, drones),
        4 => said(rest),
        _ => Err(FrameFault::Kind),
    }
}

/// The event whose frame these bytes are, all of them, in a flight of this many drones; or why they are none. The bytes
/// alone decide: an event's own frame is read as that event, and bytes that are read as an event are its frame.
pub fn read_event(bytes: &[u8], drones: usize) -> Result<Event, FrameFault>
    ensures value { result ≡ event_in drones bytes.now }
    ensures reads { (e : EventWord) → IsEvent drones e → bytes.now ≡ event_bytes e → result ≡ Ok e }
    ensures only { IfOk result (λ e. IsEvent drones e × (bytes.now ≡ event_bytes e)) }
{
    event(bytes, drones)
}
