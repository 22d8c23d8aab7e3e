//! A frame, what a byte of one gives, and how a frame is written.

ghost use Rattle.std.specs.Prelude.{◌≡◌, ℕ, ◌+◌, ◌≤◌, List, [], ◌∷◌, ◌++◌, length, IfSome, IfNone};
ghost use Rattle.whole_numbers.specs.Limits.{most_drones};
ghost use Rattle.link_frames.specs.Frames.{BeginsNoFrame, BeginsWithFrame, IsFrame, frame_bytes, frame_of, packet_byte};
ghost use Rattle.link_frames.specs.declared.frame.Frame.TheVariants as frame;

use arrayvec::ArrayVec;
use crtp_packets::{PACKET_BYTES, Packet};
use whole_numbers::MOST_DRONES;

/// The one byte of a tick, `T`.
pub const TICK_BYTE: u8 = 0x54;

/// The first byte of a packet's frame, `P`. The drone, the packet's length and the packet follow.
pub const PACKET_BYTE: u8 = 0x50;

/// The first byte of the end frame, `E`, which goes out last. A status follows. It never comes in.
pub const END_BYTE: u8 = 0x45;

/// The most bytes of a frame: three, and a packet of 31.
pub const FRAME_BYTES: usize = 34;

/// A frame that came in.
#[derive(Drop)]
pub enum Frame {
    /// A tick of the host's clock.
    Tick,
    /// A packet that a drone sent. The drone counts from 1.
    Packet { drone: u8, packet: Packet },
}

/// A frame whose packet stands in bytes of others.
#[derive(Clone, Copy, Drop)]
pub enum View<'a> {
    /// A tick of the host's clock.
    Tick,
    /// A packet that a drone sent, by its bytes. The drone counts from 1.
    Packet { drone: u8, packet: &'a [u8] },
}

/// Why a byte has no place.
#[derive(Clone, Copy, PartialEq, Eq)]
pub enum FrameFault {
    /// No frame begins with it.
    Kind,
    /// It is no drone's number.
    Drone,
    /// No packet has this length.
    Length,
}

/// What a further byte gives.
#[derive(Drop)]
pub enum Fed {
    /// The frame isn't whole yet.
    More,
    /// This frame is whole.
    Frame { f: Frame },
    /// The byte has no place.
    Bad { why: FrameFault },
}

impl Frame {
    /// The frame, with its packet lent.
    pub fn view(&self) -> View<'_>
        ensures { frame_of result ≡ self.now }
    {
        match self {
            Frame::Tick => View::Tick,
            Frame::Packet { drone, packet } => View::Packet {
                drone: *drone,
                packet: packet.bytes(),
            },
        }
    }
}

impl<'a> View<'a> {
    /// How many bytes the frame has, of 1 to 34.
    pub fn size(&self) -> usize
        requires { IsFrame (frame_of self.now) }
        ensures value { result ≡ length (frame_bytes (frame_of self.now)) }
        ensures some { 1 ≤ result }
        ensures few { result ≤ FRAME_BYTES }
    {
        match self {
            View::Tick => 1,
            View::Packet { packet, .. } => 3 + packet.len(),
        }
    }
}

// The frame of a packet whose bytes after the first one begin these, where it stands whole there.
fn whole_packet(rest: &[u8]) -> Option<View<'_>>
    ensures some { IfSome result (λ view. BeginsWithFrame (packet_byte ∷ rest.now) (frame_of view)) }
    ensures none { IfNone result (BeginsNoFrame (packet_byte ∷ rest.now)) }
{
    if rest.len() < 2 {
        return None;
    }
    let drone = rest[0];
    let len = usize::from(rest[1]);
    if drone < 1
        || drone > MOST_DRONES as u8
        || len < 1
        || len > PACKET_BYTES
        || len > rest.len() - 2
    {
        return None;
    }
    let packet = &rest[2..2 + len];
    Some(View::Packet { drone, packet })
}

/// The frame with which bytes begin, where it stands whole there: it is the only one (`frame_law`). No byte is copied.
/// `None` where they begin with no whole frame, since one of its bytes has no place or some of them are still to come.
pub fn whole_frame(bytes: &[u8]) -> Option<View<'_>>
    ensures some { IfSome result (λ view. BeginsWithFrame bytes.now (frame_of view)) }
    ensures none { IfNone result (BeginsNoFrame bytes.now) }
{
    if bytes.is_empty() {
        return None;
    }
    match bytes[0] {
        TICK_BYTE => Some(View::Tick),
        PACKET_BYTE => whole_packet(&bytes[1..]),
        _ => None,
    }
}

/// Puts the frame of a packet to or from a drone, which counts from 1, after what `out` has.
pub fn put_frame<const N: usize>(drone: u8, packet: &Packet, out: &mut ArrayVec<u8, N>)
    requires some { 1 ≤ drone }
    requires few { drone ≤ most_drones }
    requires room { length out.old.items + FRAME_BYTES ≤ N }
    ensures { out.new.items ≡ out.old.items ++ frame_bytes (frame.Packet drone packet.now) }
{
    let bytes = packet.bytes();
    out.push(PACKET_BYTE);
    out.push(drone);
    out.push(bytes.len() as u8);
    let _ = out.try_extend_from_slice(bytes);
}
