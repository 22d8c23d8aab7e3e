//! Frames written out by hand from the table of docs/RADIO.md, "Link frames".

ghost use Rattle.std.specs.Prelude.{◌≡◌, true};
ghost use Rattle.link_frames.specs.Frames.{IsBegun};

use arrayvec::ArrayVec;
use crtp_packets::{from_bytes, write_answer, write_request};
use link_frames::{
    FRAME_BYTES, Fed, Frame, FrameFault, Frames, View, frame_law, put_frame, whole_frame,
};

// An answer to a write at address 24, in the frame of drone 1.
const ANSWER: &[u8] = b"\x50\x01\x07\x4E\x02\x18\x00\x00\x00\x00";

// The longest frame, of a packet of 31 bytes to drone 32, and the packet.
const LONGEST: &[u8] =
    b"\x50\x20\x1F\x54\x54\x54\x54\x54\x54\x54\x54\x54\x54\x54\x54\x54\x54\x54\x54\x54\x54\x54\x54\x54\x54\x54\x54\x54\
    \x54\x54\x54\x54\x54\x54";

// What it is read as.
const LONGEST_SEEN: &[u8] =
    b"P\x20\x54\x54\x54\x54\x54\x54\x54\x54\x54\x54\x54\x54\x54\x54\x54\x54\x54\x54\x54\x54\x54\x54\x54\x54\x54\
    \x54\x54\x54\x54\x54\x54;";

const LONGEST_PACKET: &[u8] =
    b"\x54\x54\x54\x54\x54\x54\x54\x54\x54\x54\x54\x54\x54\x54\x54\x54\x54\x54\x54\x54\x54\x54\x54\x54\x54\x54\x54\x54\
    \x54\x54\x54";

// What is read of bytes, as bytes.
type Seen = ArrayVec<u8, 100>;

fn put(out: &mut Seen, bytes: &[u8]) {
    let _ = out.try_extend_from_slice(bytes);
}

fn put_packet(out: &mut Seen, drone: u8, packet: &[u8]) {
    put(out, &[b'P', drone]);
    put(out, packet);
}

// Takes one byte more, and puts what it gives into `out`: `T` for a tick; for a packet `P`, the drone, the packet and
// `;`; for a byte without a place `K`, `D` or `L`, and then the answer is false.
fn takes(frames: &mut Frames, byte: u8, out: &mut Seen) -> bool
    requires { IsBegun frames.old }
    ensures { result ≡ true → IsBegun frames.new }
{
    frame_law();
    let fed = frames.feed(byte);
    put_fed(&fed, out);
    !matches!(fed, Fed::Bad { .. })
}

fn put_fed(fed: &Fed, out: &mut Seen) {
    match fed {
        Fed::More => {}
        Fed::Frame { f: Frame::Tick } => put(out, b"T"),
        Fed::Frame {
            f: Frame::Packet { drone, packet },
        } => {
            put_packet(out, *drone, packet.bytes());
            put(out, b";");
        }
        Fed::Bad {
            why: FrameFault::Kind,
        } => put(out, b"K"),
        Fed::Bad {
            why: FrameFault::Drone,
        } => put(out, b"D"),
        Fed::Bad {
            why: FrameFault::Length,
        } => put(out, b"L"),
    }
}

// Whether bytes are read as this, and whether each of them belongs to a whole frame.
fn is_seen(bytes: &[u8], wanted: &[u8], whole: bool) -> bool {
    frame_law();
    let mut frames = Frames::make();
    let mut out = Seen::new();
    'bytes: for byte in bytes {
        if !takes(&mut frames, *byte, &mut out) {
            return out.as_slice() == wanted && !whole;
        }
    }
    out.as_slice() == wanted && frames.between() == whole
}

const STREAMS: &[(&[u8], &[u8], bool)] = &[
    (b"", b"", true),
    (b"\x54", b"T", true),
    (ANSWER, b"P\x01\x4E\x02\x18\x00\x00\x00\x00;", true),
    (
        b"\x54\x50\x02\x03\x00\x48\x69\x54\x50\x20\x01\x54",
        b"TP\x02\x00\x48\x69;TP\x20\x54;",
        true,
    ),
    // The front of a frame.
    (b"\x50", b"", false),
    (b"\x54\x50\x01", b"T", false),
    (b"\x50\x01\x07", b"", false),
    (b"\x50\x01\x07\x4E\x02\x18\x00\x00\x00", b"", false),
    // A byte without a place.
    (b"\x51", b"K", false),
    (b"\x00", b"K", false),
    (b"\x54\x45\x00", b"TK", false),
    (b"\x50\x00", b"D", false),
    (b"\x50\x21", b"D", false),
    (b"\x50\x54", b"D", false),
    (b"\x50\x01\x00", b"L", false),
    (b"\x50\x01\x20", b"L", false),
    (b"\x50\x01\x01\x00\x50\x01\xFF\x54", b"P\x01\x00;L", false),
];

// The number of the first row that is read as something else; none where there is no such row.
fn wrong_stream() -> Option<usize> {
    for (k, (bytes, wanted, whole)) in STREAMS.iter().enumerate() {
        if !is_seen(bytes, wanted, *whole) {
            return Some(k);
        }
    }
    None
}

#[test]
fn streams(rt: HostRuntime) {
    assert_eq!(rt; wrong_stream(), None);
}

#[test]
fn longest_frame(rt: HostRuntime) {
    let mut out: ArrayVec<u8, FRAME_BYTES> = ArrayVec::new();
    let Ok(packet) = from_bytes(LONGEST_PACKET) else {
        panic!(rt; "31 bytes are a packet");
    };
    put_frame(32, &packet, &mut out);
    assert!(rt; out.as_slice() == LONGEST);
    assert!(rt; is_seen(LONGEST, LONGEST_SEEN, true));
}

#[test]
fn written_frames(rt: HostRuntime) {
    let mut out: ArrayVec<u8, 90> = ArrayVec::new();
    put_frame(1, &write_answer(2, 24, 0), &mut out);
    assert!(rt; out.as_slice() == ANSWER);
    put_frame(5, &write_request(2, 24, &[3, 0]), &mut out);
    assert!(rt;
        out.as_slice()
            == b"\x50\x01\x07\x4E\x02\x18\x00\x00\x00\x00\x50\x05\x08\x4E\x02\x18\x00\x00\x00\x03\x00".as_slice()
    );
}

// Bytes, the packet of the frame that they begin with, and the frame's length; no bytes and 0 if they begin with none.
// `T` is a tick; a packet is `P`, the drone and the packet.
const FRONTS: &[(&[u8], &[u8], usize)] = &[
    (b"\x54", b"T", 1),
    (b"\x54\x50\x01", b"T", 1),
    (ANSWER, b"P\x01\x4E\x02\x18\x00\x00\x00\x00", 10),
    (b"\x50\x20\x01\x54\x54", b"P\x20\x54", 4),
    (b"\x50\x02\x03\x00\x48\x69\x51", b"P\x02\x00\x48\x69", 6),
    // Some of the frame is still to come.
    (b"", b"", 0),
    (b"\x50", b"", 0),
    (b"\x50\x01", b"", 0),
    (b"\x50\x01\x01", b"", 0),
    (b"\x50\x01\x07\x4E\x02\x18\x00\x00\x00", b"", 0),
    // A byte without a place.
    (b"\x51\x54", b"", 0),
    (b"\x45\x00", b"", 0),
    (b"\x50\x00\x01\x00", b"", 0),
    (b"\x50\x21\x01\x00", b"", 0),
    (b"\x50\xFF\x01\x00", b"", 0),
    (b"\x50\x01\x00\x00", b"", 0),
    (
        b"\x50\x01\x20\x54\x54\x54\x54\x54\x54\x54\x54\x54\x54\x54\x54\x54\x54\x54\x54\x54\x54\x54\x54\x54\x54\x54\
        \x54\x54\x54\x54\x54\x54\x54\x54\x54",
        b"",
        0,
    ),
    (b"\x50\x01\xFF\x54", b"", 0),
    // The longest frame, and a byte after it.
    (
        b"\x50\x20\x1F\x54\x54\x54\x54\x54\x54\x54\x54\x54\x54\x54\x54\x54\x54\x54\x54\x54\x54\x54\x54\x54\x54\x54\
        \x54\x54\x54\x54\x54\x54\x54\x54\x54",
        b"P\x20\x54\x54\x54\x54\x54\x54\x54\x54\x54\x54\x54\x54\x54\x54\x54\x54\x54\x54\x54\x54\x54\x54\x54\x54\x54\
        \x54\x54\x54\x54\x54\x54",
        34,
    ),
];

// Whether this is the frame with which bytes begin, and it has so many bytes.
fn has_front(bytes: &[u8], wanted: &[u8], size: usize) -> bool {
    let Some(view) = whole_frame(bytes) else {
        return wanted.is_empty() && size == 0;
    };
    let mut out = Seen::new();
    match view {
        View::Tick => put(&mut out, b"T"),
        View::Packet { drone, packet } => put_packet(&mut out, drone, packet),
    }
    out.as_slice() == wanted && view.size() == size
}

fn wrong_front() -> Option<usize> {
    for (k, (bytes, wanted, size)) in FRONTS.iter().enumerate() {
        if !has_front(bytes, wanted, *size) {
            return Some(k);
        }
    }
    None
}

#[test]
fn first_frames(rt: HostRuntime) {
    assert_eq!(rt; wrong_front(), None);
}
