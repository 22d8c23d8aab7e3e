//! Frames that go out.

ghost use Rattle.std.specs.Prelude.{◌≡◌, ◌+◌, ◌≤◌, ◌++◌, length};
ghost use Rattle.flight_link.specs.Frames.{output_bytes};
ghost use Rattle.flight_link.specs.Sends.{frames_bytes};

use crate::frames::{FRAME_BYTES, frame_bytes};
use arrayvec::ArrayVec;
use flight_director::MOST_OUT;
use flight_model::Frame;

// The most bytes that one event sends.
const MOST_BYTES: usize = MOST_OUT * FRAME_BYTES;

// The bytes that one event sends: one place for all events of a flight.
pub type Bytes = ArrayVec<u8, MOST_BYTES>;

fn put(frame: &Frame, bytes: &mut Bytes)
    requires room { length bytes.old.items + FRAME_BYTES ≤ MOST_BYTES }
    ensures bytes { bytes.new.items ≡ bytes.old.items ++ output_bytes frame.now }
    ensures most { length bytes.new.items ≤ length bytes.old.items + FRAME_BYTES }
{
    let frame = frame_bytes(frame);
    let _ = bytes.try_extend_from_slice(frame.as_slice());
}

// Puts the bytes of frames, in their order. What `bytes` held before is lost.
pub fn put_all(said: &[Frame], bytes: &mut Bytes)
    requires few { length said.now ≤ MOST_OUT }
    ensures { bytes.new.items ≡ frames_bytes said.now }
{
    bytes.clear();
    for frame in said {
        put(frame, bytes);
    }
}
