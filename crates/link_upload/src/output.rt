//! Frames that go out.

ghost use Rattle.std.specs.Prelude.{◌≡◌, ◌+◌, ◌≤◌, ◌++◌, [], ◌∷◌, length, All};
ghost use Rattle.upload_core.specs.HostState.{IsPacketOf};
ghost use Rattle.link_upload.specs.Links.{link_of};
ghost use Rattle.link_upload.specs.Sends.{packet_frames};

use crate::host::packet_of;
use arrayvec::ArrayVec;
use link_frames::{FRAME_BYTES, put_frame};
use upload_core::{Host, MOST_SENT, Sent};

// The most bytes that one event sends.
const MOST_OUT: usize = MOST_SENT * FRAME_BYTES;

// The bytes that one event sends: one place for all events of an upload, since to make it clears 4,352 bytes.
pub type Bytes = ArrayVec<u8, MOST_OUT>;

fn put(host: &Host, x: Sent, bytes: &mut Bytes)
    requires known { IsPacketOf host.now.session x }
    requires room { length bytes.old.items + FRAME_BYTES ≤ MOST_OUT }
    ensures bytes { bytes.new.items ≡ bytes.old.items ++ packet_frames (link_of host.now.session) (x ∷ []) }
    ensures most { length bytes.new.items ≤ length bytes.old.items + FRAME_BYTES }
{
    let packet = packet_of(host, x);
    put_frame(x.drone + 1, &packet, bytes);
}

// Puts the frames of packets, in their order. What `bytes` held before is lost.
pub fn put_all(host: &Host, sent: &[Sent], bytes: &mut Bytes)
    requires known { All (IsPacketOf host.now.session) sent.now }
    requires few { length sent.now ≤ MOST_SENT }
    ensures { bytes.new.items ≡ packet_frames (link_of host.now.session) sent.now }
{
    bytes.clear();
    for x in sent {
        put(host, *x, bytes);
    }
}
