//! What the director says, as frames.

ghost use Rattle.std.specs.Prelude.{◌≡◌, ◌+◌, ◌≤◌, ◌<◌, ◌++◌, ◌∷◌, [], length};
ghost use Rattle.byteorder.specs.Endian.{little_bytes};
ghost use Rattle.flight_model.specs.Ours.{flight_group};
ghost use Rattle.flight_link.specs.Frames.{fault_byte as word_fault, order_bytes, output_bytes};
ghost use Rattle.flight_link.specs.Frames.{over_byte as word_over, position as word_position, signed};

use arrayvec::ArrayVec;
use byteorder::{ByteOrder, LittleEndian};
use flight_model::{Fault, Frame, Note, Order};

/// The most bytes of a frame: a go to one drone.
pub const FRAME_BYTES: usize = 15;

/// The bytes of a frame.
pub type FrameBytes = ArrayVec<u8, FRAME_BYTES>;

fn put(out: &mut FrameBytes, byte: u8)
    requires { length out.old.items < 15 }
    ensures { out.new.items ≡ out.old.items ++ byte ∷ [] }
{
    out.push(byte);
}

fn put_signed(out: &mut FrameBytes, v: i16)
    requires { length out.old.items ≤ 13 }
    ensures { out.new.items ≡ out.old.items ++ signed v }
{
    let mut bytes = [0; 2];
    LittleEndian::write_i16(&mut bytes, v);
    put(out, bytes[0]);
    put(out, bytes[1]);
}

fn put_time(out: &mut FrameBytes, ms: u32)
    requires { length out.old.items ≤ 11 }
    ensures { out.new.items ≡ out.old.items ++ little_bytes 4 ms }
{
    let mut bytes = [0; 4];
    LittleEndian::write_u32(&mut bytes, ms);
    put(out, bytes[0]);
    put(out, bytes[1]);
    put(out, bytes[2]);
    put(out, bytes[3]);
}

// A height, and the time in which a drone goes there.
fn put_height(out: &mut FrameBytes, kind: u8, z: i16, ms: u32)
    requires { length out.old.items ≤ 2 }
    ensures { out.new.items ≡ out.old.items ++ kind ∷ (signed z ++ little_bytes 4 ms) }
{
    put(out, kind);
    put_signed(out, z);
    put_time(out, ms);
}

fn put_position(out: &mut FrameBytes, x: i16, y: i16, z: i16)
    requires { length out.old.items ≤ 9 }
    ensures { out.new.items ≡ out.old.items ++ word_position x y z }
{
    put_signed(out, x);
    put_signed(out, y);
    put_signed(out, z);
}

fn put_turn(out: &mut FrameBytes, yaw: i16, ms: u32)
    requires { length out.old.items ≤ 9 }
    ensures { out.new.items ≡ out.old.items ++ (signed yaw ++ little_bytes 4 ms) }
{
    put_signed(out, yaw);
    put_time(out, ms);
}

fn put_go(out: &mut FrameBytes, x: i16, y: i16, z: i16, yaw: i16, ms: u32)
    requires { length out.old.items ≤ 2 }
    ensures { out.new.items ≡ out.old.items ++ 2 ∷ (word_position x y z ++ (signed yaw ++ little_bytes 4 ms)) }
{
    put(out, 2);
    put_position(out, x, y, z);
    put_turn(out, yaw, ms);
}

// The group of a flight, as the mask of a packet: the first bit.
const FLIGHT_GROUP: u8 = 1;

// An order that has the flight's group.
fn put_group(out: &mut FrameBytes, kind: u8)
    requires { length out.old.items ≤ 2 }
    ensures { out.new.items ≡ out.old.items ++ kind ∷ flight_group ∷ [] }
{
    put(out, kind);
    put(out, FLIGHT_GROUP);
}

fn put_order(out: &mut FrameBytes, order: &Order)
    requires { length out.old.items ≤ 2 }
    ensures { out.new.items ≡ out.old.items ++ order_bytes order.now }
{
    match order {
        Order::Arm => put(out, 0),
        Order::Rise { z, ms } => put_height(out, 1, *z, *ms),
        Order::Go { x, y, z, yaw, ms } => put_go(out, *x, *y, *z, *yaw, *ms),
        Order::Land { z, ms } => put_height(out, 3, *z, *ms),
        Order::Start => put_group(out, 4),
        Order::Halt => put(out, 5),
        Order::Disarm => put(out, 6),
        Order::Group => put_group(out, 7),
    }
}

fn fault_byte(fault: Fault) -> u8
    ensures { result ≡ word_fault fault }
{
    match fault {
        Fault::Silent => 0,
        Fault::Astray => 1,
        Fault::Lost => 2,
        Fault::Refused => 3,
        Fault::Late => 4,
        Fault::Unsure => 5,
        Fault::Outside => 6,
        Fault::Uncovered => 7,
    }
}

fn over_byte(flown: bool, kept: bool) -> u8
    ensures { result ≡ word_over flown kept }
{
    match (flown, kept) {
        (false, false) => 0,
        (true, false) => 1,
        (false, true) => 2,
        (true, true) => 3,
    }
}

fn put_note(out: &mut FrameBytes, note: &Note)
    requires { out.old.items ≡ [] }
    ensures { out.new.items ≡ 3 ∷ note.now.drone ∷ word_fault note.now.fault ∷ [] }
{
    put(out, 3);
    put(out, note.drone);
    put(out, fault_byte(note.fault));
}

/// The bytes of what the director says.
pub fn frame_bytes(frame: &Frame) -> FrameBytes
    ensures { result.items ≡ output_bytes frame.now }
{
    let mut out = FrameBytes::new();
    match frame {
        Frame::To { drone, order } => {
            put(&mut out, 1);
            put(&mut out, *drone);
            put_order(&mut out, order);
        }
        Frame::ToAll { order } => {
            put(&mut out, 2);
            put_order(&mut out, order);
        }
        Frame::Noted { note } => put_note(&mut out, note),
        Frame::Over { flown, kept } => {
            put(&mut out, 4);
            put(&mut out, over_byte(*flown, *kept));
        }
    }
    out
}
