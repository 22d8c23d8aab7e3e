//! The frames of a link: how ticks and packets travel on a stream of bytes between an upload and a bridge
//! (docs/RADIO.md, "Link frames").
//!
//! A [`Frames`] is fed one byte after the other and tells when a frame is whole, or that a byte has no place;
//! `whole_frame` reads the frame that given bytes begin with, all at once; `put_frame` gives the one spelling of a
//! packet's frame. What a frame's bytes are is said by `specs/Frames.antt`; `frame_law` says that bytes are read as one
//! list of frames alone, however they are cut. The crate stands on `crtp_packets` for packets, on `whole_numbers` for the
//! number of drones, and on `arrayvec`; none of its calls takes memory.
#![tactic(auto)]

ghost use Rattle.link_frames.specs.Frames.{FrameLaw};

mod frame;
mod frames;

pub use frame::{
    END_BYTE, FRAME_BYTES, Fed, Frame, FrameFault, PACKET_BYTE, TICK_BYTE, View, put_frame,
    whole_frame,
};
pub use frames::Frames;

/// A law. What `feed` tells is what frames are, and bytes are one list of frames alone.
pub fn frame_law()
    ensures { FrameLaw }
{}
