//! A flight through frames: the flight director between a source of events and a sink of frames (docs/PROMISES.md, "Its
//! frames").
//!
//! `direct` hands the director each event that comes in, sends what the director says, and ends with a status and the
//! end frame. Its contract says which status and which output any bytes lead to (`FlightGives` of
//! `specs/Flights.antt`), what was sent where a read or a write failed, and that no answer waits for more than 4,096
//! further bytes; `flight_link_law` says that each list of bytes leads to one end, and `orders_law` what drones were
//! told.
//!
//! [`read_event`] and [`frame_bytes`] are frames in the two directions, and `frame_law` says that they lose nothing.
//! Numbers of more than one byte have the lowest byte first, and signed ones are in two's complement.
//!
//! The crate stands on `byte_streams` for bytes in and out, on `flight_director` and `flight_model` for the director, on
//! `link_dialogue` for how any dialogue over a link ends, on `link_frames` for the bytes of the end frame, and on
//! `arrayvec` and `byteorder`.
#![tactic(auto)]

mod begun;
mod events;
mod exchange;
mod frames;
mod law;
mod output;

pub use events::{FrameFault, event_length, read_event};
pub use exchange::{NOT_FLOWN, direct};
pub use frames::{FRAME_BYTES, FrameBytes, frame_bytes};
pub use law::{flight_link_law, frame_law, orders_law};
