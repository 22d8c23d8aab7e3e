//! An upload through link frames: a host between a source of frames and a sink of frames (docs/RADIO.md, "Link
//! frames").
//!
//! `upload` sends what the host sends, hands it each frame that comes in, and ends with a status and the end frame. Its
//! contract says which status and which output any bytes lead to (`UploadGives` of `specs/Uploads.antt`), what was sent
//! where a read or a write failed, and that no answer waits for more than 4,096 further bytes; `upload_law` says that
//! each list of bytes leads to one end. The crate stands on `byte_streams` for bytes in and out, on `link_frames` for
//! frames, on `link_dialogue` for how any dialogue over a link ends, on `upload_core` and `upload_model` for the host,
//! on `crtp_packets` for packets, on `whole_numbers` for the number of drones, and on `arrayvec`.
#![tactic(auto)]

ghost use Rattle.link_upload.specs.Uploads.{UploadLaw};

mod exchange;
mod host;
mod output;

pub use exchange::upload;

/// A law. Whatever bytes come, an upload has one end and one output.
pub fn upload_law()
    ensures { UploadLaw }
{}
