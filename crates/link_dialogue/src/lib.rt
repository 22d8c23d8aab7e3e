//! A dialogue over a link: what an upload and a flight have in common, whatever their items are (docs/RADIO.md, "Link
//! frames").
//!
//! A [`Machine`] takes items and says what each leads to; `run` carries its dialogue to the end frame, which `finish`
//! writes. `specs/Dialogues.antt` says which status and which output any bytes lead to (`DialogueGives`), what was sent
//! where a read or a write failed, and that no answer waits. The crate stands on `byte_streams` for bytes in and out, and
//! on `link_frames` for the end frame.
#![tactic(auto)]

ghost use Rattle.std.specs.Prelude.{◌≡◌, ◌≢◌, ◌⊎◌, ◌≤◌};
ghost use Rattle.std.specs.Io.KnownBytes.{Appends};
ghost use Rattle.byte_streams.specs.Causes.{Rose};
ghost use Rattle.byte_streams.specs.Taken.{AppendsFront};
ghost use Rattle.link_frames.specs.Frames.{end_frame};

mod driver;
mod machine;

use byte_streams::status::WRITE_FAILED;
use byte_streams::{Failed, Sink, write_whole};
pub use driver::run;
use link_frames::END_BYTE;
pub use machine::{Fed, Machine, Taken};

/// Writes the end frame of a dialogue. Returns its status, or 7 where a write failed.
pub fn finish<K: Sink>(sink: &mut K, status: u8) -> u8
    ensures ok { result ≢ 7 → (result ≡ status) × Appends (K.written sink.old) (K.written sink.new) (end_frame status) }
    ensures front { AppendsFront (K.written sink.old) (K.written sink.new) (end_frame status) }
    ensures cause { result ≡ 7 → status ≢ 7 → Rose (K.faults sink.old) (K.faults sink.new) }
    ensures later { K.faults sink.old ≤ K.faults sink.new }
    ensures known { (result ≡ status) ⊎ (result ≡ 7) }
{
    match write_whole(sink, &[END_BYTE, status]) {
        Ok(()) => status,
        Err(Failed) => WRITE_FAILED,
    }
}
