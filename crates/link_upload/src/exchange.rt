//! An upload between a source and a sink, from the first packets to the end frame.

ghost use Rattle.std.specs.Prelude.{◌≡◌, ◌≤◌, ◌++◌, [], ◌∷◌, ℕ, List, length, None, IsTrue, All};
ghost use Rattle.std.specs.Prelude.{Contains};
ghost use Rattle.std.specs.Io.KnownBytes.{Appends};
ghost use Rattle.byte_streams.specs.Held.{buffer_bytes, stream};
ghost use Rattle.byte_streams.specs.Told.{MayGive, Went, to_come};
ghost use Rattle.link_frames.specs.declared.frame.Frame.{Frame};
ghost use Rattle.link_frames.specs.Frames.{IsFrame, frame_bytes, frame_of};
ghost use Rattle.upload_core.specs.HostStandsFor.{HostStandsFor};
ghost use Rattle.upload_core.specs.HostState.{IsPacketOf, view_of};
ghost use Rattle.link_dialogue.specs.Dialogues.{RunGives};
ghost use Rattle.link_dialogue.specs.Machines.{TakesItem};
ghost use Rattle.link_upload.specs.Links.{link_of};
ghost use Rattle.link_upload.specs.Sends.{answers_after, event_in, events_in, packet_frames};
ghost use Rattle.link_upload.specs.Steps.{Stands};
ghost use Rattle.link_upload.specs.Uploads.{upload_of};
ghost use Rattle.upload_model.specs.declared.events.Event.{Event};
ghost use Rattle.upload_model.specs.Sessions.{Upload};

use crate::host::{drone_count, take_packet, take_tick};
use crate::output::{Bytes, put_all};
use byte_streams::{Parts, Sink, Source};
use link_dialogue::{Fed, Machine, Taken, run};
use link_frames::{Frames, View, whole_frame};
use upload_core::{Host, Out};

// Hands a frame to the host of an upload that is going. A packet of a drone that isn't in the session is no event.
#[inline(always)]
fn take_frame(host: &mut Host, frame: View<'_>, out: &mut Out) -> Option<u8>
    requires formed { IsFrame (frame_of frame) }
    ensures session { host.new.session ≡ host.old.session }
    ensures stands { (h : List Event) → HostStandsFor (view_of host.old) h → (link_of host.old.session).ended h ≡ None
        → HostStandsFor (view_of host.new) (h ++ event_in (link_of host.old.session) (frame_of frame.entry)) }
    ensures answer { (h : List Event) → HostStandsFor (view_of host.old) h → (link_of host.old.session).ended h ≡ None
        → result ≡ (link_of host.old.session).ended (h ++ event_in (link_of host.old.session) (frame_of frame.entry)) }
    ensures sent { (h : List Event) → HostStandsFor (view_of host.old) h → (link_of host.old.session).ended h ≡ None
        → packet_frames (link_of host.old.session) out.new.items
        ≡ answers_after (link_of host.old.session) h (event_in (link_of host.old.session) (frame_of frame.entry)) }
    ensures known { All (IsPacketOf host.new.session) out.new.items }
{
    match frame {
        View::Tick => take_tick(host, out),
        View::Packet { drone, packet } => {
            if usize::from(drone) > drone_count(host) {
                out.clear();
                return None;
            }
            take_packet(host, drone - 1, packet, out)
        }
    }
}

// The host of an upload, the frame that is begun, and what the last event sends.
#[derive(Drop)]
struct Linked {
    host: Host,
    frames: Frames,
    out: Out,
    bytes: Bytes,
}

impl Linked {
    // Hands a frame to the host of an upload that is going, with no other one begun.
    #[inline(always)]
    fn hear(&mut self, frame: View<'_>) -> Option<u8>
        requires formed { IsFrame (frame_of frame) }
        ensures { (s : Upload) (frames : List Frame) → Stands s self.old.host self.old.frames frames []
            → (link_of s).ended (events_in (link_of s) frames) ≡ None
            → TakesItem (upload_of (link_of s)) (λ now. Stands s self.new.host self.new.frames now [])
            (λ whole. whole ≡ frame_bytes (frame_of frame.entry)) frames result self.new.bytes.items }
    {
        let status = take_frame(&mut self.host, frame, &mut self.out);
        put_all(&self.host, self.out.as_slice(), &mut self.bytes);
        status
    }
}

impl Machine for Linked {
    ghost dialogue = { λ m. upload_of (link_of m.host.session) };

    ghost stands = { λ start now frames begun. Stands start.host.session now.host now.frames frames begun };

    ghost sends = { λ m. m.bytes.items };

    fn feed(&mut self, byte: u8) -> Fed {
        match self.frames.feed(byte) {
            link_frames::Fed::More => Fed::More,
            link_frames::Fed::Frame { f } => Fed::Whole {
                status: self.hear(f.view()),
            },
            link_frames::Fed::Bad { .. } => Fed::Bad,
        }
    }

    fn take(&mut self, bytes: &[u8]) -> Option<Taken> {
        match whole_frame(bytes) {
            Some(frame) => {
                let size = frame.size();
                let status = self.hear(frame);
                Some(Taken { size, status })
            }
            None => None,
        }
    }

    fn answer(&self) -> &[u8] {
        self.bytes.as_slice()
    }
}

/// Carries an upload through link frames (docs/RADIO.md, "Link frames"), of a host to which nothing has happened.
/// What the host sends goes into the sink, and what the source gives goes to the host, until the upload is done
/// (0), given up (9) or refused (10), or with read-back a byte differs (14), 4,000,000 frames were taken (13), a
/// byte has no place or the last frame isn't finished (11), the source ends (8), or a read fails (6). The end frame
/// with that status goes out last. It returns the status, or 7 where a write failed. It takes no memory.
pub fn upload<S: Source, K: Sink>(parts: &mut Parts, source: &mut S, host: Host, sink: &mut K) -> u8
    requires sound { IsTrue parts.old.sound }
    requires at_end { IsTrue parts.old.ended → IsTrue (S.told source.old).ended }
    requires holds { length parts.old.waiting ≤ buffer_bytes }
    requires new { HostStandsFor (view_of host) [] }
    ensures gives { (all : List ℕ) → MayGive parts.new.ended (S.told source.new) all
        → RunGives (upload_of (link_of host.session)) (stream parts.old (to_come all (S.told source.old)))
        (to_come all (S.told source.new)) parts.old.ended (S.told source.old).faults (S.told source.new).faults
        (K.faults sink.old) (K.faults sink.new) (K.written sink.old) (K.written sink.new) result }
    // Whether or not the source tells its bytes: what the sink holds only grows.
    ensures grown { (sent : List ℕ) × Appends (K.written sink.old) (K.written sink.new) sent }
    ensures known { Contains (0 ∷ 6 ∷ 7 ∷ 8 ∷ 9 ∷ 10 ∷ 11 ∷ 13 ∷ 14 ∷ []) result }
    ensures went { Went parts.old.ended parts.new.ended (S.told source.old) (S.told source.new) }
    ensures sink_later { K.faults sink.old ≤ K.faults sink.new }
{
    // There is a drone, so the upload goes on before any frame.
    let _ = drone_count(&host);
    let mut machine = Linked {
        host,
        frames: Frames::make(),
        out: Out::new(),
        bytes: Bytes::new(),
    };
    machine.host.first(&mut machine.out);
    put_all(&machine.host, machine.out.as_slice(), &mut machine.bytes);
    run(&mut machine, parts, source, sink)
}
