//! `upload`: an upload of a show through link frames.
ghost use Rattle.std.specs.Prelude.{◌≡◌, ◌≤◌, ◌++◌, ℕ, List, [], length, false, IsTrue, IfOk, IfSome};
ghost use Rattle.text_lines.specs.Marker.{part_of};
ghost use Rattle.byte_streams.specs.Causes.{Rose};
ghost use Rattle.byte_streams.specs.Held.{buffer_bytes, has_whole_marker, stream};
ghost use Rattle.byte_streams.specs.Parts.{TakesFewAfter};
ghost use Rattle.byte_streams.specs.Told.{Gives, IsInput, MayGive, Took, Went, to_come};
ghost use Rattle.link_frames.specs.Frames.{end_frame};
ghost use Rattle.refusals.specs.Refusals.{status_of};
ghost use Rattle.show_plan.specs.Fitting.{IsValidFitted};
ghost use Rattle.show_plan.specs.Landing.{session_for};
ghost use Rattle.show_judge.specs.Answers.{Wrote};
ghost use Rattle.show_judge.specs.Headline.{UploadsText};
ghost use Rattle.show_judge.specs.Input.{IsShowText, IsWithin, TakesOneText};
ghost use Rattle.show_judge.specs.Runs.{Does, Runs, TakesLittle};
ghost use Rattle.whole_numbers.specs.Limits.{most_text};
ghost use Rattle.show_judge.specs.Shows.{Cut, cut_of};
ghost use Rattle.show_judge.specs.Verb.{IsJudged, during, run_on};
ghost use Rattle.show_uploads.specs.Ready.{GoesOnReady, IsSoundReady, ReadyGives};
ghost use Rattle.upload_core.specs.HostStandsFor.{HostStandsFor};
ghost use Rattle.upload_core.specs.HostState.{view_of};
ghost use Rattle.show_uploads.specs.Upload.{HasBegun, UploadStopsReading, UploadingLaw, upload_verb, upload_ways};

use byte_streams::status::NO_MEMORY;
use byte_streams::{IoFault, Parts, Sink, Source, marker_law};
use choreo_reader::show_law;
use link_frames::END_BYTE;
use link_upload::upload_law;
use refusals::Refusal;
use show_judge::{Failure, Judged, Text, Ways, accept, finish};
use show_plan::{Fitted, session};
use std::alloc::{AllocError, Global};
use upload_core::Host;
use whole_numbers::{Depth, MOST_TEXT};

/// The host of an upload, or why the show is refused.
#[derive(Drop)]
pub enum Ready {
    Host { host: Host },
    Refused { refusal: Refusal },
}

fn make_host(
    alloc: Global,
    fitted: &Fitted,
    start: bool,
    readback: bool,
) -> Result<Host, AllocError>
    requires { IsValidFitted fitted.now }
    ensures session { IfOk result
        (λ host. host.session ≡ session_for fitted.now.settings fitted.now.sent readback start) }
    ensures stands { IfOk result (λ host. HostStandsFor (view_of host) []) }
{
    let session = session(alloc, fitted, readback, start)?;
    Host::make(alloc, session)
}

fn make_ready(
    alloc: Global,
    depth: Depth,
    start: bool,
    readback: bool,
    text: &Text,
) -> Result<Ready, AllocError>
    requires within { IsWithin most_text text.now }
    ensures gives { (cut : Cut) → IsShowText text.now cut
        → IfOk result (ReadyGives (upload_ways depth) start readback cut) }
    ensures sound { IfOk result IsSoundReady }
{
    let ways = Ways {
        reads: true,
        has_second: true,
        by_frames: true,
        depth: Some(depth),
    };
    match accept(alloc, &ways, depth, text)? {
        Judged::Accepted { accepted } => {
            let host = make_host(alloc, &accepted.fitted, start, readback)?;
            Ok(Ready::Host { host })
        }
        Judged::Refused { refusal } => Ok(Ready::Refused { refusal }),
    }
}

fn read_ready<S: Source>(
    alloc: Global,
    depth: Depth,
    start: bool,
    readback: bool,
    parts: &mut Parts,
    source: &mut S,
) -> Result<Ready, Failure>
    requires new { parts.old.waiting ≡ [] }
    requires sound { IsTrue parts.old.sound }
    requires lines { IsTrue parts.old.lines }
    requires at_end { IsTrue parts.old.ended → IsTrue (S.told source.old).ended }
    ensures gives { (all : List ℕ) → MayGive parts.new.ended (S.told source.new) all
        → IfOk result (λ ready. IfSome (stream parts.old (to_come all (S.told source.old)))
        (λ comes. ReadyGives (upload_ways depth) start readback (cut_of comes) ready)) }
    ensures sound { IfOk result IsSoundReady }
    ensures goes_on { (all : List ℕ) → MayGive parts.new.ended (S.told source.new) all
        → IfOk result (λ ready. GoesOnReady ready parts.new (stream parts.old (to_come all (S.told source.old)))
        (stream parts.new (to_come all (S.told source.new)))) }
    ensures few { (all : List ℕ) → MayGive parts.new.ended (S.told source.new) all
        → IfOk result
        (λ _. TakesFewAfter (stream parts.old (to_come all (S.told source.old))) (to_come all (S.told source.new))) }
    ensures taken { (all : List ℕ) → MayGive parts.new.ended (S.told source.new) all
        → TakesOneText (to_come all (S.told source.old)) (to_come all (S.told source.new)) }
    ensures most { length parts.new.waiting ≤ buffer_bytes }
    ensures failed { result ≡ Err Failure.Read → Rose (S.told source.old).faults (S.told source.new).faults }
    ensures unmarked { result ≡ Err Failure.Read
        → (taken : List ℕ) × Took parts.old.waiting [] (S.told source.old) (S.told source.new) taken
        × (has_whole_marker taken ≡ false) }
    ensures went { Went parts.old.ended parts.new.ended (S.told source.old) (S.told source.new) }
{
    match parts.text(alloc, source, MOST_TEXT) {
        Ok(part) => Ok(make_ready(alloc, depth, start, readback, &Text::Whole { part })?),
        Err(IoFault::TooLong) => Ok(Ready::Refused {
            refusal: Refusal::TooLarge,
        }),
        Err(IoFault::Read) => Err(Failure::Read),
        Err(IoFault::Memory) => Err(Failure::Memory),
    }
}

// Writes the end frame with a refusal's status, and returns that status, or 7 where the sink failed.
fn refuse_by_frame<K: Sink>(sink: &mut K, refusal: &Refusal) -> u8
    ensures { Wrote (status_of refusal.now) (end_frame (status_of refusal.now)) (K.written sink.old)
        (K.written sink.new) (K.faults sink.old) (K.faults sink.new) result }
{
    let status = refusal.status();
    finish(sink, &[END_BYTE, status], status)
}

// Reads the show, and carries its upload to an end, or says by a frame why there is none.
fn carry<S: Source, K: Sink>(
    alloc: Global,
    depth: Depth,
    start: bool,
    readback: bool,
    source: &mut S,
    sink: &mut K,
) -> u8
    ensures gives { Gives (S.told source.old) (S.told source.new) }
    ensures runs { (all : List ℕ) → IsInput (S.told source.new) all
        → Runs (upload_verb depth start readback)
        (run_on (during S.told K.written K.faults source.old source.new sink.old sink.new) all) result }
    ensures few { (all : List ℕ) → IsInput (S.told source.new) all
        → TakesLittle (upload_verb depth start readback)
        (run_on (during S.told K.written K.faults source.old source.new sink.old sink.new) all) }
    ensures stops { (all : List ℕ) → IsInput (S.told source.new) all → IsJudged result
        → IfSome (to_come all (S.told source.old))
        (λ input. UploadStopsReading (upload_ways depth) start readback input (to_come all (S.told source.new))) }
    ensures begun { (all : List ℕ) → IsInput (S.told source.new) all
        → HasBegun (K.written sink.old) (K.written sink.new)
        → IfSome (to_come all (S.told source.old)) (λ input. UploadsText (part_of input)) }
{
    uploading_law();
    marker_law();
    show_law();
    let mut parts = Parts::make();
    match read_ready(alloc, depth, start, readback, &mut parts, source) {
        Ok(Ready::Host { host }) => link_upload::upload(&mut parts, source, host, sink),
        Ok(Ready::Refused { refusal }) => refuse_by_frame(sink, &refusal),
        Err(Failure::Read) => refuse_by_frame(sink, &Refusal::Read),
        Err(Failure::Memory) => NO_MEMORY,
    }
}

/// A law. An upload of a show with frames gives one outcome, and some; and where nothing is lacking, that has status 0.
pub fn uploading_law()
    ensures { UploadingLaw }
{
    upload_law();
}

/// Runs `upload` (docs/COMMANDS.md): reads the show, and carries its upload, with read-back (docs/RADIO.md,
/// "Read-back") or without, through link frames (docs/RADIO.md, "Link frames") to an end frame; or writes the end frame
/// alone, with the status of the first reason why the show is refused. Where the upload began, what holds of each
/// upload of the show is said however this one ended.
pub fn upload<S: Source, K: Sink>(
    alloc: Global,
    depth: Depth,
    start: bool,
    readback: bool,
    source: &mut S,
    sink: &mut K,
) -> u8
    ensures behaves { Does (upload_verb depth start readback)
        (during S.told K.written K.faults source.old source.new sink.old sink.new) result }
    ensures begun { (given : List ℕ) → (S.told source.new).given ≡ (S.told source.old).given ++ given
        → HasBegun (K.written sink.old) (K.written sink.new) → UploadsText (part_of given) }
{
    show_law();
    uploading_law();
    carry(alloc, depth, start, readback, source, sink)
}
