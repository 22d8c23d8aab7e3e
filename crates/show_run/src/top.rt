//! The program over any source and any sink.
ghost use Rattle.std.specs.Prelude.{◌≡◌, ◌++◌, ◌≢◌, ◌⊎◌, ℕ, ◌≤◌, Bool, true, List, Option, Some, None, IfSome, IsTrue};
ghost use Rattle.std.specs.Prelude.{Contains, codes};
ghost use Rattle.std.specs.Io.KnownBytes.{Appends, IsAtEnd};
ghost use Rattle.text_lines.specs.Marker.{part_of};
ghost use Rattle.byte_streams.specs.Causes.{Rose};
ghost use Rattle.byte_streams.specs.Memory.{told_sure};
ghost use Rattle.byte_streams.specs.Taken.{AppendsFront};
ghost use Rattle.byte_streams.specs.Told.{Gives};
ghost use Rattle.command_words.specs.Commands.{IsCommand};
ghost use Rattle.command_words.specs.declared.flight.FlightOptions.{FlightOptions};
ghost use Rattle.drill_show.specs.Drill.{drill_text};
ghost use Rattle.refusals.specs.Lines.{usage_line};
ghost use Rattle.show_judge.specs.Headline.{FliesText, UploadsText};
ghost use Rattle.show_judge.specs.Outcome.{IsVerb, OutcomeLaw};
ghost use Rattle.show_judge.specs.Runs.{Behaves, Does, reads_all};
ghost use Rattle.show_judge.specs.Verb.{during, run_left};
ghost use Rattle.show_looks.specs.Compile.{Headline};
ghost use Rattle.show_studies.specs.Boxes.{StaysInRegions};
ghost use Rattle.show_studies.specs.Dynamics.{KeepsDynamics};
ghost use Rattle.show_studies.specs.Explained.{TellsTouches};
ghost use Rattle.show_studies.specs.Speeds.{KeepsSpeeds};
ghost use Rattle.show_direct.specs.Direct.{FliesWhole, FlyAsOne, HasBegun as FlightBegun};
ghost use Rattle.show_uploads.specs.Upload.{HasBegun};
ghost use Rattle.show_run.specs.Verbs.{IsCalled, command_in, judges_apart, verb_of};

use byte_streams::{Sink, Source, SureSink, SureSource};
use choreo_reader::show_law;
use command_words::{Command, command_of, help_text};
use refusals::Refusal;
use show_direct::{direct, direct_law};
use show_judge::refuse;
use show_looks::{certify, check, compile, drill, help, play, report, version};
use show_studies::{Study, boxes, boxes_law, dynamics, explain, speed};
use show_uploads::{rehearse, rehearse_law, upload, uploading_law};
use show_verify::{verify, verify_law};
use std::alloc::Global;

fn run_command<S: Source, K: Sink>(
    alloc: Global,
    command: Command,
    source: &mut S,
    sink: &mut K,
) -> u8
    requires { IsCommand command }
    ensures behaves { Does (verb_of command) (during S.told K.written K.faults source.old source.new sink.old sink.new)
        result }
    ensures begun { (depth : ℕ) (start readback : Bool) (input : List ℕ) → command ≡ Command.Upload depth start readback
        → (S.told source.new).given ≡ (S.told source.old).given ++ input
        → HasBegun (K.written sink.old) (K.written sink.new) → UploadsText (part_of input) }
    ensures flight { (options : FlightOptions) (input : List ℕ) → command ≡ Command.Direct options
        → (S.told source.new).given ≡ (S.told source.old).given ++ input
        → FlightBegun (K.written sink.old) (K.written sink.new) ⊎ (result ≡ 0)
        → FlyAsOne options input }
{
    match command {
        Command::Help => help(help_text(), source, sink),
        Command::Version => version(source, sink),
        Command::Check { depth } => check(alloc, depth, source, sink),
        Command::Compile { depth } => compile(alloc, depth, source, sink),
        Command::Certify { depth } => certify(alloc, depth, source, sink),
        Command::Play { depth, step } => play(alloc, depth, step, source, sink),
        Command::Report { depth } => report(alloc, depth, source, sink),
        Command::Verify => verify(alloc, source, sink),
        Command::Rehearse {
            depth,
            start,
            readback,
        } => rehearse(alloc, depth, start, readback, source, sink),
        Command::Upload {
            depth,
            start,
            readback,
        } => upload(alloc, depth, start, readback, source, sink),
        Command::Direct { options } => direct(alloc, &options, source, sink),
        Command::Drill { drones, depth } => drill(alloc, drones, depth, source, sink),
        Command::Boxes { depth } => boxes(alloc, depth, source, sink),
        Command::Speed { depth, limit } => speed(alloc, depth, limit, source, sink),
        Command::Explain { depth, fine, all } => {
            explain(alloc, Study { depth, fine, all }, source, sink)
        }
        Command::Dynamics { depth, accel, jump } => {
            dynamics(alloc, depth, accel, jump, source, sink)
        }
    }
}

/// Runs the command that the words, without the program's name, are, and returns its status (docs/COMMANDS.md).
///
/// The program calls it with standard input as the source and standard output as the sink, by `StdSource` and
/// `StdSink`. Then `given` has every byte that the run read from standard input, and `K.written` every byte that
/// standard output took. Of that run the clauses say:
/// - `usage`, `two`, `usage_failed`: where the words are no command, nothing is read, and the usage line is written or
///   cut off.
/// - `behaves`: the status and the output are those that `Behaves` names for the bytes that were read, and for any
///   bytes that might have come after them.
/// - `six`, `seven`: 6 comes only after a read of standard input failed, and 7 only after a write to standard output
///   failed.
/// - `to_end`: at 0 of a command that reads all of its input, the last read met the end: what was read is the whole
///   input.
/// - `flies`, `uploads`: at 0 the bytes that were read are a show's text, and its drones keep apart, with any uploader.
/// - `flown`, `flight`: at 0 of `direct` the bytes that were read begin with three texts of one flight, which was
///   flown, and whose show was kept.
/// - `begun`: once a byte of a packet went out, the bytes that were read have such a text, at each status.
/// - `headline`: at 0 standard output took the plan of the bytes that were read.
/// - `regions`, `speeds`, `touches`, `motions`: at 0 what standard output took is true of the flight of the bytes that
///   were read.
/// - `known_input`: it says nothing, since standard input doesn't expose the bytes still to come. Over bytes in memory,
///   as in `MemSource`, it says which outcome they have and which of them are left.
/// - The others need no input.
pub fn run<S: Source, K: Sink>(
    alloc: Global,
    words: &Vec<String>,
    source: &mut S,
    sink: &mut K,
) -> u8
    // 2, or 7 in its place, exactly where the words are no command; then nothing is read, and at 7 a prefix of the line
    // went out.
    ensures usage { command_in words.now.items ≡ None
        → ((result ≡ 2) ⊎ (result ≡ 7)) × (S.told source.new ≡ S.told source.old) }
    ensures two { result ≡ 2
        → (command_in words.now.items ≡ None) × Appends (K.written sink.old) (K.written sink.new) usage_line }
    ensures usage_failed { command_in words.now.items ≡ None → result ≡ 7
        → Rose (K.faults sink.old) (K.faults sink.new)
        × AppendsFront (K.written sink.old) (K.written sink.new) usage_line }

    // The words are a command: what it gives, reads and writes. The fields of `Behaves` say it one by one, and
    // `verb_of` has a line a command.
    ensures behaves { (c : Command) → command_in words.now.items ≡ Some c
        → Does (verb_of c) (during S.told K.written K.faults source.old source.new sink.old sink.new) result }
    // The same where the source exposes the bytes still to come: of that input, and of what the run left of it.
    ensures known_input { (c : Command) (input : List ℕ) → command_in words.now.items ≡ Some c
        → (S.told source.old).left ≡ Some input → (IsTrue (S.told source.old).ended → IsAtEnd (S.told source.old).left)
        → Behaves (verb_of c) (run_left (during S.told K.written K.faults source.old source.new sink.old sink.new))
        result }

    // 6 comes only where the source's count of faults rose, and 7 only where the sink's did.
    ensures six { result ≡ 6 → Rose (S.told source.old).faults (S.told source.new).faults }
    ensures seven { result ≡ 7 → Rose (K.faults sink.old) (K.faults sink.new) }
    // 0 of a command that reads its input to the end, as all that read do but `upload` and `direct`: the source has met
    // its end.
    ensures to_end { (c : Command) → command_in words.now.items ≡ Some c → IsTrue (reads_all (verb_of c)) → result ≡ 0
        → IsTrue (S.told source.new).ended }

    // A show gives a command one outcome; an input gives it one, and no other; and one that lacks nothing gives status
    // 0.
    ensures law { (c : Command) → IsVerb (verb_of c) }
    ensures outcomes { (c : Command) → OutcomeLaw (verb_of c) }

    // 0 of a command that judges whether drones keep apart: what the source gave is the text of a show, near to which
    // they fly and apart, at every instant.
    ensures flies { (name input : List ℕ) → IsCalled words.now.items name → Contains judges_apart name
        → (S.told source.new).given ≡ (S.told source.old).given ++ input → result ≡ 0 → FliesText (part_of input) }
    ensures drilled { (drones depth : ℕ) → command_in words.now.items ≡ Some (Command.Drill drones depth) → result ≡ 0
        → FliesText (part_of (drill_text drones)) }

    // The same 0 of each upload of that show. When one with read-back is done, each byte of each load was right when it
    // was read, also where others alter bytes; no start was sent before. When one with starts is done, each drone took
    // a start. Where nobody alters a byte, each moment of an upload, with read-back or without, is safe, and when it is
    // done each memory decodes to the curve of its drone.
    ensures uploads { (name input : List ℕ) → IsCalled words.now.items name → Contains judges_apart name
        → (S.told source.new).given ≡ (S.told source.old).given ++ input → result ≡ 0 → UploadsText (part_of input) }
    // Of `upload` it holds at each status, once the first byte of a packet was written.
    ensures begun { (depth : ℕ) (start readback : Bool) (input : List ℕ)
        → command_in words.now.items ≡ Some (Command.Upload depth start readback)
        → (S.told source.new).given ≡ (S.told source.old).given ++ input
        → HasBegun (K.written sink.old) (K.written sink.new) → UploadsText (part_of input) }

    // 0 of `direct`: the input is three texts and frames. The texts stand for shows that are a flight. By the events in
    // the frames each drone was told all its orders and nothing else, was at its curve in each sample of the show, and
    // was never silent in it.
    ensures flown { (options : FlightOptions) (input : List ℕ)
        → command_in words.now.items ≡ Some (Command.Direct options)
        → (S.told source.new).given ≡ (S.told source.old).given ++ input → result ≡ 0
        → FliesWhole options input (K.written sink.old) (K.written sink.new) }
    // Then, and at each status once a byte was written that begins no end frame: at every instant of each of the
    // three what drones are sent keeps near to what the show says, and any two drones keep apart.
    ensures flight { (options : FlightOptions) (input : List ℕ)
        → command_in words.now.items ≡ Some (Command.Direct options)
        → (S.told source.new).given ≡ (S.told source.old).given ++ input
        → FlightBegun (K.written sink.old) (K.written sink.new) ⊎ (result ≡ 0)
        → FlyAsOne options input }

    // 0 of `compile`: the input stands for a show, and its plan was written. Of the trajectories of this plan each
    // upload goes right, as `uploads` says: once it is done, or once each drone accepted its packets from any
    // sender, each drone carries one curve and flies no other, near to the show and apart from every other drone, at
    // every instant.
    ensures headline { (input : List ℕ) → IsCalled words.now.items (codes "compile")
        → (S.told source.new).given ≡ (S.told source.old).given ++ input → result ≡ 0
        → Headline input (K.written sink.old) (K.written sink.new) }

    // 0 of `boxes`, `speed`, `explain` and `dynamics`: what was written holds at every instant of the flight.
    ensures regions { (depth : ℕ) (input : List ℕ) → command_in words.now.items ≡ Some (Command.Boxes depth)
        → (S.told source.new).given ≡ (S.told source.old).given ++ input → result ≡ 0
        → StaysInRegions input (K.written sink.old) (K.written sink.new) }
    ensures speeds { (depth : ℕ) (limit : Option ℕ) (input : List ℕ)
        → command_in words.now.items ≡ Some (Command.Speed depth limit)
        → (S.told source.new).given ≡ (S.told source.old).given ++ input → result ≡ 0
        → KeepsSpeeds limit depth input (K.written sink.old) (K.written sink.new) }
    ensures touches { (depth fine : ℕ) (all : Bool) (input : List ℕ)
        → command_in words.now.items ≡ Some (Command.Explain depth fine all)
        → (S.told source.new).given ≡ (S.told source.old).given ++ input → result ≡ 0
        → TellsTouches depth fine all input (K.written sink.old) (K.written sink.new) }
    ensures motions { (depth : ℕ) (accel jump : Option ℕ) (input : List ℕ)
        → command_in words.now.items ≡ Some (Command.Dynamics depth accel jump)
        → (S.told source.new).given ≡ (S.told source.old).given ++ input → result ≡ 0
        → KeepsDynamics depth accel jump input (K.written sink.old) (K.written sink.new) }

    // There is no status above 20; 17 is that of words that the system doesn't give.
    ensures known { result ≤ 20 }
    ensures given { result ≢ 17 }
    ensures gives { Gives (S.told source.old) (S.told source.new) }
    ensures sink_later { K.faults sink.old ≤ K.faults sink.new }
{
    show_law();
    verify_law();
    rehearse_law();
    uploading_law();
    direct_law();
    boxes_law();
    match command_of(words) {
        Some(command) => run_command(alloc, command, source, sink),
        None => refuse(sink, &Refusal::Usage),
    }
}

/// Runs a command as `run` does, over ends that never fail: it never ends with 6 or 7, and with 2 where the words are
/// no command.
pub fn run_surely(
    alloc: Global,
    words: &Vec<String>,
    source: &mut SureSource,
    sink: &mut SureSink,
) -> u8
    ensures usage { command_in words.now.items ≡ None → result ≡ 2 }
    ensures behaves { (c : Command) → command_in words.now.items ≡ Some c
        → Does (verb_of c) (during told_sure (λ _. None) (λ _. 0) source.old source.new sink.old sink.new) result }
    ensures read { result ≢ 6 }
    ensures write { result ≢ 7 }
{
    run(alloc, words, source, sink)
}
