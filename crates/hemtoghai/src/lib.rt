//! The judge in other programs' process: a static library for C, with the contract of the whole program on its one
//! function.
//!
//! `hemtoghai_run` answers a command as the program does: what is its standard input there is `input` here, and what it
//! writes goes to `output`. `hemtoghai.h` declares it for C. Nothing checks a caller that isn't Rattle: what it owes
//! stands in that file.
#![tactic(auto)]

ghost use Rattle.std.specs.Prelude.{◌≡◌, ◌≢◌, ℕ, ◌<◌, ◌≤◌, Bool, List, [], length, take, All, IsUtf8, Contains, codes};
ghost use Rattle.std.specs.Prelude.{Option, Some, None};
ghost use Rattle.text_lines.specs.Marker.{part_of};
ghost use Rattle.command_words.specs.Commands.{command_of};
ghost use Rattle.drill_show.specs.Drill.{drill_text};
ghost use Rattle.refusals.specs.Lines.{usage_line};
ghost use Rattle.show_judge.specs.Headline.{FliesText, UploadsText};
ghost use Rattle.show_judge.specs.Outcome.{OutcomeLaw};
ghost use Rattle.show_looks.specs.Compile.{Headline};
ghost use Rattle.show_studies.specs.Boxes.{StaysInRegions};
ghost use Rattle.show_studies.specs.Dynamics.{KeepsDynamics};
ghost use Rattle.show_studies.specs.Explained.{TellsTouches};
ghost use Rattle.show_studies.specs.Speeds.{KeepsSpeeds};
ghost use Rattle.show_uploads.specs.Upload.{HasBegun};
ghost use Rattle.show_run.specs.Verbs.{judges_apart, verb_of};
ghost use Rattle.hemtoghai.specs.Answers.{Answered, IsNamed, put_in, said_in};
ghost use Rattle.hemtoghai.specs.Words.{words_in};

mod answering;
mod ends;
mod words;

use answering::answer_of;
use byte_streams::status::{NO_MEMORY, NO_WORDS, WRITE_FAILED};
use command_words::Command;
use std::alloc::Global;
use words::{WordsFault, words_of};

// Puts as many of these bytes into the room as it takes; 7 in place of the status where these aren't all.
fn deliver(room: &mut [u8], bytes: &[u8], status: u8) -> u8
    ensures room { room.new ≡ put_in room.old bytes.now }
    ensures value { result ≡ said_in room.old bytes.now status }
{
    let count = bytes.len().min(room.len());
    room[..count].copy_from_slice(&bytes[..count]);
    if count == bytes.len() {
        status
    } else {
        WRITE_FAILED
    }
}

/// Answers the command that stands in `words`, over `input`. `size` is how many bytes the answer has; its first ones,
/// as many as there is room for, stand in `output`. The statuses are the program's (docs/COMMANDS.md), but 7: the room
/// doesn't take all of the answer.
#[unsafe(no_mangle)]
pub extern "C" fn hemtoghai_run(
    alloc: Global,
    words: &[u8],
    input: &[u8],
    output: &mut [u8],
    size: &mut usize,
) -> u8
    // The words are a command: what it gives and writes, as the program does over ends that never fail; and an input
    // has one outcome, and no other.
    ensures behaves { (c : Command) → command_of (words_in words.now) ≡ Some c → result ≢ 1 → result ≢ 17
        → Answered (verb_of c) input.now output.old output.new size.new result }
    ensures outcomes { (c : Command) → result ≢ 1 → result ≢ 17 → OutcomeLaw (verb_of c) }

    // The words are no command.
    ensures usage { command_of (words_in words.now) ≡ None → result ≢ 1 → result ≢ 17
        → (output.new ≡ put_in output.old usage_line) × (size.new ≡ length usage_line)
        × (result ≡ said_in output.old usage_line 2) }

    // 0 of a command that judges whether drones keep apart: the show's text stands for a show, near to which they fly
    // and apart, at every instant; and each upload of that show goes right.
    ensures flies { (name : List ℕ) → IsNamed (words_in words.now) name → Contains judges_apart name → result ≡ 0
        → FliesText (part_of input.now) }
    ensures uploads { (name : List ℕ) → IsNamed (words_in words.now) name → Contains judges_apart name → result ≡ 0
        → UploadsText (part_of input.now) }
    ensures drilled { (drones depth : ℕ) → command_of (words_in words.now) ≡ Some (Command.Drill drones depth)
        → result ≡ 0 → FliesText (part_of (drill_text drones)) }

    // 0 of `compile`: the input stands for a show, and its plan stands in the first `size` bytes of `output`.
    ensures headline { IsNamed (words_in words.now) (codes "compile") → result ≡ 0
        → Headline input.now (Some []) (Some (take size.new output.new)) }

    // 0 of `boxes`, `speed`, `explain` and `dynamics`: what stands in the first `size` bytes of `output` holds at every
    // instant of the flight, also of drones that collide.
    ensures regions { (depth : ℕ) → command_of (words_in words.now) ≡ Some (Command.Boxes depth) → result ≡ 0
        → StaysInRegions input.now (Some []) (Some (take size.new output.new)) }
    ensures speeds { (depth : ℕ) (limit : Option ℕ) → command_of (words_in words.now) ≡ Some (Command.Speed depth limit)
        → result ≡ 0
        → KeepsSpeeds limit depth input.now (Some []) (Some (take size.new output.new)) }
    ensures touches { (depth fine : ℕ) (all : Bool) → command_of (words_in words.now) ≡ Some (Command.Explain depth fine all)
        → result ≡ 0
        → TellsTouches depth fine all input.now (Some []) (Some (take size.new output.new)) }
    ensures motions { (depth : ℕ) (accel jump : Option ℕ)
        → command_of (words_in words.now) ≡ Some (Command.Dynamics depth accel jump) → result ≡ 0
        → KeepsDynamics depth accel jump input.now (Some []) (Some (take size.new output.new)) }

    // Of `upload` it holds at each status, once the first byte of a packet stands in `output`.
    ensures begun { (depth : ℕ) (start readback : Bool)
        → command_of (words_in words.now) ≡ Some (Command.Upload depth start readback)
        → HasBegun (Some []) (Some (take size.new output.new)) → UploadsText (part_of input.now) }

    // 0: the whole answer stands in `output`. 7: there is no room for it, and for no other cause.
    ensures whole { result ≡ 0 → size.new ≤ length output.old }
    ensures no_room { result ≡ 7 → length output.old < size.new }
    // 1 is out of memory, and 17 where a word isn't UTF-8; then nothing is answered.
    ensures memory { result ≡ 1 → (size.new ≡ 0) × (output.new ≡ output.old) }
    ensures no_words { result ≡ 17
        → (All IsUtf8 (words_in words.now) → ⊥) × (size.new ≡ 0) × (output.new ≡ output.old) }
    // No read fails, and there is no status above 20.
    ensures read { result ≢ 6 }
    ensures known { result ≤ 20 }
{
    *size = 0;
    let list = match words_of(alloc, words) {
        Ok(list) => list,
        Err(WordsFault::Memory) => return NO_MEMORY,
        Err(WordsFault::NotText) => return NO_WORDS,
    };
    let Ok(answer) = answer_of(alloc, &list, input) else {
        return NO_MEMORY;
    };
    *size = answer.bytes.len();
    deliver(output, &answer.bytes, answer.status)
}

/// The version, as major * 65536 + minor * 256 + patch.
#[unsafe(no_mangle)]
pub extern "C" fn hemtoghai_version() -> u32
    ensures { result ≡ 512 }
{
    0x00_02_00
}
