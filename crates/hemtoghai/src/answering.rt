//! The program's answer over bytes in memory.
ghost use Rattle.std.specs.Prelude.{◌≡◌, ◌≢◌, ℕ, ◌≤◌, Bool, List, [], Contains, codes, Some, None, IfOk};
ghost use Rattle.text_lines.specs.Marker.{part_of};
ghost use Rattle.drill_show.specs.Drill.{drill_text};
ghost use Rattle.refusals.specs.Lines.{usage_line};
ghost use Rattle.show_judge.specs.Headline.{FliesText, UploadsText};
ghost use Rattle.show_judge.specs.Outcome.{OutcomeLaw};
ghost use Rattle.show_looks.specs.Compile.{Headline};
ghost use Rattle.show_uploads.specs.Upload.{HasBegun};
ghost use Rattle.show_run.specs.Verbs.{IsCalled, command_in, judges_apart, verb_of};
ghost use Rattle.hemtoghai.specs.Answers.{RunsOver};

use crate::ends::{SliceSource, WholeSink};
use command_words::Command;
use show_run::run;
use std::alloc::{AllocError, Global};

/// What a command wrote, and its status.
#[derive(Drop)]
pub struct Answer {
    pub bytes: Vec<u8>,
    pub status: u8,
}

/// The answer of the command that the words are, over this input. `Err` is out of memory, as status 1 is.
pub fn answer_of(alloc: Global, words: &Vec<String>, input: &[u8]) -> Result<Answer, AllocError>
    ensures behaves { IfOk result (λ a. (c : Command) → command_in words.now.items ≡ Some c
        → RunsOver (verb_of c) input.now a.bytes.items a.status) }
    ensures outcomes { IfOk result (λ a. (c : Command) → OutcomeLaw (verb_of c)) }
    ensures usage { IfOk result
        (λ a. command_in words.now.items ≡ None → (a.status ≡ 2) × (a.bytes.items ≡ usage_line)) }
    ensures flies { IfOk result (λ a. (name : List ℕ) → IsCalled words.now.items name → Contains judges_apart name
        → a.status ≡ 0 → FliesText (part_of input.now)) }
    ensures uploads { IfOk result (λ a. (name : List ℕ) → IsCalled words.now.items name → Contains judges_apart name
        → a.status ≡ 0 → UploadsText (part_of input.now)) }
    ensures drilled { IfOk result (λ a. (drones depth : ℕ)
        → command_in words.now.items ≡ Some (Command.Drill drones depth) → a.status ≡ 0
        → FliesText (part_of (drill_text drones))) }
    ensures headline { IfOk result (λ a. IsCalled words.now.items (codes "compile") → a.status ≡ 0
        → Headline input.now (Some []) (Some a.bytes.items)) }
    ensures begun { IfOk result (λ a. (depth : ℕ) (start readback : Bool)
        → command_in words.now.items ≡ Some (Command.Upload depth start readback)
        → HasBegun (Some []) (Some a.bytes.items) → UploadsText (part_of input.now)) }
    ensures memory { IfOk result (λ a. a.status ≡ 1 → a.bytes.items ≡ []) }
    ensures read { IfOk result (λ a. a.status ≢ 6) }
    ensures write { IfOk result (λ a. a.status ≢ 7) }
    ensures given { IfOk result (λ a. a.status ≢ 17) }
    ensures known { IfOk result (λ a. a.status ≤ 20) }
{
    let mut source = SliceSource::make(input);
    let mut sink = WholeSink::make(alloc);
    let status = run(alloc, words, &mut source, &mut sink);
    let bytes = sink.whole()?;
    Ok(Answer { bytes, status })
}
