//! A dialogue from its first answer to its end frame, whatever its items are.

ghost use Rattle.std.specs.Prelude.{◌≡◌, ◌≢◌, ◌≤◌, ◌++◌, ℕ, List, [], ◌∷◌, length, false, Some, None, Err, IsTrue};
ghost use Rattle.std.specs.Prelude.{IfOk, OnErr, OnOk};
ghost use Rattle.std.specs.Io.KnownBytes.{Appends};
ghost use Rattle.byte_streams.specs.Causes.{Rose};
ghost use Rattle.byte_streams.specs.Held.{buffer_bytes, stream};
ghost use Rattle.byte_streams.specs.Told.{MayGive, Took, Went, to_come};
ghost use Rattle.link_dialogue.specs.Dialogues.{IsDialogue, IsOwnEnd, IsStatus, RunGives};
ghost use Rattle.link_dialogue.specs.Machines.{CarryGives, IsGoing, StepGives};

use crate::finish;
use crate::machine::{Fed, Machine};
use byte_streams::status::{ENDED, FAULTY, READ_FAILED, TOO_MANY_FRAMES, WRITE_FAILED};
use byte_streams::{BUFFER_BYTES, Failed, Parts, Sink, Source, write_whole};

#[derive(Clone, Copy)]
enum Stepped {
    // With a status the item ends the dialogue.
    Answered { status: Option<u8> },
    End,
    Faulty,
}

// The next item of a dialogue that is going: as it stands where the source has given all of it, else byte by byte.
fn step<M: Machine, S: Source>(
    machine: &mut M,
    parts: &mut Parts,
    source: &mut S,
) -> Result<Stepped, Failed>
    requires law { (start : M) → IsDialogue (M.dialogue start) }
    requires going { IsGoing M.dialogue M.stands machine.old [] }
    requires sound { IsTrue parts.old.sound }
    requires at_end { IsTrue parts.old.ended → IsTrue (S.told source.old).ended }
    requires holds { length parts.old.waiting ≤ buffer_bytes }
    ensures gives { (all : List ℕ) → MayGive parts.new.ended (S.told source.new) all
        → (start : M) (items : List (M.dialogue start).Item) → M.stands start machine.old items []
        → (M.dialogue start).ended items ≡ None
        → IfOk result (λ stepped. StepGives (M.dialogue start) (λ now. M.stands start machine.new now []) items stepped
        (M.sends machine.new) (stream parts.old (to_come all (S.told source.old)))
        (stream parts.new (to_come all (S.told source.new)))) }
    ensures failed { (start : M) (items : List (M.dialogue start).Item) → M.stands start machine.old items []
        → (M.dialogue start).ended items ≡ None
        → OnErr result ((parts.old.ended ≡ false) × (parts.new.waiting ≡ [])
        × ((begun : List ℕ) × (M.dialogue start).IsBegun begun
        × Took parts.old.waiting [] (S.told source.old) (S.told source.new) begun)) }
    ensures sound { OnOk result (IsTrue parts.new.sound) }
    ensures holds { length parts.new.waiting ≤ buffer_bytes }
    ensures began { parts.new.ended ≡ false → parts.old.ended ≡ false }
    ensures cause { OnErr result (Rose (S.told source.old).faults (S.told source.new).faults) }
    ensures went { Went parts.old.ended parts.new.ended (S.told source.old) (S.told source.new) }
{
    match machine.take(parts.waiting()) {
        Some(taken) => {
            parts.take_waiting(taken.size);
            return Ok(Stepped::Answered {
                status: taken.status,
            });
        }
        None => {}
    }
    'bytes: for n in 0..BUFFER_BYTES + 1 {
        match parts.byte(source)? {
            None if n == 0 => return Ok(Stepped::End),
            None => return Ok(Stepped::Faulty),
            Some(byte) => match machine.feed(byte) {
                Fed::More => {}
                Fed::Whole { status } => return Ok(Stepped::Answered { status }),
                Fed::Bad => return Ok(Stepped::Faulty),
            },
        }
    }
    unreachable!()
}

// Why items are taken no further, short of the end of the dialogue.
#[derive(Clone, Copy, PartialEq, Eq)]
enum Broken {
    Read,
    Write,
}

const ITEM_LIMIT: u32 = 4_000_000;

// Carries a dialogue to its end, and returns the status. All that its items lead to has gone out then, but not the end
// frame.
fn carry<M: Machine, S: Source, K: Sink>(
    machine: &mut M,
    parts: &mut Parts,
    source: &mut S,
    sink: &mut K,
) -> Result<u8, Broken>
    requires law { (start : M) → IsDialogue (M.dialogue start) }
    requires new { M.stands machine.old machine.old [] [] }
    requires going { (M.dialogue machine.old).ended [] ≡ None }
    requires first { M.sends machine.old ≡ (M.dialogue machine.old).sent [] }
    requires sound { IsTrue parts.old.sound }
    requires at_end { IsTrue parts.old.ended → IsTrue (S.told source.old).ended }
    requires holds { length parts.old.waiting ≤ buffer_bytes }
    ensures gives { (all : List ℕ) → MayGive parts.new.ended (S.told source.new) all
        → CarryGives (M.dialogue machine.old) result (stream parts.old (to_come all (S.told source.old)))
        (to_come all (S.told source.new)) (K.written sink.old) (K.written sink.new) }
    ensures read { result ≡ Err Broken.Read
        → Rose (S.told source.old).faults (S.told source.new).faults × (parts.old.ended ≡ false) }
    ensures write { result ≡ Err Broken.Write → Rose (K.faults sink.old) (K.faults sink.new) }
    ensures grown { (sent : List ℕ) × Appends (K.written sink.old) (K.written sink.new) sent }
    ensures known { IfOk result (λ status. IsOwnEnd (M.dialogue machine.old) status) }
    ensures went { Went parts.old.ended parts.new.ended (S.told source.old) (S.told source.new) }
    ensures sink_later { K.faults sink.old ≤ K.faults sink.new }
{
    match write_whole(sink, machine.answer()) {
        Ok(()) => {}
        Err(Failed) => return Err(Broken::Write),
    }
    'items: for n in 0..ITEM_LIMIT {
        let stepped = match step(machine, parts, source) {
            Ok(stepped) => stepped,
            Err(Failed) => return Err(Broken::Read),
        };
        let end_status = match stepped {
            Stepped::Answered { status } => status,
            Stepped::End => return Ok(ENDED),
            Stepped::Faulty => return Ok(FAULTY),
        };
        match write_whole(sink, machine.answer()) {
            Ok(()) => {}
            Err(Failed) => return Err(Broken::Write),
        }
        match end_status {
            None => {}
            Some(status) => return Ok(status),
        }
    }
    Ok(TOO_MANY_FRAMES)
}

/// Carries a dialogue to its end (docs/RADIO.md, "Link frames"), of a machine to which nothing has come. What its items
/// lead to goes into the sink, until one of them ends it with a status, 4,000,000 were taken (13), a byte has no place
/// or the last item isn't finished (11), the source ends (8), or a read fails (6). The end frame with that status goes
/// out last. It returns the status, or 7 where a write failed. It takes no memory.
pub fn run<M: Machine, S: Source, K: Sink>(
    machine: &mut M,
    parts: &mut Parts,
    source: &mut S,
    sink: &mut K,
) -> u8
    requires law { (start : M) → IsDialogue (M.dialogue start) }
    requires new { M.stands machine.old machine.old [] [] }
    requires going { (M.dialogue machine.old).ended [] ≡ None }
    // No item ends it with the status of a failed read or write.
    requires own { (items : List (M.dialogue machine.old).Item) (status : ℕ)
        → (M.dialogue machine.old).ended items ≡ Some status → (status ≢ 6) × (status ≢ 7) }
    requires first { M.sends machine.old ≡ (M.dialogue machine.old).sent [] }
    requires sound { IsTrue parts.old.sound }
    requires at_end { IsTrue parts.old.ended → IsTrue (S.told source.old).ended }
    requires holds { length parts.old.waiting ≤ buffer_bytes }
    ensures gives { (all : List ℕ) → MayGive parts.new.ended (S.told source.new) all
        → RunGives (M.dialogue machine.old) (stream parts.old (to_come all (S.told source.old)))
        (to_come all (S.told source.new)) parts.old.ended (S.told source.old).faults (S.told source.new).faults
        (K.faults sink.old) (K.faults sink.new) (K.written sink.old) (K.written sink.new) result }
    // Whether or not the source tells its bytes: what the sink holds only grows.
    ensures grown { (sent : List ℕ) × Appends (K.written sink.old) (K.written sink.new) sent }
    ensures known { IsStatus (M.dialogue machine.old) result }
    ensures went { Went parts.old.ended parts.new.ended (S.told source.old) (S.told source.new) }
    ensures sink_later { K.faults sink.old ≤ K.faults sink.new }
{
    match carry(machine, parts, source, sink) {
        Ok(status) => finish(sink, status),
        Err(Broken::Read) => finish(sink, READ_FAILED),
        Err(Broken::Write) => WRITE_FAILED,
    }
}
