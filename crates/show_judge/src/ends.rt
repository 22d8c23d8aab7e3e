//! How a run ends: what it gives, and how that is written.
ghost use Rattle.std.specs.Prelude.{◌≡◌, Err, IfOk};
ghost use Rattle.refusals.specs.Refusals.{IsSayable, line_of, status_of};
ghost use Rattle.show_judge.specs.Answers.{IsSaid, Responds, Wrote, output_of};

use byte_streams::status::{DONE, NO_MEMORY, WRITE_FAILED};
use byte_streams::{Failed, Lines, ShortLine, Sink, write_whole};
use refusals::Refusal;
use std::alloc::AllocError;

/// What is written.
#[derive(Drop)]
pub enum Output {
    /// One line.
    Line { line: ShortLine },
    /// A text of lines.
    Text { lines: Lines },
    /// Bytes.
    Bytes { bytes: Vec<u8> },
}

impl Output {
    /// Its bytes.
    pub fn bytes(&self) -> &[u8]
        ensures { result.now ≡ output_of self.now }
    {
        match self {
            Output::Line { line } => line.bytes(),
            Output::Text { lines } => lines.bytes(),
            Output::Bytes { bytes } => bytes,
        }
    }
}

/// What a command gives: an output with status 0, or a refusal with its own status and line.
#[derive(Drop)]
pub enum Answer {
    Done { output: Output },
    Refused { refusal: Refusal },
}

/// Why nothing can be judged.
#[derive(Clone, Copy, PartialEq, Eq)]
pub enum Failure {
    /// A read failed.
    Read,
    /// Out of memory.
    Memory,
}

impl From<AllocError> for Failure {
    ghost use Rattle.std.specs.Prelude.{◌≡◌};
    ghost use Rattle.show_judge.specs.declared.ends.Failure.TheVariants.{Memory};

    ghost from_gives = { λ _ e. e ≡ Memory };

    fn from(_: AllocError) -> Self {
        Failure::Memory
    }
}

/// Writes all, and returns this status, or 7 where the sink failed.
pub fn finish<K: Sink>(sink: &mut K, bytes: &[u8], status: u8) -> u8
    ensures { Wrote status bytes.now (K.written sink.old) (K.written sink.new) (K.faults sink.old) (K.faults sink.new)
        result }
{
    match write_whole(sink, bytes) {
        Ok(()) => status,
        Err(Failed) => WRITE_FAILED,
    }
}

/// Writes a refusal's line, and returns its status.
pub fn refuse<K: Sink>(sink: &mut K, refusal: &Refusal) -> u8
    requires { IsSayable refusal.now }
    ensures { Wrote (status_of refusal.now) (line_of refusal.now) (K.written sink.old) (K.written sink.new)
        (K.faults sink.old) (K.faults sink.new) result }
{
    let line = refusal.line();
    finish(sink, line.bytes(), refusal.status())
}

/// Writes the line of a failed read, and returns the status. Out of memory writes nothing.
pub fn fail<K: Sink>(sink: &mut K, failure: Failure) -> u8
    ensures { Responds (Err failure) (K.written sink.old) (K.written sink.new) (K.faults sink.old) (K.faults sink.new)
        result }
{
    match failure {
        Failure::Read => refuse(sink, &Refusal::Read),
        Failure::Memory => NO_MEMORY,
    }
}

/// Writes what is answered, or the line of a failed read, and returns the status. Out of memory writes nothing.
pub fn respond<K: Sink>(sink: &mut K, answer: &Result<Answer, Failure>) -> u8
    requires { IfOk answer.now IsSaid }
    ensures { Responds answer.now (K.written sink.old) (K.written sink.new) (K.faults sink.old) (K.faults sink.new)
        result }
{
    match answer {
        Ok(Answer::Done { output }) => finish(sink, output.bytes(), DONE),
        Ok(Answer::Refused { refusal }) => refuse(sink, refusal),
        Err(failure) => fail(sink, *failure),
    }
}
