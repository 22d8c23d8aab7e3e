//! What the program reads before it judges: a show's text, and for some commands a second text after it.
ghost use Rattle.std.specs.Prelude.{◌≡◌, ℕ, List, ◌+◌, ◌<◌, ◌≤◌, [], length, IsTrue, IfOk};
ghost use Rattle.byte_streams.specs.Held.{buffer_bytes, stream, text_limit};
ghost use Rattle.byte_streams.specs.Causes.{Rose};
ghost use Rattle.byte_streams.specs.Parts.{TakesFewAfter};
ghost use Rattle.byte_streams.specs.Told.{MayGive, Went, to_come};
ghost use Rattle.whole_numbers.specs.Limits.{most_text};
ghost use Rattle.show_judge.specs.Input.{GoesOn, IsNextText, IsUnmarked, IsWholeText, IsWithin, ReadsShow, ReadsTwo};
ghost use Rattle.show_judge.specs.TextsRead.{IsPastTwo, OneTextRead, TwoTextsRead};

use crate::ends::Failure;
use byte_streams::{IoFault, Part, Parts, Source};
use std::alloc::Global;
use whole_numbers::MOST_TEXT;

/// A text that was read.
#[derive(Drop)]
pub enum Text {
    /// It is longer than such a text may be.
    TooLarge,
    /// All of it, and whether a marker line stands after it.
    Whole { part: Part },
}

/// The texts that were read.
#[derive(Drop)]
pub struct Input {
    /// The show's.
    pub show: Text,
    /// The second. It has no bytes where the show's text is too large.
    pub second: Text,
}

/// The next text of the input, of at most `limit` bytes. `Read` where a read failed.
pub fn next_text<S: Source>(
    alloc: Global,
    parts: &mut Parts,
    source: &mut S,
    limit: usize,
) -> Result<Text, Failure>
    requires sound { IsTrue parts.old.sound }
    requires lines { IsTrue parts.old.lines }
    requires limit { limit ≤ text_limit }
    requires at_end { IsTrue parts.old.ended → IsTrue (S.told source.old).ended }
    ensures text { (all : List ℕ) → MayGive parts.new.ended (S.told source.new) all
        → IfOk result (λ text. IsNextText limit text (stream parts.old (to_come all (S.told source.old)))) }
    ensures within { IfOk result (λ text. IsWithin limit text) }
    ensures rest { (all : List ℕ) → MayGive parts.new.ended (S.told source.new) all
        → IfOk result (λ text. GoesOn text (stream parts.old (to_come all (S.told source.old)))
        (stream parts.new (to_come all (S.told source.new)))) }
    ensures sound { IfOk result (λ text. IsWholeText text → IsTrue parts.new.sound) }
    ensures lines { parts.new.lines ≡ parts.old.lines }
    ensures at_line { IfOk result (λ text. IsWholeText text → IsTrue parts.new.at_line) }
    ensures whole { IfOk result (λ text. IsUnmarked text → IsTrue parts.new.ended) }
    ensures few { length (S.told source.new).given ≤ length (S.told source.old).given + (limit + 4 + buffer_bytes) }
    ensures after { (all : List ℕ) → MayGive parts.new.ended (S.told source.new) all → parts.old.waiting ≡ []
        → limit ≡ most_text
        → IfOk result (λ _. TakesFewAfter (to_come all (S.told source.old)) (to_come all (S.told source.new))) }
    ensures past { (all : List ℕ) → MayGive parts.new.ended (S.told source.new) all
        → IfOk result (λ text. IsWholeText text
        → TakesFewAfter (stream parts.old (to_come all (S.told source.old))) (to_come all (S.told source.new))) }
    ensures failed { result ≡ Err Failure.Read → Rose (S.told source.old).faults (S.told source.new).faults }
    ensures went { Went parts.old.ended parts.new.ended (S.told source.old) (S.told source.new) }
{
    match parts.text(alloc, source, limit) {
        Ok(part) => Ok(Text::Whole { part }),
        Err(IoFault::TooLong) => Ok(Text::TooLarge),
        Err(IoFault::Read) => Err(Failure::Read),
        Err(IoFault::Memory) => Err(Failure::Memory),
    }
}

fn no_text(alloc: Global) -> Text
    ensures { IsWithin 0 result }
{
    Text::Whole {
        part: Part {
            bytes: Vec::new(alloc),
            marker: false,
        },
    }
}

fn read_second<S: Source>(
    alloc: Global,
    parts: &mut Parts,
    source: &mut S,
    show: &Text,
    limit: usize,
) -> Result<Text, Failure>
    requires limit { limit ≤ text_limit }
    requires sound { IsWholeText show.now → IsTrue parts.old.sound }
    requires lines { IsTrue parts.old.lines }
    requires at_end { IsTrue parts.old.ended → IsTrue (S.told source.old).ended }
    ensures text { (all : List ℕ) → MayGive parts.new.ended (S.told source.new) all → IsWholeText show.now
        → IfOk result (λ text. IsNextText limit text (stream parts.old (to_come all (S.told source.old)))) }
    ensures within { IfOk result (λ text. IsWithin limit text) }
    ensures whole { IsWholeText show.now → IfOk result (λ text. IsUnmarked text → IsTrue parts.new.ended) }
    ensures past { (all : List ℕ) → MayGive parts.new.ended (S.told source.new) all → IsWholeText show.now
        → IfOk result (λ text. IsWholeText text
        → TakesFewAfter (stream parts.old (to_come all (S.told source.old))) (to_come all (S.told source.new))) }
    ensures stays { (IsWholeText show.now → ⊥) → S.told source.new ≡ S.told source.old }
    ensures failed { result ≡ Err Failure.Read → Rose (S.told source.old).faults (S.told source.new).faults }
    ensures went { Went parts.old.ended parts.new.ended (S.told source.old) (S.told source.new) }
{
    match show {
        Text::Whole { .. } => next_text(alloc, parts, source, limit),
        Text::TooLarge => Ok(no_text(alloc)),
    }
}

/// Reads the show's text. A text that is too large ends the reading. `Read` where a read failed.
pub fn read_show_text<S: Source>(alloc: Global, source: &mut S) -> Result<Text, Failure>
    ensures reads { OneTextRead (λ left left_after. IfOk result (λ text. ReadsShow left left_after text))
        (S.told source.old) (S.told source.new) result }
    ensures within { IfOk result (λ text. IsWithin most_text text) }
{
    let mut parts = Parts::make();
    next_text(alloc, &mut parts, source, MOST_TEXT)
}

/// Reads the show's text, and after its marker line a second one of at most `limit` bytes. A text that is too large
/// ends the reading. `Read` where a read failed.
pub fn read_two<S: Source>(alloc: Global, source: &mut S, limit: usize) -> Result<Input, Failure>
    requires { limit ≤ text_limit }
    ensures reads { TwoTextsRead (λ left left_after. IfOk result (λ input. ReadsTwo limit left left_after input))
        IsPastTwo (S.told source.old) (S.told source.new) result }
    ensures show { IfOk result (λ input. IsWithin most_text input.show) }
    ensures second { IfOk result (λ input. IsWithin limit input.second) }
{
    let mut parts = Parts::make();
    let show = next_text(alloc, &mut parts, source, MOST_TEXT)?;
    let second = read_second(alloc, &mut parts, source, &show, limit)?;
    Ok(Input { show, second })
}
