//! Schedules: what happens in a world, as text, one event a line.

ghost use Rattle.std.specs.Prelude.{◌≡◌, ℕ, Bool, ◌+◌, ◌<◌, ◌≤◌, ◌^◌, List, [], ◌∷◌, ◌++◌, length, map, Some, None, Ok};
ghost use Rattle.std.specs.Prelude.{IfOk, IfErr, OnOk};
ghost use Rattle.whole_numbers.specs.Limits.{most_drones, most_text};
ghost use Rattle.text_lines.specs.Tokens.{words_in};
ghost use Rattle.fleet_world.specs.Schedules.{number_of as number_word, place_from, event_with, number_to};
ghost use Rattle.fleet_world.specs.Schedules.{alteration_of, event_of, events_of, schedule_of, ScheduleLaw};
ghost use Rattle.fleet_world.specs.Faults.{FaultGives};
ghost use Rattle.fleet_world.specs.Steps.{IsLine, prepended};
ghost use Rattle.text_lines.specs.Words.{numbered};
ghost use Rattle.text_lines.specs.declared.token.Comments.TheVariants.{Absent};

use arrayvec::ArrayVec;
use std::alloc::{AllocError, Global};
use text_lines::{Comments, Token, line_word_count, natural, split_line, tokens, word_at};
use upload_model::WorldEvent;

// The most digits of a number in a schedule.
const MOST_DIGITS: usize = 9;

// The most digits of an address, and the last address of a memory.
const ADDRESS_DIGITS: usize = 4;

const LAST_ADDRESS: u16 = 4095;

// The most digits of a value, and the greatest value of a byte.
const VALUE_DIGITS: usize = 3;

const MOST_VALUE: u16 = 255;

/// A law. The limits of the numbers of a schedule (docs/RADIO.md, "Schedules").
pub fn limits_law()
    ensures digits { MOST_DIGITS ≡ 9 }
    ensures address_digits { ADDRESS_DIGITS ≡ 4 }
    ensures address { LAST_ADDRESS ≡ 4095 }
    ensures value_digits { VALUE_DIGITS ≡ 3 }
    ensures value { MOST_VALUE ≡ 255 }
{}

/// A law. Without read-back a schedule alters no byte.
pub fn schedule_law()
    ensures { ScheduleLaw }
{}

/// A drone's name.
pub type Name = ArrayVec<u8, 16>;

/// Why a schedule isn't read: its first faulty line, counted from 1 with lines without words, or want
/// of memory.
#[derive(Clone, Copy, PartialEq, Eq)]
pub enum ScheduleFault {
    Line { line: u32 },
    Memory,
}

impl From<AllocError> for ScheduleFault {
    ghost use Rattle.std.specs.Prelude.{◌≡◌};
    ghost use Rattle.fleet_world.specs.declared.schedule.ScheduleFault.TheVariants.{Memory};

    ghost from_gives = { λ _ e. e ≡ Memory };

    fn from(_: AllocError) -> Self {
        ScheduleFault::Memory
    }
}

// The number of a packet or an answer, counted from 0, of a word that counts it from 1.
fn number_of(word: &[u8]) -> Option<u32>
    ensures { result ≡ number_word word.now }
{
    if word.len() > MOST_DIGITS {
        return None;
    }
    match natural(word) {
        Some(0) => None,
        Some(n) => Some((n - 1) as u32),
        None => None,
    }
}

/// The drone of this name, counted from 0: the first place among the names, where it is there.
pub fn drone_of(names: &[Name], word: &[u8]) -> Option<u8>
    requires { length names.now ≤ most_drones }
    ensures { result ≡ place_from 0 (map (λ name. name.items) names.now) word.now }
{
    for (drone, name) in names.iter().enumerate() {
        if name.as_slice() == word {
            return Some(drone as u8);
        }
    }
    None
}

fn named_event(kind: &[u8], drone: Option<u8>, n: Option<u32>) -> Option<WorldEvent>
    ensures { result ≡ event_with kind.now drone n }
{
    let drone = drone?;
    let n = n?;
    if kind == b"take".as_slice() {
        return Some(WorldEvent::Take { drone, n });
    }
    if kind == b"hear".as_slice() {
        return Some(WorldEvent::Hear { drone, n });
    }
    None
}

// The number of a word of at most this many digits, where it is at most `most`.
fn number_within(word: &[u8], digits: usize, most: u16) -> Option<u16>
    requires { digits ≤ 9 }
    ensures { result ≡ number_to digits most word.now }
{
    if word.len() > digits {
        return None;
    }
    match natural(word) {
        Some(n) => {
            if n <= most as u64 {
                Some(n as u16)
            } else {
                None
            }
        }
        None => None,
    }
}

// The alteration of a line of four words.
fn alteration(text: &[u8], names: &[Name], words: &[Token]) -> Option<WorldEvent>
    requires names { length names.now ≤ most_drones }
    requires words { length words.now ≡ 4 }
    ensures { result ≡ alteration_of (map (λ name. name.items) names.now) (words_in text.now words.now) }
{
    if word_at(text, &words[0]) != b"alter".as_slice() {
        return None;
    }
    let drone = drone_of(names, word_at(text, &words[1]))?;
    let address = number_within(word_at(text, &words[2]), ADDRESS_DIGITS, LAST_ADDRESS)?;
    let value = number_within(word_at(text, &words[3]), VALUE_DIGITS, MOST_VALUE)?;
    Some(WorldEvent::Alter {
        drone,
        address,
        value: value as u8,
    })
}

// The event of a line with these words, where it is `tick`, or `take` or `hear` with a name and a number,
// or with read-back an alteration (docs/RADIO.md, "Schedules").
fn event_on(readback: bool, text: &[u8], names: &[Name], words: &[Token]) -> Option<WorldEvent>
    requires { length names.now ≤ most_drones }
    ensures { result ≡ event_of readback (map (λ name. name.items) names.now) (words_in text.now words.now) }
{
    if words.len() == 1 {
        if word_at(text, &words[0]) == b"tick".as_slice() {
            return Some(WorldEvent::Tick);
        }
        return None;
    }
    if words.len() == 3 {
        return named_event(
            word_at(text, &words[0]),
            drone_of(names, word_at(text, &words[1])),
            number_of(word_at(text, &words[2])),
        );
    }
    if readback && words.len() == 4 {
        return alteration(text, names, words);
    }
    None
}

fn put(events: &mut Vec<WorldEvent>, event: WorldEvent) -> Result<(), AllocError>
    ensures { OnOk result (events.new.items ≡ events.old.items ++ event ∷ []) }
{
    events.push(event)?;
    Ok(())
}

// The event of a line, if it has words, after those of the lines before it.
fn put_line(
    alloc: Global,
    readback: bool,
    line: &[u8],
    number: u32,
    names: &[Name],
    events: &mut Vec<WorldEvent>,
) -> Result<(), ScheduleFault>
    requires line { IsLine line.now }
    requires short { length line.now ≤ most_text }
    requires names { length names.now ≤ most_drones }
    ensures ok { OnOk result ((later : List (List ℕ)) →
        prepended events.new.items
        (events_of readback (map (λ name. name.items) names.now) (numbered Absent (number + 1) later))
        ≡ prepended events.old.items
        (events_of readback (map (λ name. name.items) names.now) (numbered Absent number (line.now ∷ later)))) }
    ensures fault { IfErr result (λ fault. (later : List (List ℕ)) →
        FaultGives fault
        (events_of readback (map (λ name. name.items) names.now) (numbered Absent number (line.now ∷ later)))) }
{
    let words = tokens(alloc, line, Comments::Absent)?;
    if words.is_empty() {
        return Ok(());
    }
    let count = line_word_count(words.as_slice());
    match event_on(readback, line, names, &words.as_slice()[..count]) {
        Some(event) => {
            put(events, event)?;
            Ok(())
        }
        None => Err(ScheduleFault::Line { line: number }),
    }
}

/// The events of a schedule, in order, for drones with these names. Lines without words are skipped.
/// Else a line is `tick`, or `take NAME N` or `hear NAME N`, where N counts from 1 and has 1 to 9
/// digits, or with read-back `alter NAME ADDRESS VALUE`; the first line that is none of these is the
/// fault.
pub fn read_schedule(
    alloc: Global,
    readback: bool,
    text: &[u8],
    names: &[Name],
) -> Result<Vec<WorldEvent>, ScheduleFault>
    requires text { length text.now ≤ most_text }
    requires names { length names.now ≤ most_drones }
    ensures ok { IfOk result (λ events.
        schedule_of readback (map (λ name. name.items) names.now) text.now ≡ Ok events.items) }
    ensures fault { IfErr result (λ fault.
        FaultGives fault (schedule_of readback (map (λ name. name.items) names.now) text.now)) }
{
    let mut events = Vec::new(alloc);
    let mut number: u32 = 1;
    let mut rest = text;
    'lines: while let Some((line, after)) = split_line(rest) {
        put_line(alloc, readback, line, number, names, &mut events)?;
        number += 1;
        rest = after;
    }
    Ok(events)
}
