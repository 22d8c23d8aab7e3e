//! What the lines say, where they stand: the words of a line are read by its row of the table.

ghost use Rattle.std.specs.Prelude.{[], ◌≡◌, ◌+◌, ◌<◌, ◌≤◌, length, drop, IfOk, MatchResult, Ok, Err, true};
ghost use Rattle.text_lines.specs.Tokens.{words_in};
ghost use Rattle.choreo_lines.specs.Table.{row_of, has_count as has_count_of};
ghost use Rattle.choreo_lines.specs.Fields as spec;
ghost use Rattle.choreo_lines.specs.Fields.{Gives, KindGives};
ghost use Rattle.choreo_lines.specs.Fields.{number_at as number_of_place};
ghost use Rattle.choreo_lines.specs.Values.{AllFit};
ghost use Rattle.choreo_lines.specs.Steps.{IsNatural};
ghost use Rattle.choreo_lines.specs.Says.{Says, may_say};
ghost use Rattle.choreo_lines.specs.declared.line.Keyword.TheVariants as by;

use crate::act::act_by;
use crate::field::{name, nth, value};
use crate::line::{Entry, Keyword, LineError, LineKind, Place};
use crate::table::{
    Form, MOST_PLACES, Value, Want, act_places, act_word, first_at, may_stand, names, places,
};
use arrayvec::ArrayVec;
use choreo_show::{Act, Frame, Listed, Mirror, Name, Point, copy_of};
use std::alloc::Global;
use text_lines::{Token, word_at};

// What the words are in their places, from the left. The list is the caller's, so that it isn't copied.
fn values_in(
    form: Form,
    text: &[u8],
    wants: &[Want],
    words: &[Token],
    values: &mut ArrayVec<Value, MOST_PLACES>,
) -> Result<(), LineKind>
    requires few { length wants.now ≤ MOST_PLACES }
    requires words { length wants.now ≤ length words.now }
    requires empty { values.now.items ≡ [] }
    ensures { MatchResult result
        (λ _. spec.values_in form wants.now (words_in text.now words.now) ≡ Ok values.new.items)
        (λ k. spec.values_in form wants.now (words_in text.now words.now) ≡ Err k) }
{
    for k in 0..wants.len() {
        let value = value(form, wants[k], word_at(text, &words[k]))?;
        values.push(value);
    }
    Ok(())
}

// The names from the left, before memory runs out.
fn names_in(alloc: Global, text: &[u8], words: &[Token]) -> Result<Listed<Name>, LineError>
    ensures { Gives result (spec.names_in (words_in text.now words.now)) }
{
    let mut names = Vec::with_capacity(alloc, words.len())?;
    for token in words {
        let name = name(word_at(text, token))?;
        names.push(name)?;
    }
    Ok(Listed::from_vec(names))
}

// The number at a place; 0 where none stands.
fn number_at(values: &[Value], k: usize) -> i64
    ensures { result ≡ spec.number_at values.now k }
{
    match values.get(k) {
        Some(Value::Number(number)) => *number,
        _ => 0,
    }
}

// The point whose x stands at a place.
fn point_at(values: &[Value], k: usize) -> Point
    requires { k ≤ MOST_PLACES }
    ensures { result ≡ spec.point_at values.now k }
{
    Point {
        x: number_at(values, k),
        y: number_at(values, k + 1),
        z: number_at(values, k + 2),
        yaw: number_at(values, k + 3),
    }
}

// Whether the manner at a place is from rest to rest.
fn smooth_at(values: &[Value], k: usize) -> bool
    ensures { result ≡ spec.smooth_at values.now k }
{
    match values.get(k) {
        Some(Value::Smooth(smooth)) => *smooth,
        _ => false,
    }
}

fn mirror_at(values: &[Value], k: usize) -> Mirror
    ensures { result ≡ spec.mirror_at values.now k }
{
    match values.get(k) {
        Some(Value::Mirror(mirror)) => *mirror,
        _ => Mirror::None,
    }
}

fn name_at(values: &[Value], k: usize) -> Name
    ensures { result ≡ spec.name_at values.now k }
{
    match values.get(k) {
        Some(Value::Name(name)) => copy_of(name),
        _ => Name::new(),
    }
}

fn natural_at(values: &[Value], k: usize, most: u32) -> u32
    requires { IsNatural most (number_of_place values.now k) }
    ensures value { result ≡ spec.natural_at values.now k }
    ensures small { result ≤ most }
{
    number_at(values, k) as u32
}

fn memory_with(values: &[Value]) -> Entry
    requires { AllFit (row_of by.Memory).places values.now }
    ensures { result ≡ spec.entry_with by.Memory values.now [] }
{
    Entry::Memory {
        id: natural_at(values, 0, 255) as u8,
        offset: natural_at(values, 1, 4095) as u16,
    }
}

fn ellipsoid_with(values: &[Value]) -> Entry
    requires { AllFit (row_of by.Ellipsoid).places values.now }
    ensures { result ≡ spec.entry_with by.Ellipsoid values.now [] }
{
    Entry::Ellipsoid {
        r: natural_at(values, 0, 2000) as u16,
        h: natural_at(values, 1, 2000) as u16,
    }
}

fn drone_with(values: &[Value]) -> Entry
    ensures { result ≡ spec.entry_with by.Drone values.now [] }
{
    Entry::Drone {
        name: name_at(values, 0),
        at: point_at(values, 1),
    }
}

fn at_with(values: &[Value]) -> Entry
    ensures { result ≡ spec.entry_with by.At values.now [] }
{
    Entry::At {
        name: name_at(values, 0),
        at: point_at(values, 1),
    }
}

fn perform_with(values: &[Value], names: Listed<Name>) -> Entry
    requires { AllFit (row_of by.Perform).places values.now }
    ensures { result ≡ spec.entry_with by.Perform values.now names }
{
    Entry::Perform {
        figure: name_at(values, 0),
        frame: Frame {
            mirror: mirror_at(values, 1),
            turns: natural_at(values, 2, 3) as u8,
            dx: number_at(values, 3),
            dy: number_at(values, 4),
            dz: number_at(values, 5),
        },
        drones: names,
    }
}

// What the values of a line's places and the names after them denote.
fn entry_with(first: Keyword, values: &[Value], names: Listed<Name>) -> Entry
    requires { AllFit (row_of first).places values.now }
    ensures { result ≡ spec.entry_with first values.now names }
{
    match first {
        Keyword::Memory => memory_with(values),
        Keyword::Trajectory => Entry::Trajectory {
            id: natural_at(values, 0, 9) as u8,
        },
        Keyword::Ellipsoid => ellipsoid_with(values),
        Keyword::Stray => Entry::Stray {
            mm: natural_at(values, 0, 1000) as u16,
        },
        Keyword::Late => Entry::Late {
            ms: natural_at(values, 0, 1000) as u16,
        },
        Keyword::Drone => drone_with(values),
        Keyword::Formation => Entry::Formation {
            name: name_at(values, 0),
        },
        Keyword::At => at_with(values),
        Keyword::Figure => Entry::Figure {
            name: name_at(values, 0),
            roles: names,
        },
        Keyword::Cue => Entry::Cue {
            ms: natural_at(values, 0, 65_535) as u16,
        },
        Keyword::Repeat => Entry::Repeat {
            times: natural_at(values, 0, 1_000_000_000),
        },
        Keyword::Perform => perform_with(values, names),
        Keyword::Form => Entry::Form {
            formation: name_at(values, 0),
            smooth: smooth_at(values, 1),
        },
        Keyword::End | Keyword::Other => Entry::End,
    }
}

// The act that words say, its own first.
#[tactic(auto, unfolding(crate::specs::Fields::act_in))]
fn act_in(form: Form, text: &[u8], words: &[Token]) -> Result<Act, LineKind>
    requires { 0 < length words.now }
    ensures { result ≡ spec.act_in form (words_in text.now words.now) }
{
    let Some(act) = act_word(nth(text, words, 0)) else {
        return Err(LineKind::BadWord);
    };
    let words = &words[1..];
    if words.len() != act_places(act).len() {
        return Err(LineKind::BadCount);
    }
    act_by(form, act, text, words)
}

// What all words of an act line say: its name is judged first, and then that it has an act.
#[tactic(auto, unfolding(crate::specs::Fields::act_line))]
fn act_line(form: Form, text: &[u8], words: &[Token]) -> Result<Entry, LineKind>
    requires { 0 < length words.now }
    ensures { result ≡ spec.act_line form (words_in text.now words.now) }
{
    let name = name(nth(text, words, 0))?;
    if words.len() < 2 {
        return Err(LineKind::BadCount);
    }
    let act = act_in(form, text, &words[1..])?;
    Ok(Entry::One { name, act })
}

// Whether this many words may stand after the first of a line.
fn has_count(first: Keyword, count: usize) -> bool
    ensures { result ≡ has_count_of (row_of first) count }
{
    let least = places(first).len();
    if names(first) == 0 {
        count == least
    } else {
        least + 1 <= count && count <= least + names(first)
    }
}

// What the words after the first of a line say.
fn row_line(
    alloc: Global,
    form: Form,
    first: Keyword,
    text: &[u8],
    words: &[Token],
) -> Result<Entry, LineError>
    ensures { Gives result (spec.row_line form first (words_in text.now words.now)) }
{
    if !has_count(first, words.len()) {
        return Err(LineError::Kind(LineKind::BadCount));
    }
    let places = places(first);
    let mut values = ArrayVec::new();
    values_in(form, text, places, words, &mut values)?;
    let names = names_in(alloc, text, &words[places.len()..])?;
    Ok(entry_with(first, values.as_slice(), names))
}

// What the words of a line say, by its first word as it is read here.
fn line_in(
    alloc: Global,
    form: Form,
    first: Keyword,
    text: &[u8],
    words: &[Token],
) -> Result<Entry, LineError>
    requires { 0 < length words.now }
    ensures { Gives result (spec.line_in form first (words_in text.now words.now)) }
{
    match first {
        Keyword::Other => Ok(act_line(form, text, words)?),
        _ => row_line(alloc, form, first, text, &words[1..]),
    }
}

fn entry_at(
    alloc: Global,
    form: Form,
    place: Place,
    text: &[u8],
    words: &[Token],
) -> Result<Entry, LineError>
    requires { 0 < length words.now }
    ensures { Gives result (spec.entry_of form place (words_in text.now words.now)) }
{
    let first = first_at(place, nth(text, words, 0));
    if may_stand(place, first) {
        line_in(alloc, form, first, text, words)
    } else {
        Err(LineError::Kind(LineKind::BadWord))
    }
}

/// What the words of a line say where it stands, in a text of this form, or what is wrong with them by the table of
/// lines.
pub fn entry_of(
    alloc: Global,
    form: Form,
    place: Place,
    text: &[u8],
    words: &[Token],
) -> Result<Entry, LineError>
    requires { 0 < length words.now }
    ensures value { Gives result (spec.entry_of form place (words_in text.now words.now)) }
    // The words say the entry, and it may stand here.
    ensures says { IfOk result (λ e. Says form (words_in text.now words.now) e × (may_say place e ≡ true)) }
    // And the other way round, unless memory runs out: an entry that they say, and that may stand here, is the result.
    ensures said { (e : Entry)
        → Says form (words_in text.now words.now) e → may_say place e ≡ true → Gives result (Ok e) }
    // A refusal names what is wrong by the table of lines, and an entry comes only where nothing is.
    ensures kind { KindGives result (spec.kind_in form place (words_in text.now words.now)) }
{
    entry_at(alloc, form, place, text, words)
}
