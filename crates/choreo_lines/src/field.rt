//! What stands in a place of a line: names, numbers and fixed words.

ghost use Rattle.std.specs.Prelude.{◌≡◌, ◌<◌, ◌≤◌, ◌≤ℤ◌, ◌<ℤ◌, pos, neg_ℤ, length, IfOk};
ghost use Rattle.text_lines.specs.Tokens.{words_in};
ghost use Rattle.choreo_lines.specs.Table.{word};
ghost use Rattle.choreo_lines.specs.Fields as spec;

use crate::line::LineKind;
use crate::quantity::quantity_in;
use crate::table::{Form, Value, Want};
use crate::unit::Counts;
use crate::word::is_name;
use choreo_show::{Mirror, Name, name_kept};
use text_lines::{LARGE, NumberFault, Token, word_at};

// What is wrong with a line that has no number, or one out of range, in the place of a number.
fn judged(read: Result<i64, NumberFault>) -> Result<i64, LineKind>
    ensures { result ≡ spec.judged read }
{
    match read {
        Ok(value) => Ok(value),
        Err(NumberFault::NotANumber) => Err(LineKind::BadNumber),
        Err(NumberFault::OutOfRange) => Err(LineKind::Range),
    }
}

/// The number that a word spells, in a range.
#[inline(always)]
pub fn number(word: &[u8], low: i64, high: i64) -> Result<i64, LineKind>
    requires low { neg_ℤ (pos LARGE) <ℤ low }
    requires high { high <ℤ pos LARGE }
    ensures value { result ≡ spec.number_in low high word.now }
    ensures within { IfOk result (λ v. (low ≤ℤ v) × (v ≤ℤ high)) }
{
    judged(text_lines::number_in(word, low, high))
}

/// The length, time or angle that a word is, in a text of this form and in a range.
#[inline(always)]
pub fn quantity(
    form: Form,
    counts: Counts,
    word: &[u8],
    low: i64,
    high: i64,
) -> Result<i64, LineKind>
    requires low { neg_ℤ (pos LARGE) <ℤ low }
    requires high { high <ℤ pos LARGE }
    ensures { result ≡ spec.quantity_in form counts low high word.now }
{
    match form {
        Form::Whole => number(word, low, high),
        Form::Units => judged(quantity_in(counts, word, low, high)),
    }
}

/// The name that a word is.
// Each line of a show has one.
#[inline(always)]
pub fn name(word: &[u8]) -> Result<Name, LineKind>
    ensures { result ≡ spec.name_in word.now }
{
    if is_name(word) {
        Ok(name_kept(word))
    } else {
        Err(LineKind::BadName)
    }
}

fn mirror(word: &[u8]) -> Result<Mirror, LineKind>
    ensures { result ≡ spec.mirror_in word.now }
{
    if word == b"none".as_slice() {
        Ok(Mirror::None)
    } else if word == b"x".as_slice() {
        Ok(Mirror::X)
    } else if word == b"y".as_slice() {
        Ok(Mirror::Y)
    } else {
        Err(LineKind::BadWord)
    }
}

fn smooth(word: &[u8]) -> Result<bool, LineKind>
    ensures { result ≡ spec.smooth_in word.now }
{
    if word == b"line".as_slice() {
        Ok(false)
    } else if word == b"move".as_slice() {
        Ok(true)
    } else {
        Err(LineKind::BadWord)
    }
}

/// Whether a sense is counter-clockwise.
pub fn ccw(word: &[u8]) -> Result<bool, LineKind>
    ensures { result ≡ spec.ccw_in word.now }
{
    if word == b"ccw".as_slice() {
        Ok(true)
    } else if word == b"cw".as_slice() {
        Ok(false)
    } else {
        Err(LineKind::BadWord)
    }
}

/// What a word is in its place, in a text of this form.
pub fn value(form: Form, want: Want, word: &[u8]) -> Result<Value, LineKind>
    ensures { result ≡ spec.value_in form want word.now }
{
    let number = match want {
        Want::Name => return Ok(Value::Name(name(word)?)),
        Want::Mirror => return Ok(Value::Mirror(mirror(word)?)),
        Want::Manner => return Ok(Value::Smooth(smooth(word)?)),
        Want::Sense => return Ok(Value::Ccw(ccw(word)?)),
        Want::Number { low, high } => number(word, low as i64, high as i64)?,
        Want::Quantity { counts, low, high } => {
            quantity(form, counts, word, low as i64, high as i64)?
        }
    };
    Ok(Value::Number(number))
}

/// The word at a place.
pub fn nth<'a>(text: &'a [u8], words: &[Token], k: usize) -> &'a [u8]
    requires { k < length words.now }
    ensures { result.now ≡ word (words_in text.now words.now) k }
{
    word_at(text, &words[k])
}
