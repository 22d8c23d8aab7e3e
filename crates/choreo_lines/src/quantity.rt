//! Quantities: decimal numbers with a unit, as people write them (`1.5m`, `30cm`, `2s`, `90deg`), for places that count
//! whole micrometres, millimetres, milliseconds or tenths of a degree.
//!
//! [`quantity_in`] reads a word exactly, with any number of digits, and without memory. It stands beside
//! `text_lines::number_in`, which reads whole numbers without a unit, and refuses with the same faults.

ghost use Rattle.std.specs.Prelude.{◌≡◌, ℕ, None, ◌+◌, ◌*◌, ◌^◌, ◌<◌, ◌≤◌, ◌++◌, ◌≤ℤ◌, ◌<ℤ◌, pos, neg_ℤ, option_map};
ghost use Rattle.std.specs.Prelude.{true, IsTrue, IfOk, length, get_or};
ghost use Rattle.std.specs.List.{prefix_len};
ghost use Rattle.text_lines.specs.Numbers.{in_range as in_range_of, is_digit as is_digit_of, number_of};
ghost use Rattle.choreo_lines.specs.Quantities as spec;
ghost use Rattle.choreo_lines.specs.QuantityLaws.{QuantityLaw};
ghost use Rattle.choreo_lines.specs.QuantitySteps.{AreDigits, capped, moved as moved_of};

use crate::unit::{Counts, Shift, shift_of};
use text_lines::{LARGE, NumberFault, begins_with_minus, in_range, is_digit, number_in};

// How many decimal digits some bytes begin with.
fn digit_count(bytes: &[u8]) -> usize
    ensures value { result ≡ prefix_len is_digit_of bytes.now }
    ensures within { result ≤ length bytes.now }
{
    let mut count: usize = 0;
    while count < bytes.len() && is_digit(bytes[count]) {
        count += 1;
    }
    count
}

// One of the digits before the point and after it.
fn digit_at(whole: &[u8], fraction: &[u8], place: usize) -> u8
    requires whole { AreDigits whole.now }
    requires fraction { AreDigits fraction.now }
    requires within { place < length whole.now + length fraction.now }
    ensures value { result ≡ get_or (whole.now ++ fraction.now) place 0 }
    ensures digit { is_digit_of result ≡ true }
{
    if place < whole.len() {
        whole[place]
    } else {
        fraction[place - whole.len()]
    }
}

// The number with this many zeros after its digits. Numbers above `LARGE` are that.
fn with_zeros(number: u64, places: u64) -> u64
    requires small { number ≤ LARGE }
    ensures { (kept : ℕ) → number ≡ capped kept → result ≡ capped (kept * 10 ^ places) }
{
    let mut n = number;
    for _ in 0..places {
        n = (10 * n).min(LARGE);
    }
    n
}

// Digits before the point and after it, as a number whose point is moved. Digits that stand after the point then have
// to be zeros: a value that isn't whole is refused, and never cut off.
fn moved(shift: Shift, whole: &[u8], fraction: &[u8]) -> Option<u64>
    requires whole { AreDigits whole.now }
    requires fraction { AreDigits fraction.now }
    ensures { result ≡ option_map capped (moved_of shift whole.now fraction.now) }
{
    let mut places = (whole.len() + shift.right as usize).saturating_sub(shift.left as usize);
    let mut number: u64 = 0;
    for place in 0..whole.len() + fraction.len() {
        let digit = digit_at(whole, fraction, place);
        if places > 0 {
            number = (10 * number + (digit as u64 - 48)).min(LARGE);
            places -= 1;
        } else if digit != b'0' {
            return None;
        }
    }
    Some(with_zeros(number, places as u64))
}

fn begins_with_fraction(bytes: &[u8]) -> bool
    ensures value { result ≡ spec.begins_with_fraction bytes.now }
    ensures some { IsTrue result → 0 < length bytes.now }
{
    match bytes {
        [first, second, ..] => *first == b'.' && is_digit(*second),
        _ => false,
    }
}

// The digits after a point, or none, and what stands after them.
fn split_fraction(rest: &[u8]) -> (&[u8], &[u8])
    ensures fraction { result.0.now ≡ spec.fraction_of rest.now }
    ensures unit { result.1.now ≡ spec.unit_of rest.now }
{
    if begins_with_fraction(rest) {
        let after = &rest[1..];
        after.split_at(digit_count(after))
    } else {
        (&[], rest)
    }
}

// A number with a unit and without a sign, or `LARGE` where it is greater.
fn size(counts: Counts, bytes: &[u8]) -> Option<u64>
    ensures { result ≡ option_map capped (spec.size_of counts bytes.now) }
{
    let count = digit_count(bytes);
    if count == 0 {
        return None;
    }
    let (whole, rest) = bytes.split_at(count);
    let (fraction, unit) = split_fraction(rest);
    moved(shift_of(counts, unit)?, whole, fraction)
}

fn unsigned(word: &[u8]) -> &[u8]
    ensures { result.now ≡ spec.unsigned word.now }
{
    if begins_with_minus(word) {
        &word[1..]
    } else {
        word
    }
}

// Zero, where a word is zeros alone.
fn zero_in(word: &[u8], low: i64, high: i64) -> Result<i64, NumberFault>
    requires low { neg_ℤ (pos LARGE) <ℤ low }
    requires high { high <ℤ pos LARGE }
    ensures value { result ≡ in_range_of low high (spec.or_zero None (number_of word.now)) }
    ensures within { IfOk result (λ v. (low ≤ℤ v) × (v ≤ℤ high)) }
{
    match number_in(word, 0, 0) {
        Ok(_) => in_range(Some(0), false, low, high),
        Err(_) => Err(NumberFault::NotANumber),
    }
}

/// The quantity that a word is, as a whole number of what its place counts: zeros alone, or a decimal number with a
/// unit. It has to lie from `low` to `high`. A word whose value isn't whole there is `NotANumber`, however great it is.
pub fn quantity_in(counts: Counts, word: &[u8], low: i64, high: i64) -> Result<i64, NumberFault>
    requires low { neg_ℤ (pos LARGE) <ℤ low }
    requires high { high <ℤ pos LARGE }
    ensures value { result ≡ spec.quantity_in counts low high word.now }
    ensures within { IfOk result (λ v. (low ≤ℤ v) × (v ≤ℤ high)) }
{
    // Most zeros are this word: it takes no search for a unit.
    if word == b"0".as_slice() {
        return in_range(Some(0), false, low, high);
    }
    match size(counts, unsigned(word)) {
        Some(size) => in_range(Some(size), begins_with_minus(word), low, high),
        None => zero_in(word, low, high),
    }
}

/// A law. A word is one value at most in a place, by `IsQuantity`, and it is the value that [`quantity_in`] reads.
pub fn quantity_law()
    ensures { QuantityLaw }
{}
