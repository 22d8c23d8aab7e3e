//! Decimal numbers.

ghost use Rattle.std.specs.Prelude.{◌≡◌, ℕ, ◌+◌, ◌-◌, ◌*◌, true, ◌≤◌, ◌≤ℤ◌, ◌<ℤ◌, pos, neg_ℤ, min, drop, option_map};
ghost use Rattle.std.specs.Prelude.{Option, Some, None, IsTrue, IfOk, IfSome, ◌<◌, length, if◌then◌else◌};
ghost use Rattle.text_lines.specs.Steps.{are_digits_at, number_at};
ghost use Rattle.text_lines.specs.Numbers.{is_digit as is_digit_of, digits_after, natural_of, signed};
ghost use Rattle.text_lines.specs.Numbers.{begins_with_minus as begins_with_minus_of, in_range as in_range_of};
ghost use Rattle.text_lines.specs.Numbers.{number_in as number_in_of};

/// Why a word isn't a number that is wanted.
#[derive(Clone, Copy, PartialEq, Eq)]
pub enum NumberFault {
    /// It isn't decimal digits, at least one, with an optional `-` before them.
    NotANumber,
    /// It is a number below the least or above the greatest that is wanted.
    OutOfRange,
}

/// The greatest number that is told from greater ones. The bounds of all numbers that are read lie below it.
pub const LARGE: u64 = 1_000_000_000_000;

/// Whether a byte is one of the decimal digits `0` to `9`.
pub fn is_digit(byte: u8) -> bool
    ensures { result ≡ is_digit_of byte }
{
    matches!(byte, b'0'..=b'9')
}

fn are_four_digits(word: &[u8], at: usize) -> bool
    requires { at + 4 ≤ length word.now }
    ensures { result ≡ are_digits_at word.now at }
{
    is_digit(word[at]) && is_digit(word[at + 1]) && is_digit(word[at + 2]) && is_digit(word[at + 3])
}

fn four_digits(word: &[u8], at: usize) -> u64
    requires within { at + 4 ≤ length word.now }
    requires digits { are_digits_at word.now at ≡ true }
    ensures value { result ≡ number_at word.now at }
    ensures small { result < 10000 }
{
    1000 * (word[at] as u64 - 48)
        + 100 * (word[at + 1] as u64 - 48)
        + 10 * (word[at + 2] as u64 - 48)
        + (word[at + 3] as u64 - 48)
}

// One more digit after those of a number, if this is one.
#[inline(always)]
fn with_digit(n: u64, digit: u8) -> Option<u64>
    requires { n < 1_000_000_000_000_000 }
    ensures value { result ≡ (if is_digit_of digit then Some (10 * n + (digit - 48)) else None) }
    ensures small { IfSome result (λ m. m < 10 * n + 10) }
{
    if is_digit(digit) {
        Some(10 * n + (digit as u64 - 48))
    } else {
        None
    }
}

// The number whose last digits, at most three, stand from a place on after those of another.
#[inline(always)]
fn last_digits(word: &[u8], at: usize, n: u64) -> Option<u64>
    requires within { at ≤ length word.now }
    requires few { length word.now < at + 4 }
    requires small { n < 10_000 }
    ensures value { result ≡ digits_after n (drop at word.now) }
    ensures small { IfSome result (λ m. m < 10_000_000) }
{
    if at == word.len() {
        return Some(n);
    }
    let n = with_digit(n, word[at])?;
    if at + 1 == word.len() {
        return Some(n);
    }
    let n = with_digit(n, word[at + 1])?;
    if at + 2 == word.len() {
        return Some(n);
    }
    with_digit(n, word[at + 2])
}

// The same of a word of at most eight digits, as most numbers are: no digit needs a bound, and no loop goes over them.
#[inline(always)]
fn short_natural(word: &[u8]) -> Option<u64>
    requires some { 0 < length word.now }
    requires short { length word.now ≤ 8 }
    ensures value { result ≡ natural_of word.now }
    ensures small { IfSome result (λ m. m < 100_000_000) }
{
    if word.len() < 4 {
        return last_digits(word, 0, 0);
    }
    if !are_four_digits(word, 0) {
        return None;
    }
    let n = four_digits(word, 0);
    if word.len() < 8 {
        return last_digits(word, 4, n);
    }
    if !are_four_digits(word, 4) {
        return None;
    }
    Some(10_000 * n + four_digits(word, 4))
}

// The same of a word of any length. Numbers above `LARGE` are that.
fn long_natural(word: &[u8]) -> Option<u64>
    requires { 0 < length word.now }
    ensures { result ≡ option_map (λ n. min n LARGE) (natural_of word.now) }
{
    let mut n: u64 = 0;
    for digit in word {
        if !is_digit(*digit) {
            return None;
        }
        n = (10 * n + (*digit as u64 - 48)).min(LARGE);
    }
    Some(n)
}

/// The number that a word of decimal digits spells, or [`LARGE`] where it is greater. There may be any number of
/// digits, at least one; leading zeros are allowed.
#[inline(always)]
pub fn natural(word: &[u8]) -> Option<u64>
    ensures { result ≡ option_map (λ n. min n LARGE) (natural_of word.now) }
{
    if word.is_empty() {
        None
    } else if word.len() <= 8 {
        short_natural(word)
    } else {
        long_natural(word)
    }
}

/// Whether the first byte of a word is `-`.
pub fn begins_with_minus(word: &[u8]) -> bool
    ensures value { result ≡ begins_with_minus_of word.now }
    ensures some { IsTrue result → 0 < length word.now }
{
    match word {
        [first, ..] => *first == b'-',
        [] => false,
    }
}

/// A size with its sign, where that lies from `low` to `high`. A size above [`LARGE`] may be given as that; none is
/// `NotANumber`.
pub fn in_range(size: Option<u64>, negative: bool, low: i64, high: i64) -> Result<i64, NumberFault>
    requires low { neg_ℤ (pos LARGE) <ℤ low }
    requires high { high <ℤ pos LARGE }
    ensures within { IfOk result (λ v. (low ≤ℤ v) × (v ≤ℤ high)) }
    ensures value { (n : Option ℕ) → size ≡ option_map (λ m. min m LARGE) n
        → result ≡ in_range_of low high (option_map (signed negative) n) }
{
    let Some(size) = size else {
        return Err(NumberFault::NotANumber);
    };
    let Ok(size) = i64::try_from(size) else {
        return Err(NumberFault::OutOfRange);
    };
    let value = if negative { -size } else { size };
    if value < low {
        return Err(NumberFault::OutOfRange);
    }
    if high < value {
        return Err(NumberFault::OutOfRange);
    }
    Ok(value)
}

/// The number that a word spells: decimal digits with an optional `-` before them. It has to lie from `low` to `high`.
// A show has ten numbers a line: calls of their own would take a fifth of the time for reading them.
#[inline(always)]
pub fn number_in(word: &[u8], low: i64, high: i64) -> Result<i64, NumberFault>
    requires low { neg_ℤ (pos LARGE) <ℤ low }
    requires high { high <ℤ pos LARGE }
    ensures value { result ≡ number_in_of low high word.now }
    ensures within { IfOk result (λ v. (low ≤ℤ v) × (v ≤ℤ high)) }
{
    if begins_with_minus(word) {
        in_range(natural(&word[1..]), true, low, high)
    } else {
        in_range(natural(word), false, low, high)
    }
}
