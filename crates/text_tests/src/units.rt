//! Words in their places, and words of thousands of digits.

use choreo_lines::{Counts, quantity_in, quantity_law};
use std::alloc::{AllocError, Global};
use std::test::Fail;
use text_lines::NumberFault;

const FAR: i64 = 100_000_000;

const WORDS: &[(Counts, &[u8], Result<i64, NumberFault>)] = &[
    (Counts::Micrometres, b"-1.5m", Ok(-1_500_000)),
    (Counts::Micrometres, b"0001.50000000m", Ok(1_500_000)),
    (Counts::Micrometres, b"30cm", Ok(300_000)),
    (Counts::Micrometres, b"1.5mm", Ok(1_500)),
    (Counts::Micrometres, b"-0", Ok(0)),
    (Counts::Micrometres, b"101m", Err(NumberFault::OutOfRange)),
    (
        Counts::Micrometres,
        b"1000000",
        Err(NumberFault::NotANumber),
    ),
    (
        Counts::Micrometres,
        b"101.0000001m",
        Err(NumberFault::NotANumber),
    ),
    (Counts::Millimetres, b"3000um", Ok(3)),
    (Counts::Millimetres, b"2.5cm", Ok(25)),
    (Counts::Millimetres, b"3500um", Err(NumberFault::NotANumber)),
    (Counts::Milliseconds, b"2s", Ok(2_000)),
    (Counts::Milliseconds, b"1.5ms", Err(NumberFault::NotANumber)),
    (Counts::TenthsOfADegree, b"-90.5deg", Ok(-905)),
    (
        Counts::TenthsOfADegree,
        b"0.05deg",
        Err(NumberFault::NotANumber),
    ),
    (Counts::TenthsOfADegree, b"0m", Err(NumberFault::NotANumber)),
];

#[test]
fn words_in_their_places(rt: HostRuntime) {
    quantity_law();
    for &(counts, word, wanted) in WORDS {
        assert!(rt; quantity_in(counts, word, -FAR, FAR) == wanted);
    }
}

// A digit that a word has 5,000 times at first, what follows, how many zeros come then, how it ends, and what is read:
// all of the digits are this one, or a 1 comes after zeros.
const LONG: &[(u8, &[u8], usize, &[u8], Result<i64, NumberFault>)] = &[
    (b'9', b"", 0, b"", Err(NumberFault::NotANumber)),
    (b'9', b"", 0, b"m", Err(NumberFault::OutOfRange)),
    (b'0', b"", 0, b"", Ok(0)),
    (b'0', b"1.0", 0, b"m", Ok(1_000_000)),
    (b'9', b".", 5_000, b"1m", Err(NumberFault::NotANumber)),
];

fn long_word(
    alloc: Global,
    digit: u8,
    middle: &[u8],
    zeros: usize,
    end: &[u8],
) -> Result<Vec<u8>, AllocError> {
    let mut word = vec![in alloc; digit; 5_000]?;
    word.extend_from_slice(middle)?;
    for _ in 0..zeros {
        word.push(b'0')?;
    }
    word.extend_from_slice(end)?;
    Ok(word)
}

#[test]
fn long_words_are_exact(rt: HostRuntime) -> Result<(), Fail> {
    for &(digit, middle, zeros, end, wanted) in LONG {
        let word = long_word(rt.alloc(), digit, middle, zeros, end)?;
        assert!(rt; quantity_in(Counts::Micrometres, word.as_slice(), -FAR, FAR) == wanted);
    }
    Ok(())
}
