//! What stands at the places of a line.

ghost use Rattle.std.specs.Prelude.{◌≡◌, ◌≤◌, length};
ghost use Rattle.byte_streams.specs.Words.{word_bytes, word_room};

use itoa::Buffer;

/// What stands at a place of a line's template.
#[derive(Clone, Copy)]
pub enum Word<'a> {
    /// These bytes.
    Bytes(&'a [u8]),
    /// The digits of a number, of which there are at most ten.
    Number(u32),
    /// The digits of a number, of which there are at most twenty.
    Large(u64),
    /// The digits of a number, of which there are at most 19, with a minus sign before them where it is below 0.
    Decimal(i64),
}

// The bytes of a word. Digits stand in the buffer.
pub(crate) fn bytes_of<'a>(word: &Word<'a>, digits: &'a mut Buffer) -> &'a [u8]
    ensures exact { result.now ≡ word_bytes word.now }
    ensures room { length result.now ≤ word_room word.now }
{
    match *word {
        Word::Bytes(bytes) => bytes,
        Word::Number(n) => digits.format(n).as_bytes(),
        Word::Large(n) => digits.format(n).as_bytes(),
        Word::Decimal(n) => digits.format(n).as_bytes(),
    }
}
