//! A text that grows in memory, line by line.
ghost use Rattle.std.specs.Prelude.{◌≡◌, ℕ, List, ◌<◌, ◌≤◌, [], ◌∷◌, ◌++◌, drop, length, map, take, IfOk, OnOk, OnErr};
ghost use Rattle.byte_streams.specs.Words.{filled, filled_line, line, hex_digit, hex_word, word_bytes};

use crate::words::{Word, bytes_of};
use itoa::Buffer;
use std::alloc::{AllocError, Global};
use std::marker::Model;

/// A text that grows by lines.
#[derive(Drop)]
pub struct Lines {
    text: Vec<u8>,
}

impl Model for Lines {
    ghost use Rattle.std.specs.Prelude.{ℕ, List};

    ghost Value = { List ℕ };

    ghost view = { λ l. l.text.items };
}

impl Lines {
    /// An empty text.
    pub fn make(alloc: Global) -> Lines
        ensures { result ≡ [] }
    {
        Lines {
            text: Vec::new(alloc),
        }
    }

    /// An empty text that takes memory for this many bytes at once.
    pub fn with_room(alloc: Global, bytes: usize) -> Result<Lines, AllocError>
        ensures { IfOk result (λ lines. lines ≡ []) }
    {
        Ok(Lines {
            text: Vec::with_capacity(alloc, bytes)?,
        })
    }

    /// Adds the line of a template, with a word at each question mark, in their order. An `Err` changes nothing.
    pub fn line(&mut self, template: &[u8], words: &[Word]) -> Result<(), AllocError>
        ensures ok { OnOk result (self.new ≡ self.old ++ filled_line template.now words.now) }
        ensures err { OnErr result (self.new ≡ self.old) }
    {
        let len = self.text.len();
        let put = put_line(&mut self.text, template, words);
        if put.is_err() {
            self.text.truncate(len);
        }
        put
    }

    /// Adds a line of a word and of these bytes, each in two upper-case digits after a space. An `Err` changes nothing.
    pub fn hex_line(&mut self, word: &[u8], bytes: &[u8]) -> Result<(), AllocError>
        ensures ok { OnOk result (self.new ≡ self.old ++ line word.now (map hex_word bytes.now)) }
        ensures err { OnErr result (self.new ≡ self.old) }
    {
        let len = self.text.len();
        let put = put_hex_line(&mut self.text, word, bytes);
        if put.is_err() {
            self.text.truncate(len);
        }
        put
    }

    /// The text so far.
    pub fn bytes(&self) -> &[u8]
        ensures { result.now ≡ self.now }
    {
        &self.text
    }
}

// The line of a template, with a word at each question mark. An `Err` keeps what stood there, and may leave more after
// it.
fn put_line(text: &mut Vec<u8>, template: &[u8], words: &[Word]) -> Result<(), AllocError>
    ensures ok { OnOk result (text.new.items ≡ text.old.items ++ filled_line template.now words.now) }
    ensures err { OnErr result (take (length text.old.items) text.new.items ≡ text.old.items) }
{
    let mut left = words;
    for byte in template {
        let taken = put_next(text, *byte, left)?;
        left = &left[taken..];
    }
    text.push(b'\n')?;
    Ok(())
}

// A byte of a template, or at a question mark the next of these words. Returns how many of them that took. An `Err`
// changes nothing.
fn put_next(text: &mut Vec<u8>, byte: u8, words: &[Word]) -> Result<usize, AllocError>
    ensures one { IfOk result (λ taken. taken ≤ 1) }
    ensures few { IfOk result (λ taken. taken ≤ length words.now) }
    ensures filled { IfOk result
        (λ taken. (rest : List ℕ) → text.new.items ++ filled rest (map word_bytes (drop taken words.now))
        ≡ text.old.items ++ filled (byte ∷ rest) (map word_bytes words.now)) }
    ensures longer { length text.old.items ≤ length text.new.items }
    ensures keeps { take (length text.old.items) text.new.items ≡ text.old.items }
{
    if byte == b'?' {
        if let Some(word) = words.first() {
            let mut digits = Buffer::new();
            text.extend_from_slice(bytes_of(word, &mut digits))?;
            return Ok(1);
        }
    }
    text.push(byte)?;
    Ok(0)
}

// A line of a word and bytes. An `Err` keeps what stood there, and may leave more after it.
fn put_hex_line(text: &mut Vec<u8>, word: &[u8], bytes: &[u8]) -> Result<(), AllocError>
    ensures ok { OnOk result (text.new.items ≡ text.old.items ++ line word.now (map hex_word bytes.now)) }
    ensures err { OnErr result (take (length text.old.items) text.new.items ≡ text.old.items) }
{
    text.extend_from_slice(word)?;
    for byte in bytes {
        put_spaced_hex(text, *byte)?;
    }
    text.push(b'\n')?;
    Ok(())
}

// A space and a byte in two digits. It is pushed digit by digit: a call that copies a slice takes longer than two
// digits do. An `Err` keeps what stood there, and may leave a prefix of the word after it.
fn put_spaced_hex(text: &mut Vec<u8>, byte: u8) -> Result<(), AllocError>
    ensures ok { OnOk result (text.new.items ≡ text.old.items ++ 32 ∷ hex_word byte) }
    ensures err { OnErr result (take (length text.old.items) text.new.items ≡ text.old.items) }
{
    text.push(b' ')?;
    text.push(hex_digit(byte / 16))?;
    text.push(hex_digit(byte % 16))?;
    Ok(())
}

/// An upper-case hexadecimal digit.
pub fn hex_digit(n: u8) -> u8
    requires { n < 16 }
    ensures { result ≡ hex_digit n }
{
    if n < 10 { b'0' + n } else { b'A' - 10 + n }
}
