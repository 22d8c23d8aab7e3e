//! One line of text that takes no memory.
ghost use Rattle.std.specs.Prelude.{◌≡◌, ℕ, List, ◌+◌, ◌≤◌, ◌<◌, ◌∷◌, ◌++◌, length, map};
ghost use Rattle.byte_streams.specs.Words.{filled, filled_line, word_bytes, words_room, short_line_bytes};

use crate::words::{Word, bytes_of};
use arrayvec::ArrayVec;
use itoa::Buffer;
use std::marker::Model;

// The most bytes of a short line, with its line feed.
const SHORT_LINE_BYTES: usize = 160;

/// One line of at most 160 bytes, which takes no memory.
#[derive(Drop)]
pub struct ShortLine {
    text: ArrayVec<u8, SHORT_LINE_BYTES>,
}

impl Model for ShortLine {
    ghost use Rattle.std.specs.Prelude.{ℕ, List};

    ghost Value = { List ℕ };

    ghost view = { λ l. l.text.items };
}

impl ShortLine {
    /// The line of a template, with a word at each question mark, in their order.
    pub fn of(template: &[u8], words: &[Word]) -> ShortLine
        requires { length template.now + words_room words.now < short_line_bytes }
        ensures { result ≡ filled_line template.now words.now }
    {
        let mut line = ShortLine {
            text: ArrayVec::new(),
        };
        let mut left = words;
        for byte in template {
            left = line.step(*byte, left);
        }
        line.text.push(b'\n');
        line
    }

    // A byte of a template, or at a question mark the next of these words. Returns what is left of them.
    fn step<'a, 'b>(&mut self, byte: u8, words: &'b [Word<'a>]) -> &'b [Word<'a>]
        requires { length self.old + 1 + words_room words.now < short_line_bytes }
        ensures filled { (rest : List ℕ) → self.new ++ filled rest (map word_bytes result.now)
            ≡ self.old ++ filled (byte ∷ rest) (map word_bytes words.now) }
        ensures room { length self.new + words_room result.now ≤ length self.old + 1 + words_room words.now }
    {
        if byte == b'?' {
            if let Some((word, others)) = words.split_first() {
                let mut digits = Buffer::new();
                self.text
                    .try_extend_from_slice(bytes_of(word, &mut digits))
                    .unwrap();
                return others;
            }
        }
        self.text.push(byte);
        words
    }

    /// The line, with its line feed.
    pub fn bytes(&self) -> &[u8]
        ensures value { result.now ≡ self.now }
        ensures most { length result.now ≤ short_line_bytes }
    {
        self.text.as_slice()
    }
}
