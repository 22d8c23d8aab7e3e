//! The words of a call, from its bytes.
ghost use Rattle.std.specs.Prelude.{◌≡◌, ◌≤◌, ◌<◌, ◌+◌, ◌++◌, [], ◌∷◌, drop, Err, All, IsUtf8, IfOk, OnOk, map, length};
ghost use Rattle.std.specs.Prelude.{string_bytes};
ghost use Rattle.std.specs.List.{position_or_len};
ghost use Rattle.text_lines.specs.Words.{without_empty};
ghost use Rattle.hemtoghai.specs.Words.{divides, words_in};
ghost use Rattle.hemtoghai.specs.declared.words.WordsFault.TheVariants.{Memory};

use std::alloc::{AllocError, AllocFailed, Global};
use std::str;

/// Why there are no words.
#[derive(Clone, Copy, PartialEq, Eq)]
pub enum WordsFault {
    /// Out of memory.
    Memory,
    /// A word isn't UTF-8.
    NotText,
}

impl From<AllocError> for WordsFault {
    ghost from_gives = { λ _ e. e ≡ Memory };

    fn from(_: AllocError) -> WordsFault {
        WordsFault::Memory
    }
}

impl<T: Drop> From<AllocFailed<T>> for WordsFault {
    ghost from_gives = { λ _ e. e ≡ Memory };

    fn from(_: AllocFailed<T>) -> WordsFault {
        WordsFault::Memory
    }
}

fn divides(byte: u8) -> bool
    ensures { result ≡ divides byte }
{
    byte <= b' '
}

// How many bytes stand before the first one that divides words.
fn word_len(bytes: &[u8]) -> usize
    ensures value { result ≡ position_or_len divides bytes.now }
    ensures within { result ≤ length bytes.now }
{
    let mut at: usize = 0;
    'bytes: while at < bytes.len() && !divides(bytes[at]) {
        at += 1;
    }
    at
}

fn after_byte(bytes: &[u8], at: usize) -> &[u8]
    requires { at < length bytes.now }
    ensures { result.now ≡ drop (at + 1) bytes.now }
{
    &bytes[at..][1..]
}

// One word more, unless it has no byte.
fn put_word(alloc: Global, list: &mut Vec<String>, word: &[u8]) -> Result<(), WordsFault>
    ensures ok { OnOk result
        (map string_bytes list.new.items ≡ map string_bytes list.old.items ++ without_empty (word.now ∷ [])) }
    ensures not_text { result ≡ Err WordsFault.NotText → All IsUtf8 (without_empty (word.now ∷ [])) → ⊥ }
{
    if word.is_empty() {
        return Ok(());
    }
    let Ok(text) = str::from_utf8(word) else {
        return Err(WordsFault::NotText);
    };
    list.push(String::from_str(alloc, text)?)?;
    Ok(())
}

/// The words that stand in these bytes.
pub fn words_of(alloc: Global, bytes: &[u8]) -> Result<Vec<String>, WordsFault>
    ensures ok { IfOk result (λ list. map string_bytes list.items ≡ words_in bytes.now) }
    ensures not_text { result ≡ Err WordsFault.NotText → All IsUtf8 (words_in bytes.now) → ⊥ }
{
    let mut list = Vec::new(alloc);
    let mut rest = bytes;
    'words: loop {
        let len = word_len(rest);
        match put_word(alloc, &mut list, &rest[..len]) {
            Ok(()) => {}
            Err(fault) => return Err(fault),
        }
        if len == rest.len() {
            return Ok(list);
        }
        rest = after_byte(rest, len);
    }
}
