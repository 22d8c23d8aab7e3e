//! The words of a text, as places in it.

ghost use Rattle.std.specs.Prelude.{◌≡◌, ℕ, List, [], ◌+◌, ◌<◌, ◌≤◌, ◌++◌, ◌∷◌, length, ◌^◌, drop, take, IfOk, OnOk};
ghost use Rattle.text_lines.specs.Lines.{between_feeds};
ghost use Rattle.text_lines.specs.Words.{is_blank as is_blank_of, visible as visible_of};
ghost use Rattle.text_lines.specs.Steps.{NoBlank, IsPut};
ghost use Rattle.text_lines.specs.Tokens.{word_in, words_in, word_token, line_tokens, tokens_of, lines_in, first_token};

use crate::line::{len_before, split_line};
use crate::marks::{low_bytes, lowest, without};
use std::alloc::{AllocError, Global};

/// A word: the number of its line, from 1, where in the text it begins, and where it ends.
#[derive(Clone, Copy, PartialEq, Eq)]
pub struct Token {
    pub line: u32,
    pub start: usize,
    pub end: usize,
}

/// Whether a text has comments.
#[derive(Clone, Copy, PartialEq, Eq)]
pub enum Comments {
    /// A `#` begins one, which goes to the end of its line.
    FromHash,
    /// A `#` is a byte like others.
    Absent,
}

/// What is read of a line: all of it, or what stands before its comment.
pub fn visible(line: &[u8], comments: Comments) -> &[u8]
    ensures value { result.now ≡ visible_of comments line.now }
    ensures within { length result.now ≤ length line.now }
{
    match comments {
        Comments::FromHash => &line[..len_before(line, b'#')],
        Comments::Absent => line,
    }
}

fn is_blank(byte: u8) -> bool
    ensures { result ≡ is_blank_of byte }
{
    matches!(byte, b'\t' | b'\r' | b' ')
}

// One more word, unless it has no byte.
fn put_word(tokens: &mut Vec<Token>, line: u32, start: usize, len: usize) -> Result<(), AllocError>
    requires { start + len < 2 ^ 62 }
    ensures { OnOk result (tokens.new.items ≡ tokens.old.items ++ word_token line start len) }
{
    if len == 0 {
        return Ok(());
    }
    tokens.push(Token {
        line,
        start,
        end: start + len,
    })?;
    Ok(())
}

// The words that end at blanks among the sixteen bytes from a place on, and where the next word begins. One comparison
// marks the bytes that may be blank: a show's words are some six bytes long, so most bytes are never looked at alone.
#[inline(always)]
fn put_marked(
    tokens: &mut Vec<Token>,
    line: u32,
    at: usize,
    bytes: &[u8],
    base: usize,
    start: usize,
) -> Result<usize, AllocError>
    requires small { at + length bytes.now < 2 ^ 61 }
    requires within { base + 16 ≤ length bytes.now }
    requires order { start ≤ base }
    requires passed { NoBlank bytes.now start base }
    ensures { IfOk result (λ next. IsPut line at bytes.now start next tokens.old.items tokens.new.items
        × (next ≤ base + 16)
        × NoBlank bytes.now next (base + 16)) }
{
    let mut start = start;
    let mut marks = low_bytes(bytes, base);
    'marks: while marks != 0 {
        let mark = lowest(marks);
        marks = without(marks, mark);
        let end = base + mark;
        if is_blank(bytes[end]) {
            put_word(tokens, line, at + start, end - start)?;
            start = end + 1;
        }
    }
    Ok(start)
}

// The words of what is read of a line, which begins at a place.
fn put_words(tokens: &mut Vec<Token>, line: u32, at: usize, bytes: &[u8]) -> Result<(), AllocError>
    requires { at + length bytes.now < 2 ^ 61 }
    ensures { OnOk result (tokens.new.items ≡ tokens.old.items ++ line_tokens line at bytes.now) }
{
    let mut start: usize = 0;
    let mut base: usize = 0;
    'sixteens: while bytes.len() - base >= 16 {
        start = put_marked(tokens, line, at, bytes, base, start)?;
        base += 16;
    }
    'ones: while base < bytes.len() {
        let end = base;
        base += 1;
        if is_blank(bytes[end]) {
            put_word(tokens, line, at + start, end - start)?;
            start = base;
        }
    }
    put_word(tokens, line, at + start, bytes.len() - start)?;
    Ok(())
}

/// The words of a text in order, each with its line and its place.
pub fn tokens(alloc: Global, text: &[u8], comments: Comments) -> Result<Vec<Token>, AllocError>
    requires { length text.now < 2 ^ 31 }
    ensures { IfOk result (λ tokens. tokens.items ≡ tokens_of comments text.now) }
{
    let mut tokens = Vec::new(alloc);
    let mut number: u32 = 1;
    let mut at: usize = 0;
    let mut rest = text;
    'lines: while let Some((line, behind)) = split_line(rest) {
        put_words(&mut tokens, number, at, visible(line, comments))?;
        number += 1;
        at += line.len() + 1;
        rest = behind;
    }
    Ok(tokens)
}

/// The words of a line on its own, in place of those that the list had. Its room is kept, so that a reader that goes
/// from line to line takes memory once.
#[tactic(auto, using(crate::proofs::Alone::alone_tokens))]
pub fn put_line(tokens: &mut Vec<Token>, line: &[u8], comments: Comments) -> Result<(), AllocError>
    requires short { length line.now < 2 ^ 31 }
    requires one { between_feeds line.now ≡ line.now ∷ [] }
    ensures { OnOk result (tokens.new.items ≡ tokens_of comments line.now) }
{
    tokens.clear();
    put_words(tokens, 1, 0, visible(line, comments))
}

// No bytes. It is a call, so that a word in its text is found by two tests that come out the same each time. Else the
// compiler would choose between two slices at each word.
#[cold]
#[inline(never)]
fn no_word() -> &'static [u8]
    ensures { result.now ≡ [] }
{
    &[]
}

/// The bytes of a word, and none where it stands outside the text.
pub fn word_at<'a>(text: &'a [u8], token: &Token) -> &'a [u8]
    ensures { result.now ≡ word_in text.now token.now }
{
    if token.start <= token.end && token.end <= text.len() {
        &text[token.start..token.end]
    } else {
        no_word()
    }
}

/// How many of these words stand on the line of the first one.
pub fn line_word_count(tokens: &[Token]) -> usize
    requires { 0 < length tokens.now }
    ensures some { 0 < result }
    ensures within { result ≤ length tokens.now }
    ensures line { (text : List ℕ) → lines_in text tokens.now
        ≡ record { number = (first_token tokens.now).line; words = words_in text (take result tokens.now) }
        ∷ lines_in text (drop result tokens.now) }
{
    let line = tokens[0].line;
    let mut n: usize = 1;
    while n < tokens.len() && tokens[n].line == line {
        n += 1;
    }
    n
}
