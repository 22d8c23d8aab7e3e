//! The words of a show's text.

ghost use Rattle.std.specs.Prelude.{◌≡◌, ◌≤◌, length, [], ◌∷◌, MatchOption, None, Some, OnOk};
ghost use Rattle.whole_numbers.specs.Limits.{most_text};
ghost use Rattle.choreo_lines.specs.declared.line.LineKind.TheVariants as kind;
ghost use Rattle.text_lines.specs.declared.token.Comments.TheVariants.{FromHash};
ghost use Rattle.text_lines.specs.Lines.{between_feeds};
ghost use Rattle.text_lines.specs.Words.{visible as visible_of, words_of};
ghost use Rattle.text_lines.specs.Tokens.{words_in};
ghost use Rattle.std.specs.List.{list_all};
ghost use Rattle.choreo_reader.specs.Text.{is_allowed as is_allowed_of, are_allowed as are_allowed_of, forbidden};
ghost use Rattle.choreo_reader.specs.Text.{fault_at, TokensGive};
ghost use Rattle.choreo_reader.specs.Steps.{stands_anywhere as stands_anywhere_of};

use crate::fault::ShowFault;
use choreo_lines::LineKind;
use std::alloc::{AllocError, Global};
use text_lines::{Comments, Token, put_line, split_line, visible};

fn is_allowed(byte: u8) -> bool
    ensures { result ≡ is_allowed_of byte }
{
    matches!(byte, b'\t' | b'\r' | b' '..=b'~')
}

fn are_allowed(bytes: &[u8]) -> bool
    ensures { result ≡ are_allowed_of bytes.now }
{
    bytes.iter().all(|byte| is_allowed(*byte))
}

// Whether a byte may stand anywhere: one that may stand outside a comment, or a line feed.
fn stands_anywhere(byte: u8) -> bool
    ensures { result ≡ stands_anywhere_of byte }
{
    byte == b'\n' || is_allowed(byte)
}

// Whether each byte of a text may stand anywhere. No byte ends the walk, so that a processor judges many at a time.
fn is_plain(text: &[u8]) -> bool
    ensures { result ≡ list_all stands_anywhere_of text.now }
{
    let mut plain = true;
    for byte in text {
        plain &= stands_anywhere(*byte);
    }
    plain
}

// The first line that has a forbidden byte. Most texts have none, in comments neither; these are not cut into lines.
#[tactic(auto, using(crate::proofs::Allowed::plain_allowed))]
pub(crate) fn first_bad_line(text: &[u8]) -> Option<u32>
    requires { length text.now ≤ most_text }
    ensures { MatchOption result (forbidden text.now ≡ None)
        (λ line. forbidden text.now ≡ Some (fault_at line kind.BadByte)) }
{
    if is_plain(text) {
        return None;
    }
    let mut number: u32 = 1;
    let mut rest = text;
    'lines: while let Some((line, later)) = split_line(rest) {
        if !are_allowed(visible(line, Comments::FromHash)) {
            return Some(number);
        }
        number += 1;
        rest = later;
    }
    None
}

// The words of a line on its own, outside its comment, in place of those that the list had.
#[tactic(auto, using(crate::proofs::OneLine::one_line))]
pub(crate) fn line_words(words: &mut Vec<Token>, line: &[u8]) -> Result<(), AllocError>
    requires within { length line.now ≤ most_text }
    requires one { between_feeds line.now ≡ line.now ∷ [] }
    ensures { OnOk result (words_in line.now words.new.items ≡ words_of (visible_of FromHash line.now)) }
{
    put_line(words, line, Comments::FromHash)
}

/// The words of a text outside comments in order, each with its line and its place.
pub fn tokens(alloc: Global, text: &[u8]) -> Result<Vec<Token>, ShowFault>
    requires { length text.now ≤ most_text }
    ensures { TokensGive result text.now }
{
    if let Some(line) = first_bad_line(text) {
        return Err(ShowFault::Line {
            line,
            kind: LineKind::BadByte,
        });
    }
    match text_lines::tokens(alloc, text, Comments::FromHash) {
        Ok(tokens) => Ok(tokens),
        Err(_) => Err(ShowFault::Memory),
    }
}
