//! Lines of a text.

ghost use Rattle.std.specs.Prelude.{◌≡◌, ◌+◌, ◌<◌, ◌≤◌, ◌∷◌, [], length, ◌==◌, MatchOption, drop, ◌^◌};
ghost use Rattle.std.specs.List.{position_or_len};
ghost use Rattle.text_lines.specs.Lines.{lines_of};

use memchr::memchr;

/// How many bytes stand before the first of these, or all where there is none.
pub fn len_before(bytes: &[u8], end: u8) -> usize
    ensures value { result ≡ position_or_len (λ b. b == end) bytes.now }
    ensures within { result ≤ length bytes.now }
{
    memchr(end, bytes).unwrap_or(bytes.len())
}

/// The first line of a text without its line feed, and what stands after that. An empty text has no line.
pub fn split_line(text: &[u8]) -> Option<(&[u8], &[u8])>
    requires { length text.now < 2 ^ 60 }
    ensures { MatchOption result (lines_of text.now ≡ []) (λ cut.
        (lines_of text.now ≡ cut.0.now ∷ lines_of cut.1.now)
        × (cut.1.now ≡ drop (length cut.0.now + 1) text.now)
        × (length cut.0.now ≤ length text.now)
        × (length cut.1.now < length text.now)) }
{
    if text.is_empty() {
        return None;
    }
    let len = len_before(text, b'\n');
    if len == text.len() {
        Some((text, &[]))
    } else {
        Some((&text[..len], &text[len + 1..]))
    }
}
