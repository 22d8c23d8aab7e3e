//! Names, and first words.

ghost use Rattle.std.specs.Prelude.{◌≡◌, ◌≤◌, length, map, IsTrue};
ghost use Rattle.std.specs.List.{list_all};
ghost use Rattle.choreo_lines.specs.FirstWord.{keyword_of};
ghost use Rattle.choreo_lines.specs.Steps.{keyword_among};
ghost use Rattle.choreo_show.specs.Name.{is_name as is_name_of, goes_in_name as goes_in_name_of};
ghost use Rattle.choreo_show.specs.Name.{begins_lower as begins_lower_of};

use crate::line::Keyword;

// The first words of lines that aren't acts.
const KEYWORDS: [(&[u8], Keyword); 14] = [
    (b"memory", Keyword::Memory),
    (b"trajectory", Keyword::Trajectory),
    (b"ellipsoid", Keyword::Ellipsoid),
    (b"stray", Keyword::Stray),
    (b"late", Keyword::Late),
    (b"drone", Keyword::Drone),
    (b"formation", Keyword::Formation),
    (b"at", Keyword::At),
    (b"figure", Keyword::Figure),
    (b"cue", Keyword::Cue),
    (b"repeat", Keyword::Repeat),
    (b"perform", Keyword::Perform),
    (b"form", Keyword::Form),
    (b"end", Keyword::End),
];

fn keyword_among(mut words: &[(&[u8], Keyword)], word: &[u8]) -> Keyword
    ensures { result ≡ keyword_among (map (λ w. (w.0.now, w.1)) words.entry.now) word.now }
{
    while let [entry, rest @ ..] = words {
        if word == entry.0 {
            return entry.1;
        }
        words = rest;
    }
    Keyword::Other
}

/// What the first word of a line is.
pub fn keyword(word: &[u8]) -> Keyword
    ensures { result ≡ keyword_of word.now }
{
    keyword_among(&KEYWORDS, word)
}

fn goes_in_name(byte: u8) -> bool
    ensures { result ≡ goes_in_name_of byte }
{
    matches!(byte, b'a'..=b'z' | b'0'..=b'9' | b'_')
}

fn all_go_in_name(word: &[u8]) -> bool
    ensures { result ≡ list_all goes_in_name_of word.now }
{
    word.iter().all(|byte| goes_in_name(*byte))
}

fn begins_lower(word: &[u8]) -> bool
    ensures { result ≡ begins_lower_of word.now }
{
    match word {
        [first, ..] => matches!(*first, b'a'..=b'z'),
        [] => false,
    }
}

/// Whether a word is a name.
pub fn is_name(word: &[u8]) -> bool
    ensures value { result ≡ is_name_of word.now }
    ensures short { IsTrue result → length word.now ≤ 16 }
{
    begins_lower(word)
        && all_go_in_name(word)
        && word.len() <= 16
        && word != b"form".as_slice()
        && word != b"end".as_slice()
}
