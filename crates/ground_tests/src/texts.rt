//! Small texts and words, with what is read of them.
use std::alloc::{AllocError, Global};
use text_lines::{
    Comments, LARGE, NumberFault, line_word_count, natural, number_in, split_line, tokens, visible,
    word_at,
};

// The most bytes of a text that is tried.
const TEXT_LIMIT: usize = 1000;

// Whether the words of a text are these, each on its line.
fn are_words(alloc: Global, text: &[u8], comments: Comments, wanted: &[(u32, &[u8])]) -> bool {
    if text.len() > TEXT_LIMIT {
        return false;
    }
    let Ok(tokens) = tokens(alloc, text, comments) else {
        return false;
    };
    if tokens.len() != wanted.len() {
        return false;
    }
    for (k, token) in tokens.iter().enumerate() {
        let Some((line, word)) = wanted.get(k) else {
            return false;
        };
        if token.line != *line || word_at(text, token) != *word {
            return false;
        }
    }
    true
}

const TEXT: &[u8] = b"a  bc\r\n\n \t\n#x\nd#e\tf";

const WORDS_ON_LINES: &[(&[u8], Comments, &[(u32, &[u8])])] = &[
    (
        TEXT,
        Comments::FromHash,
        &[(1, b"a"), (1, b"bc"), (5, b"d")],
    ),
    (
        TEXT,
        Comments::Absent,
        &[(1, b"a"), (1, b"bc"), (4, b"#x"), (5, b"d#e"), (5, b"f")],
    ),
    (b"", Comments::Absent, &[]),
    (b"\n\nz\n", Comments::Absent, &[(3, b"z")]),
];

// How many words the first line of the text has.
fn first_words(alloc: Global) -> Result<usize, AllocError> {
    let words = tokens(alloc, TEXT, Comments::Absent)?;
    Ok(line_word_count(words.as_slice()))
}

#[test]
fn words_stand_on_lines(rt: HostRuntime) {
    for &(text, comments, wanted) in WORDS_ON_LINES {
        assert!(rt; are_words(rt.alloc(), text, comments, wanted), "{text:?}");
    }
    assert!(rt; matches!(first_words(rt.alloc()), Ok(2)));
    assert!(rt; visible(b"a#b", Comments::FromHash) == b"a".as_slice());
}

const LINES_ARE_SPLIT: &[(&[u8], Option<(&[u8], &[u8])>)] = &[
    (b"", None),
    (b"a", Some((b"a", b""))),
    (b"a\n\nb", Some((b"a", b"\nb"))),
    (b"\n", Some((b"", b""))),
];

#[test]
fn lines_are_split(rt: HostRuntime) {
    for &(text, wanted) in LINES_ARE_SPLIT {
        assert!(rt;
            text.len() < TEXT_LIMIT && split_line(text) == wanted,
            "{text:?}"
        );
    }
}

const NUMBERS_ARE_READ_NUMBERS: &[(&[u8], Result<i64, NumberFault>)] = &[
    (b"0", Ok(0)),
    (b"-0", Ok(0)),
    (b"007", Ok(7)),
    (b"1000", Ok(1000)),
    (b"-1000", Ok(-1000)),
    (b"1001", Err(NumberFault::OutOfRange)),
    (b"-1001", Err(NumberFault::OutOfRange)),
    (
        b"-1000000000000000000000000000001",
        Err(NumberFault::OutOfRange),
    ),
    (b"", Err(NumberFault::NotANumber)),
    (b"-", Err(NumberFault::NotANumber)),
    (b"+1", Err(NumberFault::NotANumber)),
    (b"1 ", Err(NumberFault::NotANumber)),
];

#[test]
fn numbers_are_read(rt: HostRuntime) {
    for &(word, wanted) in NUMBERS_ARE_READ_NUMBERS {
        assert!(rt; number_in(word, -1000, 1000) == wanted, "{word:?}");
    }
}

const WORDS: &[(&[u8], Option<u64>)] = &[
    (b"0100", Some(100)),
    (b"", None),
    (b"1000000000001", Some(LARGE)),
    (b"99999999999999999999", Some(LARGE)),
];

#[test]
fn digits_are_counted_up_to_a_limit(rt: HostRuntime) {
    for &(word, wanted) in WORDS {
        assert!(rt; natural(word) == wanted, "{word:?}");
    }
}
