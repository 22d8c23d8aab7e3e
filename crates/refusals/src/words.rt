//! Words that a line makes of numbers.

ghost use Rattle.std.specs.Prelude.{◌≡◌, ◌≤◌, ◌<◌, ◌^◌};
ghost use Rattle.byte_streams.specs.Words.{hex_word};
ghost use Rattle.sep_parts.specs.Versions.{IsVersion, direction_word, head_count, known_in};

use arrayvec::ArrayVec;
use byte_streams::hex_digit;
use whole_numbers::Depth;

// The number of equal parts that a cue has at a depth.
pub(crate) fn parts(depth: Depth) -> u32
    ensures { result ≡ 2 ^ depth }
{
    1 << u32::from(depth.levels())
}

pub(crate) fn hex_word(byte: u8) -> [u8; 2]
    ensures { result ≡ hex_word byte }
{
    [hex_digit(byte / 16), hex_digit(byte % 16)]
}

// A direction: a letter in version 1, two digits in version 2.
pub(crate) fn direction_word(version: u8, dir: u8) -> ArrayVec<u8, 2>
    requires version { IsVersion version }
    requires known { dir < known_in version }
    ensures { result.items ≡ direction_word version dir }
{
    let mut word = ArrayVec::new();
    if version == 1 {
        word.push(b'a' + dir);
    } else {
        word.push(b'0' + dir / 10);
        word.push(b'0' + dir % 10);
    }
    word
}

// How many lines stand before the trees in a text of this version.
pub(crate) fn head_count(version: u8) -> u32
    requires { IsVersion version }
    ensures exact { result ≡ head_count version }
    ensures small { result ≤ 2 }
{
    if version == 1 { 1 } else { 2 }
}
