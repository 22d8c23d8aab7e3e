//! Regions as text, one a line.

ghost use Rattle.std.specs.Prelude.{◌≡◌, ℕ, ◌+◌, ◌<◌, ◌≤◌, ◌^◌, List, [], ◌∷◌, ◌++◌, length, Some, None, Ok, IfOk};
ghost use Rattle.std.specs.Prelude.{IfErr, IfSome, OnOk, All, ℤ};
ghost use Rattle.text_lines.specs.Tokens.{words_in};
ghost use Rattle.keepout_boxes.specs.Kept.{AreEnds, IsNear, most_regions};
ghost use Rattle.whole_numbers.specs.Limits.{most_text};
ghost use Rattle.keepout_boxes.specs.Regions.{FaultGives, are_ordered as ordered_ends, coordinate as coordinate_word};
ghost use Rattle.keepout_boxes.specs.Regions.{corner as corner_words, region_of, region_with as region_of_kind};
ghost use Rattle.keepout_boxes.specs.Regions.{regions_of};
ghost use Rattle.keepout_boxes.specs.Steps.{IsCoordinate};

use crate::region::Region;
use std::alloc::{AllocError, Global};
use text_lines::{Comments, Token, line_word_count, number_in, tokens, word_at};

const MOST_REGIONS: usize = 64;

// How far the ends of a region may lie from the origin, in millimetres.
const FARTHEST: i64 = 40_000;

/// Why regions aren't read.
#[derive(Clone, Copy)]
pub enum RegionFault {
    /// The first faulty line. Lines count from 1, those without words included.
    Line { line: u32 },
    /// Out of memory.
    Memory,
}

impl From<AllocError> for RegionFault {
    ghost use Rattle.std.specs.Prelude.{◌≡◌};
    ghost use Rattle.keepout_boxes.specs.declared.reading.RegionFault.TheVariants.{Memory};

    ghost from_gives = { λ _ e. e ≡ Memory };

    fn from(_: AllocError) -> Self {
        RegionFault::Memory
    }
}

fn coordinate(word: &[u8]) -> Option<i32>
    ensures value { result ≡ coordinate_word word.now }
    ensures near { IfSome result IsCoordinate }
{
    match number_in(word, -FARTHEST, FARTHEST) {
        Ok(n) => Some(n as i32),
        Err(_) => None,
    }
}

// The corner of three words, from a place on.
fn corner(text: &[u8], words: &[Token], at: usize) -> Option<[i32; 3]>
    requires { at + 3 ≤ length words.now }
    ensures value { result ≡ corner_words (words_in text.now words.now) at }
    ensures near { IfSome result AreEnds }
{
    let x = coordinate(word_at(text, &words[at]))?;
    let y = coordinate(word_at(text, &words[at + 1]))?;
    let z = coordinate(word_at(text, &words[at + 2]))?;
    Some([x, y, z])
}

// The region of a kind between two corners.
fn region_with(kind: &[u8], low: Option<[i32; 3]>, high: Option<[i32; 3]>) -> Option<Region>
    ensures { result ≡ region_of_kind kind.now low high }
{
    let low = low?;
    let high = high?;
    if !are_ordered(low, high) {
        return None;
    }
    if kind == b"keepout".as_slice() {
        return Some(Region::Keepout { low, high });
    }
    if kind == b"volume".as_slice() {
        return Some(Region::Volume { low, high });
    }
    None
}

// Whether no lower end is above its upper one.
fn are_ordered(low: [i32; 3], high: [i32; 3]) -> bool
    ensures { result ≡ ordered_ends low high }
{
    low[0] <= high[0] && low[1] <= high[1] && low[2] <= high[2]
}

fn region_on(text: &[u8], words: &[Token]) -> Option<Region>
    ensures value { result ≡ region_of (words_in text.now words.now) }
    ensures near { IfSome result IsNear }
{
    if words.len() != 7 {
        return None;
    }
    region_with(
        word_at(text, &words[0]),
        corner(text, words, 1),
        corner(text, words, 4),
    )
}

fn put(regions: &mut Vec<Region>, region: Region) -> Result<(), AllocError>
    ensures { OnOk result (regions.new.items ≡ regions.old.items ++ region ∷ []) }
{
    regions.push(region)?;
    Ok(())
}

/// The regions of a text of at most 1,048,576 bytes, in order. Lines without words are skipped. Each other line is
/// `keepout X1 Y1 Z1 X2 Y2 Z2` or `volume X1 Y1 Z1 X2 Y2 Z2`: the lower ends and then the upper ones, in whole
/// millimetres from -40,000 to 40,000, no lower end above its upper one. The first line that is neither, or that comes
/// after 64 regions, is the fault. A `#` is a byte like others.
pub fn read_regions(alloc: Global, text: &[u8]) -> Result<Vec<Region>, RegionFault>
    requires { length text.now ≤ most_text }
    ensures ok { IfOk result (λ regions. regions_of text.now ≡ Ok regions.items) }
    ensures fault { IfErr result (λ fault. FaultGives fault (regions_of text.now)) }
    ensures few { IfOk result (λ regions. length regions.items ≤ most_regions) }
    ensures near { IfOk result (λ regions. All IsNear regions.items) }
{
    let words = tokens(alloc, text, Comments::Absent)?;
    let mut regions = Vec::new(alloc);
    let mut rest = words.as_slice();
    while !rest.is_empty() {
        let count = line_word_count(rest);
        if regions.len() == MOST_REGIONS {
            return Err(RegionFault::Line { line: rest[0].line });
        }
        match region_on(text, &rest[..count]) {
            Some(region) => put(&mut regions, region)?,
            None => return Err(RegionFault::Line { line: rest[0].line }),
        }
        rest = &rest[count..];
    }
    Ok(regions)
}
