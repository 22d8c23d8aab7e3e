//! A trajectory read from its bytes.

ghost use Rattle.std.specs.Prelude.{◌≡◌, ℕ, ◌+◌, ◌*◌, ◌/◌, ◌%◌, ◌<◌, ◌≤◌, ◌∷◌, [], length, drop, slice_index, Some};
ghost use Rattle.std.specs.Prelude.{MatchResult};
ghost use Rattle.byteorder.specs.Endian.{little_number};
ghost use Rattle.traj_codec.specs.Reading.{BeginsWith, DecodeGives, IsDecoded, field_fault, numbers_fault};
ghost use Rattle.traj_codec.specs.Reading.{duration_fault};
ghost use Rattle.traj_codec.specs.Reading.{count_of_kind, count_under, segment_fault};
ghost use Rattle.traj_codec.specs.Reading.{NumbersStand, DurationStands, ElementStands, ElementsStand, SegmentsStand};
ghost use Rattle.traj_codec.specs.Reading.{SegmentsGive};
ghost use Rattle.traj_codec.specs.declared.traj.Traj.{Traj};

use crate::traj::{Element, Segment, Traj};
use byteorder::{ByteOrder, LittleEndian};
use listed::Listed;
use std::alloc::{AllocError, AllocFailed, Global};

/// Why bytes are no trajectory of this many segments. Places count bytes from 0.
#[derive(Clone, Copy, PartialEq, Eq)]
pub enum CodecFault {
    /// The field at this place isn't whole: a number, a header or a duration.
    Short { at: usize },
    /// The duration at this place is 0.
    ZeroDuration { at: usize },
    /// Out of memory.
    Memory,
}

impl From<AllocError> for CodecFault {
    ghost use Rattle.std.specs.Prelude.{◌≡◌};
    ghost use Rattle.traj_codec.specs.declared.reading.CodecFault.TheVariants.{Memory};

    ghost from_gives = { λ _ e. e ≡ Memory };

    fn from(_: AllocError) -> Self {
        CodecFault::Memory
    }
}

impl<T: Drop> From<AllocFailed<T>> for CodecFault {
    ghost use Rattle.std.specs.Prelude.{◌≡◌};
    ghost use Rattle.traj_codec.specs.declared.reading.CodecFault.TheVariants.{Memory};

    ghost from_gives = { λ _ e. e ≡ Memory };

    fn from(_: AllocFailed<T>) -> Self {
        CodecFault::Memory
    }
}

// The bytes from a place on, of which a field takes this many.
fn field_at(bytes: &[u8], at: usize, size: usize) -> Result<&[u8], CodecFault>
    requires { at ≤ length bytes.now }
    ensures { MatchResult result
        (λ rest. (rest.now ≡ drop at bytes.now) × (size ≤ length rest.now))
        (λ e. field_fault bytes.now size at ≡ Some e) }
{
    let rest = &bytes[at..];
    if rest.len() < size {
        return Err(CodecFault::Short { at });
    }
    Ok(rest)
}

fn number_at(bytes: &[u8], at: usize) -> Result<i16, CodecFault>
    requires { at ≤ length bytes.now }
    ensures { MatchResult result
        (λ z. NumbersStand bytes.now at (at + 2) (z ∷ []))
        (λ e. field_fault bytes.now 2 at ≡ Some e) }
{
    let field = field_at(bytes, at, 2)?;
    Ok(LittleEndian::read_i16(field))
}

// Fills `out` with numbers, and returns the place after them.
fn numbers_at(bytes: &[u8], at: usize, out: &mut [i16]) -> Result<usize, CodecFault>
    requires { at ≤ length bytes.now }
    ensures { MatchResult result
        (λ next. NumbersStand bytes.now at next out.new)
        (λ e. numbers_fault bytes.now (length out.old) at ≡ Some e) }
{
    let mut next = at;
    for z in out.iter_mut() {
        *z = number_at(bytes, next)?;
        next += 2;
    }
    Ok(next)
}

fn linear_at(bytes: &[u8], at: usize) -> Result<(Element, usize), CodecFault>
    requires { at ≤ length bytes.now }
    ensures { MatchResult result
        (λ r. ElementStands bytes.now at 1 r.0 r.1)
        (λ e. numbers_fault bytes.now 1 at ≡ Some e) }
{
    let v = number_at(bytes, at)?;
    Ok((Element::Linear { v }, at + 2))
}

fn cubic_at(bytes: &[u8], at: usize) -> Result<(Element, usize), CodecFault>
    requires { at ≤ length bytes.now }
    ensures { MatchResult result
        (λ r. ElementStands bytes.now at 2 r.0 r.1)
        (λ e. numbers_fault bytes.now 3 at ≡ Some e) }
{
    let mut v = [0; 3];
    let next = numbers_at(bytes, at, &mut v)?;
    Ok((Element::Cubic { v }, next))
}

fn seven_at(bytes: &[u8], at: usize) -> Result<(Element, usize), CodecFault>
    requires { at ≤ length bytes.now }
    ensures { MatchResult result
        (λ r. ElementStands bytes.now at 3 r.0 r.1)
        (λ e. numbers_fault bytes.now 7 at ≡ Some e) }
{
    let mut v = [0; 7];
    let next = numbers_at(bytes, at, &mut v)?;
    Ok((Element::Seven { v }, next))
}

// The element at a place, and the place after it; one function for each place in the header has this body.
macro_rules! element_at {
    ($bytes:ident, $at:ident, $kind:expr) => {
        match $kind {
            0 => Ok((Element::Constant, $at)),
            1 => linear_at($bytes, $at),
            2 => cubic_at($bytes, $at),
            _ => seven_at($bytes, $at),
        }
    };
}

fn x_at(bytes: &[u8], at: usize, header: u8) -> Result<(Element, usize), CodecFault>
    requires { at ≤ length bytes.now }
    ensures { MatchResult result
        (λ r. ElementStands bytes.now at (header % 4) r.0 r.1)
        (λ e. numbers_fault bytes.now (count_of_kind (header % 4)) at ≡ Some e) }
{
    element_at!(bytes, at, header % 4)
}

fn y_at(bytes: &[u8], at: usize, header: u8) -> Result<(Element, usize), CodecFault>
    requires { at ≤ length bytes.now }
    ensures { MatchResult result
        (λ r. ElementStands bytes.now at (header / 4 % 4) r.0 r.1)
        (λ e. numbers_fault bytes.now (count_of_kind (header / 4 % 4)) at ≡ Some e) }
{
    element_at!(bytes, at, header / 4 % 4)
}

fn z_at(bytes: &[u8], at: usize, header: u8) -> Result<(Element, usize), CodecFault>
    requires { at ≤ length bytes.now }
    ensures { MatchResult result
        (λ r. ElementStands bytes.now at (header / 16 % 4) r.0 r.1)
        (λ e. numbers_fault bytes.now (count_of_kind (header / 16 % 4)) at ≡ Some e) }
{
    element_at!(bytes, at, header / 16 % 4)
}

fn yaw_at(bytes: &[u8], at: usize, header: u8) -> Result<(Element, usize), CodecFault>
    requires { at ≤ length bytes.now }
    ensures { MatchResult result
        (λ r. ElementStands bytes.now at (header / 64) r.0 r.1)
        (λ e. numbers_fault bytes.now (count_of_kind (header / 64)) at ≡ Some e) }
{
    element_at!(bytes, at, header / 64)
}

fn elements_at(bytes: &[u8], at: usize, header: u8) -> Result<([Element; 4], usize), CodecFault>
    requires { at ≤ length bytes.now }
    ensures { MatchResult result
        (λ r. ElementsStand bytes.now at header r.0 r.1)
        (λ e. numbers_fault bytes.now (count_under header) at ≡ Some e) }
{
    let (x, next) = x_at(bytes, at, header)?;
    let (y, next) = y_at(bytes, next, header)?;
    let (z, next) = z_at(bytes, next, header)?;
    let (yaw, next) = yaw_at(bytes, next, header)?;
    Ok(([x, y, z, yaw], next))
}

fn header_at(bytes: &[u8], at: usize) -> Result<u8, CodecFault>
    requires { at ≤ length bytes.now }
    ensures { MatchResult result
        (λ h. (at < length bytes.now) × (h ≡ slice_index bytes.now at))
        (λ e. field_fault bytes.now 1 at ≡ Some e) }
{
    let field = field_at(bytes, at, 1)?;
    Ok(field[0])
}

fn duration_at(bytes: &[u8], at: usize) -> Result<u16, CodecFault>
    requires { at ≤ length bytes.now }
    ensures { MatchResult result
        (DurationStands bytes.now at)
        (λ e. duration_fault bytes.now at ≡ Some e) }
{
    let field = field_at(bytes, at, 2)?;
    match LittleEndian::read_u16(field) {
        0 => Err(CodecFault::ZeroDuration { at }),
        ms => Ok(ms),
    }
}

// A header takes one byte, and a duration two.
fn segment_at(bytes: &[u8], at: usize) -> Result<(Segment, usize), CodecFault>
    requires { at ≤ length bytes.now }
    ensures { MatchResult result
        (λ r. SegmentsStand bytes.now at (r.0 ∷ []) r.1)
        (λ e. segment_fault bytes.now at ≡ Some e) }
{
    let header = header_at(bytes, at)?;
    let ms = duration_at(bytes, at + 1)?;
    let (elements, next) = elements_at(bytes, at + 3, header)?;
    Ok((Segment { ms, elements }, next))
}

fn segments_at(
    alloc: Global,
    bytes: &[u8],
    at: usize,
    pieces: u8,
) -> Result<(Listed<Segment>, usize), CodecFault>
    requires { at ≤ length bytes.now }
    ensures { SegmentsGive bytes.now at pieces result }
{
    let mut segments = Vec::new(alloc);
    let mut next = at;
    for _ in 0..pieces {
        let (segment, behind) = segment_at(bytes, next)?;
        segments.push(segment)?;
        next = behind;
    }
    Ok((Listed::from_vec(segments), next))
}

/// The trajectory of that many segments which the bytes begin with, and its number of bytes (docs/TRAJECTORY.md). What
/// follows is left unread, as the three zero bytes of an ending. Bytes that begin with none have the fault of the first
/// field that has one: it isn't whole, or is a duration 0.
pub fn decode(alloc: Global, bytes: &[u8], pieces: u8) -> Result<(Traj, usize), CodecFault>
    ensures gives { DecodeGives bytes.now pieces result }
    ensures only { (t : Traj) (used : ℕ) → BeginsWith bytes.now pieces t used → IsDecoded t used result }
{
    let mut start = [0; 4];
    let next = numbers_at(bytes, 0, &mut start)?;
    let (segments, used) = segments_at(alloc, bytes, next, pieces)?;
    Ok((Traj { start, segments }, used))
}
