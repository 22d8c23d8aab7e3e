//! A trajectory's bytes, and how many they are.

ghost use Rattle.std.specs.Prelude.{◌≡◌, ◌+◌, ◌*◌, ◌<◌, ◌≤◌, ◌++◌, length, All, IfOk, OnOk};
ghost use Rattle.traj_codec.specs.Spelling.{number, numbers, kind, stored, header, segment, spelling, ending};
ghost use Rattle.traj_codec.specs.Spelling.{HasDuration, IsEncoding};
ghost use Rattle.whole_numbers.specs.Limits.{most_segments};
ghost use Rattle.traj_codec.specs.Positions.{element_on};

use crate::traj::{Element, Segment, Traj};
use byteorder::{ByteOrder, LittleEndian};
use std::alloc::{AllocError, Global};

// What stands after the last segment of a trajectory that is written.
const ENDING: [u8; 3] = [0; 3];

fn put_number(out: &mut Vec<u8>, v: i16) -> Result<(), AllocError>
    ensures { OnOk result (out.new.items ≡ out.old.items ++ number v) }
{
    let mut bytes = [0; 2];
    LittleEndian::write_i16(&mut bytes, v);
    out.extend_from_slice(&bytes)
}

fn put_numbers(out: &mut Vec<u8>, vs: &[i16]) -> Result<(), AllocError>
    ensures { OnOk result (out.new.items ≡ out.old.items ++ numbers vs.now) }
{
    for v in vs {
        put_number(out, *v)?;
    }
    Ok(())
}

fn kind_of(element: &Element) -> u8
    ensures value { result ≡ kind element.now }
    ensures small { result < 4 }
{
    match element {
        Element::Constant => 0,
        Element::Linear { .. } => 1,
        Element::Cubic { .. } => 2,
        Element::Seven { .. } => 3,
    }
}

// The numbers of an element; one function for each place in the header has this body.
macro_rules! put_element {
    ($out:ident, $element:expr) => {
        match $element {
            Element::Constant => Ok(()),
            Element::Linear { v } => put_number($out, v),
            Element::Cubic { v } => put_numbers($out, &v),
            Element::Seven { v } => put_numbers($out, &v),
        }
    };
}

fn put_x(out: &mut Vec<u8>, s: &Segment) -> Result<(), AllocError>
    ensures { OnOk result (out.new.items ≡ out.old.items ++ numbers (stored (element_on s.now 0))) }
{
    put_element!(out, s.elements[0])
}

fn put_y(out: &mut Vec<u8>, s: &Segment) -> Result<(), AllocError>
    ensures { OnOk result (out.new.items ≡ out.old.items ++ numbers (stored (element_on s.now 1))) }
{
    put_element!(out, s.elements[1])
}

fn put_z(out: &mut Vec<u8>, s: &Segment) -> Result<(), AllocError>
    ensures { OnOk result (out.new.items ≡ out.old.items ++ numbers (stored (element_on s.now 2))) }
{
    put_element!(out, s.elements[2])
}

fn put_yaw(out: &mut Vec<u8>, s: &Segment) -> Result<(), AllocError>
    ensures { OnOk result (out.new.items ≡ out.old.items ++ numbers (stored (element_on s.now 3))) }
{
    put_element!(out, s.elements[3])
}

fn header_of(s: &Segment) -> u8
    ensures { result ≡ header s.now.elements }
{
    let [x, y, z, yaw] = &s.elements;
    kind_of(x) + 4 * kind_of(y) + 16 * kind_of(z) + 64 * kind_of(yaw)
}

fn put_segment(out: &mut Vec<u8>, s: &Segment) -> Result<(), AllocError>
    ensures { OnOk result (out.new.items ≡ out.old.items ++ segment s.now) }
{
    out.push(header_of(s))?;
    let mut ms = [0; 2];
    LittleEndian::write_u16(&mut ms, s.ms);
    out.extend_from_slice(&ms)?;
    put_x(out, s)?;
    put_y(out, s)?;
    put_z(out, s)?;
    put_yaw(out, s)
}

/// The bytes of a trajectory of at most 255 segments, none of which has the duration 0: its spelling and three zero
/// bytes (docs/TRAJECTORY.md). Out of memory is the one refusal.
pub fn encode(alloc: Global, t: &Traj) -> Result<Vec<u8>, AllocError>
    requires count { length t.now.segments ≤ most_segments }
    requires durations { All HasDuration t.now.segments }
    ensures { IfOk result (λ bytes. IsEncoding bytes.items t.now) }
{
    let mut out = Vec::new(alloc);
    put_numbers(&mut out, &t.start)?;
    for s in t.segments.as_slice() {
        put_segment(&mut out, s)?;
    }
    out.extend_from_slice(&ENDING)?;
    Ok(out)
}

fn count_of(element: Element) -> usize
    ensures value { result ≡ length (stored element) }
    ensures small { result ≤ 7 }
{
    match element {
        Element::Constant => 0,
        Element::Linear { .. } => 1,
        Element::Cubic { v } => v.len(),
        Element::Seven { v } => v.len(),
    }
}

fn segment_size(s: &Segment) -> usize
    ensures value { result ≡ length (segment s.now) }
    ensures some { 3 ≤ result }
    ensures small { result ≤ 59 }
{
    let [x, y, z, yaw] = s.elements;
    3 + 2 * (count_of(x) + count_of(y) + count_of(z) + count_of(yaw))
}

/// How many bytes `encode` returns for a trajectory of at most 255 segments, none of which has the duration 0. A
/// segment takes from 3 to 59 bytes, and what isn't a segment takes 11.
pub fn size_of(t: &Traj) -> usize
    requires count { length t.now.segments ≤ most_segments }
    requires durations { All HasDuration t.now.segments }
    ensures exact { result ≡ length (spelling t.now ++ ending) }
    ensures least { 11 + 3 * length t.now.segments ≤ result }
    ensures most { result ≤ 11 + 59 * length t.now.segments }
{
    let mut size = 2 * t.start.len() + ENDING.len();
    for s in t.segments.as_slice() {
        size += segment_size(s);
    }
    size
}
