//! Numbers, curves and pieces rounded.

ghost use Rattle.std.specs.Prelude.{◌≡◌, ◌≤◌, ◌*ℤ◌, ◌-ℤ◌, pos, neg_ℤ, map, length, IfSome};
ghost use Rattle.whole_numbers.specs.Numbers.{IsIn};
ghost use Rattle.mm_rounding.specs.declared.piece.Axis.TheVariants.{Two, Four, Eight};
ghost use Rattle.mm_rounding.specs.Rounding.{millimetres, short, shorts, all_equal, element_of, fitted};
ghost use Rattle.mm_rounding.specs.Rounding.{rounding};
ghost use Rattle.mm_rounding.specs.Steps.{axis_in, number_in};

use crate::piece::{Axis, MicroPiece};
use traj_codec::{Element, Segment};

// Micrometres in a millimetre.
const MICROMETRES: i64 = 1000;

// The unit of an axis.
const AS_IT_IS: usize = 0;

const MILLIMETRES: usize = 1;

// Micrometres in whole millimetres, a half up. The sum `v + 500` may not fit 64 bits, and a division in 128 bits takes
// several times as long; so what is rounded up is found by the remainder.
fn millimetres(v: i64) -> i64
    ensures { result ≡ millimetres v }
{
    let floor = v.div_euclid(MICROMETRES);
    if v.rem_euclid(MICROMETRES) < MICROMETRES / 2 {
        floor
    } else {
        floor + 1
    }
}

/// The number in two bytes, where it fits.
pub fn short(v: i64) -> Option<i16>
    ensures { result ≡ short v }
{
    i16::try_from(v).ok()
}

/// Micrometres in whole millimetres: `v + 500` divided by 1,000 and rounded down, so that a half goes up. Nothing
/// exactly where the millimetres don't fit two bytes.
pub fn to_mm(v: i64) -> Option<i16>
    ensures value { result ≡ short (millimetres v) }
    // It errs by at most 500 micrometres.
    ensures near { IfSome result (λ mm. IsIn (neg_ℤ (pos 500)) (pos 500) (pos 1000 *ℤ mm -ℤ v)) }
{
    short(millimetres(v))
}

// The number in two bytes, where it fits: in whole millimetres, or as it is.
fn number<const UNIT: usize>(v: i64) -> Option<i16>
    ensures { result ≡ short (number_in UNIT v) }
{
    if UNIT == AS_IT_IS { short(v) } else { to_mm(v) }
}

// Each of these, where all fit.
fn numbers<const N: usize, const UNIT: usize>(v: &[i64; N]) -> Option<[i16; N]>
    ensures { result ≡ shorts (map (number_in UNIT) v.now) }
{
    let mut row = [0; N];
    for k in 0..N {
        match number::<UNIT>(v[k]) {
            Some(number) => row[k] = number,
            None => return None,
        }
    }
    Some(row)
}

fn are_equal(v: &[i16]) -> bool
    requires { 1 ≤ length v.now }
    ensures { result ≡ all_equal v.now }
{
    let first = v[0];
    v.iter().all(|number| *number == first)
}

fn linear(v: &[i16; 2]) -> Element
    ensures { result ≡ element_of (Two v.now) }
{
    if are_equal(v) {
        Element::Constant
    } else {
        Element::Linear { v: v[1] }
    }
}

fn cubic(v: &[i16; 4]) -> Element
    ensures { result ≡ element_of (Four v.now) }
{
    if are_equal(v) {
        Element::Constant
    } else {
        Element::Cubic {
            v: [v[1], v[2], v[3]],
        }
    }
}

fn seven(v: &[i16; 8]) -> Element
    ensures { result ≡ element_of (Eight v.now) }
{
    if are_equal(v) {
        Element::Constant
    } else {
        Element::Seven {
            v: [v[1], v[2], v[3], v[4], v[5], v[6], v[7]],
        }
    }
}

// The element of an axis, where it can hold each control value: in whole millimetres, or as it is.
fn element<const UNIT: usize>(axis: &Axis) -> Option<Element>
    ensures { result ≡ fitted (axis_in UNIT axis.now) }
{
    match axis {
        Axis::One { v } => match number::<UNIT>(*v) {
            Some(_) => Some(Element::Constant),
            None => None,
        },
        Axis::Two { v } => match numbers::<2, UNIT>(v) {
            Some(row) => Some(linear(&row)),
            None => None,
        },
        Axis::Four { v } => match numbers::<4, UNIT>(v) {
            Some(row) => Some(cubic(&row)),
            None => None,
        },
        Axis::Eight { v } => match numbers::<8, UNIT>(v) {
            Some(row) => Some(seven(&row)),
            None => None,
        },
    }
}

/// The segment that a piece rounds to: x, y and z in whole millimetres, yaw in tenths of a degree as it is. An element
/// is constant exactly where all its rounded control values are equal, else it has the degree of its axis
/// (docs/TRAJECTORY.md). Nothing exactly where a rounded position or a yaw doesn't fit two bytes, or where the piece
/// lasts 0 milliseconds.
pub fn round_piece(p: &MicroPiece) -> Option<Segment>
    ensures { result ≡ rounding p.now }
{
    if p.ms == 0 {
        return None;
    }
    let x = element::<MILLIMETRES>(&p.axes[0])?;
    let y = element::<MILLIMETRES>(&p.axes[1])?;
    let z = element::<MILLIMETRES>(&p.axes[2])?;
    let yaw = element::<AS_IT_IS>(&p.axes[3])?;
    Some(Segment {
        ms: p.ms,
        elements: [x, y, z, yaw],
    })
}
