//! The raised curves of a fleet.

ghost use Rattle.std.specs.Prelude.{◌≡◌, ℕ, ◌+◌, ◌*◌, ◌^◌, ◌≤◌, ◌<◌, ℤ, ◌-ℤ◌, ◌++◌, ◌∷◌, [], All, IfOk, OnOk, length};
ghost use Rattle.whole_numbers.specs.Numbers.{IsBelow};
ghost use Rattle.bezier_core.specs.Curves.{IsLength};
ghost use Rattle.whole_numbers.specs.Bernstein.{at};
ghost use Rattle.bezier_core.specs.Raised.{eight, raised};
ghost use Rattle.whole_numbers.specs.Limits.{most_cues, most_drones};
ghost use Rattle.traj_codec.specs.Spelling.{stored};
ghost use Rattle.traj_codec.specs.Positions.{element_on};
ghost use Rattle.fleet_curves.specs.Raised.{CurvesStandFor, IsOneShow, curves_at, curves_of, difference, less};
ghost use Rattle.fleet_curves.specs.Raised.{raised_element, raised_traj, raised_of};
ghost use Rattle.fleet_curves.specs.Steps.{AreSmallCurves, IsFormed, all_curves};

use crate::difference::Difference;
use crate::widths::{narrowed, widened_rows};
use bezier_core::Bez;
use std::alloc::{AllocError, Global};
use std::marker::Model;
use traj_codec::{Element, Segment, Traj, value_after};

/// The raised curves of a fleet: of each drone in each cue the three on x, y and z, each as the eight control values of
/// degree seven of 5,040 times the curve, in millimetres. A control value is below 2^28, so they are kept in 32 bits.
#[derive(Drop)]
pub struct Curves {
    drones: u8,
    cues: u16,
    all: Vec<[[i32; 8]; 3]>,
}

impl Model for Curves {
    ghost use Rattle.fleet_curves.specs.Raised.{Raised};
    ghost use Rattle.fleet_curves.specs.Steps.{AreHeld, all_curves};

    ghost Value = { Raised };

    ghost view = { λ c. record { drones = c.drones; cues = c.cues; curves = all_curves c.all.items } };

    ghost invariant = { λ c. AreHeld (record { drones = c.drones; cues = c.cues; curves = all_curves c.all.items }) };
}

impl Curves {
    /// The curves of trajectories of one show: 1 to 32 of them, each of the same 1 to 1,000 segments with the same
    /// durations, none of them 0. Out of memory is the only refusal.
    pub fn make(alloc: Global, trajs: &Vec<Traj>) -> Result<Curves, AllocError>
        requires { IsOneShow trajs.now.items }
        ensures stands { IfOk result (λ curves. CurvesStandFor curves trajs.now.items) }
        ensures exact { IfOk result (λ curves. curves ≡ raised_of trajs.now.items) }
    {
        Curves::of_slice(alloc, trajs.as_slice())
    }

    /// The curves of trajectories of one show that are lent as a slice. Conditions and refusal as [`Curves::make`].
    pub fn of_slice(alloc: Global, trajs: &[Traj]) -> Result<Curves, AllocError>
        requires { IsOneShow trajs.now }
        ensures stands { IfOk result (λ curves. CurvesStandFor curves trajs.now) }
        ensures exact { IfOk result (λ curves. curves ≡ raised_of trajs.now) }
    {
        let mut all = Vec::new(alloc);
        for t in trajs {
            add_traj(&mut all, t)?;
        }
        Ok(Curves {
            drones: trajs.len() as u8,
            cues: trajs[0].segments.as_slice().len() as u16,
            all,
        })
    }

    /// How many drones there are.
    pub fn drones(&self) -> usize
        ensures exact { result ≡ self.now.drones }
        ensures some { 1 ≤ result }
        ensures few { result ≤ most_drones }
    {
        self.drones as usize
    }

    /// How many cues there are.
    pub fn cues(&self) -> usize
        ensures exact { result ≡ self.now.cues }
        ensures some { 1 ≤ result }
        ensures few { result ≤ most_cues }
    {
        self.cues as usize
    }

    /// Where a drone in a cue stands in a list by drone and then by cue, all counted from 0.
    #[inline(always)]
    pub fn place(&self, drone: usize, cue: usize) -> usize
        requires drone { drone < self.now.drones }
        requires cue { cue < self.now.cues }
        ensures exact { result ≡ drone * self.now.cues + cue }
        ensures inside { result < self.now.drones * self.now.cues }
    {
        drone * self.cues as usize + cue
    }

    /// The raised curves of drone `b` less those of drone `a`, in a cue, all counted from 0. Takes no memory.
    pub fn diff(&self, a: usize, b: usize, cue: usize) -> Difference
        requires order { a < b }
        requires drones { b < self.now.drones }
        requires cue { cue < self.now.cues }
        ensures { result ≡ difference self.now a b cue }
    {
        differences(self.rows(b, cue), self.rows(a, cue))
    }

    /// The control values of a drone's raised curves in a cue, both counted from 0: a row for x, one for y and one for
    /// z, as they are kept. No control value reaches 2^28. Takes no memory.
    pub fn rows(&self, drone: usize, cue: usize) -> &[[i32; 8]; 3]
        requires drone { drone < self.now.drones }
        requires cue { cue < self.now.cues }
        ensures exact { curves_of result.now ≡ curves_at self.now drone cue }
        ensures small { All (λ curve. All (IsBelow (2 ^ 28)) curve.b) (curves_at self.now drone cue) }
    {
        &self.all[self.place(drone, cue)]
    }

    /// The raised curves of a drone in a cue, both counted from 0: on x, y and z 5,040 times the curve in millimetres.
    /// No control value reaches 2^28. Takes no memory.
    pub fn one(&self, drone: usize, cue: usize) -> [Bez<8>; 3]
        requires drone { drone < self.now.drones }
        requires cue { cue < self.now.cues }
        ensures exact { result ≡ curves_at self.now drone cue }
        ensures small { All (λ curve. All (IsBelow (2 ^ 28)) curve.b) result }
    {
        widened_rows(self.rows(drone, cue))
    }
}

fn differences(second: &[[i32; 8]; 3], first: &[[i32; 8]; 3]) -> Difference
    requires second { AreSmallCurves (curves_of second.now) }
    requires first { AreSmallCurves (curves_of first.now) }
    ensures { result ≡ less (curves_of second.now) (curves_of first.now) 0
        ∷ less (curves_of second.now) (curves_of first.now) 1 ∷ less (curves_of second.now) (curves_of first.now) 2
        ∷ [] }
{
    Difference::of_rows([
        one_less(second, first, 0),
        one_less(second, first, 1),
        one_less(second, first, 2),
    ])
}

fn value_less(second: i32, first: i32) -> i32
    requires second { IsBelow (2 ^ 28) second }
    requires first { IsBelow (2 ^ 28) first }
    ensures { result ≡ second -ℤ first }
{
    second - first
}

fn row_less(second: &[i32; 8], first: &[i32; 8]) -> [i32; 8]
    requires second { All (IsBelow (2 ^ 28)) second.now }
    requires first { All (IsBelow (2 ^ 28)) first.now }
    ensures { result ≡ eight (λ k. at second.now k -ℤ at first.now k) }
{
    let mut row = [0; 8];
    for k in 0..8 {
        row[k] = value_less(second[k], first[k]);
    }
    row
}

fn one_less(second: &[[i32; 8]; 3], first: &[[i32; 8]; 3], axis: usize) -> [i32; 8]
    requires axis { axis < 3 }
    requires second { AreSmallCurves (curves_of second.now) }
    requires first { AreSmallCurves (curves_of first.now) }
    ensures exact { record { b = result } ≡ less (curves_of second.now) (curves_of first.now) axis }
    ensures small { All (IsBelow (2 ^ 30)) result }
{
    row_less(&second[axis], &first[axis])
}

// The raised curves of one trajectory, after others.
fn add_traj(all: &mut Vec<[[i32; 8]; 3]>, t: &Traj) -> Result<(), AllocError>
    requires { All AreSmallCurves (all_curves all.old.items) }
    ensures curves { OnOk result (all_curves all.new.items ≡ all_curves all.old.items ++ raised_traj t.now) }
    ensures formed { OnOk result (All IsFormed t.now.segments) }
    ensures small { OnOk result (All AreSmallCurves (all_curves all.new.items)) }
{
    let mut x = t.start[0];
    let mut y = t.start[1];
    let mut z = t.start[2];
    for s in t.segments.as_slice() {
        all.push(narrowed_segment(x, y, z, s))?;
        x = value_after(x, s.elements[0]);
        y = value_after(y, s.elements[1]);
        z = value_after(z, s.elements[2]);
    }
    Ok(())
}

// The raised curves of one segment, in 32 bits.
fn narrowed_segment(x: i16, y: i16, z: i16, s: &Segment) -> [[i32; 8]; 3]
    ensures exact { curves_of result ≡ raised_element x (element_on s.now 0) ∷ raised_element y (element_on s.now 1)
        ∷ raised_element z (element_on s.now 2) ∷ [] }
    ensures formed { IsFormed s.now }
    ensures small { AreSmallCurves (curves_of result) }
{
    let [on_x, on_y, on_z] = raised_segment(x, y, z, s);
    [narrowed(&on_x), narrowed(&on_y), narrowed(&on_z)]
}

/// The raised curves of one segment that begins with these values, in millimetres: on x, y and z 5,040 times the curve,
/// as control values of degree seven. No control value reaches 2^28, and no element has more than seven numbers after
/// its first value.
pub fn raised_segment(x: i16, y: i16, z: i16, s: &Segment) -> [Bez<8>; 3]
    ensures exact { result ≡ raised_element x (element_on s.now 0) ∷ raised_element y (element_on s.now 1)
        ∷ raised_element z (element_on s.now 2) ∷ [] }
    ensures formed { (axis : ℕ) → axis ≤ 2 → length (stored (element_on s.now axis)) ≤ 7 }
    ensures small { All (λ curve. All (IsBelow (2 ^ 28)) curve.b) result }
{
    [
        raised(x, s.elements[0]),
        raised(y, s.elements[1]),
        raised(z, s.elements[2]),
    ]
}

/// The raised curve of an element that begins with this value: one of the three that [`raised_segment`] returns.
pub fn raised(first: i16, element: Element) -> Bez<8>
    ensures exact { result.b ≡ raised (first ∷ stored element) }
    ensures formed { length (stored element) ≤ 7 }
    ensures small { All (IsBelow (2 ^ 28)) result.b }
{
    match element {
        Element::Constant => to_eight(&Bez::<1> { b: [wide(first)] }),
        Element::Linear { v } => to_eight(&Bez::<2> {
            b: [wide(first), wide(v)],
        }),
        Element::Cubic { v } => to_eight(&Bez::<4> {
            b: row_of_four(first, v),
        }),
        Element::Seven { v } => to_eight(&Bez::<8> {
            b: row_of_eight(first, v),
        }),
    }
}

// The raised curve of short control values.
fn to_eight<const N: usize>(curve: &Bez<N>) -> Bez<8>
    requires length { IsLength N }
    requires size { length curve.now.b ≡ N }
    requires values { All (IsBelow 32769) curve.now.b }
    ensures exact { result.b ≡ raised curve.now.b }
    ensures small { All (IsBelow (2 ^ 28)) result.b }
{
    curve.to_eight()
}

macro_rules! row {
    ($first:expr, $v:expr; $($k:literal)*) => {
        [wide($first), $(wide($v[$k])),*]
    };
}

/// The control values of a cubic: the first value and the others.
pub fn row_of_four(first: i16, v: [i16; 3]) -> [i128; 4]
    ensures exact { result ≡ first ∷ v }
    ensures small { All (IsBelow 32769) result }
{
    row!(first, v; 0 1 2)
}

fn row_of_eight(first: i16, v: [i16; 7]) -> [i128; 8]
    ensures exact { result ≡ first ∷ v }
    ensures small { All (IsBelow 32769) result }
{
    row!(first, v; 0 1 2 3 4 5 6)
}

fn wide(x: i16) -> i128
    ensures exact { result ≡ x }
    ensures small { IsBelow 32769 result }
{
    x as i128
}
