//! How far one drone is from another in a cue.

ghost use Rattle.std.specs.Prelude.{◌≡◌, ◌^◌, All, length};
ghost use Rattle.whole_numbers.specs.Numbers.{IsBelow};
ghost use Rattle.fleet_curves.specs.Raised.{AreRaised, curves_of};

use crate::widths::{narrowed, widened_rows};
use bezier_core::Bez;
use std::marker::Model;

/// Three curves of degree seven, on x, y and z, of which no control value reaches 2^30: such are the raised curves of
/// one drone less those of another. A contract sees the curves.
#[derive(Drop)]
pub struct Difference {
    rows: [[i32; 8]; 3],
}

impl Model for Difference {
    ghost use Rattle.std.specs.Prelude.{List};
    ghost use Rattle.bezier_core.specs.declared.Bez.{Bez};
    ghost use Rattle.fleet_curves.specs.Raised.{AreRaised, curves_of};

    ghost Value = { List (Bez 8) };

    ghost view = { λ d. curves_of d.rows };

    ghost invariant = { λ d. AreRaised (curves_of d.rows) };
}

impl Difference {
    /// These curves.
    pub fn make(curves: [Bez<8>; 3]) -> Difference
        requires { All (λ curve. All (IsBelow (2 ^ 30)) curve.b) curves }
        ensures { result ≡ curves }
    {
        Difference::of_rows([
            narrowed(&curves[0]),
            narrowed(&curves[1]),
            narrowed(&curves[2]),
        ])
    }

    /// The curves of these rows.
    pub fn of_rows(rows: [[i32; 8]; 3]) -> Difference
        requires { All (λ row. All (IsBelow (2 ^ 30)) row) rows }
        ensures { result ≡ curves_of rows }
    {
        sizes_law(&rows);
        Difference { rows }
    }

    /// The curves.
    pub fn curves(&self) -> [Bez<8>; 3]
        ensures { result ≡ self.now }
    {
        widened_rows(&self.rows)
    }

    /// The control values of the curves: a row for x, one for y and one for z.
    pub fn rows(&self) -> &[[i32; 8]; 3]
        ensures { curves_of result.now ≡ self.now }
    {
        &self.rows
    }

    /// A law: there are three curves of eight control values, and none of these reaches 2^30.
    pub fn raised_law(&self)
        ensures { AreRaised self.now }
    {
        let _rows = &self.rows;
    }
}

// A law: each of three rows has eight numbers.
fn sizes_law(rows: &[[i32; 8]; 3])
    ensures { All (λ row. length row ≡ 8) rows.now }
{
    size_law(rows[0]);
    size_law(rows[1]);
    size_law(rows[2]);
}

// A law: eight numbers are eight.
fn size_law(row: [i32; 8])
    ensures { length row ≡ 8 }
{}
