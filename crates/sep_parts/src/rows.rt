//! Control values in rows of 64 bits, and their halves.

ghost use Rattle.std.specs.Prelude.{◌≡◌, ℕ, ◌^◌, ◌≤◌, All, length};
ghost use Rattle.whole_numbers.specs.Bernstein.{at};
ghost use Rattle.whole_numbers.specs.Numbers.{IsBelow};
ghost use Rattle.bezier_core.specs.Along.{controls};
ghost use Rattle.bezier_core.specs.Raised.{eight};
ghost use Rattle.fleet_curves.specs.Raised.{curves_of};
ghost use Rattle.bezier_core.specs.Part.{part_value};

use bezier_core::{Bez, halve_short};

/// The curves of three rows.
pub(crate) fn long_curves(rows: &[[i64; 8]; 3]) -> [Bez<8>; 3]
    ensures { result ≡ curves_of rows.now }
{
    [widened(&rows[0]), widened(&rows[1]), widened(&rows[2])]
}

// A curve whose control values are kept in 64 bits.
#[inline(always)]
fn widened(row: &[i64; 8]) -> Bez<8>
    ensures { result.b ≡ row.now }
{
    let mut b = [0; 8];
    for k in 0..8 {
        b[k] = row[k] as i128;
    }
    Bez { b }
}

// The control values of a curve in 64 bits.
#[inline(always)]
fn narrowed(curve: &Bez<8>) -> [i64; 8]
    requires { All (IsBelow (2 ^ 62)) curve.now.b }
    ensures { result ≡ curve.now.b }
{
    let mut row = [0; 8];
    for k in 0..8 {
        row[k] = narrow(curve.b[k]);
    }
    row
}

fn narrow(value: i128) -> i64
    requires { IsBelow (2 ^ 62) value }
    ensures { result ≡ value }
{
    value as i64
}

/// Three rows of 32 bits, in 64.
pub(crate) fn widened_rows(rows: &[[i32; 8]; 3]) -> [[i64; 8]; 3]
    ensures { result ≡ rows.now }
{
    [
        widened_row(&rows[0]),
        widened_row(&rows[1]),
        widened_row(&rows[2]),
    ]
}

fn widened_row(row: &[i32; 8]) -> [i64; 8]
    ensures { result ≡ row.now }
{
    let mut wide = [0; 8];
    for k in 0..8 {
        wide[k] = row[k] as i64;
    }
    wide
}

/// Three rows become their right halves, and others the left ones, each times 2 to the 7. One row is halved after
/// another, so that no half waits in memory.
#[inline(always)]
pub(crate) fn halve_rows(rows: &mut [[i64; 8]; 3], left: &mut [[i64; 8]; 3])
    requires { All (λ curve. All (IsBelow (2 ^ 54)) curve.b) (curves_of rows.old) }
    ensures sizes { (length left.new ≡ 3) × (length rows.new ≡ 3) }
    ensures left { (axis : ℕ) → axis ≤ 2
        → controls (curves_of left.new) axis ≡ eight (part_value 1 0 (at (controls (curves_of rows.old) axis))) }
    ensures right { (axis : ℕ) → axis ≤ 2
        → controls (curves_of rows.new) axis ≡ eight (part_value 1 1 (at (controls (curves_of rows.old) axis))) }
{
    let (x_left, x_right) = halved(&rows[0]);
    left[0] = x_left;
    rows[0] = x_right;
    let (y_left, y_right) = halved(&rows[1]);
    left[1] = y_left;
    rows[1] = y_right;
    let (z_left, z_right) = halved(&rows[2]);
    left[2] = z_left;
    rows[2] = z_right;
}

// The halves of a curve whose control values are kept in 64 bits, each times 2 to the 7.
#[inline(always)]
fn halved(row: &[i64; 8]) -> ([i64; 8], [i64; 8])
    requires { All (IsBelow (2 ^ 54)) row.now }
    ensures left { result.0 ≡ eight (part_value 1 0 (at row.now)) }
    ensures right { result.1 ≡ eight (part_value 1 1 (at row.now)) }
{
    let (left, right) = halve_short(&widened(row));
    (narrowed(&left), narrowed(&right))
}
