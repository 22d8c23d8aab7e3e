//! Control values in rows of 32 bits.

ghost use Rattle.std.specs.Prelude.{◌≡◌, ◌^◌, All};
ghost use Rattle.whole_numbers.specs.Numbers.{IsBelow};
ghost use Rattle.fleet_curves.specs.Raised.{curves_of};

use bezier_core::Bez;

/// The curves of three rows.
pub(crate) fn widened_rows(rows: &[[i32; 8]; 3]) -> [Bez<8>; 3]
    ensures { result ≡ curves_of rows.now }
{
    [widened(&rows[0]), widened(&rows[1]), widened(&rows[2])]
}

// A curve whose control values are kept in 32 bits.
fn widened(row: &[i32; 8]) -> Bez<8>
    ensures { result.b ≡ row.now }
{
    let mut b = [0; 8];
    for k in 0..8 {
        b[k] = row[k] as i128;
    }
    Bez { b }
}

/// The control values of a curve in 32 bits.
pub(crate) fn narrowed(curve: &Bez<8>) -> [i32; 8]
    requires { All (IsBelow (2 ^ 30)) curve.now.b }
    ensures { result ≡ curve.now.b }
{
    let mut row = [0; 8];
    for k in 0..8 {
        row[k] = narrow(curve.b[k]);
    }
    row
}

fn narrow(value: i128) -> i32
    requires { IsBelow (2 ^ 30) value }
    ensures { result ≡ value }
{
    value as i32
}
