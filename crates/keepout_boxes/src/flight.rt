//! How far drones come in the whole show.

ghost use Rattle.std.specs.Prelude.{◌≡◌, ◌<◌, ◌≤ℤ◌};
ghost use Rattle.whole_numbers.specs.Bernstein.{at};
ghost use Rattle.keepout_boxes.specs.Steps.{Covers, CoverAll, IsWider};

use bezier_core::Bez;
use fleet_curves::Curves;
use whole_numbers::MOST_DRONES;

/// Of each drone of a show its flight's box.
pub type Boxes = [[Bez<8>; 3]; MOST_DRONES];

// Two control values.
#[derive(Clone, Copy)]
pub struct Ends {
    low: i128,
    high: i128,
}

/// The box of each drone's flight: on each axis the least of all control values of its cues, and then the greatest.
/// Takes no memory.
pub fn boxes_of(curves: &Curves) -> Boxes
    ensures { CoverAll curves.now result curves.now.drones }
{
    let mut boxes = [[Bez { b: [0; 8] }; 3]; MOST_DRONES];
    for drone in 0..curves.drones() {
        boxes[drone] = box_of(curves, drone);
    }
    boxes
}

fn box_of(curves: &Curves, drone: usize) -> [Bez<8>; 3]
    requires { drone < curves.now.drones }
    ensures { Covers curves.now drone result curves.now.cues }
{
    let mut x = nowhere();
    let mut y = nowhere();
    let mut z = nowhere();
    for cue in 0..curves.cues() {
        let part = curves.one(drone, cue);
        x = wider(x, &part[0]);
        y = wider(y, &part[1]);
        z = wider(z, &part[2]);
    }
    [row(x), row(y), row(z)]
}

// Ends with nothing between them.
fn nowhere() -> Ends {
    Ends {
        low: i128::MAX,
        high: i128::MIN,
    }
}

// Ends that lie as far out, and have each control value of a curve between them.
fn wider(ends: Ends, curve: &Bez<8>) -> Ends
    ensures { IsWider ends.low ends.high (at curve.now.b) result.low result.high }
{
    let mut low = ends.low;
    let mut high = ends.high;
    for k in 0..8 {
        low = lesser(low, curve.b[k]);
        high = greater(high, curve.b[k]);
    }
    Ends { low, high }
}

fn lesser(a: i128, b: i128) -> i128
    ensures first { result ≤ℤ a }
    ensures second { result ≤ℤ b }
{
    if a < b { a } else { b }
}

fn greater(a: i128, b: i128) -> i128
    ensures first { a ≤ℤ result }
    ensures second { b ≤ℤ result }
{
    if a < b { b } else { a }
}

// A row of control values that are these two.
fn row(ends: Ends) -> Bez<8>
    ensures low { at result.b 0 ≡ ends.low }
    ensures high { at result.b 1 ≡ ends.high }
{
    let Ends { low, high } = ends;
    Bez {
        b: [low, high, high, high, high, high, high, high],
    }
}
