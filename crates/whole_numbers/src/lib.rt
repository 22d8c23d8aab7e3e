//! Whole numbers and Bernstein sums: what every crate above computes with, and how it says what it computed.
//!
//! The functions are exact on 128 bits. The definitions, over whole numbers without a bound, are those that clauses
//! everywhere cite: sums, powers and bounds, Bernstein sums of control values, where an instant lies in a row of
//! durations, the exact position of a trajectory there, and when two positions are near. The limits that several crates
//! share are constants and definitions here. It stands on no other crate.
#![tactic(auto)]

ghost use Rattle.std.specs.Prelude.{◌≡◌, ◌+◌, ◌<◌, ◌≤◌, ℕ, List, length, All, ℤ, pos, ◌^◌, ◌-ℤ◌, ◌*ℤ◌, ◌<ℤ◌, ◌≤ℤ◌};
ghost use Rattle.std.specs.Int.{int_max};
ghost use Rattle.whole_numbers.specs.Numbers.{IsBelow};
ghost use Rattle.whole_numbers.specs.Moments.{moment, moment_in, edge};
ghost use Rattle.whole_numbers.specs.Decoded.{Piece, IsPiece, durations, IsSamePosition};
ghost use Rattle.whole_numbers.specs.Near.{NearLaw};

mod depth;
mod fine;
mod limits;

pub use depth::Depth;
pub use fine::Fine;
pub use limits::{
    MOST_CUES, MOST_DEPTH, MOST_DRONES, MOST_FINE, MOST_SEGMENTS, MOST_TEXT, limits_law,
};

/// The floor of a quotient: the greatest whole number whose product with `b` is at most `a`. Rust's `/` rounds toward
/// 0 instead, which differs where `a` is negative.
pub fn floor_div(a: i128, b: i128) -> i128
    requires { pos 0 <ℤ b }
    ensures below { (result *ℤ b) ≤ℤ a }
    ensures greatest { (q : ℤ) → (q *ℤ b) ≤ℤ a → q ≤ℤ result }
{
    let quotient = a / b;
    if a % b < 0 { quotient - 1 } else { quotient }
}

// No number below 2 to the 100 has its root above this.
const ROOT_LIMIT: i128 = 1 << 50;

/// The least number that is not negative and whose square is above `v`, by halving the interval that has it.
pub fn least_root_above(v: i128) -> i128
    requires not_negative { pos 0 ≤ℤ v }
    requires small { v <ℤ pos (2 ^ 100) }
    ensures not_negative { pos 0 ≤ℤ result }
    ensures above { v <ℤ (result *ℤ result) }
    ensures least { (t : ℤ) → pos 0 ≤ℤ t → v <ℤ (t *ℤ t) → result ≤ℤ t }
{
    let mut low = 0;
    let mut high = ROOT_LIMIT;
    while high - low > 1 {
        let middle = (low + high) / 2;
        if middle * middle <= v {
            low = middle;
        } else {
            high = middle;
        }
    }
    high
}

/// How far apart two numbers are: the greater of `a - b` and `b - a`.
pub fn abs_diff(a: i128, b: i128) -> i128
    requires a { IsBelow (2 ^ 126) a }
    requires b { IsBelow (2 ^ 126) b }
    ensures { result ≡ int_max (a -ℤ b) (b -ℤ a) }
{
    if a < b { b - a } else { a - b }
}

/// A law. At an edge, the instant with which a piece ends and the next one begins, both pieces give the same position.
///
/// The instant is a fraction with any denominator `q`. By `moment` it belongs to the piece that ends there.
pub fn edge_law()
    ensures belongs { (pieces : List Piece) (cue q : ℕ)
        → All IsPiece pieces → cue < length pieces → 1 ≤ q
        → moment (durations pieces) (edge (durations pieces) cue q) q
        ≡ moment_in (durations pieces) cue (edge (durations pieces) cue q) q }
    ensures same { (start : ℤ) (pieces : List Piece) (cue q : ℕ)
        → All IsPiece pieces → cue + 1 < length pieces
        → IsSamePosition start pieces
        (moment_in (durations pieces) cue (edge (durations pieces) cue q) q)
        (moment_in (durations pieces) (cue + 1) (edge (durations pieces) cue q) q) }
{}

/// A law. What is near by one segment is near by another that makes the same curve.
pub fn near_law()
    ensures { NearLaw }
{}
