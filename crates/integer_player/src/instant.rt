//! An instant of a segment, with what every curve of every drone needs there.

ghost use Rattle.std.specs.Prelude.{IsTrue, ◌≡◌, ◌^◌, ◌≤◌, [], ◌∷◌};
ghost use Rattle.whole_numbers.specs.Numbers.{IsBelow};
ghost use Rattle.integer_player.specs.Played.{curve_floor};

use crate::curve::{centred, curve, shifted};
use crate::quick::{narrowed, quick_floor};
use crate::weights::{powers, weights};
use std::marker::Model;

// The part `a / c` of the segment with the number `cue`, with the weights of all control values there.
// It serves each drone that is in this part of a segment with this number.
#[derive(Drop)]
pub(crate) struct Instant {
    cue: usize,
    a: u64,
    c: u64,
    linear: [u128; 2],
    cubic: [u128; 4],
    seven: [u128; 8],
    cube: u128,
    seventh: u128,
    tops: [u64; 8],
    top: u64,
    inverse: u64,
}

impl Model for Instant {
    ghost use Rattle.std.specs.Prelude.{◌+◌, ◌*◌, ◌^◌, ◌≤◌};
    ghost use Rattle.whole_numbers.specs.Moments.{Moment};
    ghost use Rattle.integer_player.specs.Weights.{IsWeighed, IsNarrowed};

    ghost Value = { Moment };

    ghost view = { λ i. record { cue = i.cue; a = i.a; c = i.c } };

    ghost invariant = { λ i. IsWeighed i.a i.c i.linear i.cubic i.seven i.cube i.seventh
        × IsNarrowed i.seven i.seventh i.tops i.top × (i.inverse * (i.top + 1) ≤ 2 ^ 64) };
}

impl Instant {
    pub(crate) fn make(cue: usize, a: u16, c: u16) -> Instant
        requires some { 1 ≤ c }
        requires within { a ≤ c }
        ensures { result ≡ record { cue = cue; a = a; c = c } }
    {
        let a = a as u64;
        let c = c as u64;
        let of_c = powers::<8>(c);
        let seven = weights(&[1, 7, 21, 35, 35, 21, 7, 1], a, c - a);
        let (tops, top) = narrowed(&seven, of_c[7]);
        Instant {
            cue,
            a,
            c,
            linear: weights(&[1, 1], a, c - a),
            cubic: weights(&[1, 3, 3, 1], a, c - a),
            seven,
            cube: of_c[3],
            seventh: of_c[7],
            tops,
            top,
            inverse: u64::MAX / (top + 1),
        }
    }

    // Whether it is this part of a segment with this number.
    pub(crate) fn is_part(&self, cue: usize, a: u64, c: u64) -> bool
        ensures { IsTrue result → self.now ≡ record { cue = cue; a = a; c = c } }
    {
        self.cue == cue && self.a == a && self.c == c
    }

    // `scale` parts of a value that stays.
    pub(crate) fn on_constant(&self, first: i16, scale: u64) -> i64
        requires { scale ≤ 1000 }
        ensures value { result ≡ curve_floor scale (first ∷ []) self.now }
        ensures small { IsBelow (10 ^ 9) result }
    {
        let _ = &self.c;
        first as i64 * scale as i64
    }

    // `scale` parts of a straight line's value here, rounded down.
    pub(crate) fn on_line(&self, b: &[i16; 2], scale: u64) -> i64
        requires { scale ≤ 1000 }
        ensures value { result ≡ curve_floor scale b.now self.now }
        ensures small { IsBelow (10 ^ 9) result }
    {
        curve(&self.linear, &shifted(b), self.c as u128, scale)
    }

    // `scale` parts of a cubic curve's value here, rounded down.
    pub(crate) fn on_cubic(&self, b: &[i16; 4], scale: u64) -> i64
        requires { scale ≤ 1000 }
        ensures value { result ≡ curve_floor scale b.now self.now }
        ensures small { IsBelow (10 ^ 9) result }
    {
        curve(&self.cubic, &shifted(b), self.cube, scale)
    }

    // `scale` parts of the value here of a curve of degree seven, rounded down.
    pub(crate) fn on_seven(&self, b: &[i16; 8], scale: u64) -> i64
        requires { scale ≤ 1000 }
        ensures value { result ≡ curve_floor scale b.now self.now }
        ensures small { IsBelow (10 ^ 9) result }
    {
        let points = shifted(b);
        match quick_floor(&self.tops, self.top, self.inverse, &points, scale) {
            Some(floor) => centred(floor, scale),
            None => curve(&self.seven, &points, self.seventh, scale),
        }
    }
}
