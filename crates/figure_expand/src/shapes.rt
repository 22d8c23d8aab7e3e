//! The control values of acts, and where they end.

ghost use Rattle.std.specs.Prelude.{◌≡◌, ◌≤◌, ◌^◌, ◌+ℤ◌, ◌-ℤ◌, neg_ℤ, ◌∷◌, [], map, if◌then◌else◌};
ghost use Rattle.std.specs.List.{All};
ghost use Rattle.mm_rounding.specs.declared.piece.Axis.TheVariants.{One, Two, Four, Eight};
ghost use Rattle.choreo_show.specs.declared.parts.Act.TheVariants as act;
ghost use Rattle.cue_grid.specs.Frames.{IsUpTo, IsPointUpTo};
ghost use Rattle.figure_expand.specs.Acts.{handle, arc_points, shares, millionths, eased_point, eased_points};
ghost use Rattle.figure_expand.specs.Controls.{axes_of};
ghost use Rattle.figure_expand.specs.Written.{from_rest, forty_seconds, squares, squares_left, yaw_in, yaw_out};
ghost use Rattle.figure_expand.specs.Written.{eased_yaw, end_of};
ghost use Rattle.figure_expand.specs.Bounds.{IsActUpTo, AreSmall};
ghost use Rattle.figure_expand.specs.Steps.{IsQuarterSmall, quarter_on};

use choreo_show::{Act, Ease, Point};
use mm_rounding::Axis;

// The handles of a quarter arc are 0.552285 times as long as its radius; in millionths.
const HANDLE: i64 = 552_285;

const MILLION: i64 = 1_000_000;

// A quarter arc's handle for one coordinate of a radius, rounded to the nearest whole number.
fn handle(s: i64) -> i64
    requires { IsUpTo (2 ^ 41) s }
    ensures value { result ≡ handle s }
    ensures small { IsUpTo (2 ^ 41) result }
{
    (HANDLE * s + MILLION / 2).div_euclid(MILLION)
}

// A quarter circle on one axis: the present value, the centre, and the ways from there to the start and to the end.
#[derive(Clone, Copy)]
pub(crate) struct Quarter {
    present: i64,
    centre: i64,
    first: i64,
    last: i64,
}

fn arc_points(q: &Quarter) -> [i64; 4]
    requires { IsQuarterSmall q.now }
    ensures { result ≡ arc_points q.now.present q.now.centre q.now.first q.now.last }
{
    let first = handle(q.last);
    let second = handle(q.first);
    [
        q.present,
        q.present + first,
        q.centre + q.last + second,
        q.centre + q.last,
    ]
}

// From the centre to a coordinate of the present point.
fn way(present: i64, centre: i64) -> i64
    requires present { IsUpTo (2 ^ 40) present }
    requires centre { IsUpTo (2 ^ 28) centre }
    ensures value { result ≡ present -ℤ centre }
    ensures small { IsUpTo (2 ^ 41) result }
{
    present - centre
}

// A way, or the same way back.
fn turned(back: bool, way: i64) -> i64
    requires { IsUpTo (2 ^ 41) way }
    ensures value { result ≡ (if back then neg_ℤ way else way) }
    ensures small { IsUpTo (2 ^ 41) result }
{
    if back { -way } else { way }
}

// The quarter circle from the present point around a centre, on x and on y.
fn quarters(p: &Point, ccw: bool, cx: i64, cy: i64) -> [Quarter; 2]
    requires point { IsPointUpTo (2 ^ 40) p.now }
    requires x { IsUpTo (2 ^ 28) cx }
    requires y { IsUpTo (2 ^ 28) cy }
    ensures exact { result ≡ quarter_on p.now ccw cx cy 0 ∷ quarter_on p.now ccw cx cy 1 ∷ [] }
    ensures small { All IsQuarterSmall result }
{
    let vx = way(p.x, cx);
    let vy = way(p.y, cy);
    let x = Quarter {
        present: p.x,
        centre: cx,
        first: vx,
        last: turned(ccw, vy),
    };
    let y = Quarter {
        present: p.y,
        centre: cy,
        first: vy,
        last: turned(!ccw, vx),
    };
    [x, y]
}

fn last_point(q: &Quarter) -> i64
    requires { IsQuarterSmall q.now }
    ensures { result ≡ q.now.centre +ℤ q.now.last }
{
    q.centre + q.last
}

// How many millionths of the way from the centre to the start, and of the way from the centre to the end, are in each
// of the eight control points of an eased arc (docs/TRAJECTORY.md, "The eased quarter circles").
const SWING: [(u32, u32); 8] = [
    (1_000_000, 0),
    (1_000_000, 0),
    (1_000_000, 0),
    (1_063_179, 696_647),
    (696_647, 1_063_179),
    (0, 1_000_000),
    (0, 1_000_000),
    (0, 1_000_000),
];

const ARC_IN: [(u32, u32); 8] = [
    (1_000_000, 0),
    (1_000_000, 0),
    (1_000_144, 114_406),
    (993_507, 186_897),
    (974_935, 507_934),
    (785_073, 741_519),
    (473_387, 1_000_000),
    (0, 1_000_000),
];

const ARC_OUT: [(u32, u32); 8] = [
    (1_000_000, 0),
    (1_000_000, 473_387),
    (741_519, 785_073),
    (507_934, 974_935),
    (186_897, 993_507),
    (114_406, 1_000_144),
    (0, 1_000_000),
    (0, 1_000_000),
];

#[tactic(auto, using(crate::proofs::Eased::shares_small))]
fn shares(ease: Ease) -> &'static [(u32, u32); 8]
    ensures value { result.now ≡ shares ease }
    ensures small { All AreSmall result.now }
{
    match ease {
        Ease::InOut => &SWING,
        Ease::In => &ARC_IN,
        Ease::Out => &ARC_OUT,
    }
}

// Millionths of a number, rounded to the nearest whole number.
fn millionths(share: u32, s: i64) -> i64
    requires share { share ≤ 2_000_000 }
    requires number { IsUpTo (2 ^ 41) s }
    ensures value { result ≡ millionths share s }
    ensures small { IsUpTo (2 ^ 43) result }
{
    (i64::from(share) * s + MILLION / 2).div_euclid(MILLION)
}

fn eased_point(q: &Quarter, share: &(u32, u32)) -> i64
    requires quarter { IsQuarterSmall q.now }
    requires share { AreSmall share.now }
    ensures { result ≡ eased_point q.now.centre q.now.first q.now.last share.now }
{
    let first = millionths(share.0, q.first);
    let second = millionths(share.1, q.last);
    q.centre + first + second
}

fn eased_points(ease: Ease, q: &Quarter) -> [i64; 8]
    requires { IsQuarterSmall q.now }
    ensures { result ≡ eased_points ease q.now.centre q.now.first q.now.last }
{
    let table = shares(ease);
    let mut points = [0; 8];
    for k in 0..8 {
        points[k] = eased_point(q, &table[k]);
    }
    points
}

fn still(v: i64) -> Axis
    ensures { result ≡ One v }
{
    Axis::One { v }
}

fn even(from: i64, to: i64) -> Axis
    ensures { result ≡ Two (from ∷ to ∷ []) }
{
    Axis::Two { v: [from, to] }
}

// Straight, from rest to rest.
fn rest(from: i64, to: i64) -> Axis
    ensures { result ≡ Eight (from_rest from to) }
{
    Axis::Eight {
        v: [from, from, from, from, to, to, to, to],
    }
}

// The control points of u^2 in degree seven, in forty-seconds, and those of (1 - u)^2.
const SQUARES: [u16; 8] = [0, 0, 2, 6, 12, 20, 30, 42];

const SQUARES_LEFT: [u16; 8] = [42, 30, 20, 12, 6, 2, 0, 0];

fn squares() -> &'static [u16; 8]
    ensures { result.now ≡ squares }
{
    &SQUARES
}

fn squares_left() -> &'static [u16; 8]
    ensures { result.now ≡ squares_left }
{
    &SQUARES_LEFT
}

// Forty-seconds of a number, rounded to the nearest whole number.
fn forty_seconds(n: u16, s: i64) -> i64
    requires { IsUpTo (2 ^ 42) s }
    ensures value { result ≡ forty_seconds n s }
    ensures small { IsUpTo (2 ^ 58) result }
{
    (i64::from(n) * s + 21).div_euclid(42)
}

fn turn(d: i64, e: i64) -> i64
    requires d { IsUpTo (2 ^ 40) d }
    requires e { IsUpTo (2 ^ 28) e }
    ensures value { result ≡ e -ℤ d }
    ensures small { IsUpTo (2 ^ 42) result }
{
    e - d
}

// A control point of the yaw from rest at D into an arc to E.
fn yaw_in(d: i64, e: i64, n: u16) -> i64
    requires d { IsUpTo (2 ^ 40) d }
    requires e { IsUpTo (2 ^ 28) e }
    ensures { result ≡ yaw_in d e n }
{
    let turned = forty_seconds(n, turn(d, e));
    d + turned
}

// A control point of the yaw from D in an arc to rest at E.
fn yaw_out(d: i64, e: i64, n: u16) -> i64
    requires d { IsUpTo (2 ^ 40) d }
    requires e { IsUpTo (2 ^ 28) e }
    ensures { result ≡ yaw_out d e n }
{
    let left = forty_seconds(n, turn(d, e));
    e - left
}

// The yaw from rest at D into an arc to E: slowly at first, then faster and faster.
fn yaws_in(d: i64, e: i64) -> [i64; 8]
    requires d { IsUpTo (2 ^ 40) d }
    requires e { IsUpTo (2 ^ 28) e }
    ensures { result ≡ map (yaw_in d e) squares }
{
    let table = squares();
    let mut points = [0; 8];
    for k in 0..8 {
        points[k] = yaw_in(d, e, table[k]);
    }
    points
}

// The yaw from D in an arc to rest at E: slower and slower.
fn yaws_out(d: i64, e: i64) -> [i64; 8]
    requires d { IsUpTo (2 ^ 40) d }
    requires e { IsUpTo (2 ^ 28) e }
    ensures { result ≡ map (yaw_out d e) squares_left }
{
    let table = squares_left();
    let mut points = [0; 8];
    for k in 0..8 {
        points[k] = yaw_out(d, e, table[k]);
    }
    points
}

fn eased_yaw(ease: Ease, d: i64, e: i64) -> Axis
    requires d { IsUpTo (2 ^ 40) d }
    requires e { IsUpTo (2 ^ 28) e }
    ensures { result ≡ Eight (eased_yaw ease d e) }
{
    match ease {
        Ease::InOut => rest(d, e),
        Ease::In => Axis::Eight { v: yaws_in(d, e) },
        Ease::Out => Axis::Eight { v: yaws_out(d, e) },
    }
}

fn curve(from: i64, first: i64, second: i64, to: i64) -> Axis
    ensures { result ≡ Four (from ∷ first ∷ second ∷ to ∷ []) }
{
    Axis::Four {
        v: [from, first, second, to],
    }
}

/// The control values of x, y, z and yaw of an act in the show's frame, from the present point.
pub(crate) fn axes(p: &Point, act: &Act) -> [Axis; 4]
    requires point { IsPointUpTo (2 ^ 40) p.now }
    requires act { IsActUpTo (2 ^ 28) act.now }
    ensures { result ≡ axes_of p.now act.now }
{
    match act {
        Act::Hold => [still(p.x), still(p.y), still(p.z), still(p.yaw)],
        Act::Line { to } => [
            even(p.x, to.x),
            even(p.y, to.y),
            even(p.z, to.z),
            even(p.yaw, to.yaw),
        ],
        Act::Move { to } => [
            rest(p.x, to.x),
            rest(p.y, to.y),
            rest(p.z, to.z),
            rest(p.yaw, to.yaw),
        ],
        Act::Turn { yaw } => [still(p.x), still(p.y), still(p.z), rest(p.yaw, *yaw)],
        Act::Arc { ccw, cx, cy, yaw } => {
            let [x, y] = quarters(p, *ccw, *cx, *cy);
            [
                Axis::Four { v: arc_points(&x) },
                Axis::Four { v: arc_points(&y) },
                still(p.z),
                even(p.yaw, *yaw),
            ]
        }
        Act::Eased {
            ease,
            ccw,
            cx,
            cy,
            yaw,
        } => {
            let [x, y] = quarters(p, *ccw, *cx, *cy);
            [
                Axis::Eight {
                    v: eased_points(*ease, &x),
                },
                Axis::Eight {
                    v: eased_points(*ease, &y),
                },
                still(p.z),
                eased_yaw(*ease, p.yaw, *yaw),
            ]
        }
        Act::Curve { p1, p2, to } => [
            curve(p.x, p1[0], p2[0], to.x),
            curve(p.y, p1[1], p2[1], to.y),
            curve(p.z, p1[2], p2[2], to.z),
            even(p.yaw, to.yaw),
        ],
    }
}

// Where a quarter circle ends, from the present point: an eased one ends where `arc` does.
fn arc_end(p: &Point, ccw: bool, cx: i64, cy: i64, yaw: i64) -> Point
    requires point { IsPointUpTo (2 ^ 40) p.now }
    requires x { IsUpTo (2 ^ 28) cx }
    requires y { IsUpTo (2 ^ 28) cy }
    ensures { result ≡ end_of p.now (act.Arc ccw cx cy yaw) }
{
    let [x, y] = quarters(p, ccw, cx, cy);
    Point {
        x: last_point(&x),
        y: last_point(&y),
        z: p.z,
        yaw,
    }
}

/// Where an act in the show's frame ends, from the present point.
#[tactic(auto, unfolding(crate::specs::Written::end_of))]
pub(crate) fn end_of(p: &Point, act: &Act) -> Point
    requires point { IsPointUpTo (2 ^ 40) p.now }
    requires act { IsActUpTo (2 ^ 28) act.now }
    ensures { result ≡ end_of p.now act.now }
{
    match act {
        Act::Hold => *p,
        Act::Line { to } => *to,
        Act::Move { to } => *to,
        Act::Turn { yaw } => Point {
            x: p.x,
            y: p.y,
            z: p.z,
            yaw: *yaw,
        },
        Act::Arc { ccw, cx, cy, yaw } => arc_end(p, *ccw, *cx, *cy, *yaw),
        Act::Eased {
            ccw,
            cx,
            cy,
            yaw,
            ..
        } => arc_end(p, *ccw, *cx, *cy, *yaw),
        Act::Curve { to, .. } => *to,
    }
}
