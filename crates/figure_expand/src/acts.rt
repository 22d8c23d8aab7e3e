//! Acts in the show's own frame.

ghost use Rattle.std.specs.Prelude.{◌≡◌, ◌^◌, pos, IsTrue};
ghost use Rattle.choreo_show.specs.Valid.{FitsFrame, FitsPoint, FitsCoordinate, FitsYaw, FitsTriple, FitsAct};
ghost use Rattle.cue_grid.specs.Frames.{applied, no_frame};
ghost use Rattle.cue_grid.specs.Grids.{FitsJob};
ghost use Rattle.figure_expand.specs.Acts.{act_in, act_of, sense_in, control_in};
ghost use Rattle.figure_expand.specs.Bounds.{IsActUpTo};

use choreo_show::{Act, Frame, Mirror, Point};
use cue_grid::{Job, apply};

// Where the frame puts a point of a show.
#[tactic(auto, using(crate::proofs::Reach::point_fits, crate::proofs::Reach::shift_fits))]
fn framed(f: &Frame, p: Point) -> Point
    requires frame { FitsFrame f.now }
    requires point { FitsPoint p }
    ensures { result ≡ applied f.now p }
{
    apply(f, p)
}

#[tactic(auto, using(crate::proofs::Reach::heading_fits))]
fn framed_yaw(f: &Frame, yaw: i64) -> i64
    requires frame { FitsFrame f.now }
    requires yaw { FitsYaw yaw }
    ensures { result ≡ (applied f.now (record { x = pos 0; y = pos 0; z = pos 0; yaw = yaw })).yaw }
{
    framed(
        f,
        Point {
            x: 0,
            y: 0,
            z: 0,
            yaw,
        },
    )
    .yaw
}

#[tactic(auto, using(crate::proofs::Reach::centre_fits))]
fn framed_centre(f: &Frame, cx: i64, cy: i64, yaw: i64) -> Point
    requires frame { FitsFrame f.now }
    requires x { FitsCoordinate cx }
    requires y { FitsCoordinate cy }
    requires yaw { FitsYaw yaw }
    ensures { result ≡ applied f.now (record { x = cx; y = cy; z = pos 0; yaw = yaw }) }
{
    framed(
        f,
        Point {
            x: cx,
            y: cy,
            z: 0,
            yaw,
        },
    )
}

#[tactic(auto, using(crate::proofs::Reach::triple_fits))]
fn framed_triple(f: &Frame, v: &[i64; 3]) -> [i64; 3]
    requires frame { FitsFrame f.now }
    requires point { FitsTriple v.now }
    ensures { result ≡ control_in f.now v.now }
{
    let p = framed(
        f,
        Point {
            x: v[0],
            y: v[1],
            z: v[2],
            yaw: 0,
        },
    );
    [p.x, p.y, p.z]
}

// The sense of an arc in the show's frame: a mirror exchanges counter-clockwise and clockwise.
fn framed_sense(mirror: Mirror, ccw: bool) -> bool
    ensures { result ≡ sense_in mirror ccw }
{
    match mirror {
        Mirror::None => ccw,
        Mirror::X => !ccw,
        Mirror::Y => !ccw,
    }
}

#[tactic(auto, using(crate::proofs::Reach::curve_fits))]
fn framed_act(f: &Frame, act: &Act) -> Act
    requires frame { FitsFrame f.now }
    requires act { FitsAct act.now }
    ensures { result ≡ act_in f.now act.now }
{
    match act {
        Act::Hold => Act::Hold,
        Act::Line { to } => Act::Line { to: framed(f, *to) },
        Act::Move { to } => Act::Move { to: framed(f, *to) },
        Act::Turn { yaw } => Act::Turn {
            yaw: framed_yaw(f, *yaw),
        },
        Act::Arc { ccw, cx, cy, yaw } => {
            let centre = framed_centre(f, *cx, *cy, *yaw);
            Act::Arc {
                ccw: framed_sense(f.mirror, *ccw),
                cx: centre.x,
                cy: centre.y,
                yaw: centre.yaw,
            }
        }
        Act::Eased {
            ease,
            ccw,
            cx,
            cy,
            yaw,
        } => {
            let centre = framed_centre(f, *cx, *cy, *yaw);
            Act::Eased {
                ease: *ease,
                ccw: framed_sense(f.mirror, *ccw),
                cx: centre.x,
                cy: centre.y,
                yaw: centre.yaw,
            }
        }
        Act::Curve { p1, p2, to } => Act::Curve {
            p1: framed_triple(f, p1),
            p2: framed_triple(f, p2),
            to: framed(f, *to),
        },
    }
}

// Whether a frame changes nothing, as that of each cue outside figures.
fn is_unmoved(f: &Frame) -> bool
    ensures { IsTrue result → f.now ≡ no_frame }
{
    matches!(f.mirror, Mirror::None) && f.turns == 0 && f.dx == 0 && f.dy == 0 && f.dz == 0
}

// The act of a job in the show's frame; its numbers are small.
#[tactic(auto, using(crate::proofs::Reach::act_small))]
pub(crate) fn act_of(job: &Job) -> Act
    requires { FitsJob job.now }
    ensures value { result ≡ act_of job.now }
    ensures small { IsActUpTo (2 ^ 28) result }
{
    if is_unmoved(&job.frame) {
        return job.act;
    }
    framed_act(&job.frame, &job.act)
}
