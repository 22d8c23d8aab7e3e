//! The room of a flight.

ghost use Rattle.std.specs.Prelude.{◌≡◌, ◌<◌, ◌++◌, None, Some};
ghost use Rattle.std.specs.List.{flat_map};
ghost use Rattle.whole_numbers.specs.Bernstein.{at};
ghost use Rattle.traj_codec.specs.Positions.{element_on as word_on};
ghost use Rattle.traj_codec.specs.Spelling.{stored};
ghost use Rattle.traj_codec.specs.declared.traj.Segment.{Segment as SegmentWord};
ghost use Rattle.flight_model.specs.Rooms.{all_values, room_of as word_room, span_of as word_span, values_on};
ghost use Rattle.flight_steps.specs.Steps.{with_more, with_one};

use flight_model::{Room, Span};
use traj_codec::{Element, Segment, Traj};

// The span of a value more than those of a span, if there is one.
fn with_value(s: Option<Span>, v: i16) -> Option<Span>
    ensures { result ≡ Some (with_one s v) }
{
    match s {
        None => Some(Span { low: v, high: v }),
        Some(s) => Some(Span {
            low: s.low.min(v),
            high: s.high.max(v),
        }),
    }
}

fn with_values(s: Option<Span>, vs: &[i16]) -> Option<Span>
    ensures { result ≡ with_more s vs.now }
{
    let mut all = s;
    for v in vs {
        all = with_value(all, *v);
    }
    all
}

fn with_element(s: Option<Span>, e: &Element) -> Option<Span>
    ensures { result ≡ with_more s (stored e.now) }
{
    match e {
        Element::Constant => s,
        Element::Linear { v } => with_value(s, *v),
        Element::Cubic { v } => with_values(s, v),
        Element::Seven { v } => with_values(s, v),
    }
}

fn element_on(s: &Segment, axis: usize) -> Element
    requires { axis < 4 }
    ensures { result ≡ word_on s.now axis }
{
    s.elements[axis]
}

fn with_segments(s: Option<Span>, segments: &[Segment], axis: usize) -> Option<Span>
    requires { axis < 4 }
    ensures { result ≡ with_more s (flat_map (λ (g : SegmentWord). stored (word_on g axis)) segments.now) }
{
    let mut all = s;
    for g in segments {
        all = with_element(all, &element_on(g, axis));
    }
    all
}

fn start_on(t: &Traj, axis: usize) -> i16
    requires { axis < 4 }
    ensures { result ≡ at t.now.start axis }
{
    t.start[axis]
}

// With all control points of a curve on an axis.
fn with_curve(s: Option<Span>, t: &Traj, axis: usize) -> Option<Span>
    requires { axis < 4 }
    ensures { result ≡ with_more s (values_on axis t.now) }
{
    let s = with_value(s, start_on(t, axis));
    with_segments(s, t.segments.as_slice(), axis)
}

fn with_curves(s: Option<Span>, curves: &[Traj], axis: usize) -> Option<Span>
    requires { axis < 4 }
    ensures { result ≡ with_more s (all_values axis curves.now) }
{
    let mut all = s;
    for t in curves {
        all = with_curve(all, t, axis);
    }
    all
}

// From the least control point of three lists of curves on an axis to the greatest.
fn span_of(up: &[Traj], show: &[Traj], down: &[Traj], axis: usize) -> Span
    requires { axis < 4 }
    ensures { result ≡ word_span (all_values axis (up.now ++ (show.now ++ down.now))) }
{
    let s = with_curves(with_curves(None, up, axis), show, axis);
    with_curves(s, down, axis).unwrap_or(Span { low: 0, high: 0 })
}

/// The room of the curves of a way up, a show and a way down, with a margin in millimetres.
#[tactic(auto, unfolding(flight_model::specs::Rooms::room_of))]
pub fn room_of(margin: u32, up: &[Traj], show: &[Traj], down: &[Traj]) -> Room
    ensures { result ≡ word_room margin (up.now ++ (show.now ++ down.now)) }
{
    Room {
        x: span_of(up, show, down, 0),
        y: span_of(up, show, down, 1),
        z: span_of(up, show, down, 2),
        margin,
    }
}
