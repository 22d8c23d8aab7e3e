//! Whole holds that follow each other, joined from the left.

ghost use Rattle.std.specs.Prelude.{◌≡◌, ◌≤◌, ◌++◌, List, length, All, IfOk, OnOk};
ghost use Rattle.whole_numbers.specs.Limits.{most_cues};
ghost use Rattle.traj_codec.specs.declared.traj.Segment.{Segment};
ghost use Rattle.traj_codec.specs.Spelling.{HasDuration};
ghost use Rattle.traj_codec.specs.Joined.{GroupLaw, JoinLaw, SameCurve, hold, is_hold, joined, next_held, put_held};
ghost use Rattle.traj_codec.specs.Joined.{put_next, stays};

use crate::{Element, Segment, Traj};
use listed::Listed;
use std::alloc::{AllocError, Global};

/// A law: a trajectory with its holds joined is the same curve, as long, with no more segments; and the holds are
/// joined from the left.
pub fn join_law()
    ensures curve { JoinLaw }
    ensures groups { GroupLaw }
{}

/// The trajectory with whole holds that follow each other joined from the left, as long as they last at most 65,535 ms
/// together. It is the same curve. Out of memory is the only refusal.
pub fn join_holds(alloc: Global, t: &Traj) -> Result<Traj, AllocError>
    requires some { 1 ≤ length t.now.segments }
    requires few { length t.now.segments ≤ most_cues }
    requires last { All HasDuration t.now.segments }
    ensures exact { IfOk result (λ u. u ≡ joined t.now) }
    ensures same { IfOk result (λ u. SameCurve t.now u) }
{
    let mut segments = Vec::new(alloc);
    let mut held = 0;
    for s in t.segments.as_slice() {
        held = put_next(&mut segments, held, s)?;
    }
    put_held(&mut segments, held)?;
    Ok(Traj {
        start: t.start,
        segments: Listed::from_vec(segments),
    })
}

// A segment after the holds in front; it returns how long those last that stand in front of what follows.
fn put_next(segments: &mut Vec<Segment>, held: u16, s: &Segment) -> Result<u16, AllocError>
    ensures put { OnOk result
        ((later : List Segment) → segments.new.items ++ later ≡ segments.old.items ++ put_next held s.now later) }
    ensures held { IfOk result (λ n. n ≡ next_held held s.now) }
{
    let together = u32::from(held) + u32::from(s.ms);
    if !is_hold(s) {
        put_held(segments, held)?;
        segments.push(*s)?;
        return Ok(0);
    }
    if together <= 65535 {
        return Ok(together as u16);
    }
    put_held(segments, held)?;
    Ok(s.ms)
}

fn put_held(segments: &mut Vec<Segment>, held: u16) -> Result<(), AllocError>
    ensures { OnOk result
        ((later : List Segment) → segments.new.items ++ later ≡ segments.old.items ++ put_held held later) }
{
    if held > 0 {
        segments.push(hold(held))?;
    }
    Ok(())
}

// Whether a segment is a whole hold.
fn is_hold(s: &Segment) -> bool
    ensures { result ≡ is_hold s.now }
{
    s.elements.iter().all(|element| stays(*element))
}

fn stays(element: Element) -> bool
    ensures { result ≡ stays element }
{
    matches!(element, Element::Constant)
}

fn hold(ms: u16) -> Segment
    ensures { result ≡ hold ms }
{
    Segment {
        ms,
        elements: [Element::Constant; 4],
    }
}
