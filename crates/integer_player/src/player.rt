//! Where a drone is at an instant.

ghost use Rattle.std.specs.Prelude.{◌≡◌, ℕ, ◌+◌, ◌^◌, ◌<◌, ◌≤◌, ◌∷◌, All, length, nat_lt};
ghost use Rattle.whole_numbers.specs.Bernstein.{at};
ghost use Rattle.whole_numbers.specs.Numbers.{IsBelow};
ghost use Rattle.traj_codec.specs.declared.traj.Traj.{Traj};
ghost use Rattle.traj_codec.specs.Spelling.{HasDuration, stored};
ghost use Rattle.integer_player.specs.Played.{curve_floor, played_at, played, duration_of, IsPlayable};
ghost use Rattle.integer_player.specs.Places.{IsPlaceIn, IsPlaceAt, IsNotPast, part_of};

use crate::instant::Instant;
use std::marker::Model;
use traj_codec::{Element, Segment, Traj, last_values};

// Micrometres in a millimetre.
const POSITION_SCALE: u64 = 1000;

// Hundredths of a degree in a tenth of a degree.
const YAW_SCALE: u64 = 10;

// Stands in a segment of a trajectory and moves on through it. Contracts see the segment, its number,
// the time before it and the values with which it begins.
#[derive(Drop)]
pub(crate) struct Player {
    cue: usize,
    before: u32,
    first: [i16; 4],
    segment: Segment,
}

impl Model for Player {
    ghost use Rattle.integer_player.specs.Places.{Place};

    ghost Value = { Place };

    ghost view = { λ p. record { cue = p.cue; before = p.before; first = p.first; segment = p.segment } };
}

impl Player {
    // At the beginning of a trajectory.
    pub(crate) fn of(t: &Traj) -> Player
        requires { 1 ≤ length t.now.segments }
        ensures place { IsPlaceIn t.now result }
        ensures first { result.cue ≡ 0 }
    {
        Player {
            cue: 0,
            before: 0,
            first: t.start,
            segment: t.segments.as_slice()[0],
        }
    }

    // Moves to the segment of an instant, which may be any that the trajectory has. Towards later
    // instants each segment is passed once.
    pub(crate) fn seek(&mut self, t: &Traj, ms: u32)
        requires place { IsPlaceIn t.now self.old }
        requires playable { IsPlayable t.now }
        requires inside { ms ≤ duration_of t.now }
        ensures { IsPlaceAt t.now ms self.new }
    {
        self.rewind(t, ms);
        while self.ends_before(ms) {
            self.step(t);
        }
    }

    // The instant as a part of the segment.
    pub(crate) fn instant(&self, ms: u32) -> Instant
        requires begun { self.now.before ≤ ms }
        requires going { ms ≤ self.now.before + self.now.segment.ms }
        requires duration { 1 ≤ self.now.segment.ms }
        ensures { result ≡ part_of self.now ms }
    {
        let c = self.segment.ms;
        Instant::make(self.cue, (ms - self.before) as u16, c)
    }

    // x, y and z in micrometres and yaw in hundredths of a degree, rounded down, at an instant of the
    // segment.
    pub(crate) fn row(&self, i: &Instant) -> [i64; 4]
        requires { i.now.cue ≡ self.now.cue }
        ensures value { (t : Traj) → IsPlaceIn t self.now → result ≡ played_at t i.now }
        ensures small { All (IsBelow (10 ^ 9)) result }
    {
        let [x, y, z, yaw] = &self.segment.elements;
        [
            axis_at(self.first[0], x, i, POSITION_SCALE),
            axis_at(self.first[1], y, i, POSITION_SCALE),
            axis_at(self.first[2], z, i, POSITION_SCALE),
            axis_at(self.first[3], yaw, i, YAW_SCALE),
        ]
    }

    // Where the drone is at an instant of its trajectory; the player moves there. `instant` is that of
    // the drone before, and serves again where it is the same part of a segment with the same number.
    pub(crate) fn at(&mut self, t: &Traj, ms: u32, instant: &mut Instant) -> [i64; 4]
        requires place { IsPlaceIn t.now self.old }
        requires playable { IsPlayable t.now }
        requires inside { ms ≤ duration_of t.now }
        ensures place { IsPlaceIn t.now self.new }
        ensures value { result ≡ played t.now ms }
    {
        self.seek(t, ms);
        let a = (ms - self.before) as u64;
        if !instant.is_part(self.cue, a, self.segment.ms as u64) {
            *instant = self.instant(ms);
        }
        self.row(instant)
    }

    // Back to the beginning, where the segment isn't begun before the instant.
    fn rewind(&mut self, t: &Traj, ms: u32)
        requires place { IsPlaceIn t.now self.old }
        requires some { 1 ≤ length t.now.segments }
        ensures { IsNotPast t.now ms self.new }
    {
        if self.before < ms {
            return;
        }
        *self = Player::of(t);
    }

    // Whether the whole segment is before the instant.
    fn ends_before(&self, ms: u32) -> bool
        requires { self.now.before ≤ ms }
        ensures { result ≡ nat_lt (self.now.before + self.now.segment.ms) ms }
    {
        ms - self.before > self.segment.ms as u32
    }

    fn step(&mut self, t: &Traj)
        requires place { IsPlaceIn t.now self.old }
        requires more { self.old.cue + 1 < length t.now.segments }
        requires fits { self.old.before + self.old.segment.ms < 2 ^ 32 }
        ensures place { IsPlaceIn t.now self.new }
        ensures next { self.new.cue ≡ self.old.cue + 1 }
        ensures time { self.new.before ≡ self.old.before + self.old.segment.ms }
    {
        let segments = t.segments.as_slice();
        self.first = last_values(&self.first, &self.segment);
        self.before += self.segment.ms as u32;
        self.cue += 1;
        self.segment = segments[self.cue];
    }
}

fn cubic_points(first: i16, v: &[i16; 3]) -> [i16; 4]
    ensures { result ≡ first ∷ v.now }
{
    [first, v[0], v[1], v[2]]
}

fn seven_points(first: i16, v: &[i16; 7]) -> [i16; 8]
    ensures { result ≡ first ∷ v.now }
{
    [first, v[0], v[1], v[2], v[3], v[4], v[5], v[6]]
}

// `scale` parts of the value of an element that begins with `first`, rounded down.
fn axis_at(first: i16, element: &Element, i: &Instant, scale: u64) -> i64
    requires { scale ≤ 1000 }
    ensures value { result ≡ curve_floor scale (first ∷ stored element.now) i.now }
    ensures small { IsBelow (10 ^ 9) result }
{
    match *element {
        Element::Constant => i.on_constant(first, scale),
        Element::Linear { v } => i.on_line(&[first, v], scale),
        Element::Cubic { v } => i.on_cubic(&cubic_points(first, &v), scale),
        Element::Seven { v } => i.on_seven(&seven_points(first, &v), scale),
    }
}

impl Default for Player {
    fn default() -> Player {
        Player {
            cue: 0,
            before: 0,
            first: [0; 4],
            segment: Segment {
                ms: 0,
                elements: [Element::Constant; 4],
            },
        }
    }
}

/// Where a drone is that flies a trajectory of 1 to 255 segments, each with a duration, at an instant
/// in milliseconds up to its end: x, y and z in micrometres and yaw in hundredths of a degree, each the
/// exact value rounded down. At an edge both neighbouring segments give the same.
pub fn at(t: &Traj, ms: u32) -> [i64; 4]
    requires playable { IsPlayable t.now }
    requires inside { ms ≤ duration_of t.now }
    ensures value { result ≡ played t.now ms }
    ensures small { All (IsBelow (10 ^ 9)) result }
{
    let mut player = Player::of(t);
    player.seek(t, ms);
    let instant = player.instant(ms);
    player.row(&instant)
}
