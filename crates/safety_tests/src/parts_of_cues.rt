//! Parts of a cue, judged along one direction at its threshold, their halves, and the order of pairs and cues: values
//! from outside.

ghost use Rattle.std.specs.Prelude.{◌≤ℤ◌, ◌<ℤ◌, ◌^◌, pos, All};
ghost use Rattle.whole_numbers.specs.Numbers.{IsBelow};
ghost use Rattle.sep_parts.specs.Levels.{IsStack};

use bezier_core::{Bez, Place};
use fleet_curves::Difference;
use sep_parts::{
    Node, Slot, Waiting, above, first_below, halves, low_control, projected, separates,
};
use whole_numbers::Depth;

// Millimetres at the scale of raised curves.
fn scaled(millimetres: i16) -> i128
    ensures { IsBelow (2 ^ 86) result }
{
    millimetres as i128 * 5040
}

// Control values that are the same, but for one in the middle.
fn row(value: i128, dip: i128) -> Bez<8>
    requires value { IsBelow (2 ^ 86) value }
    requires dip { IsBelow (2 ^ 86) dip }
    ensures { All (IsBelow (2 ^ 86)) result.b }
{
    Bez {
        b: [value, value, value, dip, value, value, value, value],
    }
}

// A difference that stays this many millimetres along x, but for one control value.
fn aside(millimetres: i16, dip: i16) -> [Bez<8>; 3]
    ensures { All (λ curve. All (IsBelow (2 ^ 86)) curve.b) result }
{
    [row(scaled(millimetres), scaled(dip)), row(0, 0), row(0, 0)]
}

// A distance along x, that of one control value, the height, the threshold and the depth; and whether the direction
// separates the part. 241 times the height of 1 mm is the threshold itself.
const AT_THE_THRESHOLD: &[(i16, i16, u16, i128, u8, bool)] = &[
    (241, 241, 300, 72001, 0, true),
    (240, 240, 300, 72001, 0, false),
    (241, 241, 1, 241, 0, true),
    (240, 240, 1, 241, 0, false),
    (241, 240, 300, 72001, 0, false),
    (241, 241, 300, 72001, 1, false),
];

// A threshold that a show may have.
fn allowed(threshold: i128) -> i128
    ensures low { pos 0 ≤ℤ result }
    ensures high { result <ℤ pos (2 ^ 30) }
{
    threshold.max(0).min(1_000_000)
}

fn separated(millimetres: i16, dip: i16, h: u16, threshold: i128, depth: u8) -> bool {
    separates(
        &aside(millimetres, dip),
        [1, 0, 0],
        120,
        h.max(1).min(2000),
        allowed(threshold),
        Depth::make(depth.min(8)),
    )
}

#[test]
fn a_direction_at_its_threshold(rt: HostRuntime) {
    for &(millimetres, dip, h, threshold, depth, wanted) in AT_THE_THRESHOLD {
        let found = separated(millimetres, dip, h, threshold, depth);
        assert!(rt; found == wanted, "{millimetres}, {dip}, {h}, {depth}");
    }
}

// A threshold, and the first control value that is below it along x, where the difference of 241 mm dips to 240 mm at
// the control value 3: 241 times 300 is 72,300, and 240 times 300 is 72,000.
const LOW: &[(i128, Option<usize>)] = &[(72001, Some(3)), (72000, None), (72301, Some(0))];

fn low(threshold: i128) -> Option<usize> {
    low_control(
        &aside(241, 240),
        [1, 0, 0],
        120,
        300,
        allowed(threshold),
        Depth::make(0),
    )
}

// The same of its projection, and at a depth.
const BELOW: &[(i128, u8, Option<usize>)] = &[
    (72001, 0, Some(3)),
    (72000, 0, None),
    (1, 2, None),
    (5, 2, Some(0)),
];

fn seen() -> Bez<8> {
    projected(&aside(241, 240), [1, 0, 0], 120, 300)
}

fn below(threshold: i128, depth: u8) -> Option<usize> {
    first_below(&seen(), allowed(threshold), Depth::make(depth.min(8)))
}

// 72,300 and 72,000 times 5,040
const SEEN: [i128; 8] = [
    364392000, 364392000, 364392000, 362880000, 364392000, 364392000, 364392000, 364392000,
];

#[test]
fn the_first_control_value_that_is_too_low(rt: HostRuntime) {
    assert!(rt; seen().b == SEEN);
    for &(threshold, wanted) in LOW {
        assert!(rt; low(threshold) == wanted, "threshold {threshold}");
    }
    for &(threshold, depth, wanted) in BELOW {
        assert!(rt;
            below(threshold, depth) == wanted,
            "threshold {threshold}, depth {depth}"
        );
    }
}

// 5,040 times 2 to the 14 is 82,575,360: what a threshold of 1 asks at depth 2. A threshold, a depth, eight control
// values of which the one is this and all others are those, and whether all reach the threshold.
const REACHED: &[(i128, u8, usize, i128, bool)] = &[
    (1, 2, 0, 82_575_360, true),
    (2, 2, 0, 82_575_360, false),
    (1, 3, 0, 82_575_360, false),
    (1, 2, 0, 82_575_359, false),
    (1, 2, 1, 82_575_359, false),
    (1, 2, 2, 82_575_359, false),
    (1, 2, 3, 82_575_359, false),
    (1, 2, 4, 82_575_359, false),
    (1, 2, 5, 82_575_359, false),
    (1, 2, 6, 82_575_359, false),
    (1, 2, 7, 82_575_359, false),
];

fn reached(threshold: i128, depth: u8, k: usize, value: i128) -> bool {
    let mut b = [82_575_360; 8];
    b[k % 8] = value;
    above(
        &Bez::<8> { b },
        allowed(threshold),
        Depth::make(depth.min(8)),
    )
}

#[test]
fn all_control_values_at_the_threshold(rt: HostRuntime) {
    for &(threshold, depth, k, value, wanted) in REACHED {
        assert!(rt;
            reached(threshold, depth, k, value) == wanted,
            "threshold {threshold}, depth {depth}, the value {k}"
        );
    }
}

// Three drones in two cues: the pairs by first and then second drone, for each the cues, and then a pair that is none.
const IN_ORDER: [(u8, u8, u16); 7] = [
    (0, 1, 0),
    (0, 1, 1),
    (0, 2, 0),
    (0, 2, 1),
    (1, 2, 0),
    (1, 2, 1),
    (2, 3, 0),
];

fn numbers(slot: Slot) -> (u8, u8, u16) {
    (slot.a, slot.b, slot.cue)
}

#[test]
fn pairs_and_cues_in_order(rt: HostRuntime) {
    let first = Slot::first();
    let second = first.next(3, 2);
    let third = second.next(3, 2);
    let fourth = third.next(3, 2);
    let fifth = fourth.next(3, 2);
    let sixth = fifth.next(3, 2);
    let found = [
        numbers(first),
        numbers(second),
        numbers(third),
        numbers(fourth),
        numbers(fifth),
        numbers(sixth),
        numbers(sixth.next(3, 2)),
    ];
    assert!(rt; found == IN_ORDER);
}

const STEP: Bez<8> = Bez {
    b: [0, 0, 0, 0, 1, 1, 1, 1],
};

const LEVEL: Bez<8> = Bez { b: [0; 8] };

const ABOVE: Bez<8> = Bez { b: [5; 8] };

// Control values of the step in its halves, times 2 to the 7.
const FIRST_HALF: [i128; 8] = [0, 0, 0, 0, 8, 24, 44, 64];

const LAST_HALF: [i128; 8] = [64, 84, 104, 120, 128, 128, 128, 128];

// The halves of a step on x, by the double sum over whole numbers without a bound.
#[test]
fn both_halves_of_a_cue(rt: HostRuntime) {
    let (first, second) = halves(&[STEP, LEVEL, ABOVE]);
    let found = [first[0].b, second[0].b, first[1].b, second[2].b];
    assert!(rt; found == [FIRST_HALF, LAST_HALF, [0; 8], [640; 8]]);
}

// Whether the next part stands at a place, and has these control values on x.
fn is_at(waiting: &Waiting, depth: u8, index: u16, x: [i128; 8]) -> bool {
    let Some(level) = waiting.next() else {
        return false;
    };
    level.place.depth == depth && level.place.index == index && level.part.curves()[0].b == x
}

// control values of the step in its third quarter and in its last, times 2 to the 14
const THIRD_QUARTER: [i128; 8] = [8192, 9472, 10752, 11968, 13056, 13968, 14688, 15228];

const LAST_QUARTER: [i128; 8] = [15228, 15768, 16128, 16320, 16384, 16384, 16384, 16384];

// Past the next part, whose node this is, where one waits that may be split.
fn passed(waiting: &mut Waiting, diff: &Difference, node: Node) -> bool
    requires { IsStack diff.now waiting.old }
    ensures { IsStack diff.now waiting.new }
{
    let splits = match waiting.next() {
        Some(level) => level.place.depth < 8,
        None => false,
    };
    if splits {
        waiting.pass(diff, node);
    }
    splits
}

// The halves of the step, and those of its second half, whose first is the third quarter: by the double sum.
#[test]
fn halves_wait_in_order(rt: HostRuntime) {
    let diff = Difference::make([STEP, LEVEL, ABOVE]);
    diff.raised_law();
    let mut waiting = Waiting::none();
    assert!(rt; waiting.next().is_none());
    waiting.begin(&diff);
    assert!(rt; passed(&mut waiting, &diff, Node::Split));
    assert!(rt; is_at(&waiting, 1, 0, FIRST_HALF));
    assert!(rt; passed(&mut waiting, &diff, Node::Leaf { dir: 0 }));
    assert!(rt; is_at(&waiting, 1, 1, LAST_HALF));
    assert!(rt; passed(&mut waiting, &diff, Node::Split));
    assert!(rt; is_at(&waiting, 2, 2, THIRD_QUARTER));
    assert!(rt; passed(&mut waiting, &diff, Node::Leaf { dir: 0 }));
    assert!(rt; is_at(&waiting, 2, 3, LAST_QUARTER));
    assert!(rt; passed(&mut waiting, &diff, Node::Leaf { dir: 0 }));
    assert!(rt; waiting.next().is_none());
}
