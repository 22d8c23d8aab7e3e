//! The lines and statuses of chosen refusals.
ghost use Rattle.std.specs.Prelude.{◌≡◌, ◌≤◌, length};
ghost use Rattle.byte_streams.specs.Words.{IsWord};
ghost use Rattle.refusals.specs.Refusals.{AreNamed, IsSayable};

use bezier_core::Place;
use choreo_reader::{LineKind, Name};
use cue_grid::GridFault;
use refusals::{Pair, Refusal};
use whole_numbers::Depth;

// Whether the program writes this line for a refusal and ends with this status.
fn says(refusal: &Refusal, line: &[u8], status: u8) -> bool
    requires { IsSayable refusal.now }
{
    refusal.line().bytes() == line && refusal.status() == status
}

fn named(bytes: &[u8]) -> Name
    requires few { length bytes.now ≤ 16 }
    requires word { IsWord bytes.now }
    ensures { IsWord result.items }
{
    let mut name = Name::new();
    name.try_extend_from_slice(bytes).unwrap();
    name
}

fn a_and_b(cue: u16) -> Pair
    ensures { AreNamed result }
{
    Pair {
        first: named(b"a"),
        second: named(b"b"),
        cue,
    }
}

fn long_names(cue: u16) -> Pair
    ensures { AreNamed result }
{
    Pair {
        first: named(b"abcdefghijklmnop"),
        second: named(b"abcdefghijklmnop"),
        cue,
    }
}

#[test]
fn words_and_inputs(rt: HostRuntime) {
    let usage = says(&Refusal::Usage, b"error 2 usage\n", 2);
    let read = says(&Refusal::Read, b"error 6 read\n", 6);
    let large = says(&Refusal::TooLarge, b"error 3 too-large\n", 3);
    assert!(rt; usage && read && large);
}

// A line, an axis and a value; and what is written.
const RANGES: &[(u32, u8, i64, &[u8])] = &[
    (
        2,
        0,
        -32_768_501,
        b"error 3 line 2 out-of-range x -32768501\n",
    ),
    (2, 3, 32_768, b"error 3 line 2 out-of-range yaw 32768\n"),
    (
        7,
        1,
        32_767_500,
        b"error 3 line 7 out-of-range y 32767500\n",
    ),
    (
        8,
        2,
        32_767_500,
        b"error 3 line 8 out-of-range z 32767500\n",
    ),
    (
        4_294_967_295,
        3,
        i64::MIN,
        b"error 3 line 4294967295 out-of-range yaw -9223372036854775808\n",
    ),
];

fn says_range(line: u32, axis: u8, value: i64, wanted: &[u8]) -> bool {
    let axis = axis.min(3);
    says(&Refusal::Range { line, axis, value }, wanted, 3)
}

#[test]
fn numbers_out_of_range(rt: HostRuntime) {
    for &(line, axis, value, wanted) in RANGES {
        assert!(rt; says_range(line, axis, value, wanted), "{wanted:?}");
    }
}

#[test]
fn shows_that_are_refused(rt: HostRuntime) {
    let room = Refusal::Room {
        drone: named(b"solo"),
        bytes: 28,
        room: 27,
    };
    let segments = Refusal::Segments {
        drone: named(b"solo"),
        segments: 256,
    };
    let blocked = Refusal::Blocked {
        pair: a_and_b(0),
        index: 28,
        depth: Depth::make(6),
    };
    let by_room = says(&room, b"error 4 drone solo bytes 28 room 27\n", 4);
    let by_segments = says(&segments, b"error 4 drone solo segments 256\n", 4);
    let by_search = says(&blocked, b"error 5 pair a b cue 1 part 28 of 64\n", 5);
    assert!(rt; by_room && by_segments && by_search);
}

#[test]
fn uploads(rt: HostRuntime) {
    let gave_up = Refusal::GaveUp {
        drone: named(b"solo"),
        packet: 2,
    };
    let refused = Refusal::Refused {
        drone: named(b"solo"),
        packet: 0,
        status: 5,
    };
    let ended = says(&Refusal::Ended, b"error 8 ended\n", 8);
    let late = says(&gave_up, b"error 9 drone solo packet 3\n", 9);
    let wrong = says(&refused, b"error 10 drone solo packet 1 status 5\n", 10);
    assert!(rt; ended && late && wrong);
}

#[test]
fn bytes_that_differ(rt: HostRuntime) {
    let low = Refusal::Differs {
        drone: named(b"solo"),
        address: 3,
        wanted: 0,
        got: 7,
    };
    let high = Refusal::Differs {
        drone: named(b"abcdefghijklmnop"),
        address: 4_095,
        wanted: 255,
        got: 175,
    };
    let at_low = says(
        &low,
        b"error 14 drone solo address 3 wanted 00 got 07\n",
        14,
    );
    let at_high = says(
        &high,
        b"error 14 drone abcdefghijklmnop address 4095 wanted FF got AF\n",
        14,
    );
    assert!(rt; at_low && at_high);
}

#[test]
fn certificates(rt: HostRuntime) {
    let line = says(&Refusal::SecondLine { line: 6 }, b"error 11 line 6\n", 11);
    let large = says(&Refusal::SecondTooLarge, b"error 11 too-large\n", 11);
    let missing = Refusal::Missing { pair: a_and_b(2) };
    let none = says(&missing, b"error 12 missing pair a b cue 3\n", 12);
    let early = Refusal::Extra {
        version: 1,
        tree: 3,
    };
    let late = Refusal::Extra {
        version: 2,
        tree: 3,
    };
    let is_early = says(&early, b"error 12 extra line 5\n", 12);
    let is_late = says(&late, b"error 12 extra line 6\n", 12);
    assert!(rt; line && large && none && is_early && is_late);
}

#[test]
fn trees_that_fail(rt: HostRuntime) {
    let deep = Refusal::TooDeep { pair: a_and_b(0) };
    let letter = Refusal::Fails {
        pair: a_and_b(1),
        place: Place { depth: 0, index: 0 },
        version: 1,
        dir: 0,
        control: 0,
    };
    let digits = Refusal::Fails {
        pair: long_names(999),
        place: Place {
            depth: 8,
            index: 255,
        },
        version: 2,
        dir: 97,
        control: 7,
    };
    let is_deep = says(&deep, b"error 12 too-deep pair a b cue 1\n", 12);
    let by_letter = says(
        &letter,
        b"error 12 fails pair a b cue 2 part 0 0 direction a control 0\n",
        12,
    );
    let by_digits = says(
        &digits,
        b"error 12 fails pair abcdefghijklmnop abcdefghijklmnop cue 1000 part 8 255 direction 97 control 7\n",
        12,
    );
    assert!(rt; is_deep && by_letter && by_digits);
}

#[test]
fn regions(rt: HostRuntime) {
    let first = Refusal::Enters {
        region: 0,
        drone: named(b"solo"),
        cue: 0,
        index: 25,
        depth: Depth::make(6),
    };
    let last = Refusal::Enters {
        region: 63,
        drone: named(b"abcdefghijklmnop"),
        cue: 999,
        index: 255,
        depth: Depth::make(8),
    };
    let at_first = says(
        &first,
        b"error 15 region 1 drone solo cue 1 part 25 of 64\n",
        15,
    );
    let at_last = says(
        &last,
        b"error 15 region 64 drone abcdefghijklmnop cue 1000 part 255 of 256\n",
        15,
    );
    assert!(rt; at_first && at_last);
}

#[test]
fn speeds(rt: HostRuntime) {
    let fast = Refusal::TooFast {
        drone: named(b"solo"),
        axis: 0,
        speed: 1_656_000,
    };
    let fastest = Refusal::TooFast {
        drone: named(b"abcdefghijklmnop"),
        axis: 2,
        speed: 9_223_372_036_854_775_807,
    };
    let on_x = says(&fast, b"error 16 drone solo x speed 1656000\n", 16);
    let on_z = says(
        &fastest,
        b"error 16 drone abcdefghijklmnop z speed 9223372036854775807\n",
        16,
    );
    assert!(rt; on_x && on_z);
}

#[test]
fn accelerations_and_jumps(rt: HostRuntime) {
    let accelerates = Refusal::Accelerates {
        drone: named(b"solo"),
        cue: 0,
        axis: 0,
        acceleration: 1_878_895,
    };
    let jumps = Refusal::Jumps {
        drone: named(b"abcdefghijklmnop"),
        cue: 1000,
        axis: 2,
        speed: 9_223_372_036_854_775_807,
    };
    let on_x = says(
        &accelerates,
        b"error 18 drone solo cue 1 accel x 1878895\n",
        18,
    );
    let on_z = says(
        &jumps,
        b"error 18 drone abcdefghijklmnop cue 1001 jump z 9223372036854775807\n",
        18,
    );
    assert!(rt; on_x && on_z);
}

// A faulty line, what is wrong with it, and what is written.
const WORDS: &[(u32, LineKind, &[u8])] = &[
    (5, LineKind::BadByte, b"error 3 line 5 bad-byte\n"),
    (1, LineKind::Header, b"error 3 line 1 header\n"),
    (2, LineKind::BadWord, b"error 3 line 2 bad-word\n"),
    (3, LineKind::BadName, b"error 3 line 3 bad-name\n"),
    (4, LineKind::BadCount, b"error 3 line 4 bad-count\n"),
    (6, LineKind::BadNumber, b"error 3 line 6 bad-number\n"),
    (7, LineKind::Range, b"error 3 line 7 range\n"),
    (
        4_294_967_295,
        LineKind::DoubleSetting,
        b"error 3 line 4294967295 double-setting\n",
    ),
    (11, LineKind::Nesting, b"error 3 line 11 nesting\n"),
    (9, LineKind::EmptyBlock, b"error 3 line 9 empty-block\n"),
    (10, LineKind::NoEnd, b"error 3 line 10 no-end\n"),
];

fn says_word(line: u32, kind: LineKind, wanted: &[u8]) -> bool {
    says(&Refusal::Line { line, kind }, wanted, 3)
}

#[test]
fn each_word_of_a_line(rt: HostRuntime) {
    for &(line, kind, wanted) in WORDS {
        assert!(rt; says_word(line, kind, wanted), "{wanted:?}");
    }
}

// A fault of names or cues, and what is written.
const GRID: &[(GridFault, &[u8])] = &[
    (GridFault::NoDrone { line: 1 }, b"error 3 line 1 no-drone\n"),
    (
        GridFault::TooManyDrones { line: 34 },
        b"error 3 line 34 too-many-drones\n",
    ),
    (
        GridFault::DoubleName { line: 3 },
        b"error 3 line 3 double-name\n",
    ),
    (
        GridFault::UnknownName { line: 8 },
        b"error 3 line 8 unknown-name\n",
    ),
    (
        GridFault::DoubleAct { line: 5 },
        b"error 3 line 5 double-act\n",
    ),
    (
        GridFault::RoleCount { line: 8 },
        b"error 3 line 8 role-count\n",
    ),
    (GridFault::NoCue { line: 1 }, b"error 3 line 1 no-cue\n"),
    (
        GridFault::TooManyCues { line: 3 },
        b"error 3 line 3 too-many-cues\n",
    ),
];

fn says_grid(fault: GridFault, wanted: &[u8]) -> bool {
    says(&Refusal::Grid { fault }, wanted, 3)
}

#[test]
fn names_and_cues(rt: HostRuntime) {
    for &(fault, wanted) in GRID {
        assert!(rt; says_grid(fault, wanted), "{wanted:?}");
    }
}
