//! Texts, with what is read of them.

use choreo_reader::{
    Act, ActLine, Block, DroneLine, Figure, Frame, LineKind, Mirror, Point, Settings, Show,
    ShowFault, Token, read_show, tokens,
};
use std::alloc::Global;
use std::test::Fail;
use whole_numbers::MOST_TEXT;

const SMALLEST: &[u8] =
    b"choreo 1\ndrone solo 0 0 1000000 0\ncue 2000\nsolo move 1000000 0 1000000 0\nend\n";

const SMALLEST_IN_UNITS: &[u8] =
    b"choreo 2\ndrone solo 0 0 1m 0\ncue 2s\nsolo move 1m 0 100cm 0deg\nend\n";

macro_rules! token {
    ($line:expr, $start:expr, $end:expr) => {
        Token {
            line: $line,
            start: $start,
            end: $end,
        }
    };
}

// Whether these are the words of a text.
fn has_words(alloc: Global, text: &[u8], wanted: &[Token]) -> bool {
    if text.len() > MOST_TEXT {
        return false;
    }
    match tokens(alloc, text) {
        Ok(words) => words.as_slice() == wanted,
        Err(_) => false,
    }
}

// Texts with their words: for each the number of its line, where it begins, and where it ends. Words are looked for
// among sixteen bytes at a time: a word, a line and a comment end before, at and after the sixteenth.
const WORDS: &[(&[u8], &[Token])] = &[
    (
        b"choreo 1#\x01\n\n end",
        &[token!(1, 0, 6), token!(1, 7, 8), token!(3, 13, 16)],
    ),
    (
        b"a23456789012345 b\nc",
        &[token!(1, 0, 15), token!(1, 16, 17), token!(2, 18, 19)],
    ),
    (
        b"a234567890123456 b\nc",
        &[token!(1, 0, 16), token!(1, 17, 18), token!(2, 19, 20)],
    ),
    (
        b"a23456789012345\nc",
        &[token!(1, 0, 15), token!(2, 16, 17)],
    ),
    (
        b"a234567890123456\nc",
        &[token!(1, 0, 16), token!(2, 17, 18)],
    ),
    (
        b"a23456789012345#b #\nc",
        &[token!(1, 0, 15), token!(2, 20, 21)],
    ),
    (
        b"a234567890123456#b #\nc",
        &[token!(1, 0, 16), token!(2, 21, 22)],
    ),
    (
        b"a!b \"c\" 90123456789# \n#\n",
        &[token!(1, 0, 3), token!(1, 4, 7), token!(1, 8, 19)],
    ),
    (b"                #a\n \t\n", &[]),
];

#[test]
fn words_are_found(rt: HostRuntime) {
    for &(text, wanted) in WORDS {
        assert!(rt; has_words(rt.alloc(), text, wanted));
    }
}

// Whether the first byte that may not stand in a text is in this line.
fn has_bad_byte(alloc: Global, text: &[u8], line: u32) -> bool {
    if text.len() > MOST_TEXT {
        return false;
    }
    match tokens(alloc, text) {
        Ok(_) => false,
        Err(fault) => {
            fault
                == ShowFault::Line {
                    line,
                    kind: LineKind::BadByte,
                }
        }
    }
}

#[test]
fn a_bad_byte_is_named(rt: HostRuntime) {
    assert!(rt; has_bad_byte(rt.alloc(), b"a\n\x7f\n\x01", 2));
}

// Whether a drone's line, or a place, is this one.
fn is_at(it: &DroneLine, line: u32, name: &[u8], at: [i64; 4]) -> bool {
    let p = it.at;
    it.line == line && it.name.as_slice() == name && [p.x, p.y, p.z, p.yaw] == at
}

// Whether an act line says that this drone does this.
fn is_one(it: &ActLine, at_line: u32, who: &[u8], does: Act) -> bool {
    match it {
        ActLine::One { line, name, act } => {
            *line == at_line && name.as_slice() == who && *act == does
        }
        ActLine::Form { .. } => false,
    }
}

const FULL: &[u8] =
    b"choreo 1\nmemory 3 4095\ntrajectory 9\nellipsoid 1 2000\ndrone a -100000000 100000000 0 -32768\n\
    drone cue 0 0 0 32767\nformation f\nat a 1 2 3 4\nend\nfigure g p\ncue 1\np hold\nend\nrepeat 1000000000\n\
    cue 65535\np curve 1 2 3 4 5 6 7 8 9 10\nend\nend\nend\ncue 2\nform f line\na arc ccw 6 7 8\na turn 5\n\
    cue line 1 2 3 4\nend\nrepeat 2\nperform g x 3 -1 -2 -3 a\nend\n";

// The same show: its lengths, times and angles have units.
const FULL_IN_UNITS: &[u8] =
    b"choreo 2\nmemory 3 4095\ntrajectory 9\nellipsoid 1mm 2m\ndrone a -100m 100m 0 -3276.8deg\n\
    drone cue 0m 0um -0 3276.7deg\nformation f\nat a 1um 0.002mm 0.0003cm 0.4deg\nend\nfigure g p\ncue 1ms\np hold\n\
    end\nrepeat 1000000000\ncue 65.535s\np curve 1um 2um 3um 0.000004m 0.0005cm 6um 7um 8um 9.0um 1deg\nend\nend\n\
    end\ncue 0.002s\nform f line\na arc ccw 6um 0.007mm 0.8deg\na turn 0.50deg\ncue line 1um 2um 3um 00.4deg\nend\n\
    repeat 2\nperform g x 3 -1um -0.002mm -0.0003cm a\nend\n";

// Whether the cue of the full show is its cue.
fn is_full_cue(acts: &[ActLine]) -> bool {
    let to = Point {
        x: 1,
        y: 2,
        z: 3,
        yaw: 4,
    };
    match acts {
        [
            ActLine::Form {
                line,
                formation,
                smooth,
            },
            a,
            b,
            c,
        ] => {
            *line == 21
                && formation.as_slice() == b"f".as_slice()
                && !*smooth
                && is_one(
                    a,
                    22,
                    b"a",
                    Act::Arc {
                        ccw: true,
                        cx: 6,
                        cy: 7,
                        yaw: 8,
                    },
                )
                && is_one(b, 23, b"a", Act::Turn { yaw: 5 })
                && is_one(c, 24, b"cue", Act::Line { to })
        }
        _ => false,
    }
}

// Whether the repeat of the full show has its perform.
fn is_full_repeat(body: &[Block]) -> bool {
    let frame = Frame {
        mirror: Mirror::X,
        turns: 3,
        dx: -1,
        dy: -2,
        dz: -3,
    };
    match body {
        [
            Block::Perform {
                line,
                figure,
                frame: put,
                drones,
            },
        ] => {
            *line == 27
                && figure.as_slice() == b"g".as_slice()
                && *put == frame
                && drones.as_slice().len() == 1
        }
        _ => false,
    }
}

// Whether the figure of the full show has its cue and its repeat.
fn is_full_figure(it: &Figure) -> bool {
    let p1 = [1, 2, 3];
    let p2 = [4, 5, 6];
    let to = Point {
        x: 7,
        y: 8,
        z: 9,
        yaw: 10,
    };
    let blocks = match it.body.as_slice() {
        [
            Block::Cue { ms: 1, acts, .. },
            Block::Repeat {
                line: 14,
                times: 1_000_000_000,
                body,
            },
        ] => {
            match (acts.as_slice(), body.as_slice()) {
                (
                    [hold],
                    [
                        Block::Cue {
                            ms: 65_535,
                            acts: curved,
                            ..
                        },
                    ],
                ) => match curved.as_slice() {
                    [curve] => {
                        is_one(hold, 12, b"p", Act::Hold)
                            && is_one(curve, 16, b"p", Act::Curve { p1, p2, to })
                    }
                    _ => false,
                },
                _ => false,
            }
        }
        _ => false,
    };
    it.line == 10
        && it.name.as_slice() == b"g".as_slice()
        && it.roles.as_slice().len() == 1
        && blocks
}

// Whether a show is the full one.
fn is_full(show: &Show) -> bool {
    let settings = Settings {
        memory_id: 3,
        offset: 4095,
        trajectory_id: 9,
        r: 1,
        h: 2000,
        stray: 0,
        late: 0,
    };
    let lists = match (
        show.drones.as_slice(),
        show.formations.as_slice(),
        show.figures.as_slice(),
    ) {
        ([a, b], [f], [g]) => {
            is_at(a, 5, b"a", [-100_000_000, 100_000_000, 0, -32_768])
                && is_at(b, 6, b"cue", [0, 0, 0, 32_767])
                && f.line == 7
                && is_full_figure(g)
                && match f.places.as_slice() {
                    [place] => is_at(place, 8, b"a", [1, 2, 3, 4]),
                    _ => false,
                }
        }
        _ => false,
    };
    let body = match show.body.as_slice() {
        [
            Block::Cue {
                line: 20,
                ms: 2,
                acts,
            },
            Block::Repeat {
                line: 26,
                times: 2,
                body,
            },
        ] => { is_full_cue(acts.as_slice()) && is_full_repeat(body.as_slice()) }
        _ => false,
    };
    show.settings == settings && lists && body
}

#[test]
fn a_show_with_everything_is_read(rt: HostRuntime) {
    for text in [FULL, FULL_IN_UNITS] {
        let full = text.len() <= MOST_TEXT
            && match read_show(rt.alloc(), text) {
                Ok(show) => is_full(&show),
                Err(_) => false,
            };
        assert!(rt; full);
    }
}

// Whether a show is the smallest one.
fn is_smallest(show: &Show) -> bool {
    let to = Point {
        x: 1_000_000,
        y: 0,
        z: 1_000_000,
        yaw: 0,
    };
    let alone = match show.drones.as_slice() {
        [solo] => is_at(solo, 2, b"solo", [0, 0, 1_000_000, 0]),
        _ => false,
    };
    let moves = match show.body.as_slice() {
        [
            Block::Cue {
                line: 3,
                ms: 2000,
                acts,
            },
        ] => match acts.as_slice() {
            [act] => is_one(act, 4, b"solo", Act::Move { to }),
            _ => false,
        },
        _ => false,
    };
    let others = show.formations.as_slice().len() + show.figures.as_slice().len();
    show.settings == DEFAULTS && alone && moves && others == 0
}

#[test]
fn the_smallest_show_is_read_in_both_forms(rt: HostRuntime) {
    for text in [SMALLEST, SMALLEST_IN_UNITS] {
        let smallest = text.len() <= MOST_TEXT
            && match read_show(rt.alloc(), text) {
                Ok(show) => is_smallest(&show),
                Err(_) => false,
            };
        assert!(rt; smallest);
    }
}

const DEFAULTS: Settings = Settings {
    memory_id: 2,
    offset: 0,
    trajectory_id: 0,
    r: 120,
    h: 300,
    stray: 0,
    late: 0,
};

// Texts, with how far their drones may stray, in millimetres, and how late they may be, in milliseconds.
const STRAYS: &[(&[u8], u16, u16)] = &[
    (SMALLEST, 0, 0),
    (b"choreo 1\nstray 0\nlate 0\n", 0, 0),
    (b"choreo 1\nlate 1000\nstray 0001000\n", 1000, 1000),
    (b"choreo 1\nstray 50\n", 50, 0),
    (b"choreo 1\ncue 1\nend\nlate 20\n", 0, 20),
    (SMALLEST_IN_UNITS, 0, 0),
    (b"choreo 2\n", 0, 0),
    (b"choreo 2\nlate 1s\nstray 100.0cm\n", 1000, 1000),
    (b"choreo 2\nstray 50000um\nlate 0.02s\n", 50, 20),
];

#[test]
fn settings_that_are_left_out_have_their_defaults(rt: HostRuntime) {
    for &(text, stray, late) in STRAYS {
        let wanted = Settings {
            stray,
            late,
            ..DEFAULTS
        };
        assert!(rt; has_settings(rt.alloc(), text, &wanted));
    }
}

// Whether a text is a show of these settings.
fn has_settings(alloc: Global, text: &[u8], wanted: &Settings) -> bool {
    if text.len() > MOST_TEXT {
        return false;
    }
    match read_show(alloc, text) {
        Ok(show) => show.settings == *wanted,
        Err(_) => false,
    }
}

// Whether the first faulty line of a text is this one, and so faulty.
fn has_fault(alloc: Global, text: &[u8], line: u32, kind: LineKind) -> bool {
    if text.len() > MOST_TEXT {
        return false;
    }
    match read_show(alloc, text) {
        Ok(_) => false,
        Err(fault) => fault == ShowFault::Line { line, kind },
    }
}

// Texts with the line that is faulty, and how.
const AT_TOP: &[(&[u8], u32, LineKind)] = &[
    (b"", 1, LineKind::Header),
    (b"\n# choreo 1\n", 1, LineKind::Header),
    (b"\nchoreo 3\n", 2, LineKind::Header),
    (b"choreo 01\n", 1, LineKind::Header),
    (b"choreo 02\n", 1, LineKind::Header),
    (b"choreo 2 2\n", 1, LineKind::Header),
    (b"choreo 2m\n", 1, LineKind::Header),
    (b"choreo 1 1\n", 1, LineKind::Header),
    (b"choreo 2\nbad\n\x01\n", 3, LineKind::BadByte),
    (b"choreo 1\nend\n", 2, LineKind::BadWord),
    (b"choreo 1\nat a 0 0 0 0\n", 2, LineKind::BadWord),
    (b"choreo 1\na move 0 0 0 0\n", 2, LineKind::BadWord),
    (b"choreo 1\nmemory 0\n", 2, LineKind::BadCount),
    (b"choreo 1\nmemory 256 0\n", 2, LineKind::Range),
    (b"choreo 1\nmemory 0 4096\n", 2, LineKind::Range),
    (
        b"choreo 1\nmemory 2 0\nmemory 2 0\n",
        3,
        LineKind::DoubleSetting,
    ),
    (b"choreo 1\nmemory 2 0\nmemory 2 4096\n", 3, LineKind::Range),
    (b"choreo 1\ntrajectory 10\n", 2, LineKind::Range),
    (b"choreo 1\ntrajectory a\n", 2, LineKind::BadNumber),
    (
        b"choreo 1\ntrajectory 1\ntrajectory 2\n",
        3,
        LineKind::DoubleSetting,
    ),
    (b"choreo 1\nellipsoid 0 1\n", 2, LineKind::Range),
    (b"choreo 1\nellipsoid 1 2001\n", 2, LineKind::Range),
    (b"choreo 1\nellipsoid 2001 1\n", 2, LineKind::Range),
    (
        b"choreo 1\nellipsoid 1 1\n\nellipsoid 1 1\n",
        4,
        LineKind::DoubleSetting,
    ),
    (b"choreo 1\nstray 1001\n", 2, LineKind::Range),
    (b"choreo 1\nstray -1\n", 2, LineKind::Range),
    (b"choreo 1\nstray 1 2\n", 2, LineKind::BadCount),
    (b"choreo 1\nlate 1001\n", 2, LineKind::Range),
    (b"choreo 1\nlate -1\n", 2, LineKind::Range),
    (b"choreo 1\nlate x\n", 2, LineKind::BadNumber),
    (b"choreo 1\nlate\n", 2, LineKind::BadCount),
    (
        b"choreo 1\nstray 1\nlate 1\nstray 1\n",
        4,
        LineKind::DoubleSetting,
    ),
    (b"choreo 1\nlate 1\nlate 2\n", 3, LineKind::DoubleSetting),
    (
        b"choreo 1\ndrone Solo 0 0 1000000 0\n",
        2,
        LineKind::BadName,
    ),
    (b"choreo 1\ndrone Solo 0 0\n", 2, LineKind::BadCount),
    (b"choreo 1\ndrone solo 0 0 1e6 0\n", 2, LineKind::BadNumber),
    (
        b"choreo 1\ndrone solo 0 0 100000001 0\n",
        2,
        LineKind::Range,
    ),
    (b"choreo 1\ndrone form 0 0 0 0\n", 2, LineKind::BadName),
    (b"choreo 1\nformation f g\n", 2, LineKind::BadCount),
    (b"choreo 1\nfigure g\n", 2, LineKind::BadCount),
    (b"choreo 1\nfigure g Role\n", 2, LineKind::BadName),
    (b"choreo 1\ncue 0\n", 2, LineKind::Range),
    (
        b"choreo 1\ncue 00000000000000000000000000065536\n",
        2,
        LineKind::Range,
    ),
    (b"choreo 1\nrepeat 1000000001\n", 2, LineKind::Range),
    (b"choreo 1\nperform Go z\n", 2, LineKind::BadCount),
    (b"choreo 1\nperform g z 0 0 0 0 a\n", 2, LineKind::BadWord),
    (b"choreo 1\nperform g x 4 0 0 0 a\n", 2, LineKind::Range),
    (b"choreo 1\nperform g x 0 0 0 0\n", 2, LineKind::BadCount),
    (b"choreo 1\nform f line\n", 2, LineKind::BadWord),
];

#[test]
fn lines_at_top_are_judged(rt: HostRuntime) {
    let alloc = rt.alloc();
    for &(text, line, kind) in AT_TOP {
        assert!(rt; has_fault(alloc, text, line, kind));
    }
}

// The same for lines in blocks.
const IN_BLOCKS: &[(&[u8], u32, LineKind)] = &[
    (
        b"# a show\n \t\r\nchoreo 1 # first\r\n\ncue 1#\x01\n# inside\n\nsolo jump 0",
        8,
        LineKind::BadWord,
    ),
    // the settings stand at top alone; in a cue `stray` is a name
    (b"choreo 1\nformation f\nstray 1\n", 3, LineKind::BadWord),
    (b"choreo 1\nfigure g p\nlate 1\n", 3, LineKind::BadWord),
    (b"choreo 1\nrepeat 2\nstray 1\n", 3, LineKind::BadWord),
    (b"choreo 1\nrepeat 2\nlate 1\n", 3, LineKind::BadWord),
    (b"choreo 1\ncue 1\nstray 1\n", 3, LineKind::BadWord),
    // names such as `cue` and `repeat` open no block in a cue, so what is open is the cue of line 2
    (
        b"choreo 1\ncue 1\ncue hold\nrepeat hold\n",
        2,
        LineKind::NoEnd,
    ),
    (b"choreo 1\nformation f\nend\n", 3, LineKind::EmptyBlock),
    (b"choreo 1\nformation f\nend x\n", 3, LineKind::BadCount),
    (
        b"choreo 1\nformation f\nat a 0 0 0\n",
        3,
        LineKind::BadCount,
    ),
    (b"choreo 1\nformation f\ncue 1\n", 3, LineKind::BadWord),
    (b"choreo 1\nfigure g p\nend\n", 3, LineKind::EmptyBlock),
    (
        b"choreo 1\nfigure g p\nperform g x 0 0 0 0 a\n",
        3,
        LineKind::BadWord,
    ),
    (
        b"choreo 1\nfigure g p\nrepeat 1\nperform g x 0 0 0 0 a\n",
        4,
        LineKind::BadWord,
    ),
    (
        b"choreo 1\nfigure g p\ncue 1\nform f line\n",
        4,
        LineKind::BadName,
    ),
    (b"choreo 1\nrepeat 2\nend\n", 3, LineKind::EmptyBlock),
    (
        b"choreo 1\nrepeat 2\ndrone a 0 0 0 0\n",
        3,
        LineKind::BadWord,
    ),
    (b"choreo 1\nrepeat 2\ncue 1\nend\n", 2, LineKind::NoEnd),
    (b"choreo 1\ncue 1\nsolo\n", 3, LineKind::BadCount),
    (b"choreo 1\ncue 1\nSolo\n", 3, LineKind::BadName),
    (b"choreo 1\ncue 1\nsolo jump 0\n", 3, LineKind::BadWord),
    (b"choreo 1\ncue 1\nSolo jump\n", 3, LineKind::BadName),
    (b"choreo 1\ncue 1\nform f curve\n", 3, LineKind::BadWord),
    (b"choreo 1\ncue 1\na hold 0\n", 3, LineKind::BadCount),
    (
        b"choreo 1\ncue 1\na line 0 0 0 0 0\n",
        3,
        LineKind::BadCount,
    ),
    (b"choreo 1\ncue 1\na move 0 0 0 -\n", 3, LineKind::BadNumber),
    (b"choreo 1\ncue 1\na turn 32768\n", 3, LineKind::Range),
    (b"choreo 1\ncue 1\na arc left 0 0 0\n", 3, LineKind::BadWord),
    (
        b"choreo 1\ncue 1\na swing left 0 0 0\n",
        3,
        LineKind::BadWord,
    ),
    (
        b"choreo 1\ncue 1\na curve 0 0 0 0 0 0 0 0 100000001 x\n",
        3,
        LineKind::Range,
    ),
    (
        b"choreo 1\nrepeat 1\nrepeat 1\nrepeat 1\nrepeat 1\nrepeat 1\nrepeat 1\nrepeat 1\nrepeat 1\nrepeat 1\n",
        10,
        LineKind::Nesting,
    ),
    (
        b"choreo 1\nrepeat 1\nrepeat 1\nrepeat 1\nrepeat 1\nrepeat 1\nrepeat 1\nrepeat 1\nrepeat 1\nrepeat 0\n",
        10,
        LineKind::Range,
    ),
];

#[test]
fn lines_in_blocks_are_judged(rt: HostRuntime) {
    let alloc = rt.alloc();
    for &(text, line, kind) in IN_BLOCKS {
        assert!(rt; has_fault(alloc, text, line, kind));
    }
}

// Texts of the second form.
const IN_UNITS: &[(&[u8], u32, LineKind)] = &[
    (
        b"choreo 2\ndrone solo 0 0 1.0000001m 0\ncue 2s\nsolo move 1m 0 100cm 0deg\nend\n",
        2,
        LineKind::BadNumber,
    ),
    (
        b"choreo 2\ndrone solo 0 0 1m 0\ncue 2s\nsolo move 101m 0 100cm 0deg\nend\n",
        4,
        LineKind::Range,
    ),
    (
        b"choreo 2\ndrone solo 0 0 1000000 0\ncue 2s\nend\n",
        2,
        LineKind::BadNumber,
    ),
    (
        b"choreo 1\ndrone solo 0 0 1m 0\ncue 2000\nend\n",
        2,
        LineKind::BadNumber,
    ),
    (b"choreo 1\ncue 2s\nend\n", 2, LineKind::BadNumber),
    (b"choreo 2\ncue 2000\nend\n", 2, LineKind::BadNumber),
    (b"choreo 2\ndrone a 0 0 0 0.05deg\n", 2, LineKind::BadNumber),
    (b"choreo 2\ndrone a 0.5um 0 0 0\n", 2, LineKind::BadNumber),
    (b"choreo 2\ndrone a .5m 0 0 0\n", 2, LineKind::BadNumber),
    (b"choreo 2\ndrone a 1.m 0 0 0\n", 2, LineKind::BadNumber),
    (b"choreo 2\ndrone a 0.0 0 0 0\n", 2, LineKind::BadNumber),
    (b"choreo 2\ndrone a 0deg 0 0 0\n", 2, LineKind::BadNumber),
    (b"choreo 2\ndrone a 0 0 0m\n", 2, LineKind::BadCount),
    (b"choreo 2\nmemory 2 16um\n", 2, LineKind::BadNumber),
    (b"choreo 2\nstray 1.5mm\n", 2, LineKind::BadNumber),
    (b"choreo 2\nlate 1.001s\n", 2, LineKind::Range),
    (b"choreo 2\nstray 1mm\nstray 1\n", 3, LineKind::BadNumber),
    (
        b"choreo 2\nstray 1mm\nstray 1mm\n",
        3,
        LineKind::DoubleSetting,
    ),
    (b"choreo 2\nrepeat 2s\n", 2, LineKind::BadNumber),
    // a header stands once
    (b"choreo 1\nchoreo 2\n", 2, LineKind::BadWord),
];

#[test]
fn texts_with_units_are_judged(rt: HostRuntime) {
    let alloc = rt.alloc();
    for &(text, line, kind) in IN_UNITS {
        assert!(rt; has_fault(alloc, text, line, kind));
    }
}

// Whether a text is read, where it isn't too long.
fn is_read(alloc: Global, text: &[u8]) -> bool {
    if text.len() > MOST_TEXT {
        return false;
    }
    match read_show(alloc, text) {
        Ok(_) => true,
        Err(_) => false,
    }
}

#[test]
fn the_longest_text_is_read(rt: HostRuntime) -> Result<(), Fail> {
    let alloc = rt.alloc();
    let mut text = Vec::new(alloc);
    text.extend_from_slice(SMALLEST)?;
    text.push(b'#')?;
    for _ in SMALLEST.len() + 1..MOST_TEXT {
        text.push(b'x')?;
    }
    assert!(rt; text.len() == MOST_TEXT && is_read(alloc, text.as_slice()));
    Ok(())
}
