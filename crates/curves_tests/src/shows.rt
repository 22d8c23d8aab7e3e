//! Rows of whole shows: those of docs/COMMANDS.md, or computed by an independent program with fractions.
ghost use Rattle.std.specs.Prelude.{◌≡◌, ◌<◌, ◌≤◌, All, length, IfOk};
ghost use Rattle.integer_player.specs.Played.{IsPlayable, duration_of};

use crate::positions::traj;
use byte_streams::{Failed, MemSink};
use integer_player::{Name, play};
use std::alloc::{AllocError, Global};
use std::test::Fail;
use traj_codec::{Element, Segment, Traj};

// A name of at most 16 bytes.
fn name_of(bytes: &[u8]) -> Name
    requires { length bytes.now ≤ 16 }
    ensures { result.items ≡ bytes.now }
{
    let mut name = Name::new();
    let _ = name.try_extend_from_slice(bytes);
    name
}

// Whether the rows of a show are these.
fn plays_as(
    alloc: Global,
    names: &[Name],
    trajs: &[Traj],
    total: u32,
    step: u16,
    wanted: &[u8],
) -> Result<bool, AllocError>
    requires some { 1 ≤ step }
    requires few { length trajs.now ≤ 32 }
    requires each { length names.now ≡ length trajs.now }
    requires playable { All IsPlayable trajs.now }
    requires total { All (λ (t : Traj). duration_of t ≡ total) trajs.now }
{
    let mut sink = MemSink::make(alloc, wanted.len() + 1, 100, Vec::new(alloc))?;
    let played = play(names, trajs, total, step, &mut sink);
    Ok(played.is_ok() && sink.written() == wanted)
}

// Along x by a metre from rest to rest.
const METRE: [Element; 4] = [
    Element::Seven {
        v: [0, 0, 0, 1000, 1000, 1000, 1000],
    },
    Element::Constant,
    Element::Constant,
    Element::Constant,
];

#[test]
fn last_instant_is_written_once(rt: HostRuntime) -> Result<(), Fail> {
    let alloc = rt.alloc();
    let segment = Segment {
        ms: 2000,
        elements: METRE,
    };
    let names = [name_of(b"solo")];
    let trajs = [traj(alloc, [0, 0, 1000, 0], &[segment])?];
    let rows: [(u16, &[u8]); 6] = [
        (
            500,
            b"0 solo 0 0 1000000 0\n500 solo 70556 0 1000000 0\n1000 solo 500000 0 1000000 0\n\
1500 solo 929443 0 1000000 0\n2000 solo 1000000 0 1000000 0\n",
        ),
        (
            1000,
            b"0 solo 0 0 1000000 0\n1000 solo 500000 0 1000000 0\n2000 solo 1000000 0 1000000 0\n",
        ),
        (
            1500,
            b"0 solo 0 0 1000000 0\n1500 solo 929443 0 1000000 0\n2000 solo 1000000 0 1000000 0\n",
        ),
        (
            2000,
            b"0 solo 0 0 1000000 0\n2000 solo 1000000 0 1000000 0\n",
        ),
        (
            2001,
            b"0 solo 0 0 1000000 0\n2000 solo 1000000 0 1000000 0\n",
        ),
        (
            60_000,
            b"0 solo 0 0 1000000 0\n2000 solo 1000000 0 1000000 0\n",
        ),
    ];
    for (step, wanted) in rows {
        assert!(rt; plays_as(alloc, &names, &trajs, 2000, step.max(1), wanted)?);
    }
    Ok(())
}

#[test]
fn three_milliseconds(rt: HostRuntime) -> Result<(), Fail> {
    let alloc = rt.alloc();
    let segment = Segment {
        ms: 3,
        elements: [
            Element::Linear { v: -1 },
            Element::Constant,
            Element::Constant,
            Element::Linear { v: 1 },
        ],
    };
    let names = [name_of(b"solo")];
    let trajs = [traj(alloc, [0, 0, 1000, 0], &[segment])?];
    let wanted =
        b"0 solo 0 0 1000000 0\n1 solo -334 0 1000000 3\n2 solo -667 0 1000000 6\n3 solo -1000 0 1000000 10\n";
    assert!(rt; plays_as(alloc, &names, &trajs, 3, 1, wanted)?);
    Ok(())
}

// A hold and a curve.
const JOINED: [Segment; 2] = [
    Segment {
        ms: 400,
        elements: [Element::Constant; 4],
    },
    Segment {
        ms: 100,
        elements: [
            Element::Cubic {
                v: [250, -250, 333],
            },
            Element::Constant,
            Element::Linear { v: 1001 },
            Element::Linear { v: 7 },
        ],
    },
];

// Three segments that last as long together.
const APART: [Segment; 3] = [
    Segment {
        ms: 200,
        elements: [
            Element::Constant,
            Element::Linear { v: -3 },
            Element::Constant,
            Element::Constant,
        ],
    },
    Segment {
        ms: 200,
        elements: [
            Element::Constant,
            Element::Cubic { v: [4, 5, -6] },
            Element::Constant,
            Element::Constant,
        ],
    },
    Segment {
        ms: 100,
        elements: [
            Element::Constant,
            Element::Constant,
            Element::Linear { v: 999 },
            Element::Linear { v: -7 },
        ],
    },
];

// The rows of drones with these segments, every 150 milliseconds.
const EVERY_150: &[u8] = b"0 a 0 0 1000000 0\n0 b -5000 0 1000000 10\n0 c 0 0 1000000 0\n\
150 a 0 0 1000000 0\n150 b -5000 -2250 1000000 10\n150 c 0 0 1000000 0\n\
300 a 0 0 1000000 0\n300 b -5000 2250 1000000 10\n300 c 0 0 1000000 0\n\
450 a 41625 0 1000500 35\n450 b -5000 -6000 999500 -30\n450 c 41625 0 1000500 35\n\
500 a 333000 0 1001000 70\n500 b -5000 -6000 999000 -70\n500 c 333000 0 1001000 70\n";

#[test]
fn drones_have_their_own_segments(rt: HostRuntime) -> Result<(), Fail> {
    let alloc = rt.alloc();
    let names = [name_of(b"a"), name_of(b"b"), name_of(b"c")];
    let trajs = [
        traj(alloc, [0, 0, 1000, 0], &JOINED)?,
        traj(alloc, [-5, 0, 1000, 1], &APART)?,
        traj(alloc, [0, 0, 1000, 0], &JOINED)?,
    ];
    assert!(rt; plays_as(alloc, &names, &trajs, 500, 150, EVERY_150)?);
    Ok(())
}

#[test]
fn a_sink_fails(rt: HostRuntime) -> Result<(), Fail> {
    let alloc = rt.alloc();
    let names = [name_of(b"a"), name_of(b"b"), name_of(b"c")];
    let trajs = [
        traj(alloc, [0, 0, 1000, 0], &JOINED)?,
        traj(alloc, [-5, 0, 1000, 1], &APART)?,
        traj(alloc, [0, 0, 1000, 0], &JOINED)?,
    ];
    for room in 0..EVERY_150.len() {
        let mut sink = MemSink::make(alloc, room, 100, Vec::new(alloc))?;
        assert!(rt; play(&names, &trajs, 500, 150, &mut sink) == Err(Failed));
        assert!(rt; sink.written() == &EVERY_150[..room]);
    }
    // Nothing is written for no drones, so that nothing fails.
    let mut sink = MemSink::make(alloc, 0, 1, Vec::new(alloc))?;
    assert!(rt; play(&[], &[], 500, 150, &mut sink) == Ok(()));
    Ok(())
}

// Ten milliseconds along x and back: at u of them, 900 u (10 - u) micrometres.
const BUMP: Segment = Segment {
    ms: 10,
    elements: [
        Element::Cubic { v: [30, 30, 0] },
        Element::Constant,
        Element::Constant,
        Element::Constant,
    ],
};

// As many bumps as a trajectory may have, at a place on y.
fn bumps(alloc: Global, y: i16) -> Result<Traj, AllocError>
    ensures playable { IfOk result IsPlayable }
    ensures duration { IfOk result (λ t. duration_of t ≡ 2550) }
{
    traj(alloc, [0, y, 1000, 0], &[BUMP; 255])
}

// As many drones as a show may have.
fn fleet(alloc: Global) -> Result<Vec<Traj>, AllocError>
    ensures many { IfOk result (λ ts. length ts.items ≡ 32) }
    ensures playable { IfOk result (λ ts. All IsPlayable ts.items) }
    ensures duration { IfOk result (λ ts. All (λ t. duration_of t ≡ 2550) ts.items) }
{
    let mut trajs = Vec::new(alloc);
    for d in 0..32u8 {
        trajs.push(bumps(alloc, d as i16)?)?;
    }
    Ok(trajs)
}

// Their names: a letter each, from `A` on.
fn letters(alloc: Global) -> Result<Vec<Name>, AllocError>
    ensures { IfOk result (λ names. length names.items ≡ 32) }
{
    let mut names = Vec::new(alloc);
    for d in 0..32u8 {
        names.push(name_of(&[b'A' + d]))?;
    }
    Ok(names)
}

// The row of drone `d` at an instant.
fn bump_row(alloc: Global, ms: u32, d: u8) -> Result<String, AllocError>
    requires { d < 32 }
{
    let u = ms % 10;
    let name = (b'A' + d) as char;
    let x = 900 * u * (10 - u);
    let y = 1000 * d as u32;
    format!(in alloc; "{ms} {name} {x} {y} 1000000 0\n")
}

#[test]
fn a_whole_fleet(rt: HostRuntime) -> Result<(), Fail> {
    let alloc = rt.alloc();
    let trajs = fleet(alloc)?;
    let names = letters(alloc)?;
    let mut wanted = Vec::new(alloc);
    for k in 0..366u32 {
        let ms = (7 * k).min(2550);
        for d in 0..32u8 {
            wanted.extend_from_slice(bump_row(alloc, ms, d)?.as_bytes())?;
        }
    }
    assert!(rt; plays_as(alloc, &names, &trajs, 2550, 7, &wanted)?);
    Ok(())
}
