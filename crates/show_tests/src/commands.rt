//! Chosen words and the commands that they are.
ghost use Rattle.std.specs.Prelude.{◌≡◌, ◌≤◌};

use command_words::{Command, command_of, help_text};
use std::alloc::{AllocError, Global};
use whole_numbers::{Depth, Fine};

// The command that the words of a line are, which one space each divides.
fn command(alloc: Global, line: &str) -> Result<Option<Command>, AllocError> {
    let mut words = Vec::new(alloc);
    for word in line.split(' ') {
        words.push(String::from_str(alloc, word)?)?;
    }
    Ok(command_of(&words))
}

fn depth(levels: u8) -> Depth
    requires { levels ≤ 8 }
    ensures { result ≡ levels }
{
    Depth::make(levels)
}

fn play(depth: u8, step: u16) -> Command
    requires { depth ≤ 8 }
{
    let depth = Depth::make(depth);
    Command::Play { depth, step }
}

fn rehearse(depth: u8, start: bool, readback: bool) -> Command
    requires { depth ≤ 8 }
{
    let depth = Depth::make(depth);
    Command::Rehearse {
        depth,
        start,
        readback,
    }
}

fn upload(depth: u8, start: bool, readback: bool) -> Command
    requires { depth ≤ 8 }
{
    let depth = Depth::make(depth);
    Command::Upload {
        depth,
        start,
        readback,
    }
}

fn drill(drones: u8, depth: u8) -> Command
    requires { depth ≤ 8 }
{
    let depth = Depth::make(depth);
    Command::Drill { drones, depth }
}

fn speed(depth: u8, limit: Option<u32>) -> Command
    requires { depth ≤ 8 }
{
    let depth = Depth::make(depth);
    Command::Speed { depth, limit }
}

fn explain(depth: u8, fine: u8, all: bool) -> Command
    requires depth { depth ≤ 8 }
    requires fine { fine ≤ 5 }
{
    let depth = Depth::make(depth);
    let fine = Fine::make(fine);
    Command::Explain { depth, fine, all }
}

fn dynamics(depth: u8, accel: Option<u32>, jump: Option<u32>) -> Command
    requires { depth ≤ 8 }
{
    let depth = Depth::make(depth);
    Command::Dynamics { depth, accel, jump }
}

// Words, and the commands that they are.
fn commands() -> [(&'static str, Command); 28] {
    [
        ("help", Command::Help),
        ("version", Command::Version),
        ("check", Command::Check { depth: depth(6) }),
        ("check --depth 0", Command::Check { depth: depth(0) }),
        ("compile --depth 8", Command::Compile { depth: depth(8) }),
        (
            "compile --depth 000000008",
            Command::Compile { depth: depth(8) },
        ),
        ("certify --depth 05", Command::Certify { depth: depth(5) }),
        ("play", play(6, 100)),
        ("play --step 1", play(6, 1)),
        ("play --step 60000", play(6, 60_000)),
        ("play --step 500 --depth 3", play(3, 500)),
        ("play --depth 3 --step 000000500", play(3, 500)),
        ("report", Command::Report { depth: depth(6) }),
        ("report --depth 2", Command::Report { depth: depth(2) }),
        ("verify", Command::Verify),
        ("rehearse", rehearse(6, false, false)),
        ("rehearse --start --depth 3", rehearse(3, true, false)),
        ("rehearse --depth 3 --start", rehearse(3, true, false)),
        ("upload --start", upload(6, true, false)),
        ("upload --depth 7", upload(7, false, false)),
        ("upload --depth 7 --start", upload(7, true, false)),
        ("rehearse --readback", rehearse(6, false, true)),
        ("upload --readback --depth 2", upload(2, false, true)),
        ("upload --readback --start", upload(6, true, true)),
        ("drill 1", drill(1, 6)),
        ("drill 32 --depth 8", drill(32, 8)),
        ("drill 004 --depth 6", drill(4, 6)),
        ("drill 000000016", drill(16, 6)),
    ]
}

// The same of the commands that study a show.
fn studies() -> [(&'static str, Command); 15] {
    [
        ("boxes", Command::Boxes { depth: depth(6) }),
        ("boxes --depth 2", Command::Boxes { depth: depth(2) }),
        ("speed", speed(6, None)),
        ("speed --limit 1600000 --depth 0", speed(0, Some(1_600_000))),
        (
            "speed --depth 8 --limit 999999999",
            speed(8, Some(999_999_999)),
        ),
        ("speed --limit 1", speed(6, Some(1))),
        ("explain", explain(6, 5, false)),
        ("explain --fine 0 --depth 3", explain(3, 0, false)),
        ("explain --depth 3 --fine 05", explain(3, 5, false)),
        ("explain --all", explain(6, 5, true)),
        ("explain --fine 0 --all --depth 3", explain(3, 0, true)),
        ("dynamics", dynamics(6, None, None)),
        (
            "dynamics --jump 0 --depth 8 --accel 999999999",
            dynamics(8, Some(999_999_999), Some(0)),
        ),
        ("dynamics --accel 0", dynamics(6, Some(0), None)),
        (
            "dynamics --depth 0 --jump 000000300",
            dynamics(0, None, Some(300)),
        ),
    ]
}

fn is_command(alloc: Global, line: &str, wanted: Command) -> bool {
    match command(alloc, line) {
        Ok(found) => found == Some(wanted),
        Err(_) => false,
    }
}

#[test]
fn words_that_are_a_command(rt: HostRuntime) {
    for (line, wanted) in commands() {
        assert!(rt; is_command(rt.alloc(), line, wanted), "{line}");
    }
    for (line, wanted) in studies() {
        assert!(rt; is_command(rt.alloc(), line, wanted), "{line}");
    }
}

const NO_COMMANDS: &[&str] = &[
    "",
    "Compile",
    "compil",
    "compiled",
    "--help",
    "--version",
    "help help",
    "help --depth 3",
    "version version",
    "version --depth 3",
    "Version",
    "version ",
    "verify --depth 6",
    "verify --start",
    "check --start",
    "check --step 5",
    "compile --step 100",
    "compile --depth",
    "compile --depth 9",
    "compile --depth 0000000008",
    "compile --depth -1",
    "compile --depth +1",
    "compile --depth x",
    "compile --depth ",
    "compile --depth=6",
    "compile 6",
    "compile --Depth 6",
    "certify --depth 6 --depth 6",
    "certify --depth 6 --depth",
    "report --step 5",
    "report --start",
    "play --step 0",
    "play --step 60001",
    "play --step 5 --step 5",
    "play --start",
    "play --depth --step 5",
    "play --step 5 --depth 3 --step 5",
    "rehearse --start 3",
    "rehearse --start --start",
    "rehearse --step 5",
    "upload --start --depth 3 --start",
    "upload --step 5 --start",
    "upload --readback --readback",
    "check --readback",
    "direct --floor 32768",
    "direct --silence 0",
    "direct --then stop",
    "direct --near 80 --near 80",
    "drill",
    "drill 0",
    "drill 33",
    "drill 2 2",
    "drill --depth 3 4",
    "drill 4 --start",
    "drill 4 --limit 5",
    "check --limit 5",
    "play --fine 5",
    "rehearse --limit 5",
    "upload --fine 5",
    "verify --fine 5",
    "boxes --start",
    "boxes --limit 5",
    "boxes --fine 5",
    "boxes --depth 3 --depth 3",
    "speed --limit 0",
    "speed --limit 1000000000",
    "speed --limit 5 --limit 5",
    "speed --fine 5",
    "explain --fine 6",
    "explain --fine 5 --depth 3 --fine 5",
    "explain --jump 300",
    "explain --all --all",
    "explain --all 3",
    "check --all",
    "speed --accel 5",
    "check --accel 5",
    "drill 4 --jump 300",
    "play --jump 300",
    "rehearse --accel 5",
    "verify --jump 300",
    "dynamics --accel",
    "dynamics --accel 1000000000",
    "dynamics --jump 5 --accel 5 --jump 5",
    "dynamics --limit 5",
];

#[test]
fn words_that_are_no_command(rt: HostRuntime) {
    for line in NO_COMMANDS {
        assert!(rt; matches!(command(rt.alloc(), line), Ok(None)), "{line}");
    }
    assert!(rt; command_of(&Vec::new(rt.alloc())).is_none());
}

const FORMS: &[&[u8]] = &[
    b"help",
    b"check [--depth D]",
    b"compile [--depth D]",
    b"certify [--depth D]",
    b"play [--depth D] [--step MS]",
    b"report [--depth D]",
    b"verify",
    b"rehearse [--depth D] [--start] [--readback]",
    b"upload [--depth D] [--start] [--readback]",
    b"direct [--depth D] [--near MM] [--at MM] [--silence MS] [--floor MM] [--descent MS] [--then land|fly]",
    b"drill N [--depth D]",
    b"boxes [--depth D]",
    b"speed [--depth D] [--limit V]",
    b"explain [--depth D] [--fine E] [--all]",
    b"dynamics [--depth D] [--accel A] [--jump J]",
    b"version",
];

// What comes after a line of a text that begins with it.
fn after<'a>(text: &'a [u8], line: &[u8]) -> Option<&'a [u8]> {
    text.strip_prefix(line)?.strip_prefix(b"\n".as_slice())
}

#[test]
fn the_forms_of_the_commands(rt: HostRuntime) {
    let mut rest = help_text();
    for line in FORMS {
        match after(rest, line) {
            Some(others) => rest = others,
            None => panic!(rt; "not {line:?}"),
        }
    }
    assert!(rt; rest.is_empty());
}
