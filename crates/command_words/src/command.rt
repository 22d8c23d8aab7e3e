//! What the words ask for.
ghost use Rattle.std.specs.Prelude.{◌≡◌, ℕ, ◌≤◌, Bool, map, string_bytes, IfSome, Option, option_map};
ghost use Rattle.command_words.specs.Commands as commands;
ghost use Rattle.command_words.specs.Commands.{IsCommand, command_of, drill_in, help_text, has};
ghost use Rattle.command_words.specs.declared.options.Options.{Options};

use crate::flight::FlightOptions;
use crate::options::{OptionName, number_from, options_for};
use whole_numbers::{Depth, Fine, MOST_DRONES};

/// What the program is asked for. `depth` says into how small parts a cue is cut: at most into 2^depth.
/// `start` says whether the drones are started, `readback` whether the memories are read back before that. The forms
/// are those of [`help_text`].
#[derive(Clone, Copy, PartialEq, Eq)]
pub enum Command {
    /// The forms of the commands.
    Help,
    /// The program's version.
    Version,
    /// Whether a show fits and its drones keep apart.
    Check {
        depth: Depth,
    },
    /// The plan text of such a show.
    Compile {
        depth: Depth,
    },
    /// The certificate of such a show.
    Certify {
        depth: Depth,
    },
    /// Where its drones are, every `step` milliseconds, 1 to 60,000.
    Play {
        depth: Depth,
        step: u16,
    },
    /// The numbers of such a show.
    Report {
        depth: Depth,
    },
    /// Whether a certificate is valid for a show.
    Verify,
    /// What an upload of such a show leaves in drones after a schedule.
    Rehearse {
        depth: Depth,
        start: bool,
        readback: bool,
    },
    /// An upload of such a show through link frames.
    Upload {
        depth: Depth,
        start: bool,
        readback: bool,
    },
    /// A flight of three shows, the way up, the show and the way down, through frames. All land at a height of 0 to
    /// 32,767.
    Direct {
        options: FlightOptions,
    },
    /// The numbers of the drill's show of this many drones, 1 to 32.
    Drill {
        drones: u8,
        depth: Depth,
    },
    /// Whether its drones keep out of the boxes and in the volumes of a text of regions.
    Boxes {
        depth: Depth,
    },
    /// How fast its drones are at most, and whether that is within `limit` micrometres per second, 1 to 999,999,999.
    Speed {
        depth: Depth,
        limit: Option<u32>,
    },
    /// Why the show is refused: its first blocked part, and where two drones come closest and touch among the instants
    /// that cut each cue into 2^`fine` parts; with `all` each pair and cue that is blocked.
    Explain {
        depth: Depth,
        fine: Fine,
        all: bool,
    },
    /// How fast the speeds of its drones change at most and where they jump, and whether that is within `accel`
    /// millimetres per second squared and `jump` millimetres per second, each 0 to 999,999,999.
    Dynamics {
        depth: Depth,
        accel: Option<u32>,
        jump: Option<u32>,
    },
}

// The depth of a command whose one option it is.
fn depth_of(words: &[String]) -> Option<Depth>
    ensures { (make : ℕ → Command) → option_map make result ≡ commands.with_depth make (map string_bytes words.now) }
{
    let options = options_for(&[OptionName::Depth], words)?;
    Some(options.depth())
}

fn bare(command: Command, words: &[String]) -> Option<Command>
    ensures value { result ≡ commands.bare command (map string_bytes words.now) }
    ensures same { IfSome result (λ c. c ≡ command) }
{
    let _ = options_for(&[], words)?;
    Some(command)
}

// The command of this name that studies a show, with the words after it.
fn study(name: &[u8], words: &[String]) -> Option<Command>
    ensures value { result ≡ commands.study name.now (map string_bytes words.now) }
    ensures command { IfSome result IsCommand }
{
    if name == b"boxes".as_slice() {
        let depth = depth_of(words)?;
        return Some(Command::Boxes { depth });
    }
    if name == b"speed".as_slice() {
        let options = options_for(&[OptionName::Depth, OptionName::Limit], words)?;
        return Some(Command::Speed {
            depth: options.depth(),
            limit: options.limit(),
        });
    }
    if name == b"explain".as_slice() {
        let names = [OptionName::Depth, OptionName::Fine, OptionName::All];
        let options = options_for(&names, words)?;
        return Some(Command::Explain {
            depth: options.depth(),
            fine: options.fine(),
            all: options.has(OptionName::All),
        });
    }
    if name == b"dynamics".as_slice() {
        let names = [OptionName::Depth, OptionName::Accel, OptionName::Jump];
        let options = options_for(&names, words)?;
        return Some(Command::Dynamics {
            depth: options.depth(),
            accel: options.accel(),
            jump: options.jump(),
        });
    }
    None
}

// The command of this name that flies a show, with the words after it.
fn flying(name: &[u8], words: &[String]) -> Option<Command>
    ensures value { result ≡ commands.flying name.now (map string_bytes words.now) }
    ensures command { IfSome result IsCommand }
{
    if name == b"direct".as_slice() {
        let names = [
            OptionName::Depth,
            OptionName::Near,
            OptionName::At,
            OptionName::Silence,
            OptionName::Floor,
            OptionName::Descent,
            OptionName::Then,
        ];
        let options = options_for(&names, words)?;
        return Some(Command::Direct {
            options: options.flight(),
        });
    }
    study(name, words)
}

// The command of this name that takes packets to drones, with the words after it.
fn sending(name: &[u8], words: &[String]) -> Option<Command>
    ensures value { result ≡ commands.sending name.now (map string_bytes words.now) }
    ensures command { IfSome result IsCommand }
{
    let names = [OptionName::Depth, OptionName::Start, OptionName::Readback];
    if name == b"rehearse".as_slice() {
        let options = options_for(&names, words)?;
        return Some(Command::Rehearse {
            depth: options.depth(),
            start: options.has(OptionName::Start),
            readback: options.has(OptionName::Readback),
        });
    }
    if name == b"upload".as_slice() {
        let options = options_for(&names, words)?;
        return Some(Command::Upload {
            depth: options.depth(),
            start: options.has(OptionName::Start),
            readback: options.has(OptionName::Readback),
        });
    }
    flying(name, words)
}

// The drill that the words after `drill` are: a number of drones, and then options.
fn drill(words: &[String]) -> Option<Command>
    ensures value { result ≡ drill_in (map string_bytes words.now) }
    ensures command { IfSome result IsCommand }
{
    let (number, words) = words.split_first()?;
    let drones = number_from(number.as_bytes(), 1, MOST_DRONES as u32)? as u8;
    let depth = depth_of(words)?;
    Some(Command::Drill { drones, depth })
}

fn named(name: &[u8], words: &[String]) -> Option<Command>
    ensures value { result ≡ commands.named name.now (map string_bytes words.now) }
    ensures command { IfSome result IsCommand }
{
    if name == b"help".as_slice() {
        return bare(Command::Help, words);
    }
    if name == b"version".as_slice() {
        return bare(Command::Version, words);
    }
    if name == b"check".as_slice() {
        let depth = depth_of(words)?;
        return Some(Command::Check { depth });
    }
    if name == b"compile".as_slice() {
        let depth = depth_of(words)?;
        return Some(Command::Compile { depth });
    }
    if name == b"certify".as_slice() {
        let depth = depth_of(words)?;
        return Some(Command::Certify { depth });
    }
    if name == b"play".as_slice() {
        let options = options_for(&[OptionName::Depth, OptionName::Step], words)?;
        return Some(Command::Play {
            depth: options.depth(),
            step: options.step(),
        });
    }
    if name == b"report".as_slice() {
        let depth = depth_of(words)?;
        return Some(Command::Report { depth });
    }
    if name == b"verify".as_slice() {
        return bare(Command::Verify, words);
    }
    if name == b"drill".as_slice() {
        return drill(words);
    }
    sending(name, words)
}

/// The command that the words, without the program's name, are: a name, for `drill` a number of drones, and then the
/// options that the command takes, each at most once and in any order (`specs/Commands.antt`).
pub fn command_of(words: &Vec<String>) -> Option<Command>
    ensures value { result ≡ command_of (map string_bytes words.now.items) }
    ensures command { IfSome result IsCommand }
{
    let (name, words) = words.split_first()?;
    named(name.as_bytes(), words)
}

/// The forms of the commands, one a line.
pub fn help_text() -> &'static [u8]
    ensures { result.now ≡ help_text }
{
    b"help\n\
      check [--depth D]\n\
      compile [--depth D]\n\
      certify [--depth D]\n\
      play [--depth D] [--step MS]\n\
      report [--depth D]\n\
      verify\n\
      rehearse [--depth D] [--start] [--readback]\n\
      upload [--depth D] [--start] [--readback]\n\
      direct [--depth D] [--near MM] [--at MM] [--silence MS] [--floor MM] [--descent MS] [--then land|fly]\n\
      drill N [--depth D]\n\
      boxes [--depth D]\n\
      speed [--depth D] [--limit V]\n\
      explain [--depth D] [--fine E] [--all]\n\
      dynamics [--depth D] [--accel A] [--jump J]\n\
      version\n"
}
