//! Why the program refuses, as a value.

ghost use Rattle.std.specs.Prelude.{◌≡◌};
ghost use Rattle.refusals.specs.Refusals.{status_of};

use bezier_core::Place;
use byte_streams::status::{
    BLOCKED, DIFFERS, ENDED, ENTERS, FAULTY, GAVE_UP, NO_ROOM, NO_SHOW, NOT_VALID, READ_FAILED,
    REFUSED, TOO_ABRUPT, TOO_FAST, USAGE,
};
use choreo_lines::LineKind;
use choreo_show::Name;
use cue_grid::GridFault;
use whole_numbers::Depth;

/// Two drones in a cue, which counts from 0.
#[derive(Drop)]
pub struct Pair {
    pub first: Name,
    pub second: Name,
    pub cue: u16,
}

/// Why the program refuses. Lines of texts count from 1; cues, parts, trees, packets and control values from 0.
#[derive(Drop)]
pub enum Refusal {
    /// The words are no command.
    Usage,
    /// The show's text is longer than 1,048,576 bytes.
    TooLarge,
    /// A faulty line of the show's text, and what is wrong with it.
    Line {
        line: u32,
        kind: LineKind,
    },
    /// A fault of names or cues.
    Grid {
        fault: GridFault,
    },
    /// A number that doesn't fit two bytes when it is rounded, on the axes 0 to 3: x, y, z and yaw. The value is that
    /// before rounding, in micrometres, or on yaw in tenths of a degree.
    Range {
        line: u32,
        axis: u8,
        value: i64,
    },
    /// A drone whose trajectory takes more bytes than it has room for.
    Room {
        drone: Name,
        bytes: u32,
        room: u32,
    },
    /// A drone whose trajectory has more than 255 segments, whole holds that follow each other joined.
    Segments {
        drone: Name,
        segments: u32,
    },
    /// No direction separates two drones in a part of a cue: part `index` of `2^depth` equal ones.
    Blocked {
        pair: Pair,
        index: u16,
        depth: Depth,
    },
    /// A read failed.
    Read,
    /// The schedule ended before the upload did.
    Ended,
    /// A packet of a drone wasn't acknowledged in time.
    GaveUp {
        drone: Name,
        packet: u16,
    },
    /// A drone refused a packet with this status.
    Refused {
        drone: Name,
        packet: u16,
        status: u8,
    },
    /// A byte that was read back from a drone's memory differs from the load's; the address is that in the memory.
    Differs {
        drone: Name,
        address: u32,
        wanted: u8,
        got: u8,
    },
    /// A faulty line of the second text, or a marker line where none may stand.
    SecondLine {
        line: u32,
    },
    /// The second text is longer than it may be.
    SecondTooLarge,
    /// The certificate has no tree for a pair.
    Missing {
        pair: Pair,
    },
    /// A certificate of this version has a tree of no pair and cue.
    Extra {
        version: u8,
        tree: u32,
    },
    /// A split of the tree of a pair stands at the certificate's depth.
    TooDeep {
        pair: Pair,
    },
    /// A leaf of the tree of a pair names a direction of the version that doesn't separate its part; the control value
    /// is the first at which it fails.
    Fails {
        pair: Pair,
        place: Place,
        version: u8,
        dir: u8,
        control: u8,
    },
    /// A drone isn't kept from or in a region in a part of a cue: part `index` of `2^depth` equal ones. Regions count
    /// from 0.
    Enters {
        region: u8,
        drone: Name,
        cue: u16,
        index: u16,
        depth: Depth,
    },
    /// The bound on a drone's speed on the axis 0, 1 or 2, which are x, y and z, is above the limit. It is in
    /// micrometres per second.
    TooFast {
        drone: Name,
        axis: u8,
        speed: i64,
    },
    /// The bound on a drone's acceleration on the axis 0, 1 or 2 is above the limit, in what it flies from the
    /// beginning of this cue on. It is in micrometres per second squared.
    Accelerates {
        drone: Name,
        cue: u16,
        axis: u8,
        acceleration: i64,
    },
    /// A drone's speed on the axis 0, 1 or 2 jumps at the beginning of this cue by more than the limit, in micrometres
    /// per second. The last instant is the beginning of the cue after the last one.
    Jumps {
        drone: Name,
        cue: u16,
        axis: u8,
        speed: i64,
    },
}

impl Refusal {
    /// The status that the program ends with (docs/COMMANDS.md, "Statuses").
    pub fn status(&self) -> u8
        ensures { result ≡ status_of self.now }
    {
        match self {
            Refusal::Usage => USAGE,
            Refusal::TooLarge
            | Refusal::Line { .. }
            | Refusal::Grid { .. }
            | Refusal::Range { .. } => NO_SHOW,
            Refusal::Room { .. } | Refusal::Segments { .. } => NO_ROOM,
            Refusal::Blocked { .. } => BLOCKED,
            Refusal::Read => READ_FAILED,
            Refusal::Ended => ENDED,
            Refusal::GaveUp { .. } => GAVE_UP,
            Refusal::Refused { .. } => REFUSED,
            Refusal::Differs { .. } => DIFFERS,
            Refusal::SecondLine { .. } | Refusal::SecondTooLarge => FAULTY,
            Refusal::Missing { .. }
            | Refusal::Extra { .. }
            | Refusal::TooDeep { .. }
            | Refusal::Fails { .. } => NOT_VALID,
            Refusal::Enters { .. } => ENTERS,
            Refusal::TooFast { .. } => TOO_FAST,
            Refusal::Accelerates { .. } | Refusal::Jumps { .. } => TOO_ABRUPT,
        }
    }
}
