//! The limits that several crates share.

ghost use Rattle.std.specs.Prelude.{◌≡◌};
ghost use Rattle.whole_numbers.specs.Limits.{most_cues, most_depth, most_drones, most_fine, most_segments, most_text};

/// How many cues a show has at most.
pub const MOST_CUES: usize = 1000;

/// How often a segment is halved at most (docs/COMMANDS.md, "Options").
pub const MOST_DEPTH: u8 = 8;

/// How many drones a show has at most, and how many roles a figure (docs/LANGUAGE.md, "How many").
pub const MOST_DRONES: usize = 32;

/// How often a cue is halved at most to list its instants (docs/COMMANDS.md, "Options").
pub const MOST_FINE: u8 = 5;

/// How many segments a trajectory in a drone's memory has at most, since a define tells their number in one byte.
pub const MOST_SEGMENTS: usize = 255;

/// How many bytes the text of a show has at most, and one of regions or of a schedule.
pub const MOST_TEXT: usize = 1_048_576;

/// A law: the limits are the numbers of the definitions.
pub fn limits_law()
    ensures cues { MOST_CUES ≡ most_cues }
    ensures depth { MOST_DEPTH ≡ most_depth }
    ensures drones { MOST_DRONES ≡ most_drones }
    ensures fine { MOST_FINE ≡ most_fine }
    ensures segments { MOST_SEGMENTS ≡ most_segments }
    ensures text { MOST_TEXT ≡ most_text }
{}
