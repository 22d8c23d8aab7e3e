//! What a command reads, and how far it searches.

use whole_numbers::Depth;

/// What a command reads, and how far it searches. Each command has one of its own.
#[derive(Clone, Copy)]
pub struct Ways {
    /// It reads its input.
    pub reads: bool,
    /// It wants bytes after a marker line.
    pub has_second: bool,
    /// It takes these as frames, and writes frames.
    pub by_frames: bool,
    /// The depth at which it refuses a show of which it can't show that its drones keep apart, if it does.
    pub depth: Option<Depth>,
}
