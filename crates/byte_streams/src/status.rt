//! The statuses with which the program and an upload end (docs/COMMANDS.md, "Statuses and fault lines").

/// What the command asks for holds, and was written.
pub const DONE: u8 = 0;

/// Out of memory, and nothing was written.
pub const NO_MEMORY: u8 = 1;

/// The words are no command.
pub const USAGE: u8 = 2;

/// The show's text is faulty or too large, or says a number that no trajectory holds.
pub const NO_SHOW: u8 = 3;

/// A drone's trajectory has too many segments or bytes for its memory.
pub const NO_ROOM: u8 = 4;

/// No direction separates two drones in a part of a cue.
pub const BLOCKED: u8 = 5;

/// A read failed.
pub const READ_FAILED: u8 = 6;

/// A write failed, and only a prefix of the output went out.
pub const WRITE_FAILED: u8 = 7;

/// The schedule or the frames ended before the upload did.
pub const ENDED: u8 = 8;

/// No drone acknowledged a packet in time.
pub const GAVE_UP: u8 = 9;

/// A drone refused a packet.
pub const REFUSED: u8 = 10;

/// The second text, or a frame, is faulty or too large.
pub const FAULTY: u8 = 11;

/// The certificate isn't valid.
pub const NOT_VALID: u8 = 12;

/// An upload takes no more frames.
pub const TOO_MANY_FRAMES: u8 = 13;

/// Read-back found other bytes than were sent.
pub const DIFFERS: u8 = 14;

/// A drone may enter a region.
pub const ENTERS: u8 = 15;

/// A drone may be faster than the limit.
pub const TOO_FAST: u8 = 16;

/// The system didn't give the words, or they aren't UTF-8.
pub const NO_WORDS: u8 = 17;

/// A drone's acceleration or a jump of its speed may be above the limit.
pub const TOO_ABRUPT: u8 = 18;
