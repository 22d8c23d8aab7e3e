//! What happens to the director, and what it says. Drones are numbered from 0; lengths are in millimetres,
//! yaw in tenths of a degree, times in milliseconds.

/// An order to a drone. Rise, go, land and halt are commands of Bitcraze's high-level commander (`take off`, `go to`,
/// `land`, `stop`), `Start` starts the trajectory that was uploaded, and `Group` sets the group mask.
#[derive(Clone, Copy, PartialEq, Eq)]
pub enum Order {
    /// The motors may turn.
    Arm,
    /// Straight up, to this height.
    Rise {
        z: i16,
        ms: u32,
    },
    /// From rest to rest, straight to this position.
    Go {
        x: i16,
        y: i16,
        z: i16,
        yaw: i16,
        ms: u32,
    },
    /// Straight down, to this height.
    Land {
        z: i16,
        ms: u32,
    },
    /// Fly what was uploaded: for drones in the flight's group alone.
    Start,
    /// All motors off, at once.
    Halt,
    /// The motors may turn no more.
    Disarm,
    /// Be in the flight's group, and in no other.
    Group,
}

/// What a bridge knows of a drone: where it is, and what the bridge judges of it.
#[derive(Clone, Copy, Default, PartialEq, Eq)]
pub struct Sample {
    /// For how long this has been known.
    pub age: u32,
    pub x: i16,
    pub y: i16,
    pub z: i16,
    /// Battery, estimator and heading allow a take-off.
    pub ready: bool,
    /// Its motors may turn.
    pub armed: bool,
    /// It tumbled, is locked, or its battery is critical.
    pub lost: bool,
    /// It stands, with its motors off.
    pub down: bool,
    /// It says that it flies.
    pub flying: bool,
    /// Its estimate is sure of where it is.
    pub sure: bool,
}

/// The operator's signals.
#[derive(Clone, Copy, PartialEq, Eq)]
pub enum Signal {
    /// A step that waits for this may begin.
    Go,
    /// All that have risen land where they are.
    Land,
    /// All motors off.
    Stop,
}

/// What happens to the director.
#[derive(Clone, Copy, PartialEq, Eq)]
pub enum Event {
    /// So much time has passed since the clock before.
    Clock { ms: u32 },
    /// A sample of a drone came.
    Seen { drone: u8, sample: Sample },
    /// A drone has answered an order, with this status: 0 where it obeys.
    Answered { drone: u8, status: u8 },
    /// The operator gave a signal.
    Said { signal: Signal },
}

/// What may be wrong with a drone.
#[derive(Clone, Copy, Default, PartialEq, Eq)]
pub enum Fault {
    /// Its last sample is older than the flight's `silence`.
    #[default]
    Silent,
    /// For 300 ms its samples have been off where it is told to be, in the show, on a way or where it waits.
    Astray,
    /// A sample says that it is lost.
    Lost,
    /// It refused an order.
    Refused,
    /// It doesn't meet the next step's condition, 8 seconds after that step's time.
    Late,
    /// For 300 ms its samples have been unsure of where it is.
    Unsure,
    /// While drones are in the air, it is outside of the flight's room.
    Outside,
    /// A landing is wanted, and waits for a window that covers it. Its note names no drone: the number after the last.
    Uncovered,
}

/// A fault of a drone, as people are told of it.
#[derive(Clone, Copy, Default, PartialEq, Eq)]
pub struct Note {
    pub drone: u8,
    pub fault: Fault,
}

/// What the director says.
#[derive(Clone, Copy, PartialEq, Eq)]
pub enum Frame {
    /// An order to one drone.
    To { drone: u8, order: Order },
    /// An order to all drones.
    ToAll { order: Order },
    /// People are told of a fault.
    Noted { note: Note },
    /// The flight is over: whether it was flown to its last step; and whether each drone was at its curve in each
    /// sample of the show, with none silent. Nothing is kept that wasn't flown.
    Over { flown: bool, kept: bool },
}

impl Default for Frame {
    fn default() -> Self {
        Frame::Over {
            flown: false,
            kept: false,
        }
    }
}
