//! What a show is made of. Lines of a text count from 1; a `line` is that on which the thing begins.

use crate::parts::{Act, Frame, Name, Point};
use listed::Listed;

/// Where the trajectories go in a drone's memory; how large the drones' ellipsoids are, by half axes in millimetres,
/// `r` across and `h` upwards; how many millimetres a drone strays from its curve at most, and how many milliseconds
/// one is late against another.
#[derive(Clone, Copy, PartialEq, Eq)]
pub struct Settings {
    pub memory_id: u8,
    pub offset: u16,
    pub trajectory_id: u8,
    pub r: u16,
    pub h: u16,
    pub stray: u16,
    pub late: u16,
}

/// A line of a cue: what one drone does, or a formation that its drones take, from rest to rest where `smooth`.
#[derive(Drop)]
pub enum ActLine {
    One {
        line: u32,
        name: Name,
        act: Act,
    },
    Form {
        line: u32,
        formation: Name,
        smooth: bool,
    },
}

/// A block of a body. A cue lasts `ms` milliseconds.
#[derive(Drop)]
pub enum Block {
    Cue {
        line: u32,
        ms: u16,
        acts: Listed<ActLine>,
    },
    Repeat {
        line: u32,
        times: u32,
        body: Vec<Block>,
    },
    Perform {
        line: u32,
        figure: Name,
        frame: Frame,
        drones: Listed<Name>,
    },
}

/// A drone, or a drone's place in a formation.
#[derive(Drop)]
pub struct DroneLine {
    pub line: u32,
    pub name: Name,
    pub at: Point,
}

/// Places that drones take together.
#[derive(Drop)]
pub struct Formation {
    pub line: u32,
    pub name: Name,
    pub places: Listed<DroneLine>,
}

/// Blocks that are performed by drones in roles.
#[derive(Drop)]
pub struct Figure {
    pub line: u32,
    pub name: Name,
    pub roles: Listed<Name>,
    pub body: Vec<Block>,
}

/// A show: each list in the order of the lines.
#[derive(Drop)]
pub struct Show {
    pub settings: Settings,
    pub drones: Listed<DroneLine>,
    pub formations: Listed<Formation>,
    pub figures: Listed<Figure>,
    pub body: Vec<Block>,
}
