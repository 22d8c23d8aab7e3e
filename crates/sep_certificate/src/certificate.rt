//! A certificate, and what may be wrong with one.

use bezier_core::Place;
use sep_parts::Forest;

/// A certificate: for each pair of drones and each cue a tree, none deeper than `depth`.
#[derive(Drop)]
pub struct Certificate {
    /// 1, where leaves name the 26 directions, or 2, where they name the 98.
    pub version: u8,
    /// The greatest depth of a part, 0 to 8: a part of depth d is one of 2^d equal parts of its cue.
    pub depth: u8,
    /// The trees by pair, (0, 1), (0, 2) and so on by first and then second drone, and for each pair by cue.
    pub trees: Forest,
}

/// Why a certificate isn't valid. Drones, cues, trees and control values count from 0.
#[derive(Clone, Copy)]
pub enum CertFault {
    /// There is no tree for this pair and cue: the first such.
    Missing {
        a: u8,
        b: u8,
        cue: u16,
    },
    /// This tree is the first after those of all pairs and cues.
    Extra {
        tree: u32,
    },
    /// A split stands at the certificate's depth, in the tree of this pair and cue.
    TooDeep {
        a: u8,
        b: u8,
        cue: u16,
    },
    /// The direction doesn't separate the part at the place: this control value is the first below the threshold.
    Fails {
        a: u8,
        b: u8,
        cue: u16,
        place: Place,
        dir: u8,
        control: u8,
    },
}
