//! The directions of both versions of certificates, with their thresholds.

ghost use Rattle.std.specs.Prelude.{◌≡◌, ◌<◌, None, is_none};
ghost use Rattle.sep_parts.specs.Directions.{IsClearance, direction_of};
ghost use Rattle.sep_parts.specs.Levels.{IsLevel, root};
ghost use Rattle.sep_parts.specs.Separates.{low_value};
ghost use Rattle.sep_parts.specs.Trees.{IsKnown, IsShallow};
ghost use Rattle.sep_parts.specs.Versions.{IsVersion, known_in, table_of};
ghost use Rattle.sep_certificate.specs.Certificates.{node_fault};

use fleet_curves::Difference;
use sep_certificate::{CertFault, node_fault};
use sep_parts::{Clearance, DIRECTIONS, Level, Node, Ruler, Slot, WIDE};
use std::marker::Model;
use whole_numbers::Depth;

/// The directions of both versions of certificates, with their thresholds for a clearance.
#[derive(Drop)]
pub struct Tables {
    old: Ruler<26>,
    wide: Ruler<98>,
}

impl Model for Tables {
    ghost use Rattle.std.specs.Prelude.{◌≡◌};
    ghost use Rattle.sep_parts.specs.declared.clearance.Clearance.{Clearance};
    ghost use Rattle.certificate_checker.specs.Steps.{measure_of};

    ghost Value = { Clearance };

    ghost view = { λ t. t.old.clearance };

    ghost invariant = { λ t. (t.old ≡ measure_of 1 t.old.clearance) × (t.wide ≡ measure_of 2 t.old.clearance) };
}

impl Tables {
    pub fn make(clearance: Clearance) -> Tables
        requires clearance { IsClearance clearance }
        ensures { result ≡ clearance }
    {
        Tables {
            old: Ruler::make(&DIRECTIONS, clearance),
            wide: Ruler::make(&WIDE, clearance),
        }
    }

    // What is wrong with a node at a place of the differences `diff`, by the directions of a version.
    pub fn fault(
        &self,
        version: u8,
        depth: Depth,
        diff: &Difference,
        level: &Level,
        slot: Slot,
        node: Node,
    ) -> Option<CertFault>
        requires version { IsVersion version }
        requires level { IsLevel diff.now level.now }
        requires known { IsKnown (known_in version) node }
        ensures exact { result ≡ node_fault (record { clearance = self.now; depth = depth }) (table_of version) diff.now
            slot level.now.place node }
        ensures shallow { result ≡ None → IsShallow level.now.place node }
    {
        if version == 1 {
            node_fault(diff, level, slot, &self.old, depth, node)
        } else {
            node_fault(diff, level, slot, &self.wide, depth, node)
        }
    }

    // Whether the direction of a version with this number separates the whole cue.
    pub fn separates_whole(&self, version: u8, diff: &Difference, dir: u8) -> bool
        requires version { IsVersion version }
        requires dir { dir < known_in version }
        ensures { result ≡ is_none (low_value self.now diff.now root (direction_of (table_of version) dir)) }
    {
        if version == 1 {
            self.old.separates_whole(diff, dir as usize)
        } else {
            self.wide.separates_whole(diff, dir as usize)
        }
    }
}
