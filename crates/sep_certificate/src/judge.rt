//! What is wrong with a node of a certificate, and what a valid certificate promises.

ghost use Rattle.std.specs.Prelude.{◌≡◌, ◌<◌, None, length};
ghost use Rattle.std.specs.Option.{option_map};
ghost use Rattle.sep_parts.specs.Rulers.{rules_by};
ghost use Rattle.sep_parts.specs.Levels.{IsLevel};
ghost use Rattle.sep_certificate.specs.Laws.{CertificateLaw};
ghost use Rattle.sep_certificate.specs.Certificates.{node_fault, split_fault};
ghost use Rattle.sep_parts.specs.Trees.{IsKnown, IsShallow};
ghost use Rattle.sep_certificate.specs.Steps.{IsControl};

use crate::certificate::CertFault;
use bezier_core::Place;
use fleet_curves::Difference;
use sep_parts::{Level, Node, Ruler, Slot};
use whole_numbers::Depth;

/// The law of certificates, by any table of directions. With a valid one the ellipsoids around any two different drones
/// share no point, for every list of trajectories that the curves stand for and that move within the reach; and where
/// the entries of the table are from -2 to 2, they are apart by the margin. A whole certificate, whose leaves name
/// directions of the table, is valid exactly where it has no first fault.
pub fn certificate_law()
    ensures { CertificateLaw }
{}

/// What is wrong with a node at a level of the differences `diff`, by the directions of a ruler: a split at the depth,
/// or a leaf whose direction has a control value below its threshold. Takes no memory.
pub fn node_fault<const M: usize>(
    diff: &Difference,
    level: &Level,
    slot: Slot,
    ruler: &Ruler<M>,
    depth: Depth,
    node: Node,
) -> Option<CertFault>
    requires level { IsLevel diff.now level.now }
    requires known { IsKnown (length ruler.now.directions) node }
    ensures exact { result ≡ node_fault (rules_by ruler.now depth) ruler.now.directions diff.now slot level.now.place
        node }
    ensures shallow { result ≡ None → IsShallow level.now.place node }
{
    match node {
        Node::Split => too_deep(level.place, slot, depth),
        Node::Leaf { dir } => {
            // nearly every leaf separates its part, and that is said in fewer bits
            if ruler.separates(diff, level, dir as usize) {
                return None;
            }
            let low = ruler.low_control(diff, level, dir as usize);
            fails(low, slot, level.place, dir)
        }
    }
}

// The fault of a split at the greatest depth.
fn too_deep(place: Place, slot: Slot, depth: Depth) -> Option<CertFault>
    ensures exact { result ≡ split_fault depth slot place }
    ensures shallow { result ≡ None → place.depth < 8 }
{
    if place.depth < depth.levels() {
        None
    } else {
        Some(CertFault::TooDeep {
            a: slot.a,
            b: slot.b,
            cue: slot.cue,
        })
    }
}

// The fault of a leaf with a control value that is too low.
fn fails(low: Option<usize>, slot: Slot, place: Place, dir: u8) -> Option<CertFault>
    requires { IsControl low }
    ensures { result ≡ option_map (CertFault.Fails slot.a slot.b slot.cue place dir) low }
{
    match low {
        Some(control) => Some(CertFault::Fails {
            a: slot.a,
            b: slot.b,
            cue: slot.cue,
            place,
            dir,
            control: control as u8,
        }),
        None => None,
    }
}
