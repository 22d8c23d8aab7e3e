//! The certificate of a show, or the first part of a cue in which no direction separates two drones.

ghost use Rattle.std.specs.Prelude.{◌≡◌, ◌≤◌, ℕ, [], Err, IfOk, IsOk};
ghost use Rattle.sep_parts.specs.Directions.{IsClearance};
ghost use Rattle.sep_parts.specs.Apart.{KeepReach};
ghost use Rattle.sep_parts.specs.declared.slot.Slot.{Slot};
ghost use Rattle.whole_numbers.specs.Limits.{most_depth};
ghost use Rattle.fleet_curves.specs.Raised.{raised_of};
ghost use Rattle.sep_certificate.specs.Certificates.{IsWhole, IsValid};
ghost use Rattle.show_plan.specs.Fitting.{IsValidFitted};
ghost use Rattle.show_plan.specs.Separation.{CertificateGives, CountGives, IsShowClear, FlyApart, blocked_at};
ghost use Rattle.show_plan.specs.Separation.{clearance_of, measure_of, searched};
ghost use Rattle.show_plan.specs.Laws.{IsFirstPart, SeparationLaw};
ghost use Rattle.show_plan.specs.Steps.{FindsNodes, FindsTrees, separation_fault};

use crate::fitted::Fitted;
use pair_search::{SearchFault, count_all, search_all, search_law};
use sep_certificate::{Certificate, Curves, certificate_law};
use sep_parts::{Clearance, Forest, Ruler, Slot, WIDE, apart_law, table_law};
use speed_bound::{reach, reach_law};
use std::alloc::{AllocError, Global};
use whole_numbers::Depth;

/// A part of a cue in which no direction separates two drones: part `index` of as many equal parts as the depth gives,
/// counted from 0.
#[derive(Clone, Copy, PartialEq, Eq)]
pub struct BlockedPart {
    /// The two drones and the cue.
    pub slot: Slot,
    /// Which part of the cue.
    pub index: u16,
}

/// Why a show that fits has no certificate.
#[derive(Clone, Copy, PartialEq, Eq)]
pub enum SeparationFault {
    /// The first blocked part, in the order pair, cue, part.
    Blocked { part: BlockedPart },
    /// Out of memory.
    Memory,
}

impl From<AllocError> for SeparationFault {
    ghost use Rattle.std.specs.Prelude.{◌≡◌};
    ghost use Rattle.show_plan.specs.declared.separation.SeparationFault.TheVariants.{Memory};

    ghost from_gives = { λ _ e. e ≡ Memory };

    fn from(_: AllocError) -> Self {
        SeparationFault::Memory
    }
}

/// By parts of which depth speeds are bounded, for how far drones move while they are late.
const REACH_DEPTH: u8 = 6;

/// What is kept clear around the drones of a show that fits: what its settings say, and how far its trajectories move
/// in the time by which a drone may be late.
pub fn clearance_of(f: &Fitted) -> Clearance
    requires valid { IsValidFitted f.now }
    ensures exact { result ≡ clearance_of f.now.settings f.now.trajs }
    ensures clear { IsClearance result }
    ensures reach { KeepReach result f.now.trajs }
{
    reach_law();
    let settings = f.settings;
    Clearance {
        r: settings.r,
        h: settings.h,
        stray: settings.stray,
        late: settings.late,
        reach: reach(f.trajs.as_slice(), settings.late, Depth::make(REACH_DEPTH)),
    }
}

/// The 98 directions, measured for a clearance.
pub fn ruler_of(clearance: Clearance) -> Ruler<98>
    requires { IsClearance clearance }
    ensures { result ≡ measure_of clearance }
{
    table_law();
    Ruler::make(&WIDE, clearance)
}

fn separation_fault(fault: SearchFault) -> SeparationFault
    ensures { result ≡ separation_fault fault }
{
    match fault {
        SearchFault::Blocked { slot, index } => SeparationFault::Blocked {
            part: BlockedPart { slot, index },
        },
        SearchFault::Memory => SeparationFault::Memory,
    }
}

fn trees_of(
    alloc: Global,
    curves: &Curves,
    clearance: Clearance,
    depth: Depth,
) -> Result<Forest, SeparationFault>
    requires clearance { IsClearance clearance }
    ensures finds { FindsTrees clearance depth curves.now result }
    ensures shallow { depth ≤ most_depth }
{
    // a depth is at most 8
    let _levels = depth.levels();
    match search_all(alloc, curves, &ruler_of(clearance), depth) {
        Ok(trees) => Ok(trees),
        Err(fault) => Err(separation_fault(fault)),
    }
}

fn nodes_of(
    alloc: Global,
    curves: &Curves,
    clearance: Clearance,
    depth: Depth,
) -> Result<u32, SeparationFault>
    requires clearance { IsClearance clearance }
    ensures finds { FindsNodes clearance depth curves.now result }
    ensures shallow { depth ≤ most_depth }
{
    // a depth is at most 8
    let _levels = depth.levels();
    match count_all(alloc, curves, &ruler_of(clearance), depth) {
        Ok(count) => Ok(count),
        Err(fault) => Err(separation_fault(fault)),
    }
}

/// A law. The blocked part that the contract of [`certificate`] cites is what its name says, for all trajectories:
/// there is none exactly where each part of the depth has a separating direction, for each pair in each cue; else it is
/// the first that has none, in the order pair, cue, part.
pub fn separation_law()
    ensures { SeparationLaw }
{}

/// The certificate of a show that fits: for each pair of drones and each cue the tree with the largest possible leaves,
/// each with the first direction in the order of the table that separates its part. `depth` is the greatest depth of a
/// part, 0 to 8.
///
/// `Blocked` exactly where some part of that depth has no separating direction, for some pair and cue: the first, in
/// the order pair, cue, part. Out of memory is the only other refusal. Where it is Ok, any two drones fly apart, by
/// what the settings let them stray and be late (docs/SEPARATION.md).
pub fn certificate(alloc: Global, f: &Fitted, depth: Depth) -> Result<Certificate, SeparationFault>
    requires valid { IsValidFitted f.now }
    ensures gives { CertificateGives f.now.settings depth f.now.trajs result }
    ensures whole { IfOk result (λ cert. IsWhole cert) }
    ensures valid { IfOk result
        (λ cert. IsValid searched (raised_of f.now.trajs) (clearance_of f.now.settings f.now.trajs) cert) }
    ensures clear { IsOk result → IsShowClear f.now.settings depth f.now.trajs }
    ensures blocked { (slot : Slot) (index : ℕ) → result ≡ Err (SeparationFault.Blocked (blocked_at slot index))
        → IsFirstPart f.now.settings depth f.now.trajs slot index }
    ensures apart { IsOk result → FlyApart f.now.settings f.now.sent }
    ensures apart_by_cue { IsOk result → FlyApart f.now.settings f.now.trajs }
{
    search_law();
    separation_law();
    certificate_law();
    apart_law();
    let clearance = clearance_of(f);
    let curves = Curves::of_slice(alloc, f.trajs.as_slice())?;
    let trees = trees_of(alloc, &curves, clearance, depth)?;
    Ok(Certificate {
        version: 2,
        depth: depth.levels(),
        trees,
    })
}

/// How many nodes the certificate of a show that fits has: what [`certificate`] would return, counted and not kept.
/// Conditions and refusals are those of [`certificate`], and so is its promise: where it is Ok, any two drones are
/// apart at each instant of the show.
pub fn count_nodes(alloc: Global, f: &Fitted, depth: Depth) -> Result<u32, SeparationFault>
    requires valid { IsValidFitted f.now }
    ensures gives { CountGives f.now.settings depth f.now.trajs result }
    ensures clear { IsOk result → IsShowClear f.now.settings depth f.now.trajs }
    ensures blocked { (slot : Slot) (index : ℕ) → result ≡ Err (SeparationFault.Blocked (blocked_at slot index))
        → IsFirstPart f.now.settings depth f.now.trajs slot index }
    ensures apart { IsOk result → FlyApart f.now.settings f.now.sent }
    ensures apart_by_cue { IsOk result → FlyApart f.now.settings f.now.trajs }
{
    search_law();
    separation_law();
    certificate_law();
    apart_law();
    let clearance = clearance_of(f);
    let curves = Curves::of_slice(alloc, f.trajs.as_slice())?;
    nodes_of(alloc, &curves, clearance, depth)
}
