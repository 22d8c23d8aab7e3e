//! The trajectories of a whole show, where their bytes have room in the drones' memories.

ghost use Rattle.std.specs.Prelude.{◌≡◌, ◌<◌, ◌≤◌, Err, None, MatchOption, map, length, IfOk};
ghost use Rattle.std.specs.List.{All, sum};
ghost use Rattle.choreo_show.specs.Plain.{PlainShow, plain};
ghost use Rattle.choreo_show.specs.Valid.{IsValid};
ghost use Rattle.cue_grid.specs.Cues.{grid_of};
ghost use Rattle.cue_grid.specs.Faults.{grid_fault};
ghost use Rattle.cue_grid.specs.Frames.{IsPointUpTo};
ghost use Rattle.cue_grid.specs.Grids.{FitCues, IsGrid};
ghost use Rattle.whole_numbers.specs.Limits.{most_cues, most_drones};
ghost use Rattle.traj_codec.specs.Joined.{joined};
ghost use Rattle.traj_codec.specs.Spelling.{AreNumbers, IsSegment, IsTrajectory};
ghost use Rattle.mm_rounding.specs.Rounding.{segment_of};
ghost use Rattle.figure_expand.specs.Bounds.{reach};
ghost use Rattle.figure_expand.specs.Expanded.{pieces_from, range_fault};
ghost use Rattle.figure_expand.specs.Flown.{StartsWell, RoundsWell};
ghost use Rattle.show_plan.specs.Trajectories.{by_cue, start_at};
ghost use Rattle.show_plan.specs.Steps.{FitsDrone, flight};
ghost use Rattle.show_plan.specs.Flight.{KeepsNearShow};
ghost use Rattle.show_plan.specs.Fitting.{IsFlown, first_unsendable, send_fault};
ghost use Rattle.show_plan.specs.Fitting.{FitGives, IsValidFitted};

use crate::fitted::{FitError, Fitted, PlanFault};
use choreo_show::{DroneLine, Listed, Name, Point, Show, copy_of};
use crtp_packets::MEMORY_BYTES;
use cue_grid::{Cue, Grid, UnrollError, unroll};
use figure_expand::{expansion_law, range_fault, step};
use mm_rounding::{round_piece, short, to_mm};
use std::alloc::{AllocError, Global};
use traj_codec::{Segment, Traj, join_holds, segment_law, size_of, start_law};
use whole_numbers::MOST_SEGMENTS;

fn start_at(p: &Point) -> Option<[i16; 4]>
    ensures { MatchOption result (StartsWell p.now → ⊥)
        (λ start. StartsWell p.now × (start ≡ start_at p.now) × AreNumbers 4 start) }
{
    let x = to_mm(p.x)?;
    let y = to_mm(p.y)?;
    let z = to_mm(p.z)?;
    let yaw = short(p.yaw)?;
    let start = [x, y, z, yaw];
    start_law(start);
    Some(start)
}

fn segments_of(
    alloc: Global,
    start: &Point,
    d: usize,
    drones: usize,
    cues: &[Cue],
) -> Result<Option<Vec<Segment>>, AllocError>
    requires start { IsPointUpTo (reach 0) start.now }
    requires drone { d < drones }
    requires few { length cues.now ≤ most_cues }
    requires cues { FitCues drones cues.now }
    ensures { IfOk result (λ found. MatchOption found (All RoundsWell (pieces_from start.now d cues.now) → ⊥)
        (λ segments. All RoundsWell (pieces_from start.now d cues.now)
        × (segments.items ≡ map segment_of (pieces_from start.now d cues.now)) × All IsSegment segments.items)) }
{
    let mut point = *start;
    let mut segments = Vec::with_capacity(alloc, cues.len())?;
    for cue in cues {
        let piece = step(&mut point, d, cue);
        let Some(segment) = round_piece(&piece) else {
            return Ok(None);
        };
        segment_law(segment);
        segments.push(segment)?;
    }
    Ok(Some(segments))
}

fn trajectory_of(alloc: Global, grid: &Grid, d: usize) -> Result<Option<Traj>, AllocError>
    requires whole { IsGrid grid.now }
    requires drone { d < length grid.now.starts }
    ensures { IfOk result (λ found. MatchOption found (FitsDrone grid.now d → ⊥)
        (λ t. FitsDrone grid.now d × (t ≡ flight grid.now d) × IsTrajectory t)) }
{
    let starts = grid.starts.as_slice();
    let at = &starts[d].at;
    let Some(start) = start_at(at) else {
        return Ok(None);
    };
    let found = segments_of(alloc, at, d, starts.len(), grid.cues.as_slice())?;
    let Some(segments) = found else {
        return Ok(None);
    };
    Ok(Some(Traj {
        start,
        segments: Listed::from_vec(segments),
    }))
}

fn trajectories_of(alloc: Global, grid: &Grid) -> Result<Option<Vec<Traj>>, AllocError>
    requires { IsGrid grid.now }
    ensures { IfOk result (λ found. MatchOption found (range_fault grid.now ≡ None → ⊥)
        (λ ts. (range_fault grid.now ≡ None) × (ts.items ≡ by_cue grid.now) × All IsTrajectory ts.items)) }
{
    expansion_law();
    let drones = grid.starts.as_slice().len();
    let mut trajs = Vec::with_capacity(alloc, drones)?;
    for d in 0..drones {
        match trajectory_of(alloc, grid, d)? {
            Some(t) => trajs.push(t)?,
            None => return Ok(None),
        }
    }
    Ok(Some(trajs))
}

fn joined_all(alloc: Global, trajs: &[Traj]) -> Result<Vec<Traj>, AllocError>
    requires some { All (λ (t : Traj). 1 ≤ length t.segments) trajs.now }
    requires flown { All IsFlown trajs.now }
    ensures { IfOk result (λ ts. ts.items ≡ map joined trajs.now) }
{
    let mut sent = Vec::new(alloc);
    for t in trajs {
        let joined = join_holds(alloc, t)?;
        sent.push(joined)?;
    }
    Ok(sent)
}

fn send_fault(room: u32, drone: u8, t: &Traj) -> Option<PlanFault>
    requires { IsFlown t.now }
    ensures { result ≡ send_fault room drone t.now }
{
    let segments = t.segments.as_slice().len();
    if segments > MOST_SEGMENTS {
        return Some(PlanFault::TooManySegments {
            drone,
            segments: segments as u32,
        });
    }
    let bytes = size_of(t) as u32;
    if bytes > room {
        return Some(PlanFault::TooLong { drone, bytes, room });
    }
    None
}

fn first_unsendable(room: u32, trajs: &[Traj]) -> Option<PlanFault>
    requires few { length trajs.now ≤ most_drones }
    requires flown { All IsFlown trajs.now }
    ensures { result ≡ first_unsendable room 0 trajs.now }
{
    for d in 0..trajs.len() {
        let fault = send_fault(room, d as u8, &trajs[d]);
        if fault.is_some() {
            return fault;
        }
    }
    None
}

fn names_of(alloc: Global, starts: &[DroneLine]) -> Result<Vec<Name>, AllocError>
    ensures { IfOk result (λ names. names.items ≡ map (λ (d : DroneLine). d.name) starts.now) }
{
    let mut names = Vec::new(alloc);
    for start in starts {
        names.push(copy_of(&start.name))?;
    }
    Ok(names)
}

// How long cues last together, in milliseconds.
fn duration_of(cues: &[Cue]) -> u32
    requires { length cues.now ≤ most_cues }
    ensures { result ≡ sum (map (λ (cue : Cue). cue.ms) cues.now) }
{
    let mut total = 0;
    for cue in cues {
        total += u32::from(cue.ms);
    }
    total
}

fn out_of_range(alloc: Global, grid: &Grid) -> FitError
    requires whole { IsGrid grid.now }
    requires unheld { range_fault grid.now ≡ None → ⊥ }
    ensures { (s : PlainShow) → grid_fault s ≡ None → grid.now ≡ grid_of s → FitGives (Err result) s }
{
    match range_fault(alloc, grid) {
        Ok(Some(value)) => FitError::Fault {
            fault: PlanFault::OutOfRange { value },
        },
        Ok(None) => unreachable!(),
        Err(_) => FitError::Memory,
    }
}

fn fitted(alloc: Global, show: &Show, grid: Grid, trajs: Vec<Traj>) -> Result<Fitted, FitError>
    requires valid { IsValid (plain show.now) }
    requires unrolled { grid_fault (plain show.now) ≡ None }
    requires is { grid ≡ grid_of (plain show.now) }
    requires whole { IsGrid grid }
    requires held { range_fault grid ≡ None }
    requires trajs { trajs.items ≡ by_cue grid }
    requires formed { All IsTrajectory trajs.items }
    ensures gives { FitGives result (plain show.now) }
    ensures formed { IfOk result (λ f. All IsTrajectory f.trajs) }
{
    let names = names_of(alloc, grid.starts.as_slice())?;
    let all = grid.cues.as_slice();
    let cues = all.len() as u16;
    let duration = duration_of(all);
    // Its memory is used again for what is sent.
    drop(grid);
    let flown = trajs.as_slice();
    let sent = joined_all(alloc, flown)?;
    let room = MEMORY_BYTES as u32 - u32::from(show.settings.offset);
    if let Some(fault) = first_unsendable(room, sent.as_slice()) {
        return Err(FitError::Fault { fault });
    }
    Ok(Fitted {
        settings: show.settings,
        names: Listed::from_vec(names),
        cues,
        duration,
        trajs: Listed::from_vec(trajs),
        sent: Listed::from_vec(sent),
    })
}

/// The trajectories of a show's drones, or the first reason why the show has no plan: a fault of its names or
/// cues, then a number that no trajectory can hold, then the first drone whose trajectory, its holds joined, has more
/// than 255 segments or more bytes than 4,096 less the offset.
///
/// At every instant of the show, also between whole milliseconds, what each drone is sent decodes to is within half a
/// millimetre of what the show says, on x, y and z, and the yaw is equal (docs/TRAJECTORY.md).
pub fn fit(alloc: Global, show: &Show) -> Result<Fitted, FitError>
    requires { IsValid (plain show.now) }
    ensures gives { FitGives result (plain show.now) }
    ensures valid { IfOk result (λ f. IsValidFitted f) }
    ensures near { IfOk result (λ f. KeepsNearShow (grid_of (plain show.now)) f.sent) }
{
    let grid = match unroll(alloc, show) {
        Ok(grid) => grid,
        Err(UnrollError::Fault { fault }) => {
            return Err(FitError::Fault {
                fault: PlanFault::Grid { fault },
            });
        }
        Err(UnrollError::Memory) => return Err(FitError::Memory),
    };
    match trajectories_of(alloc, &grid)? {
        Some(trajs) => fitted(alloc, show, grid, trajs),
        None => Err(out_of_range(alloc, &grid)),
    }
}
