//! The first value that no trajectory can hold.

ghost use Rattle.std.specs.Prelude.{◌≡◌, ◌+◌, ◌<◌, ◌≤◌, ◌^◌, length, IfOk, IfSome};
ghost use Rattle.std.specs.List.{All};
ghost use Rattle.mm_rounding.specs.Rounding.{controls};
ghost use Rattle.whole_numbers.specs.Limits.{most_cues};
ghost use Rattle.cue_grid.specs.Frames.{IsPointUpTo};
ghost use Rattle.cue_grid.specs.Grids.{FitJobs, FitCues, IsGrid};
ghost use Rattle.figure_expand.specs.Bounds.{AreInReach};
ghost use Rattle.figure_expand.specs.Expanded.{fits_axis, values_on, values_of, point_values, start_values};
ghost use Rattle.figure_expand.specs.Expanded.{start_points, cue_values, points_after, values_from, first_unfit};
ghost use Rattle.figure_expand.specs.Expanded.{range_fault};

use crate::acts::act_of;
use crate::fault::AxisValue;
use crate::shapes::{axes, end_of};
use choreo_show::{DroneLine, Point};
use cue_grid::{Cue, Grid, Job};
use mm_rounding::Axis;
use std::alloc::{AllocError, Global};

const YAW: u8 = 3;

// The least and the greatest position in micrometres that round to 16 bits of millimetres, a half up.
const LEAST: i64 = -32_768_500;

const GREATEST: i64 = 32_767_499;

// Whether a trajectory can hold the value: positions in millimetres, a yaw as it is. A position is compared as it is,
// since it is rounded once more where the trajectory is made.
fn fits(axis: u8, value: i64) -> bool
    ensures { result ≡ fits_axis axis value }
{
    if axis == YAW {
        i16::try_from(value).is_ok()
    } else {
        LEAST <= value && value <= GREATEST
    }
}

// The first of these values on an axis that does not fit.
fn values_fault(line: u32, axis: u8, values: &[i64]) -> Option<AxisValue>
    ensures { result ≡ first_unfit (values_on line axis values.now) }
{
    for value in values {
        if !fits(axis, *value) {
            return Some(AxisValue {
                line,
                axis,
                value: *value,
            });
        }
    }
    None
}

// The first control value of an axis that does not fit.
fn axis_fault(line: u32, axis: u8, curve: &Axis) -> Option<AxisValue>
    ensures { result ≡ first_unfit (values_on line axis (controls curve.now)) }
{
    match curve {
        Axis::One { v } => values_fault(line, axis, &[*v]),
        Axis::Two { v } => values_fault(line, axis, v),
        Axis::Four { v } => values_fault(line, axis, v),
        Axis::Eight { v } => values_fault(line, axis, v),
    }
}

// The first control value of four axes that does not fit.
fn axes_fault(line: u32, curves: &[Axis; 4]) -> Option<AxisValue>
    ensures { result ≡ first_unfit (values_of line 0 curves.now) }
{
    for axis in 0..4 {
        if let Some(fault) = axis_fault(line, axis, &curves[usize::from(axis)]) {
            return Some(fault);
        }
    }
    None
}

fn point_fault(line: u32, p: &Point) -> Option<AxisValue>
    ensures { result ≡ first_unfit (point_values line p.now) }
{
    let curves = [
        Axis::One { v: p.x },
        Axis::One { v: p.y },
        Axis::One { v: p.z },
        Axis::One { v: p.yaw },
    ];
    axes_fault(line, &curves)
}

fn starts_fault(starts: &[DroneLine]) -> Option<AxisValue>
    ensures { result ≡ first_unfit (start_values starts.now) }
{
    for start in starts {
        if let Some(fault) = point_fault(start.line, &start.at) {
            return Some(fault);
        }
    }
    None
}

// The first control value of a cue that does not fit; the drones are at these points before it.
fn cue_fault(points: &[Point], jobs: &[Job]) -> Option<AxisValue>
    requires count { length points.now ≡ length jobs.now }
    requires points { All (IsPointUpTo (2 ^ 40)) points.now }
    requires jobs { FitJobs jobs.now }
    ensures { result ≡ first_unfit (cue_values points.now jobs.now) }
{
    for d in 0..points.len() {
        let curves = axes(&points[d], &act_of(&jobs[d]));
        if let Some(fault) = axes_fault(jobs[d].line, &curves) {
            return Some(fault);
        }
    }
    None
}

// Moves each drone to the end of a cue.
fn advance(points: &mut [Point], jobs: &[Job])
    requires count { length points.old ≡ length jobs.now }
    requires points { All (IsPointUpTo (2 ^ 40)) points.old }
    requires jobs { FitJobs jobs.now }
    ensures { points.new ≡ points_after points.old jobs.now }
{
    for d in 0..points.len() {
        points[d] = end_of(&points[d], &act_of(&jobs[d]));
    }
}

// The first control value of these cues that does not fit; the drones start at these points.
fn cues_fault(points: &mut [Point], cues: &[Cue]) -> Option<AxisValue>
    requires points { AreInReach 0 points.old }
    requires few { length cues.now ≤ most_cues }
    requires cues { FitCues (length points.old) cues.now }
    ensures { result ≡ first_unfit (values_from points.old cues.now) }
{
    for cue in cues {
        let jobs = cue.jobs.as_slice();
        if let Some(fault) = cue_fault(points, jobs) {
            return Some(fault);
        }
        advance(points, jobs);
    }
    None
}

fn points_of(alloc: Global, starts: &[DroneLine]) -> Result<Vec<Point>, AllocError>
    ensures { IfOk result (λ points. points.items ≡ start_points starts.now) }
{
    let mut points = Vec::new(alloc);
    for start in starts {
        points.push(start.at)?;
    }
    Ok(points)
}

/// The first value of a grid that no trajectory can hold, which rounds outside two bytes: starts by drone and axis
/// first, then cues, drones, axes and control points. Its axis is one of 0 to 3, for x, y, z and yaw.
pub fn range_fault(alloc: Global, grid: &Grid) -> Result<Option<AxisValue>, AllocError>
    requires { IsGrid grid.now }
    ensures first { IfOk result (λ fault. fault ≡ range_fault grid.now) }
    ensures axis { IfOk result (λ fault. IfSome fault (λ v. v.axis ≤ 3)) }
{
    let starts = grid.starts.as_slice();
    if let Some(fault) = starts_fault(starts) {
        return Ok(Some(fault));
    }
    let mut points = points_of(alloc, starts)?;
    Ok(cues_fault(points.as_mut_slice(), grid.cues.as_slice()))
}
