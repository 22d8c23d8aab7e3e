//! The cues of a show in order, or its first fault.

ghost use Rattle.std.specs.Prelude.{◌≡◌, false, IfOk, None};
ghost use Rattle.std.specs.List.{All};
ghost use Rattle.choreo_show.specs.Plain.{plain, body_of};
ghost use Rattle.choreo_show.specs.Valid.{IsName, IsValid};
ghost use Rattle.cue_grid.specs.Faults.{no_drone, many_drones, no_cue, many_cues, or_else, grid_fault};
ghost use Rattle.cue_grid.specs.Counts.{over_at};
ghost use Rattle.cue_grid.specs.Cues.{grid_of};
ghost use Rattle.cue_grid.specs.Names.{has_double, names_of};
ghost use Rattle.cue_grid.specs.Shown.{shown};
ghost use Rattle.cue_grid.specs.Unrolled.{GridGives};
ghost use Rattle.cue_grid.specs.Grids.{IsGrid};

use crate::count::over_line;
use crate::cues::cues_of;
use crate::faults::name_fault;
use crate::grid::{Grid, GridFault, UnrollError};
use crate::lookup::Lookup;
use choreo_show::{DroneLine, Listed, Show, copy_of};
use std::alloc::{AllocError, Global};
use whole_numbers::MOST_DRONES;

/// The cues of a show in order, repeats written out and figures played by their drones, or its first fault. A drone
/// without an act in a cue holds. What is returned is a valid grid, whose starts have names as the language has them,
/// no two of them the same.
pub fn unroll(alloc: Global, show: &Show) -> Result<Grid, UnrollError>
    requires { IsValid (plain show.now) }
    ensures gives { GridGives result (plain show.now) }
    ensures valid { IfOk result (λ g. IsGrid g) }
    ensures names { IfOk result (λ g. All (λ (s : DroneLine). IsName s.name) g.starts) }
    ensures distinct { IfOk result (λ g. has_double (names_of g.starts) ≡ false) }
{
    let lookup = Lookup::of(alloc, show)?;
    unrolled(alloc, &lookup)
}

// The fault of too few or too many drones.
fn drone_count_fault(show: &Lookup) -> Option<GridFault>
    ensures { result ≡ or_else (no_drone (shown show.now)) (many_drones (shown show.now)) }
{
    let drones = show.show.drones.as_slice();
    if drones.is_empty() {
        Some(GridFault::NoDrone { line: 1 })
    } else if drones.len() > MOST_DRONES {
        Some(GridFault::TooManyDrones {
            line: drones[MOST_DRONES].line,
        })
    } else {
        None
    }
}

// The fault of too few or too many cues.
fn cue_count_fault(show: &Lookup) -> Option<GridFault>
    ensures { result
        ≡ or_else (no_cue (shown show.now).body)
        (many_cues (over_at (shown show.now).figures 0 (shown show.now).body)) }
{
    let body = show.show.body.as_slice();
    if body.is_empty() {
        return Some(GridFault::NoCue { line: 1 });
    }
    match over_line(show, body) {
        Some(line) => Some(GridFault::TooManyCues { line }),
        None => None,
    }
}

#[tactic(auto, using(crate::proofs::Earliest::earliest_name))]
fn first_fault(alloc: Global, show: &Lookup) -> Result<Option<GridFault>, AllocError>
    requires { IsValid (shown show.now) }
    ensures { IfOk result (λ fault. fault ≡ grid_fault (shown show.now)) }
{
    if let Some(fault) = drone_count_fault(show) {
        return Ok(Some(fault));
    }
    if let Some(fault) = name_fault(alloc, show)? {
        return Ok(Some(fault));
    }
    Ok(cue_count_fault(show))
}

// What `unroll` returns, once names are found by maps. Each function here has few values to let go where memory fails.
fn unrolled(alloc: Global, show: &Lookup) -> Result<Grid, UnrollError>
    requires { IsValid (shown show.now) }
    ensures gives { GridGives result (shown show.now) }
    ensures valid { IfOk result (λ g. IsGrid g) }
    ensures names { IfOk result (λ g. All (λ (s : DroneLine). IsName s.name) g.starts) }
    ensures distinct { IfOk result (λ g. has_double (names_of g.starts) ≡ false) }
{
    if let Some(fault) = first_fault(alloc, show)? {
        return Err(UnrollError::Fault { fault });
    }
    Ok(whole_grid(alloc, show)?)
}

fn whole_grid(alloc: Global, show: &Lookup) -> Result<Grid, AllocError>
    requires { grid_fault (shown show.now) ≡ None }
    ensures { IfOk result (λ g. g ≡ grid_of (shown show.now)) }
{
    let starts = copies_of(alloc, show.show.drones.as_slice())?;
    let cues = cues_of(alloc, show)?;
    Ok(Grid {
        starts: Listed::from_vec(starts),
        cues: Listed::from_vec(cues),
    })
}

fn copies_of(alloc: Global, drones: &[DroneLine]) -> Result<Vec<DroneLine>, AllocError>
    ensures { IfOk result (λ copies. copies.items ≡ drones.now) }
{
    let mut copies = Vec::new(alloc);
    for drone in drones {
        copies.push(DroneLine {
            line: drone.line,
            name: copy_of(&drone.name),
            at: drone.at,
        })?;
    }
    Ok(copies)
}
