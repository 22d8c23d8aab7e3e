//! What is wrong with the names of a show: for each list its first fault, and of these the one of
//! the earliest line.

ghost use Rattle.std.specs.Prelude.{◌≡◌, ◌++◌, [], ◌∷◌, false, take, IsTrue, OnOk, IfOk, List};
ghost use Rattle.choreo_show.specs.Plain.{block_of, body_of, figure_of as plain_figure};
ghost use Rattle.choreo_show.specs.Plain as plain;
ghost use Rattle.cue_grid.specs.Names.{names_of, has_name, has_double as has_double_of, formation_named, figure_named};
ghost use Rattle.cue_grid.specs.Numbers.{formation_names, figure_names};
ghost use Rattle.choreo_show.specs.Name.{Name as NameOf};
ghost use Rattle.cue_grid.specs.Marks.{number_in, has_act};
ghost use Rattle.cue_grid.specs.Shown.{shown, place_names, HaveActs};
ghost use Rattle.cue_grid.specs.Steps.{named_faults, first_of, gives as gives_of, lines_after};
ghost use Rattle.cue_grid.specs.Steps.{name_fault as name_fault_of};
ghost use Rattle.cue_grid.specs.Faults.{drone_faults, place_faults, one_formation_faults, formation_faults};
ghost use Rattle.cue_grid.specs.Faults.{act_line_faults, form_faults, act_faults, perform_faults, body_faults};
ghost use Rattle.cue_grid.specs.Faults.{one_figure_faults, figure_faults, earlier_of as earlier_of_two};
ghost use Rattle.cue_grid.specs.Faults.{line_of as line_of_fault};

use crate::acted::{Acted, has_acted, has_some_acted, nobody, put_acted};
use crate::grid::GridFault;
use crate::lookup::Lookup;
use crate::names::{are_drones, has_double, is_drone, is_known, same_name};
use choreo_show::{ActLine, Block, DroneLine, Figure, Formation, Name, copy_of};
use std::alloc::{AllocError, Global};

/// The fault of names of the earliest line.
pub fn name_fault(alloc: Global, show: &Lookup) -> Result<Option<GridFault>, AllocError>
    ensures { IfOk result (λ fault. fault ≡ name_fault_of (shown show.now)) }
{
    let drones = show.show.drones.as_slice();
    let mut known = Vec::new(alloc);
    put_names(&mut known, drones)?;
    let distinct = !has_double(known.as_slice());
    let in_body = body_fault(
        alloc,
        show,
        known.as_slice(),
        distinct,
        show.show.body.as_slice(),
    )?;
    let in_figures = figure_fault(alloc, show)?;
    let in_formations = formation_fault(show);
    Ok(earlier_of(
        drone_fault(drones),
        earlier_of(in_formations, earlier_of(in_figures, in_body)),
    ))
}

fn put_names(names: &mut Vec<Name>, drones: &[DroneLine]) -> Result<(), AllocError>
    ensures { OnOk result (names.new.items ≡ names.old.items ++ names_of drones.now) }
{
    for drone in drones {
        names.push(copy_of(&drone.name))?;
    }
    Ok(())
}

fn drone_fault(drones: &[DroneLine]) -> Option<GridFault>
    ensures { result ≡ first_of (drone_faults [] drones.now) }
{
    for (i, drone) in drones.iter().enumerate() {
        if is_drone(&drones[..i], &drone.name) {
            return Some(GridFault::DoubleName { line: drone.line });
        }
    }
    None
}

// The first fault of the lines of a formation.
fn place_fault(drones: &[DroneLine], places: &[DroneLine]) -> Option<GridFault>
    ensures { result ≡ first_of (place_faults (names_of drones.now) [] places.now) }
{
    for (i, place) in places.iter().enumerate() {
        if !is_drone(drones, &place.name) {
            return Some(GridFault::UnknownName { line: place.line });
        }
        if is_drone(&places[..i], &place.name) {
            return Some(GridFault::DoubleAct { line: place.line });
        }
    }
    None
}

// The first fault of a formation, after this many formations.
fn one_formation_fault(show: &Lookup, earlier: usize, formation: &Formation) -> Option<GridFault>
    ensures { result
        ≡ first_of (one_formation_faults (names_of (shown show.now).drones)
        (formation_names (take earlier (shown show.now).formations)) formation.now) }
{
    if show.has_formation_before(earlier, &formation.name) {
        return Some(GridFault::DoubleName {
            line: formation.line,
        });
    }
    place_fault(show.show.drones.as_slice(), formation.places.as_slice())
}

fn formation_fault(show: &Lookup) -> Option<GridFault>
    ensures { result
        ≡ first_of (formation_faults (names_of (shown show.now).drones) [] (shown show.now).formations) }
{
    let formations = show.show.formations.as_slice();
    for (i, formation) in formations.iter().enumerate() {
        if let Some(fault) = one_formation_fault(show, i, formation) {
            return Some(fault);
        }
    }
    None
}

// Whether a line gives this name an act, and no other.
fn gives(line: &ActLine, given: &Name) -> bool
    ensures { result ≡ gives_of line.now given.now }
{
    match line {
        ActLine::One { name, .. } => same_name(name, given),
        ActLine::Form { .. } => false,
    }
}

// Whether each of these lines gives one name an act, and their names stand in the order of the known ones.
fn are_in_order(known: &[Name], acts: &[ActLine]) -> bool
    ensures { IsTrue result → lines_after known.now acts.now ≡ [] }
{
    let mut next: usize = 0;
    for name in known {
        if next < acts.len() && gives(&acts[next], name) {
            next += 1;
        }
    }
    next == acts.len()
}

// The first fault of the lines of a cue. Mostly they stand in the order of the drones, each with one name: then there
// is none, where the known names are distinct, and nobody need be kept.
#[tactic(auto, using(crate::proofs::Ordered::no_fault_in_order))]
fn cue_fault(
    alloc: Global,
    show: &Lookup,
    known: &[Name],
    distinct: bool,
    acts: &[ActLine],
) -> Result<Option<GridFault>, AllocError>
    requires { IsTrue distinct → has_double_of known.now ≡ false }
    ensures { IfOk result (λ fault. fault
        ≡ first_of (act_faults known.now (shown show.now).formations [] acts.now)) }
{
    if distinct && are_in_order(known, acts) {
        return Ok(None);
    }
    unordered_fault(alloc, show, known, acts)
}

// The first fault of the lines of a cue in any order, with who has an act so far.
fn unordered_fault(
    alloc: Global,
    show: &Lookup,
    known: &[Name],
    acts: &[ActLine],
) -> Result<Option<GridFault>, AllocError>
    ensures { IfOk result (λ fault. fault
        ≡ first_of (act_faults known.now (shown show.now).formations [] acts.now)) }
{
    let mut acted = nobody(alloc, show)?;
    fault_after(&mut acted, show, known, acts)
}

// The same, where nobody has an act yet. It owns nothing, so nothing is let go where a line is at fault or memory ends.
fn fault_after(
    acted: &mut Acted,
    show: &Lookup,
    known: &[Name],
    acts: &[ActLine],
) -> Result<Option<GridFault>, AllocError>
    requires { HaveActs (place_names show.now) acted.old [] }
    ensures { IfOk result (λ fault. fault
        ≡ first_of (act_faults known.now (shown show.now).formations [] acts.now)) }
{
    for (i, line) in acts.iter().enumerate() {
        if let Some(fault) = act_line_fault(show, known, acted, line, i) {
            return Ok(Some(fault));
        }
        // Who has an act by the last line matters to no line after it.
        if i + 1 < acts.len() {
            put_acted(acted, show, line)?;
        }
    }
    Ok(None)
}

// The fault of a line of a cue, where some names have an act already and this many lines stand before it.
fn act_line_fault(
    show: &Lookup,
    known: &[Name],
    acted: &Acted,
    line: &ActLine,
    place: usize,
) -> Option<GridFault>
    ensures { (names : List NameOf)
        → HaveActs (place_names show.now) acted.now names
        → result ≡ first_of (act_line_faults known.now (shown show.now).formations names line.now) }
{
    match line {
        ActLine::One { line, name, .. } => {
            let known = is_known(known, place, name);
            one_fault(show, known, acted, *line, name)
        }
        ActLine::Form {
            line,
            formation,
            ..
        } => form_fault(show, acted, *line, formation),
    }
}

// The fault of a line that gives one name an act.
fn one_fault(show: &Lookup, known: bool, acted: &Acted, line: u32, name: &Name) -> Option<GridFault>
    ensures { result ≡ first_of (named_faults line known
        (has_act (number_in (place_names show.now) name.now) acted.now.marks.items
        acted.now.others.keys name.now)) }
{
    if !known {
        Some(GridFault::UnknownName { line })
    } else if has_acted(acted, show, name) {
        Some(GridFault::DoubleAct { line })
    } else {
        None
    }
}

fn form_fault(show: &Lookup, acted: &Acted, line: u32, formation: &Name) -> Option<GridFault>
    ensures { (names : List NameOf)
        → HaveActs (place_names show.now) acted.now names
        → result ≡ first_of (form_faults line names
        (formation_named (shown show.now).formations formation.now)) }
{
    match show.find_places(formation) {
        None => Some(GridFault::UnknownName { line }),
        Some(numbers) => {
            if has_some_acted(acted, numbers) {
                Some(GridFault::DoubleAct { line })
            } else {
                None
            }
        }
    }
}

fn perform_fault(show: &Lookup, line: u32, figure: &Name, named: &[Name]) -> Option<GridFault>
    ensures { result
        ≡ first_of (perform_faults (names_of (shown show.now).drones) line
        (figure_named (shown show.now).figures figure.now) named.now) }
{
    match show.find_figure(figure) {
        None => Some(GridFault::UnknownName { line }),
        Some(found) => {
            if named.len() != found.roles.as_slice().len() {
                Some(GridFault::RoleCount { line })
            } else if !are_drones(show.show.drones.as_slice(), named) {
                Some(GridFault::UnknownName { line })
            } else if has_double(named) {
                Some(GridFault::DoubleAct { line })
            } else {
                None
            }
        }
    }
}

fn block_fault(
    alloc: Global,
    show: &Lookup,
    known: &[Name],
    distinct: bool,
    block: &Block,
) -> Result<Option<GridFault>, AllocError>
    requires { IsTrue distinct → has_double_of known.now ≡ false }
    ensures { IfOk result (λ fault. fault
        ≡ first_of (body_faults (shown show.now) known.now (block_of block.now plain.Done))) }
{
    match block {
        Block::Cue { acts, .. } => { cue_fault(alloc, show, known, distinct, acts.as_slice()) }
        Block::Repeat { body, .. } => {
            for inner in body {
                if let Some(fault) = block_fault(alloc, show, known, distinct, inner)? {
                    return Ok(Some(fault));
                }
            }
            Ok(None)
        }
        Block::Perform {
            line,
            figure,
            drones,
            ..
        } => Ok(perform_fault(show, *line, figure, drones.as_slice())),
    }
}

fn body_fault(
    alloc: Global,
    show: &Lookup,
    known: &[Name],
    distinct: bool,
    body: &[Block],
) -> Result<Option<GridFault>, AllocError>
    requires { IsTrue distinct → has_double_of known.now ≡ false }
    ensures { IfOk result (λ fault. fault
        ≡ first_of (body_faults (shown show.now) known.now (body_of body.now))) }
{
    for block in body {
        if let Some(fault) = block_fault(alloc, show, known, distinct, block)? {
            return Ok(Some(fault));
        }
    }
    Ok(None)
}

// The first fault of a figure, after this many figures.
fn one_figure_fault(
    alloc: Global,
    show: &Lookup,
    earlier: usize,
    figure: &Figure,
) -> Result<Option<GridFault>, AllocError>
    ensures { IfOk result (λ fault. fault
        ≡ first_of (one_figure_faults (shown show.now)
        (figure_names (take earlier show.now.show.now.figures)) (plain_figure figure.now))) }
{
    if show.has_figure_before(earlier, &figure.name) || has_double(figure.roles.as_slice()) {
        return Ok(Some(GridFault::DoubleName { line: figure.line }));
    }
    body_fault(
        alloc,
        show,
        figure.roles.as_slice(),
        true,
        figure.body.as_slice(),
    )
}

fn figure_fault(alloc: Global, show: &Lookup) -> Result<Option<GridFault>, AllocError>
    ensures { IfOk result (λ fault. fault
        ≡ first_of (figure_faults (shown show.now) [] (shown show.now).figures)) }
{
    let figures = show.show.figures.as_slice();
    for (i, figure) in figures.iter().enumerate() {
        if let Some(fault) = one_figure_fault(alloc, show, i, figure)? {
            return Ok(Some(fault));
        }
    }
    Ok(None)
}

fn line_of(fault: GridFault) -> u32
    ensures { result ≡ line_of_fault fault }
{
    match fault {
        GridFault::NoDrone { line } => line,
        GridFault::TooManyDrones { line } => line,
        GridFault::DoubleName { line } => line,
        GridFault::UnknownName { line } => line,
        GridFault::DoubleAct { line } => line,
        GridFault::RoleCount { line } => line,
        GridFault::NoCue { line } => line,
        GridFault::TooManyCues { line } => line,
    }
}

// The one of the earlier line.
fn earlier_of(first: Option<GridFault>, second: Option<GridFault>) -> Option<GridFault>
    ensures { result ≡ earlier_of_two first second }
{
    match (first, second) {
        (None, second) => second,
        (Some(fault), None) => Some(fault),
        (Some(fault), Some(other)) => {
            if line_of(other) < line_of(fault) {
                Some(other)
            } else {
                Some(fault)
            }
        }
    }
}
