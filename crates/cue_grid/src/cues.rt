//! The cues, written out.

ghost use Rattle.std.specs.Prelude.{◌≡◌, ◌++◌, true, false, map, set, OnOk, IfOk, MatchOption};
ghost use Rattle.choreo_show.specs.Plain.{block_of, body_of};
ghost use Rattle.choreo_show.specs.Plain as plain;
ghost use Rattle.cue_grid.specs.Cues.{cue_of, player as player_of, cues_in, cues_of as cues_of_show};
ghost use Rattle.cue_grid.specs.Shown.{shown, played, AreDistinct};
ghost use Rattle.cue_grid.specs.Steps.{act_if, way_if, way_to, figure_cues, performed_cues, put_acts, put_line_of};
ghost use Rattle.cue_grid.specs.Steps.{stands_at};
ghost use Rattle.cue_grid.specs.Frames.{no_frame};
ghost use Rattle.cue_grid.specs.Names.{same_name as same_name_of, has_name, has_double, names_of, place_named};

use crate::grid::{Cue, Job};
use crate::lookup::Lookup;
use crate::names::same_name;
use choreo_show::{Act, ActLine, Block, DroneLine, Frame, Listed, Mirror, Name, Point};
use std::alloc::{AllocError, Global};

/// How blocks are played: in which frame, and which drones have which roles.
#[derive(Clone, Copy)]
pub struct Cast<'a> {
    /// The frame of the perform.
    pub frame: Frame,
    /// The roles of the figure.
    pub roles: &'a [Name],
    /// The drones that have them.
    pub drones: &'a [Name],
}

/// The cues of a show, in order.
pub fn cues_of(alloc: Global, show: &Lookup) -> Result<Vec<Cue>, AllocError>
    requires { AreDistinct show.now }
    ensures { IfOk result (λ cues. cues.items ≡ cues_of_show (shown show.now)) }
{
    let mut cues = Vec::new(alloc);
    let written = Cast {
        frame: unmoved(),
        roles: &[],
        drones: &[],
    };
    for block in &show.show.body {
        put_block(alloc, show, &written, block, &mut cues)?;
    }
    Ok(cues)
}

fn put_block(
    alloc: Global,
    show: &Lookup,
    cast: &Cast,
    block: &Block,
    cues: &mut Vec<Cue>,
) -> Result<(), AllocError>
    requires { AreDistinct show.now }
    ensures { OnOk result (cues.new.items
        ≡ cues.old.items
        ++ cues_in (shown show.now) (played cast.now) (performed_cues (shown show.now))
        (block_of block.now plain.Done)) }
{
    match block {
        Block::Cue { line, ms, acts } => {
            cues.push(cue(alloc, show, cast, *line, *ms, acts.as_slice())?)?;
            Ok(())
        }
        Block::Repeat { times, body, .. } => {
            for turn in 0..*times {
                for inner in body {
                    put_block(alloc, show, cast, inner, cues)?;
                }
            }
            Ok(())
        }
        Block::Perform {
            figure,
            frame,
            drones,
            ..
        } => match show.find_figure(figure) {
            None => Ok(()),
            Some(found) => {
                let cast = Cast {
                    frame: *frame,
                    roles: found.roles.as_slice(),
                    drones: drones.as_slice(),
                };
                put_figure(alloc, show, &cast, found.body.as_slice(), cues)
            }
        },
    }
}

fn put_figure(
    alloc: Global,
    show: &Lookup,
    cast: &Cast,
    body: &[Block],
    cues: &mut Vec<Cue>,
) -> Result<(), AllocError>
    requires { AreDistinct show.now }
    ensures { OnOk result (cues.new.items
        ≡ cues.old.items ++ figure_cues (shown show.now) (played cast.now) (body_of body.now)) }
{
    for block in body {
        put_figure_block(alloc, show, cast, block, cues)?;
    }
    Ok(())
}

// It is `put_block` without performs, which no figure has: the recursion goes down the block alone.
fn put_figure_block(
    alloc: Global,
    show: &Lookup,
    cast: &Cast,
    block: &Block,
    cues: &mut Vec<Cue>,
) -> Result<(), AllocError>
    requires { AreDistinct show.now }
    ensures { OnOk result (cues.new.items
        ≡ cues.old.items
        ++ figure_cues (shown show.now) (played cast.now) (block_of block.now plain.Done)) }
{
    match block {
        Block::Cue { line, ms, acts } => {
            cues.push(cue(alloc, show, cast, *line, *ms, acts.as_slice())?)?;
            Ok(())
        }
        Block::Repeat { times, body, .. } => {
            for turn in 0..*times {
                for inner in body {
                    put_figure_block(alloc, show, cast, inner, cues)?;
                }
            }
            Ok(())
        }
        Block::Perform { .. } => Ok(()),
    }
}

// A cue, with one job for each drone of the show. The last line is put first, so that the first line of a drone counts.
fn cue(
    alloc: Global,
    show: &Lookup,
    cast: &Cast,
    line: u32,
    ms: u16,
    acts: &[ActLine],
) -> Result<Cue, AllocError>
    requires { AreDistinct show.now }
    ensures { IfOk result (λ c. c ≡ cue_of (shown show.now) (played cast.now) line ms acts.now) }
{
    let hold = Job {
        line,
        frame: cast.frame,
        act: Act::Hold,
    };
    let mut jobs = same_job_each(alloc, show.show.drones.as_slice(), hold)?;
    for k in (0..acts.len()).rev() {
        put_line(show, cast, k, &acts[k], &mut jobs);
    }
    Ok(Cue {
        ms,
        jobs: Listed::from_vec(jobs),
    })
}

fn same_job_each(alloc: Global, drones: &[DroneLine], job: Job) -> Result<Vec<Job>, AllocError>
    ensures { IfOk result (λ jobs. jobs.items ≡ map (λ d. job) drones.now) }
{
    let mut jobs = Vec::with_capacity(alloc, drones.len())?;
    for drone in drones {
        jobs.push(job)?;
    }
    Ok(jobs)
}

// Puts what a line gives each drone to do into its place. The drone of the line is looked for at a place first.
fn put_line(show: &Lookup, cast: &Cast, from: usize, line: &ActLine, jobs: &mut Vec<Job>)
    requires { AreDistinct show.now }
    ensures { jobs.new.items
        ≡ put_line_of (shown show.now).formations (played cast.now) line.now (shown show.now).drones
        jobs.old.items }
{
    let drones = show.show.drones.as_slice();
    match line {
        ActLine::One { line, name, act } => {
            let job = Job {
                line: *line,
                frame: cast.frame,
                act: *act,
            };
            put_job(
                drones,
                from,
                player(cast.roles, cast.drones, name),
                job,
                jobs,
            );
        }
        ActLine::Form {
            line,
            formation,
            smooth,
        } => match show.find_formation(formation) {
            None => {}
            Some(found) => {
                let hold = Job {
                    line: *line,
                    frame: cast.frame,
                    act: Act::Hold,
                };
                put_ways(drones, found.places.as_slice(), *smooth, hold, jobs);
            }
        },
    }
}

// A name that no drone has is left out.
fn put_job(drones: &[DroneLine], from: usize, name: &Name, job: Job, jobs: &mut Vec<Job>)
    requires { has_double (names_of drones.now) ≡ false }
    ensures { jobs.new.items
        ≡ put_acts (λ n. act_if (same_name_of n name.now) job.act) job.line job.frame drones.now
        jobs.old.items }
{
    match drone_at(drones, from, name) {
        None => {}
        Some(k) => set_job(jobs, k, job),
    }
}

// Puts the ways to the places of a formation into the places of their drones, with line and frame of this job.
fn put_ways(drones: &[DroneLine], places: &[DroneLine], smooth: bool, job: Job, jobs: &mut Vec<Job>)
    ensures { jobs.new.items
        ≡ put_acts (λ n. way_if smooth (place_named places.now n)) job.line job.frame drones.now
        jobs.old.items }
{
    for (k, drone) in drones.iter().enumerate() {
        if let Some(at) = place_in(places, &drone.name) {
            set_job(
                jobs,
                k,
                Job {
                    act: way(smooth, at),
                    ..job
                },
            );
        }
    }
}

// Where the drone of a name stands: at this place, or else the first from the front.
fn drone_at(drones: &[DroneLine], from: usize, name: &Name) -> Option<usize>
    ensures { MatchOption result (has_name (names_of drones.now) name.now ≡ false)
        (λ k. stands_at (names_of drones.now) name.now k ≡ true) }
{
    if from < drones.len() && same_name(name, &drones[from].name) {
        return Some(from);
    }
    for (k, drone) in drones.iter().enumerate() {
        if same_name(name, &drone.name) {
            return Some(k);
        }
    }
    None
}

fn set_job(jobs: &mut Vec<Job>, k: usize, job: Job)
    ensures { jobs.new.items ≡ set jobs.old.items k job }
{
    if k < jobs.len() {
        jobs[k] = job;
    }
}

// The drone that plays a role; a name that is no role stands for itself.
fn player<'a>(roles: &[Name], drones: &'a [Name], name: &'a Name) -> &'a Name
    ensures { result.now ≡ player_of roles.now drones.now name.now }
{
    for (i, role) in roles.iter().enumerate() {
        if i < drones.len() && same_name(name, role) {
            return &drones[i];
        }
    }
    name
}

// The first place counts.
fn place_in(places: &[DroneLine], drone: &Name) -> Option<Point>
    ensures { result ≡ place_named places.now drone.now }
{
    for place in places {
        if same_name(drone, &place.name) {
            return Some(place.at);
        }
    }
    None
}

fn way(smooth: bool, to: Point) -> Act
    ensures { result ≡ way_to smooth to }
{
    if smooth {
        Act::Move { to }
    } else {
        Act::Line { to }
    }
}

// The frame that changes nothing.
fn unmoved() -> Frame
    ensures { result ≡ no_frame }
{
    Frame {
        mirror: Mirror::None,
        turns: 0,
        dx: 0,
        dy: 0,
        dz: 0,
    }
}
