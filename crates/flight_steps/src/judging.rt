//! Whether three shows are a flight.

ghost use Rattle.std.specs.Prelude.{◌≡◌, ◌<◌, ◌≤◌, ◌∷◌, [], ℕ, length, List, map, bytes_eq};
ghost use Rattle.whole_numbers.specs.Bernstein.{at};
ghost use Rattle.std.specs.Option.{option_or};
ghost use Rattle.traj_codec.specs.declared.traj.Traj.{Traj as TrajWord};
ghost use Rattle.flight_model.specs.Legs.{after_segment, way_begins, way_ends as word_ends, first_move as word_first};
ghost use Rattle.flight_model.specs.Legs.{last_move as word_last, legs_of};
ghost use Rattle.flight_steps.specs.declared.faults.Way.TheVariants as way_word;
ghost use Rattle.flight_steps.specs.Faults.{first_other as word_other, other_drone as word_drone};
ghost use Rattle.flight_steps.specs.Faults.{name_fault as word_names, size_fault as word_sizes};
ghost use Rattle.flight_steps.specs.Faults.{other_ellipsoid as word_ellipsoid, is_straight as word_straight};
ghost use Rattle.flight_steps.specs.Faults.{crew_fault as word_crew, gap as word_gap, same_place};
ghost use Rattle.flight_steps.specs.Faults.{seam_fault as word_seam, seams_fault as word_seams};
ghost use Rattle.flight_steps.specs.Faults.{rests_on as word_rests_on, rests_by as word_rests_by};
ghost use Rattle.flight_steps.specs.Faults.{rests_in as word_rests_in, restless as word_restless};
ghost use Rattle.flight_steps.specs.Faults.{way_fault as word_way, ups_fault as word_ups, downs_fault as word_downs};
ghost use Rattle.flight_steps.specs.Faults.{narrow as word_narrow, route_fault as word_route};
ghost use Rattle.flight_steps.specs.Faults.{flight_fault as word_flight};
ghost use Rattle.flight_steps.specs.Ways.{routes};

use crate::faults::{FlightFault, Seam, Way};
use crate::legs::{after, way_ends};
use crate::moves::{first_move, goes_down, goes_up, last_move};
use crate::ways::{Crews, Ellipsoid, Name, Ways};
use flight_model::Leg;
use listed::Listed;
use traj_codec::{Element, Segment, Traj};

fn is_same_name(a: &Name, b: &Name) -> bool
    ensures { result ≡ bytes_eq a.now.items b.now.items }
{
    a.as_slice() == b.as_slice()
}

// The first place where two lists of names differ.
fn first_other(a: &[Name], b: &[Name]) -> Option<usize>
    ensures { result ≡ word_other 0 a.now b.now }
{
    for d in 0..a.len() {
        if d >= b.len() {
            return Some(d);
        }
        if !is_same_name(&a[d], &b[d]) {
            return Some(d);
        }
    }
    if a.len() < b.len() {
        Some(a.len())
    } else {
        None
    }
}

fn other_drone(way: Way, place: Option<usize>) -> Option<FlightFault>
    ensures { result ≡ word_drone way place }
{
    match place {
        None => None,
        Some(drone) => Some(FlightFault::OtherDrone { way, drone }),
    }
}

// What is wrong with the names.
fn name_fault(c: &Crews) -> Option<FlightFault>
    ensures { result ≡ word_names c.now }
{
    let up = other_drone(Way::Up, first_other(c.up.names, c.show.names));
    let down = other_drone(Way::Down, first_other(c.down.names, c.show.names));
    up.or(down)
}

fn other_ellipsoid(way: Way, a: &Ellipsoid, b: &Ellipsoid) -> Option<FlightFault>
    ensures { result ≡ word_ellipsoid way a.now b.now }
{
    if a.r == b.r && a.h == b.h {
        None
    } else {
        Some(FlightFault::OtherEllipsoid { way })
    }
}

// What is wrong with the ellipsoids.
fn size_fault(up: &Ellipsoid, show: &Ellipsoid, down: &Ellipsoid) -> Option<FlightFault>
    ensures { result ≡ word_sizes up.now show.now down.now }
{
    other_ellipsoid(Way::Up, up, show).or(other_ellipsoid(Way::Down, down, show))
}

// What is wrong with the drones.
fn crew_fault(c: &Crews) -> Option<FlightFault>
    ensures { result ≡ word_crew c.now }
{
    let sizes = size_fault(&c.up.ellipsoid, &c.show.ellipsoid, &c.down.ellipsoid);
    name_fault(c).or(sizes)
}

// What is wrong where a drone ends here and begins there.
fn gap(seam: Seam, drone: usize, here: &[i16; 4], there: &[i16; 4]) -> Option<FlightFault>
    ensures { result ≡ word_gap seam drone here.now there.now }
{
    if here.as_slice() == there.as_slice() {
        None
    } else {
        Some(FlightFault::Gap { seam, drone })
    }
}

// Whether the three ways of a drone meet.
fn seam_fault(drone: usize, up: &Traj, show: &Traj, down: &Traj) -> Option<FlightFault>
    ensures { result ≡ word_seam drone up.now show.now down.now }
{
    let first = gap(Seam::UpToShow, drone, &way_ends(up), &show.start);
    let second = gap(Seam::ShowToDown, drone, &way_ends(show), &down.start);
    let third = gap(Seam::DownToUp, drone, &way_ends(down), &up.start);
    first.or(second.or(third))
}

// What is wrong where drones end and begin, as far as there are three ways.
fn seams_fault(ups: &[Traj], shows: &[Traj], downs: &[Traj]) -> Option<FlightFault>
    ensures { result ≡ word_seams 0 ups.now shows.now downs.now }
{
    for d in 0..ups.len() {
        if d >= shows.len() {
            return None;
        }
        if d >= downs.len() {
            return None;
        }
        let fault = seam_fault(d, &ups[d], &shows[d], &downs[d]);
        if fault.is_some() {
            return fault;
        }
    }
    None
}

// Whether these control points stay, or go from rest to rest.
fn rests_on(here: i16, v: &[i16]) -> bool
    ensures { result ≡ word_rests_on here v.now }
{
    if v.is_empty() {
        return true;
    }
    if v.len() != 7 {
        return false;
    }
    let rest = [here, here, here, v[3], v[3], v[3], v[3]];
    v == rest.as_slice()
}

// Whether an element does.
fn rests_by(here: i16, e: &Element) -> bool
    ensures { result ≡ word_rests_by here e.now }
{
    match e {
        Element::Constant => true,
        Element::Linear { v } => rests_on(here, &[*v]),
        Element::Cubic { v } => rests_on(here, v),
        Element::Seven { v } => rests_on(here, v),
    }
}

// Whether a drone rests on each axis in a segment.
fn rests_in(here: &[i16; 4], s: &Segment) -> bool
    ensures { result ≡ word_rests_in here.now s.now }
{
    rests_by(here[0], &s.elements[0])
        && rests_by(here[1], &s.elements[1])
        && rests_by(here[2], &s.elements[2])
        && rests_by(here[3], &s.elements[3])
}

// The first cue in which a drone doesn't rest.
fn restless(t: &Traj) -> Option<usize>
    ensures { result ≡ word_restless t.now }
{
    let segments = t.segments.as_slice();
    let mut here = t.start;
    for cue in 0..segments.len() {
        if !rests_in(&here, &segments[cue]) {
            return Some(cue);
        }
        here = after(&here, &segments[cue]);
    }
    None
}

// Whether a drone leaves its pad straight up, or reaches it straight down.
fn is_straight(way: Way, l: &Leg) -> bool
    ensures { result ≡ word_straight way l.now }
{
    match way {
        Way::Up => goes_up(l),
        Way::Down => goes_down(l),
    }
}

fn way_fault(way: Way, drone: usize, cue: Option<usize>, one: Option<Leg>) -> Option<FlightFault>
    ensures { result ≡ word_way way drone cue one }
{
    if let Some(cue) = cue {
        return Some(FlightFault::Restless { way, drone, cue });
    }
    match one {
        None => Some(FlightFault::Still { way, drone }),
        Some(l) => {
            if is_straight(way, &l) {
                None
            } else {
                Some(FlightFault::Slanted { way, drone })
            }
        }
    }
}

fn ups_fault(ways: &[Traj], all: &[Listed<Leg>]) -> Option<FlightFault>
    requires { all.now ≡ map legs_of ways.now }
    ensures { result ≡ word_ups 0 ways.now }
{
    for d in 0..ways.len() {
        let one = first_move(all[d].as_slice());
        let fault = way_fault(Way::Up, d, restless(&ways[d]), one);
        if fault.is_some() {
            return fault;
        }
    }
    None
}

fn downs_fault(ways: &[Traj], all: &[Listed<Leg>]) -> Option<FlightFault>
    requires { all.now ≡ map legs_of ways.now }
    ensures { result ≡ word_downs 0 ways.now }
{
    for d in 0..ways.len() {
        let one = last_move(all[d].as_slice());
        let fault = way_fault(Way::Down, d, restless(&ways[d]), one);
        if fault.is_some() {
            return fault;
        }
    }
    None
}

// Whether drones may stand farther from their pads than they may stray.
fn narrow(w: &Ways) -> Option<FlightFault>
    ensures { result ≡ word_narrow (routes w.now) }
{
    if w.near <= w.stray {
        None
    } else {
        Some(FlightFault::Narrow {
            near: w.near,
            stray: w.stray,
        })
    }
}

fn route_fault(w: &Ways, ups: &[Listed<Leg>], downs: &[Listed<Leg>]) -> Option<FlightFault>
    requires ups { ups.now ≡ map legs_of w.now.up.now }
    requires downs { downs.now ≡ map legs_of w.now.down.now }
    ensures { result ≡ word_route (routes w.now) }
{
    let ways = ups_fault(w.up, ups).or(downs_fault(w.down, downs).or(narrow(w)));
    seams_fault(w.up, w.show, w.down).or(ways)
}

/// The first cause why three shows are no flight.
pub fn flight_fault(
    crews: &Crews,
    w: &Ways,
    ups: &[Listed<Leg>],
    downs: &[Listed<Leg>],
) -> Option<FlightFault>
    requires ups { ups.now ≡ map legs_of w.now.up.now }
    requires downs { downs.now ≡ map legs_of w.now.down.now }
    ensures { result ≡ word_flight crews.now (routes w.now) }
{
    crew_fault(crews).or(route_fault(w, ups, downs))
}
