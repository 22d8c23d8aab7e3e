//! Names: which are the same, and which are among others.

ghost use Rattle.std.specs.Prelude.{◌≡◌};
ghost use Rattle.cue_grid.specs.Names.{same_name as same_name_of, has_name, has_each, has_double as has_double_of};
ghost use Rattle.cue_grid.specs.Names.{names_of};

use choreo_show::{DroneLine, Name};

/// Whether two names are the same.
pub fn same_name(a: &Name, b: &Name) -> bool
    ensures { result ≡ same_name_of a.now b.now }
{
    a.as_slice() == b.as_slice()
}

/// Whether a name is one of these.
pub fn is_among(names: &[Name], name: &Name) -> bool
    ensures { result ≡ has_name names.now name.now }
{
    names.iter().any(|other| same_name(name, other))
}

/// Whether a name is one of these. It is looked for at this place first, since the lines of a cue mostly stand in the
/// order of the drones.
#[tactic(auto, using(crate::proofs::Distinct::place_has))]
pub fn is_known(names: &[Name], place: usize, name: &Name) -> bool
    ensures { result ≡ has_name names.now name.now }
{
    if place < names.len() && same_name(name, &names[place]) {
        return true;
    }
    is_among(names, name)
}

/// Whether a name is that of one of these drones.
pub fn is_drone(drones: &[DroneLine], name: &Name) -> bool
    ensures { result ≡ has_name (names_of drones.now) name.now }
{
    for drone in drones {
        if same_name(name, &drone.name) {
            return true;
        }
    }
    false
}

/// Whether each name is that of one of these drones.
pub fn are_drones(drones: &[DroneLine], names: &[Name]) -> bool
    ensures { result ≡ has_each (names_of drones.now) names.now }
{
    names.iter().all(|name| is_drone(drones, name))
}

/// Whether two of the names are equal.
pub fn has_double(names: &[Name]) -> bool
    ensures { result ≡ has_double_of names.now }
{
    let mut rest = names;
    while !rest.is_empty() {
        let (first, others) = rest.split_at(1);
        if is_among(others, &first[0]) {
            return true;
        }
        rest = others;
    }
    false
}
