//! Who has an act in a cue: the names on `at` lines are marked by their numbers, other names are kept in a set.

ghost use Rattle.std.specs.Prelude.{◌≡◌, ◌++◌, [], ◌∷◌, true, false, get_or, set, OnOk, IfOk, List};
ghost use Rattle.choreo_show.specs.Name.{Name};
ghost use Rattle.cue_grid.specs.Marks.{number_in, has_act, has_mark, marked};
ghost use Rattle.cue_grid.specs.Faults.{acted_by};
ghost use Rattle.cue_grid.specs.Shown.{shown, place_names, HaveActs};

use crate::lookup::Lookup;
use choreo_show::{ActLine, Name, copy_of};
use indexmap::IndexSet;
use std::alloc::{AllocError, Global};

/// Who has an act: a mark for the number of each name on an `at` line, and the other names.
#[derive(Drop)]
pub struct Acted {
    marks: Vec<bool>,
    others: IndexSet<Name>,
}

/// Nobody yet.
pub fn nobody(alloc: Global, show: &Lookup) -> Result<Acted, AllocError>
    ensures { IfOk result (λ acted. HaveActs (place_names show.now) acted []) }
{
    let mut marks = Vec::new(alloc);
    marks.resize(show.name_count(), false)?;
    Ok(Acted {
        marks,
        others: IndexSet::new(alloc),
    })
}

/// Whether a name has an act.
pub fn has_acted(acted: &Acted, show: &Lookup, name: &Name) -> bool
    ensures { result
        ≡ has_act (number_in (place_names show.now) name.now) acted.now.marks.items
        acted.now.others.keys name.now }
{
    match show.find_number(name) {
        None => acted.others.contains(name),
        Some(number) => has_one_mark(acted.marks.as_slice(), number),
    }
}

/// Whether one of the names of these numbers has an act.
pub fn has_some_acted(acted: &Acted, numbers: &[usize]) -> bool
    ensures { result ≡ has_mark acted.now.marks.items numbers.now }
{
    has_some_mark(acted.marks.as_slice(), numbers)
}

/// Adds who has an act by a line.
pub fn put_acted(acted: &mut Acted, show: &Lookup, line: &ActLine) -> Result<(), AllocError>
    ensures { OnOk result ((names : List Name)
        → HaveActs (place_names show.now) acted.old names
        → HaveActs (place_names show.now) acted.new
        (names ++ acted_by (shown show.now).formations line.now)) }
{
    match line {
        ActLine::One { name, .. } => match show.find_number(name) {
            None => {
                acted.others.insert(copy_of(name))?;
            }
            Some(number) => mark(&mut acted.marks, number),
        },
        ActLine::Form { formation, .. } => match show.find_places(formation) {
            None => {}
            Some(numbers) => mark_each(&mut acted.marks, numbers),
        },
    }
    Ok(())
}

fn has_one_mark(marks: &[bool], number: usize) -> bool
    ensures { result ≡ get_or marks.now number false }
{
    number < marks.len() && marks[number]
}

fn has_some_mark(marks: &[bool], numbers: &[usize]) -> bool
    ensures { result ≡ has_mark marks.now numbers.now }
{
    for number in numbers {
        if has_one_mark(marks, *number) {
            return true;
        }
    }
    false
}

fn mark(marks: &mut Vec<bool>, number: usize)
    ensures { marks.new.items ≡ set marks.old.items number true }
{
    if number < marks.len() {
        marks[number] = true;
    }
}

fn mark_each(marks: &mut Vec<bool>, numbers: &[usize])
    ensures { marks.new.items ≡ marked marks.old.items numbers.now }
{
    for number in numbers {
        mark(marks, *number);
    }
}
