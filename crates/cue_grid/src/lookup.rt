//! A show whose formations and figures are found by their names.

ghost use Rattle.std.specs.Prelude.{◌≡◌, OnOk, IfOk, Some, None, MatchOption, map, take, length, vec_items};
ghost use Rattle.choreo_show.specs.Plain.{figure_of as plain_figure};
ghost use Rattle.cue_grid.specs.Numbers.{IsNumbered, IsNoted, formation_names, figure_names};
ghost use Rattle.cue_grid.specs.Names.{formation_named, figure_named, has_name, names_of};
ghost use Rattle.cue_grid.specs.Marks.{number_in, Keeps, HasNumbers, IsPlaced, ArePlaced, AllPlaced};

use choreo_show::{DroneLine, Figure, Formation, Name, Show, copy_of};
use indexmap::{IndexMap, IndexSet};
use std::alloc::{AllocError, AllocFailed, Global};

type Numbers = IndexMap<Name, usize>;

// A name that has a number keeps it.
fn number_name(
    numbers: &mut Numbers,
    name: &Name,
    number: usize,
) -> Result<(), AllocFailed<(Name, usize)>>
    ensures { OnOk result (IsNoted numbers.old.entries numbers.new.entries name.now number) }
{
    if numbers.contains_key(name) {
        return Ok(());
    }
    numbers.insert(copy_of(name), number)?;
    Ok(())
}

// The names of formations, each with the place of the first that has it.
fn formation_numbers(
    alloc: Global,
    formations: &[Formation],
) -> Result<Numbers, AllocFailed<(Name, usize)>>
    ensures { IfOk result (λ numbers. IsNumbered (formation_names formations.now) numbers.entries) }
{
    let mut numbers = IndexMap::new(alloc);
    for (i, formation) in formations.iter().enumerate() {
        number_name(&mut numbers, &formation.name, i)?;
    }
    Ok(numbers)
}

// The names of figures, each with the place of the first that has it.
fn figure_numbers(alloc: Global, figures: &[Figure]) -> Result<Numbers, AllocFailed<(Name, usize)>>
    ensures { IfOk result (λ numbers. IsNumbered (figure_names figures.now) numbers.entries) }
{
    let mut numbers = IndexMap::new(alloc);
    for (i, figure) in figures.iter().enumerate() {
        number_name(&mut numbers, &figure.name, i)?;
    }
    Ok(numbers)
}

// The number of a name: a new name gets the next one.
fn number_of(names: &mut IndexSet<Name>, name: &Name) -> Result<usize, AllocError>
    ensures keeps { OnOk result (Keeps names.old.keys names.new.keys) }
    ensures number { IfOk result (λ k. number_in names.new.keys name.now ≡ Some k) }
{
    let (number, _) = names.insert_full(copy_of(name))?;
    Ok(number)
}

fn numbers_of(
    alloc: Global,
    names: &mut IndexSet<Name>,
    places: &[DroneLine],
) -> Result<Vec<usize>, AllocError>
    ensures keeps { OnOk result (Keeps names.old.keys names.new.keys) }
    ensures numbers { IfOk result (λ numbers.
        HasNumbers names.new.keys (names_of places.now) numbers.items) }
{
    let mut numbers = Vec::with_capacity(alloc, places.len())?;
    for place in places {
        let number = number_of(names, &place.name)?;
        numbers.push(number)?;
    }
    Ok(numbers)
}

fn place_numbers(
    alloc: Global,
    names: &mut IndexSet<Name>,
    formations: &[Formation],
) -> Result<Vec<Vec<usize>>, AllocError>
    ensures { IfOk result (λ all. ArePlaced vec_items names.new.keys formations.now all.items) }
{
    let mut all = Vec::with_capacity(alloc, formations.len())?;
    for formation in formations {
        let numbers = numbers_of(alloc, names, formation.places.as_slice())?;
        all.push(numbers)?;
    }
    Ok(all)
}

// The names on the `at` lines of formations, and the numbers that these lines have.
fn placed_names(
    alloc: Global,
    formations: &[Formation],
) -> Result<(IndexSet<Name>, Vec<Vec<usize>>), AllocError>
    ensures { IfOk result (λ placed. ArePlaced vec_items placed.0.keys formations.now placed.1.items) }
{
    let mut names = IndexSet::new(alloc);
    let places = place_numbers(alloc, &mut names, formations)?;
    Ok((names, places))
}

/// A show with the numbers of the names of its formations and figures, and of the names on `at` lines.
/// The tables give each name of a formation or figure the place of the first that has it.
#[derive(Drop)]
pub struct Lookup<'a> {
    pub show: &'a Show,
    formations: Numbers,
    figures: Numbers,
    names: IndexSet<Name>,
    places: Vec<Vec<usize>>,
    ghost formations_numbered: { IsNumbered (formation_names show.now.formations) formations.entries },
    ghost figures_numbered: { IsNumbered (figure_names show.now.figures) figures.entries },
    ghost places_numbered: { AllPlaced vec_items names.keys show.now.formations places.items },
}

impl<'a> Lookup<'a> {
    /// This show, with its names in maps.
    pub fn of(alloc: Global, show: &'a Show) -> Result<Lookup<'a>, AllocError>
        ensures { IfOk result (λ l. l.show.now ≡ show.now) }
    {
        let formations = formation_numbers(alloc, show.formations.as_slice())?;
        let figures = figure_numbers(alloc, show.figures.as_slice())?;
        let (names, places) = placed_names(alloc, show.formations.as_slice())?;
        Ok(Lookup {
            show,
            formations,
            figures,
            names,
            places,
        })
    }

    /// The first formation of a name.
    pub fn find_formation(&self, name: &Name) -> Option<&Formation>
        ensures { MatchOption result
            (formation_named self.now.show.now.formations name.now ≡ None)
            (λ f. formation_named self.now.show.now.formations name.now ≡ Some f.now) }
    {
        match self.formations.get(name) {
            None => None,
            Some(number) => self.show.formations.as_slice().get(*number),
        }
    }

    /// The first figure of a name.
    pub fn find_figure(&self, name: &Name) -> Option<&Figure>
        ensures { MatchOption result
            (figure_named (map plain_figure self.now.show.now.figures) name.now ≡ None)
            (λ f. figure_named (map plain_figure self.now.show.now.figures) name.now
            ≡ Some (plain_figure f.now)) }
    {
        match self.figures.get(name) {
            None => None,
            Some(number) => self.show.figures.as_slice().get(*number),
        }
    }

    /// The numbers of the names of the places of the first formation of a name.
    pub fn find_places(&self, name: &Name) -> Option<&[usize]>
        ensures { MatchOption result
            (formation_named self.now.show.now.formations name.now ≡ None)
            (λ numbers. IsPlaced (self.now.names.keys)
            (formation_named self.now.show.now.formations name.now) numbers.now) }
    {
        match self.formations.get(name) {
            None => None,
            Some(number) => match self.places.as_slice().get(*number) {
                None => None,
                Some(numbers) => Some(numbers.as_slice()),
            },
        }
    }

    /// How many names are on `at` lines.
    pub fn name_count(&self) -> usize
        ensures { result ≡ length (self.now.names.keys) }
    {
        self.names.len()
    }

    /// The number of a name, if it is on an `at` line.
    pub fn find_number(&self, name: &Name) -> Option<usize>
        ensures { result ≡ number_in (self.now.names.keys) name.now }
    {
        self.names.get_index_of(name)
    }

    /// Whether one of the first formations, as many as given, has this name.
    pub fn has_formation_before(&self, number: usize, name: &Name) -> bool
        ensures { result ≡ has_name (formation_names (take number self.now.show.now.formations)) name.now }
    {
        match self.formations.get(name) {
            None => false,
            Some(first) => *first < number,
        }
    }

    /// Whether one of the first figures, as many as given, has this name.
    pub fn has_figure_before(&self, number: usize, name: &Name) -> bool
        ensures { result ≡ has_name (figure_names (take number self.now.show.now.figures)) name.now }
    {
        match self.figures.get(name) {
            None => false,
            Some(first) => *first < number,
        }
    }
}
