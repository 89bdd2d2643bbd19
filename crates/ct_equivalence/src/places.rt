//! The places at which terms stand in wide terms.
ghost use Rattle.std.specs.Prelude.{◌≡◌, ◌<◌, [], ◌∷◌, ◌++◌, length, set, IfOk, OnOk, IfSome, IfNone};
ghost use Rattle.std.specs.List.{AllByRecursion};
ghost use Rattle.ct_terms.specs.declared.ids.TermId.{TermId};
ghost use Rattle.ct_terms.specs.Terms.{HasArgumentsBelow};
ghost use Rattle.ct_terms.specs.Children.{core_children};
ghost use Rattle.ct_equivalence.specs.declared.places.Place.{Place};
ghost use Rattle.ct_equivalence.specs.Digests.{IsWide, ArePlaces, places_of};
ghost use Rattle.ct_equivalence.specs.Places.{IsPlaced};

use crate::error::EquivalenceError;
use ct_terms::{Core, TermId, TermTable};
use std::alloc::Global;
use std::marker::Model;

/// The most arguments of a term whose digest is worked out anew each time.
const NARROW: usize = 8;

/// A place in a wide term.
#[derive(Clone, Copy, Debug, Drop)]
pub struct Place {
    /// The term.
    pub term: TermId,
    /// The number of the argument.
    pub index: usize,
}

/// A row of places for each term. Clauses see a list of lists.
#[derive(Drop)]
pub(crate) struct Places {
    alloc: Global,
    rows: Vec<Vec<Place>>,
}

impl Model for Places {
    ghost use Rattle.std.specs.Prelude.{List, map};
    ghost use Rattle.ct_equivalence.specs.declared.places.Place.{Place};

    ghost Value = { List (List Place) };

    ghost view = { λ p. map (λ row. row.items) p.rows.items };
}

impl Places {
    // No rows.
    fn new(alloc: Global) -> Places
        ensures empty { result ≡ [] }
    {
        Places {
            alloc,
            rows: Vec::new(alloc),
        }
    }

    // One more row, which is empty.
    fn add_row(&mut self) -> Result<(), EquivalenceError>
        ensures added { OnOk result (self.new ≡ self.old ++ [] ∷ []) }
    {
        self.rows.push(Vec::new(self.alloc))?;
        Ok(())
    }

    /// The row of the term.
    pub(crate) fn row(&self, t: TermId) -> &[Place]
        ensures value { result.now ≡ places_of self.now t }
    {
        match self.rows.get(t.0 as usize) {
            Some(row) => row.as_slice(),
            None => &[],
        }
    }

    // One more place at the end of the term's row.
    fn push(&mut self, t: TermId, place: Place) -> Result<(), EquivalenceError>
        requires inside { t.0 < length self.old }
        ensures pushed { OnOk result (self.new ≡ set self.old t.0 (places_of self.old t ++ place ∷ [])) }
    {
        self.rows[t.0 as usize].push(place)?;
        Ok(())
    }
}

/// For each term of the table the places at which it stands in wide terms.
pub(crate) fn list_places(alloc: Global, table: &TermTable) -> Result<Places, EquivalenceError>
    ensures places { IfOk result (ArePlaces table.now) }
{
    let mut places = empty_places(alloc, table.len())?;
    for t in 0..table.len() {
        add_wide(&mut places, table.core(TermId(t)), TermId(t))?;
    }
    Ok(places)
}

// So many empty rows.
fn empty_places(alloc: Global, count: u32) -> Result<Places, EquivalenceError>
    ensures long { IfOk result (λ rows. length rows ≡ count) }
    ensures empty { IfOk result (λ rows. (m : TermId) → places_of rows m ≡ []) }
{
    let mut rows = Places::new(alloc);
    for _ in 0..count {
        rows.add_row()?;
    }
    Ok(rows)
}

// Puts the places of a wide term to the rows of its arguments.
fn add_wide(places: &mut Places, core: &Core, t: TermId) -> Result<(), EquivalenceError>
    requires inside { HasArgumentsBelow (length places.old) core.now }
    ensures long { OnOk result (length places.new ≡ length places.old) }
    ensures placed { OnOk result (IsWide core.now → IsPlaced t (core_children core.now) places.old places.new) }
    ensures narrow { OnOk result ((IsWide core.now → ⊥) → places.new ≡ places.old) }
{
    match wide_arguments(core) {
        Some(args) => add_arguments(places, args, t),
        None => Ok(()),
    }
}

// Puts a place for each of the arguments of the term to its row.
fn add_arguments(places: &mut Places, args: &[TermId], t: TermId) -> Result<(), EquivalenceError>
    requires inside { AllByRecursion (λ a. a.0 < length places.old) args.now }
    ensures long { OnOk result (length places.new ≡ length places.old) }
    ensures placed { OnOk result (IsPlaced t args.now places.old places.new) }
{
    for index in 0..args.len() {
        places.push(args[index], Place { term: t, index })?;
    }
    Ok(())
}

/// The arguments of the term, if it is wide.
pub(crate) fn wide_arguments(core: &Core) -> Option<&[TermId]>
    ensures wide { IfSome result (λ args. (args.now ≡ core_children core.now) × IsWide core.now) }
    ensures narrow { IfNone result (IsWide core.now → ⊥) }
{
    match core {
        Core::Con(_, args) => wide(args.as_slice()),
        Core::Apply(_, args) => wide(args.as_slice()),
        Core::And(args) => wide(args.as_slice()),
        Core::Or(args) => wide(args.as_slice()),
        _ => None,
    }
}

// The arguments, if they are many.
fn wide(args: &[TermId]) -> Option<&[TermId]>
    ensures wide { IfSome result (λ all. (all.now ≡ args.now) × (8 < length args.now)) }
    ensures narrow { IfNone result (8 < length args.now → ⊥) }
{
    if args.len() > NARROW {
        Some(args)
    } else {
        None
    }
}
