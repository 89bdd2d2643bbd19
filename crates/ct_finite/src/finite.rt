//! Listable sorts of a signature, with their values.
ghost use Rattle.std.specs.Prelude.{◌≡◌, ◌<◌, ◌≤◌, ◌↔◌, List, length, map, All, Contains, Some, slice_get, IfOk, IsTrue, MatchOption};
ghost use Rattle.ct_sorts.specs.Declarations.{Declarations, IsSort, IsConstructor};
ghost use Rattle.ct_formulas.specs.TreeFormula.{formula_of};
ghost use Rattle.ct_listing.specs.Listable.{IsListable, field_sorts};
ghost use Rattle.ct_sorts.specs.declared.ids.SortId.{SortId};
ghost use Rattle.ct_listing.specs.Listing.{listed};
ghost use Rattle.ct_finite.specs.ClosedFormula.{formula_of_value};
ghost use Rattle.ct_finite.specs.Counts.{AreCounts, count_at, most_values};
ghost use Rattle.ct_finite.specs.Entries.{IsBuiltOf};
ghost use Rattle.ct_finite.specs.Choosing.{IsChoice, MayChoose, IsChosen, AreLike, first_like};
ghost use Rattle.ct_formulas.specs.Choices.{choices_of};
ghost use Rattle.ct_listing.specs.Closed.{ClosedValue};

use crate::choosing::{choices_for, first_like, numbers_of};
use crate::count::MOST_VALUES;
use crate::error::FiniteError;
use crate::known::known_counts;
use crate::parts::{Part, part_at};
use crate::trees::tree_at;
use ct_formulas::Tree;
use ct_listing::listed_values;
use ct_sorts::{Signature, SortId};
use std::alloc::Global;
use std::marker::Model;

/// Which sorts of a signature are listable, and how many values each of these has. A sort is listable if it is Bool, or a
/// datatype or codatatype all of whose constructors have only fields of listable sorts.
#[derive(Debug, Drop)]
pub struct Finite {
    alloc: Global,
    counts: Vec<u64>,
}

impl Model for Finite {
    ghost use Rattle.std.specs.Prelude.{ℕ, List};

    ghost Value = { List ℕ };

    ghost view = { λ stored. stored.counts.items };
}

impl Finite {
    /// The listable sorts of the signature. The time is linear in its sorts, constructors and selectors.
    pub fn new(alloc: Global, sig: &Signature) -> Result<Finite, FiniteError>
        ensures counts { IfOk result (λ finite. AreCounts sig.now finite) }
    {
        let counts = known_counts(alloc, sig)?;
        Ok(Finite { alloc, counts })
    }

    /// Whether the sort is listable. Takes no memory.
    pub fn listable(&self, s: SortId) -> bool
        requires inside { s.0 < length self.now }
        ensures value { IsTrue result ↔ 0 < count_at self.now s }
        ensures exact { (d : Declarations) → AreCounts d self.now → IsTrue result ↔ IsListable d s }
    {
        self.counts[s.0 as usize] > 0
    }

    /// How many values the listable sort has, or `None` exactly if it has more than 4,096. Takes no memory.
    pub fn count(&self, s: SortId) -> Option<u64>
        requires inside { s.0 < length self.now }
        ensures exact { (d : Declarations) → AreCounts d self.now → IsListable d s
            → MatchOption result (most_values < length (listed d s)) (λ count. (count ≡ length (listed d s)) × (count ≤ most_values)) }
    {
        let count = self.counts[s.0 as usize];
        if count > MOST_VALUES {
            return None;
        }
        Some(count)
    }

    /// How many choices of values there are for variables of these listable sorts, or `None` exactly if there are more
    /// than 4,096. Takes no memory.
    pub fn choice_count(&self, sorts: &[SortId]) -> Option<u64>
        requires listable { (d : Declarations) × AreCounts d self.now × All (IsListable d) sorts.now }
        ensures exact { (d : Declarations) → AreCounts d self.now → All (IsListable d) sorts.now
            → MatchOption result (most_values < length (choices_of d sorts.now)) (λ count. (count ≡ length (choices_of d sorts.now)) × (count ≤ most_values)) }
    {
        let count = choices_for(self.counts.as_slice(), sorts);
        if count > MOST_VALUES {
            return None;
        }
        Some(count)
    }

    /// The choice with this number, from 0 on, for variables of listable sorts that have at most 4,096 choices: for each variable
    /// the number of its value in the list of its sort. The first variable changes slowest.
    pub fn choice(&self, sorts: &[SortId], k: u64) -> Result<Vec<u64>, FiniteError>
        requires may { MayChoose self.now sorts.now k }
        ensures choice { (d : Declarations) → IsChoice d self.now sorts.now k → IfOk result (λ numbers. IsChosen d sorts.now k numbers.items) }
        ensures few { (d : Declarations) → IsChoice d self.now sorts.now k → IfOk result (λ numbers. (s : SortId) → Contains sorts.now s → length (listed d s) ≤ most_values) }
    {
        let numbers = numbers_of(self.alloc, self.counts.as_slice(), sorts, k)?;
        Ok(numbers)
    }

    /// The number of the first choice that has the same values as this one for the variables whose flags are set. Takes no memory.
    pub fn first_like(&self, sorts: &[SortId], flags: &[bool], k: u64) -> u64
        requires may { MayChoose self.now sorts.now k }
        requires long { length flags.now ≡ length sorts.now }
        ensures bound { result ≤ k }
        ensures value { result ≡ first_like (count_at self.now) sorts.now flags.now k }
        ensures like { (d : Declarations) (vs : List ClosedValue) → IsChoice d self.now sorts.now k
            → slice_get (choices_of d sorts.now) k ≡ Some vs
            → (us : List ClosedValue) × (slice_get (choices_of d sorts.now) result ≡ Some us) × AreLike flags.now us vs }
    {
        first_like(self.counts.as_slice(), sorts, flags, k)
    }

    /// All values of a listable sort that has at most 4,096, as trees of constructors: constructor by constructor, and for each
    /// the lists of its fields' values in lexicographic order, the first field slowest. A tree is as large as the value
    /// written out, which may be far more than there are values: `part` tells of each value how it is made of others.
    pub fn values(&self, sig: &Signature, s: SortId) -> Result<Vec<Tree>, FiniteError>
        requires counts { AreCounts sig.now self.now }
        requires inside { IsSort sig.now s }
        requires listable { IsListable sig.now s }
        requires few { length (listed sig.now s) ≤ most_values }
        ensures values { IfOk result (λ trees. map formula_of trees.items ≡ map formula_of_value (listed sig.now s)) }
    {
        let count = self.counts[s.0 as usize];
        let mut trees = Vec::with_capacity(self.alloc, count as usize)?;
        for k in 0..count {
            let tree = tree_at(self.alloc, sig, self.counts.as_slice(), s, k)?;
            trees.push(tree)?;
        }
        Ok(trees)
    }

    /// The value with this number, from 0 on, of a listable sort that has at most 4,096: its constructor, and the numbers of its
    /// fields' values in the lists of their sorts, which have at most 4,096 values too.
    pub fn part(&self, sig: &Signature, s: SortId, k: u64) -> Result<Part, FiniteError>
        requires counts { AreCounts sig.now self.now }
        requires inside { IsSort sig.now s }
        requires listable { IsListable sig.now s }
        requires few { length (listed sig.now s) ≤ most_values }
        requires there { k < length (listed sig.now s) }
        ensures inside { IfOk result (λ part. IsConstructor sig.now part.ctor) }
        ensures part { IfOk result (λ part. IsBuiltOf sig.now s k part.ctor part.numbers.items) }
        ensures fields { IfOk result (λ part. (f : SortId) → Contains (field_sorts sig.now part.ctor) f → IsListable sig.now f × (length (listed sig.now f) ≤ most_values)) }
    {
        let part = part_at(self.alloc, sig, self.counts.as_slice(), s, k)?;
        Ok(part)
    }
}
