//! The closures of checks, kept from one to the next.
ghost use Rattle.std.specs.Prelude.{◌≡◌, ◌⊎◌, ◌<◌, ◌≤◌, [], ◌∷◌, ◌++◌, length, take, reverse, All, Contains, IsTrue, IfOk, OnOk, IsErrOf};
ghost use Rattle.ct_sorts.specs.Declarations.{Declarations, start};
ghost use Rattle.ct_sorts.specs.Consistent.{IsConsistent};
ghost use Rattle.ct_sorts.specs.Grown.{Extends};
ghost use Rattle.ct_sorts.specs.Marks.{CanCut, cut};
ghost use Rattle.ct_card.specs.Sizes.{AreSizes};
ghost use Rattle.ct_terms.specs.Terms.{AreSorted, IsBoolean};
ghost use Rattle.ct_terms.specs.declared.ids.TermId.{TermId};
ghost use Rattle.ct_terms.specs.CoreTree.{term_at};
ghost use Rattle.ct_closure.specs.Closed.{HasMoreThan, most_closure_terms, truth_trees};
ghost use Rattle.ct_closure.specs.ClosedTable.{AreSubtermsOf, terms_at};
ghost use Rattle.ct_closure.specs.Further.{BeginsClosed, IsClosureOver};
ghost use Rattle.ct_base.specs.Base.{AreStages, IsBase, IsClosedFor};

use crate::cutting::{keep_declared, keep_within, take_back};
use crate::error::{extend_sizes, new_sizes};
use crate::growing::{after, close_rest, common_roots};
use crate::stage::Stage;
use ct_card::Sizes;
use ct_closure::{CloseError, Closure, close, closed_beginnings, nothing_closed};
use ct_sorts::{Mark, Signature, growth};
use ct_terms::{TermId, TermTable, core_trees, one_lasting_sort};
use std::alloc::Global;

/// The greatest number of terms in a closure that is made.
const MOST_TERMS: u32 = 200_000;

/// The sizes of all sorts, and a table that is the closure of the assertions of the last check, with marks of earlier ones to
/// which it can be taken back.
#[derive(Drop)]
pub struct Base {
    pub(crate) alloc: Global,
    pub(crate) sizes: Sizes,
    // The closure of the roots.
    pub(crate) table: TermTable,
    // The assertions, in order.
    pub(crate) roots: Vec<TermId>,
    // The terms that are split, in the order in which they came to be so.
    pub(crate) split: Vec<TermId>,
    // Closed beginnings of the table, the last one last.
    pub(crate) stages: Vec<Stage>,
    // Which numbers the terms of the table of assertions had here. They are tested before they are used.
    pub(crate) numbers: Vec<TermId>,
}

impl Base {
    /// A base with the sizes of all sorts of the signature, and no closure.
    pub fn new(alloc: Global, sig: &Signature) -> Result<Base, CloseError>
        ensures base { IfOk result (IsBase sig.now) }
        ensures sizes { IfOk result (λ base. AreSizes sig.now base.sizes) }
        ensures err { IsErrOf result CloseError.TooLarge → ⊥ }
    {
        growth();
        let _sorts = sig.sorts();
        let sizes = new_sizes(alloc, sig)?;
        let table = new_table(alloc)?;
        Ok(Base {
            alloc,
            sizes,
            table,
            roots: Vec::new(alloc),
            split: Vec::new(alloc),
            stages: Vec::new(alloc),
            numbers: Vec::new(alloc),
        })
    }

    /// The sizes of all sorts.
    pub fn sizes(&self) -> &Sizes
        ensures value { result.now ≡ self.now.sizes }
    {
        &self.sizes
    }

    /// The closed table.
    pub fn table(&self) -> &TermTable
        ensures value { result.now ≡ self.now.table }
    {
        &self.table
    }

    /// The numbers of the assertions in the closed table, in order.
    pub fn roots(&self) -> &[TermId]
        ensures value { result.now ≡ self.now.roots.items }
    {
        self.roots.as_slice()
    }

    /// How many assertions the closure is of.
    pub fn root_count(&self) -> usize
        ensures value { result ≡ length self.now.roots.items }
    {
        self.roots.len()
    }

    /// Takes the base back to the last closure of no more assertions than so many.
    pub fn keep_roots(&mut self, roots: usize)
        requires base { (d : Declarations) × IsBase d self.old }
        ensures base { (d : Declarations) → IsBase d self.old → IsBase d self.new }
    {
        keep_within(&mut self.stages, roots);
        take_back(
            &self.stages,
            &mut self.table,
            &mut self.roots,
            &mut self.split,
        );
    }

    /// Makes the sizes those of the signature.
    pub fn size_all(&mut self, sig: &Signature) -> Result<(), CloseError>
        requires base { IsBase sig.now self.old }
        ensures base { IsBase sig.now self.new }
        ensures sizes { OnOk result (AreSizes sig.now self.new.sizes) }
        ensures err { IsErrOf result CloseError.TooLarge → ⊥ }
    {
        growth();
        let _sorts = sig.sorts();
        extend_sizes(&mut self.sizes, sig)
    }

    /// Makes the table the closure of these assertions of another table, which holds `true`, `false`, the assertions and their
    /// subterms, as `close` of `ct_closure` makes it, but for the order of its terms; and gives what a search needs to know of it.
    ///
    /// Those of the first assertions for which there is a closed beginning are not closed again. The time is near-linear in the
    /// others, but for a few looks at each term of both tables.
    ///
    /// `TooLarge` comes exactly where the closure has more than 200,000 terms. After an error the base serves as before.
    pub fn close_over(
        &mut self,
        alloc: Global,
        sig: &Signature,
        table: &TermTable,
        asserts: &[TermId],
    ) -> Result<Closure, CloseError>
        requires base { IsBase sig.now self.old }
        requires sorted { AreSorted sig.now table.now }
        requires asserts { All (IsBoolean table.now) asserts.now }
        requires exact { AreSubtermsOf table.now asserts.now }
        ensures base { IsBase sig.now self.new }
        ensures sizes { OnOk result (AreSizes sig.now self.new.sizes) }
        ensures closed { IfOk result (IsClosedFor sig.now (terms_at table.now asserts.now) self.new) }
        ensures too_large { IsErrOf result CloseError.TooLarge → HasMoreThan sig.now (terms_at table.now asserts.now) most_closure_terms }
    {
        core_trees();
        growth();
        let _sorts = sig.sorts();
        self.size_all(sig)?;
        if table.len() > MOST_TERMS {
            return Err(refusal(alloc, sig, &self.sizes, table, asserts));
        }
        let closed = self.go_back(alloc, sig, table, asserts)?;
        let _terms = self.table.len();
        let further = after(asserts, self.roots.len());
        let closure = close_rest(
            alloc,
            sig,
            &self.sizes,
            table,
            further,
            closed,
            &mut self.table,
            &mut self.roots,
            &mut self.split,
            &mut self.numbers,
        )?;
        let _closed = self.table.len();
        put_stage(sig, &self.table, &self.roots, &self.split, &mut self.stages);
        Ok(closure)
    }

    // Takes the base back to the last stage whose roots are the first of these assertions. How many terms are closed then.
    fn go_back(
        &mut self,
        alloc: Global,
        sig: &Signature,
        table: &TermTable,
        asserts: &[TermId],
    ) -> Result<u32, CloseError>
        requires base { IsBase sig.now self.old }
        ensures base { IsBase sig.now self.new }
        ensures sizes { self.new.sizes ≡ self.old.sizes }
        ensures same { OnOk result (terms_at self.new.table self.new.roots.items ≡ terms_at table.now (take (length self.new.roots.items) asserts.now)) }
        ensures few_roots { OnOk result (length self.new.roots.items ≤ length asserts.now) }
        ensures booleans { OnOk result (All (IsBoolean self.new.table) self.new.roots.items) }
        ensures before { IfOk result (λ closed. (earlier : Declarations) × BeginsClosed sig.now earlier (terms_at self.new.table self.new.roots.items) self.new.table closed self.new.split.items) }
        ensures rest { IfOk result (λ closed. (u : TermId) → closed ≤ u.0 → u.0 < length self.new.table → Contains truth_trees (term_at self.new.table u)) }
        ensures few { OnOk result (length self.new.table ≤ most_closure_terms) }
        ensures err { IsErrOf result CloseError.TooLarge → ⊥ }
    {
        nothing_closed();
        closed_beginnings();
        core_trees();
        growth();
        let _sorts = sig.sorts();
        let _terms = self.table.len();
        let common = common_roots(
            alloc,
            &self.table,
            &self.roots,
            &mut self.numbers,
            table,
            asserts,
        )?;
        keep_within(&mut self.stages, common);
        let closed = take_back(
            &self.stages,
            &mut self.table,
            &mut self.roots,
            &mut self.split,
        );
        Ok(closed)
    }

    /// Takes the base back to what was there where the declarations are cut to this mark. Whether it is of use then: where it is
    /// not, it is to be dropped.
    pub fn cut(&mut self, sig: &Signature, mark: &Mark) -> bool
        requires base { IsBase sig.now self.old }
        requires can_cut { CanCut sig.now mark.now }
        requires consistent { IsConsistent (cut sig.now mark.now) }
        ensures base { IsTrue result → IsBase (cut sig.now mark.now) self.new }
    {
        growth();
        one_lasting_sort();
        let Ok(()) = self.size_all(sig) else {
            return false;
        };
        self.sizes.cut_to(mark.sorts());
        keep_declared(&mut self.stages, mark);
        if self.stages.is_empty() {
            return false;
        }
        take_back(
            &self.stages,
            &mut self.table,
            &mut self.roots,
            &mut self.split,
        );
        true
    }
}

// Why assertions of so large a table are not closed.
fn refusal(
    alloc: Global,
    sig: &Signature,
    sizes: &Sizes,
    table: &TermTable,
    asserts: &[TermId],
) -> CloseError
    requires sizes { AreSizes sig.now sizes.now }
    requires sorted { AreSorted sig.now table.now }
    requires asserts { All (IsBoolean table.now) asserts.now }
    requires exact { AreSubtermsOf table.now asserts.now }
    ensures too_large { result ≡ CloseError.TooLarge → HasMoreThan sig.now (terms_at table.now asserts.now) most_closure_terms }
{
    match table.copy() {
        Ok(copy) => refusal_of(alloc, sig, sizes, copy, asserts),
        Err(_) => CloseError::NoMemory,
    }
}

// Why they are not closed in this table.
fn refusal_of(
    alloc: Global,
    sig: &Signature,
    sizes: &Sizes,
    table: TermTable,
    asserts: &[TermId],
) -> CloseError
    requires sizes { AreSizes sig.now sizes.now }
    requires sorted { AreSorted sig.now table }
    requires asserts { All (IsBoolean table) asserts.now }
    requires exact { AreSubtermsOf table asserts.now }
    ensures too_large { result ≡ CloseError.TooLarge → HasMoreThan sig.now (terms_at table asserts.now) most_closure_terms }
{
    let mut all = table;
    match close(alloc, sig, sizes, &mut all, asserts) {
        Ok(_) => CloseError::NoMemory,
        Err(error) => error,
    }
}

// Puts a stage of all that is closed after the others, if there is memory for it and more is closed.
fn put_stage(
    sig: &Signature,
    table: &TermTable,
    roots: &[TermId],
    split: &[TermId],
    stages: &mut Vec<Stage>,
)
    requires closure { IsClosureOver sig.now (terms_at table.now roots.now) table.now split.now }
    requires booleans { All (IsBoolean table.now) roots.now }
    requires few { length table.now ≤ most_closure_terms }
    requires stages { AreStages sig.now table.now roots.now split.now (reverse stages.old.items) }
    ensures stages { AreStages sig.now table.now roots.now split.now (reverse stages.new.items) }
{
    growth();
    let _sorts = sig.sorts();
    if is_last(stages.as_slice(), roots.len()) {
        return;
    }
    let stage = Stage {
        declared: sig.mark(),
        terms: table.len(),
        roots: roots.len(),
        split: split.len(),
    };
    push_stage(stages, stage);
}

// Puts the stage after the others, if there is memory for it.
fn push_stage(stages: &mut Vec<Stage>, stage: Stage)
    ensures pushed { (stages.new.items ≡ stages.old.items) ⊎ (stages.new.items ≡ stages.old.items ++ stage ∷ []) }
{
    match stages.push(stage) {
        Ok(()) => {}
        Err(_) => {}
    }
}

// Whether the last stage has so many roots.
fn is_last(stages: &[Stage], roots: usize) -> bool {
    match stages.last() {
        Some(stage) => stage.roots == roots,
        None => false,
    }
}

// A table of `true` and `false`.
fn new_table(alloc: Global) -> Result<TermTable, CloseError>
    ensures sorted { IfOk result (λ table. (d : Declarations) → Extends d start → AreSorted d table) }
    ensures err { IsErrOf result CloseError.TooLarge → ⊥ }
{
    match TermTable::new(alloc) {
        Ok(table) => Ok(table),
        Err(_) => Err(CloseError::NoMemory),
    }
}
