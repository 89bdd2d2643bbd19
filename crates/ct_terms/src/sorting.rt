//! Whether a term is well sorted over the terms of a table.
ghost use Rattle.std.specs.Prelude.{◌↔◌, All, IsTrue};
ghost use Rattle.std.specs.List.{AllZip};
ghost use Rattle.ct_sorts.specs.declared.ids.SortId.{SortId};
ghost use Rattle.ct_sorts.specs.Declarations.{IsSelector};
ghost use Rattle.ct_terms.specs.Terms.{IsOfSort, IsBoolean, AreOfSorts, IsOfField, Constructs, Selects, Tests, Applies, Equates, Joins, IsWellSorted};

use crate::ids::TermId;
use crate::table::{BOOL, TermTable};
use crate::term::Core;
use ct_sorts::{CtorId, FunId, SelId, Signature, SortId};

/// Whether the term is well sorted over the terms of the table, as `TermTable::make` asks. It is not where it names
/// a term, a constructor, a selector or a function that is not there.
pub fn is_well_sorted(sig: &Signature, table: &TermTable, core: &Core) -> bool
    ensures sorted { IsTrue result ↔ IsWellSorted sig.now table.now core.now }
{
    match core {
        Core::Con(c, args) => constructs(sig, table, *c, args.as_slice()),
        Core::Sel(s, t) => selects(sig, table, *s, *t),
        Core::Test(c, t) => tests(sig, table, *c, *t),
        Core::Apply(f, args) => applies(sig, table, *f, args.as_slice()),
        Core::Eq(a, b) => equates(table, *a, *b),
        Core::Not(t) => is_of_sort(table, *t, BOOL),
        Core::And(args) => are_boolean(table, args.as_slice()),
        Core::Or(args) => are_boolean(table, args.as_slice()),
        Core::Iff(a, b) => is_of_sort(table, *a, BOOL) && is_of_sort(table, *b, BOOL),
        Core::Ite(c, a, b) => chooses(table, *c, *a, *b),
    }
}

// Whether the arguments are of the sorts of the constructor's fields.
fn constructs(sig: &Signature, table: &TermTable, c: CtorId, args: &[TermId]) -> bool
    ensures sorted { IsTrue result ↔ ((sort : SortId) × Constructs sig.now table.now c.0 args.now sort) }
{
    if c.0 >= sig.mark().ctors() {
        return false;
    }
    are_of_fields(sig, table, args, sig.ctor_sels(c))
}

// Whether the term is of the sort of the selector's constructor.
fn selects(sig: &Signature, table: &TermTable, s: SelId, t: TermId) -> bool
    ensures sorted { IsTrue result ↔ ((sort : SortId) × Selects sig.now table.now s.0 t sort) }
{
    if s.0 >= sig.mark().sels() {
        return false;
    }
    is_of_sort(table, t, sig.ctor_sort(sig.sel_ctor(s)))
}

// Whether the term is of the sort of the constructor.
fn tests(sig: &Signature, table: &TermTable, c: CtorId, t: TermId) -> bool
    ensures sorted { IsTrue result ↔ ((sort : SortId) × Tests sig.now table.now c.0 t sort) }
{
    if c.0 >= sig.mark().ctors() {
        return false;
    }
    is_of_sort(table, t, sig.ctor_sort(c))
}

// Whether the arguments are of the sorts of the function's arguments.
fn applies(sig: &Signature, table: &TermTable, f: FunId, args: &[TermId]) -> bool
    ensures sorted { IsTrue result ↔ ((sort : SortId) × Applies sig.now table.now f.0 args.now sort) }
{
    if f.0 >= sig.funs() {
        return false;
    }
    are_of_sorts(table, args, sig.fun_args(f))
}

// Whether the terms are of one sort other than Bool.
fn equates(table: &TermTable, a: TermId, b: TermId) -> bool
    ensures sorted { IsTrue result ↔ ((sort : SortId) × Equates table.now a b sort) }
{
    if a.0 >= table.len() {
        return false;
    }
    let side = table.sort(a);
    side != BOOL && is_of_sort(table, b, side)
}

// Whether the first term is Boolean and the others are of one sort.
fn chooses(table: &TermTable, c: TermId, a: TermId, b: TermId) -> bool
    ensures sorted { IsTrue result ↔ ((sort : SortId) × (IsBoolean table.now c × IsOfSort table.now a sort × IsOfSort table.now b sort)) }
{
    if a.0 >= table.len() {
        return false;
    }
    is_of_sort(table, c, BOOL) && is_of_sort(table, b, table.sort(a))
}

// Whether there is a term of this number and this sort.
fn is_of_sort(table: &TermTable, t: TermId, sort: SortId) -> bool
    ensures sorted { IsTrue result ↔ IsOfSort table.now t sort }
{
    if t.0 >= table.len() {
        return false;
    }
    table.sort(t) == sort
}

// Whether there are terms, and all are Boolean.
fn are_boolean(table: &TermTable, terms: &[TermId]) -> bool
    ensures sorted { IsTrue result ↔ ((sort : SortId) × Joins table.now terms.now sort) }
{
    if terms.is_empty() {
        return false;
    }
    for t in terms {
        if !is_of_sort(table, *t, BOOL) {
            return false;
        }
    }
    true
}

// Whether the terms are of these sorts, one for one.
fn are_of_sorts(table: &TermTable, terms: &[TermId], sorts: &[SortId]) -> bool
    ensures sorted { IsTrue result ↔ AreOfSorts table.now terms.now sorts.now }
{
    if terms.len() != sorts.len() {
        return false;
    }
    for i in 0..terms.len() {
        if !is_of_sort(table, terms[i], sorts[i]) {
            return false;
        }
    }
    true
}

// Whether the terms are of the sorts of these selectors' fields, one for one.
fn are_of_fields(sig: &Signature, table: &TermTable, terms: &[TermId], sels: &[SelId]) -> bool
    requires inside { All (IsSelector sig.now) sels.now }
    ensures sorted { IsTrue result ↔ AllZip (IsOfField sig.now table.now) terms.now sels.now }
{
    if terms.len() != sels.len() {
        return false;
    }
    for i in 0..terms.len() {
        if !is_of_sort(table, terms[i], sig.sel_sort(sels[i])) {
            return false;
        }
    }
    true
}
