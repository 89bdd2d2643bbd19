//! The clause that one of the constructors of its sort built a term.
ghost use Rattle.std.specs.Prelude.{◌≡◌, ◌↔◌, ◌⊎◌, IsTrue};
ghost use Rattle.std.specs.List.{AllZip};
ghost use Rattle.ct_sorts.specs.declared.ids.Kind.{Kind};
ghost use Rattle.ct_log.specs.Gates.{IsExhaustion, IsTestOf};

use crate::look::is_test;
use ct_sorts::{CtorId, Kind, Signature};
use ct_terms::{Lit, TermId, TermTable};

/// Whether the clause says that the term is built by one of the constructors of its sort, a datatype or codatatype.
pub(crate) fn is_exhaustion(sig: &Signature, table: &TermTable, t: TermId, clause: &[Lit]) -> bool
    ensures clause { IsTrue result ↔ IsExhaustion sig.now table.now t clause.now }
{
    if t.0 >= table.len() {
        return false;
    }
    let sort = table.sort(t);
    if sort.0 >= sig.sorts() || !has_constructors(sig.kind(sort)) {
        return false;
    }
    are_tests(table, t, clause, sig.ctors(sort))
}

// Whether the sort is a datatype or codatatype.
fn has_constructors(kind: Kind) -> bool
    ensures value { IsTrue result ↔ ((kind ≡ Kind.Data) ⊎ (kind ≡ Kind.Codata)) }
{
    match kind {
        Kind::Bool => false,
        Kind::Free => false,
        Kind::Data => true,
        Kind::Codata => true,
    }
}

// Whether the literals are the tests of these constructors on the term, in order.
fn are_tests(table: &TermTable, t: TermId, literals: &[Lit], ctors: &[CtorId]) -> bool
    ensures tests { IsTrue result ↔ AllZip (IsTestOf table.now t) literals.now ctors.now }
{
    if literals.len() != ctors.len() {
        return false;
    }
    for i in 0..ctors.len() {
        if !is_test_of(table, t, literals[i], ctors[i]) {
            return false;
        }
    }
    true
}

// Whether the literal says that the term is built by the constructor.
fn is_test_of(table: &TermTable, t: TermId, l: Lit, c: CtorId) -> bool
    ensures test { IsTrue result ↔ IsTestOf table.now t l c }
{
    l.positive && is_test(table, l.term, c, t)
}
