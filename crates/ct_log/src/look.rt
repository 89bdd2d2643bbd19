//! Looks up terms by their numbers, and the equations of earlier steps. For a number that does not exist there is nothing.
ghost use Rattle.std.specs.Prelude.{◌≡◌, ◌↔◌, Some, slice_get, IsTrue};
ghost use Rattle.ct_sorts.specs.declared.ids.CtorId.{CtorId};
ghost use Rattle.ct_sorts.specs.declared.ids.SelId.{SelId};
ghost use Rattle.ct_terms.specs.declared.ids.TermId.{TermId};
ghost use Rattle.ct_terms.specs.declared.term.Core.TheVariants as core;
ghost use Rattle.ct_terms.specs.Terms.{Has};
ghost use Rattle.ct_log.specs.Equations.{Gave, equation};
ghost use Rattle.ct_log.specs.Look.{IsBuiltBy, HasArgument, signed};

use ct_rules::Equation;
use ct_sorts::{CtorId, SelId};
use ct_terms::{Core, Lit, TermId, TermTable};

/// The term `true`.
pub(crate) const TRUE: TermId = TermId(0);

/// The term `false`.
pub(crate) const FALSE: TermId = TermId(1);

/// The literal, or its opposite where it is not kept.
pub(crate) fn signed(keep: bool, l: Lit) -> Lit
    ensures value { result ≡ signed keep l }
{
    if keep {
        return l;
    }
    Lit {
        term: l.term,
        positive: !l.positive,
    }
}

/// The equation of the step with this number.
pub(crate) fn given_at(given: &[Equation], step: u64) -> Option<Equation>
    ensures value { result ≡ slice_get given.now step }
{
    if step >= given.len() as u64 {
        return None;
    }
    Some(given[step as usize])
}

/// Whether the step with this number gave this equation.
pub(crate) fn gave(given: &[Equation], step: u64, left: TermId, right: TermId) -> bool
    ensures gave { IsTrue result ↔ Gave given.now step left right }
{
    match given_at(given, step) {
        None => false,
        Some(e) => e.left == left && e.right == right,
    }
}

/// The term at this place.
pub(crate) fn term_at(terms: &[TermId], place: u64) -> Option<TermId>
    ensures value { result ≡ slice_get terms.now place }
{
    if place >= terms.len() as u64 {
        return None;
    }
    Some(terms[place as usize])
}

/// The constructor by which the term is built.
pub(crate) fn constructor(table: &TermTable, t: TermId) -> Option<CtorId>
    ensures built { (c : CtorId) → IsBuiltBy table.now t c ↔ (result ≡ Some c) }
{
    if t.0 >= table.len() {
        return None;
    }
    match table.core(t) {
        Core::Con(c, _) => Some(*c),
        _ => None,
    }
}

/// The argument at a place of a term that is built by this constructor.
pub(crate) fn argument(table: &TermTable, t: TermId, c: CtorId, place: u64) -> Option<TermId>
    ensures argument { (x : TermId) → HasArgument table.now t c place x ↔ (result ≡ Some x) }
{
    if t.0 >= table.len() {
        return None;
    }
    match table.core(t) {
        Core::Con(d, args) => {
            if *d != c {
                return None;
            }
            term_at(args.as_slice(), place)
        }
        _ => None,
    }
}

/// The selector and the term that it is of.
pub(crate) fn selection(table: &TermTable, t: TermId) -> Option<(SelId, TermId)>
    ensures selection { (s : SelId) (u : TermId) → Has table.now (core.Sel s u) t.0 ↔ (result ≡ Some (s, u)) }
{
    if t.0 >= table.len() {
        return None;
    }
    match table.core(t) {
        Core::Sel(s, u) => Some((*s, *u)),
        _ => None,
    }
}

/// The constructor that is tested and the term that the test is of.
pub(crate) fn test(table: &TermTable, t: TermId) -> Option<(CtorId, TermId)>
    ensures test { (c : CtorId) (u : TermId) → Has table.now (core.Test c u) t.0 ↔ (result ≡ Some (c, u)) }
{
    if t.0 >= table.len() {
        return None;
    }
    match table.core(t) {
        Core::Test(c, u) => Some((*c, *u)),
        _ => None,
    }
}

/// Whether the term is this selector of the other term.
pub(crate) fn is_selection(table: &TermTable, t: TermId, s: SelId, u: TermId) -> bool
    ensures selection { IsTrue result ↔ Has table.now (core.Sel s u) t.0 }
{
    if t.0 >= table.len() {
        return false;
    }
    match table.core(t) {
        Core::Sel(r, v) => *r == s && *v == u,
        _ => false,
    }
}

/// Whether the term is the test of this constructor on the other term.
pub(crate) fn is_test(table: &TermTable, t: TermId, c: CtorId, u: TermId) -> bool
    ensures test { IsTrue result ↔ Has table.now (core.Test c u) t.0 }
{
    if t.0 >= table.len() {
        return false;
    }
    match table.core(t) {
        Core::Test(d, v) => *d == c && *v == u,
        _ => false,
    }
}

/// Whether the term is the equation of the two terms.
pub(crate) fn is_equality(table: &TermTable, t: TermId, left: TermId, right: TermId) -> bool
    ensures equality { IsTrue result ↔ Has table.now (core.Eq left right) t.0 }
{
    if t.0 >= table.len() {
        return false;
    }
    match table.core(t) {
        Core::Eq(a, b) => *a == left && *b == right,
        _ => false,
    }
}

/// The equation of which this is the term.
pub(crate) fn equality(table: &TermTable, t: TermId) -> Option<Equation>
    ensures equality { (a b : TermId) → Has table.now (core.Eq a b) t.0 ↔ (result ≡ Some (equation a b)) }
{
    if t.0 >= table.len() {
        return None;
    }
    match table.core(t) {
        Core::Eq(a, b) => Some(Equation {
            left: *a,
            right: *b,
        }),
        _ => None,
    }
}

/// The term under the negation.
pub(crate) fn negated(table: &TermTable, t: TermId) -> Option<TermId>
    ensures negated { (a : TermId) → Has table.now (core.Not a) t.0 ↔ (result ≡ Some a) }
{
    if t.0 >= table.len() {
        return None;
    }
    match table.core(t) {
        Core::Not(a) => Some(*a),
        _ => None,
    }
}
