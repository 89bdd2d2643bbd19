//! The equality steps: which equation each gives after those before it, with one function for each rule.
ghost use Rattle.std.specs.Prelude.{◌≡◌, ◌<◌, ◌↔◌, ◌⊎◌, true, false, length, Some, Contains, IsTrue};
ghost use Rattle.std.specs.List.{AllZip};
ghost use Rattle.ct_card.specs.Sizes.{AreSizes};
ghost use Rattle.ct_sorts.specs.declared.ids.CtorId.{CtorId};
ghost use Rattle.ct_terms.specs.declared.ids.TermId.{TermId};
ghost use Rattle.ct_terms.specs.declared.ids.Lit.{Lit};
ghost use Rattle.ct_terms.specs.declared.term.Core.TheVariants as core;
ghost use Rattle.ct_terms.specs.Clause.{Clause, opposites};
ghost use Rattle.ct_terms.specs.Literal.{opposite};
ghost use Rattle.ct_terms.specs.Terms.{Has};
ghost use Rattle.ct_rules.specs.Rules.{IsSelected, IsSingleton, truth_term};
ghost use Rattle.ct_log.specs.Equations.{Gives, Gave, AreCongruentBy, IsInjected, IsSelectedBy, IsTestedBy, IsExpandedBy, equation};
ghost use Rattle.ct_log.specs.Look.{IsConstructionOver, HaveArguments, SelectsFrom};
ghost use Rattle.ct_log.specs.Marks.{AreMarked};

use crate::congruence::are_congruent;
use crate::look::{
    FALSE, TRUE, argument, constructor, equality, gave, given_at, is_selection, negated, selection,
    test,
};
use crate::marks::Marks;
use crate::rules::EqStep;
use crate::unique::unique;
use ct_card::{Size, Sizes, unique_sizes};
use ct_rules::Equation;
use ct_sorts::{CtorId, SelId, Signature};
use ct_terms::{Core, Lit, TermId, TermTable};

/// The equation that the step gives, after steps that gave these equations. The opposites of the clause's literals are
/// marked.
pub(crate) fn step_equation(
    sig: &Signature,
    sizes: &Sizes,
    table: &TermTable,
    marks: &Marks,
    given: &[Equation],
    step: &EqStep,
) -> Option<Equation>
    requires sizes { AreSizes sig.now sizes.now }
    ensures gives { (clause : Clause) → AreMarked marks.now (opposites clause)
        → (x y : TermId) → Gives sig.now table.now clause given.now step.now x y ↔ (result ≡ Some (equation x y)) }
{
    match step {
        EqStep::Hyp(l) => stated(marks, *l),
        EqStep::Refl(t) => reflexive(table, *t),
        EqStep::Sym(i) => turned(given, *i),
        EqStep::Trans(i, j) => joined(given, *i, *j),
        EqStep::Cong(t, u, steps) => congruent(table, given, *t, *u, steps.as_slice()),
        EqStep::Inject(i, k) => injected(table, given, *i, *k),
        EqStep::Sel(t, i) => selected(sig, table, given, *t, *i),
        EqStep::Test(t, i) => tested(table, given, *t, *i),
        EqStep::Expand(i, c) => expanded(sig, table, given, *i, *c),
        EqStep::EqualIn(t, i) => equated(table, given, *t, *i),
        EqStep::EqualOut(i) => equal_sides(table, given, *i),
        EqStep::Neg(t, i) => negation(table, given, *t, *i),
        EqStep::Single(t, u) => single(sig, sizes, table, *t, *u),
        EqStep::Unique(p, pairs) => unique(table, given, *p, pairs.as_slice()),
    }
}

// What a literal states whose opposite is in the clause: the literal is marked.
fn stated(marks: &Marks, l: Lit) -> Option<Equation>
    ensures gives { (clause : Clause) → AreMarked marks.now (opposites clause)
        → (x y : TermId) → (Contains clause (opposite l) × (x ≡ l.term) × (y ≡ truth_term l.positive)) ↔ (result ≡ Some (equation x y)) }
{
    if !marks.has(l) {
        return None;
    }
    Some(Equation {
        left: l.term,
        right: truth(l.positive),
    })
}

// The term `true` or `false`.
fn truth(value: bool) -> TermId
    ensures value { result ≡ truth_term value }
{
    if value { TRUE } else { FALSE }
}

// A term equals itself.
fn reflexive(table: &TermTable, t: TermId) -> Option<Equation>
    ensures gives { (x y : TermId) → ((t.0 < length table.now) × (x ≡ t) × (y ≡ t)) ↔ (result ≡ Some (equation x y)) }
{
    if t.0 >= table.len() {
        return None;
    }
    Some(Equation { left: t, right: t })
}

// The equation turned round.
fn turned(given: &[Equation], i: u64) -> Option<Equation>
    ensures gives { (x y : TermId) → Gave given.now i y x ↔ (result ≡ Some (equation x y)) }
{
    match given_at(given, i) {
        None => None,
        Some(e) => Some(Equation {
            left: e.right,
            right: e.left,
        }),
    }
}

// The one equation and on by the other.
fn joined(given: &[Equation], i: u64, j: u64) -> Option<Equation>
    ensures gives { (x y : TermId) → ((m : TermId) × Gave given.now i x m × Gave given.now j m y) ↔ (result ≡ Some (equation x y)) }
{
    match given_at(given, i) {
        None => None,
        Some(e) => match given_at(given, j) {
            None => None,
            Some(f) => {
                if e.right != f.left {
                    return None;
                }
                Some(Equation {
                    left: e.left,
                    right: f.right,
                })
            }
        },
    }
}

// Two terms with one head and equal arguments.
fn congruent(
    table: &TermTable,
    given: &[Equation],
    t: TermId,
    u: TermId,
    steps: &[u64],
) -> Option<Equation>
    ensures gives { (x y : TermId) → ((x ≡ t) × (y ≡ u) × AreCongruentBy table.now given.now t u steps.now) ↔ (result ≡ Some (equation x y)) }
{
    if !are_congruent(table, given, t, u, steps) {
        return None;
    }
    Some(Equation { left: t, right: u })
}

// The arguments at the place of two constructor terms that the step gives as equal.
fn injected(table: &TermTable, given: &[Equation], i: u64, place: u64) -> Option<Equation>
    ensures gives { (x y : TermId) → IsInjected table.now given.now i place x y ↔ (result ≡ Some (equation x y)) }
{
    match given_at(given, i) {
        None => None,
        Some(e) => arguments(table, e.left, e.right, place),
    }
}

// The arguments at the place of two terms of one constructor.
fn arguments(table: &TermTable, t: TermId, u: TermId, place: u64) -> Option<Equation>
    ensures arguments { (x y : TermId) → HaveArguments table.now t u place x y ↔ (result ≡ Some (equation x y)) }
{
    match constructor(table, t) {
        None => None,
        Some(c) => match argument(table, t, c, place) {
            None => None,
            Some(left) => match argument(table, u, c, place) {
                None => None,
                Some(right) => Some(Equation { left, right }),
            },
        },
    }
}

// The argument that the term selects, where the step gives that its term equals one of the selector's constructor.
fn selected(
    sig: &Signature,
    table: &TermTable,
    given: &[Equation],
    t: TermId,
    i: u64,
) -> Option<Equation>
    ensures gives { (x y : TermId) → ((x ≡ t) × IsSelectedBy sig.now table.now given.now t i y) ↔ (result ≡ Some (equation x y)) }
{
    match selection(table, t) {
        None => None,
        Some((s, u)) => match given_at(given, i) {
            None => None,
            Some(e) => {
                if e.left != u {
                    return None;
                }
                match field(sig, table, s, e.right) {
                    None => None,
                    Some(right) => Some(Equation { left: t, right }),
                }
            }
        },
    }
}

// The argument of the constructor term that the selector selects.
fn field(sig: &Signature, table: &TermTable, s: SelId, con: TermId) -> Option<TermId>
    ensures field { (x : TermId) → SelectsFrom sig.now table.now s con x ↔ (result ≡ Some x) }
{
    if s.0 >= sig.mark().sels() {
        return None;
    }
    argument(table, con, sig.sel_ctor(s), sig.sel_place(s) as u64)
}

// The answer of the test, where the step gives that its term equals a constructor term.
fn tested(table: &TermTable, given: &[Equation], t: TermId, i: u64) -> Option<Equation>
    ensures gives { (x y : TermId) → ((x ≡ t) × IsTestedBy table.now given.now t i y) ↔ (result ≡ Some (equation x y)) }
{
    match test(table, t) {
        None => None,
        Some((c, u)) => match given_at(given, i) {
            None => None,
            Some(e) => {
                if e.left != u {
                    return None;
                }
                match constructor(table, e.right) {
                    None => None,
                    Some(d) => Some(Equation {
                        left: t,
                        right: truth(c == d),
                    }),
                }
            }
        },
    }
}

// The term whose test the step gives as `true`, and the constructor term over its selectors.
fn expanded(
    sig: &Signature,
    table: &TermTable,
    given: &[Equation],
    i: u64,
    con: TermId,
) -> Option<Equation>
    ensures gives { (x y : TermId) → ((y ≡ con) × IsExpandedBy sig.now table.now given.now i con x) ↔ (result ≡ Some (equation x y)) }
{
    match given_at(given, i) {
        None => None,
        Some(e) => {
            if e.right != TRUE {
                return None;
            }
            match test(table, e.left) {
                None => None,
                Some((c, u)) => {
                    if !is_construction(sig, table, con, c, u) {
                        return None;
                    }
                    Some(Equation {
                        left: u,
                        right: con,
                    })
                }
            }
        }
    }
}

// Whether the term is the constructor over the selectors of the other term.
fn is_construction(sig: &Signature, table: &TermTable, con: TermId, c: CtorId, u: TermId) -> bool
    ensures construction { IsTrue result ↔ IsConstructionOver sig.now table.now con c u }
{
    if con.0 >= table.len() || c.0 >= sig.mark().ctors() {
        return false;
    }
    match table.core(con) {
        Core::Con(d, args) => {
            *d == c && are_selected(table, u, args.as_slice(), sig.ctor_sels(c))
        }
        _ => false,
    }
}

// Whether the terms are these selectors of the term, in order.
fn are_selected(table: &TermTable, u: TermId, args: &[TermId], sels: &[SelId]) -> bool
    ensures selected { IsTrue result ↔ AllZip (IsSelected table.now u) args.now sels.now }
{
    if args.len() != sels.len() {
        return false;
    }
    for i in 0..args.len() {
        if !is_selection(table, args[i], sels[i], u) {
            return false;
        }
    }
    true
}

// The term of the equation that the step gives is `true`.
fn equated(table: &TermTable, given: &[Equation], t: TermId, i: u64) -> Option<Equation>
    ensures gives { (x y : TermId) → ((x ≡ t) × (y ≡ truth_term true) × ((a b : TermId) × Has table.now (core.Eq a b) t.0 × Gave given.now i a b))
        ↔ (result ≡ Some (equation x y)) }
{
    match equality(table, t) {
        None => None,
        Some(e) => {
            if !gave(given, i, e.left, e.right) {
                return None;
            }
            Some(Equation {
                left: t,
                right: TRUE,
            })
        }
    }
}

// The equation of the term that the step gives as `true`.
fn equal_sides(table: &TermTable, given: &[Equation], i: u64) -> Option<Equation>
    ensures gives { (x y : TermId) → ((t : TermId) × Gave given.now i t (truth_term true) × Has table.now (core.Eq x y) t.0)
        ↔ (result ≡ Some (equation x y)) }
{
    match given_at(given, i) {
        None => None,
        Some(e) => {
            if e.right != TRUE {
                return None;
            }
            equality(table, e.left)
        }
    }
}

// The negation, where the step gives its argument as `true` or `false`.
fn negation(table: &TermTable, given: &[Equation], t: TermId, i: u64) -> Option<Equation>
    ensures gives { (x y : TermId) → ((x ≡ t) × ((a : TermId) × Has table.now (core.Not a) t.0
        × ((Gave given.now i a (truth_term true) × (y ≡ truth_term false)) ⊎ (Gave given.now i a (truth_term false) × (y ≡ truth_term true)))))
        ↔ (result ≡ Some (equation x y)) }
{
    match negated(table, t) {
        None => None,
        Some(a) => {
            if gave(given, i, a, TRUE) {
                return Some(Equation {
                    left: t,
                    right: FALSE,
                });
            }
            if gave(given, i, a, FALSE) {
                return Some(Equation {
                    left: t,
                    right: TRUE,
                });
            }
            None
        }
    }
}

// Two terms of a sort with one value.
fn single(
    sig: &Signature,
    sizes: &Sizes,
    table: &TermTable,
    t: TermId,
    u: TermId,
) -> Option<Equation>
    requires sizes { AreSizes sig.now sizes.now }
    ensures gives { (x y : TermId) → ((x ≡ t) × (y ≡ u) × IsSingleton sig.now table.now t u) ↔ (result ≡ Some (equation x y)) }
{
    if !is_singleton(sig, sizes, table, t, u) {
        return None;
    }
    Some(Equation { left: t, right: u })
}

// Whether the two terms are of one sort, which has one value.
fn is_singleton(sig: &Signature, sizes: &Sizes, table: &TermTable, t: TermId, u: TermId) -> bool
    requires sizes { AreSizes sig.now sizes.now }
    ensures singleton { IsTrue result ↔ IsSingleton sig.now table.now t u }
{
    unique_sizes();
    if t.0 >= table.len() || u.0 >= table.len() {
        return false;
    }
    let sort = table.sort(t);
    if table.sort(u) != sort || sort.0 >= sig.sorts() {
        return false;
    }
    match sizes.size_of(sort) {
        Size::One => true,
        Size::Finite => false,
        Size::Infinite => false,
    }
}
