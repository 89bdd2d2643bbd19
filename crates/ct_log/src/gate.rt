//! The clauses of gates: what a Boolean term means, and what a choice is. There is one function for each shape of term.
ghost use Rattle.std.specs.Prelude.{◌≡◌, ◌↔◌, ℕ, Bool, List, [], ◌∷◌, map, All, Some, true, slice_get, IsTrue};
ghost use Rattle.ct_terms.specs.declared.ids.TermId.{TermId};
ghost use Rattle.ct_terms.specs.declared.ids.Lit.{Lit};
ghost use Rattle.ct_terms.specs.Literal.{opposite, literal_of};
ghost use Rattle.ct_terms.specs.declared.term.Core.TheVariants as core;
ghost use Rattle.ct_terms.specs.Terms.{IsBoolean, Has};
ghost use Rattle.ct_log.specs.declared.rules.Gate.{Gate};
ghost use Rattle.ct_log.specs.Gates.{IsGateClause, OfEquivalence, OfChoice, positive, negative};
ghost use Rattle.ct_log.specs.Look.{AreSortedTerms, signed};

use crate::look::{FALSE, TRUE, is_equality, signed};
use crate::rules::Gate;
use ct_sorts::SortId;
use ct_terms::{Core, Lit, TermId, TermTable};

/// The sort of Boolean terms.
const BOOL: SortId = SortId(0);

/// Whether the clause is that of the gate for this term, with this place.
pub(crate) fn is_gate_clause(
    table: &TermTable,
    gate: Gate,
    t: TermId,
    place: u64,
    clause: &[Lit],
) -> bool
    requires sorted { AreSortedTerms table.now }
    ensures clause { IsTrue result ↔ IsGateClause table.now gate t place clause.now }
{
    match gate {
        Gate::True => is_truth(t, place, clause, TRUE, true),
        Gate::False => is_truth(t, place, clause, FALSE, false),
        Gate::AndPos => is_conjunct(table, t, place, clause),
        Gate::AndNeg => is_conjunction(table, t, place, clause),
        Gate::OrPos => is_disjunction(table, t, place, clause),
        Gate::OrNeg => is_disjunct(table, t, place, clause),
        Gate::Iff1 => is_equivalence(table, t, place, clause, false, false, true),
        Gate::Iff2 => is_equivalence(table, t, place, clause, false, true, false),
        Gate::Iff3 => is_equivalence(table, t, place, clause, true, true, true),
        Gate::Iff4 => is_equivalence(table, t, place, clause, true, false, false),
        Gate::Ite1 => is_then_choice(table, t, place, clause, false, true),
        Gate::Ite2 => is_else_choice(table, t, place, clause, false, true),
        Gate::Ite3 => is_then_choice(table, t, place, clause, true, false),
        Gate::Ite4 => is_else_choice(table, t, place, clause, true, false),
        Gate::Then => is_then(table, t, place, clause),
        Gate::Else => is_else(table, t, place, clause),
    }
}

// Whether the two lists of literals are equal.
fn is_clause(clause: &[Lit], other: &[Lit]) -> bool
    ensures same { IsTrue result ↔ (clause.now ≡ other.now) }
{
    clause == other
}

// Whether the clause is the one literal of a truth value, and term and place are 0.
fn is_truth(t: TermId, place: u64, clause: &[Lit], term: TermId, positive: bool) -> bool
    ensures clause { IsTrue result ↔ ((t ≡ record { 0 = 0 }) × (place ≡ 0) × (clause.now ≡ record { term = term; positive = positive } ∷ [])) }
{
    t == TRUE && place == 0 && is_clause(clause, &[Lit { term, positive }])
}

// A conjunction implies its argument at the place.
fn is_conjunct(table: &TermTable, t: TermId, place: u64, clause: &[Lit]) -> bool
    requires sorted { AreSortedTerms table.now }
    ensures clause { IsTrue result ↔ IsGateClause table.now Gate.AndPos t place clause.now }
{
    if t.0 >= table.len() {
        return false;
    }
    match table.core(t) {
        Core::And(args) => has_argument(table, args.as_slice(), place, clause, t, false, true),
        _ => false,
    }
}

// A conjunction is implied by all of its arguments.
fn is_conjunction(table: &TermTable, t: TermId, place: u64, clause: &[Lit]) -> bool
    requires sorted { AreSortedTerms table.now }
    ensures clause { IsTrue result ↔ IsGateClause table.now Gate.AndNeg t place clause.now }
{
    if t.0 >= table.len() || place != 0 {
        return false;
    }
    match table.core(t) {
        Core::And(args) => has_arguments(table, args.as_slice(), clause, t, true, false),
        _ => false,
    }
}

// A disjunction implies one of its arguments.
fn is_disjunction(table: &TermTable, t: TermId, place: u64, clause: &[Lit]) -> bool
    requires sorted { AreSortedTerms table.now }
    ensures clause { IsTrue result ↔ IsGateClause table.now Gate.OrPos t place clause.now }
{
    if t.0 >= table.len() || place != 0 {
        return false;
    }
    match table.core(t) {
        Core::Or(args) => has_arguments(table, args.as_slice(), clause, t, false, true),
        _ => false,
    }
}

// A disjunction is implied by its argument at the place.
fn is_disjunct(table: &TermTable, t: TermId, place: u64, clause: &[Lit]) -> bool
    requires sorted { AreSortedTerms table.now }
    ensures clause { IsTrue result ↔ IsGateClause table.now Gate.OrNeg t place clause.now }
{
    if t.0 >= table.len() {
        return false;
    }
    match table.core(t) {
        Core::Or(args) => has_argument(table, args.as_slice(), place, clause, t, true, false),
        _ => false,
    }
}

// Whether the clause is the literal of the term with this sign, and that of the argument at the place or its opposite.
fn has_argument(
    table: &TermTable,
    args: &[TermId],
    place: u64,
    clause: &[Lit],
    term: TermId,
    positive: bool,
    keep: bool,
) -> bool
    requires booleans { All (IsBoolean table.now) args.now }
    ensures clause { IsTrue result ↔ ((a : TermId) × (slice_get args.now place ≡ Some a)
        × (clause.now ≡ record { term = term; positive = positive } ∷ (signed keep (literal_of table.now a) ∷ []))) }
{
    if place >= args.len() as u64 {
        return false;
    }
    let a = args[place as usize];
    is_clause(
        clause,
        &[Lit { term, positive }, signed(keep, table.lit(a))],
    )
}

// Whether the clause is the literal of the term with this sign, and those of all arguments or their opposites.
fn has_arguments(
    table: &TermTable,
    args: &[TermId],
    clause: &[Lit],
    term: TermId,
    positive: bool,
    keep: bool,
) -> bool
    requires booleans { All (IsBoolean table.now) args.now }
    ensures clause { IsTrue result ↔ (clause.now ≡ record { term = term; positive = positive } ∷ map (λ a. signed keep (literal_of table.now a)) args.now) }
{
    match clause {
        [] => false,
        [first, rest @ ..] => {
            *first == Lit { term, positive } && are_literals(table, args, rest, keep)
        }
    }
}

// Whether the literals are those of the terms, or their opposites, in order.
fn are_literals(table: &TermTable, args: &[TermId], literals: &[Lit], keep: bool) -> bool
    requires booleans { All (IsBoolean table.now) args.now }
    ensures literals { IsTrue result ↔ (literals.now ≡ map (λ a. signed keep (literal_of table.now a)) args.now) }
{
    if args.len() != literals.len() {
        return false;
    }
    for i in 0..args.len() {
        if literals[i] != signed(keep, table.lit(args[i])) {
            return false;
        }
    }
    true
}

// Whether the clause is one of an equivalence, by the signs of the term and of the literals of its sides.
fn is_equivalence(
    table: &TermTable,
    t: TermId,
    place: u64,
    clause: &[Lit],
    positive: bool,
    left: bool,
    right: bool,
) -> bool
    requires sorted { AreSortedTerms table.now }
    ensures clause { IsTrue result ↔ ((place ≡ 0)
        × OfEquivalence table.now t (λ a b. record { term = t; positive = positive } ∷ (signed left a ∷ (signed right b ∷ []))) clause.now) }
{
    if t.0 >= table.len() || place != 0 {
        return false;
    }
    match table.core(t) {
        Core::Iff(a, b) => {
            let first = signed(left, table.lit(*a));
            let second = signed(right, table.lit(*b));
            is_clause(clause, &[Lit { term: t, positive }, first, second])
        }
        _ => false,
    }
}

// Where the condition holds a Boolean choice and its first branch have one value: one direction, by the signs of both.
fn is_then_choice(
    table: &TermTable,
    t: TermId,
    place: u64,
    clause: &[Lit],
    positive: bool,
    branch: bool,
) -> bool
    requires sorted { AreSortedTerms table.now }
    ensures clause { IsTrue result ↔ ((place ≡ 0)
        × OfChoice table.now t (λ c a b. record { term = t; positive = positive } ∷ (opposite c ∷ (signed branch a ∷ []))) clause.now) }
{
    if t.0 >= table.len() || place != 0 || table.sort(t) != BOOL {
        return false;
    }
    match table.core(t) {
        Core::Ite(c, a, _) => {
            let condition = signed(false, table.lit(*c));
            let value = signed(branch, table.lit(*a));
            is_clause(clause, &[Lit { term: t, positive }, condition, value])
        }
        _ => false,
    }
}

// Where the condition does not hold a Boolean choice and its second branch have one value: one direction.
fn is_else_choice(
    table: &TermTable,
    t: TermId,
    place: u64,
    clause: &[Lit],
    positive: bool,
    branch: bool,
) -> bool
    requires sorted { AreSortedTerms table.now }
    ensures clause { IsTrue result ↔ ((place ≡ 0)
        × OfChoice table.now t (λ c a b. record { term = t; positive = positive } ∷ (c ∷ (signed branch b ∷ []))) clause.now) }
{
    if t.0 >= table.len() || place != 0 || table.sort(t) != BOOL {
        return false;
    }
    match table.core(t) {
        Core::Ite(c, _, b) => {
            let condition = table.lit(*c);
            let value = signed(branch, table.lit(*b));
            is_clause(clause, &[Lit { term: t, positive }, condition, value])
        }
        _ => false,
    }
}

// Where the condition holds another choice equals its first branch.
fn is_then(table: &TermTable, t: TermId, place: u64, clause: &[Lit]) -> bool
    requires sorted { AreSortedTerms table.now }
    ensures clause { IsTrue result ↔ IsGateClause table.now Gate.Then t place clause.now }
{
    if t.0 >= table.len() || place != 0 || table.sort(t) == BOOL {
        return false;
    }
    match table.core(t) {
        Core::Ite(c, a, _) => is_branch(table, signed(false, table.lit(*c)), t, *a, clause),
        _ => false,
    }
}

// Where the condition does not hold another choice equals its second branch.
fn is_else(table: &TermTable, t: TermId, place: u64, clause: &[Lit]) -> bool
    requires sorted { AreSortedTerms table.now }
    ensures clause { IsTrue result ↔ IsGateClause table.now Gate.Else t place clause.now }
{
    if t.0 >= table.len() || place != 0 || table.sort(t) == BOOL {
        return false;
    }
    match table.core(t) {
        Core::Ite(c, _, b) => is_branch(table, table.lit(*c), t, *b, clause),
        _ => false,
    }
}

// Whether the clause is this condition, and a positive literal of the equation of the two terms.
fn is_branch(table: &TermTable, condition: Lit, left: TermId, right: TermId, clause: &[Lit]) -> bool
    ensures clause { IsTrue result ↔ ((e : TermId) × Has table.now (core.Eq left right) e.0 × (clause.now ≡ condition ∷ (positive e ∷ []))) }
{
    match clause {
        [first, second] => *first == condition && states(table, *second, left, right),
        [] => false,
        [_] => false,
        [_, _, _, ..] => false,
    }
}

// Whether the literal is positive and over the equation of the two terms.
fn states(table: &TermTable, l: Lit, left: TermId, right: TermId) -> bool
    ensures states { IsTrue result ↔ ((l.positive ≡ true) × Has table.now (core.Eq left right) l.term.0) }
{
    l.positive && is_equality(table, l.term, left, right)
}
