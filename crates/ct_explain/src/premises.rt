//! What a merge rests on: its premises, and the rule by which it follows from them.
ghost use Rattle.std.specs.Prelude.{◌≡◌, ◌∷◌, [], true, false, List, IfOk, IfSome, IfNone};
ghost use Rattle.ct_sorts.specs.declared.ids.CtorId.{CtorId};
ghost use Rattle.ct_sorts.specs.declared.ids.SelId.{SelId};
ghost use Rattle.ct_sorts.specs.Declarations.{Declarations};
ghost use Rattle.ct_terms.specs.declared.ids.Lit.{Lit};
ghost use Rattle.ct_terms.specs.declared.term.Core.{Core};
ghost use Rattle.ct_terms.specs.declared.term.Core.TheVariants as core;
ghost use Rattle.ct_terms.specs.Terms.{Terms, Has, AreOrdered};
ghost use Rattle.ct_terms.specs.declared.ids.TermId.{TermId};
ghost use Rattle.ct_terms.specs.Children.{core_children};
ghost use Rattle.ct_rules.specs.Rules.{truth_term};
ghost use Rattle.ct_congr.specs.declared.merge.Reason.TheVariants as reason;
ghost use Rattle.ct_explain.specs.Premises.{IsOver, HasArguments, HasReason, HasNoPremise, IsPremise, IsPremiseIn, IsPremiseOf, IsNegationPremise, IsConnectedPremise, step_by};
ghost use Rattle.ct_explain.specs.Resting.{IsLone};

use crate::error::ExplainError;
use ct_congr::{Merge, Reason};
use ct_log::EqStep;
use ct_terms::{Args, Core, TermId, TermTable};
use std::alloc::Global;

/// A rule with one premise, and what its step names besides the step that gives the premise.
#[derive(Clone, Copy, Debug)]
pub(crate) enum Rule {
    /// Injectivity at this place.
    Inject(u64),
    /// The selector term.
    Sel(TermId),
    /// The test.
    Test(TermId),
    /// The constructor term over selectors.
    Expand(TermId),
    /// The equation that becomes true.
    EqualIn(TermId),
    /// An equation that is true.
    EqualOut,
    /// The negation.
    Neg(TermId),
}

/// A premise, and the rule by which a merge follows from it.
#[derive(Clone, Copy, Debug)]
pub(crate) struct Premise {
    /// The left side of the premise.
    pub(crate) left: TermId,
    /// The right side of the premise.
    pub(crate) right: TermId,
    /// The rule.
    pub(crate) rule: Rule,
}

/// The step by the rule, with the number of the step that gives its premise.
pub(crate) fn step_by_rule(rule: Rule, number: u64) -> EqStep
    ensures value { result ≡ step_by rule number }
{
    match rule {
        Rule::Inject(k) => EqStep::Inject(number, k),
        Rule::Sel(t) => EqStep::Sel(t, number),
        Rule::Test(t) => EqStep::Test(t, number),
        Rule::Expand(c) => EqStep::Expand(number, c),
        Rule::EqualIn(t) => EqStep::EqualIn(t, number),
        Rule::EqualOut => EqStep::EqualOut(number),
        Rule::Neg(t) => EqStep::Neg(t, number),
    }
}

/// What always holds of a table: each term comes after those under it. It does nothing.
pub(crate) fn is_ordered(table: &TermTable)
    ensures ordered { AreOrdered table.now }
{
    table.len();
}

/// The premise of a merge whose rule has one. None for the other rules.
pub(crate) fn lone_premise(table: &TermTable, m: &Merge) -> Option<Premise>
    ensures enough { IfSome result (λ p. IsPremise table.now m.now.why m.now.left m.now.right p.rule p.left p.right) }
    ensures known { IfSome result (λ p. IsConnectedPremise table.now m.now.why m.now.left m.now.right p.left p.right) }
    ensures sides { IfSome result (λ p. IsLone table.now m.now.right m.now.why p.left p.right) }
    ensures none { IfNone result ((d : Declarations) (hyps : List Lit) → HasReason d table.now hyps m.now.left m.now.right m.now.why → HasNoPremise m.now.why) }
{
    match &m.why {
        Reason::Inject(a, b, k) => Some(injection(*a, *b, *k)),
        Reason::Sel(t, c) => selection(table, *t, *c),
        Reason::Test(t, c) => testing(table, *t, *c),
        Reason::Expand(t, c) => Some(expansion(*t, *c)),
        Reason::EqualIn(t) => equation_in(table, *t),
        Reason::EqualOut(t) => Some(equation_out(*t)),
        Reason::Neg(t) => negation(table, *t, m.right),
        Reason::Hyp(_) | Reason::Cong(_, _) | Reason::Single | Reason::Unique(_) => None,
    }
}

// Two terms of one constructor are equal.
fn injection(a: TermId, b: TermId, k: u32) -> Premise
    ensures enough { IsPremiseOf (reason.Inject a b k) result }
    ensures known { (terms : Terms) (l r : TermId) → IsConnectedPremise terms (reason.Inject a b k) l r result.left result.right }
    ensures sides { (terms : Terms) (r : TermId) → IsLone terms r (reason.Inject a b k) result.left result.right }
{
    Premise {
        left: a,
        right: b,
        rule: Rule::Inject(k as u64),
    }
}

// What is selected from equals the constructor term.
fn selection(table: &TermTable, t: TermId, c: TermId) -> Option<Premise>
    ensures enough { IfSome result (IsPremiseIn table.now (reason.Sel t c)) }
    ensures known { IfSome result (λ p. (l r : TermId) → IsConnectedPremise table.now (reason.Sel t c) l r p.left p.right) }
    ensures sides { IfSome result (λ p. (r : TermId) → IsLone table.now r (reason.Sel t c) p.left p.right) }
    ensures none { IfNone result ((s : SelId) (u : TermId) → Has table.now (core.Sel s u) t.0 → ⊥) }
{
    match argument(table, t) {
        Some(u) => Some(Premise {
            left: u,
            right: c,
            rule: Rule::Sel(t),
        }),
        None => None,
    }
}

// What is tested equals the constructor term.
fn testing(table: &TermTable, t: TermId, c: TermId) -> Option<Premise>
    ensures enough { IfSome result (IsPremiseIn table.now (reason.Test t c)) }
    ensures known { IfSome result (λ p. (l r : TermId) → IsConnectedPremise table.now (reason.Test t c) l r p.left p.right) }
    ensures sides { IfSome result (λ p. (r : TermId) → IsLone table.now r (reason.Test t c) p.left p.right) }
    ensures none { IfNone result ((k : CtorId) (u : TermId) → Has table.now (core.Test k u) t.0 → ⊥) }
{
    match argument(table, t) {
        Some(u) => Some(Premise {
            left: u,
            right: c,
            rule: Rule::Test(t),
        }),
        None => None,
    }
}

// The test is true.
fn expansion(t: TermId, c: TermId) -> Premise
    ensures enough { IsPremiseOf (reason.Expand t c) result }
    ensures known { (terms : Terms) (l r : TermId) → IsConnectedPremise terms (reason.Expand t c) l r result.left result.right }
    ensures sides { (terms : Terms) (r : TermId) → IsLone terms r (reason.Expand t c) result.left result.right }
{
    Premise {
        left: t,
        right: TermId(0),
        rule: Rule::Expand(c),
    }
}

// The sides of the equation are equal.
fn equation_in(table: &TermTable, t: TermId) -> Option<Premise>
    ensures enough { IfSome result (IsPremiseIn table.now (reason.EqualIn t)) }
    ensures known { IfSome result (λ p. (l r : TermId) → IsConnectedPremise table.now (reason.EqualIn t) l r p.left p.right) }
    ensures sides { IfSome result (λ p. (r : TermId) → IsLone table.now r (reason.EqualIn t) p.left p.right) }
    ensures none { IfNone result ((a b : TermId) → Has table.now (core.Eq a b) t.0 → ⊥) }
{
    match sides(table, t) {
        Some((a, b)) => Some(Premise {
            left: a,
            right: b,
            rule: Rule::EqualIn(t),
        }),
        None => None,
    }
}

// The equation is true.
fn equation_out(t: TermId) -> Premise
    ensures enough { IsPremiseOf (reason.EqualOut t) result }
    ensures known { (terms : Terms) (l r : TermId) → IsConnectedPremise terms (reason.EqualOut t) l r result.left result.right }
    ensures sides { (terms : Terms) (r : TermId) → IsLone terms r (reason.EqualOut t) result.left result.right }
{
    Premise {
        left: t,
        right: TermId(0),
        rule: Rule::EqualOut,
    }
}

// What is negated has the other truth value.
fn negation(table: &TermTable, t: TermId, value: TermId) -> Option<Premise>
    ensures enough { IfSome result (IsNegationPremise table.now t value) }
    ensures known { IfSome result (λ p. (l : TermId) → IsConnectedPremise table.now (reason.Neg t) l value p.left p.right) }
    ensures sides { IfSome result (λ p. IsLone table.now value (reason.Neg t) p.left p.right) }
    ensures none { IfNone result ((u : TermId) → Has table.now (core.Not u) t.0 → ⊥) }
{
    let other = other_truth(value);
    match argument(table, t) {
        Some(a) => Some(Premise {
            left: a,
            right: other,
            rule: Rule::Neg(t),
        }),
        None => None,
    }
}

// The term `false` for `true`, and `true` for any other.
fn other_truth(value: TermId) -> TermId
    ensures of_true { value ≡ truth_term true → result ≡ truth_term false }
    ensures of_false { value ≡ truth_term false → result ≡ truth_term true }
{
    if value.0 == 0 {
        return TermId(1);
    }
    TermId(0)
}

// The one term under a selector, a test or a negation.
fn argument(table: &TermTable, t: TermId) -> Option<TermId>
    ensures under { IfSome result (λ u. IsOver table.now t (u ∷ [])) }
    ensures none { IfNone result ((node : Core) → Has table.now node t.0 → HasArguments node → ⊥) }
{
    if t.0 >= table.len() {
        return None;
    }
    match table.core(t) {
        Core::Sel(_, u) => Some(*u),
        Core::Test(_, u) => Some(*u),
        Core::Not(u) => Some(*u),
        _ => None,
    }
}

// The two sides of an equation.
fn sides(table: &TermTable, t: TermId) -> Option<(TermId, TermId)>
    ensures under { IfSome result (λ p. IsOver table.now t (p.0 ∷ (p.1 ∷ []))) }
    ensures none { IfNone result ((a b : TermId) → Has table.now (core.Eq a b) t.0 → ⊥) }
{
    if t.0 >= table.len() {
        return None;
    }
    match table.core(t) {
        Core::Eq(a, b) => Some((*a, *b)),
        _ => None,
    }
}

/// The terms right under the term, in order.
pub(crate) fn children(alloc: Global, core: &Core) -> Result<Vec<TermId>, ExplainError>
    ensures value { IfOk result (λ terms. terms.items ≡ core_children core.now) }
{
    match core {
        Core::Con(_, args) => copied(alloc, args),
        Core::Sel(_, t) => listed(alloc, &[*t]),
        Core::Test(_, t) => listed(alloc, &[*t]),
        Core::Apply(_, args) => copied(alloc, args),
        Core::Eq(a, b) => listed(alloc, &[*a, *b]),
        Core::Not(t) => listed(alloc, &[*t]),
        Core::And(args) => copied(alloc, args),
        Core::Or(args) => copied(alloc, args),
        Core::Iff(a, b) => listed(alloc, &[*a, *b]),
        Core::Ite(c, a, b) => listed(alloc, &[*c, *a, *b]),
    }
}

// These arguments.
fn copied(alloc: Global, args: &Args) -> Result<Vec<TermId>, ExplainError>
    ensures value { IfOk result (λ terms. terms.items ≡ args.now) }
{
    let terms = listed(alloc, args.as_slice())?;
    Ok(terms)
}

// These terms.
fn listed(alloc: Global, terms: &[TermId]) -> Result<Vec<TermId>, ExplainError>
    ensures value { IfOk result (λ list. list.items ≡ terms.now) }
{
    let list = Vec::from_slice(alloc, terms)?;
    Ok(list)
}
