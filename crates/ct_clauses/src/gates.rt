//! The lines of gates: what Boolean terms and choices mean. There is one function for each kind of term.
ghost use Rattle.std.specs.Prelude.{◌≡◌, ◌<◌, ℕ, List, [], ◌∷◌, ◌++◌, length, take, All, Some, slice_get, OnOk, IfErr};
ghost use Rattle.ct_sorts.specs.declared.ids.SortId.{SortId};
ghost use Rattle.ct_sorts.specs.Declarations.{Declarations, bool_sort};
ghost use Rattle.ct_terms.specs.declared.ids.TermId.{TermId};
ghost use Rattle.ct_terms.specs.declared.term.Core.{Core};
ghost use Rattle.ct_terms.specs.declared.term.Core.TheVariants as core;
ghost use Rattle.ct_terms.specs.Terms.{AreSorted, IsBoolean, IsOfSort, Has};
ghost use Rattle.ct_closure.specs.ClosedTable.{IsClosedTable, IsPresent};
ghost use Rattle.ct_log.specs.declared.rules.Gate.{Gate};
ghost use Rattle.ct_log.specs.Look.{AreSortedTerms};
ghost use Rattle.ct_clauses.specs.Initial.{all_gates, at_each, choice_gates, gates_from, gates_of, whole};
ghost use Rattle.ct_clauses.specs.Growth.{HaveGates};

use crate::growth::push_gate;
use crate::shapes::{equation, negative, opposite, positive, with_arguments};
use ct_closure::closed_tables;
use ct_log::{Gate, Line, LogError};
use ct_sorts::{Signature, SortId};
use ct_terms::{Core, TermId, TermTable};
use std::alloc::Global;

/// The sort of Boolean terms.
const BOOL: SortId = SortId(0);

/// The term `true`.
const TRUE: TermId = TermId(0);

/// The term `false`.
const FALSE: TermId = TermId(1);

/// Adds the lines of all gates: those of `true` and `false`, and those of the terms in the order of their numbers.
pub(crate) fn push_gates(
    alloc: Global,
    sig: &Signature,
    table: &TermTable,
    lines: &mut Vec<Line>,
) -> Result<(), LogError>
    requires sorted { AreSorted sig.now table.now }
    requires closed { IsClosedTable sig.now table.now }
    ensures grown { OnOk result (HaveGates table.now lines.old.items lines.new.items (all_gates table.now)) }
    ensures err { IfErr result (λ e. e ≡ LogError.NoMemory) }
{
    push_truths(alloc, table, lines)?;
    push_terms(alloc, sig, table, lines)?;
    Ok(())
}

// Adds the gates of `true` and `false`.
fn push_truths(alloc: Global, table: &TermTable, lines: &mut Vec<Line>) -> Result<(), LogError>
    ensures grown { OnOk result (HaveGates table.now lines.old.items lines.new.items (whole Gate.True (record { 0 = 0 }) ∷ (whole Gate.False (record { 0 = 0 }) ∷ []))) }
    ensures err { IfErr result (λ e. e ≡ LogError.NoMemory) }
{
    prove!(table.len() >= 2);
    let clause = vec![in alloc; positive(TRUE)]?;
    push_gate(table, Gate::True, TRUE, 0, clause, lines)?;
    let clause = vec![in alloc; negative(FALSE)]?;
    push_gate(table, Gate::False, TRUE, 0, clause, lines)?;
    Ok(())
}

// Adds the gates of the terms in the order of their numbers.
fn push_terms(
    alloc: Global,
    sig: &Signature,
    table: &TermTable,
    lines: &mut Vec<Line>,
) -> Result<(), LogError>
    requires sorted { AreSorted sig.now table.now }
    requires closed { IsClosedTable sig.now table.now }
    ensures grown { OnOk result (HaveGates table.now lines.old.items lines.new.items (gates_from 0 table.now)) }
    ensures err { IfErr result (λ e. e ≡ LogError.NoMemory) }
{
    for n in 0..table.len() {
        push_term(alloc, sig, table, TermId(n), lines)?;
    }
    Ok(())
}

// Adds the gates of the term.
fn push_term(
    alloc: Global,
    sig: &Signature,
    table: &TermTable,
    t: TermId,
    lines: &mut Vec<Line>,
) -> Result<(), LogError>
    requires sorted { AreSorted sig.now table.now }
    requires closed { IsClosedTable sig.now table.now }
    requires within { t.0 < length table.now }
    ensures grown { OnOk result ((core : Core) (sort : SortId)
        → slice_get table.now t.0 ≡ Some (core, sort)
        → HaveGates table.now lines.old.items lines.new.items (gates_of t core sort)) }
    ensures err { IfErr result (λ e. e ≡ LogError.NoMemory) }
{
    match table.core(t) {
        Core::And(args) => push_conjunction(alloc, table, t, args.as_slice(), lines),
        Core::Or(args) => push_disjunction(alloc, table, t, args.as_slice(), lines),
        Core::Iff(a, b) => push_equivalence(alloc, table, t, *a, *b, lines),
        Core::Ite(c, a, b) => push_choice(alloc, sig, table, t, *c, *a, *b, lines),
        _ => Ok(()),
    }
}

// Adds the gates of a conjunction.
fn push_conjunction(
    alloc: Global,
    table: &TermTable,
    t: TermId,
    args: &[TermId],
    lines: &mut Vec<Line>,
) -> Result<(), LogError>
    requires sorted { AreSortedTerms table.now }
    requires stands { Has table.now (core.And args.now) t.0 }
    ensures grown { OnOk result (HaveGates table.now lines.old.items lines.new.items (at_each Gate.AndPos t args.now ++ whole Gate.AndNeg t ∷ [])) }
    ensures err { IfErr result (λ e. e ≡ LogError.NoMemory) }
{
    for place in 0..args.len() {
        let clause = vec![in alloc; negative(t), table.lit(args[place])]?;
        push_gate(table, Gate::AndPos, t, place as u64, clause, lines)?;
    }
    let clause = with_arguments(alloc, table, positive(t), args, false)?;
    push_gate(table, Gate::AndNeg, t, 0, clause, lines)?;
    Ok(())
}

// Adds the gates of a disjunction.
fn push_disjunction(
    alloc: Global,
    table: &TermTable,
    t: TermId,
    args: &[TermId],
    lines: &mut Vec<Line>,
) -> Result<(), LogError>
    requires sorted { AreSortedTerms table.now }
    requires stands { Has table.now (core.Or args.now) t.0 }
    ensures grown { OnOk result (HaveGates table.now lines.old.items lines.new.items (whole Gate.OrPos t ∷ at_each Gate.OrNeg t args.now)) }
    ensures err { IfErr result (λ e. e ≡ LogError.NoMemory) }
{
    let clause = with_arguments(alloc, table, negative(t), args, true)?;
    push_gate(table, Gate::OrPos, t, 0, clause, lines)?;
    for place in 0..args.len() {
        let clause = vec![in alloc; positive(t), opposite(table.lit(args[place]))]?;
        push_gate(table, Gate::OrNeg, t, place as u64, clause, lines)?;
    }
    Ok(())
}

// Adds the gates of an equivalence.
fn push_equivalence(
    alloc: Global,
    table: &TermTable,
    t: TermId,
    a: TermId,
    b: TermId,
    lines: &mut Vec<Line>,
) -> Result<(), LogError>
    requires sorted { AreSortedTerms table.now }
    requires stands { Has table.now (core.Iff a b) t.0 }
    ensures grown { OnOk result (HaveGates table.now lines.old.items lines.new.items (gates_of t (core.Iff a b) bool_sort)) }
    ensures err { IfErr result (λ e. e ≡ LogError.NoMemory) }
{
    let (a, b) = (table.lit(a), table.lit(b));
    let clause = vec![in alloc; negative(t), opposite(a), b]?;
    push_gate(table, Gate::Iff1, t, 0, clause, lines)?;
    let clause = vec![in alloc; negative(t), a, opposite(b)]?;
    push_gate(table, Gate::Iff2, t, 0, clause, lines)?;
    let clause = vec![in alloc; positive(t), a, b]?;
    push_gate(table, Gate::Iff3, t, 0, clause, lines)?;
    let clause = vec![in alloc; positive(t), opposite(a), opposite(b)]?;
    push_gate(table, Gate::Iff4, t, 0, clause, lines)?;
    Ok(())
}

// Adds the gates of a choice.
fn push_choice(
    alloc: Global,
    sig: &Signature,
    table: &TermTable,
    t: TermId,
    c: TermId,
    a: TermId,
    b: TermId,
    lines: &mut Vec<Line>,
) -> Result<(), LogError>
    requires sorted { AreSorted sig.now table.now }
    requires closed { IsClosedTable sig.now table.now }
    requires stands { Has table.now (core.Ite c a b) t.0 }
    ensures grown { OnOk result ((sort : SortId) → IsOfSort table.now t sort → HaveGates table.now lines.old.items lines.new.items (choice_gates t sort)) }
    ensures err { IfErr result (λ e. e ≡ LogError.NoMemory) }
{
    closed_tables();
    prove!(t.0 < table.len());
    if table.sort(t) == BOOL {
        return push_boolean_choice(alloc, table, t, c, a, b, lines);
    }
    push_other_choice(alloc, table, t, c, a, b, lines)
}

// Adds the gates of a Boolean choice.
fn push_boolean_choice(
    alloc: Global,
    table: &TermTable,
    t: TermId,
    c: TermId,
    a: TermId,
    b: TermId,
    lines: &mut Vec<Line>,
) -> Result<(), LogError>
    requires sorted { AreSortedTerms table.now }
    requires stands { Has table.now (core.Ite c a b) t.0 }
    requires boolean { IsBoolean table.now t }
    ensures grown { OnOk result (HaveGates table.now lines.old.items lines.new.items (choice_gates t bool_sort)) }
    ensures err { IfErr result (λ e. e ≡ LogError.NoMemory) }
{
    let (c, a, b) = (table.lit(c), table.lit(a), table.lit(b));
    let clause = vec![in alloc; negative(t), opposite(c), a]?;
    push_gate(table, Gate::Ite1, t, 0, clause, lines)?;
    let clause = vec![in alloc; negative(t), c, b]?;
    push_gate(table, Gate::Ite2, t, 0, clause, lines)?;
    let clause = vec![in alloc; positive(t), opposite(c), opposite(a)]?;
    push_gate(table, Gate::Ite3, t, 0, clause, lines)?;
    let clause = vec![in alloc; positive(t), c, opposite(b)]?;
    push_gate(table, Gate::Ite4, t, 0, clause, lines)?;
    Ok(())
}

// Adds the gates of a choice that is no formula.
fn push_other_choice(
    alloc: Global,
    table: &TermTable,
    t: TermId,
    c: TermId,
    a: TermId,
    b: TermId,
    lines: &mut Vec<Line>,
) -> Result<(), LogError>
    requires sorted { AreSortedTerms table.now }
    requires stands { Has table.now (core.Ite c a b) t.0 }
    requires other { IsBoolean table.now t → ⊥ }
    requires then { IsPresent table.now (core.Eq t a) }
    requires otherwise { IsPresent table.now (core.Eq t b) }
    ensures grown { OnOk result (HaveGates table.now lines.old.items lines.new.items (whole Gate.Then t ∷ (whole Gate.Else t ∷ []))) }
    ensures err { IfErr result (λ e. e ≡ LogError.NoMemory) }
{
    let c = table.lit(c);
    let clause = vec![in alloc; opposite(c), positive(equation(table, t, a))]?;
    push_gate(table, Gate::Then, t, 0, clause, lines)?;
    let clause = vec![in alloc; c, positive(equation(table, t, b))]?;
    push_gate(table, Gate::Else, t, 0, clause, lines)?;
    Ok(())
}
