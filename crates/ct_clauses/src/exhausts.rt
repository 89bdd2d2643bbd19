//! The lines of the terms that are split.
ghost use Rattle.std.specs.Prelude.{◌≡◌, ◌<◌, ℕ, List, [], ◌∷◌, map, All, Contains, OnOk, IfOk, IfErr};
ghost use Rattle.std.specs.List.{AllZip};
ghost use Rattle.ct_sorts.specs.declared.ids.SortId.{SortId};
ghost use Rattle.ct_sorts.specs.declared.ids.CtorId.{CtorId};
ghost use Rattle.ct_terms.specs.declared.ids.TermId.{TermId};
ghost use Rattle.ct_terms.specs.declared.term.Core.TheVariants as core;
ghost use Rattle.ct_terms.specs.Literal.{IsStripped};
ghost use Rattle.ct_terms.specs.Terms.{AreSorted, IsOfSort, Has};
ghost use Rattle.ct_closure.specs.ClosedTable.{IsClosedTable, IsSplitTerm, IsPresent};
ghost use Rattle.ct_log.specs.declared.line.Step.{Step};
ghost use Rattle.ct_log.specs.Gates.{IsExhaustion, IsTestOf};
ghost use Rattle.ct_clauses.specs.Growth.{HaveGrown};

use crate::growth::push_line;
use ct_closure::closed_tables;
use ct_log::{Line, LogError, Step};
use ct_sorts::{CtorId, Signature};
use ct_terms::{Core, Lit, TermId, TermTable};
use std::alloc::Global;

/// Adds an exhaustion line for each of these terms, which are split, in their order.
pub(crate) fn push_exhausts(
    alloc: Global,
    sig: &Signature,
    table: &TermTable,
    split: &[TermId],
    lines: &mut Vec<Line>,
) -> Result<(), LogError>
    requires sorted { AreSorted sig.now table.now }
    requires closed { IsClosedTable sig.now table.now }
    requires split { All (λ t. (sort : SortId) × IsSplitTerm sig.now table.now t sort) split.now }
    ensures grown { OnOk result ((asserts : List TermId) → HaveGrown sig.now table.now asserts lines.old.items lines.new.items (map Step.Exhaust split.now)) }
    ensures err { IfErr result (λ e. e ≡ LogError.NoMemory) }
{
    for t in split {
        push_exhaust(alloc, sig, table, *t, lines)?;
    }
    Ok(())
}

// Adds the exhaustion line of a term that is split.
fn push_exhaust(
    alloc: Global,
    sig: &Signature,
    table: &TermTable,
    t: TermId,
    lines: &mut Vec<Line>,
) -> Result<(), LogError>
    requires sorted { AreSorted sig.now table.now }
    requires closed { IsClosedTable sig.now table.now }
    requires split { (sort : SortId) × IsSplitTerm sig.now table.now t sort }
    ensures grown { OnOk result ((asserts : List TermId) → HaveGrown sig.now table.now asserts lines.old.items lines.new.items (Step.Exhaust t ∷ [])) }
    ensures err { IfErr result (λ e. e ≡ LogError.NoMemory) }
{
    let clause = exhaustion(alloc, sig, table, t)?;
    push_line(lines, clause, Step::Exhaust(t))?;
    Ok(())
}

// The clause that one of the constructors of its sort builds the term.
fn exhaustion(
    alloc: Global,
    sig: &Signature,
    table: &TermTable,
    t: TermId,
) -> Result<Vec<Lit>, LogError>
    requires sorted { AreSorted sig.now table.now }
    requires closed { IsClosedTable sig.now table.now }
    requires split { (sort : SortId) × IsSplitTerm sig.now table.now t sort }
    ensures clause { IfOk result (λ clause. IsExhaustion sig.now table.now t clause.items) }
    ensures literals { IfOk result (λ clause. All (λ l. IsStripped table.now l.term) clause.items) }
    ensures err { IfErr result (λ e. e ≡ LogError.NoMemory) }
{
    closed_tables();
    prove!(t.0 < table.len());
    prove!(table.sort(t).0 < sig.sorts());
    tests(alloc, sig, table, t, sig.ctors(table.sort(t)))
}

// The literals that each of these constructors builds the term.
fn tests(
    alloc: Global,
    sig: &Signature,
    table: &TermTable,
    t: TermId,
    ctors: &[CtorId],
) -> Result<Vec<Lit>, LogError>
    requires sorted { AreSorted sig.now table.now }
    requires tested { All (λ c. IsPresent table.now (core.Test c t)) ctors.now }
    ensures tests { IfOk result (λ clause. AllZip (IsTestOf table.now t) clause.items ctors.now) }
    ensures literals { IfOk result (λ clause. All (λ l. IsStripped table.now l.term) clause.items) }
    ensures err { IfErr result (λ e. e ≡ LogError.NoMemory) }
{
    let mut clause = Vec::new(alloc);
    for c in ctors {
        clause.push(test(sig, table, t, *c))?;
    }
    Ok(clause)
}

// The literal that the constructor builds the term.
fn test(sig: &Signature, table: &TermTable, t: TermId, c: CtorId) -> Lit
    requires sorted { AreSorted sig.now table.now }
    requires tested { IsPresent table.now (core.Test c t) }
    ensures test { IsTestOf table.now t result c }
    ensures stripped { IsStripped table.now result.term }
{
    let core = Core::Test(c, t);
    let found = table.find(&core);
    drop(core);
    match found {
        Some(term) => Lit {
            term,
            positive: true,
        },
        None => unreachable!(),
    }
}
