//! What is read off a closed table: which terms are split, and how many are propositional variables.
ghost use Rattle.std.specs.Prelude.{◌≡◌, ◌↔◌, ◌<◌, ◌≤◌, length, Some, slice_get, Contains, IfOk, IsErrOf};
ghost use Rattle.ct_sorts.specs.declared.ids.SortId.{SortId};
ghost use Rattle.ct_terms.specs.declared.ids.TermId.{TermId};
ghost use Rattle.ct_terms.specs.declared.term.Core.{Core};
ghost use Rattle.ct_closure.specs.ClosedTable.{AreRising};
ghost use Rattle.ct_closure.specs.Steps.{IsMarked};
ghost use Rattle.ct_closure.specs.Variables.{is_settled, is_variable, variable_count};

use crate::error::CloseError;
use ct_sorts::SortId;
use ct_terms::{Core, TermId, TermTable};
use std::alloc::Global;

/// The marked terms, in the order of their numbers.
pub(crate) fn marked(alloc: Global, marks: &[bool]) -> Result<Vec<TermId>, CloseError>
    requires few { length marks.now ≤ 200000 }
    ensures listed { IfOk result (λ terms. (t : TermId) → Contains terms.items t ↔ IsMarked marks.now t) }
    ensures rising { IfOk result (λ terms. AreRising terms.items) }
    ensures err { IsErrOf result CloseError.TooLarge → ⊥ }
{
    let mut terms = Vec::new(alloc);
    for n in 0..marks.len() {
        if marks[n] {
            terms.push(TermId(n as u32))?;
        }
    }
    Ok(terms)
}

/// How many of the terms are Boolean and neither `true`, `false` nor a negation.
pub(crate) fn count_variables(table: &TermTable) -> u64
    ensures count { result ≡ variable_count table.now }
{
    let mut count = 0;
    for n in 0..table.len() {
        if is_variable(table, TermId(n)) {
            count += 1;
        }
    }
    count
}

// Whether the term is Boolean and neither `true`, `false` nor a negation.
fn is_variable(table: &TermTable, t: TermId) -> bool
    requires within { t.0 < length table.now }
    ensures value { (core : Core) (sort : SortId) → slice_get table.now t.0 ≡ Some (core, sort) → result ≡ is_variable (core, sort) }
{
    table.sort(t) == SortId(0) && !is_settled(table.core(t))
}

// Whether the term is a constructor term or a negation.
fn is_settled(core: &Core) -> bool
    ensures value { result ≡ is_settled core.now }
{
    match core {
        Core::Con(_, _) => true,
        Core::Not(_) => true,
        _ => false,
    }
}
