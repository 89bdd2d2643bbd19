//! Hypotheses that a case names.
ghost use Rattle.std.specs.Prelude.{◌<◌, length, All, IfOk, IsTrue};
ghost use Rattle.ct_terms.specs.declared.ids.Lit.{Lit};
ghost use Rattle.ct_terms.specs.Literal.{IsStripped};

use crate::numbers::literal_of;
use ct_cases::CaseError;
use ct_sexpr::Sexpr;
use ct_terms::{Core, Lit, TermId, TermTable};
use std::alloc::Global;

/// The literals, each over a Boolean term of the table that is no negation.
pub fn hypotheses_of(
    alloc: Global,
    table: &TermTable,
    parts: &[Sexpr],
) -> Result<Vec<Lit>, CaseError>
    ensures stripped { IfOk result (λ hyps. All (λ (l : Lit). IsStripped table.now l.term) hyps.items) }
{
    let mut hyps = Vec::new(alloc);
    for part in parts {
        hyps.push(hypothesis(table, part)?)?;
    }
    Ok(hyps)
}

/// The literal, over a Boolean term of the table that is no negation.
pub fn hypothesis(table: &TermTable, part: &Sexpr) -> Result<Lit, CaseError>
    ensures stripped { IfOk result (λ l. IsStripped table.now l.term) }
{
    let l = literal_of(part)?;
    if l.term.0 >= table.len() || !is_stripped(table, l.term) {
        return Err(CaseError::Bad);
    }
    Ok(l)
}

/// Whether the term is Boolean and no negation.
fn is_stripped(table: &TermTable, t: TermId) -> bool
    requires inside { t.0 < length table.now }
    ensures stripped { IsTrue result → IsStripped table.now t }
{
    if table.sort(t).0 != 0 {
        return false;
    }
    match table.core(t) {
        Core::Not(_) => false,
        _ => true,
    }
}
