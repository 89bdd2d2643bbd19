//! Lines of the theory, judged.
ghost use Rattle.std.specs.Prelude.{◌≡◌, IfOk};
ghost use Rattle.ct_card.specs.Sizes.{AreSizes};
ghost use Rattle.ct_terms.specs.Terms.{AreSorted};

use ct_card::Sizes;
use ct_cases::CaseError;
use ct_explain::EqProof;
use ct_log::{Close, Line, Record, Step, accepted};
use ct_sorts::{Items, Signature};
use ct_terms::{Lit, TermId, TermTable};
use std::alloc::Global;

/// The clause of the opposites of these literals, and of the term besides.
pub fn clause_of(
    alloc: Global,
    hyps: &[Lit],
    besides: Option<TermId>,
) -> Result<Items<Lit>, CaseError> {
    let mut clause = Vec::new(alloc);
    for l in hyps {
        clause.push(Lit {
            term: l.term,
            positive: !l.positive,
        })?;
    }
    if let Some(term) = besides {
        clause.push(Lit {
            term,
            positive: true,
        })?;
    }
    Ok(Items::new(clause))
}

/// Whether the line with this clause, these steps and this closing rule is accepted.
pub fn is_accepted(
    alloc: Global,
    sig: &Signature,
    sizes: &Sizes,
    table: &TermTable,
    clause: Items<Lit>,
    proof: EqProof,
    close: Close,
) -> Result<bool, CaseError>
    requires sizes { AreSizes sig.now sizes.now }
    requires sorted { AreSorted sig.now table.now }
{
    let rec = record_of(alloc, table)?;
    let line = Line {
        clause,
        step: Step::Theory(Items::new(proof.steps), close),
    };
    match accepted(alloc, sig, sizes, &rec, &[], &line) {
        Ok(answer) => Ok(answer),
        Err(_) => Err(CaseError::NoMemory),
    }
}

/// The record of a copy of these terms without lines.
fn record_of(alloc: Global, table: &TermTable) -> Result<Box<Record>, CaseError>
    ensures terms { IfOk result (λ rec. rec.value.terms ≡ table.now) }
{
    match table.copy() {
        Ok(table) => Ok(Box::new(alloc, Record::new(table, Vec::new(alloc)))?),
        Err(_) => Err(CaseError::NoMemory),
    }
}
