//! The theory, asked about hypotheses.
ghost use Rattle.std.specs.Prelude.{All};
ghost use Rattle.ct_card.specs.Sizes.{AreSizes};
ghost use Rattle.ct_terms.specs.declared.ids.Lit.{Lit};
ghost use Rattle.ct_terms.specs.Literal.{IsStripped};
ghost use Rattle.ct_terms.specs.Terms.{AreSorted};

use crate::judge::is_accepted;
use crate::prepare::Prepared;
use crate::show::show_members;
use ct_cases::CaseError;
use ct_explain::EqProof;
use ct_log::Close;
use ct_sorts::Signature;
use ct_theory::{Conflict, Consulted, Theory, TheoryError};
use std::alloc::Global;

/// Shows what the theory says of the hypotheses.
pub fn show_consulted(
    alloc: Global,
    sig: &Signature,
    prepared: &Prepared,
    out: &mut String,
) -> Result<(), CaseError>
    requires sizes { AreSizes sig.now prepared.now.sizes.value }
    requires sorted { AreSorted sig.now prepared.now.table.value }
    requires stripped { All (λ (l : Lit). IsStripped prepared.now.table.value l.term) prepared.now.hyps.items }
{
    let Ok(mut theory) = Theory::new(alloc, sig, &prepared.sizes, &prepared.table) else {
        return Err(CaseError::NoMemory);
    };
    match theory.consult(&prepared.hyps, 0) {
        Ok(Consulted::Conflict(conflict)) => show_line(alloc, sig, prepared, conflict, out),
        Ok(Consulted::Saturated(_)) => {
            out.push_str("saturated")?;
            show_members(alloc, theory.classes(), out)
        }
        Err(TheoryError) => Err(CaseError::NoMemory),
    }
}

/// Shows the line of a conflict.
fn show_line(
    alloc: Global,
    sig: &Signature,
    prepared: &Prepared,
    conflict: Conflict,
    out: &mut String,
) -> Result<(), CaseError>
    requires sizes { AreSizes sig.now prepared.now.sizes.value }
    requires sorted { AreSorted sig.now prepared.now.table.value }
{
    let kind = kind_of(&conflict.close);
    let named = conflict.clause.len();
    let asked = prepared.hyps.len();
    let proof = EqProof {
        steps: conflict.steps.into_vec(),
    };
    let answer = is_accepted(
        alloc,
        sig,
        &prepared.sizes,
        &prepared.table,
        conflict.clause,
        proof,
        conflict.close,
    )?;
    let said = if answer { "accepted" } else { "refused" };
    Ok(out.push_str(format!(in alloc; "{kind} {named} of {asked} {said}")?.as_str())?)
}

/// The word of a closing rule.
fn kind_of(close: &Close) -> &'static str {
    match close {
        Close::Clash(_) => "clash",
        Close::Cycle(_) => "cycle",
    }
}
