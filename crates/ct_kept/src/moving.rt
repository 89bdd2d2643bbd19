//! Moves lemmas into another table.
ghost use Rattle.std.specs.Prelude.{◌≡◌, All, IfOk, MatchOption};
ghost use Rattle.ct_restriction.specs.Renamed.{number_in};
ghost use Rattle.ct_restriction.specs.Renumbered.{IsKnown};
ghost use Rattle.ct_kept.specs.Lemmas.{lemma_terms, renamed_lemma};

use crate::lemma::Lemma;
use crate::renaming::renamed_lemma;
use crate::terms::push_terms;
use ct_log::{Close, EqStep};
use ct_restriction::Renumbering;
use ct_terms::Lit;
use std::alloc::{AllocError, Global};

/// The lemma of this clause and explanation over the other numbers of its terms, where all are known.
pub(crate) fn moved(
    alloc: Global,
    clause: &[Lit],
    steps: &[EqStep],
    close: &Close,
    numbers: &Renumbering,
) -> Result<Option<Lemma>, AllocError>
    ensures moved { IfOk result (λ found. MatchOption found
        (All (IsKnown numbers.now) (lemma_terms (record { clause = clause.now; steps = steps.now; close = close.now })) → ⊥)
        (λ lemma. All (IsKnown numbers.now) (lemma_terms (record { clause = clause.now; steps = steps.now; close = close.now }))
        × (lemma ≡ renamed_lemma (number_in numbers.now.numbers) (record { clause = clause.now; steps = steps.now; close = close.now })))) }
{
    let mut terms = Vec::new(alloc);
    push_terms(&mut terms, clause, steps, close)?;
    if !numbers.knows(&terms) {
        return Ok(None);
    }
    let lemma = renamed_lemma(alloc, clause, steps, close, numbers)?;
    Ok(Some(lemma))
}
