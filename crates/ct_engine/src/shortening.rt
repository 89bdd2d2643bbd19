//! Trims a refutation to the lines on which its empty clause rests.
ghost use Rattle.std.specs.Prelude.{◌≡◌, ◌≤◌, List, length, IfOk, OnOk, IsErrOf};
ghost use Rattle.ct_sorts.specs.Declarations.{Declarations};
ghost use Rattle.ct_terms.specs.declared.ids.TermId.{TermId};
ghost use Rattle.ct_terms.specs.Terms.{Terms};
ghost use Rattle.ct_engine.specs.Verdict.{IsRefutation};

use crate::error::SolveError;
use ct_core::{CoreError, trim};
use ct_log::Derivation;
use ct_sorts::Signature;
use ct_terms::{TermId, TermTable};
use std::alloc::Global;

/// The refutation with those lines alone that its empty clause rests on, and how many of its first lines, so many, are left.
pub(crate) fn shortened(
    alloc: Global,
    sig: &Signature,
    table: &TermTable,
    asserts: &[TermId],
    derivation: Derivation,
    first: usize,
) -> Result<(Derivation, usize), SolveError>
    requires refutation { IsRefutation sig.now table.now asserts.now derivation }
    ensures refutation { IfOk result (λ found. IsRefutation sig.now table.now asserts.now found.0) }
    ensures within { IfOk result (λ found. found.1 ≤ length found.0.rec.lines) }
    ensures err { IsErrOf result SolveError.TooLarge → ⊥ }
{
    let mut new = Box::new(alloc, derivation)?;
    let left = shorten(alloc, &mut new, first)?;
    Ok((Box::into_inner(new), left))
}

// Cuts the refutation down. How many of its first lines are left.
#[tactic(auto, using(crate::proofs::ShorteningLemmas::refutation_shortened))]
fn shorten(alloc: Global, derivation: &mut Derivation, first: usize) -> Result<usize, SolveError>
    ensures refutation { OnOk result ((d : Declarations) (table : Terms) (asserts : List TermId) → IsRefutation d table asserts derivation.old → IsRefutation d table asserts derivation.new) }
    ensures within { IfOk result (λ left. left ≤ length derivation.new.rec.lines) }
    ensures err { IsErrOf result SolveError.TooLarge → ⊥ }
{
    match trim(alloc, derivation, 0, first) {
        Ok(left) => Ok(left),
        Err(CoreError) => Err(SolveError::NoMemory),
    }
}
