//! The interpretation of a candidate's classes, in which the assertions hold.
ghost use Rattle.std.specs.Prelude.{List, All, IfOk, IfSome, IsErrOf};
ghost use Rattle.ct_card.specs.Sizes.{AreSizes};
ghost use Rattle.ct_terms.specs.declared.ids.TermId.{TermId};
ghost use Rattle.ct_terms.specs.Terms.{Terms, AreSorted, IsBoolean};
ghost use Rattle.ct_eval.specs.Interpretation.{IsProper};
ghost use Rattle.ct_engine.specs.Verdict.{IsModel};
ghost use Rattle.ct_engine.specs.Progress.{IsCandidate};

use crate::error::SolveError;
use crate::facts;
use crate::outcome::Candidate;
use ct_build::{build, build_small, compact};
use ct_card::Sizes;
use ct_eval::{Interp, holds};
use ct_sorts::Signature;
use ct_terms::{TermId, TermTable};
use std::alloc::Global;

/// An interpretation in which the assertions hold: one with small values and few rows where such a one was found, and else that of the
/// candidate's classes, with few rows.
pub(crate) fn readable_model(
    alloc: Global,
    sig: &Signature,
    sizes: &Sizes,
    table: &TermTable,
    asserts: &[TermId],
    candidate: &Candidate,
) -> Result<Interp, SolveError>
    requires sizes { AreSizes sig.now sizes.now }
    requires sorted { AreSorted sig.now table.now }
    requires asserts { All (IsBoolean table.now) asserts.now }
    requires candidate { IsCandidate sig.now table.now asserts.now candidate.now }
    ensures model { IfOk result (IsModel sig.now table.now asserts.now) }
    ensures err { IsErrOf result SolveError.TooLarge → ⊥ }
{
    if let Some(small) = small_model(alloc, sig, sizes, table, asserts, candidate)? {
        return Ok(small);
    }
    let whole = model(alloc, sig, sizes, candidate)?;
    let few = compact(alloc, sig, &whole)?;
    match if_true(alloc, sig, table, asserts, few)? {
        Some(found) => {
            drop(whole);
            Ok(found)
        }
        None => Ok(whole),
    }
}

// An interpretation with small values, if one was found in which the assertions hold.
fn small_model(
    alloc: Global,
    sig: &Signature,
    sizes: &Sizes,
    table: &TermTable,
    asserts: &[TermId],
    candidate: &Candidate,
) -> Result<Option<Interp>, SolveError>
    requires sizes { AreSizes sig.now sizes.now }
    requires sorted { AreSorted sig.now table.now }
    requires asserts { All (IsBoolean table.now) asserts.now }
    requires candidate { IsCandidate sig.now table.now asserts.now candidate.now }
    ensures model { IfOk result (λ found. IfSome found (IsModel sig.now table.now asserts.now)) }
    ensures err { IsErrOf result SolveError.TooLarge → ⊥ }
{
    let classes = &*candidate.classes;
    let small = build_small(alloc, sizes, classes, &candidate.order)?;
    if_true(alloc, sig, table, asserts, small)
}

// The interpretation, if there is one and the assertions hold in it.
fn if_true(
    alloc: Global,
    sig: &Signature,
    table: &TermTable,
    asserts: &[TermId],
    interp: Option<Interp>,
) -> Result<Option<Interp>, SolveError>
    requires sorted { AreSorted sig.now table.now }
    requires asserts { All (IsBoolean table.now) asserts.now }
    requires proper { IfSome interp (IsProper sig.now) }
    ensures model { IfOk result (λ found. IfSome found (IsModel sig.now table.now asserts.now)) }
    ensures err { IsErrOf result SolveError.TooLarge → ⊥ }
{
    let Some(interp) = interp else {
        return Ok(None);
    };
    match holds(alloc, sig, &interp, table, asserts)? {
        None => Ok(Some(interp)),
        Some(_) => {
            drop(interp);
            Ok(None)
        }
    }
}

// The interpretation of the candidate's classes. The assertions hold in it: each of them is in the class of `true`, and terms
// of one class have one value.
fn model(
    alloc: Global,
    sig: &Signature,
    sizes: &Sizes,
    candidate: &Candidate,
) -> Result<Interp, SolveError>
    requires sizes { AreSizes sig.now sizes.now }
    requires candidate { (table : Terms) × (asserts : List TermId) × IsCandidate sig.now table asserts candidate.now }
    ensures model { IfOk result (λ interp. (table : Terms) (asserts : List TermId)
        → IsCandidate sig.now table asserts candidate.now
        → IsModel sig.now table asserts interp) }
    ensures err { IsErrOf result SolveError.TooLarge → ⊥ }
{
    facts::classes();
    facts::closures();
    facts::models();
    facts::values();
    let classes = &*candidate.classes;
    let table = classes.table();
    let _terms = table.len();
    let interp = build(alloc, sig, sizes, table, classes, &candidate.order)?;
    Ok(interp)
}
