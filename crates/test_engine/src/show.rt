//! What verdicts hold, as it is shown.
ghost use Rattle.std.specs.Prelude.{◌≡◌, IfOk};
ghost use Rattle.ct_card.specs.Sizes.{AreSizes};
ghost use Rattle.ct_log.specs.Recorded.{AreJudges};

use ct_card::{CardError, Sizes};
use ct_cases::CaseError;
use ct_checker::{Checker, CheckerError};
use ct_engine::{Move, Spent};
use ct_log::{Derivation, Record};
use ct_sorts::Signature;
use ct_terms::TermId;
use std::alloc::Global;

/// Shows ` unsat verified` where the checker passes the derivation, and else ` rejected` with the step.
pub fn show_passed(
    alloc: Global,
    sig: &Signature,
    derivation: &Derivation,
    out: &mut String,
) -> Result<(), CaseError>
    requires own { derivation.now.declarations ≡ sig.now }
{
    let rec = derivation.rec();
    let asserts = derivation.asserts();
    let sizes = sizes_of(alloc, sig)?;
    show_run(alloc, sig, &sizes, rec, asserts, out)
}

/// The sizes of all sorts.
pub fn sizes_of(alloc: Global, sig: &Signature) -> Result<Box<Sizes>, CaseError>
    ensures sizes { IfOk result (λ sizes. AreSizes sig.now sizes.value) }
{
    match Sizes::new(alloc, sig) {
        Ok(sizes) => Ok(Box::new(alloc, sizes)?),
        Err(CardError) => Err(CaseError::NoMemory),
    }
}

/// Shows whether the checker passes the record over the assertions.
fn show_run(
    alloc: Global,
    sig: &Signature,
    sizes: &Sizes,
    rec: &Record,
    asserts: &[TermId],
    out: &mut String,
) -> Result<(), CaseError>
    requires judges { AreJudges sig.now sizes.now rec.now.terms asserts.now }
{
    match Checker::new(alloc, sig, sizes, rec, asserts) {
        Ok(mut checker) => match checker.run() {
            Ok(()) => Ok(out.push_str(" unsat verified")?),
            Err(reject) => {
                let text = format!(in alloc; " rejected {}", reject.step)?;
                Ok(out.push_str(text.as_str())?)
            }
        },
        Err(CheckerError) => Err(CaseError::NoMemory),
    }
}

/// Shows the moves of a search.
pub fn show_moves(alloc: Global, spent: &Spent, out: &mut String) -> Result<(), CaseError> {
    for step in spent.moves.as_slice() {
        let text = text_of(alloc, *step)?;
        out.push_str(text.as_str())?;
    }
    Ok(())
}

/// The text of a move.
fn text_of(alloc: Global, step: Move) -> Result<String, CaseError> {
    match step {
        Move::Decide(t) => Ok(format!(in alloc; " (decide {})", t.0)?),
        Move::Add(n) => Ok(format!(in alloc; " (add {n})")?),
        Move::Learn(n, k) => Ok(format!(in alloc; " (learn {n} {k})")?),
    }
}
