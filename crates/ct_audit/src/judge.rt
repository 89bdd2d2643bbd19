//! Judges a derivation over the assertions of its check.
ghost use Rattle.std.specs.Prelude.{◌≡◌, All, map, IfOk, IsErrOf, Ok, MatchOption};
ghost use Rattle.ct_sexpr.specs.View.{expression_of};
ghost use Rattle.ct_card.specs.Sizes.{AreSizes};
ghost use Rattle.ct_terms.specs.Terms.{AreSorted, IsBoolean};
ghost use Rattle.ct_formulas.specs.TreeFormula.{formula_of};
ghost use Rattle.ct_eval.specs.declared.interp.Interp.{Interp};
ghost use Rattle.ct_eval.specs.Interpretation.{IsProper};
ghost use Rattle.ct_eval.specs.Truth.{Holds};
ghost use Rattle.ct_log.specs.Acceptance.{Passes};
ghost use Rattle.ct_checker.specs.declared.reject.Why.{Why};
ghost use Rattle.ct_checker.specs.Rejection.{IsRejectedAt};
ghost use Rattle.ct_closure.specs.ClosedTable.{terms_at};
ghost use Rattle.ct_stack.specs.Stack.{cores};
ghost use Rattle.ct_stack.specs.Held.{context_in, level_in, IsSoundLevel};
ghost use Rattle.ct_audit.specs.Grown.{IsGrownBy, AreTooMany};
ghost use Rattle.ct_audit.specs.Judged.{Judges, JudgesRead, JudgesLines};

use crate::answer::AuditAnswer;
use crate::error::AuditError;
use crate::grow::add_assertions;
use ct_card::Sizes;
use ct_checker::Checker;
use ct_compile::Scope;
use ct_formulas::Tree;
use ct_log::{LogError, Record};
use ct_log_text::read_derivation;
use ct_meaning::meanings;
use ct_sexpr::Sexpr;
use ct_sorts::Signature;
use ct_terms::{TermError, TermId, TermTable};
use std::alloc::Global;

/// The number of the error of a derivation that departs from its form.
pub(crate) const DEPARTS: u16 = 41;

/// Judges the expression as a derivation over these assertions.
pub(crate) fn judge(
    alloc: Global,
    scope: &Scope,
    asserts: &[Tree],
    expr: &Sexpr,
) -> Result<AuditAnswer, AuditError>
    requires sound { IsSoundLevel (level_in scope.now asserts.now) }
    ensures judged { IfOk result (Judges (context_in scope.now) (map formula_of asserts.now) (expression_of expr.now)) }
{
    match read_derivation(alloc, &scope.sig, expr) {
        Ok(rec) => judge_record(alloc, scope, asserts, rec),
        Err(LogError::Form { item, code }) => Ok(AuditAnswer::Wrong { item, code }),
        Err(LogError::NoMemory) => Err(AuditError),
    }
}

// Judges a record over the assertions, whose core terms are put into a copy of its table.
fn judge_record(
    alloc: Global,
    scope: &Scope,
    asserts: &[Tree],
    rec: Record,
) -> Result<AuditAnswer, AuditError>
    requires sound { IsSoundLevel (level_in scope.now asserts.now) }
    requires sorted { AreSorted scope.now.sig rec.terms }
    ensures judged { IfOk result (JudgesRead (context_in scope.now) (map formula_of asserts.now) (Ok rec)) }
{
    match grown_table(alloc, scope, &rec, asserts) {
        Ok((table, numbers)) => {
            let rec = rec.grow(Box::into_inner(table));
            let answer = judge_lines(alloc, scope, asserts, &rec, numbers.as_slice());
            drop(rec);
            answer
        }
        Err(TermError::Full) => {
            drop(rec);
            Ok(AuditAnswer::Wrong {
                item: 0,
                code: DEPARTS,
            })
        }
        Err(TermError::NoMemory) => {
            drop(rec);
            Err(AuditError)
        }
    }
}

// A copy of the record's table with the core terms of the assertions, and their numbers.
fn grown_table(
    alloc: Global,
    scope: &Scope,
    rec: &Record,
    asserts: &[Tree],
) -> Result<(Box<TermTable>, Vec<TermId>), TermError>
    requires sound { IsSoundLevel (level_in scope.now asserts.now) }
    requires sorted { AreSorted scope.now.sig rec.now.terms }
    ensures grown { IfOk result (λ pair. IsGrownBy (context_in scope.now) (map formula_of asserts.now) rec.now.terms pair.0.value pair.1.items) }
    ensures booleans { IfOk result (λ pair. All (IsBoolean pair.0.value) pair.1.items) }
    ensures full { IsErrOf result TermError.Full → AreTooMany (context_in scope.now) (map formula_of asserts.now) rec.now.terms }
{
    let mut table = boxed_copy(alloc, rec.table())?;
    let numbers = add_assertions(alloc, scope, &mut table, asserts)?;
    Ok((table, numbers))
}

// An equal table.
fn boxed_copy(alloc: Global, table: &TermTable) -> Result<Box<TermTable>, TermError>
    ensures copy { IfOk result (λ copy. copy.value ≡ table.now) }
    ensures room { IsErrOf result TermError.Full → ⊥ }
{
    let copy = table.copy()?;
    Ok(Box::new(alloc, copy)?)
}

// Judges the lines of a record in whose table the core terms of the assertions have these numbers.
fn judge_lines(
    alloc: Global,
    scope: &Scope,
    asserts: &[Tree],
    rec: &Record,
    numbers: &[TermId],
) -> Result<AuditAnswer, AuditError>
    requires sound { IsSoundLevel (level_in scope.now asserts.now) }
    requires sorted { AreSorted scope.now.sig rec.now.terms }
    requires booleans { All (IsBoolean rec.now.terms) numbers.now }
    requires asserted { terms_at rec.now.terms numbers.now ≡ cores (context_in scope.now) (map formula_of asserts.now) }
    ensures judged { IfOk result (JudgesLines (context_in scope.now) (map formula_of asserts.now) rec.now.terms numbers.now rec.now.lines) }
{
    meanings();
    scope.sig.sorts();
    let wrong = wrong_line(alloc, &scope.sig, rec, numbers)?;
    match wrong {
        None => Ok(AuditAnswer::Verified),
        Some(number) => Ok(AuditAnswer::Rejected(number)),
    }
}

// The number of the line at which the record does not pass.
fn wrong_line(
    alloc: Global,
    sig: &Signature,
    rec: &Record,
    asserts: &[TermId],
) -> Result<Option<u64>, AuditError>
    requires sorted { AreSorted sig.now rec.now.terms }
    requires booleans { All (IsBoolean rec.now.terms) asserts.now }
    ensures checked { IfOk result (λ wrong. MatchOption wrong
        (Passes sig.now rec.now.terms asserts.now rec.now.lines
        × ((i : Interp) → IsProper sig.now i → Holds sig.now i rec.now.terms asserts.now → ⊥))
        (λ number. (why : Why) × IsRejectedAt sig.now rec.now.terms asserts.now rec.now.lines number why)) }
{
    let sizes = sizes_of(alloc, sig)?;
    let mut checker = Checker::new(alloc, sig, &sizes, rec, asserts)?;
    match checker.run() {
        Ok(()) => Ok(None),
        Err(reject) => Ok(Some(reject.step)),
    }
}

// The sizes of all sorts.
fn sizes_of(alloc: Global, sig: &Signature) -> Result<Box<Sizes>, AuditError>
    ensures sizes { IfOk result (λ sizes. AreSizes sig.now sizes.value) }
{
    let sizes = Sizes::new(alloc, sig)?;
    Ok(Box::new(alloc, sizes)?)
}
