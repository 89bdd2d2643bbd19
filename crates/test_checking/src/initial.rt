//! Initial lines: `(clauses EXPRESSION ..)` compiles formulas into one table and closes it, makes the
//! lines that a derivation begins with, and shows the text of a derivation of check 1 that has no
//! others.
ghost use Rattle.std.specs.Prelude.{◌≡◌, [], IfOk, OnOk};
ghost use Rattle.ct_card.specs.Sizes.{AreSizes};
ghost use Rattle.ct_terms.specs.Terms.{AreSorted};
ghost use Rattle.ct_closure.specs.ClosedTable.{IsClosedTable, AreRising};
ghost use Rattle.ct_log.specs.Recorded.{AreJudges};
ghost use Rattle.ct_clauses.specs.Initial.{AreSplitTerms};
ghost use Rattle.test_checking.specs.Scopes.{IsSound};
ghost use Rattle.test_checking.specs.Asserted.{IsAsserted};

use crate::close::{assert_all, sizes_of};
use ct_card::Sizes;
use ct_cases::{CaseError, show_bytes};
use ct_clauses::clauses;
use ct_closure::{CloseError, Closure, close};
use ct_compile::Scope;
use ct_log::{Derivation, Record};
use ct_log_text::derivation_text;
use ct_sexpr::Sexpr;
use ct_terms::{TermId, TermTable};
use std::alloc::Global;

/// Shows the initial lines over the closure of formulas.
pub fn show_initial(
    alloc: Global,
    scope: &Scope,
    exprs: &[Sexpr],
    out: &mut String,
) -> Result<(), CaseError>
    requires sound { IsSound scope.now }
{
    let (mut table, asserts) = assert_all(alloc, scope, exprs)?;
    let sizes = sizes_of(alloc, scope)?;
    let closure = closure_of(alloc, scope, &sizes, &mut table, asserts.as_slice())?;
    let mut derivation = derivation_of(alloc, scope, &sizes, table, asserts)?;
    show_lines(alloc, scope, &closure, &mut derivation, out)
}

/// The closure of the formulas, which is put into their table.
fn closure_of(
    alloc: Global,
    scope: &Scope,
    sizes: &Sizes,
    table: &mut TermTable,
    asserts: &[TermId],
) -> Result<Closure, CaseError>
    requires sizes { AreSizes scope.now.sig sizes.now }
    requires asserted { IsAsserted scope.now.sig table.old asserts.now }
    ensures judges { OnOk result (AreJudges scope.now.sig sizes.now table.new asserts.now) }
    ensures closed { OnOk result (IsClosedTable scope.now.sig table.new) }
    ensures split { IfOk result (λ closure. AreSplitTerms scope.now.sig table.new closure.split) }
    ensures rising { IfOk result (λ closure. AreRising closure.split) }
{
    match close(alloc, &scope.sig, sizes, table, asserts) {
        Ok(closure) => Ok(closure),
        Err(CloseError::TooLarge) => Err(CaseError::Bad),
        Err(CloseError::NoMemory) => Err(CaseError::NoMemory),
    }
}

/// The derivation without lines.
fn derivation_of(
    alloc: Global,
    scope: &Scope,
    sizes: &Sizes,
    table: Box<TermTable>,
    asserts: Vec<TermId>,
) -> Result<Box<Derivation>, CaseError>
    requires judges { AreJudges scope.now.sig sizes.now table.value asserts.items }
    ensures declarations { IfOk result (λ derivation. derivation.value.declarations ≡ scope.now.sig) }
    ensures terms { IfOk result (λ derivation. derivation.value.rec.terms ≡ table.value) }
    ensures lines { IfOk result (λ derivation. derivation.value.rec.lines ≡ []) }
{
    let derivation = Derivation::new(alloc, &scope.sig, sizes, Box::into_inner(table), asserts);
    Ok(Box::new(alloc, derivation)?)
}

/// Makes the initial lines of the derivation, and shows its text.
fn show_lines(
    alloc: Global,
    scope: &Scope,
    closure: &Closure,
    derivation: &mut Derivation,
    out: &mut String,
) -> Result<(), CaseError>
    requires signature { derivation.old.declarations ≡ scope.now.sig }
    requires begun { derivation.old.rec.lines ≡ [] }
    requires closed { IsClosedTable scope.now.sig derivation.old.rec.terms }
    requires split { AreSplitTerms scope.now.sig derivation.old.rec.terms closure.now.split }
    requires rising { AreRising closure.now.split }
{
    match clauses(alloc, &scope.sig, closure, derivation) {
        Ok(()) => show_text(alloc, scope, derivation.rec(), out),
        Err(_) => Err(CaseError::NoMemory),
    }
}

/// Shows the text of the record.
fn show_text(alloc: Global, scope: &Scope, rec: &Record, out: &mut String) -> Result<(), CaseError>
    requires sorted { AreSorted scope.now.sig rec.now.terms }
{
    match derivation_text(alloc, &scope.sig, 1, rec) {
        Ok(text) => {
            out.push(' ')?;
            show_bytes(alloc, &text, out)
        }
        Err(_) => Err(CaseError::NoMemory),
    }
}
