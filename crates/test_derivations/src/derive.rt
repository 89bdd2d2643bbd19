//! Derivations: `(derive (TERM ..) (NUMBER ..) (LINE ..))` makes one of the lines up to the first
//! that is not accepted after those before it, and answers how many it has.
ghost use Rattle.std.specs.Prelude.{◌≡◌, IfOk, OnOk, IsTrue};
ghost use Rattle.ct_log.specs.Acceptance.{IsAccepted, clauses_of};
ghost use Rattle.ct_log.specs.Recorded.{AreJudges};

use crate::judge::sizes_of;
use crate::lines::lines_of;
use crate::table::{asserts_of, table_of};
use ct_card::Sizes;
use ct_cases::{CaseError, items_of};
use ct_log::{Derivation, Line, accepted};
use ct_sexpr::Sexpr;
use ct_sorts::Signature;
use ct_terms::{TermId, TermTable};
use std::alloc::Global;

/// Makes the derivation, and shows how many lines it has.
pub fn show_derived(
    alloc: Global,
    sig: &Signature,
    terms: &Sexpr,
    asserts: &Sexpr,
    lines: &Sexpr,
    out: &mut String,
) -> Result<(), CaseError> {
    let derivation = derive(alloc, sig, terms, asserts, lines)?;
    let count = derivation.rec().lines().len();
    Ok(out.push_str(format!(in alloc; "{count}")?.as_str())?)
}

/// The derivation of the lines up to the first that is not accepted.
pub fn derive(
    alloc: Global,
    sig: &Signature,
    terms: &Sexpr,
    asserts: &Sexpr,
    lines: &Sexpr,
) -> Result<Box<Derivation>, CaseError>
    ensures declarations { IfOk result (λ derivation. derivation.value.declarations ≡ sig.now) }
{
    let lines = lines_of(alloc, items_of(lines)?)?;
    let table = table_of(alloc, sig, items_of(terms)?)?;
    let asserts = asserts_of(alloc, &table, items_of(asserts)?)?;
    let sizes = sizes_of(alloc, sig)?;
    let mut derivation = derivation_of(alloc, sig, &sizes, table, asserts)?;
    push_all(alloc, sig, &sizes, &mut derivation, lines)?;
    Ok(derivation)
}

/// The derivation without lines.
fn derivation_of(
    alloc: Global,
    sig: &Signature,
    sizes: &Sizes,
    table: Box<TermTable>,
    asserts: Vec<TermId>,
) -> Result<Box<Derivation>, CaseError>
    requires judges { AreJudges sig.now sizes.now table.value asserts.items }
    ensures declarations { IfOk result (λ derivation. derivation.value.declarations ≡ sig.now) }
    ensures sizes { IfOk result (λ derivation. derivation.value.sizes ≡ sizes.now) }
{
    let derivation = Derivation::new(alloc, sig, sizes, Box::into_inner(table), asserts);
    Ok(Box::new(alloc, derivation)?)
}

/// Pushes the lines up to the first that is not accepted.
fn push_all(
    alloc: Global,
    sig: &Signature,
    sizes: &Sizes,
    derivation: &mut Derivation,
    lines: Vec<Line>,
) -> Result<(), CaseError>
    requires declarations { derivation.old.declarations ≡ sig.now }
    requires sizes { derivation.old.sizes ≡ sizes.now }
    ensures declarations { OnOk result (derivation.new.declarations ≡ sig.now) }
{
    for line in lines {
        if !push(alloc, sig, sizes, derivation, line)? {
            return Ok(());
        }
    }
    Ok(())
}

/// Pushes the line where it is accepted, and answers whether it is.
fn push(
    alloc: Global,
    sig: &Signature,
    sizes: &Sizes,
    derivation: &mut Derivation,
    line: Line,
) -> Result<bool, CaseError>
    requires declarations { derivation.old.declarations ≡ sig.now }
    requires sizes { derivation.old.sizes ≡ sizes.now }
    ensures declarations { derivation.new.declarations ≡ sig.now }
    ensures sizes { derivation.new.sizes ≡ sizes.now }
{
    if !is_accepted(alloc, sig, sizes, derivation, &line)? {
        return Ok(false);
    }
    match derivation.push(line) {
        Ok(()) => Ok(true),
        Err(_) => Err(CaseError::NoMemory),
    }
}

/// Whether the line is accepted after those of the derivation.
fn is_accepted(
    alloc: Global,
    sig: &Signature,
    sizes: &Sizes,
    derivation: &Derivation,
    line: &Line,
) -> Result<bool, CaseError>
    requires declarations { derivation.now.declarations ≡ sig.now }
    requires sizes { derivation.now.sizes ≡ sizes.now }
    ensures accepted { IfOk result (λ yes. IsTrue yes
        → IsAccepted derivation.now.declarations derivation.now.rec.terms derivation.now.asserts (clauses_of derivation.now.rec.lines) line.now) }
{
    let rec = derivation.rec();
    match accepted(alloc, sig, sizes, rec, derivation.asserts(), line) {
        Ok(answer) => Ok(answer),
        Err(_) => Err(CaseError::NoMemory),
    }
}
