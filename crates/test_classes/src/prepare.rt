//! The classes of the terms of a table under hypotheses, closed, and what else judgements need.
ghost use Rattle.std.specs.Prelude.{◌≡◌, ◌<◌, length, All, IfOk, IsTrue};
ghost use Rattle.ct_card.specs.Sizes.{AreSizes};
ghost use Rattle.ct_terms.specs.declared.ids.Lit.{Lit};
ghost use Rattle.ct_terms.specs.Literal.{IsStripped};
ghost use Rattle.ct_terms.specs.Terms.{AreSorted};
ghost use Rattle.ct_congr.specs.State.{IsAnswer, AreEqual};

use crate::hypotheses::hypotheses_of;
use crate::table::table_of;
use ct_card::{CardError, Sizes};
use ct_cases::{CaseError, items_of};
use ct_congr::{Classes, Closed, CongrError};
use ct_sexpr::Sexpr;
use ct_sorts::Signature;
use ct_terms::{Lit, TermId, TermTable};
use std::alloc::Global;

/// Closed classes, with what they were made from.
#[derive(Drop)]
pub struct Prepared {
    /// The sizes of all sorts.
    pub sizes: Box<Sizes>,
    /// The terms.
    pub table: Box<TermTable>,
    /// The hypotheses.
    pub hyps: Vec<Lit>,
    /// The classes.
    pub classes: Box<Classes>,
    /// What closing them came to.
    pub closed: Closed,
}

/// The closed classes of these terms under these hypotheses.
pub fn prepare(
    alloc: Global,
    sig: &Signature,
    terms: &Sexpr,
    hyps: &Sexpr,
) -> Result<Prepared, CaseError>
    ensures sizes { IfOk result (λ prepared. AreSizes sig.now prepared.sizes.value) }
    ensures sorted { IfOk result (λ prepared. AreSorted sig.now prepared.table.value) }
    ensures stripped { IfOk result (λ prepared. All (λ (l : Lit). IsStripped prepared.table.value l.term) prepared.hyps.items) }
    ensures answer { IfOk result (λ prepared. IsAnswer prepared.classes.value prepared.closed) }
{
    let sizes = sizes_of(alloc, sig)?;
    let table = table_of(alloc, sig, items_of(terms)?)?;
    let hyps = hypotheses_of(alloc, &table, items_of(hyps)?)?;
    let mut classes = classes_of(alloc, sig, &sizes, &table, &hyps)?;
    let closed = close(&mut classes)?;
    Ok(Prepared {
        sizes,
        table,
        hyps,
        classes,
        closed,
    })
}

/// The sizes of all sorts.
fn sizes_of(alloc: Global, sig: &Signature) -> Result<Box<Sizes>, CaseError>
    ensures sizes { IfOk result (λ sizes. AreSizes sig.now sizes.value) }
{
    match Sizes::new(alloc, sig) {
        Ok(sizes) => Ok(Box::new(alloc, sizes)?),
        Err(CardError) => Err(CaseError::NoMemory),
    }
}

/// The classes in which the hypotheses hold.
fn classes_of(
    alloc: Global,
    sig: &Signature,
    sizes: &Sizes,
    table: &TermTable,
    hyps: &[Lit],
) -> Result<Box<Classes>, CaseError>
    requires sizes { AreSizes sig.now sizes.now }
    requires sorted { AreSorted sig.now table.now }
    requires stripped { All (λ (l : Lit). IsStripped table.now l.term) hyps.now }
{
    match Classes::new(alloc, sig, sizes, table, hyps) {
        Ok(classes) => Ok(Box::new(alloc, classes)?),
        Err(CongrError) => Err(CaseError::NoMemory),
    }
}

/// Closes the classes.
pub fn close(classes: &mut Classes) -> Result<Closed, CaseError>
    ensures answer { IfOk result (IsAnswer classes.new) }
{
    match classes.close() {
        Ok(answer) => Ok(answer),
        Err(CongrError) => Err(CaseError::NoMemory),
    }
}

/// Whether these are terms of one class.
pub fn are_equal(classes: &Classes, a: TermId, b: TermId) -> bool
    ensures equal { IsTrue result → AreEqual classes.now a b }
{
    let count = classes.table().len();
    a.0 < count && b.0 < count && classes.rep(a) == classes.rep(b)
}
