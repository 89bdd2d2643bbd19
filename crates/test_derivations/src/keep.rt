//! Clauses of the theory that are kept: `(keep (TERM ..) (NUMBER ..) (LINE ..) (TERM ..))` makes a derivation, as `derive` does,
//! and puts its clauses of the theory into a store. It shows how many these are, and over how many terms; how many of them
//! are left where only what is declared may be named, which is all; and how many are moved into the table of the last terms.
ghost use Rattle.std.specs.Prelude.{◌≡◌, IfOk, OnOk};
ghost use Rattle.ct_card.specs.Sizes.{AreSizes};
ghost use Rattle.ct_terms.specs.Terms.{AreSorted};

use crate::derive::derive;
use crate::judge::sizes_of;
use crate::table::table_of;
use ct_card::Sizes;
use ct_cases::{CaseError, extends_start, items_of};
use ct_kept::{Kept, KeptError, moved_lines};
use ct_log::Derivation;
use ct_sexpr::Sexpr;
use ct_sorts::{Signature, growth};
use ct_terms::TermTable;
use std::alloc::Global;

/// Keeps the clauses of the derivation, and shows what is there, what is left, and what can be used.
pub fn show_kept(
    alloc: Global,
    sig: &Signature,
    terms: &Sexpr,
    asserts: &Sexpr,
    lines: &Sexpr,
    others: &Sexpr,
    out: &mut String,
) -> Result<(), CaseError> {
    let derivation = derive(alloc, sig, terms, asserts, lines)?;
    let kept = kept_of(alloc, sig, &derivation)?;
    drop(derivation);
    show_store(alloc, &kept, out)?;
    out.push_str(", left ")?;
    let left = part_of(alloc, sig, &kept)?;
    show_store(alloc, &left, out)?;
    drop(left);
    let others = table_of(alloc, sig, items_of(others)?)?;
    let sizes = sizes_of(alloc, sig)?;
    show_moved(alloc, sig, &sizes, &others, &kept, out)
}

/// A store with the clauses that the theory gave in the derivation.
fn kept_of(alloc: Global, sig: &Signature, derivation: &Derivation) -> Result<Box<Kept>, CaseError>
    requires declarations { derivation.now.declarations ≡ sig.now }
    ensures sorted { IfOk result (λ kept. AreSorted sig.now kept.value.table) }
{
    let mut kept = new_store(alloc, sig)?;
    match kept.take(alloc, sig, derivation, 0) {
        Ok(()) => Ok(kept),
        Err(KeptError) => Err(CaseError::NoMemory),
    }
}

/// A store without clauses.
fn new_store(alloc: Global, sig: &Signature) -> Result<Box<Kept>, CaseError>
    ensures sorted { IfOk result (λ kept. AreSorted sig.now kept.value.table) }
{
    extends_start(sig);
    match Kept::new(alloc) {
        Ok(kept) => Ok(Box::new(alloc, kept)?),
        Err(KeptError) => Err(CaseError::NoMemory),
    }
}

/// The part of the store that names only what is declared.
fn part_of(alloc: Global, sig: &Signature, kept: &Kept) -> Result<Box<Kept>, CaseError>
    requires sorted { AreSorted sig.now kept.now.table }
{
    growth();
    let _sorts = sig.sorts();
    let mark = sig.mark();
    match kept.within(alloc, sig, &mark) {
        Ok(part) => Ok(Box::new(alloc, part)?),
        Err(KeptError) => Err(CaseError::NoMemory),
    }
}

/// Shows how many clauses the store has, and how many terms.
fn show_store(alloc: Global, kept: &Kept, out: &mut String) -> Result<(), CaseError> {
    let clauses = kept.lemmas().len();
    let terms = kept.table().len();
    Ok(out.push_str(format!(in alloc; "{clauses} over {terms}")?.as_str())?)
}

/// Shows how many lines stand for the clauses over the terms.
fn show_moved(
    alloc: Global,
    sig: &Signature,
    sizes: &Sizes,
    terms: &TermTable,
    kept: &Kept,
    out: &mut String,
) -> Result<(), CaseError>
    requires sizes { AreSizes sig.now sizes.now }
    requires sorted { AreSorted sig.now terms.now }
{
    match moved_lines(alloc, sig, sizes, terms, &[], kept) {
        Ok(lines) => {
            let count = lines.len();
            Ok(out.push_str(format!(in alloc; ", moved {count}")?.as_str())?)
        }
        Err(KeptError) => Err(CaseError::NoMemory),
    }
}
