//! Listable sorts: `(finite SORT ..)` shows of each sort how many values it has, `many` above 4,096, and `-` where it is not
//! listable; `(values SORT ..)` shows the values of sorts that have at most 4,096, each list in brackets.
ghost use Rattle.std.specs.Prelude.{◌<◌, length, IfOk};
ghost use Rattle.ct_sorts.specs.Declarations.{IsSort};
ghost use Rattle.ct_finite.specs.Counts.{AreCounts};

use crate::show::{show_ctor, show_number};
use ct_cases::{CaseError, show_bytes, sort_of};
use ct_finite::Finite;
use ct_formulas::Tree;
use ct_sexpr::Sexpr;
use ct_sorts::{Signature, SortId};
use std::alloc::Global;

/// Answers a case of listable sorts.
pub fn answer(
    alloc: Global,
    sig: &Signature,
    kind: &str,
    parts: &[Sexpr],
    out: &mut String,
) -> Result<bool, CaseError> {
    match kind {
        "finite" => show_counts(alloc, sig, parts, out)?,
        "values" => show_lists(alloc, sig, parts, out)?,
        _ => return Ok(false),
    }
    Ok(true)
}

/// The listable sorts of the signature.
fn new_finite(alloc: Global, sig: &Signature) -> Result<Finite, CaseError>
    ensures counts { IfOk result (λ finite. AreCounts sig.now finite) }
{
    Finite::new(alloc, sig).map_err(|_| CaseError::NoMemory)
}

/// Shows how many values each sort has.
fn show_counts(
    alloc: Global,
    sig: &Signature,
    sorts: &[Sexpr],
    out: &mut String,
) -> Result<(), CaseError> {
    let finite = new_finite(alloc, sig)?;
    for sort in sorts {
        show_count(alloc, &finite, sort_of(alloc, sig, sort)?, out)?;
    }
    Ok(())
}

/// Shows how many values the sort has.
fn show_count(alloc: Global, finite: &Finite, s: SortId, out: &mut String) -> Result<(), CaseError>
    requires inside { s.0 < length finite.now }
{
    if !finite.listable(s) {
        out.push_str(" -")?;
        return Ok(());
    }
    match finite.count(s) {
        Some(count) => show_number(alloc, count, out),
        None => {
            out.push_str(" many")?;
            Ok(())
        }
    }
}

/// Shows the values of each sort.
fn show_lists(
    alloc: Global,
    sig: &Signature,
    sorts: &[Sexpr],
    out: &mut String,
) -> Result<(), CaseError> {
    let finite = new_finite(alloc, sig)?;
    for sort in sorts {
        let trees = values_of(sig, &finite, sort_of(alloc, sig, sort)?)?;
        out.push_str(" [")?;
        show_trees(alloc, sig, &trees, out)?;
        out.push(']')?;
    }
    Ok(())
}

/// The values of a listable sort that has at most 4,096.
fn values_of(sig: &Signature, finite: &Finite, s: SortId) -> Result<Vec<Tree>, CaseError>
    requires counts { AreCounts sig.now finite.now }
    requires inside { IsSort sig.now s }
{
    if !finite.listable(s) {
        return Err(CaseError::Bad);
    }
    match finite.count(s) {
        Some(_) => finite.values(sig, s).map_err(|_| CaseError::NoMemory),
        None => Err(CaseError::Bad),
    }
}

/// Shows the trees, with blanks between them.
fn show_trees(
    alloc: Global,
    sig: &Signature,
    trees: &[Tree],
    out: &mut String,
) -> Result<(), CaseError> {
    for k in 0..trees.len() {
        if k > 0 {
            out.push(' ')?;
        }
        show_tree(alloc, sig, &trees[k], out)?;
    }
    Ok(())
}

/// Shows a tree of constructors.
fn show_tree(
    alloc: Global,
    sig: &Signature,
    tree: &Tree,
    out: &mut String,
) -> Result<(), CaseError> {
    let Tree::Con(c, args) = tree else {
        return Err(CaseError::Bad);
    };
    if args.is_empty() {
        return show_ctor(alloc, sig, *c, out);
    }
    out.push('(')?;
    show_ctor(alloc, sig, *c, out)?;
    for arg in args.as_slice() {
        out.push(' ')?;
        show_tree(alloc, sig, arg, out)?;
    }
    out.push(')')?;
    Ok(())
}
