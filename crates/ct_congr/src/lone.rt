//! Terms that are congruent only to themselves: no other term has their head and number of arguments.
ghost use Rattle.std.specs.Prelude.{◌≡◌, ◌<◌, true, false, ℕ, length, IfOk, OnOk, Some, slice_get};
ghost use Rattle.std.specs.Bool.{OnTrue};
ghost use Rattle.ct_terms.specs.declared.ids.TermId.{TermId};
ghost use Rattle.ct_terms.specs.declared.term.Core.{Core};
ghost use Rattle.ct_terms.specs.Terms.{Has};
ghost use Rattle.ct_equivalence.specs.Over.{AreLone};
ghost use Rattle.ct_congr.specs.Lone.{IsBlank, AreKeysBelow, IsListed};

use crate::error::CongrError;
use crate::normal::normal;
use crate::waiting::TRUE;
use ct_equivalence::SignatureTable;
use ct_terms::{TermId, TermTable};
use std::alloc::Global;

/// Marks the terms of the table whose head and number of arguments no other term has.
pub(crate) fn lone_terms(alloc: Global, table: &TermTable) -> Result<Vec<bool>, CongrError>
    ensures lone { IfOk result (λ lone. AreLone table.now lone.items) }
{
    let count = table.len();
    let blank = vec![in alloc; TRUE; count as usize]?;
    let mut lone = vec![in alloc; true; count as usize]?;
    let mut keys = SignatureTable::new(alloc);
    list_all(alloc, table, blank.as_slice(), &mut keys, &mut lone)?;
    prove!(keys.len() >= 0);
    Ok(lone)
}

// Lists all terms by their heads and numbers of arguments.
fn list_all(
    alloc: Global,
    table: &TermTable,
    blank: &[TermId],
    keys: &mut SignatureTable,
    lone: &mut Vec<bool>,
) -> Result<(), CongrError>
    requires long { length blank.now ≡ length table.now }
    requires marks { length lone.old.items ≡ length table.now }
    requires below { AreKeysBelow (length table.now) keys.old }
    ensures listed { OnOk result ((t : TermId) (core : Core) → Has table.now core t.0 → IsListed blank.now keys.new lone.new.items t core) }
{
    for t in 0..table.len() {
        list_one(alloc, table, blank, TermId(t), keys, lone)?;
    }
    Ok(())
}

// Lists the term; if another one of its head and number of arguments was listed, neither is marked then.
fn list_one(
    alloc: Global,
    table: &TermTable,
    blank: &[TermId],
    t: TermId,
    keys: &mut SignatureTable,
    lone: &mut Vec<bool>,
) -> Result<(), CongrError>
    requires long { length blank.now ≡ length table.now }
    requires inside { t.0 < length table.now }
    requires marks { length lone.old.items ≡ length table.now }
    requires below { AreKeysBelow (length table.now) keys.old }
    ensures marks { OnOk result (length lone.new.items ≡ length table.now) }
    ensures below { OnOk result (AreKeysBelow (length table.now) keys.new) }
    ensures stays { OnOk result ((u : TermId) (core : Core) → IsListed blank.now keys.old lone.old.items u core → IsListed blank.now keys.new lone.new.items u core) }
    ensures listed { OnOk result ((core : Core) → Has table.now core t.0 → IsListed blank.now keys.new lone.new.items t core) }
{
    let key = normal(alloc, table.core(t), blank)?;
    match keys.find(&key) {
        Some(first) => {
            unmark(lone, first);
            unmark(lone, t);
            Ok(())
        }
        None => {
            keys.push(key, t)?;
            Ok(())
        }
    }
}

// Takes the mark of the term away.
fn unmark(lone: &mut Vec<bool>, t: TermId)
    requires inside { t.0 < length lone.old.items }
    ensures long { length lone.new.items ≡ length lone.old.items }
    ensures gone { slice_get lone.new.items t.0 ≡ Some false }
    ensures stays { (k : ℕ) → slice_get lone.old.items k ≡ Some false → slice_get lone.new.items k ≡ Some false }
{
    lone[t.0 as usize] = false;
}

/// Whether the term is marked.
pub(crate) fn is_lone(lone: &[bool], t: TermId) -> bool
    ensures marked { OnTrue result (slice_get lone.now t.0 ≡ Some true) }
{
    match lone.get(t.0 as usize) {
        Some(true) => true,
        _ => false,
    }
}
