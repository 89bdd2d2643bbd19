//! The rule of congruence: terms with one head and equal arguments are equal.
ghost use Rattle.std.specs.Prelude.{◌≡◌, [], List, length, OnOk};
ghost use Rattle.ct_sorts.specs.Declarations.{Declarations};
ghost use Rattle.ct_terms.specs.declared.ids.Lit.{Lit};
ghost use Rattle.ct_congr.specs.Partition.{InOneClass};
ghost use Rattle.ct_congr.specs.Needed.{AreNeeded};
ghost use Rattle.ct_congr.specs.Rules.{IsCongruent};

use crate::error::CongrError;
use crate::index::{TermIndex, enter};
use crate::merge::{Merge, Reason};
use crate::needed::need;
use crate::normal::normal;
use ct_terms::{TermId, TermTable};
use std::alloc::Global;

/// The merges that congruence asks for: each term with the first one that is congruent to it.
pub(crate) fn congruences(
    alloc: Global,
    table: &TermTable,
    reps: &[TermId],
    found: &mut Vec<Merge>,
) -> Result<(), CongrError>
    requires long { length reps.now ≡ length table.now }
    ensures needed { OnOk result ((d : Declarations) (hyps : List Lit)
        → AreNeeded d table.now hyps reps.now found.old.items
        → AreNeeded d table.now hyps reps.now found.new.items) }
    ensures closed { OnOk result (found.new.items ≡ [] → (found.old.items ≡ []) × IsCongruent table.now (InOneClass reps.now)) }
{
    let mut index = TermIndex::new(alloc);
    for t in 0..table.len() {
        let t = TermId(t);
        let key = normal(alloc, table.core(t), reps)?;
        let first = enter(&mut index, key, t)?;
        need(reps, found, t, first, Reason::Cong(t, first))?;
    }
    Ok(())
}
