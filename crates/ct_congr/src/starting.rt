//! The classes of a table before any merge: each term alone, and what the rules ask for then.
ghost use Rattle.std.specs.Prelude.{◌≡◌, ◌<◌, true, [], List, length, IfOk, OnOk};
ghost use Rattle.ct_sorts.specs.Declarations.{Declarations};
ghost use Rattle.ct_terms.specs.declared.ids.TermId.{TermId};
ghost use Rattle.ct_terms.specs.declared.ids.Lit.{Lit};
ghost use Rattle.ct_terms.specs.declared.term.Core.{Core};
ghost use Rattle.ct_terms.specs.Terms.{Has, AreSorted};
ghost use Rattle.ct_rules.specs.declared.equation.Equation.{Equation};
ghost use Rattle.ct_equivalence.specs.Over.{AreLone, AreGroupingsOf};
ghost use Rattle.ct_equivalence.specs.Digests.{AreDigests};
ghost use Rattle.ct_congr.specs.Partition.{InOneClass};
ghost use Rattle.ct_congr.specs.Rules.{IsSingular, AreSingleSorts};
ghost use Rattle.ct_congr.specs.Sound.{IsSound};
ghost use Rattle.ct_congr.specs.Joined.{AreJoined, AreWaiting, WaitsOn};
ghost use Rattle.ct_congr.specs.Covered.{HasCon, IsGrouped, IsCoveredAt, AreKeys, IsMet, IsCovered};

use crate::adding::Progress;
use crate::at_term::at_term;
use crate::error::CongrError;
use crate::lone::lone_terms;
use crate::meeting::meet;
use crate::merge::{Merge, Reason};
use crate::singles::first_of_sort;
use crate::store::Store;
use crate::waiting::let_wait;
use ct_equivalence::{DigestTable, Equivalence};
use ct_sorts::Signature;
use ct_terms::{TermId, TermTable};
use std::alloc::Global;
use std::collections::VecDeque;

/// Each term of the table alone in its class, and the merges that the rules ask for.
pub(crate) fn start(
    alloc: Global,
    sig: &Signature,
    table: &TermTable,
    single: &[bool],
) -> Result<Progress, CongrError>
    requires sorted { AreSorted sig.now table.now }
    requires single { AreSingleSorts sig.now single.now }
    ensures groupings { IfOk result (λ progress. AreGroupingsOf table.now progress.store.parts) }
    ensures past { IfOk result (λ progress. progress.store.parts.past ≡ []) }
    ensures merges { IfOk result (λ progress. progress.store.merges.items ≡ []) }
    ensures keys { IfOk result (λ progress. AreKeys progress.store.parts.now.reps progress.keys) }
    ensures waits { IfOk result (λ progress. AreWaiting sig.now table.now progress.store.parts.now.reps progress.waiting.items) }
    ensures sound { IfOk result (λ progress. (hyps : List Lit) (given : List Equation) → IsSound sig.now table.now hyps given progress.store.parts.now.reps progress.store.parts.now.cons progress.store.merges.items) }
    ensures fast { IfOk result (λ progress. progress.covered ≡ true) }
    ensures covered { IfOk result (λ progress. IsCovered sig.now table.now progress.store.parts.now.reps progress.store.parts.now.cons progress.keys (AreJoined progress.store.parts.now.reps progress.waiting.items)) }
{
    prove!(table.len() >= 2);
    let lone = lone_terms(alloc, table)?;
    let parts = Equivalence::new(alloc, table, lone)?;
    let mut keys = DigestTable::new(alloc, table.len())?;
    let mut waiting = VecDeque::new(alloc);
    begin_terms(
        alloc,
        sig,
        table,
        parts.reps(),
        parts.cons(),
        parts.lone(),
        parts.digests(),
        &mut keys,
        &mut waiting,
    )?;
    begin_singles(alloc, table, single, parts.reps(), &mut waiting)?;
    let store = Store {
        parts,
        merges: Vec::new(alloc),
    };
    Ok(Progress {
        store,
        keys,
        waiting,
        covered: true,
        clash: None,
    })
}

// Meets all terms, and lets wait what the rules ask for that begin at them.
fn begin_terms(
    alloc: Global,
    sig: &Signature,
    table: &TermTable,
    reps: &[TermId],
    cons: &[Option<TermId>],
    lone: &[bool],
    digests: &[u64],
    keys: &mut DigestTable,
    waiting: &mut VecDeque<Merge>,
) -> Result<(), CongrError>
    requires sorted { AreSorted sig.now table.now }
    requires grouped { IsGrouped table.now reps.now cons.now }
    requires lone { AreLone table.now lone.now }
    requires digests { AreDigests table.now reps.now digests.now }
    requires keys { AreKeys reps.now keys.old }
    ensures keys { OnOk result (AreKeys reps.now keys.new) }
    ensures waits { OnOk result (WaitsOn sig.now table.now reps.now waiting.old.items waiting.new.items) }
    ensures covered { OnOk result ((t : TermId) → t.0 < length table.now → IsCoveredAt sig.now table.now (InOneClass reps.now) (HasCon reps.now cons.now) (AreJoined reps.now waiting.new.items) t) }
    ensures met { OnOk result ((t : TermId) (core : Core) → Has table.now core t.0 → IsMet table.now reps.now keys.new (AreJoined reps.now waiting.new.items) t core) }
{
    for t in 0..table.len() {
        let t = TermId(t);
        at_term(alloc, sig, table, reps, cons, t, waiting)?;
        meet(table, reps, lone, digests, t, keys, waiting)?;
    }
    Ok(())
}

// Lets each term of a sort with one value wait for a merge with the first one.
fn begin_singles(
    alloc: Global,
    table: &TermTable,
    single: &[bool],
    reps: &[TermId],
    waiting: &mut VecDeque<Merge>,
) -> Result<(), CongrError>
    requires long { length reps.now ≡ length table.now }
    ensures waits { OnOk result ((d : Declarations) → AreSingleSorts d single.now → WaitsOn d table.now reps.now waiting.old.items waiting.new.items) }
    ensures joined { OnOk result ((d : Declarations) → AreSingleSorts d single.now → IsSingular d table.now (AreJoined reps.now waiting.new.items)) }
{
    let mut firsts = vec![in alloc; None; single.len()]?;
    for t in 0..table.len() {
        let t = TermId(t);
        let first = first_of_sort(single, &mut firsts, table.sort(t), t);
        let_wait(reps, waiting, t, first, Reason::Single)?;
    }
    Ok(())
}
