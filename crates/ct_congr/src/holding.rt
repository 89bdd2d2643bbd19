//! Merges from outside: what the hypotheses state, and given equations.
ghost use Rattle.std.specs.Prelude.{◌≡◌, ◌<◌, ◌++◌, ◌∷◌, ◌↔◌, [], List, Bool, true, length, Some, None, IfOk, OnOk, OnErr, Contains};
ghost use Rattle.std.specs.Bool.{OnTrue};
ghost use Rattle.ct_terms.specs.declared.ids.TermId.{TermId};
ghost use Rattle.ct_terms.specs.declared.ids.Lit.{Lit};
ghost use Rattle.ct_terms.specs.Literal.{IsStripped};
ghost use Rattle.ct_terms.specs.Terms.{AreSorted};
ghost use Rattle.ct_rules.specs.declared.equation.Equation.{Equation};
ghost use Rattle.ct_rules.specs.Derivation.{States, Derives, IsHypothesis};
ghost use Rattle.ct_equivalence.specs.Grouping.{Grouping};
ghost use Rattle.ct_equivalence.specs.Over.{AreGroupingsOf};
ghost use Rattle.ct_congr.specs.declared.merge.Merge.{Merge};
ghost use Rattle.ct_congr.specs.declared.merge.Closed.TheVariants.{Quiet};
ghost use Rattle.ct_congr.specs.declared.merge.Reason.TheVariants.{Hyp};
ghost use Rattle.ct_congr.specs.Partition.{InOneClass};
ghost use Rattle.ct_congr.specs.Reasons.{IsReason, IsJustified};
ghost use Rattle.ct_congr.specs.Rules.{AreSingleSorts};
ghost use Rattle.ct_congr.specs.Sound.{IsJoined, IsSound};
ghost use Rattle.ct_congr.specs.Held.{AreHeld};
ghost use Rattle.ct_congr.specs.Outside.{IsOutsideOf, hypotheses_with, given_with};
ghost use Rattle.ct_congr.specs.Joined.{AreJoined, WaitsOn};
ghost use Rattle.ct_congr.specs.Covered.{Keys, AreKeys};
ghost use Rattle.ct_congr.specs.Step.{IsLast, IsFollowed};
ghost use Rattle.ct_congr.specs.History.{IsFurther};
ghost use Rattle.ct_congr.specs.Kept.{IsKept};

use crate::adding::Progress;
use crate::clash::note;
use crate::error::CongrError;
use crate::merge::{Merge, Reason};
use crate::rules::truth;
use crate::running::is_quiet;
use crate::spreading::follow;
use crate::starting::start;
use crate::store::join;
use ct_equivalence::{DigestTable, Equivalence, Union};
use ct_rules::{Equation, derivations};
use ct_sorts::Signature;
use ct_terms::{Lit, TermId, TermTable};
use std::alloc::Global;
use std::collections::VecDeque;

/// The classes of the terms of the table in which the hypotheses hold.
pub(crate) fn hypothetical(
    alloc: Global,
    sig: &Signature,
    table: &TermTable,
    single: &[bool],
    hyps: &[Lit],
) -> Result<Progress, CongrError>
    requires sorted { AreSorted sig.now table.now }
    requires single { AreSingleSorts sig.now single.now }
    requires stripped { (l : Lit) → Contains hyps.now l → IsStripped table.now l.term }
    ensures kept { IfOk result (λ progress. IsKept sig.now table.now progress.store.parts progress.keys progress.waiting.items progress.covered) }
    ensures held { IfOk result (λ progress. AreHeld sig.now table.now single.now hyps.now [] progress.store.parts.now.reps progress.store.parts.now.cons progress.store.merges.items) }
    ensures long { IfOk result (λ progress. length progress.store.parts.past ≡ length progress.store.merges.items) }
{
    let mut progress = start(alloc, sig, table, single)?;
    assume(alloc, sig, table, &mut progress, hyps)?;
    Ok(progress)
}

// Merges what the hypotheses state.
fn assume(
    alloc: Global,
    sig: &Signature,
    table: &TermTable,
    progress: &mut Progress,
    hyps: &[Lit],
) -> Result<(), CongrError>
    requires sorted { AreSorted sig.now table.now }
    requires stripped { (l : Lit) → Contains hyps.now l → IsStripped table.now l.term }
    requires kept { IsKept sig.now table.now progress.old.store.parts progress.old.keys progress.old.waiting.items progress.old.covered }
    ensures kept { OnOk result (IsKept sig.now table.now progress.new.store.parts progress.new.keys progress.new.waiting.items progress.new.covered) }
    ensures sound { OnOk result ((given : List Equation)
        → IsSound sig.now table.now hyps.now given progress.old.store.parts.now.reps progress.old.store.parts.now.cons progress.old.store.merges.items
        → IsSound sig.now table.now hyps.now given progress.new.store.parts.now.reps progress.new.store.parts.now.cons progress.new.store.merges.items) }
    ensures states { OnOk result ((x y : TermId) → IsHypothesis hyps.now x y → InOneClass progress.new.store.parts.now.reps x y) }
    ensures long { OnOk result (length progress.old.store.parts.past ≡ length progress.old.store.merges.items
        → length progress.new.store.parts.past ≡ length progress.new.store.merges.items) }
{
    derivations();
    prove!(table.len() >= 2);
    for l in hyps {
        let merge = Merge {
            left: l.term,
            right: truth(l.positive),
            why: Reason::Hyp(*l),
        };
        put(alloc, sig, table, progress, merge)?;
    }
    Ok(())
}

/// Makes the classes of the two sides one. A literal that states the equation is put to the hypotheses, and
/// any other equation to those that are given. An error changes nothing.
pub(crate) fn merge_outside(
    alloc: Global,
    sig: &Signature,
    table: &TermTable,
    hyps: &mut Vec<Lit>,
    given: &mut Vec<Equation>,
    progress: &mut Progress,
    merge: Merge,
) -> Result<(), CongrError>
    requires sorted { AreSorted sig.now table.now }
    requires kept { IsKept sig.now table.now progress.old.store.parts progress.old.keys progress.old.waiting.items progress.old.covered }
    requires left { merge.left.0 < length table.now }
    requires right { merge.right.0 < length table.now }
    ensures kept { IsKept sig.now table.now progress.new.store.parts progress.new.keys progress.new.waiting.items progress.new.covered }
    ensures further { IsFurther table.now progress.old.store.parts progress.new.store.parts progress.old.store.merges.items progress.new.store.merges.items progress.old.keys progress.new.keys }
    ensures held { (single : List Bool)
        → AreHeld sig.now table.now single hyps.old.items given.old.items progress.old.store.parts.now.reps progress.old.store.parts.now.cons progress.old.store.merges.items
        → IsOutsideOf sig.now table.now hyps.old.items (InOneClass progress.old.store.parts.now.reps) merge.left merge.right merge.why
        → AreHeld sig.now table.now single hyps.new.items given.new.items progress.new.store.parts.now.reps progress.new.store.parts.now.cons progress.new.store.merges.items }
    ensures hypotheses { OnOk result (hyps.new.items ≡ hypotheses_with hyps.old.items merge.why) }
    ensures given { OnOk result (given.new.items ≡ given_with given.old.items merge.left merge.right merge.why) }
    ensures merges { OnOk result (progress.new.store.merges.items ≡ progress.old.store.merges.items ++ merge ∷ []) }
    ensures more_hypotheses { (more : List Lit) × (hyps.new.items ≡ hyps.old.items ++ more) }
    ensures more_given { (more : List Equation) × (given.new.items ≡ given.old.items ++ more) }
{
    let Some(l) = stated(&merge.why) else {
        give(alloc, sig, table, given, progress, merge)?;
        return Ok(());
    };
    suppose(alloc, sig, table, hyps, progress, l, merge)?;
    Ok(())
}

// The literal that is the reason.
fn stated(why: &Reason) -> Option<Lit>
    ensures value { (l : Lit) → (result ≡ Some l) ↔ (why.now ≡ Hyp l) }
{
    match why {
        Reason::Hyp(l) => Some(*l),
        _ => None,
    }
}

// Merges what the literal states, and puts it to the hypotheses. An error changes nothing.
fn suppose(
    alloc: Global,
    sig: &Signature,
    table: &TermTable,
    hyps: &mut Vec<Lit>,
    progress: &mut Progress,
    l: Lit,
    merge: Merge,
) -> Result<(), CongrError>
    requires sorted { AreSorted sig.now table.now }
    requires kept { IsKept sig.now table.now progress.old.store.parts progress.old.keys progress.old.waiting.items progress.old.covered }
    requires left { merge.left.0 < length table.now }
    requires right { merge.right.0 < length table.now }
    ensures kept { IsKept sig.now table.now progress.new.store.parts progress.new.keys progress.new.waiting.items progress.new.covered }
    ensures further { IsFurther table.now progress.old.store.parts progress.new.store.parts progress.old.store.merges.items progress.new.store.merges.items progress.old.keys progress.new.keys }
    ensures held { (single : List Bool) (given : List Equation)
        → AreHeld sig.now table.now single hyps.old.items given progress.old.store.parts.now.reps progress.old.store.parts.now.cons progress.old.store.merges.items
        → merge.why ≡ Hyp l
        → IsStripped table.now l.term
        → States l merge.left merge.right
        → AreHeld sig.now table.now single hyps.new.items given progress.new.store.parts.now.reps progress.new.store.parts.now.cons progress.new.store.merges.items }
    ensures hypotheses { OnOk result (hyps.new.items ≡ hyps.old.items ++ l ∷ []) }
    ensures merges { OnOk result (progress.new.store.merges.items ≡ progress.old.store.merges.items ++ merge ∷ []) }
    ensures unchanged { OnErr result (hyps.new.items ≡ hyps.old.items) }
{
    derivations();
    hyps.reserve(1)?;
    put(alloc, sig, table, progress, merge)?;
    hyps.push(l).unwrap();
    Ok(())
}

// Merges the two terms for a reason that holds, and puts the equation to those that are given. An error
// changes nothing.
fn give(
    alloc: Global,
    sig: &Signature,
    table: &TermTable,
    given: &mut Vec<Equation>,
    progress: &mut Progress,
    merge: Merge,
) -> Result<(), CongrError>
    requires sorted { AreSorted sig.now table.now }
    requires kept { IsKept sig.now table.now progress.old.store.parts progress.old.keys progress.old.waiting.items progress.old.covered }
    requires left { merge.left.0 < length table.now }
    requires right { merge.right.0 < length table.now }
    ensures kept { IsKept sig.now table.now progress.new.store.parts progress.new.keys progress.new.waiting.items progress.new.covered }
    ensures further { IsFurther table.now progress.old.store.parts progress.new.store.parts progress.old.store.merges.items progress.new.store.merges.items progress.old.keys progress.new.keys }
    ensures held { (single : List Bool) (hyps : List Lit)
        → AreHeld sig.now table.now single hyps given.old.items progress.old.store.parts.now.reps progress.old.store.parts.now.cons progress.old.store.merges.items
        → IsReason sig.now table.now hyps (InOneClass progress.old.store.parts.now.reps) merge.left merge.right merge.why
        → AreHeld sig.now table.now single hyps given.new.items progress.new.store.parts.now.reps progress.new.store.parts.now.cons progress.new.store.merges.items }
    ensures given { OnOk result (given.new.items ≡ given.old.items ++ (record { left = merge.left; right = merge.right }) ∷ []) }
    ensures merges { OnOk result (progress.new.store.merges.items ≡ progress.old.store.merges.items ++ merge ∷ []) }
    ensures unchanged { OnErr result (given.new.items ≡ given.old.items) }
{
    derivations();
    let equation = Equation {
        left: merge.left,
        right: merge.right,
    };
    given.reserve(1)?;
    put(alloc, sig, table, progress, merge)?;
    given.push(equation).unwrap();
    Ok(())
}

// Adds a merge. As long as the merges that wait cover the rules, what it sets off waits then. An error
// changes nothing.
fn put(
    alloc: Global,
    sig: &Signature,
    table: &TermTable,
    progress: &mut Progress,
    merge: Merge,
) -> Result<(), CongrError>
    requires sorted { AreSorted sig.now table.now }
    requires kept { IsKept sig.now table.now progress.old.store.parts progress.old.keys progress.old.waiting.items progress.old.covered }
    requires left { merge.left.0 < length table.now }
    requires right { merge.right.0 < length table.now }
    ensures kept { IsKept sig.now table.now progress.new.store.parts progress.new.keys progress.new.waiting.items progress.new.covered }
    ensures further { IsFurther table.now progress.old.store.parts progress.new.store.parts progress.old.store.merges.items progress.new.store.merges.items progress.old.keys progress.new.keys }
    ensures sound { OnOk result ((hyps : List Lit) (given : List Equation)
        → IsJustified sig.now table.now hyps (InOneClass progress.old.store.parts.now.reps) merge
        → Derives sig.now table.now hyps given merge.left merge.right
        → IsSound sig.now table.now hyps given progress.old.store.parts.now.reps progress.old.store.parts.now.cons progress.old.store.merges.items
        → IsSound sig.now table.now hyps given progress.new.store.parts.now.reps progress.new.store.parts.now.cons progress.new.store.merges.items) }
    ensures merges { OnOk result (progress.new.store.merges.items ≡ progress.old.store.merges.items ++ merge ∷ []) }
    ensures joined { OnOk result (IsJoined progress.old.store.parts.now.reps progress.new.store.parts.now.reps merge.left merge.right) }
    ensures parts_unchanged { OnErr result (progress.new.store.parts ≡ progress.old.store.parts) }
    ensures merges_unchanged { OnErr result (progress.new.store.merges.items ≡ progress.old.store.merges.items) }
{
    prove!(progress.store.parts.unions() >= 0);
    let united = join(&mut progress.store, merge)?;
    progress.covered = pursue(
        alloc,
        sig,
        table,
        &progress.store.parts,
        progress.covered,
        united,
        &mut progress.keys,
        &mut progress.waiting,
        &mut progress.clash,
    );
    Ok(())
}

// Lets wait what the last union asks for, where the rules were covered before it. The answer says whether
// they are covered now: they are not where two constructors met, which is noted, or memory ran out.
fn pursue(
    alloc: Global,
    sig: &Signature,
    table: &TermTable,
    parts: &Equivalence,
    fast: bool,
    united: Option<Union>,
    keys: &mut DigestTable,
    waiting: &mut VecDeque<Merge>,
    clash: &mut Option<(TermId, TermId)>,
) -> bool
    requires sorted { AreSorted sig.now table.now }
    requires groupings { AreGroupingsOf table.now parts.now }
    requires past { 0 < length parts.now.past }
    requires last { (was : Grouping) (earlier : List Grouping) → parts.now.past ≡ was ∷ earlier → IsLast was parts.now.now united }
    requires keys { AreKeys parts.now.now.reps keys.old }
    ensures more { (more : Keys) × (keys.new ≡ keys.old ++ more) }
    ensures keys { AreKeys parts.now.now.reps keys.new }
    ensures fast { OnTrue result (fast ≡ true) }
    ensures same { OnTrue result (united ≡ None → keys.new ≡ keys.old) }
    ensures waits { OnTrue result (WaitsOn sig.now table.now parts.now.now.reps waiting.old.items waiting.new.items) }
    ensures followed { OnTrue result ((was : Grouping) (earlier : List Grouping)
        → parts.now.past ≡ was ∷ earlier
        → IsFollowed sig.now table.now was parts.now.now keys.new (AreJoined parts.now.now.reps waiting.new.items) united Quiet) }
{
    if !fast {
        return false;
    }
    match follow(alloc, sig, table, parts, united, keys, waiting) {
        Ok(answer) => {
            note(clash, answer);
            is_quiet(answer)
        }
        Err(_) => false,
    }
}
