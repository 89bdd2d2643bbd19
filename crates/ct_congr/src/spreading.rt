//! What a union of two classes triggers.
ghost use Rattle.std.specs.Prelude.{◌≡◌, ◌<◌, ◌++◌, ◌∷◌, true, List, length, IfOk, OnOk, MatchBool, Some, None, slice_get, Contains};
ghost use Rattle.ct_terms.specs.declared.ids.TermId.{TermId};
ghost use Rattle.ct_terms.specs.declared.term.Core.{Core};
ghost use Rattle.ct_terms.specs.Children.{core_children};
ghost use Rattle.ct_terms.specs.Terms.{Has, AreSorted};
ghost use Rattle.ct_rules.specs.Rules.{truth_term};
ghost use Rattle.ct_equivalence.specs.Grouping.{Grouping};
ghost use Rattle.ct_equivalence.specs.Over.{AreLone, AreGroupingsOf};
ghost use Rattle.ct_equivalence.specs.Digests.{AreDigests};
ghost use Rattle.ct_equivalence.specs.Union.{IsJoin, IsTaken};
ghost use Rattle.ct_congr.specs.Partition.{InOneClass};
ghost use Rattle.ct_congr.specs.Joined.{AreJoined, WaitsOn};
ghost use Rattle.ct_congr.specs.Covered.{HasCon, IsGrouped, IsCoveredAt, Keys, AreKeys, IsMet};
ghost use Rattle.ct_congr.specs.Step.{IsDone, IsMovedDone, IsSpreading, IsLast, IsFollowed};

use crate::at_term::at_term;
use crate::error::CongrError;
use crate::meeting::meet;
use crate::merge::{Closed, Merge};
use crate::pairing::pair;
use crate::waiting::{TRUE, is_term};
use ct_equivalence::{DigestTable, Equivalence, Union};
use ct_sorts::Signature;
use ct_terms::{TermId, TermTable};
use std::alloc::Global;
use std::collections::VecDeque;

/// Lets wait what the last union asks for, if it put one class to another. The answer is a clash where the
/// two classes have terms of different constructors; then nothing is said of what waits.
pub(crate) fn follow(
    alloc: Global,
    sig: &Signature,
    table: &TermTable,
    parts: &Equivalence,
    united: Option<Union>,
    keys: &mut DigestTable,
    waiting: &mut VecDeque<Merge>,
) -> Result<Closed, CongrError>
    requires sorted { AreSorted sig.now table.now }
    requires groupings { AreGroupingsOf table.now parts.now }
    requires past { 0 < length parts.now.past }
    requires last { (was : Grouping) (earlier : List Grouping) → parts.now.past ≡ was ∷ earlier → IsLast was parts.now.now united }
    requires keys { AreKeys parts.now.now.reps keys.old }
    ensures more { (more : Keys) × (keys.new ≡ keys.old ++ more) }
    ensures keys { AreKeys parts.now.now.reps keys.new }
    ensures same { OnOk result (united ≡ None → keys.new ≡ keys.old) }
    ensures waits { OnOk result (WaitsOn sig.now table.now parts.now.now.reps waiting.old.items waiting.new.items) }
    ensures followed { IfOk result (λ answer. (was : Grouping) (earlier : List Grouping)
        → parts.now.past ≡ was ∷ earlier
        → IsFollowed sig.now table.now was parts.now.now keys.new (AreJoined parts.now.now.reps waiting.new.items) united answer) }
{
    match united {
        Some(union) => {
            let answer = spread(alloc, sig, table, parts, union, keys, waiting)?;
            Ok(answer)
        }
        None => Ok(Closed::Quiet),
    }
}

// The same for a union that did so.
fn spread(
    alloc: Global,
    sig: &Signature,
    table: &TermTable,
    parts: &Equivalence,
    union: Union,
    keys: &mut DigestTable,
    waiting: &mut VecDeque<Merge>,
) -> Result<Closed, CongrError>
    requires sorted { AreSorted sig.now table.now }
    requires groupings { AreGroupingsOf table.now parts.now }
    requires past { 0 < length parts.now.past }
    requires join { (was : Grouping) (earlier : List Grouping) → parts.now.past ≡ was ∷ earlier → IsJoin was parts.now.now union.winner union.loser }
    requires keys { AreKeys parts.now.now.reps keys.old }
    ensures more { (more : Keys) × (keys.new ≡ keys.old ++ more) }
    ensures keys { AreKeys parts.now.now.reps keys.new }
    ensures waits { OnOk result (WaitsOn sig.now table.now parts.now.now.reps waiting.old.items waiting.new.items) }
    ensures spread { IfOk result (λ answer. (was : Grouping) (earlier : List Grouping)
        → parts.now.past ≡ was ∷ earlier
        → IsSpreading sig.now table.now was parts.now.now union.winner union.loser keys.new (AreJoined parts.now.now.reps waiting.new.items) answer) }
{
    move_uses(alloc, sig, table, parts, union.loser, keys, waiting)?;
    let answer = meet_cons(alloc, sig, table, parts, union, waiting)?;
    Ok(answer)
}

// What is asked for at the terms right above the class that moved.
fn move_uses(
    alloc: Global,
    sig: &Signature,
    table: &TermTable,
    parts: &Equivalence,
    loser: TermId,
    keys: &mut DigestTable,
    waiting: &mut VecDeque<Merge>,
) -> Result<(), CongrError>
    requires sorted { AreSorted sig.now table.now }
    requires groupings { AreGroupingsOf table.now parts.now }
    requires past { 0 < length parts.now.past }
    requires taken { (was : Grouping) (earlier : List Grouping) → parts.now.past ≡ was ∷ earlier → IsTaken was parts.now.now loser }
    requires inside { loser.0 < length table.now }
    requires keys { AreKeys parts.now.now.reps keys.old }
    ensures more { (more : Keys) × (keys.new ≡ keys.old ++ more) }
    ensures keys { AreKeys parts.now.now.reps keys.new }
    ensures waits { OnOk result (WaitsOn sig.now table.now parts.now.now.reps waiting.old.items waiting.new.items) }
    ensures done { OnOk result ((was : Grouping) (earlier : List Grouping)
        → parts.now.past ≡ was ∷ earlier
        → IsMovedDone sig.now table.now was parts.now.now loser keys.new (AreJoined parts.now.now.reps waiting.new.items)) }
{
    let reps = parts.reps();
    let cons = parts.cons();
    let lone = parts.lone();
    let digests = parts.digests();
    let uses = parts.taken_uses(loser);
    move_terms(
        alloc, sig, table, reps, cons, lone, digests, uses, keys, waiting,
    )?;
    Ok(())
}

// What is asked for by the constructor terms of the two classes, beside that.
fn meet_cons(
    alloc: Global,
    sig: &Signature,
    table: &TermTable,
    parts: &Equivalence,
    union: Union,
    waiting: &mut VecDeque<Merge>,
) -> Result<Closed, CongrError>
    requires sorted { AreSorted sig.now table.now }
    requires groupings { AreGroupingsOf table.now parts.now }
    requires past { 0 < length parts.now.past }
    requires join { (was : Grouping) (earlier : List Grouping) → parts.now.past ≡ was ∷ earlier → IsJoin was parts.now.now union.winner union.loser }
    ensures waits { OnOk result (WaitsOn sig.now table.now parts.now.now.reps waiting.old.items waiting.new.items) }
    ensures met { IfOk result (λ answer. (was : Grouping) (earlier : List Grouping) (keys : Keys)
        → parts.now.past ≡ was ∷ earlier
        → IsMovedDone sig.now table.now was parts.now.now union.loser keys (AreJoined parts.now.now.reps waiting.old.items)
        → IsSpreading sig.now table.now was parts.now.now union.winner union.loser keys (AreJoined parts.now.now.reps waiting.new.items) answer) }
{
    prove!(parts.unions() > 0);
    let Some(con) = parts.con_of(union.winner) else {
        return Ok(Closed::Quiet);
    };
    if is_same(parts.taken_con(union.loser), con) {
        at_class(alloc, sig, table, parts, union.winner, con, waiting)?;
        return Ok(Closed::Quiet);
    }
    let answer = meet_taken(alloc, sig, table, parts, union, con, waiting)?;
    Ok(answer)
}

// The same where the first class had this constructor term before.
fn meet_taken(
    alloc: Global,
    sig: &Signature,
    table: &TermTable,
    parts: &Equivalence,
    union: Union,
    con: TermId,
    waiting: &mut VecDeque<Merge>,
) -> Result<Closed, CongrError>
    requires sorted { AreSorted sig.now table.now }
    requires groupings { AreGroupingsOf table.now parts.now }
    requires past { 0 < length parts.now.past }
    requires join { (was : Grouping) (earlier : List Grouping) → parts.now.past ≡ was ∷ earlier → IsJoin was parts.now.now union.winner union.loser }
    requires con { slice_get parts.now.now.cons union.winner.0 ≡ Some (Some con) }
    requires other { slice_get parts.now.now.cons union.loser.0 ≡ Some (Some con) → ⊥ }
    ensures waits { OnOk result (WaitsOn sig.now table.now parts.now.now.reps waiting.old.items waiting.new.items) }
    ensures met { IfOk result (λ answer. (was : Grouping) (earlier : List Grouping) (keys : Keys)
        → parts.now.past ≡ was ∷ earlier
        → IsMovedDone sig.now table.now was parts.now.now union.loser keys (AreJoined parts.now.now.reps waiting.old.items)
        → IsSpreading sig.now table.now was parts.now.now union.winner union.loser keys (AreJoined parts.now.now.reps waiting.new.items) answer) }
{
    prove!(parts.unions() > 0);
    at_taken(alloc, sig, table, parts, union.loser, con, waiting)?;
    let Some(taken) = parts.taken_con(union.loser) else {
        return Ok(Closed::Quiet);
    };
    let answer = pair(sig, table, parts.reps(), con, taken, waiting)?;
    Ok(answer)
}

// What is asked for where the class has a constructor term that it had not: at the terms right above it,
// and at its members, if it is `true`.
fn at_class(
    alloc: Global,
    sig: &Signature,
    table: &TermTable,
    parts: &Equivalence,
    winner: TermId,
    con: TermId,
    waiting: &mut VecDeque<Merge>,
) -> Result<(), CongrError>
    requires sorted { AreSorted sig.now table.now }
    requires groupings { AreGroupingsOf table.now parts.now }
    requires own { slice_get parts.now.now.reps winner.0 ≡ Some winner }
    ensures waits { OnOk result (WaitsOn sig.now table.now parts.now.now.reps waiting.old.items waiting.new.items) }
    ensures uses { OnOk result ((p u : TermId) (core : Core) → Has table.now core p.0 → Contains (core_children core) u → slice_get parts.now.now.reps u.0 ≡ Some winner
        → IsDone sig.now table.now parts.now.now (AreJoined parts.now.now.reps waiting.new.items) p) }
    ensures truths { OnOk result (con ≡ truth_term true → (t : TermId) → slice_get parts.now.now.reps t.0 ≡ Some winner
        → IsDone sig.now table.now parts.now.now (AreJoined parts.now.now.reps waiting.new.items) t) }
{
    let reps = parts.reps();
    let cons = parts.cons();
    let uses = parts.uses(winner);
    let class = parts.class(winner);
    at_terms(alloc, sig, table, reps, cons, uses, waiting)?;
    at_truths(alloc, sig, table, reps, cons, con, class, waiting)?;
    Ok(())
}

// What is asked for at the members of the class that moved, if they are `true` now.
fn at_taken(
    alloc: Global,
    sig: &Signature,
    table: &TermTable,
    parts: &Equivalence,
    loser: TermId,
    con: TermId,
    waiting: &mut VecDeque<Merge>,
) -> Result<(), CongrError>
    requires sorted { AreSorted sig.now table.now }
    requires groupings { AreGroupingsOf table.now parts.now }
    requires past { 0 < length parts.now.past }
    requires taken { (was : Grouping) (earlier : List Grouping) → parts.now.past ≡ was ∷ earlier → IsTaken was parts.now.now loser }
    requires inside { loser.0 < length table.now }
    ensures waits { OnOk result (WaitsOn sig.now table.now parts.now.now.reps waiting.old.items waiting.new.items) }
    ensures truths { OnOk result (con ≡ truth_term true → (was : Grouping) (earlier : List Grouping) → parts.now.past ≡ was ∷ earlier
        → (t : TermId) → slice_get was.reps t.0 ≡ Some loser
        → IsDone sig.now table.now parts.now.now (AreJoined parts.now.now.reps waiting.new.items) t) }
{
    let reps = parts.reps();
    let cons = parts.cons();
    let class = parts.taken_class(loser);
    at_truths(alloc, sig, table, reps, cons, con, class, waiting)?;
    Ok(())
}

// Whether the first is the second term.
fn is_same(first: Option<TermId>, second: TermId) -> bool
    ensures value { MatchBool result (first ≡ Some second) (first ≡ Some second → ⊥) }
{
    let Some(first) = first else {
        return false;
    };
    is_term(first, second)
}

// What the rules ask for that begin at the members of a class, where its constructor term is `true`.
fn at_truths(
    alloc: Global,
    sig: &Signature,
    table: &TermTable,
    reps: &[TermId],
    cons: &[Option<TermId>],
    con: TermId,
    members: &[TermId],
    waiting: &mut VecDeque<Merge>,
) -> Result<(), CongrError>
    requires sorted { AreSorted sig.now table.now }
    requires grouped { IsGrouped table.now reps.now cons.now }
    requires inside { (t : TermId) → Contains members.now t → t.0 < length table.now }
    ensures waits { OnOk result (WaitsOn sig.now table.now reps.now waiting.old.items waiting.new.items) }
    ensures covered { OnOk result (con ≡ truth_term true → (t : TermId) → Contains members.now t → IsCoveredAt sig.now table.now (InOneClass reps.now) (HasCon reps.now cons.now) (AreJoined reps.now waiting.new.items) t) }
{
    if !is_term(con, TRUE) {
        return Ok(());
    }
    at_terms(alloc, sig, table, reps, cons, members, waiting)?;
    Ok(())
}

// What the rules ask for that begin at the terms.
fn at_terms(
    alloc: Global,
    sig: &Signature,
    table: &TermTable,
    reps: &[TermId],
    cons: &[Option<TermId>],
    terms: &[TermId],
    waiting: &mut VecDeque<Merge>,
) -> Result<(), CongrError>
    requires sorted { AreSorted sig.now table.now }
    requires grouped { IsGrouped table.now reps.now cons.now }
    requires inside { (t : TermId) → Contains terms.now t → t.0 < length table.now }
    ensures waits { OnOk result (WaitsOn sig.now table.now reps.now waiting.old.items waiting.new.items) }
    ensures covered { OnOk result ((t : TermId) → Contains terms.now t → IsCoveredAt sig.now table.now (InOneClass reps.now) (HasCon reps.now cons.now) (AreJoined reps.now waiting.new.items) t) }
{
    for t in terms {
        at_term(alloc, sig, table, reps, cons, *t, waiting)?;
    }
    Ok(())
}

// The same for terms whose arguments have new representatives, and what congruence asks for.
fn move_terms(
    alloc: Global,
    sig: &Signature,
    table: &TermTable,
    reps: &[TermId],
    cons: &[Option<TermId>],
    lone: &[bool],
    digests: &[u64],
    terms: &[TermId],
    keys: &mut DigestTable,
    waiting: &mut VecDeque<Merge>,
) -> Result<(), CongrError>
    requires sorted { AreSorted sig.now table.now }
    requires grouped { IsGrouped table.now reps.now cons.now }
    requires lone { AreLone table.now lone.now }
    requires digests { AreDigests table.now reps.now digests.now }
    requires inside { (t : TermId) → Contains terms.now t → t.0 < length table.now }
    requires keys { AreKeys reps.now keys.old }
    ensures more { (more : Keys) × (keys.new ≡ keys.old ++ more) }
    ensures keys { AreKeys reps.now keys.new }
    ensures waits { OnOk result (WaitsOn sig.now table.now reps.now waiting.old.items waiting.new.items) }
    ensures covered { OnOk result ((t : TermId) → Contains terms.now t → IsCoveredAt sig.now table.now (InOneClass reps.now) (HasCon reps.now cons.now) (AreJoined reps.now waiting.new.items) t) }
    ensures met { OnOk result ((t : TermId) (core : Core) → Contains terms.now t → Has table.now core t.0 → IsMet table.now reps.now keys.new (AreJoined reps.now waiting.new.items) t core) }
{
    for t in terms {
        at_term(alloc, sig, table, reps, cons, *t, waiting)?;
        meet(table, reps, lone, digests, *t, keys, waiting)?;
    }
    Ok(())
}
