//! The rule of congruence, term by term: a term waits for a merge with each term that is like it and was met at its digest.
//! Terms that are congruent to themselves alone have none, and of wide terms nothing is copied.
ghost use Rattle.std.specs.Prelude.{◌≡◌, ◌<◌, ◌++◌, ℕ, true, false, length, IfOk, OnOk, OnErr, Some, slice_get, Contains};
ghost use Rattle.ct_sorts.specs.Declarations.{Declarations};
ghost use Rattle.ct_terms.specs.declared.ids.TermId.{TermId};
ghost use Rattle.ct_terms.specs.declared.term.Core.{Core};
ghost use Rattle.ct_terms.specs.Terms.{Has};
ghost use Rattle.ct_equivalence.specs.Over.{AreLone};
ghost use Rattle.ct_equivalence.specs.Digests.{AreDigests, digest};
ghost use Rattle.ct_congr.specs.declared.merge.Merge.{Merge};
ghost use Rattle.ct_congr.specs.Joined.{AreJoined, WaitsOn};
ghost use Rattle.ct_congr.specs.Covered.{Keys, AreKeys, IsRowOf, IsMatched, IsMet};
ghost use Rattle.ct_congr.specs.Meeting.{IsTried, IsSearched};

use crate::alike::are_alike;
use crate::error::CongrError;
use crate::lone::is_lone;
use crate::merge::{Merge, Reason};
use crate::waiting::let_wait;
use ct_equivalence::{DigestTable, digest_from};
use ct_terms::{TermId, TermTable};
use std::collections::VecDeque;

/// Meets the term: it waits for a merge with each term that is like it and was met at its digest, or is the first such one.
/// If it is marked as lone there is nothing to do.
pub(crate) fn meet(
    table: &TermTable,
    reps: &[TermId],
    lone: &[bool],
    digests: &[u64],
    t: TermId,
    keys: &mut DigestTable,
    waiting: &mut VecDeque<Merge>,
) -> Result<(), CongrError>
    requires long { length reps.now ≡ length table.now }
    requires lone { AreLone table.now lone.now }
    requires digests { AreDigests table.now reps.now digests.now }
    requires inside { t.0 < length table.now }
    requires keys { AreKeys reps.now keys.old }
    ensures more { OnOk result ((more : Keys) × (keys.new ≡ keys.old ++ more)) }
    ensures keys { OnOk result (AreKeys reps.now keys.new) }
    ensures stays { OnOk result ((u : TermId) (core : Core) → Has table.now core u.0
        → IsMet table.now reps.now keys.old (AreJoined reps.now waiting.old.items) u core
        → IsMet table.now reps.now keys.new (AreJoined reps.now waiting.new.items) u core) }
    ensures still { OnOk result ((m : Merge) → Contains waiting.old.items m → Contains waiting.new.items m) }
    ensures waits { OnOk result ((d : Declarations) → WaitsOn d table.now reps.now waiting.old.items waiting.new.items) }
    ensures met { OnOk result ((core : Core) → Has table.now core t.0 → IsMet table.now reps.now keys.new (AreJoined reps.now waiting.new.items) t core) }
    ensures unchanged { OnErr result (keys.new ≡ keys.old) }
{
    if is_lone(lone, t) {
        return Ok(());
    }
    match_signature(table, reps, digests, t, keys, waiting)?;
    Ok(())
}

// The same for a term that is not marked.
fn match_signature(
    table: &TermTable,
    reps: &[TermId],
    digests: &[u64],
    t: TermId,
    keys: &mut DigestTable,
    waiting: &mut VecDeque<Merge>,
) -> Result<(), CongrError>
    requires long { length reps.now ≡ length table.now }
    requires digests { AreDigests table.now reps.now digests.now }
    requires inside { t.0 < length table.now }
    requires keys { AreKeys reps.now keys.old }
    ensures more { OnOk result ((more : Keys) × (keys.new ≡ keys.old ++ more)) }
    ensures keys { OnOk result (AreKeys reps.now keys.new) }
    ensures stays { OnOk result ((u : TermId) (core : Core) → Has table.now core u.0
        → IsMet table.now reps.now keys.old (AreJoined reps.now waiting.old.items) u core
        → IsMet table.now reps.now keys.new (AreJoined reps.now waiting.new.items) u core) }
    ensures still { OnOk result ((m : Merge) → Contains waiting.old.items m → Contains waiting.new.items m) }
    ensures waits { OnOk result ((d : Declarations) → WaitsOn d table.now reps.now waiting.old.items waiting.new.items) }
    ensures met { OnOk result ((core : Core) → Has table.now core t.0 → IsMatched table.now reps.now keys.new (AreJoined reps.now waiting.new.items) t core) }
    ensures unchanged { OnErr result (keys.new ≡ keys.old) }
{
    let digest = digest_from(table.core(t), t, reps, digests);
    let found = match_rows(table, reps, t, digest, keys, waiting)?;
    if found {
        return Ok(());
    }
    keys.push(digest, t)?;
    Ok(())
}

// The term waits for a merge with each term that is like it and stands at the digest. The answer is whether there is any.
fn match_rows(
    table: &TermTable,
    reps: &[TermId],
    t: TermId,
    digest: u64,
    keys: &DigestTable,
    waiting: &mut VecDeque<Merge>,
) -> Result<bool, CongrError>
    requires long { length reps.now ≡ length table.now }
    requires inside { t.0 < length table.now }
    requires keys { AreKeys reps.now keys.now }
    ensures still { OnOk result ((m : Merge) → Contains waiting.old.items m → Contains waiting.new.items m) }
    ensures waits { OnOk result ((d : Declarations) → WaitsOn d table.now reps.now waiting.old.items waiting.new.items) }
    ensures searched { IfOk result (λ found. (core : Core) → Has table.now core t.0
        → IsSearched table.now reps.now keys.now digest (AreJoined reps.now waiting.new.items) t core 0 found) }
{
    let mut found = false;
    let mut end = keys.len();
    while let Some(row) = keys.last(digest, end) {
        let matched = match_row(table, reps, t, keys.term(row), waiting)?;
        found = found || matched;
        end = row;
    }
    Ok(found)
}

// The term waits for a merge with the other, if they are alike. The answer is whether they are.
fn match_row(
    table: &TermTable,
    reps: &[TermId],
    t: TermId,
    u: TermId,
    waiting: &mut VecDeque<Merge>,
) -> Result<bool, CongrError>
    requires long { length reps.now ≡ length table.now }
    requires inside { t.0 < length table.now }
    requires other { u.0 < length table.now }
    ensures still { OnOk result ((m : Merge) → Contains waiting.old.items m → Contains waiting.new.items m) }
    ensures waits { OnOk result ((d : Declarations) → WaitsOn d table.now reps.now waiting.old.items waiting.new.items) }
    ensures tried { IfOk result (λ alike. (core other : Core) → Has table.now core t.0 → Has table.now other u.0
        → IsTried reps.now (AreJoined reps.now waiting.new.items) t u core other alike) }
{
    if !are_alike(table, reps, t, u) {
        return Ok(false);
    }
    let_wait(reps, waiting, t, u, Reason::Cong(t, u))?;
    Ok(true)
}
