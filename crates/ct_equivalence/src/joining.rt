//! Rows, representatives and constructor terms of two classes that are joined.
ghost use Rattle.std.specs.Prelude.{◌≡◌, ◌<◌, ◌++◌, length, set, None, IfOk, OnOk, OnErr, slice_get, Contains, if◌then◌else◌};
ghost use Rattle.ct_terms.specs.declared.ids.TermId.{TermId};
ghost use Rattle.ct_equivalence.specs.Union.{AreConsJoined};
ghost use Rattle.ct_equivalence.specs.Undoing.{relabelled, row_of};
ghost use Rattle.ct_equivalence.specs.Digests.{AreDigests, ArePlaces};
ghost use Rattle.ct_terms.specs.Terms.{Terms};

use crate::digests::exchange;
use crate::error::EquivalenceError;
use crate::places::Places;
use crate::rows::Rows;
use ct_terms::TermId;

/// Puts the second row to the end of the first, in both. The answer is how long the first was in each. An error
/// changes nothing.
pub(crate) fn join_rows(
    members: &mut Rows,
    uses: &mut Rows,
    winner: TermId,
    loser: TermId,
) -> Result<(usize, usize), EquivalenceError>
    requires winner { winner.0 < length members.old }
    requires loser { loser.0 < length members.old }
    requires long { length uses.old ≡ length members.old }
    requires apart { winner ≡ loser → ⊥ }
    ensures members { OnOk result (members.new ≡ set members.old winner.0 (row_of members.old winner ++ row_of members.old loser)) }
    ensures uses { OnOk result (uses.new ≡ set uses.old winner.0 (row_of uses.old winner ++ row_of uses.old loser)) }
    ensures lengths { IfOk result (λ lengths. (lengths.0 ≡ length (row_of members.old winner)) × (lengths.1 ≡ length (row_of uses.old winner))) }
    ensures members_unchanged { OnErr result (members.new ≡ members.old) }
    ensures uses_unchanged { OnErr result (uses.new ≡ uses.old) }
{
    let lengths = (members.row(winner).len(), uses.row(winner).len());
    members.append(winner, loser)?;
    if uses.append(winner, loser).is_err() {
        members.cut(winner, lengths.0);
        return Err(EquivalenceError);
    }
    Ok(lengths)
}

/// Gives all these terms this representative, and exchanges its shares in the digests.
pub(crate) fn relabel(
    reps: &mut Vec<TermId>,
    digests: &mut Vec<u64>,
    places: &Places,
    terms: &[TermId],
    rep: TermId,
)
    requires inside { (t : TermId) → Contains terms.now t → t.0 < length reps.old.items }
    ensures value { reps.new.items ≡ relabelled reps.old.items terms.now rep }
    ensures digests { (table : Terms) → ArePlaces table places.now
        → AreDigests table reps.old.items digests.old.items
        → AreDigests table reps.new.items digests.new.items }
{
    for t in terms {
        give(reps, digests, places, *t, rep);
    }
}

// The same for one term.
fn give(reps: &mut Vec<TermId>, digests: &mut Vec<u64>, places: &Places, t: TermId, rep: TermId)
    requires inside { t.0 < length reps.old.items }
    ensures value { reps.new.items ≡ set reps.old.items t.0 rep }
    ensures digests { (table : Terms) → ArePlaces table places.now
        → AreDigests table reps.old.items digests.old.items
        → AreDigests table reps.new.items digests.new.items }
{
    exchange(digests, places.row(t), reps[t.0 as usize], rep);
    reps[t.0 as usize] = rep;
}

/// Where the first has no constructor term, it gets that of the second. The answer is whether it got one.
pub(crate) fn gain(cons: &mut Vec<Option<TermId>>, winner: TermId, loser: TermId) -> bool
    requires winner { winner.0 < length cons.old.items }
    requires loser { loser.0 < length cons.old.items }
    ensures joined { AreConsJoined cons.old.items cons.new.items winner loser }
    ensures undone { (if result then set cons.new.items winner.0 None else cons.new.items) ≡ cons.old.items }
{
    if cons[winner.0 as usize].is_some() {
        return false;
    }
    cons[winner.0 as usize] = cons[loser.0 as usize];
    true
}

/// Where the representative got its constructor term, it has none again.
pub(crate) fn lose(cons: &mut Vec<Option<TermId>>, winner: TermId, gained: bool)
    requires winner { winner.0 < length cons.old.items }
    ensures value { cons.new.items ≡ (if gained then set cons.old.items winner.0 None else cons.old.items) }
{
    if gained {
        cons[winner.0 as usize] = None;
    }
}
