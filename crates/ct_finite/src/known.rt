//! Which sorts are listable, with the number of values of each: a sort is known once the sorts of all of its fields are.
//!
//! `spread` counts for each sort how many fields are left whose sorts are not known, so that the sort is looked at once: the
//! time is linear in the declarations (Dowling and Gallier 1984). That nothing more is listable is what the last plain round
//! over all sorts shows; after `spread` there is hardly more than one.
ghost use Rattle.std.specs.Prelude.{◌≡◌, ℕ, ◌<◌, ◌||◌, length, IfOk, OnOk, IsTrue};
ghost use Rattle.std.specs.Bool.{OnFalse};
ghost use Rattle.ct_sorts.specs.Declarations.{IsSort};
ghost use Rattle.ct_sorts.specs.declared.ids.SortId.{SortId};
ghost use Rattle.ct_terms.specs.Fields.{ctor_ids_of_sort};
ghost use Rattle.ct_finite.specs.Counts.{count_at, AreCounts};
ghost use Rattle.ct_finite.specs.Counting.{AreReady, IsComplete, IsUnderWay, missing};

use crate::count::count_of_sort;
use crate::error::FiniteError;
use ct_listing::listed_values;
use ct_sorts::{SelId, Signature, SortId};
use std::alloc::Global;

/// The counts of all sorts.
pub(crate) fn known_counts(alloc: Global, sig: &Signature) -> Result<Vec<u64>, FiniteError>
    ensures counts { IfOk result (λ counts. AreCounts sig.now counts.items) }
{
    listed_values();
    let mut counts = vec![in alloc; 0; sig.sorts() as usize]?;
    spread(alloc, sig, &mut counts)?;
    while round(sig, &mut counts) {}
    Ok(counts)
}

// One round over all sorts. Whether one became known.
fn round(sig: &Signature, counts: &mut Vec<u64>) -> bool
    requires under_way { IsUnderWay sig.now counts.old.items }
    ensures under_way { IsUnderWay sig.now counts.new.items }
    ensures fewer { IsTrue result → missing counts.new.items < missing counts.old.items }
    ensures complete { OnFalse result (IsComplete sig.now counts.new.items) }
{
    let mut more = false;
    for s in 0..sig.sorts() {
        let now = learn(sig, counts, SortId(s));
        more = either(more, now);
    }
    more
}

// Whether one of the two holds.
fn either(first: bool, second: bool) -> bool
    ensures value { result ≡ (first || second) }
{
    first || second
}

// Notes the count of the sort where it is not known and those of its fields' sorts are. Whether it was noted.
fn learn(sig: &Signature, counts: &mut Vec<u64>, s: SortId) -> bool
    requires inside { IsSort sig.now s }
    requires under_way { IsUnderWay sig.now counts.old.items }
    ensures under_way { IsUnderWay sig.now counts.new.items }
    ensures fewer { IsTrue result → missing counts.new.items < missing counts.old.items }
    ensures same { OnFalse result (counts.new.items ≡ counts.old.items) }
    ensures ready { OnFalse result (0 < length (ctor_ids_of_sort sig.now s) → AreReady sig.now counts.old.items (ctor_ids_of_sort sig.now s) → 0 < count_at counts.old.items s) }
{
    listed_values();
    prove!(sig.sorts() > 0);
    if counts[s.0 as usize] > 0 {
        return false;
    }
    let count = count_of_sort(sig, counts, s);
    if count == 0 {
        return false;
    }
    counts[s.0 as usize] = count;
    true
}

// Notes counts one after the other, each once the counts of all fields' sorts are known. All of this is for speed: what is noted
// is noted by `learn`.
fn spread(alloc: Global, sig: &Signature, counts: &mut Vec<u64>) -> Result<(), FiniteError>
    requires under_way { IsUnderWay sig.now counts.old.items }
    ensures under_way { OnOk result (IsUnderWay sig.now counts.new.items) }
{
    let users = users_of(alloc, sig)?;
    let mut left = field_counts(alloc, sig)?;
    let mut queue = Vec::new(alloc);
    for s in 0..sig.sorts() {
        if learn(sig, counts, SortId(s)) {
            queue.push(s)?;
        }
    }
    for i in 0..sig.sorts() as usize {
        if i >= queue.len() {
            break;
        }
        tell(sig, row_of(&users, queue[i]), &mut left, counts, &mut queue)?;
    }
    Ok(())
}

// The count of a sort was noted that fields of these sorts have: those that have nothing else left are looked at.
fn tell(
    sig: &Signature,
    users: &[u32],
    left: &mut Vec<u32>,
    counts: &mut Vec<u64>,
    queue: &mut Vec<u32>,
) -> Result<(), FiniteError>
    requires under_way { IsUnderWay sig.now counts.old.items }
    ensures under_way { OnOk result (IsUnderWay sig.now counts.new.items) }
{
    for s in users {
        look_at(sig, left, counts, queue, *s)?;
    }
    Ok(())
}

// One field less is left of the sort: where that was the last, its count is noted.
fn look_at(
    sig: &Signature,
    left: &mut Vec<u32>,
    counts: &mut Vec<u64>,
    queue: &mut Vec<u32>,
    s: u32,
) -> Result<(), FiniteError>
    requires under_way { IsUnderWay sig.now counts.old.items }
    ensures under_way { OnOk result (IsUnderWay sig.now counts.new.items) }
{
    if s >= sig.sorts() {
        return Ok(());
    }
    if !is_last(left, s as usize) {
        return Ok(());
    }
    if learn(sig, counts, SortId(s)) {
        queue.push(s)?;
    }
    Ok(())
}

// One field less is left of this sort. Whether that was the last.
fn is_last(left: &mut Vec<u32>, s: usize) -> bool {
    if s >= left.len() || left[s] == 0 {
        return false;
    }
    left[s] -= 1;
    left[s] == 0
}

// The row of this number.
fn row_of(rows: &[Vec<u32>], n: u32) -> &[u32] {
    if (n as usize) < rows.len() {
        return rows[n as usize].as_slice();
    }
    &[]
}

// For each sort the sorts that have fields of it, as often as they have them.
fn users_of(alloc: Global, sig: &Signature) -> Result<Vec<Vec<u32>>, FiniteError> {
    let mut users = Vec::with_capacity(alloc, sig.sorts() as usize)?;
    for _ in 0..sig.sorts() {
        users.push(Vec::new(alloc))?;
    }
    for i in 0..sig.mark().sels() {
        let field = sig.sel_sort(SelId(i)).0 as usize;
        if field < users.len() {
            users[field].push(sig.ctor_sort(sig.sel_ctor(SelId(i))).0)?;
        }
    }
    Ok(users)
}

// For each sort how many fields it has.
fn field_counts(alloc: Global, sig: &Signature) -> Result<Vec<u32>, FiniteError> {
    let mut fields = vec![in alloc; 0; sig.sorts() as usize]?;
    for i in 0..sig.mark().sels() {
        let owner = sig.ctor_sort(sig.sel_ctor(SelId(i))).0 as usize;
        if owner < fields.len() && fields[owner] <= i {
            fields[owner] += 1;
        }
    }
    Ok(fields)
}
