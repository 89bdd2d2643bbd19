//! Digests of terms over representatives.
ghost use Rattle.std.specs.Prelude.{◌≡◌, ◌<◌, [], ◌∷◌, length, IfOk, Some, slice_get};
ghost use Rattle.std.specs.List.{AllByRecursion};
ghost use Rattle.ct_terms.specs.declared.term.Core.{Core};
ghost use Rattle.ct_terms.specs.Terms.{Has, HasArgumentsBelow};
ghost use Rattle.ct_equivalence.specs.Digests.{share, rep_of, shares, kind_number, digest, IsWide, AreDigests, AreExchanged};
ghost use Rattle.ct_equivalence.specs.declared.places.Place.{Place};

use crate::error::EquivalenceError;
use crate::places::{Place, wide_arguments};
use ct_terms::{Core, TermId, TermTable};
use std::alloc::Global;

// Odd numbers without a pattern.
const FIRST: u64 = 0xd6e8_feb8_6659_fd93;

const SECOND: u64 = 0x9e37_79b9_7f4a_7c15;

// The share of a representative at a place.
#[tactic(auto, unfolding(crate::specs::Digests::share))]
fn share(place: usize, rep: TermId) -> u64
    ensures value { result ≡ share place rep }
{
    let first = (place as u64)
        .wrapping_mul(FIRST)
        .wrapping_add(rep.0 as u64 + 1);
    let second = first.wrapping_mul(SECOND);
    (second ^ (second >> 32)).wrapping_mul(SECOND)
}

// The shares of the terms, from the first place on.
fn shares(reps: &[TermId], terms: &[TermId]) -> u64
    requires inside { AllByRecursion (λ t. t.0 < length reps.now) terms.now }
    ensures value { result ≡ shares reps.now 0 terms.now }
{
    let mut sum: u64 = 0;
    for place in 0..terms.len() {
        sum ^= share(place, reps[terms[place].0 as usize]);
    }
    sum
}

/// The digest of the term over the representatives.
pub(crate) fn digest(core: &Core, reps: &[TermId]) -> u64
    requires inside { HasArgumentsBelow (length reps.now) core.now }
    ensures value { result ≡ digest reps.now core.now }
{
    match core {
        Core::Con(c, args) => kind_number(0, c.0) ^ shares(reps, args.as_slice()),
        Core::Sel(s, t) => kind_number(1, s.0) ^ shares(reps, &[*t]),
        Core::Test(c, t) => kind_number(2, c.0) ^ shares(reps, &[*t]),
        Core::Apply(f, args) => kind_number(3, f.0) ^ shares(reps, args.as_slice()),
        Core::Eq(a, b) => 4 ^ shares(reps, &[*a, *b]),
        Core::Not(t) => 5 ^ shares(reps, &[*t]),
        Core::And(args) => 6 ^ shares(reps, args.as_slice()),
        Core::Or(args) => 7 ^ shares(reps, args.as_slice()),
        Core::Iff(a, b) => 8 ^ shares(reps, &[*a, *b]),
        Core::Ite(c, a, b) => 9 ^ shares(reps, &[*c, *a, *b]),
    }
}

// A kind of terms with its symbol.
fn kind_number(kind: u64, symbol: u32) -> u64
    requires few { kind < 16 }
    ensures value { result ≡ kind_number kind symbol }
{
    symbol as u64 * 16 + kind
}

/// The digest of each wide term of the table at its number.
pub(crate) fn wide_digests(
    alloc: Global,
    table: &TermTable,
    reps: &[TermId],
) -> Result<Vec<u64>, EquivalenceError>
    requires long { length reps.now ≡ length table.now }
    ensures digests { IfOk result (λ digests. AreDigests table.now reps.now digests.items) }
{
    let mut digests = Vec::with_capacity(alloc, table.len() as usize)?;
    for t in 0..table.len() {
        digests.push(wide_digest(table.core(TermId(t)), reps))?;
    }
    Ok(digests)
}

// The digest of the term, if it is wide.
fn wide_digest(core: &Core, reps: &[TermId]) -> u64
    requires inside { HasArgumentsBelow (length reps.now) core.now }
    ensures value { IsWide core.now → result ≡ digest reps.now core.now }
{
    match wide_arguments(core) {
        Some(_) => digest(core, reps),
        None => 0,
    }
}

/// The digest of the term, from those of wide terms.
pub fn digest_from(core: &Core, t: TermId, reps: &[TermId], digests: &[u64]) -> u64
    requires inside { HasArgumentsBelow (length reps.now) core.now }
    requires kept { IsWide core.now → slice_get digests.now t.0 ≡ Some (digest reps.now core.now) }
    ensures value { result ≡ digest reps.now core.now }
{
    match wide_arguments(core) {
        Some(_) => digests[t.0 as usize],
        None => digest(core, reps),
    }
}

/// Exchanges the shares of one representative for those of another at the places.
pub(crate) fn exchange(digests: &mut Vec<u64>, places: &[Place], old: TermId, new: TermId)
    ensures exchanged { AreExchanged old new places.now digests.old.items digests.new.items }
{
    let mut rest = places;
    while let [place, others @ ..] = rest {
        exchange_one(digests, *place, old, new);
        rest = others;
    }
}

// The same at one place.
fn exchange_one(digests: &mut Vec<u64>, place: Place, old: TermId, new: TermId)
    ensures exchanged { AreExchanged old new (place ∷ []) digests.old.items digests.new.items }
{
    let at = place.term.0 as usize;
    if at < digests.len() {
        digests[at] ^= share(place.index, old) ^ share(place.index, new);
    }
}
