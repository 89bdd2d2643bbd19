//! Marks on literals. Each literal has the number of the round in which it was last marked, so that a new round begins
//! without clearing anything.
ghost use Rattle.std.specs.Prelude.{◌≡◌, ◌↔◌, ◌<◌, ◌≤◌, ◌+◌, ◌*◌, [], ◌∷◌, ◌++◌, List, length, All, Some, slice_get, Contains, IfOk, IsTrue};
ghost use Rattle.ct_terms.specs.declared.ids.Lit.{Lit};
ghost use Rattle.ct_log.specs.Marks.{Marking, stamp_index, IsMarked, AreMarked};

use ct_terms::Lit;
use std::alloc::{AllocError, Global};
use std::marker::Model;

/// A set of literals. All its memory is taken when it is made.
#[derive(Drop)]
pub(crate) struct Marks {
    stamps: Vec<u64>,
    round: u64,
    // The marked literals that are over no term of the table. A line that is accepted has none.
    others: Vec<Lit>,
}

impl Model for Marks {
    ghost use Rattle.std.specs.Prelude.{◌≤◌, All, vec_capacity};
    ghost use Rattle.ct_log.specs.Marks.{Marking};

    ghost Value = { Marking };

    ghost view = { λ m. record { stamps = m.stamps.items; round = m.round; others = m.others.items; room = vec_capacity m.others } };

    ghost invariant = { λ m. All (λ s. s ≤ m.round) m.stamps.items };
}

impl Marks {
    /// No literal is marked yet, of terms whose numbers are below this one. So many may be marked that are of no such term.
    pub(crate) fn new(alloc: Global, terms: u32, others: usize) -> Result<Marks, AllocError>
        ensures stamps { IfOk result (λ m. length m.stamps ≡ terms * 2) }
        ensures room { IfOk result (λ m. m.room ≡ others) }
    {
        let stamps = vec![in alloc; 0; terms as usize * 2]?;
        Ok(Marks {
            stamps,
            round: 0,
            others: Vec::with_capacity(alloc, others)?,
        })
    }

    /// Begins a new round: no literal is marked.
    pub(crate) fn clear(&mut self)
        ensures none { AreMarked self.new [] }
        ensures stamps { length self.new.stamps ≡ length self.old.stamps }
        ensures others { self.new.others ≡ [] }
        ensures room { self.new.room ≡ self.old.room }
    {
        self.round = next_round(&mut self.stamps, self.round);
        self.others.truncate(0);
    }

    /// Whether the literal is marked.
    pub(crate) fn has(&self, l: Lit) -> bool
        ensures marked { IsTrue result ↔ IsMarked self.now l }
    {
        if is_stamped(self.stamps.as_slice(), index_of(l), self.round) {
            return true;
        }
        is_among(self.others.as_slice(), l)
    }

    /// Marks the literal.
    pub(crate) fn mark(&mut self, l: Lit)
        requires room { length self.old.stamps ≤ stamp_index l → length self.old.others < self.old.room }
        ensures marked { (set : List Lit) → AreMarked self.old set → AreMarked self.new (set ++ l ∷ []) }
        ensures stamps { length self.new.stamps ≡ length self.old.stamps }
        ensures others { length self.new.others ≤ length self.old.others + 1 }
        ensures within { stamp_index l < length self.old.stamps → self.new.others ≡ self.old.others }
        ensures room { self.new.room ≡ self.old.room }
    {
        let index = index_of(l);
        if index < self.stamps.len() {
            self.stamps[index] = self.round;
            return;
        }
        self.others.push_reserved(l);
    }
}

// Where the stamp of the literal stands.
fn index_of(l: Lit) -> usize
    ensures value { result ≡ stamp_index l }
{
    let first = l.term.0 as usize * 2;
    if l.positive {
        return first + 1;
    }
    first
}

// Whether the literal is one of these.
fn is_among(literals: &[Lit], l: Lit) -> bool
    ensures among { IsTrue result ↔ Contains literals.now l }
{
    for k in literals {
        if *k == l {
            return true;
        }
    }
    false
}

// Whether this stamp is of the round.
fn is_stamped(stamps: &[u64], index: usize, round: u64) -> bool
    ensures stamped { IsTrue result ↔ (slice_get stamps.now index ≡ Some round) }
{
    index < stamps.len() && stamps[index] == round
}

// The number of the next round, of which there is no stamp. After the last number it begins again.
fn next_round(stamps: &mut Vec<u64>, round: u64) -> u64
    requires before { All (λ s. s ≤ round) stamps.old.items }
    ensures after { All (λ s. s < result) stamps.new.items }
    ensures long { length stamps.new.items ≡ length stamps.old.items }
{
    if round == u64::MAX {
        restart(stamps);
        return 1;
    }
    round + 1
}

// Sets all stamps to 0.
fn restart(stamps: &mut Vec<u64>)
    ensures zero { All (λ s. s ≤ 0) stamps.new.items }
    ensures long { length stamps.new.items ≡ length stamps.old.items }
{
    for i in 0..stamps.len() {
        stamps[i] = 0;
    }
}
