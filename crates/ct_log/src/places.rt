//! The places of assertions, as far as they were visited.
ghost use Rattle.std.specs.Prelude.{◌≡◌, ◌<◌, ◌+◌, ◌↔◌, Contains, Some, IsTrue, slice_get};
ghost use Rattle.std.specs.Bool.{OnTrue};

use ct_terms::TermId;
use std::alloc::{AllocError, Global};

/// For each term the index at which it was met among the assertions. Each assertion is gone over once, in whatever order
/// they are asked for. All memory is taken when it is made.
#[derive(Drop)]
pub(crate) struct Places {
    places: Vec<usize>,
    // How many assertions were gone over.
    met: usize,
}

impl Places {
    /// No assertion was met yet, of terms whose numbers are below this one.
    pub(crate) fn new(alloc: Global, terms: u32) -> Result<Places, AllocError> {
        Ok(Places {
            places: vec![in alloc; 0; terms as usize]?,
            met: 0,
        })
    }

    /// Whether the term is one of these assertions.
    pub(crate) fn is_found(&mut self, asserts: &[TermId], t: TermId) -> bool
        ensures found { IsTrue result ↔ Contains asserts.now t }
    {
        if is_at_its_place(self.places.as_slice(), asserts, t) || self.is_met(asserts, t) {
            return true;
        }
        is_among(asserts, t)
    }

    // Goes over the assertions that were not met so far, up to the term: whether it is among them.
    fn is_met(&mut self, asserts: &[TermId], t: TermId) -> bool
        ensures among { OnTrue result (Contains asserts.now t) }
    {
        while self.met < asserts.len() {
            let place = self.met;
            self.meet(asserts[place]);
            if stands_at(asserts, place, t) {
                return true;
            }
        }
        false
    }

    // Notes that the next assertion is this term.
    fn meet(&mut self, t: TermId)
        requires more { self.old.met < 18446744073709551615 }
        ensures met { self.new.met ≡ self.old.met + 1 }
    {
        let index = t.0 as usize;
        if index < self.places.len() {
            self.places[index] = self.met;
        }
        self.met += 1;
    }
}

// Whether the term stands where it was met.
fn is_at_its_place(places: &[usize], asserts: &[TermId], t: TermId) -> bool
    ensures among { OnTrue result (Contains asserts.now t) }
{
    let index = t.0 as usize;
    if index >= places.len() {
        return false;
    }
    stands_at(asserts, places[index], t)
}

// Whether the term is the one at this index.
fn stands_at(asserts: &[TermId], index: usize, t: TermId) -> bool
    ensures stands { OnTrue result (slice_get asserts.now index ≡ Some t) }
{
    match asserts.get(index) {
        Some(u) => *u == t,
        None => false,
    }
}

// Whether the term is one of these.
fn is_among(terms: &[TermId], t: TermId) -> bool
    ensures among { IsTrue result ↔ Contains terms.now t }
{
    for u in terms {
        if *u == t {
            return true;
        }
    }
    false
}
