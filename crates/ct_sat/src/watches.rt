//! The watched literals of all clauses, with a list for each literal.
ghost use Rattle.std.specs.Prelude.{◌≡◌, ℕ, ◌+◌, ◌<◌, ◌≤◌, [], ◌∷◌, ◌++◌, length, set, replicate, Some, slice_get, IfOk};
ghost use Rattle.ct_terms.specs.declared.ids.Lit.{Lit};
ghost use Rattle.ct_sat.specs.declared.watch.Watch.{Watch};
ghost use Rattle.ct_sat.specs.declared.watch.WatchList.{WatchList};
ghost use Rattle.ct_sat.specs.Watches.{code_of, empty_list, IsWatch, Relinks};
ghost use Rattle.ct_sat.specs.Watching.{AreTwoOf};

use crate::choose::another;
use crate::watch::{Watch, WatchList, code, relinked};
use ct_terms::{Lit, TermId};
use std::alloc::{AllocError, Global};

/// The watches of each clause, and the list of each literal by its number.
#[derive(Drop)]
pub(crate) struct Watches {
    pub(crate) of_clauses: Vec<Watch>,
    pub(crate) lists: Vec<WatchList>,
}

/// No clause yet, for terms whose numbers are below this one.
pub(crate) fn no_watches(alloc: Global, terms: u32) -> Result<Watches, AllocError>
    ensures of_clauses { IfOk result (λ w. w.of_clauses.items ≡ []) }
    ensures lists { IfOk result (λ w. w.lists.items ≡ replicate (terms + terms) empty_list) }
{
    let empty = WatchList { first: 0, count: 0 };
    let both = terms as usize + terms as usize;
    Ok(Watches {
        of_clauses: Vec::new(alloc),
        lists: vec![in alloc; empty; both]?,
    })
}

/// Two different literals of the clause; where there are none, one literal twice.
pub(crate) fn two_of(clause: &[Lit]) -> (Lit, Lit)
    ensures two { AreTwoOf clause.now result.0 result.1 }
{
    if clause.is_empty() {
        let none = Lit {
            term: TermId(0),
            positive: false,
        };
        return (none, none);
    }
    let first = clause[0];
    match another(clause, first) {
        Some(other) => (first, other),
        None => (first, first),
    }
}

/// Puts a clause at the front of the list of one literal, which it watches in place of another.
pub(crate) fn link(watches: &mut Watches, clause: usize, from: Lit, to: Lit)
    requires within { code_of to < length watches.old.lists.items }
    requires watched { (w : Watch) × (m : Lit) × (n : ℕ) × (slice_get watches.old.of_clauses.items clause ≡ Some w) × IsWatch w from m n }
    requires room { (listed : WatchList) → slice_get watches.old.lists.items (code_of to) ≡ Some listed → listed.count ≤ length watches.old.of_clauses.items }
    ensures linked { Relinks watches.old.of_clauses.items watches.old.lists.items clause from to watches.new.of_clauses.items watches.new.lists.items }
{
    let number = code(to);
    let list = watches.lists[number];
    let before = watches.of_clauses[clause];
    watches.of_clauses[clause] = relinked(before, from, to, list.first);
    watches.lists[number] = WatchList {
        first: clause,
        count: list.count + 1,
    };
}

/// Takes the whole list of a literal away.
pub(crate) fn take_list(watches: &mut Watches, l: Lit) -> WatchList
    requires within { code_of l < length watches.old.lists.items }
    ensures taken { slice_get watches.old.lists.items (code_of l) ≡ Some result }
    ensures of_clauses { watches.new.of_clauses.items ≡ watches.old.of_clauses.items }
    ensures lists { watches.new.lists.items ≡ set watches.old.lists.items (code_of l) empty_list }
{
    let number = code(l);
    let list = watches.lists[number];
    watches.lists[number] = WatchList { first: 0, count: 0 };
    list
}
