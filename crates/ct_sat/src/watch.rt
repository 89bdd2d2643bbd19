//! The watched literals of one clause, and the lists of the clauses that watch a literal.
ghost use Rattle.std.specs.Prelude.{◌≡◌, ℕ, ◌≤◌, length, Some, slice_get};
ghost use Rattle.ct_terms.specs.declared.ids.Lit.{Lit};
ghost use Rattle.ct_sat.specs.Watches.{code_of, IsWatch, IsRelinked};

use ct_terms::Lit;

/// The two watched literals of a clause, with the clause that comes after it in the list of each. Where both are one
/// literal the clause is not watched.
#[derive(Clone, Copy, Debug, PartialEq, Eq)]
pub(crate) struct Watch {
    /// One of them.
    pub(crate) one: Lit,
    /// The other.
    pub(crate) other: Lit,
    /// The clause after this one in the list of the one.
    pub(crate) after_one: usize,
    /// The clause after this one in the list of the other.
    pub(crate) after_other: usize,
}

/// The clauses that watch a literal: the first of them, and how many there are.
#[derive(Clone, Copy, Debug, PartialEq, Eq)]
pub(crate) struct WatchList {
    /// The index of the first clause.
    pub(crate) first: usize,
    /// How many clauses there are.
    pub(crate) count: usize,
}

/// The number of the literal's list.
pub(crate) fn code(l: Lit) -> usize
    ensures value { result ≡ code_of l }
{
    let twice = l.term.0 as usize + l.term.0 as usize;
    if l.positive { twice + 1 } else { twice }
}

/// The literal that is watched beside this one, and the clause after it in the list of this one.
pub(crate) fn beside(w: Watch, l: Lit) -> (Lit, usize)
    requires watched { (m : Lit) × (n : ℕ) × IsWatch w l m n }
    ensures watched { IsWatch w l result.0 result.1 }
{
    if w.one == l {
        (w.other, w.after_one)
    } else {
        (w.one, w.after_other)
    }
}

/// The watches where `to` is watched in place of `from`, with this clause after it in the list of `to`.
pub(crate) fn relinked(w: Watch, from: Lit, to: Lit, next: usize) -> Watch
    requires watched { (m : Lit) × (n : ℕ) × IsWatch w from m n }
    ensures after { IsRelinked w result from to next }
{
    if w.one == from {
        Watch {
            one: to,
            after_one: next,
            other: w.other,
            after_other: w.after_other,
        }
    } else {
        Watch {
            one: w.one,
            after_one: w.after_one,
            other: to,
            after_other: next,
        }
    }
}
