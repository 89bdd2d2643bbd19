//! Which case of a `match` is certain to match: each other constructor of its sort has an earlier case. How many variables a
//! case binds.
ghost use Rattle.std.specs.Prelude.{◌≡◌, ◌<◌, ◌||◌, ◌==◌, length, reverse};
ghost use Rattle.std.specs.List.{list_all};
ghost use Rattle.ct_formulas.specs.Compiled.{surely_fits, is_among};
ghost use Rattle.ct_formulas.specs.Occurrence.{field_count};
ghost use Rattle.ct_occurrence.specs.Marks.{pattern_variable_count};
ghost use Rattle.ct_occurrence.specs.Matching.{IsPatternDeclared};

use crate::earlier::Earlier;
use ct_formulas::Pattern;
use ct_sorts::{CtorId, Signature};

/// Whether a case of the constructor fits all that the cases before it, of the constructors `earlier` in order, do not.
///
/// Takes about constant time where the cases are of fewer constructors than the sort has, and else at most a look-up for each
/// constructor of the sort: over a whole `match` of one sort, in which no case follows one that surely fits, these are made once.
pub(crate) fn surely_fits(sig: &Signature, earlier: &Earlier, c: CtorId) -> bool
    requires declared { c.0 < length sig.now.ctors }
    ensures value { result ≡ surely_fits sig.now (reverse earlier.now) c }
{
    // This says that no constructor stands twice among those of a sort.
    sig.sorts();
    let all = sig.ctors(sig.ctor_sort(c));
    if earlier.distinct_with(c) < all.len() {
        return false;
    }
    are_covered(earlier, c, all)
}

// Whether each of the constructors is this one, or has a case before it.
fn are_covered(earlier: &Earlier, c: CtorId, all: &[CtorId]) -> bool
    ensures value { result ≡ list_all (λ k. (k.0 == c.0) || is_among (reverse earlier.now) k) all.now }
{
    let mut rest = all;
    while let [next, others @ ..] = rest {
        if !is_covered(earlier, c, *next) {
            return false;
        }
        rest = others;
    }
    true
}

// Whether another constructor is this one, or has a case before it.
fn is_covered(earlier: &Earlier, c: CtorId, other: CtorId) -> bool
    ensures value { result ≡ ((other.0 == c.0) || is_among (reverse earlier.now) other) }
{
    if other.0 == c.0 {
        return true;
    }
    earlier.has(other)
}

/// How many variables a pattern binds.
pub(crate) fn variable_count(sig: &Signature, pattern: Pattern) -> usize
    requires declared { IsPatternDeclared sig.now pattern }
    ensures count { result ≡ pattern_variable_count sig.now pattern }
{
    match pattern {
        Pattern::Any => 1,
        Pattern::Ctor(c) => field_count(sig, c),
    }
}

// How many fields a constructor has.
fn field_count(sig: &Signature, c: CtorId) -> usize
    requires declared { c.0 < length sig.now.ctors }
    ensures count { result ≡ field_count sig.now c }
{
    sig.ctor_sels(c).len()
}
