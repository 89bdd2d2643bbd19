//! Terms that are alike: they have one head, and arguments of the same classes.
ghost use Rattle.std.specs.Prelude.{◌≡◌, ◌<◌, ◌↔◌, Some, slice_get, length, IsTrue};
ghost use Rattle.std.specs.List.{AllZip};
ghost use Rattle.ct_terms.specs.declared.term.Core.{Core};
ghost use Rattle.ct_terms.specs.Children.{core_head, core_children};
ghost use Rattle.ct_terms.specs.Terms.{Has, HasArgumentsBelow};
ghost use Rattle.ct_congr.specs.Partition.{InOneClass};
ghost use Rattle.ct_congr.specs.Covered.{IsAlike};
ghost use Rattle.ct_congr.specs.Heads.{head_of};

use crate::needed::are_equal;
use ct_sorts::{CtorId, FunId, SelId};
use ct_terms::{Core, TermId, TermTable};

/// What a term is, without its arguments.
#[derive(Clone, Copy, Debug, PartialEq, Eq)]
pub(crate) enum Head {
    /// A constructor.
    Con(CtorId),
    /// A selector.
    Sel(SelId),
    /// A tester.
    Test(CtorId),
    /// A function.
    Apply(FunId),
    /// An equality.
    Eq,
    /// A negation.
    Not,
    /// A conjunction.
    And,
    /// A disjunction.
    Or,
    /// An equivalence.
    Iff,
    /// A choice.
    Ite,
}

/// Whether the terms are alike.
pub(crate) fn are_alike(table: &TermTable, reps: &[TermId], t: TermId, u: TermId) -> bool
    requires long { length reps.now ≡ length table.now }
    requires inside { t.0 < length table.now }
    requires other { u.0 < length table.now }
    ensures value { (core other : Core) → Has table.now core t.0 → Has table.now other u.0 → IsTrue result ↔ IsAlike reps.now core other }
{
    let left = table.core(t);
    if t == u {
        return true;
    }
    are_cores_alike(left, table.core(u), reps)
}

// The same for what stands at the terms.
fn are_cores_alike(left: &Core, right: &Core, reps: &[TermId]) -> bool
    requires left { HasArgumentsBelow (length reps.now) left.now }
    requires right { HasArgumentsBelow (length reps.now) right.now }
    ensures value { IsTrue result ↔ IsAlike reps.now left.now right.now }
{
    if read_head(left) != read_head(right) {
        return false;
    }
    are_arguments_alike(left, right, reps)
}

// The head of a term.
fn read_head(core: &Core) -> Head
    ensures value { result ≡ head_of (core_head core.now) }
{
    match core {
        Core::Con(c, _) => Head::Con(*c),
        Core::Sel(s, _) => Head::Sel(*s),
        Core::Test(c, _) => Head::Test(*c),
        Core::Apply(f, _) => Head::Apply(*f),
        Core::Eq(_, _) => Head::Eq,
        Core::Not(_) => Head::Not,
        Core::And(_) => Head::And,
        Core::Or(_) => Head::Or,
        Core::Iff(_, _) => Head::Iff,
        Core::Ite(_, _, _) => Head::Ite,
    }
}

// Whether the arguments are of the same classes, one for one.
fn are_arguments_alike(left: &Core, right: &Core, reps: &[TermId]) -> bool
    requires left { HasArgumentsBelow (length reps.now) left.now }
    requires right { HasArgumentsBelow (length reps.now) right.now }
    ensures value { IsTrue result ↔ AllZip (InOneClass reps.now) (core_children left.now) (core_children right.now) }
{
    let count = arguments(left);
    if count != arguments(right) {
        return false;
    }
    for place in 0..count {
        if !are_equal(reps, argument(left, place), argument(right, place)) {
            return false;
        }
    }
    true
}

// How many arguments the term has.
fn arguments(core: &Core) -> usize
    ensures value { result ≡ length (core_children core.now) }
{
    match core {
        Core::Con(_, args) => args.as_slice().len(),
        Core::Sel(_, _) => 1,
        Core::Test(_, _) => 1,
        Core::Apply(_, args) => args.as_slice().len(),
        Core::Eq(_, _) => 2,
        Core::Not(_) => 1,
        Core::And(args) => args.as_slice().len(),
        Core::Or(args) => args.as_slice().len(),
        Core::Iff(_, _) => 2,
        Core::Ite(_, _, _) => 3,
    }
}

// The argument at a place.
fn argument(core: &Core, place: usize) -> TermId
    requires within { place < length (core_children core.now) }
    ensures value { slice_get (core_children core.now) place ≡ Some result }
{
    match core {
        Core::Con(_, args) => at(args.as_slice(), place),
        Core::Sel(_, t) => at(&[*t], place),
        Core::Test(_, t) => at(&[*t], place),
        Core::Apply(_, args) => at(args.as_slice(), place),
        Core::Eq(a, b) => at(&[*a, *b], place),
        Core::Not(t) => at(&[*t], place),
        Core::And(args) => at(args.as_slice(), place),
        Core::Or(args) => at(args.as_slice(), place),
        Core::Iff(a, b) => at(&[*a, *b], place),
        Core::Ite(c, a, b) => at(&[*c, *a, *b], place),
    }
}

// The term at a place of these.
fn at(terms: &[TermId], place: usize) -> TermId
    requires within { place < length terms.now }
    ensures value { slice_get terms.now place ≡ Some result }
{
    terms[place]
}
