//! The facts on which the steps rest: theorems on terms as trees, and what holds of every table.
ghost use Rattle.std.specs.Prelude.{◌≤◌, length};
ghost use Rattle.ct_sorts.specs.Consistent.{IsConsistent};
ghost use Rattle.ct_sorts.specs.Structure.{HaveOwnConstructors, AreOfTheirSorts, HaveOwnSelectors};
ghost use Rattle.ct_terms.specs.Terms.{AreSorted, BeginsWithTruths};
ghost use Rattle.ct_closure.specs.Steps.{IsSound};
ghost use Rattle.ct_closure.specs.Trees.{TreeTheorems};

use ct_sorts::{Signature, structure};
use ct_terms::{TermTable, core_trees};

/// The theorems on trees of terms.
pub(crate) fn trees()
    ensures trees { TreeTheorems }
{
    core_trees();
}

/// What holds of the declarations of every signature.
pub(crate) fn declared(sig: &Signature)
    ensures consistent { IsConsistent sig.now }
    ensures own_constructors { HaveOwnConstructors sig.now }
    ensures own_selectors { HaveOwnSelectors sig.now }
    ensures of_their_sorts { AreOfTheirSorts sig.now }
    ensures some { 1 ≤ length sig.now.sorts }
{
    structure();
    prove!(sig.sorts() > 0);
}

/// Each table begins with `true` and `false`.
pub(crate) fn begins(table: &TermTable)
    ensures begins { BeginsWithTruths table.now }
{
    let _len = table.len();
}

/// What holds of every table that is well sorted.
pub(crate) fn sound(sig: &Signature, table: &TermTable)
    requires sorted { AreSorted sig.now table.now }
    ensures sound { IsSound sig.now table.now }
{
    let _len = table.len();
}
