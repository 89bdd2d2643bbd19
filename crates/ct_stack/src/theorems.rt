//! The theorems on terms, formulas and declarations on which a session rests.
ghost use Rattle.ct_stack.specs.Theorems.{Theorems};

use ct_formulas::{formulas, scopes};
use ct_generics::additions;
use ct_sorts::growth;
use ct_terms::{core_trees, one_lasting_sort};

/// The theorems, as one. The function does nothing.
pub(crate) fn stack_theorems()
    ensures hold { Theorems }
{
    additions();
    growth();
    core_trees();
    formulas();
    scopes();
    one_lasting_sort();
}
