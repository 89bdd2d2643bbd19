//! The theorems of lower crates on which the contracts of this one rest.
ghost use Rattle.ct_engine.specs.Theorems.{ModelTheorems};

use ct_checker::accepted_lines;
use ct_eval::values_of_trees;

/// The theorems on derivations of the empty clause, and on values of terms as trees.
pub(crate) fn models()
    ensures models { ModelTheorems }
{
    accepted_lines();
    values_of_trees();
}
