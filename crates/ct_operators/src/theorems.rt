//! The theorems on terms and formulas on which compilation rests.
ghost use Rattle.ct_operators.specs.Theorems.{Theorems};

use ct_formulas::formulas;
use ct_listing::listed_values;
use ct_terms::core_trees;

/// The theorems, as one. The function does nothing.
pub fn term_theorems()
    ensures hold { Theorems }
{
    core_trees();
    formulas();
    listed_values();
}
