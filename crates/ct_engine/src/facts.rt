//! The theorems of lower crates on which the contracts of this one rest.
ghost use Rattle.ct_engine.specs.Theorems.{UnitTheorems, GrowthTheorems, TreeTheorems, ClassTheorems, ClosureTheorems, ModelTheorems, ValueTheorems};

use ct_checker::accepted_lines;
use ct_closure::closed_tables;
use ct_congr::classes_of_merges;
use ct_eval::{congruence, evaluation, values_of_trees};
use ct_sat::what_follows_by_units;
use ct_terms::core_trees;
use ct_values::{agreement, fitting_graphs};

/// The theorems on what follows by units.
pub(crate) fn units()
    ensures units { UnitTheorems }
{
    what_follows_by_units();
}

/// The theorems on what follows as clauses and decisions are added.
pub(crate) fn growth()
    ensures growth { GrowthTheorems }
{
    what_follows_by_units();
}

/// The theorems on terms as trees.
pub(crate) fn trees()
    ensures trees { TreeTheorems }
{
    core_trees();
}

/// The theorems on classes.
pub(crate) fn classes()
    ensures classes { ClassTheorems }
{
    classes_of_merges();
}

/// The theorems on closed tables.
pub(crate) fn closures()
    ensures closures { ClosureTheorems }
{
    closed_tables();
}

/// The theorems on models.
pub(crate) fn models()
    ensures models { ModelTheorems }
{
    accepted_lines();
    values_of_trees();
}

/// The theorems on values.
pub(crate) fn values()
    ensures values { ValueTheorems }
{
    agreement();
    congruence();
    evaluation();
    fitting_graphs();
}
