//! The theorems that growth rests on, as one, and that on last models.
ghost use Rattle.ct_sorts.specs.Declarations.{Declarations};
ghost use Rattle.ct_sorts.specs.Grown.{Extends};
ghost use Rattle.ct_eval.specs.EvaluationStep.{Theorems};
ghost use Rattle.ct_trial.specs.LastModel.{IsLastModel};
ghost use Rattle.ct_trial.specs.declared.last_model.LastModel.{LastModel};
ghost use Rattle.ct_trial.specs.Theorems.{GrowthTheorems};

use ct_eval::appended_nodes;
use ct_sorts::{growth, structure};
use ct_values::{agreement, fitting_graphs, longer_graphs, representative_nodes};

/// The theorems on values, representatives and graphs. It does nothing: a proof that needs them calls it.
pub(crate) fn growth_theorems()
    ensures steps { Theorems }
    ensures growth { GrowthTheorems }
{
    agreement();
    representative_nodes();
    fitting_graphs();
    longer_graphs();
    appended_nodes();
    structure();
}

/// The theorem on last models of declarations that grow. It does nothing: a proof that needs it calls it.
pub fn lasting_models()
    // A last model of declarations is one of later declarations.
    ensures later { (d later : Declarations) (model : LastModel) → Extends later d → IsLastModel d model → IsLastModel later model }
{
    growth();
}
