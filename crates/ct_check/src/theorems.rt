//! What follows from the definition of elaboration.
ghost use Rattle.std.specs.Prelude.{◌≡◌, List, [], map, length, All, Ok};
ghost use Rattle.ct_sexpr.specs.Expression.{Expression};
ghost use Rattle.ct_sorts.specs.declared.ids.SortId.{SortId};
ghost use Rattle.ct_sorts.specs.Consistent.{IsConsistent};
ghost use Rattle.ct_sorts.specs.Declarations.{Declarations, IsSort};
ghost use Rattle.ct_formulas.specs.Formula.{Formula, MentionsBelow, bind};
ghost use Rattle.ct_formulas.specs.FormulaSorts.{IsSorted};
ghost use Rattle.ct_names.specs.declared.variables.Param.{Param};
ghost use Rattle.ct_names.specs.Bounds.{parameter_variables};
ghost use Rattle.ct_names.specs.Elaboration.{elaborated};
ghost use Rattle.ct_names.specs.Variables.{Variable, variable_sorts};

use ct_formulas::formulas;
use ct_sorts::{shapes, structure};

/// Theorems on elaborated formulas. The function does nothing.
///
/// Over consistent declarations the formula of an expression is well sorted where its variables have
/// their sorts, and so it names declared definitions alone.
pub fn elaboration()
    ensures sorted { (d : Declarations) (scope : List Variable) (e : Expression) (t : Formula)
        (sort : SortId)
        → IsConsistent d
        → All (IsSort d) (variable_sorts scope)
        → elaborated d scope e ≡ Ok (t, sort)
        → IsSorted d (variable_sorts scope) t sort }
    ensures mentions { (d : Declarations) (scope : List Variable) (e : Expression) (t : Formula)
        (sort : SortId)
        → IsConsistent d
        → All (IsSort d) (variable_sorts scope)
        → elaborated d scope e ≡ Ok (t, sort)
        → MentionsBelow (length d.definitions) t }

    // The formula of an expression under parameters, and of one without variables.
    ensures body { (d : Declarations) (params : List Param) (e : Expression) (t : Formula)
        (sort : SortId)
        → IsConsistent d
        → All (λ (p : Param). IsSort d p.sort) params
        → elaborated d (parameter_variables params) e ≡ Ok (t, sort)
        → IsSorted d (bind (map (λ (p : Param). p.sort) params) []) t sort }
{
    structure();
    shapes();
    formulas();
}
