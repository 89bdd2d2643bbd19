//! The parts of a case of a `match`.
ghost use Rattle.std.specs.Prelude.{◌≡◌};
ghost use Rattle.ct_formulas.specs.TreeFormula.{formula_of};
ghost use Rattle.ct_occurrence.specs.CaseFormula.{case_of};

use ct_formulas::{Case, Pattern, Tree};

/// What a case fits.
pub fn pattern_of(case: &Case) -> Pattern
    ensures value { result ≡ (case_of case.now).0 }
{
    case.pattern
}

/// The body of a case.
pub fn body_of(case: &Case) -> &Tree
    ensures value { formula_of result.now ≡ (case_of case.now).1 }
{
    &case.body
}
