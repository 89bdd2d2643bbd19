//! Finds the first assertion of a list that an interpretation does not make true.

ghost use Rattle.std.specs.Prelude.{◌≡◌, ◌<◌, length, All, IfOk, MatchOption};
ghost use Rattle.ct_sorts.specs.Declarations.{Declarations};
ghost use Rattle.ct_terms.specs.Terms.{Terms, AreSorted, IsBoolean};
ghost use Rattle.ct_eval.specs.Interpretation.{IsProper};
ghost use Rattle.ct_eval.specs.declared.interp.Interp.{Interp};
ghost use Rattle.ct_eval.specs.Truth.{truth_value, Holds, IsFirstUntrue};
ghost use Rattle.ct_eval.specs.Valued.{IsValuation};

use crate::boolean::TRUE;
use crate::error::EvalError;
use crate::interp::{Interp, Valuation};
use crate::nodes::is_built;
use crate::valuation::evaluate;
use ct_sorts::Signature;
use ct_terms::{TermId, TermTable};
use ct_values::agreement;
use std::alloc::Global;

/// The index of the first assertion that is not true in the interpretation, or none if all are.
pub fn holds(
    alloc: Global,
    sig: &Signature,
    interp: &Interp,
    table: &TermTable,
    asserts: &[TermId],
) -> Result<Option<usize>, EvalError>
    requires proper { IsProper sig.now interp.now }
    requires sorted { AreSorted sig.now table.now }
    requires booleans { All (IsBoolean table.now) asserts.now }
    ensures position { IfOk result (λ r. MatchOption r
        (Holds sig.now interp.now table.now asserts.now)
        (IsFirstUntrue sig.now interp.now table.now asserts.now)) }
{
    let valuation = evaluate(alloc, sig, interp, table)?;
    Ok(first_untrue(&valuation, asserts))
}

// The index of the first assertion whose node is not `true`.
fn first_untrue(valuation: &Valuation, asserts: &[TermId]) -> Option<usize>
    requires within { All (λ t. t.0 < length valuation.now.nodes) asserts.now }
    requires nodes { All (λ n. n.0 < length valuation.now.graph) valuation.now.nodes }
    ensures position { (d : Declarations) (i : Interp) (terms : Terms)
        → IsValuation d i terms valuation.now
        → MatchOption result (Holds d i terms asserts.now) (IsFirstUntrue d i terms asserts.now) }
{
    for position in 0..asserts.len() {
        if !is_true(valuation, asserts[position]) {
            return Some(position);
        }
    }
    None
}

// Whether the node of the term is `true`.
fn is_true(valuation: &Valuation, t: TermId) -> bool
    requires within { t.0 < length valuation.now.nodes }
    requires nodes { All (λ n. n.0 < length valuation.now.graph) valuation.now.nodes }
    ensures truth { (d : Declarations) (i : Interp) (terms : Terms)
        → IsValuation d i terms valuation.now
        → result ≡ truth_value d i terms t }
{
    agreement();
    let node = valuation.nodes.as_slice()[t.0 as usize];
    is_built(&valuation.graph, TRUE, node)
}
