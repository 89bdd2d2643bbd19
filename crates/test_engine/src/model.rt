//! Interpretations of verdicts.
ghost use Rattle.test_engine.specs.Asserted.{IsAsserted};

use crate::table::Assertions;
use ct_cases::CaseError;
use ct_eval::{EvalError, Interp, holds, is_proper};
use ct_sorts::Signature;
use std::alloc::Global;

/// Shows ` sat verified` where the interpretation is proper and makes the formulas true, and else ` improper`, or ` untrue`
/// with the index of the first formula that is not true.
pub fn show_model(
    alloc: Global,
    sig: &Signature,
    interp: &Interp,
    formulas: &Assertions,
    out: &mut String,
) -> Result<(), CaseError>
    requires asserted { IsAsserted sig.now formulas.now.table.value formulas.now.asserts.items }
{
    if !is_proper(sig, interp) {
        return Ok(out.push_str(" improper")?);
    }
    match holds(alloc, sig, interp, &formulas.table, &formulas.asserts) {
        Ok(None) => Ok(out.push_str(" sat verified")?),
        Ok(Some(position)) => {
            let text = format!(in alloc; " untrue {position}")?;
            Ok(out.push_str(text.as_str())?)
        }
        Err(EvalError) => Err(CaseError::NoMemory),
    }
}
