//! The values in a model of terms that were asked for, as long as the model is current.
ghost use Rattle.std.specs.Prelude.{◌≡◌, [], Err, IfOk, OnErr};
ghost use Rattle.ct_eval.specs.Interpretation.{IsProper};
ghost use Rattle.ct_stack.specs.Held.{IsTableOf};
ghost use Rattle.ct_stack.specs.ModelValues.{AreModelValues};

use crate::theorems::stack_theorems;
use ct_command::CommandError;
use ct_eval::{Evaluator, Interp};
use ct_sorts::Signature;
use ct_terms::TermTable;
use std::alloc::Global;

/// The values in a model of the terms that were asked for: what further terms cost does not depend on how large the model is.
#[derive(Drop)]
pub struct ModelValues {
    // The core terms that were asked for, with their subterms.
    pub(crate) table: TermTable,
    pub(crate) evaluator: Evaluator,
}

impl ModelValues {
    /// No term was asked for yet.
    pub(crate) fn new(
        alloc: Global,
        sig: &Signature,
        interp: &Interp,
    ) -> Result<ModelValues, CommandError>
        requires proper { IsProper sig.now interp.now }
        ensures values { IfOk result (AreModelValues sig.now interp.now) }
        ensures none { IfOk result (λ values. IsTableOf sig.now [] values.table) }
        ensures err { OnErr result (result ≡ Err CommandError.NoMemory) }
    {
        stack_theorems();
        sig.sorts();
        let Ok(table) = TermTable::new(alloc) else {
            return Err(CommandError::NoMemory);
        };
        table.len();
        let Ok(evaluator) = Evaluator::new(alloc, sig, interp) else {
            return Err(CommandError::NoMemory);
        };
        Ok(ModelValues { table, evaluator })
    }
}
