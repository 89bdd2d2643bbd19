//! Adds the core terms of assertions to a table of terms.
ghost use Rattle.std.specs.Prelude.{All, map, IfOk, IsErrOf};
ghost use Rattle.ct_terms.specs.Terms.{AreSorted, IsBoolean};
ghost use Rattle.ct_formulas.specs.TreeFormula.{formula_of};
ghost use Rattle.ct_stack.specs.Held.{context_in, level_in, IsSoundLevel};
ghost use Rattle.ct_audit.specs.Grown.{IsGrownBy, AreTooMany};
ghost use Rattle.ct_audit.specs.Growing.{Theorems};

use ct_compile::{Scope, compile};
use ct_formulas::{Tree, formulas};
use ct_terms::{TermError, TermId, TermTable, core_trees};
use std::alloc::Global;

/// Puts the core terms of the assertions into the table. Their numbers, in order.
pub(crate) fn add_assertions(
    alloc: Global,
    scope: &Scope,
    table: &mut TermTable,
    asserts: &[Tree],
) -> Result<Vec<TermId>, TermError>
    requires sound { IsSoundLevel (level_in scope.now asserts.now) }
    requires sorted { AreSorted scope.now.sig table.old }
    ensures grown { IfOk result (λ numbers. IsGrownBy (context_in scope.now) (map formula_of asserts.now) table.old table.new numbers.items) }
    ensures booleans { IfOk result (λ numbers. All (IsBoolean table.new) numbers.items) }
    ensures full { IsErrOf result TermError.Full → AreTooMany (context_in scope.now) (map formula_of asserts.now) table.old }
{
    term_theorems();
    scope.sig.sorts();
    table.len();
    let mut numbers = Vec::new(alloc);
    let mut rest = asserts;
    while let [tree, others @ ..] = rest {
        table.len();
        let number = compile(alloc, scope, table, tree)?;
        table.len();
        numbers.push(number)?;
        rest = others;
    }
    table.len();
    Ok(numbers)
}

// The theorems on terms and formulas, as one. The function does nothing.
fn term_theorems()
    ensures hold { Theorems }
{
    core_trees();
    formulas();
}
