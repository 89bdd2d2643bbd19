//! The core term of a formula: the function that scripts and checks call.
ghost use Rattle.std.specs.Prelude.{◌≡◌, ◌<◌, ◌≤◌, List, [], length, map, Contains, IfOk, IsErrOf};
ghost use Rattle.ct_sorts.specs.declared.ids.SortId.{SortId};
ghost use Rattle.ct_terms.specs.declared.ids.TermId.{TermId};
ghost use Rattle.ct_terms.specs.Terms.{AreSorted};
ghost use Rattle.ct_terms.specs.CoreTree.{CoreTree, subtrees, term_at};
ghost use Rattle.ct_formulas.specs.FormulaSorts.{IsSorted, AreSound};
ghost use Rattle.ct_formulas.specs.TreeFormula.{formula_of};
ghost use Rattle.ct_formulas.specs.Compiled.{core_of};
ghost use Rattle.ct_operators.specs.Effect.{IsPrefix, DoNotFit};
ghost use Rattle.ct_operators.specs.Made.{MakesInOrder};
ghost use Rattle.ct_scope.specs.Making.{making_of};

use crate::deferring::compile_deferring;
use ct_formulas::Tree;
use ct_occurrence::{no_definitions, notes_on, work_out_named};
use ct_operators::term_theorems;
use ct_scope::Scope;
use ct_terms::{TermError, TermId, TermTable};
use indexmap::IndexMap;
use std::alloc::Global;

/// The number of the core term of a formula: bindings, definitions, `match` and quantifiers are expanded, and
/// operators over several formulas are brought to the kinds of core terms.
///
/// The table grows by subterms of the core term alone, from left to right, each after the terms under it. What is
/// bound comes before the body, and makes no term where its variable does not occur; so do the arguments of a
/// definition, and what is matched. A quantifier has, for each choice of values in order, the values of the variables that
/// occur and then the body. Calls of a definition with the same arguments are compiled once. A call that lies
/// too deep under others for the stack is compiled first, and what was left begins anew, over the terms that are there.
/// `Full` comes where the table holds 400,000 terms and does not have one of these. After an error the caller cuts the
/// table back.
pub fn compile(
    alloc: Global,
    scope: &Scope,
    table: &mut TermTable,
    tree: &Tree,
) -> Result<TermId, TermError>
    requires sound { AreSound scope.now.sig (map formula_of scope.now.bodies) }
    requires closed { (sort : SortId) × IsSorted scope.now.sig [] (formula_of tree.now) sort }
    requires table { AreSorted scope.now.sig table.old }
    ensures grown { IsPrefix table.old table.new }
    ensures sorted { AreSorted scope.now.sig table.new }
    ensures core { IfOk result (λ t. (t.0 < length table.new)
        × (term_at table.new t ≡ core_of scope.now.sig (map formula_of scope.now.bodies) [] (formula_of tree.now))) }
    ensures nothing_else { (t : TermId) → length table.old ≤ t.0 → t.0 < length table.new
        → Contains (subtrees (core_of scope.now.sig (map formula_of scope.now.bodies) [] (formula_of tree.now))) (term_at table.new t) }

    // Every subterm of the core term is a term of the new table.
    ensures complete { IfOk result (λ t. (s : CoreTree)
        → Contains (subtrees (core_of scope.now.sig (map formula_of scope.now.bodies) [] (formula_of tree.now))) s
        → (u : TermId) × (u.0 ≤ t.0) × (term_at table.new u ≡ s)) }

    // The terms are made in order: what is bound before the body, what stands under a term before the term, from left to right.
    ensures order { IfOk result (λ t. MakesInOrder table.old (making_of scope.now.sig (map formula_of scope.now.bodies) [] (formula_of tree.now)) table.new) }

    // The subterms of the core term that the table did not have are too many.
    ensures full { IsErrOf result TermError.Full → (trees : List CoreTree)
        × DoNotFit (subtrees (core_of scope.now.sig (map formula_of scope.now.bodies) [] (formula_of tree.now))) table.old trees }
{
    // These say what a formula needs to be compiled: the theorems, that the declarations agree with
    // each other, and that terms come after the terms under them.
    term_theorems();
    scope.sig.sorts();
    table.len();
    let below = scope.bodies.len();
    let mut definitions = no_definitions(alloc);
    let bodies = scope.bodies.as_slice();
    work_out_named(alloc, &scope.sig, bodies, &mut definitions, below, tree)?;
    let notes = notes_on(alloc, &scope.sig, &definitions, tree)?;
    let mut known = IndexMap::new(alloc);
    compile_deferring(
        alloc,
        scope,
        &definitions,
        &mut known,
        table,
        below,
        tree,
        notes.alone(),
    )
}
