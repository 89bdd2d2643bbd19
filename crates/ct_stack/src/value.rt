//! Values of terms in a model.
ghost use Rattle.std.specs.Prelude.{◌≡◌, ℕ, ◌<◌, ◌≤◌, List, ◌++◌, map, length, slice_get, Some, Err, All, OnOk, OnErr, IfOk, IfSome, IsErrOf};
ghost use Rattle.std.specs.List.{AllZip};
ghost use Rattle.ct_terms.specs.CoreTree.{CoreTree};
ghost use Rattle.ct_formulas.specs.FormulaSorts.{AreSound};
ghost use Rattle.ct_terms.specs.Terms.{AreSorted, most_terms};
ghost use Rattle.ct_formulas.specs.TreeFormula.{formula_of};
ghost use Rattle.ct_compile.specs.Effect.{IsPrefix, AllStand};
ghost use Rattle.ct_eval.specs.Interpretation.{IsProper};
ghost use Rattle.ct_values.specs.Fitting.{FitsGraph};
ghost use Rattle.ct_model.specs.PairsText.{IsPairsText};
ghost use Rattle.ct_model.specs.Within.{IsNode};
ghost use Rattle.ct_command.specs.Seen.{all_seen};
ghost use Rattle.ct_stack.specs.Numbers.{too_many_terms};
ghost use Rattle.ct_stack.specs.Stack.{cores};
ghost use Rattle.ct_stack.specs.Elaborations.{valued_terms};
ghost use Rattle.ct_names.specs.Needs.{ends_with};
ghost use Rattle.ct_names.specs.Refusals.{out_of_scope};
ghost use Rattle.ct_stack.specs.Outcomes.{Comes};
ghost use Rattle.ct_stack.specs.Refusal.{HasManyTerms, IsTermsRefusal};
ghost use Rattle.ct_stack.specs.Held.{IsTableOf, context_in};
ghost use Rattle.ct_stack.specs.Sorts.{terms_seen, AreSortedTerms, HasSomeSort};
ghost use Rattle.ct_stack.specs.Values.{AreValues, AreValuesOf};
ghost use Rattle.ct_stack.specs.ModelValues.{AreModelValues};

use crate::model_values::ModelValues;
use crate::sorts::term_there;
use crate::terms::core_number;
use ct_check::{Scope, elaboration};
use ct_command::CommandError;
use ct_eval::Interp;
use ct_formulas::Tree;
use ct_meaning::meanings;
use ct_model::value_pairs_text;
use ct_sexpr::Sexpr;
use ct_sorts::{Signature, SortId};
use ct_terms::{TermId, TermTable, core_trees};
use ct_values::{Graph, NodeId, agreement};
use std::alloc::Global;

/// Each term beside its value in the interpretation, with what is known of the values of other terms in it. The table stays as it
/// was.
pub(crate) fn values_text(
    alloc: Global,
    scope: &mut Scope,
    table: &mut TermTable,
    interp: &Interp,
    values: &mut Option<ModelValues>,
    exprs: &[Sexpr],
) -> Result<Vec<u8>, CommandError>
    requires sound { AreSound scope.old.sig (map formula_of scope.old.bodies) }
    requires table { AreSorted scope.old.sig table.old }
    requires proper { IsProper scope.old.sig interp.now }
    requires valued { IfSome values.old (AreModelValues scope.old.sig interp.now) }
    ensures values { IfOk result (λ text. AreValues (context_in scope.old) interp.now (all_seen exprs.now) text.items) }
    ensures accepted { OnOk result ((roots : List CoreTree) → IsTableOf scope.old.sig roots table.old
        → (n : ℕ) → IsTermsRefusal (context_in scope.old) roots (all_seen exprs.now) n → ⊥) }
    ensures refused { (n : ℕ) → IsErrOf result (CommandError.Refused n) → (roots : List CoreTree) → IsTableOf scope.old.sig roots table.old
        → IsTermsRefusal (context_in scope.old) roots (all_seen exprs.now) n }
    ensures valued { IfSome values.new (AreModelValues scope.old.sig interp.now) }
    ensures unchanged { table.new ≡ table.old }
    ensures kept { scope.new ≡ scope.old }
{
    let terms = valued_terms(alloc, scope, exprs)?;
    let trees = terms.0.as_slice();
    has_room(alloc, scope, table, trees)?;
    compiled_values(alloc, scope, interp, values, exprs, trees)
}

// Whether the table would have room for the core terms of the trees. It stays as it was.
fn has_room(
    alloc: Global,
    scope: &Scope,
    table: &mut TermTable,
    trees: &[Tree],
) -> Result<(), CommandError>
    requires sound { AreSound scope.now.sig (map formula_of scope.now.bodies) }
    requires sorted { All (HasSomeSort scope.now.sig) trees.now }
    requires table { AreSorted scope.now.sig table.old }
    ensures accepted { OnOk result ((roots : List CoreTree) → IsTableOf scope.now.sig roots table.old
        → HasManyTerms (roots ++ cores (context_in scope.now) (map formula_of trees.now)) → ⊥) }
    ensures refused { (n : ℕ) → IsErrOf result (CommandError.Refused n) → (n ≡ too_many_terms)
        × ((roots : List CoreTree) → IsTableOf scope.now.sig roots table.old → HasManyTerms (roots ++ cores (context_in scope.now) (map formula_of trees.now))) }
    ensures unchanged { table.new ≡ table.old }
{
    let before = table.len();
    let numbers = core_numbers(alloc, scope, table, trees);
    table.cut_to(before);
    numbers?;
    Ok(())
}

// The trees of terms with their sorts, in order, up to the first error.
fn valued_terms(
    alloc: Global,
    scope: &mut Scope,
    exprs: &[Sexpr],
) -> Result<(Vec<Tree>, Vec<SortId>), CommandError>
    ensures value { Comes terms_seen (ends_with out_of_scope (valued_terms scope.old.sig (all_seen exprs.now))) result }
    ensures sorted { IfOk result (λ r. AreSortedTerms scope.old.sig r.0.items r.1.items) }
    ensures kept { scope.new ≡ scope.old }
{
    elaboration();
    scope.sig.sorts();
    let mut left = exprs;
    let mut trees = Vec::with_capacity(alloc, exprs.len())?;
    let mut sorts = Vec::with_capacity(alloc, exprs.len())?;
    while let [first, others @ ..] = left {
        let (tree, sort) = term_there(alloc, scope, first)?;
        trees.push(tree)?;
        sorts.push(sort)?;
        left = others;
    }
    Ok((trees, sorts))
}

// Each term beside its value, by the terms' trees.
fn compiled_values(
    alloc: Global,
    scope: &Scope,
    interp: &Interp,
    values: &mut Option<ModelValues>,
    exprs: &[Sexpr],
    trees: &[Tree],
) -> Result<Vec<u8>, CommandError>
    requires sound { AreSound scope.now.sig (map formula_of scope.now.bodies) }
    requires sorted { All (HasSomeSort scope.now.sig) trees.now }
    requires proper { IsProper scope.now.sig interp.now }
    requires one_each { length exprs.now ≡ length trees.now }
    requires valued { IfSome values.old (AreModelValues scope.now.sig interp.now) }
    ensures values { IfOk result (λ text. AreValuesOf (context_in scope.now) interp.now exprs.now (map formula_of trees.now) text.items) }
    ensures refused { (n : ℕ) → IsErrOf result (CommandError.Refused n) → (n ≡ too_many_terms) × HasManyTerms (cores (context_in scope.now) (map formula_of trees.now)) }
    ensures valued { IfSome values.new (AreModelValues scope.now.sig interp.now) }
{
    let (mut model, numbers) = numbered(alloc, scope, interp, values.take(), trees)?;
    let text = text_of(
        alloc,
        scope,
        interp,
        &mut model,
        exprs,
        trees,
        numbers.as_slice(),
    )?;
    *values = Some(model);
    Ok(text)
}

// The numbers of the core terms of the trees in the table of these values, or, where there are none or it has no room, in that of
// new ones.
fn numbered(
    alloc: Global,
    scope: &Scope,
    interp: &Interp,
    values: Option<ModelValues>,
    trees: &[Tree],
) -> Result<(ModelValues, Vec<TermId>), CommandError>
    requires sound { AreSound scope.now.sig (map formula_of scope.now.bodies) }
    requires sorted { All (HasSomeSort scope.now.sig) trees.now }
    requires proper { IsProper scope.now.sig interp.now }
    requires valued { IfSome values (AreModelValues scope.now.sig interp.now) }
    ensures numbers { IfOk result (λ r. AllStand r.0.table r.1.items (cores (context_in scope.now) (map formula_of trees.now))) }
    ensures valued { IfOk result (λ r. AreModelValues scope.now.sig interp.now r.0) }
    ensures refused { (n : ℕ) → IsErrOf result (CommandError.Refused n) → (n ≡ too_many_terms) × HasManyTerms (cores (context_in scope.now) (map formula_of trees.now)) }
{
    if let Some(mut old) = values {
        if let Ok(numbers) = core_numbers(alloc, scope, &mut old.table, trees) {
            return Ok((old, numbers));
        }
    }
    let mut new = ModelValues::new(alloc, &scope.sig, interp)?;
    let numbers = core_numbers(alloc, scope, &mut new.table, trees)?;
    Ok((new, numbers))
}

// Each term beside its value, where its core term has this number. What is known of values grows.
fn text_of(
    alloc: Global,
    scope: &Scope,
    interp: &Interp,
    model: &mut ModelValues,
    exprs: &[Sexpr],
    trees: &[Tree],
    numbers: &[TermId],
) -> Result<Vec<u8>, CommandError>
    requires sound { AreSound scope.now.sig (map formula_of scope.now.bodies) }
    requires sorted { All (HasSomeSort scope.now.sig) trees.now }
    requires proper { IsProper scope.now.sig interp.now }
    requires one_each { length exprs.now ≡ length trees.now }
    requires valued { AreModelValues scope.now.sig interp.now model.old }
    requires numbers { AllStand model.old.table numbers.now (cores (context_in scope.now) (map formula_of trees.now)) }
    ensures values { IfOk result (λ text. AreValuesOf (context_in scope.now) interp.now exprs.now (map formula_of trees.now) text.items) }
    ensures err { OnErr result (result ≡ Err CommandError.NoMemory) }
    ensures valued { OnOk result (AreModelValues scope.now.sig interp.now model.new) }
{
    meanings();
    agreement();
    scope.sig.sorts();
    let Ok(()) = model
        .evaluator
        .extend(alloc, &scope.sig, interp, &model.table)
    else {
        return Err(CommandError::NoMemory);
    };
    let nodes = nodes_of(alloc, model.evaluator.nodes(), numbers)?;
    let graph = model.evaluator.graph();
    let text = pairs_text(alloc, &scope.sig, exprs, graph, nodes.as_slice())?;
    Ok(text)
}

// Each term beside the value of its node.
fn pairs_text(
    alloc: Global,
    sig: &Signature,
    exprs: &[Sexpr],
    graph: &Graph,
    nodes: &[NodeId],
) -> Result<Vec<u8>, CommandError>
    requires one_each { length exprs.now ≡ length nodes.now }
    requires within { All (IsNode graph.now) nodes.now }
    requires fits { FitsGraph sig.now graph.now }
    ensures text { IfOk result (λ text. IsPairsText sig.now graph.now exprs.now nodes.now text.items) }
    ensures err { OnErr result (result ≡ Err CommandError.NoMemory) }
{
    match value_pairs_text(alloc, sig, exprs, graph, nodes) {
        Ok(text) => Ok(text),
        Err(_) => Err(CommandError::NoMemory),
    }
}

// The numbers of the core terms of the trees.
fn core_numbers(
    alloc: Global,
    scope: &Scope,
    table: &mut TermTable,
    trees: &[Tree],
) -> Result<Vec<TermId>, CommandError>
    requires sound { AreSound scope.now.sig (map formula_of scope.now.bodies) }
    requires sorted { All (HasSomeSort scope.now.sig) trees.now }
    requires table { AreSorted scope.now.sig table.old }
    ensures numbers { IfOk result (λ ns. AllStand table.new ns.items (cores (context_in scope.now) (map formula_of trees.now))) }
    ensures made { OnOk result ((roots : List CoreTree) → IsTableOf scope.now.sig roots table.old
        → IsTableOf scope.now.sig (roots ++ cores (context_in scope.now) (map formula_of trees.now)) table.new) }
    ensures few { OnOk result (length table.new ≤ most_terms) }
    ensures sorted { AreSorted scope.now.sig table.new }
    ensures grown { IsPrefix table.old table.new }
    ensures refused { (n : ℕ) → IsErrOf result (CommandError.Refused n) → (n ≡ too_many_terms)
        × ((roots : List CoreTree) → IsTableOf scope.now.sig roots table.old → HasManyTerms (roots ++ cores (context_in scope.now) (map formula_of trees.now))) }
{
    table.len();
    core_trees();
    let mut left = trees;
    let mut numbers = Vec::with_capacity(alloc, trees.len())?;
    while let [first, others @ ..] = left {
        let number = core_number(alloc, scope, table, first)?;
        table.len();
        numbers.push(number)?;
        left = others;
    }
    Ok(numbers)
}

// The nodes of terms.
fn nodes_of(alloc: Global, all: &[NodeId], numbers: &[TermId]) -> Result<Vec<NodeId>, CommandError>
    requires within { All (λ t. t.0 < length all.now) numbers.now }
    ensures nodes { IfOk result (λ nodes. AllZip (λ t n. slice_get all.now t.0 ≡ Some n) numbers.now nodes.items) }
    ensures err { OnErr result (result ≡ Err CommandError.NoMemory) }
{
    let mut left = numbers;
    let mut nodes = Vec::with_capacity(alloc, numbers.len())?;
    while let [first, others @ ..] = left {
        nodes.push(all[first.0 as usize])?;
        left = others;
    }
    Ok(nodes)
}
