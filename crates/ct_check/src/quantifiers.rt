//! What quantifiers do before and after their bodies are elaborated.
ghost use Rattle.std.specs.Prelude.{◌≡◌, List, map, length, IfOk, IfErr, OnOk};
ghost use Rattle.ct_sexpr.specs.Expression.{Expression};
ghost use Rattle.ct_sexpr.specs.View.{expression_of, expressions_of};
ghost use Rattle.ct_sorts.specs.Consistent.{IsConsistent};
ghost use Rattle.ct_sorts.specs.Declarations.{Declarations};
ghost use Rattle.ct_sorts.specs.Grown.{Extends};
ghost use Rattle.ct_formulas.specs.declared.tree.Quantifier.{Quantifier};
ghost use Rattle.ct_formulas.specs.Formula.{Quantified, bind};
ghost use Rattle.ct_formulas.specs.TreeFormula.{formula_of};
ghost use Rattle.ct_finite.specs.Counts.{AreCounts};
ghost use Rattle.ct_names.specs.Answer.{StopsAt, as_it_is};
ghost use Rattle.ct_names.specs.Bounds.{variable_of};
ghost use Rattle.ct_names.specs.declared.needs.Needs.{Needs};
ghost use Rattle.ct_names.specs.declared.needs.Needs.TheVariants.{Find};
ghost use Rattle.ct_names.specs.Elaboration.{elaborated, listable_sort, listable_sorts, part_of, parts_of, quantified_form};
ghost use Rattle.ct_names.specs.Needs.{Reaches};
ghost use Rattle.ct_names.specs.Outcome.{and_then};
ghost use Rattle.ct_names.specs.Parts.{with_part, no_parts};
ghost use Rattle.ct_names.specs.Variables.{Variable, ScopeIn};
ghost use Rattle.ct_check.specs.Heads.{LeadsTo};
ghost use Rattle.ct_check.specs.Quantifiers.{few_listable_sorts, quantified_with, AreKnown};
ghost use Rattle.ct_check.specs.Trees.{sorted_of};

use crate::binders::binding_names;
use crate::callees::{BOOL, is_sort};
use ct_finite::Finite;
use ct_formulas::{Quantifier, Tree};
use ct_names::{
    BoundVariable, Needs, OUT_OF_SCOPE, Stop, TOO_MANY_VALUES, WRONG_SORT, bounds, named_sort,
};
use ct_sexpr::Sexpr;
use ct_sorts::{Signature, SortId};
use std::alloc::Global;

/// The variables of a quantifier, and their sorts.
#[derive(Drop)]
pub(crate) struct QuantifiedVariables<'e> {
    pub(crate) variables: Vec<BoundVariable<'e>>,
    pub(crate) sorts: Vec<SortId>,
}

/// The variables that stand in the list after `forall` or `exists`: one or more, none twice, each of a listable sort.
pub(crate) fn quantified_variables<'e>(
    alloc: Global,
    sig: &mut Signature,
    needs: Needs,
    list: &'e Sexpr,
) -> Result<QuantifiedVariables<'e>, Stop>
    ensures value { (scope : List Variable) (q : Quantifier) (body : Expression) → LeadsTo needs sig.new (λ d. quantified_form d scope q (with_part (part_of d (expression_of list.now)) (with_part (part_of d body) no_parts)))
        (λ d r. and_then (elaborated d (bind (map variable_of r.variables.items) scope) body) (quantified_with q r.sorts.items)) result }
    ensures reaches { (scope : List Variable) (q : Quantifier) (body : Expression) → Reaches (λ d. quantified_form d scope q (with_part (part_of d (expression_of list.now)) (with_part (part_of d body) no_parts))) sig.old sig.new }
    ensures kept { needs ≡ Find → sig.new ≡ sig.old }
    ensures grown { Extends sig.new sig.old }
    ensures inside { IfOk result (λ r. ScopeIn sig.new (map variable_of r.variables.items)) }
{
    let Sexpr::List(bindings) = list else {
        return Err(Stop::Refused(OUT_OF_SCOPE));
    };
    let bindings = bindings.as_slice();
    let names = binding_names(alloc, bindings)?;
    let sorts = few_listable_sorts(alloc, sig, needs, bindings)?;
    prove!(sig.sorts() > 0);
    let variables = bounds(alloc, names.as_slice(), sorts.as_slice())?;
    Ok(QuantifiedVariables { variables, sorts })
}

// The sorts of the variables, where there are at most 4,096 lists of values for all of them. The time is linear in the sorts that
// there are, and again for each variable whose sort was not there.
fn few_listable_sorts(
    alloc: Global,
    sig: &mut Signature,
    needs: Needs,
    bindings: &[Sexpr],
) -> Result<Vec<SortId>, Stop>
    ensures value { StopsAt needs sig.new (λ sorts. sorts.items) (few_listable_sorts sig.new (parts_of sig.new (expressions_of bindings.now))) result }
    ensures reaches { Reaches (λ d. few_listable_sorts d (parts_of d (expressions_of bindings.now))) sig.old sig.new }
    ensures kept { needs ≡ Find → sig.new ≡ sig.old }
    ensures grown { Extends sig.new sig.old }
{
    let mut known = listable_now(alloc, sig)?;
    let sorts = listable_sorts(alloc, sig, needs, &mut known, bindings)?;
    prove!(sig.sorts() > 0);
    if known.choice_count(sorts.as_slice()).is_none() {
        return Err(Stop::Refused(TOO_MANY_VALUES));
    }
    Ok(sorts)
}

// The sorts of the variables, in order, each of which is listable.
fn listable_sorts(
    alloc: Global,
    sig: &mut Signature,
    needs: Needs,
    known: &mut Finite,
    bindings: &[Sexpr],
) -> Result<Vec<SortId>, Stop>
    requires known { AreKnown sig.old known.old }
    ensures value { StopsAt needs sig.new (λ sorts. sorts.items) (listable_sorts sig.new (parts_of sig.new (expressions_of bindings.now))) result }
    ensures reaches { Reaches (λ d. listable_sorts d (parts_of d (expressions_of bindings.now))) sig.old sig.new }
    ensures kept { needs ≡ Find → sig.new ≡ sig.old }
    ensures grown { Extends sig.new sig.old }
    ensures known { OnOk result (AreKnown sig.new known.new) }
{
    prove!(sig.sorts() > 0);
    let mut sorts = Vec::with_capacity(alloc, bindings.len())?;
    for binding in bindings {
        prove!(sig.sorts() > 0);
        let sort = listable_sort(alloc, sig, needs, known, binding)?;
        sorts.push(sort)?;
    }
    Ok(sorts)
}

// The sort of a variable, which is listable.
fn listable_sort(
    alloc: Global,
    sig: &mut Signature,
    needs: Needs,
    known: &mut Finite,
    binding: &Sexpr,
) -> Result<SortId, Stop>
    requires known { AreKnown sig.old known.old }
    ensures value { StopsAt needs sig.new as_it_is (listable_sort sig.new (part_of sig.new (expression_of binding.now))) result }
    ensures reaches { Reaches (λ d. listable_sort d (part_of d (expression_of binding.now))) sig.old sig.new }
    ensures kept { needs ≡ Find → sig.new ≡ sig.old }
    ensures grown { Extends sig.new sig.old }
    ensures known { OnOk result (AreKnown sig.new known.new) }
{
    let Sexpr::List(items) = binding else {
        return Err(Stop::Refused(OUT_OF_SCOPE));
    };
    let items = items.as_slice();
    if items.len() != 2 {
        return Err(Stop::Refused(OUT_OF_SCOPE));
    }
    let before = sig.sorts();
    let sort = named_sort(alloc, sig, needs, &items[1])?;
    keep_up(alloc, sig, before, known)?;
    if !known.listable(sort) {
        return Err(Stop::Refused(OUT_OF_SCOPE));
    }
    Ok(sort)
}

// Works out the listable sorts again, where there are more sorts than before.
fn keep_up(alloc: Global, sig: &Signature, before: u32, known: &mut Finite) -> Result<(), Stop>
    requires known { (d : Declarations) × AreKnown d known.old × IsConsistent d × Extends sig.now d × (length d.sorts ≡ before) }
    ensures known { OnOk result (AreKnown sig.now known.new) }
    ensures err { IfErr result (λ e. e ≡ Stop.NoMemory) }
{
    if sig.sorts() == before {
        return Ok(());
    }
    *known = listable_now(alloc, sig)?;
    Ok(())
}

// The listable sorts.
fn listable_now(alloc: Global, sig: &Signature) -> Result<Finite, Stop>
    ensures known { IfOk result (AreKnown sig.now) }
    ensures err { IfErr result (λ e. e ≡ Stop.NoMemory) }
{
    prove!(sig.sorts() > 0);
    match Finite::new(alloc, sig) {
        Ok(finite) => Ok(finite),
        Err(_) => Err(Stop::NoMemory),
    }
}

/// The quantifier over these sorts with a body of this sort, which must be Bool.
pub(crate) fn quantified_tree(
    alloc: Global,
    quantifier: Quantifier,
    sorts: Vec<SortId>,
    body: Tree,
    sort: SortId,
) -> Result<(Tree, SortId), Stop>
    ensures value { (needs : Needs) (d : Declarations) → StopsAt needs d sorted_of (quantified_with quantifier sorts.items (formula_of body, sort)) result }
{
    if !is_sort(sort, BOOL) {
        return Err(Stop::Refused(WRONG_SORT));
    }
    Ok((over(alloc, quantifier, sorts, body)?, BOOL))
}

// The quantifier over these sorts with this body.
fn over(alloc: Global, quantifier: Quantifier, sorts: Vec<SortId>, body: Tree) -> Result<Tree, Stop>
    ensures ok { IfOk result (λ t. formula_of t ≡ Quantified quantifier sorts.items (formula_of body)) }
    ensures err { IfErr result (λ e. e ≡ Stop.NoMemory) }
{
    Ok(Tree::Quantified(quantifier, sorts, Box::new(alloc, body)?))
}
