//! What `let` and `match` do before and after their terms are elaborated.
ghost use Rattle.std.specs.Prelude.{◌≡◌, ℕ, ◌++◌, ◌∷◌, [], Option, Some, List, map, IfOk, IfErr, OnOk};
ghost use Rattle.ct_sexpr.specs.View.{expressions_of};
ghost use Rattle.ct_sorts.specs.Declarations.{Declarations};
ghost use Rattle.ct_formulas.specs.Formula.{Let};
ghost use Rattle.ct_formulas.specs.TreeFormula.{formula_of, formulas_of_trees};
ghost use Rattle.ct_names.specs.declared.needs.Needs.{Needs};
ghost use Rattle.ct_names.specs.Answer.{StopsAt, ContinuesTo};
ghost use Rattle.ct_check.specs.Binders.{with_names};
ghost use Rattle.ct_names.specs.Bounds.{held_name};
ghost use Rattle.ct_names.specs.Elaboration.{parts_of, exhausted, goes_with};
ghost use Rattle.ct_names.specs.Outcome.{Elaborated, Sorted};
ghost use Rattle.ct_check.specs.Trees.{sorted_of, checked_of};
ghost use Rattle.ct_occurrence.specs.CaseFormula.{case_of};

use crate::callees::is_sort;
use crate::exhaustive::are_exhaustive;
use ct_formulas::{Case, Pattern, Tree};
use ct_names::{
    NOT_EXHAUSTIVE, OUT_OF_SCOPE, REPEATED_VARIABLE, Stop, are_bindings, bound_names, has_repeated,
};
use ct_sexpr::Sexpr;
use ct_sorts::{Signature, SortId};
use std::alloc::Global;

/// The cases of a `match`, with their patterns and their common sort, none where there is no case.
#[derive(Drop)]
pub(crate) struct Checked {
    pub(crate) cases: Vec<Case>,
    pub(crate) patterns: Vec<Pattern>,
    pub(crate) sort: Option<SortId>,
}

/// The names that bindings bind: there is one or more, and none stands twice.
pub(crate) fn binding_names<'e>(
    alloc: Global,
    bindings: &'e [Sexpr],
) -> Result<Vec<Option<&'e [u8]>>, Stop>
    ensures value { (needs : Needs) (d : Declarations) (next : List (Option (List ℕ)) → Elaborated Sorted) → ContinuesTo needs d (with_names (parts_of d (expressions_of bindings.now)) next) (λ names. next (map held_name names.items)) result }
{
    if bindings.is_empty() {
        return Err(Stop::Refused(OUT_OF_SCOPE));
    }
    if !are_bindings(bindings) {
        return Err(Stop::Refused(OUT_OF_SCOPE));
    }
    let names = bound_names(alloc, bindings)?;
    let repeated = has_repeated(alloc, names.as_slice())?;
    if repeated {
        return Err(Stop::Refused(REPEATED_VARIABLE));
    }
    Ok(names)
}

/// The `let` of these terms with a body.
pub(crate) fn let_tree(alloc: Global, trees: Vec<Tree>, body: Tree) -> Result<Tree, Stop>
    ensures ok { IfOk result (λ t. formula_of t ≡ Let (formulas_of_trees trees.items)
        (formula_of body)) }
    ensures err { IfErr result (λ e. e ≡ Stop.NoMemory) }
{
    Ok(Tree::Let(trees, Box::new(alloc, body)?))
}

/// The `match` of a subject of this sort, where its cases are exhaustive.
pub(crate) fn match_tree(
    alloc: Global,
    sig: &Signature,
    subject: Tree,
    side: SortId,
    checked: Checked,
) -> Result<(Tree, SortId), Stop>
    ensures value { (needs : Needs) → StopsAt needs sig.now sorted_of (exhausted sig.now (formula_of subject, side) (checked_of checked)) result }
{
    let exhaustive = are_exhaustive(alloc, sig, side, checked.patterns.as_slice())?;
    if !exhaustive {
        return Err(Stop::Refused(NOT_EXHAUSTIVE));
    }
    match checked.sort {
        Some(sort) => {
            let subject = Box::new(alloc, subject)?;
            Ok((Tree::Match(subject, checked.cases), sort))
        }
        None => Err(Stop::Refused(NOT_EXHAUSTIVE)),
    }
}

/// Whether the sort is the one that earlier cases had, where there are any.
pub(crate) fn goes_with(first: Option<SortId>, sort: SortId) -> bool
    ensures value { result ≡ goes_with first sort }
{
    match first {
        Some(earlier) => is_sort(sort, earlier),
        None => true,
    }
}

/// One more case, whose term has this sort.
#[tactic(auto, using(crate::proofs::CasePushes::pushed_case))]
pub(crate) fn add_case(
    checked: &mut Checked,
    fitted: Pattern,
    body: Tree,
    sort: SortId,
) -> Result<(), Stop>
    ensures cases { OnOk result (map case_of checked.new.cases.items ≡ map case_of checked.old.cases.items ++ (fitted, formula_of body) ∷ []) }
    ensures patterns { OnOk result (checked.new.patterns.items ≡ checked.old.patterns.items ++ fitted ∷ []) }
    ensures sort { OnOk result (checked.new.sort ≡ Some sort) }
    ensures err { IfErr result (λ e. e ≡ Stop.NoMemory) }
{
    checked.cases.push(case(fitted, body))?;
    checked.patterns.push(fitted)?;
    checked.sort = Some(sort);
    Ok(())
}

// The case of this pattern.
fn case(pattern: Pattern, body: Tree) -> Case
    ensures value { case_of result ≡ (pattern, formula_of body) }
{
    Case { pattern, body }
}
