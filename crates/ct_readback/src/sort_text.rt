//! How a sort is written in a model.
ghost use Rattle.std.specs.Prelude.{◌≡◌, ◌&&◌, map, All};
ghost use Rattle.ct_generics.specs.Expression.{head_of, args_of};
ghost use Rattle.ct_instances.specs.Among.{origin_of};
ghost use Rattle.ct_sexpr.specs.View.{expression_of, expressions_of};
ghost use Rattle.ct_sorts.specs.Declarations.{IsSort};
ghost use Rattle.ct_readback.specs.SortText as spec;

use crate::words::{is_name, is_named};
use ct_sexpr::Sexpr;
use ct_sorts::{Signature, SortId};

/// Whether the expression has the form of a sort: a name, or a name before sorts, one at least.
#[cycle(sort_text)]
#[tactic(auto, using(ct_names::proofs::Rows::expression_of_list))]
pub(crate) fn is_sort_text(expr: &Sexpr) -> bool
    ensures value { result ≡ spec.is_sort_text (expression_of expr.now) }
{
    match expr {
        Sexpr::List(items) => is_sort_list(items.as_slice()),
        Sexpr::Symbol(_)
        | Sexpr::Quoted(_)
        | Sexpr::Keyword(_)
        | Sexpr::Text(_)
        | Sexpr::Numeral(_)
        | Sexpr::Decimal(_)
        | Sexpr::Binary(_)
        | Sexpr::Hex(_) => is_name(expr),
    }
}

// Whether the items of a list are a name and sorts.
#[cycle(sort_text)]
fn is_sort_list(items: &[Sexpr]) -> bool
    ensures value { result ≡ spec.is_sort_list (expressions_of items.now) }
{
    match items {
        [] | [_] => false,
        [name, sorts @ ..] => is_name(name) && are_sort_texts(sorts),
    }
}

// Whether each of the expressions has the form of a sort.
#[cycle(sort_text)]
fn are_sort_texts(exprs: &[Sexpr]) -> bool
    ensures value { result ≡ spec.are_sort_texts (expressions_of exprs.now) }
{
    for expr in exprs {
        if !is_sort_text(expr) {
            return false;
        }
    }
    true
}

/// Whether the expression is the text of this sort: its name, or the list of its generic's name and the arguments.
#[cycle(says_sort)]
#[tactic(auto, using(ct_names::proofs::Rows::expression_of_list))]
pub(crate) fn says_sort(sig: &Signature, s: SortId, expr: &Sexpr) -> bool
    requires declared { IsSort sig.now s }
    ensures value { result ≡ spec.says_sort sig.now s (expression_of expr.now) }
{
    match expr {
        Sexpr::List(items) => says_items(sig, s, items.as_slice()),
        Sexpr::Symbol(_)
        | Sexpr::Quoted(_)
        | Sexpr::Keyword(_)
        | Sexpr::Text(_)
        | Sexpr::Numeral(_)
        | Sexpr::Decimal(_)
        | Sexpr::Binary(_)
        | Sexpr::Hex(_) => says_name(sig, s, expr),
    }
}

// Whether the items of a list are the generic's name and the arguments.
#[cycle(says_sort)]
fn says_items(sig: &Signature, s: SortId, items: &[Sexpr]) -> bool
    requires declared { IsSort sig.now s }
    ensures value { result ≡ spec.says_items sig.now.declared.heads (origin_of sig.now s) (expressions_of items.now) }
{
    match items {
        [] | [_] => false,
        [head, args @ ..] => says_head(sig, s, head) && says_each(sig, arguments(sig, s), args),
    }
}

// Whether the expressions are the texts of these sorts, one for one.
#[cycle(says_sort)]
fn says_each(sig: &Signature, sorts: &[SortId], exprs: &[Sexpr]) -> bool
    requires declared { All (IsSort sig.now) sorts.now }
    ensures value { result ≡ spec.says_each sig.now.declared.heads (map (origin_of sig.now) sorts.now) (expressions_of exprs.now) }
{
    if sorts.len() != exprs.len() {
        return false;
    }
    for index in 0..exprs.len() {
        if !says_sort(sig, sorts[index], &exprs[index]) {
            return false;
        }
    }
    true
}

// Whether the expression is the name of the sort, which has no arguments.
fn says_name(sig: &Signature, s: SortId, expr: &Sexpr) -> bool
    requires declared { IsSort sig.now s }
    ensures value { result ≡ (spec.are_none (args_of (origin_of sig.now s)) && spec.says_head sig.now.declared.heads (head_of (origin_of sig.now s)) (expression_of expr.now)) }
{
    arguments(sig, s).is_empty() && says_head(sig, s, expr)
}

// The arguments of the sort.
fn arguments(sig: &Signature, s: SortId) -> &[SortId]
    requires declared { IsSort sig.now s }
    ensures value { map (origin_of sig.now) result.now ≡ args_of (origin_of sig.now s) }
    ensures inside { All (IsSort sig.now) result.now }
{
    prove!(sig.sorts() > 0);
    sig.sort_args(s)
}

// Whether the expression is the name of the sort, or of the generic of which it is an instance.
fn says_head(sig: &Signature, s: SortId, expr: &Sexpr) -> bool
    requires declared { IsSort sig.now s }
    ensures value { result ≡ spec.says_head sig.now.declared.heads (head_of (origin_of sig.now s)) (expression_of expr.now) }
{
    prove!(sig.sorts() > 0);
    match sig.sort_gen(s) {
        None => is_named(sig.sort_name(s), expr),
        Some(g) => is_named(sig.gen_name(g), expr),
    }
}
