//! The form of items: a word, a name, parameters, a sort and a body.
ghost use Rattle.std.specs.Prelude.{◌≡◌, ℕ, ◌<◌, ◌^◌, not, ◌&&◌, ◌||◌, ◌==◌, All, length, option_map, codes, if◌then◌else◌};
ghost use Rattle.ct_sexpr.specs.View.{expression_of, expressions_of};
ghost use Rattle.ct_sorts.specs.Declarations.{IsSort};
ghost use Rattle.ct_readback.specs.Words as words;
ghost use Rattle.ct_readback.specs.Parts as parts;
ghost use Rattle.ct_readback.specs.Parts.{holds};
ghost use Rattle.ct_readback.specs.SortText as sorts;
ghost use Rattle.ct_readback.specs.ItemText as spec;

use crate::parts::{four_of, items_in, only_if, parts_after, two_in};
use crate::rows::is_body;
use crate::sort_text::{is_sort_text, says_sort};
use crate::words::{is_name, is_named, is_numbered};
use ct_sexpr::Sexpr;
use ct_sorts::{Signature, SortId};

// What stands after the word of an item.
fn after_word(off: bool, item: &Sexpr) -> Option<&[Sexpr]>
    ensures value { parts.parts_after (spec.item_word off) (expression_of item.now) ≡ option_map (λ items. expressions_of items.now) result }
{
    if off {
        return parts_after(b"@off", item);
    }
    parts_after(b"define-fun", item)
}

/// The name, the parameters, the sort of the result and the body of an item.
pub(crate) fn item_in(off: bool, item: &Sexpr) -> Option<(&Sexpr, &[Sexpr], &Sexpr, &Sexpr)>
    ensures value { spec.item_in off (expression_of item.now)
        ≡ option_map (λ es. record { name = expression_of es.0.now; parameters = expressions_of es.1.now; result = expression_of es.2.now; body = expression_of es.3.now }) result }
{
    let items = after_word(off, item)?;
    let (name, parameters, sort, body) = four_of(items)?;
    let parameters = items_in(parameters)?;
    Some((name, parameters, sort, body))
}

// The sort text of the parameter number i.
fn parameter_sort(i: u64, parameter: &Sexpr) -> Option<&Sexpr>
    ensures value { spec.parameter_sort i (expression_of parameter.now) ≡ option_map (λ e. expression_of e.now) result }
{
    let (name, sort) = two_in(parameter)?;
    only_if(is_numbered(b"@x", i, name), sort)
}

// Whether the expression has the form of the parameter number i.
fn is_parameter(i: u64, parameter: &Sexpr) -> bool
    ensures value { result ≡ holds sorts.is_sort_text (spec.parameter_sort i (expression_of parameter.now)) }
{
    match parameter_sort(i, parameter) {
        None => false,
        Some(sort) => is_sort_text(sort),
    }
}

// Whether the expressions are parameters in order.
#[tactic(auto, using(crate::proofs::RestLemmas::rest_at))]
fn are_parameters(parameters: &[Sexpr]) -> bool
    ensures value { result ≡ spec.are_parameters 0 (expressions_of parameters.now) }
{
    for index in 0..parameters.len() {
        if !is_parameter(index as u64, &parameters[index]) {
            return false;
        }
    }
    true
}

// Whether there are as many parameters as an item may have; that of a selector has one.
#[tactic(auto, using(crate::proofs::RestLemmas::count_of))]
fn may_have(off: bool, parameters: &[Sexpr]) -> bool
    ensures value { result ≡ (not off || (parts.count (expressions_of parameters.now) == 1)) }
{
    !off || parameters.len() == 1
}

/// Whether the parts of an item have their form.
#[tactic(auto, using(crate::proofs::RestLemmas::count_of))]
pub(crate) fn has_parts(
    off: bool,
    name: &Sexpr,
    parameters: &[Sexpr],
    sort: &Sexpr,
    body: &Sexpr,
) -> bool
    ensures value { result ≡ spec.has_parts off (record { name = expression_of name.now; parameters = expressions_of parameters.now; result = expression_of sort.now; body = expression_of body.now }) }
{
    if !is_name(name) || !are_parameters(parameters) || !may_have(off, parameters) {
        return false;
    }
    is_sort_text(sort) && is_body(parameters.len(), body)
}

// Whether the parameter number i has this sort.
fn says_parameter(sig: &Signature, s: SortId, i: u64, parameter: &Sexpr) -> bool
    requires inside { IsSort sig.now s }
    ensures value { result ≡ holds (sorts.says_sort sig.now s) (spec.parameter_sort i (expression_of parameter.now)) }
{
    match parameter_sort(i, parameter) {
        None => false,
        Some(sort) => says_sort(sig, s, sort),
    }
}

// Whether the parameters have these sorts.
#[tactic(auto, using(crate::proofs::RestLemmas::rest_at))]
fn say_parameters(sig: &Signature, args: &[SortId], parameters: &[Sexpr]) -> bool
    requires inside { All (IsSort sig.now) args.now }
    ensures value { result ≡ spec.say_parameters sig.now 0 args.now (expressions_of parameters.now) }
{
    if args.len() != parameters.len() {
        return false;
    }
    for index in 0..args.len() {
        if !says_parameter(sig, args[index], index as u64, &parameters[index]) {
            return false;
        }
    }
    true
}

/// Whether the name, the parameters and the sort of the result are those that are due.
pub(crate) fn is_heading(
    sig: &Signature,
    due_name: &[u8],
    args: &[SortId],
    result_sort: SortId,
    name: &Sexpr,
    parameters: &[Sexpr],
    sort: &Sexpr,
) -> bool
    requires args { All (IsSort sig.now) args.now }
    requires inside { IsSort sig.now result_sort }
    ensures value { result ≡ words.is_named due_name.now (expression_of name.now)
        && (spec.say_parameters sig.now 0 args.now (expressions_of parameters.now) && sorts.says_sort sig.now result_sort (expression_of sort.now)) }
{
    is_named(due_name, name)
        && say_parameters(sig, args, parameters)
        && says_sort(sig, result_sort, sort)
}
