//! Patterns of a `match`: what a pattern fits and binds, or its first error.
ghost use Rattle.std.specs.Prelude.{◌≡◌, List, map, IfOk, IfErr};
ghost use Rattle.ct_sexpr.specs.View.{expression_of, expressions_of};
ghost use Rattle.ct_sorts.specs.Declarations.{Declarations, IsSort};
ghost use Rattle.ct_instances.specs.Among.{IsNamedCtor};
ghost use Rattle.ct_names.specs.Answer.{IsAnswerFor, as_it_is};
ghost use Rattle.ct_names.specs.Bounds.{variable_of, held_name, held_binding};
ghost use Rattle.ct_names.specs.Elaboration.{part_of, parts_of};
ghost use Rattle.ct_names.specs.Patterns.{variable_names, lone_ctor, leaf_pattern, ctor_with, pattern, matchable, any_pattern, lone_pattern};
ghost use Rattle.ct_names.specs.Parts.{list_part, name_of};
ghost use Rattle.ct_names.specs.Symbols.{ctor_named};
ghost use Rattle.ct_names.specs.Forms.{bound_name, bound_names};
ghost use Rattle.ct_names.specs.Outcome.{Elaborated, Sorted};
ghost use Rattle.ct_names.specs.Variables.{Variable, variables};

use crate::atoms::name_of;
use crate::error::CheckError;
use crate::refusals::{
    FOREIGN_PATTERN, OUT_OF_SCOPE, REPEATED_VARIABLE, UNKNOWN_SYMBOL, WRONG_COUNT, WRONG_SORT,
};
use crate::repeats::has_repeated;
use crate::symbols::{ctor_fields, ctor_named};
use crate::variables::BoundVariable;
use ct_formulas::Pattern;
use ct_instances::{NamedCtor, ctor_among};
use ct_sexpr::Sexpr;
use ct_sorts::{Kind, Signature, SortId};
use std::alloc::Global;

/// What the expression, which has the form of a pattern, fits and binds, against values of the
/// sort: a constructor, or every value, and its variables in order.
///
/// It is refused with 21 where the head of a list is no constructor, with 25 where the constructor
/// is of another sort, with 22 where it has another number of fields, and with 27 where a variable
/// stands twice; and with 28 where a list has no variables. Or memory runs out.
pub fn pattern<'e>(
    alloc: Global,
    sig: &Signature,
    side: SortId,
    expr: &'e Sexpr,
) -> Result<(Pattern, Vec<BoundVariable<'e>>), CheckError>
    requires side { IsSort sig.now side }
    ensures value { IsAnswerFor held_binding (pattern sig.now side (part_of sig.now
        (expression_of expr.now))) result }
{
    match expr {
        Sexpr::List(items) => list_pattern(alloc, sig, side, items.as_slice()),
        Sexpr::Symbol(_)
        | Sexpr::Quoted(_)
        | Sexpr::Keyword(_)
        | Sexpr::Text(_)
        | Sexpr::Numeral(_)
        | Sexpr::Decimal(_)
        | Sexpr::Binary(_)
        | Sexpr::Hex(_) => leaf_pattern(alloc, sig, side, expr),
    }
}

// A pattern of one name, or of `_`, which has no name.
fn leaf_pattern<'e>(
    alloc: Global,
    sig: &Signature,
    side: SortId,
    expr: &'e Sexpr,
) -> Result<(Pattern, Vec<BoundVariable<'e>>), CheckError>
    requires side { IsSort sig.now side }
    ensures value { IsAnswerFor held_binding (leaf_pattern sig.now side (name_of (part_of sig.now
        (expression_of expr.now)))) result }
{
    match name_of(expr) {
        Some(name) => lone_pattern(alloc, sig, side, name),
        None => any_pattern(alloc, side, None),
    }
}

// A name that stands alone: a constructor of this name, and else a variable.
fn lone_pattern<'e>(
    alloc: Global,
    sig: &Signature,
    side: SortId,
    name: &'e [u8],
) -> Result<(Pattern, Vec<BoundVariable<'e>>), CheckError>
    requires side { IsSort sig.now side }
    ensures value { IsAnswerFor held_binding (lone_pattern sig.now side name.now
        (ctor_named sig.now name.now)) result }
{
    match ctor_named(sig, name) {
        Some(ctor) => lone_ctor(alloc, sig, side, ctor),
        None => any_pattern(alloc, side, Some(name)),
    }
}

// A variable that fits every value of the sort.
fn any_pattern<'e>(
    alloc: Global,
    side: SortId,
    name: Option<&'e [u8]>,
) -> Result<(Pattern, Vec<BoundVariable<'e>>), CheckError>
    ensures ok { IfOk result (λ b. held_binding b ≡ any_pattern side (held_name name.entry)) }
    ensures err { IfErr result (λ e. e ≡ CheckError.NoMemory) }
{
    let mut variables = Vec::new(alloc);
    variables.push(BoundVariable { name, sort: side })?;
    Ok((Pattern::Any, variables))
}

// A constructor that stands alone.
fn lone_ctor<'e>(
    alloc: Global,
    sig: &Signature,
    side: SortId,
    ctor: NamedCtor,
) -> Result<(Pattern, Vec<BoundVariable<'e>>), CheckError>
    requires ctor { IsNamedCtor sig.now ctor }
    requires side { IsSort sig.now side }
    ensures value { IsAnswerFor held_binding (lone_ctor sig.now side ctor) result }
{
    let Some(c) = ctor_among(sig, ctor, side) else {
        return Err(CheckError::Refused(FOREIGN_PATTERN));
    };
    if !sig.ctor_sels(c).is_empty() {
        return Err(CheckError::Refused(WRONG_COUNT));
    }
    Ok((Pattern::Ctor(c), Vec::new(alloc)))
}

// A pattern of a constructor with variables.
fn list_pattern<'e>(
    alloc: Global,
    sig: &Signature,
    side: SortId,
    items: &'e [Sexpr],
) -> Result<(Pattern, Vec<BoundVariable<'e>>), CheckError>
    requires side { IsSort sig.now side }
    ensures value { (m : List Variable → Elaborated Sorted)
        → IsAnswerFor held_binding (pattern sig.now side (list_part (parts_of sig.now
        (expressions_of items.now)) m)) result }
{
    let [head, variables @ ..] = items else {
        return Err(CheckError::Refused(OUT_OF_SCOPE));
    };
    let Some(name) = name_of(head) else {
        return Err(CheckError::Refused(UNKNOWN_SYMBOL));
    };
    let Some(ctor) = ctor_named(sig, name) else {
        return Err(CheckError::Refused(UNKNOWN_SYMBOL));
    };
    let names = variable_names(alloc, variables)?;
    ctor_with(alloc, sig, side, names.as_slice(), ctor)
}

// The names of variables, none for `_`.
fn variable_names<'e>(
    alloc: Global,
    exprs: &'e [Sexpr],
) -> Result<Vec<Option<&'e [u8]>>, CheckError>
    ensures ok { (d : Declarations) → IfOk result (λ names. map held_name names.items
        ≡ variable_names (parts_of d (expressions_of exprs.now))) }
    ensures err { IfErr result (λ e. e ≡ CheckError.NoMemory) }
{
    let mut names = Vec::with_capacity(alloc, exprs.len())?;
    for expr in exprs {
        names.push(name_of(expr))?;
    }
    Ok(names)
}

// A constructor with variables of these names.
fn ctor_with<'e>(
    alloc: Global,
    sig: &Signature,
    side: SortId,
    names: &[Option<&'e [u8]>],
    ctor: NamedCtor,
) -> Result<(Pattern, Vec<BoundVariable<'e>>), CheckError>
    requires ctor { IsNamedCtor sig.now ctor }
    requires side { IsSort sig.now side }
    ensures value { IsAnswerFor held_binding (ctor_with sig.now side (map held_name names.now) ctor)
        result }
{
    let Some(c) = ctor_among(sig, ctor, side) else {
        return Err(CheckError::Refused(FOREIGN_PATTERN));
    };
    let fields = ctor_fields(alloc, sig, c)?;
    if names.len() != fields.len() {
        return Err(CheckError::Refused(WRONG_COUNT));
    }
    if names.is_empty() {
        return Err(CheckError::Refused(OUT_OF_SCOPE));
    }
    let repeated = has_repeated(alloc, names)?;
    if repeated {
        return Err(CheckError::Refused(REPEATED_VARIABLE));
    }
    Ok((Pattern::Ctor(c), bounds(alloc, names, fields.as_slice())?))
}

/// The names that bindings bind, in order. It fails only where memory runs out.
pub fn bound_names<'e>(
    alloc: Global,
    exprs: &'e [Sexpr],
) -> Result<Vec<Option<&'e [u8]>>, CheckError>
    ensures ok { (d : Declarations) → IfOk result (λ names. map held_name names.items ≡ bound_names
        (parts_of d (expressions_of exprs.now))) }
    ensures err { IfErr result (λ e. e ≡ CheckError.NoMemory) }
{
    let mut names = Vec::with_capacity(alloc, exprs.len())?;
    for expr in exprs {
        names.push(bound_name(expr))?;
    }
    Ok(names)
}

// The name that a binding binds.
fn bound_name(expr: &Sexpr) -> Option<&[u8]>
    ensures held { (d : Declarations) → held_name result ≡ bound_name (part_of d
        (expression_of expr.now)) }
{
    match expr {
        Sexpr::List(items) => first_name(items.as_slice()),
        Sexpr::Symbol(_)
        | Sexpr::Quoted(_)
        | Sexpr::Keyword(_)
        | Sexpr::Text(_)
        | Sexpr::Numeral(_)
        | Sexpr::Decimal(_)
        | Sexpr::Binary(_)
        | Sexpr::Hex(_) => None,
    }
}

// The name that the first of the expressions is.
fn first_name(items: &[Sexpr]) -> Option<&[u8]>
    ensures held { (d : Declarations) (m : List Variable → Elaborated Sorted)
        → held_name result ≡ bound_name (list_part (parts_of d (expressions_of items.now)) m) }
{
    match items {
        [] => None,
        [first, ..] => name_of(first),
    }
}

/// Variables with these names and sorts, in pairs, as many as there are of both. It fails only where memory runs out.
pub fn bounds<'e>(
    alloc: Global,
    names: &[Option<&'e [u8]>],
    sorts: &[SortId],
) -> Result<Vec<BoundVariable<'e>>, CheckError>
    ensures ok { IfOk result (λ bounds. map variable_of bounds.items ≡ variables
        (map held_name names.now) sorts.now) }
    ensures err { IfErr result (λ e. e ≡ CheckError.NoMemory) }
{
    let mut bounds = Vec::with_capacity(alloc, names.len())?;
    let mut left = names;
    let mut sorts_left = sorts;
    while let [name, more @ ..] = left {
        let [sort, more_sorts @ ..] = sorts_left else {
            return Ok(bounds);
        };
        bounds.push(BoundVariable {
            name: *name,
            sort: *sort,
        })?;
        left = more;
        sorts_left = more_sorts;
    }
    Ok(bounds)
}

/// The sort, if its values may be matched: a datatype or a codatatype. Bool is refused with 28, a declared sort with
/// 23.
///
/// A number that is no sort's is refused like Bool.
pub fn matchable(sig: &Signature, side: SortId) -> Result<SortId, CheckError>
    ensures value { IsAnswerFor as_it_is (matchable sig.now side) result }
    ensures inside { IfOk result (IsSort sig.now) }
{
    if side.0 >= sig.sorts() {
        return Err(CheckError::Refused(OUT_OF_SCOPE));
    }
    match sig.kind(side) {
        Kind::Bool => Err(CheckError::Refused(OUT_OF_SCOPE)),
        Kind::Free => Err(CheckError::Refused(WRONG_SORT)),
        Kind::Data | Kind::Codata => Ok(side),
    }
}
