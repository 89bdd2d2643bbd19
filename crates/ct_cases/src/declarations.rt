//! Declarations that a case names: `(free NAME)` and `(free NAME COUNT)`, `(data SORT ..)` and `(codata SORT ..)` where a
//! sort is `(NAME CONSTRUCTOR ..)` or `(par (PARAMETER ..) NAME CONSTRUCTOR ..)`, a constructor `(NAME FIELD ..)` and a
//! field `(NAME SORT)`, `(synonym NAME (PARAMETER ..) SORT)`, `(instance SORT)`,
//! and `(fun NAME (SORT ..) SORT)` and `(def NAME (SORT ..) SORT)`. Among constructors,
//! `(fill 3)` stands for `k0`, `k1` and `k2`, and among fields for Boolean ones `f0`, `f1` and
//! `f2`.
ghost use Rattle.std.specs.Prelude.{◌≡◌, ◌⊎◌, All, IfOk};
ghost use Rattle.ct_sorts.specs.declared.ids.Kind.TheVariants as Kind;
ghost use Rattle.ct_sorts.specs.Declarations.{start, IsSort};
ghost use Rattle.ct_sorts.specs.Grown.{Extends};

use crate::bytes::bytes_of;
use crate::case::{is_word, items_of, size_of, split_word};
use crate::error::CaseError;
use crate::sorts::sort_expr;
use ct_sexpr::Sexpr;
use ct_sorts::{
    CtorDecl, Declared, Field, Items, Kind, Name, SigError, Signature, SortDecl, SortExpr, SortId,
    Symbol, are_block_parameters_below, are_parameters_below, growth,
};
use std::alloc::Global;

/// A theorem: whatever is declared extends what every signature begins with.
pub fn extends_start(sig: &Signature)
    ensures grown { Extends sig.now start }
{
    growth();
    let _sorts = sig.sorts();
}

/// Makes each declaration, and fails at the first that is refused.
pub fn declare_all(alloc: Global, sig: &mut Signature, steps: &[Sexpr]) -> Result<(), CaseError>
    ensures grown { Extends sig.new sig.old }
{
    growth();
    for step in steps {
        declare(alloc, sig, step)??;
    }
    Ok(())
}

/// Makes the declaration: the number of the first sort, the function or the definition that is
/// declared, or the refusal.
pub fn declare(
    alloc: Global,
    sig: &mut Signature,
    step: &Sexpr,
) -> Result<Result<u32, SigError>, CaseError>
    ensures grown { Extends sig.new sig.old }
{
    growth();
    let (word, parts) = split_word(step)?;
    if word == "free" {
        return declare_free(alloc, sig, parts);
    }
    if word == "data" {
        return declare_block(alloc, sig, Kind::Data, parts);
    }
    if word == "codata" {
        return declare_block(alloc, sig, Kind::Codata, parts);
    }
    if word == "synonym" {
        return declare_synonym(alloc, sig, parts);
    }
    if word == "instance" {
        return declare_instance(alloc, sig, parts);
    }
    if word == "fun" {
        return declare_function(alloc, sig, parts);
    }
    if word == "def" {
        return define_function(alloc, sig, parts);
    }
    Err(CaseError::Bad)
}

/// The name that a part stands for.
pub fn name_of(alloc: Global, part: &Sexpr) -> Result<Name, CaseError> {
    Ok(Name::new(bytes_of(alloc, part)?))
}

/// What the name stands for.
pub fn symbol_of(
    alloc: Global,
    sig: &Signature,
    part: &Sexpr,
) -> Result<Option<Symbol>, CaseError> {
    let name = bytes_of(alloc, part)?;
    let found = sig.lookup(&name);
    drop(name);
    Ok(found)
}

/// The declared sort of this name.
pub fn sort_of(alloc: Global, sig: &Signature, part: &Sexpr) -> Result<SortId, CaseError>
    ensures inside { IfOk result (IsSort sig.now) }
{
    let sort = sort_expr(alloc, &[], part)?;
    if !are_parameters_below(0, &sort) {
        return Err(CaseError::Bad);
    }
    let _sorts = sig.sorts();
    sig.find_instance(&sort)?.ok_or(CaseError::Bad)
}

/// The declared sorts of these names.
pub fn sorts_of(alloc: Global, sig: &Signature, parts: &[Sexpr]) -> Result<Vec<SortId>, CaseError>
    ensures inside { IfOk result (λ sorts. All (IsSort sig.now) sorts.items) }
{
    let mut sorts = Vec::new(alloc);
    for part in parts {
        sorts.push(sort_of(alloc, sig, part)?)?;
    }
    Ok(sorts)
}

/// Declares an uninterpreted sort.
fn declare_free(
    alloc: Global,
    sig: &mut Signature,
    parts: &[Sexpr],
) -> Result<Result<u32, SigError>, CaseError>
    ensures grown { Extends sig.new sig.old }
{
    growth();
    match parts {
        [name] => {
            let name = name_of(alloc, name)?;
            Ok(sig.add_free(name).map(|sort| sort.0))
        }
        [name, count] => {
            let count = size_of(count)?;
            if count < 1 || count > 255 {
                return Err(CaseError::Bad);
            }
            let name = name_of(alloc, name)?;
            Ok(sig.add_free_generic(name, count).map(|generic| generic.0))
        }
        _ => Err(CaseError::Bad),
    }
}

/// Declares a synonym, and gives the number of those before it.
fn declare_synonym(
    alloc: Global,
    sig: &mut Signature,
    parts: &[Sexpr],
) -> Result<Result<u32, SigError>, CaseError>
    ensures grown { Extends sig.new sig.old }
{
    growth();
    match parts {
        [name, params, body] => {
            let name = name_of(alloc, name)?;
            let params = items_of(params)?;
            let body = sort_expr(alloc, params, body)?;
            let count = params.len() as u64;
            if !are_parameters_below(count, &body) {
                return Err(CaseError::Bad);
            }
            let before = sig.mark().synonyms();
            Ok(sig.add_synonym(name, count, body).map(|()| before))
        }
        _ => Err(CaseError::Bad),
    }
}

/// The number of a sort that comes into the list where it is not there.
fn declare_instance(
    alloc: Global,
    sig: &mut Signature,
    parts: &[Sexpr],
) -> Result<Result<u32, SigError>, CaseError>
    ensures grown { Extends sig.new sig.old }
{
    growth();
    match parts {
        [sort] => {
            let sort = sort_expr(alloc, &[], sort)?;
            if !are_parameters_below(0, &sort) {
                return Err(CaseError::Bad);
            }
            Ok(sig.instance(&sort).map(|sort| sort.0))
        }
        _ => Err(CaseError::Bad),
    }
}

/// Declares a block of datatypes or codatatypes.
fn declare_block(
    alloc: Global,
    sig: &mut Signature,
    kind: Kind,
    parts: &[Sexpr],
) -> Result<Result<u32, SigError>, CaseError>
    requires kind { (kind ≡ Kind.Data) ⊎ (kind ≡ Kind.Codata) }
    ensures grown { Extends sig.new sig.old }
{
    growth();
    let mut block = Vec::new(alloc);
    for part in parts {
        block.push(sort_decl(alloc, part)?)?;
    }
    if !are_block_parameters_below(block.as_slice()) {
        return Err(CaseError::Bad);
    }
    match sig.add_block(kind, block) {
        Ok(given) => Ok(Ok(first_of(&given)?)),
        Err(error) => Ok(Err(error)),
    }
}

/// The number of the first of these.
fn first_of(given: &[Declared]) -> Result<u32, CaseError> {
    match given {
        [] => Err(CaseError::Bad),
        [Declared::Sort(sort), ..] => Ok(sort.0),
        [Declared::Generic(generic), ..] => Ok(generic.0),
    }
}

/// The declaration of a sort or a generic with its constructors.
fn sort_decl(alloc: Global, part: &Sexpr) -> Result<SortDecl, CaseError> {
    match items_of(part)? {
        [word, params, name, parts @ ..] if is_word(word, "par") => {
            named_decl(alloc, items_of(params)?, name, parts)
        }
        [name, parts @ ..] => named_decl(alloc, &[], name, parts),
        _ => Err(CaseError::Bad),
    }
}

/// The declaration of this name with these parameters.
fn named_decl(
    alloc: Global,
    params: &[Sexpr],
    name: &Sexpr,
    parts: &[Sexpr],
) -> Result<SortDecl, CaseError> {
    let name = name_of(alloc, name)?;
    let ctors = Items::new(ctor_decls(alloc, params, parts)?);
    Ok(SortDecl {
        name,
        params: params.len() as u64,
        ctors,
    })
}

/// The constructors of a sort.
fn ctor_decls(
    alloc: Global,
    params: &[Sexpr],
    parts: &[Sexpr],
) -> Result<Vec<CtorDecl>, CaseError> {
    let mut ctors = Vec::new(alloc);
    for part in parts {
        push_ctors(alloc, params, part, &mut ctors)?;
    }
    Ok(ctors)
}

/// Appends a constructor, or so many without fields.
fn push_ctors(
    alloc: Global,
    params: &[Sexpr],
    part: &Sexpr,
    ctors: &mut Vec<CtorDecl>,
) -> Result<(), CaseError> {
    for number in 0..filled(part)? {
        let name = format!(in alloc; "k{number}")?;
        ctors.push(ctor_decl(alloc, params, name.as_bytes(), &[])?)?;
    }
    match items_of(part)? {
        [] => Err(CaseError::Bad),
        [name, parts @ ..] if !is_fill(name) => {
            let name = bytes_of(alloc, name)?;
            Ok(ctors.push(ctor_decl(alloc, params, &name, parts)?)?)
        }
        _ => Ok(()),
    }
}

/// The declaration of a constructor with its fields.
fn ctor_decl(
    alloc: Global,
    params: &[Sexpr],
    name: &[u8],
    parts: &[Sexpr],
) -> Result<CtorDecl, CaseError> {
    let mut fields = Vec::new(alloc);
    for part in parts {
        push_fields(alloc, params, part, &mut fields)?;
    }
    let name = Name::from_slice(alloc, name)?;
    let fields = Items::new(fields);
    Ok(CtorDecl { name, fields })
}

/// Appends a field, or so many Boolean ones.
fn push_fields(
    alloc: Global,
    params: &[Sexpr],
    part: &Sexpr,
    fields: &mut Vec<Field>,
) -> Result<(), CaseError> {
    for number in 0..filled(part)? {
        let name = format!(in alloc; "f{number}")?;
        let sort = Name::from_slice(alloc, b"Bool")?;
        fields.push(Field {
            name: Name::from_slice(alloc, name.as_bytes())?,
            sort: SortExpr::App(sort, Vec::new(alloc)),
        })?;
    }
    match items_of(part)? {
        [name, _] if is_fill(name) => Ok(()),
        [name, sort] => {
            let name = name_of(alloc, name)?;
            let sort = sort_expr(alloc, params, sort)?;
            Ok(fields.push(Field { name, sort })?)
        }
        _ => Err(CaseError::Bad),
    }
}

/// Whether the part is the word `fill`.
fn is_fill(part: &Sexpr) -> bool {
    is_word(part, "fill")
}

/// The number of a `fill`, and 0 of anything else.
fn filled(part: &Sexpr) -> Result<u32, CaseError> {
    match items_of(part)? {
        [name, count] if is_fill(name) => size_of(count),
        _ => Ok(0),
    }
}

/// Declares a function.
fn declare_function(
    alloc: Global,
    sig: &mut Signature,
    parts: &[Sexpr],
) -> Result<Result<u32, SigError>, CaseError>
    ensures grown { Extends sig.new sig.old }
{
    growth();
    match parts {
        [name, args, result] => {
            let name = name_of(alloc, name)?;
            let args = sorts_of(alloc, sig, items_of(args)?)?;
            let result = sort_of(alloc, sig, result)?;
            Ok(sig.add_fun(name, args, result).map(|f| f.0))
        }
        _ => Err(CaseError::Bad),
    }
}

/// Defines a function.
fn define_function(
    alloc: Global,
    sig: &mut Signature,
    parts: &[Sexpr],
) -> Result<Result<u32, SigError>, CaseError>
    ensures grown { Extends sig.new sig.old }
{
    growth();
    match parts {
        [name, args, result] => {
            let name = name_of(alloc, name)?;
            let args = sorts_of(alloc, sig, items_of(args)?)?;
            let result = sort_of(alloc, sig, result)?;
            Ok(sig.add_def(name, args, result).map(|d| d.0))
        }
        _ => Err(CaseError::Bad),
    }
}
