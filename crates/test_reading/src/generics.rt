//! Sorts with arguments: `(free NAME COUNT)` for an uninterpreted sort with so many parameters, `(data DECLARATION ..)`
//! and `(codata DECLARATION ..)`, where a declaration is `(NAME (PARAMETER ..) CONSTRUCTOR ..)`, a constructor
//! `(NAME FIELD ..)`, a field `(NAME SORT)` and a sort a name or `(NAME SORT ..)`, and `(synonym NAME (PARAMETER ..) SORT)`:
//! each is answered with `ok`, with `taken` where a name is not new, or with the number of its refusal as `E18`. `count`
//! shows how many sorts and generics there are, and how many synonyms, and `(cut 2 0)` takes back all but so many.
//! `(same SORT SORT)` shows whether two sorts are one. `(add (SORTS CONSTRUCTORS SELECTORS) SORT ..)` adds sorts to none, one
//! after the other, each where there is room for so many, and shows all that are sorts then, in order; `(fit ..)` shows
//! `ok` in place of these.
ghost use Rattle.std.specs.Prelude.{◌≡◌, map};
ghost use Rattle.ct_generics.specs.Declarations.{Declared};
ghost use Rattle.ct_generics.specs.Stored.{AreDeclared, AreFree};

use crate::adding::{add_all, show_sorts};
use crate::steps::{show_bool, show_count};
use ct_cases::{CaseError, bytes_of, is_word, items_of, number_of, size_of, split_word};
use ct_generics::{
    CtorDecl, Expressions, Field, GenericError, Generics, Items, Kind, Name, Room, SortDecl,
    SortExpr, add_block, add_named, add_synonym, are_free, resolve,
};
use ct_sexpr::Sexpr;
use std::alloc::Global;

/// How deep a sort may be nested.
const MOST_NESTED: u32 = 100;

/// Answers the steps over no declarations.
pub fn answer(alloc: Global, steps: &[Sexpr], out: &mut String) -> Result<(), CaseError> {
    let mut g = Box::new(alloc, Generics::new(alloc))?;
    answer_steps(alloc, &mut g, steps, out)
}

/// Answers steps.
fn answer_steps(
    alloc: Global,
    g: &mut Generics,
    steps: &[Sexpr],
    out: &mut String,
) -> Result<(), CaseError>
    requires declared { (d : Declared) × AreDeclared g.old d }
{
    for step in steps {
        answer_step(alloc, g, step, out)?;
    }
    Ok(())
}

/// Answers a step.
fn answer_step(
    alloc: Global,
    g: &mut Generics,
    step: &Sexpr,
    out: &mut String,
) -> Result<(), CaseError>
    requires declared { (d : Declared) × AreDeclared g.old d }
    ensures declared { (d : Declared) × AreDeclared g.new d }
{
    if is_word(step, "count") {
        return show_counts(alloc, g, out);
    }
    let (word, parts) = split_word(step)?;
    match word {
        "free" => answer_free(alloc, g, parts, out),
        "data" => answer_block(alloc, g, Kind::Data, parts, out),
        "codata" => answer_block(alloc, g, Kind::Codata, parts, out),
        "synonym" => answer_synonym(alloc, g, parts, out),
        "same" => answer_same(alloc, g, parts, out),
        "add" => answer_add(alloc, g, parts, true, out),
        "fit" => answer_add(alloc, g, parts, false, out),
        "cut" => answer_cut(g, parts),
        _ => Err(CaseError::Bad),
    }
}

/// Shows how many sorts and generics there are, and how many synonyms.
fn show_counts(alloc: Global, g: &Generics, out: &mut String) -> Result<(), CaseError> {
    show_count(alloc, g.head_count() as u64, out)?;
    show_count(alloc, g.synonym_count() as u64, out)
}

/// Takes back all but so many sorts and generics, and so many synonyms.
fn answer_cut(g: &mut Generics, parts: &[Sexpr]) -> Result<(), CaseError>
    requires declared { (d : Declared) × AreDeclared g.old d }
    ensures declared { (d : Declared) × AreDeclared g.new d }
{
    match parts {
        [heads, synonyms] => {
            let heads = size_of(heads)?;
            let synonyms = size_of(synonyms)?;
            g.cut_to(heads as usize, synonyms as usize);
            Ok(())
        }
        _ => Err(CaseError::Bad),
    }
}

/// Declares an uninterpreted sort with so many parameters.
fn answer_free(
    alloc: Global,
    g: &mut Generics,
    parts: &[Sexpr],
    out: &mut String,
) -> Result<(), CaseError>
    requires declared { (d : Declared) × AreDeclared g.old d }
    ensures declared { (d : Declared) × AreDeclared g.new d }
{
    match parts {
        [name, count] => {
            let name = name_of(alloc, name)?;
            let count = number_of(count)?;
            add_free(alloc, g, &name, count, out)
        }
        _ => Err(CaseError::Bad),
    }
}

/// Declares an uninterpreted sort of this name with so many parameters.
fn add_free(
    alloc: Global,
    g: &mut Generics,
    name: &Name,
    count: u64,
    out: &mut String,
) -> Result<(), CaseError>
    requires declared { (d : Declared) × AreDeclared g.old d }
    ensures declared { (d : Declared) × AreDeclared g.new d }
{
    if g.has_head(name) {
        return show_taken(out);
    }
    match add_named(alloc, g, Kind::Free, name, count) {
        Ok(()) => show_ok(out),
        Err(error) => show_error(alloc, error, out),
    }
}

/// Declares a block.
fn answer_block(
    alloc: Global,
    g: &mut Generics,
    kind: Kind,
    parts: &[Sexpr],
    out: &mut String,
) -> Result<(), CaseError>
    requires declared { (d : Declared) × AreDeclared g.old d }
    ensures declared { (d : Declared) × AreDeclared g.new d }
{
    let decls = block_of(alloc, parts)?;
    let block = decls.as_slice();
    match are_free(alloc, g, block) {
        Ok(free) => {
            if free {
                return add_new_block(alloc, g, kind, block, out);
            }
            show_taken(out)
        }
        Err(error) => show_error(alloc, error, out),
    }
}

/// Declares a block whose names are new.
fn add_new_block(
    alloc: Global,
    g: &mut Generics,
    kind: Kind,
    block: &[SortDecl],
    out: &mut String,
) -> Result<(), CaseError>
    requires declared { (d : Declared) × AreDeclared g.old d }
    requires free { AreFree g.old.head_names (map (λ (s : SortDecl). s.name) block.now) }
    ensures declared { (d : Declared) × AreDeclared g.new d }
{
    match add_block(alloc, g, kind, block) {
        Ok(()) => show_ok(out),
        Err(error) => show_error(alloc, error, out),
    }
}

/// Declares a synonym.
fn answer_synonym(
    alloc: Global,
    g: &mut Generics,
    parts: &[Sexpr],
    out: &mut String,
) -> Result<(), CaseError>
    requires declared { (d : Declared) × AreDeclared g.old d }
    ensures declared { (d : Declared) × AreDeclared g.new d }
{
    match parts {
        [name, params, body] => {
            let name = name_of(alloc, name)?;
            let params = items_of(params)?;
            let body = sort_expr(alloc, params, body, MOST_NESTED)?;
            add_new_synonym(alloc, g, &name, params.len() as u64, &body, out)
        }
        _ => Err(CaseError::Bad),
    }
}

/// Declares a synonym with this body.
fn add_new_synonym(
    alloc: Global,
    g: &mut Generics,
    name: &Name,
    params: u64,
    body: &SortExpr,
    out: &mut String,
) -> Result<(), CaseError>
    requires declared { (d : Declared) × AreDeclared g.old d }
    ensures declared { (d : Declared) × AreDeclared g.new d }
{
    if g.has_head(name) {
        return show_taken(out);
    }
    if g.has_synonym(name) {
        return show_taken(out);
    }
    match add_synonym(alloc, g, name, params, body) {
        Ok(()) => show_ok(out),
        Err(error) => show_error(alloc, error, out),
    }
}

/// Shows whether two sorts are one.
fn answer_same(
    alloc: Global,
    g: &Generics,
    parts: &[Sexpr],
    out: &mut String,
) -> Result<(), CaseError>
    requires declared { (d : Declared) × AreDeclared g.now d }
{
    match parts {
        [left, right] => {
            let left = sort_expr(alloc, &[], left, MOST_NESTED)?;
            let right = sort_expr(alloc, &[], right, MOST_NESTED)?;
            match are_same(alloc, g, &left, &right) {
                Ok(same) => show_bool(same, out),
                Err(error) => show_error(alloc, error, out),
            }
        }
        _ => Err(CaseError::Bad),
    }
}

/// Whether two written sorts stand for one.
fn are_same(
    alloc: Global,
    g: &Generics,
    left: &SortExpr,
    right: &SortExpr,
) -> Result<bool, GenericError>
    requires declared { (d : Declared) × AreDeclared g.now d }
{
    let mut table = Expressions::new(alloc);
    let left = resolve(alloc, g, &mut table, left)?;
    let right = resolve(alloc, g, &mut table, right)?;
    Ok(left == right)
}

/// Adds sorts to none, and shows which are sorts then, or that they fit.
fn answer_add(
    alloc: Global,
    g: &Generics,
    parts: &[Sexpr],
    shown: bool,
    out: &mut String,
) -> Result<(), CaseError>
    requires declared { (d : Declared) × AreDeclared g.now d }
{
    match parts {
        [room, sorts @ ..] => {
            let room = room_of(room)?;
            let sorts = sort_exprs(alloc, sorts)?;
            match add_all(alloc, g, room, sorts.as_slice()) {
                Ok(table) => {
                    if shown {
                        return show_sorts(alloc, g, &table, out);
                    }
                    show_ok(out)
                }
                Err(error) => show_error(alloc, error, out),
            }
        }
        _ => Err(CaseError::Bad),
    }
}

/// Room for so many sorts, constructors and selectors.
fn room_of(part: &Sexpr) -> Result<Room, CaseError> {
    match items_of(part)? {
        [sorts, ctors, sels] => {
            let sorts = number_of(sorts)?;
            let ctors = number_of(ctors)?;
            let sels = number_of(sels)?;
            Ok(Room { sorts, ctors, sels })
        }
        _ => Err(CaseError::Bad),
    }
}

/// Sorts without parameters.
fn sort_exprs(alloc: Global, parts: &[Sexpr]) -> Result<Vec<SortExpr>, CaseError> {
    let mut sorts = Vec::new(alloc);
    for part in parts {
        sorts.push(sort_expr(alloc, &[], part, MOST_NESTED)?)?;
    }
    Ok(sorts)
}

/// The declarations of a block.
fn block_of(alloc: Global, parts: &[Sexpr]) -> Result<Vec<SortDecl>, CaseError> {
    let mut block = Vec::new(alloc);
    for part in parts {
        block.push(sort_decl(alloc, part)?)?;
    }
    Ok(block)
}

/// The declaration of a sort or generic with its constructors.
fn sort_decl(alloc: Global, part: &Sexpr) -> Result<SortDecl, CaseError> {
    match items_of(part)? {
        [name, params, ctors @ ..] => {
            let name = name_of(alloc, name)?;
            let params = items_of(params)?;
            let ctors = Items::new(ctor_decls(alloc, params, ctors)?);
            Ok(SortDecl {
                name,
                params: params.len() as u64,
                ctors,
            })
        }
        _ => Err(CaseError::Bad),
    }
}

/// The constructors of a sort or generic with these parameters.
fn ctor_decls(
    alloc: Global,
    params: &[Sexpr],
    parts: &[Sexpr],
) -> Result<Vec<CtorDecl>, CaseError> {
    let mut ctors = Vec::new(alloc);
    for part in parts {
        ctors.push(ctor_decl(alloc, params, part)?)?;
    }
    Ok(ctors)
}

/// The declaration of a constructor with its fields.
fn ctor_decl(alloc: Global, params: &[Sexpr], part: &Sexpr) -> Result<CtorDecl, CaseError> {
    match items_of(part)? {
        [name, parts @ ..] => {
            let name = name_of(alloc, name)?;
            let fields = Items::new(fields_of(alloc, params, parts)?);
            Ok(CtorDecl { name, fields })
        }
        _ => Err(CaseError::Bad),
    }
}

/// The fields of a constructor.
fn fields_of(alloc: Global, params: &[Sexpr], parts: &[Sexpr]) -> Result<Vec<Field>, CaseError> {
    let mut fields = Vec::new(alloc);
    for part in parts {
        fields.push(field_of(alloc, params, part)?)?;
    }
    Ok(fields)
}

/// A field with its sort.
fn field_of(alloc: Global, params: &[Sexpr], part: &Sexpr) -> Result<Field, CaseError> {
    match items_of(part)? {
        [name, sort] => {
            let name = name_of(alloc, name)?;
            let sort = sort_expr(alloc, params, sort, MOST_NESTED)?;
            Ok(Field { name, sort })
        }
        _ => Err(CaseError::Bad),
    }
}

/// A sort over these parameters, which is nested at most so deep.
#[cycle(sorts)]
fn sort_expr(
    alloc: Global,
    params: &[Sexpr],
    part: &Sexpr,
    deep: u32,
) -> Result<SortExpr, CaseError> {
    if deep == 0 {
        return Err(CaseError::Bad);
    }
    match part {
        Sexpr::List(items) => applied(alloc, params, items, deep - 1),
        _ => alone(alloc, params, part),
    }
}

/// A name with its arguments.
#[cycle(sorts)]
fn applied(
    alloc: Global,
    params: &[Sexpr],
    items: &[Sexpr],
    deep: u32,
) -> Result<SortExpr, CaseError> {
    match items {
        [name, parts @ ..] => {
            let name = name_of(alloc, name)?;
            let mut args = Vec::new(alloc);
            for part in parts {
                args.push(sort_expr(alloc, params, part, deep)?)?;
            }
            Ok(SortExpr::App(name, args))
        }
        _ => Err(CaseError::Bad),
    }
}

/// A parameter, or a name without arguments.
fn alone(alloc: Global, params: &[Sexpr], part: &Sexpr) -> Result<SortExpr, CaseError> {
    let name = bytes_of(alloc, part)?;
    for i in 0..params.len() {
        if bytes_of(alloc, &params[i])?.as_slice() == name.as_slice() {
            return Ok(SortExpr::Param(i as u64));
        }
    }
    Ok(SortExpr::App(Name::new(name), Vec::new(alloc)))
}

/// The name that a part stands for.
fn name_of(alloc: Global, part: &Sexpr) -> Result<Name, CaseError> {
    Ok(Name::new(bytes_of(alloc, part)?))
}

/// Shows that a declaration was made.
fn show_ok(out: &mut String) -> Result<(), CaseError> {
    out.push_str(" ok")?;
    Ok(())
}

/// Shows that a name is not new.
fn show_taken(out: &mut String) -> Result<(), CaseError> {
    out.push_str(" taken")?;
    Ok(())
}

/// Shows the number of a refusal.
fn show_error(alloc: Global, error: GenericError, out: &mut String) -> Result<(), CaseError> {
    match error {
        GenericError::Refused(number) => {
            out.push_str(format!(in alloc; " E{number}")?.as_str())?;
            Ok(())
        }
        GenericError::NoMemory => Err(CaseError::NoMemory),
    }
}
