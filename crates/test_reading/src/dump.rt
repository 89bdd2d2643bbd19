//! All that a signature says of its numbers, as `[ctor 2 c 2 (0)]`: a sort with its name, its
//! kind and its constructors, a constructor with its name, its sort and its selectors, a selector
//! with its name, its constructor, its index among the fields and its sort, a function with its
//! name, its arguments and its result, and a definition with the last two.
ghost use Rattle.std.specs.Prelude.{◌<◌, length};
ghost use Rattle.ct_generics.specs.Declarations.{Head};
ghost use Rattle.ct_sorts.specs.Lookup.{IsGeneric, IsGenericHead};

use ct_cases::{CaseError, show_bytes};
use ct_sorts::{CtorId, DefId, FunId, GenId, SelId, Signature, SortId};
use std::alloc::Global;

/// Shows everything.
pub fn show_all(alloc: Global, sig: &Signature, out: &mut String) -> Result<(), CaseError> {
    show_kind(alloc, sig, "sort", sig.sorts(), out)?;
    show_kind(alloc, sig, "ctor", sig.mark().ctors(), out)?;
    show_kind(alloc, sig, "sel", sig.mark().sels(), out)?;
    show_kind(alloc, sig, "function", sig.funs(), out)?;
    show_kind(alloc, sig, "definition", sig.mark().defs(), out)
}

/// Shows the first items of a kind.
fn show_kind(
    alloc: Global,
    sig: &Signature,
    kind: &str,
    count: u32,
    out: &mut String,
) -> Result<(), CaseError> {
    for number in 0..count {
        show_one(alloc, sig, kind, number, out)?;
    }
    Ok(())
}

/// Shows the item of this kind and number.
pub fn show_one(
    alloc: Global,
    sig: &Signature,
    kind: &str,
    number: u32,
    out: &mut String,
) -> Result<(), CaseError> {
    out.push_str(" [")?;
    out.push_str(kind)?;
    out.push_str(format!(in alloc; " {number} ")?.as_str())?;
    match kind {
        "sort" => show_sort(alloc, sig, number, out)?,
        "ctor" => show_ctor(alloc, sig, number, out)?,
        "sel" => show_sel(alloc, sig, number, out)?,
        "function" => show_function(alloc, sig, number, out)?,
        "definition" => show_definition(alloc, sig, number, out)?,
        "origin" => show_origin(alloc, sig, number, out)?,
        "determined" => show_determined(alloc, sig, number, out)?,
        _ => return Err(CaseError::Bad),
    }
    out.push(']')?;
    Ok(())
}

fn show_sort(
    alloc: Global,
    sig: &Signature,
    number: u32,
    out: &mut String,
) -> Result<(), CaseError> {
    if number >= sig.sorts() {
        return Err(CaseError::Bad);
    }
    let sort = SortId(number);
    show_bytes(alloc, sig.sort_name(sort), out)?;
    out.push_str(format!(in alloc; " {:?} (", sig.kind(sort))?.as_str())?;
    for c in sig.ctors(sort) {
        show_number(alloc, c.0, out)?;
    }
    out.push(')')?;
    Ok(())
}

/// Shows the generic and the arguments of a sort, and its text.
fn show_origin(
    alloc: Global,
    sig: &Signature,
    number: u32,
    out: &mut String,
) -> Result<(), CaseError> {
    if number >= sig.sorts() {
        return Err(CaseError::Bad);
    }
    let sort = SortId(number);
    match sig.sort_gen(sort) {
        None => out.push('-')?,
        Some(g) => out.push_str(format!(in alloc; "{}", g.0)?.as_str())?,
    }
    out.push_str(" (")?;
    for arg in sig.sort_args(sort) {
        show_number(alloc, arg.0, out)?;
    }
    out.push_str(") ")?;
    show_bytes(alloc, sig.sort_text(sort), out)
}

/// Shows the generic of this name.
pub fn show_generic(
    alloc: Global,
    sig: &Signature,
    name: &[u8],
    out: &mut String,
) -> Result<(), CaseError> {
    match sig.generic_named(name) {
        Some(g) => show_generic_at(alloc, sig, g, out),
        None => Err(CaseError::Bad),
    }
}

/// Shows a generic: its number, its name, its kind, the number of its parameters, and for each constructor how many fields
/// there are and whether they determine the arguments.
fn show_generic_at(
    alloc: Global,
    sig: &Signature,
    g: GenId,
    out: &mut String,
) -> Result<(), CaseError>
    requires generic { IsGeneric sig.now g }
{
    out.push_str(format!(in alloc; " [generic {} ", g.0)?.as_str())?;
    show_bytes(alloc, sig.gen_name(g), out)?;
    let (kind, params) = (sig.gen_kind(g), sig.gen_params(g));
    out.push_str(format!(in alloc; " {kind:?} {params} (")?.as_str())?;
    for i in 0..sig.gen_ctors(g) {
        show_generic_ctor(alloc, sig, g, i, out)?;
    }
    out.push_str(")]")?;
    Ok(())
}

/// Shows how many fields the constructor of a generic has and whether they determine the arguments.
fn show_generic_ctor(
    alloc: Global,
    sig: &Signature,
    g: GenId,
    ctor: u32,
    out: &mut String,
) -> Result<(), CaseError>
    requires generic { IsGeneric sig.now g }
    requires below { (head : Head) → IsGenericHead sig.now g head → ctor < length head.ctors }
{
    if ctor > 0 {
        out.push(' ')?;
    }
    let (_, fields) = sig.gen_fields(g, ctor);
    out.push_str(format!(in alloc; "{}", fields.len())?.as_str())?;
    out.push(if sig.gen_determined(g, ctor) {
        '+'
    } else {
        '-'
    })?;
    Ok(())
}

/// Shows whether the constructor is determined.
fn show_determined(
    alloc: Global,
    sig: &Signature,
    number: u32,
    out: &mut String,
) -> Result<(), CaseError> {
    if number >= sig.mark().ctors() {
        return Err(CaseError::Bad);
    }
    let determined = sig.determined(CtorId(number));
    out.push_str(format!(in alloc; "{determined}")?.as_str())?;
    Ok(())
}

fn show_ctor(
    alloc: Global,
    sig: &Signature,
    number: u32,
    out: &mut String,
) -> Result<(), CaseError> {
    if number >= sig.mark().ctors() {
        return Err(CaseError::Bad);
    }
    let c = CtorId(number);
    show_bytes(alloc, sig.ctor_name(c), out)?;
    out.push_str(format!(in alloc; " {} (", sig.ctor_sort(c).0)?.as_str())?;
    for s in sig.ctor_sels(c) {
        show_number(alloc, s.0, out)?;
    }
    out.push(')')?;
    Ok(())
}

fn show_sel(
    alloc: Global,
    sig: &Signature,
    number: u32,
    out: &mut String,
) -> Result<(), CaseError> {
    if number >= sig.mark().sels() {
        return Err(CaseError::Bad);
    }
    let s = SelId(number);
    show_bytes(alloc, sig.sel_name(s), out)?;
    let (ctor, index) = (sig.sel_ctor(s).0, sig.sel_place(s));
    let text = format!(in alloc; " {ctor} {index} {}", sig.sel_sort(s).0)?;
    out.push_str(text.as_str())?;
    Ok(())
}

fn show_function(
    alloc: Global,
    sig: &Signature,
    number: u32,
    out: &mut String,
) -> Result<(), CaseError> {
    if number >= sig.funs() {
        return Err(CaseError::Bad);
    }
    let f = FunId(number);
    show_bytes(alloc, sig.fun_name(f), out)?;
    out.push(' ')?;
    show_over(alloc, sig.fun_args(f), sig.fun_result(f), out)
}

fn show_definition(
    alloc: Global,
    sig: &Signature,
    number: u32,
    out: &mut String,
) -> Result<(), CaseError> {
    if number >= sig.mark().defs() {
        return Err(CaseError::Bad);
    }
    let d = DefId(number);
    show_over(alloc, sig.def_args(d), sig.def_result(d), out)
}

/// Shows the arguments and the result of a function.
fn show_over(
    alloc: Global,
    args: &[SortId],
    value: SortId,
    out: &mut String,
) -> Result<(), CaseError> {
    out.push('(')?;
    for arg in args {
        show_number(alloc, arg.0, out)?;
    }
    out.push_str(format!(in alloc; ") {}", value.0)?.as_str())?;
    Ok(())
}

/// Shows a number of a list, after a space unless it is the first.
fn show_number(alloc: Global, number: u32, out: &mut String) -> Result<(), CaseError> {
    if !out.as_str().ends_with('(') {
        out.push(' ')?;
    }
    out.push_str(format!(in alloc; "{number}")?.as_str())?;
    Ok(())
}
