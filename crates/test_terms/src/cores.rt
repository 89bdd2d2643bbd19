//! Terms of one layer that a case names: `(con CONSTRUCTOR TERM ..)`, `(sel SELECTOR TERM)`,
//! `(is CONSTRUCTOR TERM)`, `(app FUNCTION TERM ..)`, `(= TERM TERM)`, `(not TERM)`,
//! `(and TERM ..)`, `(or TERM ..)`, `(iff TERM TERM)` and `(ite TERM TERM TERM)`, each over the
//! numbers of terms. A constructor of an instance is named as `(as NAME SORT)`, and a symbol that is not declared by its number.
use ct_cases::{CaseError, size_of, split_word, symbol_of};
use ct_sexpr::Sexpr;
use ct_sorts::{CtorId, FunId, SelId, Signature, Symbol};
use ct_terms::{Args, Core, TermId};
use std::alloc::Global;

/// The term.
pub fn core_of(alloc: Global, sig: &Signature, part: &Sexpr) -> Result<Core, CaseError> {
    match split_word(part)? {
        ("con", [c, args @ ..]) => Ok(Core::Con(ctor_of(alloc, sig, c)?, args_of(alloc, args)?)),
        ("app", [f, args @ ..]) => Ok(Core::Apply(fun_of(alloc, sig, f)?, args_of(alloc, args)?)),
        ("sel", [s, t]) => Ok(Core::Sel(sel_of(alloc, sig, s)?, term_of(t)?)),
        ("is", [c, t]) => Ok(Core::Test(ctor_of(alloc, sig, c)?, term_of(t)?)),
        (word, parts) => formula_of(alloc, word, parts),
    }
}

/// The term that names no symbol.
fn formula_of(alloc: Global, word: &str, parts: &[Sexpr]) -> Result<Core, CaseError> {
    match (word, parts) {
        ("=", [a, b]) => Ok(Core::Eq(term_of(a)?, term_of(b)?)),
        ("not", [t]) => Ok(Core::Not(term_of(t)?)),
        ("and", args) => Ok(Core::And(args_of(alloc, args)?)),
        ("or", args) => Ok(Core::Or(args_of(alloc, args)?)),
        ("iff", [a, b]) => Ok(Core::Iff(term_of(a)?, term_of(b)?)),
        ("ite", [c, a, b]) => Ok(Core::Ite(term_of(c)?, term_of(a)?, term_of(b)?)),
        _ => Err(CaseError::Bad),
    }
}

/// The term of this number.
pub fn term_of(part: &Sexpr) -> Result<TermId, CaseError> {
    Ok(TermId(size_of(part)?))
}

/// The terms of these numbers.
pub fn args_of(alloc: Global, parts: &[Sexpr]) -> Result<Args, CaseError> {
    let mut args = Args::new(alloc);
    for part in parts {
        args.push(term_of(part)?)?;
    }
    Ok(args)
}

/// What a name stands for, or nothing where a number stands for it.
fn named(alloc: Global, sig: &Signature, part: &Sexpr) -> Result<Option<Symbol>, CaseError> {
    if let Sexpr::Numeral(_) = part {
        return Ok(None);
    }
    match symbol_of(alloc, sig, part)? {
        None => Err(CaseError::Bad),
        found => Ok(found),
    }
}

/// The constructor of this name, also of an instance, or of this number.
pub fn ctor_of(alloc: Global, sig: &Signature, part: &Sexpr) -> Result<CtorId, CaseError> {
    if let Sexpr::Numeral(_) = part {
        return Ok(CtorId(size_of(part)?));
    }
    ct_cases::ctor_of(alloc, sig, part)
}

/// The selector of this name or number.
fn sel_of(alloc: Global, sig: &Signature, part: &Sexpr) -> Result<SelId, CaseError> {
    match named(alloc, sig, part)? {
        Some(Symbol::Sel(s)) => Ok(s),
        None => Ok(SelId(size_of(part)?)),
        _ => Err(CaseError::Bad),
    }
}

/// The function of this name or number.
fn fun_of(alloc: Global, sig: &Signature, part: &Sexpr) -> Result<FunId, CaseError> {
    match named(alloc, sig, part)? {
        Some(Symbol::Fun(f)) => Ok(f),
        None => Ok(FunId(size_of(part)?)),
        _ => Err(CaseError::Bad),
    }
}
