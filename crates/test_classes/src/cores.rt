//! Terms of one layer that a case names: `(con CONSTRUCTOR TERM ..)`, `(sel SELECTOR TERM)`,
//! `(is CONSTRUCTOR TERM)`, `(app FUNCTION TERM ..)`, `(= TERM TERM)`, `(not TERM)`,
//! `(and TERM ..)`, `(or TERM ..)`, `(iff TERM TERM)` and `(ite TERM TERM TERM)`, each over the
//! numbers of terms.
use crate::numbers::term_of;
use ct_cases::{CaseError, split_word, symbol_of};
use ct_sexpr::Sexpr;
use ct_sorts::{Signature, Symbol};
use ct_terms::{Args, Core, TermId};
use std::alloc::Global;

/// The term.
pub fn core_of(alloc: Global, sig: &Signature, part: &Sexpr) -> Result<Core, CaseError> {
    match split_word(part)? {
        ("con", [name, args @ ..]) => con(alloc, sig, name, args),
        ("app", [name, args @ ..]) => apply(alloc, sig, name, args),
        ("sel", [name, t]) => sel(alloc, sig, name, term_of(t)?),
        ("is", [name, t]) => test(alloc, sig, name, term_of(t)?),
        (word, parts) => formula(alloc, word, parts),
    }
}

/// A constructor over terms.
fn con(alloc: Global, sig: &Signature, name: &Sexpr, args: &[Sexpr]) -> Result<Core, CaseError> {
    match symbol_of(alloc, sig, name)? {
        Some(Symbol::Ctor(c)) => Ok(Core::Con(c, args_of(alloc, args)?)),
        _ => Err(CaseError::Bad),
    }
}

/// A function over terms.
fn apply(alloc: Global, sig: &Signature, name: &Sexpr, args: &[Sexpr]) -> Result<Core, CaseError> {
    match symbol_of(alloc, sig, name)? {
        Some(Symbol::Fun(f)) => Ok(Core::Apply(f, args_of(alloc, args)?)),
        _ => Err(CaseError::Bad),
    }
}

/// A selector of a term.
fn sel(alloc: Global, sig: &Signature, name: &Sexpr, t: TermId) -> Result<Core, CaseError> {
    match symbol_of(alloc, sig, name)? {
        Some(Symbol::Sel(s)) => Ok(Core::Sel(s, t)),
        _ => Err(CaseError::Bad),
    }
}

/// A test of a term.
fn test(alloc: Global, sig: &Signature, name: &Sexpr, t: TermId) -> Result<Core, CaseError> {
    match symbol_of(alloc, sig, name)? {
        Some(Symbol::Ctor(c)) => Ok(Core::Test(c, t)),
        _ => Err(CaseError::Bad),
    }
}

/// The term that names no symbol.
fn formula(alloc: Global, word: &str, parts: &[Sexpr]) -> Result<Core, CaseError> {
    match (word, parts) {
        ("=", [a, b]) => Ok(Core::Eq(term_of(a)?, term_of(b)?)),
        ("not", [t]) => Ok(Core::Not(term_of(t)?)),
        ("and", args) => Ok(Core::And(args_of(alloc, args)?)),
        ("or", args) => Ok(Core::Or(args_of(alloc, args)?)),
        ("iff", [a, b]) => Ok(Core::Iff(term_of(a)?, term_of(b)?)),
        ("ite", [c, a, b]) => Ok(Core::Ite(term_of(c)?, term_of(a)?, term_of(b)?)),
        _ => Err(CaseError::Bad),
    }
}

/// The terms of these numbers.
fn args_of(alloc: Global, parts: &[Sexpr]) -> Result<Args, CaseError> {
    let mut args = Args::new(alloc);
    for part in parts {
        args.push(term_of(part)?)?;
    }
    Ok(args)
}
