//! The term of a term line, from what its name stands for.
ghost use Rattle.std.specs.Prelude.{◌≡◌, map, Some, IfOk};
ghost use Rattle.ct_log_lines.specs.Forms.{term_numbered};
ghost use Rattle.ct_log_text.specs.Cores.{one_term, two_terms, three_terms, con_of, apply_of, sel_of, test_of, eq_of, iff_of, not_of, ite_of, core_with};

use ct_log_lines::{TermKind, term_numbered};
use ct_sorts::Symbol;
use ct_terms::{Args, Core, TermId};
use std::alloc::{AllocError, Global};

/// The terms with these numbers.
pub(crate) fn terms_of(alloc: Global, numbers: &[u64]) -> Result<Args, AllocError>
    ensures ok { IfOk result (λ args. args ≡ map term_numbered numbers.now) }
{
    let mut args = Args::new(alloc);
    for n in numbers {
        args.push(term_numbered(*n))?;
    }
    Ok(args)
}

/// A constructor term.
fn con_of(symbol: Option<Symbol>, args: Args) -> Option<Core>
    ensures value { result ≡ con_of symbol args }
{
    match symbol {
        Some(Symbol::Ctor(c)) => Some(Core::Con(c, args)),
        Some(
            Symbol::Sel(_)
            | Symbol::Fun(_)
            | Symbol::Def(_)
            | Symbol::GenCtor(_, _)
            | Symbol::GenSel(_, _, _),
        )
        | None => None,
    }
}

/// The application of a function.
fn apply_of(symbol: Option<Symbol>, args: Args) -> Option<Core>
    ensures value { result ≡ apply_of symbol args }
{
    match symbol {
        Some(Symbol::Fun(f)) => Some(Core::Apply(f, args)),
        Some(
            Symbol::Ctor(_)
            | Symbol::Sel(_)
            | Symbol::Def(_)
            | Symbol::GenCtor(_, _)
            | Symbol::GenSel(_, _, _),
        )
        | None => None,
    }
}

/// The only term.
fn one_term(args: &[TermId]) -> Option<TermId>
    ensures value { result ≡ one_term args.now }
{
    match args {
        [t] => Some(*t),
        [] | [_, _, ..] => None,
    }
}

/// The terms, where there are two.
fn two_terms(args: &[TermId]) -> Option<(TermId, TermId)>
    ensures value { result ≡ two_terms args.now }
{
    match args {
        [a, b] => Some((*a, *b)),
        [] | [_] | [_, _, _, ..] => None,
    }
}

/// The terms, where there are three.
fn three_terms(args: &[TermId]) -> Option<(TermId, TermId, TermId)>
    ensures value { result ≡ three_terms args.now }
{
    match args {
        [a, b, c] => Some((*a, *b, *c)),
        [] | [_] | [_, _] | [_, _, _, _, ..] => None,
    }
}

/// A field of a term.
fn sel_of(symbol: Option<Symbol>, args: &[TermId]) -> Option<Core>
    ensures value { result ≡ sel_of symbol args.now }
{
    let t = one_term(args)?;
    match symbol {
        Some(Symbol::Sel(s)) => Some(Core::Sel(s, t)),
        Some(
            Symbol::Ctor(_)
            | Symbol::Fun(_)
            | Symbol::Def(_)
            | Symbol::GenCtor(_, _)
            | Symbol::GenSel(_, _, _),
        )
        | None => None,
    }
}

/// A test of a term.
fn test_of(symbol: Option<Symbol>, args: &[TermId]) -> Option<Core>
    ensures value { result ≡ test_of symbol args.now }
{
    let t = one_term(args)?;
    match symbol {
        Some(Symbol::Ctor(c)) => Some(Core::Test(c, t)),
        Some(
            Symbol::Sel(_)
            | Symbol::Fun(_)
            | Symbol::Def(_)
            | Symbol::GenCtor(_, _)
            | Symbol::GenSel(_, _, _),
        )
        | None => None,
    }
}

/// An equality.
fn eq_of(args: &[TermId]) -> Option<Core>
    ensures value { result ≡ eq_of args.now }
{
    let (a, b) = two_terms(args)?;
    Some(Core::Eq(a, b))
}

/// An equivalence.
fn iff_of(args: &[TermId]) -> Option<Core>
    ensures value { result ≡ iff_of args.now }
{
    let (a, b) = two_terms(args)?;
    Some(Core::Iff(a, b))
}

/// A negation.
fn not_of(args: &[TermId]) -> Option<Core>
    ensures value { result ≡ not_of args.now }
{
    let t = one_term(args)?;
    Some(Core::Not(t))
}

/// A choice.
fn ite_of(args: &[TermId]) -> Option<Core>
    ensures value { result ≡ ite_of args.now }
{
    let (c, a, b) = three_terms(args)?;
    Some(Core::Ite(c, a, b))
}

/// The term of a line of this kind, where this is what its name stands for.
pub(crate) fn core_of(kind: TermKind, symbol: Option<Symbol>, args: Args) -> Option<Core>
    ensures value { result ≡ core_with kind symbol args }
{
    match kind {
        TermKind::Con => con_of(symbol, args),
        TermKind::Apply => apply_of(symbol, args),
        TermKind::Sel => sel_of(symbol, args.as_slice()),
        TermKind::Test => test_of(symbol, args.as_slice()),
        TermKind::Eq => eq_of(args.as_slice()),
        TermKind::Not => not_of(args.as_slice()),
        TermKind::And => Some(Core::And(args)),
        TermKind::Or => Some(Core::Or(args)),
        TermKind::Iff => iff_of(args.as_slice()),
        TermKind::Ite => ite_of(args.as_slice()),
    }
}
