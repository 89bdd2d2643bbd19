//! What names stand for.
ghost use Rattle.std.specs.Prelude.{◌≡◌, ◌<◌, ◌≤◌, length, take, codes, All, Some, IfSome, IfOk, IfErr};
ghost use Rattle.std.specs.Bool.{OnTrue};
ghost use Rattle.std.specs.Str.{bytes_eq};
ghost use Rattle.ct_sorts.specs.Declarations.{IsSort};
ghost use Rattle.ct_sorts.specs.Lookup.{IsSymbol};
ghost use Rattle.ct_instances.specs.Among.{IsNamedCtor};
ghost use Rattle.ct_names.specs.Symbols.{symbol_of, ctor_named, tester_named, unless_of_bool, is_of_bool, argument_sorts, result_sort, ctor_field_sorts, operator_of};
ghost use Rattle.ct_sorts.specs.declared.ids.Symbol.TheVariants.{Ctor};

use crate::error::CheckError;
use crate::operator::CoreOperator;
use ct_instances::NamedCtor;
use ct_sorts::{CtorId, Signature, SortId, Symbol, naming};
use std::alloc::Global;

/// The constructor, selector, function or definition with this name. No two have one.
pub fn symbol_named(sig: &Signature, name: &[u8]) -> Option<Symbol>
    ensures value { result ≡ symbol_of sig.now name.now }
    ensures inside { IfSome result (IsSymbol sig.now) }
{
    naming();
    prove!(sig.sorts() > 0);
    sig.lookup(name)
}

/// The constructor with this name; none if the name is that of another symbol, or of none.
pub fn ctor_named(sig: &Signature, name: &[u8]) -> Option<NamedCtor>
    ensures value { result ≡ ctor_named sig.now name.now }
    ensures inside { IfSome result (IsNamedCtor sig.now) }
{
    match symbol_named(sig, name) {
        Some(Symbol::Ctor(c)) => Some(NamedCtor::Plain(c)),
        Some(Symbol::GenCtor(g, index)) => Some(NamedCtor::Generic(g, index)),
        Some(Symbol::Sel(_) | Symbol::Fun(_) | Symbol::Def(_) | Symbol::GenSel(_, _, _)) | None =>
            None,
    }
}

/// The constructor that the tester with this name tests for: `is-C` is the tester of C, as cvc5 and z3 have it beside `(_ is C)`.
/// None where no constructor has the name behind `is-`, and where it is `true` or `false`.
pub fn tester_named(sig: &Signature, name: &[u8]) -> Option<NamedCtor>
    ensures value { result ≡ tester_named sig.now name.now }
    ensures inside { IfSome result (IsNamedCtor sig.now) }
{
    if !begins_tester(name) {
        return None;
    }
    match ctor_named(sig, &name[3..]) {
        Some(ctor) => unless_of_bool(ctor),
        None => None,
    }
}

// Whether the name begins with `is-`.
fn begins_tester(name: &[u8]) -> bool
    ensures value { result ≡ bytes_eq (take 3 name.now) (codes "is-") }
    ensures long { OnTrue result (3 ≤ length name.now) }
{
    name.len() >= 3 && &name[..3] == b"is-".as_slice()
}

// The constructor, where it is neither `true` nor `false`.
fn unless_of_bool(ctor: NamedCtor) -> Option<NamedCtor>
    ensures value { result ≡ unless_of_bool (Some ctor) }
    ensures same { IfSome result (λ c. c ≡ ctor) }
{
    if is_of_bool(ctor) {
        return None;
    }
    Some(ctor)
}

/// Whether the constructor is `true` or `false`.
pub fn is_of_bool(ctor: NamedCtor) -> bool
    ensures value { result ≡ is_of_bool ctor }
{
    match ctor {
        NamedCtor::Plain(c) => c.0 <= 1,
        NamedCtor::Generic(_, _) => false,
    }
}

/// The operator that the word is when it is the head of an application and no variable has this name.
pub fn operator_of(word: &[u8]) -> Option<CoreOperator>
    ensures value { result ≡ operator_of word.now }
{
    match word {
        b"not" => Some(CoreOperator::Not),
        b"and" => Some(CoreOperator::And),
        b"or" => Some(CoreOperator::Or),
        b"xor" => Some(CoreOperator::Xor),
        b"=>" => Some(CoreOperator::Implies),
        b"=" => Some(CoreOperator::Equal),
        b"distinct" => Some(CoreOperator::Distinct),
        b"ite" => Some(CoreOperator::Ite),
        _ => None,
    }
}

/// The sorts of the fields of a constructor.
pub(crate) fn ctor_fields(
    alloc: Global,
    sig: &Signature,
    c: CtorId,
) -> Result<Vec<SortId>, CheckError>
    requires inside { IsSymbol sig.now (Ctor c) }
    ensures ok { IfOk result (λ sorts. sorts.items ≡ ctor_field_sorts sig.now c) }
    ensures sorts { IfOk result (λ sorts. All (IsSort sig.now) sorts.items) }
    ensures err { IfErr result (λ e. e ≡ CheckError.NoMemory) }
{
    let sels = sig.ctor_sels(c);
    let mut sorts = Vec::with_capacity(alloc, sels.len())?;
    for sel in sels {
        sorts.push(sig.sel_sort(*sel))?;
    }
    Ok(sorts)
}

/// The sorts of the arguments of a symbol, in order. It fails only where memory runs out.
pub fn argument_sorts(
    alloc: Global,
    sig: &Signature,
    symbol: Symbol,
) -> Result<Vec<SortId>, CheckError>
    requires inside { IsSymbol sig.now symbol }
    ensures ok { IfOk result (λ sorts. sorts.items ≡ argument_sorts sig.now symbol) }
    ensures err { IfErr result (λ e. e ≡ CheckError.NoMemory) }
{
    match symbol {
        Symbol::Ctor(c) => ctor_fields(alloc, sig, c),
        Symbol::Sel(s) => {
            let mut sorts = Vec::new(alloc);
            sorts.push(sig.ctor_sort(sig.sel_ctor(s)))?;
            Ok(sorts)
        }
        Symbol::Fun(f) => Ok(Vec::from_slice(alloc, sig.fun_args(f))?),
        Symbol::Def(k) => Ok(Vec::from_slice(alloc, sig.def_args(k))?),
        Symbol::GenCtor(_, _) | Symbol::GenSel(_, _, _) => Ok(Vec::new(alloc)),
    }
}

/// How many arguments a symbol takes.
pub fn argument_count(sig: &Signature, symbol: Symbol) -> usize
    requires inside { IsSymbol sig.now symbol }
    ensures count { result ≡ length (argument_sorts sig.now symbol) }
{
    match symbol {
        Symbol::Ctor(c) => sig.ctor_sels(c).len(),
        Symbol::Sel(_) => 1,
        Symbol::Fun(f) => sig.fun_args(f).len(),
        Symbol::Def(k) => sig.def_args(k).len(),
        Symbol::GenCtor(_, _) | Symbol::GenSel(_, _, _) => 0,
    }
}

/// The sort of what a symbol gives with its arguments.
pub fn result_sort(sig: &Signature, symbol: Symbol) -> SortId
    requires inside { IsSymbol sig.now symbol }
    ensures sort { result ≡ result_sort sig.now symbol }
    ensures inside { IsSort sig.now result }
{
    prove!(sig.sorts() > 0);
    match symbol {
        Symbol::Ctor(c) => sig.ctor_sort(c),
        Symbol::Sel(s) => sig.sel_sort(s),
        Symbol::Fun(f) => sig.fun_result(f),
        Symbol::Def(k) => sig.def_result(k),
        Symbol::GenCtor(_, _) | Symbol::GenSel(_, _, _) => SortId(0),
    }
}
