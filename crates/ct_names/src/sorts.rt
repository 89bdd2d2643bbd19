//! Sorts as expressions write them (SMT-LIB 2.7, section 3.5).
ghost use Rattle.std.specs.Prelude.{◌≡◌, ◌<◌, ℕ, List, length, map, position, All, Some, None, Ok, Err, IfOk, OnOk, OnErr, IfSome, IsErrOf};
ghost use Rattle.std.specs.Str.{bytes_eq};
ghost use Rattle.ct_generics.specs.Expression.{Expression};
ghost use Rattle.ct_generics.specs.Resolved.{resolved};
ghost use Rattle.ct_sexpr.specs.Atom.{Atom};
ghost use Rattle.ct_sexpr.specs.Expression.{leaf, list};
ghost use Rattle.ct_sexpr.specs.View.{expression_of, expressions_of};
ghost use Rattle.ct_sorts.specs.Applied.{IsAt, TakesAll};
ghost use Rattle.ct_sorts.specs.Declarations.{IsSort};
ghost use Rattle.ct_sorts.specs.Grown.{Extends};
ghost use Rattle.ct_sorts.specs.Written.{AreParametersBelow};
ghost use Rattle.ct_names.specs.Answer.{StopsAt, as_it_is};
ghost use Rattle.ct_names.specs.Refusals.{out_of_scope};
ghost use Rattle.ct_names.specs.declared.needs.Needs.TheVariants.{Add, Find};
ghost use Rattle.ct_names.specs.Needs.{Reaches};
ghost use Rattle.ct_names.specs.Sorts.{name_in, parameter_at, written_sort, sort_of, sort_there, Writes, HasNoSortForm, IsReadAs, AreReadAs, IsNotRead, AreNotRead, IsKnown, IsNotKnown, declared_in, HaveBelow};

use crate::atoms::name_of;
use crate::error::CheckError;
use crate::needs::Needs;
use crate::refusals::{OUT_OF_SCOPE, UNKNOWN_SORT, WRONG_COUNT};
use crate::stop::Stop;
use ct_generics::additions;
use ct_sexpr::Sexpr;
use ct_sorts::{GenId, Name, SigError, Signature, SortExpr, SortId, growth};
use std::alloc::Global;

/// The sort that an expression writes over parameters of these names. By place, it is refused with 28 where it has no form of
/// a sort, with 12 at a name that is no sort, generic or synonym, and with 22 where this takes another number of arguments.
pub fn written_sort(
    alloc: Global,
    sig: &Signature,
    params: &[&[u8]],
    expr: &Sexpr,
) -> Result<SortExpr, CheckError>
    ensures ok { IfOk result (λ written. (e : Expression) × (written_sort sig.now.declared (map (λ p. p.now) params.now) (expression_of expr.now) ≡ Ok e)
        × (resolved sig.now.declared written ≡ Ok e)) }
    ensures refused { (n : ℕ) → IsErrOf result (CheckError.Refused n) → written_sort sig.now.declared (map (λ p. p.now) params.now) (expression_of expr.now) ≡ Err n }
    ensures below { IfOk result (AreParametersBelow (length params.now)) }
{
    read_sort(alloc, Some(sig), params, expr)
}

/// The same without looking names up: it is refused with 28 alone.
pub fn field_sort(alloc: Global, params: &[&[u8]], expr: &Sexpr) -> Result<SortExpr, CheckError>
    ensures ok { IfOk result (Writes (map (λ p. p.now) params.now) (expression_of expr.now)) }
    ensures refused { (n : ℕ) → IsErrOf result (CheckError.Refused n) → (n ≡ out_of_scope) × HasNoSortForm (map (λ p. p.now) params.now) (expression_of expr.now) }
    ensures below { IfOk result (AreParametersBelow (length params.now)) }
{
    read_sort(alloc, None, params, expr)
}

// The sort that an expression writes, where names are looked up in a signature if there is one.
#[cycle(sorts)]
fn read_sort(
    alloc: Global,
    known: Option<&Signature>,
    params: &[&[u8]],
    expr: &Sexpr,
) -> Result<SortExpr, CheckError>
    ensures ok { IfOk result (IsReadAs (declared_in known.entry) (map (λ p. p.now) params.now) (expression_of expr.now)) }
    ensures refused { (n : ℕ) → IsErrOf result (CheckError.Refused n) → IsNotRead (declared_in known.entry) (map (λ p. p.now) params.now) (expression_of expr.now) n }
    ensures below { IfOk result (AreParametersBelow (length params.now)) }
{
    match expr {
        Sexpr::List(items) => applied_sort(alloc, known, params, items.as_slice()),
        Sexpr::Symbol(_)
        | Sexpr::Quoted(_)
        | Sexpr::Keyword(_)
        | Sexpr::Text(_)
        | Sexpr::Numeral(_)
        | Sexpr::Decimal(_)
        | Sexpr::Binary(_)
        | Sexpr::Hex(_) => lone_sort(alloc, known, params, expr),
    }
}

// A name with sorts, one at least.
#[cycle(sorts)]
fn applied_sort(
    alloc: Global,
    known: Option<&Signature>,
    params: &[&[u8]],
    items: &[Sexpr],
) -> Result<SortExpr, CheckError>
    ensures ok { IfOk result (IsReadAs (declared_in known.entry) (map (λ p. p.now) params.now) (list (expressions_of items.now))) }
    ensures refused { (n : ℕ) → IsErrOf result (CheckError.Refused n) → IsNotRead (declared_in known.entry) (map (λ p. p.now) params.now) (list (expressions_of items.now)) n }
    ensures below { IfOk result (AreParametersBelow (length params.now)) }
{
    let [head, args @ ..] = items else {
        return Err(CheckError::Refused(OUT_OF_SCOPE));
    };
    let count = args.len();
    let name = head_name(params, head, count)?;
    look_up(known, name, count)?;
    let sorts = read_sorts(alloc, known, params, args)?;
    Ok(SortExpr::App(Name::from_slice(alloc, name)?, sorts))
}

// Sorts one after the other.
#[cycle(sorts)]
fn read_sorts(
    alloc: Global,
    known: Option<&Signature>,
    params: &[&[u8]],
    exprs: &[Sexpr],
) -> Result<Vec<SortExpr>, CheckError>
    ensures ok { IfOk result (λ ws. AreReadAs (declared_in known.entry) (map (λ p. p.now) params.now) (expressions_of exprs.now) ws.items) }
    ensures refused { (n : ℕ) → IsErrOf result (CheckError.Refused n) → AreNotRead (declared_in known.entry) (map (λ p. p.now) params.now) (expressions_of exprs.now) n }
    ensures below { IfOk result (λ ws. HaveBelow (length params.now) ws.items) }
{
    let mut sorts = Vec::with_capacity(alloc, exprs.len())?;
    for expr in exprs {
        let sort = read_sort(alloc, known, params, expr)?;
        sorts.push(sort)?;
    }
    Ok(sorts)
}

// The name at the head of a list of a sort with so many arguments: at least one, and no parameter at the head.
fn head_name<'e>(params: &[&[u8]], head: &'e Sexpr, args: usize) -> Result<&'e [u8], CheckError>
    ensures ok { IfOk result (λ name. (name_in (expression_of head.now) ≡ Some name.now) × (0 < args) × (parameter_at (map (λ p. p.now) params.now) name.now ≡ None)) }
    ensures refused { (n : ℕ) → IsErrOf result (CheckError.Refused n) → (n ≡ out_of_scope)
        × ((name : List ℕ) → name_in (expression_of head.now) ≡ Some name → 0 < args → parameter_at (map (λ p. p.now) params.now) name ≡ None → ⊥) }
{
    let Some(name) = name_of(head) else {
        return Err(CheckError::Refused(OUT_OF_SCOPE));
    };
    if args == 0 {
        return Err(CheckError::Refused(OUT_OF_SCOPE));
    }
    match parameter_at(params, name) {
        Some(_) => Err(CheckError::Refused(OUT_OF_SCOPE)),
        None => Ok(name),
    }
}

// A name that stands alone: a parameter, and else a sort without arguments.
fn lone_sort(
    alloc: Global,
    known: Option<&Signature>,
    params: &[&[u8]],
    expr: &Sexpr,
) -> Result<SortExpr, CheckError>
    requires leaf { (a : Atom) × (expression_of expr.now ≡ leaf a) }
    ensures ok { IfOk result (IsReadAs (declared_in known.entry) (map (λ p. p.now) params.now) (expression_of expr.now)) }
    ensures refused { (n : ℕ) → IsErrOf result (CheckError.Refused n) → IsNotRead (declared_in known.entry) (map (λ p. p.now) params.now) (expression_of expr.now) n }
    ensures below { IfOk result (AreParametersBelow (length params.now)) }
{
    let Some(name) = name_of(expr) else {
        return Err(CheckError::Refused(OUT_OF_SCOPE));
    };
    if let Some(index) = parameter_at(params, name) {
        return Ok(SortExpr::Param(index));
    }
    look_up(known, name, 0)?;
    Ok(SortExpr::App(Name::from_slice(alloc, name)?, Vec::new(alloc)))
}

// The index of the parameter of this name, if there is one.
fn parameter_at(params: &[&[u8]], name: &[u8]) -> Option<u64>
    ensures value { result ≡ parameter_at (map (λ p. p.now) params.now) name.now }
{
    match first_named(params, name) {
        Some(index) => Some(index as u64),
        None => None,
    }
}

// Where the first of these names is that is this one.
fn first_named(names: &[&[u8]], name: &[u8]) -> Option<usize>
    ensures value { result ≡ position (λ p. bytes_eq name.now p.now) names.now }
{
    names.iter().position(|p| name == *p)
}

// Refuses a name that is none of a sort, a generic or a synonym, and one that takes another number of arguments, where there
// is a signature to look it up in.
fn look_up(known: Option<&Signature>, name: &[u8], args: usize) -> Result<(), CheckError>
    ensures ok { OnOk result (IsKnown (declared_in known.entry) name.now args) }
    ensures refused { (n : ℕ) → IsErrOf result (CheckError.Refused n) → IsNotKnown (declared_in known.entry) name.now args n }
{
    let Some(sig) = known else {
        return Ok(());
    };
    match sig.params_named(name) {
        None => Err(CheckError::Refused(UNKNOWN_SORT)),
        Some(params) if params == args as u64 => Ok(()),
        Some(_) => Err(CheckError::Refused(WRONG_COUNT)),
    }
}

/// The sort that an expression writes; if it is not in the list, it is added, or reported as missing. It is refused as
/// `written_sort` refuses without parameters.
pub fn named_sort(
    alloc: Global,
    sig: &mut Signature,
    needs: Needs,
    expr: &Sexpr,
) -> Result<SortId, Stop>
    ensures value { StopsAt needs sig.new as_it_is (sort_of sig.new (expression_of expr.now)) result }
    ensures reaches { Reaches (λ d. sort_of d (expression_of expr.now)) sig.old sig.new }
    ensures grown { Extends sig.new sig.old }
    ensures kept { needs ≡ Find → sig.new ≡ sig.old }
    ensures unchanged { OnErr result (sig.new ≡ sig.old) }
    ensures inside { IfOk result (IsSort sig.new) }
{
    growth();
    prove!(sig.sorts() > 0);
    if let Some(sort) = plain_sort(sig, expr) {
        return Ok(sort);
    }
    let written = written_sort(alloc, sig, &[], expr)?;
    match needs {
        Needs::Add => added_sort(sig, &written),
        Needs::Find => found_sort(sig, &written),
    }
}

// The number of a written sort, which comes into the list where it is not there.
fn added_sort(sig: &mut Signature, written: &SortExpr) -> Result<SortId, Stop>
    requires closed { AreParametersBelow 0 written.now }
    ensures value { (e : Expression) → resolved sig.old.declared written.now ≡ Ok e → StopsAt Add sig.new as_it_is (sort_there sig.new e) result }
    ensures reaches { (e : Expression) → resolved sig.old.declared written.now ≡ Ok e → Reaches (λ d. sort_there d e) sig.old sig.new }
    ensures grown { Extends sig.new sig.old }
    ensures declared { sig.new.declared ≡ sig.old.declared }
    ensures unchanged { OnErr result (sig.new ≡ sig.old) }
    ensures inside { IfOk result (IsSort sig.new) }
{
    additions();
    growth();
    prove!(sig.sorts() > 0);
    match sig.instance(written) {
        Ok(sort) => {
            prove!(sig.sorts() > 0);
            Ok(sort)
        }
        Err(SigError::Refused(_)) => Err(Stop::Missing),
        Err(SigError::NoMemory) => Err(Stop::NoMemory),
    }
}

// The number of a written sort that is in the list.
fn found_sort(sig: &Signature, written: &SortExpr) -> Result<SortId, Stop>
    requires closed { AreParametersBelow 0 written.now }
    ensures value { (e : Expression) → resolved sig.now.declared written.now ≡ Ok e → StopsAt Find sig.now as_it_is (sort_there sig.now e) result }
    ensures inside { IfOk result (IsSort sig.now) }
{
    prove!(sig.sorts() > 0);
    match sig.find_instance(written) {
        Ok(Some(sort)) => Ok(sort),
        Ok(None) => Err(Stop::Missing),
        Err(_) => Err(Stop::NoMemory),
    }
}

/// The number of a generic at these sorts; if it is not in the list, it is added, or reported as missing.
pub fn sort_at(sig: &mut Signature, needs: Needs, g: GenId, args: &[SortId]) -> Result<SortId, Stop>
    requires generic { TakesAll sig.old g args.now }
    requires sorts { All (IsSort sig.old) args.now }
    ensures value { (e : Expression) → IsAt sig.old g args.now e → StopsAt needs sig.new as_it_is (sort_there sig.new e) result }
    ensures reaches { (e : Expression) → IsAt sig.old g args.now e → Reaches (λ d. sort_there d e) sig.old sig.new }
    ensures grown { Extends sig.new sig.old }
    ensures kept { needs ≡ Find → sig.new ≡ sig.old }
    ensures inside { IfOk result (IsSort sig.new) }
{
    growth();
    match needs {
        Needs::Add => added_at(sig, g, args),
        Needs::Find => found_at(sig, g, args),
    }
}

// The number of a generic at these sorts, which comes into the list where it is not there.
fn added_at(sig: &mut Signature, g: GenId, args: &[SortId]) -> Result<SortId, Stop>
    requires generic { TakesAll sig.old g args.now }
    requires sorts { All (IsSort sig.old) args.now }
    ensures value { (e : Expression) → IsAt sig.old g args.now e → StopsAt Add sig.new as_it_is (sort_there sig.new e) result }
    ensures reaches { (e : Expression) → IsAt sig.old g args.now e → Reaches (λ d. sort_there d e) sig.old sig.new }
    ensures grown { Extends sig.new sig.old }
    ensures inside { IfOk result (IsSort sig.new) }
{
    additions();
    growth();
    prove!(sig.sorts() > 0);
    match sig.instance_at(g, args) {
        Ok(sort) => {
            prove!(sig.sorts() > 0);
            Ok(sort)
        }
        Err(SigError::Refused(_)) => Err(Stop::Missing),
        Err(SigError::NoMemory) => Err(Stop::NoMemory),
    }
}

// The number of a generic at these sorts that is in the list.
fn found_at(sig: &Signature, g: GenId, args: &[SortId]) -> Result<SortId, Stop>
    requires generic { TakesAll sig.now g args.now }
    requires sorts { All (IsSort sig.now) args.now }
    ensures value { (e : Expression) → IsAt sig.now g args.now e → StopsAt Find sig.now as_it_is (sort_there sig.now e) result }
    ensures inside { IfOk result (IsSort sig.now) }
{
    prove!(sig.sorts() > 0);
    match sig.find_at(g, args) {
        Some(sort) => Ok(sort),
        None => Err(Stop::Missing),
    }
}

// The sort declared without parameters whose name the expression is, if it is one.
fn plain_sort(sig: &Signature, expr: &Sexpr) -> Option<SortId>
    ensures some { IfSome result (λ s. sort_of sig.now (expression_of expr.now) ≡ Ok s) }
    ensures inside { IfSome result (IsSort sig.now) }
{
    prove!(sig.sorts() > 0);
    let name = name_of(expr)?;
    sig.sort_named(name)
}
