//! What written sort expressions stand for: names are looked up, and synonyms expanded.
ghost use Rattle.std.specs.Prelude.{◌≡◌, ◌<◌, ℕ, List, [], ◌∷◌, ◌++◌, length, map, Ok, Err, Some, slice_get, IfOk, IfErr, IsErrOf};
ghost use Rattle.ct_generics.specs.Expression.{Expression, named, substitute, with_args};
ghost use Rattle.ct_generics.specs.Declarations.{Declared, Synonym};
ghost use Rattle.ct_generics.specs.Nodes.{Stands, Stay, StandFor, AreWithin};
ghost use Rattle.ct_generics.specs.Outcome.{Outcome, each};
ghost use Rattle.ct_generics.specs.Resolved.{Meaning, meaning, resolved, instance, params_of, with_meaning};
ghost use Rattle.ct_generics.specs.Stored.{AreDeclared, IsFound, IsStoredSynonym};

use crate::error::GenericError;
use crate::expr::SortExpr;
use crate::generics::Generics;
use crate::heads::StoredSynonym;
use crate::nodes::{ExprId, Expressions, HeadId};
use crate::place::{Place, find, stored_synonym};
use crate::substitution::{image_at, substitute};
use std::alloc::Global;

/// No sort, generic or synonym has the name.
const UNKNOWN_SORT: u16 = 12;
/// A name has a wrong number of arguments.
const WRONG_COUNT: u16 = 22;

/// The number of the expression that a written expression stands for. It is refused with 12 at an unknown name and with
/// 22 at a wrong number of arguments: by place the name, then the number of its arguments, then these from left to
/// right.
#[cycle(resolve)]
pub fn resolve(
    alloc: Global,
    g: &Generics,
    table: &mut Expressions,
    expr: &SortExpr,
) -> Result<ExprId, GenericError>
    requires declared { (d : Declared) × AreDeclared g.now d }
    ensures ok { IfOk result (λ n. (d : Declared) → AreDeclared g.now d → (e : Expression) × (resolved d expr.now ≡ Ok e) × Stands table.new n.0 e) }
    ensures refused { (n : ℕ) (d : Declared) → IsErrOf result (GenericError.Refused n) → AreDeclared g.now d → resolved d expr.now ≡ Err n }
    ensures within { IfOk result (λ n. n.0 < length table.new) }
    ensures stay { Stay table.old table.new }
{
    match expr {
        SortExpr::Param(i) => table.param(*i),
        SortExpr::App(name, args) => {
            let place = found(g, name.as_slice(), args.len())?;
            let ids = resolve_all(alloc, g, table, args.as_slice())?;
            instantiate(alloc, g, table, place, ids.as_slice())
        }
    }
}

// The numbers of what these stand for, or the first refusal.
#[cycle(resolve)]
fn resolve_all(
    alloc: Global,
    g: &Generics,
    table: &mut Expressions,
    args: &[SortExpr],
) -> Result<Vec<ExprId>, GenericError>
    requires declared { (d : Declared) × AreDeclared g.now d }
    ensures ok { IfOk result (λ ids. (d : Declared) → AreDeclared g.now d → (es : List Expression) × (each (resolved d) args.now ≡ Ok es) × StandFor table.new ids.items es) }
    ensures refused { (n : ℕ) (d : Declared) → IsErrOf result (GenericError.Refused n) → AreDeclared g.now d → each (resolved d) args.now ≡ Err n }
    ensures within { IfOk result (λ ids. AreWithin table.new ids.items) }
    ensures stay { Stay table.old table.new }
{
    let mut ids = Vec::with_capacity(alloc, args.len())?;
    for arg in args {
        let id = resolve(alloc, g, table, arg)?;
        ids.push(id)?;
    }
    Ok(ids)
}

// What is stored under a name that takes so many arguments.
fn found(g: &Generics, name: &[u8], count: usize) -> Result<Place, GenericError>
    ensures ok { IfOk result (λ place. (d : Declared) → AreDeclared g.now d → (m : Meaning) × (meaning d name.now ≡ Some m) × IsFound g.now place m × (count ≡ params_of m)) }
    ensures refused { (n : ℕ) (d : Declared) → IsErrOf result (GenericError.Refused n) → AreDeclared g.now d
        → (outcomes : List (Outcome Expression)) → length outcomes ≡ count → with_meaning (meaning d name.now) outcomes ≡ Err n }
{
    match find(g, name) {
        None => Err(GenericError::Refused(UNKNOWN_SORT)),
        Some(place) => {
            if place.params() != count as u64 {
                return Err(GenericError::Refused(WRONG_COUNT));
            }
            Ok(place)
        }
    }
}

// What is stored, with these arguments.
fn instantiate(
    alloc: Global,
    g: &Generics,
    table: &mut Expressions,
    place: Place,
    args: &[ExprId],
) -> Result<ExprId, GenericError>
    requires within { AreWithin table.old args.now }
    requires found { (m : Meaning) × IsFound g.now place m }
    ensures ok { IfOk result (λ n. (m : Meaning) (es : List Expression) → IsFound g.now place m → StandFor table.old args.now es → Stands table.new n.0 (instance m es)) }
    ensures within { IfOk result (λ n. n.0 < length table.new) }
    ensures stay { Stay table.old table.new }
    ensures err { IfErr result (λ e. e ≡ GenericError.NoMemory) }
{
    match place {
        Place::Head(h, _) => apply_all(table, h, args),
        Place::Synonym(i, _) => {
            let synonym = stored_synonym(g.synonyms.as_slice(), i);
            expand(alloc, table, synonym, args)
        }
    }
}

// A sort or generic with these arguments.
fn apply_all(table: &mut Expressions, h: HeadId, args: &[ExprId]) -> Result<ExprId, GenericError>
    requires within { AreWithin table.old args.now }
    ensures ok { IfOk result (λ n. (es : List Expression) → StandFor table.old args.now es → Stands table.new n.0 (with_args (named h.0) es)) }
    ensures within { IfOk result (λ n. n.0 < length table.new) }
    ensures stay { Stay table.old table.new }
    ensures err { IfErr result (λ e. e ≡ GenericError.NoMemory) }
{
    let mut whole = table.head(h)?;
    for arg in args {
        whole = table.apply(whole, *arg)?;
    }
    Ok(whole)
}

// The body of a synonym with these arguments.
fn expand(
    alloc: Global,
    table: &mut Expressions,
    synonym: &StoredSynonym,
    args: &[ExprId],
) -> Result<ExprId, GenericError>
    requires within { AreWithin table.old args.now }
    requires stored { (s : Synonym) × IsStoredSynonym synonym.now s }
    ensures ok { IfOk result (λ n. (s : Synonym) (es : List Expression) → IsStoredSynonym synonym.now s → StandFor table.old args.now es → Stands table.new n.0 (substitute es s.body)) }
    ensures within { IfOk result (λ n. n.0 < length table.new) }
    ensures stay { Stay table.old table.new }
    ensures err { IfErr result (λ e. e ≡ GenericError.NoMemory) }
{
    let images = substitute(alloc, table, &synonym.template, args)?;
    Ok(image_at(images.as_slice(), synonym.body))
}
