//! What the variables of a pattern stand for.
ghost use Rattle.std.specs.Prelude.{◌≡◌, [], ◌∷◌, map, IfOk};
ghost use Rattle.ct_scope.specs.Matching.{bound_field, bound_by};
ghost use Rattle.ct_occurrence.specs.Matching.{IsPatternDeclared};

use crate::bound::Bound;
use ct_formulas::Pattern;
use ct_sorts::{SelId, Signature};
use std::alloc::{AllocError, Global};

/// What the variables of a pattern stand for, in order.
pub fn pattern_bounds(
    alloc: Global,
    sig: &Signature,
    pattern: Pattern,
    matched: Bound,
) -> Result<Vec<Bound>, AllocError>
    requires declared { IsPatternDeclared sig.now pattern }
    ensures bounds { IfOk result (λ bounds. bounds.items ≡ bound_by sig.now pattern matched) }
{
    match pattern {
        Pattern::Any => one(alloc, matched),
        Pattern::Ctor(c) => fields(alloc, matched, sig.ctor_sels(c)),
    }
}

// What is matched alone.
fn one(alloc: Global, matched: Bound) -> Result<Vec<Bound>, AllocError>
    ensures bounds { IfOk result (λ bounds. bounds.items ≡ matched ∷ []) }
{
    let mut bounds = Vec::new(alloc);
    bounds.push(matched)?;
    Ok(bounds)
}

// The fields of what is matched, in order.
fn fields(alloc: Global, matched: Bound, sels: &[SelId]) -> Result<Vec<Bound>, AllocError>
    ensures bounds { IfOk result (λ bounds. bounds.items ≡ map (bound_field matched) sels.now) }
{
    let mut bounds = Vec::new(alloc);
    let mut rest = sels;
    while let [sel, others @ ..] = rest {
        bounds.push(field(matched, *sel))?;
        rest = others;
    }
    Ok(bounds)
}

// A field of what is matched.
fn field(matched: Bound, sel: SelId) -> Bound
    ensures value { result ≡ bound_field matched sel }
{
    match matched {
        Bound::Term(t) => Bound::Field(sel, t),
        Bound::Field(_, _) | Bound::Absent => Bound::Absent,
    }
}
