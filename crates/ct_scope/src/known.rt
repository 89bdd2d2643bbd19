//! Calls of definitions that are already compiled, so that none is compiled again.
ghost use Rattle.std.specs.Prelude.{◌≡◌, ◌⊎◌, [], ◌∷◌, ◌++◌, Some, IfOk, IfErr, OnOk, OnErr};
ghost use Rattle.indexmap.specs.IndexMap.{get};
ghost use Rattle.ct_sorts.specs.declared.ids.DefId.{DefId};
ghost use Rattle.ct_terms.specs.declared.ids.TermId.{TermId};
ghost use Rattle.ct_scope.specs.declared.known.Called.{Called};
ghost use Rattle.ct_scope.specs.Calling.{same_call, call_of, terms_bound};

use crate::bound::Bound;
use ct_sorts::DefId;
use ct_terms::{Args, TermError, TermId};
use indexmap::IndexMap;
use std::alloc::{AllocError, Global};

/// A definition with the terms of those of its parameters that occur, in order.
#[derive(Debug, Drop, PartialEq, Eq, Hash)]
pub struct Called {
    /// The definition.
    pub definition: DefId,
    /// The terms of the arguments.
    pub args: Args,
}

/// The terms of calls.
pub type Known = IndexMap<Called, TermId>;

/// The call of a definition whose parameters stand for these.
#[inline(never)]
pub fn call_with(alloc: Global, k: DefId, bounds: &[Bound]) -> Result<Called, AllocError>
    ensures call { IfOk result (λ call. call ≡ call_of k bounds.now) }
{
    let args = terms(alloc, bounds)?;
    Ok(Called {
        definition: k,
        args,
    })
}

// The terms that are there, in order.
fn terms(alloc: Global, bounds: &[Bound]) -> Result<Args, AllocError>
    ensures terms { IfOk result (λ args. args ≡ terms_bound bounds.now) }
{
    let mut args = Args::new(alloc);
    let mut rest = bounds;
    while let [bound, others @ ..] = rest {
        add_term(&mut args, *bound)?;
        rest = others;
    }
    Ok(args)
}

// The term, where one is bound, after those there are.
fn add_term(args: &mut Args, bound: Bound) -> Result<(), AllocError>
    ensures added { OnOk result (args.new ≡ args.old ++ terms_bound (bound ∷ [])) }
{
    match bound {
        Bound::Term(t) => args.push(t),
        Bound::Field(_, _) | Bound::Absent => Ok(()),
    }
}

/// The term of the call, if it is known: the one that was recorded last.
#[inline(never)]
pub fn known_term(known: &Known, call: &Called) -> Option<TermId>
    ensures value { result ≡ get same_call known.now call.now }
{
    known.get(call).copied()
}

/// Records the term of a call, replacing one that was recorded for it before. What is known of other calls stays as it
/// is. It fails only where memory runs out, and changes nothing then.
#[inline(never)]
pub fn remember(known: &mut Known, call: Called, term: TermId) -> Result<(), TermError>
    ensures only { OnOk result ((other : Called) (t : TermId)
        → get same_call known.new other ≡ Some t
        → (get same_call known.old other ≡ Some t) ⊎ ((other ≡ call) × (t ≡ term))) }
    ensures recorded { OnOk result (get same_call known.new call ≡ Some term) }
    ensures others { OnOk result ((other : Called) → (other ≡ call → ⊥) → get same_call known.new other ≡ get same_call known.old other) }
    ensures unchanged { OnErr result ((other : Called) → get same_call known.new other ≡ get same_call known.old other) }
    ensures err { IfErr result (λ e. e ≡ TermError.NoMemory) }
{
    known.insert(call, term)?;
    Ok(())
}
