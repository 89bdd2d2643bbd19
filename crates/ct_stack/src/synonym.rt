//! Synonyms of sorts (SMT-LIB 2.7, section 4.2.3, `define-sort`).
ghost use Rattle.std.specs.Prelude.{◌≡◌, ℕ, length, map, Ok, Err, OnOk, OnErr, IfOk, IsErrOf};
ghost use Rattle.ct_generics.specs.Expression.{Expression};
ghost use Rattle.ct_generics.specs.Resolved.{resolved};
ghost use Rattle.ct_sexpr.specs.View.{expression_of};
ghost use Rattle.ct_sorts.specs.Written.{AreParametersBelow};
ghost use Rattle.ct_stack.specs.Elaborations.{synonym_body, with_synonym_of};
ghost use Rattle.ct_stack.specs.Outcomes.{Gives};
ghost use Rattle.ct_stack.specs.Refusal.{IsSynonymRefusal};

use crate::block::has_repeated_name;
use crate::sorts::command_error;
use ct_command::CommandError;
use ct_names::written_sort;
use ct_sexpr::Sexpr;
use ct_sorts::{Name, SigError, Signature, SortExpr};
use std::alloc::Global;

/// The number of the error of a name that is taken.
const NAME_TAKEN: u16 = 11;

/// The number of the error of a repeated parameter.
const REPEATED_VARIABLE: u16 = 27;

/// Adds a synonym of the sort that an expression writes over these parameters.
pub(crate) fn define_sort(
    alloc: Global,
    sig: &mut Signature,
    name: &[u8],
    params: &[&[u8]],
    body: &Sexpr,
) -> Result<(), CommandError>
    ensures ok { OnOk result (Gives (synonym_body sig.old (map (λ p. p.now) params.now) (expression_of body.now))
        (λ e. sig.new ≡ with_synonym_of sig.old name.now (map (λ p. p.now) params.now) e)) }
    ensures accepted { OnOk result ((n : ℕ) → IsSynonymRefusal sig.old name.now (map (λ p. p.now) params.now) (expression_of body.now) n → ⊥) }
    ensures refused { (n : ℕ) → IsErrOf result (CommandError.Refused n) → IsSynonymRefusal sig.old name.now (map (λ p. p.now) params.now) (expression_of body.now) n }
    ensures unchanged { OnErr result (sig.new ≡ sig.old) }
{
    let name = Name::from_slice(alloc, name)?;
    if sig.is_unavailable_sort(&name) {
        return Err(CommandError::Refused(NAME_TAKEN));
    }
    if has_repeated_name(alloc, params)? {
        return Err(CommandError::Refused(REPEATED_VARIABLE));
    }
    let body = body_of(alloc, sig, params, body)?;
    match sig.add_synonym(name, params.len() as u64, body) {
        Ok(()) => Ok(()),
        Err(SigError::Refused(code)) => Err(CommandError::Refused(code)),
        Err(SigError::NoMemory) => Err(CommandError::NoMemory),
    }
}

// The sort for which the synonym stands.
fn body_of(
    alloc: Global,
    sig: &Signature,
    params: &[&[u8]],
    body: &Sexpr,
) -> Result<SortExpr, CommandError>
    ensures ok { IfOk result (λ written. (e : Expression) × (synonym_body sig.now (map (λ p. p.now) params.now) (expression_of body.now) ≡ Ok e) × (resolved sig.now.declared written ≡ Ok e)) }
    ensures refused { (n : ℕ) → IsErrOf result (CommandError.Refused n) → synonym_body sig.now (map (λ p. p.now) params.now) (expression_of body.now) ≡ Err n }
    ensures below { IfOk result (AreParametersBelow (length params.now)) }
{
    match written_sort(alloc, sig, params, body) {
        Ok(body) => Ok(body),
        Err(error) => Err(command_error(error)),
    }
}
