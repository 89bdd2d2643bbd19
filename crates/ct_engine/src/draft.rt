//! Equality steps that lead to a contradiction. Whether they are right is decided by the checker, for the line that contains
//! them.
ghost use Rattle.std.specs.Prelude.{IsErrOf};

use crate::error::SolveError;
use ct_explain::EqProof;
use ct_log::EqStep;
use ct_sorts::Items;
use ct_terms::{Lit, TermId};
use std::alloc::Global;

/// One step more. Gives its number.
pub(crate) fn write(proof: &mut EqProof, step: EqStep) -> Result<u64, SolveError>
    ensures err { IsErrOf result SolveError.TooLarge → ⊥ }
{
    let number = proof.steps.len() as u64;
    proof.steps.push(step)?;
    Ok(number)
}

/// That the variable has this truth value, as the clause's literal denies.
pub(crate) fn suppose(proof: &mut EqProof, term: TermId, positive: bool) -> Result<u64, SolveError>
    ensures err { IsErrOf result SolveError.TooLarge → ⊥ }
{
    write(proof, EqStep::Hyp(Lit { term, positive }))
}

/// A contradiction of the step, which says that the variable has this truth value, and that it has the other.
pub(crate) fn contradict(
    proof: &mut EqProof,
    step: u64,
    term: TermId,
    positive: bool,
) -> Result<(), SolveError>
    ensures err { IsErrOf result SolveError.TooLarge → ⊥ }
{
    let turned = write(proof, EqStep::Sym(step))?;
    let other = suppose(proof, term, !positive)?;
    write(proof, EqStep::Trans(turned, other))?;
    Ok(())
}

/// That two terms with one argument each are equal, as their arguments are by the step.
pub(crate) fn congruent(
    alloc: Global,
    proof: &mut EqProof,
    left: TermId,
    right: TermId,
    step: u64,
) -> Result<u64, SolveError>
    ensures err { IsErrOf result SolveError.TooLarge → ⊥ }
{
    let mut steps = Vec::new(alloc);
    steps.push(step)?;
    write(proof, EqStep::Cong(left, right, Items::new(steps)))
}
