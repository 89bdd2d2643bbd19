//! Terms with the representatives put in for their arguments: congruent terms become one term.
ghost use Rattle.std.specs.Prelude.{◌<◌, length, IfOk};
ghost use Rattle.std.specs.List.{AllZip, AllByRecursion};
ghost use Rattle.ct_terms.specs.declared.ids.TermId.{TermId};
ghost use Rattle.ct_terms.specs.Terms.{HasArgumentsBelow};
ghost use Rattle.ct_congr.specs.Normal.{IsNormal, IsRepresented};

use crate::error::CongrError;
use ct_terms::{Args, Core, TermId};
use std::alloc::Global;

/// The term with the representatives put in for its arguments.
pub(crate) fn normal(alloc: Global, core: &Core, reps: &[TermId]) -> Result<Core, CongrError>
    requires inside { HasArgumentsBelow (length reps.now) core.now }
    ensures normal { IfOk result (IsNormal reps.now core.now) }
{
    match core {
        Core::Con(c, args) => Ok(Core::Con(*c, represented(alloc, args.as_slice(), reps)?)),
        Core::Sel(s, t) => Ok(Core::Sel(*s, reps[t.0 as usize])),
        Core::Test(c, t) => Ok(Core::Test(*c, reps[t.0 as usize])),
        Core::Apply(f, args) => Ok(Core::Apply(*f, represented(alloc, args.as_slice(), reps)?)),
        Core::Eq(a, b) => Ok(Core::Eq(reps[a.0 as usize], reps[b.0 as usize])),
        Core::Not(t) => Ok(Core::Not(reps[t.0 as usize])),
        Core::And(args) => Ok(Core::And(represented(alloc, args.as_slice(), reps)?)),
        Core::Or(args) => Ok(Core::Or(represented(alloc, args.as_slice(), reps)?)),
        Core::Iff(a, b) => Ok(Core::Iff(reps[a.0 as usize], reps[b.0 as usize])),
        Core::Ite(c, a, b) => Ok(Core::Ite(
            reps[c.0 as usize],
            reps[a.0 as usize],
            reps[b.0 as usize],
        )),
    }
}

// The representatives of the terms, in order.
fn represented(alloc: Global, terms: &[TermId], reps: &[TermId]) -> Result<Args, CongrError>
    requires inside { AllByRecursion (λ t. t.0 < length reps.now) terms.now }
    ensures each { IfOk result (λ args. AllZip (IsRepresented reps.now) terms.now args) }
{
    let mut args = Args::new(alloc);
    for t in terms {
        args.push(reps[t.0 as usize])?;
    }
    Ok(args)
}
