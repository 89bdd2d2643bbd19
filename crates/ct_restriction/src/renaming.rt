//! Renumbers the direct subterms of terms.
ghost use Rattle.std.specs.Prelude.{◌≡◌, ◌<◌, All, length, map, IfOk};
ghost use Rattle.ct_terms.specs.Children.{HasArgumentsBelow};
ghost use Rattle.ct_restriction.specs.Renamed.{number_in, renamed};

use ct_terms::{Args, Core, TermId};
use std::alloc::{AllocError, Global};

/// The term with each number right under it exchanged for the one that stands beside it in the list.
pub(crate) fn renamed(alloc: Global, core: &Core, numbers: &[TermId]) -> Result<Core, AllocError>
    requires below { HasArgumentsBelow (length numbers.now) core.now }
    ensures renamed { IfOk result (λ made. made ≡ renamed (number_in numbers.now) core.now) }
{
    match core {
        Core::Con(c, args) => Ok(Core::Con(*c, renamed_args(alloc, args.as_slice(), numbers)?)),
        Core::Sel(s, t) => Ok(Core::Sel(*s, number_in(numbers, *t))),
        Core::Test(c, t) => Ok(Core::Test(*c, number_in(numbers, *t))),
        Core::Apply(f, args) => Ok(Core::Apply(*f, renamed_args(alloc, args.as_slice(), numbers)?)),
        Core::Eq(a, b) => Ok(Core::Eq(number_in(numbers, *a), number_in(numbers, *b))),
        Core::Not(t) => Ok(Core::Not(number_in(numbers, *t))),
        Core::And(args) => Ok(Core::And(renamed_args(alloc, args.as_slice(), numbers)?)),
        Core::Or(args) => Ok(Core::Or(renamed_args(alloc, args.as_slice(), numbers)?)),
        Core::Iff(a, b) => Ok(Core::Iff(number_in(numbers, *a), number_in(numbers, *b))),
        Core::Ite(c, a, b) => Ok(Core::Ite(
            number_in(numbers, *c),
            number_in(numbers, *a),
            number_in(numbers, *b),
        )),
    }
}

/// The number that stands beside this one in the list.
pub(crate) fn number_in(numbers: &[TermId], t: TermId) -> TermId
    requires within { t.0 < length numbers.now }
    ensures value { result ≡ number_in numbers.now t }
{
    numbers[t.0 as usize]
}

// The numbers beside these in the list.
fn renamed_args(alloc: Global, args: &[TermId], numbers: &[TermId]) -> Result<Args, AllocError>
    requires below { All (λ t. t.0 < length numbers.now) args.now }
    ensures renamed { IfOk result (λ made. made ≡ map (number_in numbers.now) args.now) }
{
    let mut made = Args::new(alloc);
    for t in args {
        made.push(number_in(numbers, *t))?;
    }
    Ok(made)
}

/// The numbers beside these in the list.
pub(crate) fn numbers_in(
    alloc: Global,
    numbers: &[TermId],
    terms: &[TermId],
) -> Result<Vec<TermId>, AllocError>
    requires below { All (λ t. t.0 < length numbers.now) terms.now }
    ensures renamed { IfOk result (λ made. made.items ≡ map (number_in numbers.now) terms.now) }
{
    let mut made = Vec::new(alloc);
    for t in terms {
        made.push(number_in(numbers, *t))?;
    }
    Ok(made)
}
