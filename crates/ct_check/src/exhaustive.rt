//! Whether the patterns of a `match` are exhaustive.
ghost use Rattle.std.specs.Prelude.{◌≡◌, ◌||◌, IfOk, IfErr, OnOk};
ghost use Rattle.std.specs.List.{list_all, list_any};
ghost use Rattle.ct_sorts.specs.declared.ids.CtorId.{CtorId};
ghost use Rattle.ct_formulas.specs.Compiled.{is_among};
ghost use Rattle.ct_names.specs.Patterns.{are_exhaustive, fits_all, is_of_ctor, sort_ctors};

use ct_formulas::Pattern;
use ct_names::Stop;
use ct_occurrence::Earlier;
use ct_sorts::{Signature, SortId};
use std::alloc::Global;

/// Whether some pattern fits everything, or each constructor of the sort has one.
///
/// It takes a look-up for each pattern and one for each constructor of the sort, and fails only where memory runs out.
pub(crate) fn are_exhaustive(
    alloc: Global,
    sig: &Signature,
    side: SortId,
    patterns: &[Pattern],
) -> Result<bool, Stop>
    ensures value { IfOk result (λ b. b ≡ are_exhaustive sig.now side patterns.now) }
    ensures err { IfErr result (λ e. e ≡ Stop.NoMemory) }
{
    if some_fits_all(patterns) {
        return Ok(true);
    }
    let met = ctors_of(alloc, patterns)?;
    Ok(is_covered(sig, side, &met))
}

// Whether one of the patterns fits everything.
fn some_fits_all(patterns: &[Pattern]) -> bool
    ensures value { result ≡ list_any fits_all patterns.now }
{
    patterns.iter().any(|pattern| fits_all(*pattern))
}

// Whether the pattern fits everything.
fn fits_all(pattern: Pattern) -> bool
    ensures value { result ≡ fits_all pattern }
{
    match pattern {
        Pattern::Any => true,
        Pattern::Ctor(_) => false,
    }
}

// The constructors that have a pattern.
fn ctors_of(alloc: Global, patterns: &[Pattern]) -> Result<Earlier, Stop>
    ensures met { IfOk result (λ met. (c : CtorId) → is_among met c ≡ list_any (is_of_ctor c) patterns.now) }
    ensures err { IfErr result (λ e. e ≡ Stop.NoMemory) }
{
    let mut met = Earlier::new(alloc);
    let mut left = patterns;
    while let [first, others @ ..] = left {
        put(&mut met, *first)?;
        left = others;
    }
    Ok(met)
}

// Puts the constructor of the pattern down, where it has one.
fn put(met: &mut Earlier, pattern: Pattern) -> Result<(), Stop>
    ensures more { OnOk result ((c : CtorId) → is_among met.new c ≡ (is_among met.old c || is_of_ctor c pattern)) }
    ensures err { IfErr result (λ e. e ≡ Stop.NoMemory) }
{
    match pattern {
        Pattern::Any => Ok(()),
        Pattern::Ctor(c) => {
            met.push(c)?;
            Ok(())
        }
    }
}

// Whether each constructor of the sort is one of these.
fn is_covered(sig: &Signature, side: SortId, met: &Earlier) -> bool
    ensures value { result ≡ list_all (is_among met.now) (sort_ctors sig.now side) }
{
    if side.0 >= sig.sorts() {
        return true;
    }
    sig.ctors(side).iter().all(|c| met.has(*c))
}
