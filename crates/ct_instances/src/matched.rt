//! The sorts for which the parameters of a generic stand, by the fields of a constructor and the sorts of its arguments.
ghost use Rattle.std.specs.Prelude.{◌≡◌, ◌≤◌, length, All, IfOk, MatchOption, ⊤};
ghost use Rattle.ct_sorts.specs.Applied.{TakesAll};
ghost use Rattle.ct_sorts.specs.Declarations.{IsSort};
ghost use Rattle.ct_sorts.specs.Lookup.{IsSymbol};
ghost use Rattle.ct_sorts.specs.declared.ids.Symbol.TheVariants.{GenCtor};
ghost use Rattle.ct_instances.specs.Fields.{IsMatched, field_matches};

use crate::matching::Matching;
use ct_sorts::{GenId, Signature, SortId};
use std::alloc::{AllocError, Global};

/// The sorts of the parameters of a generic, found by matching the first fields of its constructor with these sorts
/// from left to right; none if a field does not fit, or a parameter was not matched. They are as many as the generic's
/// parameters. The only error is out of memory.
pub fn matched_with(
    alloc: Global,
    sig: &Signature,
    g: GenId,
    index: u32,
    sorts: &[SortId],
) -> Result<Option<Vec<SortId>>, AllocError>
    requires ctor { IsSymbol sig.now (GenCtor g index) }
    requires sorts { All (IsSort sig.now) sorts.now }
    ensures value { IfOk result (IsMatched sig.now (field_matches sig.now g index sorts.now)) }
    ensures inside { IfOk result (λ found. MatchOption found ⊤ (λ given. All (IsSort sig.now) given.items)) }
    ensures takes { IfOk result (λ found. MatchOption found ⊤ (λ given. TakesAll sig.now g given.items)) }
{
    let mut matching = Matching::new(alloc, sig, g, index)?;
    let mut left = sorts;
    while let [first, others @ ..] = left {
        if !matching.fits_next(alloc, sig, *first)? {
            return Ok(None);
        }
        left = others;
    }
    matching.sorts(alloc)
}
