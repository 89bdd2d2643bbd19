//! Adds one term.
ghost use Rattle.std.specs.Prelude.{◌≡◌, ◌<◌, ◌≤◌, length, OnOk, IfOk, IsErrOf};
ghost use Rattle.ct_sorts.specs.declared.ids.SortId.{SortId};
ghost use Rattle.ct_terms.specs.Terms.{HasSort, IsOfSort, IsWellSorted, Has};
ghost use Rattle.ct_closure.specs.Closed.{most_closure_terms};
ghost use Rattle.ct_closure.specs.Steps.{IsSound, IsAdded};

use crate::error::CloseError;
use crate::facts::sound;
use ct_sorts::Signature;
use ct_terms::{Core, TermId, TermTable};

/// The most terms that a closure has.
pub(crate) const MOST_TERMS: u32 = 200_000;

/// The number of the term, which is made where it is not there.
pub(crate) fn add(sig: &Signature, table: &mut TermTable, core: Core) -> Result<TermId, CloseError>
    requires well_sorted { IsWellSorted sig.now table.old core }
    requires sound { IsSound sig.now table.old }
    ensures added { IsAdded sig.now table.old table.new core }
    ensures sound { IsSound sig.now table.new }
    ensures stands { IfOk result (λ t. Has table.new core t.0) }
    ensures sort { IfOk result (λ t. (s : SortId) → HasSort sig.now table.old core s → IsOfSort table.new t s) }
    ensures few { OnOk result (length table.new ≤ most_closure_terms) }
    ensures large { IsErrOf result CloseError.TooLarge → most_closure_terms < length table.new }
{
    let made = table.make(sig, core);
    sound(sig, table);
    if table.len() > MOST_TERMS {
        return Err(CloseError::TooLarge);
    }
    match made {
        Ok(t) => Ok(t),
        Err(_) => Err(CloseError::NoMemory),
    }
}
