//! Choices between several terms, each with its condition, from the last one on.
ghost use Rattle.std.specs.Prelude.{◌<◌, length, List, IfOk, IsErrOf};
ghost use Rattle.std.specs.List.{AllByRecursion};
ghost use Rattle.ct_sorts.specs.declared.ids.SortId.{SortId};
ghost use Rattle.ct_terms.specs.CoreTree.{CoreTree, term_at};
ghost use Rattle.ct_terms.specs.CoreSorts.{HasTreeSort};
ghost use Rattle.ct_operators.specs.Effect.{Stands, IsSoundTable, Within, Effect};
ghost use Rattle.ct_operators.specs.Chosen.{chosen_from, IsGuardedIn};

use crate::making::make;
use ct_sorts::Signature;
use ct_terms::{Core, TermError, TermId, TermTable};

/// A term that is chosen where its condition holds.
#[derive(Clone, Copy, Debug)]
pub struct Guarded {
    /// The condition.
    pub condition: TermId,
    /// The term.
    pub body: TermId,
}

/// The first of the terms whose condition holds, else the last one. The choice before the last term is the first to
/// be made.
///
/// `Full` comes where the table holds 400,000 terms and does not have one that is to be made.
pub fn choices(
    sig: &Signature,
    table: &mut TermTable,
    guarded: &[Guarded],
    last: TermId,
) -> Result<TermId, TermError>
    requires kept { IsSoundTable sig.now table.old }
    requires below { AllByRecursion (IsGuardedIn table.old) guarded.now }
    requires inside { last.0 < length table.old }
    requires sorted { (sort : SortId) × HasTreeSort sig.now (chosen_from (term_at table.old) guarded.now (term_at table.old last)) sort }
    ensures core { IfOk result (λ t. Stands table.new t (chosen_from (term_at table.old) guarded.now (term_at table.old last))) }
    ensures effect { (allowed : List CoreTree)
        → Within allowed (chosen_from (term_at table.old) guarded.now (term_at table.old last))
        → Effect sig.now allowed table.old table.new (IsErrOf result TermError.Full) }
{
    let mut term = last;
    let mut rest = guarded;
    while let [more @ .., previous] = rest {
        let core = Core::Ite(previous.condition, previous.body, term);
        term = make(sig, table, core)?;
        rest = more;
    }
    Ok(term)
}
