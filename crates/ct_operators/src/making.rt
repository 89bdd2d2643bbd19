//! Makes one core term if the table does not have it.
ghost use Rattle.std.specs.Prelude.{length, List, Contains, IfOk, IsErrOf};
ghost use Rattle.ct_sorts.specs.declared.ids.SortId.{SortId};
ghost use Rattle.ct_terms.specs.Terms.{HasArgumentsBelow};
ghost use Rattle.ct_terms.specs.CoreTree.{CoreTree, tree_layer, term_at};
ghost use Rattle.ct_terms.specs.CoreSorts.{HasTreeSort};
ghost use Rattle.ct_operators.specs.Effect.{Stands, IsSoundTable, Effect};

use ct_sorts::Signature;
use ct_terms::{Core, TermError, TermId, TermTable};

/// The number of the term, which is well sorted over terms of the table.
///
/// `Full` comes where the table holds 400,000 terms and does not have this one.
pub fn make(sig: &Signature, table: &mut TermTable, core: Core) -> Result<TermId, TermError>
    requires kept { IsSoundTable sig.now table.old }
    requires below { HasArgumentsBelow (length table.old) core }
    requires sorted { (sort : SortId) × HasTreeSort sig.now (tree_layer (term_at table.old) core) sort }
    ensures core { IfOk result (λ t. Stands table.new t (tree_layer (term_at table.old) core)) }
    ensures effect { (allowed : List CoreTree)
        → Contains allowed (tree_layer (term_at table.old) core)
        → Effect sig.now allowed table.old table.new (IsErrOf result TermError.Full) }
{
    table.make(sig, core)
}
