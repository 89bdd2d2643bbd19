//! The test of a case of a `match`.
ghost use Rattle.std.specs.Prelude.{List, Contains, IfOk, IsErrOf};
ghost use Rattle.ct_sorts.specs.declared.ids.SortId.{SortId};
ghost use Rattle.ct_terms.specs.CoreTree.{CoreTree, test};
ghost use Rattle.ct_terms.specs.CoreSorts.{HasTreeSort};
ghost use Rattle.ct_operators.specs.Effect.{Stands, IsSoundTable, Effect};
ghost use Rattle.ct_scope.specs.Compilable.{IsBound};
ghost use Rattle.ct_scope.specs.Matching.{IsTerm};

use crate::bound::Bound;
use ct_operators::make;
use ct_sorts::{CtorId, Signature};
use ct_terms::{Core, TermError, TermId, TermTable};

/// The test of what is matched.
pub fn make_test(
    sig: &Signature,
    table: &mut TermTable,
    c: CtorId,
    matched: Bound,
) -> Result<TermId, TermError>
    requires kept { IsSoundTable sig.now table.old }
    requires there { IsTerm matched }
    requires bound { (tree : CoreTree) × (sort : SortId) × IsBound table.old matched tree × HasTreeSort sig.now (test c tree) sort }
    ensures core { (tree : CoreTree) → IsBound table.old matched tree → IfOk result (λ t. Stands table.new t (test c tree)) }
    ensures effect { (tree : CoreTree) (allowed : List CoreTree) → IsBound table.old matched tree
        → Contains allowed (test c tree)
        → Effect sig.now allowed table.old table.new (IsErrOf result TermError.Full) }
{
    match matched {
        Bound::Term(t) => make(sig, table, Core::Test(c, t)),
        Bound::Field(_, _) | Bound::Absent => unreachable!(),
    }
}
