//! The sorts and generics of a block at their own parameters.
ghost use Rattle.std.specs.Prelude.{◌≡◌, ◌<◌, ◌≤◌, List, length, IfOk, IfErr};
ghost use Rattle.ct_generics.specs.Expression.{Expression, at_own_parameters};
ghost use Rattle.ct_generics.specs.Declarations.{Head};
ghost use Rattle.ct_generics.specs.Nodes.{Stands, StandFor, Stay};
ghost use Rattle.ct_generics.specs.Stored.{AreStored};
ghost use Rattle.ct_generics.specs.Findings.{AreOwn};

use crate::error::GenericError;
use crate::heads::StoredHead;
use crate::nodes::{ExprId, Expressions, HeadId};
use crate::vertices::stored_head;
use std::alloc::Global;

/// The sorts and generics with the numbers from `from` to before `end`, each at its own parameters. The only error is
/// `NoMemory`.
pub(crate) fn own_expressions(
    alloc: Global,
    heads: &[StoredHead],
    table: &mut Expressions,
    from: usize,
    end: usize,
) -> Result<Vec<ExprId>, GenericError>
    requires rises { from ≤ end }
    requires within { end ≤ length heads.now }
    ensures own { IfOk result (λ roots. (hs : List Head) → AreStored heads.now hs → (es : List Expression) × StandFor table.new roots.items es × AreOwn from end hs es) }
    ensures err { IfErr result (λ e. e ≡ GenericError.NoMemory) }
{
    let mut roots = Vec::with_capacity(alloc, end - from)?;
    for h in from..end {
        let root = own_expression(table, HeadId(h as u64), stored_head(heads, h).params)?;
        roots.push(root)?;
    }
    Ok(roots)
}

// A sort or generic with so many parameters as its arguments.
fn own_expression(table: &mut Expressions, h: HeadId, params: u64) -> Result<ExprId, GenericError>
    ensures own { IfOk result (λ n. Stands table.new n.0 (at_own_parameters h.0 params)) }
    ensures stay { Stay table.old table.new }
    ensures err { IfErr result (λ e. e ≡ GenericError.NoMemory) }
{
    let mut whole = table.head(h)?;
    for i in 0..params {
        let parameter = table.param(i)?;
        whole = table.apply(whole, parameter)?;
    }
    Ok(whole)
}
