//! The value of a function at its arguments, from the function's table.
ghost use Rattle.std.specs.Prelude.{◌≡◌, ◌<◌, List, length, slice_get, Some, IfOk};
ghost use Rattle.ct_sorts.specs.declared.ids.SortId.{SortId};
ghost use Rattle.ct_sorts.specs.Declarations.{Declarations};
ghost use Rattle.ct_values.specs.Graph.{Nodes, IsClosed};
ghost use Rattle.ct_values.specs.Value.{Value, reference};
ghost use Rattle.ct_values.specs.Agreement.{point};
ghost use Rattle.ct_values.specs.Fitting.{FitsGraph, HasNodeSort};
ghost use Rattle.ct_values.specs.Sharing.{IsRepresentative};
ghost use Rattle.ct_eval.specs.declared.interp.Table.{Table};
ghost use Rattle.ct_eval.specs.Interpretation.{IsProper, FitsTable};
ghost use Rattle.ct_eval.specs.LookUp.{look_up};
ghost use Rattle.ct_eval.specs.Index.{IsIndex, AreRepresentatives};
ghost use Rattle.ct_eval.specs.Valued.{IsLonger};
ghost use Rattle.ct_eval.specs.EvaluationStep.{IsEvaluable, IsNodeFor};

use crate::error::EvalError;
use crate::index::{Index, found};
use crate::interp::{Interp, Table, Tables};
use crate::nodes::{closed, nodes_of, theorems};
use ct_sorts::FunId;
use ct_terms::{Core, TermId};
use ct_values::{NodeId, NodeIds, SharedGraph};
use std::alloc::Global;

/// The node of what the table of a function gives for the arguments.
pub(crate) fn apply(
    alloc: Global,
    interp: &Interp,
    funs: &Index,
    shared: &SharedGraph,
    nodes: &[NodeId],
    f: FunId,
    args: &[TermId],
) -> Result<NodeId, EvalError>
    requires longer { IsLonger interp.now.graph shared.now }
    requires funs { IsIndex interp.now.graph interp.now.funs funs.now }
    requires ready { (d : Declarations) × IsProper d interp.now
        × IsEvaluable d interp.now shared.now nodes.now (Core.Apply f args.now) }
    ensures value { (d : Declarations)
        → IsProper d interp.now
        → FitsGraph d shared.now
        → IfOk result (IsNodeFor d interp.now shared.now shared.now nodes.now (Core.Apply f args.now)) }
{
    closed(interp);
    let args = NodeIds::new(nodes_of(alloc, nodes, args)?);
    Ok(given(funs, &interp.funs, f.0, shared, args))
}

/// The representative of what a table gives for representatives.
pub(crate) fn given(
    index: &Index,
    tables: &Tables,
    number: u32,
    shared: &SharedGraph,
    args: NodeIds,
) -> NodeId
    requires fits { (g : Nodes) × (d : Declarations) × (sorts : List SortId) × (sort : SortId) × (table : Table)
        × (values : List Value)
        × IsIndex g tables.now index.now
        × (slice_get tables.now number ≡ Some table)
        × IsLonger g shared.now
        × FitsTable d g sorts sort table
        × AreRepresentatives g shared.now args values }
    ensures value { (g : Nodes) (d : Declarations) (sorts : List SortId) (sort : SortId) (table : Table)
        (values : List Value)
        → IsIndex g tables.now index.now
        → slice_get tables.now number ≡ Some table
        → IsLonger g shared.now
        → FitsTable d g sorts sort table
        → AreRepresentatives g shared.now args values
        → IsClosed g
        → IsRepresentative shared.now (point g (reference (look_up g table values))) result
        × HasNodeSort d shared.now result sort }
{
    theorems(shared);
    let node = found(index, number as u64, table_at(tables, number), args);
    shared.first(node)
}

// The table with this number.
fn table_at(tables: &Tables, number: u32) -> &Table
    requires within { number < length tables.now }
    ensures value { slice_get tables.now number ≡ Some result.now }
{
    &tables.as_slice()[number as usize]
}
