//! What expressions reach, as a graph: they are numbered as they are met, and vertices are made in that order.
ghost use Rattle.std.specs.Prelude.{◌≡◌, ◌⊎◌, ◌<◌, ◌≤◌, ℕ, List, length, Some, slice_get, IfOk, IfErr, IfSome, IfNone};
ghost use Rattle.std.specs.List.{AllZip};
ghost use Rattle.ct_generics.specs.declared.nodes.ExprId.{ExprId};
ghost use Rattle.ct_generics.specs.Expression.{Expression};
ghost use Rattle.ct_generics.specs.Declarations.{Head};
ghost use Rattle.ct_generics.specs.Nodes.{StandFor, Stay};
ghost use Rattle.ct_generics.specs.Reach.{most_reached};
ghost use Rattle.ct_generics.specs.Stored.{AreStored};
ghost use Rattle.ct_generics.specs.Reached.{IsReached, ReachMoreThan};

use crate::error::GenericError;
use crate::graph::Vertex;
use crate::heads::StoredHead;
use crate::ids::ExprIds;
use crate::items::Items;
use crate::nodes::{ExprId, Expressions};
use crate::vertices::vertex_of;
use std::alloc::Global;

/// The most expressions that one reaches.
const MOST_REACHED: usize = 4096;

/// What expressions reach.
#[derive(Drop)]
pub struct Reached {
    /// All that is reached.
    pub ids: ExprIds,
    /// The vertex of each.
    pub graph: Items<Vertex>,
    /// The indices of the expressions that were given.
    pub starts: Items<usize>,
}

/// The graph of what expressions reach, or none if together they reach more than 4,096. The only error is `NoMemory`.
pub fn reached_graph(
    alloc: Global,
    heads: &[StoredHead],
    table: &mut Expressions,
    roots: &[ExprId],
) -> Result<Option<Reached>, GenericError>
    requires stand { (es : List Expression) × StandFor table.old roots.now es }
    requires stored { (hs : List Head) × AreStored heads.now hs }
    ensures whole { IfOk result (λ found. IfSome found (λ r. (hs : List Head) (es : List Expression)
        → AreStored heads.now hs → StandFor table.old roots.now es → IsReached hs table.new r.ids r.graph r.starts es)) }
    ensures long { IfOk result (λ found. IfSome found (λ r. length r.graph ≡ length r.ids)) }
    ensures few { IfOk result (λ found. IfSome found (λ r. length r.ids ≤ most_reached)) }
    ensures many { IfOk result (λ found. IfNone found ((hs : List Head) (es : List Expression)
        → AreStored heads.now hs → StandFor table.old roots.now es → ReachMoreThan hs es most_reached)) }
    ensures stay { Stay table.old table.new }
    ensures err { IfErr result (λ e. e ≡ GenericError.NoMemory) }
{
    let mut ids = ExprIds::new(alloc);
    let starts = insert_all(alloc, &mut ids, roots)?;
    let mut graph = Vec::new(alloc);
    while count(&graph) < ids.len() {
        let met = ids.len();
        if met > MOST_REACHED {
            let _single = table.len();
            return Ok(None);
        }
        let done = count(&graph);
        let id = ids.get(done);
        let vertex = vertex_of(alloc, heads, table, &mut ids, id)?;
        graph.push(vertex)?;
    }
    Ok(Some(Reached {
        ids,
        graph: Items::new(graph),
        starts: Items::new(starts),
    }))
}

// The indices of these numbers.
fn insert_all(
    alloc: Global,
    ids: &mut ExprIds,
    roots: &[ExprId],
) -> Result<Vec<usize>, GenericError>
    ensures at { IfOk result (λ starts. AllZip (λ i id. slice_get ids.new i ≡ Some id) starts.items roots.now) }
    ensures only { IfOk result (λ starts. (i : ℕ) (id : ExprId) → slice_get ids.new i ≡ Some id
        → (slice_get ids.old i ≡ Some id) ⊎ ((k : ℕ) × (slice_get roots.now k ≡ Some id))) }
    ensures stay { Stay ids.old ids.new }
    ensures err { IfErr result (λ e. e ≡ GenericError.NoMemory) }
{
    let mut starts = Vec::with_capacity(alloc, roots.len())?;
    for root in roots {
        let start = ids.insert(*root)?;
        starts.push(start)?;
    }
    Ok(starts)
}

// How many vertices were made.
fn count(graph: &Vec<Vertex>) -> usize
    ensures count { result ≡ length graph.now.items }
{
    graph.as_slice().len()
}
