//! What the graph of reached expressions says about the sorts and generics of a block: whether one reaches too much, is mixed,
//! or is not well founded.
ghost use Rattle.std.specs.Prelude.{◌≡◌, ◌↔◌, ◌<◌, ◌≤◌, ◌+◌, ℕ, not, List, length, Some, slice_get, IfOk, IfErr, IfSome, IfNone, IsTrue};
ghost use Rattle.std.specs.List.{list_any};
ghost use Rattle.ct_generics.specs.declared.nodes.ExprId.{ExprId};
ghost use Rattle.ct_generics.specs.Expression.{Expression};
ghost use Rattle.ct_generics.specs.Declarations.{Head};
ghost use Rattle.ct_generics.specs.Marks.{marked};
ghost use Rattle.ct_generics.specs.Stored.{AreStored};
ghost use Rattle.ct_generics.specs.Reach.{most_reached};
ghost use Rattle.ct_generics.specs.Reached.{IsReached};
ghost use Rattle.ct_generics.specs.Lengths.{IsLongAt};
ghost use Rattle.ct_generics.specs.Block.{IsTooLarge};
ghost use Rattle.ct_generics.specs.Founded.{IsFounded};
ghost use Rattle.ct_generics.specs.Mixed.{IsMixed};
ghost use Rattle.ct_generics.specs.Findings.{AreFindings, SomeOf, SomeIn};

use crate::error::GenericError;
use crate::free::either;
use crate::graph::{founded, is_marked};
use crate::heads::StoredHead;
use crate::ids::ExprIds;
use crate::nodes::Expressions;
use crate::own::own_expressions;
use crate::reach::{Reached, reached_graph};
use crate::search::is_mixed;
use crate::text::{is_long, text_lengths};
use crate::theorems::graphs;
use std::alloc::Global;

/// What is found out about sorts and generics.
#[derive(Clone, Copy, Debug)]
pub(crate) struct Findings {
    /// One reaches more than 4,096 expressions, or one whose text is longer than 65,536 bytes.
    pub(crate) large: bool,
    /// One is mixed.
    pub(crate) mixed: bool,
    /// One is not well founded.
    pub(crate) unfounded: bool,
}

/// What is found out about the sorts and generics from `first` on: from one graph for all of them, or where this is too
/// large from one graph for each. The only error is `NoMemory`.
pub(crate) fn find_out(
    alloc: Global,
    heads: &[StoredHead],
    first: usize,
) -> Result<Findings, GenericError>
    requires stored { (hs : List Head) × AreStored heads.now hs }
    requires within { first ≤ length heads.now }
    ensures found { IfOk result (λ f. (hs : List Head) → AreStored heads.now hs → AreFindings first (length heads.now) hs f) }
    ensures err { IfErr result (λ e. e ≡ GenericError.NoMemory) }
{
    let together = find_out_together(alloc, heads, first, heads.len())?;
    match together {
        Some(all) => Ok(all),
        None => find_out_one_by_one(alloc, heads, first),
    }
}

// From one graph for each.
fn find_out_one_by_one(
    alloc: Global,
    heads: &[StoredHead],
    first: usize,
) -> Result<Findings, GenericError>
    requires stored { (hs : List Head) × AreStored heads.now hs }
    requires within { first ≤ length heads.now }
    ensures found { IfOk result (λ f. (hs : List Head) → AreStored heads.now hs → AreFindings first (length heads.now) hs f) }
    ensures err { IfErr result (λ e. e ≡ GenericError.NoMemory) }
{
    let mut all = no_findings();
    for h in first..heads.len() {
        let one = find_out_one(alloc, heads, h)?;
        all = joined(all, one);
    }
    Ok(all)
}

// What is found where nothing is looked at.
fn no_findings() -> Findings
    ensures found { (from : ℕ) (hs : List Head) → AreFindings from from hs result }
{
    Findings {
        large: false,
        mixed: false,
        unfounded: false,
    }
}

// What is found in two parts.
fn joined(left: Findings, right: Findings) -> Findings
    ensures found { (from middle end : ℕ) (hs : List Head) → from ≤ middle → middle ≤ end → AreFindings from middle hs left → AreFindings middle end hs right → AreFindings from end hs result }
{
    let large = either(left.large, right.large);
    let mixed = either(left.mixed, right.mixed);
    let unfounded = either(left.unfounded, right.unfounded);
    Findings {
        large,
        mixed,
        unfounded,
    }
}

// What is found out about one sort or generic.
fn find_out_one(alloc: Global, heads: &[StoredHead], h: usize) -> Result<Findings, GenericError>
    requires stored { (hs : List Head) × AreStored heads.now hs }
    requires within { h < length heads.now }
    ensures found { IfOk result (λ f. (hs : List Head) → AreStored heads.now hs → AreFindings h (h + 1) hs f) }
    ensures err { IfErr result (λ e. e ≡ GenericError.NoMemory) }
{
    let alone = find_out_together(alloc, heads, h, h + 1)?;
    match alone {
        Some(found) => Ok(found),
        None => Ok(Findings {
            large: true,
            mixed: false,
            unfounded: false,
        }),
    }
}

// From one graph, or none where this has more than 4,096 expressions.
fn find_out_together(
    alloc: Global,
    heads: &[StoredHead],
    from: usize,
    end: usize,
) -> Result<Option<Findings>, GenericError>
    requires stored { (hs : List Head) × AreStored heads.now hs }
    requires rises { from ≤ end }
    requires within { end ≤ length heads.now }
    ensures found { IfOk result (λ found. IfSome found (λ f. (hs : List Head) → AreStored heads.now hs → AreFindings from end hs f)) }
    ensures large { IfOk result (λ found. IfNone found ((hs : List Head) → AreStored heads.now hs → end ≡ from + 1 → SomeIn from end hs (IsTooLarge hs))) }
    ensures err { IfErr result (λ e. e ≡ GenericError.NoMemory) }
{
    let mut table = Expressions::new(alloc);
    let roots = own_expressions(alloc, heads, &mut table, from, end)?;
    let whole = reached_graph(alloc, heads, &mut table, roots.as_slice())?;
    match whole {
        None => Ok(None),
        Some(reached) => {
            let found = find_out_in(alloc, heads, &table, &reached)?;
            Ok(Some(found))
        }
    }
}

// From this graph.
fn find_out_in(
    alloc: Global,
    heads: &[StoredHead],
    table: &Expressions,
    reached: &Reached,
) -> Result<Findings, GenericError>
    requires whole { (hs : List Head) × (es : List Expression) × AreStored heads.now hs × IsReached hs table.now reached.now.ids reached.now.graph reached.now.starts es }
    requires long { length reached.now.graph ≡ length reached.now.ids }
    requires few { length reached.now.ids ≤ most_reached }
    ensures size { IfOk result (λ f. (hs : List Head) (es : List Expression) → AreStored heads.now hs → IsReached hs table.now reached.now.ids reached.now.graph reached.now.starts es
        → IsTrue f.large ↔ SomeOf es (IsTooLarge hs)) }
    ensures mixing { IfOk result (λ f. (hs : List Head) (es : List Expression) → AreStored heads.now hs → IsReached hs table.now reached.now.ids reached.now.graph reached.now.starts es
        → IsTrue f.mixed ↔ SomeOf es (IsMixed hs)) }
    ensures founding { IfOk result (λ f. (hs : List Head) (es : List Expression) → AreStored heads.now hs → IsReached hs table.now reached.now.ids reached.now.graph reached.now.starts es
        → IsTrue f.unfounded ↔ SomeOf es (λ e. IsFounded hs e → ⊥)) }
    ensures err { IfErr result (λ e. e ≡ GenericError.NoMemory) }
{
    graphs();
    let _single = table.len();
    let _unlike = reached.ids.len();
    let counts = text_lengths(alloc, heads, table)?;
    let large = has_long(counts.as_slice(), &reached.ids);
    let graph = reached.graph.as_slice();
    let mixed = is_mixed(alloc, graph)?;
    let marks = founded(alloc, graph)?;
    let unfounded = has_unmarked(marks.as_slice(), reached.starts.as_slice());
    Ok(Findings {
        large,
        mixed,
        unfounded,
    })
}

// Whether one of these expressions has too long a text.
fn has_long(counts: &[u64], ids: &ExprIds) -> bool
    ensures long { IsTrue result ↔ ((i : ℕ) × (id : ExprId) × (slice_get ids.now i ≡ Some id) × IsLongAt counts.now id) }
{
    for i in 0..ids.len() {
        if is_long(counts, ids.get(i)) {
            return true;
        }
    }
    false
}

// Whether one of these vertices is not marked.
fn has_unmarked(marks: &[bool], starts: &[usize]) -> bool
    ensures value { result ≡ list_any (λ i. not (marked marks.now i)) starts.now }
{
    starts.iter().any(|start| !is_marked(marks, *start))
}
