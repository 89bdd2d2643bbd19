//! The sorts of the nodes of a graph. With parametric sorts a name does not determine a sort. For nodes that the root reaches,
//! sorts are passed down from the root by the fields of constructors; every other node is tried at one sort after another, by
//! itself.
ghost use Rattle.std.specs.Prelude.{◌≡◌, ◌<◌, ◌≤◌, ◌⊎◌, ◌∷◌, [], ℕ, length, map, slice_get, All, Some, IfOk, IfSome, OnOk, MatchOption};
ghost use Rattle.std.specs.Bool.{OnTrue, OnFalse};
ghost use Rattle.ct_sexpr.specs.View.{expressions_of};
ghost use Rattle.ct_sorts.specs.Declarations.{IsSort, IsSelector};
ghost use Rattle.ct_sorts.specs.declared.ids.SortId.{SortId};
ghost use Rattle.ct_values.specs.Graph.{Nodes};
ghost use Rattle.ct_names.specs.Symbols.{field_sort_id};
ghost use Rattle.ct_readback.specs.Nodes.{said_at, CanHave, IsGraphOf};
ghost use Rattle.ct_readback.specs.Descent.{AreReached, AreSorts, HasUnsorted, Extends, IsDescended, IsStopped, HaveSorts, AreOthers, IsOther, HasSort, Keeps, AreKnown, Adds, HasPair, AreClosed, AreAsked, AreMissing, IsAsked, IsUnfit, asked_by, pairs_of};

use crate::error::BackError;
use crate::graph_text::{likely_sort, said_at};
use ct_sexpr::Sexpr;
use ct_sorts::{SelId, Signature, SortId};
use ct_values::{Node, NodeId};
use indexmap::IndexSet;
use std::alloc::Global;

/// Nodes that have a sort, and those of them in the order in which they got it.
#[derive(Debug, Drop)]
pub(crate) struct Descent {
    pub(crate) sorts: Vec<Option<SortId>>,
    pub(crate) met: Vec<usize>,
}

/// The sorts of the nodes that node 0 reaches where it has this one; nothing where the rows do not fit so.
pub(crate) fn sorts_below(
    alloc: Global,
    sig: &Signature,
    rows: &[Sexpr],
    s: SortId,
) -> Result<Option<Vec<Option<SortId>>>, BackError>
    requires inside { IsSort sig.now s }
    requires some { 0 < length rows.now }
    ensures sorts { IfOk result (λ found. MatchOption found
        ((h : Nodes) → IsGraphOf sig.now s (expressions_of rows.now) h → ⊥)
        (λ sorts. AreReached sig.now s (expressions_of rows.now) sorts.items)) }
{
    prove!(sig.sorts() > 0);
    let sorts = vec![in alloc; None; rows.len()]?;
    let mut descent = Descent {
        sorts,
        met: Vec::new(alloc),
    };
    if !meet(NodeId(0), s, &mut descent)? {
        unreachable!();
    }
    for place in 0..usize::MAX {
        if place >= descent.met.len() {
            return Ok(Some(descent.sorts));
        }
        let i = descent.met[place];
        let Some(s) = descent.sorts[i] else {
            unreachable!();
        };
        if !meet_below(alloc, sig, rows, i, s, &mut descent)? {
            return Ok(None);
        }
    }
    Err(BackError::NoMemory)
}

// Gives the children of the node their sorts. Whether they can have them.
fn meet_below(
    alloc: Global,
    sig: &Signature,
    rows: &[Sexpr],
    i: usize,
    s: SortId,
    descent: &mut Descent,
) -> Result<bool, BackError>
    requires inside { IsSort sig.now s }
    ensures extends { Extends descent.old descent.new (asked_by sig.now (said_at sig.now (expressions_of rows.now) i s)) }
    ensures met { IfOk result (λ has. OnTrue has (IsDescended sig.now (expressions_of rows.now) descent.new.sorts.items i s)) }
    ensures stopped { IfOk result (λ has. OnFalse has (IsStopped sig.now (expressions_of rows.now) descent.new.sorts.items i s)) }
{
    let node = said_at(alloc, sig, rows, i, s)?;
    match node {
        None => Ok(false),
        Some(Node::Elem(_, _)) => Ok(true),
        Some(Node::Con(c, children)) => {
            meet_children(sig, sig.ctor_sels(c), children.as_slice(), descent)
        }
    }
}

// Gives each of the nodes the sort of its field. Whether they can have them.
fn meet_children(
    sig: &Signature,
    fields: &[SelId],
    children: &[NodeId],
    descent: &mut Descent,
) -> Result<bool, BackError>
    requires inside { All (IsSelector sig.now) fields.now }
    ensures extends { Extends descent.old descent.new (pairs_of children.now (map (field_sort_id sig.now) fields.now)) }
    ensures met { IfOk result (λ has. OnTrue has (HaveSorts descent.new.sorts.items children.now (map (field_sort_id sig.now) fields.now))) }
    ensures others { IfOk result (λ has. OnFalse has (AreOthers descent.new.sorts.items children.now (map (field_sort_id sig.now) fields.now))) }
{
    if fields.len() != children.len() {
        return Ok(false);
    }
    for k in 0..children.len() {
        if !meet(children[k], sig.sel_sort(fields[k]), descent)? {
            return Ok(false);
        }
    }
    Ok(true)
}

// Gives the node the sort, if it has none. Whether it has this one then.
fn meet(n: NodeId, s: SortId, descent: &mut Descent) -> Result<bool, BackError>
    ensures extends { Extends descent.old descent.new ((n.0, s) ∷ []) }
    ensures met { IfOk result (λ has. OnTrue has (HasSort descent.new.sorts.items n.0 s)) }
    ensures other { IfOk result (λ has. OnFalse has (IsOther descent.old.sorts.items (n.0, s))) }
{
    if n.0 >= descent.sorts.len() as u64 {
        return Ok(false);
    }
    let i = n.0 as usize;
    if let Some(own) = descent.sorts[i] {
        return Ok(own == s);
    }
    descent.met.push(i)?;
    descent.sorts[i] = Some(s);
    Ok(true)
}

/// A node with a sort.
#[derive(Clone, Copy, Debug, PartialEq, Eq, Hash)]
pub(crate) struct Pair {
    pub(crate) node: usize,
    pub(crate) sort: u32,
}

/// A sort for each node: the one that it has, if it has one, and else one that it can have by itself; nothing where a node can have none.
pub(crate) fn some_sorts(
    alloc: Global,
    sig: &Signature,
    rows: &[Sexpr],
    reached: &[Option<SortId>],
) -> Result<Option<Vec<SortId>>, BackError>
    requires reached { (s : SortId) × AreReached sig.now s (expressions_of rows.now) reached.now }
    ensures sorts { IfOk result (λ found. MatchOption found
        (HasUnsorted sig.now (expressions_of rows.now))
        (λ sorts. AreSorts sig.now (expressions_of rows.now) reached.now sorts.items)) }
{
    let mut known = Vec::from_slice(alloc, reached)?;
    let mut sorts = Vec::with_capacity(alloc, reached.len())?;
    for i in 0..reached.len() {
        let Some(s) = sort_of(alloc, sig, rows, i, &mut known)? else {
            return Ok(None);
        };
        sorts.push(s)?;
    }
    Ok(Some(sorts))
}

// A sort that the node can have, which is the one that is known if there is one.
fn sort_of(
    alloc: Global,
    sig: &Signature,
    rows: &[Sexpr],
    i: usize,
    known: &mut Vec<Option<SortId>>,
) -> Result<Option<SortId>, BackError>
    requires within { i < length rows.now }
    requires known { AreKnown sig.now (expressions_of rows.now) known.old.items }
    ensures keeps { Keeps known.old.items known.new.items }
    ensures known { OnOk result (AreKnown sig.now (expressions_of rows.now) known.new.items) }
    ensures first { IfOk result (λ found. (s : SortId) → HasSort known.old.items i s → found ≡ Some s) }
    ensures sort { IfOk result (λ found. MatchOption found
        ((s : SortId) → CanHave sig.now (expressions_of rows.now) i s → ⊥)
        (λ s. IsSort sig.now s × CanHave sig.now (expressions_of rows.now) i s)) }
{
    if let Some(s) = known[i] {
        return Ok(Some(s));
    }
    if let Some(s) = likely_had(alloc, sig, rows, i, known)? {
        return Ok(Some(s));
    }
    let found = some_had(alloc, sig, rows, i, known)?;
    Ok(found)
}

// The sort that the row may have, if the node can have it.
fn likely_had(
    alloc: Global,
    sig: &Signature,
    rows: &[Sexpr],
    i: usize,
    known: &mut Vec<Option<SortId>>,
) -> Result<Option<SortId>, BackError>
    requires within { i < length rows.now }
    requires known { AreKnown sig.now (expressions_of rows.now) known.old.items }
    ensures keeps { Keeps known.old.items known.new.items }
    ensures known { OnOk result (AreKnown sig.now (expressions_of rows.now) known.new.items) }
    ensures sort { IfOk result (λ found. IfSome found
        (λ s. IsSort sig.now s × CanHave sig.now (expressions_of rows.now) i s)) }
{
    let Some(s) = likely_sort(sig, &rows[i]) else {
        return Ok(None);
    };
    if can_have(alloc, sig, rows, i, s, known)? {
        return Ok(Some(s));
    }
    Ok(None)
}

// The first of all sorts that the node can have.
fn some_had(
    alloc: Global,
    sig: &Signature,
    rows: &[Sexpr],
    i: usize,
    known: &mut Vec<Option<SortId>>,
) -> Result<Option<SortId>, BackError>
    requires known { AreKnown sig.now (expressions_of rows.now) known.old.items }
    ensures keeps { Keeps known.old.items known.new.items }
    ensures known { OnOk result (AreKnown sig.now (expressions_of rows.now) known.new.items) }
    ensures sort { IfOk result (λ found. MatchOption found
        ((s : SortId) → CanHave sig.now (expressions_of rows.now) i s → ⊥)
        (λ s. IsSort sig.now s × CanHave sig.now (expressions_of rows.now) i s)) }
{
    for s in 0..sig.sorts() {
        if can_have(alloc, sig, rows, i, SortId(s), known)? {
            return Ok(Some(SortId(s)));
        }
    }
    Ok(None)
}

// Whether the node can have the sort by itself. If it can, the sort that each node below it has then becomes known where none was.
fn can_have(
    alloc: Global,
    sig: &Signature,
    rows: &[Sexpr],
    i: usize,
    s: SortId,
    known: &mut Vec<Option<SortId>>,
) -> Result<bool, BackError>
    requires inside { IsSort sig.now s }
    requires known { AreKnown sig.now (expressions_of rows.now) known.old.items }
    ensures keeps { Keeps known.old.items known.new.items }
    ensures known { OnOk result (AreKnown sig.now (expressions_of rows.now) known.new.items) }
    ensures can { IfOk result (λ can. OnTrue can (CanHave sig.now (expressions_of rows.now) i s)) }
    ensures cannot { IfOk result (λ can. OnFalse can (CanHave sig.now (expressions_of rows.now) i s → ⊥)) }
{
    match pairs_below(alloc, sig, rows, i, s, known)? {
        None => Ok(false),
        Some(pairs) => {
            note(&pairs, known);
            Ok(true)
        }
    }
}

// The pairs of nodes and sorts that the node asks for where it has the sort, beside what is known; nothing where it cannot have it.
fn pairs_below(
    alloc: Global,
    sig: &Signature,
    rows: &[Sexpr],
    i: usize,
    s: SortId,
    known: &[Option<SortId>],
) -> Result<Option<IndexSet<Pair>>, BackError>
    requires inside { IsSort sig.now s }
    requires known { AreKnown sig.now (expressions_of rows.now) known.now }
    ensures pairs { IfOk result (λ found. MatchOption found
        (CanHave sig.now (expressions_of rows.now) i s → ⊥)
        (λ pairs. AreClosed sig.now (expressions_of rows.now) known.now i s pairs.keys)) }
{
    prove!(sig.sorts() > 0);
    let mut pairs = IndexSet::new(alloc);
    pairs.insert(Pair { node: i, sort: s.0 })?;
    for place in 0..usize::MAX {
        let Some(pair) = pair_at(&pairs, place) else {
            return Ok(Some(pairs));
        };
        if !add_below(alloc, sig, rows, pair, known, &mut pairs)? {
            return Ok(None);
        }
    }
    Err(BackError::NoMemory)
}

// The pair at this place.
fn pair_at(pairs: &IndexSet<Pair>, place: usize) -> Option<Pair>
    ensures value { result ≡ slice_get pairs.now.keys place }
{
    pairs.get_index(place).copied()
}

// Adds the pairs of the node's children and their sorts. Whether they are nodes, as many as fields.
fn add_below(
    alloc: Global,
    sig: &Signature,
    rows: &[Sexpr],
    pair: Pair,
    known: &[Option<SortId>],
    pairs: &mut IndexSet<Pair>,
) -> Result<bool, BackError>
    requires inside { IsSort sig.now (record { 0 = pair.sort }) }
    ensures adds { OnOk result (Adds pairs.old.keys pairs.new.keys (asked_by sig.now (said_at sig.now (expressions_of rows.now) pair.node (record { 0 = pair.sort })))) }
    ensures asked { IfOk result (λ fits. OnTrue fits (IsAsked sig.now (expressions_of rows.now) known.now pairs.new.keys pair.node (record { 0 = pair.sort }))) }
    ensures unfit { IfOk result (λ fits. OnFalse fits (IsUnfit sig.now (expressions_of rows.now) (length known.now) pair.node (record { 0 = pair.sort }))) }
{
    let node = said_at(alloc, sig, rows, pair.node, SortId(pair.sort))?;
    match node {
        None => Ok(false),
        Some(Node::Elem(_, _)) => Ok(true),
        Some(Node::Con(c, children)) => {
            add_children(sig, sig.ctor_sels(c), children.as_slice(), known, pairs)
        }
    }
}

// Adds the pairs of the children with the sorts of the fields.
fn add_children(
    sig: &Signature,
    fields: &[SelId],
    children: &[NodeId],
    known: &[Option<SortId>],
    pairs: &mut IndexSet<Pair>,
) -> Result<bool, BackError>
    requires inside { All (IsSelector sig.now) fields.now }
    ensures adds { OnOk result (Adds pairs.old.keys pairs.new.keys (pairs_of children.now (map (field_sort_id sig.now) fields.now))) }
    ensures asked { IfOk result (λ fits. OnTrue fits (AreAsked known.now pairs.new.keys children.now (map (field_sort_id sig.now) fields.now))) }
    ensures missing { IfOk result (λ fits. OnFalse fits (AreMissing (length known.now) children.now (map (field_sort_id sig.now) fields.now))) }
{
    if fields.len() != children.len() {
        return Ok(false);
    }
    for k in 0..children.len() {
        if !add(children[k], sig.sel_sort(fields[k]), known, pairs)? {
            return Ok(false);
        }
    }
    Ok(true)
}

// Adds the pair, where the sort is not that which is known of the node. Whether there is such a node.
fn add(
    n: NodeId,
    s: SortId,
    known: &[Option<SortId>],
    pairs: &mut IndexSet<Pair>,
) -> Result<bool, BackError>
    ensures adds { OnOk result (Adds pairs.old.keys pairs.new.keys ((n.0, s) ∷ [])) }
    ensures asked { IfOk result (λ is. OnTrue is (n.0 < length known.now × (HasSort known.now n.0 s ⊎ HasPair pairs.new.keys (n.0, s)))) }
    ensures missing { IfOk result (λ is. OnFalse is (length known.now ≤ n.0)) }
{
    if n.0 >= known.len() as u64 {
        return Ok(false);
    }
    let i = n.0 as usize;
    if has_sort(known, i, s) {
        return Ok(true);
    }
    pairs.insert(Pair { node: i, sort: s.0 })?;
    Ok(true)
}

// Whether this sort is known of the node.
fn has_sort(known: &[Option<SortId>], i: usize, s: SortId) -> bool
    requires within { i < length known.now }
    ensures has { OnTrue result (HasSort known.now i s) }
{
    match known[i] {
        None => false,
        Some(own) => own == s,
    }
}

// Makes the sorts known, where none was known of a node.
fn note(pairs: &IndexSet<Pair>, known: &mut Vec<Option<SortId>>)
    ensures keeps { Keeps known.old.items known.new.items }
    ensures only { (i : ℕ) (s : SortId) → HasSort known.new.items i s → HasSort known.old.items i s ⊎ HasPair pairs.now.keys (i, s) }
{
    for place in 0..pairs.len() {
        note_at(pairs, place, known);
    }
}

// The same for the pair at this place, if there is one.
fn note_at(pairs: &IndexSet<Pair>, place: usize, known: &mut Vec<Option<SortId>>)
    ensures keeps { Keeps known.old.items known.new.items }
    ensures only { (i : ℕ) (s : SortId) → HasSort known.new.items i s → HasSort known.old.items i s ⊎ HasPair pairs.now.keys (i, s) }
{
    let Some(pair) = pair_at(pairs, place) else {
        return;
    };
    if pair.node >= known.len() {
        return;
    }
    if let Some(_) = known[pair.node] {
        return;
    }
    known[pair.node] = Some(SortId(pair.sort));
}
