//! The text of a small finite tree, as a constructor term.
//!
//! The tree at a node is written head first, from a stack of what is still to be written. The walk
//! gives up when it comes to one node more than may be written as a plain term: a node that reaches
//! a cycle, whose tree has no end, comes there too. So nothing recurses, and nothing but the stack
//! and the text is stored.
ghost use Rattle.std.specs.Prelude.{◌≡◌, ◌<◌, length, reverse, map, ◌++◌, MatchOption, OnOk, IfOk};
ghost use Rattle.ct_value_text.specs.declared.tree_text.Item.TheVariants as items;
ghost use Rattle.ct_values.specs.Fitting.{FitsGraph};
ghost use Rattle.ct_sorts.specs.Declarations.{IsConstructor};
ghost use Rattle.ct_sexpr.specs.Written.{written};
ghost use Rattle.ct_value_text.specs.ValueText.{IsTreeText, IsTooGreat, ctor_expression};
ghost use Rattle.ct_value_text.specs.Walk.{IsBegun, opening, pending};

use crate::text::{write_ctor, write_element};
use ct_sorts::{CtorId, Signature};
use ct_values::{Graph, Head, NodeId, ValueError};
use std::alloc::Global;

// The most nodes of a tree that is written as a constructor term, each counted as often as it occurs.
const MOST_PLAIN: u64 = 1_000;

// The most items on the stack with which the walk goes on. Of each node that was begun at most one
// is a parenthesis, so with as many items more nodes are left than may be written: the walk does
// not go on after a node with many children.
const MOST_ITEMS: usize = 2_000;

/// What is still to be written.
#[derive(Clone, Copy, Debug)]
pub(crate) enum Item {
    /// The tree at a node, after a space.
    Node(NodeId),
    /// A closing parenthesis.
    Close,
}

/// The tree at the root as a constructor term. `None` where it is infinite or has more than 1,000 nodes, each counted
/// as often as it occurs.
pub(crate) fn tree_text(
    alloc: Global,
    sig: &Signature,
    g: &Graph,
    root: NodeId,
) -> Result<Option<Vec<u8>>, ValueError>
    requires within { root.0 < length g.now }
    requires fits { FitsGraph sig.now g.now }
    ensures text { IfOk result (λ found. MatchOption found (IsTooGreat g.now root) (λ text. IsTreeText sig.now g.now root text.items)) }
{
    let mut out = Vec::new(alloc);
    let mut stack = Vec::new(alloc);
    begin(alloc, sig, g, root, &mut out, &mut stack)?;
    let mut count = 1;
    while let Some(item) = stack.pop() {
        let Item::Node(n) = item else {
            out.push(b')')?;
            continue;
        };
        if count >= MOST_PLAIN {
            return Ok(None);
        }
        if stack.len() >= MOST_ITEMS {
            return Ok(None);
        }
        out.push(b' ')?;
        begin(alloc, sig, g, n, &mut out, &mut stack)?;
        count += 1;
    }
    Ok(Some(out))
}

// Writes the head of the node's tree, and puts what is left of the tree onto the stack.
fn begin(
    alloc: Global,
    sig: &Signature,
    g: &Graph,
    n: NodeId,
    out: &mut Vec<u8>,
    stack: &mut Vec<Item>,
) -> Result<(), ValueError>
    requires within { n.0 < length g.now }
    requires fits { FitsGraph sig.now g.now }
    ensures begun { OnOk result (IsBegun sig.now g.now n out.old.items out.new.items (reverse stack.old.items) (reverse stack.new.items)) }
{
    match g.head(n) {
        Head::Con(c) => begin_constructor(sig, c, g.children(n), out, stack),
        Head::Elem(s, number) => write_element(alloc, sig, s, number, out),
    }
}

// Writes the constructor, after an opening parenthesis where it has arguments, which go onto the
// stack.
fn begin_constructor(
    sig: &Signature,
    c: CtorId,
    children: &[NodeId],
    out: &mut Vec<u8>,
    stack: &mut Vec<Item>,
) -> Result<(), ValueError>
    requires declared { IsConstructor sig.now c }
    ensures text { OnOk result (out.new.items ≡ out.old.items ++ opening (written (ctor_expression sig.now c)) children.now) }
    ensures stack { OnOk result (reverse stack.new.items ≡ pending children.now ++ reverse stack.old.items) }
{
    if children.is_empty() {
        return write_ctor(sig, c, out);
    }
    out.push(b'(')?;
    write_ctor(sig, c, out)?;
    stack.push(Item::Close)?;
    push_all(children, stack)
}

// Puts the nodes onto the stack, the first on top.
fn push_all(nodes: &[NodeId], stack: &mut Vec<Item>) -> Result<(), ValueError>
    ensures pushed { OnOk result (reverse stack.new.items ≡ map items.Node nodes.now ++ reverse stack.old.items) }
{
    for n in nodes.iter().rev() {
        stack.push(Item::Node(*n))?;
    }
    Ok(())
}
