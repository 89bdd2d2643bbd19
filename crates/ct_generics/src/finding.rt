//! Finds an expression of one table in another.
ghost use Rattle.std.specs.Prelude.{◌≡◌, ◌<◌, ℕ, List, length, Some, slice_get, IfOk, IfErr, IfSome, IfNone};
ghost use Rattle.ct_generics.specs.Expression.{Expression};
ghost use Rattle.ct_generics.specs.declared.nodes.Node.{Node};
ghost use Rattle.ct_generics.specs.Found.{AreFoundAs, IsFoundAs};
ghost use Rattle.ct_generics.specs.Nodes.{Stands, HasPartsBelow};

use crate::error::GenericError;
use crate::nodes::{ExprId, Expressions, Node};
use std::alloc::Global;

/// The number in the target of an expression of the source, if it is there. The only error is `NoMemory`.
pub fn find_expression(
    alloc: Global,
    target: &Expressions,
    source: &Expressions,
    id: ExprId,
) -> Result<Option<ExprId>, GenericError>
    requires within { id.0 < length source.now }
    ensures found { IfOk result (λ found. IfSome found (λ n. (e : Expression) → Stands source.now id.0 e → Stands target.now n.0 e)) }
    ensures none { IfOk result (λ found. IfNone found ((n : ℕ) (e : Expression) → Stands source.now id.0 e → Stands target.now n e → ⊥)) }
    ensures err { IfErr result (λ e. e ≡ GenericError.NoMemory) }
{
    let mut found = Vec::with_capacity(alloc, source.len())?;
    for k in 0..source.len() {
        let next = find_node(target, found.as_slice(), source.node(ExprId(k as u64)));
        found.push(next)?;
    }
    Ok(entry(found.as_slice(), id))
}

// The number of the node's expression in the target, where those of the nodes before it are known.
fn find_node(target: &Expressions, found: &[Option<ExprId>], node: Node) -> Option<ExprId>
    requires below { HasPartsBelow (length found.now) node }
    ensures found { (source : List Node) (k : ℕ) (e : Expression) → slice_get source k ≡ Some node → Stands source k e → AreFoundAs target.now source found.now → IsFoundAs target.now e result }
{
    match node {
        Node::Param(_) => target.find(node),
        Node::Head(_) => target.find(node),
        Node::Apply(m, k) => {
            let function = entry(found, m);
            let argument = entry(found, k);
            match (function, argument) {
                (Some(f), Some(a)) => target.find(Node::Apply(f, a)),
                _ => None,
            }
        }
    }
}

// What was found for an earlier expression.
fn entry(found: &[Option<ExprId>], m: ExprId) -> Option<ExprId>
    requires within { m.0 < length found.now }
    ensures value { slice_get found.now m.0 ≡ Some result }
{
    found[m.0 as usize]
}
