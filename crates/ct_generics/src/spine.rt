//! The head of a shared expression with its arguments.
ghost use Rattle.ct_generics.specs.declared.nodes.Node.{Node};
ghost use Rattle.std.specs.Prelude.{◌≡◌, ◌<◌, ℕ, List, Some, slice_get, [], ◌∷◌, ◌++◌, length, reverse, option_map, IfOk, IfErr, IfSome, IfNone, MatchOption};
ghost use Rattle.ct_generics.specs.declared.nodes.Node.TheVariants.{Apply};
ghost use Rattle.ct_generics.specs.Expression.{Expression, head_of, args_of};
ghost use Rattle.ct_generics.specs.Nodes.{Stands, AreWithin, IsSpine, IsNoApply};

use crate::error::GenericError;
use crate::items::Items;
use crate::nodes::{ExprId, Expressions, HeadId, Node};
use std::alloc::Global;

/// The head of an expression, none for a parameter, and its arguments in order.
#[derive(Debug, Drop)]
pub struct Spine {
    /// The sort or generic.
    pub head: Option<HeadId>,
    /// Its arguments.
    pub args: Items<ExprId>,
}

/// The head of an expression and its arguments. The only error is `NoMemory`.
pub fn head_and_args(alloc: Global, table: &Expressions, id: ExprId) -> Result<Spine, GenericError>
    requires within { id.0 < length table.now }
    ensures spine { IfOk result (λ s. (e : Expression) → Stands table.now id.0 e → IsSpine table.now (option_map (λ h. h.0) s.head) s.args e) }
    ensures within { IfOk result (λ s. AreWithin table.now s.args) }
    ensures err { IfErr result (λ e. e ≡ GenericError.NoMemory) }
{
    let mut stack = Vec::new(alloc);
    let mut next = id;
    while let Some(parts) = split(table, next) {
        stack.push(parts.argument)?;
        next = parts.function;
    }
    let head = top(table.node(next));
    let args = reversed(alloc, stack)?;
    Ok(Spine {
        head,
        args: Items::new(args),
    })
}

/// An expression without its last argument, and this argument.
#[derive(Clone, Copy, Debug)]
pub(crate) struct Parts {
    /// The expression without it.
    pub(crate) function: ExprId,
    /// The last argument.
    pub(crate) argument: ExprId,
}

/// What an expression with arguments is made of.
pub(crate) fn split(table: &Expressions, id: ExprId) -> Option<Parts>
    requires within { id.0 < length table.now }
    ensures parts { IfSome result (λ p. slice_get table.now id.0 ≡ Some (Apply p.function p.argument)) }
    ensures below { IfSome result (λ p. (p.function.0 < id.0) × (p.argument.0 < id.0)) }
    ensures none { IfNone result ((node : Node) → slice_get table.now id.0 ≡ Some node → IsNoApply node) }
{
    match table.node(id) {
        Node::Apply(function, argument) => Some(Parts { function, argument }),
        Node::Param(_) => None,
        Node::Head(_) => None,
    }
}

// The sort or generic that the node is.
fn top(node: Node) -> Option<HeadId>
    ensures top { (nodes : List Node) (n : ℕ) (e : Expression) → slice_get nodes n ≡ Some node → IsNoApply node → Stands nodes n e → (option_map (λ h. h.0) result ≡ head_of e) × (args_of e ≡ []) }
{
    match node {
        Node::Head(h) => Some(h),
        Node::Param(_) => None,
        Node::Apply(_, _) => None,
    }
}

// The same numbers, the last one first.
fn reversed(alloc: Global, stack: Vec<ExprId>) -> Result<Vec<ExprId>, GenericError>
    ensures value { IfOk result (λ args. args.items ≡ reverse stack.items) }
    ensures err { IfErr result (λ e. e ≡ GenericError.NoMemory) }
{
    let mut args = Vec::with_capacity(alloc, stack.len())?;
    let mut rest = stack;
    while let Some(id) = pop(&mut rest) {
        args.push(id)?;
    }
    Ok(args)
}

// Takes the last number.
fn pop(stack: &mut Vec<ExprId>) -> Option<ExprId>
    ensures popped { MatchOption result (stack.old.items ≡ []) (λ id. stack.old.items ≡ stack.new.items ++ id ∷ []) }
{
    stack.pop()
}
