//! Shared expressions: equal expressions have one number, so that an expression is no larger than what was written to
//! make it (hash-consing; Filliâtre and Conchon 2006).
ghost use Rattle.std.specs.Prelude.{◌≡◌, ◌<◌, ◌^◌, ℕ, [], ◌∷◌, ◌++◌, length, take, Some, slice_get, IfOk, IfErr, OnOk, OnErr, IfSome, IfNone};
ghost use Rattle.ct_generics.specs.Expression.{Expression, parameter, named, applied};
ghost use Rattle.ct_generics.specs.Nodes.{Stands, HasPartsBelow, AreOrdered, AreSingle, Stay};

use crate::error::GenericError;
use indexmap::IndexSet;
use std::alloc::Global;
use std::marker::Model;

/// The number of a sort or generic, in the order of declarations.
#[derive(Clone, Copy, Debug, PartialEq, Eq, Hash)]
pub struct HeadId(pub u64);

/// The number of a shared expression.
#[derive(Clone, Copy, Debug, PartialEq, Eq, Hash)]
pub struct ExprId(pub u64);

/// What stands at a number: a parameter, a sort or generic, or an expression with one argument more.
#[derive(Clone, Copy, Debug, PartialEq, Eq, Hash)]
pub enum Node {
    /// A parameter, counted from 0.
    Param(u64),
    /// A sort or generic.
    Head(HeadId),
    /// The first with the second as its next argument.
    Apply(ExprId, ExprId),
}

/// Shared expressions, each with one number. Clauses see the list of nodes.
#[derive(Drop)]
pub struct Expressions {
    nodes: IndexSet<Node>,
}

impl Model for Expressions {
    ghost use Rattle.std.specs.Prelude.{List};
    ghost use Rattle.ct_generics.specs.declared.nodes.Node.{Node};
    ghost use Rattle.ct_generics.specs.Nodes.{AreOrdered, AreSingle};

    ghost Value = { List Node };

    ghost view = { λ stored. stored.nodes.keys };

    ghost invariant = { λ stored. AreOrdered stored.nodes.keys × AreSingle stored.nodes.keys };
}

impl Expressions {
    /// No expressions.
    pub fn new(alloc: Global) -> Expressions
        ensures empty { length result ≡ 0 }
    {
        Expressions {
            nodes: IndexSet::new(alloc),
        }
    }

    /// The number of expressions.
    pub fn len(&self) -> usize
        ensures len { result ≡ length self.now }
        ensures small { result < 2 ^ 63 }
        ensures ordered { AreOrdered self.now }
        ensures single { AreSingle self.now }
    {
        self.nodes.len()
    }

    /// The node with a number.
    pub fn node(&self, n: ExprId) -> Node
        requires within { n.0 < length self.now }
        ensures value { slice_get self.now n.0 ≡ Some result }
        ensures below { HasPartsBelow n.0 result }
    {
        *self.nodes.get_index(n.0 as usize).unwrap()
    }

    /// Keeps the first expressions.
    pub fn truncate(&mut self, len: usize)
        ensures first { self.new ≡ take len self.old }
    {
        self.nodes.truncate(len);
    }

    /// The number of a parameter.
    pub fn param(&mut self, i: u64) -> Result<ExprId, GenericError>
        ensures ok { IfOk result (λ n. Stands self.new n.0 (parameter i)) }
        ensures within { IfOk result (λ n. n.0 < length self.new) }
        ensures stay { Stay self.old self.new }
        ensures err { IfErr result (λ e. e ≡ GenericError.NoMemory) }
    {
        self.add(Node::Param(i))
    }

    /// The number of a sort or generic without arguments.
    pub fn head(&mut self, h: HeadId) -> Result<ExprId, GenericError>
        ensures ok { IfOk result (λ n. Stands self.new n.0 (named h.0)) }
        ensures within { IfOk result (λ n. n.0 < length self.new) }
        ensures stay { Stay self.old self.new }
        ensures err { IfErr result (λ e. e ≡ GenericError.NoMemory) }
    {
        self.add(Node::Head(h))
    }

    /// The number of an expression with one argument more.
    pub fn apply(&mut self, m: ExprId, k: ExprId) -> Result<ExprId, GenericError>
        requires function { m.0 < length self.old }
        requires argument { k.0 < length self.old }
        ensures ok { IfOk result (λ n. (e a : Expression) → Stands self.old m.0 e → Stands self.old k.0 a → Stands self.new n.0 (applied e a)) }
        ensures within { IfOk result (λ n. n.0 < length self.new) }
        ensures stay { Stay self.old self.new }
        ensures err { IfErr result (λ e. e ≡ GenericError.NoMemory) }
    {
        self.add(Node::Apply(m, k))
    }

    /// The number of a node, if it is one of these.
    pub fn find(&self, node: Node) -> Option<ExprId>
        ensures some { IfSome result (λ n. slice_get self.now n.0 ≡ Some node) }
        ensures none { IfNone result ((n : ℕ) → slice_get self.now n ≡ Some node → ⊥) }
        ensures single { AreSingle self.now }
    {
        match self.nodes.get_index_of(&node) {
            Some(index) => Some(ExprId(index as u64)),
            None => None,
        }
    }

    /// One more node, which is not there yet. The only error is `NoMemory`.
    pub(crate) fn push(&mut self, node: Node) -> Result<(), GenericError>
        requires below { HasPartsBelow (length self.old) node }
        requires fresh { (n : ℕ) → slice_get self.old n ≡ Some node → ⊥ }
        ensures ok { OnOk result (self.new ≡ self.old ++ node ∷ []) }
        ensures err { IfErr result (λ e. e ≡ GenericError.NoMemory) }
    {
        self.nodes.insert(node)?;
        Ok(())
    }

    // The number of the node, which it gets here where it has none yet.
    fn add(&mut self, node: Node) -> Result<ExprId, GenericError>
        requires below { HasPartsBelow (length self.old) node }
        ensures ok { IfOk result (λ n. slice_get self.new n.0 ≡ Some node) }
        ensures within { IfOk result (λ n. n.0 < length self.new) }
        ensures stay { Stay self.old self.new }
        ensures err { IfErr result (λ e. e ≡ GenericError.NoMemory) }
    {
        let (index, _) = self.nodes.insert_full(node)?;
        Ok(ExprId(index as u64))
    }
}
