//! What is stored of expressions to decide whether the names of a block occur in them only with their own parameters: one shape
//! for each shared expression.
ghost use Rattle.std.specs.Prelude.{◌≡◌, ◌↔◌, ◌<◌, ◌≤◌, ◌^◌, ◌+◌, ◌&&◌, ℕ, List, length, Some, slice_get, IfOk, IfErr, IsTrue};
ghost use Rattle.ct_generics.specs.declared.nodes.Node.{Node};
ghost use Rattle.ct_generics.specs.declared.nodes.Node.TheVariants.{Param};
ghost use Rattle.ct_generics.specs.Expression.{Expression, parameter, named, applied, args_of};
ghost use Rattle.ct_generics.specs.Nodes.{Stands, HasPartsBelow, AreOrdered};
ghost use Rattle.ct_generics.specs.Shapes.{IsShape, AreShapes, keeps};

use crate::error::GenericError;
use crate::nodes::{ExprId, Expressions, HeadId, Node};
use std::alloc::Global;

/// What is kept of an expression that may come before further arguments.
#[derive(Clone, Copy, Debug)]
pub(crate) struct Shape {
    /// Its head is of the block.
    pub(crate) own: bool,
    /// Its arguments are the first parameters, in order.
    pub(crate) ordered: bool,
    /// How many arguments it has.
    pub(crate) count: u64,
    /// In its arguments each name of the block stands at the parameters.
    pub(crate) inner: bool,
}

/// The shapes of all expressions, where the block has the numbers from `first` on. The only error is `NoMemory`.
pub(crate) fn shapes(
    alloc: Global,
    first: usize,
    params: u64,
    table: &Expressions,
) -> Result<Vec<Shape>, GenericError>
    ensures long { IfOk result (λ shapes. length shapes.items ≡ length table.now) }
    ensures shapes { IfOk result (λ shapes. AreShapes first params table.now shapes.items) }
    ensures err { IfErr result (λ e. e ≡ GenericError.NoMemory) }
{
    let mut shapes = Vec::with_capacity(alloc, table.len())?;
    for k in 0..table.len() {
        let node = table.node(ExprId(k as u64));
        let shape = node_shape(first, params, table, shapes.as_slice(), node);
        shapes.push(shape)?;
    }
    Ok(shapes)
}

// The shape of the node after these.
fn node_shape(first: usize, params: u64, table: &Expressions, shapes: &[Shape], node: Node) -> Shape
    requires below { HasPartsBelow (length shapes.now) node }
    requires within { length shapes.now ≤ length table.now }
    requires small { length shapes.now < 2 ^ 63 }
    ensures shape { (e : Expression) → AreOrdered table.now → AreShapes first params table.now shapes.now
        → slice_get table.now (length shapes.now) ≡ Some node → Stands table.now (length shapes.now) e → IsShape first params result e }
{
    match node {
        Node::Param(_) => param_shape(),
        Node::Head(h) => head_shape(first, h),
        Node::Apply(m, k) => {
            let argument = table.node(k);
            applied_shape(params, shape_at(shapes, m), shape_at(shapes, k), argument)
        }
    }
}

// The shape of a parameter.
fn param_shape() -> Shape
    ensures shape { (first params i : ℕ) → IsShape first params result (parameter i) }
{
    Shape {
        own: false,
        ordered: true,
        count: 0,
        inner: true,
    }
}

// The shape of a sort or generic.
fn head_shape(first: usize, h: HeadId) -> Shape
    ensures shape { (params : ℕ) → IsShape first params result (named h.0) }
{
    Shape {
        own: is_own(first, h),
        ordered: true,
        count: 0,
        inner: true,
    }
}

// Whether the sort or generic is of the block.
fn is_own(first: usize, h: HeadId) -> bool
    ensures own { IsTrue result ↔ (first ≤ h.0) }
{
    first as u64 <= h.0
}

// The shape of an earlier expression.
fn shape_at(shapes: &[Shape], m: ExprId) -> Shape
    requires within { m.0 < length shapes.now }
    ensures value { slice_get shapes.now m.0 ≡ Some result }
{
    shapes[m.0 as usize]
}

// The shape of an expression with one argument more.
fn applied_shape(params: u64, function: Shape, argument: Shape, node: Node) -> Shape
    ensures shape { (first : ℕ) (nodes : List Node) (k : ℕ) (f a : Expression) → slice_get nodes k ≡ Some node → Stands nodes k a
        → IsShape first params function f → IsShape first params argument a → length (args_of f) < 2 ^ 63
        → IsShape first params result (applied f a) }
{
    let is_next = is_param(node, function.count);
    let keeping = keeps(argument, params);
    Shape {
        own: function.own,
        ordered: both(function.ordered, is_next),
        count: next_count(function.count),
        inner: both(function.inner, keeping),
    }
}

// Whether both hold.
fn both(first: bool, second: bool) -> bool
    ensures value { result ≡ (first && second) }
{
    first && second
}

// One argument more.
fn next_count(count: u64) -> u64
    ensures next { count < 2 ^ 63 → result ≡ count + 1 }
{
    if count < 1 << 63 {
        return count + 1;
    }
    count
}

// Whether the node is this parameter.
fn is_param(node: Node, i: u64) -> bool
    ensures param { IsTrue result ↔ (node ≡ Param i) }
{
    match node {
        Node::Param(k) => k == i,
        Node::Head(_) => false,
        Node::Apply(_, _) => false,
    }
}

/// Whether an expression of this shape, with no further arguments, keeps to the parameters.
pub(crate) fn keeps(shape: Shape, params: u64) -> bool
    ensures value { result ≡ keeps shape params }
{
    shape.inner && (!shape.own || (shape.ordered && shape.count == params))
}
