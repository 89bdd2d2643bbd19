//! Values that are written as constructor terms: their form, and their nodes, children first.
ghost use Rattle.std.specs.Prelude.{◌≡◌, ◌<◌, List, length, All, Some, IfOk};
ghost use Rattle.ct_sexpr.specs.View.{expression_of, expressions_of};
ghost use Rattle.ct_sorts.specs.Declarations.{IsSort, IsSelector, IsConstructor};
ghost use Rattle.ct_sorts.specs.Grown.{Begins};
ghost use Rattle.ct_values.specs.WellFormed.{IsWellFormedGraph};
ghost use Rattle.ct_sorts.specs.declared.ids.SelId.{SelId};
ghost use Rattle.ct_values.specs.Fitting.{IsElement};
ghost use Rattle.ct_values.specs.Value.{Values, element, construct};
ghost use Rattle.ct_names.specs.Symbols.{ctor_sort, ctor_field_sorts};
ghost use Rattle.ct_readback.specs.Trees as spec;
ghost use Rattle.ct_readback.specs.TreeNode.{IsNodeOf, AreNodesOf, AreFieldsOf, HaveTrees};

use crate::error::BackError;
use crate::heads::{constructor_at, element_in, is_constructor_head, is_head};
use crate::pool::Pool;
use ct_sexpr::Sexpr;
use ct_sorts::{CtorId, SelId, Signature, SortId};
use ct_values::{Node, NodeId, NodeIds};
use std::alloc::Global;

/// Whether the expression has the form of a constructor term.
#[cycle(is_tree)]
#[tactic(auto, using(ct_names::proofs::Rows::expression_of_list))]
pub(crate) fn is_tree(expr: &Sexpr) -> bool
    ensures value { result ≡ spec.is_tree (expression_of expr.now) }
{
    if is_head(expr) {
        return true;
    }
    match expr {
        Sexpr::List(items) => is_application(items.as_slice()),
        Sexpr::Symbol(_)
        | Sexpr::Quoted(_)
        | Sexpr::Keyword(_)
        | Sexpr::Text(_)
        | Sexpr::Numeral(_)
        | Sexpr::Decimal(_)
        | Sexpr::Binary(_)
        | Sexpr::Hex(_) => false,
    }
}

// Whether the items of a list are a constructor and such terms.
#[cycle(is_tree)]
fn is_application(items: &[Sexpr]) -> bool
    ensures value { result ≡ spec.is_application (expressions_of items.now) }
{
    match items {
        [] | [_] => false,
        [head, args @ ..] => is_constructor_head(head) && are_trees(args),
    }
}

// Whether each of the expressions has that form.
#[cycle(is_tree)]
fn are_trees(exprs: &[Sexpr]) -> bool
    ensures value { result ≡ spec.are_trees (expressions_of exprs.now) }
{
    for expr in exprs {
        if !is_tree(expr) {
            return false;
        }
    }
    true
}

/// Puts the nodes of the value that a constructor term says after the graph, children first, and gives the number of the last;
/// `None` where it says no value of this sort. In each case the graph may have grown.
#[cycle(push_tree)]
#[tactic(auto, using(ct_names::proofs::Rows::expression_of_list))]
pub(crate) fn push_tree(
    alloc: Global,
    sig: &Signature,
    s: SortId,
    expr: &Sexpr,
    graph: &mut Pool,
) -> Result<Option<NodeId>, BackError>
    requires inside { IsSort sig.now s }
    requires well_formed { IsWellFormedGraph sig.now graph.old }
    ensures grown { Begins graph.old graph.new }
    ensures well_formed { IsWellFormedGraph sig.now graph.new }
    ensures node { IfOk result (IsNodeOf sig.now s (spec.tree_at sig.now s (expression_of expr.now)) graph.new) }
{
    if let Some(number) = element_in(sig, s, expr) {
        return push_element(sig, s, number, graph);
    }
    if let Some(c) = constructor_at(sig, s, expr) {
        return push_lone(alloc, sig, c, graph);
    }
    match expr {
        Sexpr::List(items) => push_application(alloc, sig, s, items.as_slice(), graph),
        Sexpr::Symbol(_)
        | Sexpr::Quoted(_)
        | Sexpr::Keyword(_)
        | Sexpr::Text(_)
        | Sexpr::Numeral(_)
        | Sexpr::Decimal(_)
        | Sexpr::Binary(_)
        | Sexpr::Hex(_) => Ok(None),
    }
}

// The same for the items of a list: a constructor and what it is applied to.
#[cycle(push_tree)]
fn push_application(
    alloc: Global,
    sig: &Signature,
    s: SortId,
    items: &[Sexpr],
    graph: &mut Pool,
) -> Result<Option<NodeId>, BackError>
    requires inside { IsSort sig.now s }
    requires well_formed { IsWellFormedGraph sig.now graph.old }
    ensures grown { Begins graph.old graph.new }
    ensures well_formed { IsWellFormedGraph sig.now graph.new }
    ensures node { IfOk result (IsNodeOf sig.now s (spec.application_at sig.now s (expressions_of items.now)) graph.new) }
{
    let [head, args @ ..] = items else {
        return Ok(None);
    };
    let Some(c) = constructor_at(sig, s, head) else {
        return Ok(None);
    };
    let pushed = push_trees(alloc, sig, sig.ctor_sels(c), args, graph)?;
    match pushed {
        None => Ok(None),
        Some(children) => push_constructor(sig, c, children, graph),
    }
}

// The nodes of the values of these fields that the expressions say, one for one.
#[cycle(push_tree)]
fn push_trees(
    alloc: Global,
    sig: &Signature,
    fields: &[SelId],
    exprs: &[Sexpr],
    graph: &mut Pool,
) -> Result<Option<NodeIds>, BackError>
    requires inside { All (IsSelector sig.now) fields.now }
    requires well_formed { IsWellFormedGraph sig.now graph.old }
    ensures grown { Begins graph.old graph.new }
    ensures well_formed { IsWellFormedGraph sig.now graph.new }
    ensures nodes { IfOk result (AreNodesOf sig.now fields.now (expressions_of exprs.now) graph.new) }
{
    if fields.len() != exprs.len() {
        return Ok(None);
    }
    let mut nodes = Vec::new(alloc);
    let mut place = 0;
    for expr in exprs {
        let found = push_tree(alloc, sig, sig.sel_sort(fields[place]), expr, graph)?;
        let Some(n) = found else {
            return Ok(None);
        };
        nodes.push(n)?;
        place += 1;
    }
    Ok(Some(NodeIds::new(nodes)))
}

// The node of the constructor over these nodes, which are of its fields' sorts.
fn push_constructor(
    sig: &Signature,
    c: CtorId,
    children: NodeIds,
    graph: &mut Pool,
) -> Result<Option<NodeId>, BackError>
    requires inside { IsConstructor sig.now c }
    requires well_formed { IsWellFormedGraph sig.now graph.old }
    requires children { (fields : List SelId) × (vs : Values) × AreFieldsOf sig.now c fields × All (IsSelector sig.now) fields × HaveTrees sig.now graph.old fields vs children }
    ensures grown { Begins graph.old graph.new }
    ensures well_formed { IsWellFormedGraph sig.now graph.new }
    ensures node { IfOk result (λ found. (fields : List SelId) (vs : Values) → AreFieldsOf sig.now c fields → HaveTrees sig.now graph.old fields vs children
        → IsNodeOf sig.now (ctor_sort sig.now c) (Some (construct c vs)) graph.new found) }
{
    let n = graph.add(Node::Con(c, children))?;
    Ok(Some(n))
}

// The node of the constructor alone, where it has no fields.
fn push_lone(
    alloc: Global,
    sig: &Signature,
    c: CtorId,
    graph: &mut Pool,
) -> Result<Option<NodeId>, BackError>
    requires inside { IsConstructor sig.now c }
    requires well_formed { IsWellFormedGraph sig.now graph.old }
    ensures grown { Begins graph.old graph.new }
    ensures well_formed { IsWellFormedGraph sig.now graph.new }
    ensures node { IfOk result (IsNodeOf sig.now (ctor_sort sig.now c) (spec.lone (ctor_field_sorts sig.now c) c) graph.new) }
{
    if sig.ctor_sels(c).len() > 0 {
        return Ok(None);
    }
    push_constructor(sig, c, NodeIds::new(Vec::new(alloc)), graph)
}

// The node of this element.
fn push_element(
    sig: &Signature,
    s: SortId,
    number: u64,
    graph: &mut Pool,
) -> Result<Option<NodeId>, BackError>
    requires free { IsElement sig.now s.0 }
    requires well_formed { IsWellFormedGraph sig.now graph.old }
    ensures grown { Begins graph.old graph.new }
    ensures well_formed { IsWellFormedGraph sig.now graph.new }
    ensures node { IfOk result (IsNodeOf sig.now s (Some (element s number)) graph.new) }
{
    let n = graph.add(Node::Elem(s, number))?;
    Ok(Some(n))
}
