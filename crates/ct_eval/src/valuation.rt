//! What the terms of a table mean in an interpretation.
//!
//! The terms are gone through in the order of their numbers, so that nothing recurses. Each gets
//! the representative that is its value: equality is then equality of numbers, and a constructor
//! over nodes costs a look-up, as does what a table gives.
ghost use Rattle.std.specs.Prelude.{◌≡◌, ◌<◌, ◌≤◌, [], ◌∷◌, ◌++◌, length, IfOk, OnOk};
ghost use Rattle.ct_sorts.specs.Grown.{Begins};
ghost use Rattle.ct_terms.specs.Terms.{Terms, AreSorted};
ghost use Rattle.ct_eval.specs.Interpretation.{IsProper};
ghost use Rattle.ct_eval.specs.Index.{IsIndex};
ghost use Rattle.ct_eval.specs.Valued.{IsValuation};
ghost use Rattle.ct_eval.specs.EvaluationStep.{HaveNodes};
ghost use Rattle.ct_eval.specs.Evaluator.{IsEvaluator, valuation_of};

use crate::error::EvalError;
use crate::index::{Index, indexed};
use crate::interp::{Interp, Valuation};
use crate::term::node_of_term;
use ct_sorts::{Signature, structure};
use ct_terms::{TermId, TermTable};
use ct_values::{Graph, NodeId, NodeIds, SharedGraph, representative_nodes};
use std::alloc::Global;

/// The values of the first terms of a table in an interpretation, and what it takes to find those of further ones: the cost of
/// these depends neither on how large the interpretation is nor on how many terms have theirs.
#[derive(Drop)]
pub struct Evaluator {
    // The graph of the interpretation, with new nodes after it where a term has a value of its own.
    shared: SharedGraph,
    // The rows of the tables of the functions, and of those of the selectors.
    funs: Index,
    offs: Index,
    // A node for each term, in the order of their numbers.
    nodes: Vec<NodeId>,
}

impl Evaluator {
    /// An evaluator in this interpretation that has no values yet, of whichever table. The time is that of putting its nodes into
    /// classes, and linear in its rows.
    pub fn new(alloc: Global, sig: &Signature, interp: &Interp) -> Result<Evaluator, EvalError>
        requires proper { IsProper sig.now interp.now }
        ensures begun { IfOk result (λ evaluator. (terms : Terms) → IsEvaluator sig.now interp.now terms evaluator) }
    {
        structure();
        prove!(sig.sorts() > 0);
        let shared = SharedGraph::new(alloc, interp.graph.copy()?)?;
        let funs = indexed(alloc, &shared, interp.funs.as_slice())?;
        let offs = indexed(alloc, &shared, interp.offs.as_slice())?;
        Ok(Evaluator {
            shared,
            funs,
            offs,
            nodes: Vec::new(alloc),
        })
    }

    /// Finds the values of all terms of the table that have none yet; others may have been added to the table since. Where the
    /// answer is an error, nothing is said of the evaluator.
    pub fn extend(
        &mut self,
        alloc: Global,
        sig: &Signature,
        interp: &Interp,
        table: &TermTable,
    ) -> Result<(), EvalError>
        requires proper { IsProper sig.now interp.now }
        requires sorted { AreSorted sig.now table.now }
        requires begun { (terms : Terms) × Begins terms table.now × IsEvaluator sig.now interp.now terms self.old }
        ensures evaluator { OnOk result (IsEvaluator sig.now interp.now table.now self.new) }
        ensures valuation { OnOk result (IsValuation sig.now interp.now table.now (valuation_of self.new)) }
    {
        prove!(table.len() > 0);
        add_nodes(
            alloc,
            sig,
            interp,
            &self.funs,
            &self.offs,
            &mut self.shared,
            table,
            &mut self.nodes,
        )
    }

    /// The graph of the interpretation, with further nodes after it.
    pub fn graph(&self) -> &Graph
        ensures value { result.now ≡ (valuation_of self.now).graph }
    {
        self.shared.graph()
    }

    /// A node for each term that has its value, in the order of their numbers.
    pub fn nodes(&self) -> &[NodeId]
        ensures value { result.now ≡ (valuation_of self.now).nodes }
    {
        self.nodes.as_slice()
    }

    /// The values so far. Takes no memory.
    pub fn into_valuation(self) -> Valuation
        ensures value { result ≡ valuation_of self }
    {
        Valuation {
            graph: self.shared.into_graph(),
            nodes: NodeIds::new(self.nodes),
        }
    }
}

/// A node for each term of the table, which is equal to the term in the interpretation (SMT-LIB
/// 2.7, section 5.3). The graph is that of the interpretation, with new nodes after it where a term
/// has a value of its own: each new node is that of a term. A term's node is the first of the graph
/// that is its value, so that two terms have one node exactly where their values are equal.
pub fn evaluate(
    alloc: Global,
    sig: &Signature,
    interp: &Interp,
    table: &TermTable,
) -> Result<Valuation, EvalError>
    requires proper { IsProper sig.now interp.now }
    requires sorted { AreSorted sig.now table.now }
    ensures valuation { IfOk result (IsValuation sig.now interp.now table.now) }
{
    let mut evaluator = Evaluator::new(alloc, sig, interp)?;
    evaluator.extend(alloc, sig, interp, table)?;
    Ok(evaluator.into_valuation())
}

// A node for each further term of the table, where some of the first have theirs. The two maps have the rows of the
// interpretation's tables.
fn add_nodes(
    alloc: Global,
    sig: &Signature,
    interp: &Interp,
    funs: &Index,
    offs: &Index,
    shared: &mut SharedGraph,
    table: &TermTable,
    nodes: &mut Vec<NodeId>,
) -> Result<(), EvalError>
    requires proper { IsProper sig.now interp.now }
    requires sorted { AreSorted sig.now table.now }
    requires funs { IsIndex interp.now.graph interp.now.funs funs.now }
    requires offs { IsIndex interp.now.graph interp.now.offs offs.now }
    requires few { length nodes.old.items ≤ length table.now }
    requires before { HaveNodes sig.now interp.now table.now shared.old nodes.old.items }
    ensures nodes { OnOk result (HaveNodes sig.now interp.now table.now shared.new nodes.new.items) }
    ensures all { OnOk result (length nodes.new.items ≡ length table.now) }
{
    let count = table.len();
    for t in nodes.len() as u32..count {
        let node = next_node(
            alloc,
            sig,
            interp,
            funs,
            offs,
            shared,
            table,
            TermId(t),
            nodes.as_slice(),
        )?;
        nodes.push(node)?;
    }
    Ok(())
}

// The node of a term, where all terms before it have theirs.
fn next_node(
    alloc: Global,
    sig: &Signature,
    interp: &Interp,
    funs: &Index,
    offs: &Index,
    shared: &mut SharedGraph,
    table: &TermTable,
    t: TermId,
    nodes: &[NodeId],
) -> Result<NodeId, EvalError>
    requires proper { IsProper sig.now interp.now }
    requires sorted { AreSorted sig.now table.now }
    requires funs { IsIndex interp.now.graph interp.now.funs funs.now }
    requires offs { IsIndex interp.now.graph interp.now.offs offs.now }
    requires within { t.0 < length table.now }
    requires next { t.0 ≡ length nodes.now }
    requires before { HaveNodes sig.now interp.now table.now shared.old nodes.now }
    ensures node { IfOk result (λ n. HaveNodes sig.now interp.now table.now shared.new (nodes.now ++ n ∷ [])) }
{
    representative_nodes();
    prove!(table.len() > 0);
    node_of_term(alloc, sig, interp, funs, offs, shared, nodes, table.core(t))
}
