//! Values for what is new: a node of each sort, and elements of uninterpreted sorts that nothing is equal to yet.
ghost use Rattle.std.specs.Prelude.{◌<◌, ◌↔◌, length, IsTrue, OnOk};
ghost use Rattle.ct_values.specs.Fitting.{IsElement, FitsGraph};
ghost use Rattle.ct_trial.specs.Growth.{IsAppended};

use crate::error::TrialError;
use ct_sorts::{Kind, Signature, SortId};
use ct_values::{Graph, Head, Node, NodeId, sort_of};
use std::alloc::Global;

/// The fewest elements that are added for all sorts together.
const FEWEST: u64 = 512;

/// For each sort, by its number, a node of it, and the nodes of elements of it that nothing is equal to yet.
#[derive(Debug, Drop)]
pub(crate) struct Supply {
    samples: Vec<Option<NodeId>>,
    next: Vec<u64>,
    ends: Vec<u64>,
}

impl Supply {
    /// A supply from this graph, after whose nodes elements are put that it does not have.
    pub(crate) fn new(
        alloc: Global,
        sig: &Signature,
        graph: &mut Graph,
    ) -> Result<Supply, TrialError>
        requires fits { FitsGraph sig.now graph.old }
        ensures appended { OnOk result (IsAppended graph.old graph.new) }
        ensures fits { OnOk result (FitsGraph sig.now graph.new) }
    {
        let (samples, numbers) = seen(alloc, sig, graph)?;
        let each = elements_each(sig, graph.len());
        let mut next = Vec::new(alloc);
        let mut ends = Vec::new(alloc);
        for s in 0..sig.sorts() {
            next.push(graph.len())?;
            let first = number_at(numbers.as_slice(), s);
            add_if_free(sig, graph, SortId(s), first, each)?;
            ends.push(graph.len())?;
        }
        Ok(Supply {
            samples,
            next,
            ends,
        })
    }

    /// A node of the sort, if one is known.
    pub(crate) fn sample(&self, s: SortId) -> Option<NodeId> {
        match self.samples.get(s.0 as usize) {
            Some(sample) => *sample,
            None => None,
        }
    }

    /// The next element of the sort that nothing is equal to yet, if there is one left.
    pub(crate) fn fresh(&mut self, s: SortId) -> Option<NodeId> {
        let place = s.0 as usize;
        if place >= self.next.len() || place >= self.ends.len() {
            return None;
        }
        let node = self.next[place];
        if node >= self.ends[place] {
            return None;
        }
        self.next[place] = node + 1;
        Some(NodeId(node))
    }
}

// For each sort its first node, and a number that no element of it has.
fn seen(
    alloc: Global,
    sig: &Signature,
    graph: &Graph,
) -> Result<(Vec<Option<NodeId>>, Vec<u64>), TrialError> {
    let mut samples = Vec::new(alloc);
    let mut numbers = Vec::new(alloc);
    for _ in 0..sig.sorts() {
        samples.push(None)?;
        numbers.push(0)?;
    }
    for n in 0..graph.len() {
        note_node(sig, graph, NodeId(n), &mut samples, &mut numbers);
    }
    Ok((samples, numbers))
}

// Notes the node as one of its sort, and where it is an element, that its number is taken.
fn note_node(
    sig: &Signature,
    graph: &Graph,
    n: NodeId,
    samples: &mut Vec<Option<NodeId>>,
    numbers: &mut Vec<u64>,
)
    requires within { n.0 < length graph.now }
{
    let Some(s) = sort_of(sig, graph, n) else {
        return;
    };
    let place = s.0 as usize;
    if place >= samples.len() || place >= numbers.len() {
        return;
    }
    if samples[place].is_none() {
        samples[place] = Some(n);
    }
    if let Head::Elem(_, number) = graph.head(n) {
        if number >= numbers[place] && number < u64::MAX {
            numbers[place] = number + 1;
        }
    }
}

// The number at this place.
fn number_at(numbers: &[u64], s: u32) -> u64 {
    match numbers.get(s as usize) {
        Some(number) => *number,
        None => u64::MAX,
    }
}

// How many elements of each uninterpreted sort are added to a graph of so many nodes.
fn elements_each(sig: &Signature, nodes: u64) -> u64 {
    let count = free_sorts(sig) as u64;
    if count == 0 {
        return 0;
    }
    if nodes < FEWEST {
        return FEWEST / count;
    }
    nodes / count
}

// How many uninterpreted sorts there are.
fn free_sorts(sig: &Signature) -> u32 {
    let mut count = 0;
    for s in 0..sig.sorts() {
        if is_free(sig, SortId(s)) && count < u32::MAX {
            count += 1;
        }
    }
    count
}

/// Whether the sort is declared and uninterpreted.
pub(crate) fn is_free(sig: &Signature, s: SortId) -> bool
    ensures value { IsTrue result ↔ IsElement sig.now s.0 }
{
    if s.0 >= sig.sorts() {
        return false;
    }
    sig.kind(s) == Kind::Free
}

// Puts so many elements of the sort at the end of the graph, from this number on, where it is uninterpreted.
fn add_if_free(
    sig: &Signature,
    graph: &mut Graph,
    s: SortId,
    first: u64,
    count: u64,
) -> Result<(), TrialError>
    requires fits { FitsGraph sig.now graph.old }
    ensures appended { OnOk result (IsAppended graph.old graph.new) }
    ensures fits { OnOk result (FitsGraph sig.now graph.new) }
{
    if is_free(sig, s) {
        return add_elements(sig, graph, s, first, count);
    }
    Ok(())
}

// Puts so many elements of an uninterpreted sort at the end of the graph, from this number on.
fn add_elements(
    sig: &Signature,
    graph: &mut Graph,
    s: SortId,
    first: u64,
    count: u64,
) -> Result<(), TrialError>
    requires free { IsElement sig.now s.0 }
    requires fits { FitsGraph sig.now graph.old }
    ensures appended { OnOk result (IsAppended graph.old graph.new) }
    ensures fits { OnOk result (FitsGraph sig.now graph.new) }
{
    if first > u64::MAX - count {
        return Ok(());
    }
    for k in first..first + count {
        graph.push(Node::Elem(s, k))?;
    }
    Ok(())
}
