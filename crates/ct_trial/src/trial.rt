//! The interpretation that is tried, with the values of terms in it.
ghost use Rattle.std.specs.Prelude.{◌≡◌, ◌<◌, ◌≤◌, ◌+◌, true, length, take, All, IsTrue, IfOk, OnOk};
ghost use Rattle.ct_sorts.specs.Declarations.{Declarations};
ghost use Rattle.ct_sorts.specs.Grown.{Begins, Extends};
ghost use Rattle.ct_terms.specs.Terms.{Terms, IsBoolean, AreSorted, AreOrdered};
ghost use Rattle.ct_eval.specs.Interpretation.{IsProper};
ghost use Rattle.ct_eval.specs.Truth.{truth_value, Holds};
ghost use Rattle.ct_trial.specs.Trial.{IsTrial, IsOver, IsNodeOf, IsRowed, IsCutTo, Follows};
ghost use Rattle.ct_eval.specs.declared.interp.Interp.{Interp};

use crate::error::TrialError;
use crate::functions::{add_tables, cut_functions, have_selectors};
use crate::graph::catch_up;
use crate::over::is_over;
use crate::rows::{node_of, row_for};
use crate::sources::Sources;
use crate::supply::Supply;
use crate::tables::cut_tables;
use crate::theorems::growth_theorems;
use ct_eval::{Index, Interp, indexed, is_built, node_of_term};
use ct_sorts::{CtorId, Signature, structure};
use ct_terms::{Core, TermId, TermTable};
use ct_values::{NodeId, SharedGraph};
use std::alloc::Global;

/// How many nodes and rows may be added where there were none.
const SOME: u64 = 4096;

/// The values of the first terms of a table in an interpretation, which grows with them.
#[derive(Drop)]
pub struct Trial {
    // The graph of the interpretation, in which representatives are found.
    shared: SharedGraph,
    // The rows of the tables of the functions, and of those of the selectors.
    funs: Index,
    offs: Index,
    // A node for each term, in the order of their numbers.
    nodes: Vec<NodeId>,
    supply: Supply,
    // The most nodes and rows that it may come to.
    most_nodes: u64,
    most_rows: u64,
}

impl Trial {
    /// A trial of this interpretation, with the values of the first terms of the table, so many. It may be one of earlier declarations,
    /// as long as no sort, constructor or selector went since. The interpretation gets elements that nothing is equal to, and rows for
    /// what these terms apply. Where the answer is an error, nothing is said of it.
    pub fn new(
        alloc: Global,
        sig: &Signature,
        interp: &mut Interp,
        table: &TermTable,
        count: u32,
    ) -> Result<Trial, TrialError>
        requires proper { (d : Declarations) × IsProper d interp.old × Follows d sig.now }
        requires sorted { AreSorted sig.now table.now }
        requires within { count ≤ length table.now }
        ensures trial { IfOk result (λ trial. IsTrial sig.now table.now interp.new trial) }
    {
        prove!(table.len() > 0);
        let mut trial = begun(alloc, sig, interp)?;
        trial.extend(alloc, sig, interp, table, count, &[], false)?;
        Ok(trial)
    }

    /// Whether all assertions are true, once the interpretation has grown by what is declared since and by rows for what is new among
    /// the terms. Where the answer is an error, nothing is said of the trial and the interpretation.
    pub fn satisfies(
        &mut self,
        alloc: Global,
        sig: &Signature,
        interp: &mut Interp,
        table: &TermTable,
        asserts: &[TermId],
    ) -> Result<bool, TrialError>
        requires sorted { AreSorted sig.now table.now }
        requires asserts { All (IsBoolean table.now) asserts.now }
        requires trial { (d : Declarations) × (terms : Terms) × Extends sig.now d × Begins terms table.now × IsTrial d terms interp.old self.old }
        ensures trial { OnOk result (IsTrial sig.now table.now interp.new self.new) }
        ensures holds { IfOk result (λ yes. IsTrue yes → Holds sig.now interp.new table.now asserts.now) }
    {
        self.declare(alloc, sig, interp, table)?;
        self.extend(alloc, sig, interp, table, table.len(), asserts, true)?;
        Ok(self.are_true(asserts))
    }

    /// Leaves the values of so many terms, and the tables of so many functions. No sort, constructor or selector may have gone.
    pub fn cut(&mut self, alloc: Global, interp: &mut Interp, funs: u32, count: u32)
        ensures trial { (d e : Declarations) (terms : Terms) → IsCutTo d e → length e.functions ≡ funs → AreSorted e (take count terms)
            → IsTrial d terms interp.old self.old → IsTrial e (take count terms) interp.new self.new }
    {
        self.nodes.truncate(count as usize);
        cut_functions(alloc, funs, &mut interp.funs, &mut self.funs);
    }

    // Gives each function that is declared since a table. No selector may be.
    fn declare(
        &mut self,
        alloc: Global,
        sig: &Signature,
        interp: &mut Interp,
        table: &TermTable,
    ) -> Result<(), TrialError>
        requires trial { (d : Declarations) × (terms : Terms) × Extends sig.now d × Begins terms table.now × IsTrial d terms interp.old self.old }
        ensures trial { OnOk result (IsTrial sig.now table.now interp.new self.new) }
    {
        growth_theorems();
        structure();
        prove!(sig.sorts() > 0);
        prove!(table.len() > 0);
        have_selectors(sig, &interp.offs)?;
        add_tables(alloc, sig, &interp.graph, &self.supply, &mut interp.funs)?;
        Ok(())
    }

    // Finds the values of the first terms, so many, that have none yet.
    fn extend(
        &mut self,
        alloc: Global,
        sig: &Signature,
        interp: &mut Interp,
        table: &TermTable,
        count: u32,
        asserts: &[TermId],
        fresh: bool,
    ) -> Result<(), TrialError>
        requires sorted { AreSorted sig.now table.now }
        requires within { count ≤ length table.now }
        requires asserts { All (λ t. t.0 < length table.now) asserts.now }
        requires trial { IsTrial sig.now table.now interp.old self.old }
        ensures trial { OnOk result (IsTrial sig.now table.now interp.new self.new) }
        ensures all { OnOk result (count ≤ length self.new.nodes.items) }
    {
        prove!(table.len() > 0);
        let first = self.nodes.len() as u32;
        let sources = Sources::new(alloc, table, first, asserts)?;
        for t in first..count {
            let source = sources.of(TermId(t));
            self.step(alloc, sig, interp, table, TermId(t), source, fresh)?;
        }
        Ok(())
    }

    // Finds the value of the next term.
    fn step(
        &mut self,
        alloc: Global,
        sig: &Signature,
        interp: &mut Interp,
        table: &TermTable,
        t: TermId,
        source: Option<TermId>,
        fresh: bool,
    ) -> Result<(), TrialError>
        requires sorted { AreSorted sig.now table.now }
        requires within { t.0 < length table.now }
        requires next { t.0 ≡ length self.old.nodes.items }
        requires trial { IsTrial sig.now table.now interp.old self.old }
        ensures trial { OnOk result (IsTrial sig.now table.now interp.new self.new) }
        ensures one { OnOk result (length self.new.nodes.items ≡ t.0 + 1) }
    {
        growth_theorems();
        let wanted = self.wanted(alloc, sig, interp, table, source, fresh)?;
        let node = self.value(alloc, sig, interp, table, t, wanted, fresh)?;
        self.nodes.push(node)?;
        Ok(())
    }

    // The value of the source of a term, if there is one and its value is known or those of the terms under it are.
    fn wanted(
        &mut self,
        alloc: Global,
        sig: &Signature,
        interp: &mut Interp,
        table: &TermTable,
        source: Option<TermId>,
        fresh: bool,
    ) -> Result<Option<NodeId>, TrialError>
        requires sorted { AreSorted sig.now table.now }
        requires trial { IsTrial sig.now table.now interp.old self.old }
        ensures trial { OnOk result (IsTrial sig.now table.now interp.new self.new) }
        ensures nodes { OnOk result (self.new.nodes.items ≡ self.old.nodes.items) }
    {
        let Some(u) = source else {
            return Ok(None);
        };
        let known = self.nodes.len();
        if (u.0 as usize) < known {
            return Ok(Some(self.nodes[u.0 as usize]));
        }
        if u.0 >= table.len() {
            return Ok(None);
        }
        if !is_over(table.core(u), known) {
            return Ok(None);
        }
        let node = self.value(alloc, sig, interp, table, u, None, fresh)?;
        Ok(Some(node))
    }

    // The value of a term over terms that have values. An application without a row gets one.
    fn value(
        &mut self,
        alloc: Global,
        sig: &Signature,
        interp: &mut Interp,
        table: &TermTable,
        t: TermId,
        wanted: Option<NodeId>,
        fresh: bool,
    ) -> Result<NodeId, TrialError>
        requires sorted { AreSorted sig.now table.now }
        requires below { IsOver table.now (length self.old.nodes.items) t }
        requires trial { IsTrial sig.now table.now interp.old self.old }
        ensures trial { OnOk result (IsTrial sig.now table.now interp.new self.new) }
        ensures nodes { OnOk result (self.new.nodes.items ≡ self.old.nodes.items) }
        ensures value { IfOk result (IsNodeOf sig.now table.now interp.new t) }
        ensures rowed { OnOk result (IsRowed sig.now table.now interp.new t) }
    {
        self.put_row(alloc, sig, interp, table, t, wanted, fresh)?;
        let node = self.node(alloc, sig, interp, table, t)?;
        if self.shared.graph().len() > self.most_nodes {
            return Err(TrialError::Exhausted);
        }
        if self.funs.len() as u64 > self.most_rows {
            return Err(TrialError::Exhausted);
        }
        Ok(node)
    }

    // Puts a row for the term, where it applies a function and there is none.
    fn put_row(
        &mut self,
        alloc: Global,
        sig: &Signature,
        interp: &mut Interp,
        table: &TermTable,
        t: TermId,
        wanted: Option<NodeId>,
        fresh: bool,
    ) -> Result<(), TrialError>
        requires sorted { AreSorted sig.now table.now }
        requires below { IsOver table.now (length self.old.nodes.items) t }
        requires trial { IsTrial sig.now table.now interp.old self.old }
        ensures trial { OnOk result (IsTrial sig.now table.now interp.new self.new) }
        ensures nodes { OnOk result (self.new.nodes.items ≡ self.old.nodes.items) }
        ensures rowed { OnOk result (IsRowed sig.now table.now interp.new t) }
    {
        prove!(table.len() > 0);
        match table.core(t) {
            Core::Apply(f, args) => {
                row_for(
                    alloc,
                    sig,
                    interp,
                    &mut self.funs,
                    &mut self.supply,
                    self.nodes.as_slice(),
                    *f,
                    args.as_slice(),
                    wanted,
                    fresh,
                )?;
                Ok(())
            }
            _ => Ok(()),
        }
    }

    // The value of a term over terms that have values, which has a row where it applies a function.
    fn node(
        &mut self,
        alloc: Global,
        sig: &Signature,
        interp: &mut Interp,
        table: &TermTable,
        t: TermId,
    ) -> Result<NodeId, TrialError>
        requires sorted { AreSorted sig.now table.now }
        requires below { IsOver table.now (length self.old.nodes.items) t }
        requires trial { IsTrial sig.now table.now interp.old self.old }
        requires rowed { IsRowed sig.now table.now interp.old t }
        ensures trial { OnOk result (IsTrial sig.now table.now interp.new self.new) }
        ensures nodes { OnOk result (self.new.nodes.items ≡ self.old.nodes.items) }
        ensures value { IfOk result (IsNodeOf sig.now table.now interp.new t) }
        ensures rowed { OnOk result (IsRowed sig.now table.now interp.new t) }
    {
        growth_theorems();
        prove!(table.len() > 0);
        prove!(sig.sorts() > 0);
        let node = node_of_term(
            alloc,
            sig,
            interp,
            &self.funs,
            &self.offs,
            &mut self.shared,
            self.nodes.as_slice(),
            table.core(t),
        )?;
        catch_up(alloc, &self.shared, &mut interp.graph)?;
        Ok(node)
    }

    // Whether these terms are all true.
    fn are_true(&self, terms: &[TermId]) -> bool
        requires within { All (λ t. t.0 < length self.now.nodes.items) terms.now }
        ensures holds { (d : Declarations) (table : Terms) (i : Interp) → All (IsBoolean table) terms.now → IsTrial d table i self.now
            → IsTrue result → Holds d i table terms.now }
    {
        for t in terms {
            if !self.is_true(*t) {
                return false;
            }
        }
        true
    }

    // Whether the term is true.
    fn is_true(&self, t: TermId) -> bool
        requires within { t.0 < length self.now.nodes.items }
        ensures truth { (d : Declarations) (table : Terms) (i : Interp) → IsBoolean table t → IsTrial d table i self.now
            → IsTrue result → truth_value d i table t ≡ true }
    {
        growth_theorems();
        let node = node_of(self.nodes.as_slice(), t);
        if node.0 >= self.shared.graph().len() {
            return false;
        }
        is_built(self.shared.graph(), CtorId(0), node)
    }
}

// A trial of this interpretation, without values of terms.
fn begun(alloc: Global, sig: &Signature, interp: &mut Interp) -> Result<Trial, TrialError>
    requires proper { (d : Declarations) × IsProper d interp.old × Follows d sig.now }
    ensures trial { IfOk result (λ trial. (terms : Terms) → AreOrdered terms → IsTrial sig.now terms interp.new trial) }
{
    growth_theorems();
    structure();
    prove!(sig.sorts() > 0);
    let supply = fitted(alloc, sig, interp)?;
    let shared = SharedGraph::new(alloc, interp.graph.copy()?)?;
    let funs = indexed(alloc, &shared, interp.funs.as_slice())?;
    let offs = indexed(alloc, &shared, interp.offs.as_slice())?;
    let most_nodes = room(shared.graph().len());
    let most_rows = room(funs.len() as u64);
    Ok(Trial {
        shared,
        funs,
        offs,
        nodes: Vec::new(alloc),
        supply,
        most_nodes,
        most_rows,
    })
}

// Makes the interpretation one of these declarations, with elements that nothing is equal to.
fn fitted(alloc: Global, sig: &Signature, interp: &mut Interp) -> Result<Supply, TrialError>
    requires proper { (d : Declarations) × IsProper d interp.old × Follows d sig.now }
    ensures proper { OnOk result (IsProper sig.now interp.new) }
{
    growth_theorems();
    structure();
    prove!(sig.sorts() > 0);
    have_selectors(sig, &interp.offs)?;
    cut_tables(alloc, &mut interp.funs, sig.funs());
    let supply = Supply::new(alloc, sig, &mut interp.graph)?;
    add_tables(alloc, sig, &interp.graph, &supply, &mut interp.funs)?;
    Ok(supply)
}

// Twice as many, and some more.
fn room(count: u64) -> u64 {
    if count > u64::MAX / 2 - SOME {
        return u64::MAX;
    }
    2 * count + SOME
}
