//! The conflict of a cycle through constructor terms of datatypes: each of its edges is explained.
ghost use Rattle.std.specs.Prelude.{◌≡◌, ◌<◌, List, [], length, Contains, IfOk, OnOk, Some, slice_get};
ghost use Rattle.ct_sorts.specs.declared.ids.CtorId.{CtorId};
ghost use Rattle.ct_terms.specs.declared.ids.TermId.{TermId};
ghost use Rattle.ct_terms.specs.declared.ids.Lit.{Lit};
ghost use Rattle.ct_terms.specs.declared.term.Core.TheVariants.{Con};
ghost use Rattle.ct_terms.specs.Literal.{IsStripped};
ghost use Rattle.ct_terms.specs.Terms.{Has};
ghost use Rattle.ct_rules.specs.Cycle.{LeadsTo, IsCycle};
ghost use Rattle.ct_log.specs.Closing.{IsCycleBy};
ghost use Rattle.ct_log.specs.Equations.{Gave};
ghost use Rattle.ct_congr.specs.State.{AreEqual};
ghost use Rattle.ct_explain.specs.Trees.{IsForestOfFirst, IsForestOfClasses};
ghost use Rattle.ct_theory.specs.Entailment.{IsConflictOf};
ghost use Rattle.ct_theory.specs.Steps.{Adds, start_term};

use crate::conflict::{Conflict, conflict_of};
use crate::error::TheoryError;
use ct_congr::Classes;
use ct_explain::{EqProof, Forest};
use ct_log::{Close, Hop};
use ct_sorts::Items;
use ct_terms::{Core, TermId};
use std::alloc::Global;

/// The conflict of a cycle. The forest grows to the merges of the classes.
pub(crate) fn cycle(
    alloc: Global,
    classes: &Classes,
    forest: &mut Forest,
    hops: &[(TermId, u32)],
) -> Result<Conflict, TheoryError>
    requires cycle { IsCycle classes.now.declarations classes.now.terms (AreEqual classes.now) hops.now }
    requires forest { IsForestOfFirst classes.now forest.old }
    requires stripped { (l : Lit) → Contains classes.now.hypotheses l → IsStripped classes.now.terms l.term }
    ensures conflict { IfOk result (λ c. IsConflictOf classes.now.declarations classes.now.terms classes.now.hypotheses c.clause c.steps c.close) }
    ensures forest { OnOk result (IsForestOfFirst classes.now forest.new) }
{
    forest.grow(classes)?;
    let mut proof = EqProof {
        steps: Vec::new(alloc),
    };
    let explained = explain_hops(alloc, classes, &*forest, hops, &mut proof)?;
    conflict_of(alloc, classes, proof, Close::Cycle(Items::new(explained)))
}

// Explains each hop of the cycle, to the next one or, at the end, to the first.
fn explain_hops(
    alloc: Global,
    classes: &Classes,
    forest: &Forest,
    hops: &[(TermId, u32)],
    proof: &mut EqProof,
) -> Result<Vec<Hop>, TheoryError>
    requires cycle { IsCycle classes.now.declarations classes.now.terms (AreEqual classes.now) hops.now }
    requires forest { IsForestOfClasses classes.now forest.now }
    requires empty { proof.old.steps.items ≡ [] }
    ensures explained { IfOk result (λ explained. Adds classes.now [] proof.new.steps.items (λ given. IsCycleBy classes.now.declarations classes.now.terms given explained.items)) }
{
    let first = start_of(hops, TermId(0));
    let mut explained = Vec::new(alloc);
    let mut rest = hops;
    while let [hop, others @ ..] = rest {
        let next = start_of(others, first);
        explained.push(explain_hop(classes, forest, hop.0, hop.1, next, proof)?)?;
        rest = others;
    }
    Ok(explained)
}

// The constructor term of the first hop; where there is none, the other term.
fn start_of(hops: &[(TermId, u32)], end: TermId) -> TermId
    ensures value { result ≡ start_term hops.now end }
{
    match hops {
        [hop, ..] => hop.0,
        [] => end,
    }
}

// Explains that the argument at this place equals the next constructor term.
fn explain_hop(
    classes: &Classes,
    forest: &Forest,
    con: TermId,
    place: u32,
    next: TermId,
    proof: &mut EqProof,
) -> Result<Hop, TheoryError>
    requires forest { IsForestOfClasses classes.now forest.now }
    requires leads { LeadsTo classes.now.declarations classes.now.terms (AreEqual classes.now) con place next }
    ensures con { IfOk result (λ hop. hop.con ≡ con) }
    ensures place { IfOk result (λ hop. hop.place ≡ place) }
    ensures explained { IfOk result (λ hop. Adds classes.now proof.old.steps.items proof.new.steps.items
        (λ given. LeadsTo classes.now.declarations classes.now.terms (Gave given hop.step) con place next)) }
{
    let argument = argument_of(classes, con, place);
    let step = forest.explain(classes, argument, next, proof)?;
    Ok(Hop {
        con,
        place: place as u64,
        step,
    })
}

// The argument of the constructor term at this place.
fn argument_of(classes: &Classes, con: TermId, place: u32) -> TermId
    requires argument { (ctor : CtorId) × (args : List TermId) × Has classes.now.terms (Con ctor args) con.0 × (place < length args) }
    ensures value { (ctor : CtorId) (args : List TermId) → Has classes.now.terms (Con ctor args) con.0 → slice_get args place ≡ Some result }
{
    let Core::Con(_, args) = classes.table().core(con) else {
        unreachable!()
    };
    args.as_slice()[place as usize]
}
