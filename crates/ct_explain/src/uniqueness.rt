//! Steps of the rule of uniqueness: pairs of constructor terms that cannot be told apart (Reynolds and
//! Blanchette 2015, section 4).
ghost use Rattle.std.specs.Prelude.{◌≡◌, ◌<◌, ◌⊎◌, ℕ, List, length, take, IfOk, OnOk, IfSome, IfNone, Some, slice_get, Contains};
ghost use Rattle.std.specs.Bool.{OnTrue, OnFalse};
ghost use Rattle.ct_terms.specs.declared.ids.TermId.{TermId};
ghost use Rattle.ct_rules.specs.declared.equation.Equation.{Equation};
ghost use Rattle.ct_rules.specs.Uniqueness.{IsPairMatched, AreAllMatched};
ghost use Rattle.ct_congr.specs.declared.merge.Merge.{Merge};
ghost use Rattle.ct_congr.specs.declared.merge.Reason.TheVariants as reason;
ghost use Rattle.ct_congr.specs.Merges.{AreConnected};
ghost use Rattle.ct_congr.specs.Reasons.{IsReason};
ghost use Rattle.ct_explain.specs.Trees.{IsForestOver, IsTop, IsApart};
ghost use Rattle.ct_explain.specs.Resting.{AreArgumentsPaved, AreEntries, AreEntriesPaved, IsEntry, IsEntryPaved, IsDetour, IsMatching, HasNumber};
ghost use Rattle.ct_explain.specs.Writing.{Told, HasWrittenMore, AreDone};
ghost use Rattle.ct_explain.specs.Pairs.{ToldEntry, ToldEntries, IsPairTold, ArePairsTold};

use crate::error::ExplainError;
use crate::forest::{Forest, Link, top};
use crate::merges::write_premise;
use crate::premises::children;
use crate::writer::Writer;
use ct_congr::Classes;
use ct_log::{Entry, EqStep, Pair};
use ct_rules::Equation;
use ct_sorts::Items;
use ct_terms::TermId;

/// Writes the equation of two terms by the rule of uniqueness, with these equations as its pairs.
pub(crate) fn write_unique(
    classes: &Classes,
    forest: &Forest,
    done: &[Option<u64>],
    bound: usize,
    equations: &[Equation],
    sides: (TermId, TermId),
    writer: &mut Writer,
) -> Result<u64, ExplainError>
    requires forest { IsForestOver classes.now forest.now.links }
    requires done { AreDone writer.old classes.now.merges done.now }
    requires reason { IsReason classes.now.declarations classes.now.terms classes.now.hypotheses (AreConnected (take bound classes.now.merges)) sides.0 sides.1 (reason.Unique equations.now) }
    requires paved { (e : Equation) → Contains equations.now e
        → AreArgumentsPaved classes.now.terms forest.now.links (AreConnected (take bound classes.now.merges)) (HasNumber done.now) equations.now e.left e.right }
    ensures grown { OnOk result (HasWrittenMore classes.now writer.old writer.new) }
    ensures told { IfOk result (λ n. Told writer.new n sides.0 sides.1) }
{
    let pairs = write_pairs(classes, forest, done, bound, equations, writer)?;
    match place_of(equations, sides.0, sides.1) {
        Some(place) => {
            let step = EqStep::Unique(place, Items::new(pairs));
            let number = writer.write(step, sides.0, sides.1)?;
            Ok(number)
        }
        None => unreachable!(),
    }
}

// The place of an equation among others.
fn place_of(equations: &[Equation], left: TermId, right: TermId) -> Option<u64>
    ensures found { IfSome result (λ k. slice_get equations.now k ≡ Some (record { left = left; right = right })) }
    ensures none { IfNone result (Contains equations.now (record { left = left; right = right }) → ⊥) }
{
    for k in 0..equations.len() {
        if is_of(equations[k], left, right) {
            return Some(k as u64);
        }
    }
    None
}

// Whether these are the sides of the equation.
fn is_of(e: Equation, left: TermId, right: TermId) -> bool
    ensures same { OnTrue result (e ≡ record { left = left; right = right }) }
    ensures other { OnFalse result (e ≡ record { left = left; right = right } → ⊥) }
{
    e.left == left && e.right == right
}

// The pairs of the equations, with the steps for their arguments.
fn write_pairs(
    classes: &Classes,
    forest: &Forest,
    done: &[Option<u64>],
    bound: usize,
    equations: &[Equation],
    writer: &mut Writer,
) -> Result<Vec<Pair>, ExplainError>
    requires forest { IsForestOver classes.now forest.now.links }
    requires done { AreDone writer.old classes.now.merges done.now }
    requires all { AreAllMatched classes.now.terms (AreConnected (take bound classes.now.merges)) equations.now }
    requires paved { (e : Equation) → Contains equations.now e
        → AreArgumentsPaved classes.now.terms forest.now.links (AreConnected (take bound classes.now.merges)) (HasNumber done.now) equations.now e.left e.right }
    ensures grown { OnOk result (HasWrittenMore classes.now writer.old writer.new) }
    ensures pairs { IfOk result (λ pairs. ArePairsTold classes.now.terms writer.new equations.now equations.now pairs.items) }
{
    let mut pairs = Vec::new(forest.alloc());
    for e in equations {
        let pair = write_pair(classes, forest, done, bound, equations, *e, writer)?;
        pairs.push(pair)?;
    }
    Ok(pairs)
}

// The pair of an equation.
fn write_pair(
    classes: &Classes,
    forest: &Forest,
    done: &[Option<u64>],
    bound: usize,
    equations: &[Equation],
    e: Equation,
    writer: &mut Writer,
) -> Result<Pair, ExplainError>
    requires forest { IsForestOver classes.now forest.now.links }
    requires done { AreDone writer.old classes.now.merges done.now }
    requires all { AreAllMatched classes.now.terms (AreConnected (take bound classes.now.merges)) equations.now }
    requires matched { IsPairMatched classes.now.terms (AreConnected (take bound classes.now.merges)) equations.now e.left e.right }
    requires paved { AreArgumentsPaved classes.now.terms forest.now.links (AreConnected (take bound classes.now.merges)) (HasNumber done.now) equations.now e.left e.right }
    ensures grown { OnOk result (HasWrittenMore classes.now writer.old writer.new) }
    ensures pair { IfOk result (IsPairTold classes.now.terms writer.new equations.now e) }
{
    let table = classes.table();
    let xs = children(forest.alloc(), table.core(e.left))?;
    let ys = children(forest.alloc(), table.core(e.right))?;
    let entries = write_entries(classes, forest, done, bound, equations, &xs, &ys, writer)?;
    Ok(Pair {
        left: e.left,
        right: e.right,
        entries: Items::new(entries),
    })
}

// An entry for these terms at each place.
fn write_entries(
    classes: &Classes,
    forest: &Forest,
    done: &[Option<u64>],
    bound: usize,
    equations: &[Equation],
    xs: &[TermId],
    ys: &[TermId],
    writer: &mut Writer,
) -> Result<Vec<Entry>, ExplainError>
    requires forest { IsForestOver classes.now forest.now.links }
    requires done { AreDone writer.old classes.now.merges done.now }
    requires all { AreAllMatched classes.now.terms (AreConnected (take bound classes.now.merges)) equations.now }
    requires long { length xs.now ≡ length ys.now }
    requires entries { AreEntries classes.now.terms (AreConnected (take bound classes.now.merges)) equations.now xs.now ys.now }
    requires paved { AreEntriesPaved forest.now.links (AreConnected (take bound classes.now.merges)) (HasNumber done.now) equations.now xs.now ys.now }
    ensures grown { OnOk result (HasWrittenMore classes.now writer.old writer.new) }
    ensures entries { IfOk result (λ entries. ToldEntries writer.new equations.now entries.items xs.now ys.now) }
{
    let mut entries = Vec::new(forest.alloc());
    for i in 0..xs.len() {
        let entry = write_entry(
            classes, forest, done, bound, equations, xs[i], ys[i], writer,
        )?;
        entries.push(entry)?;
    }
    Ok(entries)
}

// Why the two terms are equal: they are of one class, or equal the sides of one of the equations.
fn write_entry(
    classes: &Classes,
    forest: &Forest,
    done: &[Option<u64>],
    bound: usize,
    equations: &[Equation],
    x: TermId,
    y: TermId,
    writer: &mut Writer,
) -> Result<Entry, ExplainError>
    requires forest { IsForestOver classes.now forest.now.links }
    requires done { AreDone writer.old classes.now.merges done.now }
    requires all { AreAllMatched classes.now.terms (AreConnected (take bound classes.now.merges)) equations.now }
    requires entry { IsEntry classes.now.terms (AreConnected (take bound classes.now.merges)) equations.now x y }
    requires paved { IsEntryPaved forest.now.links (AreConnected (take bound classes.now.merges)) (HasNumber done.now) equations.now x y }
    ensures grown { OnOk result (HasWrittenMore classes.now writer.old writer.new) }
    ensures entry { IfOk result (λ entry. ToldEntry writer.new equations.now entry x y) }
{
    match detour(forest, bound, equations, x, y) {
        Some((place, e)) => {
            let i = write_premise(classes, forest, done, bound, x, e.left, writer)?;
            let j = write_premise(classes, forest, done, bound, e.right, y, writer)?;
            Ok(Entry::Pair(place, i, j))
        }
        None => {
            let number = write_premise(classes, forest, done, bound, x, y, writer)?;
            Ok(Entry::Step(number))
        }
    }
}

/// The first of the equations whose sides the two terms equal, with its place. None where the two are of
/// one class themselves.
pub(crate) fn detour(
    forest: &Forest,
    bound: usize,
    equations: &[Equation],
    x: TermId,
    y: TermId,
) -> Option<(u64, Equation)>
    ensures answer { (merges : List Merge)
        → IsMatching merges forest.now.links bound equations.now x y
        → IsDetour (AreConnected (take bound merges)) equations.now x y result }
{
    let links = forest.links();
    let from = top(links, x, bound);
    let to = top(links, y, bound);
    if from == to {
        return None;
    }
    for k in 0..equations.len() {
        let e = equations[k];
        if joins(links, bound, e, from, to) {
            return Some((k as u64, e));
        }
    }
    None
}

// Whether merges below the bound lead from the sides of the equation to these two ends.
fn joins(links: &[Option<Link>], bound: usize, e: Equation, from: TermId, to: TermId) -> bool
    ensures left { OnTrue result (IsTop links.now bound e.left from) }
    ensures right { OnTrue result (IsTop links.now bound e.right to) }
    ensures apart { OnFalse result (IsApart links.now bound e.left from ⊎ IsApart links.now bound e.right to) }
{
    if top(links, e.left, bound) != from {
        return false;
    }
    if top(links, e.right, bound) != to {
        return false;
    }
    true
}
