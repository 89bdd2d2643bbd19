//! Steps for the equation of one merge, by its reason.
ghost use Rattle.std.specs.Prelude.{◌≡◌, ◌<◌, ℕ, [], length, take, IfOk, OnOk, Some, slice_get};
ghost use Rattle.ct_terms.specs.declared.ids.TermId.{TermId};
ghost use Rattle.ct_congr.specs.declared.merge.Reason.TheVariants as reason;
ghost use Rattle.ct_congr.specs.Merges.{AreConnected};
ghost use Rattle.ct_congr.specs.Reasons.{IsReason};
ghost use Rattle.ct_explain.specs.Trees.{IsForestOver};
ghost use Rattle.ct_explain.specs.Resting.{AreArgumentsPaved, IsLone, IsPaved, AreEqualAlong, Rests, HasNumber};
ghost use Rattle.ct_explain.specs.Writing.{Told, ToldEach, HasWrittenMore, AreDone};
ghost use Rattle.ct_explain.specs.Premises.{HasReason, HasNoPremise};

use crate::error::ExplainError;
use crate::forest::{Forest, path};
use crate::premises::{children, is_ordered, lone_premise, step_by_rule};
use crate::uniqueness::write_unique;
use crate::walk::write_way;
use crate::writer::Writer;
use ct_congr::{Classes, Merge, Reason};
use ct_log::EqStep;
use ct_sorts::Items;
use ct_terms::{Lit, TermId};

/// Writes the equation of the merge from the steps of merges with numbers below the bound. The answer is
/// its number.
pub(crate) fn write_merge(
    classes: &Classes,
    forest: &Forest,
    done: &[Option<u64>],
    bound: usize,
    m: &Merge,
    writer: &mut Writer,
) -> Result<u64, ExplainError>
    requires forest { IsForestOver classes.now forest.now.links }
    requires done { AreDone writer.old classes.now.merges done.now }
    requires reason { IsReason classes.now.declarations classes.now.terms classes.now.hypotheses (AreConnected (take bound classes.now.merges)) m.now.left m.now.right m.now.why }
    requires rests { Rests classes.now.terms forest.now.links (AreConnected (take bound classes.now.merges)) (HasNumber done.now) m.now.right m.now.why }
    ensures grown { OnOk result (HasWrittenMore classes.now writer.old writer.new) }
    ensures told { IfOk result (λ n. Told writer.new n m.now.left m.now.right) }
{
    match &m.why {
        Reason::Hyp(l) => {
            let n = write_hypothesis(classes, *l, m.left, m.right, writer)?;
            Ok(n)
        }
        Reason::Single => {
            let n = write_single(classes, m.left, m.right, writer)?;
            Ok(n)
        }
        Reason::Cong(t, u) => {
            let n = write_congruent(
                classes,
                forest,
                done,
                bound,
                (*t, *u),
                (m.left, m.right),
                writer,
            )?;
            Ok(n)
        }
        Reason::Unique(pairs) => {
            let n = write_unique(
                classes,
                forest,
                done,
                bound,
                pairs.as_slice(),
                (m.left, m.right),
                writer,
            )?;
            Ok(n)
        }
        _ => {
            let n = write_lone(classes, forest, done, bound, m, writer)?;
            Ok(n)
        }
    }
}

// A hypothesis.
fn write_hypothesis(
    classes: &Classes,
    l: Lit,
    left: TermId,
    right: TermId,
    writer: &mut Writer,
) -> Result<u64, ExplainError>
    requires reason { HasReason classes.now.declarations classes.now.terms classes.now.hypotheses left right (reason.Hyp l) }
    ensures grown { OnOk result (HasWrittenMore classes.now writer.old writer.new) }
    ensures told { IfOk result (λ n. Told writer.new n left right) }
{
    let number = writer.write(EqStep::Hyp(l), left, right)?;
    Ok(number)
}

// Two terms of a sort with one value.
fn write_single(
    classes: &Classes,
    left: TermId,
    right: TermId,
    writer: &mut Writer,
) -> Result<u64, ExplainError>
    requires reason { HasReason classes.now.declarations classes.now.terms classes.now.hypotheses left right reason.Single }
    ensures grown { OnOk result (HasWrittenMore classes.now writer.old writer.new) }
    ensures told { IfOk result (λ n. Told writer.new n left right) }
{
    let number = writer.write(EqStep::Single(left, right), left, right)?;
    Ok(number)
}

// A rule with one premise.
fn write_lone(
    classes: &Classes,
    forest: &Forest,
    done: &[Option<u64>],
    bound: usize,
    m: &Merge,
    writer: &mut Writer,
) -> Result<u64, ExplainError>
    requires forest { IsForestOver classes.now forest.now.links }
    requires done { AreDone writer.old classes.now.merges done.now }
    requires lone { HasNoPremise m.now.why → ⊥ }
    requires reason { IsReason classes.now.declarations classes.now.terms classes.now.hypotheses (AreConnected (take bound classes.now.merges)) m.now.left m.now.right m.now.why }
    requires paved { (x y : TermId) → IsLone classes.now.terms m.now.right m.now.why x y → IsPaved forest.now.links (HasNumber done.now) x y }
    ensures grown { OnOk result (HasWrittenMore classes.now writer.old writer.new) }
    ensures told { IfOk result (λ n. Told writer.new n m.now.left m.now.right) }
{
    is_ordered(classes.table());
    match lone_premise(classes.table(), m) {
        Some(p) => {
            let premise = write_premise(classes, forest, done, bound, p.left, p.right, writer)?;
            let number = writer.write(step_by_rule(p.rule, premise), m.left, m.right)?;
            Ok(number)
        }
        None => unreachable!(),
    }
}

// Two terms with one head and equal arguments.
fn write_congruent(
    classes: &Classes,
    forest: &Forest,
    done: &[Option<u64>],
    bound: usize,
    terms: (TermId, TermId),
    sides: (TermId, TermId),
    writer: &mut Writer,
) -> Result<u64, ExplainError>
    requires forest { IsForestOver classes.now forest.now.links }
    requires done { AreDone writer.old classes.now.merges done.now }
    requires reason { IsReason classes.now.declarations classes.now.terms classes.now.hypotheses (AreConnected (take bound classes.now.merges)) sides.0 sides.1 (reason.Cong terms.0 terms.1) }
    requires paved { AreArgumentsPaved classes.now.terms forest.now.links (AreConnected (take bound classes.now.merges)) (HasNumber done.now) [] terms.0 terms.1 }
    ensures grown { OnOk result (HasWrittenMore classes.now writer.old writer.new) }
    ensures told { IfOk result (λ n. Told writer.new n sides.0 sides.1) }
{
    let table = classes.table();
    let xs = children(forest.alloc(), table.core(terms.0))?;
    let ys = children(forest.alloc(), table.core(terms.1))?;
    let steps = write_each(classes, forest, done, bound, &xs, &ys, writer)?;
    let step = EqStep::Cong(terms.0, terms.1, Items::new(steps));
    let number = writer.write(step, sides.0, sides.1)?;
    Ok(number)
}

// The equations of these terms, one for one.
fn write_each(
    classes: &Classes,
    forest: &Forest,
    done: &[Option<u64>],
    bound: usize,
    xs: &[TermId],
    ys: &[TermId],
    writer: &mut Writer,
) -> Result<Vec<u64>, ExplainError>
    requires forest { IsForestOver classes.now forest.now.links }
    requires done { AreDone writer.old classes.now.merges done.now }
    requires long { length xs.now ≡ length ys.now }
    requires ready { (i : ℕ) (x y : TermId) → slice_get xs.now i ≡ Some x → slice_get ys.now i ≡ Some y
        → AreEqualAlong classes.now.terms forest.now.links (AreConnected (take bound classes.now.merges)) (HasNumber done.now) x y }
    ensures grown { OnOk result (HasWrittenMore classes.now writer.old writer.new) }
    ensures told { IfOk result (λ numbers. ToldEach writer.new numbers.items xs.now ys.now) }
{
    let mut numbers = Vec::new(forest.alloc());
    for i in 0..xs.len() {
        let n = write_premise(classes, forest, done, bound, xs[i], ys[i], writer)?;
        numbers.push(n)?;
    }
    Ok(numbers)
}

/// Writes the equation of two terms that are of one class by the merges below the bound, as the premise
/// of a step.
pub(crate) fn write_premise(
    classes: &Classes,
    forest: &Forest,
    done: &[Option<u64>],
    bound: usize,
    left: TermId,
    right: TermId,
    writer: &mut Writer,
) -> Result<u64, ExplainError>
    requires forest { IsForestOver classes.now forest.now.links }
    requires done { AreDone writer.old classes.now.merges done.now }
    requires ready { AreEqualAlong classes.now.terms forest.now.links (AreConnected (take bound classes.now.merges)) (HasNumber done.now) left right }
    ensures grown { OnOk result (HasWrittenMore classes.now writer.old writer.new) }
    ensures told { IfOk result (λ n. Told writer.new n left right) }
{
    match path(forest, left, right, bound)? {
        Some(path) => {
            let number = write_way(classes, done, &path, left, right, writer)?;
            Ok(number)
        }
        None => unreachable!(),
    }
}
