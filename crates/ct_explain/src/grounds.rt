//! What a merge rests on in spanning trees: equations of terms that its step names, in order. Nothing is claimed of them.

use crate::error::ExplainError;
use crate::forest::are_below;
use crate::premises::{children, lone_premise, step_by_rule};
use crate::spanning::Spanning;
use ct_congr::{Merge, Reason};
use ct_log::{Entry, EqStep, Pair};
use ct_rules::Equation;
use ct_sorts::Items;
use ct_terms::{TermId, TermTable};
use std::alloc::Global;

/// The equations that a merge rests on, in order. For each place of the pairs of uniqueness that is one, of the arguments; or two, of
/// the arguments with the sides of another pair, which is noted.
#[derive(Drop)]
pub(crate) struct Grounds {
    /// The equations.
    pub(crate) equations: Vec<Equation>,
    // For each place of the pairs the other pair.
    detours: Vec<Option<u64>>,
}

/// What the merge rests on, if edges below the bound lead there.
pub(crate) fn grounds_of(
    alloc: Global,
    trees: &mut Spanning,
    table: &TermTable,
    merge: &Merge,
    bound: usize,
    most: usize,
) -> Result<Grounds, ExplainError> {
    let mut grounds = Grounds {
        equations: Vec::new(alloc),
        detours: Vec::new(alloc),
    };
    match &merge.why {
        Reason::Hyp(_) | Reason::Single => {}
        Reason::Cong(t, u) => grounds.equations = arguments(alloc, table, *t, *u)?,
        Reason::Unique(pairs) => {
            for pair in pairs.as_slice() {
                put_pair(
                    alloc,
                    trees,
                    table,
                    pairs.as_slice(),
                    *pair,
                    bound,
                    most,
                    &mut grounds,
                )?;
            }
        }
        _ => {
            if let Some(p) = lone_premise(table, merge) {
                grounds.equations.push(Equation {
                    left: p.left,
                    right: p.right,
                })?;
            }
        }
    }
    Ok(grounds)
}

// The equations of the arguments of two terms.
fn arguments(
    alloc: Global,
    table: &TermTable,
    t: TermId,
    u: TermId,
) -> Result<Vec<Equation>, ExplainError> {
    let mut equations = Vec::new(alloc);
    if t.0 >= table.len() || u.0 >= table.len() {
        return Ok(equations);
    }
    let xs = children(alloc, table.core(t))?;
    let ys = children(alloc, table.core(u))?;
    for place in 0..xs.len() {
        if place < ys.len() {
            equations.push(Equation {
                left: xs[place],
                right: ys[place],
            })?;
        }
    }
    Ok(equations)
}

// Puts what the arguments of the pair rest on.
fn put_pair(
    alloc: Global,
    trees: &mut Spanning,
    table: &TermTable,
    pairs: &[Equation],
    pair: Equation,
    bound: usize,
    most: usize,
    grounds: &mut Grounds,
) -> Result<(), ExplainError> {
    for e in &arguments(alloc, table, pair.left, pair.right)? {
        match detour(trees, pairs, *e, bound, most)? {
            None => {
                grounds.equations.push(*e)?;
                grounds.detours.push(None)?;
            }
            Some((place, other)) => {
                grounds.equations.push(Equation {
                    left: e.left,
                    right: other.left,
                })?;
                grounds.equations.push(Equation {
                    left: other.right,
                    right: e.right,
                })?;
                grounds.detours.push(Some(place))?;
            }
        }
    }
    Ok(())
}

// The first of the pairs whose sides the two terms equal, with its place; none where the two are equal themselves.
fn detour(
    trees: &mut Spanning,
    pairs: &[Equation],
    e: Equation,
    bound: usize,
    most: usize,
) -> Result<Option<(u64, Equation)>, ExplainError> {
    if are_equal(trees, e.left, e.right, bound, most)? {
        return Ok(None);
    }
    for place in 0..pairs.len() {
        let other = pairs[place];
        if are_equal(trees, e.left, other.left, bound, most)?
            && are_equal(trees, other.right, e.right, bound, most)?
        {
            return Ok(Some((place as u64, other)));
        }
    }
    Ok(None)
}

// Whether edges below the bound lead from one term to the other.
fn are_equal(
    trees: &mut Spanning,
    x: TermId,
    y: TermId,
    bound: usize,
    most: usize,
) -> Result<bool, ExplainError> {
    match trees.way(x, y, most)? {
        Some(way) => Ok(are_below(&way, bound)),
        None => Ok(false),
    }
}

/// The step that states the equation of the merge, after the steps with these numbers that state what it rests on.
pub(crate) fn step_of(
    alloc: Global,
    table: &TermTable,
    merge: &Merge,
    grounds: &Grounds,
    numbers: Vec<u64>,
) -> Result<Option<EqStep>, ExplainError> {
    match &merge.why {
        Reason::Hyp(literal) => Ok(Some(EqStep::Hyp(*literal))),
        Reason::Single => Ok(Some(EqStep::Single(merge.left, merge.right))),
        Reason::Cong(t, u) => Ok(Some(EqStep::Cong(*t, *u, Items::new(numbers)))),
        Reason::Unique(pairs) => unique_step(
            alloc,
            table,
            merge,
            pairs.as_slice(),
            grounds,
            &numbers,
        ),
        _ => Ok(rule_step(table, merge, &numbers)),
    }
}

// The step of a rule with one premise.
fn rule_step(table: &TermTable, merge: &Merge, numbers: &[u64]) -> Option<EqStep> {
    let premise = lone_premise(table, merge)?;
    let number = numbers.first()?;
    Some(step_by_rule(premise.rule, *number))
}

// The step of the rule of uniqueness.
fn unique_step(
    alloc: Global,
    table: &TermTable,
    merge: &Merge,
    equations: &[Equation],
    grounds: &Grounds,
    numbers: &[u64],
) -> Result<Option<EqStep>, ExplainError> {
    let mut pairs = Vec::new(alloc);
    let mut at = 0;
    let mut place = 0;
    for e in equations {
        let count = arguments(alloc, table, e.left, e.right)?.len();
        let entries = entries_of(alloc, grounds, numbers, &mut at, &mut place, count)?;
        pairs.push(Pair {
            left: e.left,
            right: e.right,
            entries: Items::new(entries),
        })?;
    }
    for number in 0..equations.len() {
        if equations[number].left == merge.left && equations[number].right == merge.right {
            return Ok(Some(EqStep::Unique(number as u64, Items::new(pairs))));
        }
    }
    Ok(None)
}

// The entries of so many places from this one on, with the numbers from there on.
fn entries_of(
    alloc: Global,
    grounds: &Grounds,
    numbers: &[u64],
    at: &mut usize,
    place: &mut usize,
    count: usize,
) -> Result<Vec<Entry>, ExplainError> {
    let mut entries = Vec::new(alloc);
    for _ in 0..count {
        let number = number_at(numbers, at);
        match grounds.detours.get(*place) {
            Some(Some(other)) => {
                entries.push(Entry::Pair(*other, number, number_at(numbers, at)))?
            }
            _ => entries.push(Entry::Step(number))?,
        }
        *place = place.saturating_add(1);
    }
    Ok(entries)
}

// The number at the place, which moves on by one.
fn number_at(numbers: &[u64], at: &mut usize) -> u64 {
    let number = match numbers.get(*at) {
        Some(number) => *number,
        None => 0,
    };
    *at = at.saturating_add(1);
    number
}
