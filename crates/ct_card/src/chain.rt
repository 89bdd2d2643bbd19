//! Rules over numbers, and everything that they derive, by forward chaining (Dowling and Gallier 1984).
//!
//! A rule fires when all of its body is derived. `chain` counts for each rule how many of its body
//! are left, so that it is looked at once: the time is linear in the rules. That nothing more can
//! be derived is what the last plain round over all rules shows; after `chain` there is hardly more
//! than one.
ghost use Rattle.std.specs.Prelude.{◌≡◌, ℕ, ◌<◌, ◌≤◌, ◌↔◌, List, Some, length, get_or, slice_get, ◌||◌, All, OnOk, IfOk, IsTrue};
ghost use Rattle.std.specs.Bool.{OnTrue, OnFalse};
ghost use Rattle.ct_card.specs.Rules.{IsDerived, IsReady, IsComplete, AreRanks, IsOrder};
ghost use Rattle.ct_card.specs.Derived.{IsUnderWay, AreHeadsBelow, AreHeadsWithin, missing_ranks};

use crate::error::CardError;
use std::alloc::Global;

/// A rule: where all numbers of the body are derived, so is the head.
#[derive(Debug, Drop)]
pub(crate) struct Rule {
    pub(crate) head: usize,
    pub(crate) body: Vec<usize>,
}

/// All that the rules derive of further numbers, which are below the count. The ranks that are there stay. A number has rank 0
/// where it is not derived, and else a greater one than those of the body by which it was derived; the order has the derived
/// numbers by their ranks, which count from 1. Where the answer is an error, some may have been derived.
pub(crate) fn derive(
    alloc: Global,
    count: usize,
    rules: &[Rule],
    ranks: &mut Vec<usize>,
    order: &mut Vec<usize>,
) -> Result<(), CardError>
    requires heads { AreHeadsWithin (length ranks.old.items) count rules.now }
    requires order { IsOrder ranks.old.items order.old.items }
    requires few { length ranks.old.items ≤ count }
    ensures ranks { OnOk result (AreRanks rules.now ranks.old.items ranks.new.items count) }
    ensures order { OnOk result (IsOrder ranks.new.items order.new.items) }
{
    let first = ranks.len();
    push_zeros(count, ranks)?;
    chain(alloc, first, rules, ranks, order)?;
    while round(rules, ranks, order)? {}
    Ok(())
}

// No ranks for further numbers, until there are as many as the count.
fn push_zeros(count: usize, ranks: &mut Vec<usize>) -> Result<(), CardError>
    requires few { length ranks.old.items ≤ count }
    ensures long { OnOk result (length ranks.new.items ≡ count) }
    ensures same { OnOk result ((n : ℕ) → get_or ranks.new.items n 0 ≡ get_or ranks.old.items n 0) }
{
    while ranks.len() < count {
        ranks.push(0)?;
    }
    Ok(())
}

// One round over all rules. Whether one fired.
fn round(rules: &[Rule], ranks: &mut Vec<usize>, order: &mut Vec<usize>) -> Result<bool, CardError>
    requires heads { AreHeadsBelow (length ranks.old.items) rules.now }
    ensures long { OnOk result (length ranks.new.items ≡ length ranks.old.items) }
    ensures under_way { OnOk result ((old : List ℕ) → IsUnderWay old rules.now ranks.old.items order.old.items
        → IsUnderWay old rules.now ranks.new.items order.new.items) }
    ensures fewer { IfOk result (λ fired. IsTrue fired → missing_ranks ranks.new.items < missing_ranks ranks.old.items) }
    ensures stable { IfOk result (λ fired. OnFalse fired (IsComplete rules.now ranks.new.items)) }
{
    let mut fired = false;
    for rule in rules {
        let now = fire(rule, ranks, order)?;
        fired = either(fired, now);
    }
    Ok(fired)
}

// Whether one of the two holds.
fn either(first: bool, second: bool) -> bool
    ensures value { result ≡ (first || second) }
{
    first || second
}

// Fires the rule where its body is derived and its head is not. Whether it fired.
fn fire(rule: &Rule, ranks: &mut Vec<usize>, order: &mut Vec<usize>) -> Result<bool, CardError>
    requires head { rule.now.head < length ranks.old.items }
    ensures long { OnOk result (length ranks.new.items ≡ length ranks.old.items) }
    ensures under_way { OnOk result ((old : List ℕ) (rules : List Rule) (k : ℕ) → slice_get rules k ≡ Some rule.now
        → IsUnderWay old rules ranks.old.items order.old.items
        → IsUnderWay old rules ranks.new.items order.new.items) }
    ensures fewer { IfOk result (λ fired. IsTrue fired → missing_ranks ranks.new.items < missing_ranks ranks.old.items) }
    ensures same { IfOk result (λ fired. OnFalse fired ((ranks.new.items ≡ ranks.old.items) × (order.new.items ≡ order.old.items))) }
    ensures stable { IfOk result (λ fired. OnFalse fired (IsReady ranks.old.items rule.now → IsDerived ranks.old.items rule.now.head)) }
{
    if ranks[rule.head] != 0 || !is_ready(rule, ranks) {
        return Ok(false);
    }
    order.push(rule.head)?;
    ranks[rule.head] = order.len();
    Ok(true)
}

// Whether all of the body is derived.
fn is_ready(rule: &Rule, ranks: &[usize]) -> bool
    ensures ready { IsTrue result ↔ IsReady ranks.now rule.now }
{
    for b in rule.body.as_slice() {
        if !is_derived(ranks, *b) {
            return false;
        }
    }
    true
}

// Whether the number is derived.
fn is_derived(ranks: &[usize], n: usize) -> bool
    ensures derived { IsTrue result ↔ IsDerived ranks.now n }
{
    n < ranks.len() && ranks[n] != 0
}

// Fires rules one after the other, each when the last of its body from the first number on has been derived. All of this is
// for speed: what is derived is derived by `fire`.
fn chain(
    alloc: Global,
    first: usize,
    rules: &[Rule],
    ranks: &mut Vec<usize>,
    order: &mut Vec<usize>,
) -> Result<(), CardError>
    requires heads { AreHeadsBelow (length ranks.old.items) rules.now }
    ensures long { OnOk result (length ranks.new.items ≡ length ranks.old.items) }
    ensures under_way { OnOk result ((old : List ℕ) → IsUnderWay old rules.now ranks.old.items order.old.items
        → IsUnderWay old rules.now ranks.new.items order.new.items) }
{
    let users = users_of(alloc, first, ranks.len(), rules)?;
    let mut left = counts_of(alloc, first, rules)?;
    let start = order.len();
    round(rules, ranks, order)?;
    for i in start..ranks.len() {
        if i >= order.len() {
            break;
        }
        spread(
            rules,
            row_of(&users, first, order[i]),
            &mut left,
            ranks,
            order,
        )?;
    }
    Ok(())
}

// A number was derived that stands in the bodies of these rules: those that have nothing else left
// fire.
fn spread(
    rules: &[Rule],
    users: &[usize],
    left: &mut Vec<usize>,
    ranks: &mut Vec<usize>,
    order: &mut Vec<usize>,
) -> Result<(), CardError>
    requires heads { AreHeadsBelow (length ranks.old.items) rules.now }
    ensures long { OnOk result (length ranks.new.items ≡ length ranks.old.items) }
    ensures under_way { OnOk result ((old : List ℕ) → IsUnderWay old rules.now ranks.old.items order.old.items
        → IsUnderWay old rules.now ranks.new.items order.new.items) }
{
    for k in users {
        fire_last(rules, *k, left, ranks, order)?;
    }
    Ok(())
}

// One less is left of the body of this rule: it fires if that was the last.
fn fire_last(
    rules: &[Rule],
    k: usize,
    left: &mut Vec<usize>,
    ranks: &mut Vec<usize>,
    order: &mut Vec<usize>,
) -> Result<(), CardError>
    requires heads { AreHeadsBelow (length ranks.old.items) rules.now }
    ensures long { OnOk result (length ranks.new.items ≡ length ranks.old.items) }
    ensures under_way { OnOk result ((old : List ℕ) → IsUnderWay old rules.now ranks.old.items order.old.items
        → IsUnderWay old rules.now ranks.new.items order.new.items) }
{
    if !is_last(left, k) || k >= rules.len() {
        return Ok(());
    }
    fire(&rules[k], ranks, order)?;
    Ok(())
}

// One less is left of the body of this rule. Whether that was the last.
fn is_last(left: &mut Vec<usize>, k: usize) -> bool {
    if k >= left.len() || left[k] == 0 {
        return false;
    }
    left[k] -= 1;
    left[k] == 0
}

// The row of this number, where the rows begin with that of the first number.
fn row_of(rows: &[Vec<usize>], first: usize, n: usize) -> &[usize] {
    if n >= first && n - first < rows.len() {
        return rows[n - first].as_slice();
    }
    &[]
}

// How many numbers from the first on the bodies have.
fn counts_of(alloc: Global, first: usize, rules: &[Rule]) -> Result<Vec<usize>, CardError> {
    let mut counts = Vec::with_capacity(alloc, rules.len())?;
    for rule in rules {
        counts.push(count_from(first, rule.body.as_slice()))?;
    }
    Ok(counts)
}

// How many of these are not below the first number.
fn count_from(first: usize, numbers: &[usize]) -> usize {
    let mut count: usize = 0;
    for n in numbers {
        if *n >= first {
            count = count.wrapping_add(1);
        }
    }
    count
}

// For each number from the first to below the count the rules in whose bodies it stands, as often as it stands there.
fn users_of(
    alloc: Global,
    first: usize,
    count: usize,
    rules: &[Rule],
) -> Result<Vec<Vec<usize>>, CardError> {
    let mut users = Vec::new(alloc);
    for _ in first..count {
        users.push(Vec::new(alloc))?;
    }
    for k in 0..rules.len() {
        push_user(&mut users, first, &rules[k], k)?;
    }
    Ok(users)
}

// Puts the number of the rule into the rows of its body.
fn push_user(
    users: &mut Vec<Vec<usize>>,
    first: usize,
    rule: &Rule,
    k: usize,
) -> Result<(), CardError> {
    for b in rule.body.as_slice() {
        if *b >= first && *b - first < users.len() {
            users[*b - first].push(k)?;
        }
    }
    Ok(())
}
