//! The pairs that the rule of uniqueness needs for two terms of one block.
//!
//! Breadth first from the asked pair: the arguments of a pair that are not equal give pairs in turn. Each two classes are
//! looked at once.
ghost use Rattle.std.specs.Prelude.{◌≡◌, ℕ, ◌<◌, true, length, IfOk, OnOk, Contains};
ghost use Rattle.std.specs.List.{AllZip};
ghost use Rattle.ct_terms.specs.declared.ids.TermId.{TermId};
ghost use Rattle.ct_rules.specs.declared.equation.Equation.{Equation};
ghost use Rattle.ct_rules.specs.Uniqueness.{AreMatched, IsPairMatched, AreAllMatched};
ghost use Rattle.ct_congr.specs.State.{AreEqual, IsConstructorTerm, IsQuiet};
ghost use Rattle.ct_unique.specs.Partition.{block_of, in_one_block, IsCoarsest};
ghost use Rattle.ct_unique.specs.Found.{AreOnce, IsIndexed, IsOpen, IsMore};
ghost use Rattle.ct_unique.specs.Reached.{IsPairFor, IsPairAmong, IsArgumentPair, IsReached};

use crate::error::UniqueError;
use crate::found::{Found, add};
use crate::partition::{Partition, are_equal, constructors};
use ct_congr::Classes;
use ct_rules::Equation;
use ct_sorts::Items;
use ct_terms::{Core, TermId};
use indexmap::IndexMap;
use std::alloc::Global;

/// A list of pairs of constructor terms that contains the given pair. Each pair has one constructor and, at each index,
/// arguments that are equal or are equal to a pair of the list, as the rule of uniqueness requires (Reynolds and
/// Blanchette 2015, section 4). The two are constructor terms of one block. The time is linear in the arguments of the
/// listed pairs. The only error is out of memory.
pub fn pairs(
    alloc: Global,
    partition: &Partition,
    classes: &Classes,
    a: TermId,
    b: TermId,
) -> Result<Items<Equation>, UniqueError>
    requires quiet { IsQuiet classes.now }
    requires made { IsCoarsest classes.now partition.now }
    requires left { IsConstructorTerm classes.now.terms a }
    requires right { IsConstructorTerm classes.now.terms b }
    requires same { block_of partition.now a ≡ block_of partition.now b }
    ensures asked { IfOk result (λ pairs. Contains pairs (record { left = a; right = b })) }
    ensures matched { IfOk result (λ pairs. AreAllMatched classes.now.terms (AreEqual classes.now) pairs) }

    // Each pair is reached from the asked one by arguments that are not equal.
    ensures reached { IfOk result (λ pairs. (e : Equation)
        → Contains pairs e
        → IsReached classes.now (record { left = a; right = b }) e) }

    // No two pairs are of the same classes.
    ensures once { IfOk result (λ pairs. AreOnce classes.now pairs) }
{
    prove!(classes.table().len() > 0);
    let mut found = Found {
        places: IndexMap::new(alloc),
        pairs: Vec::new(alloc),
    };
    add(classes, &mut found, Equation { left: a, right: b })?;
    let mut next = 0;
    while next < found.pairs.len() {
        let pair = found.pairs[next];
        follow(partition, classes, pair, &mut found)?;
        next += 1;
    }
    Ok(Items::new(found.pairs))
}

// Adds the pairs that the arguments of the pair need.
fn follow(
    partition: &Partition,
    classes: &Classes,
    pair: Equation,
    found: &mut Found,
) -> Result<(), UniqueError>
    requires quiet { IsQuiet classes.now }
    requires made { IsCoarsest classes.now partition.now }
    requires opens { IsOpen classes.now partition.now pair }
    requires indexed { IsIndexed classes.now found.old.places found.old.pairs.items }
    ensures more { OnOk result (IsMore classes.now partition.now (IsArgumentPair classes.now pair) found.old.places found.old.pairs.items found.new.places found.new.pairs.items) }
    ensures matched { OnOk result (IsPairMatched classes.now.terms (AreEqual classes.now) found.new.pairs.items pair.left pair.right) }
{
    prove!(classes.merges().len() >= 0);
    let table = classes.table();
    let Core::Con(_, xs) = table.core(pair.left) else {
        unreachable!()
    };
    let Core::Con(_, ys) = table.core(pair.right) else {
        unreachable!()
    };
    follow_arguments(partition, classes, xs.as_slice(), ys.as_slice(), found)?;
    Ok(())
}

// Adds the pairs that the terms need, place by place.
fn follow_arguments(
    partition: &Partition,
    classes: &Classes,
    xs: &[TermId],
    ys: &[TermId],
    found: &mut Found,
) -> Result<(), UniqueError>
    requires made { IsCoarsest classes.now partition.now }
    requires blocks { AllZip (λ x y. in_one_block partition.now x y ≡ true) xs.now ys.now }
    requires indexed { IsIndexed classes.now found.old.places found.old.pairs.items }
    ensures more { OnOk result (IsMore classes.now partition.now (IsPairAmong classes.now xs.now ys.now) found.old.places found.old.pairs.items found.new.places found.new.pairs.items) }
    ensures matched { OnOk result (AllZip (AreMatched (AreEqual classes.now) found.new.pairs.items) xs.now ys.now) }
{
    for place in 0..xs.len() {
        meet(partition, classes, xs[place], ys[place], found)?;
    }
    Ok(())
}

// Adds the pair that the two terms need, unless they are of one class.
fn meet(
    partition: &Partition,
    classes: &Classes,
    x: TermId,
    y: TermId,
    found: &mut Found,
) -> Result<(), UniqueError>
    requires made { IsCoarsest classes.now partition.now }
    requires block { in_one_block partition.now x y ≡ true }
    requires left { x.0 < length classes.now.terms }
    requires right { y.0 < length classes.now.terms }
    requires indexed { IsIndexed classes.now found.old.places found.old.pairs.items }
    ensures more { OnOk result (IsMore classes.now partition.now (IsPairFor classes.now x y) found.old.places found.old.pairs.items found.new.places found.new.pairs.items) }
    ensures matched { OnOk result (AreMatched (AreEqual classes.now) found.new.pairs.items x y) }
{
    if are_equal(classes, x, y) {
        return Ok(());
    }
    let (left, right) = constructors(classes, partition, x, y);
    add(classes, found, Equation { left, right })?;
    Ok(())
}
