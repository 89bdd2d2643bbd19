//! Equality steps and closing rules that a case names, each by its word and numbers: `(hyp 5)`,
//! `(refl 3)`, `(sym 0)`, `(trans 0 1)`, `(cong 4 5 0 ..)`, `(inject 0 1)`, `(sel 6 0)`,
//! `(test 7 0)`, `(expand 0 4)`, `(equal-in 8 0)`, `(equal-out 0)`, `(neg 9 0)`, `(single 2 3)`
//! and `(unique 0 (4 5 0 (pair 0 1 2)) ..)`; `(clash 0)` and `(cycle (4 1 0) ..)`.
use crate::numbers::{literal_of, numbers_of, term_of};
use ct_cases::{CaseError, items_of, number_of, split_word};
use ct_log::{Close, Entry, EqStep, Hop, Pair};
use ct_sexpr::Sexpr;
use ct_sorts::Items;
use std::alloc::Global;

/// The steps.
pub fn steps_of(alloc: Global, parts: &[Sexpr]) -> Result<Items<EqStep>, CaseError> {
    let mut steps = Vec::new(alloc);
    for part in parts {
        steps.push(step_of(alloc, part)?)?;
    }
    Ok(Items::new(steps))
}

/// The step.
fn step_of(alloc: Global, part: &Sexpr) -> Result<EqStep, CaseError> {
    match split_word(part)? {
        ("cong", [t, u, steps @ ..]) => Ok(EqStep::Cong(
            term_of(t)?,
            term_of(u)?,
            numbers_of(alloc, steps)?,
        )),
        ("unique", [asked, pairs @ ..]) => Ok(EqStep::Unique(
            number_of(asked)?,
            pairs_of(alloc, pairs)?,
        )),
        (word, [one]) => step_of_one(word, one),
        (word, [first, second]) => step_of_two(word, first, second),
        _ => Err(CaseError::Bad),
    }
}

/// The step that names one thing.
fn step_of_one(word: &str, part: &Sexpr) -> Result<EqStep, CaseError> {
    match word {
        "hyp" => Ok(EqStep::Hyp(literal_of(part)?)),
        "refl" => Ok(EqStep::Refl(term_of(part)?)),
        "sym" => Ok(EqStep::Sym(number_of(part)?)),
        "equal-out" => Ok(EqStep::EqualOut(number_of(part)?)),
        _ => Err(CaseError::Bad),
    }
}

/// The step that names two things.
fn step_of_two(word: &str, first: &Sexpr, second: &Sexpr) -> Result<EqStep, CaseError> {
    match word {
        "trans" => Ok(EqStep::Trans(number_of(first)?, number_of(second)?)),
        "inject" => Ok(EqStep::Inject(number_of(first)?, number_of(second)?)),
        "sel" => Ok(EqStep::Sel(term_of(first)?, number_of(second)?)),
        "test" => Ok(EqStep::Test(term_of(first)?, number_of(second)?)),
        "expand" => Ok(EqStep::Expand(number_of(first)?, term_of(second)?)),
        "equal-in" => Ok(EqStep::EqualIn(term_of(first)?, number_of(second)?)),
        "neg" => Ok(EqStep::Neg(term_of(first)?, number_of(second)?)),
        "single" => Ok(EqStep::Single(term_of(first)?, term_of(second)?)),
        _ => Err(CaseError::Bad),
    }
}

/// The pairs.
fn pairs_of(alloc: Global, parts: &[Sexpr]) -> Result<Items<Pair>, CaseError> {
    let mut pairs = Vec::new(alloc);
    for part in parts {
        pairs.push(pair_of(alloc, part)?)?;
    }
    Ok(Items::new(pairs))
}

/// The pair: its two terms, and the entries.
fn pair_of(alloc: Global, part: &Sexpr) -> Result<Pair, CaseError> {
    match items_of(part)? {
        [left, right, entries @ ..] => Ok(Pair {
            left: term_of(left)?,
            right: term_of(right)?,
            entries: entries_of(alloc, entries)?,
        }),
        _ => Err(CaseError::Bad),
    }
}

/// The entries of a pair.
fn entries_of(alloc: Global, parts: &[Sexpr]) -> Result<Items<Entry>, CaseError> {
    let mut entries = Vec::new(alloc);
    for part in parts {
        entries.push(entry_of(part)?)?;
    }
    Ok(Items::new(entries))
}

/// The entry: a step, or a pair and two steps.
fn entry_of(part: &Sexpr) -> Result<Entry, CaseError> {
    if part.as_list().is_none() {
        return Ok(Entry::Step(number_of(part)?));
    }
    match split_word(part)? {
        ("pair", [pair, left, right]) => Ok(Entry::Pair(
            number_of(pair)?,
            number_of(left)?,
            number_of(right)?,
        )),
        _ => Err(CaseError::Bad),
    }
}

/// The closing rule.
pub fn close_of(alloc: Global, part: &Sexpr) -> Result<Close, CaseError> {
    match split_word(part)? {
        ("clash", [step]) => Ok(Close::Clash(number_of(step)?)),
        ("cycle", hops) => Ok(Close::Cycle(hops_of(alloc, hops)?)),
        _ => Err(CaseError::Bad),
    }
}

/// The entries of a cycle.
fn hops_of(alloc: Global, parts: &[Sexpr]) -> Result<Items<Hop>, CaseError> {
    let mut hops = Vec::new(alloc);
    for part in parts {
        hops.push(hop_of(part)?)?;
    }
    Ok(Items::new(hops))
}

/// The entry of a cycle: a constructor term, a place, and a step.
fn hop_of(part: &Sexpr) -> Result<Hop, CaseError> {
    match items_of(part)? {
        [con, place, step] => Ok(Hop {
            con: term_of(con)?,
            place: number_of(place)?,
            step: number_of(step)?,
        }),
        _ => Err(CaseError::Bad),
    }
}
