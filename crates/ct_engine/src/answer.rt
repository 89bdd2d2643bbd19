//! The outcome of a search that has ended.
ghost use Rattle.std.specs.Prelude.{◌≡◌, ◌+◌, true, List, All, IfOk, IsErrOf};
ghost use Rattle.ct_sorts.specs.Declarations.{Declarations};
ghost use Rattle.ct_terms.specs.declared.ids.TermId.{TermId};
ghost use Rattle.ct_terms.specs.Terms.{Terms, AreSorted, IsBoolean};
ghost use Rattle.ct_checker.specs.Rejection.{EndsEmpty};
ghost use Rattle.ct_sat.specs.State.{IsQuiet, HaveValues, LacksValue};
ghost use Rattle.ct_theory.specs.Entailment.{IsSaturation};
ghost use Rattle.ct_engine.specs.Moves.{IsSpentRecord};
ghost use Rattle.ct_engine.specs.Saturated.{AreDecided};
ghost use Rattle.ct_engine.specs.Verdict.{IsRefutation, IsSpending};
ghost use Rattle.ct_engine.specs.Progress.{IsUnderWay, IsTaskOf, IsEnded, IsOnRecord, IsCandidate, IsOutcome};
ghost use Rattle.ct_kept.specs.Kept.{Stored};
ghost use Rattle.ct_engine.specs.Keeping.{IsCourseWith, IsOutcomeWith, AddsFirst, HasFirst};

use crate::course::{Course, first_count};
use crate::error::SolveError;
use crate::facts;
use crate::outcome::{Candidate, Ending, Outcome};
use crate::shortening::shortened;
use crate::theorems::spent_searches;
use crate::verdict::Spent;
use ct_acyclic::Order;
use ct_congr::Classes;
use ct_log::Derivation;
use ct_sorts::{Items, Signature};
use ct_terms::{Lit, TermId, TermTable};
use ct_theory::Theory;
use std::alloc::Global;

/// What the search found, which asked the theory and ended so, and how many lines of its derivation stand before those of which
/// the store takes: initial ones and those of the store.
pub(crate) fn conclude(
    alloc: Global,
    sig: &Signature,
    table: &TermTable,
    asserts: &[TermId],
    budget: u64,
    course: Box<Course>,
    theory: Theory,
    ending: Ending,
) -> Result<(Outcome, usize), SolveError>
    requires sorted { AreSorted sig.now table.now }
    requires asserts { All (IsBoolean table.now) asserts.now }
    requires task { IsTaskOf sig.now table.now asserts.now course.value }
    requires ended { IsEnded course.value theory ending }
    requires spent { ending ≡ Ending.Spent → IsOnRecord budget course.value }
    requires stand { HasFirst course.value }
    ensures outcome { IfOk result (λ found. IsOutcome sig.now table.now asserts.now budget found.0) }

    // The record of one that is spent begins with the clauses of a store where the search did.
    ensures begun { (store : Stored) → IsCourseWith sig.now store course.value → (ending ≡ Ending.Spent → AddsFirst course.value)
        → IfOk result (λ found. IsOutcomeWith sig.now store found.1 found.0) }
    ensures err { IsErrOf result SolveError.TooLarge → ⊥ }
{
    match ending {
        Ending::Refuted => {
            let first = first_count(&course);
            let whole = refutation_of(sig, table, asserts, course);
            let (derivation, left) = shortened(alloc, sig, table, asserts, whole, first)?;
            Ok((Outcome::Unsat(derivation), left))
        }
        Ending::Spent => {
            let first = first_count(&course);
            Ok((Outcome::Unknown(spending_of(course, budget)), first))
        }
        Ending::Saturated(order) => {
            let candidate = candidate_of(alloc, course, theory.into_classes(), order)?;
            Ok((Outcome::Candidate(candidate), 0))
        }
    }
}

// The derivation of a search that refuted the assertions.
fn refutation_of(
    sig: &Signature,
    table: &TermTable,
    asserts: &[TermId],
    course: Box<Course>,
) -> Derivation
    requires sorted { AreSorted sig.now table.now }
    requires asserts { All (IsBoolean table.now) asserts.now }
    requires task { IsTaskOf sig.now table.now asserts.now course.value }
    requires ends { EndsEmpty course.value.derivation.rec.lines }
    ensures refutation { IsRefutation sig.now table.now asserts.now result }
    ensures same { result ≡ course.value.derivation }
{
    refuted(sig, table, asserts, &course);
    let Course {
        search,
        derivation,
        recorded: _,
        moves,
        guide,
        initial: _,
        kept: _,
        variables: _,
    } = Box::into_inner(course);
    drop(search);
    drop(moves);
    drop(guide);
    derivation
}

// The record of a search that spent this budget.
fn spending_of(course: Box<Course>, budget: u64) -> Spent
    requires under_way { IsUnderWay course.value }
    requires quiet { IsQuiet course.value.search }
    requires lacking { LacksValue course.value.search }
    requires spent { course.value.search.count ≡ course.value.search.budget }
    requires on_record { IsOnRecord budget course.value }
    ensures spending { (d : Declarations) (table : Terms) (asserts : List TermId) → IsTaskOf d table asserts course.value → IsSpending d table asserts budget result }
    ensures derivation { result.derivation ≡ course.value.derivation }
    ensures moves { result.moves ≡ course.value.moves.items }
{
    spent(&course);
    spent_searches();
    let Course {
        search,
        derivation,
        recorded: _,
        moves,
        guide,
        initial: _,
        kept: _,
        variables,
    } = Box::into_inner(course);
    drop(search);
    drop(guide);
    Spent {
        variables,
        budget,
        derivation,
        moves: Items::new(moves),
    }
}

// The closure and the literals of a search that found them saturated.
fn candidate_of(
    alloc: Global,
    course: Box<Course>,
    classes: Box<Classes>,
    order: Order,
) -> Result<Candidate, SolveError>
    requires under_way { IsUnderWay course.value }
    requires quiet { IsQuiet course.value.search }
    requires all { HaveValues course.value.search }
    requires saturation { IsSaturation course.value.derivation.declarations course.value.derivation.rec.terms course.value.search.trail classes.value order.reps.items }
    ensures candidate { IfOk result (λ candidate. (d : Declarations) (table : Terms) (asserts : List TermId) → IsTaskOf d table asserts course.value → IsCandidate d table asserts candidate) }
    ensures err { IsErrOf result SolveError.TooLarge → ⊥ }
{
    saturated(&course, &classes, order.reps.as_slice());
    let literals = literals_of(alloc, &course)?;
    Ok(Candidate {
        literals,
        classes,
        order,
    })
}

// The derivation refutes the assertions.
fn refuted(sig: &Signature, table: &TermTable, asserts: &[TermId], course: &Course)
    requires sorted { AreSorted sig.now table.now }
    requires asserts { All (IsBoolean table.now) asserts.now }
    requires task { IsTaskOf sig.now table.now asserts.now course.now }
    requires ends { EndsEmpty course.now.derivation.rec.lines }
    ensures refutation { IsRefutation sig.now table.now asserts.now course.now.derivation }
{
    facts::models();
    let _sorts = sig.sorts();
    let _terms = course.derivation.rec().table().len();
}

// The moves are the record of a search that spent its budget.
fn spent(course: &Course)
    requires under_way { IsUnderWay course.now }
    requires quiet { IsQuiet course.now.search }
    requires lacking { LacksValue course.now.search }
    requires budget { course.now.search.count ≡ course.now.search.budget }
    requires recorded { course.now.recorded ≡ true }
    ensures recorded { IsSpentRecord course.now.derivation.declarations course.now.derivation.rec.terms course.now.derivation.asserts course.now.derivation.rec.lines course.now.moves.items course.now.search.budget }
{
    facts::units();
    let _terms = course.derivation.rec().table().len();
}

// The literals of the trail are saturated.
fn saturated(course: &Course, classes: &Classes, order: &[TermId])
    requires under_way { IsUnderWay course.now }
    requires quiet { IsQuiet course.now.search }
    requires all { HaveValues course.now.search }
    requires saturation { IsSaturation course.now.derivation.declarations course.now.derivation.rec.terms course.now.search.trail classes.now order.now }
    ensures decided { AreDecided course.now.derivation.declarations course.now.derivation.rec.terms course.now.derivation.asserts course.now.search.trail }
{
    facts::classes();
    let _merges = classes.merges();
    let _trail = course.search.trail();
}

// The literals of the trail.
fn literals_of(alloc: Global, course: &Course) -> Result<Items<Lit>, SolveError>
    ensures literals { IfOk result (λ literals. literals ≡ course.now.search.trail) }
    ensures err { IsErrOf result SolveError.TooLarge → ⊥ }
{
    Ok(Items::new(Vec::from_slice(alloc, course.search.trail())?))
}
