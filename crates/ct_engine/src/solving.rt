//! The check of assertions.
ghost use Rattle.std.specs.Prelude.{◌≡◌, [], true, List, ℕ, suc, ◌≤◌, ◌^◌, All, IfOk, OnOk, OnErr, IsErrOf};
ghost use Rattle.ct_card.specs.Sizes.{AreSizes};
ghost use Rattle.ct_terms.specs.declared.ids.TermId.{TermId};
ghost use Rattle.ct_terms.specs.Terms.{Terms, AreSorted, IsBoolean};
ghost use Rattle.ct_closure.specs.Closed.{HasMoreThan, HasVariables, most_closure_terms};
ghost use Rattle.ct_closure.specs.ClosedTable.{AreSubtermsOf, terms_at};
ghost use Rattle.ct_base.specs.Base.{IsBase};
ghost use Rattle.ct_engine.specs.Verdict.{IsVerdict, IsDecisive};
ghost use Rattle.ct_engine.specs.Opening.{IsBeforeDecisions};
ghost use Rattle.ct_engine.specs.Progress.{IsUnderWay, IsTaskOf, IsTheoryOf, IsEnded, IsOnRecord, IsOfOneClosure, IsOutcome, IsAtStart, IsClosed, IsClosedAs};
ghost use Rattle.ct_engine.specs.Keeping.{HasKept, IsCourseWith, IsOutcomeWith, IsVerdictWith, AddsFirst, HasFirst};

use crate::answer::conclude;
use crate::closed::{Closed, closed_alone, closed_in};
use crate::course::Course;
use crate::error::SolveError;
use crate::keeping::{add_kept, keep_lines};
use crate::model::readable_model;
use crate::opening::open_search;
use crate::outcome::{Ending, Outcome};
use crate::prepare::prepare;
use crate::stages::{first_budget, search};
use crate::theorems::spent_searches;
use crate::verdict::Verdict;
use ct_base::Base;
use ct_card::Sizes;
use ct_kept::Kept;
use ct_sorts::{Signature, growth};
use ct_terms::{TermId, TermTable};
use ct_theory::Theory;
use std::alloc::Global;

/// With so many decisions or fewer a check answers as the first one.
const FEW_DECISIONS: u64 = 10_000;

/// Whether assertions hold in some interpretation, by a search with at most `budget` decisions. The table, which is not
/// changed, holds `true`, `false`, the assertions and their subterms.
///
/// The search goes over the clauses of the closure of the assertions: it propagates, asks the theory of datatypes and
/// codatatypes whether the trail may hold, learns from conflicts, and makes the lowest variable without a value false
/// (CDCL(T); Nieuwenhuis, Oliveras and Tinelli 2006; Reynolds and Blanchette 2015). Where every variable has a value and
/// nothing contradicts the trail, an interpretation is built of the classes, in which the assertions hold. With more than 10,000
/// decisions allowed there may be a second search, which decides by activities, and a third, as the first, each with as many.
///
/// `Sat` has an interpretation in which they hold, `Unsat` a derivation of the empty clause, and `Unknown` the record of a
/// search that spent its decisions, which were fewer than 2^V - 1 for V propositional variables: with that many it is `Sat` or
/// `Unsat`. `TooLarge` comes where the closure has more than 200,000 terms.
pub fn solve(
    alloc: Global,
    sig: &Signature,
    table: &TermTable,
    asserts: &[TermId],
    budget: u64,
) -> Result<Verdict, SolveError>
    requires sorted { AreSorted sig.now table.now }
    requires asserts { All (IsBoolean table.now) asserts.now }
    requires exact { AreSubtermsOf table.now asserts.now }
    ensures verdict { IfOk result (IsVerdict sig.now table.now asserts.now budget) }
    ensures decides { IfOk result (λ verdict. (variables : ℕ) → HasVariables sig.now (terms_at table.now asserts.now) variables
        → 2 ^ variables ≤ suc budget → IsDecisive verdict) }
    ensures too_large { IsErrOf result SolveError.TooLarge → HasMoreThan sig.now (terms_at table.now asserts.now) most_closure_terms }
    ensures fits { OnOk result (HasMoreThan sig.now (terms_at table.now asserts.now) most_closure_terms → ⊥) }
{
    growth();
    let _sorts = sig.sorts();
    let sizes = sizes_of(alloc, sig)?;
    let mut kept = Box::new(alloc, Kept::new(alloc)?)?;
    let verdict = solve_kept(alloc, sig, &sizes, table, asserts, budget, &mut kept)?;
    drop(kept);
    drop(sizes);
    Ok(verdict)
}

/// As `solve`, with theory lemmas from earlier checks: the search has those of the store from its start that can be moved into
/// the closure and are accepted there. In the record of an `Unknown` they follow the initial lines; a derivation of `Unsat` has
/// those alone that it cites. The terms of the store are well sorted over the signature, and stay so.
///
/// After `Unknown` the store has taken the further clauses of the theory in the record, and after `Unsat` those from some line of
/// the derivation on, in order, up to the first for which it holds 4,096 or for whose terms its table has no room. After `Sat`, and
/// where there is no verdict, it is as it was.
pub fn solve_kept(
    alloc: Global,
    sig: &Signature,
    sizes: &Sizes,
    table: &TermTable,
    asserts: &[TermId],
    budget: u64,
    kept: &mut Kept,
) -> Result<Verdict, SolveError>
    requires sizes { AreSizes sig.now sizes.now }
    requires sorted { AreSorted sig.now table.now }
    requires asserts { All (IsBoolean table.now) asserts.now }
    requires exact { AreSubtermsOf table.now asserts.now }
    requires kept { AreSorted sig.now kept.old.table }
    ensures verdict { IfOk result (IsVerdict sig.now table.now asserts.now budget) }
    ensures decides { IfOk result (λ verdict. (variables : ℕ) → HasVariables sig.now (terms_at table.now asserts.now) variables
        → 2 ^ variables ≤ suc budget → IsDecisive verdict) }
    ensures too_large { IsErrOf result SolveError.TooLarge → HasMoreThan sig.now (terms_at table.now asserts.now) most_closure_terms }
    ensures fits { OnOk result (HasMoreThan sig.now (terms_at table.now asserts.now) most_closure_terms → ⊥) }
    ensures kept { IfOk result (HasKept sig.now kept.old kept.new) }
    ensures sorted { AreSorted sig.now kept.new.table }
    ensures refused { OnErr result (kept.new ≡ kept.old) }
{
    let closed = closed_alone(alloc, sig, sizes, table, asserts)?;
    solve_closed(alloc, sig, sizes, table, asserts, closed, budget, kept)
}

/// As `solve_kept`, with what is kept of the closures of earlier checks, of which this one takes what serves. With 10,000
/// decisions or fewer only the sizes of sorts are taken from there, so that the search goes over the terms in the order in which
/// one for these assertions alone has them.
pub fn solve_on(
    alloc: Global,
    sig: &Signature,
    base: &mut Base,
    table: &TermTable,
    asserts: &[TermId],
    budget: u64,
    kept: &mut Kept,
) -> Result<Verdict, SolveError>
    requires base { IsBase sig.now base.old }
    requires sorted { AreSorted sig.now table.now }
    requires asserts { All (IsBoolean table.now) asserts.now }
    requires exact { AreSubtermsOf table.now asserts.now }
    requires kept { AreSorted sig.now kept.old.table }
    ensures base { IsBase sig.now base.new }
    ensures verdict { IfOk result (IsVerdict sig.now table.now asserts.now budget) }
    ensures decides { IfOk result (λ verdict. (variables : ℕ) → HasVariables sig.now (terms_at table.now asserts.now) variables
        → 2 ^ variables ≤ suc budget → IsDecisive verdict) }
    ensures too_large { IsErrOf result SolveError.TooLarge → HasMoreThan sig.now (terms_at table.now asserts.now) most_closure_terms }
    ensures fits { OnOk result (HasMoreThan sig.now (terms_at table.now asserts.now) most_closure_terms → ⊥) }
    ensures kept { IfOk result (HasKept sig.now kept.old kept.new) }
    ensures sorted { AreSorted sig.now kept.new.table }
    ensures refused { OnErr result (kept.new ≡ kept.old) }
{
    let closed = closed_on(alloc, sig, base, table, asserts, budget)?;
    solve_closed(
        alloc,
        sig,
        base.sizes(),
        table,
        asserts,
        closed,
        budget,
        kept,
    )
}

// The closed table of a check with so many decisions: of the base where they are many.
fn closed_on(
    alloc: Global,
    sig: &Signature,
    base: &mut Base,
    table: &TermTable,
    asserts: &[TermId],
    budget: u64,
) -> Result<Box<Closed>, SolveError>
    requires base { IsBase sig.now base.old }
    requires sorted { AreSorted sig.now table.now }
    requires asserts { All (IsBoolean table.now) asserts.now }
    requires exact { AreSubtermsOf table.now asserts.now }
    ensures base { IsBase sig.now base.new }
    ensures sizes { OnOk result (AreSizes sig.now base.new.sizes) }
    ensures closed { IfOk result (λ closed. IsClosedAs sig.now table.now asserts.now closed.value) }
    ensures too_large { IsErrOf result SolveError.TooLarge → HasMoreThan sig.now (terms_at table.now asserts.now) most_closure_terms }
    ensures fits { OnOk result (HasMoreThan sig.now (terms_at table.now asserts.now) most_closure_terms → ⊥) }
{
    if budget > FEW_DECISIONS {
        return closed_in(alloc, sig, base, table, asserts);
    }
    size_all(base, sig)?;
    closed_alone(alloc, sig, base.sizes(), table, asserts)
}

// Makes the sizes of the base those of the signature.
fn size_all(base: &mut Base, sig: &Signature) -> Result<(), SolveError>
    requires base { IsBase sig.now base.old }
    ensures base { IsBase sig.now base.new }
    ensures sizes { OnOk result (AreSizes sig.now base.new.sizes) }
    ensures err { IsErrOf result SolveError.TooLarge → ⊥ }
{
    match base.size_all(sig) {
        Ok(()) => Ok(()),
        Err(_) => Err(SolveError::NoMemory),
    }
}

// The verdict of a search over a closed table, which leaves theory lemmas in the store.
fn solve_closed(
    alloc: Global,
    sig: &Signature,
    sizes: &Sizes,
    table: &TermTable,
    asserts: &[TermId],
    closed: Box<Closed>,
    budget: u64,
    kept: &mut Kept,
) -> Result<Verdict, SolveError>
    requires sizes { AreSizes sig.now sizes.now }
    requires sorted { AreSorted sig.now table.now }
    requires asserts { All (IsBoolean table.now) asserts.now }
    requires closed { IsClosedAs sig.now table.now asserts.now closed.value }
    requires kept { AreSorted sig.now kept.old.table }
    ensures verdict { IfOk result (IsVerdict sig.now table.now asserts.now budget) }
    ensures decides { IfOk result (λ verdict. (variables : ℕ) → HasVariables sig.now (terms_at table.now asserts.now) variables
        → 2 ^ variables ≤ suc budget → IsDecisive verdict) }
    ensures kept { IfOk result (HasKept sig.now kept.old kept.new) }
    ensures sorted { AreSorted sig.now kept.new.table }
    ensures refused { OnErr result (kept.new ≡ kept.old) }
    ensures err { IsErrOf result SolveError.TooLarge → ⊥ }
{
    let (found, first) = verdict_on(alloc, sig, sizes, table, asserts, closed, budget, &*kept)?;
    let verdict = Box::new(alloc, found)?;
    keep_lines(alloc, sig, &verdict, first, kept)?;
    Ok(Box::into_inner(verdict))
}

// The verdict of a search that begins with the clauses of the store, and how many lines of its derivation are initial ones or
// those of the store.
fn verdict_on(
    alloc: Global,
    sig: &Signature,
    sizes: &Sizes,
    table: &TermTable,
    asserts: &[TermId],
    closed: Box<Closed>,
    budget: u64,
    kept: &Kept,
) -> Result<(Verdict, usize), SolveError>
    requires sizes { AreSizes sig.now sizes.now }
    requires sorted { AreSorted sig.now table.now }
    requires asserts { All (IsBoolean table.now) asserts.now }
    requires closed { IsClosedAs sig.now table.now asserts.now closed.value }
    ensures verdict { IfOk result (λ found. IsVerdict sig.now table.now asserts.now budget found.0) }
    ensures decides { IfOk result (λ found. (variables : ℕ) → HasVariables sig.now (terms_at table.now asserts.now) variables
        → 2 ^ variables ≤ suc budget → IsDecisive found.0) }
    ensures begun { IfOk result (λ found. IsVerdictWith sig.now kept.now found.1 found.0) }
    ensures err { IsErrOf result SolveError.TooLarge → ⊥ }
{
    spent_searches();
    let (outcome, first) = find(alloc, sig, sizes, table, asserts, closed, budget, kept)?;
    match outcome {
        Outcome::Unsat(derivation) => Ok((Verdict::Unsat(derivation), first)),
        Outcome::Unknown(spent) => Ok((Verdict::Unknown(spent), first)),
        Outcome::Candidate(candidate) => {
            let interp = readable_model(alloc, sig, sizes, table, asserts, &candidate)?;
            drop(candidate);
            Ok((Verdict::Sat(interp), first))
        }
    }
}

// What a search over the clauses of the assertions and those of the store finds, and how many lines these have.
fn find(
    alloc: Global,
    sig: &Signature,
    sizes: &Sizes,
    table: &TermTable,
    asserts: &[TermId],
    closed: Box<Closed>,
    budget: u64,
    kept: &Kept,
) -> Result<(Outcome, usize), SolveError>
    requires sizes { AreSizes sig.now sizes.now }
    requires sorted { AreSorted sig.now table.now }
    requires asserts { All (IsBoolean table.now) asserts.now }
    requires closed { IsClosedAs sig.now table.now asserts.now closed.value }
    ensures outcome { IfOk result (λ found. IsOutcome sig.now table.now asserts.now budget found.0) }
    ensures begun { IfOk result (λ found. IsOutcomeWith sig.now kept.now found.1 found.0) }
    ensures err { IsErrOf result SolveError.TooLarge → ⊥ }
{
    let mut course = begun_with(alloc, sig, sizes, closed, first_budget(budget), kept)?;
    let mut theory = theory_of(alloc, sig, sizes, &course)?;
    let ending = explore(alloc, sig, sizes, budget, &mut course, &mut theory)?;
    let found = conclude(alloc, sig, table, asserts, budget, course, theory, ending)?;
    Ok(found)
}

// Adds what can be said before the first decision, and searches.
fn explore(
    alloc: Global,
    sig: &Signature,
    sizes: &Sizes,
    budget: u64,
    course: &mut Course,
    theory: &mut Theory,
) -> Result<Ending, SolveError>
    requires before { IsBeforeDecisions sig.now sizes.now course.old }
    requires recorded { course.old.recorded ≡ true }
    requires theory { IsTheoryOf course.old theory.old }
    requires stand { HasFirst course.old }
    ensures same { OnOk result (IsOfOneClosure course.old course.new) }
    ensures ended { IfOk result (IsEnded course.new theory.new) }
    ensures spent { IfOk result (λ r. r ≡ Ending.Spent → IsOnRecord budget course.new) }
    ensures adds { AddsFirst course.old → IfOk result (λ r. r ≡ Ending.Spent → AddsFirst course.new) }
    ensures err { IsErrOf result SolveError.TooLarge → ⊥ }
{
    open_search(alloc, sig, sizes, course, theory)?;
    let ending = search(alloc, budget, course, theory)?;
    Ok(ending)
}

// The theory over the terms of the derivation.
fn theory_of(
    alloc: Global,
    sig: &Signature,
    sizes: &Sizes,
    course: &Course,
) -> Result<Theory, SolveError>
    requires sizes { AreSizes sig.now sizes.now }
    requires declarations { course.now.derivation.declarations ≡ sig.now }
    requires sorted { AreSorted sig.now course.now.derivation.rec.terms }
    ensures theory { IfOk result (IsTheoryOf course.now) }
    ensures err { IsErrOf result SolveError.TooLarge → ⊥ }
{
    let theory = Theory::new(alloc, sig, sizes, course.derivation.rec().table())?;
    Ok(theory)
}

// A search over the closure of the assertions that has made no move but to add the clauses of the store.
fn begun_with(
    alloc: Global,
    sig: &Signature,
    sizes: &Sizes,
    closed: Box<Closed>,
    budget: u64,
    kept: &Kept,
) -> Result<Box<Course>, SolveError>
    requires sizes { AreSizes sig.now sizes.now }
    requires closed { IsClosed sig.now closed.value }
    ensures before { IfOk result (λ course. IsBeforeDecisions sig.now sizes.now course.value) }
    ensures recorded { IfOk result (λ course. course.value.recorded ≡ true) }
    ensures task { IfOk result (λ course. (table : Terms) (asserts : List TermId) → terms_at closed.value.table closed.value.roots.items ≡ terms_at table asserts → IsTaskOf sig.now table asserts course.value) }
    ensures begun { IfOk result (λ course. IsCourseWith sig.now kept.now course.value) }
    ensures adds { IfOk result (λ course. AddsFirst course.value) }
    ensures stand { IfOk result (λ course. HasFirst course.value) }
    ensures err { IsErrOf result SolveError.TooLarge → ⊥ }
{
    let mut course = begun(alloc, sig, sizes, closed, budget)?;
    add_kept(alloc, sig, sizes, &mut course, kept)?;
    Ok(course)
}

// A search over the closure of the assertions that has made no move.
fn begun(
    alloc: Global,
    sig: &Signature,
    sizes: &Sizes,
    closed: Box<Closed>,
    budget: u64,
) -> Result<Box<Course>, SolveError>
    requires sizes { AreSizes sig.now sizes.now }
    requires closed { IsClosed sig.now closed.value }
    ensures declarations { IfOk result (λ course. course.value.derivation.declarations ≡ sig.now) }
    ensures recorded { IfOk result (λ course. course.value.recorded ≡ true) }
    ensures task { IfOk result (λ course. (table : Terms) (asserts : List TermId) → terms_at closed.value.table closed.value.roots.items ≡ terms_at table asserts → IsTaskOf sig.now table asserts course.value) }
    ensures under_way { IfOk result (λ course. IsUnderWay course.value) }
    ensures start { IfOk result (λ course. IsAtStart sig.now course.value) }
    ensures err { IsErrOf result SolveError.TooLarge → ⊥ }
{
    let course = prepare(alloc, sig, sizes, Box::into_inner(closed), budget)?;
    Ok(Box::new(alloc, course)?)
}

// The sizes of all sorts.
fn sizes_of(alloc: Global, sig: &Signature) -> Result<Box<Sizes>, SolveError>
    ensures sizes { IfOk result (λ sizes. AreSizes sig.now sizes.value) }
    ensures err { IsErrOf result SolveError.TooLarge → ⊥ }
{
    let sizes = Sizes::new(alloc, sig)?;
    Ok(Box::new(alloc, sizes)?)
}
