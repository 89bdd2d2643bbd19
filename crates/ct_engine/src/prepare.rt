//! What a search begins with: a closed table, its initial lines, and their clauses.
ghost use Rattle.std.specs.Prelude.{◌≡◌, true, List, IfOk, IsErrOf};
ghost use Rattle.ct_card.specs.Sizes.{AreSizes};
ghost use Rattle.ct_terms.specs.declared.ids.TermId.{TermId};
ghost use Rattle.ct_terms.specs.Terms.{Terms};
ghost use Rattle.ct_closure.specs.ClosedTable.{IsClosedTable, AreRising, terms_at};
ghost use Rattle.ct_log.specs.Recorded.{AreJudges};
ghost use Rattle.ct_clauses.specs.Initial.{AreSplitTerms};
ghost use Rattle.ct_engine.specs.Progress.{IsUnderWay, IsTaskOf, IsClosed, IsBegunOver, IsSearchOver, IsAtStart};

use crate::closed::Closed;
use crate::course::{Course, line_count};
use crate::error::SolveError;
use crate::guide::Guide;
use crate::initial::add_lines;
use ct_card::Sizes;
use ct_clauses::clauses;
use ct_closure::Closure;
use ct_log::Derivation;
use ct_sat::Search;
use ct_sorts::Signature;
use ct_terms::{TermId, TermTable};
use std::alloc::Global;

/// A search over a closed table that has made no move. It is a search for all assertions of any table that have the trees of the
/// roots.
pub(crate) fn prepare(
    alloc: Global,
    sig: &Signature,
    sizes: &Sizes,
    closed: Closed,
    budget: u64,
) -> Result<Course, SolveError>
    requires sizes { AreSizes sig.now sizes.now }
    requires closed { IsClosed sig.now closed }
    ensures declarations { IfOk result (λ course. course.derivation.declarations ≡ sig.now) }
    ensures recorded { IfOk result (λ course. course.recorded ≡ true) }
    ensures task { IfOk result (λ course. (table : Terms) (asserts : List TermId) → terms_at closed.table closed.roots.items ≡ terms_at table asserts → IsTaskOf sig.now table asserts course) }
    ensures under_way { IfOk result IsUnderWay }
    ensures start { IfOk result (IsAtStart sig.now) }
    ensures err { IsErrOf result SolveError.TooLarge → ⊥ }
{
    let Closed {
        table,
        roots,
        closure,
    } = closed;
    let _terms = table.len();
    let variables = closure.variables();
    let begun = begin(alloc, sig, sizes, table, roots, &closure)?;
    drop(closure);
    let initial = line_count(&begun);
    let derivation = Box::new(alloc, begun)?;
    let search = search_over(alloc, &derivation, budget)?;
    let moves = Vec::new(alloc);
    let guide = Box::new(alloc, Guide::empty(alloc)?)?;
    Ok(Course {
        search,
        derivation: Box::into_inner(derivation),
        recorded: true,
        moves,
        guide,
        initial,
        kept: 0,
        variables,
    })
}

// The derivation whose lines are the initial lines.
fn begin(
    alloc: Global,
    sig: &Signature,
    sizes: &Sizes,
    table: TermTable,
    asserts: Vec<TermId>,
    closure: &Closure,
) -> Result<Derivation, SolveError>
    requires judges { AreJudges sig.now sizes.now table asserts.items }
    requires closed { IsClosedTable sig.now table }
    requires split { AreSplitTerms sig.now table closure.now.split }
    requires rising { AreRising closure.now.split }
    ensures begun { IfOk result (IsBegunOver sig.now table asserts.items) }
    ensures err { IsErrOf result SolveError.TooLarge → ⊥ }
{
    let mut derivation = Derivation::new(alloc, sig, sizes, table, asserts);
    clauses(alloc, sig, closure, &mut derivation)?;
    Ok(derivation)
}

// A search over the clauses of the lines.
fn search_over(alloc: Global, derivation: &Derivation, budget: u64) -> Result<Search, SolveError>
    ensures search { IfOk result (IsSearchOver derivation.now budget) }
    ensures err { IsErrOf result SolveError.TooLarge → ⊥ }
{
    let rec = derivation.rec();
    let mut search = Search::new(alloc, rec.table(), budget)?;
    add_lines(&mut search, rec.lines())?;
    Ok(search)
}
