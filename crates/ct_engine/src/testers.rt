//! Lemmas on testers and equations: two testers of a term exclude each other; a term that equals a constructor term satisfies
//! the tester of its constructor and no other; equal terms satisfy the same testers. A search would find each of them as a
//! conflict of the theory, usually many times under different decisions. Added before the first decision, they propagate.
ghost use Rattle.std.specs.Prelude.{All, IsErrOf};
ghost use Rattle.ct_sorts.specs.Declarations.{IsConstructor};

use crate::error::SolveError;
use crate::tester_drafts::{at_most_one, both, built, constant, equal, is_built};
use ct_explain::EqProof;
use ct_sorts::{CtorId, Signature};
use ct_terms::{Core, TermId, TermTable};
use std::alloc::Global;

/// Of sorts with more constructors than this nothing is said.
const MOST_CTORS: usize = 64;

// What lemmas are on.
#[derive(Clone, Copy, Debug, PartialEq, Eq)]
enum Subject {
    // A term, by a tester of it.
    Tester(TermId),
    // A term that equals a constructor term.
    Built(TermId, TermId),
    // Two terms that are equal.
    Equal(TermId, TermId),
    // Nothing.
    Other,
}

/// The steps of the lemmas on a term, where it is a tester or an equation.
pub(crate) fn lemmas_on(
    alloc: Global,
    sig: &Signature,
    table: &TermTable,
    t: TermId,
) -> Result<Vec<EqProof>, SolveError>
    ensures err { IsErrOf result SolveError.TooLarge → ⊥ }
{
    let mut drafts = Vec::new(alloc);
    match subject_of(table, t) {
        Subject::Tester(x) => write_exclusions(alloc, sig, table, t, x, &mut drafts)?,
        Subject::Built(x, con) => write_built(alloc, sig, table, t, x, con, &mut drafts)?,
        Subject::Equal(x, y) => write_equal(alloc, sig, table, t, x, y, &mut drafts)?,
        Subject::Other => {}
    }
    Ok(drafts)
}

// What the term says.
fn subject_of(table: &TermTable, t: TermId) -> Subject {
    if t.0 >= table.len() {
        return Subject::Other;
    }
    match table.core(t) {
        Core::Test(_, x) => {
            if is_built(table, *x) {
                return Subject::Other;
            }
            Subject::Tester(*x)
        }
        Core::Eq(a, b) => sides(table, *a, *b),
        _ => Subject::Other,
    }
}

// What an equation of the two says.
fn sides(table: &TermTable, a: TermId, b: TermId) -> Subject {
    if is_built(table, b) {
        if is_built(table, a) {
            return Subject::Other;
        }
        return Subject::Built(a, b);
    }
    if is_built(table, a) {
        return Subject::Built(b, a);
    }
    Subject::Equal(a, b)
}

// The constructors of the term's sort; none where they are too many, or one.
fn constructors<'a>(sig: &'a Signature, table: &TermTable, t: TermId) -> &'a [CtorId]
    ensures declared { All (IsConstructor sig.now) result.now }
{
    if t.0 >= table.len() || table.sort(t).0 >= sig.sorts() {
        return &[];
    }
    let ctors = sig.ctors(table.sort(t));
    if ctors.len() < 2 || ctors.len() > MOST_CTORS {
        return &[];
    }
    ctors
}

// That the tester and each earlier one of the term exclude each other.
fn write_exclusions(
    alloc: Global,
    sig: &Signature,
    table: &TermTable,
    t: TermId,
    x: TermId,
    drafts: &mut Vec<EqProof>,
) -> Result<(), SolveError>
    ensures err { IsErrOf result SolveError.TooLarge → ⊥ }
{
    for c in constructors(sig, table, x) {
        put(drafts, at_most_one(alloc, sig, table, t, x, *c)?)?;
    }
    Ok(())
}

// That by the equation `t` the term has the tester of the constructor term's constructor and no other.
fn write_built(
    alloc: Global,
    sig: &Signature,
    table: &TermTable,
    t: TermId,
    x: TermId,
    con: TermId,
    drafts: &mut Vec<EqProof>,
) -> Result<(), SolveError>
    ensures err { IsErrOf result SolveError.TooLarge → ⊥ }
{
    put(drafts, constant(alloc, table, t, x, con)?)?;
    for c in constructors(sig, table, x) {
        put(drafts, built(alloc, table, t, x, con, *c)?)?;
    }
    Ok(())
}

// That by the equation `t` both terms have the same testers, and that it holds where both have one of a constructor without
// fields.
fn write_equal(
    alloc: Global,
    sig: &Signature,
    table: &TermTable,
    t: TermId,
    x: TermId,
    y: TermId,
    drafts: &mut Vec<EqProof>,
) -> Result<(), SolveError>
    ensures err { IsErrOf result SolveError.TooLarge → ⊥ }
{
    for c in constructors(sig, table, x) {
        put(drafts, equal(alloc, table, t, x, y, *c, true)?)?;
        put(drafts, equal(alloc, table, t, x, y, *c, false)?)?;
        put(drafts, both(alloc, table, t, x, y, *c)?)?;
    }
    Ok(())
}

// Puts a draft with steps after the others.
fn put(drafts: &mut Vec<EqProof>, draft: EqProof) -> Result<(), SolveError>
    ensures err { IsErrOf result SolveError.TooLarge → ⊥ }
{
    if !draft.steps.is_empty() {
        drafts.push(draft)?;
    }
    Ok(())
}
