//! Takes a table back to a stage.
ghost use Rattle.std.specs.Prelude.{◌≡◌, ◌≤◌, List, length, take, reverse, All, IsTrue};
ghost use Rattle.ct_sorts.specs.Declarations.{Declarations};
ghost use Rattle.ct_terms.specs.declared.ids.TermId.{TermId};
ghost use Rattle.ct_terms.specs.Terms.{Terms, AreSorted};
ghost use Rattle.ct_base.specs.Base.{AreStages};
ghost use Rattle.ct_base.specs.Cutting.{IsBelow, IsBelowMark, top_terms, top_closed, top_roots, top_split};

use crate::stage::Stage;
use ct_sorts::Mark;
use ct_terms::{TermId, TermTable};

/// Keeps the first stages, as long as they are of no more roots than so many.
pub(crate) fn keep_within(stages: &mut Vec<Stage>, roots: usize)
    ensures stages { (d : Declarations) (table : Terms) (ids split : List TermId) → AreStages d table ids split (reverse stages.old.items) → AreStages d table ids split (reverse stages.new.items) }
    ensures few { top_roots (reverse stages.new.items) ≤ roots }
{
    let count = count_within(stages.as_slice(), roots);
    stages.truncate(count);
}

// How many first stages are of no more roots than so many.
fn count_within(stages: &[Stage], roots: usize) -> usize
    ensures within { result ≤ length stages.now }
    ensures few { All (λ s. s.roots ≤ roots) (take result stages.now) }
{
    let mut count = 0;
    while count < stages.len() {
        if stages[count].roots > roots {
            return count;
        }
        count += 1;
    }
    count
}

/// Keeps the first stages, as long as no more was declared at them than at the mark.
pub(crate) fn keep_declared(stages: &mut Vec<Stage>, mark: &Mark)
    ensures stages { (d : Declarations) (table : Terms) (ids split : List TermId) → AreStages d table ids split (reverse stages.old.items) → AreStages d table ids split (reverse stages.new.items) }
    ensures below { All (IsBelow mark.now) stages.new.items }
{
    let count = count_below(stages.as_slice(), mark);
    stages.truncate(count);
}

// At how many first stages no more was declared than at the mark.
fn count_below(stages: &[Stage], mark: &Mark) -> usize
    ensures within { result ≤ length stages.now }
    ensures below { All (IsBelow mark.now) (take result stages.now) }
{
    let mut count = 0;
    while count < stages.len() {
        if !is_below(&stages[count].declared, mark) {
            return count;
        }
        count += 1;
    }
    count
}

// Whether no more was declared at the one mark than at the other.
fn is_below(mark: &Mark, other: &Mark) -> bool
    ensures below { IsTrue result → IsBelowMark other.now mark.now }
{
    mark.sorts() <= other.sorts()
        && mark.ctors() <= other.ctors()
        && mark.sels() <= other.sels()
        && mark.funs() <= other.funs()
        && mark.defs() <= other.defs()
        && mark.heads() <= other.heads()
        && mark.synonyms() <= other.synonyms()
}

/// Takes the table with its roots and its split terms back to the last stage, or to nothing where there is none. How many terms
/// are closed then.
pub(crate) fn take_back(
    stages: &[Stage],
    table: &mut TermTable,
    roots: &mut Vec<TermId>,
    split: &mut Vec<TermId>,
) -> u32
    requires stages { (d : Declarations) × AreStages d table.old roots.old.items split.old.items (reverse stages.now) }
    ensures table { table.new ≡ take (top_terms (reverse stages.now)) table.old }
    ensures roots { roots.new.items ≡ take (top_roots (reverse stages.now)) roots.old.items }
    ensures split { split.new.items ≡ take (top_split (reverse stages.now)) split.old.items }
    ensures sorted { (d : Declarations) → AreSorted d table.old → AreSorted d table.new }
    ensures closed { result ≡ top_closed (reverse stages.now) }
{
    table.len();
    match stages.last() {
        Some(stage) => {
            table.cut_to(stage.terms);
            roots.truncate(stage.roots);
            split.truncate(stage.split);
            stage.terms
        }
        None => {
            table.cut_to(2);
            roots.truncate(0);
            split.truncate(0);
            0
        }
    }
}
