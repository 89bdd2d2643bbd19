//! The assertions that cited lines are given, and their first places.
ghost use Rattle.std.specs.Prelude.{◌≡◌, ◌↔◌, ◌<◌, ◌∷◌, ◌++◌, [], suc, ◌⊎◌, Bool, List, All, length, IfOk, OnOk};
ghost use Rattle.ct_terms.specs.declared.ids.TermId.{TermId};
ghost use Rattle.ct_log.specs.declared.line.Step.TheVariants.{Input};
ghost use Rattle.ct_core.specs.Sweep.{IsMarked};
ghost use Rattle.ct_core.specs.Inputs.{IsGivenAt, AreGivenMarks, AreInputsBelow, IsChosen};

use crate::error::CoreError;
use crate::sweep::mark_one;
use ct_log::{Line, Step};
use ct_terms::TermId;
use std::alloc::Global;

/// A mark for each of so many terms, which says whether a line with a mark is given it.
pub(crate) fn given_marks(
    alloc: Global,
    lines: &[Line],
    marks: &[bool],
    count: u32,
) -> Result<Vec<bool>, CoreError>
    requires long { length marks.now ≡ suc (length lines.now) }
    requires within { AreInputsBelow count lines.now }
    ensures long { IfOk result (λ given. length given.items ≡ count) }
    ensures given { IfOk result (λ given. AreGivenMarks marks.now lines.now (length lines.now) given.items) }
{
    let mut given = vec![in alloc; false; count as usize]?;
    for index in 0..lines.len() {
        mark_given(lines, marks, index, &mut given);
    }
    Ok(given)
}

// Marks the term that the line at this index is given, where the line has a mark.
fn mark_given(lines: &[Line], marks: &[bool], index: usize, given: &mut Vec<bool>)
    requires within { index < length lines.now }
    requires long { length marks.now ≡ suc (length lines.now) }
    requires terms { AreInputsBelow (length given.old.items) lines.now }
    ensures long { length given.new.items ≡ length given.old.items }
    ensures given { (t : TermId) → IsMarked given.new.items t.0 ↔ (IsMarked given.old.items t.0 ⊎ IsGivenAt marks.now lines.now index t) }
{
    if !marks[index + 1] {
        return;
    }
    mark_input(&lines[index], given);
}

// Marks the term that the line is given.
fn mark_input(line: &Line, given: &mut Vec<bool>)
    requires within { (t : TermId) → line.now.step ≡ Input t → t.0 < length given.old.items }
    ensures long { length given.new.items ≡ length given.old.items }
    ensures given { (t : TermId) → IsMarked given.new.items t.0 ↔ (IsMarked given.old.items t.0 ⊎ (line.now.step ≡ Input t)) }
{
    match &line.step {
        Step::Input(t) => mark_one(given, t.0 as u64),
        Step::Gate(_, _, _) => {}
        Step::Exhaust(_) => {}
        Step::Theory(_, _) => {}
        Step::Learn(_) => {}
    }
}

/// Places in a list, and the terms that stand there.
#[derive(Drop)]
pub(crate) struct Chosen {
    /// The places.
    pub(crate) places: Vec<u64>,
    /// The terms, in the same order.
    pub(crate) terms: Vec<TermId>,
}

/// The first place of each marked term among the assertions, in order, and the terms.
pub(crate) fn first_places(
    alloc: Global,
    asserts: &[TermId],
    mut marks: Vec<bool>,
) -> Result<Chosen, CoreError>
    requires within { All (λ t. t.0 < length marks.items) asserts.now }
    ensures chosen { IfOk result (λ chosen. (left : List Bool) × IsChosen asserts.now marks.items (length asserts.now) chosen.places.items chosen.terms.items left) }
{
    let mut chosen = Chosen {
        places: Vec::new(alloc),
        terms: Vec::new(alloc),
    };
    for place in 0..asserts.len() {
        choose(asserts[place], place as u64, &mut marks, &mut chosen)?;
    }
    Ok(chosen)
}

// Takes the place with its term, where that is marked, and takes the mark away.
fn choose(
    t: TermId,
    place: u64,
    marks: &mut Vec<bool>,
    chosen: &mut Chosen,
) -> Result<(), CoreError>
    requires within { t.0 < length marks.old.items }
    ensures long { OnOk result (length marks.new.items ≡ length marks.old.items) }
    ensures marks { OnOk result ((u : TermId) → IsMarked marks.new.items u.0 ↔ (IsMarked marks.old.items u.0 × (u ≡ t → ⊥))) }
    ensures taken { IsMarked marks.old.items t.0 → OnOk result ((chosen.new.places.items ≡ chosen.old.places.items ++ place ∷ []) × (chosen.new.terms.items ≡ chosen.old.terms.items ++ t ∷ [])) }
    ensures left { (IsMarked marks.old.items t.0 → ⊥) → OnOk result ((chosen.new.places.items ≡ chosen.old.places.items) × (chosen.new.terms.items ≡ chosen.old.terms.items)) }
{
    if !marks[t.0 as usize] {
        return Ok(());
    }
    chosen.places.push(place)?;
    chosen.terms.push(t)?;
    marks[t.0 as usize] = false;
    Ok(())
}
