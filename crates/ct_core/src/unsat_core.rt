//! The core of a derivation: a derivation of its own from only those assertions on which the last line rests.
ghost use Rattle.std.specs.Prelude.{◌≡◌, ◌<◌, ℕ, suc, [], ◌∷◌, ◌++◌, List, length, All, IfOk, OnOk};
ghost use Rattle.ct_card.specs.Sizes.{AreSizes};
ghost use Rattle.ct_terms.specs.declared.ids.TermId.{TermId};
ghost use Rattle.ct_log.specs.Acceptance.{IsAccepted, AreAccepted, Passes, clauses_of};
ghost use Rattle.ct_log.specs.Recorded.{AreJudges};
ghost use Rattle.ct_core.specs.Cited.{hints_of};
ghost use Rattle.ct_core.specs.Trimmed.{renumbered};
ghost use Rattle.ct_core.specs.Core.{IsCore};
ghost use Rattle.ct_core.specs.Sweep.{IsMarked, AreMarks, AreClosedMarks, HaveInputs, IsCopied, NameEarlier, place_in};

use crate::copies::copy_line;
use crate::error::CoreError;
use crate::inputs::{first_places, given_marks};
use crate::renumbering::places_of;
use crate::sweep::cited_marks;
use crate::trimming::put_next;
use ct_card::Sizes;
use ct_log::{Derivation, Line};
use ct_sorts::Signature;
use ct_terms::TermId;
use std::alloc::Global;

/// The core of a derivation.
#[derive(Drop)]
pub struct UnsatCore {
    /// The places of its assertions among those of the derivation, from 0, in order.
    pub places: Vec<u64>,
    /// The lines that the last line rests on, over the terms of the derivation and the assertions at these places.
    pub derivation: Derivation,
}

/// The core of the derivation (SMT-LIB 2.7, section 4.2.7, on unsatisfiable cores): the lines on which its last line
/// rests, and the assertions that these lines are given, each by its first place. The time is linear in the lines, the
/// terms and the assertions, which are copied as far as they are kept.
///
/// Its only error is out of memory.
pub fn core_of(
    alloc: Global,
    sig: &Signature,
    sizes: &Sizes,
    derivation: &Derivation,
) -> Result<UnsatCore, CoreError>
    requires declarations { derivation.now.declarations ≡ sig.now }
    requires sizes { AreSizes sig.now sizes.now }
    ensures core { IfOk result (λ core. IsCore derivation.now core.places.items core.derivation) }

    // Where the derivation passed, that of the core passes, from its own assertions.
    ensures passes { IfOk result (λ core. Passes sig.now derivation.now.rec.terms derivation.now.asserts derivation.now.rec.lines
        → Passes sig.now core.derivation.rec.terms core.derivation.asserts core.derivation.rec.lines) }
{
    let rec = derivation.rec();
    let lines = rec.lines();
    let marks = cited_marks(alloc, lines, 0)?;
    let given = given_marks(alloc, lines, marks.as_slice(), rec.table().len())?;
    let chosen = first_places(alloc, derivation.asserts(), given)?;
    let core = marked_lines(
        alloc,
        sig,
        sizes,
        derivation,
        marks.as_slice(),
        chosen.terms,
    )?;
    Ok(UnsatCore {
        places: chosen.places,
        derivation: Box::into_inner(core),
    })
}

// A derivation over the same terms and these assertions, with a copy of each line that is marked, its hints renumbered.
fn marked_lines(
    alloc: Global,
    sig: &Signature,
    sizes: &Sizes,
    derivation: &Derivation,
    marks: &[bool],
    asserts: Vec<TermId>,
) -> Result<Box<Derivation>, CoreError>
    requires declarations { derivation.now.declarations ≡ sig.now }
    requires judges { AreJudges sig.now sizes.now derivation.now.rec.terms asserts.items }
    requires marks { AreMarks 0 derivation.now.rec.lines marks.now }
    requires inputs { HaveInputs marks.now derivation.now.rec.lines asserts.items }
    ensures copied { IfOk result (λ core. (places : List ℕ) × IsCopied (length derivation.now.rec.lines) marks.now places derivation.now.rec.lines core.value.rec.lines) }
    ensures others { IfOk result (λ core. core.value ≡ record { declarations = sig.now; sizes = sizes.now; rec = record { terms = derivation.now.rec.terms; lines = core.value.rec.lines }; asserts = asserts.items }) }
    ensures accepted { IfOk result (λ core. AreAccepted sig.now derivation.now.rec.terms asserts.items core.value.rec.lines) }
{
    let mut core = without_lines(alloc, sig, sizes, derivation, asserts)?;
    let rec = derivation.rec();
    copy_lines(alloc, rec.lines(), marks, &mut core)?;
    let _rec = core.rec();
    Ok(core)
}

// A derivation without lines over the same terms and these assertions.
fn without_lines(
    alloc: Global,
    sig: &Signature,
    sizes: &Sizes,
    derivation: &Derivation,
    asserts: Vec<TermId>,
) -> Result<Box<Derivation>, CoreError>
    requires judges { AreJudges sig.now sizes.now derivation.now.rec.terms asserts.items }
    ensures begun { IfOk result (λ new. new.value ≡ record { declarations = sig.now; sizes = sizes.now; rec = record { terms = derivation.now.rec.terms; lines = [] }; asserts = asserts.items }) }
{
    let table = derivation.rec().table().copy()?;
    let new = Derivation::new(alloc, sig, sizes, table, asserts);
    Ok(Box::new(alloc, new)?)
}

// Adds a copy of each line that is marked, with its hints renumbered, to a derivation that has none.
fn copy_lines(
    alloc: Global,
    lines: &[Line],
    marks: &[bool],
    derivation: &mut Derivation,
) -> Result<(), CoreError>
    requires begun { derivation.old.rec.lines ≡ [] }
    requires long { length marks.now ≡ suc (length lines.now) }
    requires positive { IsMarked marks.now 0 → ⊥ }
    requires closed { AreClosedMarks marks.now lines.now }
    requires earlier { NameEarlier lines.now }
    requires inputs { HaveInputs marks.now lines.now derivation.old.asserts }
    requires accepted { (asserts : List TermId) × AreAccepted derivation.old.declarations derivation.old.rec.terms asserts lines.now }
    ensures copied { OnOk result ((places : List ℕ) × IsCopied (length lines.now) marks.now places lines.now derivation.new.rec.lines) }
    ensures others { OnOk result (derivation.new ≡ record derivation.old { rec = record derivation.old.rec { lines = derivation.new.rec.lines } }) }
{
    let places = places_of(alloc, marks)?;
    for index in 0..lines.len() {
        copy_next(
            alloc,
            &lines[index],
            index + 1,
            marks,
            places.as_slice(),
            derivation,
        )?;
    }
    Ok(())
}

// Adds a copy of the line with this number, where it is marked.
fn copy_next(
    alloc: Global,
    line: &Line,
    number: usize,
    marks: &[bool],
    places: &[u64],
    derivation: &mut Derivation,
) -> Result<(), CoreError>
    requires within { number < length marks.now }
    requires named { All (λ hint. hint < length places.now) (hints_of line.now.step) }
    requires accepted { IsMarked marks.now number → IsAccepted derivation.old.declarations derivation.old.rec.terms derivation.old.asserts (clauses_of derivation.old.rec.lines) (renumbered (place_in places.now) line.now) }
    ensures put { IsMarked marks.now number → OnOk result (derivation.new.rec.lines ≡ derivation.old.rec.lines ++ renumbered (place_in places.now) line.now ∷ []) }
    ensures skipped { (IsMarked marks.now number → ⊥) → OnOk result (derivation.new.rec.lines ≡ derivation.old.rec.lines) }
    ensures others { OnOk result (derivation.new ≡ record derivation.old { rec = record derivation.old.rec { lines = derivation.new.rec.lines } }) }
{
    if !marks[number] {
        return Ok(());
    }
    let copy = copy_line(alloc, line)?;
    put_next(alloc, copy, number, marks, places, derivation)
}
