//! Marks of classes: sets one when no rule applies, and goes back to one.
ghost use Rattle.std.specs.Prelude.{◌≡◌, ◌<◌, ◌≤◌, ◌++◌, ◌∷◌, ◌+◌, true, [], ℕ, Bool, List, length, IfOk, OnOk, OnErr, Some, slice_get};
ghost use Rattle.ct_sorts.specs.Declarations.{Declarations};
ghost use Rattle.ct_terms.specs.declared.ids.TermId.{TermId};
ghost use Rattle.ct_terms.specs.declared.term.Core.{Core};
ghost use Rattle.ct_terms.specs.Terms.{Terms, Has};
ghost use Rattle.ct_equivalence.specs.Over.{AreLone, AreGroupingsOf};
ghost use Rattle.ct_equivalence.specs.Digests.{AreDigests};
ghost use Rattle.ct_congr.specs.declared.level.Level.{Level};
ghost use Rattle.ct_congr.specs.Joined.{AreJoined, WaitsOn};
ghost use Rattle.ct_congr.specs.Covered.{Keys, AreKeys, IsMet};
ghost use Rattle.ct_congr.specs.Held.{AreHeld};
ghost use Rattle.ct_congr.specs.Kept.{IsKept};
ghost use Rattle.ct_congr.specs.Marks.{marks_of, AreQuiet, AreRising, AreMarked, IsFirstLevel, IsUndone, IsBack};

use crate::adding::Progress;
use crate::error::CongrError;
use crate::level::{Level, Levels};
use crate::meeting::meet;
use crate::merge::{ClassMark, Merge};
use ct_equivalence::{DigestTable, Equivalence};
use ct_rules::Equation;
use ct_terms::{Lit, TermId, TermTable};
use std::collections::VecDeque;

/// Marks classes to which no rule applies, so that they can go back to this. Nothing waits then, and the
/// rules are covered. An error changes neither classes nor marks.
pub(crate) fn set_mark(
    table: &TermTable,
    progress: &mut Progress,
    hyps: &[Lit],
    given: &[Equation],
    levels: &mut Levels,
) -> Result<ClassMark, CongrError>
    requires groupings { AreGroupingsOf table.now progress.old.store.parts }
    requires keys { AreKeys progress.old.store.parts.now.reps progress.old.keys }
    ensures store { progress.new.store ≡ progress.old.store }
    ensures kept { (d : Declarations)
        → AreQuiet d table.now progress.old.store.parts.now.reps
        → IsKept d table.now progress.old.store.parts progress.old.keys progress.old.waiting.items progress.old.covered
        → IsKept d table.now progress.new.store.parts progress.new.keys progress.new.waiting.items progress.new.covered }
    ensures marked { (d : Declarations) (single : List Bool)
        → AreQuiet d table.now progress.old.store.parts.now.reps
        → IsKept d table.now progress.old.store.parts progress.old.keys progress.old.waiting.items progress.old.covered
        → AreHeld d table.now single hyps.now given.now progress.old.store.parts.now.reps progress.old.store.parts.now.cons progress.old.store.merges.items
        → AreMarked d table.now single hyps.now given.now progress.old.store.merges.items progress.old.keys progress.old.store.parts levels.old
        → AreMarked d table.now single hyps.now given.now progress.new.store.merges.items progress.new.keys progress.new.store.parts levels.new }
    ensures mark { IfOk result (λ mark. mark.merges ≡ length progress.old.store.merges.items) }
    ensures marks { OnOk result (length progress.old.store.parts.past ≡ length progress.old.store.merges.items
        → marks_of hyps.now given.now progress.old.store.merges.items progress.old.store.parts levels.new
        ≡ marks_of hyps.now given.now progress.old.store.merges.items progress.old.store.parts levels.old
        ++ (record { hypotheses = hyps.now; given = given.now; merges = progress.old.store.merges.items; reps = progress.old.store.parts.now.reps; cons = progress.old.store.parts.now.cons }) ∷ []) }
    ensures unchanged { OnErr result (levels.new ≡ levels.old) }
{
    cover(table, progress)?;
    let mark = levels.push(Level {
        merges: progress.store.merges.len(),
        hypotheses: hyps.len(),
        given: given.len(),
        keys: progress.keys.len(),
    })?;
    Ok(mark)
}

// Lets go what waits, where no rule applies. Where the rules may not be covered, it meets all terms.
fn cover(table: &TermTable, progress: &mut Progress) -> Result<(), CongrError>
    requires groupings { AreGroupingsOf table.now progress.old.store.parts }
    requires keys { AreKeys progress.old.store.parts.now.reps progress.old.keys }
    ensures store { progress.new.store ≡ progress.old.store }
    ensures more { (more : Keys) × (progress.new.keys ≡ progress.old.keys ++ more) }
    ensures kept { (d : Declarations)
        → AreQuiet d table.now progress.old.store.parts.now.reps
        → IsKept d table.now progress.old.store.parts progress.old.keys progress.old.waiting.items progress.old.covered
        → IsKept d table.now progress.new.store.parts progress.new.keys progress.new.waiting.items progress.new.covered }
    ensures fast { OnOk result (progress.new.covered ≡ true) }
    ensures empty { OnOk result (progress.new.waiting.items ≡ []) }
{
    progress.waiting.clear();
    if progress.covered {
        return Ok(());
    }
    let reps = progress.store.parts.reps();
    let lone = progress.store.parts.lone();
    let digests = progress.store.parts.digests();
    meet_all(
        table,
        reps,
        lone,
        digests,
        &mut progress.keys,
        &mut progress.waiting,
    )?;
    progress.waiting.clear();
    progress.covered = true;
    Ok(())
}

// Meets all terms.
fn meet_all(
    table: &TermTable,
    reps: &[TermId],
    lone: &[bool],
    digests: &[u64],
    keys: &mut DigestTable,
    waiting: &mut VecDeque<Merge>,
) -> Result<(), CongrError>
    requires long { length reps.now ≡ length table.now }
    requires own { (x r : TermId) → slice_get reps.now x.0 ≡ Some r → slice_get reps.now r.0 ≡ Some r }
    requires lone { AreLone table.now lone.now }
    requires digests { AreDigests table.now reps.now digests.now }
    requires keys { AreKeys reps.now keys.old }
    ensures more { (more : Keys) × (keys.new ≡ keys.old ++ more) }
    ensures keys { AreKeys reps.now keys.new }
    ensures waits { OnOk result ((d : Declarations) → WaitsOn d table.now reps.now waiting.old.items waiting.new.items) }
    ensures met { OnOk result ((t : TermId) (core : Core) → Has table.now core t.0 → IsMet table.now reps.now keys.new (AreJoined reps.now waiting.new.items) t core) }
{
    for t in 0..table.len() {
        meet(table, reps, lone, digests, TermId(t), keys, waiting)?;
    }
    Ok(())
}

/// Goes back to the first mark that was set after so many merges, and drops the marks after it. It takes no
/// memory.
pub(crate) fn go_back(
    progress: &mut Progress,
    hyps: &mut Vec<Lit>,
    given: &mut Vec<Equation>,
    levels: &mut Levels,
    merges: u64,
)
    requires rising { AreRising levels.old }
    requires few { (k : ℕ) (level : Level) → slice_get levels.old k ≡ Some level → level.merges ≤ length progress.old.store.parts.past }
    requires kept { (k : ℕ) × (level : Level) × (slice_get levels.old k ≡ Some level) × (level.merges ≡ merges) }
    ensures back { (k : ℕ) × (level : Level)
        × IsFirstLevel levels.old merges k level
        × IsBack hyps.old.items hyps.new.items given.old.items given.new.items progress.old.store.merges.items progress.new.store.merges.items progress.old.keys progress.new.keys progress.old.store.parts progress.new.store.parts levels.old levels.new k level }
    ensures of { (terms : Terms) → AreGroupingsOf terms progress.old.store.parts → AreGroupingsOf terms progress.new.store.parts }
    ensures empty { progress.new.waiting.items ≡ [] }
    ensures fast { progress.new.covered ≡ true }
{
    let index = first_level(levels.as_slice(), merges);
    let level = levels.as_slice()[index];
    levels.cut(index + 1);
    hyps.truncate(level.hypotheses);
    given.truncate(level.given);
    progress.keys.cut(level.keys);
    undo(&mut progress.store.parts, level.merges);
    progress.store.merges.truncate(level.merges);
    progress.waiting.clear();
    progress.covered = true;
}

// The number of the first level after so many merges. Goes over those after it and no others.
fn first_level(levels: &[Level], merges: u64) -> usize
    requires rising { AreRising levels.now }
    requires kept { (k : ℕ) × (level : Level) × (slice_get levels.now k ≡ Some level) × (level.merges ≡ merges) }
    ensures first { (level : Level) × IsFirstLevel levels.now merges result level }
{
    let mut index = levels.len();
    while index > 0 {
        let before = index - 1;
        if (levels[before].merges as u64) < merges {
            return index;
        }
        index = before;
    }
    index
}

// Takes back the last unions, until so many are left.
fn undo(parts: &mut Equivalence, unions: usize)
    requires fits { unions ≤ length parts.old.past }
    ensures undone { IsUndone parts.old parts.new unions }
    ensures of { (terms : Terms) → AreGroupingsOf terms parts.old → AreGroupingsOf terms parts.new }
{
    while parts.unions() > unions {
        parts.back();
    }
}
