//! Compiles a formula with bounded stack depth: calls of definitions that are too deep are compiled first.
ghost use Rattle.std.specs.Prelude.{◌≡◌, suc, [], map, List, Some, IfOk, IsErrOf};
ghost use Rattle.indexmap.specs.IndexMap.{get};
ghost use Rattle.ct_terms.specs.CoreTree.{CoreTree};
ghost use Rattle.ct_formulas.specs.TreeFormula.{formula_of};
ghost use Rattle.ct_formulas.specs.Occurrence.{uses_below};
ghost use Rattle.ct_scope.specs.declared.stop.DeferredCall.{DeferredCall};
ghost use Rattle.ct_compile.specs.Attempts.{MakesFirst, closed_core, closed_making, IsWaiting, AreWaiting, IsLastKnown};
ghost use Rattle.ct_scope.specs.Calling.{same_call, call_of, IsState, IsUnknown};
ghost use Rattle.ct_scope.specs.Deferral.{ended, UnlessFailed, WhenTooDeep, IsCall, WaitsForCall};
ghost use Rattle.ct_operators.specs.Effect.{Stands, Within, Effect};
ghost use Rattle.ct_operators.specs.Made.{HasTrees, MakesInOrder};
ghost use Rattle.ct_scope.specs.Making.{makes_below};
ghost use Rattle.ct_occurrence.specs.Marks.{worked_in};
ghost use Rattle.ct_occurrence.specs.Noted.{IsOfFirst, IsNoted, HaveNotes};
ghost use Rattle.ct_scope.specs.Compilable.{compiled_calls, MayCompile, Compiles};
ghost use Rattle.ct_compile.specs.AtLevel.{AreWorkedAt, IsNotedAt, IsStateAt, MayCompileAt, bodies_at, declared_at, rows_at};

use crate::level::{Level, no_finite, room_under};
use crate::terms::compile_tree;
use ct_formulas::Tree;
use ct_occurrence::{Definitions, Notes, notes_at};
use ct_scope::{DeferredCall, Environment, Known, Scope, Stop, body_at, call_with, remember};
use ct_terms::{TermError, TermId, TermTable};
use std::alloc::Global;

/// How deep the bodies of calls under calls may nest under a formula, or in a call that is compiled first, with its own body:
/// this takes less than half of a stack of 8 MiB. A body that is deeper by itself is compiled first, with no room under it.
const CALL_ROOM: usize = 2_000;

/// The term of a closed formula.
pub(crate) fn compile_deferring(
    alloc: Global,
    scope: &Scope,
    definitions: &Definitions,
    known: &mut Known,
    table: &mut TermTable,
    below: usize,
    tree: &Tree,
    notes: &[Notes],
) -> Result<TermId, TermError>
    requires state { IsState scope.now.sig (map formula_of scope.now.bodies) below (worked_in definitions.now) table.old known.old }
    requires ready { MayCompile scope.now.sig (map formula_of scope.now.bodies) table.old below [] (formula_of tree.now) }
    requires noted { HaveNotes scope.now.sig (map formula_of scope.now.bodies) (worked_in definitions.now) × IsOfFirst (IsNoted scope.now.sig (worked_in definitions.now) (uses_below scope.now.sig (map formula_of scope.now.bodies) below) (formula_of tree.now)) notes.now }
    ensures outcome { Compiles scope.now.sig (map formula_of scope.now.bodies) below table.old table.new [] (formula_of tree.now) result }
{
    let level = Level {
        alloc,
        scope,
        definitions,
        below,
        finite: no_finite(),
        room: CALL_ROOM,
    };
    // The calls that are put off, each under the one before it.
    let mut calls = Vec::new(alloc);
    for _ in 0..u64::MAX {
        match attempt(&level, known, table, tree, notes, calls.as_slice()) {
            Ok(term) => {
                if calls.pop().is_none() {
                    return Ok(term);
                }
            }
            Err(Stop::Failed(error)) => return Err(error),
            Err(Stop::TooDeep(call)) => calls.push(call)?,
        }
    }
    // An attempt puts off a call that is not known (`unknown`) or puts down the call that it compiles (`recorded`), so that
    // this is never reached. That a call once known stays known while other formulas are compiled is said by no clause.
    Err(TermError::NoMemory)
}

// Compiles the last of the calls that are put off, or the formula where there is none.
fn attempt(
    level: &Level<'_>,
    known: &mut Known,
    table: &mut TermTable,
    tree: &Tree,
    notes: &[Notes],
    calls: &[DeferredCall],
) -> Result<TermId, Stop>
    requires state { IsStateAt level.now table.old known.old }
    requires ready { MayCompileAt level.now table.old [] (formula_of tree.now) }
    requires noted { IsNotedAt level.now (formula_of tree.now) notes.now }
    requires waiting { AreWaiting (declared_at level.now) (bodies_at level.now) (rows_at level.now) level.now.below (formula_of tree.now) table.old calls.now }
    ensures effect { (allowed : List CoreTree)
        → Within allowed (closed_core (declared_at level.now) (bodies_at level.now) level.now.below (formula_of tree.now))
        → Effect (declared_at level.now) allowed table.old table.new (IsErrOf (ended result) TermError.Full) }
    ensures makes { UnlessFailed result (MakesFirst table.old (closed_making (declared_at level.now) (bodies_at level.now) level.now.below (formula_of tree.now)) table.new) }
    ensures state { UnlessFailed result (IsStateAt level.now table.new known.new) }
    ensures waits { WhenTooDeep result (IsWaiting (declared_at level.now) (bodies_at level.now) (rows_at level.now) level.now.below (formula_of tree.now) table.new) }
    ensures all { calls.now ≡ [] → IfOk result (λ u. Stands table.new u (closed_core (declared_at level.now) (bodies_at level.now) level.now.below (formula_of tree.now))
        × HasTrees table.new (closed_making (declared_at level.now) (bodies_at level.now) level.now.below (formula_of tree.now))) }
    ensures unknown { WhenTooDeep result (λ call. IsUnknown known.new call) }
    ensures recorded { IfOk result (λ term. IsLastKnown known.new calls.now term) }
{
    match calls {
        [.., call] => compile_call_first(level, known, table, call),
        [] => {
            let mut outside = Environment::new(level.alloc);
            compile_tree(level, known, table, &mut outside, tree, notes)
        }
    }
}

// Compiles a call, and puts down its term.
fn compile_call_first(
    level: &Level<'_>,
    known: &mut Known,
    table: &mut TermTable,
    call: &DeferredCall,
) -> Result<TermId, Stop>
    requires state { IsState (declared_at level.now) (bodies_at level.now) call.now.definition.0 (rows_at level.now) table.old known.old }
    requires call { (trees : List CoreTree) × IsCall (declared_at level.now) (bodies_at level.now) (rows_at level.now) table.old call.now trees }
    requires noted { AreWorkedAt level.now }
    ensures effect { (trees : List CoreTree) (allowed : List CoreTree)
        → IsCall (declared_at level.now) (bodies_at level.now) (rows_at level.now) table.old call.now trees
        → Within allowed (compiled_calls (declared_at level.now) (bodies_at level.now) (suc call.now.definition.0) call.now.definition trees)
        → Effect (declared_at level.now) allowed table.old table.new (IsErrOf (ended result) TermError.Full) }
    ensures makes { (trees : List CoreTree)
        → IsCall (declared_at level.now) (bodies_at level.now) (rows_at level.now) table.old call.now trees
        → IfOk result (λ u. MakesInOrder table.old (makes_below (declared_at level.now) (bodies_at level.now) (suc call.now.definition.0) call.now.definition trees) table.new) }
    ensures waits { (trees : List CoreTree)
        → IsCall (declared_at level.now) (bodies_at level.now) (rows_at level.now) table.old call.now trees
        → WhenTooDeep result (WaitsForCall (declared_at level.now) (bodies_at level.now) (rows_at level.now) call.now.definition.0 table.old table.new
        (makes_below (declared_at level.now) (bodies_at level.now) (suc call.now.definition.0) call.now.definition trees)
        (λ allowed. Within allowed (compiled_calls (declared_at level.now) (bodies_at level.now) (suc call.now.definition.0) call.now.definition trees))) }
    ensures state { UnlessFailed result (IsState (declared_at level.now) (bodies_at level.now) call.now.definition.0 (rows_at level.now) table.new known.new) }
    ensures unknown { WhenTooDeep result (λ call. IsUnknown known.new call) }
    ensures recorded { IfOk result (λ term. get same_call known.new (call_of call.now.definition call.now.bounds) ≡ Some term) }
{
    let k = call.definition;
    let key = call_with(level.alloc, k, call.bounds.as_slice())?;
    let bounds = Vec::from_slice(level.alloc, call.bounds.as_slice())?;
    let mut inner = Environment::of(bounds);
    let inside = Level {
        alloc: level.alloc,
        scope: level.scope,
        definitions: level.definitions,
        below: k.0 as usize,
        finite: level.finite,
        room: room_under(level, k).unwrap_or(0),
    };
    let body = body_at(level.scope, k);
    let term = compile_tree(
        &inside,
        known,
        table,
        &mut inner,
        body,
        notes_at(level.definitions, k),
    )?;
    remember(known, key, term)?;
    Ok(term)
}
