//! Where the levels of the assertion stack began, and what is removed with a level.
ghost use Rattle.std.specs.Prelude.{◌≡◌, ◌↔◌, ◌+◌, ◌-◌, ◌<◌, ◌≤◌, vec_len, vec_capacity, [], ◌++◌, length, slice_get, take, reverse, replicate, Some, IsTrue, OnOk, OnErr};
ghost use Rattle.ct_sorts.specs.Marks.{CanCut, cut};
ghost use Rattle.ct_stack.specs.Levels.{IsBeside};
ghost use Rattle.ct_stack.specs.Numbers.{most_levels};
ghost use Rattle.ct_stack.specs.Whole.{mark_of};

use ct_check::Scope;
use ct_command::CommandError;
use ct_formulas::Tree;
use ct_sorts::{Items, Mark};
use std::alloc::Global;

/// The most levels within the outermost one.
const MOST_LEVELS: u128 = 10_000;

/// How much was there where a level began.
#[derive(Clone, Copy, Debug, Drop)]
pub(crate) struct LevelMark {
    /// How much was declared.
    pub(crate) declared: Mark,
    /// How many assertions were in force, of all levels.
    pub(crate) asserts: usize,
    /// How many core terms there were.
    pub(crate) terms: u32,
}

/// Whether there may be so many levels more than these.
pub(crate) fn has_room(levels: usize, more: u128) -> bool
    ensures room { IsTrue result ↔ (levels + more ≤ most_levels) }
{
    more <= MOST_LEVELS && levels as u128 <= MOST_LEVELS - more
}

/// Puts the same mark at the end so many times, where there is room.
pub(crate) fn put_marks(
    levels: &mut Vec<LevelMark>,
    declared: &Mark,
    asserts: usize,
    terms: u32,
    count: usize,
)
    requires room { vec_len levels.old + count ≤ vec_capacity levels.old }
    ensures put { reverse levels.new.items ≡ replicate count (mark_of declared.now asserts terms) ++ reverse levels.old.items }
{
    for _ in 0..count {
        let mark = LevelMark {
            declared: *declared,
            asserts,
            terms,
        };
        levels.push(mark).unwrap();
    }
}

/// How much was declared where the last of so many levels began, counted from the end.
pub(crate) fn mark_before(levels: &[LevelMark], n: usize) -> Mark
    requires some { 1 ≤ n }
    requires within { n ≤ length levels.now }
    ensures mark { (m : LevelMark) × (slice_get levels.now (length levels.now - n) ≡ Some m) × (result ≡ m.declared) }
{
    levels[levels.len() - n].declared
}

/// Takes back what was declared and defined after the mark. Takes no memory.
pub(crate) fn cut_scope(alloc: Global, scope: &mut Scope, mark: &Mark)
    requires can_cut { CanCut scope.old.sig mark.now }
    ensures sig { scope.new.sig ≡ cut scope.old.sig mark.now }
    ensures bodies { scope.new.bodies ≡ take mark.now.definitions scope.old.bodies }
{
    scope.sig.cut_to(mark);
    let kept = mark.defs() as usize;
    let mut all = std::mem::replace(&mut scope.bodies, Items::new(Vec::new(alloc))).into_vec();
    all.truncate(kept);
    scope.bodies = Items::new(all);
}

/// Takes back what was declared and defined for a command, where it was refused.
pub(crate) fn scope_or_back<T>(
    alloc: Global,
    scope: &mut Scope,
    before: &Mark,
    done: Result<T, CommandError>,
) -> Result<T, CommandError>
    requires can_cut { OnErr done (CanCut scope.old.sig before.now) }
    ensures same { result ≡ done }
    ensures ok { OnOk done ((scope.new.sig ≡ scope.old.sig) × (scope.new.bodies ≡ scope.old.bodies)) }
    ensures back { OnErr done ((scope.new.sig ≡ cut scope.old.sig before.now) × (scope.new.bodies ≡ take before.now.definitions scope.old.bodies)) }
{
    if done.is_err() {
        cut_scope(alloc, scope, before);
    }
    done
}

/// Whether there is no level and no assertion, and as much is declared as at the first mark.
pub(crate) fn is_start(
    levels: &[LevelMark],
    asserts: &[Tree],
    declared: &Mark,
    first: &Mark,
) -> bool
    requires declared { IsBeside declared.now }
    requires first { IsBeside first.now }
    ensures start { IsTrue result ↔ ((levels.now ≡ []) × (asserts.now ≡ []) × (declared.now ≡ first.now)) }
{
    levels.is_empty() && asserts.is_empty() && is_same(declared, first)
}

// Whether the marks are the same.
fn is_same(mark: &Mark, other: &Mark) -> bool
    requires mark { IsBeside mark.now }
    requires other { IsBeside other.now }
    ensures same { IsTrue result ↔ (mark.now ≡ other.now) }
{
    mark.sorts() == other.sorts()
        && mark.ctors() == other.ctors()
        && mark.sels() == other.sels()
        && mark.funs() == other.funs()
        && mark.defs() == other.defs()
        && mark.heads() == other.heads()
        && mark.synonyms() == other.synonyms()
        && mark.symbols() == other.symbols()
}
