//! What stays the same while a formula or the body of a definition is compiled: the scope, the notes on definitions, and how
//! much room is left for nested calls.
ghost use Rattle.std.specs.Prelude.{◌≡◌, ◌<◌, [], ◌∷◌, length, Some, slice_get, IfSome};
ghost use Rattle.std.specs.List.{AllByRecursion};
ghost use Rattle.ct_finite.specs.Counts.{AreCounts};
ghost use Rattle.ct_compile.specs.AtLevel.{declared_at};

use ct_finite::Finite;
use ct_occurrence::{Definitions, height_at};
use ct_scope::Scope;
use ct_sorts::DefId;
use std::alloc::Global;
use std::slice;

/// What a formula is compiled with.
#[derive(Clone, Copy)]
pub(crate) struct Level<'a> {
    /// The memory.
    pub(crate) alloc: Global,
    /// The declarations, and the bodies of definitions.
    pub(crate) scope: &'a Scope,
    /// What is worked out of definitions.
    pub(crate) definitions: &'a Definitions,
    /// The formula names definitions below this number alone.
    pub(crate) below: usize,
    /// The listable sorts alone, once they are known: from the first quantifier on, under it. Nothing before.
    pub(crate) finite: &'a [Finite],
    /// How deep formulas may still nest under this one, in the bodies of definitions that it calls.
    pub(crate) room: usize,
}

/// The room that is left under the body of this definition, if the call and the body fit into that of the level.
pub(crate) fn room_under(level: &Level<'_>, k: DefId) -> Option<usize> {
    level.room.checked_sub(height_at(level.definitions, k))
}

/// The listable sorts, where they are known.
pub(crate) fn known_finite<'a>(level: &Level<'a>) -> Option<&'a Finite>
    requires worked { AllByRecursion (λ finite. AreCounts (declared_at level.now) finite) level.now.finite.now }
    ensures counts { IfSome result (λ finite. AreCounts (declared_at level.now) finite.now) }
{
    match level.finite {
        [] => None,
        [_, ..] => Some(first_finite(level.finite)),
    }
}

// The first of these.
fn first_finite(known: &[Finite]) -> &Finite
    requires some { 0 < length known.now }
    ensures value { slice_get known.now 0 ≡ Some result.now }
{
    &known[0]
}

/// Listable sorts that are known.
pub(crate) fn one_finite(finite: &Finite) -> &[Finite]
    ensures value { result.now ≡ finite.now ∷ [] }
{
    slice::from_ref(finite)
}

/// No listable sorts are known.
pub(crate) fn no_finite<'a>() -> &'a [Finite]
    ensures value { result.now ≡ [] }
{
    &[]
}
