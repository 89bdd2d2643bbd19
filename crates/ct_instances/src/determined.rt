//! Whether the fields of a constructor determine its sort, and the text of a sort.
ghost use Rattle.std.specs.Prelude.{◌≡◌};
ghost use Rattle.ct_sorts.specs.Declarations.{IsSort, IsConstructor};
ghost use Rattle.ct_sorts.specs.SortText as texts;
ghost use Rattle.ct_instances.specs.Among.{origin_of};
ghost use Rattle.ct_instances.specs.Fields.{is_ctor_determined};

use ct_sorts::{CtorId, Signature, SortId};

/// Whether the sorts of its fields determine the sort of the constructor; so it is for each constructor of a sort without
/// arguments.
pub fn has_determined_sort(sig: &Signature, c: CtorId) -> bool
    requires declared { IsConstructor sig.now c }
    ensures value { result ≡ is_ctor_determined sig.now c }
{
    prove!(sig.sorts() > 0);
    sig.determined(c)
}

/// The text of a sort: its name, or the list of the generic's name and the arguments.
pub fn sort_text(sig: &Signature, s: SortId) -> &[u8]
    requires inside { IsSort sig.now s }
    ensures value { result.now ≡ texts.sort_text sig.now.declared.heads (origin_of sig.now s) }
{
    prove!(sig.sorts() > 0);
    sig.sort_text(s)
}
