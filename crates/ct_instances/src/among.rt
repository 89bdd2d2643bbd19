//! Constructors and fields among those of a sort.
ghost use Rattle.std.specs.Prelude.{◌≡◌, IfSome};
ghost use Rattle.ct_sorts.specs.Declarations.{IsSort, IsConstructor, IsSelector};
ghost use Rattle.ct_sorts.specs.Lookup.{IsSymbol};
ghost use Rattle.ct_sorts.specs.declared.ids.Symbol.TheVariants.{GenCtor, GenSel};
ghost use Rattle.ct_instances.specs.declared.among.NamedCtor.TheVariants.{Generic};
ghost use Rattle.ct_instances.specs.Among.{IsNamedCtor, ctor_among, field_among};

use ct_sorts::{CtorId, GenId, SelId, Signature, SortId, shapes};

/// A constructor as its name stands for it.
#[derive(Clone, Copy, Debug, PartialEq, Eq)]
pub enum NamedCtor {
    /// The constructor of a sort declared without parameters, or of Bool.
    Plain(CtorId),
    /// The constructor of a generic with this index.
    Generic(GenId, u32),
}

/// The constructor as one of the sort: itself, or that of an instance of its generic; none if it belongs to another
/// sort.
pub fn ctor_among(sig: &Signature, ctor: NamedCtor, sort: SortId) -> Option<CtorId>
    requires ctor { IsNamedCtor sig.now ctor }
    requires sort { IsSort sig.now sort }
    ensures value { result ≡ ctor_among sig.now ctor sort }
    ensures inside { IfSome result (IsConstructor sig.now) }
{
    match ctor {
        NamedCtor::Plain(c) => {
            if sig.ctor_sort(c) != sort {
                return None;
            }
            Some(c)
        }
        NamedCtor::Generic(g, index) => instance_ctor(sig, g, index, sort),
    }
}

// The constructor of an instance of the generic, by its index.
fn instance_ctor(sig: &Signature, g: GenId, index: u32, sort: SortId) -> Option<CtorId>
    requires ctor { IsSymbol sig.now (GenCtor g index) }
    requires sort { IsSort sig.now sort }
    ensures value { result ≡ ctor_among sig.now (Generic g index) sort }
    ensures inside { IfSome result (IsConstructor sig.now) }
{
    shapes();
    prove!(sig.sorts() > 0);
    if sig.sort_head(sort) != g {
        return None;
    }
    Some(sig.ctors(sort)[index as usize])
}

/// The field of an instance, by the indices of its constructor and of the field in it; none if the sort is not an
/// instance of the generic.
pub fn field_among(sig: &Signature, g: GenId, index: u32, place: u32, sort: SortId) -> Option<SelId>
    requires field { IsSymbol sig.now (GenSel g index place) }
    requires sort { IsSort sig.now sort }
    ensures value { result ≡ field_among sig.now g index place sort }
    ensures inside { IfSome result (IsSelector sig.now) }
{
    shapes();
    prove!(sig.sorts() > 0);
    let c = instance_ctor(sig, g, index, sort)?;
    Some(sig.ctor_sels(c)[place as usize])
}
