//! Kinds of sorts, and of sorts and generics as they are declared.
ghost use Rattle.std.specs.Prelude.{◌≡◌};
ghost use Rattle.ct_sorts.specs.Kinds.{kind_of, head_kind};

use crate::ids::Kind;

/// The kind of the sorts that a sort or generic of this kind gives.
pub(crate) fn kind_of(kind: ct_generics::Kind) -> Kind
    ensures value { result ≡ kind_of kind }
{
    match kind {
        ct_generics::Kind::Bool => Kind::Bool,
        ct_generics::Kind::Free => Kind::Free,
        ct_generics::Kind::Data => Kind::Data,
        ct_generics::Kind::Codata => Kind::Codata,
    }
}

/// The kind of the sort or generic of which sorts of this kind are.
pub(crate) fn head_kind(kind: Kind) -> ct_generics::Kind
    ensures value { result ≡ head_kind kind }
{
    match kind {
        Kind::Bool => ct_generics::Kind::Bool,
        Kind::Free => ct_generics::Kind::Free,
        Kind::Data => ct_generics::Kind::Data,
        Kind::Codata => ct_generics::Kind::Codata,
    }
}
