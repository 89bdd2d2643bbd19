//! What a term is, without the terms under it.
ghost use Rattle.std.specs.Prelude.{◌≡◌};
ghost use Rattle.ct_terms.specs.Children.{core_head};
ghost use Rattle.ct_log.specs.Look.{stored_head};

use ct_sorts::{CtorId, FunId, SelId};
use ct_terms::Core;

/// The head of a term.
#[derive(Clone, Copy, Debug, PartialEq, Eq)]
pub(crate) enum Head {
    Con(CtorId),
    Sel(SelId),
    Test(CtorId),
    Apply(FunId),
    Eq,
    Not,
    And,
    Or,
    Iff,
    Ite,
}

/// The head of the term.
pub(crate) fn head_of(core: &Core) -> Head
    ensures value { result ≡ stored_head (core_head core.now) }
{
    match core {
        Core::Con(c, _) => Head::Con(*c),
        Core::Sel(s, _) => Head::Sel(*s),
        Core::Test(c, _) => Head::Test(*c),
        Core::Apply(f, _) => Head::Apply(*f),
        Core::Eq(_, _) => Head::Eq,
        Core::Not(_) => Head::Not,
        Core::And(_) => Head::And,
        Core::Or(_) => Head::Or,
        Core::Iff(_, _) => Head::Iff,
        Core::Ite(_, _, _) => Head::Ite,
    }
}
