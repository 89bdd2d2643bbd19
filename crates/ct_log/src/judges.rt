//! What lines are judged over, for clauses only.
ghost use Rattle.std.specs.Prelude.{◌≡◌};
ghost use Rattle.std.specs.Borrow.{ftrue};
ghost use Rattle.std.specs.Coded.{codes};
ghost use Rattle.ct_sorts.specs.Declarations.{Declarations};
ghost use Rattle.ct_sorts.specs.ExpressionCode.{coded_expression};
ghost use Rattle.ct_card.specs.Sizes.{Table};

use ct_card::Sizes;
use ct_sorts::Signature;
use std::marker::Model;

/// The declarations and the sizes that lines are judged over. It takes no memory, since no code reads them.
#[derive(Drop)]
pub(crate) struct Judges {
    pub ghost declarations: { Declarations } by { Prim.hlevel (codes, coded_expression) },
    pub ghost sizes: { Table },
}

impl Model for Judges {
    ghost also_owns = { λ _. ftrue };
}

impl Judges {
    /// Those of a signature and its sizes.
    pub(crate) fn of(sig: &Signature, sizes: &Sizes) -> Judges
        ensures over { (result.declarations ≡ sig.now) × (result.sizes ≡ sizes.now) }
    {
        Judges {}
    }
}
