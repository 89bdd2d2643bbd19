//! The theorem on bases, for whoever keeps one. It is the contract of a function that does nothing.
ghost use Rattle.ct_sorts.specs.Declarations.{Declarations};
ghost use Rattle.ct_sorts.specs.Grown.{Extends};
ghost use Rattle.ct_base.specs.Base.{IsBase};
ghost use Rattle.ct_base.specs.declared.base.Base.{Base};

use ct_sorts::growth;
use ct_terms::one_lasting_sort;

/// The theorem on bases of declarations that grow. It does nothing: a proof that needs it calls it.
pub fn lasting_bases()
    // A base of declarations is one of later declarations.
    ensures later { (d later : Declarations) (base : Base) → Extends later d → IsBase d base → IsBase later base }
{
    growth();
    one_lasting_sort();
}
