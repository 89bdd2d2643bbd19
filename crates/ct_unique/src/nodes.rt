//! The classes as points: the term that represents a class, and the constructor term that belongs to it.
ghost use Rattle.std.specs.Prelude.{◌≡◌, ◌<◌, ℕ, length, Some, IfSome, IfNone};
ghost use Rattle.ct_unique.specs.Nodes.{IsOwnCon, IsBare, term};

use ct_congr::Classes;
use ct_terms::TermId;

/// The constructor term that is stored for the class that the term represents.
pub(crate) fn own_con(classes: &Classes, t: TermId) -> Option<TermId>
    requires inside { t.0 < length classes.now.terms }
    ensures found { IfSome result (λ con. IsOwnCon classes.now t con) }
    ensures none { IfNone result (IsBare classes.now t.0) }
{
    if classes.rep(t) == t {
        return classes.con_of(t);
    }
    None
}

/// The term with this number.
pub(crate) fn term(classes: &Classes, number: usize) -> TermId
    requires inside { number < length classes.now.terms }
    ensures value { result ≡ term number }
{
    prove!(number < classes.table().len() as usize);
    TermId(number as u32)
}
