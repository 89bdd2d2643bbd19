//! Facts from the crates below, as one theorem.
ghost use Rattle.ct_sorts.specs.Facts.{Facts};

use ct_generics::{additions, denotations, expressions, instances};
use ct_sexpr::written_texts;

/// What crates below say of sort expressions, of what is stored of them, and of texts. It does nothing: a proof that needs
/// this calls it.
pub(crate) fn facts()
    ensures all { Facts }
{
    denotations();
    additions();
    expressions();
    instances();
    written_texts();
}
