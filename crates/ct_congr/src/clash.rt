//! Remembers the clash that was found last, so that no other one has to be looked for. It is a hint: it is tested before it is
//! returned.
ghost use Rattle.std.specs.Prelude.{◌≡◌, length, IfSome};
ghost use Rattle.ct_congr.specs.State.{IsClashOf};

use crate::merge::Closed;
use crate::needed::are_equal;
use crate::pairing::same_constructor;
use ct_terms::{Core, TermId, TermTable};

/// Notes the two terms, if the answer is a clash.
pub(crate) fn note(clash: &mut Option<(TermId, TermId)>, answer: Closed) {
    if let Closed::Clash(a, b) = answer {
        *clash = Some((a, b));
    }
}

/// The two terms, if they are of one class and of different constructors.
pub(crate) fn standing(
    table: &TermTable,
    reps: &[TermId],
    clash: Option<(TermId, TermId)>,
) -> Option<(TermId, TermId)>
    requires long { length reps.now ≡ length table.now }
    ensures clash { IfSome result (λ pair. IsClashOf table.now reps.now pair.0 pair.1) }
{
    let (a, b) = clash?;
    if a.0 >= table.len() || b.0 >= table.len() || !are_equal(reps, a, b) {
        return None;
    }
    let Core::Con(c, _) = table.core(a) else {
        return None;
    };
    let Core::Con(k, _) = table.core(b) else {
        return None;
    };
    if same_constructor(*c, *k) {
        return None;
    }
    Some((a, b))
}
