//! Lines of the theory: equations that contradict each other follow from the opposites of the clause's literals.
ghost use Rattle.std.specs.Prelude.{◌≡◌, ◌↔◌, ◌≤◌, length, IsTrue, vec_capacity};
ghost use Rattle.ct_card.specs.Sizes.{AreSizes};
ghost use Rattle.ct_terms.specs.Clause.{Clause, opposites};
ghost use Rattle.ct_log.specs.Acceptance.{IsRefuted};
ghost use Rattle.ct_log.specs.Marks.{AreMarked};
ghost use Rattle.ct_log.specs.Steps.{Given};

use crate::closing::closes;
use crate::marks::Marks;
use crate::rules::{Close, EqStep};
use crate::steps::step_equation;
use ct_card::Sizes;
use ct_rules::Equation;
use ct_sorts::Signature;
use ct_terms::TermTable;

/// Whether the steps give equations that contradict each other by the closing rule. The opposites of the clause's literals
/// are marked; the equations are put into the list, which has room for one a step.
pub(crate) fn is_refuted(
    sig: &Signature,
    sizes: &Sizes,
    table: &TermTable,
    marks: &Marks,
    steps: &[EqStep],
    close: &Close,
    given: &mut Vec<Equation>,
) -> bool
    requires sizes { AreSizes sig.now sizes.now }
    requires room { length steps.now ≤ vec_capacity given.old }
    ensures refuted { (clause : Clause) → AreMarked marks.now (opposites clause)
        → IsTrue result ↔ IsRefuted sig.now table.now clause steps.now close.now }
    ensures room { vec_capacity given.new ≡ vec_capacity given.old }
{
    if !give_all(sig, sizes, table, marks, steps, given) {
        return false;
    }
    closes(sig, table, given.as_slice(), close)
}

// Puts the equations that the steps give into the list. Whether each gives one.
fn give_all(
    sig: &Signature,
    sizes: &Sizes,
    table: &TermTable,
    marks: &Marks,
    steps: &[EqStep],
    given: &mut Vec<Equation>,
) -> bool
    requires sizes { AreSizes sig.now sizes.now }
    requires room { length steps.now ≤ vec_capacity given.old }
    ensures given { (clause : Clause) → AreMarked marks.now (opposites clause)
        → Given sig.now table.now clause steps.now given.new.items result }
    ensures room { vec_capacity given.new ≡ vec_capacity given.old }
{
    given.truncate(0);
    for step in steps {
        match step_equation(sig, sizes, table, marks, given.as_slice(), step) {
            None => return false,
            Some(e) => given.push_reserved(e),
        }
    }
    true
}
