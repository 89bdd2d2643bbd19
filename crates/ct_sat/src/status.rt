//! The status of a clause under the trail.
ghost use Rattle.std.specs.Prelude.{◌≡◌, ◌<◌, Some, All, MatchBool};
ghost use Rattle.ct_terms.specs.declared.ids.Lit.{Lit};
ghost use Rattle.ct_terms.specs.Propagation.{AreFalseIn};
ghost use Rattle.ct_sat.specs.Status.{IsStatus, Examined};

use crate::trail::Trail;
use crate::value::Value;
use ct_terms::Lit;

/// What follows from a clause.
#[derive(Clone, Copy, Debug, PartialEq, Eq)]
pub(crate) enum Status {
    /// Nothing: a literal is true, or two have no value.
    Settled,
    /// This literal, which has no value: the others are false.
    Forces(Lit),
    /// A contradiction: all its literals are false.
    False,
}

/// What follows from the clause.
pub(crate) fn status_of(trail: &Trail, clause: &[Lit]) -> Status
    requires within { All (λ l. l.term.0 < trail.now.room) clause.now }
    ensures status { IsStatus trail.now.literals clause.now result }
{
    let mut unit: Option<Lit> = None;
    for literal in clause {
        match trail.value(*literal) {
            Value::True => return Status::Settled,
            Value::False => {}
            Value::Unset => {
                if is_another(unit, *literal) {
                    return Status::Settled;
                }
                unit = Some(*literal);
            }
        }
    }
    match unit {
        None => Status::False,
        Some(l) => Status::Forces(l),
    }
}

// Whether there is one already, and it is another.
fn is_another(unit: Option<Lit>, l: Lit) -> bool
    ensures value { MatchBool result ((u : Lit) × (unit ≡ Some u) × (u ≡ l → ⊥)) ((u : Lit) → unit ≡ Some u → u ≡ l) }
{
    match unit {
        None => false,
        Some(u) => u != l,
    }
}

/// Puts the literal into the trail that the clause with this index forces. Whether the clause is false.
pub(crate) fn examine(trail: &mut Trail, clause: &[Lit], index: usize) -> bool
    requires within { All (λ l. l.term.0 < trail.old.room) clause.now }
    ensures examined { MatchBool result ((trail.new ≡ trail.old) × AreFalseIn trail.old.literals clause.now)
        (Examined trail.old trail.new clause.now index) }
{
    match status_of(trail, clause) {
        Status::Settled => false,
        Status::False => true,
        Status::Forces(l) => {
            trail.imply(l, index);
            false
        }
    }
}
