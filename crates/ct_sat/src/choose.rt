//! Chooses the literals of a clause that are watched.
ghost use Rattle.std.specs.Prelude.{◌≡◌, ◌<◌, ◌⊎◌, All, Contains, MatchBool, MatchOption};
ghost use Rattle.ct_terms.specs.Propagation.{IsFalseIn};
ghost use Rattle.ct_sat.specs.Watching.{IsReplacement};

use crate::trail::Trail;
use crate::value::Value;
use ct_terms::Lit;

/// A literal of the clause that is not false and not this one; none where every other one is false.
pub(crate) fn replacement(trail: &Trail, clause: &[Lit], except: Lit) -> Option<Lit>
    requires within { All (λ l. l.term.0 < trail.now.room) clause.now }
    ensures found { MatchOption result (All (λ k. (k ≡ except) ⊎ IsFalseIn trail.now.literals k) clause.now)
        (IsReplacement trail.now.literals clause.now except) }
{
    for literal in clause {
        if is_replacement(trail, *literal, except) {
            return Some(*literal);
        }
    }
    None
}

/// Whether both are one literal.
pub(crate) fn is_one(a: Lit, b: Lit) -> bool
    ensures value { MatchBool result (a ≡ b) (a ≡ b → ⊥) }
{
    a == b
}

// Whether the literal is not false and not the other one.
fn is_replacement(trail: &Trail, l: Lit, except: Lit) -> bool
    requires within { l.term.0 < trail.now.room }
    ensures value { MatchBool result ((l ≡ except → ⊥) × (IsFalseIn trail.now.literals l → ⊥))
        ((l ≡ except) ⊎ IsFalseIn trail.now.literals l) }
{
    if is_one(l, except) {
        return false;
    }
    match trail.value(l) {
        Value::True => true,
        Value::False => false,
        Value::Unset => true,
    }
}

/// Of the clause's literals but one the one that has its value since last, given one of them.
pub(crate) fn latest(trail: &Trail, clause: &[Lit], except: Lit, first: Lit) -> Lit
    requires within { All (λ l. l.term.0 < trail.now.room) clause.now }
    requires first { Contains clause.now first × (first ≡ except → ⊥) }
    ensures latest { Contains clause.now result × (result ≡ except → ⊥) }
{
    let mut latest = first;
    let mut highest = 0;
    for literal in clause {
        let place = place_of(trail, *literal);
        if place > highest && *literal != except {
            latest = *literal;
            highest = place;
        }
    }
    latest
}

// Where the literal's variable stands in the trail; 0 where it has no value.
fn place_of(trail: &Trail, l: Lit) -> usize
    requires within { l.term.0 < trail.now.room }
{
    match trail.index(l.term) {
        Some(index) => index,
        None => 0,
    }
}

/// A literal of the clause that is not this one; none where there is no other.
pub(crate) fn another(clause: &[Lit], except: Lit) -> Option<Lit>
    ensures found { MatchOption result (All (λ k. k ≡ except) clause.now) (λ k. Contains clause.now k × (k ≡ except → ⊥)) }
{
    for literal in clause {
        if *literal != except {
            return Some(*literal);
        }
    }
    None
}
