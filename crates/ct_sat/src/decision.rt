//! The result of a decision, and the variable that is decided next.
ghost use Rattle.std.specs.Prelude.{◌≡◌, ◌<◌, take, All, Contains, MatchOption};
ghost use Rattle.ct_terms.specs.declared.ids.TermId.{TermId};
ghost use Rattle.ct_sat.specs.Up.{IsAssigned, IsLowest};
ghost use Rattle.ct_sat.specs.State.{AreIncreasing};

use crate::trail::Trail;
use ct_terms::{Lit, TermId};

/// What a decision answers.
#[derive(Clone, Copy, Debug, PartialEq, Eq)]
pub enum Decision {
    /// The literal that was decided.
    Took(Lit),
    /// Every variable has a value.
    All,
    /// Some variable has none, and the budget of decisions is spent.
    Spent,
}

/// The lowest variable without a value, given that those before the cursor have one. The cursor is moved to it.
pub(crate) fn lowest(trail: &Trail, variables: &[TermId], cursor: &mut usize) -> Option<TermId>
    requires within { All (λ t. t.0 < trail.now.room) variables.now }
    requires increasing { AreIncreasing variables.now }
    requires before { All (IsAssigned (Contains trail.now.literals)) (take cursor.old variables.now) }
    ensures before { All (IsAssigned (Contains trail.now.literals)) (take cursor.new variables.now) }
    ensures lowest { MatchOption result (All (IsAssigned (Contains trail.now.literals)) variables.now)
        (IsLowest variables.now (Contains trail.now.literals)) }
{
    'variables: while *cursor < variables.len() {
        let variable = variables[*cursor];
        if trail.index(variable).is_none() {
            return Some(variable);
        }
        *cursor += 1;
    }
    None
}
