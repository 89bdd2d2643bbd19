//! What a guided search does differently from a recorded one: which literal it decides, and when it undoes all decisions.
ghost use Rattle.std.specs.Prelude.{◌≡◌, false, Contains, IfSome, MatchBool};
ghost use Rattle.ct_sorts.specs.Grown.{Begins};
ghost use Rattle.ct_sat.specs.Up.{IsAssigned};
ghost use Rattle.ct_engine.specs.Progress.{IsUnderWay, IsOfOneTask, TakesBack};

use crate::course::Course;
use crate::guide::Guide;
use ct_sat::Search;
use ct_terms::{Lit, TermId};

/// The literal that the guide names next of those whose variable has no value.
pub(crate) fn candidate(search: &Search, guide: &mut Guide) -> Option<Lit>
    ensures free { IfSome result (λ l. Contains search.now.variables l.term × (IsAssigned (Contains search.now.trail) l.term → ⊥)) }
{
    for _ in 0..search.variables().len() {
        match guide.next() {
            None => return None,
            Some(place) => match free_variable(search, place as usize) {
                None => {}
                Some(term) => {
                    return Some(Lit {
                        term,
                        positive: guide.phase(place),
                    });
                }
            },
        }
    }
    None
}

// The variable at this place, if it has no value.
fn free_variable(search: &Search, place: usize) -> Option<TermId>
    ensures free { IfSome result (λ t. Contains search.now.variables t × (IsAssigned (Contains search.now.trail) t → ⊥)) }
{
    search.unset_variable(place)
}

/// Takes back all decisions of a guided search, where it is time. Whether it did.
#[tactic(auto, using(crate::proofs::TaskLemmas::own_task, crate::proofs::TurnLemmas::begins_itself))]
pub(crate) fn begin_anew(course: &mut Course) -> bool
    requires under_way { IsUnderWay course.old }
    ensures same { IsOfOneTask course.old course.new }
    ensures trail { Begins course.new.search.trail course.old.search.trail }
    ensures anew { MatchBool result (IsUnderWay course.new × TakesBack course.old.search course.new.search) (course.new ≡ course.old) }
{
    if course.recorded {
        return false;
    }
    if !course.guide.is_restart_due() {
        return false;
    }
    take_back(course)
}

// Takes back all decisions of a guided search. Whether there were any.
fn take_back(course: &mut Course) -> bool
    requires under_way { IsUnderWay course.old }
    requires guided { course.old.recorded ≡ false }
    ensures same { IsOfOneTask course.old course.new }
    ensures trail { Begins course.new.search.trail course.old.search.trail }
    ensures anew { MatchBool result (IsUnderWay course.new × TakesBack course.old.search course.new.search) (course.new ≡ course.old) }
{
    if course.search.restart() {
        course.guide.note_restart();
        course.guide.go_back(0, course.search.trail().len());
        return true;
    }
    false
}
