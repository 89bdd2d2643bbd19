//! A search in progress, with the derivation that justifies its clauses and, if it is recorded, its moves.
ghost use Rattle.std.specs.Prelude.{◌≡◌, ◌+◌, true, [], ◌∷◌, ◌++◌, length, OnOk, IsErrOf};
ghost use Rattle.ct_engine.specs.Keeping.{HasFirst};

use crate::error::SolveError;
use crate::guide::Guide;
use crate::verdict::Move;
use ct_log::Derivation;
use ct_sat::Search;

/// A search under way. Each of its clauses is that of the line of the derivation that has its number.
#[derive(Drop)]
pub(crate) struct Course {
    /// The search.
    pub(crate) search: Search,
    /// A line for each clause of the search.
    pub(crate) derivation: Derivation,
    /// Whether its moves are recorded: then the lowest variable without a value is decided, else one that the guide names.
    pub(crate) recorded: bool,
    /// What a recorded search did, in order.
    pub(crate) moves: Vec<Move>,
    /// What another one goes by.
    pub(crate) guide: Box<Guide>,
    /// How many lines of the derivation are initial ones.
    pub(crate) initial: usize,
    /// How many lines after these are those of clauses of a store.
    pub(crate) kept: usize,
    /// How many propositional variables the closure has.
    pub(crate) variables: u64,
}

/// Writes down a move, where moves are recorded.
pub(crate) fn note(recorded: bool, moves: &mut Vec<Move>, next: Move) -> Result<(), SolveError>
    ensures noted { OnOk result (recorded ≡ true → moves.new.items ≡ moves.old.items ++ next ∷ []) }
    ensures err { IsErrOf result SolveError.TooLarge → ⊥ }
{
    if recorded {
        moves.push(next)?;
    }
    Ok(())
}

/// How many lines the derivation has.
pub(crate) fn line_count(derivation: &Derivation) -> usize
    ensures value { result ≡ length derivation.now.rec.lines }
{
    derivation.rec().lines().len()
}

/// How many lines stand before those of the search: the initial ones and those of the store.
pub(crate) fn first_count(course: &Course) -> usize
    requires stand { HasFirst course.now }
    ensures value { result ≡ course.now.initial + course.now.kept }
{
    let _lines = line_count(&course.derivation);
    course.initial + course.kept
}

/// The number that the next line of the derivation will have.
pub(crate) fn next_number(derivation: &Derivation) -> u64
    ensures number { result ≡ length derivation.now.rec.lines + 1 }
{
    derivation.rec().lines().len() as u64 + 1
}
