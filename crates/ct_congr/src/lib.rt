//! Congruence closure under the rules of datatypes and codatatypes.
//!
//! Design choices:
//!
//! **Classes are closed even after a clash.** `close` applies all rules until none applies, even if terms of two constructors
//! have met, so what derives is characterised in both cases. A caller that needs only the answer calls `close_or_clash`, which
//! stops at the clash.
//!
//! **Pending merges cover the rules.** Whatever a rule gives is in one class already, or will be after the pending merges
//! (`IsCovered`). So when nothing is pending, no rule applies. A union looks only at the terms directly above the class that
//! moved, and at those that got a constructor term or became `true`. After a clash or an error this no longer holds, and
//! `close` goes in rounds over all terms until the classes go back to a mark. The two terms of the clash are noted, even if
//! they met while a hypothesis was merged: if they are still in one class, `close_or_clash` returns them at once. The note is a
//! hint in no invariant, and is tested before it is returned.
//!
//! **Terms by digests.** Two terms are alike if they have one head and arguments of the same classes. Such terms are found by
//! digests: the exclusive or of a number for the head and of a share for each place and the representative that stands there
//! (Zobrist 1970). A term with more than eight arguments has its digest stored, and a merge exchanges one share for each place
//! at which a term of the relabelled class stands; other digests are computed when they are needed. A row of the table is a
//! digest and a term. A term whose digest has changed gets another row, and terms of one digest are compared by their
//! arguments, so a collision costs time and proves nothing. Nothing as long as a term is stored or hashed at a merge.
//!
//! **Terms congruent only to themselves.** If no other term has a term's head and number of arguments, no other term is
//! congruent to it, and it gets no row (`IsLone`, computed once, when classes are made). A wide disjunction, a record of which
//! there is one term, or the body of a definition therefore costs nothing when its arguments move.
//!
//! **Marks are numbers.** A mark is how many merges, hypotheses, given equations and rows there were. The classes themselves
//! are those before the last unions, which the equivalence undoes one by one. Rows stored since then are cut off. Older ones
//! become right again, whatever happened to their terms in between. A mark is set when no rule applies, so nothing is pending
//! there.
//!
//! **Given equations.** `merge` takes an equation from outside with a reason that holds in the present classes; uniqueness is
//! one such reason. What derives is defined over the hypotheses and these equations, so the classes know nothing of how the
//! reason was found.
#![tactic(auto)]

mod adding;
mod alike;
mod at_term;
mod clash;
mod classes;
mod closing;
mod congruence;
mod constructors;
mod covered;
mod error;
mod holding;
mod index;
mod level;
mod lone;
mod marking;
mod meeting;
mod merge;
mod needed;
mod normal;
mod pairing;
mod rules;
mod running;
mod saturate;
mod singles;
mod sorts;
mod spreading;
mod starting;
mod store;
mod theorems;
mod waiting;

pub use classes::Classes;
pub use error::CongrError;
pub use merge::{ClassMark, Closed, Merge, Reason};
pub use theorems::{classes_of_merges, closed_classes, quiet_classes};
