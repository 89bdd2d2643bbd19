//! One check of assertions: a CDCL(T) search that asks the theory before each decision and ends with an interpretation, a
//! derivation, or the record of its moves.
//!
//! The whole search in pseudocode, with the file or the crate of each step. `lines` are those of the derivation; every clause
//! of a search is the clause of one of them, so whatever a search concludes is already written down as a proof.
//!
//! ```text
//! solve_kept(table, asserts, budget, store):                                    solving.rt
//!     table  := a copy of table, closed under what the rules need; or of one    closed.rt, ct_closure,
//!               that is kept from check to check; TooLarge if it has more       ct_base
//!               than 200,000 terms
//!     lines  := all input, gate and exhaust lines over table                    prepare.rt, ct_clauses
//!     search := the clauses of lines, recorded, no decision                     initial.rt, ct_sat
//!     add the lemmas of store whose terms are in table and that the             keeping.rt, ct_kept
//!         checker accepts
//!     for each term, up to 8 lemmas a term on average:                          opening.rt
//!         add the lemmas on its testers and equations that the checker accepts  testers.rt, tester_drafts.rt, proposal.rt
//!     until no line is added, or for 100 rounds, and more where terms are few:  opening.rt
//!         propagate, refute, add what the classes imply, each value explained   implied.rt, ct_explain
//!         over those before it
//!     end := run(at most min(budget, 10,000) decisions)                         stages.rt
//!     if end is Spent and budget allows more:
//!         until Refuted or Saturated, or budget decisions are spent anew:       guided.rt, guide.rt
//!             search := the initial lines and the lines that the guide keeps,   again.rt
//!                       not recorded; end := run(the decisions of one round)
//!     if end is still Spent:
//!         search := the initial lines, the store's, and those of at most        again.rt
//!                   30 literals, recorded; end := run(budget decisions)
//!     Refuted:   Unsat(the lines on which the empty clause rests)               answer.rt, shortening.rt, ct_core
//!     Saturated: Sat(an interpretation made from the classes)                   answer.rt, model.rt, ct_build
//!     Spent:     Unknown(the lines and the moves)                               answer.rt
//!     after Unsat or Unknown: store takes the new theory lemmas                 keeping.rt, ct_kept
//!
//! run(decisions):                                                               settle.rt
//!     repeat:
//!         if propagate finds a false clause: learn from it                      ct_sat
//!         else if the trail has news and refute(trail) finds a conflict:        asked.rt, ct_theory
//!             add its line; learn from it                                       learn.rt
//!         else if the search is guided and a restart is due: undo all           guided.rt, luby.rt
//!         else if every variable has a value:
//!             if consult(trail) finds a conflict: add its line; learn from it   ct_theory
//!             else return Saturated
//!         else if the decisions are spent: return Spent
//!         else decide: the lowest variable, false; or, guided, the most         decide.rt
//!              active one, with the value it had last                           guide.rt, queue.rt
//!
//! learn(clause):                                                                learn.rt, ct_sat
//!     add a learn line that follows from clause and its reasons; backjump;
//!     if it is the empty clause: return Refuted from run
//! ```
//!
//! A worked example. The assertions are
//!
//! ```text
//! (declare-codatatype Stream ((tick (rest Stream)) (tock (rest2 Stream))))
//! (assert (or (= x (tick x)) (= x (tick (tick x)))))
//! (assert (= y (tick y)))
//! (assert (not (= x y)))
//! ```
//!
//! and the closed table has the Boolean terms 4 `(= x (tick x))`, 6 `(= x (tick (tick x)))`, 7 the disjunction, 10
//! `(= y (tick y))` and 11 `(= x y)`. The initial lines are 1 to 3, the assertions `7`, `10` and `(not 11)`; 4 and 5, that
//! `true` is true and `false` is not; and 6 to 8, the gates of the disjunction: `(not 7) 4 6`, `7 (not 4)` and `7 (not 6)`.
//! There are no testers, and the theory implies nothing yet, so no line is added before the first decision. Then:
//!
//! 1. Propagation makes 7 and 10 true and 11 false. `refute` finds no conflict.
//! 2. The lowest variable without a value is 4: it is decided false. By line 6, 6 is true.
//! 3. `refute` finds a conflict: if x equals `(tick (tick x))`, then x and `(tick x)` are bisimilar, so 4 is true. Line 9 says
//!    `4 (not 6)`, with the equality steps that show it.
//! 4. `learn` resolves line 9 with its reasons, lines 1 and 6, to the clause `4`, which is line 10. The decision is undone, and
//!    4 is true.
//! 5. `refute` finds a conflict again: x equals `(tick x)` and y equals `(tick y)`, so x and y are bisimilar. Line 11 says
//!    `(not 10) 11 (not 4)`.
//! 6. No decision stands, so `learn` derives the empty clause from lines 2, 3, 10 and 11: line 12. The answer is `Unsat`.
//!    `trim` removes none of the twelve lines: it keeps the initial ones, and the empty clause rests on the others.
//!
//! A caller has a `Signature`, a `TermTable` with the terms of the assertions, and the numbers of these:
//!
//! ```text
//! match solve(alloc, &sig, &table, &asserts, 100_000)? {
//!     Verdict::Sat(interp) => ..        // `holds` of `ct_eval` finds no assertion that is false in interp
//!     Verdict::Unsat(derivation) => ..  // `Checker` of `ct_checker` passes it
//!     Verdict::Unknown(spent) => ..     // spent.moves has 100,000 decisions
//! }
//! ```
//!
//! Design choices:
//!
//! **One budget for each search.** A search may make a certain number of decisions in all; a decision that is taken back stays
//! counted. Conflicts and questions to the theory have no bound of their own. In a recorded search there are no restarts, and
//! no clause is forgotten.
//!
//! **Heuristics are not proved.** Activities, the heap, phases, restarts and the choice of clauses to forget determine only
//! which literal is tried and with which lines a round begins. Each use is checked where it matters: a variable is decided only
//! if it has no value, and a line is added only after those before it. A wrong hint therefore costs time and nothing else.
//!
//! **Forgetting means starting anew.** A round of the guided search is a search of its own over the lines that are kept. No
//! clause is ever removed from one, so the invariants of watched literals need not mention removal.
//!
//! **Lines before the first decision.** While there is no decision, a record may add any line of the theory, so there is no
//! limit to what a search is told before it begins. Lemmas on testers and equations are written for each term as steps of a
//! line (`src/tester_drafts.rt`), and what the theory implies is explained once. A line is added if the checker's own decision
//! accepts it (`src/proposal.rt`): how lines are found is therefore in no clause, and each line costs its length. There are at
//! most eight lemmas a term on average. Each implied value is explained over those before it, so that a chain of implied
//! equations gets lines of a few steps each; a round follows only the new merges of the classes, and there is another only if a
//! line was added.
//!
//! **The record of a spent search.** It says that a search by these rules spent its decisions: each was on the variable with
//! the lowest number that had no value, where nothing was contradictory. It speaks of what follows by units, a least set, and
//! not of a trail. The derivation beside it says that the clauses follow: each of its lines is accepted, over a well-sorted
//! table. With 2^V - 1 decisions allowed, for V propositional variables, no search spends them. The proof uses the record
//! alone: the string of the places of the trail, in which a decision weighs less than what a learned clause asserts, gets
//! heavier with each decision and never lighter.
#![tactic(auto)]

mod again;
mod answer;
mod asked;
mod closed;
mod course;
mod decide;
mod draft;
mod error;
mod facts;
mod guide;
mod guided;
mod implied;
mod initial;
mod keeping;
mod learn;
mod luby;
mod model;
mod opening;
mod outcome;
mod prepare;
mod proposal;
mod queue;
mod settle;
mod shortening;
mod solving;
mod stages;
mod taught;
mod tester_drafts;
mod testers;
mod theorems;
mod verdict;

pub use ct_kept::{Kept, KeptError, Lemma};
pub use error::SolveError;
pub use solving::{solve, solve_kept, solve_on};
pub use theorems::spent_searches;
pub use verdict::{Move, Spent, Verdict};
