//! What one command does to the state of a session, and what it answers.
//!
//! Design choices:
//!
//! **When a verdict is current.** From the check that is answered until the next check that is answered, and until something is
//! declared, defined, asserted, pushed, popped or reset. This is one rule for the model of a `sat`, the derivation of an
//! `unsat` and the reason of an `unknown`. It does not ask whether the command changed anything, so `(push 0)` ends a verdict.
//! A refused command ends none, not even a refused check; nor does an option.
//!
//! **What is printed of a core.** The places of a core count the assertions in force and then the assumptions. What has no
//! label is not printed, so the labels alone need not contradict each other. An assertion that occurs twice, or is also
//! assumed, has the first of its places.
//!
//! **Options without effect.** They are stored and answered, so that files which set them run and get back what they set.
//! Models and derivations are always available, since each verdict has its witness. The initial values are this project's own:
//! the six options `:produce-..` are `true`, since nothing has to be requested in advance, and `:print-success` is `false`, as
//! in other solvers.
//!
//! **One limit.** The unit of `:reproducible-resource-limit` is a decision. The standard's 0, which means no limit, and numbers
//! that 64 bits do not hold stand for 2^64 - 1, so each search has a budget. `get-option` returns the numeral that was set.
//!
//! **`success` after the command.** Whether it is printed depends on the options after the command: turning it on is answered,
//! turning it off is not. `exit` is answered like other commands.
//!
//! **What is stored for speed.** Checks leave sizes of sorts, closed tables and the last model in a cache (`cache.rt`). Its only
//! condition is that it is of what is declared, or of an earlier state of that: each check tests what it takes from there. It is
//! emptied where memory runs out. With 10,000 decisions or fewer a check takes sizes alone, so that small limits answer as the
//! first check does.
//!
//! **Logics.** All names of logics stand for one language, and what a name promises of the terms is not checked: a term is refused on
//! its own. Which logic is set, when, or whether any is set, changes nothing. A name that is not made of the parts of SMT-LIB's
//! names is error 55. `set-info` accepts every value, since files say of themselves what they like.
#![tactic(auto)]

mod answer;
mod ask;
mod cache;
mod check;
mod cores;
mod declare;
mod infos;
mod levels;
mod logics;
mod options;
mod performing;
mod rehearsal;
mod response;
mod settings;
mod state;
mod theorems;

pub use answer::{Answer, refusal_text, refused};
pub use cache::{Cache, empty_cache};
pub use cores::Members;
pub use options::Options;
pub use performing::perform;
pub use rehearsal::rehearse_assuming;
pub use response::CheckResponse;
pub use state::{Asked, SessionState};
pub use theorems::decided_checks;
