//! The session: answers the commands of a script one after the other.
//!
//! A caller feeds commands, writes the answers, and asks for what a report needs at the end:
//!
//! ```text
//! let mut session = Session::new(alloc, ErrorBehavior::ContinuedExecution)?;
//! let mut reader = Reader::new(alloc)?;
//! reader.feed(b"(declare-const p Bool) (assert p) (check-sat)")?;
//! reader.end();
//! while let Next::Command { expr, line } = reader.next()? {
//!     let answer = session.command(line, &expr)?; // answer.text is empty, empty, and then "sat"
//!     if answer.stop {
//!         break; // after `exit`, and after an error under immediate exit
//!     }
//! }
//! let given = session.finish(); // the words of the checks, the errors, the last verdict and the last shrunk core
//! ```
//!
//! A worked example: a script, what is printed, and what happens to the state. `command_of` of `ct_command` recognises each
//! command, and `perform` of `ct_step` does it.
//!
//! ```text
//! 1  (declare-datatype Nat ((zero) (succ (pred Nat))))
//! 2  (declare-const n Nat)
//! 3  (assert (! (distinct n zero) :named positive))
//! 4  (check-sat)                                     sat
//! 5  (get-value ((pred n)))                          (((pred n) zero))
//! 6  (push 1)
//! 7  (assert (= n (pred m)))                         (error "line 7: [E21] unknown symbol")
//! 8  (assert (! (= n (succ n)) :named loop))
//! 9  (check-sat)                                     unsat
//! 10 (get-unsat-core)                                (loop)
//! 11 (pop 1)
//! 12 (get-unsat-core)                                (error "line 12: [E53] no derivation")
//! 13 (check-sat)                                     sat
//! 14 (exit)
//! ```
//!
//! Lines 1 and 2 extend the `Signature` of the assertion stack (`ct_stack`). Line 3 declares the definition `positive`, asserts
//! it, and compiles it into the stack's table; `labels` gets its entry. Line 4 passes that table to `solve_on` of `ct_engine`
//! with the store of theory lemmas. Its word is appended to `responses`, the verdict is `last`, and `kept` says that it stands and
//! that its check has number 1. Line 5 evaluates `(pred n)` in its model and remembers the value in `known`. Line 6 sets a mark, which ends
//! the verdict: `kept` and `known` are empty again. Line 7 is refused: nothing changes except that `errors` gets the entry (7,
//! 21). Line 9 is check 2. Its derivation contains a theory lemma, that n is not `(succ n)`, which goes into the store. Line 10
//! takes the core of that derivation; `positive` is not in it. Line 11 goes back to the mark of line 6: the definition `loop`,
//! its assertion and its terms go, and so would lemmas that name something declared since. It ends the verdict, so line 12 is
//! refused. Line 13 is check 3. Line 14 ends the script: the report has three words and two errors, and the status of the
//! program is 1.
#![tactic(auto)]

mod error;
mod replay;
mod session;
mod theorems;

pub use ct_command::ErrorBehavior;
pub use ct_step::{Answer, CheckResponse, refusal_text};
pub use error::SessionError;
pub use replay::{Replayed, Standing};
pub use session::{Given, ScriptError, Session};
pub use theorems::replayed_scripts;
