//! Tests of whole runs of the solver, over a desk and a sink in memory. Each line of standard
//! input is a case: `(NAME run SCRIPT SETTING ..)` runs the script
//! under the name `s`, `(NAME words (WORD ..) SCRIPT SETTING ..)` under these arguments, and
//! shows on one line the status, the answers of checks, the errors, the last core that was shrunk, and what was written; where a call of the desk
//! fails, or `(counts-calls)` asks for it, also how often it was called. `every-call`, `every-write`,
//! `every-prefix` and `every-prefix-of-the-proof` in place of `run` run the script, or the audit where there
//! is a derivation or a model, cut short at every such place, with a line for each stretch of places with one outcome.
//! A setting is `(desk-fails CALL)`, `(sink-fails CALL)`, `(piece COUNT)`, for the most bytes that a call
//! takes, `(counts-calls)`, `(proof SCRIPT)`, for a derivation or a model under the name `p`, or, where such a run is cut short,
//! `(check NUMBER)`, for a model at the check with this number. A line that is no case is answered `BAD`.
#![tactic(auto)]

mod answer;
mod every;
mod outcome;
mod script;
mod setting;

use ct_cases::{CaseError, items_of, read_case, split_named};
use std::io;

fn main(rt: HostRuntime) -> io::Result<()> {
    for line in rt.lines(rt.alloc()) {
        let mut out = String::new(rt.alloc());
        let answered = answer_line(&rt, line?.as_str(), &mut out);
        match answered {
            Ok(()) => println!(rt; "{out}")?,
            Err(CaseError::Bad) => println!(rt; "BAD")?,
            Err(CaseError::NoMemory) => println!(rt; "out of memory")?,
        }
    }
    Ok(())
}

/// Writes the name of the case on the line, and its answer.
fn answer_line(rt: &HostRuntime, line: &str, out: &mut String) -> Result<(), CaseError> {
    let case = read_case(rt.alloc(), line)?;
    let (name, parts) = split_named(items_of(&case)?)?;
    out.push_str(name)?;
    out.push(':')?;
    let (kind, parts) = split_named(parts)?;
    answer::answer(rt.alloc(), kind, parts, out)
}
