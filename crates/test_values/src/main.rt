//! Tests of values: equality, minimal graphs, shared graphs, which graphs fit declarations, texts,
//! and the values of listable sorts. Each line of standard input is a case `(NAME KIND PART ..)`, and its answer is one
//! line. A line that is no case is answered `BAD`. A case `(NAME declare STEP ..)` declares for
//! the lines after it.
#![tactic(auto)]

mod equal;
mod finite;
mod fit;
mod grow;
mod nodes;
mod show;

use ct_cases::{CaseError, declare_all, items_of, read_case, split_named};
use ct_sexpr::Sexpr;
use ct_sorts::{SigError, Signature};
use std::alloc::Global;
use std::io;

fn main(rt: HostRuntime) -> io::Result<()> {
    match new_signature(rt.alloc()) {
        Ok(mut sig) => answer_lines(&rt, &mut sig),
        Err(_) => println!(rt; "out of memory"),
    }
}

/// The signature of nothing but Bool.
fn new_signature(alloc: Global) -> Result<Box<Signature>, SigError> {
    Ok(Box::new(alloc, Signature::new(alloc)?)?)
}

/// Answers each line.
fn answer_lines(rt: &HostRuntime, sig: &mut Signature) -> io::Result<()> {
    for line in rt.lines(rt.alloc()) {
        let mut out = String::new(rt.alloc());
        let answered = answer(rt.alloc(), sig, line?.as_str(), &mut out);
        match answered {
            Ok(()) => println!(rt; "{out}")?,
            Err(CaseError::Bad) => println!(rt; "BAD")?,
            Err(CaseError::NoMemory) => println!(rt; "out of memory")?,
        }
    }
    Ok(())
}

/// Writes the name of the case on the line, and its answer.
fn answer(
    alloc: Global,
    sig: &mut Signature,
    line: &str,
    out: &mut String,
) -> Result<(), CaseError> {
    let case = read_case(alloc, line)?;
    answer_case(alloc, sig, &case, out)
}

/// The same of the case as it was read.
fn answer_case(
    alloc: Global,
    sig: &mut Signature,
    case: &Sexpr,
    out: &mut String,
) -> Result<(), CaseError> {
    let (name, parts) = split_named(items_of(case)?)?;
    out.push_str(name)?;
    out.push(':')?;
    let (kind, parts) = split_named(parts)?;
    if answer_kind(alloc, sig, kind, parts, out)? {
        return Ok(());
    }
    Err(CaseError::Bad)
}

/// Declares, or answers a case about values; whether the kind is one of them.
fn answer_kind(
    alloc: Global,
    sig: &mut Signature,
    kind: &str,
    parts: &[Sexpr],
    out: &mut String,
) -> Result<bool, CaseError> {
    if kind == "declare" {
        declare_all(alloc, sig, parts)?;
        out.push_str(" ok")?;
        return Ok(true);
    }
    answer_values(alloc, sig, kind, parts, out)
}

/// Answers a case about values; whether the kind is one of them.
fn answer_values(
    alloc: Global,
    sig: &Signature,
    kind: &str,
    parts: &[Sexpr],
    out: &mut String,
) -> Result<bool, CaseError> {
    if equal::answer(alloc, sig, kind, parts, out)? {
        return Ok(true);
    }
    if grow::answer(alloc, sig, kind, parts, out)? {
        return Ok(true);
    }
    if fit::answer(alloc, sig, kind, parts, out)? {
        return Ok(true);
    }
    finite::answer(alloc, sig, kind, parts, out)
}
