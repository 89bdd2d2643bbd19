//! Tests of what is computed over graphs: sizes of sorts and values of them, topological orders,
//! partitions, and the script of the benchmark. Each line of standard input is a case
//! `(NAME KIND PART ..)`, and its answer is one line. A line that is no case is answered `BAD`. A
//! case `(NAME declare STEP ..)` begins anew, and declares for the lines after it.
#![tactic(auto)]

mod blocks;
mod generate;
mod grown;
mod order;
mod show;
mod sized;
mod values;

use ct_cases::{CaseError, declare_all, items_of, read_case, split_named};
use ct_sexpr::Sexpr;
use ct_sorts::{SigError, Signature};
use std::alloc::Global;
use std::io;

fn main(rt: HostRuntime) -> io::Result<()> {
    match new_signature(rt.alloc()) {
        Ok(mut sig) => answer_lines(&rt, &mut sig),
        Err(_) => println!(rt; "out of memory"),
    }
}

/// The signature of nothing but Bool.
fn new_signature(alloc: Global) -> Result<Box<Signature>, SigError> {
    Ok(Box::new(alloc, Signature::new(alloc)?)?)
}

/// Answers each line.
fn answer_lines(rt: &HostRuntime, sig: &mut Box<Signature>) -> io::Result<()> {
    for line in rt.lines(rt.alloc()) {
        let mut out = String::new(rt.alloc());
        let answered = answer(rt.alloc(), sig, line?.as_str(), &mut out);
        match answered {
            Ok(()) => println!(rt; "{out}")?,
            Err(CaseError::Bad) => println!(rt; "BAD")?,
            Err(CaseError::NoMemory) => println!(rt; "out of memory")?,
        }
    }
    Ok(())
}

/// Writes the name of the case on the line, and its answer.
fn answer(
    alloc: Global,
    sig: &mut Box<Signature>,
    line: &str,
    out: &mut String,
) -> Result<(), CaseError> {
    let case = read_case(alloc, line)?;
    let (name, parts) = split_named(items_of(&case)?)?;
    out.push_str(name)?;
    out.push(':')?;
    let (kind, parts) = split_named(parts)?;
    if kind == "declare" {
        *sig = new_signature(alloc)?;
        declare_all(alloc, sig, parts)?;
        return Ok(out.push_str(" ok")?);
    }
    if answer_kind(alloc, sig, kind, parts, out)? {
        return Ok(());
    }
    Err(CaseError::Bad)
}

/// Answers a case that declares nothing; whether the kind is one of them.
fn answer_kind(
    alloc: Global,
    sig: &Signature,
    kind: &str,
    parts: &[Sexpr],
    out: &mut String,
) -> Result<bool, CaseError> {
    if sized::answer(alloc, sig, kind, parts, out)? {
        return Ok(true);
    }
    if grown::answer(alloc, kind, parts, out)? {
        return Ok(true);
    }
    if values::answer(alloc, sig, kind, parts, out)? {
        return Ok(true);
    }
    if order::answer(alloc, kind, parts, out)? {
        return Ok(true);
    }
    if blocks::answer(alloc, kind, parts, out)? {
        return Ok(true);
    }
    generate::answer(alloc, kind, parts, out)
}
