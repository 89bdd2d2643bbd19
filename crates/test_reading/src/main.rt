//! Tests of the crates that read: desks and sinks, tables of words, expressions and where they stand, declarations,
//! and sorts with arguments. Each line of standard input is a case `(NAME KIND PART ..)`, and its answer is
//! one line. A line that is no case is answered `BAD`.
#![tactic(auto)]

mod adding;
mod bytes;
mod declarations;
mod desks;
mod dump;
mod expressions;
mod files;
mod generics;
mod positions;
mod sinks;
mod steps;
mod words;

use ct_cases::{CaseError, items_of, read_case, split_named};
use ct_sexpr::Sexpr;
use std::io;

fn main(rt: HostRuntime) -> io::Result<()> {
    for line in rt.lines(rt.alloc()) {
        let mut out = String::new(rt.alloc());
        let answered = answer(&rt, line?.as_str(), &mut out);
        match answered {
            Ok(()) => println!(rt; "{out}")?,
            Err(CaseError::Bad) => println!(rt; "BAD")?,
            Err(CaseError::NoMemory) => println!(rt; "out of memory")?,
        }
    }
    Ok(())
}

/// Writes the name of the case on the line, and its answer.
fn answer(rt: &HostRuntime, line: &str, out: &mut String) -> Result<(), CaseError> {
    let case = read_case(rt.alloc(), line)?;
    let (name, parts) = split_named(items_of(&case)?)?;
    out.push_str(name)?;
    out.push(':')?;
    let (kind, parts) = split_named(parts)?;
    answer_kind(rt, kind, parts, out)
}

/// Answers the case with the module of its kind.
fn answer_kind(
    rt: &HostRuntime,
    kind: &str,
    parts: &[Sexpr],
    out: &mut String,
) -> Result<(), CaseError> {
    if desks::answer(rt, kind, parts, out)? {
        return Ok(());
    }
    if sinks::answer(rt, kind, parts, out)? {
        return Ok(());
    }
    if words::answer(rt.alloc(), kind, parts, out)? {
        return Ok(());
    }
    if bytes::answer(rt.alloc(), kind, parts, out)? {
        return Ok(());
    }
    if expressions::answer(rt.alloc(), kind, parts, out)? {
        return Ok(());
    }
    if positions::answer(rt.alloc(), kind, parts, out)? {
        return Ok(());
    }
    answer_declarations(rt, kind, parts, out)
}

/// Answers the case where it is one of declarations.
fn answer_declarations(
    rt: &HostRuntime,
    kind: &str,
    parts: &[Sexpr],
    out: &mut String,
) -> Result<(), CaseError> {
    match parts {
        steps if kind == "declarations" => declarations::answer(rt.alloc(), steps, out),
        steps if kind == "generics" => generics::answer(rt.alloc(), steps, out),
        [steps, more] if kind == "copied" => {
            declarations::answer_copied(rt.alloc(), items_of(steps)?, items_of(more)?, out)
        }
        [steps, level, last] if kind == "level" => declarations::answer_level(
            rt.alloc(),
            items_of(steps)?,
            items_of(level)?,
            items_of(last)?,
            out,
        ),
        [steps, more] if kind == "cut" => {
            declarations::answer_cut(rt.alloc(), items_of(steps)?, items_of(more)?, out)
        }
        _ => Err(CaseError::Bad),
    }
}
