//! Tests of the engine. Each line of standard input is a case `(NAME KIND PART ..)`, and its answer is one line. A line that
//! is no case is answered `BAD`. A case `(NAME declare STEP ..)` begins anew, and declares for the lines after it; the steps
//! `(define NAME (PARAMETER ..) SORT EXPRESSION)` come after all others.
#![tactic(auto)]

ghost use Rattle.test_engine.specs.Scopes.{IsSound};

mod define;
mod elaborate;
mod keep;
mod model;
mod show;
mod shrink;
mod solve;
mod table;
mod tally;
mod text;

use crate::define::{declare, new_scope};
use ct_cases::{CaseError, items_of, number_of, read_case, split_named};
use ct_compile::Scope;
use ct_sexpr::Sexpr;
use std::alloc::Global;
use std::io;

fn main(rt: HostRuntime) -> io::Result<()> {
    match new_scope(rt.alloc()) {
        Ok(mut scope) => answer_lines(&rt, &mut scope),
        Err(_) => println!(rt; "out of memory"),
    }
}

/// Answers each line.
fn answer_lines(rt: &HostRuntime, scope: &mut Box<Scope>) -> io::Result<()>
    requires before { IsSound scope.old.value }
{
    for line in rt.lines(rt.alloc()) {
        let mut out = String::new(rt.alloc());
        let answered = answer(rt.alloc(), scope, line?.as_str(), &mut out);
        match answered {
            Ok(()) => println!(rt; "{out}")?,
            Err(CaseError::Bad) => println!(rt; "BAD")?,
            Err(CaseError::NoMemory) => println!(rt; "out of memory")?,
        }
    }
    Ok(())
}

/// Writes the name of the case on the line, and its answer.
fn answer(
    alloc: Global,
    scope: &mut Box<Scope>,
    line: &str,
    out: &mut String,
) -> Result<(), CaseError>
    requires before { IsSound scope.old.value }
    ensures after { IsSound scope.new.value }
{
    let case = read_case(alloc, line)?;
    let (name, parts) = split_named(items_of(&case)?)?;
    out.push_str(name)?;
    out.push(':')?;
    let (kind, parts) = split_named(parts)?;
    if kind == "declare" {
        *scope = declare(alloc, parts)?;
        return Ok(out.push_str(" ok")?);
    }
    answer_kind(alloc, scope, kind, parts, out)
}

/// Answers a case that declares nothing.
fn answer_kind(
    alloc: Global,
    scope: &Scope,
    kind: &str,
    parts: &[Sexpr],
    out: &mut String,
) -> Result<(), CaseError>
    requires sound { IsSound scope.now }
{
    match (kind, parts) {
        ("solve", [budget, exprs @ ..]) => {
            solve::show_verdict(alloc, scope, number_of(budget)?, exprs, out)
        }
        ("show", [budget, exprs @ ..]) => {
            solve::show_contents(alloc, scope, number_of(budget)?, exprs, out)
        }
        ("count", [budget, exprs @ ..]) => {
            solve::show_counts(alloc, scope, number_of(budget)?, exprs, out)
        }
        ("keep", [budget, lists @ ..]) => {
            keep::show_checks(alloc, scope, number_of(budget)?, lists, out)
        }
        ("shrink", [limit, exprs @ ..]) => {
            shrink::show_shrunk(alloc, scope, number_of(limit)?, exprs, out)
        }
        ("shrink-all", [limit, exprs @ ..]) => {
            shrink::show_all_shrunk(alloc, scope, number_of(limit)?, exprs, out)
        }
        _ => Err(CaseError::Bad),
    }
}
