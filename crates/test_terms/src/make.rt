//! Terms that are made. `(terms STEP ..)` over a new table: a term shows its number and its sort;
//! `(cut 4)` keeps the first four, `(fork STEP ..)` makes a copy, takes the steps and goes on
//! with the copy, `(negate 3)` makes so many negations, each of the last term, and counts those
//! that got the next number, `(literal TERM)` and `len` show what they say. `(args TERM ..)` and
//! `(copies CORE ..)` copy arguments and terms.
use crate::cores::{args_of, core_of, term_of};
use crate::show::{show_bool, show_number};
use crate::table::make;
use ct_cases::{CaseError, is_word, items_of, show_bytes, size_of, split_word};
use ct_sexpr::Sexpr;
use ct_sorts::{Signature, SortId};
use ct_terms::{Args, Core, TermError, TermId, TermTable, is_well_sorted};
use std::alloc::Global;

/// The sort Bool.
const BOOL: SortId = SortId(0);

/// Answers a case of terms.
pub fn answer(
    alloc: Global,
    sig: &Signature,
    kind: &str,
    parts: &[Sexpr],
    out: &mut String,
) -> Result<bool, CaseError> {
    match kind {
        "terms" => {
            let mut table = new_table(alloc)?;
            answer_steps(alloc, sig, &mut table, parts, out)?;
        }
        "args" => show_args(alloc, parts, out)?,
        "copies" => show_copies(alloc, sig, parts, out)?,
        _ => return Ok(false),
    }
    Ok(true)
}

/// The table of the truth values.
fn new_table(alloc: Global) -> Result<Box<TermTable>, CaseError> {
    match TermTable::new(alloc) {
        Ok(table) => Ok(Box::new(alloc, table)?),
        Err(_) => Err(CaseError::NoMemory),
    }
}

/// Shows arguments that were copied, and those that they are copied from.
fn show_args(alloc: Global, parts: &[Sexpr], out: &mut String) -> Result<(), CaseError> {
    let args = args_of(alloc, parts)?;
    let copied = args.copy()?;
    show_terms(alloc, &copied, out)?;
    show_terms(alloc, &args, out)
}

/// Shows the numbers of terms.
fn show_terms(alloc: Global, args: &Args, out: &mut String) -> Result<(), CaseError> {
    for t in args.as_slice() {
        show_number(alloc, u64::from(t.0), out)?;
    }
    Ok(())
}

/// Shows of each term whether its copy is equal to it.
fn show_copies(
    alloc: Global,
    sig: &Signature,
    parts: &[Sexpr],
    out: &mut String,
) -> Result<(), CaseError> {
    for part in parts {
        let core = core_of(alloc, sig, part)?;
        show_bool(core.copy()? == core, out)?;
    }
    Ok(())
}

/// Answers steps; a fork has none inside.
fn answer_steps(
    alloc: Global,
    sig: &Signature,
    table: &mut Box<TermTable>,
    steps: &[Sexpr],
    out: &mut String,
) -> Result<(), CaseError> {
    for step in steps {
        if is_fork(step) {
            fork(alloc, sig, table, step, out)?;
        } else {
            answer_step(alloc, sig, table, step, out)?;
        }
    }
    Ok(())
}

/// Whether the step is a fork.
fn is_fork(step: &Sexpr) -> bool {
    match step.as_list() {
        Some([word, ..]) => is_word(word, "fork"),
        _ => false,
    }
}

/// Copies the table, answers the steps over it, and goes on with the copy.
fn fork(
    alloc: Global,
    sig: &Signature,
    table: &mut Box<TermTable>,
    step: &Sexpr,
    out: &mut String,
) -> Result<(), CaseError> {
    let copied = match table.copy() {
        Ok(copied) => Box::new(alloc, copied)?,
        Err(_) => return Err(CaseError::NoMemory),
    };
    for step in items_of(step)?.iter().skip(1) {
        answer_step(alloc, sig, table, step, out)?;
    }
    *table = copied;
    Ok(())
}

/// Answers a step.
fn answer_step(
    alloc: Global,
    sig: &Signature,
    table: &mut TermTable,
    step: &Sexpr,
    out: &mut String,
) -> Result<(), CaseError> {
    if is_word(step, "len") {
        return show_number(alloc, u64::from(table.len()), out);
    }
    match split_word(step)? {
        ("cut", [len]) => cut(table, size_of(len)?),
        ("negate", [count]) => negate(alloc, sig, table, size_of(count)?, out),
        ("literal", [t]) => show_literal(alloc, table, term_of(t)?, out),
        _ => {
            let core = core_of(alloc, sig, step)?;
            show_made(alloc, sig, table, core, out)
        }
    }
}

/// Keeps the first terms.
fn cut(table: &mut TermTable, len: u32) -> Result<(), CaseError> {
    if len < 2 || len > table.len() {
        return Err(CaseError::Bad);
    }
    table.cut_to(len);
    Ok(())
}

/// Makes a term, and shows its number and its sort.
fn show_made(
    alloc: Global,
    sig: &Signature,
    table: &mut TermTable,
    core: Core,
    out: &mut String,
) -> Result<(), CaseError> {
    if !is_well_sorted(sig, table, &core) {
        return Ok(out.push_str(" ill-sorted")?);
    }
    match make(table, sig, core)? {
        Ok(t) => show_sorted(alloc, sig, table, t, out),
        Err(TermError::Full) => Ok(out.push_str(" full")?),
        Err(TermError::NoMemory) => Err(CaseError::NoMemory),
    }
}

/// Shows the number of a term and the name of its sort.
fn show_sorted(
    alloc: Global,
    sig: &Signature,
    table: &TermTable,
    t: TermId,
    out: &mut String,
) -> Result<(), CaseError> {
    if t.0 >= table.len() {
        return Err(CaseError::Bad);
    }
    show_number(alloc, u64::from(t.0), out)?;
    out.push(':')?;
    let sort = table.sort(t);
    if sort.0 >= sig.sorts() {
        return Err(CaseError::Bad);
    }
    show_bytes(alloc, sig.sort_name(sort), out)
}

/// Makes so many negations, each of the last term, and counts those that got the next number.
fn negate(
    alloc: Global,
    sig: &Signature,
    table: &mut TermTable,
    count: u32,
    out: &mut String,
) -> Result<(), CaseError> {
    let mut fitting = 0u32;
    for _ in 0..count {
        let len = table.len();
        let made = make(table, sig, Core::Not(TermId(len.saturating_sub(1))))?;
        if made == Ok(TermId(len)) {
            fitting = fitting.wrapping_add(1);
        }
    }
    show_number(alloc, u64::from(fitting), out)
}

/// Shows the literal of a Boolean term: its term, and whether it is positive.
fn show_literal(
    alloc: Global,
    table: &TermTable,
    t: TermId,
    out: &mut String,
) -> Result<(), CaseError> {
    if t.0 >= table.len() {
        return Err(CaseError::Bad);
    }
    if table.sort(t) != BOOL {
        return Err(CaseError::Bad);
    }
    let lit = table.lit(t);
    show_number(alloc, u64::from(lit.term.0), out)?;
    out.push_str(if lit.positive { "+" } else { "-" })?;
    Ok(())
}
