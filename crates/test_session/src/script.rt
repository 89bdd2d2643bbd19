//! Scripts: bytes of a case, `(lists PART)` for the bytes of a part after declarations of lists, of
//! streams and of a few constants, `(declares 3)` for declarations of the constants `c0`, `c1` and
//! `c2`, one a line, and a check on the last line, `(sorts 3)` for declarations of the sorts `S0`, `S1` and `S2`, one a line, or
//! `(defines 3 2)` for the definitions `e1`, `e2`
//! and `e3`, each of which negates the one before it twice, and for an assertion of the last of two constants.
use ct_cases::{CaseError, bytes_of, items_of, size_of, split_named};
use ct_sexpr::Sexpr;
use std::alloc::Global;

/// What is declared before the part of `lists`, on eight lines.
const LISTS: &str =
    "(declare-datatypes ((E 0) (List 0)) (((a) (b)) ((nil) (cons (head E) (tail List)))))
(declare-codatatypes ((Stream 0)) (((scons (shead E) (stail Stream)))))
(declare-const l List)
(declare-const p Bool)
(declare-const q Bool)
(declare-sort U 0)
(declare-const u U)
(declare-fun f (E) E)
";

/// The script that the part stands for.
pub fn script_of(alloc: Global, part: &Sexpr) -> Result<Vec<u8>, CaseError> {
    if part.as_list().is_none() {
        return bytes_of(alloc, part);
    }
    match split_named(items_of(part)?)? {
        ("declares", [count]) => declarations(alloc, size_of(count)?),
        ("sorts", [count]) => sorts(alloc, size_of(count)?),
        ("defines", [count, depth]) => definitions(alloc, size_of(count)?, size_of(depth)?),
        ("lists", [rest]) => after_lists(alloc, rest),
        _ => bytes_of(alloc, part),
    }
}

/// The bytes of a part after declarations of lists.
fn after_lists(alloc: Global, part: &Sexpr) -> Result<Vec<u8>, CaseError> {
    let mut script = Vec::from_slice(alloc, LISTS.as_bytes())?;
    let rest = bytes_of(alloc, part)?;
    script.extend_from_slice(rest.as_slice())?;
    Ok(script)
}

/// A script that declares so many constants, and checks.
fn declarations(alloc: Global, count: u32) -> Result<Vec<u8>, CaseError> {
    let mut script = Vec::new(alloc);
    for number in 0..count {
        let line = format!(in alloc; "(declare-const c{number} Bool)\n")?;
        script.extend_from_slice(line.as_bytes())?;
    }
    script.extend_from_slice(b"(check-sat)\n")?;
    Ok(script)
}

/// A script that declares so many sorts.
fn sorts(alloc: Global, count: u32) -> Result<Vec<u8>, CaseError> {
    let mut script = Vec::new(alloc);
    for number in 0..count {
        let line = format!(in alloc; "(declare-sort S{number} 0)\n")?;
        script.extend_from_slice(line.as_bytes())?;
    }
    Ok(script)
}

/// A script of so many definitions, each of which negates the one before it so many times, and an
/// assertion of the last of two constants.
fn definitions(alloc: Global, count: u32, depth: u32) -> Result<Vec<u8>, CaseError> {
    let mut script = Vec::from_slice(alloc, b"(define-fun e0 ((x Bool)) Bool x)\n")?;
    for number in 0..count {
        add_definition(alloc, number, depth, &mut script)?;
    }
    script.extend_from_slice(b"(declare-const p Bool)\n(declare-const q Bool)\n")?;
    let last = format!(in alloc; "(assert (and (e{count} p) (e{count} q)))\n")?;
    script.extend_from_slice(last.as_bytes())?;
    Ok(script)
}

/// Adds the definition after this one, which negates it so many times.
fn add_definition(
    alloc: Global,
    number: u32,
    depth: u32,
    script: &mut Vec<u8>,
) -> Result<(), CaseError> {
    let next = number.saturating_add(1);
    let head = format!(in alloc; "(define-fun e{next} ((x Bool)) Bool ")?;
    script.extend_from_slice(head.as_bytes())?;
    add_times(depth, "(not ", script)?;
    let call = format!(in alloc; "(e{number} x)")?;
    script.extend_from_slice(call.as_bytes())?;
    add_times(depth, ")", script)?;
    script.extend_from_slice(b")\n")?;
    Ok(())
}

/// Adds a text so many times.
fn add_times(count: u32, text: &str, script: &mut Vec<u8>) -> Result<(), CaseError> {
    for _ in 0..count {
        script.extend_from_slice(text.as_bytes())?;
    }
    Ok(())
}
