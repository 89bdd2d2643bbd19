//! Declarations: those of `ct_cases`, each answered with its first number or the number of its
//! refusal as `E11`; `(fill functions 3)` for `f0`, `f1` and `f2`, answered with how many got the
//! next number, and so `definitions` `d0` and `sorts` `S1`; `(lookup NAME ..)`,
//! `(sort-named NAME ..)`, `(generic-named NAME ..)`, `(with-text TEXT ..)`, `(find SORT ..)`; `show` for everything, and
//! `(sort N)`, `(generic NAME)` and the like for one.
ghost use Rattle.ct_sorts.specs.Grown.{Extends};

use crate::dump::{show_all, show_generic, show_one};
use crate::steps::{show_count, show_index};
use ct_cases::{CaseError, bytes_of, declare, is_word, size_of, sort_expr, split_word, word_of};
use ct_sexpr::Sexpr;
use ct_sorts::{Name, SigError, Signature, SortId, Symbol, are_parameters_below, growth};
use std::alloc::Global;

/// The sort Bool.
const BOOL: SortId = SortId(0);

/// Answers the steps over a new signature.
pub fn answer(alloc: Global, steps: &[Sexpr], out: &mut String) -> Result<(), CaseError> {
    let mut sig = Box::new(alloc, Signature::new(alloc)?)?;
    answer_steps(alloc, &mut sig, steps, out)
}

/// Answers the steps, copies, answers more steps, and shows both signatures.
pub fn answer_copied(
    alloc: Global,
    steps: &[Sexpr],
    more: &[Sexpr],
    out: &mut String,
) -> Result<(), CaseError> {
    let mut sig = Box::new(alloc, Signature::new(alloc)?)?;
    answer_steps(alloc, &mut sig, steps, out)?;
    let copied = Box::new(alloc, sig.copy()?)?;
    answer_steps(alloc, &mut sig, more, out)?;
    out.push_str(" of")?;
    show_all(alloc, &sig, out)?;
    out.push_str(" copied")?;
    show_all(alloc, &copied, out)
}

/// Answers the steps, takes all declarations back, and answers more steps.
pub fn answer_cut(
    alloc: Global,
    steps: &[Sexpr],
    more: &[Sexpr],
    out: &mut String,
) -> Result<(), CaseError> {
    let mut sig = Box::new(alloc, Signature::new(alloc)?)?;
    answer_over(alloc, &mut sig, steps, more, out)
}

/// Answers the steps, takes back what more steps declare, and answers the last steps.
pub fn answer_level(
    alloc: Global,
    steps: &[Sexpr],
    level: &[Sexpr],
    last: &[Sexpr],
    out: &mut String,
) -> Result<(), CaseError> {
    let mut sig = Box::new(alloc, Signature::new(alloc)?)?;
    answer_steps(alloc, &mut sig, steps, out)?;
    answer_over(alloc, &mut sig, level, last, out)
}

/// Answers the steps, takes back what they declare, and answers the last steps.
fn answer_over(
    alloc: Global,
    sig: &mut Signature,
    level: &[Sexpr],
    last: &[Sexpr],
    out: &mut String,
) -> Result<(), CaseError> {
    let mark = sig.mark();
    answer_steps(alloc, sig, level, out)?;
    sig.cut_to(&mark);
    answer_steps(alloc, sig, last, out)
}

/// Answers steps.
fn answer_steps(
    alloc: Global,
    sig: &mut Signature,
    steps: &[Sexpr],
    out: &mut String,
) -> Result<(), CaseError>
    ensures grown { Extends sig.new sig.old }
{
    growth();
    for step in steps {
        answer_step(alloc, sig, step, out)?;
    }
    Ok(())
}

/// Answers a step.
fn answer_step(
    alloc: Global,
    sig: &mut Signature,
    step: &Sexpr,
    out: &mut String,
) -> Result<(), CaseError>
    ensures grown { Extends sig.new sig.old }
{
    growth();
    if is_word(step, "show") {
        return show_all(alloc, sig, out);
    }
    let (word, parts) = split_word(step)?;
    match parts {
        [kind, count] if word == "fill" => {
            let count = fill(alloc, sig, word_of(kind)?, size_of(count)?)?;
            show_count(alloc, u64::from(count), out)
        }
        [number] if is_one(word) => show_one(alloc, sig, word, size_of(number)?, out),
        [name] if word == "generic" => show_generic(alloc, sig, &bytes_of(alloc, name)?, out),
        names if word == "lookup" => show_symbols(alloc, sig, names, out),
        names if word == "sort-named" => show_sorts(alloc, sig, names, out),
        names if word == "generic-named" => show_generics(alloc, sig, names, out),
        texts if word == "with-text" => show_with_texts(alloc, sig, texts, out),
        sorts if word == "find" => show_found(alloc, sig, sorts, out),
        _ => show_declared(alloc, declare(alloc, sig, step)?, out),
    }
}

/// Whether the word asks for one item.
fn is_one(word: &str) -> bool {
    matches!(
        word,
        "sort" | "ctor" | "sel" | "function" | "definition" | "origin" | "determined"
    )
}

/// Shows the number that was given, or the number of the refusal.
fn show_declared(
    alloc: Global,
    declared: Result<u32, SigError>,
    out: &mut String,
) -> Result<(), CaseError> {
    match declared {
        Ok(number) => show_count(alloc, u64::from(number), out),
        Err(SigError::Refused(number)) => {
            out.push_str(format!(in alloc; " E{number}")?.as_str())?;
            Ok(())
        }
        Err(SigError::NoMemory) => Err(CaseError::NoMemory),
    }
}

/// Declares so many functions, definitions or sorts, and counts those that got the next number.
fn fill(alloc: Global, sig: &mut Signature, kind: &str, count: u32) -> Result<u32, CaseError>
    ensures grown { Extends sig.new sig.old }
{
    growth();
    let mut fitting = 0u32;
    for number in 0..count {
        let next = fill_one(alloc, sig, kind, number)?;
        if next == number {
            fitting = fitting.wrapping_add(1);
        }
    }
    Ok(fitting)
}

/// Declares one of a row, and gives its number, counted from 0 in the row.
fn fill_one(alloc: Global, sig: &mut Signature, kind: &str, number: u32) -> Result<u32, CaseError>
    ensures grown { Extends sig.new sig.old }
{
    growth();
    let _sorts = sig.sorts();
    match kind {
        "functions" => {
            let name = numbered(alloc, "f", number)?;
            Ok(sig.add_fun(name, Vec::new(alloc), BOOL)?.0)
        }
        "definitions" => {
            let name = numbered(alloc, "d", number)?;
            Ok(sig.add_def(name, Vec::new(alloc), BOOL)?.0)
        }
        "sorts" => {
            let name = numbered(alloc, "S", number.wrapping_add(1))?;
            Ok(sig.add_free(name)?.0.wrapping_sub(1))
        }
        _ => Err(CaseError::Bad),
    }
}

/// The name of a letter and a number.
fn numbered(alloc: Global, letter: &str, number: u32) -> Result<Name, CaseError> {
    let text = format!(in alloc; "{letter}{number}")?;
    Ok(Name::from_slice(alloc, text.as_bytes())?)
}

/// Shows what each name stands for.
fn show_symbols(
    alloc: Global,
    sig: &Signature,
    names: &[Sexpr],
    out: &mut String,
) -> Result<(), CaseError> {
    for name in names {
        show_symbol(alloc, sig.lookup(&bytes_of(alloc, name)?), out)?;
    }
    Ok(())
}

/// Shows what a name stands for.
fn show_symbol(alloc: Global, symbol: Option<Symbol>, out: &mut String) -> Result<(), CaseError> {
    let text = match symbol {
        None => format!(in alloc; " -"),
        Some(Symbol::Ctor(c)) => format!(in alloc; " ctor-{}", c.0),
        Some(Symbol::Sel(s)) => format!(in alloc; " sel-{}", s.0),
        Some(Symbol::Fun(f)) => format!(in alloc; " function-{}", f.0),
        Some(Symbol::Def(d)) => format!(in alloc; " definition-{}", d.0),
        Some(Symbol::GenCtor(g, i)) => format!(in alloc; " ctor-{i}-of-{}", g.0),
        Some(Symbol::GenSel(g, i, k)) => format!(in alloc; " sel-{k}-of-ctor-{i}-of-{}", g.0),
    };
    out.push_str(text?.as_str())?;
    Ok(())
}

/// Shows the number of the sort of each name.
fn show_sorts(
    alloc: Global,
    sig: &Signature,
    names: &[Sexpr],
    out: &mut String,
) -> Result<(), CaseError> {
    for name in names {
        let sort = sig.sort_named(&bytes_of(alloc, name)?);
        show_index(alloc, sort.map(|s| u64::from(s.0)), out)?;
    }
    Ok(())
}

/// Shows the number of the generic of each name.
fn show_generics(
    alloc: Global,
    sig: &Signature,
    names: &[Sexpr],
    out: &mut String,
) -> Result<(), CaseError> {
    for name in names {
        let generic = sig.generic_named(&bytes_of(alloc, name)?);
        show_index(alloc, generic.map(|g| u64::from(g.0)), out)?;
    }
    Ok(())
}

/// Shows the number of the sort with each text.
fn show_with_texts(
    alloc: Global,
    sig: &Signature,
    texts: &[Sexpr],
    out: &mut String,
) -> Result<(), CaseError> {
    for text in texts {
        let sort = sig.sort_with_text(&bytes_of(alloc, text)?);
        show_index(alloc, sort.map(|s| u64::from(s.0)), out)?;
    }
    Ok(())
}

/// Shows the number of each written sort.
fn show_found(
    alloc: Global,
    sig: &Signature,
    sorts: &[Sexpr],
    out: &mut String,
) -> Result<(), CaseError> {
    for sort in sorts {
        let sort = sort_expr(alloc, &[], sort)?;
        if !are_parameters_below(0, &sort) {
            return Err(CaseError::Bad);
        }
        let found = sig.find_instance(&sort)?;
        show_index(alloc, found.map(|s| u64::from(s.0)), out)?;
    }
    Ok(())
}
