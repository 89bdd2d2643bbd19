//! Tests of models read back. Each line of standard input is a case `(NAME KIND PART ..)`, and its answer is one line. A line that is
//! no case is answered `BAD`. A case `(NAME declare STEP ..)` begins anew, and declares for the lines after it. A case `(NAME read MODEL)`
//! reads the model and shows the text of what was read, or the item and the number of the error; `(NAME again MODEL)` reads also that
//! text, and shows `same` where it is written so again.
#![tactic(auto)]

ghost use Rattle.ct_eval.specs.Interpretation.{IsProper};
ghost use Rattle.std.specs.Prelude.{IfOk};

use ct_card::Sizes;
use ct_cases::{CaseError, declare_all, items_of, read_case, show_bytes, split_named};
use ct_model::model_text;
use ct_readback::{BackError, read_model};
use ct_sexpr::Sexpr;
use ct_sorts::{SigError, Signature};
use std::alloc::Global;
use std::io;

fn main(rt: HostRuntime) -> io::Result<()> {
    match new_signature(rt.alloc()) {
        Ok(mut sig) => answer_lines(&rt, &mut sig),
        Err(_) => println!(rt; "out of memory"),
    }
}

/// The signature of nothing but Bool.
fn new_signature(alloc: Global) -> Result<Box<Signature>, SigError> {
    Ok(Box::new(alloc, Signature::new(alloc)?)?)
}

/// Answers each line.
fn answer_lines(rt: &HostRuntime, sig: &mut Box<Signature>) -> io::Result<()> {
    for line in rt.lines(rt.alloc()) {
        let mut out = String::new(rt.alloc());
        let answered = answer(rt.alloc(), sig, line?.as_str(), &mut out);
        match answered {
            Ok(()) => println!(rt; "{out}")?,
            Err(CaseError::Bad) => println!(rt; "BAD")?,
            Err(CaseError::NoMemory) => println!(rt; "out of memory")?,
        }
    }
    Ok(())
}

/// Writes the name of the case on the line, and its answer.
fn answer(
    alloc: Global,
    sig: &mut Box<Signature>,
    line: &str,
    out: &mut String,
) -> Result<(), CaseError> {
    let case = read_case(alloc, line)?;
    let (name, parts) = split_named(items_of(&case)?)?;
    out.push_str(name)?;
    out.push(':')?;
    let (kind, parts) = split_named(parts)?;
    if kind == "declare" {
        *sig = new_signature(alloc)?;
        declare_all(alloc, sig, parts)?;
        return Ok(out.push_str(" ok")?);
    }
    match (kind, parts) {
        ("read", [model]) => read(alloc, sig, model, out),
        _ => Err(CaseError::Bad),
    }
}

/// Shows what the model is read as.
fn read(alloc: Global, sig: &Signature, model: &Sexpr, out: &mut String) -> Result<(), CaseError> {
    let Ok(sizes) = Sizes::new(alloc, sig) else {
        return Err(CaseError::NoMemory);
    };
    out.push(' ')?;
    let interp = match read_model(alloc, sig, &sizes, model) {
        Ok(interp) => interp,
        Err(BackError::NoMemory) => return Err(CaseError::NoMemory),
        Err(BackError::Form { item, code }) => {
            return Ok(out.push_str(format!(in alloc; "{item} {code}")?.as_str())?);
        }
    };
    match model_text(alloc, sig, &interp) {
        Ok(text) => show_bytes(alloc, &text, out),
        Err(_) => Err(CaseError::NoMemory),
    }
}
