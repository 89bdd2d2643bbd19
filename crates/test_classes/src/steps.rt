//! Classes that are told literals, closed, marked and taken back, step by step.
ghost use Rattle.std.specs.Prelude.{◌≡◌, ℕ, IfSome, slice_get};
ghost use Rattle.ct_terms.specs.declared.ids.Lit.{Lit};
ghost use Rattle.ct_terms.specs.Literal.{IsStripped};
ghost use Rattle.ct_rules.specs.Rules.{truth_term};
ghost use Rattle.ct_congr.specs.State.{Marked, IsFirstMark, IsQuiet};

use crate::hypotheses::hypothesis;
use crate::numbers::term_of;
use crate::prepare::close;
use crate::show::show_classes;
use ct_cases::{CaseError, split_word};
use ct_congr::{ClassMark, Classes, Closed, CongrError, Reason};
use ct_sexpr::Sexpr;
use ct_terms::{Lit, TermId};
use std::alloc::Global;

/// Takes the steps, and shows what each comes to.
pub fn show_steps(
    alloc: Global,
    classes: &mut Classes,
    steps: &[Sexpr],
    out: &mut String,
) -> Result<(), CaseError> {
    let mut gap = "";
    for step in steps {
        out.push_str(gap)?;
        show_step(alloc, classes, step, out)?;
        gap = "; ";
    }
    Ok(())
}

/// Takes one step.
fn show_step(
    alloc: Global,
    classes: &mut Classes,
    step: &Sexpr,
    out: &mut String,
) -> Result<(), CaseError> {
    match split_word(step)? {
        ("tell", [literal]) => show_told(classes, literal, out),
        ("close", []) => show_closed(alloc, classes, out),
        ("look", []) => show_look(alloc, classes, out),
        ("mark", []) => show_mark(alloc, classes, out),
        ("back", [index]) => show_back(alloc, classes, term_of(index)?.0 as usize, out),
        _ => Err(CaseError::Bad),
    }
}

/// Makes a literal one of the hypotheses.
fn show_told(classes: &mut Classes, literal: &Sexpr, out: &mut String) -> Result<(), CaseError> {
    let l = hypothesis(classes.table(), literal)?;
    tell(classes, l)?;
    Ok(out.push_str("told")?)
}

/// Merges what the literal states.
fn tell(classes: &mut Classes, l: Lit) -> Result<(), CaseError>
    requires stripped { IsStripped classes.old.terms l.term }
{
    match classes.merge(l.term, truth(l.positive), Reason::Hyp(l)) {
        Ok(()) => Ok(()),
        Err(CongrError) => Err(CaseError::NoMemory),
    }
}

/// The term `true` or `false`.
fn truth(value: bool) -> TermId
    ensures value { result ≡ truth_term value }
{
    if value { TermId(0) } else { TermId(1) }
}

/// Closes the classes.
fn show_closed(alloc: Global, classes: &mut Classes, out: &mut String) -> Result<(), CaseError> {
    let closed = close(classes)?;
    show_classes(alloc, classes, closed, out)?;
    show_counts(alloc, classes, out)
}

/// Closes them up to the first clash.
fn show_look(alloc: Global, classes: &mut Classes, out: &mut String) -> Result<(), CaseError> {
    match classes.close_or_clash() {
        Ok(Closed::Quiet) => show_classes(alloc, classes, Closed::Quiet, out),
        Ok(Closed::Clash(_, _)) => Ok(out.push_str("clash")?),
        Err(CongrError) => Err(CaseError::NoMemory),
    }
}

/// Marks them, if no constructors meet.
fn show_mark(alloc: Global, classes: &mut Classes, out: &mut String) -> Result<(), CaseError> {
    let closed = close(classes)?;
    match closed {
        Closed::Clash(_, _) => Ok(out.push_str("no mark")?),
        Closed::Quiet => {
            let mark = set_mark(classes)?;
            let merges = mark.merges;
            Ok(out.push_str(format!(in alloc; "mark {merges}")?.as_str())?)
        }
    }
}

/// Marks them.
fn set_mark(classes: &mut Classes) -> Result<ClassMark, CaseError>
    requires quiet { IsQuiet classes.old }
{
    match classes.mark() {
        Ok(mark) => Ok(mark),
        Err(CongrError) => Err(CaseError::NoMemory),
    }
}

/// Goes back to the mark with this number.
fn show_back(
    alloc: Global,
    classes: &mut Classes,
    index: usize,
    out: &mut String,
) -> Result<(), CaseError> {
    let Some(mark) = kept(classes, index) else {
        return Err(CaseError::Bad);
    };
    classes.back_to(&mark);
    show_classes(alloc, classes, Closed::Quiet, out)?;
    show_counts(alloc, classes, out)
}

/// The mark with this number.
fn kept(classes: &Classes, index: usize) -> Option<ClassMark>
    ensures kept { IfSome result (λ mark. (k : ℕ) × (at : Marked) × IsFirstMark classes.now.marks mark.merges k at) }
{
    mark_at(classes.marks(), index)
}

/// What stands at the index.
fn mark_at(marks: &[ClassMark], index: usize) -> Option<ClassMark>
    ensures value { result ≡ slice_get marks.now index }
{
    marks.get(index).copied()
}

/// Shows how many merges, hypotheses and marks there are.
fn show_counts(alloc: Global, classes: &Classes, out: &mut String) -> Result<(), CaseError> {
    let merges = classes.merges().len();
    let hypotheses = classes.hypotheses().len();
    let marks = classes.marks().len();
    let text = format!(in alloc; ", {merges} merges, {hypotheses} hypotheses, {marks} marks")?;
    Ok(out.push_str(text.as_str())?)
}
