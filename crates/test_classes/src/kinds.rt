//! Answers over the table of these terms, which begins with `true` and `false`, and under these
//! hypotheses, literals `n` or `(not n)`. `(classes (TERM ..) (LITERAL ..))` closes the classes, and
//! shows `quiet` or `clash` and each class of two or more terms. With the same parts `order` shows
//! whether the classes of datatypes have an order or a `cycle`, or that they `clash`; `hops`
//! shows the constructor terms of the cycle, each with the index of the argument that leads on; `blocks` shows
//! the blocks of two or more classes in the coarsest partition, and whether there is a first `pair`;
//! `pairs` shows how many pairs this one needs; `explain`
//! explains the equations of all classes and shows how many are accepted; and `conflict` shows
//! whether the line is accepted that the `clash` or the `cycle` makes. `consult` asks the theory, and
//! shows the classes that are `saturated`, or the `clash` or the `cycle`, how many of the hypotheses
//! its line names, and whether it is accepted. `(why (TERM ..) (LITERAL ..) A B)` explains one
//! equation, and shows the number of steps. `(steps (TERM ..) (LITERAL ..) STEP ..)` shows what each step on the closed
//! classes comes to: `(tell LITERAL)` makes it a hypothesis, `(close)` closes them, `(look)` closes them up to the first
//! clash, `(mark)` closes and marks them, and `(back N)` goes back to the mark with the number N, from 0 on.
ghost use Rattle.std.specs.Prelude.{All};
ghost use Rattle.ct_card.specs.Sizes.{AreSizes};
ghost use Rattle.ct_terms.specs.declared.ids.Lit.{Lit};
ghost use Rattle.ct_terms.specs.Literal.{IsStripped};
ghost use Rattle.ct_terms.specs.Terms.{AreSorted};
ghost use Rattle.ct_congr.specs.State.{IsAnswer};

use crate::blocks::{show_blocks, show_pairs};
use crate::conflict::{clash, cycle};
use crate::consult::show_consulted;
use crate::explain::{Explained, contradict, explain, explain_all, forest_of, state_all};
use crate::hops::show_hops;
use crate::judge::{clause_of, is_accepted};
use crate::numbers::term_of;
use crate::prepare::{Prepared, prepare};
use crate::show::show_classes;
use crate::steps::show_steps;
use ct_acyclic::{OrderError, order};
use ct_cases::CaseError;
use ct_congr::{Classes, Closed};
use ct_explain::EqProof;
use ct_log::Close;
use ct_sexpr::Sexpr;
use ct_sorts::Signature;
use ct_terms::TermId;
use std::alloc::Global;

/// Answers a case.
pub fn answer(
    alloc: Global,
    sig: &Signature,
    kind: &str,
    parts: &[Sexpr],
    out: &mut String,
) -> Result<(), CaseError> {
    match parts {
        [terms, hyps, rest @ ..] => {
            let mut prepared = prepare(alloc, sig, terms, hyps)?;
            if kind == "steps" {
                return show_steps(alloc, &mut prepared.classes, rest, out);
            }
            respond(alloc, sig, &prepared, kind, rest, out)
        }
        _ => Err(CaseError::Bad),
    }
}

/// Answers a case over these classes.
fn respond(
    alloc: Global,
    sig: &Signature,
    prepared: &Prepared,
    kind: &str,
    parts: &[Sexpr],
    out: &mut String,
) -> Result<(), CaseError>
    requires sizes { AreSizes sig.now prepared.now.sizes.value }
    requires sorted { AreSorted sig.now prepared.now.table.value }
    requires stripped { All (λ (l : Lit). IsStripped prepared.now.table.value l.term) prepared.now.hyps.items }
    requires answer { IsAnswer prepared.now.classes.value prepared.now.closed }
{
    match (kind, parts) {
        ("classes", []) => show_classes(alloc, &prepared.classes, prepared.closed, out),
        ("order", []) => show_order(alloc, &prepared.classes, prepared.closed, out),
        ("hops", []) => show_hops(alloc, &prepared.classes, prepared.closed, out),
        ("blocks", []) => show_blocks(alloc, &prepared.classes, prepared.closed, out),
        ("pairs", []) => show_pairs(alloc, &prepared.classes, prepared.closed, out),
        ("explain", []) => explain_classes(alloc, sig, prepared, out),
        ("why", [a, b]) => explain_terms(alloc, sig, prepared, term_of(a)?, term_of(b)?, out),
        ("conflict", []) => show_conflict(alloc, sig, prepared, out),
        ("consult", []) => show_consulted(alloc, sig, prepared, out),
        _ => Err(CaseError::Bad),
    }
}

/// Shows whether the classes of datatypes have an order.
fn show_order(
    alloc: Global,
    classes: &Classes,
    closed: Closed,
    out: &mut String,
) -> Result<(), CaseError>
    requires answer { IsAnswer classes.now closed }
{
    match closed {
        Closed::Clash(_, _) => Ok(out.push_str("clash")?),
        Closed::Quiet => match order(alloc, classes) {
            Ok(_) => Ok(out.push_str("order yes")?),
            Err(OrderError::Cycle(_)) => Ok(out.push_str("order cycle")?),
            Err(OrderError::NoMemory) => Err(CaseError::NoMemory),
        },
    }
}

/// Explains all classes.
fn explain_classes(
    alloc: Global,
    sig: &Signature,
    prepared: &Prepared,
    out: &mut String,
) -> Result<(), CaseError>
    requires sizes { AreSizes sig.now prepared.now.sizes.value }
    requires sorted { AreSorted sig.now prepared.now.table.value }
{
    let forest = forest_of(alloc, &prepared.classes)?;
    let mut proof = EqProof {
        steps: Vec::new(alloc),
    };
    let all = explain_all(alloc, &prepared.classes, &forest, &mut proof)?;
    show_accepted(alloc, sig, prepared, &all, proof, out)
}

/// Explains the equation of two terms.
fn explain_terms(
    alloc: Global,
    sig: &Signature,
    prepared: &Prepared,
    left: TermId,
    right: TermId,
    out: &mut String,
) -> Result<(), CaseError>
    requires sizes { AreSizes sig.now prepared.now.sizes.value }
    requires sorted { AreSorted sig.now prepared.now.table.value }
{
    let forest = forest_of(alloc, &prepared.classes)?;
    let mut proof = EqProof {
        steps: Vec::new(alloc),
    };
    let step = explain(&prepared.classes, &forest, left, right, &mut proof)?;
    let steps = proof.steps.len();
    out.push_str(format!(in alloc; "explained {steps} ")?.as_str())?;
    let all = [Explained { left, right, step }];
    show_accepted(alloc, sig, prepared, &all, proof, out)
}

/// Shows how many equations the explanations have, and whether they are accepted.
fn show_accepted(
    alloc: Global,
    sig: &Signature,
    prepared: &Prepared,
    all: &[Explained],
    proof: EqProof,
    out: &mut String,
) -> Result<(), CaseError>
    requires sizes { AreSizes sig.now prepared.now.sizes.value }
    requires sorted { AreSorted sig.now prepared.now.table.value }
{
    let count = all.len();
    if are_accepted(alloc, sig, prepared, all, proof)? {
        out.push_str(format!(in alloc; "accepted {count}")?.as_str())?;
    } else {
        out.push_str(format!(in alloc; "refused {count}")?.as_str())?;
    }
    Ok(())
}

/// Whether the line is accepted that has these explanations.
fn are_accepted(
    alloc: Global,
    sig: &Signature,
    prepared: &Prepared,
    all: &[Explained],
    mut proof: EqProof,
) -> Result<bool, CaseError>
    requires sizes { AreSizes sig.now prepared.now.sizes.value }
    requires sorted { AreSorted sig.now prepared.now.table.value }
{
    state_all(all, &mut proof)?;
    let close = contradict(&mut proof)?;
    let clause = clause_of(alloc, &prepared.hyps, Some(TermId(0)))?;
    is_accepted(
        alloc,
        sig,
        &prepared.sizes,
        &prepared.table,
        clause,
        proof,
        close,
    )
}

/// Shows what contradicts itself in the classes, and whether its line is accepted.
fn show_conflict(
    alloc: Global,
    sig: &Signature,
    prepared: &Prepared,
    out: &mut String,
) -> Result<(), CaseError>
    requires sizes { AreSizes sig.now prepared.now.sizes.value }
    requires sorted { AreSorted sig.now prepared.now.table.value }
    requires answer { IsAnswer prepared.now.classes.value prepared.now.closed }
{
    let mut proof = EqProof {
        steps: Vec::new(alloc),
    };
    match conflict_of(alloc, &prepared.classes, prepared.closed, &mut proof, out)? {
        Some(close) => {
            let clause = clause_of(alloc, &prepared.hyps, None)?;
            let answer = is_accepted(
                alloc,
                sig,
                &prepared.sizes,
                &prepared.table,
                clause,
                proof,
                close,
            )?;
            Ok(out.push_str(if answer { " accepted" } else { " refused" })?)
        }
        None => Ok(()),
    }
}

/// Explains what contradicts itself, and shows what it is.
fn conflict_of(
    alloc: Global,
    classes: &Classes,
    closed: Closed,
    proof: &mut EqProof,
    out: &mut String,
) -> Result<Option<Close>, CaseError>
    requires answer { IsAnswer classes.now closed }
{
    let forest = forest_of(alloc, classes)?;
    match closed {
        Closed::Clash(a, b) => {
            out.push_str("clash")?;
            Ok(Some(clash(classes, &forest, a, b, proof)?))
        }
        Closed::Quiet => match order(alloc, classes) {
            Ok(_) => {
                out.push_str("none")?;
                Ok(None)
            }
            Err(OrderError::Cycle(hops)) => {
                out.push_str("cycle")?;
                Ok(Some(cycle(alloc, classes, &forest, &hops, proof)?))
            }
            Err(OrderError::NoMemory) => Err(CaseError::NoMemory),
        },
    }
}
