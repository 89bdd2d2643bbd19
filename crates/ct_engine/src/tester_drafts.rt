//! The equality steps of lemmas on testers and equations. A draft without steps means that there is no lemma.
ghost use Rattle.std.specs.Prelude.{IsErrOf};
ghost use Rattle.ct_sorts.specs.Declarations.{IsConstructor};

use crate::draft::{congruent, contradict, suppose, write};
use crate::error::SolveError;
use ct_explain::EqProof;
use ct_log::EqStep;
use ct_sorts::{CtorId, Signature};
use ct_terms::{Args, Core, TermId, TermTable};
use std::alloc::Global;

/// Whether the term is a constructor term.
pub(crate) fn is_built(table: &TermTable, t: TermId) -> bool {
    if t.0 >= table.len() {
        return false;
    }
    match table.core(t) {
        Core::Con(_, _) => true,
        _ => false,
    }
}

/// Where the tester of the constructor holds, the tester `t` of the term does not, whose constructor is a later one.
pub(crate) fn at_most_one(
    alloc: Global,
    sig: &Signature,
    table: &TermTable,
    t: TermId,
    x: TermId,
    c: CtorId,
) -> Result<EqProof, SolveError>
    requires declared { IsConstructor sig.now c }
    ensures err { IsErrOf result SolveError.TooLarge → ⊥ }
{
    let mut proof = empty(alloc);
    let Some(other) = tester(table, c, x) else {
        return Ok(proof);
    };
    if other.0 >= t.0 {
        return Ok(proof);
    }
    let Some(expanded) = expansion(alloc, sig, table, c, x)? else {
        return Ok(proof);
    };
    let holds = suppose(&mut proof, other, true)?;
    let is = write(&mut proof, EqStep::Expand(holds, expanded))?;
    let tested = write(&mut proof, EqStep::Test(t, is))?;
    contradict(&mut proof, tested, t, false)?;
    Ok(proof)
}

/// Where the equation `t` of the term with a constructor term holds, the tester of the constructor has the value that it has
/// of the constructor term.
pub(crate) fn built(
    alloc: Global,
    table: &TermTable,
    t: TermId,
    x: TermId,
    con: TermId,
    c: CtorId,
) -> Result<EqProof, SolveError>
    ensures err { IsErrOf result SolveError.TooLarge → ⊥ }
{
    let mut proof = empty(alloc);
    let Some(test) = tester(table, c, x) else {
        return Ok(proof);
    };
    let holds = suppose(&mut proof, t, true)?;
    let mut is = write(&mut proof, EqStep::EqualOut(holds))?;
    if !begins_with(table, t, x) {
        is = write(&mut proof, EqStep::Sym(is))?;
    }
    let tested = write(&mut proof, EqStep::Test(test, is))?;
    contradict(&mut proof, tested, test, is_of(table, con, c))?;
    Ok(proof)
}

/// Where the tester of the constructor term's constructor holds, which has no fields, the equation `t` does.
pub(crate) fn constant(
    alloc: Global,
    table: &TermTable,
    t: TermId,
    x: TermId,
    con: TermId,
) -> Result<EqProof, SolveError>
    ensures err { IsErrOf result SolveError.TooLarge → ⊥ }
{
    let mut proof = empty(alloc);
    let Some(c) = constant_of(table, con) else {
        return Ok(proof);
    };
    let Some(test) = tester(table, c, x) else {
        return Ok(proof);
    };
    let holds = suppose(&mut proof, test, true)?;
    let mut is = write(&mut proof, EqStep::Expand(holds, con))?;
    if !begins_with(table, t, x) {
        is = write(&mut proof, EqStep::Sym(is))?;
    }
    let equal = write(&mut proof, EqStep::EqualIn(t, is))?;
    contradict(&mut proof, equal, t, true)?;
    Ok(proof)
}

/// Where the equation `t` of two terms holds and the tester of the second has this value, that of the first has it too.
pub(crate) fn equal(
    alloc: Global,
    table: &TermTable,
    t: TermId,
    x: TermId,
    y: TermId,
    c: CtorId,
    positive: bool,
) -> Result<EqProof, SolveError>
    ensures err { IsErrOf result SolveError.TooLarge → ⊥ }
{
    let mut proof = empty(alloc);
    let Some(one) = tester(table, c, x) else {
        return Ok(proof);
    };
    let Some(other) = tester(table, c, y) else {
        return Ok(proof);
    };
    let holds = suppose(&mut proof, t, true)?;
    let is = write(&mut proof, EqStep::EqualOut(holds))?;
    let same = congruent(alloc, &mut proof, one, other, is)?;
    let tested = suppose(&mut proof, other, positive)?;
    let too = write(&mut proof, EqStep::Trans(same, tested))?;
    contradict(&mut proof, too, one, positive)?;
    Ok(proof)
}

/// Where the testers of two terms for a constructor without fields hold, the equation `t` of the two does.
pub(crate) fn both(
    alloc: Global,
    table: &TermTable,
    t: TermId,
    x: TermId,
    y: TermId,
    c: CtorId,
) -> Result<EqProof, SolveError>
    ensures err { IsErrOf result SolveError.TooLarge → ⊥ }
{
    let mut proof = empty(alloc);
    let Some(con) = table.find(&Core::Con(c, Args::new(alloc))) else {
        return Ok(proof);
    };
    let Some(one) = tester(table, c, x) else {
        return Ok(proof);
    };
    let Some(other) = tester(table, c, y) else {
        return Ok(proof);
    };
    let left = suppose(&mut proof, one, true)?;
    let left = write(&mut proof, EqStep::Expand(left, con))?;
    let right = suppose(&mut proof, other, true)?;
    let right = write(&mut proof, EqStep::Expand(right, con))?;
    let turned = write(&mut proof, EqStep::Sym(right))?;
    let is = write(&mut proof, EqStep::Trans(left, turned))?;
    let equal = write(&mut proof, EqStep::EqualIn(t, is))?;
    contradict(&mut proof, equal, t, true)?;
    Ok(proof)
}

// No steps.
fn empty(alloc: Global) -> EqProof {
    EqProof {
        steps: Vec::new(alloc),
    }
}

// The tester of the constructor of the term, where there is one.
fn tester(table: &TermTable, c: CtorId, x: TermId) -> Option<TermId> {
    table.find(&Core::Test(c, x))
}

// The term of the constructor over the selectors of the term, where it is there.
fn expansion(
    alloc: Global,
    sig: &Signature,
    table: &TermTable,
    c: CtorId,
    x: TermId,
) -> Result<Option<TermId>, SolveError>
    requires declared { IsConstructor sig.now c }
    ensures err { IsErrOf result SolveError.TooLarge → ⊥ }
{
    let mut args = Args::new(alloc);
    for s in sig.ctor_sels(c) {
        match table.find(&Core::Sel(*s, x)) {
            None => return Ok(None),
            Some(field) => args.push(field)?,
        }
    }
    Ok(table.find(&Core::Con(c, args)))
}

// Whether the equation has the term on its left.
fn begins_with(table: &TermTable, t: TermId, x: TermId) -> bool {
    if t.0 >= table.len() {
        return false;
    }
    match table.core(t) {
        Core::Eq(a, _) => *a == x,
        _ => false,
    }
}

// Whether the term is one of the constructor.
fn is_of(table: &TermTable, t: TermId, c: CtorId) -> bool {
    if t.0 >= table.len() {
        return false;
    }
    match table.core(t) {
        Core::Con(d, _) => *d == c,
        _ => false,
    }
}

// The constructor of a constructor term without arguments.
fn constant_of(table: &TermTable, t: TermId) -> Option<CtorId> {
    if t.0 >= table.len() {
        return None;
    }
    match table.core(t) {
        Core::Con(c, args) => {
            if args.as_slice().is_empty() {
                return Some(*c);
            }
            None
        }
        _ => None,
    }
}
