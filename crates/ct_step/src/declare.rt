//! The commands that declare, define and assert (SMT-LIB 2.7, sections 4.2.3 and 4.2.4).
ghost use Rattle.std.specs.Prelude.{◌≡◌, ℕ, IfOk};
ghost use Rattle.ct_sexpr.specs.View.{expression_of};
ghost use Rattle.ct_command.specs.Command.{define_sort, declare_sort, declare_block, declare_fun, define_fun, assert};
ghost use Rattle.ct_command.specs.Seen.{bytes_seen, names_seen, all_seen, heads_seen, bodies_seen, nameds_seen};
ghost use Rattle.ct_step.specs.Done.{IsDone};

use crate::answer::{Answer, quiet};
use crate::state::SessionState;
use ct_command::{Body, CommandError, Family, Named, SortHead};
use ct_sexpr::{Bytes, Sexpr};
use std::alloc::{AllocError, Global};

/// Declares an uninterpreted sort.
pub(crate) fn declare_sort(
    alloc: Global,
    state: &mut SessionState,
    name: &[u8],
    params: u8,
) -> Result<Answer, CommandError>
    ensures done { (number : ℕ) → IsDone state.old number (declare_sort name.now params) state.new result }
{
    let answer = quiet(alloc, state.options)?;
    state.stack.declare_sort(alloc, name, params)?;
    state.kept = None;
    Ok(answer)
}

/// Adds a synonym of a sort.
pub(crate) fn define_sort(
    alloc: Global,
    state: &mut SessionState,
    name: &[u8],
    params: Vec<&[u8]>,
    body: &Sexpr,
) -> Result<Answer, CommandError>
    ensures done { (number : ℕ) → IsDone state.old number (define_sort name.now (names_seen params.entry) (expression_of body.now)) state.new result }
{
    let answer = quiet(alloc, state.options)?;
    state
        .stack
        .define_sort(alloc, name, params.as_slice(), body)?;
    state.kept = None;
    Ok(answer)
}

/// Declares a block of sorts.
pub(crate) fn declare_block(
    alloc: Global,
    state: &mut SessionState,
    family: Family,
    heads: Vec<SortHead<'_>>,
    bodies: Vec<Body<'_>>,
) -> Result<Answer, CommandError>
    ensures done { (number : ℕ) → IsDone state.old number (declare_block family (heads_seen heads.entry) (bodies_seen bodies.entry)) state.new result }
{
    let answer = quiet(alloc, state.options)?;
    state
        .stack
        .declare_block(alloc, family, heads.as_slice(), bodies.as_slice())?;
    state.kept = None;
    Ok(answer)
}

/// Declares a function.
pub(crate) fn declare_function(
    alloc: Global,
    state: &mut SessionState,
    name: &[u8],
    args: &[Sexpr],
    sort: &Sexpr,
) -> Result<Answer, CommandError>
    ensures done { (number : ℕ) → IsDone state.old number (declare_fun name.now (all_seen args.now) (expression_of sort.now)) state.new result }
{
    let answer = quiet(alloc, state.options)?;
    state.stack.declare_function(alloc, name, args, sort)?;
    state.kept = None;
    Ok(answer)
}

/// Adds a definition.
pub(crate) fn define_function(
    alloc: Global,
    state: &mut SessionState,
    name: &[u8],
    params: Vec<Named<'_>>,
    sort: &Sexpr,
    term: &Sexpr,
) -> Result<Answer, CommandError>
    ensures done { (number : ℕ) → IsDone state.old number (define_fun name.now (nameds_seen params.entry) (expression_of sort.now) (expression_of term.now)) state.new result }
{
    let answer = quiet(alloc, state.options)?;
    state
        .stack
        .define_function(alloc, name, params.as_slice(), sort, term)?;
    state.kept = None;
    Ok(answer)
}

/// Adds an assertion, with its label where it has one. There is room for the label before anything changes.
pub(crate) fn assert(
    alloc: Global,
    state: &mut SessionState,
    term: &Sexpr,
    label: Option<&[u8]>,
) -> Result<Answer, CommandError>
    ensures done { (number : ℕ) → IsDone state.old number (assert (expression_of term.now) (bytes_seen label.entry)) state.new result }
{
    let answer = quiet(alloc, state.options)?;
    let name = name_of(alloc, label)?;
    state.labels.reserve(1)?;
    state.stack.assert(alloc, term, label)?;
    state.labels.push(name).unwrap();
    state.kept = None;
    Ok(answer)
}

// The name of a label.
fn name_of(alloc: Global, label: Option<&[u8]>) -> Result<Option<Bytes>, AllocError>
    ensures name { IfOk result (λ name. name ≡ bytes_seen label.entry) }
{
    match label {
        Some(name) => Ok(Some(Bytes::new(Vec::from_slice(alloc, name)?))),
        None => Ok(None),
    }
}
