//! An item of a model: the table that it defines, or its error.
ghost use Rattle.std.specs.Prelude.{◌≡◌, [], ◌∷◌, All, length, Some, IfOk, IfSome, IfNone};
ghost use Rattle.ct_sexpr.specs.Expression.{Expression, Expressions, none, more};
ghost use Rattle.ct_sexpr.specs.View.{expression_of, expressions_of};
ghost use Rattle.ct_sorts.specs.Declarations.{IsSort};
ghost use Rattle.ct_sorts.specs.Grown.{Begins};
ghost use Rattle.ct_values.specs.WellFormed.{IsWellFormedGraph};
ghost use Rattle.ct_readback.specs.ItemAt.{values_in, values_in_row, IsEquationAt, AreEquationsAt, IsTestAt, IsRowAt, SaysTable};
ghost use Rattle.ct_readback.specs.BodySoFar.{IsBodySoFar, IsReadOn, StandsBefore};
ghost use Rattle.ct_readback.specs.ItemRead.{IsItemRead};
ghost use Rattle.ct_readback.specs.Rows.{body_row, body_choice, first_row, after_tests};
ghost use Rattle.ct_readback.specs.Said.{IsSaid, IsPart, AreNodesFor, IsRowOf, IsTableOf, all_points};

use crate::error::BackError;
use crate::item_text::{has_parts, is_heading, item_in};
use crate::pool::Pool;
use crate::rows::{body_choice, conjuncts, equation_value, tests_in};
use crate::value::{Said, push_value};
use ct_eval::{Row, Rows, Table};
use ct_sexpr::Sexpr;
use ct_sorts::{Signature, SortId};
use ct_values::{NodeId, NodeIds};
use std::alloc::Global;

/// An item departs from its form.
pub(crate) const DEPARTS: u16 = 45;

/// It does not fit the script.
const MISFITS: u16 = 46;

/// A value of a datatype in it is cyclic.
const CYCLIC: u16 = 47;

/// What a part of an item says.
#[derive(Debug, Drop)]
pub(crate) enum Part<T> {
    /// It does not fit the script.
    Misfit,
    /// It has a value with a cycle of nodes of datatypes.
    Cycle,
    /// This.
    Fine(T),
}

// The rows of a body so far, and whether some value was a cycle.
#[derive(Debug, Drop)]
struct Found {
    rows: Vec<Row>,
    cyclic: bool,
}

/// The table that the item says where this is due, whether it is that of a selector, or the number of its error. In each case the
/// graph may have grown.
pub(crate) fn read_item(
    alloc: Global,
    sig: &Signature,
    off: bool,
    due_name: &[u8],
    args: &[SortId],
    s: SortId,
    item: &Sexpr,
    graph: &mut Pool,
) -> Result<Result<Table, u16>, BackError>
    requires args { All (IsSort sig.now) args.now }
    requires inside { IsSort sig.now s }
    requires well_formed { IsWellFormedGraph sig.now graph.old }
    ensures grown { Begins graph.old graph.new }
    ensures well_formed { IsWellFormedGraph sig.now graph.new }
    ensures read { IfOk result (IsItemRead sig.now graph.new (record { off = off; name = due_name.now; args = args.now; result = s }) (expression_of item.now)) }
{
    let Some((name, parameters, sort, body)) = item_in(off, item) else {
        return Ok(Err(DEPARTS));
    };
    if !has_parts(off, name, parameters, sort, body) {
        return Ok(Err(DEPARTS));
    }
    if !is_heading(sig, due_name, args, s, name, parameters, sort) {
        return Ok(Err(MISFITS));
    }
    match read_body(alloc, sig, args, s, body, graph)? {
        Part::Misfit => Ok(Err(MISFITS)),
        Part::Cycle => Ok(Err(CYCLIC)),
        Part::Fine(table) => Ok(Ok(table)),
    }
}

// The table that a body says.
fn read_body(
    alloc: Global,
    sig: &Signature,
    args: &[SortId],
    s: SortId,
    body: &Sexpr,
    graph: &mut Pool,
) -> Result<Part<Table>, BackError>
    requires args { All (IsSort sig.now) args.now }
    requires inside { IsSort sig.now s }
    requires well_formed { IsWellFormedGraph sig.now graph.old }
    ensures grown { Begins graph.old graph.new }
    ensures well_formed { IsWellFormedGraph sig.now graph.new }
    ensures table { IfOk result (IsPart sig.now (SaysTable sig.now args.now s (expression_of body.now)) values_in (IsTableOf sig.now graph.new args.now s)) }
{
    let mut found = Found {
        rows: Vec::new(alloc),
        cyclic: false,
    };
    let mut left = body;
    while let Some((test, value, rest)) = body_choice(args.len(), left) {
        left = rest;
        if !read_rows(alloc, sig, args, s, test, value, graph, &mut found)? {
            return Ok(Part::Misfit);
        }
    }
    match push_value(alloc, sig, s, left, graph)? {
        Said::Nothing => Ok(Part::Misfit),
        Said::Cycle => Ok(Part::Cycle),
        Said::Value(default) => {
            if found.cyclic {
                return Ok(Part::Cycle);
            }
            Ok(Part::Fine(Table {
                rows: Rows::new(found.rows),
                default,
            }))
        }
    }
}

// Adds the rows that the tests of a choice and its result say. Whether they fit the script.
fn read_rows(
    alloc: Global,
    sig: &Signature,
    sorts: &[SortId],
    s: SortId,
    test: &Sexpr,
    value: &Sexpr,
    graph: &mut Pool,
    found: &mut Found,
) -> Result<bool, BackError>
    requires args { All (IsSort sig.now) sorts.now }
    requires inside { IsSort sig.now s }
    requires well_formed { IsWellFormedGraph sig.now graph.old }
    ensures grown { Begins graph.old graph.new }
    ensures well_formed { IsWellFormedGraph sig.now graph.new }
    ensures read { IfOk result (λ fits. (body left rest : Expression)
        → IsBodySoFar sig.now sorts.now s body graph.old left found.old.cyclic found.old.rows.items
        → body_choice (length sorts.now) left ≡ Some (expression_of test.now, expression_of value.now, rest)
        → IsReadOn sig.now sorts.now s body graph.new rest found.new.cyclic found.new.rows.items fits) }
{
    if let Some(tests) = several_in(test) {
        let fits = add_rows(alloc, sig, sorts, s, tests, value, graph, found)?;
        return Ok(fits);
    }
    let fits = add_row(alloc, sig, sorts, s, test, value, graph, found)?;
    Ok(fits)
}

// The tests in an `or`, where there is one.
fn several_in(test: &Sexpr) -> Option<&[Sexpr]>
    ensures some { IfSome result (λ tests. (choice : Expression × Expression × Expression)
        → choice.0 ≡ expression_of test.now
        → (first : Expression) × (others : Expressions) × (expressions_of tests.now ≡ more first others) × (first_row choice ≡ (first, choice.1, after_tests others choice.1 choice.2))) }
    ensures none { IfNone result ((choice : Expression × Expression × Expression) → choice.0 ≡ expression_of test.now → first_row choice ≡ choice) }
{
    match tests_in(test) {
        None => None,
        Some([]) => None,
        Some(tests) => Some(tests),
    }
}

// Adds the rows that these tests and one result say. Whether they fit the script.
fn add_rows(
    alloc: Global,
    sig: &Signature,
    sorts: &[SortId],
    s: SortId,
    tests: &[Sexpr],
    value: &Sexpr,
    graph: &mut Pool,
    found: &mut Found,
) -> Result<bool, BackError>
    requires args { All (IsSort sig.now) sorts.now }
    requires inside { IsSort sig.now s }
    requires well_formed { IsWellFormedGraph sig.now graph.old }
    ensures grown { Begins graph.old graph.new }
    ensures well_formed { IsWellFormedGraph sig.now graph.new }
    ensures read { IfOk result (λ fits. (body left rest : Expression)
        → IsBodySoFar sig.now sorts.now s body graph.old left found.old.cyclic found.old.rows.items
        → StandsBefore (length sorts.now) (expressions_of tests.now) (expression_of value.now) rest left
        → IsReadOn sig.now sorts.now s body graph.new rest found.new.cyclic found.new.rows.items fits) }
{
    for index in 0..tests.len() {
        if !add_row(alloc, sig, sorts, s, &tests[index], value, graph, found)? {
            return Ok(false);
        }
    }
    Ok(true)
}

// Adds the row that a test and a result say. Whether it fits the script.
fn add_row(
    alloc: Global,
    sig: &Signature,
    sorts: &[SortId],
    s: SortId,
    test: &Sexpr,
    value: &Sexpr,
    graph: &mut Pool,
    found: &mut Found,
) -> Result<bool, BackError>
    requires args { All (IsSort sig.now) sorts.now }
    requires inside { IsSort sig.now s }
    requires well_formed { IsWellFormedGraph sig.now graph.old }
    ensures grown { Begins graph.old graph.new }
    ensures well_formed { IsWellFormedGraph sig.now graph.new }
    ensures read { IfOk result (λ fits. (body left rest : Expression)
        → IsBodySoFar sig.now sorts.now s body graph.old left found.old.cyclic found.old.rows.items
        → body_row (length sorts.now) left ≡ Some (expression_of test.now, expression_of value.now, rest)
        → IsReadOn sig.now sorts.now s body graph.new rest found.new.cyclic found.new.rows.items fits) }
{
    match read_row(alloc, sig, sorts, s, test, value, graph)? {
        Part::Misfit => Ok(false),
        Part::Cycle => {
            found.cyclic = true;
            Ok(true)
        }
        Part::Fine(row) => {
            found.rows.push(row)?;
            Ok(true)
        }
    }
}

// The row that a test and a result say.
fn read_row(
    alloc: Global,
    sig: &Signature,
    sorts: &[SortId],
    s: SortId,
    test: &Sexpr,
    value: &Sexpr,
    graph: &mut Pool,
) -> Result<Part<Row>, BackError>
    requires args { All (IsSort sig.now) sorts.now }
    requires inside { IsSort sig.now s }
    requires well_formed { IsWellFormedGraph sig.now graph.old }
    ensures grown { Begins graph.old graph.new }
    ensures well_formed { IsWellFormedGraph sig.now graph.new }
    ensures row { IfOk result (IsPart sig.now (IsRowAt sig.now sorts.now s (expression_of test.now) (expression_of value.now)) values_in_row (IsRowOf sig.now graph.new sorts.now s)) }
{
    let args = read_test(alloc, sig, sorts, test, graph)?;
    let said = push_value(alloc, sig, s, value, graph)?;
    match args {
        Part::Misfit => Ok(Part::Misfit),
        Part::Cycle => match said {
            Said::Nothing => Ok(Part::Misfit),
            Said::Cycle | Said::Value(_) => Ok(Part::Cycle),
        },
        Part::Fine(args) => match said {
            Said::Nothing => Ok(Part::Misfit),
            Said::Cycle => Ok(Part::Cycle),
            Said::Value(result) => Ok(Part::Fine(Row { args, result })),
        },
    }
}

// The arguments that a test says.
fn read_test(
    alloc: Global,
    sig: &Signature,
    sorts: &[SortId],
    test: &Sexpr,
    graph: &mut Pool,
) -> Result<Part<NodeIds>, BackError>
    requires args { All (IsSort sig.now) sorts.now }
    requires well_formed { IsWellFormedGraph sig.now graph.old }
    ensures grown { Begins graph.old graph.new }
    ensures well_formed { IsWellFormedGraph sig.now graph.new }
    ensures args { IfOk result (IsPart sig.now (IsTestAt sig.now sorts.now (expression_of test.now)) all_points (AreNodesFor sig.now graph.new sorts.now)) }
{
    if sorts.len() == 1 {
        return read_single(alloc, sig, sorts[0], test, graph);
    }
    match conjuncts(sorts.len(), test) {
        None => Ok(Part::Misfit),
        Some(equations) => read_equations(alloc, sig, sorts, equations, graph),
    }
}

// The only argument that an equation says.
fn read_single(
    alloc: Global,
    sig: &Signature,
    s: SortId,
    equation: &Sexpr,
    graph: &mut Pool,
) -> Result<Part<NodeIds>, BackError>
    requires inside { IsSort sig.now s }
    requires well_formed { IsWellFormedGraph sig.now graph.old }
    ensures grown { Begins graph.old graph.new }
    ensures well_formed { IsWellFormedGraph sig.now graph.new }
    ensures args { IfOk result (IsPart sig.now (AreEquationsAt sig.now 0 (s ∷ []) (more (expression_of equation.now) none)) all_points (AreNodesFor sig.now graph.new (s ∷ []))) }
{
    match read_equation(alloc, sig, s, 0, equation, graph)? {
        Said::Nothing => Ok(Part::Misfit),
        Said::Cycle => Ok(Part::Cycle),
        Said::Value(n) => {
            let mut nodes = Vec::with_capacity(alloc, 1)?;
            nodes.push(n)?;
            Ok(Part::Fine(NodeIds::new(nodes)))
        }
    }
}

// The argument number i that an equation says.
fn read_equation(
    alloc: Global,
    sig: &Signature,
    s: SortId,
    i: u64,
    equation: &Sexpr,
    graph: &mut Pool,
) -> Result<Said, BackError>
    requires inside { IsSort sig.now s }
    requires well_formed { IsWellFormedGraph sig.now graph.old }
    ensures grown { Begins graph.old graph.new }
    ensures well_formed { IsWellFormedGraph sig.now graph.new }
    ensures said { IfOk result (IsSaid sig.now graph.new (IsEquationAt sig.now i s (expression_of equation.now)) s) }
{
    match equation_value(i, equation) {
        None => Ok(Said::Nothing),
        Some(value) => push_value(alloc, sig, s, value, graph),
    }
}

// The arguments that equations say, one for each sort.
fn read_equations(
    alloc: Global,
    sig: &Signature,
    sorts: &[SortId],
    equations: &[Sexpr],
    graph: &mut Pool,
) -> Result<Part<NodeIds>, BackError>
    requires args { All (IsSort sig.now) sorts.now }
    requires well_formed { IsWellFormedGraph sig.now graph.old }
    requires one_each { length equations.now ≡ length sorts.now }
    ensures grown { Begins graph.old graph.new }
    ensures well_formed { IsWellFormedGraph sig.now graph.new }
    ensures args { IfOk result (IsPart sig.now (AreEquationsAt sig.now 0 sorts.now (expressions_of equations.now)) all_points (AreNodesFor sig.now graph.new sorts.now)) }
{
    let mut nodes: Vec<NodeId> = Vec::with_capacity(alloc, sorts.len())?;
    let mut cyclic = false;
    for i in 0..sorts.len() {
        let n = match read_equation(alloc, sig, sorts[i], i as u64, &equations[i], graph)? {
            Said::Nothing => return Ok(Part::Misfit),
            Said::Cycle => {
                cyclic = true;
                continue;
            }
            Said::Value(n) => n,
        };
        nodes.push(n)?;
    }
    if cyclic {
        return Ok(Part::Cycle);
    }
    Ok(Part::Fine(NodeIds::new(nodes)))
}
