//! Parses a model: its items one after another, up to the first that is refused.
ghost use Rattle.std.specs.Prelude.{◌≡◌, ℕ, ◌+◌, List, length, Ok, Err, Some, All, slice_get, IfOk, IsErrOf};
ghost use Rattle.ct_sexpr.specs.Expression.{Expression};
ghost use Rattle.ct_sorts.specs.Declarations.{IsSort};
ghost use Rattle.ct_sorts.specs.Grown.{Begins};
ghost use Rattle.ct_values.specs.WellFormed.{IsWellFormedGraph};
ghost use Rattle.ct_sorts.specs.Declarations.{Function, IsFunction, IsSelector};
ghost use Rattle.ct_eval.specs.declared.interp.Table.{Table};
ghost use Rattle.ct_model.specs.ModelText.{can_miss, off_numbers};
ghost use Rattle.ct_readback.specs.ItemText.{Due, due_function, due_off, all_due};
ghost use Rattle.ct_readback.specs.ItemAt.{TableValues, IsRight};
ghost use Rattle.ct_readback.specs.Progress.{IsReadAt, AreFunctions, AreSelectors};
ghost use Rattle.ct_readback.specs.Said.{IsTableOf};
ghost use Rattle.ct_sexpr.specs.View.{expression_of, expressions_of};
ghost use Rattle.ct_card.specs.Sizes.{AreSizes};
ghost use Rattle.ct_eval.specs.Interpretation.{IsProper};
ghost use Rattle.ct_readback.specs.declared.error.BackError.TheVariants.{Form};
ghost use Rattle.ct_readback.specs.ModelReads.{ModelReads, items_of, IsRefusedAt, IsFirstRefused};

use crate::defaults::{default_table, no_defaults};
use crate::error::BackError;
use crate::item::{DEPARTS, read_item};
use crate::parts::items_in;
use crate::pool::Pool;
use ct_card::Sizes;
use ct_eval::{Interp, Table, Tables};
use ct_sexpr::Sexpr;
use ct_sorts::{FunId, SelId, Signature, SortId};
use std::alloc::Global;

/// The interpretation that a model says over a signature: what `get-model` prints (SMT-LIB 2.7, section 4.2.6), or what was written
/// so by hand or by another solver. The sizes are those of the signature.
///
/// A model is a list of items: `(define-fun f ((@x0 S0) ..) T body)` for each function in order of declaration, then `(@off s ((@x0 S)) T
/// body)` for each selector of a sort with two or more constructors, in order. A body is `(ite test result rest)` for each row, and
/// a value as the default; a test is `(= @x0 v)`, or `(and (= @x0 v0) (= @x1 v1) ..)` for more arguments. A value is a constructor term,
/// an element `(as @U_3 U)`, or a graph `(@graph ((@0 node) (@1 node) ..) @0)`, in which a node is a constructor before numbers of
/// nodes or an element. It is refused at the first item, counted from 0, that is wrong, missing or too many:
///
/// - 45 where it departs from its form, is missing or is one too many;
/// - 46 where it does not fit the script: another name is due, a name is none of the script in that place, or a sort or the number of
///   arguments is wrong;
/// - 47 where a graph has a cycle of nodes of datatypes, whether the root reaches it or not.
///
/// Where one item has several of these, the least number counts. What is written several times as a constructor term is mostly one node.
/// The time is linear in the size of the expression and of the declarations.
pub fn read_model(
    alloc: Global,
    sig: &Signature,
    sizes: &Sizes,
    expr: &Sexpr,
) -> Result<Interp, BackError>
    requires sizes { AreSizes sig.now sizes.now }
    ensures read { IfOk result (λ interp. ModelReads sig.now sizes.now (expression_of expr.now) (Ok interp)) }
    ensures proper { IfOk result (IsProper sig.now) }
    ensures refused { (item code : ℕ) → IsErrOf result (Form item code)
        → ModelReads sig.now sizes.now (expression_of expr.now) (Err (item, code)) }
{
    let Some(items) = items_in(expr) else {
        return Err(BackError::Form {
            item: 0,
            code: DEPARTS,
        });
    };
    let mut graph = Pool::new(alloc);
    let funs = read_functions(alloc, sig, items, &mut graph)?;
    let (offs, count) = read_selectors(alloc, sig, sizes, items, &mut graph)?;
    if count < items.len() {
        return Err(BackError::Form {
            item: count as u64,
            code: DEPARTS,
        });
    }
    Ok(Interp {
        graph: graph.into_graph(),
        funs: Tables::new(funs),
        offs: Tables::new(offs),
    })
}

// The table that the item at this place says, where this is due.
fn table_at(
    alloc: Global,
    sig: &Signature,
    off: bool,
    name: &[u8],
    args: &[SortId],
    s: SortId,
    items: &[Sexpr],
    place: usize,
    graph: &mut Pool,
) -> Result<Table, BackError>
    requires args { All (IsSort sig.now) args.now }
    requires inside { IsSort sig.now s }
    requires well_formed { IsWellFormedGraph sig.now graph.old }
    ensures grown { Begins graph.old graph.new }
    ensures well_formed { IsWellFormedGraph sig.now graph.new }
    ensures read { IfOk result (λ table. (item : Expression) × (values : TableValues) × (slice_get (items_of (expressions_of items.now)) place ≡ Some item)
        × IsRight sig.now (record { off = off; name = name.now; args = args.now; result = s }) item values
        × IsTableOf sig.now graph.new args.now s values table) }
    ensures refused { (at code : ℕ) → IsErrOf result (Form at code) → (at ≡ place)
        × IsRefusedAt sig.now (Some (Some (record { off = off; name = name.now; args = args.now; result = s }))) (slice_get (items_of (expressions_of items.now)) place) code }
{
    let item = place as u64;
    if place >= items.len() {
        return Err(BackError::Form {
            item,
            code: DEPARTS,
        });
    }
    match read_item(alloc, sig, off, name, args, s, &items[place], graph) {
        Ok(Ok(table)) => Ok(table),
        Ok(Err(code)) => Err(BackError::Form { item, code }),
        Err(_) => Err(BackError::NoMemory),
    }
}

// The tables of all functions.
fn read_functions(
    alloc: Global,
    sig: &Signature,
    items: &[Sexpr],
    graph: &mut Pool,
) -> Result<Vec<Table>, BackError>
    requires well_formed { IsWellFormedGraph sig.now graph.old }
    ensures grown { Begins graph.old graph.new }
    ensures well_formed { IsWellFormedGraph sig.now graph.new }
    ensures read { IfOk result (λ tables. AreFunctions sig.now graph.new (items_of (expressions_of items.now)) (length sig.now.functions) tables.items) }
    ensures refused { (item code : ℕ) → IsErrOf result (Form item code) → IsFirstRefused sig.now (items_of (expressions_of items.now)) item code }
{
    let mut tables = Vec::new(alloc);
    for f in 0..sig.funs() {
        tables.push(read_function(alloc, sig, FunId(f), items, graph)?)?;
    }
    Ok(tables)
}

// The table of a function.
fn read_function(
    alloc: Global,
    sig: &Signature,
    f: FunId,
    items: &[Sexpr],
    graph: &mut Pool,
) -> Result<Table, BackError>
    requires declared { IsFunction sig.now f }
    requires well_formed { IsWellFormedGraph sig.now graph.old }
    ensures grown { Begins graph.old graph.new }
    ensures well_formed { IsWellFormedGraph sig.now graph.new }
    ensures read { IfOk result (λ table. (function : Function) → slice_get sig.now.functions f.0 ≡ Some function
        → IsReadAt sig.now graph.new (items_of (expressions_of items.now)) (due_function function) f.0 table) }
    ensures refused { (at code : ℕ) → IsErrOf result (Form at code) → (at ≡ f.0)
        × IsRefusedAt sig.now (slice_get (all_due sig.now) f.0) (slice_get (items_of (expressions_of items.now)) f.0) code }
{
    table_at(
        alloc,
        sig,
        false,
        sig.fun_name(f),
        sig.fun_args(f),
        sig.fun_result(f),
        items,
        f.0 as usize,
        graph,
    )
}

// The tables of all selectors, and the place after the last item that was read.
fn read_selectors(
    alloc: Global,
    sig: &Signature,
    sizes: &Sizes,
    items: &[Sexpr],
    graph: &mut Pool,
) -> Result<(Vec<Table>, usize), BackError>
    requires sizes { AreSizes sig.now sizes.now }
    requires functions { (tables : List Table) × AreFunctions sig.now graph.old (items_of (expressions_of items.now)) (length sig.now.functions) tables }
    requires well_formed { IsWellFormedGraph sig.now graph.old }
    ensures grown { Begins graph.old graph.new }
    ensures well_formed { IsWellFormedGraph sig.now graph.new }
    ensures read { IfOk result (λ read. AreSelectors sig.now sizes.now graph.new (items_of (expressions_of items.now)) (length sig.now.functions) (length sig.now.sels) read.0.items) }
    ensures place { IfOk result (λ read. read.1 ≡ length sig.now.functions + length (off_numbers sig.now)) }
    ensures refused { (item code : ℕ) → IsErrOf result (Form item code) → IsFirstRefused sig.now (items_of (expressions_of items.now)) item code }
{
    let mut tables = Vec::new(alloc);
    let mut defaults = no_defaults(alloc);
    let mut place = sig.funs() as usize;
    for s in 0..sig.mark().sels() {
        if !can_miss(sig, SelId(s)) {
            let sort = sig.sel_sort(SelId(s));
            tables.push(default_table(alloc, sig, sizes, sort, graph, &mut defaults)?)?;
            continue;
        }
        tables.push(read_selector(alloc, sig, SelId(s), items, place, graph)?)?;
        place += 1;
    }
    Ok((tables, place))
}

// The table of a selector where it is wrongly applied.
fn read_selector(
    alloc: Global,
    sig: &Signature,
    s: SelId,
    items: &[Sexpr],
    place: usize,
    graph: &mut Pool,
) -> Result<Table, BackError>
    requires declared { IsSelector sig.now s }
    requires well_formed { IsWellFormedGraph sig.now graph.old }
    ensures grown { Begins graph.old graph.new }
    ensures well_formed { IsWellFormedGraph sig.now graph.new }
    ensures read { IfOk result (λ table. (due : Due) → due_off sig.now s.0 ≡ Some due
        → IsReadAt sig.now graph.new (items_of (expressions_of items.now)) due place table) }
    ensures refused { (at code : ℕ) → IsErrOf result (Form at code) → (at ≡ place)
        × IsRefusedAt sig.now (Some (due_off sig.now s.0)) (slice_get (items_of (expressions_of items.now)) place) code }
{
    let of = sig.ctor_sort(sig.sel_ctor(s));
    table_at(
        alloc,
        sig,
        true,
        sig.sel_name(s),
        &[of],
        sig.sel_sort(s),
        items,
        place,
        graph,
    )
}

// Whether the sort of the selector's argument has two or more constructors.
fn can_miss(sig: &Signature, s: SelId) -> bool
    requires declared { IsSelector sig.now s }
    ensures value { result ≡ can_miss sig.now s.0 }
{
    let of = sig.ctor_sort(sig.sel_ctor(s));
    sig.ctors(of).len() > 1
}
