//! Adding sorts to none: which come to be sorts, in order, each written with its arguments.
ghost use Rattle.std.specs.Prelude.{List};
ghost use Rattle.ct_generics.specs.Declarations.{Declared};
ghost use Rattle.ct_generics.specs.Expression.{Expression};
ghost use Rattle.ct_generics.specs.SortTable.{AreSorts};
ghost use Rattle.ct_generics.specs.Stored.{AreDeclared};

use ct_cases::{CaseError, show_bytes};
use ct_generics::{
    ExprId, Expressions, GenericError, Generics, HeadId, Room, SortExpr, SortTable, add_sorts,
    denotations, head_and_args, resolve,
};
use std::alloc::Global;

/// How deep a sort may be nested.
const MOST_NESTED: u32 = 100;

/// Adds these sorts to none, one after the other, each where there is so much room.
pub fn add_all(
    alloc: Global,
    g: &Generics,
    room: Room,
    sorts: &[SortExpr],
) -> Result<SortTable, GenericError>
    requires declared { (d : Declared) × AreDeclared g.now d }
{
    let mut table = SortTable::new(alloc);
    for sort in sorts {
        add_one(alloc, g, &mut table, room, sort)?;
    }
    Ok(table)
}

/// Adds a sort.
fn add_one(
    alloc: Global,
    g: &Generics,
    table: &mut SortTable,
    room: Room,
    sort: &SortExpr,
) -> Result<(), GenericError>
    requires declared { (d : Declared) × AreDeclared g.now d }
    requires sorts { (before : List Expression) × AreSorts table.old before }
    ensures sorts { (after : List Expression) × AreSorts table.new after }
{
    denotations();
    let id = resolve(alloc, g, &mut table.expressions, sort)?;
    table.forget_counts();
    add_sorts(alloc, g, table, &[id], room)
}

/// Shows the sorts of the table.
pub fn show_sorts(
    alloc: Global,
    g: &Generics,
    table: &SortTable,
    out: &mut String,
) -> Result<(), CaseError>
    requires declared { (d : Declared) × AreDeclared g.now d }
{
    for i in 0..table.sorts.len() {
        out.push(' ')?;
        show_sort(
            alloc,
            g,
            &table.expressions,
            table.sorts.get(i),
            MOST_NESTED,
            out,
        )?;
    }
    Ok(())
}

/// Shows a sort, which is nested at most so deep.
#[cycle(shown)]
fn show_sort(
    alloc: Global,
    g: &Generics,
    table: &Expressions,
    id: ExprId,
    deep: u32,
    out: &mut String,
) -> Result<(), CaseError>
    requires declared { (d : Declared) × AreDeclared g.now d }
{
    if deep == 0 || id.0 >= table.len() as u64 {
        return Err(CaseError::Bad);
    }
    let Ok(spine) = head_and_args(alloc, table, id) else {
        return Err(CaseError::NoMemory);
    };
    match spine.head {
        Some(head) => show_applied(alloc, g, table, head, spine.args.as_slice(), deep - 1, out),
        None => Err(CaseError::Bad),
    }
}

/// Shows a name with its arguments.
#[cycle(shown)]
fn show_applied(
    alloc: Global,
    g: &Generics,
    table: &Expressions,
    head: HeadId,
    args: &[ExprId],
    deep: u32,
    out: &mut String,
) -> Result<(), CaseError>
    requires declared { (d : Declared) × AreDeclared g.now d }
{
    if args.is_empty() {
        return show_name(alloc, g, head, out);
    }
    out.push('(')?;
    show_name(alloc, g, head, out)?;
    for arg in args {
        out.push(' ')?;
        show_sort(alloc, g, table, *arg, deep, out)?;
    }
    out.push(')')?;
    Ok(())
}

/// Shows the name of a sort or generic.
fn show_name(alloc: Global, g: &Generics, head: HeadId, out: &mut String) -> Result<(), CaseError>
    requires declared { (d : Declared) × AreDeclared g.now d }
{
    if head.0 >= g.head_count() as u64 {
        return Err(CaseError::Bad);
    }
    show_bytes(alloc, g.head_name(head), out)
}
