//! What is left to do while sorts are added, on a stack: the arguments of a sort come before it, from left to right.
ghost use Rattle.std.specs.Prelude.{◌≡◌, ◌<◌, ◌+◌, List, [], ◌∷◌, ◌++◌, length, map, reverse, IfOk, IfErr, OnOk, MatchOption};
ghost use Rattle.ct_generics.specs.declared.nodes.ExprId.{ExprId};
ghost use Rattle.ct_generics.specs.declared.tasks.Task.{Task};
ghost use Rattle.ct_generics.specs.declared.tasks.Task.TheVariants.{Add, Arguments, Make};
ghost use Rattle.ct_generics.specs.Expression.{Expression};
ghost use Rattle.ct_generics.specs.Nodes.{StandFor};
ghost use Rattle.ct_generics.specs.Tasks.{Task as ToDo, AreTasks, IsBegun, IsNext, IsTask, weight, weight_of};

use crate::error::GenericError;
use crate::ids::ExprIds;
use crate::nodes::{ExprId, Expressions};
use crate::spine::split;

/// A step of adding sorts.
#[derive(Clone, Copy, Debug)]
pub(crate) enum Task {
    /// A sort, where it is not there.
    Add(ExprId),
    /// The arguments of a sort.
    Arguments(ExprId),
    /// A sort whose arguments were added, where it is not there.
    Make(ExprId),
}

/// Has these sorts added next, in order. The only error is `NoMemory`.
pub(crate) fn push_sorts(tasks: &mut Vec<Task>, ids: &[ExprId]) -> Result<(), GenericError>
    ensures pushed { OnOk result (reverse tasks.new.items ≡ map Add ids.now ++ reverse tasks.old.items) }
    ensures err { IfErr result (λ e. e ≡ GenericError.NoMemory) }
{
    for id in ids.iter().rev() {
        tasks.push(Task::Add(*id))?;
    }
    Ok(())
}

/// Goes on until a sort is to be made: this one, or none where nothing is left to do. The only error is `NoMemory`.
pub(crate) fn next_made(
    table: &Expressions,
    sorts: &ExprIds,
    tasks: &mut Vec<Task>,
) -> Result<Option<ExprId>, GenericError>
    requires sorts { (es : List Expression) × StandFor table.now sorts.now es }
    requires tasks { (todo : List ToDo) × AreTasks table.now tasks.old.items todo }
    ensures next { IfOk result (λ next. IsNext table.now sorts.now tasks.old.items next tasks.new.items) }
    ensures err { IfErr result (λ e. e ≡ GenericError.NoMemory) }
{
    while let Some(task) = pop(tasks) {
        if let Some(id) = begin(table, sorts, tasks, task)? {
            return Ok(Some(id));
        }
    }
    Ok(None)
}

// Takes the last task.
fn pop(tasks: &mut Vec<Task>) -> Option<Task>
    ensures popped { MatchOption result (tasks.old.items ≡ []) (λ task. tasks.old.items ≡ tasks.new.items ++ task ∷ []) }
{
    tasks.pop()
}

// Begins a task: a sort that is to be made now, or none, and then what the task is made of is on the stack.
fn begin(
    table: &Expressions,
    sorts: &ExprIds,
    tasks: &mut Vec<Task>,
    task: Task,
) -> Result<Option<ExprId>, GenericError>
    requires task { (todo : ToDo) × IsTask table.now task todo }
    ensures begun { IfOk result (λ next. IsBegun table.now sorts.now task tasks.old.items next tasks.new.items) }
    ensures less { OnOk result (weight tasks.new.items < weight tasks.old.items + weight_of task) }
    ensures err { IfErr result (λ e. e ≡ GenericError.NoMemory) }
{
    match task {
        Task::Add(id) => begin_sort(table, sorts, tasks, id),
        Task::Arguments(id) => begin_arguments(table, tasks, id),
        Task::Make(id) => Ok(if_missing(table, sorts, id)),
    }
}

// A sort that is not there: its arguments come first.
fn begin_sort(
    table: &Expressions,
    sorts: &ExprIds,
    tasks: &mut Vec<Task>,
    id: ExprId,
) -> Result<Option<ExprId>, GenericError>
    ensures begun { IfOk result (λ next. IsBegun table.now sorts.now (Add id) tasks.old.items next tasks.new.items) }
    ensures less { OnOk result (weight tasks.new.items < weight tasks.old.items + weight_of (Add id)) }
    ensures err { IfErr result (λ e. e ≡ GenericError.NoMemory) }
{
    let _single = table.len();
    if sorts.contains(id) {
        return Ok(None);
    }
    tasks.push(Task::Make(id))?;
    tasks.push(Task::Arguments(id))?;
    Ok(None)
}

// The arguments of a sort: all but the last, and then this.
fn begin_arguments(
    table: &Expressions,
    tasks: &mut Vec<Task>,
    id: ExprId,
) -> Result<Option<ExprId>, GenericError>
    requires within { id.0 < length table.now }
    ensures begun { IfOk result (λ next. (ids : List ExprId) → IsBegun table.now ids (Arguments id) tasks.old.items next tasks.new.items) }
    ensures less { OnOk result (weight tasks.new.items < weight tasks.old.items + weight_of (Arguments id)) }
    ensures err { IfErr result (λ e. e ≡ GenericError.NoMemory) }
{
    let Some(parts) = split(table, id) else {
        return Ok(None);
    };
    tasks.push(Task::Add(parts.argument))?;
    tasks.push(Task::Arguments(parts.function))?;
    Ok(None)
}

// The sort, where it is not there.
fn if_missing(table: &Expressions, sorts: &ExprIds, id: ExprId) -> Option<ExprId>
    ensures begun { (stack : List Task) → IsBegun table.now sorts.now (Make id) stack result stack }
{
    let _single = table.len();
    if sorts.contains(id) {
        return None;
    }
    Some(id)
}
