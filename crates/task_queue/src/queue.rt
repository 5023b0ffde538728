//! Decides what `submit` and `end` come to.
ghost use Rattle.std.specs.Prelude.{◌≡◌, ◌++◌, ◌∷◌, [], length, IfOk, OnOk, OnErr};
ghost use Rattle.book_rows.specs.Outcome.{task_of};
ghost use Rattle.book_rows.specs.declared.rows.Book.{Book};
ghost use Rattle.task_queue.specs.Ending.{EndsAs, end_answer, end_from};
ghost use Rattle.task_queue.specs.Submitting.{HasAnswered, SubmitsAs, as_waiting, submit_fault};
ghost use Rattle.task_queue.specs.Waiting.{waiting_ids};

use crate::OutOfMemory;
use book_rows::{ROW_LIMIT, Table, TaskRow, TaskStatus};
use seg_names::TaskId;
use std::alloc::Global;
use tab_tasks::Tasks;

/// Why a task isn't submitted, or may not end.
#[derive(Clone, Copy, Debug, PartialEq, Eq)]
pub enum QueueFault {
    /// No task has the id.
    Unknown,
    /// A task has the id already.
    Exists,
    /// The task has this status, in which it can't end so.
    NotRunning(TaskStatus),
    /// The task has ended already, with this status.
    Ended(TaskStatus),
    /// The table has no room for a row more.
    Full(Table),
    /// Memory ran out.
    OutOfMemory,
}

impl From<OutOfMemory> for QueueFault {
    ghost use Rattle.std.specs.Prelude.{◌≡◌};
    ghost use Rattle.task_queue.specs.declared.queue.QueueFault.TheVariants.{OutOfMemory};

    ghost from_gives = { λ _ fault. fault ≡ OutOfMemory };

    fn from(_error: OutOfMemory) -> QueueFault {
        QueueFault::OutOfMemory
    }
}

fn as_waiting(mut row: TaskRow) -> TaskRow
    ensures { result ≡ as_waiting row }
{
    row.status = TaskStatus::Waiting;
    row
}

/// Adds a task that waits, whatever status its row has. `Exists` where a task has its id, else
/// `Full` where there are as many tasks as there may be. On an error the tasks stay as they were.
pub fn submit(tasks: &mut Tasks, row: TaskRow) -> Result<(), QueueFault>
    // `Exists` and `Full` come exactly where they should, and no other error but want of memory.
    ensures answer { HasAnswered result (submit_fault (task_of row.task tasks.old) (length tasks.old)) }
    ensures added { OnOk result (tasks.new ≡ tasks.old ++ as_waiting row ∷ []) }
    ensures kept { OnErr result (tasks.new ≡ tasks.old) }

    // Of a book with these tasks, the command comes to what the answer says.
    ensures outcome { (b : Book) → SubmitsAs result (record b { tasks = tasks.old }) (as_waiting row) }
{
    if tasks.get(&row.task).is_some() {
        return Err(QueueFault::Exists);
    }
    if tasks.count() >= ROW_LIMIT {
        return Err(QueueFault::Full(Table::Tasks));
    }
    tasks.add(as_waiting(row))?;
    Ok(())
}

/// The ids of the tasks that wait, in the order in which they were submitted. It costs what waits.
/// The error is want of memory.
pub fn waiting(alloc: Global, tasks: &Tasks) -> Result<Vec<TaskId>, OutOfMemory>
    ensures { IfOk result (λ ids. ids.items ≡ waiting_ids tasks.now) }
{
    let rows = tasks.waiting(alloc)?;
    let mut ids = Vec::with_capacity(alloc, rows.len())?;
    for row in rows {
        ids.push(row.task.twin(alloc)?)?;
    }
    Ok(ids)
}

// Whether a task of the first status may end with the second.
fn may_end_from(old: TaskStatus, status: TaskStatus) -> Result<bool, QueueFault>
    ensures { result ≡ end_from old status }
{
    match (old, status) {
        (TaskStatus::Success, TaskStatus::Success) | (TaskStatus::Failed, TaskStatus::Failed) => {
            Ok(false)
        }
        (TaskStatus::Success | TaskStatus::Failed, _) => Err(QueueFault::Ended(old)),
        (TaskStatus::Waiting, TaskStatus::Success) => Err(QueueFault::NotRunning(old)),
        _ => Ok(true),
    }
}

/// Whether the task may end with the status: false where it has ended with it already, so that
/// nothing is to be done. `Unknown` where no task has the id, `Ended` where the task has ended with
/// the other status, `NotRunning` where it waits and is to end with success.
pub fn may_end(tasks: &Tasks, task: &TaskId, status: TaskStatus) -> Result<bool, QueueFault>
    ensures answer { result ≡ end_answer (task_of task.now tasks.now) status }

    // Of a book with these tasks, the command comes to what the answer says.
    ensures outcome { (b : Book) → EndsAs result task.now (task_of task.now tasks.now) b status }
{
    match tasks.get(task) {
        Some(row) => may_end_from(row.status, status),
        None => Err(QueueFault::Unknown),
    }
}
