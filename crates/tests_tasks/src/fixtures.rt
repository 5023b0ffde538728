// Tasks that several tests begin with, all of the source `w`.
use book_rows::{Items, TaskKind, TaskRow, TaskStatus};
use seg_names::{Name, TaskId};
use std::alloc::Global;
use std::test::Fail;
use tab_tasks::Tasks;

// A task that waits, in a group of its own.
pub fn waiting_task(alloc: Global, task: &[u8]) -> Result<TaskRow, Fail> {
    let id = TaskId::new(alloc, task)?;
    let group = TaskId::new(alloc, task)?;
    let source = Name::new(alloc, b"w")?;
    Ok(TaskRow {
        task: id,
        group,
        source,
        kind: TaskKind::Batch,
        priority: 50,
        status: TaskStatus::Waiting,
        wants: Items::new(alloc),
    })
}

// Sets the status of a task that is there.
pub fn set_status(
    alloc: Global,
    tasks: &mut Tasks,
    task: &[u8],
    status: TaskStatus,
) -> Result<(), Fail> {
    let task = TaskId::new(alloc, task)?;
    if tasks.get(&task).is_some() {
        tasks.set_status(&task, status);
    }
    Ok(())
}
