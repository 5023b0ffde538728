//! `submit` and `end`, and tasks that fail.
ghost use Rattle.std.specs.Prelude.{◌≡◌, IfOk, IsSome, OnOk, Some};
ghost use Rattle.book_rows.specs.Locks.{left_all_locks};
ghost use Rattle.book_rows.specs.Outcome.{task_of};
ghost use Rattle.book_rows.specs.TaskSteps.{after_end, all_failed, end_of_task, end_running, failed, submitted, waiting_row, with_status};
ghost use Rattle.book_rows.specs.declared.kinds.TaskStatus.TheVariants as Statuses;
ghost use Rattle.book_rows.specs.declared.rows.TaskRow.{TaskRow as Row};
ghost use Rattle.task_queue.specs.Ending.{EndsAs};
ghost use Rattle.task_queue.specs.Submitting.{as_waiting};
ghost use Rattle.book_core.specs.Done.{IsDone};
ghost use Rattle.book_core.specs.Ends.{ended_by_row};

use crate::OutOfMemory;
use crate::outcomes::{Outcome, changed, queue_refused, repeated};
use crate::tables::Core;
use crate::twins::twin_both;
use book_rows::{Items, Reply, TaskKind, TaskRow, TaskStatus, Want};
use lockbox::release_all;
use seg_names::{Name, TaskId};
use std::alloc::Global;
use task_queue::QueueFault;

fn waiting_row(
    alloc: Global,
    task: &TaskId,
    group: &TaskId,
    source: &Name,
    kind: TaskKind,
    priority: u32,
    wants: &Items<Want>,
) -> Result<TaskRow, OutOfMemory>
    ensures { IfOk result (λ row. row ≡ waiting_row task.now group.now source.now kind priority wants.now) }
{
    let (task, group) = twin_both(alloc, task, group)?;
    match twin_both(alloc, source, wants) {
        Ok((source, wants)) => Ok(TaskRow {
            task,
            group,
            source,
            kind,
            priority,
            status: TaskStatus::Waiting,
            wants,
        }),
        Err(error) => {
            drop(task);
            drop(group);
            Err(error)
        }
    }
}

impl Core {
    // Adds the row, where none has its id, and tells this id.
    fn added(&mut self, row: TaskRow, task: TaskId) -> Result<Outcome, OutOfMemory>
        requires { task ≡ row.task }
        ensures { IfOk result (λ o. IsDone o self.new (submitted (task_of row.task self.old.tasks) self.old (as_waiting row))) }
    {
        match task_queue::submit(&mut self.tasks, row) {
            Ok(()) => Ok(changed(Reply::Submit {
                status: TaskStatus::Waiting,
                task,
            })),
            Err(fault) => {
                drop(task);
                queue_refused(fault)
            }
        }
    }

    fn submitted(&mut self, alloc: Global, row: TaskRow) -> Result<Outcome, OutOfMemory>
        ensures { IfOk result (λ o. IsDone o self.new (submitted (task_of row.task self.old.tasks) self.old (as_waiting row))) }
    {
        match row.task.twin(alloc) {
            Ok(task) => self.added(row, task),
            Err(error) => {
                drop(row);
                Err(error)
            }
        }
    }

    /// Adds a task, which waits, where none has its id.
    pub fn submit(
        &mut self,
        alloc: Global,
        task: &TaskId,
        group: &TaskId,
        source: &Name,
        kind: TaskKind,
        priority: u32,
        wants: &Items<Want>,
    ) -> Result<Outcome, OutOfMemory>
        ensures { IfOk result (λ o. IsDone o self.new (submitted (task_of task.now self.old.tasks) self.old (waiting_row task.now group.now source.now kind priority wants.now))) }
    {
        let row = waiting_row(alloc, task, group, source, kind, priority, wants)?;
        self.submitted(alloc, row)
    }

    /// Sets the status of a task.
    pub fn with_status(&mut self, task: &TaskId, status: TaskStatus)
        requires { IsSome (task_of task.now self.old.tasks) }
        ensures { self.new ≡ with_status task.now status self.old }
    {
        self.tasks.set_status(task, status);
    }

    fn may_end(&self, task: &TaskId, status: TaskStatus) -> Result<bool, QueueFault>
        ensures { EndsAs result task.now (task_of task.now self.now.tasks) self.now status }
    {
        task_queue::may_end(&self.tasks, task, status)
    }

    // The task leaves its locks. What a lock held that ends goes with it.
    fn left_all_locks(&mut self, alloc: Global, task: &TaskId) -> Result<(), OutOfMemory>
        ensures { OnOk result (self.new ≡ left_all_locks task.now self.old) }
    {
        let ended = release_all(alloc, &mut self.posses, task)?;
        self.pendings.take_posses(&ended);
        Ok(())
    }

    // A live replica is a task of the book. That needn't be known here: no row is set where none is
    // of the task.
    fn set_failed(&mut self, task: &TaskId)
        ensures { self.new ≡ with_status task.now Statuses.Failed self.old }
    {
        if self.has_task(task) {
            self.with_status(task, TaskStatus::Failed);
        }
    }

    fn failed(&mut self, alloc: Global, task: &TaskId) -> Result<(), OutOfMemory>
        ensures { OnOk result (self.new ≡ failed task.now self.old) }
    {
        self.left_all_locks(alloc, task)?;
        self.set_failed(task);
        Ok(())
    }

    /// These tasks fail, one after another, and leave their locks.
    pub fn all_failed(&mut self, alloc: Global, tasks: Vec<TaskId>) -> Result<(), OutOfMemory>
        ensures { OnOk result (self.new ≡ all_failed tasks.items self.old) }
    {
        for task in tasks {
            self.failed(alloc, &task)?;
        }
        Ok(())
    }

    // The sequence of a task that ends looks at who is left. Answers the tasks that fail with it.
    fn sequences_ended(&mut self, alloc: Global, task: &TaskId) -> Result<Vec<TaskId>, OutOfMemory>
        ensures tasks { IfOk result (λ tasks. tasks.items ≡ (ended_by_row (task_of task.now self.old.tasks) self.old).tasks) }
        ensures rows { OnOk result (self.new ≡ record self.old { sequences = (ended_by_row (task_of task.now self.old.tasks) self.old).sequences }) }
    {
        match self.tasks.get(task) {
            Some(row) => self.supervisors.ended(row, self.clock),
            None => Ok(Vec::new(alloc)),
        }
    }

    fn after_end(
        &mut self,
        alloc: Global,
        task: &TaskId,
        status: TaskStatus,
    ) -> Result<(), OutOfMemory>
        requires { IsSome (task_of task.now self.old.tasks) }
        ensures { (t : Row) → task_of task.now self.old.tasks ≡ Some t → t.task ≡ task.now → OnOk result (self.new ≡ after_end t status self.old) }
    {
        let failing = self.sequences_ended(alloc, task)?;
        self.left_all_locks(alloc, task)?;
        self.with_status(task, status);
        self.all_failed(alloc, failing)
    }

    fn end_running(
        &mut self,
        alloc: Global,
        task: &TaskId,
        status: TaskStatus,
    ) -> Result<Outcome, OutOfMemory>
        requires { IsSome (task_of task.now self.old.tasks) }
        ensures { (t : Row) → task_of task.now self.old.tasks ≡ Some t → t.task ≡ task.now → IfOk result (λ o. IsDone o self.new (end_running self.old t status)) }
    {
        let ended = task.twin(alloc)?;
        self.after_end(alloc, task, status)?;
        Ok(changed(Reply::End {
            status,
            task: ended,
        }))
    }

    /// Ends a task, which leaves its locks. Its sequence closes or is abandoned, where it comes to that.
    pub fn end_of_task(
        &mut self,
        alloc: Global,
        task: &TaskId,
        status: TaskStatus,
    ) -> Result<Outcome, OutOfMemory>
        ensures { IfOk result (λ o. IsDone o self.new (end_of_task (task_of task.now self.old.tasks) self.old status)) }
    {
        match self.may_end(task, status) {
            Ok(true) => self.end_running(alloc, task, status),
            Ok(false) => Ok(repeated(Reply::End {
                status,
                task: task.twin(alloc)?,
            })),
            Err(fault) => queue_refused(fault),
        }
    }
}
