//! `manage`.
ghost use Rattle.std.specs.Prelude.{◌≡◌, IfOk, IfSome, IsSome, OnOk, true};
ghost use Rattle.iv_time.specs.Range.{is_instant};
ghost use Rattle.book_rows.specs.Grant.{book_granted, counters_at};
ghost use Rattle.book_rows.specs.Outcome.{task_of};
ghost use Rattle.book_rows.specs.TaskSteps.{manage_outcome, managed, with_status};
ghost use Rattle.book_rows.specs.declared.kinds.TaskStatus.TheVariants.{Running};
ghost use Rattle.laws_locks.specs.LockShape.{HasSoundLocks};
ghost use Rattle.lockbox.specs.Decided.{WasDecided, decided};
ghost use Rattle.task_queue.specs.Waiting.{waiting_ids};
ghost use Rattle.book_core.specs.Decisions.{IsGranted, is_memory};
ghost use Rattle.book_core.specs.Done.{IsDone};
ghost use Rattle.book_core.specs.Managed.{managed_ids, managed_named, managed_with, started_with};

use crate::OutOfMemory;
use crate::outcomes::{Outcome, changed};
use crate::tables::Core;
use book_rows::{Granted, Items, Reply, TaskRow, TaskStatus};
use lockbox::LockFault;
use seg_names::TaskId;
use std::alloc::{AllocError, Global};

/// The ids of the tasks that run since now, and of those that still wait.
#[derive(Drop)]
pub struct Told {
    pub running: Items<TaskId>,
    pub waiting: Items<TaskId>,
}

fn is_memory(fault: LockFault) -> bool
    ensures { result ≡ is_memory fault }
{
    match fault {
        LockFault::OutOfMemory => true,
        LockFault::Revoked(_) => false,
        LockFault::Conflict(_) => false,
        LockFault::ClockEnd => false,
        LockFault::Full(_) => false,
    }
}

impl Core {
    fn waiting(&self, alloc: Global) -> Result<Vec<TaskId>, OutOfMemory>
        ensures { IfOk result (λ ids. ids.items ≡ waiting_ids self.now.tasks) }
    {
        task_queue::waiting(alloc, &self.tasks)
    }

    // What the task is granted, where it gets all its locks.
    fn granted(
        &self,
        alloc: Global,
        row: &TaskRow,
        now: i64,
    ) -> Result<Option<Granted>, OutOfMemory>
        requires sound { HasSoundLocks self.now }
        requires instant { is_instant now ≡ true }
        ensures { IfOk result (λ g. IsGranted g (decided self.now.posses (counters_at self.now now) row.now row.now.wants)) }
    {
        match self.decided(alloc, row, row.wants.as_slice(), now) {
            Ok(granted) => Ok(Some(granted)),
            Err(fault) => {
                if is_memory(fault) {
                    return Err(AllocError);
                }
                Ok(None)
            }
        }
    }

    // The task runs with what it is granted.
    fn run(&mut self, alloc: Global, task: &TaskId, granted: &Granted) -> Result<(), OutOfMemory>
        requires decided { WasDecided self.old.posses granted.now task.now }
        requires there { IsSome (task_of task.now self.old.tasks) }
        ensures { OnOk result (self.new ≡ with_status task.now Running (book_granted self.old task.now granted.now)) }
    {
        self.book_granted(alloc, granted, task)?;
        self.with_status(task, TaskStatus::Running);
        Ok(())
    }

    // It is told, whether it got all its locks or waits on.
    fn started(
        &mut self,
        alloc: Global,
        task: TaskId,
        granted: Option<Granted>,
        told: &mut Told,
    ) -> Result<(), OutOfMemory>
        requires decided { IfSome granted (λ g. WasDecided self.old.posses g task) }
        requires there { IsSome (task_of task self.old.tasks) }
        ensures { OnOk result (managed_with self.new told.new ≡ started_with granted task (managed_with self.old told.old)) }
    {
        match granted {
            Some(granted) => {
                let begun = self.run(alloc, &task, &granted);
                drop(granted);
                match begun {
                    Ok(()) => told.running.push(task),
                    Err(error) => {
                        drop(task);
                        Err(error)
                    }
                }
            }
            None => told.waiting.push(task),
        }
    }

    // The task of an id, where there is one.
    fn managed_named(
        &mut self,
        alloc: Global,
        task: TaskId,
        now: i64,
        told: &mut Told,
    ) -> Result<(), OutOfMemory>
        requires sound { HasSoundLocks self.old }
        requires instant { is_instant now ≡ true }
        ensures { OnOk result (managed_with self.new told.new ≡ managed_named now (task_of task self.old.tasks) (managed_with self.old told.old)) }
    {
        match self.task(&task) {
            Some(row) => {
                let granted = self.granted(alloc, row, now)?;
                self.started(alloc, task, granted, told)
            }
            None => Ok(()),
        }
    }

    fn managed_ids(
        &mut self,
        alloc: Global,
        ids: Vec<TaskId>,
        now: i64,
        told: &mut Told,
    ) -> Result<(), OutOfMemory>
        requires sound { HasSoundLocks self.old }
        requires instant { is_instant now ≡ true }
        ensures { OnOk result (managed_with self.new told.new ≡ managed_ids now ids.items (managed_with self.old told.old)) }
    {
        for task in ids {
            self.managed_named(alloc, task, now, told)?;
        }
        Ok(())
    }

    fn managed(&mut self, alloc: Global, now: i64) -> Result<Told, OutOfMemory>
        requires sound { HasSoundLocks self.old }
        requires instant { is_instant now ≡ true }
        ensures { IfOk result (λ told. managed_with self.new told ≡ managed self.old now) }
    {
        let ids = self.waiting(alloc)?;
        let mut told = Told {
            running: Items::new(alloc),
            waiting: Items::new(alloc),
        };
        self.at_moment(now);
        match self.managed_ids(alloc, ids, now, &mut told) {
            Ok(()) => Ok(told),
            Err(error) => {
                drop(told);
                Err(error)
            }
        }
    }

    /// Starts the waiting tasks that get all their locks, in the order in which they were submitted.
    pub fn manage(&mut self, alloc: Global, now: i64) -> Result<Outcome, OutOfMemory>
        requires sound { HasSoundLocks self.old }
        requires instant { is_instant now ≡ true }
        ensures { IfOk result (λ o. IsDone o self.new (manage_outcome (managed self.old now))) }
    {
        let told = self.managed(alloc, now)?;
        Ok(changed(Reply::Manage {
            running: told.running,
            waiting: told.waiting,
        }))
    }
}
